// The profiles of the last children of a node, of all lengths, beside each other.
ghost use Rattle.std.specs.Prelude.{◌≡◌, ℕ, ◌+◌, ◌-◌, ◌<◌, ◌≤◌, ◌^◌, List, [], drop, length, slice_index, vec_len, OnOk};
ghost use Rattle.nx_choices.specs.Profile.{left_at, lefts_of, last, AreProfiles, IsProfile, IsRowOf};

use crate::Child;
use crate::profile::Profile;
use nx_lists::NoMemory;
use std::alloc::Global;

// Where the numbers of a profile stand.
#[derive(Clone, Copy)]
pub(crate) struct Row {
    pub(crate) start: usize,
    pub(crate) len: u32,
    pub(crate) base: u32,
}

#[derive(Drop)]
pub(crate) struct Profiles {
    // That of no children, that of the last child, that of the last two, and so on.
    pub(crate) rows: Vec<Row>,
    // The numbers of all of them, each at most 257.
    pub(crate) lefts: Vec<u16>,
}

impl Profiles {
    // They take no memory yet.
    pub(crate) fn new(alloc: Global) -> Profiles {
        Profiles {
            rows: Vec::new(alloc),
            lefts: Vec::new(alloc),
        }
    }

    // Makes them those of no children.
    pub(crate) fn reset(&mut self) -> Result<(), NoMemory>
        ensures rows { OnOk result (vec_len self.new.rows ≡ 1) }
        ensures profiles { OnOk result ((k room : ℕ) → AreProfiles k room [] self.new) }
    {
        self.rows.clear();
        self.lefts.clear();
        self.rows.push(Row {
            start: 0,
            len: 0,
            base: 0,
        })?;
        Ok(())
    }

    // Adds the profile of one child more.
    pub(crate) fn push(&mut self, profile: &Profile) -> Result<(), NoMemory>
        requires end { profile.now.base + vec_len profile.now.lefts < 2 ^ 32 }
        requires small { (index : ℕ) → slice_index profile.now.lefts.items index ≤ 257 }
        ensures rows { OnOk result (vec_len self.new.rows ≡ vec_len self.old.rows + 1) }
        ensures profiles { OnOk result ((k room : ℕ) (children : List Child) → vec_len self.old.rows ≡ length children → AreProfiles k room (drop 1 children) self.old → IsProfile k room children profile.now.base profile.now.lefts.items → AreProfiles k room children self.new) }
    {
        let row = Row {
            start: self.lefts.len(),
            len: profile.lefts.len() as u32,
            base: profile.base,
        };
        for left in &profile.lefts {
            self.lefts.push(*left as u16)?;
        }
        self.rows.push(row)?;
        Ok(())
    }

    // The profile of the last `number` children.
    pub(crate) fn of_last(&self, number: usize) -> Row
        requires { number < vec_len self.now.rows }
        ensures { (k room : ℕ) (children : List Child) → number ≤ length children → AreProfiles k room children self.now → IsRowOf k room (last number children) self.now.lefts.items result }
    {
        self.rows[number]
    }

    // What is left for a cost of which `extra` is spent elsewhere: `none` where it's below the base.
    pub(crate) fn left_at(&self, row: Row, extra: u32, cost: u32, none: u32) -> u32
        requires inside { row.start + row.len ≤ length self.now.lefts.items }
        requires base { row.base + extra < 2 ^ 32 }
        ensures { result ≡ left_at none (row.base + extra) (lefts_of self.now.lefts.items row) cost }
    {
        let base = row.base + extra;
        if cost < base {
            return none;
        }
        let index = cost - base;
        if index < row.len {
            u32::from(self.lefts[row.start + index as usize])
        } else {
            0
        }
    }
}
