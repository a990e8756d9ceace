// What the choices over the last children of a node may leave with it, by what they cost.
ghost use Rattle.std.specs.Prelude.{◌≡◌, ℕ, ◌+◌, ◌-◌, ◌<◌, ◌≤◌, ◌^◌, [], List, length, min, vec_len, slice_index, IfOk, OnOk};
ghost use Rattle.nx_choices.specs.Choice.{AreWeighed};
ghost use Rattle.nx_choices.specs.Profile.{lefts_of, weigh, IsProfile, IsStarted, IsLowered, IsFirstLight};
ghost use Rattle.nx_choices.specs.declared.reach.Form.TheVariants.{Plain};

use crate::Child;
use crate::profiles::{Profiles, Row};
use nx_lists::NoMemory;
use std::alloc::Global;

// For each cost of a choice the least weight that is left.
#[derive(Drop)]
pub(crate) struct Profile {
    // With a cost below this one no choice leaves so little that there is room for it.
    pub(crate) base: u32,
    // What is left for each cost from `base` on. For all greater costs it is nothing.
    pub(crate) lefts: Vec<u32>,
}

impl Profile {
    // That of no children.
    pub(crate) fn new(alloc: Global) -> Profile
        ensures base { result.base ≡ 0 }
        ensures lefts { result.lefts.items ≡ [] }
    {
        Profile {
            base: 0,
            lefts: Vec::new(alloc),
        }
    }

    // Makes it that of no children again.
    pub(crate) fn reset(&mut self)
        ensures base { self.new.base ≡ 0 }
        ensures lefts { self.new.lefts.items ≡ [] }
    {
        self.base = 0;
        self.lefts.clear();
    }

    // The cost from which on nothing is left.
    pub(crate) fn end(&self) -> u32
        requires { self.now.base + vec_len self.now.lefts < 2 ^ 32 }
        ensures { result ≡ self.now.base + vec_len self.now.lefts }
    {
        self.base + self.lefts.len() as u32
    }

    // The first child is uncut and the others are as in `after`, or the first ones are an interval and the
    // others are as in `beyond`.
    pub(crate) fn start(
        &mut self,
        lean: u32,
        room: u32,
        profiles: &Profiles,
        after: Row,
        beyond: Row,
    ) -> Result<(), NoMemory>
        requires lean { lean ≤ 256 }
        requires room { room ≤ 256 }
        requires after { after.base + 1 < 2 ^ 32 }
        requires beyond { beyond.base + beyond.len + 1 < 2 ^ 32 }
        requires after_inside { after.start + after.len ≤ length profiles.now.lefts.items }
        requires beyond_inside { beyond.start + beyond.len ≤ length profiles.now.lefts.items }
        requires small { (index : ℕ) → slice_index (lefts_of profiles.now.lefts.items after) index ≤ 257 }
        ensures base { OnOk result (self.new.base ≡ after.base) }
        ensures lefts { OnOk result (IsStarted room lean after.base (lefts_of profiles.now.lefts.items after) beyond.base (lefts_of profiles.now.lefts.items beyond) self.new.lefts.items) }
    {
        self.base = after.base;
        self.lefts.clear();
        for cost in after.base..beyond.base + beyond.len + 1 {
            let uncut = profiles.left_at(after, 0, cost, 0) + lean;
            let cut = profiles.left_at(beyond, 1, cost, room + 1);
            self.lefts.push(uncut.min(cut))?;
        }
        Ok(())
    }

    // For a cost of which `extra` is spent on an interval of the first children, the others may be as in
    // `beyond`.
    pub(crate) fn lower(&mut self, extra: u32, room: u32, profiles: &Profiles, beyond: Row)
        requires room { room ≤ 256 }
        requires end { self.old.base + vec_len self.old.lefts < 2 ^ 32 }
        requires beyond { beyond.base + extra < 2 ^ 32 }
        requires inside { beyond.start + beyond.len ≤ length profiles.now.lefts.items }
        ensures base { self.new.base ≡ self.old.base }
        ensures lefts { IsLowered (room + 1) self.old.base self.old.lefts.items (beyond.base + extra) (lefts_of profiles.now.lefts.items beyond) self.new.lefts.items }
    {
        for index in 0..self.lefts.len() {
            let cut = profiles.left_at(beyond, extra, self.base + index as u32, room + 1);
            let left = self.lefts[index];
            self.lefts[index] = left.min(cut);
        }
    }

    // Makes it that of children that weigh so much together, all of which may stay with the node.
    pub(crate) fn fill(&mut self, total: u32) -> Result<(), NoMemory>
        ensures { OnOk result ((k room : ℕ) (children : List Child) → AreWeighed k children → total ≡ weigh Plain children → total ≤ room → room ≤ k → IsProfile k room children self.new.base self.new.lefts.items) }
    {
        self.reset();
        if total > 0 {
            self.lefts.push(total)?;
        }
        Ok(())
    }

    // The same without the costs beyond the first that leaves nothing.
    pub(crate) fn cut_end(&mut self)
        requires end { self.old.base + vec_len self.old.lefts < 2 ^ 32 }
        ensures end { self.new.base + vec_len self.new.lefts < 2 ^ 32 }
        ensures profile { (k room : ℕ) (children : List Child) → IsProfile k room children self.old.base self.old.lefts.items → IsProfile k room children self.new.base self.new.lefts.items }
    {
        if let Some(index) = first_at_most(&self.lefts, 0) {
            self.lefts.truncate(index);
        }
    }

    // The same without the first cost, where it has no choice.
    pub(crate) fn cut_start(&mut self, room: u32)
        requires end { self.old.base + vec_len self.old.lefts < 2 ^ 32 }
        ensures { (k : ℕ) (children : List Child) → IsProfile k room children self.old.base self.old.lefts.items → IsProfile k room children self.new.base self.new.lefts.items }
    {
        if get_or_zero(&self.lefts, 0) > room {
            self.base += 1;
            self.lefts.remove(0);
        }
    }
}

// The number at the index, or 0 beyond the end.
pub(crate) fn get_or_zero(numbers: &Vec<u32>, index: usize) -> u32
    ensures { result ≡ slice_index numbers.now.items index }
{
    numbers.get(index).copied().unwrap_or(0)
}

// The index of the first number that is at most `most`.
pub(crate) fn first_at_most(numbers: &Vec<u32>, most: u32) -> Option<usize>
    ensures { IsFirstLight most numbers.now.items result }
{
    numbers.iter().position(|number| *number <= most)
}
