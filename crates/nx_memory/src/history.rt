// What changed a disk in memory and its output, and the bytes that were written over.
ghost use Rattle.std.specs.Prelude.{◌≡◌, ◌+◌, ◌*◌, ◌/◌, ◌^◌, ◌≤◌, ◌++◌, ◌∷◌, [], length, IfOk, IsTrue, ◌↔◌};
ghost use Rattle.std.specs.Vec.{vec_capacity};

use nx_host::Area;
use nx_lists::NoMemory;
use std::alloc::Global;

// How much of a history's room one change takes, beside the bytes that it wrote over.
const STEP: u64 = 32;

/// What changed an area or the output.
#[derive(Clone, Copy, Debug, PartialEq, Eq)]
pub(crate) enum Change {
    /// So many bytes were written at an offset of an area that had so many before.
    Write {
        area: Area,
        at: u64,
        count: u64,
        was: u64,
    },
    /// What was written to an area was made durable.
    Sync {
        area: Area,
    },
    /// The output had so many bytes before.
    Emit {
        was: u64,
    },
}

/// The changes so far, and the bytes that they wrote over, in the room that was reserved for both.
#[derive(Drop)]
pub(crate) struct History {
    pub(crate) changes: Vec<Change>,
    pub(crate) covered: Vec<u8>,
    pub(crate) room: u64,
    ghost low: { room ≤ 2 ^ 32 },
    ghost within: { 32 * length changes.items + length covered.items ≤ room },
    ghost slots: { room / 32 ≤ vec_capacity changes },
    ghost bytes: { room ≤ vec_capacity covered },
}

impl History {
    /// No changes, with so many bytes of room.
    pub(crate) fn new(alloc: Global, room: u64) -> Result<History, NoMemory>
        requires { room ≤ 2 ^ 32 }
        ensures changes { IfOk result (λ history. history.changes.items ≡ []) }
        ensures covered { IfOk result (λ history. history.covered.items ≡ []) }
        ensures room { IfOk result (λ history. history.room ≡ room) }
    {
        Ok(History {
            changes: Vec::with_capacity(alloc, (room / STEP) as usize)?,
            covered: Vec::with_capacity(alloc, room as usize)?,
            room,
        })
    }

    /// Whether one change more has room, which writes over so many bytes.
    pub(crate) fn has_room(&self, covered: usize) -> bool
        ensures { IsTrue result ↔ (32 * (length self.now.changes.items + 1) + length self.now.covered.items + covered ≤ self.now.room) }
    {
        let taken = STEP * (self.changes.len() as u64 + 1) + self.covered.len() as u64;
        taken <= self.room && covered as u64 <= self.room - taken
    }

    /// Adds a change that wrote over these bytes.
    pub(crate) fn add(&mut self, change: Change, covered: &[u8])
        requires { 32 * (length self.old.changes.items + 1) + length self.old.covered.items + length covered.now ≤ self.old.room }
        ensures changes { self.new.changes.items ≡ self.old.changes.items ++ change ∷ [] }
        ensures covered { self.new.covered.items ≡ self.old.covered.items ++ covered.now }
        ensures room { self.new.room ≡ self.old.room }
    {
        let Ok(_) = self.changes.push(change) else {
            unreachable!()
        };
        let Ok(_) = self.covered.extend_from_slice(covered) else {
            unreachable!()
        };
    }
}
