// Which bytes were given to a host once more.
ghost use Rattle.std.specs.Prelude.{◌≡◌, ◌+◌, ◌<◌, ◌≤◌, ◌++◌, ◌∷◌, [], length, IfOk, IsTrue, IsFalse, ◌↔◌};
ghost use Rattle.std.specs.Vec.{vec_capacity};

use nx_host::Area;
use nx_lists::NoMemory;
use std::alloc::Global;

// For how many bytes there is room.
const MOST: usize = 64;

/// A byte of an area.
#[derive(Clone, Copy, Debug, PartialEq, Eq)]
pub(crate) struct Renewal {
    pub(crate) area: Area,
    pub(crate) at: u64,
}

/// The bytes that were renewed, in this order, 64 at most.
#[derive(Drop)]
pub(crate) struct Renewals {
    pub(crate) bytes: Vec<Renewal>,
    ghost room: { 64 ≤ vec_capacity bytes },
}

impl Renewals {
    /// None was renewed.
    pub(crate) fn new(alloc: Global) -> Result<Renewals, NoMemory>
        ensures { IfOk result (λ renewals. renewals.bytes.items ≡ []) }
    {
        Ok(Renewals {
            bytes: Vec::with_capacity(alloc, MOST)?,
        })
    }

    /// Notes one more, where there is room, and says whether there was.
    pub(crate) fn add(&mut self, area: Area, at: u64) -> bool
        ensures room { IsTrue result ↔ (length self.old.bytes.items < 64) }
        ensures added { IsTrue result → self.new.bytes.items ≡ self.old.bytes.items ++ record { area = area; at = at } ∷ [] }
        ensures refused { IsFalse result → self.new ≡ self.old }
    {
        if self.bytes.len() >= MOST {
            return false;
        }
        let Ok(_) = self.bytes.push(Renewal { area, at }) else {
            unreachable!()
        };
        true
    }
}
