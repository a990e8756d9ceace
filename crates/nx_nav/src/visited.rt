// The records that a walk has come to.
ghost use Rattle.std.specs.Prelude.{◌≡◌, ◌<◌, ◌++◌, ◌∷◌, [], ℕ, List, length, Contains, IfOk, OnOk};
ghost use Rattle.std.specs.Bool.{MatchBool};
ghost use Rattle.nx_layouts.specs.Layout.{RecordPlace};
ghost use Rattle.nx_hold.specs.Changes.{place_of};
ghost use Rattle.nx_nav.specs.Visited.{HasVisited, is_set, SetsFlag};

use nx_records::Rid;
use nx_tree::NoMemory;
use std::alloc::Global;
use std::collections::BTreeMap;

// The places that a walk has come to: by the number of a page, a flag for each of its slots, up to the
// greatest that it came to.
#[derive(Drop)]
pub struct Visited {
    pages: BTreeMap<u32, Vec<bool>>,
    alloc: Global,
}

impl Visited {
    // No place. It takes no memory.
    pub fn new(alloc: Global) -> Visited
        ensures { HasVisited result [] }
    {
        Visited {
            pages: BTreeMap::new(alloc),
            alloc,
        }
    }

    // Comes to a place, and says whether it is new.
    pub fn visit(&mut self, rid: Rid) -> Result<bool, NoMemory>
        ensures { IfOk result (λ new. (places : List RecordPlace) → HasVisited self.old places →
            MatchBool new (HasVisited self.new (places ++ place_of rid ∷ [])) (Contains places (place_of rid))) }
    {
        if let Some(flags) = self.pages.get_mut(&rid.page) {
            return set(flags, rid.slot);
        }
        let mut flags = Vec::new(self.alloc);
        let new = set(&mut flags, rid.slot)?;
        self.pages.insert(rid.page, flags)?;
        Ok(new)
    }
}

// Sets a slot's flag, and says whether it wasn't set.
fn set(flags: &mut Vec<bool>, slot: u16) -> Result<bool, NoMemory>
    ensures { IfOk result (λ new. SetsFlag slot new flags.old.items flags.new.items) }
{
    let slot = usize::from(slot);
    if flags.len() <= slot {
        lengthen(flags, slot + 1)?;
    }
    if flags[slot] {
        return Ok(false);
    }
    flags[slot] = true;
    Ok(true)
}

// Makes the flags so many, where they are fewer. The new ones aren't set.
fn lengthen(flags: &mut Vec<bool>, len: usize) -> Result<(), NoMemory>
    requires { length flags.old.items < len }
    ensures long { OnOk result (length flags.new.items ≡ len) }
    ensures same { OnOk result ((slot : ℕ) → is_set flags.new.items slot ≡ is_set flags.old.items slot) }
{
    flags.resize(len, false)?;
    Ok(())
}
