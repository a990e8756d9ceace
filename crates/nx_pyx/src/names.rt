// A set of names.
ghost use Rattle.std.specs.Prelude.{◌≡◌, ℕ, List, [], ◌∷◌, true, not, IfOk};
ghost use Rattle.nx_pyx.specs.Fault.{is_among};
ghost use Rattle.nx_pyx.specs.Names.{HoldsNames};

use nx_tree::NoMemory;
use std::alloc::Global;
use std::collections::BTreeSet;

// The names of an element's attributes. It is ordered, so that a name among many is found soon,
// whatever the names are.
#[derive(Drop)]
pub struct Names {
    alloc: Global,
    names: BTreeSet<Vec<u8>>,
}

impl Names {
    // No name. It takes no memory.
    pub fn new(alloc: Global) -> Names
        ensures { HoldsNames result [] }
    {
        Names {
            alloc,
            names: BTreeSet::new(alloc),
        }
    }

    // Takes every name away.
    pub fn clear(&mut self)
        ensures { HoldsNames self.new [] }
    {
        // Most elements have no attribute.
        if !self.names.is_empty() {
            self.names.clear();
        }
    }

    // Adds the name, and says whether it is new.
    pub fn insert(&mut self, name: &[u8]) -> Result<bool, NoMemory>
        ensures { IfOk result (λ new. (names : List (List ℕ)) → HoldsNames self.old names →
            (new ≡ not (is_among name.now names)) × (new ≡ true → HoldsNames self.new (name.now ∷ names))) }
    {
        Ok(self.names.insert(Vec::from_slice(self.alloc, name)?)?)
    }
}
