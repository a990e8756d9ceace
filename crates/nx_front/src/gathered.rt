// The labels of documents that were asked for, each gathered once.
ghost use Rattle.std.proofs.Props.{props};
ghost use Rattle.std.specs.BTreeMap.{IsOrdered};
ghost use Rattle.nx_pyx.specs.DocumentName.{vector_order};

use nx_find::Names;
use nx_lists::NoMemory;
use std::alloc::Global;
use std::collections::BTreeMap;

// What was gathered, by the documents' names.
#[derive(Drop)]
pub struct Gathered {
    names: BTreeMap<Vec<u8>, Names>,
    ghost ordered: { IsOrdered vector_order names } by { Prim.hlevel props },
}

impl Gathered {
    ghost use Rattle.std.specs.Prelude.{◌≡◌, ℕ, List, None, Some, is_some, MatchOption, OnOk};
    ghost use Rattle.std.specs.FinMap.{insert};
    ghost use Rattle.nx_catalog.specs.NameMap.{map_in};
    ghost use Rattle.nx_front.specs.Gathered.{labels_in};

    // Before anything was gathered. It takes no memory.
    pub fn new(alloc: Global) -> Gathered
        ensures { (name : List ℕ) → labels_in result name ≡ None }
    {
        Gathered {
            names: BTreeMap::new(alloc),
        }
    }

    // Whether something was gathered of the document of that name.
    pub fn has(&self, name: &[u8]) -> bool
        ensures { result ≡ is_some (labels_in self.now name.now) }
    {
        self.names.contains_key(name)
    }

    // What was gathered of it.
    pub fn get(&self, name: &[u8]) -> Option<&Names>
        ensures { MatchOption result (labels_in self.now name.now ≡ None) (λ names. labels_in self.now name.now ≡ Some names.now) }
    {
        self.names.get(name)
    }

    // Keeps what was gathered of it.
    //
    // Errors: `NoMemory`.
    pub fn keep(&mut self, alloc: Global, name: &[u8], names: Names) -> Result<(), NoMemory>
        ensures { OnOk result (map_in self.new.names ≡ insert (map_in self.old.names) name.now names) }
    {
        let key = Vec::from_slice(alloc, name)?;
        self.names.insert(key, names)?;
        Ok(())
    }
}
