// The documents and the rules of a store, in memory.
ghost use Rattle.std.specs.Prelude.{◌≡◌, ◌⊎◌, ◌<◌, ◌≤◌, [], true, length, IsTrue, Some, MatchOption, IfOk, OnOk, OnErr, slice_get};
ghost use Rattle.std.specs.Borrow.{sem};
ghost use Rattle.std.specs.FinMap.{empty, entries, get, insert, remove, contains_key};
ghost use Rattle.nx_pyx.specs.DocumentName.{is_document_name, by_bytes};

use crate::saving::{copied, copied_documents};
use nx_hold::DocEntry;
use nx_lists::NoMemory;
use nx_matrix::Matrix;
use std::alloc::Global;
use std::collections::BTreeMap;
use std::collections::btree_map::Iter;
use std::marker::Model;

/// The documents of a store by their names, and the rules of its split matrix. Contracts see a finite
/// map and a list. It keeps its allocator.
#[derive(Drop)]
pub struct Catalog {
    pub(crate) alloc: Global,
    pub(crate) documents: BTreeMap<Vec<u8>, DocEntry>,
    pub(crate) matrix: Matrix,
    // Where the entries of documents stand in the catalog's bytes, by their names; none where it isn't known.
    pub(crate) places: BTreeMap<Vec<u8>, u64>,
}

impl Model for Catalog {
    ghost use Rattle.nx_catalog.specs.Catalog.{Contents};
    ghost use Rattle.nx_catalog.specs.Codes.{contents_code};
    ghost use Rattle.nx_catalog.specs.NameMap.{map_in};
    ghost use Rattle.nx_catalog.specs.Inside.{AreDocumentEntries, ArePlaces};
    ghost use Rattle.nx_pyx.specs.DocumentName.{by_bytes};

    ghost Value = { Contents };

    ghost coded = { contents_code };

    ghost view = { λ a. record { documents = map_in a.documents; rules = a.matrix } };

    ghost invariant = { λ a. AreDocumentEntries a.documents × ArePlaces (by_bytes a.documents.entries) a.matrix a.places };
}

/// A document's name, and where it stands.
#[derive(Clone, Copy)]
pub struct Named<'a> {
    pub name: &'a [u8],
    pub entry: DocEntry,
}

impl Catalog {
    ghost use Rattle.nx_catalog.specs.Lending.{LendsRules};

    /// No documents and no rules. It takes no memory.
    pub fn new(alloc: Global) -> Catalog
        ensures { result ≡ record { documents = empty; rules = [] } }
    {
        Catalog {
            alloc,
            documents: BTreeMap::new(alloc),
            matrix: Matrix::new(alloc),
            places: BTreeMap::new(alloc),
        }
    }

    /// The same catalog once more. It reads no page.
    ///
    /// Errors: `NoMemory`.
    pub fn copied(&self) -> Result<Catalog, NoMemory>
        ensures { IfOk result (λ copy. copy ≡ self.now) }
    {
        let matrix = copied(self.alloc, &self.matrix)?;
        let documents = copied_documents(&self.documents)?;
        Ok(Catalog {
            alloc: self.alloc,
            documents,
            matrix,
            places: BTreeMap::new(self.alloc),
        })
    }

    /// The number of documents. It takes no memory.
    pub fn len(&self) -> u32
        ensures { result ≡ length (entries self.now.documents) }
    {
        self.documents.len() as u32
    }

    /// The document with that index in the order of the names' bytes, `None` exactly from `len` on. It
    /// goes over the documents before it, and takes no memory.
    pub fn at(&self, index: u32) -> Option<Named<'_>>
        ensures { MatchOption result (length (entries self.now.documents) ≤ index)
            (λ named. slice_get (entries self.now.documents) index ≡ Some (named.name.now, named.entry)) }
    {
        match self.documents.iter().nth(index as usize) {
            Some((name, entry)) => Some(Named {
                name: name.as_slice(),
                entry: *entry,
            }),
            None => None,
        }
    }

    /// The documents in the order of the names' bytes. It takes no memory.
    pub fn iter(&self) -> Iter<'_, Vec<u8>, DocEntry>
        ensures { by_bytes result ≡ entries self.now.documents }
    {
        self.documents.iter()
    }

    /// Where the document of that name stands, if there is one. It takes no memory.
    pub fn find(&self, name: &[u8]) -> Option<DocEntry>
        ensures { result ≡ get self.now.documents name.now }
    {
        self.documents.get(name).copied()
    }

    /// Puts a document under a name, or another entry under a name that is there. A document may have
    /// the name, and the name is there or fewer than 4,294,967,295 documents are.
    ///
    /// Errors: `NoMemory`. The catalog is as it was then.
    pub fn set(&mut self, name: &[u8], entry: DocEntry) -> Result<(), NoMemory>
        requires named { IsTrue (is_document_name name.now) }
        requires room { (contains_key self.old.documents name.now ≡ true) ⊎ (length (entries self.old.documents) < 4294967295) }
        ensures documents { OnOk result (self.new.documents ≡ insert self.old.documents name.now entry) }
        ensures rules { self.new.rules ≡ self.old.rules }
        ensures err { OnErr result (self.new ≡ self.old) }
    {
        numbers_fit(entry.root.page, entry.root.slot, entry.nodes);
        self.places = BTreeMap::new(self.alloc);
        let key = Vec::from_slice(self.alloc, name)?;
        self.documents.insert(key, entry)?;
        Ok(())
    }

    /// Takes the document of that name away, where there is one. It takes no memory.
    pub fn remove(&mut self, name: &[u8])
        ensures documents { self.new.documents ≡ remove self.old.documents name.now }
        ensures rules { self.new.rules ≡ self.old.rules }
    {
        self.places = BTreeMap::new(self.alloc);
        let _ = self.documents.remove(name);
    }

    /// The rules. It takes no memory.
    pub fn matrix(&self) -> &Matrix
        ensures { result.now ≡ self.now.rules }
    {
        &self.matrix
    }

    /// The rules, to be changed. The documents stay. It takes no memory.
    pub fn matrix_mut(&mut self) -> &mut Matrix
        ensures* lends { sem 𝓛 (LendsRules self.entry result) }
        ensures rules { result.now ≡ self.old.rules }
    {
        self.places = BTreeMap::new(self.alloc);
        &mut self.matrix
    }
}

// Tells contracts, of each number of an entry, that it fits its type.
pub(crate) fn numbers_fit(page: u32, slot: u16, nodes: u32)
    ensures { (page < 4294967296) × (slot < 65536) × (nodes < 4294967296) }
{}
