// Changes of a catalog that are saved, or not made.
ghost use Rattle.std.specs.Prelude.{◌≡◌, ◌⊎◌, ◌<◌, true, false, length, All, IsTrue, Some, Option, IfOk, IfErr, IfSome, OnOk, OnErr};
ghost use Rattle.std.specs.FinMap.{entries, get, insert, remove, contains_key};
ghost use Rattle.nx_host.specs.Still.{IsStill};
ghost use Rattle.nx_records.specs.Records.{KeepsSaved, ComesTo, HasChanges, has_ended};
ghost use Rattle.nx_records.specs.Changes.{SetsCatalog, catalog_needs};
ghost use Rattle.nx_records.specs.Refusals.{NotChanged, NotStored, RunsOn, EndNow};
ghost use Rattle.nx_pyx.specs.DocumentName.{is_document_name, by_bytes};
ghost use Rattle.nx_matrix.specs.RuleLabels.{HasLabels};
ghost use Rattle.nx_hold.specs.declared.entry.DocEntry.{DocEntry};
ghost use Rattle.nx_catalog.specs.NameMap.{map_in};
ghost use Rattle.nx_catalog.specs.Inside.{AreDocumentEntries, names_of, IsPlaceOf, HavePlaces};
ghost use Rattle.nx_catalog.specs.Catalog.{Entries, entries_renamed, IsCatalog, catalog_bytes};
ghost use Rattle.nx_catalog.specs.Saving.{SavesEntry, MakesRule, NotRuled};
ghost use Rattle.nx_matrix.specs.Rules.{AreRules};

use crate::Catalog;
use crate::catalog::numbers_fit;
use crate::writing::entry_bytes;
use nx_hold::DocEntry;
use nx_host::Disk;
use nx_lists::NoMemory;
use nx_matrix::{Matrix, MatrixError, Rule};
use nx_records::{Records, StoreError};
use std::alloc::Global;
use std::collections::BTreeMap;
use std::mem;

/// Why a rule wasn't made.
#[derive(Clone, Copy, Debug, PartialEq, Eq)]
pub enum RuleError {
    /// The pair of labels has no rule, it is to get one, and there are 4,096.
    TooManyRules,
    /// The records give up.
    Store(StoreError),
}

impl Catalog {
    /// Puts a document under a name, or another entry under a name that is there, and makes this the catalog of
    /// the records, whose catalog is what this one is before. A document may have the name, and the name is there
    /// or fewer than 4,294,967,295 documents are. Where the name is there, the ten bytes of its entry alone are put
    /// in the place of the old ones; they are found without a walk over the documents, but the first time and
    /// behind another call that changes the catalog. What is said of the catalog that comes holds where that of
    /// the records was this one before; else its bytes alone are changed, and nothing beside it.
    ///
    /// Errors: those of `save` at the new catalog. The catalog is as it was then.
    pub fn save_entry<D: Disk>(
        &mut self,
        records: &mut Records,
        disk: &mut D,
        name: &[u8],
        entry: DocEntry,
    ) -> Result<(), StoreError>
        requires named { IsTrue (is_document_name name.now) }
        requires room { (contains_key self.old.documents name.now ≡ true) ⊎ (length (entries self.old.documents) < 4294967295) }
        ensures still { IsStill D.Disk disk.old disk.new }
        ensures documents { OnOk result (self.new.documents ≡ insert self.old.documents name.now entry) }
        ensures rules { self.new.rules ≡ self.old.rules }
        ensures ok { OnOk result (ComesTo D.Disk records.old records.new disk.old disk.new (λ was now. SavesEntry self.old self.new was now)) }
        ensures keeps { OnOk result (RunsOn records.old records.new × KeepsSaved D.Disk records.old records.new disk.old disk.new × HasChanges records.new) }
        ensures form { OnOk result (All HasLabels self.old.rules → IsCatalog (catalog_bytes self.new) self.new) }
        ensures err { OnErr result (self.new ≡ self.old) }
        ensures refused { IfErr result (λ e. NotStored D.Disk (λ was. catalog_needs (catalog_bytes (record { documents = insert self.old.documents name.now entry; rules = self.old.rules })) was) (λ was. ⊥) 0 e records.old records.new disk.old disk.new) }
    {
        if records.is_ended() {
            return Err(StoreError::Ended);
        }
        let Ok(place) = self.place_of(name) else {
            return Err(StoreError::Memory);
        };
        match place {
            Some(at) => self.save_at(records, disk, name, entry, at),
            None => self.save_set(records, disk, name, entry),
        }
    }

    // Puts another entry under a name whose entry stands there, and in its place in the catalog of the records.
    fn save_at<D: Disk>(
        &mut self,
        records: &mut Records,
        disk: &mut D,
        name: &[u8],
        entry: DocEntry,
        at: u64,
    ) -> Result<(), StoreError>
        requires runs { has_ended records.old ≡ false }
        requires named { IsTrue (is_document_name name.now) }
        requires place { IsPlaceOf (entries self.old.documents) name.now at × AreRules self.old.rules }
        ensures still { IsStill D.Disk disk.old disk.new }
        ensures documents { OnOk result (self.new.documents ≡ insert self.old.documents name.now entry) }
        ensures rules { self.new.rules ≡ self.old.rules }
        ensures ok { OnOk result (ComesTo D.Disk records.old records.new disk.old disk.new (λ was now. SavesEntry self.old self.new was now)) }
        ensures keeps { OnOk result (RunsOn records.old records.new × KeepsSaved D.Disk records.old records.new disk.old disk.new × HasChanges records.new) }
        ensures form { OnOk result (All HasLabels self.old.rules → IsCatalog (catalog_bytes self.new) self.new) }
        ensures err { OnErr result (self.new ≡ self.old) }
        ensures refused { IfErr result (λ e. NotStored D.Disk (λ was. catalog_needs (catalog_bytes (record { documents = insert self.old.documents name.now entry; rules = self.old.rules })) was) (λ was. ⊥) 0 e records.old records.new disk.old disk.new) }
    {
        if records.catalog_length().saturating_sub(at) < 10 {
            return self.save_set(records, disk, name, entry);
        }
        let Ok(bytes) = entry_bytes(self.alloc, entry) else {
            return Err(StoreError::Memory);
        };
        records.change_catalog(self.alloc, disk, at, bytes.as_slice())?;
        put_at(&mut self.documents, name, entry);
        Ok(())
    }

    // Puts a document under a name, or another entry, and saves the whole catalog.
    fn save_set<D: Disk>(
        &mut self,
        records: &mut Records,
        disk: &mut D,
        name: &[u8],
        entry: DocEntry,
    ) -> Result<(), StoreError>
        requires runs { has_ended records.old ≡ false }
        requires named { IsTrue (is_document_name name.now) }
        requires room { (contains_key self.old.documents name.now ≡ true) ⊎ (length (entries self.old.documents) < 4294967295) }
        ensures still { IsStill D.Disk disk.old disk.new }
        ensures documents { OnOk result (self.new.documents ≡ insert self.old.documents name.now entry) }
        ensures rules { self.new.rules ≡ self.old.rules }
        ensures ok { OnOk result (ComesTo D.Disk records.old records.new disk.old disk.new (λ was now. SavesEntry self.old self.new was now)) }
        ensures keeps { OnOk result (RunsOn records.old records.new × KeepsSaved D.Disk records.old records.new disk.old disk.new × HasChanges records.new) }
        ensures form { OnOk result (All HasLabels self.old.rules → IsCatalog (catalog_bytes self.new) self.new) }
        ensures err { OnErr result (self.new ≡ self.old) }
        ensures refused { IfErr result (λ e. NotStored D.Disk (λ was. catalog_needs (catalog_bytes (record { documents = insert self.old.documents name.now entry; rules = self.old.rules })) was) (λ was. ⊥) 0 e records.old records.new disk.old disk.new) }
    {
        let before = self.find(name);
        let Ok(()) = self.set(name, entry) else {
            return Err(StoreError::Memory);
        };
        match self.save(records, disk) {
            Ok(()) => Ok(()),
            Err(error) => {
                self.put_back(name, before);
                Err(error)
            }
        }
    }

    // Where the entry of that name stands in the catalog's bytes, where there is one. Where no place is known,
    // all are found.
    fn place_of(&mut self, name: &[u8]) -> Result<Option<u64>, NoMemory>
        ensures stays { self.new ≡ self.old }
        ensures place { IfOk result (λ found. IfSome found (λ at. IsPlaceOf (entries self.old.documents) name.now at × AreRules self.old.rules)) }
    {
        self.find_places()?;
        Ok(self.places.get(name).copied())
    }

    // Finds where all entries stand in the catalog's bytes, where no place is known.
    fn find_places(&mut self) -> Result<(), NoMemory>
        ensures { self.new ≡ self.old }
    {
        if !self.places.is_empty() {
            return Ok(());
        }
        // A catalog is known of rules that were told.
        let Ok(_) = self.matrix.rules() else {
            return Err(NoMemory);
        };
        self.places = places_of(self.alloc, &self.documents)?;
        Ok(())
    }

    // Gives a name back what stood under it before another entry was put there. It takes no memory.
    fn put_back(&mut self, name: &[u8], before: Option<DocEntry>)
        requires { contains_key self.old.documents name.now ≡ true }
        ensures documents { (documents : Entries) (entry : DocEntry) → self.old.documents ≡ insert documents name.now entry → before ≡ get documents name.now → self.new.documents ≡ documents }
        ensures rules { self.new.rules ≡ self.old.rules }
    {
        self.places = BTreeMap::new(self.alloc);
        match before {
            Some(entry) => put_at(&mut self.documents, name, entry),
            None => self.remove(name),
        }
    }

    /// Takes the document of that name away, where there is one, and makes this the catalog of the records.
    ///
    /// Errors: those of `save` at the new catalog but `Full`: a state of a store has room for a catalog that is no
    /// longer, so `Damaged` with page 0 comes in its place, and the records have ended. The catalog is as it was then.
    pub fn save_removed<D: Disk>(
        &mut self,
        records: &mut Records,
        disk: &mut D,
        name: &[u8],
    ) -> Result<(), StoreError>
        ensures still { IsStill D.Disk disk.old disk.new }
        ensures documents { OnOk result (self.new.documents ≡ remove self.old.documents name.now) }
        ensures rules { self.new.rules ≡ self.old.rules }
        ensures ok { OnOk result (ComesTo D.Disk records.old records.new disk.old disk.new (λ was now. SetsCatalog (catalog_bytes self.new) was now)) }
        ensures keeps { OnOk result (RunsOn records.old records.new × KeepsSaved D.Disk records.old records.new disk.old disk.new × HasChanges records.new) }
        ensures form { OnOk result (All HasLabels self.old.rules → IsCatalog (catalog_bytes self.new) self.new) }
        ensures err { OnErr result (self.new ≡ self.old) }
        ensures refused { IfErr result (λ e. NotChanged D.Disk (λ was. was.free < catalog_needs (catalog_bytes (record { documents = remove self.old.documents name.now; rules = self.old.rules })) was) 0 e records.old records.new disk.old disk.new) }
    {
        if records.is_ended() {
            return Err(StoreError::Ended);
        }
        let Ok(documents) = others(&self.documents, name) else {
            return Err(StoreError::Memory);
        };
        match self.save_documents(records, disk, documents) {
            Ok(()) => Ok(()),
            Err(error) => Err(not_full(records, error)),
        }
    }

    /// Puts the entry of a document under another name, and makes this the catalog of the records. There is a
    /// document of the old name; a document may have the new name, and none has it. It goes over all documents.
    ///
    /// Errors: those of `save` at the new catalog. The catalog is as it was then.
    pub fn save_renamed<D: Disk>(
        &mut self,
        records: &mut Records,
        disk: &mut D,
        old_name: &[u8],
        new_name: &[u8],
    ) -> Result<(), StoreError>
        requires there { contains_key self.old.documents old_name.now ≡ true }
        requires named { IsTrue (is_document_name new_name.now) }
        requires new { contains_key self.old.documents new_name.now ≡ false }
        ensures still { IsStill D.Disk disk.old disk.new }
        ensures documents { OnOk result (self.new.documents ≡ entries_renamed self.old.documents old_name.now new_name.now) }
        ensures rules { self.new.rules ≡ self.old.rules }
        ensures ok { OnOk result (ComesTo D.Disk records.old records.new disk.old disk.new (λ was now. SetsCatalog (catalog_bytes self.new) was now)) }
        ensures keeps { OnOk result (RunsOn records.old records.new × KeepsSaved D.Disk records.old records.new disk.old disk.new × HasChanges records.new) }
        ensures form { OnOk result (All HasLabels self.old.rules → IsCatalog (catalog_bytes self.new) self.new) }
        ensures err { OnErr result (self.new ≡ self.old) }
        ensures refused { IfErr result (λ e. NotStored D.Disk (λ was. catalog_needs (catalog_bytes (record { documents = entries_renamed self.old.documents old_name.now new_name.now; rules = self.old.rules })) was) (λ was. ⊥) 0 e records.old records.new disk.old disk.new) }
    {
        if records.is_ended() {
            return Err(StoreError::Ended);
        }
        let Ok(documents) = renamed(self.alloc, &self.documents, old_name, new_name) else {
            return Err(StoreError::Memory);
        };
        self.save_documents(records, disk, documents)
    }

    // Saves the catalog with these documents, which it has then; where this fails it is as it was.
    fn save_documents<D: Disk>(
        &mut self,
        records: &mut Records,
        disk: &mut D,
        documents: BTreeMap<Vec<u8>, DocEntry>,
    ) -> Result<(), StoreError>
        requires { AreDocumentEntries documents }
        ensures still { IsStill D.Disk disk.old disk.new }
        ensures documents { OnOk result (self.new.documents ≡ map_in documents) }
        ensures rules { self.new.rules ≡ self.old.rules }
        ensures ok { OnOk result (ComesTo D.Disk records.old records.new disk.old disk.new (λ was now. SetsCatalog (catalog_bytes self.new) was now)) }
        ensures keeps { OnOk result (RunsOn records.old records.new × KeepsSaved D.Disk records.old records.new disk.old disk.new × HasChanges records.new) }
        ensures form { has_ended records.old ≡ false → OnOk result (All HasLabels self.old.rules → IsCatalog (catalog_bytes self.new) self.new) }
        ensures err { OnErr result (self.new ≡ self.old) }
        ensures refused { IfErr result (λ e. NotStored D.Disk (λ was. catalog_needs (catalog_bytes (record { documents = map_in documents; rules = self.old.rules })) was) (λ was. ⊥) 0 e records.old records.new disk.old disk.new) }
    {
        self.places = BTreeMap::new(self.alloc);
        let before = mem::replace(&mut self.documents, documents);
        match self.save(records, disk) {
            Ok(()) => Ok(()),
            Err(error) => {
                self.documents = before;
                Err(error)
            }
        }
    }

    /// Makes the entry of the rule's pair of labels, `Free` being no rule, and makes this the catalog of the
    /// records. The labels are those that a script can say.
    ///
    /// Errors: `TooManyRules` exactly where the entry isn't `Free`, the pair has no rule, and there are 4,096; and
    /// those of `save` at the new catalog. The catalog is as it was then.
    pub fn save_rule<D: Disk>(
        &mut self,
        records: &mut Records,
        disk: &mut D,
        rule: &Rule,
    ) -> Result<(), RuleError>
        requires { HasLabels rule.now }
        ensures still { IsStill D.Disk disk.old disk.new }
        ensures documents { self.new.documents ≡ self.old.documents }
        ensures rules { OnOk result (MakesRule self.old.rules rule.now self.new.rules) }
        ensures ok { OnOk result (ComesTo D.Disk records.old records.new disk.old disk.new (λ was now. SetsCatalog (catalog_bytes self.new) was now)) }
        ensures keeps { OnOk result (RunsOn records.old records.new × KeepsSaved D.Disk records.old records.new disk.old disk.new × HasChanges records.new) }
        ensures form { OnOk result (All HasLabels self.old.rules → HasLabels rule.now → IsCatalog (catalog_bytes self.new) self.new) }
        ensures err { OnErr result (self.new ≡ self.old) }
        ensures refused { IfErr result (λ e. NotRuled D.Disk self.old rule.now e records.old records.new disk.old disk.new) }
    {
        if records.is_ended() {
            return Err(RuleError::Store(StoreError::Ended));
        }
        let Ok(mut rules) = copied(self.alloc, &self.matrix) else {
            return Err(RuleError::Store(StoreError::Memory));
        };
        match rules.set(rule.parent.as_slice(), rule.child.as_slice(), rule.entry) {
            Ok(()) => {}
            Err(MatrixError::TooManyRules) => return Err(RuleError::TooManyRules),
            Err(MatrixError::Memory) => return Err(RuleError::Store(StoreError::Memory)),
        }
        match self.save_rules(records, disk, rules) {
            Ok(()) => Ok(()),
            Err(error) => Err(RuleError::Store(error)),
        }
    }

    // Saves the catalog with these rules, which it has then; where this fails it is as it was.
    fn save_rules<D: Disk>(
        &mut self,
        records: &mut Records,
        disk: &mut D,
        rules: Matrix,
    ) -> Result<(), StoreError>
        ensures still { IsStill D.Disk disk.old disk.new }
        ensures documents { self.new.documents ≡ self.old.documents }
        ensures rules { OnOk result (self.new.rules ≡ rules) }
        ensures ok { OnOk result (ComesTo D.Disk records.old records.new disk.old disk.new (λ was now. SetsCatalog (catalog_bytes self.new) was now)) }
        ensures keeps { OnOk result (RunsOn records.old records.new × KeepsSaved D.Disk records.old records.new disk.old disk.new × HasChanges records.new) }
        ensures form { has_ended records.old ≡ false → OnOk result (All HasLabels self.new.rules → IsCatalog (catalog_bytes self.new) self.new) }
        ensures err { OnErr result (self.new ≡ self.old) }
        ensures refused { IfErr result (λ e. NotStored D.Disk (λ was. catalog_needs (catalog_bytes (record { documents = self.old.documents; rules = rules })) was) (λ was. ⊥) 0 e records.old records.new disk.old disk.new) }
    {
        self.places = BTreeMap::new(self.alloc);
        let before = mem::replace(&mut self.matrix, rules);
        match self.save(records, disk) {
            Ok(()) => Ok(()),
            Err(error) => {
                self.matrix = before;
                Err(error)
            }
        }
    }
}

// Puts another entry under a name that is there. It takes no memory.
fn put_at(documents: &mut BTreeMap<Vec<u8>, DocEntry>, name: &[u8], entry: DocEntry)
    requires { AreDocumentEntries documents.old }
    ensures are { AreDocumentEntries documents.new }
    ensures put { contains_key (map_in documents.old) name.now ≡ true → map_in documents.new ≡ insert (map_in documents.old) name.now entry }
    ensures names { names_of (by_bytes documents.new.entries) ≡ names_of (by_bytes documents.old.entries) }
{
    numbers_fit(entry.root.page, entry.root.slot, entry.nodes);
    if let Some(there) = documents.get_mut(name) {
        *there = entry;
    }
}

// Where each document's entry stands in the bytes of a catalog.
fn places_of(
    alloc: Global,
    documents: &BTreeMap<Vec<u8>, DocEntry>,
) -> Result<BTreeMap<Vec<u8>, u64>, NoMemory>
    requires { AreDocumentEntries documents.now }
    ensures { IfOk result (λ places. HavePlaces (by_bytes documents.now.entries) places) }
{
    let mut places = BTreeMap::new(alloc);
    let mut end = 4;
    for (name, _) in documents {
        let bytes = name.as_slice();
        let at = end + 2 + bytes.len() as u64;
        let key = Vec::from_slice(alloc, bytes)?;
        places.insert(key, at)?;
        end = at + 10;
    }
    Ok(places)
}

// The documents but that of the name.
fn others(
    documents: &BTreeMap<Vec<u8>, DocEntry>,
    name: &[u8],
) -> Result<BTreeMap<Vec<u8>, DocEntry>, NoMemory>
    requires { AreDocumentEntries documents.now }
    ensures are { IfOk result (λ left. AreDocumentEntries left) }
    ensures left { IfOk result (λ left. map_in left ≡ remove (map_in documents.now) name.now) }
{
    let mut left = copied_documents(documents)?;
    let _ = left.remove(name);
    Ok(left)
}

// The documents, with the entry of the old name under the new one.
fn renamed(
    alloc: Global,
    documents: &BTreeMap<Vec<u8>, DocEntry>,
    old_name: &[u8],
    new_name: &[u8],
) -> Result<BTreeMap<Vec<u8>, DocEntry>, NoMemory>
    requires documents { AreDocumentEntries documents.now }
    requires named { IsTrue (is_document_name new_name.now) }
    ensures are { IfOk result (λ moved. AreDocumentEntries moved) }
    ensures moved { IfOk result (λ moved. map_in moved ≡ entries_renamed (map_in documents.now) old_name.now new_name.now) }
{
    let mut moved = copied_documents(documents)?;
    let Some(entry) = moved.remove(old_name) else {
        return Ok(moved);
    };
    numbers_fit(entry.root.page, entry.root.slot, entry.nodes);
    let key = Vec::from_slice(alloc, new_name)?;
    moved.insert(key, entry)?;
    Ok(moved)
}

// The same documents.
pub(crate) fn copied_documents(
    documents: &BTreeMap<Vec<u8>, DocEntry>,
) -> Result<BTreeMap<Vec<u8>, DocEntry>, NoMemory>
    requires { AreDocumentEntries documents.now }
    ensures are { IfOk result (λ copy. AreDocumentEntries copy) }
    ensures same { IfOk result (λ copy. map_in copy ≡ map_in documents.now) }
{
    Ok(documents.clone()?)
}

// The same rules.
pub(crate) fn copied(alloc: Global, matrix: &Matrix) -> Result<Matrix, NoMemory>
    ensures { IfOk result (λ copy. copy ≡ matrix.now) }
{
    let Ok(rules) = matrix.rules() else {
        return Err(NoMemory);
    };
    let mut copy = Matrix::new(alloc);
    for rule in rules.as_slice() {
        let Ok(()) = copy.set(rule.parent.as_slice(), rule.child.as_slice(), rule.entry) else {
            return Err(NoMemory);
        };
    }
    Ok(copy)
}

// The refusal as it is, but where no page was free: a store has one then, so the records end, and are damaged.
fn not_full(records: &mut Records, error: StoreError) -> StoreError
    ensures full { error ≡ StoreError.Full → (result ≡ StoreError.Damaged 0) × (has_ended records.old ≡ false → EndNow records.old records.new) }
    ensures other { (error ≡ StoreError.Full → ⊥) → (result ≡ error) × (records.new ≡ records.old) }
{
    match error {
        StoreError::Full => {
            records.end();
            StoreError::Damaged { page: 0 }
        }
        _ => error,
    }
}
