// Loading a document.
ghost use Rattle.std.specs.Prelude.{◌≡◌, ◌⊎◌, ◌≤◌, false, length, All, IsTrue, IfOk, IfErr, OnOk};
ghost use Rattle.std.specs.FinMap.{entries, insert, remove};
ghost use Rattle.nx_host.specs.Still.{IsStill};
ghost use Rattle.nx_tree.specs.Document.{IsDocument};
ghost use Rattle.nx_records.specs.Words.{Held};
ghost use Rattle.nx_records.specs.Records.{KeepsSaved, ComesTo, HasChanges};
ghost use Rattle.nx_records.specs.Changes.{SetsCatalog, catalog_needs};
ghost use Rattle.nx_records.specs.Refusals.{NotStored, RunsOn};
ghost use Rattle.nx_script.specs.declared.command.Command.TheVariants.{Load};
ghost use Rattle.nx_script.specs.declared.command.LoadBody.TheVariants.{Read};
ghost use Rattle.nx_script.specs.Commands.{CanCome};
ghost use Rattle.nx_pyx.specs.DocumentName.{is_document_name};
ghost use Rattle.nx_matrix.specs.RuleLabels.{HasLabels};
ghost use Rattle.nx_catalog.specs.Catalog.{IsCatalog, catalog_bytes};
ghost use Rattle.nx_state.specs.State.{State};
ghost use Rattle.nx_store.specs.Staying.{IsLeftBy, RecordsStay, AllStay};
ghost use Rattle.nx_store.specs.Store.{is_ended, IsNow};
ghost use Rattle.nx_store.specs.Changing.{PreparesNext, NotPrepared};
ghost use Rattle.nx_store.specs.Loading.{IsNew, IsChosen, IsKept, NotKept};

use crate::changing::store_cause;
use crate::{EngineError, Store};
use nx_build::store;
use nx_hold::DocEntry;
use nx_host::Disk;
use nx_par::partition_wide;
use nx_partition::PlanError;
use nx_parts::Partitioning;
use nx_records::{Rid, StoreError};
use nx_script::{LoadBody, Reply, ReplyError, push_reply};
use nx_tree::{Bytes, Tree, count};
use std::thread::Threads;

impl Store {
    // Loads a document, but for the commit.
    pub(crate) fn load_next<R: Threads + Sync, D: Disk>(
        &mut self,
        rt: &R,
        disk: &mut D,
        name: &Bytes,
        body: LoadBody,
        text: &mut Bytes,
    ) -> Result<Result<Reply, ReplyError>, EngineError>
        requires runs { is_ended self.old ≡ false }
        requires come { CanCome (Load name.now body) }
        ensures still { IsStill D.Disk disk.old disk.new }
        ensures ok { IfOk result (λ made. PreparesNext D.Disk (Load name.now body) made text.old text.new self.old self.new disk.old disk.new) }
        ensures refused { IfErr result (λ e. NotPrepared D.Disk e self.old self.new disk.old disk.new) }
    {
        if self.catalog.find(name.as_slice()).is_some() {
            return Ok(Err(ReplyError::Exists));
        }
        match body {
            LoadBody::Wrong(error) => Ok(Err(ReplyError::Pyx(error))),
            LoadBody::Read(tree) => self.load_tree_next(rt, disk, name, tree, text),
        }
    }

    // ... under a name that is new, in a partitioning that is found for it, by some threads where it is large.
    fn load_tree_next<R: Threads + Sync, D: Disk>(
        &mut self,
        rt: &R,
        disk: &mut D,
        name: &Bytes,
        tree: Tree,
        text: &mut Bytes,
    ) -> Result<Result<Reply, ReplyError>, EngineError>
        requires runs { is_ended self.old ≡ false }
        requires named { IsTrue (is_document_name name.now) }
        requires new { IsNew self.old name.now }
        requires document { IsDocument tree }
        ensures still { IsStill D.Disk disk.old disk.new }
        ensures ok { IfOk result (λ made. PreparesNext D.Disk (Load name.now (Read tree)) made text.old text.new self.old self.new disk.old disk.new) }
        ensures refused { IfErr result (λ e. NotPrepared D.Disk e self.old self.new disk.old disk.new) }
    {
        let k = u32::from(self.records.settings().k);
        match partition_wide(rt, self.alloc, &tree, k) {
            Ok(parts) => self.load_parts_next(disk, name, tree, &parts, text),
            Err(PlanError::TooHeavy { path, weight }) => {
                Ok(Err(ReplyError::TooHeavy { path, weight }))
            }
            Err(PlanError::Memory) => Err(EngineError::Memory),
        }
    }

    // ... in this partitioning.
    fn load_parts_next<D: Disk>(
        &mut self,
        disk: &mut D,
        name: &Bytes,
        tree: Tree,
        parts: &Partitioning,
        text: &mut Bytes,
    ) -> Result<Result<Reply, ReplyError>, EngineError>
        requires runs { is_ended self.old ≡ false }
        requires named { IsTrue (is_document_name name.now) }
        requires new { IsNew self.old name.now }
        requires document { IsDocument tree }
        requires chosen { IsChosen self.old tree parts.now }
        ensures still { IsStill D.Disk disk.old disk.new }
        ensures ok { IfOk result (λ made. PreparesNext D.Disk (Load name.now (Read tree)) made text.old text.new self.old self.new disk.old disk.new) }
        ensures refused { IfErr result (λ e. NotPrepared D.Disk e self.old self.new disk.old disk.new) }
    {
        let loaded = Reply::Loaded {
            nodes: count(&tree),
            intervals: parts.len() as u32,
        };
        push_reply(text, &loaded)?;
        match self.keep(disk, name, tree, parts) {
            Ok(()) => Ok(Ok(loaded)),
            Err(error) => store_cause(error),
        }
    }

    // Puts a document into the records, and its entry into the catalog. Nothing is committed. Where this
    // fails the catalog is as it was.
    fn keep<D: Disk>(
        &mut self,
        disk: &mut D,
        name: &Bytes,
        tree: Tree,
        parts: &Partitioning,
    ) -> Result<(), StoreError>
        requires runs { is_ended self.old ≡ false }
        requires named { IsTrue (is_document_name name.now) }
        requires new { IsNew self.old name.now }
        requires document { IsDocument tree }
        requires chosen { IsChosen self.old tree parts.now }
        ensures still { IsStill D.Disk disk.old disk.new }
        ensures runs { OnOk result (RunsOn self.old.records self.new.records × HasChanges self.new.records) }
        ensures ok { OnOk result ((saved : Held) (state : State) (at : IsNow D.Disk self.old disk.old saved state) → (kept : IsKept D.Disk saved self.new disk.new state name.now tree parts.now)
            × RecordsStay (IsLeftBy (Load name.now (Read tree))) (at.state_is).stored at.held (kept.now).held × AllStay (at.state_is).stored ((kept.now).state_is).stored) }
        ensures refused { IfErr result (λ e. NotKept D.Disk tree e self.old self.new disk.old disk.new) }
    {
        let nodes = count(&tree);
        let root = store(self.alloc, &mut self.records, disk, tree, parts)?;
        let entry = DocEntry {
            root: Rid {
                page: root.page,
                slot: root.slot,
            },
            nodes,
        };
        self.put_entry(name, entry)?;
        self.save_entry(disk, name)
    }

    // Puts the entry of a document with a new name into the catalog in memory.
    fn put_entry(&mut self, name: &Bytes, entry: DocEntry) -> Result<(), StoreError>
        requires { IsTrue (is_document_name name.now) }
        ensures records { self.new.records ≡ self.old.records }
        ensures rules { self.new.catalog.rules ≡ self.old.catalog.rules }
        ensures ok { OnOk result (self.new.catalog.documents ≡ insert self.old.catalog.documents name.now entry) }
        ensures refused { IfErr result (λ e. (self.new.catalog ≡ self.old.catalog)
            × ((e ≡ StoreError.Memory) ⊎ ((e ≡ StoreError.Full) × (4294967295 ≤ length (entries self.old.catalog.documents))))) }
    {
        if self.catalog.len() == u32::MAX {
            return Err(StoreError::Full);
        }
        let Ok(()) = self.catalog.set(name.as_slice(), entry) else {
            return Err(StoreError::Memory);
        };
        Ok(())
    }

    // Saves the catalog in memory, and takes the document of that name out of it where this fails.
    fn save_entry<D: Disk>(&mut self, disk: &mut D, name: &Bytes) -> Result<(), StoreError>
        ensures still { IsStill D.Disk disk.old disk.new }
        ensures ok { OnOk result ((self.new.catalog ≡ self.old.catalog) × ComesTo D.Disk self.old.records self.new.records disk.old disk.new (λ was now. SetsCatalog (catalog_bytes self.old.catalog) was now)) }
        ensures keeps { OnOk result (RunsOn self.old.records self.new.records × KeepsSaved D.Disk self.old.records self.new.records disk.old disk.new × HasChanges self.new.records) }
        ensures form { is_ended self.old ≡ false → All HasLabels self.old.catalog.rules → IsCatalog (catalog_bytes self.old.catalog) self.old.catalog }
        ensures removed { IfErr result (λ e. (self.new.catalog.documents ≡ remove self.old.catalog.documents name.now) × (self.new.catalog.rules ≡ self.old.catalog.rules)) }
        ensures refused { IfErr result (λ e. NotStored D.Disk (λ was. catalog_needs (catalog_bytes self.old.catalog) was) (λ was. ⊥) 0 e self.old.records self.new.records disk.old disk.new) }
    {
        let saved = self.catalog.save(&mut self.records, disk);
        if saved.is_err() {
            self.catalog.remove(name.as_slice());
        }
        saved
    }
}
