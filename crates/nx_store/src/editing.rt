// Edits of documents.
ghost use Rattle.std.specs.Prelude.{◌≡◌, false, Some, None, IsTrue, IfOk, IfErr, OnOk};
ghost use Rattle.std.specs.FinMap.{get};
ghost use Rattle.nx_host.specs.Still.{IsStill};
ghost use Rattle.nx_records.specs.Words.{Held};
ghost use Rattle.nx_records.specs.Records.{KeepsSaved, HasChanges, settings_of};
ghost use Rattle.nx_records.specs.Refusals.{RunsOn};
ghost use Rattle.nx_cuts.specs.Cut.{tree_of};
ghost use Rattle.nx_edit.specs.Removing.{OfEntry};
ghost use Rattle.nx_pyx.specs.DocumentName.{is_document_name};
ghost use Rattle.nx_state.specs.State.{State};
ghost use Rattle.nx_store.specs.Store.{is_ended, IsNow};
ghost use Rattle.nx_store.specs.Staying.{IsLeftBy, RecordsStay, OthersStay};
ghost use Rattle.nx_store.specs.Changing.{PreparesNow, PreparesNext, NotPrepared};
ghost use Rattle.nx_store.specs.Editing.{edit_command, CanBeMade, edit_fault, MakesEdit, NotMade, EditNotPrepared, IsEditCause};

use crate::{EngineError, Store};
use nx_edit::{EditError, delete, edit_error, insert, retext};
use nx_hold::DocEntry;
use nx_host::Disk;
use nx_matrix::Matrix;
use nx_pyx::{PyxError, PyxFault};
use nx_records::Records;
use nx_script::{Reply, ReplyError, push_reply};
use nx_tree::{Bytes, Node, Path};
use std::alloc::Global;

// An edit of a document at a path.
#[derive(Drop)]
pub(crate) enum Edit {
    // The tree there goes.
    Delete,
    // The node there gets this content.
    Retext(Bytes),
    // This node comes there.
    Insert(Node),
}

impl Store {
    // Edits the document of this entry, but for the commit.
    pub(crate) fn edit_document_next<D: Disk>(
        &mut self,
        disk: &mut D,
        name: &Bytes,
        path: Path,
        entry: DocEntry,
        edit: Edit,
        text: &mut Bytes,
    ) -> Result<Result<Reply, ReplyError>, EngineError>
        requires runs { is_ended self.old ≡ false }
        requires named { IsTrue (is_document_name name.now) }
        requires found { get (self.old.catalog).documents name.now ≡ Some entry }
        requires can { CanBeMade edit }
        ensures still { IsStill D.Disk disk.old disk.new }
        ensures ok { IfOk result (λ made. PreparesNext D.Disk (edit_command name.now path edit) made text.old text.new self.old self.new disk.old disk.new) }
        ensures refused { IfErr result (λ e. NotPrepared D.Disk e self.old self.new disk.old disk.new) }
    {
        push_reply(text, &Reply::Done)?;
        match self.prepare_edit(disk, name, &path, entry, edit) {
            Ok(()) => Ok(Ok(Reply::Done)),
            Err(error) => edit_cause(path, error),
        }
    }

    // ... in the records and the catalog. Where this fails the catalog is as it was.
    fn prepare_edit<D: Disk>(
        &mut self,
        disk: &mut D,
        name: &Bytes,
        path: &Path,
        entry: DocEntry,
        edit: Edit,
    ) -> Result<(), EditError>
        requires runs { is_ended self.old ≡ false }
        requires named { IsTrue (is_document_name name.now) }
        requires found { get (self.old.catalog).documents name.now ≡ Some entry }
        requires can { CanBeMade edit }
        ensures still { IsStill D.Disk disk.old disk.new }
        ensures runs { OnOk result (RunsOn self.old.records self.new.records × HasChanges self.new.records) }
        ensures ok { OnOk result ((saved : Held) (state : State) (at : IsNow D.Disk self.old disk.old saved state) → (made : PreparesNow D.Disk saved state (edit_command name.now path.now edit) Reply.Done self.new disk.new)
            × RecordsStay (IsLeftBy (edit_command name.now path.now edit)) (at.state_is).stored at.held (made.now).held × OthersStay name.now (at.state_is).stored ((made.now).state_is).stored) }
        ensures refused { IfErr result (λ e. EditNotPrepared D.Disk (edit_command name.now path.now edit) path.now e self.old self.new disk.old disk.new) }
    {
        let new = make_edit(
            self.alloc,
            &mut self.records,
            disk,
            self.catalog.matrix(),
            entry,
            path.as_slice(),
            edit,
        )?;
        match self
            .catalog
            .save_entry(&mut self.records, disk, name.as_slice(), new)
        {
            Ok(()) => Ok(()),
            Err(error) => Err(edit_error(error)),
        }
    }
}

// Edits the document in the records, and answers its new entry.
fn make_edit<D: Disk>(
    alloc: Global,
    records: &mut Records,
    disk: &mut D,
    matrix: &Matrix,
    entry: DocEntry,
    path: &[u32],
    edit: Edit,
) -> Result<DocEntry, EditError>
    requires { CanBeMade edit }
    ensures still { IsStill D.Disk disk.old disk.new }
    ensures allowed { OnOk result (OfEntry D.Disk records.old disk.old entry (λ now document layout. edit_fault edit path.now (settings_of records.old).k (tree_of document) ≡ None)) }
    ensures ok { IfOk result (λ new. MakesEdit D.Disk records.old records.new disk.old disk.new matrix.now edit path.now entry new) }
    ensures keeps { OnOk result (RunsOn records.old records.new × KeepsSaved D.Disk records.old records.new disk.old disk.new × HasChanges records.new) }
    ensures refused { IfErr result (λ e. NotMade D.Disk edit path.now (settings_of records.old).k entry e records.old records.new disk.old disk.new) }
{
    match edit {
        Edit::Delete => delete(alloc, records, disk, entry, path),
        Edit::Retext(content) => retext(alloc, records, disk, matrix, entry, path, content),
        Edit::Insert(node) => insert(alloc, records, disk, matrix, entry, path, node),
    }
}

// What is told of an edit at a path that wasn't prepared.
fn edit_cause(path: Path, error: EditError) -> Result<Result<Reply, ReplyError>, EngineError>
    ensures { IsEditCause path error result }
{
    match error {
        EditError::NoNode => Ok(Err(ReplyError::NoNode)),
        EditError::BadPlace => Ok(Err(ReplyError::BadPlace)),
        EditError::Twice => Ok(Err(ReplyError::Twice)),
        EditError::NoContent => Ok(Err(ReplyError::NoContent)),
        EditError::TooLong => Ok(Err(ReplyError::Pyx(PyxError {
            line: 1,
            fault: PyxFault::LongLine,
        }))),
        EditError::TooDeep => Ok(Err(ReplyError::TooDeep)),
        EditError::TooMany => Ok(Err(ReplyError::TooMany)),
        EditError::TooHeavy { weight } => Ok(Err(ReplyError::TooHeavy { path, weight })),
        EditError::Full => Ok(Err(ReplyError::Full)),
        EditError::Memory => Err(EngineError::Memory),
        EditError::Disk => Err(EngineError::Disk),
        EditError::Damaged { page } => Err(EngineError::Damaged { page }),
        EditError::Ended => Err(EngineError::Ended),
    }
}
