// The commands that edit a document.
ghost use Rattle.std.specs.Prelude.{◌≡◌, if◌then◌else◌, false, None, IfOk, IfErr};
ghost use Rattle.std.specs.FinMap.{get};
ghost use Rattle.nx_host.specs.Still.{IsStill};
ghost use Rattle.nx_script.specs.Commands.{CanCome};
ghost use Rattle.nx_pyx.specs.DocumentName.{is_document_name};
ghost use Rattle.nx_store.specs.Store.{is_ended};
ghost use Rattle.nx_store.specs.Changing.{PreparesNext, NotPrepared};
ghost use Rattle.nx_store.specs.Editing.{said_command, said_edit};

use crate::editing::Edit;
use crate::{EngineError, Store};
use nx_hold::DocEntry;
use nx_host::Disk;
use nx_pyx::{PyxError, is_document_name};
use nx_script::{LineBody, Reply, ReplyError, TextBody};
use nx_tree::{Bytes, Path};

// What a command that edits a document says besides name and path.
#[derive(Drop)]
pub(crate) enum EditBody {
    // The tree there goes.
    Delete,
    // The node there gets what this says.
    Retext(TextBody),
    // What this says comes there.
    Insert(LineBody),
}

impl Store {
    // Edits a document at a path, but for the commit.
    pub(crate) fn edit_next<D: Disk>(
        &mut self,
        disk: &mut D,
        name: &Bytes,
        path: Path,
        body: EditBody,
        text: &mut Bytes,
    ) -> Result<Result<Reply, ReplyError>, EngineError>
        requires runs { is_ended self.old ≡ false }
        requires come { CanCome (said_command name.now path body) }
        ensures still { IsStill D.Disk disk.old disk.new }
        ensures ok { IfOk result (λ made. PreparesNext D.Disk (said_command name.now path body) made text.old text.new self.old self.new disk.old disk.new) }
        ensures refused { IfErr result (λ e. NotPrepared D.Disk e self.old self.new disk.old disk.new) }
    {
        let Some(entry) = self.entry_of(name) else {
            return Ok(Err(ReplyError::NoDocument));
        };
        match edit_of(body) {
            Err(error) => Ok(Err(ReplyError::Pyx(error))),
            Ok(edit) => self.edit_document_next(disk, name, path, entry, edit, text),
        }
    }

    // The entry of the document of that name. A name that no document may have is none's.
    fn entry_of(&self, name: &Bytes) -> Option<DocEntry>
        ensures { result ≡ (if is_document_name name.now then get (self.now.catalog).documents name.now else None) }
    {
        if !is_document_name(name.as_slice()) {
            return None;
        }
        self.catalog.find(name.as_slice())
    }
}

// The edit that is said, or the fault of the line that says none.
fn edit_of(body: EditBody) -> Result<Edit, PyxError>
    ensures { result ≡ said_edit body }
{
    match body {
        EditBody::Delete => Ok(Edit::Delete),
        EditBody::Retext(TextBody::Read(content)) => Ok(Edit::Retext(content)),
        EditBody::Insert(LineBody::Read(node)) => Ok(Edit::Insert(node)),
        EditBody::Retext(TextBody::Wrong(error)) => Err(error),
        EditBody::Insert(LineBody::Wrong(error)) => Err(error),
    }
}
