// A tree of a document that is taken away.
ghost use Rattle.std.specs.Prelude.{◌≡◌, ◌==◌, ◌&&◌, false, length, None, IfOk, IfErr, OnOk};
ghost use Rattle.nx_host.specs.Still.{IsStill};
ghost use Rattle.nx_tree.specs.Document.{is_element};
ghost use Rattle.nx_tree.specs.Edit.{cut_at};
ghost use Rattle.nx_records.specs.Records.{KeepsSaved, HasChanges, has_ended};
ghost use Rattle.nx_records.specs.Refusals.{RunsOn, EndNow};
ghost use Rattle.nx_cuts.specs.Cut.{tree_of};
ghost use Rattle.nx_drawn.specs.Edits.{deleted};
ghost use Rattle.nx_edit.specs.Removing.{OfEntry};
ghost use Rattle.nx_edit.specs.Editing.{EditsDocument, nodes_off};
ghost use Rattle.nx_edit.specs.Refusals.{NotEdited, deletion_fault, is_of_path, edit_needs};

use crate::EditError;
use crate::error::{edit_error, seen_error};
use crate::freeing::free_all;
use crate::retexting::entry_at;
use crate::rows::delete_at;
use nx_hold::DocEntry;
use nx_host::Disk;
use nx_nav::{Routed, get_route};
use nx_records::Records;
use nx_tree::Kind;
use std::alloc::Global;

/// Takes the tree at the path of the document away, and answers the document's new entry. An interval that loses its
/// last member goes, and so do the lists of the tree's contents. It speaks of documents whose contents no other record
/// names, each once. Each record of the document stays, with the list of its proxies, that holds neither a node on the way
/// along the path nor one of that tree. In those that change a content of more than 1,024 bytes gets a list of its own.
///
/// Errors: those of `delete_at` of `nx_tree`, in their order; `Full`, over sound pages that hold a document of the
/// entry only where fewer pages were free than one for each node before, two for each node behind, and the chain pages of
/// those contents of more than 1,024 bytes behind that had no list; `Damaged`, only where the records hold no such
/// document of the entry, or lists that records name are missing, or named twice for proxies; `Disk`, only where `faults`
/// rose; `Ended` exactly where the records had ended; `Memory`. After each the caller calls `abandon`.
pub fn delete<D: Disk>(
    alloc: Global,
    records: &mut Records,
    disk: &mut D,
    entry: DocEntry,
    path: &[u32],
) -> Result<DocEntry, EditError>
    ensures still { IsStill D.Disk disk.old disk.new }
    ensures allowed { OnOk result (OfEntry D.Disk records.old disk.old entry (λ now document layout. deletion_fault path.now (tree_of document) ≡ None)) }
    ensures ok { IfOk result (λ new. EditsDocument D.Disk records.old records.new disk.old disk.new (λ settings document edited. edited ≡ deleted path.now document) false path.now (nodes_off false path.now) 0 entry new) }
    ensures keeps { OnOk result (RunsOn records.old records.new × KeepsSaved D.Disk records.old records.new disk.old disk.new × HasChanges records.new) }
    ensures refused { IfErr result (λ e. NotEdited D.Disk is_of_path (deletion_fault path.now) (edit_needs (cut_at path.now) (nodes_off false path.now) 0) entry e records.old records.new disk.old disk.new) }
{
    if records.is_ended() {
        return Err(EditError::Ended);
    }
    if path.is_empty() {
        return Err(EditError::BadPlace);
    }
    let found = match get_route(alloc, records, disk, entry.root, path, None) {
        Ok(found) => found,
        Err(error) => return Err(seen_error(error)),
    };
    let Routed { shown, route, .. } = found;
    if is_root_element(path, shown.kind) {
        return Err(EditError::BadPlace);
    }
    let mut gone = Vec::new(alloc);
    let limit = entry.nodes;
    let taken = match delete_at(
        alloc, records, disk, entry.root, path, route, limit, &mut gone,
    ) {
        Ok(taken) => taken,
        Err(error) => return Err(edit_error(error)),
    };
    let Some(proxy) = taken.left else {
        return Err(no_document(records, entry.root.page));
    };
    if let Err(error) = free_all(alloc, records, disk, gone.as_slice()) {
        return Err(edit_error(error));
    }
    Ok(entry_at(proxy, entry.nodes - taken.gone))
}

// Ends the records, and answers that a page is damaged.
pub(crate) fn no_document(records: &mut Records, page: u32) -> EditError
    ensures result { result ≡ EditError.Damaged page }
    ensures ends { has_ended records.old ≡ false → EndNow records.old records.new }
{
    records.end();
    EditError::Damaged { page }
}

// A node of this kind at the end of the path is the element below the root.
fn is_root_element(path: &[u32], kind: Kind) -> bool
    ensures { result ≡ ((length path.now == 1) && is_element kind) }
{
    path.len() == 1 && matches!(kind, Kind::Element)
}
