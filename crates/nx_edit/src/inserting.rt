// A node that is put into a document.
ghost use Rattle.std.specs.Prelude.{◌≡◌, ◌<◌, ◌≤◌, true, false, None, Some, length, IfOk, IfErr, OnOk};
ghost use Rattle.nx_host.specs.Still.{IsStill};
ghost use Rattle.nx_tree.specs.Document.{IsNode, deepest, most_nodes};
ghost use Rattle.nx_tree.specs.Edit.{at, put, parent_path, last_position, place_refusal};
ghost use Rattle.nx_tree.specs.Forest.{OrderedTree};
ghost use Rattle.nx_records.specs.Records.{KeepsSaved, HasChanges, LeavesRecords, has_ended, settings_of};
ghost use Rattle.nx_records.specs.Refusals.{RunsOn};
ghost use Rattle.nx_cuts.specs.Cut.{tree_of};
ghost use Rattle.nx_layouts.specs.Layout.{nodes_in};
ghost use Rattle.nx_weights.specs.Weight.{weight};
ghost use Rattle.nx_hold.specs.Changes.{place_of};
ghost use Rattle.nx_hold.specs.Contents.{content_pages};
ghost use Rattle.nx_nav.specs.Refusals.{OfEach};
ghost use Rattle.nx_nav.specs.Route.{IsRoute};
ghost use Rattle.nx_drawn.specs.Edits.{inserted};
ghost use Rattle.nx_drawn.specs.Splits.{Splits};
ghost use Rattle.nx_edit.specs.Removing.{OfEntry};
ghost use Rattle.nx_edit.specs.Editing.{EditsDocument};
ghost use Rattle.nx_edit.specs.Refusals.{NotEdited, edit_needs};
ghost use Rattle.nx_edit.specs.Inserting.{insertion_fault, is_of_insertion};

use crate::EditError;
use crate::changing::{Change, change_at};
use crate::deleting::no_document;
use crate::error::edit_error;
use crate::placing::check_place;
use crate::retexting::{entry_at, first_of};
use nx_hold::{DocEntry, hold_node};
use nx_host::Disk;
use nx_lists::{DEEPEST, MOST_NODES};
use nx_matrix::Matrix;
use nx_nav::Route;
use nx_records::Records;
use nx_tree::Node;
use nx_weights::weight;
use std::alloc::Global;

/// Puts the node, without children, at the path of the document, before the sibling that stands there, and answers the
/// document's new entry. The matrix says which interval it joins, or that it divides one; a part that then outweighs K
/// is split. A content of more than 1,024 bytes stands in a list of its own. Each record of the document stays, with its list, that holds no node on the way along the path, up to the
/// sibling that stood there.
///
/// Errors: those of `insert_at` of `nx_tree`, in their order; `TooHeavy` exactly where the node outweighs K and nothing
/// else forbids it; `Full`, over sound pages that hold a document of the entry only where fewer pages were free than one
/// for each node before, two for each node behind, and the chain pages of those contents of more than 1,024 bytes that
/// the document has behind it and that didn't stand in lists of their own before; `Damaged`, only where the records hold
/// no document of the entry, or lists that records name are missing or named twice; `Disk`, only where `faults` rose;
/// `Ended` exactly where the records had ended; `Memory`. After each the caller calls `abandon`.
pub fn insert<D: Disk>(
    alloc: Global,
    records: &mut Records,
    disk: &mut D,
    matrix: &Matrix,
    entry: DocEntry,
    path: &[u32],
    node: Node,
) -> Result<DocEntry, EditError>
    requires { IsNode node }
    ensures still { IsStill D.Disk disk.old disk.new }
    ensures allowed { OnOk result (OfEntry D.Disk records.old disk.old entry (λ now document layout. insertion_fault node path.now (settings_of records.old).k (tree_of document) ≡ None)) }
    ensures ok { IfOk result (λ new. EditsDocument D.Disk records.old records.new disk.old disk.new (λ settings document. Splits settings matrix.now (inserted matrix.now node path.now document)) true path.now nodes_in (content_pages node) entry new) }
    ensures keeps { OnOk result (RunsOn records.old records.new × KeepsSaved D.Disk records.old records.new disk.old disk.new × HasChanges records.new) }
    ensures refused { IfErr result (λ e. NotEdited D.Disk is_of_insertion (insertion_fault node path.now (settings_of records.old).k) (edit_needs (put node path.now) nodes_in (content_pages node)) entry e records.old records.new disk.old disk.new) }
{
    let route = check_insertion(alloc, records, disk, entry, path, &node)?;
    let depth = path.len() - 1;
    let leaf = match hold_node(alloc, records, disk, node) {
        Ok(leaf) => leaf,
        Err(error) => return Err(edit_error(error)),
    };
    let parent = &path[..depth];
    let position = path[depth];
    let change = Change::Child { position, leaf };
    let changed = match change_at(
        alloc, records, disk, matrix, entry.root, parent, route, change,
    ) {
        Ok(changed) => changed,
        Err(error) => return Err(edit_error(error)),
    };
    match first_of(&changed.row.proxies) {
        None => Err(no_document(records, entry.root.page)),
        Some(proxy) => Ok(entry_at(proxy, entry.nodes + 1)),
    }
}

// Looks whether the node may be put at the path, and answers the way to its parent.
fn check_insertion<D: Disk>(
    alloc: Global,
    records: &mut Records,
    disk: &mut D,
    entry: DocEntry,
    path: &[u32],
    node: &Node,
) -> Result<Route, EditError>
    requires { IsNode node.now }
    ensures still { IsStill D.Disk disk.old disk.new }
    ensures route { IfOk result (λ route. IsRoute D.Disk records.old disk.old (place_of entry.root) (parent_path path.now) route) }
    ensures runs { OnOk result (has_ended records.old ≡ false × LeavesRecords records.old records.new) }
    ensures few { OnOk result ((1 ≤ length path.now) × (length path.now ≤ deepest) × (entry.nodes < most_nodes) × (weight node.now ≤ (settings_of records.old).k)) }
    ensures placed { OnOk result (OfEach D.Disk records.old disk.old (place_of entry.root)
        (λ document. (t : OrderedTree) × (at (tree_of document) (parent_path path.now) ≡ Some t) × (place_refusal node.now (last_position path.now) t ≡ None))) }
    ensures refused { IfErr result (λ e. NotEdited D.Disk is_of_insertion (insertion_fault node.now path.now (settings_of records.old).k) (edit_needs (put node.now path.now) nodes_in (content_pages node.now)) entry e records.old records.new disk.old disk.new) }
{
    if records.is_ended() {
        return Err(EditError::Ended);
    }
    if path.is_empty() {
        return Err(EditError::BadPlace);
    }
    let depth = path.len() - 1;
    let parent = &path[..depth];
    let position = path[depth];
    let route = check_place(alloc, records, disk, entry, parent, position, node)?;
    if path.len() > DEEPEST {
        return Err(EditError::TooDeep);
    }
    if entry.nodes >= MOST_NODES {
        return Err(EditError::TooMany);
    }
    let heavy = weight(node);
    if heavy > records.settings().k {
        return Err(EditError::TooHeavy { weight: heavy });
    }
    Ok(route)
}
