// Another content of a node of a document.
ghost use Rattle.std.specs.Prelude.{◌≡◌, ◌+◌, ◌≤◌, [], map, nat_le, true, false, None, Some, length, IfOk, IfErr, OnOk};
ghost use Rattle.std.specs.Option.{option_to_list};
ghost use Rattle.std.specs.List.{slice_get};
ghost use Rattle.nx_host.specs.Still.{IsStill};
ghost use Rattle.nx_tree.specs.Document.{longest_node};
ghost use Rattle.nx_tree.specs.Forest.{OrderedTree};
ghost use Rattle.nx_tree.specs.Edit.{at, has_children, retext as retext_tree};
ghost use Rattle.nx_records.specs.Records.{KeepsSaved, HasChanges, LeavesRecords, has_ended, settings_of};
ghost use Rattle.nx_records.specs.Refusals.{RunsOn};
ghost use Rattle.nx_cuts.specs.Cut.{tree_of};
ghost use Rattle.nx_weights.specs.Weight.{IsShort, weight};
ghost use Rattle.nx_hold.specs.Changes.{ComesTidyWhere, place_named, place_of};
ghost use Rattle.nx_hold.specs.Contents.{bytes_pages};
ghost use Rattle.nx_hold.specs.Documents.{MovesRecords};
ghost use Rattle.nx_nav.specs.Refusals.{OfEach};
ghost use Rattle.nx_nav.specs.Route.{IsRoute};
ghost use Rattle.nx_drawn.specs.Edits.{retexted};
ghost use Rattle.nx_drawn.specs.Splits.{Splits};
ghost use Rattle.nx_edit.specs.Removing.{AreUnnamed, NotFreed, OfEntry};
ghost use Rattle.nx_edit.specs.Editing.{EditsDocument, nodes_off};
ghost use Rattle.nx_edit.specs.Refusals.{NotEdited, edit_needs};
ghost use Rattle.nx_edit.specs.Retexting.{content_fault, is_of_content, other_content};

use crate::EditError;
use crate::changing::{Change, change_at};
use crate::deleting::no_document;
use crate::error::{edit_error, seen_error};
use crate::freeing::free_all;
use nx_hold::{DocEntry, hold_node};
use nx_host::Disk;
use nx_lists::LONGEST_NODE;
use nx_matrix::Matrix;
use nx_nav::{Outlined, Route, Routed, get_route};
use nx_piece::{Far, PieceTree, Proxies, Proxy};
use nx_records::{Records, Rid, StoreError};
use nx_tree::{Bytes, Kind, Node};
use nx_weights::weight;
use std::alloc::Global;

/// Replaces the content of the node at the path of the document, and answers the document's new entry. A part that
/// outweighs K then is split, as the matrix says. A content of more than 1,024 bytes stands in a list of its own, and the
/// list of the old one goes. Each record of the document stays, with its list, that holds no node on
/// the way along the path. The content has 1,048,576 bytes at most.
///
/// Errors: `TooLong` exactly where a node is there, whose name and the content have more than 1,048,576 bytes together;
/// those of `retext_at` of `nx_tree`, in their order; `TooHeavy` exactly where none of these comes and the node with its new content
/// outweighs K; `Full`, over sound pages that hold a document of the entry only where fewer pages were free than three
/// for each node, and the chain pages of those contents of more than 1,024 bytes that the document has behind it and that
/// didn't stand in lists of their own before; `Damaged`, only where the records hold no document of the entry, or lists that records name are
/// missing or named twice; `Disk`, only where `faults` rose; `Ended` exactly where the records had ended; `Memory`. After
/// each the caller calls `abandon`.
pub fn retext<D: Disk>(
    alloc: Global,
    records: &mut Records,
    disk: &mut D,
    matrix: &Matrix,
    entry: DocEntry,
    path: &[u32],
    content: Bytes,
) -> Result<DocEntry, EditError>
    requires { length content ≤ longest_node }
    ensures still { IsStill D.Disk disk.old disk.new }
    ensures allowed { OnOk result (OfEntry D.Disk records.old disk.old entry (λ now document layout. content_fault content path.now (settings_of records.old).k (tree_of document) ≡ None)) }
    ensures ok { IfOk result (λ new. EditsDocument D.Disk records.old records.new disk.old disk.new (λ settings document. Splits settings matrix.now (retexted content path.now document)) true path.now (nodes_off true path.now) (bytes_pages content) entry new) }
    ensures keeps { OnOk result (RunsOn records.old records.new × KeepsSaved D.Disk records.old records.new disk.old disk.new × HasChanges records.new) }
    ensures refused { IfErr result (λ e. NotEdited D.Disk is_of_content (content_fault content path.now (settings_of records.old).k) (edit_needs (retext_tree content path.now) (nodes_off true path.now) (bytes_pages content)) entry e records.old records.new disk.old disk.new) }
{
    let (node, route) = check_content(alloc, records, disk, entry, path, content)?;
    let leaf = match hold_node(alloc, records, disk, node) {
        Ok(leaf) => leaf,
        Err(error) => return Err(edit_error(error)),
    };
    let PieceTree { node, far, .. } = leaf;
    let change = Change::Content(node.content, far);
    let changed = match change_at(
        alloc, records, disk, matrix, entry.root, path, route, change,
    ) {
        Ok(changed) => changed,
        Err(error) => return Err(edit_error(error)),
    };
    let Some(proxy) = first_of(&changed.row.proxies) else {
        return Err(no_document(records, entry.root.page));
    };
    if let Err(error) = free_one(alloc, records, disk, changed.gone) {
        return Err(edit_error(error));
    }
    Ok(entry_at(proxy, entry.nodes))
}

// Looks whether the node at the path may have the content, and answers it with that, and the way to it.
fn check_content<D: Disk>(
    alloc: Global,
    records: &mut Records,
    disk: &mut D,
    entry: DocEntry,
    path: &[u32],
    content: Bytes,
) -> Result<(Node, Route), EditError>
    ensures still { IsStill D.Disk disk.old disk.new }
    ensures route { IfOk result (λ found. IsRoute D.Disk records.old disk.old (place_of entry.root) path.now found.1) }
    ensures runs { OnOk result (has_ended records.old ≡ false × LeavesRecords records.old records.new) }
    ensures node { IfOk result (λ found. IsShort found.0 × (found.0.content ≡ content) × (has_children found.0.kind ≡ false) × (weight found.0 ≤ (settings_of records.old).k)) }
    ensures there { IfOk result (λ found. OfEach D.Disk records.old disk.old (place_of entry.root) (λ document. (t : OrderedTree) × (at (tree_of document) path.now ≡ Some t) × (found.0 ≡ other_content content t))) }
    ensures refused { IfErr result (λ e. NotEdited D.Disk is_of_content (content_fault content path.now (settings_of records.old).k) (edit_needs (retext_tree content path.now) (nodes_off true path.now) (bytes_pages content)) entry e records.old records.new disk.old disk.new) }
{
    if records.is_ended() {
        return Err(EditError::Ended);
    }
    let found = match get_route(alloc, records, disk, entry.root, path, None) {
        Ok(found) => found,
        Err(error) => return Err(seen_error(error)),
    };
    let Routed { shown, route, .. } = found;
    let node = with_content(shown, content);
    if !is_short(&node) {
        return Err(EditError::TooLong);
    }
    if is_parent(node.kind) {
        return Err(EditError::NoContent);
    }
    let heavy = weight(&node);
    if heavy > records.settings().k {
        return Err(EditError::TooHeavy { weight: heavy });
    }
    Ok((node, route))
}

// As `free_all`, of one content at most.
fn free_one<D: Disk>(
    alloc: Global,
    records: &mut Records,
    disk: &mut D,
    gone: Option<Far>,
) -> Result<(), StoreError>
    requires runs { has_ended records.old ≡ false }
    ensures still { IsStill D.Disk disk.old disk.new }
    ensures ok { OnOk result (ComesTidyWhere D.Disk records.old records.new disk.old disk.new (λ was. AreUnnamed was (option_to_list gone)) (λ was now. MovesRecords [] [] (map (λ far. far.first) (option_to_list gone)) [] 0 was now)) }
    ensures keeps { OnOk result (RunsOn records.old records.new × KeepsSaved D.Disk records.old records.new disk.old disk.new × (HasChanges records.old → HasChanges records.new)) }
    ensures refused { IfErr result (λ e. NotFreed D.Disk (option_to_list gone) e records.old records.new disk.old disk.new) }
{
    match gone {
        Some(far) => free_all(alloc, records, disk, &[far]),
        None => free_all(alloc, records, disk, &[]),
    }
}

// The first of these proxies.
pub(crate) fn first_of(row: &Proxies) -> Option<Proxy>
    ensures { result ≡ slice_get row.now 0 }
{
    row.as_slice().first().copied()
}

// The entry of a document of so many nodes whose root's record has this proxy.
pub(crate) fn entry_at(proxy: Proxy, nodes: u32) -> DocEntry
    ensures place { place_of result.root ≡ place_named proxy }
    ensures count { result.nodes ≡ nodes }
{
    DocEntry {
        root: Rid {
            page: proxy.page,
            slot: proxy.slot,
        },
        nodes,
    }
}

// A node of this kind may have children, and has no content.
fn is_parent(kind: Kind) -> bool
    ensures { result ≡ has_children kind }
{
    matches!(kind, Kind::Doc | Kind::Element)
}

// The node that is shown, with this content.
fn with_content(shown: Outlined, content: Bytes) -> Node
    ensures { result ≡ record { kind = shown.kind; name = shown.name; content = content } }
{
    Node {
        kind: shown.kind,
        name: shown.name,
        content,
    }
}

// The node is no longer than one of a document may be.
fn is_short(node: &Node) -> bool
    ensures { result ≡ nat_le (length node.now.name + length node.now.content) longest_node }
{
    node.name.len() <= LONGEST_NODE && node.content.len() <= LONGEST_NODE - node.name.len()
}
