// Whether a node may come to a place of a document.
ghost use Rattle.std.specs.Prelude.{◌≡◌, ◌-◌, ◌≤◌, ◌++◌, ◌∷◌, [], ◌||◌, ◌&&◌, not, nat_lt, None, Some, true, false, IfOk, IfErr, OnOk};
ghost use Rattle.std.specs.Option.{option_map_or};
ghost use Rattle.nx_host.specs.Still.{IsStill};
ghost use Rattle.nx_records.specs.Records.{LeavesRecords, has_ended};
ghost use Rattle.nx_tree.specs.Forest.{OrderedTree};
ghost use Rattle.nx_tree.specs.Document.{is_doc, is_instruction, is_attribute};
ghost use Rattle.nx_tree.specs.Edit.{at, has_children, is_repeated, place_refusal};
ghost use Rattle.nx_cuts.specs.Cut.{tree_of};
ghost use Rattle.nx_hold.specs.Changes.{place_of};
ghost use Rattle.nx_nav.specs.Refusals.{OfEach, HoldsNoDocument, IsRefused};
ghost use Rattle.nx_nav.specs.Route.{IsRoute};
ghost use Rattle.nx_edit.specs.Refusals.{NotEdited};
ghost use Rattle.nx_edit.specs.Inserting.{is_of_insertion, place_fault, IsChild, OfParent};

use crate::EditError;
use crate::error::seen_error;
use nx_hold::DocEntry;
use nx_host::Disk;
use nx_nav::{NavError, Outlined, Route, Routed, get_route, outline};
use nx_records::{Records, Rid};
use nx_tree::{Kind, Node};
use std::alloc::Global;

// Looks whether the node may stand at the position below the node at a path, and answers the way there.
pub(crate) fn check_place<D: Disk>(
    alloc: Global,
    records: &mut Records,
    disk: &mut D,
    entry: DocEntry,
    parent: &[u32],
    position: u32,
    node: &Node,
) -> Result<Route, EditError>
    requires { has_ended records.old ≡ false }
    ensures still { IsStill D.Disk disk.old disk.new }
    ensures route { IfOk result (λ route. IsRoute D.Disk records.old disk.old (place_of entry.root) parent.now route) }
    ensures ok { OnOk result (LeavesRecords records.old records.new × OfEach D.Disk records.old disk.old (place_of entry.root)
        (λ document. (t : OrderedTree) × (at (tree_of document) parent.now ≡ Some t) × (place_refusal node.now position t ≡ None))) }
    ensures refused { IfErr result (λ e. NotEdited D.Disk is_of_insertion (place_fault node.now position parent.now) (λ document layout. 0) entry e records.old records.new disk.old disk.new) }
{
    let root = entry.root;
    let asked = neighbour(node.kind, position);
    let found = match get_route(alloc, records, disk, root, parent, Some(asked)) {
        Ok(found) => found,
        Err(error) => return Err(seen_error(error)),
    };
    let Routed {
        shown,
        kind: beside,
        route,
    } = found;
    if is_outside(&shown, node.kind, position) {
        return Err(EditError::BadPlace);
    }
    if is_unordered(node.kind, position, beside) {
        return Err(EditError::BadPlace);
    }
    if is_first_attribute(node.kind, position, beside) {
        return Ok(route);
    }
    let repeated = match is_repeated(alloc, records, disk, root, parent, shown.children, node) {
        Ok(repeated) => repeated,
        Err(error) => return Err(seen_error(error)),
    };
    if repeated {
        return Err(EditError::Twice);
    }
    Ok(route)
}

// No node of this kind stands at the position below the node that is shown.
fn is_outside(shown: &Outlined, kind: Kind, position: u32) -> bool
    ensures is { result ≡ (not (has_children shown.now.kind) || (is_doc shown.now.kind && not (is_instruction kind)) || nat_lt shown.now.children position) }
    ensures within { result ≡ false → position ≤ shown.now.children }
{
    let may_hold = match shown.kind {
        Kind::Doc => matches!(kind, Kind::Instruction),
        Kind::Element => true,
        _ => false,
    };
    !may_hold || shown.children < position
}

// The position of the child that tells whether the order forbids a node of this kind there: since attributes come first, one
// does.
fn neighbour(kind: Kind, position: u32) -> u32
    ensures before { is_attribute kind ≡ true → result ≡ position - 1 }
    ensures there { is_attribute kind ≡ false → result ≡ position }
{
    if is_attribute(kind) {
        position.saturating_sub(1)
    } else {
        position
    }
}

// Whether with a node of this kind at the position an attribute would stand behind another node, where that child has this
// kind or is none.
fn is_unordered(kind: Kind, position: u32, beside: Option<Kind>) -> bool
    ensures first { is_attribute kind ≡ true → position ≡ 0 → result ≡ false }
    ensures later { is_attribute kind ≡ true → 1 ≤ position → result ≡ not (option_map_or is_attribute beside false) }
    ensures other { is_attribute kind ≡ false → result ≡ option_map_or is_attribute beside false }
{
    let is_beside = matches!(beside, Some(Kind::Attribute));
    if is_attribute(kind) {
        position != 0 && !is_beside
    } else {
        is_beside
    }
}

// A node of this kind at the position is an attribute whose parent has none, where the child there has this other kind or is
// none.
fn is_first_attribute(kind: Kind, position: u32, beside: Option<Kind>) -> bool
    ensures { result ≡ true → (is_attribute kind ≡ true) × (position ≡ 0) × (option_map_or is_attribute beside false ≡ false) }
{
    is_attribute(kind) && position == 0 && !matches!(beside, Some(Kind::Attribute))
}

// Whether the node is an attribute, and one of its name is there. It speaks of a node with so many children.
fn is_repeated<D: Disk>(
    alloc: Global,
    records: &mut Records,
    disk: &mut D,
    root: Rid,
    parent: &[u32],
    children: u32,
    node: &Node,
) -> Result<bool, NavError>
    requires runs { has_ended records.old ≡ false }
    ensures still { IsStill D.Disk disk.old disk.new }
    ensures ok { IfOk result (λ repeated. LeavesRecords records.old records.new × OfEach D.Disk records.old disk.old (place_of root)
        (λ document. OfParent (tree_of document) parent.now children (λ t. repeated ≡ is_repeated node.now t))) }
    ensures refused { IfErr result (λ e. IsRefused D.Disk (OfEach D.Disk records.old disk.old (place_of root) (λ document. OfParent (tree_of document) parent.now children (λ t. ⊥))) ⊥
        (HoldsNoDocument D.Disk records.old disk.old (place_of root)) e records.old records.new disk.old disk.new) }
{
    if !is_attribute(node.kind) {
        return Ok(false);
    }
    for position in 0..children {
        let other = child_at(alloc, records, disk, root, parent, position)?;
        if !is_attribute(other.kind) {
            return Ok(false);
        }
        if node.name.as_slice() == other.name.as_slice() {
            return Ok(true);
        }
    }
    Ok(false)
}

// The node at a position below the node at a path, without its content.
fn child_at<D: Disk>(
    alloc: Global,
    records: &mut Records,
    disk: &mut D,
    root: Rid,
    parent: &[u32],
    position: u32,
) -> Result<Outlined, NavError>
    requires { has_ended records.old ≡ false }
    ensures still { IsStill D.Disk disk.old disk.new }
    ensures ok { IfOk result (λ seen. LeavesRecords records.old records.new × OfEach D.Disk records.old disk.old (place_of root) (λ document. IsChild (tree_of document) parent.now position seen)) }
    ensures refused { IfErr result (λ e. IsRefused D.Disk (OfEach D.Disk records.old disk.old (place_of root) (λ document. at (tree_of document) (parent.now ++ position ∷ []) ≡ None)) ⊥
        (HoldsNoDocument D.Disk records.old disk.old (place_of root)) e records.old records.new disk.old disk.new) }
{
    let mut path = Vec::new(alloc);
    let Ok(()) = path.extend_from_slice(parent) else {
        return Err(NavError::Memory);
    };
    let Ok(()) = path.push(position) else {
        return Err(NavError::Memory);
    };
    outline(alloc, records, disk, root, path.as_slice())
}

// A node of this kind is an attribute.
fn is_attribute(kind: Kind) -> bool
    ensures { result ≡ is_attribute kind }
{
    matches!(kind, Kind::Attribute)
}
