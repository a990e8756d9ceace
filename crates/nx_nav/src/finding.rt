// The node at a path, whole or without its content, and a look at a child of it.
ghost use Rattle.std.specs.Prelude.{◌≡◌, ◌↔◌, ◌≤◌, None, Some, true, false, length, IfOk, IfErr, IfSome};
ghost use Rattle.nx_host.specs.Still.{IsStill};
ghost use Rattle.nx_records.specs.Records.{has_ended, LeavesRecords};
ghost use Rattle.nx_tree.specs.Edit.{at};
ghost use Rattle.nx_piece.specs.PieceNode.{content_length};
ghost use Rattle.nx_piece.specs.Valid.{IsPiece};
ghost use Rattle.nx_piece.specs.Flat.{seen_node};
ghost use Rattle.nx_piece.specs.Viewing.{seen_items, seen_tree};
ghost use Rattle.nx_piece.specs.Locate.{children_of, IsPartOf};
ghost use Rattle.nx_cuts.specs.Cut.{CutTree, tree_of};
ghost use Rattle.nx_hold.specs.Changes.{place_of, place_named};
ghost use Rattle.nx_hold.specs.Documents.{HasDocument};
ghost use Rattle.nx_nav.specs.Along.{ReadsAlong, ReadsPiece, ReadsShown, IsNamedAlong};
ghost use Rattle.nx_nav.specs.Beside.{way_on, child_asked, IsKindOf, IsKindOfRoot, LacksChild, ReadsChild};
ghost use Rattle.nx_nav.specs.Parts.{HasNoInterval};
ghost use Rattle.nx_nav.specs.Refusals.{OfEach, HoldsNoDocument, IsRefused};
ghost use Rattle.nx_nav.specs.declared.routing.Route.{Route};
ghost use Rattle.nx_nav.specs.Route.{IsRoute};
ghost use Rattle.nx_nav.specs.Shows.{ShowsNode, CanBeShown, OutlinesNode, CanBeOutlined, FindsNode, CanBeFound, found_node, kind_below};

use crate::NavError;
use crate::judging::{may_be, may_have_children};
use crate::reading::{damaged, passed_on, piece_at, rid_of, written_at};
use crate::routing::{Route, copy_node, end_route, pass_record};
use nx_hold::far_content;
use nx_host::Disk;
use nx_lists::DEEPEST;
use nx_piece::{
    Far, FoundView, LocatedView, NodeView, PieceView, Proxy, TreeView, count_children, find,
    find_child,
};
use nx_records::{Records, Rid};
use nx_seek::{Sought, seek};
use nx_tree::{Bytes, Kind, NoMemory, Node};
use std::alloc::Global;

/// A node of a document, and how many children it has there.
#[derive(Drop)]
pub struct Shown {
    pub node: Node,
    pub children: u32,
}

/// A node of a document without its content, and how many children it has there.
#[derive(Drop)]
pub struct Outlined {
    pub kind: Kind,
    pub name: Bytes,
    /// How many bytes its content has.
    pub content: u32,
    pub children: u32,
}

// A node as its record has it, without a content that stands elsewhere, and how many children it has.
#[derive(Drop)]
struct Found {
    node: Node,
    far: Option<Far>,
    children: u32,
}

/// The node at the path in the document whose root's record stands at `root`. Where there is a document, it reads
/// whatever its answer no page but those of the records on the path, each once, with the chain pages that they name for
/// their proxies, 257 records at most; and behind them, where its record names a list for the content of the node, the
/// chain pages of this list. What it gives is one that a document may have at that place.
///
/// Errors: `NoNode` where the path leads nowhere; `Damaged` only where the records hold no document, in
/// parts of at most K of the settings, from there on; `Disk`, only where `faults` rose; `Ended` exactly
/// where the records had ended; `Memory`. The records are as they were then, but that they end with
/// `Damaged` and `Disk`.
pub fn get<D: Disk>(
    alloc: Global,
    records: &mut Records,
    disk: &mut D,
    root: Rid,
    path: &[u32],
) -> Result<Shown, NavError>
    ensures still { IsStill D.Disk disk.old disk.new }
    ensures ok { IfOk result (λ shown. (has_ended records.old ≡ false) × LeavesRecords records.old records.new
        × OfEach D.Disk records.old disk.old (place_of root) (λ document. ShowsNode (tree_of document) path.now shown)) }
    ensures reads { (document : CutTree) (held : HasDocument D.Disk records.old disk.old (place_of root) document) → ReadsShown held.now (place_of root) path.now (at (tree_of document) path.now) (D.reads disk.old) (D.reads disk.new) }
    ensures possible { IfOk result (λ shown. CanBeShown (length path.now) shown) }
    ensures refused { IfErr result (λ e. IsRefused D.Disk (OfEach D.Disk records.old disk.old (place_of root) (λ document. at (tree_of document) path.now ≡ None)) ⊥
        (HoldsNoDocument D.Disk records.old disk.old (place_of root)) e records.old records.new disk.old disk.new) }
{
    let found = seek_at(alloc, records, disk, root, path)?;
    let Found {
        node,
        far,
        children,
    } = found;
    let Some(far) = far else {
        return Ok(Shown { node, children });
    };
    match far_content(alloc, records, disk, far) {
        Ok(content) => Ok(Shown {
            node: Node {
                kind: node.kind,
                name: node.name,
                content,
            },
            children,
        }),
        Err(error) => Err(passed_on(error)),
    }
}

/// As `get`, without the content, of which it reads no page.
///
/// Errors: those of `get`, but that a content isn't looked at.
pub fn outline<D: Disk>(
    alloc: Global,
    records: &mut Records,
    disk: &mut D,
    root: Rid,
    path: &[u32],
) -> Result<Outlined, NavError>
    ensures still { IsStill D.Disk disk.old disk.new }
    ensures ok { IfOk result (λ seen. (has_ended records.old ≡ false) × LeavesRecords records.old records.new
        × OfEach D.Disk records.old disk.old (place_of root) (λ document. OutlinesNode (tree_of document) path.now seen)) }
    ensures reads { (document : CutTree) (held : HasDocument D.Disk records.old disk.old (place_of root) document) → ReadsAlong held.now (place_of root) path.now (D.reads disk.old) (D.reads disk.new) }
    ensures possible { IfOk result (λ seen. CanBeOutlined (length path.now) seen) }
    ensures refused { IfErr result (λ e. IsRefused D.Disk (OfEach D.Disk records.old disk.old (place_of root) (λ document. at (tree_of document) path.now ≡ None)) ⊥
        (HoldsNoDocument D.Disk records.old disk.old (place_of root)) e records.old records.new disk.old disk.new) }
{
    let found = seek_at(alloc, records, disk, root, path)?;
    Ok(outline_of(found))
}

/// A node that an edit begins at.
#[derive(Drop)]
pub struct Routed {
    pub shown: Outlined,
    /// Which kind the child has that was asked for.
    pub kind: Option<Kind>,
    pub route: Route,
}

/// As `outline`, with the records that the path passes on its way to the node. Where a child is asked for, it says besides
/// which kind the child at that position below the node has, none where there is no such child, and reads the pages that
/// `outline` reads for this child.
///
/// Errors: those of `outline`.
pub fn get_route<D: Disk>(
    alloc: Global,
    records: &mut Records,
    disk: &mut D,
    root: Rid,
    path: &[u32],
    child: Option<u32>,
) -> Result<Routed, NavError>
    ensures still { IsStill D.Disk disk.old disk.new }
    ensures ok { IfOk result (λ found. (has_ended records.old ≡ false) × LeavesRecords records.old records.new
        × OfEach D.Disk records.old disk.old (place_of root) (λ document. OutlinesNode (tree_of document) path.now found.shown × IfSome child (λ position. found.kind ≡ kind_below (tree_of document) path.now position))) }
    ensures route { IfOk result (λ found. IsRoute D.Disk records.old disk.old (place_of root) path.now found.route) }
    ensures reads { (document : CutTree) (held : HasDocument D.Disk records.old disk.old (place_of root) document) → ReadsAlong held.now (place_of root) (way_on path.now child) (D.reads disk.old) (D.reads disk.new) }
    ensures possible { IfOk result (λ found. CanBeOutlined (length path.now) found.shown) }
    ensures refused { IfErr result (λ e. IsRefused D.Disk (OfEach D.Disk records.old disk.old (place_of root) (λ document. at (tree_of document) path.now ≡ None)) ⊥
        (HoldsNoDocument D.Disk records.old disk.old (place_of root)) e records.old records.new disk.old disk.new) }
{
    let ((found, kind), kept) = find_at(alloc, records, disk, root, path, child, true)?;
    let Some(route) = kept else {
        unreachable!();
    };
    let shown = outline_of(found);
    Ok(Routed { shown, kind, route })
}

// The node that was found, without its content.
fn outline_of(found: Found) -> Outlined
    requires { content_length (found_node found) ≤ 4294967295 }
    ensures { (result.kind ≡ found.node.kind) × (result.name ≡ found.node.name) × (result.content ≡ content_length (found_node found)) × (result.children ≡ found.children) }
{
    let Found {
        node,
        far,
        children,
    } = found;
    let content = match far {
        None => node.content.len() as u32,
        Some(far) => far.length,
    };
    Outlined {
        kind: node.kind,
        name: node.name,
        content,
        children,
    }
}

// The node at the path as its record has it, where the records on the way are read along the path alone.
fn seek_at<D: Disk>(
    alloc: Global,
    records: &mut Records,
    disk: &mut D,
    root: Rid,
    path: &[u32],
) -> Result<Found, NavError>
    ensures still { IsStill D.Disk disk.old disk.new }
    ensures stays { IfOk result (λ found. (has_ended records.old ≡ false) × LeavesRecords records.old records.new) }
    ensures finds { IfOk result (λ found. (document : CutTree) (held : HasDocument D.Disk records.old disk.old (place_of root) document) → FindsNode held.now (tree_of document) path.now found) }
    ensures named { IfOk result (λ found. (document : CutTree) (held : HasDocument D.Disk records.old disk.old (place_of root) document)
        → (along : ReadsAlong held.now (place_of root) path.now (D.reads disk.old) (D.reads disk.new)) × IsNamedAlong held.now along.places found.far) }
    ensures reads { (document : CutTree) (held : HasDocument D.Disk records.old disk.old (place_of root) document) → ReadsAlong held.now (place_of root) path.now (D.reads disk.old) (D.reads disk.new) }
    ensures possible { IfOk result (λ found. CanBeFound (length path.now) found) }
    ensures refused { IfErr result (λ e. IsRefused D.Disk (OfEach D.Disk records.old disk.old (place_of root) (λ document. at (tree_of document) path.now ≡ None)) ⊥
        (HoldsNoDocument D.Disk records.old disk.old (place_of root)) e records.old records.new disk.old disk.new) }
{
    if records.is_ended() {
        return Err(NavError::Ended);
    }
    if path.len() > DEEPEST {
        return Err(NavError::NoNode);
    }
    let (mut rid, mut member, mut rest) = (root, 0, path);
    loop {
        let written = written_at(alloc, records, disk, rid)?;
        match seek(
            written.record.as_slice(),
            written.list.as_slice(),
            member,
            rest,
        ) {
            None => return Err(damaged(records, rid.page)),
            Some(Sought::Here { node, children }) => {
                let found = found_with(alloc, node, children)?;
                if !is_shown(&found, path.len()) {
                    return Err(damaged(records, rid.page));
                }
                return Ok(found);
            }
            Some(
                Sought::Away {
                    proxy,
                    member: next,
                    used,
                    ..
                },
            ) => {
                rid = rid_of(proxy);
                member = next;
                rest = &rest[used as usize..];
            }
            Some(Sought::Nowhere) => return Err(NavError::NoNode),
        }
    }
}

// The node at the path as its record has it, the kind of a child of it where one is asked for, and the way there where it
// is kept.
fn find_at<D: Disk>(
    alloc: Global,
    records: &mut Records,
    disk: &mut D,
    root: Rid,
    path: &[u32],
    child: Option<u32>,
    keeps: bool,
) -> Result<((Found, Option<Kind>), Option<Route>), NavError>
    ensures still { IsStill D.Disk disk.old disk.new }
    ensures stays { IfOk result (λ found. (has_ended records.old ≡ false) × LeavesRecords records.old records.new) }
    ensures finds { IfOk result (λ found. (document : CutTree) (held : HasDocument D.Disk records.old disk.old (place_of root) document) → FindsNode held.now (tree_of document) path.now found.0.0) }
    ensures child { IfOk result (λ found. OfEach D.Disk records.old disk.old (place_of root) (λ document. IfSome child (λ position. found.0.1 ≡ kind_below (tree_of document) path.now position))) }
    ensures route { IfOk result (λ found. keeps ≡ true → (route : Route) × (found.1 ≡ Some route) × IsRoute D.Disk records.old disk.old (place_of root) path.now route) }
    ensures named { child ≡ None → IfOk result (λ found. (document : CutTree) (held : HasDocument D.Disk records.old disk.old (place_of root) document)
        → (along : ReadsAlong held.now (place_of root) path.now (D.reads disk.old) (D.reads disk.new)) × IsNamedAlong held.now along.places found.0.0.far) }
    ensures reads { (document : CutTree) (held : HasDocument D.Disk records.old disk.old (place_of root) document) → ReadsAlong held.now (place_of root) (way_on path.now child) (D.reads disk.old) (D.reads disk.new) }
    ensures possible { IfOk result (λ found. CanBeFound (length path.now) found.0.0) }
    ensures refused { IfErr result (λ e. IsRefused D.Disk (OfEach D.Disk records.old disk.old (place_of root) (λ document. at (tree_of document) path.now ≡ None)) ⊥
        (HoldsNoDocument D.Disk records.old disk.old (place_of root)) e records.old records.new disk.old disk.new) }
{
    if records.is_ended() {
        return Err(NavError::Ended);
    }
    if path.len() > DEEPEST {
        return Err(NavError::NoNode);
    }
    let (mut rid, mut roots, mut member, mut rest) = (root, 1, 0, path);
    let mut passed = Vec::new(alloc);
    loop {
        let mut bytes = Bytes::new(alloc);
        let piece = piece_at(alloc, records, disk, rid, roots, &mut bytes)?;
        let located = find(&piece, member, rest);
        match located {
            LocatedView::Here { tree, first } => {
                let found = find_in(alloc, &piece, tree, first)?;
                if !is_shown(&found, path.len()) {
                    return Err(damaged(records, rid.page));
                }
                let kind = kind_at(alloc, records, disk, &piece, tree, first, child)?;
                let route = end_route(alloc, keeps, passed, piece)?;
                return Ok(((found, kind), route));
            }
            LocatedView::Away {
                proxy,
                member: next,
                used,
                ..
            } => {
                pass_record(alloc, keeps, &mut passed, &piece, member, rest, located)?;
                rid = rid_of(proxy);
                roots = proxy.roots;
                member = next;
                rest = &rest[used as usize..];
            }
            LocatedView::Nowhere => return Err(NavError::NoNode),
        }
    }
}

// The kind of the child of a node of a piece that is asked for, if the node has it.
fn kind_at<D: Disk>(
    alloc: Global,
    records: &mut Records,
    disk: &mut D,
    piece: &PieceView<'_>,
    tree: TreeView<'_>,
    first: u32,
    child: Option<u32>,
) -> Result<Option<Kind>, NavError>
    requires runs { has_ended records.old ≡ false }
    requires piece { IsPiece piece.now }
    requires node { IsPartOf piece.now (seen_tree tree) first }
    ensures still { IsStill D.Disk disk.old disk.new }
    ensures ok { IfOk result (λ kind. LeavesRecords records.old records.new
        × IsKindOf D.Disk records.old disk.old piece.now.proxies (child_asked piece.now.proxies (seen_tree tree.entry) first child) kind) }
    ensures reads { ReadsChild D.Disk records.old disk.old disk.new piece.now.proxies (child_asked piece.now.proxies (seen_tree tree.entry) first child) }
    ensures refused { IfErr result (λ e. IsRefused D.Disk ⊥ ⊥ (LacksChild D.Disk records.old disk.old piece.now.proxies (child_asked piece.now.proxies (seen_tree tree.entry) first child)) e records.old records.new disk.old disk.new) }
{
    let Some(position) = child else {
        return Ok(None);
    };
    let proxies = piece.proxies.as_slice();
    match find_child(tree.children, proxies, first, position) {
        None => Ok(None),
        Some(FoundView::Tree(found, _)) => Ok(Some(found.node.kind)),
        Some(FoundView::Root(index, member)) => {
            root_kind(alloc, records, disk, proxies[index as usize], member)
        }
    }
}

// The kind of a root of the record of a proxy, if it has that one.
fn root_kind<D: Disk>(
    alloc: Global,
    records: &mut Records,
    disk: &mut D,
    proxy: Proxy,
    member: u16,
) -> Result<Option<Kind>, NavError>
    requires { has_ended records.old ≡ false }
    ensures still { IsStill D.Disk disk.old disk.new }
    ensures ok { IfOk result (λ kind. LeavesRecords records.old records.new × IsKindOfRoot D.Disk records.old disk.old proxy member kind) }
    ensures reads { ReadsPiece D.Disk records.old disk.old disk.new (place_named proxy) }
    ensures refused { IfErr result (λ e. IsRefused D.Disk ⊥ ⊥ (HasNoInterval D.Disk records.old disk.old (place_named proxy) proxy.roots) e records.old records.new disk.old disk.new) }
{
    let rid = Rid {
        page: proxy.page,
        slot: proxy.slot,
    };
    let mut bytes = Bytes::new(alloc);
    let piece = piece_at(alloc, records, disk, rid, proxy.roots, &mut bytes)?;
    match find(&piece, member, &[]) {
        LocatedView::Here { tree, .. } => Ok(Some(tree.node.kind)),
        // A path without positions leads into no other record.
        LocatedView::Away { .. } | LocatedView::Nowhere => Ok(None),
    }
}

// The node of a piece, and how many children it has.
fn find_in(
    alloc: Global,
    piece: &PieceView<'_>,
    tree: TreeView<'_>,
    first: u32,
) -> Result<Found, NoMemory>
    requires piece { IsPiece piece.now }
    requires node { IsPartOf piece.now (seen_tree tree) first }
    ensures { IfOk result (λ found. (found_node found ≡ seen_node tree.entry.node) × (found.children ≡ length (children_of piece.now.proxies first (seen_items tree.entry.children)))) }
{
    let children = count_children(piece, tree, first);
    found_with(alloc, tree.node, children)
}

// A node as its record has it, and how many children it has.
fn found_with(alloc: Global, node: NodeView<'_>, children: u32) -> Result<Found, NoMemory>
    ensures { IfOk result (λ found. (found_node found ≡ seen_node node.entry) × (found.children ≡ children)) }
{
    let copy = copy_node(alloc, node)?;
    Ok(Found {
        node: copy,
        far: node.far,
        children,
    })
}

// Whether a document may have the node at this depth, with children where it has some.
fn is_shown(found: &Found, depth: usize) -> bool
    ensures { (result ≡ true) ↔ CanBeFound depth found.now }
{
    let node = &found.node;
    let content = match found.far {
        None => node.content.len(),
        Some(far) => far.length as usize,
    };
    may_be(node.kind, node.name.as_slice(), content, depth)
        && (may_have_children(node.kind) || found.children == 0)
}
