// A walk over the records of a document, which tells its nodes and its intervals.
ghost use Rattle.std.specs.Prelude.{◌≡◌, ◌⊎◌, ◌+◌, ◌≤◌, false, Bool, None, Err, ℕ, List, [], ◌∷◌, ◌++◌, OnOk, IfOk, IfErr, length, drop, OnErr, IsSome};
ghost use Rattle.nx_host.specs.Disk.{Image, Keeps};
ghost use Rattle.nx_host.specs.Host.{Appends};
ghost use Rattle.nx_host.specs.Still.{IsStill};
ghost use Rattle.nx_records.specs.Records.{has_ended, LeavesRecords};
ghost use Rattle.nx_tree.specs.declared.node.Kind.{Kind};
ghost use Rattle.nx_tree.specs.Document.{is_doc};
ghost use Rattle.nx_piece.specs.Gapped.{gapped_size, gapped_weight, proxies_in};
ghost use Rattle.nx_piece.specs.Flat.{seen_node};
ghost use Rattle.nx_piece.specs.Viewing.{seen_items, seen_tree};
ghost use Rattle.nx_piece.specs.PieceNode.{MayBeFar, item_slots};
ghost use Rattle.nx_piece.specs.Valid.{HaveRoots, AreFar};
ghost use Rattle.nx_cuts.specs.Cut.{CutTree};
ghost use Rattle.nx_hold.specs.Changes.{place_of};
ghost use Rattle.nx_hold.specs.Documents.{HasDocument};
ghost use Rattle.nx_nav.specs.Along.{ReadsAlong};
ghost use Rattle.nx_nav.specs.Early.{LeavesOutput, ReadsAtMost, ReadsInterval, ReadsGap, ReadsFirstOf};
ghost use Rattle.nx_tree.specs.Edit.{at};
ghost use Rattle.nx_cuts.specs.Cut.{tree_of};
ghost use Rattle.nx_piece.specs.Locate.{IsPartOf};
ghost use Rattle.nx_piece.specs.Valid.{IsValidPiece};
ghost use Rattle.nx_nav.specs.Below.{TellsBelow, StopsBelow, MayBeInPiece, found_steps};
ghost use Rattle.nx_nav.specs.Pages.{ReadsBelow, pages_below};
ghost use Rattle.nx_nav.specs.Refusals.{IsRefused, HoldsNoneWith, HoldsNoneWithin, OfEach};
ghost use Rattle.nx_nav.specs.Visited.{HasVisited};
ghost use Rattle.nx_nav.specs.Walk.{HasTold, HasStopped, TellsEach, StopsInEach, ReadsNoMore, IsNone, IsIntervalAt, IsTreeOf, AreOf, AreIntervalsOf, TellsDocument, StopsWithin};
ghost use Rattle.nx_nav.specs.Steps.{WalkStep, Begin, Open, Head, Block, Tail, Close};

use crate::NavError;
use crate::judging::is_possible;
use crate::reading::{damaged, piece_at, rid_of};
use crate::telling_content::begin_node;
use crate::visited::Visited;
use nx_host::Disk;
use nx_lists::DEEPEST;
use nx_piece::{
    BodyView, ItemView, ItemsView, LocatedView, NodeView, PieceView, Proxy, TreeView, find,
};
use nx_records::{Records, Rid};
use nx_tree::{Bytes, Kind, NoMemory};
use std::alloc::Global;

// What a walk tells a document to.
pub trait Tells<D: Disk> {
    // It is told contents of more than 1,024 bytes.
    ghost Contents: { Bool };

    // From one teller and disk so many steps led to others.
    ghost Told: { Self → D → List WalkStep → Self → D → Type 0 };

    // The disk shows that nothing more could be told.
    ghost Unwritten: { D → D → Type 0 };

    // It holds back so little that a record may be read.
    ghost IsReady: { Self → Type 0 };

    // How near it is to giving something: 3 where it does so before more is read, 2 where it will once a node below the root begins, 1 before a record is read, and 0 where nothing is said.
    ghost Near: { Self → ℕ };

    fn wants_contents(&self) -> bool
        ensures { result ≡ Contents };

    // Before a record or a page of a content is read.
    fn pause(&mut self, disk: &mut D) -> Result<(), NavError>
        ensures ok { OnOk result (Told self.old disk.old [] self.new disk.new) }
        ensures ready { OnOk result (IsReady self.new) }
        ensures err { IfErr result (λ e. (e ≡ NavError.Write) × Unwritten disk.old disk.new × ((last : Self) × Told self.old disk.old [] last disk.new)) }
        ensures unread { D.reads disk.new ≡ D.reads disk.old }
        ensures gives { OnOk result (3 ≤ Near self.old → LeavesOutput D.Disk disk.old disk.new → ⊥) };

    // At the end.
    fn finish(&mut self, disk: &mut D) -> Result<(), NavError>
        ensures ok { OnOk result (Told self.old disk.old [] self.new disk.new) }
        ensures ready { OnOk result (IsReady self.new) }
        ensures err { IfErr result (λ e. (e ≡ NavError.Write) × Unwritten disk.old disk.new × ((last : Self) × Told self.old disk.old [] last disk.new)) }
        ensures unread { D.reads disk.new ≡ D.reads disk.old };

    // An interval of so many members begins, whose record has these nodes.
    fn begin(&mut self, roots: u16, body: &BodyView<'_>) -> Result<(), NoMemory>
        requires { 1 ≤ roots }
        ensures told { OnOk result ((disk : D) → Told self.old disk (Begin roots (gapped_weight body.now.roots) ∷ []) self.new disk) }
        ensures near { OnOk result (1 ≤ Near self.old → 2 ≤ Near self.new) };

    // A node begins, whose content of at most 1,024 bytes it has here.
    fn open(&mut self, node: NodeView<'_>) -> Result<(), NoMemory>
        ensures told { OnOk result ((disk : D) → Told self.old disk (Open (seen_node node.entry).node ∷ []) self.new disk) }
        ensures near { OnOk result (is_doc (seen_node node.entry).node.kind ≡ false → 2 ≤ Near self.old → 3 ≤ Near self.new) };

    // A node with a longer content begins.
    fn head(&mut self, kind: Kind, name: &[u8]) -> Result<(), NoMemory>
        ensures told { OnOk result ((disk : D) → Told self.old disk (Head kind name.now ∷ []) self.new disk) }
        ensures near { OnOk result (2 ≤ Near self.old → 3 ≤ Near self.new) };

    // The next block of its content comes, of at most 8,184 bytes.
    fn content(&mut self, bytes: &[u8]) -> Result<(), NoMemory>
        ensures { OnOk result ((disk : D) → Told self.old disk (Block bytes.now ∷ []) self.new disk) };

    // Its content has come.
    fn tail(&mut self) -> Result<(), NoMemory>
        ensures { OnOk result ((disk : D) → Told self.old disk (Tail ∷ []) self.new disk) };

    // A node ends.
    fn close(&mut self, kind: Kind, name: &[u8]) -> Result<(), NoMemory>
        ensures { OnOk result ((disk : D) → Told self.old disk (Close kind name.now ∷ []) self.new disk) };

    // Where the disk is asked alone nothing is told.
    ghost asked: { (a : Self) (x y : D) → IsStill D.Disk x y → Told a x [] a y };

    // Steps behind steps.
    ghost then: { (a b c : Self) (x y z : D) (s t : List WalkStep) → Told a x s b y → Told b y t c z → Told a x (s ++ t) c z };

    // The areas stay as they were.
    ghost keeps: { (a b : Self) (x y : D) (s : List WalkStep) → Told a x s b y → Keeps (D.contents x) (D.contents y) };

    ghost fewer_images: { (a b : Self) (x y : D) (s : List WalkStep) (i : Image) → Told a x s b y → D.may_leave y i → D.may_leave x i };

    // The count of faults doesn't fall.
    ghost faults_later: { (a b : Self) (x y : D) (s : List WalkStep) → Told a x s b y → D.faults x ≤ D.faults y };

    ghost unwritten_later: { (a b : Self) (x y z : D) (s : List WalkStep) → Told a x s b y → Unwritten y z → Unwritten x z };

    // What was given stays given.
    ghost output_grows: { (a b : Self) (x y : D) (s : List WalkStep) → Told a x s b y → (more : List ℕ) × Appends more (D.beside x).output (D.beside y).output };

    // While nothing is given it comes no further from giving something.
    ghost near_later: { (a b : Self) (x y : D) (s : List WalkStep) → Told a x s b y → LeavesOutput D.Disk x y → Near a ≤ Near b };
}

// Tells of the document whose root's record stands at a place, and that has as many nodes as the walk
// has left.
pub fn tell_document<D: Disk, T: Tells<D>>(
    walk: &mut Walk<T>,
    records: &mut Records,
    disk: &mut D,
    root: Rid,
) -> Result<(), NavError>
    requires fresh { HasVisited walk.old.visited [] }
    ensures stays { OnOk result ((has_ended records.old ≡ false) × LeavesRecords records.old records.new) }
    ensures told { OnOk result (TellsDocument D.Disk T.Contents T.Told records.old disk.old (place_of root) walk.old.left walk.old.teller walk.new.teller disk.new) }
    ensures ready { OnOk result (T.IsReady walk.new.teller) }
    ensures stops { OnErr result (StopsWithin D.Disk T.Contents T.Told records.old disk.old (place_of root) walk.old.teller disk.new) }
    ensures first { LeavesOutput D.Disk disk.old disk.new → 1 ≤ T.Near walk.old.teller → (document : CutTree) (held : HasDocument D.Disk records.old disk.old (place_of root) document)
        → ReadsAlong held.now (place_of root) (0 ∷ []) (D.reads disk.old) (D.reads disk.new) }
    ensures refused { IfErr result (λ e. IsRefused D.Disk ⊥ (T.Unwritten disk.old disk.new) (IsSome (D.contents disk.new) → HoldsNoneWith D.Disk records.old disk.old (place_of root) walk.old.left) e records.old records.new disk.old disk.new) }
{
    if records.is_ended() {
        return Err(NavError::Ended);
    }
    tell_interval(walk, records, disk, root, 1, DEEPEST as u32 + 1)?;
    if walk.left != 0 {
        return Err(damaged(records, root.page));
    }
    walk.teller.finish(disk)?;
    Ok(())
}

// Tells of the node at a path with all below it, in the document whose root's record stands at a place,
// and that has no more nodes than the walk has left. Nothing is told before the node is found.
pub fn tell_below<D: Disk, T: Tells<D>>(
    walk: &mut Walk<T>,
    records: &mut Records,
    disk: &mut D,
    root: Rid,
    path: &[u32],
) -> Result<(), NavError>
    requires fresh { HasVisited walk.old.visited [] }
    ensures stays { OnOk result ((has_ended records.old ≡ false) × LeavesRecords records.old records.new) }
    ensures told { OnOk result (TellsBelow D.Disk T.Contents T.Told records.old disk.old (place_of root) path.now walk.old.teller walk.new.teller disk.new) }
    ensures ready { OnOk result (T.IsReady walk.new.teller) }
    ensures stops { OnErr result (StopsBelow D.Disk T.Contents T.Told records.old disk.old (place_of root) path.now walk.old.teller disk.new) }
    ensures untold { result ≡ Err NavError.NoNode → (walk.new.teller ≡ walk.old.teller) × IsStill D.Disk disk.old disk.new }
    ensures first { LeavesOutput D.Disk disk.old disk.new → 1 ≤ T.Near walk.old.teller → (document : CutTree) (held : HasDocument D.Disk records.old disk.old (place_of root) document)
        → ReadsAlong held.now (place_of root) (path.now ++ 0 ∷ []) (D.reads disk.old) (D.reads disk.new) }
    ensures reads { IsSome (D.contents disk.new) → (document : CutTree) (held : HasDocument D.Disk records.old disk.old (place_of root) document)
        → ReadsBelow held.now (place_of root) path.now (pages_below held path.now) (D.reads disk.old) (D.reads disk.new) }
    ensures refused { IfErr result (λ e. IsRefused D.Disk (OfEach D.Disk records.old disk.old (place_of root) (λ document. at (tree_of document) path.now ≡ None)) (T.Unwritten disk.old disk.new)
        (IsSome (D.contents disk.new) → HoldsNoneWithin D.Disk records.old disk.old (place_of root) walk.old.left) e records.old records.new disk.old disk.new) }
{
    if records.is_ended() {
        return Err(NavError::Ended);
    }
    if path.len() > DEEPEST {
        return Err(NavError::NoNode);
    }
    let (mut rid, mut roots, mut member, mut rest) = (root, 1, 0, path);
    loop {
        let mut bytes = Bytes::new(walk.alloc);
        let piece = piece_at(walk.alloc, records, disk, rid, roots, &mut bytes)?;
        match find(&piece, member, rest) {
            LocatedView::Here { tree, first } => {
                let spot = Spot {
                    page: rid.page,
                    depth: (DEEPEST + 1 - path.len()) as u32,
                };
                tell_found(walk, records, disk, &piece, tree, first, spot)?;
                return Ok(());
            }
            LocatedView::Away {
                proxy,
                member: next,
                used,
                ..
            } => {
                rid = rid_of(proxy);
                roots = proxy.roots;
                member = next;
                rest = &rest[used as usize..];
            }
            LocatedView::Nowhere => return Err(NavError::NoNode),
        }
    }
}

// Tells of a tree of a piece, before whose own proxies so many stand, as if its record had nothing else.
fn tell_found<D: Disk, T: Tells<D>>(
    walk: &mut Walk<T>,
    records: &mut Records,
    disk: &mut D,
    piece: &PieceView<'_>,
    tree: TreeView<'_>,
    first: u32,
    spot: Spot,
) -> Result<(), NavError>
    requires runs { has_ended records.old ≡ false }
    requires levels { spot.depth ≤ 257 }
    requires piece { IsValidPiece piece.now }
    requires node { IsPartOf piece.now (seen_tree tree) first }
    requires stands { MayBeInPiece (seen_tree tree) }
    ensures stays { OnOk result (LeavesRecords records.old records.new) }
    ensures told { OnOk result (TellsEach D.Disk T.Told (IsTreeOf D.Disk records.old disk.old (seen_tree tree.entry) (drop first piece.now.proxies)) (found_steps T.Contents piece.now) walk.old.teller disk.old walk.new.teller disk.new) }
    ensures ready { OnOk result (T.IsReady walk.new.teller) }
    ensures stops { OnErr result (StopsInEach D.Disk T.Told (IsTreeOf D.Disk records.old disk.old (seen_tree tree.entry) (drop first piece.now.proxies)) (found_steps T.Contents piece.now) walk.old.teller disk.old disk.new) }
    ensures refused { IfErr result (λ e. IsRefused D.Disk ⊥ (T.Unwritten disk.old disk.new) (IsNone D.Disk disk.new (IsTreeOf D.Disk records.old disk.old (seen_tree tree.entry) (drop first piece.now.proxies)) spot.depth walk.old.left walk.old.visited) e records.old records.new disk.old disk.new) }
    ensures reads { ReadsNoMore D.Disk (IsTreeOf D.Disk records.old disk.old (seen_tree tree.entry) (drop first piece.now.proxies)) disk.old disk.new }
    ensures first { LeavesOutput D.Disk disk.old disk.new → 1 ≤ T.Near walk.old.teller → (D.reads disk.new ≤ D.reads disk.old)
        ⊎ ReadsGap D.Disk records.old disk.old disk.new (seen_items tree.entry.children) (drop first piece.now.proxies) }
{
    walk.teller.begin(piece.body.root_count(), &piece.body)?;
    let (_, proxies) = piece.proxies.as_slice().split_at(first as usize);
    tell_tree(walk, records, disk, tree, proxies, spot)?;
    walk.teller.finish(disk)?;
    Ok(())
}

// A walk: what it tells to, how many nodes may still come, and the records that it has come to.
#[derive(Drop)]
pub struct Walk<T> {
    pub alloc: Global,
    pub teller: T,
    pub left: u32,
    pub visited: Visited,
}

// Where a walk is: in a record of this page, with so many levels of nodes left.
#[derive(Clone, Copy)]
struct Spot {
    page: u32,
    depth: u32,
}

// Tells of the interval with the record at a place, which has so many roots.
#[cycle(walk)]
fn tell_interval<D: Disk, T: Tells<D>>(
    walk: &mut Walk<T>,
    records: &mut Records,
    disk: &mut D,
    rid: Rid,
    roots: u16,
    depth: u32,
) -> Result<(), NavError>
    requires runs { has_ended records.old ≡ false }
    requires levels { depth ≤ 257 }
    requires some { 1 ≤ roots }
    requires one { depth ≡ 257 → roots ≡ 1 }
    ensures stays { OnOk result (LeavesRecords records.old records.new) }
    ensures told { OnOk result (HasTold D.Disk T.Contents T.Told (IsIntervalAt D.Disk records.old disk.old (place_of rid) roots) walk.old.teller disk.old walk.old.left walk.old.visited walk.new.teller disk.new walk.new.left walk.new.visited) }
    ensures stops { OnErr result (HasStopped D.Disk T.Contents T.Told (IsIntervalAt D.Disk records.old disk.old (place_of rid) roots) walk.old.teller disk.old disk.new) }
    ensures refused { IfErr result (λ e. IsRefused D.Disk ⊥ (T.Unwritten disk.old disk.new) (IsNone D.Disk disk.new (IsIntervalAt D.Disk records.old disk.old (place_of rid) roots) depth walk.old.left walk.old.visited) e records.old records.new disk.old disk.new) }
    ensures first { LeavesOutput D.Disk disk.old disk.new → 1 ≤ T.Near walk.old.teller → ReadsAtMost (T.Near walk.old.teller) (D.reads disk.old) (D.reads disk.new) (ReadsInterval D.Disk records.old disk.old disk.new (place_of rid) roots depth) }
    ensures near { OnOk result (LeavesOutput D.Disk disk.old disk.new → 1 ≤ T.Near walk.old.teller → depth ≤ 256 → 3 ≤ T.Near walk.new.teller) }
{
    walk.teller.pause(disk)?;
    if !walk.visited.visit(rid)? {
        return Err(damaged(records, rid.page));
    }
    let mut bytes = Bytes::new(walk.alloc);
    let piece = piece_at(walk.alloc, records, disk, rid, roots, &mut bytes)?;
    walk.teller.begin(roots, &piece.body)?;
    let spot = Spot {
        page: rid.page,
        depth,
    };
    let mut proxies = piece.proxies.as_slice();
    let mut items = piece.body.roots();
    while let Some((item, beside)) = items.split_first() {
        // No proxy stands between the roots of a piece.
        if let ItemView::Tree(root) = item {
            proxies = tell_tree(walk, records, disk, root, proxies, spot)?;
        }
        items = beside;
    }
    Ok(())
}

// Tells of a tree of a piece, and gives the proxies behind those of its gaps.
#[cycle(walk)]
fn tell_tree<'a, D: Disk, T: Tells<D>>(
    walk: &mut Walk<T>,
    records: &mut Records,
    disk: &mut D,
    tree: TreeView<'_>,
    proxies: &'a [Proxy],
    spot: Spot,
) -> Result<&'a [Proxy], NavError>
    requires runs { has_ended records.old ≡ false }
    requires levels { spot.depth ≤ 257 }
    requires far { MayBeFar (seen_node tree.node) × AreFar (seen_items tree.children) }
    requires small { item_slots (seen_node tree.node) + gapped_size (seen_items tree.children) ≤ 256 }
    requires fits { proxies_in (seen_items tree.children) ≤ length proxies.now }
    requires rooted { HaveRoots proxies.now }
    ensures stays { OnOk result (LeavesRecords records.old records.new) }
    ensures behind { IfOk result (λ behind. behind.now ≡ drop (proxies_in (seen_items tree.entry.children)) proxies.now) }
    ensures told { OnOk result (HasTold D.Disk T.Contents T.Told (IsTreeOf D.Disk records.old disk.old (seen_tree tree.entry) proxies.now) walk.old.teller disk.old walk.old.left walk.old.visited walk.new.teller disk.new walk.new.left walk.new.visited) }
    ensures stops { OnErr result (HasStopped D.Disk T.Contents T.Told (IsTreeOf D.Disk records.old disk.old (seen_tree tree.entry) proxies.now) walk.old.teller disk.old disk.new) }
    ensures refused { IfErr result (λ e. IsRefused D.Disk ⊥ (T.Unwritten disk.old disk.new) (IsNone D.Disk disk.new (IsTreeOf D.Disk records.old disk.old (seen_tree tree.entry) proxies.now) spot.depth walk.old.left walk.old.visited) e records.old records.new disk.old disk.new) }
    ensures first { LeavesOutput D.Disk disk.old disk.new → 2 ≤ T.Near walk.old.teller → ReadsAtMost (T.Near walk.old.teller) (D.reads disk.old) (D.reads disk.new) ((spot.depth ≡ 257) × ReadsGap D.Disk records.old disk.old disk.new (seen_items tree.entry.children) proxies.now) }
    ensures near { OnOk result (LeavesOutput D.Disk disk.old disk.new → 2 ≤ T.Near walk.old.teller → spot.depth ≤ 256 → 3 ≤ T.Near walk.new.teller) }
{
    if spot.depth == 0 || walk.left == 0 {
        return Err(damaged(records, spot.page));
    }
    if !is_possible(tree, DEEPEST + 1 - spot.depth as usize) {
        return Err(damaged(records, spot.page));
    }
    walk.left -= 1;
    begin_node(walk.alloc, &mut walk.teller, records, disk, tree.node)?;
    let below = Spot {
        page: spot.page,
        depth: spot.depth - 1,
    };
    let behind = tell_items(walk, records, disk, tree.children, proxies, below)?;
    walk.teller.close(tree.node.kind, tree.node.name)?;
    Ok(behind)
}

// Tells of trees and gaps of a piece, and gives the proxies behind those of the gaps.
#[cycle(walk)]
fn tell_items<'a, D: Disk, T: Tells<D>>(
    walk: &mut Walk<T>,
    records: &mut Records,
    disk: &mut D,
    items: ItemsView<'_>,
    proxies: &'a [Proxy],
    spot: Spot,
) -> Result<&'a [Proxy], NavError>
    requires runs { has_ended records.old ≡ false }
    requires levels { spot.depth ≤ 256 }
    requires far { AreFar (seen_items items) }
    requires small { gapped_size (seen_items items) ≤ 256 }
    requires fits { proxies_in (seen_items items) ≤ length proxies.now }
    requires rooted { HaveRoots proxies.now }
    ensures stays { OnOk result (LeavesRecords records.old records.new) }
    ensures behind { IfOk result (λ behind. behind.now ≡ drop (proxies_in (seen_items items.entry)) proxies.now) }
    ensures told { OnOk result (HasTold D.Disk T.Contents T.Told (AreOf D.Disk records.old disk.old (seen_items items.entry) proxies.now) walk.old.teller disk.old walk.old.left walk.old.visited walk.new.teller disk.new walk.new.left walk.new.visited) }
    ensures stops { OnErr result (HasStopped D.Disk T.Contents T.Told (AreOf D.Disk records.old disk.old (seen_items items.entry) proxies.now) walk.old.teller disk.old disk.new) }
    ensures refused { IfErr result (λ e. IsRefused D.Disk ⊥ (T.Unwritten disk.old disk.new) (IsNone D.Disk disk.new (AreOf D.Disk records.old disk.old (seen_items items.entry) proxies.now) spot.depth walk.old.left walk.old.visited) e records.old records.new disk.old disk.new) }
    ensures first { LeavesOutput D.Disk disk.old disk.new → 2 ≤ T.Near walk.old.teller → ReadsAtMost (T.Near walk.old.teller) (D.reads disk.old) (D.reads disk.new) (ReadsGap D.Disk records.old disk.old disk.new (seen_items items.entry) proxies.now) }
{
    let mut rest = proxies;
    let mut left = items;
    while let Some((item, beside)) = left.split_first() {
        match item {
            ItemView::Tree(tree) => rest = tell_tree(walk, records, disk, tree, rest, spot)?,
            ItemView::Run { count } => {
                let (here, behind) = rest.split_at(count as usize);
                tell_row(walk, records, disk, here, spot.depth)?;
                rest = behind;
            }
        }
        left = beside;
    }
    Ok(rest)
}

// Tells of the intervals that proxies stand for.
#[cycle(walk)]
fn tell_row<D: Disk, T: Tells<D>>(
    walk: &mut Walk<T>,
    records: &mut Records,
    disk: &mut D,
    proxies: &[Proxy],
    depth: u32,
) -> Result<(), NavError>
    requires runs { has_ended records.old ≡ false }
    requires levels { depth ≤ 256 }
    requires rooted { HaveRoots proxies.now }
    ensures stays { OnOk result (LeavesRecords records.old records.new) }
    ensures told { OnOk result (HasTold D.Disk T.Contents T.Told (AreIntervalsOf D.Disk records.old disk.old proxies.now) walk.old.teller disk.old walk.old.left walk.old.visited walk.new.teller disk.new walk.new.left walk.new.visited) }
    ensures stops { OnErr result (HasStopped D.Disk T.Contents T.Told (AreIntervalsOf D.Disk records.old disk.old proxies.now) walk.old.teller disk.old disk.new) }
    ensures refused { IfErr result (λ e. IsRefused D.Disk ⊥ (T.Unwritten disk.old disk.new) (IsNone D.Disk disk.new (AreIntervalsOf D.Disk records.old disk.old proxies.now) depth walk.old.left walk.old.visited) e records.old records.new disk.old disk.new) }
    ensures first { LeavesOutput D.Disk disk.old disk.new → 2 ≤ T.Near walk.old.teller → ReadsAtMost (T.Near walk.old.teller) (D.reads disk.old) (D.reads disk.new) (ReadsFirstOf D.Disk records.old disk.old disk.new proxies.now) }
    ensures near { OnOk result (LeavesOutput D.Disk disk.old disk.new → 2 ≤ T.Near walk.old.teller → (proxies.now ≡ []) ⊎ (3 ≤ T.Near walk.new.teller)) }
{
    for proxy in proxies {
        let rid = Rid {
            page: proxy.page,
            slot: proxy.slot,
        };
        tell_interval(walk, records, disk, rid, proxy.roots, depth)?;
    }
    Ok(())
}
