// A walk over the records of a document, which may pass over some of them and reads no content.
ghost use Rattle.std.specs.Prelude.{◌≡◌, ◌≤◌, false, List, [], ◌∷◌, ◌++◌, OnOk, IfOk, IfErr, OnErr, length, drop};
ghost use Rattle.nx_host.specs.Still.{IsStill};
ghost use Rattle.nx_records.specs.Records.{has_ended, LeavesRecords};
ghost use Rattle.nx_piece.specs.Gapped.{proxies_in};
ghost use Rattle.nx_piece.specs.Viewing.{seen_items, seen_tree};
ghost use Rattle.nx_hold.specs.Changes.{place_of};
ghost use Rattle.nx_nav.specs.Refusals.{IsRefused};
ghost use Rattle.nx_nav.specs.Walk.{IsIntervalAt, IsTreeOf, AreOf, AreIntervalsOf};
ghost use Rattle.nx_names.specs.Look.{Look, RecordBegins, NodeBegins, NodeEnds, RecordEnds, RecordPassed, looks_of};
ghost use Rattle.nx_find.specs.Wanted.{is_wanted};
ghost use Rattle.nx_find.specs.Walked.{looks_entering, ShowsWhole, StopsShowing, IsNoSuch};

use crate::wanted::Wanted;
use nx_host::Disk;
use nx_lists::DEEPEST;
use nx_nav::{NavError, damaged, piece_at};
use nx_piece::{ItemView, ItemsView, Proxy, TreeView};
use nx_records::{Records, Rid};
use nx_tree::{Bytes, Kind, NoMemory};
use std::alloc::Global;

// What a walk shows a document to.
pub trait Looks {
    // So much was shown to one, which became the other.
    ghost Shown: { Self → List Look → Self → Type 0 };

    // The interval with the record at this place begins.
    fn enter(&mut self, rid: Rid) -> Result<(), NoMemory>
        ensures { OnOk result (Shown self.old (RecordBegins (place_of rid) ∷ []) self.new) };

    // A node begins.
    fn begin(&mut self, kind: Kind, name: &[u8]) -> Result<(), NoMemory>
        ensures { OnOk result (Shown self.old (NodeBegins kind name.now ∷ []) self.new) };

    // The node ends that began last.
    fn end(&mut self, kind: Kind) -> Result<(), NoMemory>
        ensures { OnOk result (Shown self.old (NodeEnds kind ∷ []) self.new) };

    // The interval ends that began last.
    fn leave(&mut self)
        ensures { Shown self.old (RecordEnds ∷ []) self.new };

    // An interval of so many members is passed over.
    fn pass(&mut self, roots: u16) -> Result<(), NoMemory>
        ensures { OnOk result (Shown self.old (RecordPassed roots ∷ []) self.new) };

    ghost nothing: { (a : Self) → Shown a [] a };

    // More behind what was shown.
    ghost then: { (a b c : Self) (s t : List Look) → Shown a s b → Shown b t c → Shown a (s ++ t) c };
}

// A walk: what it shows to, and how many nodes may still come.
#[derive(Drop)]
pub struct Walk<T> {
    pub alloc: Global,
    pub looks: T,
    pub left: u32,
}

// Where a walk is: in a record of this page, with so many levels of nodes left.
#[derive(Clone, Copy)]
struct Spot {
    page: u32,
    levels: u32,
}

// Shows the document whose root's record stands at a place.
pub fn show_document<D: Disk, T: Looks>(
    walk: &mut Walk<T>,
    records: &mut Records,
    disk: &mut D,
    wanted: &Wanted,
    root: Rid,
) -> Result<(), NavError>
    ensures still { IsStill D.Disk disk.old disk.new }
    ensures stays { OnOk result ((has_ended records.old ≡ false) × LeavesRecords records.old records.new) }
    ensures shown { OnOk result (ShowsWhole D.Disk T.Shown (IsIntervalAt D.Disk records.old disk.old (place_of root) 1) (looks_entering (is_wanted wanted.now)) records.old walk.old.looks disk.old walk.old.left walk.new.looks disk.new walk.new.left) }
    ensures stops { OnErr result (StopsShowing D.Disk (IsIntervalAt D.Disk records.old disk.old (place_of root) 1) (looks_entering (is_wanted wanted.now)) records.old disk.old disk.new) }
    ensures refused { IfErr result (λ e. IsRefused D.Disk ⊥ ⊥ (IsNoSuch (IsIntervalAt D.Disk records.old disk.old (place_of root) 1) (looks_entering (is_wanted wanted.now)) 257 walk.old.left) e records.old records.new disk.old disk.new) }
{
    if records.is_ended() {
        return Err(NavError::Ended);
    }
    show_interval(walk, records, disk, wanted, root, 1, DEEPEST as u32 + 1)
}

// Shows the interval with the record at a place, which has so many roots.
#[cycle(walk)]
fn show_interval<D: Disk, T: Looks>(
    walk: &mut Walk<T>,
    records: &mut Records,
    disk: &mut D,
    wanted: &Wanted,
    rid: Rid,
    roots: u16,
    levels: u32,
) -> Result<(), NavError>
    requires runs { has_ended records.old ≡ false }
    ensures still { IsStill D.Disk disk.old disk.new }
    ensures stays { OnOk result (LeavesRecords records.old records.new) }
    ensures shown { OnOk result (ShowsWhole D.Disk T.Shown (IsIntervalAt D.Disk records.old disk.old (place_of rid) roots) (looks_entering (is_wanted wanted.now)) records.old walk.old.looks disk.old walk.old.left walk.new.looks disk.new walk.new.left) }
    ensures stops { OnErr result (StopsShowing D.Disk (IsIntervalAt D.Disk records.old disk.old (place_of rid) roots) (looks_entering (is_wanted wanted.now)) records.old disk.old disk.new) }
    ensures refused { IfErr result (λ e. IsRefused D.Disk ⊥ ⊥ (IsNoSuch (IsIntervalAt D.Disk records.old disk.old (place_of rid) roots) (looks_entering (is_wanted wanted.now)) levels walk.old.left) e records.old records.new disk.old disk.new) }
{
    let mut bytes = Bytes::new(walk.alloc);
    let piece = piece_at(walk.alloc, records, disk, rid, roots, &mut bytes)?;
    walk.looks.enter(rid)?;
    let spot = Spot {
        page: rid.page,
        levels,
    };
    let mut proxies = piece.proxies.as_slice();
    let mut items = piece.body.roots();
    while let Some((item, beside)) = items.split_first() {
        // No proxy stands between the roots of a piece.
        if let ItemView::Tree(root) = item {
            proxies = show_tree(walk, records, disk, wanted, root, proxies, spot)?;
        }
        items = beside;
    }
    walk.looks.leave();
    Ok(())
}

// Shows a tree of a piece, and gives the proxies behind those of its gaps.
#[cycle(walk)]
fn show_tree<'a, D: Disk, T: Looks>(
    walk: &mut Walk<T>,
    records: &mut Records,
    disk: &mut D,
    wanted: &Wanted,
    tree: TreeView<'_>,
    proxies: &'a [Proxy],
    spot: Spot,
) -> Result<&'a [Proxy], NavError>
    requires runs { has_ended records.old ≡ false }
    requires fits { proxies_in (seen_items tree.children) ≤ length proxies.now }
    ensures still { IsStill D.Disk disk.old disk.new }
    ensures stays { OnOk result (LeavesRecords records.old records.new) }
    ensures behind { IfOk result (λ behind. behind.now ≡ drop (proxies_in (seen_items tree.entry.children)) proxies.now) }
    ensures shown { OnOk result (ShowsWhole D.Disk T.Shown (IsTreeOf D.Disk records.old disk.old (seen_tree tree.entry) proxies.now) (looks_of (is_wanted wanted.now)) records.old walk.old.looks disk.old walk.old.left walk.new.looks disk.new walk.new.left) }
    ensures stops { OnErr result (StopsShowing D.Disk (IsTreeOf D.Disk records.old disk.old (seen_tree tree.entry) proxies.now) (looks_of (is_wanted wanted.now)) records.old disk.old disk.new) }
    ensures refused { IfErr result (λ e. IsRefused D.Disk ⊥ ⊥ (IsNoSuch (IsTreeOf D.Disk records.old disk.old (seen_tree tree.entry) proxies.now) (looks_of (is_wanted wanted.now)) spot.levels walk.old.left) e records.old records.new disk.old disk.new) }
{
    if spot.levels == 0 || walk.left == 0 {
        return Err(damaged(records, spot.page));
    }
    walk.left -= 1;
    walk.looks.begin(tree.node.kind, tree.node.name)?;
    let below = Spot {
        page: spot.page,
        levels: spot.levels - 1,
    };
    let behind = show_items(walk, records, disk, wanted, tree.children, proxies, below)?;
    walk.looks.end(tree.node.kind)?;
    Ok(behind)
}

// Shows trees and gaps of a piece, and gives the proxies behind those of the gaps.
#[cycle(walk)]
fn show_items<'a, D: Disk, T: Looks>(
    walk: &mut Walk<T>,
    records: &mut Records,
    disk: &mut D,
    wanted: &Wanted,
    items: ItemsView<'_>,
    proxies: &'a [Proxy],
    spot: Spot,
) -> Result<&'a [Proxy], NavError>
    requires runs { has_ended records.old ≡ false }
    requires fits { proxies_in (seen_items items) ≤ length proxies.now }
    ensures still { IsStill D.Disk disk.old disk.new }
    ensures stays { OnOk result (LeavesRecords records.old records.new) }
    ensures behind { IfOk result (λ behind. behind.now ≡ drop (proxies_in (seen_items items.entry)) proxies.now) }
    ensures shown { OnOk result (ShowsWhole D.Disk T.Shown (AreOf D.Disk records.old disk.old (seen_items items.entry) proxies.now) (looks_of (is_wanted wanted.now)) records.old walk.old.looks disk.old walk.old.left walk.new.looks disk.new walk.new.left) }
    ensures stops { OnErr result (StopsShowing D.Disk (AreOf D.Disk records.old disk.old (seen_items items.entry) proxies.now) (looks_of (is_wanted wanted.now)) records.old disk.old disk.new) }
    ensures refused { IfErr result (λ e. IsRefused D.Disk ⊥ ⊥ (IsNoSuch (AreOf D.Disk records.old disk.old (seen_items items.entry) proxies.now) (looks_of (is_wanted wanted.now)) spot.levels walk.old.left) e records.old records.new disk.old disk.new) }
{
    let mut rest = proxies;
    let mut left = items;
    while let Some((item, beside)) = left.split_first() {
        match item {
            ItemView::Tree(tree) => {
                rest = show_tree(walk, records, disk, wanted, tree, rest, spot)?;
            }
            ItemView::Run { count } => {
                let (here, behind) = rest.split_at(count as usize);
                show_row(walk, records, disk, wanted, here, spot.levels)?;
                rest = behind;
            }
        }
        left = beside;
    }
    Ok(rest)
}

// Shows the intervals that proxies stand for, or passes over them.
#[cycle(walk)]
fn show_row<D: Disk, T: Looks>(
    walk: &mut Walk<T>,
    records: &mut Records,
    disk: &mut D,
    wanted: &Wanted,
    proxies: &[Proxy],
    levels: u32,
) -> Result<(), NavError>
    requires runs { has_ended records.old ≡ false }
    ensures still { IsStill D.Disk disk.old disk.new }
    ensures stays { OnOk result (LeavesRecords records.old records.new) }
    ensures shown { OnOk result (ShowsWhole D.Disk T.Shown (AreIntervalsOf D.Disk records.old disk.old proxies.now) (looks_of (is_wanted wanted.now)) records.old walk.old.looks disk.old walk.old.left walk.new.looks disk.new walk.new.left) }
    ensures stops { OnErr result (StopsShowing D.Disk (AreIntervalsOf D.Disk records.old disk.old proxies.now) (looks_of (is_wanted wanted.now)) records.old disk.old disk.new) }
    ensures refused { IfErr result (λ e. IsRefused D.Disk ⊥ ⊥ (IsNoSuch (AreIntervalsOf D.Disk records.old disk.old proxies.now) (looks_of (is_wanted wanted.now)) levels walk.old.left) e records.old records.new disk.old disk.new) }
{
    for proxy in proxies {
        let rid = Rid {
            page: proxy.page,
            slot: proxy.slot,
        };
        show_proxy(walk, records, disk, wanted, rid, proxy.roots, levels)?;
    }
    Ok(())
}

// Shows the interval with the record at a place where it is wanted, and passes over it otherwise.
#[cycle(walk)]
fn show_proxy<D: Disk, T: Looks>(
    walk: &mut Walk<T>,
    records: &mut Records,
    disk: &mut D,
    wanted: &Wanted,
    rid: Rid,
    roots: u16,
    levels: u32,
) -> Result<(), NavError>
    requires runs { has_ended records.old ≡ false }
    ensures still { IsStill D.Disk disk.old disk.new }
    ensures stays { OnOk result (LeavesRecords records.old records.new) }
    ensures shown { OnOk result (ShowsWhole D.Disk T.Shown (IsIntervalAt D.Disk records.old disk.old (place_of rid) roots) (looks_of (is_wanted wanted.now)) records.old walk.old.looks disk.old walk.old.left walk.new.looks disk.new walk.new.left) }
    ensures stops { OnErr result (StopsShowing D.Disk (IsIntervalAt D.Disk records.old disk.old (place_of rid) roots) (looks_of (is_wanted wanted.now)) records.old disk.old disk.new) }
    ensures refused { IfErr result (λ e. IsRefused D.Disk ⊥ ⊥ (IsNoSuch (IsIntervalAt D.Disk records.old disk.old (place_of rid) roots) (looks_of (is_wanted wanted.now)) levels walk.old.left) e records.old records.new disk.old disk.new) }
{
    if wanted.wants(rid) {
        return show_interval(walk, records, disk, wanted, rid, roots, levels);
    }
    walk.looks.pass(roots)?;
    Ok(())
}
