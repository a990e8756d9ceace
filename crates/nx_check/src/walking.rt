// A document, record by record.
ghost use Rattle.std.specs.Prelude.{◌≡◌, ◌≢◌, ◌↔◌, ◌++◌, ◌∷◌, ◌+◌, ◌-◌, ◌≤◌, ℕ, List, [], false, true, length, drop, IfOk, IfErr, OnOk};
ghost use Rattle.nx_host.specs.Disk.{Image};
ghost use Rattle.nx_host.specs.Still.{IsStill};
ghost use Rattle.nx_wal.specs.Wal.{wal_ended};
ghost use Rattle.nx_holdings.specs.Holdings.{Link};
ghost use Rattle.nx_piece.specs.Gapped.{gapped_width, proxies_in};
ghost use Rattle.nx_piece.specs.Valid.{IsValidBody, AreTrees};
ghost use Rattle.nx_piece.specs.Viewing.{seen_items, seen_tree};
ghost use Rattle.nx_cuts.specs.Cut.{Bare, Kept};
ghost use Rattle.nx_cuts.specs.Rows.{joined_row};
ghost use Rattle.nx_hold.specs.Changes.{place_of, place_named};
ghost use Rattle.nx_rules.specs.Walked.{Reached, Waits, Walked, walked_forest};
ghost use Rattle.nx_rules.specs.Tour.{Visit, Tour};
ghost use Rattle.nx_rules.specs.Broken.{waits};
ghost use Rattle.nx_rules.specs.Places.{Top, Behind, filled_around};
ghost use Rattle.nx_check.specs.On.{StopsWalk};
ghost use Rattle.nx_check.specs.Between.{IsBetweenDocuments};
ghost use Rattle.nx_tree.specs.Document.{most_nodes};
ghost use Rattle.nx_check.specs.Heads.{heads, one_if};
ghost use Rattle.nx_check.specs.Shown.{gapped_depth};
ghost use Rattle.nx_check.specs.Standing.{Stage, HasWalked, StandsThere, waiting_row, IsPieceRow, IsBelow, HasSiblings};

use crate::error::{Stop, broken};
use crate::placing::{may_be_root, may_join};
use crate::reading::Walk;
use crate::recording::{read_piece, read_record};
use crate::siblings::Siblings;
use nx_hold::DocEntry;
use nx_host::Disk;
use nx_lists::{DEEPEST, MOST_NODES};
use nx_piece::{ItemView, PieceView, Proxy, TreeView};
use nx_rules::PageRule;
use nx_tree::Bytes;

// Where a walk is: in a record of this page, where so many levels of nodes may stand, whose pieces weigh no more than k slots.
#[derive(Clone, Copy)]
struct Spot {
    page: u32,
    levels: u32,
    k: u32,
}

// What was reached of a document: how many nodes, as far as they can be counted, and whether an element stands right below its root.
#[derive(Clone, Copy)]
pub struct Tally {
    pub nodes: u32,
    pub element: bool,
}

// The document that the catalog has so, where no piece is to weigh more than k slots.
pub fn walk_document<D: Disk>(
    walk: &mut Walk,
    disk: &mut D,
    k: u32,
    entry: DocEntry,
) -> Result<(), Stop>
    requires runs { wal_ended walk.old.wal ≡ false }
    ensures still { IsStill D.Disk disk.old disk.new }
    ensures same { OnOk result (walk.new.wal ≡ walk.old.wal) }
    ensures ok { OnOk result ((was : Image) (base : ℕ) (tour : Tour) (before : List Visit) (visit : Visit) (after : List Visit) → IsBetweenDocuments D.Disk walk.old disk.old was base tour before (visit ∷ after) → visit.entry ≡ entry → k ≡ tour.head.settings.k
        → (new : Tour) × (done : Visit) × (new ≡ record tour { visits = new.visits }) × (done ≡ record visit { walked = done.walked }) × IsBetweenDocuments D.Disk walk.new disk.new was base new (before ++ done ∷ []) after) }
    ensures refused { IfErr result (λ e. StopsWalk D.Disk disk.old disk.new (λ was. (base : ℕ) × (tour : Tour) × (before : List Visit) × (visit : Visit) × (after : List Visit)
        × IsBetweenDocuments D.Disk walk.old disk.old was base tour before (visit ∷ after) × (visit.entry ≡ entry) × (k ≡ tour.head.settings.k)) e) }
{
    let page = entry.root.page;
    let mut tally = Tally {
        nodes: 0,
        element: false,
    };
    let mut bytes = Bytes::new(walk.alloc);
    let piece = reach_root(walk, disk, k, entry, &mut tally, &mut bytes)?;
    let spot = Spot {
        page,
        levels: DEEPEST as u32 + 1,
        k,
    };
    walk_piece(walk, disk, &piece, spot, &mut tally)?;
    if !has_its_nodes(&tally, entry.nodes) {
        return Err(broken(page, PageRule::Nodes));
    }
    Ok(())
}

// Whether a document of which that was reached has an element, and as many nodes as the catalog says and not too many.
fn has_its_nodes(tally: &Tally, nodes: u32) -> bool
    ensures { (result ≡ true) ↔ ((1 ≤ one_if tally.now.element) × (tally.now.nodes ≡ nodes) × (nodes ≤ most_nodes)) }
{
    tally.element && tally.nodes == nodes && nodes <= MOST_NODES
}

// Comes to the record that the catalog names, whose root is that of a document, and gives its piece.
fn reach_root<'a, D: Disk>(
    walk: &mut Walk,
    disk: &mut D,
    k: u32,
    entry: DocEntry,
    tally: &mut Tally,
    bytes: &'a mut Bytes,
) -> Result<PieceView<'a>, Stop>
    requires runs { wal_ended walk.old.wal ≡ false }
    requires clear { (tally.old.nodes ≡ 0) × (tally.old.element ≡ false) }
    ensures still { IsStill D.Disk disk.old disk.new }
    ensures same { OnOk result (walk.new.wal ≡ walk.old.wal) }
    ensures body { IfOk result (λ piece. IsValidBody piece.body.roots (length piece.proxies)) }
    ensures low { IfOk result (λ piece. gapped_depth piece.body.roots ≤ 257) }
    ensures ok { IfOk result (λ piece. (was : Image) (base : ℕ) (tour : Tour) (before : List Visit) (visit : Visit) (after : List Visit) → IsBetweenDocuments D.Disk walk.old disk.old was base tour before (visit ∷ after) → visit.entry ≡ entry → k ≡ tour.head.settings.k
        → (chains : List (List Link)) × (new : Walked) × IsPieceRow piece Top new
        × HasWalked D.Disk walk.new tally.new disk.new was base (record { tour = tour; before = before; visit = visit; after = after }) (Kept (Reached (place_of entry.root) chains) new Bare)) }
    ensures refused { IfErr result (λ e. StopsWalk D.Disk disk.old disk.new (λ was. (base : ℕ) × (tour : Tour) × (before : List Visit) × (visit : Visit) × (after : List Visit)
        × IsBetweenDocuments D.Disk walk.old disk.old was base tour before (visit ∷ after) × (visit.entry ≡ entry) × (k ≡ tour.head.settings.k)) e) }
{
    let page = entry.root.page;
    let slot = entry.root.slot;
    *bytes = read_record(walk, disk, 0, page, slot)?;
    let piece = read_piece(walk, disk, page, slot, bytes.as_slice())?;
    if !may_be_root(piece.body.roots(), &mut tally.element) {
        return Err(broken(page, PageRule::Document));
    }
    if piece.body.size() > k {
        return Err(broken(page, PageRule::Weight));
    }
    tally.nodes = piece.body.nodes();
    Ok(piece)
}

// Comes to the record that a proxy at the spot names, whose roots stand among these siblings, and gives its piece.
fn reach_interval<'a, D: Disk>(
    walk: &mut Walk,
    disk: &mut D,
    proxy: Proxy,
    siblings: &mut Siblings<'_>,
    spot: Spot,
    tally: &mut Tally,
    bytes: &'a mut Bytes,
) -> Result<PieceView<'a>, Stop>
    requires runs { wal_ended walk.old.wal ≡ false }
    ensures still { IsStill D.Disk disk.old disk.new }
    ensures same { OnOk result (walk.new.wal ≡ walk.old.wal) }
    ensures body { IfOk result (λ piece. IsValidBody piece.body.roots (length piece.proxies)) }
    ensures low { IfOk result (λ piece. gapped_depth piece.body.roots ≤ spot.levels) }
    ensures kind { OnOk result (siblings.new.kind ≡ siblings.old.kind) }
    ensures ok { IfOk result (λ piece. (was : Image) → (s : StandsThere D.Disk walk.old tally.old disk.old spot.page spot.levels spot.k (λ beside. Kept (Waits proxy) Bare beside) (HasSiblings siblings.old) was)
        → (chains : List (List Link)) × (new : Walked) × IsPieceRow piece s.around new × HasSiblings siblings.new (Behind (Kept (Reached (place_named proxy) chains) new Bare) s.around) s.row
        × HasWalked D.Disk walk.new tally.new disk.new was s.base s.stage (filled_around s.around (Kept (Reached (place_named proxy) chains) new s.row))) }
    ensures refused { IfErr result (λ e. StopsWalk D.Disk disk.old disk.new (StandsThere D.Disk walk.old tally.old disk.old spot.page spot.levels spot.k (λ beside. Kept (Waits proxy) Bare beside) (HasSiblings siblings.old)) e) }
{
    *bytes = read_record(walk, disk, spot.page, proxy.page, proxy.slot)?;
    let piece = read_piece(walk, disk, proxy.page, proxy.slot, bytes.as_slice())?;
    if piece.body.root_count() != proxy.roots {
        return Err(broken(proxy.page, PageRule::Roots));
    }
    if !may_join(
        siblings,
        piece.body.roots(),
        spot.levels,
        &mut tally.element,
    )? {
        return Err(broken(proxy.page, PageRule::Document));
    }
    if piece.body.size() > spot.k {
        return Err(broken(proxy.page, PageRule::Weight));
    }
    tally.nodes = tally.nodes.saturating_add(piece.body.nodes());
    Ok(piece)
}

// The record that a proxy at the spot names, and those below it; its roots stand among these siblings.
#[cycle(walk)]
fn walk_interval<D: Disk>(
    walk: &mut Walk,
    disk: &mut D,
    proxy: Proxy,
    siblings: &mut Siblings<'_>,
    spot: Spot,
    tally: &mut Tally,
) -> Result<(), Stop>
    requires runs { wal_ended walk.old.wal ≡ false }
    requires levels { spot.levels ≤ 257 }
    ensures still { IsStill D.Disk disk.old disk.new }
    ensures same { OnOk result (walk.new.wal ≡ walk.old.wal) }
    ensures kind { OnOk result (siblings.new.kind ≡ siblings.old.kind) }
    ensures ok { OnOk result ((was : Image) → (s : StandsThere D.Disk walk.old tally.old disk.old spot.page spot.levels spot.k (λ beside. Kept (Waits proxy) Bare beside) (HasSiblings siblings.old) was)
        → (now : Walked) × (waits now ≡ false) × HasSiblings siblings.new (Behind now s.around) s.row × HasWalked D.Disk walk.new tally.new disk.new was s.base s.stage (filled_around s.around (joined_row now s.row))) }
    ensures refused { IfErr result (λ e. StopsWalk D.Disk disk.old disk.new (StandsThere D.Disk walk.old tally.old disk.old spot.page spot.levels spot.k (λ beside. Kept (Waits proxy) Bare beside) (HasSiblings siblings.old)) e) }
{
    let mut bytes = Bytes::new(walk.alloc);
    let piece = reach_interval(walk, disk, proxy, siblings, spot, tally, &mut bytes)?;
    let inside = Spot {
        page: proxy.page,
        levels: spot.levels,
        k: spot.k,
    };
    walk_piece(walk, disk, &piece, inside, tally)?;
    Ok(())
}

// The records below those of a piece that was reached, which its proxies name.
#[cycle(walk)]
fn walk_piece<D: Disk>(
    walk: &mut Walk,
    disk: &mut D,
    piece: &PieceView<'_>,
    spot: Spot,
    tally: &mut Tally,
) -> Result<(), Stop>
    requires runs { wal_ended walk.old.wal ≡ false }
    requires levels { spot.levels ≤ 257 }
    requires body { IsValidBody piece.now.body.roots (length piece.now.proxies) }
    requires low { gapped_depth piece.now.body.roots ≤ spot.levels }
    ensures still { IsStill D.Disk disk.old disk.new }
    ensures same { OnOk result (walk.new.wal ≡ walk.old.wal) }
    ensures ok { OnOk result ((was : Image) → (s : StandsThere D.Disk walk.old tally.old disk.old spot.page spot.levels spot.k (λ row. row) (IsPieceRow piece.now) was)
        → (now : Walked) × (waits now ≡ false) × (heads (walked_forest now) ≡ heads (walked_forest s.row)) × HasWalked D.Disk walk.new tally.new disk.new was s.base s.stage (filled_around s.around now)) }
    ensures refused { IfErr result (λ e. StopsWalk D.Disk disk.old disk.new (StandsThere D.Disk walk.old tally.old disk.old spot.page spot.levels spot.k (λ row. row) (IsPieceRow piece.now)) e) }
{
    let mut proxies = piece.proxies.as_slice();
    let mut left = piece.body.roots();
    while let Some((item, beside)) = left.split_first() {
        // No proxy stands between the roots of a piece.
        if let ItemView::Tree(root) = item {
            proxies = walk_below(walk, disk, root, proxies, below(spot), tally)?;
        }
        left = beside;
    }
    Ok(())
}

// The spot below a node there.
fn below(spot: Spot) -> Spot
    requires { 1 ≤ spot.levels }
    ensures { result ≡ record spot { levels = spot.levels - 1 } }
{
    Spot {
        page: spot.page,
        levels: spot.levels - 1,
        k: spot.k,
    }
}

// The records below a tree of a record, what is below whose root stands at the spot. It gives the proxies behind those of its gaps.
#[cycle(walk)]
fn walk_below<'a, D: Disk>(
    walk: &mut Walk,
    disk: &mut D,
    tree: TreeView<'_>,
    proxies: &'a [Proxy],
    spot: Spot,
    tally: &mut Tally,
) -> Result<&'a [Proxy], Stop>
    requires runs { wal_ended walk.old.wal ≡ false }
    requires levels { spot.levels ≤ 257 }
    requires fits { proxies_in (seen_items tree.children) ≤ length proxies.now }
    requires low { gapped_depth (seen_items tree.children) ≤ spot.levels }
    ensures still { IsStill D.Disk disk.old disk.new }
    ensures same { OnOk result (walk.new.wal ≡ walk.old.wal) }
    ensures behind { IfOk result (λ behind. behind.now ≡ drop (proxies_in (seen_items tree.entry.children)) proxies.now) }
    ensures ok { OnOk result ((was : Image) → (s : StandsThere D.Disk walk.old tally.old disk.old spot.page spot.levels spot.k (λ row. row) (IsBelow (seen_tree tree.entry) proxies.now) was)
        → (now : Walked) × (waits now ≡ false) × HasWalked D.Disk walk.new tally.new disk.new was s.base s.stage (filled_around s.around now)) }
    ensures refused { IfErr result (λ e. StopsWalk D.Disk disk.old disk.new (StandsThere D.Disk walk.old tally.old disk.old spot.page spot.levels spot.k (λ row. row) (IsBelow (seen_tree tree.entry) proxies.now)) e) }
{
    let mut siblings = Siblings::new(walk.alloc, tree);
    let mut rest = proxies;
    let mut left = tree.children;
    while let Some((item, beside)) = left.split_first() {
        match item {
            ItemView::Tree(child) => {
                rest = walk_below(walk, disk, child, rest, below(spot), tally)?;
                siblings.pass(child.node.kind);
            }
            ItemView::Run { count } => {
                let (here, behind) = rest.split_at(count as usize);
                siblings.come(beside);
                walk_row(walk, disk, here, &mut siblings, spot, tally)?;
                rest = behind;
            }
        }
        left = beside;
    }
    Ok(rest)
}

// The records that these proxies at the spot name, and those below them; their roots stand among these siblings.
#[cycle(walk)]
fn walk_row<D: Disk>(
    walk: &mut Walk,
    disk: &mut D,
    proxies: &[Proxy],
    siblings: &mut Siblings<'_>,
    spot: Spot,
    tally: &mut Tally,
) -> Result<(), Stop>
    requires runs { wal_ended walk.old.wal ≡ false }
    requires levels { spot.levels ≤ 257 }
    ensures still { IsStill D.Disk disk.old disk.new }
    ensures same { OnOk result (walk.new.wal ≡ walk.old.wal) }
    ensures kind { OnOk result (siblings.new.kind ≡ siblings.old.kind) }
    ensures ok { OnOk result ((was : Image) → (s : StandsThere D.Disk walk.old tally.old disk.old spot.page spot.levels spot.k (waiting_row proxies.now) (HasSiblings siblings.old) was)
        → (now : Walked) × (waits now ≡ false) × HasSiblings siblings.new (Behind now s.around) s.row × HasWalked D.Disk walk.new tally.new disk.new was s.base s.stage (filled_around s.around (joined_row now s.row))) }
    ensures refused { IfErr result (λ e. StopsWalk D.Disk disk.old disk.new (StandsThere D.Disk walk.old tally.old disk.old spot.page spot.levels spot.k (waiting_row proxies.now) (HasSiblings siblings.old)) e) }
{
    for proxy in proxies {
        walk_interval(walk, disk, *proxy, siblings, spot, tally)?;
    }
    Ok(())
}
