// The separator's plan.
ghost use Rattle.std.specs.Prelude.{◌≡◌, ◌+◌, ◌<◌, ◌^◌, length};
ghost use Rattle.std.specs.List.{sum_by};
ghost use Rattle.nx_sketch.specs.Sketch.{Sketch, IsFlat, spots_of};
ghost use Rattle.nx_division.specs.Drawn.{drawn};
ghost use Rattle.nx_division.specs.Separated.{cut_of, spot_kind, mark_by, row_cut, separated, side_of};

use crate::cut::Cut;
use crate::parts::parts;
use nx_matrix::Entry;
use nx_sketch::Spot;

// The last member of a row: its position, and whether its subtree ends at the point or before it.
#[derive(Clone, Copy)]
pub(crate) struct Side {
    pub(crate) last: u32,
    pub(crate) left: bool,
}

// What becomes of a node.
#[derive(Clone, Copy)]
pub(crate) enum Kind {
    // It is an interval alone.
    Single,
    // It is one of a row.
    Loose,
    // It stays with its parent.
    Inner,
}

impl Kind {
    // That of a node below the helper (`root`), below it or a node of the separator (`wide`).
    fn new(entry: Entry, root: bool, wide: bool, marked: bool) -> Kind
        ensures { result ≡ spot_kind entry root wide marked }
    {
        match entry {
            Entry::Standalone => Kind::Single,
            Entry::Cluster => {
                if root && marked {
                    Kind::Single
                } else {
                    Kind::Inner
                }
            }
            Entry::Free => {
                if marked {
                    if root { Kind::Single } else { Kind::Inner }
                } else if wide {
                    Kind::Loose
                } else {
                    Kind::Inner
                }
            }
        }
    }
}

// How one of a row stands beside the one before it.
fn row_cut(side: Option<Side>, position: u32, left: bool) -> Cut
    ensures { result ≡ row_cut side position left }
{
    match side {
        None => Cut::Begins,
        Some(side) => {
            if u64::from(side.last) + 1 == u64::from(position) && side.left == left {
                Cut::GoesOn
            } else {
                Cut::Begins
            }
        }
    }
}

// How a node of this kind stands.
fn cut_of(kind: Kind, side: Option<Side>, position: u32, left: bool) -> Cut
    ensures { result ≡ cut_of kind side position left }
{
    match kind {
        Kind::Single => Cut::Begins,
        Kind::Loose => row_cut(side, position, left),
        Kind::Inner => Cut::Stays,
    }
}

// The row that is open behind it.
fn side_of(kind: Kind, position: u32, left: bool) -> Option<Side>
    ensures { result ≡ side_of kind position left }
{
    match kind {
        Kind::Loose => Some(Side {
            last: position,
            left,
        }),
        Kind::Single | Kind::Inner => None,
    }
}

// Whether a subtree of that weight, which so much comes before, is of the separator.
pub(crate) fn is_marked(t: u64, tolerance: u32, before: u64, within: u64) -> bool
    requires before { before < 2 ^ 63 }
    requires within { within < 2 ^ 32 }
    ensures { result ≡ mark_by t tolerance before within }
{
    before <= t && t < before + within && u64::from(tolerance) < within
}

// Draws these nodes and all below them, where so much comes before.
pub(crate) fn separate(
    t: u64,
    tolerance: u32,
    before: u64,
    root: bool,
    wide: bool,
    side: Option<Side>,
    spots: &[Spot],
    cuts: &mut [Cut],
)
    requires flat { IsFlat spots.now }
    requires len { length cuts.old ≡ length spots.now }
    requires room { before + sum_by (λ spot. spot.weight) spots.now < 2 ^ 62 }
    ensures { (s : Sketch) → spots.now ≡ spots_of s → drawn s cuts.new ≡ separated t tolerance before root wide side s }
{
    let Some((spot, below, beside)) = parts(spots) else {
        return;
    };
    let next = 1 + below.len();
    let within = u64::from(spot.within);
    let end = before + within;
    let marked = is_marked(t, tolerance, before, within);
    let left = end <= t;
    let kind = Kind::new(spot.entry, root, wide, marked);
    let inner = before + u64::from(spot.weight);
    separate(
        t,
        tolerance,
        inner,
        false,
        marked,
        None,
        below,
        &mut cuts[1..next],
    );
    cuts[0] = cut_of(kind, side, spot.position, left);
    let side = side_of(kind, spot.position, left);
    separate(
        t,
        tolerance,
        end,
        root,
        wide,
        side,
        beside,
        &mut cuts[next..],
    )
}
