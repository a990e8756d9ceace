// What the intervals of a drawn plan weigh.
ghost use Rattle.std.specs.Prelude.{◌≡◌, length};
ghost use Rattle.nx_sketch.specs.Sketch.{Sketch, IsFlat, spots_of};
ghost use Rattle.nx_division.specs.Drawn.{AreWeights, drawn};

use crate::cut::Cut;
use crate::parts::parts;
use nx_sketch::Spot;

// What stays with the node above some nodes, what goes on with the interval before them, and the heaviest
// of their intervals.
#[derive(Clone, Copy)]
pub(crate) struct Weighed {
    pub(crate) left: u32,
    pub(crate) goes: u32,
    pub(crate) heaviest: u32,
}

// These of the nodes as they are drawn.
pub(crate) fn weigh(spots: &[Spot], cuts: &[Cut]) -> Weighed
    requires flat { IsFlat spots.now }
    requires len { length cuts.now ≡ length spots.now }
    ensures { (s : Sketch) → spots.now ≡ spots_of s → AreWeights (drawn s cuts.now) result.left result.goes result.heaviest }
{
    let Some((spot, below, beside)) = parts(spots) else {
        return Weighed {
            left: 0,
            goes: 0,
            heaviest: 0,
        };
    };
    let end = 1 + below.len();
    let inner = weigh(below, &cuts[1..end]);
    let others = weigh(beside, &cuts[end..]);
    let own = spot.weight + inner.left;
    let heaviest = inner.heaviest.max(others.heaviest);
    let cut = cuts[0];
    match cut {
        Cut::Stays => Weighed {
            left: own + others.left,
            goes: 0,
            heaviest,
        },
        Cut::Begins => Weighed {
            left: others.left,
            goes: 0,
            heaviest: (own + others.goes).max(heaviest),
        },
        Cut::GoesOn => Weighed {
            left: others.left,
            goes: own + others.goes,
            heaviest,
        },
    }
}
