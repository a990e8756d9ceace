// The division of a part that is too heavy.
ghost use Rattle.std.specs.Prelude.{◌≡◌, ◌<◌, ◌^◌, length, IfOk};
ghost use Rattle.nx_sketch.specs.Sketch.{Sketch, AreSpotsAtMost, IsSketch, placed, spots_of};
ghost use Rattle.nx_sketch.specs.Split.{IsDivision};
ghost use Rattle.nx_division.specs.Drawn.{drawn};
ghost use Rattle.nx_division.specs.Divided.{IsDrawnDivision, IsSplittable};

use crate::cut::Cut;
use crate::raise::raise;
use crate::separate::separate;
use crate::settle::{settle, tops_light};
use crate::weigh::weigh;
use crate::wish::wish;
use crate::write::write;
use nx_lists::NoMemory;
use nx_parts::Partitioning;
use nx_sketch::{Spot, point};
use std::alloc::Global;

/// What replaces a part.
#[derive(Drop)]
pub struct Division {
    /// Intervals of its nodes, in document order of their first members.
    pub parts: Partitioning,
    /// The position of the root whose part joins the part above, where there is one: its nodes are those that
    /// none of the intervals owns.
    pub raised: Option<u32>,
}

/// The intervals that replace a part, in document order of their first members: the separator's plan
/// where none of its parts weighs more than `k`, and else a plan of which that holds, whose neighbours
/// don't fit together, and that cuts no cluster edge where no cluster component weighs more than `k`.
/// In the first case a root that is of the separator and not standalone, whose part weighs at most `room`,
/// is in no interval: its part joins the part above, where there is that much room.
/// Paths begin at a helper above the roots. The part is divided at its weight times `target`, divided by
/// 100; `tolerance` is what the subtree of a node of the separator weighs more than.
/// The list has to be that of a sketch which weighs less than 2^24 and each of whose nodes weighs 1 to `k`;
/// its positions have to rise, and no root may be a cluster child.
///
/// Errors: `NoMemory`.
pub fn split(
    alloc: Global,
    spots: &[Spot],
    room: u32,
    k: u32,
    target: u32,
    tolerance: u32,
) -> Result<Division, NoMemory>
    requires k { k < 2 ^ 24 }
    requires sketch { IsSplittable k spots.now }
    ensures { IfOk result (λ division. (s : Sketch) → spots.now ≡ spots_of s → IsSketch s → AreSpotsAtMost k s → IsDivision k (placed s) room target tolerance division.parts division.raised) }
{
    let t = point(spots, target);
    let mut cuts = vec![in alloc; Cut::Stays; spots.len()]?;
    let raised = draw(alloc, room, k, t, tolerance, spots, &mut cuts)?;
    let mut path = Vec::new(alloc);
    let mut parts = Partitioning::new(alloc);
    write(alloc, &mut path, spots, &cuts, &mut parts)?;
    Ok(Division { parts, raised })
}

// Draws the division of a part that is divided at `t`, and gives the root that joins the part above.
fn draw(
    alloc: Global,
    room: u32,
    k: u32,
    t: u64,
    tolerance: u32,
    spots: &[Spot],
    cuts: &mut [Cut],
) -> Result<Option<u32>, NoMemory>
    requires k { k < 2 ^ 24 }
    requires sketch { IsSplittable k spots.now }
    requires len { length cuts.old ≡ length spots.now }
    ensures { IfOk result (λ raised. (s : Sketch) → spots.now ≡ spots_of s → IsSketch s → AreSpotsAtMost k s → IsDrawnDivision k room t tolerance s (drawn s cuts.new) raised) }
{
    separate(t, tolerance, 0, true, true, None, spots, cuts);
    let heaviest = weigh(spots, cuts).heaviest;
    if heaviest <= k {
        return Ok(raise(room, t, tolerance, 0, spots, cuts));
    }
    let keep = tops_light(k, true, spots);
    cuts.fill(Cut::Begins);
    wish(k, keep, spots, 0, None, spots, &mut Vec::new(alloc), cuts)?;
    settle(k, keep, 0, None, spots, cuts);
    Ok(None)
}
