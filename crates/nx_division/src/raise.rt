// The root of the separator, where it joins the part above.
ghost use Rattle.std.specs.Prelude.{◌≡◌, ◌+◌, ◌<◌, ◌^◌, length};
ghost use Rattle.std.specs.List.{sum_by};
ghost use Rattle.nx_sketch.specs.Sketch.{Sketch, IsFlat, spots_of};
ghost use Rattle.nx_division.specs.Drawn.{drawn};
ghost use Rattle.nx_division.specs.Raised.{may_join, raised_plan, raised_root};

use crate::cut::Cut;
use crate::parts::parts;
use crate::separate::is_marked;
use crate::weigh::weigh;
use nx_matrix::Entry;
use nx_sketch::Spot;

// Whether a root with this entry, whose part weighs so much, may join the part above.
fn may_join(room: u32, entry: Entry, load: u32) -> bool
    ensures { result ≡ may_join room entry load }
{
    match entry {
        Entry::Standalone => false,
        Entry::Cluster | Entry::Free => load <= room,
    }
}

// Lets the root that is of the separator stay with the node above these, where it may, and gives its
// position then. So much comes before these.
pub(crate) fn raise(
    room: u32,
    t: u64,
    tolerance: u32,
    before: u64,
    spots: &[Spot],
    cuts: &mut [Cut],
) -> Option<u32>
    requires flat { IsFlat spots.now }
    requires len { length cuts.old ≡ length spots.now }
    requires small { before + sum_by (λ spot. spot.weight) spots.now < 2 ^ 62 }
    ensures root { (s : Sketch) → spots.now ≡ spots_of s → result ≡ raised_root room t tolerance before (drawn s cuts.old) }
    ensures plan { (s : Sketch) → spots.now ≡ spots_of s → drawn s cuts.new ≡ raised_plan room t tolerance before (drawn s cuts.old) }
{
    let Some((spot, below, beside)) = parts(spots) else {
        return None;
    };
    let next = 1 + below.len();
    let within = u64::from(spot.within);
    if !is_marked(t, tolerance, before, within) {
        let end = before + within;
        return raise(room, t, tolerance, end, beside, &mut cuts[next..]);
    }
    let load = spot.weight + weigh(below, &cuts[1..next]).left;
    if !may_join(room, spot.entry, load) {
        return None;
    }
    cuts[0] = Cut::Stays;
    Some(spot.position)
}
