// A plan that isn't the separator's, drawn in one walk.
ghost use Rattle.std.specs.Prelude.{◌≡◌, ◌+◌, ◌<◌, ◌≤◌, ◌^◌, length, ◌&&◌, IsTrue};
ghost use Rattle.nx_sketch.specs.Sketch.{Sketch, spots_of};
ghost use Rattle.nx_sketch.specs.Sketch.{IsFlat};
ghost use Rattle.nx_sketch.specs.Plan.{is_cluster};
ghost use Rattle.nx_division.specs.Drawn.{drawn};
ghost use Rattle.nx_division.specs.Settled.{core, AreTopsLight, IsOwnLight, CanBeDrawn, IsRowLight, IsFinalDrawing, IsStood};

use crate::cut::Cut;
use crate::parts::parts;
use nx_matrix::Entry;
use nx_sketch::Spot;

// An interval that may be gone on with: the position of its last member, and what it weighs so far.
#[derive(Clone, Copy)]
pub(crate) struct Row {
    pub(crate) last: u32,
    pub(crate) weight: u32,
}

// How a node stands, what room is left then in the part above, and the row that may be gone on with.
#[derive(Clone, Copy)]
struct Stand {
    cut: Cut,
    room: u32,
    row: Option<Row>,
}

// Whether a node with this entry has to stay with its parent.
pub(crate) fn stays(keep: bool, entry: Entry) -> bool
    ensures { result ≡ (keep && is_cluster entry) }
{
    keep && matches!(entry, Entry::Cluster)
}

// What has to stay with the node above these.
fn core(keep: bool, spots: &[Spot]) -> u32
    requires { IsFlat spots.now }
    ensures { (s : Sketch) → spots.now ≡ spots_of s → result ≡ core keep s }
{
    let Some((spot, below, beside)) = parts(spots) else {
        return 0;
    };
    let others = core(keep, beside);
    if stays(keep, spot.entry) {
        spot.weight + core(keep, below) + others
    } else {
        others
    }
}

// Whether each node that hasn't to stay weighs at most `k` with those that have to stay with it.
pub(crate) fn tops_light(k: u32, keep: bool, spots: &[Spot]) -> bool
    requires { IsFlat spots.now }
    ensures yes { IsTrue result → (s : Sketch) → spots.now ≡ spots_of s → AreTopsLight k keep s }
    ensures no { ¬ IsTrue result → (s : Sketch) → spots.now ≡ spots_of s → ¬ AreTopsLight k keep s }
{
    let Some((spot, below, beside)) = parts(spots) else {
        return true;
    };
    own_light(k, keep, spot, below) && tops_light(k, keep, below) && tops_light(k, keep, beside)
}

// Whether a node has to stay or weighs at most `k` with those below it that have to stay with it.
fn own_light(k: u32, keep: bool, spot: &Spot, below: &[Spot]) -> bool
    requires flat { IsFlat below.now }
    requires small { spot.now.weight < 2 ^ 24 }
    ensures yes { IsTrue result → (b : Sketch) → below.now ≡ spots_of b → IsOwnLight k keep spot.now b }
    ensures no { ¬ IsTrue result → (b : Sketch) → below.now ≡ spots_of b → ¬ IsOwnLight k keep spot.now b }
{
    stays(keep, spot.entry) || spot.weight + core(keep, below) <= k
}

// How a node stands that weighs so much with what stays with it, beside a row, where there is so much
// room in the part above. It stays there only where that is wanted.
fn place(k: u32, room: u32, row: Option<Row>, spot: &Spot, load: u32, wanted: bool) -> Stand
    requires k { k < 2 ^ 31 }
    requires row { IsRowLight k row }
    requires load { load ≤ k }
    ensures { IsStood k room row spot.now.entry spot.now.position load result.cut result.room result.row }
{
    let next = Row {
        last: spot.position,
        weight: load,
    };
    if let Entry::Standalone = spot.entry {
        return Stand {
            cut: Cut::Begins,
            room,
            row: None,
        };
    }
    if wanted && load <= room {
        return Stand {
            cut: Cut::Stays,
            room: room - load,
            row: None,
        };
    }
    if let Some(before) = row {
        if u64::from(before.last) + 1 == u64::from(spot.position) && before.weight + load <= k {
            return Stand {
                cut: Cut::GoesOn,
                room,
                row: Some(Row {
                    last: spot.position,
                    weight: before.weight + load,
                }),
            };
        }
    }
    Stand {
        cut: Cut::Begins,
        room,
        row: Some(next),
    }
}

// Draws the nodes beside a row and all below them, where there is so much room in the part above, and
// gives what is left of it. A node whose cut is `Stays` before is wanted there.
pub(crate) fn settle(
    k: u32,
    keep: bool,
    room: u32,
    row: Option<Row>,
    spots: &[Spot],
    cuts: &mut [Cut],
) -> u32
    requires k { k < 2 ^ 31 }
    requires row { IsRowLight k row }
    requires ready { CanBeDrawn k keep spots.now }
    requires len { length cuts.old ≡ length spots.now }
    ensures { (s : Sketch) → spots.now ≡ spots_of s → AreTopsLight k keep s → IsFinalDrawing k keep row room s (drawn s cuts.new) result }
{
    let Some((spot, below, beside)) = parts(spots) else {
        return room;
    };
    let nodes = below.len();
    if stays(keep, spot.entry) {
        let room = settle(k, keep, room, None, below, &mut cuts[1..1 + nodes]);
        cuts[0] = Cut::Stays;
        return settle(k, keep, room, None, beside, &mut cuts[1 + nodes..]);
    }
    let wanted = cuts[0] == Cut::Stays;
    let own = spot.weight + core(keep, below);
    let left = settle(k, keep, k - own, None, below, &mut cuts[1..1 + nodes]);
    let stand = place(k, room, row, spot, k - left, wanted);
    cuts[0] = stand.cut;
    settle(
        k,
        keep,
        stand.room,
        stand.row,
        beside,
        &mut cuts[1 + nodes..],
    )
}
