// The intervals of a drawn plan.
ghost use Rattle.std.specs.Prelude.{◌≡◌, ◌++◌, length, OnOk};
ghost use Rattle.nx_sketch.specs.Sketch.{Sketch, IsFlat, spots_of};
ghost use Rattle.nx_division.specs.Drawn.{drawn, end_position, drawn_intervals, run_of};

use crate::cut::Cut;
use crate::parts::parts;
use nx_lists::NoMemory;
use nx_parts::{Interval, Partitioning};
use nx_sketch::Spot;
use nx_tree::Path;
use std::alloc::Global;

// The position of the last member that goes on with an interval, whose last member so far is at `last`.
fn end(spots: &[Spot], cuts: &[Cut], last: u32) -> u32
    requires flat { IsFlat spots.now }
    requires len { length cuts.now ≡ length spots.now }
    ensures { (s : Sketch) → spots.now ≡ spots_of s → result ≡ end_position last (drawn s cuts.now) }
{
    let Some((spot, below, beside)) = parts(spots) else {
        return last;
    };
    let cut = cuts[0];
    match cut {
        Cut::GoesOn => end(beside, &cuts[1 + below.len()..], spot.position),
        Cut::Stays | Cut::Begins => last,
    }
}

// Adds the interval that a node begins, where it begins one. Those behind it may go on with it.
fn push_run(
    alloc: Global,
    path: &[u32],
    position: u32,
    cut: Cut,
    beside: &[Spot],
    cuts: &[Cut],
    found: &mut Partitioning,
) -> Result<(), NoMemory>
    requires flat { IsFlat beside.now }
    requires len { length cuts.now ≡ length beside.now }
    ensures { OnOk result ((s : Sketch) → beside.now ≡ spots_of s → found.new ≡ found.old ++ run_of path.now position cut (drawn s cuts.now)) }
{
    match cut {
        Cut::Begins => found.push(Interval::Run {
            parent: Path::from_slice(alloc, path)?,
            first: position,
            last: end(beside, cuts, position),
        }),
        Cut::Stays | Cut::GoesOn => Ok(()),
    }
}

// Adds the intervals in document order, below the node at the path, which is as before then.
pub(crate) fn write(
    alloc: Global,
    path: &mut Vec<u32>,
    spots: &[Spot],
    cuts: &[Cut],
    found: &mut Partitioning,
) -> Result<(), NoMemory>
    requires flat { IsFlat spots.now }
    requires len { length cuts.now ≡ length spots.now }
    ensures path { OnOk result (path.new.items ≡ path.old.items) }
    ensures found { OnOk result ((s : Sketch) → spots.now ≡ spots_of s → found.new ≡ found.old ++ drawn_intervals path.old.items (drawn s cuts.now)) }
{
    let Some((spot, below, beside)) = parts(spots) else {
        return Ok(());
    };
    let next = 1 + below.len();
    let others = &cuts[next..];
    push_run(alloc, path, spot.position, cuts[0], beside, others, found)?;
    path.push(spot.position)?;
    write(alloc, path, below, &cuts[1..next], found)?;
    let _ = path.pop();
    write(alloc, path, beside, others, found)?;
    Ok(())
}
