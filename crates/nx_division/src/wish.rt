// Which nodes are wanted in their parent's part. This decides how full parts get, and nothing else: where
// there is no room for a node, it doesn't stay, whatever is wished.
ghost use Rattle.nx_sketch.specs.Sketch.{IsFlat};

use crate::cut::Cut;
use crate::parts::parts;
use crate::settle::stays;
use nx_lists::NoMemory;
use nx_matrix::Entry;
use nx_sketch::Spot;

// An interval that waits until the part above it is known: the place of its first node among all, its last
// position, how many members it has, and what it weighs.
#[derive(Clone, Copy)]
pub(crate) struct Run {
    first: usize,
    last: u32,
    members: usize,
    weight: u32,
}

// Wishes for these nodes and those below them, the first of which stands at `at` among all, and gives what
// has to stay with the node above. Intervals that may still join the part above are left waiting.
pub(crate) fn wish(
    k: u32,
    keep: bool,
    all: &[Spot],
    at: usize,
    row: Option<Run>,
    spots: &[Spot],
    waiting: &mut Vec<Run>,
    cuts: &mut [Cut],
) -> Result<u32, NoMemory>
    requires { IsFlat spots.now }
{
    let Some((spot, below, beside)) = parts(spots) else {
        wait(row, waiting)?;
        return Ok(0);
    };
    let inside = at.saturating_add(1);
    let next = inside.saturating_add(below.len());
    let begun = waiting.len();
    if stays(keep, spot.entry) {
        wait(row, waiting)?;
        let inner = wish(k, keep, all, inside, None, below, waiting, cuts)?;
        let others = wish(k, keep, all, next, None, beside, waiting, cuts)?;
        return Ok(inner.saturating_add(others).saturating_add(spot.weight));
    }
    let inner = wish(k, keep, all, inside, None, below, waiting, cuts)?;
    let load = join(
        k,
        all,
        inner.saturating_add(spot.weight),
        begun,
        waiting,
        cuts,
    );
    let own = Run {
        first: at,
        last: spot.position,
        members: 1,
        weight: load,
    };
    let row = match spot.entry {
        Entry::Standalone => {
            wait(row, waiting)?;
            None
        }
        Entry::Cluster | Entry::Free => Some(prolong(k, row, own, waiting)?),
    };
    wish(k, keep, all, next, row, beside, waiting, cuts)
}

// The interval with one node more where it fits; else the node's own, and the other one waits.
fn prolong(k: u32, row: Option<Run>, own: Run, waiting: &mut Vec<Run>) -> Result<Run, NoMemory> {
    let Some(run) = row else {
        return Ok(own);
    };
    let weight = run.weight.saturating_add(own.weight);
    if run.last.saturating_add(1) == own.last && weight <= k {
        return Ok(Run {
            first: run.first,
            last: own.last,
            members: run.members.saturating_add(1),
            weight,
        });
    }
    waiting.push(run)?;
    Ok(own)
}

// Lets the interval wait.
fn wait(row: Option<Run>, waiting: &mut Vec<Run>) -> Result<(), NoMemory> {
    if let Some(run) = row {
        waiting.push(run)?;
    }
    Ok(())
}

// Joins the lightest intervals that wait from a place on to a part of that weight, while they fit, and gives
// what it weighs then. None of them waits any longer.
fn join(
    k: u32,
    all: &[Spot],
    weight: u32,
    begun: usize,
    waiting: &mut Vec<Run>,
    cuts: &mut [Cut],
) -> u32 {
    let mut load = weight;
    if begun < waiting.len() {
        let runs = &mut waiting[begun..];
        runs.sort_unstable_by_key(|run| run.weight);
        for run in runs.iter() {
            let more = load.saturating_add(run.weight);
            if more <= k {
                load = more;
                want(all, run, cuts);
            }
        }
    }
    waiting.truncate(begun);
    load
}

// Wishes the members of the interval to stay.
fn want(all: &[Spot], run: &Run, cuts: &mut [Cut]) {
    let mut place = run.first;
    for _ in 0..run.members {
        let (Some(spot), Some(cut)) = (all.get(place), cuts.get_mut(place)) else {
            return;
        };
        *cut = Cut::Stays;
        place = place.saturating_add(1).saturating_add(spot.below as usize);
    }
}
