// What the feasible partitionings of a subtree have at least, by looking at them all.
use super::documents::{partitioning, partitioning_codes};
use super::plain::{Placed, part_weight, root_weight};
use nx_parts::{Bound, Interval};
use nx_tree::NoMemory;
use std::alloc::Global;

// A partitioning of a subtree.
#[derive(Clone, Copy, Debug)]
pub(super) struct Measured {
    // The number of its intervals.
    intervals: u32,
    // What its heaviest part weighs.
    heaviest: u64,
    // What the root's part weighs.
    root: u64,
}

impl Measured {
    pub(super) fn is_feasible(&self, k: u32) -> bool {
        self.heaviest <= u64::from(k)
    }

    // Whether what is claimed is true of it.
    pub(super) fn obeys(&self, bound: Bound) -> bool {
        bound.least <= self.intervals
            && (self.intervals > bound.least || u64::from(bound.lean) <= self.root)
            && (self.intervals > bound.least.saturating_add(1)
                || u64::from(bound.nearly) <= self.root)
    }
}

// All partitionings of the tree of these nodes.
pub(super) fn measure(alloc: Global, nodes: &[Placed<'_>]) -> Result<Vec<Measured>, NoMemory> {
    let mut list = Vec::new(alloc);
    for code in 0..partitioning_codes(nodes) {
        if let Some(parts) = partitioning(alloc, nodes, code)? {
            list.push(measurement(nodes, parts.as_slice()))?;
        }
    }
    Ok(list)
}

fn measurement(nodes: &[Placed<'_>], parts: &[Interval]) -> Measured {
    let mut heaviest = 0;
    for index in 0..parts.len() {
        heaviest = part_weight(nodes, parts, index).max(heaviest);
    }
    Measured {
        intervals: u32::try_from(parts.len()).unwrap_or(u32::MAX),
        heaviest,
        root: root_weight(nodes, parts),
    }
}

// The greatest bound that is true of all feasible ones; `None` where there is none.
pub(super) fn minima(list: &[Measured], k: u32) -> Option<Bound> {
    let mut least = None;
    for measured in list {
        if measured.is_feasible(k) {
            let intervals = measured.intervals;
            least = Some(least.unwrap_or(intervals).min(intervals));
        }
    }
    let least = least?;
    Some(Bound {
        least,
        lean: lightest_root(list, k, least)?,
        nearly: lightest_root(list, k, least.saturating_add(1))?,
    })
}

// What the root's part weighs at least where there are at most so many intervals.
fn lightest_root(list: &[Measured], k: u32, most: u32) -> Option<u32> {
    let mut lightest = None;
    for measured in list {
        if measured.is_feasible(k) && measured.intervals <= most {
            let root = u32::try_from(measured.root).ok()?;
            lightest = Some(lightest.unwrap_or(root).min(root));
        }
    }
    lightest
}
