// A partitioning whose minima several threads find.
ghost use Rattle.std.specs.Prelude.{◌+◌, ◌≤◌, IfErr, IfOk};
ghost use Rattle.nx_tree.specs.Forest.{nodes};
ghost use Rattle.nx_tree.specs.Document.{IsDocument, most_nodes};
ghost use Rattle.nx_partition.specs.Bounding.{IsPlanRefused};
ghost use Rattle.nx_partition.specs.Planning.{IsLeanInOrder};

use crate::{NoGate, bounds_wide};
use nx_partition::{PlanError, parts_from};
use nx_parts::Partitioning;
use nx_tree::{Tree, count};
use std::alloc::Global;
use std::thread::Threads;

// As many workers find the minima at most.
const MOST_WORKERS: u32 = 4;

// There is one for so many nodes. A thread costs what some hundred nodes do.
const NODES_EACH: u32 = 4096;

/// The intervals of a lean optimal partitioning of the document alone, in document order of their first
/// members, the root's first, as `nx_partition::partition` gives them. `k` is from 1 to 256. The minima of the nodes are found by up
/// to four threads, by one where there are fewer than 8,192 nodes, and are let go before it returns.
///
/// Errors: as of `nx_partition::bounds`.
pub fn partition_wide<R: Threads + Sync>(
    rt: &R,
    alloc: Global,
    tree: &Tree,
    k: u32,
) -> Result<Partitioning, PlanError>
    requires document { IsDocument tree.now }
    requires some { 1 ≤ k }
    requires bound { k ≤ 256 }
    ensures ok { IfOk result (λ parts. IsLeanInOrder k tree.now parts) }
    ensures err { IfErr result (λ error. IsPlanRefused k tree.now error) }
{
    let minima = bounds_wide(rt, alloc, tree, k, workers_for(tree), &NoGate)?;
    Ok(parts_from(alloc, tree, k, &minima)?)
}

// How many workers the tree is worth.
fn workers_for(tree: &Tree) -> u32
    requires { 1 + nodes tree.now.below ≤ most_nodes }
    ensures { 1 ≤ result }
{
    (count(tree) / NODES_EACH).clamp(1, MOST_WORKERS)
}
