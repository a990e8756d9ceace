// The minima of one tree, its subtrees bounded beside each other.
ghost use Rattle.std.specs.Prelude.{◌≡◌, ◌≤◌, IfErr, IfOk, IfSome};
ghost use Rattle.nx_weights.specs.Weight.{IsWithinLimits};
ghost use Rattle.nx_parts.specs.Minima.{AreMinima};
ghost use Rattle.nx_partition.specs.Bounding.{Extends, IsBoundRefused, IsPlanRefused};

use crate::Gate;
use crate::rows::{bound_one, share_below};
use crate::settle::{UNKNOWN, settle};
use nx_partition::{BoundError, PlanError, refusal};
use nx_parts::{Bound, Bounds};
use nx_tree::{Kind, Tree, count};
use nx_weights::weight;
use std::alloc::Global;
use std::thread::Threads;

/// The minima of the subtrees of all nodes, in document order, found by threads beside each other: the
/// same for every number of workers. The tree is a document or one in it, `k` is from 1 to 256, and there is at
/// least one worker.
///
/// The children of a node are cut into as many rows as there are workers, with about as many nodes each, and the rows are
/// bounded by threads, the first one by the thread that there is. Where a row has one tree and several workers, its children are cut in turn.
/// Rows with few nodes get no thread of their own. There is up to a thread for each worker, and calls stand in each other as often.
///
/// Where the root element of a document has at least two children, the gate is told of each of them, by its position, unless a
/// node is too heavy or there is no memory.
///
/// Errors: as of `nx_partition::bounds`.
pub fn bounds_wide<R: Threads + Sync, G: Gate>(
    rt: &R,
    alloc: Global,
    tree: &Tree,
    k: u32,
    workers: u32,
    gate: &G,
) -> Result<Bounds, PlanError>
    requires some { 1 ≤ k }
    requires bound { k ≤ 256 }
    requires workers { 1 ≤ workers }
    requires limits { IsWithinLimits tree.now }
    ensures ok { IfOk result (λ bounds. AreMinima k tree.now bounds) }
    ensures err { IfErr result (λ error. IsPlanRefused k tree.now error) }
{
    match found_wide(rt, alloc, tree, k, workers, gate) {
        Ok(bounds) => Ok(bounds),
        Err(BoundError::TooHeavy) => Err(refusal(alloc, tree, k)),
        Err(BoundError::Memory) => Err(PlanError::Memory),
    }
}

// The same, which doesn't tell which node is too heavy.
fn found_wide<R: Threads + Sync, G: Gate>(
    rt: &R,
    alloc: Global,
    tree: &Tree,
    k: u32,
    workers: u32,
    gate: &G,
) -> Result<Bounds, BoundError>
    requires some { 1 ≤ k }
    requires bound { k ≤ 256 }
    requires workers { 1 ≤ workers }
    requires limits { IsWithinLimits tree.now }
    ensures ok { IfOk result (λ bounds. AreMinima k tree.now bounds) }
    ensures refused { IfErr result (λ error. IsBoundRefused k tree.now error) }
{
    let list = Vec::with_capacity(alloc, count(tree) as usize)?;
    let list = if matches!(tree.node.kind, Kind::Doc) {
        bound_document(rt, alloc, tree, k, workers, gate, list)?
    } else {
        let share = share_below(tree, None, workers);
        bound_one(rt, alloc, tree, share, k, gate, list)?
    };
    Ok(Bounds::from_vec(list))
}

// The list with the minima of the nodes of a document behind what it has.
fn bound_document<R: Threads + Sync, G: Gate>(
    rt: &R,
    alloc: Global,
    tree: &Tree,
    k: u32,
    workers: u32,
    gate: &G,
    list: Vec<Bound>,
) -> Result<Vec<Bound>, BoundError>
    requires some { 1 ≤ k }
    requires bound { k ≤ 256 }
    requires workers { 1 ≤ workers }
    requires limits { IsWithinLimits tree.now }
    ensures ok { IfOk result (λ new. Extends k tree.now list.items new.items) }
    ensures refused { IfErr result (λ error. IsBoundRefused k tree.now error) }
{
    if weight(&tree.node) > k {
        return Err(BoundError::TooHeavy);
    }
    let mut list = list;
    let place = list.len();
    list.push(UNKNOWN)?;
    for child in tree.children.as_slice() {
        let share = share_below(child, told(child), workers);
        list = bound_one(rt, alloc, child, share, k, gate, list)?;
    }
    settle(alloc, tree, k, place, &mut list)?;
    Ok(list)
}

// From which number on the gate is told of the tree's children, if it is.
fn told(tree: &Tree) -> Option<u32>
    ensures { IfSome result (λ number. number ≡ 0) }
{
    if tree.children.len() < 2 {
        return None;
    }
    Some(0)
}
