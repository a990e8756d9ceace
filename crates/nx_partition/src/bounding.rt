// The minima of all nodes of a tree.
ghost use Rattle.std.specs.Prelude.{◌≤◌, IfOk, OnOk, IfErr};
ghost use Rattle.nx_weights.specs.Weight.{IsAtMost, IsWithinLimits};
ghost use Rattle.nx_parts.specs.Minima.{IsMinima, AreMinima, AreMinimaOf};
ghost use Rattle.nx_partition.specs.Bounding.{Extends, IsBoundRefused, IsPlanRefused};

use crate::scratch::{Scratch, as_bound, as_child};
use crate::{BoundError, PlanError};
use nx_choices::Choices;
use nx_lists::NoMemory;
use nx_parts::{Bound, Bounds};
use nx_tree::Tree;
use nx_weights::{first_heavy, weight};
use std::alloc::Global;

/// The minima of the subtrees of all nodes, in document order, where no part may weigh more than `k`
/// slots of 8 bytes. The tree is a document or one in it, and `k` is from 1 to 256.
///
/// Errors: `TooHeavy` for the first node in document order that weighs more than `k`, exactly where
/// there is one. `Memory` where there is none for what the call has to keep.
pub fn bounds(alloc: Global, tree: &Tree, k: u32) -> Result<Bounds, PlanError>
    requires some { 1 ≤ k }
    requires bound { k ≤ 256 }
    requires limits { IsWithinLimits tree.now }
    ensures ok { IfOk result (λ bounds. AreMinima k tree.now bounds) }
    ensures err { IfErr result (λ error. IsPlanRefused k tree.now error) }
{
    let mut scratch = Scratch::new(alloc);
    let mut list = Vec::new(alloc);
    match bound_tree(tree, k, &mut scratch, &mut list) {
        Ok(()) => Ok(Bounds::from_vec(list)),
        Err(BoundError::TooHeavy) => Err(refusal(alloc, tree, k)),
        Err(BoundError::Memory) => Err(PlanError::Memory),
    }
}

/// What refuses a tree in which a node weighs more than `k`: the first one in document order. The tree is a document
/// or one in it. `Memory` where there is none for its path, or no such node.
pub fn refusal(alloc: Global, tree: &Tree, k: u32) -> PlanError
    requires { IsWithinLimits tree.now }
    ensures { IsPlanRefused k tree.now result }
{
    match first_heavy(alloc, tree, k) {
        Ok(Some(heavy)) => PlanError::TooHeavy {
            path: heavy.path,
            weight: heavy.weight,
        },
        _ => PlanError::Memory,
    }
}

/// The minima of the tree itself, where those of its root's children are given in their order. The tree
/// is a document or one in it, no node of it weighs more than `k`, and `k` is from 1 to 256.
///
/// Errors: `NoMemory`.
pub fn bound_of(alloc: Global, tree: &Tree, k: u32, children: &Bounds) -> Result<Bound, NoMemory>
    requires some { 1 ≤ k }
    requires bound { k ≤ 256 }
    requires limits { IsWithinLimits tree.now }
    requires light { IsAtMost k tree.now }
    requires children { AreMinimaOf k tree.now.below children.now }
    ensures { IfOk result (λ bound. IsMinima k tree.now bound) }
{
    let mut seen = Vec::new(alloc);
    for bound in children.as_slice() {
        seen.push(as_child(*bound))?;
    }
    let node = Choices::new(alloc).least(k, weight(&tree.node), seen.as_slice())?;
    Ok(as_bound(node))
}

/// Adds the minima of the tree's nodes to the list. The tree is a document or one in it, and `k` is from 1 to 256.
/// What was allocated for one tree serves the next.
///
/// Errors: `TooHeavy`, only where a node weighs more than `k`. `Memory` where there is none for what the call has to keep. The
/// list may have grown by some of the minima then.
pub fn bound_tree(
    tree: &Tree,
    k: u32,
    scratch: &mut Scratch,
    list: &mut Vec<Bound>,
) -> Result<(), BoundError>
    requires some { 1 ≤ k }
    requires bound { k ≤ 256 }
    requires limits { IsWithinLimits tree.now }
    ensures ok { OnOk result (Extends k tree.now list.old.items list.new.items) }
    ensures refused { IfErr result (λ error. IsBoundRefused k tree.now error) }
{
    if weight(&tree.node) > k {
        return Err(BoundError::TooHeavy);
    }
    let place = list.len();
    list.push(Bound {
        least: 0,
        lean: 0,
        nearly: 0,
    })?;
    for child in tree.children.as_slice() {
        bound_tree(child, k, scratch, list)?;
    }
    let bound = scratch.least(tree, k, &list[place + 1..])?;
    list[place] = bound;
    Ok(())
}
