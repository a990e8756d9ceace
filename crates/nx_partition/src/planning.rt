// A partitioning that reaches the minima of a tree.
ghost use Rattle.std.specs.Prelude.{◌≡◌, ◌+◌, ◌<◌, ◌≤◌, [], ◌++◌, length, IfErr, IfOk, OnOk};
ghost use Rattle.nx_tree.specs.Forest.{Empty, Plant, nodes};
ghost use Rattle.nx_tree.specs.Document.{IsDocument};
ghost use Rattle.nx_weights.specs.Weight.{IsWithinLimits};
ghost use Rattle.nx_parts.specs.Minima.{AreMinima, AreMinimaIn};
ghost use Rattle.nx_partition.specs.Bounding.{IsPlanRefused};
ghost use Rattle.nx_partition.specs.Planning.{first_bound, interval_begun, IsWithinChildren, IsLeanInOrder, IsPlan, AddsDrawing};

use crate::scratch::Scratch;
use crate::{PlanError, bounds};
use nx_choices::Stand;
use nx_lists::NoMemory;
use nx_parts::{Bound, Bounds, Interval, Partitioning, Plan, part_weights};
use nx_tree::{Path, Tree, count};
use std::alloc::Global;

// A walk from the root down.
#[derive(Drop)]
struct Planner {
    alloc: Global,
    scratch: Scratch,
    // Where the walk stands.
    path: Vec<u32>,
    // The intervals so far.
    parts: Partitioning,
}

/// A lean optimal partitioning of the document, with the weights of its parts and the minima of all
/// nodes. The intervals stand in document order of their first members, the root's first. `k` is from 1
/// to 256.
///
/// Errors: as of [`bounds`].
pub fn plan(alloc: Global, tree: &Tree, k: u32) -> Result<Plan, PlanError>
    requires document { IsDocument tree.now }
    requires some { 1 ≤ k }
    requires bound { k ≤ 256 }
    ensures ok { IfOk result (λ plan. IsPlan k tree.now plan) }
    ensures err { IfErr result (λ error. IsPlanRefused k tree.now error) }
{
    let minima = bounds(alloc, tree, k)?;
    let plan = plan_from(alloc, tree, k, minima)?;
    Ok(plan)
}

/// The intervals of a lean optimal partitioning of the document alone, in document order of their first
/// members, the root's first. `k` is from 1 to 256. The minima of the nodes are let go before it returns.
///
/// Errors: as of [`bounds`].
pub fn partition(alloc: Global, tree: &Tree, k: u32) -> Result<Partitioning, PlanError>
    requires document { IsDocument tree.now }
    requires some { 1 ≤ k }
    requires bound { k ≤ 256 }
    ensures ok { IfOk result (λ parts. IsLeanInOrder k tree.now parts) }
    ensures err { IfErr result (λ error. IsPlanRefused k tree.now error) }
{
    let minima = bounds(alloc, tree, k)?;
    Ok(parts_from(alloc, tree, k, &minima)?)
}

/// The plan where the minima of all nodes are known, so that no node weighs more than `k`.
///
/// Errors: `NoMemory`.
pub fn plan_from(alloc: Global, tree: &Tree, k: u32, minima: Bounds) -> Result<Plan, NoMemory>
    requires document { IsDocument tree.now }
    requires some { 1 ≤ k }
    requires bound { k ≤ 256 }
    requires minima { AreMinima k tree.now minima }
    ensures { IfOk result (λ plan. IsPlan k tree.now plan) }
{
    let parts = parts_from(alloc, tree, k, &minima)?;
    let Ok(weights) = part_weights(alloc, tree, &parts) else {
        return Err(NoMemory);
    };
    Ok(Plan {
        parts,
        weights,
        bounds: minima,
    })
}

/// The intervals alone where the minima of all nodes are known, so that no node weighs more than `k`.
///
/// Errors: `NoMemory`.
pub fn parts_from(
    alloc: Global,
    tree: &Tree,
    k: u32,
    minima: &Bounds,
) -> Result<Partitioning, NoMemory>
    requires document { IsDocument tree.now }
    requires some { 1 ≤ k }
    requires bound { k ≤ 256 }
    requires minima { AreMinima k tree.now minima.now }
    ensures ok { IfOk result (λ parts. IsLeanInOrder k tree.now parts) }
    ensures few { IfOk result (λ parts. length parts ≤ 1 + nodes tree.now.below) }
{
    let mut planner = Planner::new(alloc);
    planner.parts.push(Interval::Root)?;
    planner.plan_tree(tree, k, minima.as_slice(), false)?;
    let Planner { parts, .. } = planner;
    Ok(parts)
}

impl Planner {
    fn new(alloc: Global) -> Planner
        ensures path { result.path.items ≡ [] }
        ensures parts { result.parts ≡ [] }
    {
        Planner {
            alloc,
            scratch: Scratch::new(alloc),
            path: Vec::new(alloc),
            parts: Partitioning::new(alloc),
        }
    }

    // Adds the intervals of a drawing of the tree at the path that reaches a form of its minima, the second
    // or the first, in document order. `bounds` begins with the minima of the tree's nodes.
    fn plan_tree(
        &mut self,
        tree: &Tree,
        k: u32,
        bounds: &[Bound],
        second: bool,
    ) -> Result<(), NoMemory>
        requires some { 1 ≤ k }
        requires bound { k ≤ 256 }
        requires limits { IsWithinLimits tree.now }
        requires minima { AreMinimaIn k (Plant tree.now.node tree.now.below Empty) bounds.now }
        ensures parts { OnOk result (AddsDrawing k tree.now second (first_bound bounds.now) self.old.path.items self.old.parts self.new.parts) }
        ensures path { OnOk result (self.new.path.items ≡ self.old.path.items) }
    {
        if !second && bounds[0].least == 1 {
            // No interval stands below.
            return Ok(());
        }
        let stands = self.scratch.choose(tree, k, bounds, second)?;
        let mut next: usize = 1;
        for (position, child) in tree.children.as_slice().iter().enumerate() {
            let stand = stands[position];
            self.open(stand, position as u32)?;
            self.path.push(position as u32)?;
            self.plan_tree(child, k, &bounds[next..], stand.takes_second())?;
            let _ = self.path.pop();
            next += count(child) as usize;
        }
        Ok(())
    }

    // Adds the interval that begins with the child at the position, if one does.
    fn open(&mut self, stand: Stand, position: u32) -> Result<(), NoMemory>
        requires small { position < 524288 }
        requires inside { IsWithinChildren 524288 stand }
        ensures parts { OnOk result (self.new.parts ≡ self.old.parts ++ interval_begun self.old.path.items position stand) }
        ensures path { self.new.path.items ≡ self.old.path.items }
    {
        if let Stand::Opens { number, .. } = stand {
            let parent = Path::from_slice(self.alloc, self.path.as_slice())?;
            self.parts.push(Interval::Run {
                parent,
                first: position,
                last: position + number - 1,
            })?;
        }
        Ok(())
    }
}
