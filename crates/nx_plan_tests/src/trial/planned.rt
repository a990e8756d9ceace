// Plans of all documents of a few nodes, beside all partitionings of them.
ghost use Rattle.std.specs.Prelude.{◌≤◌};
ghost use Rattle.nx_tree.specs.Document.{IsDocument};

use super::documents::{Shape, document};
use super::minima::minima;
use super::random::Random;
use super::{measure_tree, shapes, subtrees};
use nx_bounds::certified;
use nx_partition::{PlanError, plan};
use nx_parts::{Bound, Plan};
use nx_tree::{NoMemory, Tree};
use std::alloc::Global;
use std::process::Abort;
use std::test::Fail;

// How many documents were planned at a number of slots, and how many have a heavy node.
#[derive(Clone, Copy, Debug, PartialEq, Eq)]
struct Planned {
    plans: u32,
    heavy: u32,
}

#[test]
fn plans_are_best(rt: HostRuntime) -> Result<(), Fail> {
    let mut random = Random::new(3);
    let mut planned = Planned { plans: 0, heavy: 0 };
    for shape in shapes(rt.alloc())?.as_slice() {
        let weights = random.below(162);
        try_shape(&rt, rt.alloc(), *shape, weights, &mut planned)?;
    }
    assert_eq!(rt;
        planned,
        Planned {
            plans: 337,
            heavy: 125,
        }
    );
    Ok(())
}

// Plans of the document of that shape, if there is one.
fn try_shape(
    rt: &impl Abort,
    alloc: Global,
    shape: Shape,
    weights: u32,
    planned: &mut Planned,
) -> Result<(), Fail> {
    if let Some(tree) = document(alloc, shape, weights)? {
        for k in 1..8 {
            try_plan(rt, alloc, &tree, k, planned)?;
        }
    }
    Ok(())
}

fn try_plan(
    rt: &impl Abort,
    alloc: Global,
    tree: &Tree,
    k: u32,
    planned: &mut Planned,
) -> Result<(), Fail>
    requires document { IsDocument tree.now }
    requires some { 1 ≤ k }
    requires most { k ≤ 256 }
{
    match made(alloc, tree, k)? {
        Some(plan) => {
            planned.plans = planned.plans.saturating_add(1);
            check_plan(rt, alloc, tree, k, &plan)
        }
        None => {
            planned.heavy = planned.heavy.saturating_add(1);
            assert_eq!(rt; least(alloc, tree, k)?, None);
            Ok(())
        }
    }
}

// The plan of the document, unless a node is too heavy.
fn made(alloc: Global, tree: &Tree, k: u32) -> Result<Option<Plan>, NoMemory>
    requires document { IsDocument tree.now }
    requires some { 1 ≤ k }
    requires most { k ≤ 256 }
{
    match plan(alloc, tree, k) {
        Ok(plan) => Ok(Some(plan)),
        Err(PlanError::TooHeavy { .. }) => Ok(None),
        Err(PlanError::Memory) => Err(NoMemory),
    }
}

// The least numbers of all partitionings of the tree.
fn least(alloc: Global, tree: &Tree, k: u32) -> Result<Option<Bound>, NoMemory> {
    let list = measure_tree(alloc, tree)?;
    Ok(minima(list.as_slice(), k))
}

// The bounds are the least numbers of all partitionings of the subtrees, the root's are those of the
// plan, and a certificate takes it.
fn check_plan(rt: &impl Abort, alloc: Global, tree: &Tree, k: u32, plan: &Plan) -> Result<(), Fail>
    requires document { IsDocument tree.now }
    requires some { 1 ≤ k }
    requires most { k ≤ 256 }
{
    check_bounds(rt, alloc, tree, k, plan.bounds.as_slice())?;
    check_root(rt, plan)?;
    assert!(rt; plan.bounds.len() < 100 && plan.parts.len() < 100 && plan.weights.len() < 100);
    assert_eq!(rt; certified(alloc, tree, k, plan), Ok(()));
    Ok(())
}

fn check_bounds(
    rt: &impl Abort,
    alloc: Global,
    tree: &Tree,
    k: u32,
    bounds: &[Bound],
) -> Result<(), NoMemory> {
    let trees = subtrees(alloc, tree)?;
    assert_eq!(rt; bounds.len(), trees.len());
    for (subtree, bound) in trees.as_slice().iter().zip(bounds) {
        assert_eq!(rt; least(alloc, subtree, k)?, Some(*bound));
    }
    Ok(())
}

fn check_root(rt: &impl Abort, plan: &Plan) -> Result<(), Fail> {
    let Some(root) = plan.bounds.as_slice().first().copied() else {
        return Err(Fail::from("no bounds"));
    };
    assert_eq!(rt; plan.parts.len(), root.least as usize);
    assert_eq!(rt;
        plan.weights.as_slice().first().copied(),
        Some(u64::from(root.lean))
    );
    Ok(())
}
