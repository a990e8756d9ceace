// Rows of trees, bounded beside each other: the first one by the thread that there is.
ghost use Rattle.std.specs.Prelude.{◌≡◌, ◌<◌, ◌≤◌, [], length, IfErr, IfOk, IfSome};
ghost use Rattle.std.specs.Thread.{IsSync};
ghost use Rattle.nx_tree.specs.Forest.{forest_of, nodes};
ghost use Rattle.nx_weights.specs.Weight.{IsWithinLimits};
ghost use Rattle.nx_partition.specs.Bounding.{Extends, IsBoundRefused, AreBoundsRefused};
ghost use Rattle.nx_par.specs.Adding.{CanBound, CanBoundRow, ExtendsByAll, AreTwoToBound};

use crate::Gate;
use crate::cut::{FEW, Share, TwoRows, number_at, two_rows};
use crate::settle::{UNKNOWN, settle};
use nx_partition::{BoundError, Scratch, bound_tree};
use nx_parts::Bound;
use nx_tree::{Tree, count};
use nx_weights::weight;
use std::alloc::Global;
use std::thread::{Threads, join};

/// The list with the minima of a tree's nodes behind what it has. The share is that of the children of the tree's root,
/// which have numbers where the gate is told of them.
#[cycle(halves)]
pub fn bound_one<R: Threads + Sync, G: Gate>(
    rt: &R,
    alloc: Global,
    tree: &Tree,
    share: Share,
    k: u32,
    gate: &G,
    list: Vec<Bound>,
) -> Result<Vec<Bound>, BoundError>
    requires some { 1 ≤ k }
    requires bound { k ≤ 256 }
    requires workers { 1 ≤ share.workers }
    requires counted { share.nodes ≡ nodes tree.now.below }
    requires numbers { IfSome share.first (λ number. number ≡ 0) }
    requires limits { IsWithinLimits tree.now }
    ensures ok { IfOk result (λ new. Extends k tree.now list.items new.items) }
    ensures refused { IfErr result (λ error. IsBoundRefused k tree.now error) }
{
    if weight(&tree.node) > k {
        return Err(BoundError::TooHeavy);
    }
    let mut list = list;
    let place = list.len();
    list.push(UNKNOWN)?;
    let mut list = bound_rows(rt, alloc, tree.children.as_slice(), share, k, gate, list)?;
    settle(alloc, tree, k, place, &mut list)?;
    Ok(list)
}

/// The share of the children of a tree's root for so many workers, with these numbers.
pub fn share_below(tree: &Tree, first: Option<u32>, workers: u32) -> Share
    requires { IsWithinLimits tree.now }
    ensures counted { result.nodes ≡ nodes tree.now.below }
    ensures first { result.first ≡ first }
    ensures workers { result.workers ≡ workers }
{
    Share {
        nodes: count(tree) as usize - 1,
        first,
        workers,
    }
}

/// The list with the minima of the nodes of all trees behind what it has, tree after tree. The trees are cut into
/// rows with about as many nodes as workers to bound them, down to rows of one worker each. The gate is told of
/// each tree by its number, where they have numbers.
#[cycle(halves)]
pub fn bound_rows<R: Threads + Sync, G: Gate>(
    rt: &R,
    alloc: Global,
    trees: &[Tree],
    share: Share,
    k: u32,
    gate: &G,
    list: Vec<Bound>,
) -> Result<Vec<Bound>, BoundError>
    requires { CanBound k share trees.now }
    ensures ok { IfOk result (λ new. ExtendsByAll k trees.now list.items new.items) }
    ensures refused { IfErr result (λ error. AreBoundsRefused k (forest_of trees.now) error) }
{
    if share.workers == 1 || trees.is_empty() || share.first.is_none() && share.nodes < FEW {
        return bound_row(alloc, trees, share.first, k, gate, list);
    }
    if trees.len() == 1 {
        let below = share_below(&trees[0], None, share.workers);
        begin(gate, share.first);
        let added = bound_one(rt, alloc, &trees[0], below, k, gate, list);
        end(gate, share.first);
        return added;
    }
    let two = two_rows(trees, share);
    if two.at_once {
        bound_at_once(rt, alloc, trees, two, k, gate, list)
    } else {
        bound_in_turn(rt, alloc, trees, two, k, gate, list)
    }
}

// The same for trees that are cut into two rows: a thread bounds the second one while this one goes on with the first. So this thread begins one for
// each last row; only where a last row has several workers does its own thread begin others. Linux puts threads that one thread begins on processors
// of their own, and one that a new thread begins often beside that one.
#[cycle(halves)]
fn bound_at_once<R: Threads + Sync, G: Gate>(
    rt: &R,
    alloc: Global,
    trees: &[Tree],
    two: TwoRows,
    k: u32,
    gate: &G,
    list: Vec<Bound>,
) -> Result<Vec<Bound>, BoundError>
    requires { AreTwoToBound k trees.now two }
    ensures ok { IfOk result (λ new. ExtendsByAll k trees.now list.items new.items) }
    ensures refused { IfErr result (λ error. AreBoundsRefused k (forest_of trees.now) error) }
{
    let (front, back) = trees.split_at(two.at);
    let more = Vec::with_capacity(alloc, two.back.nodes)?;
    let last = move || -> Result<Vec<Bound>, BoundError>
        requires { IsSync R.row × IsSync G.row × CanBound k two.back back.now × (more.items ≡ []) }
        ensures ok { IfOk result (λ new. ExtendsByAll k back.entry.now [] new.items) }
        ensures refused { IfErr result (λ error. AreBoundsRefused k (forest_of back.entry.now) error) }
    { bound_rows(rt, alloc, back, two.back, k, gate, more) };
    let others = move || -> Result<Vec<Bound>, BoundError>
        requires { IsSync R.row × IsSync G.row × CanBound k two.front front.now }
        ensures ok { IfOk result (λ new. ExtendsByAll k front.entry.now list.items new.items) }
        ensures refused { IfErr result (λ error. AreBoundsRefused k (forest_of front.entry.now) error) }
    { bound_rows(rt, alloc, front, two.front, k, gate, list) };
    let (high, low) = join(rt, last, others);
    let mut list = low?;
    list.extend_from_slice(high?.as_slice())?;
    Ok(list)
}

// The same where one row has too few nodes for a thread of its own.
#[cycle(halves)]
fn bound_in_turn<R: Threads + Sync, G: Gate>(
    rt: &R,
    alloc: Global,
    trees: &[Tree],
    two: TwoRows,
    k: u32,
    gate: &G,
    list: Vec<Bound>,
) -> Result<Vec<Bound>, BoundError>
    requires { AreTwoToBound k trees.now two }
    ensures ok { IfOk result (λ new. ExtendsByAll k trees.now list.items new.items) }
    ensures refused { IfErr result (λ error. AreBoundsRefused k (forest_of trees.now) error) }
{
    let (front, back) = trees.split_at(two.at);
    let list = bound_rows(rt, alloc, front, two.front, k, gate, list)?;
    bound_rows(rt, alloc, back, two.back, k, gate, list)
}

/// The list with the minima of the nodes of all trees behind what it has, found by one worker.
pub fn bound_row<G: Gate>(
    alloc: Global,
    trees: &[Tree],
    first: Option<u32>,
    k: u32,
    gate: &G,
    list: Vec<Bound>,
) -> Result<Vec<Bound>, BoundError>
    requires { CanBoundRow k first trees.now }
    ensures ok { IfOk result (λ new. ExtendsByAll k trees.now list.items new.items) }
    ensures refused { IfErr result (λ error. AreBoundsRefused k (forest_of trees.now) error) }
{
    let mut list = list;
    let mut scratch = Scratch::new(alloc);
    for (place, tree) in trees.iter().enumerate() {
        let part = number_at(first, place);
        begin(gate, part);
        let added = bound_tree(tree, k, &mut scratch, &mut list);
        end(gate, part);
        added?;
    }
    Ok(list)
}

// Tells the gate that the work at a tree begins, if the tree has a number.
fn begin<G: Gate>(gate: &G, part: Option<u32>) {
    if let Some(part) = part {
        gate.before(part);
    }
}

// Tells the gate that the work at a tree has ended, if the tree has a number.
fn end<G: Gate>(gate: &G, part: Option<u32>) {
    if let Some(part) = part {
        gate.after(part);
    }
}
