// The check that the bounds of all nodes support each other.
ghost use Rattle.std.specs.Prelude.{◌≡◌, ◌+◌, ◌^◌, ◌<◌, ◌≤◌, [], length, drop, slice_get, IfOk, OnOk, IfErr};
ghost use Rattle.std.specs.List.{AllByRecursion};
ghost use Rattle.nx_tree.specs.Forest.{nodes};
ghost use Rattle.nx_tree.specs.Document.{IsDocument, most_nodes};
ghost use Rattle.nx_weights.specs.Weight.{IsShort, IsWithinLimits};
ghost use Rattle.nx_parts.specs.Minima.{AreMinima};
ghost use Rattle.nx_choices.specs.Claim.{claim, IsSupported, FindsExceeded};
ghost use Rattle.nx_minima.specs.Seen.{as_child};
ghost use Rattle.nx_bounds.specs.Claim.{claimed_child, claimed_children, claimed, AreSupported};
ghost use Rattle.nx_bounds.specs.Refusal.{IsNotSupported};
ghost use Rattle.nx_bounds.specs.Walk.{claim_at, NodeFails, WalkFails};

use crate::BoundsError;
use nx_choices::{Child, Choices, Field};
use nx_parts::{Bound, Bounds};
use nx_tree::{NoMemory, Node, Tree, count};
use nx_weights::weight;
use std::alloc::Global;

// What the check of one node needs, and the next one again.
#[derive(Drop)]
struct Scratch {
    choices: Choices,
    // What is claimed of the children of the node.
    children: Vec<Child>,
}

/// Whether there is one bound for each node of the document, and each is supported: no number of a
/// bound is more than what any choice over the claims of the node's children gives, where no part may
/// weigh more than `k` slots. `k` has to be from 1 to 256, and there have to be fewer than 2^32 bounds.
///
/// Errors: `Length` where there isn't one bound for each node. Else `Unsupported` for the first node in
/// document order whose bound isn't supported, and the first of its numbers. `Memory` where there is
/// none for what the check has to keep. Bounds that are the minima of their nodes are refused by
/// nothing else.
pub fn supported(alloc: Global, tree: &Tree, k: u32, bounds: &Bounds) -> Result<(), BoundsError>
    requires document { IsDocument tree.now }
    requires some { 1 ≤ k }
    requires bound { k ≤ 256 }
    requires few { length bounds.now < 2 ^ 32 }
    ensures ok { OnOk result (AreSupported k tree.now bounds.now) }
    ensures err { IfErr result (λ error. IsNotSupported k tree.now bounds.now error) }
    ensures minima { AreMinima k tree.now bounds.now → IfErr result (λ error. error ≡ BoundsError.Memory) }
{
    let bounds = bounds.as_slice();
    let nodes = count(tree);
    if bounds.len() != nodes as usize {
        return Err(BoundsError::Length {
            bounds: bounds.len() as u32,
            nodes,
        });
    }
    let mut scratch = Scratch {
        choices: Choices::new(alloc),
        children: Vec::new(alloc),
    };
    check_tree(tree, k, bounds, 0, &mut scratch)
}

// Checks the bounds of the tree's nodes in document order, where that of its root stands at the place.
fn check_tree(
    tree: &Tree,
    k: u32,
    bounds: &[Bound],
    place: u32,
    scratch: &mut Scratch,
) -> Result<(), BoundsError>
    requires some { 1 ≤ k }
    requires bound { k ≤ 256 }
    requires limits { IsWithinLimits tree.now }
    requires few { length bounds.now ≤ most_nodes }
    requires enough { place + 1 + nodes tree.now.below ≤ length bounds.now }
    ensures ok { OnOk result (AllByRecursion (IsSupported k) (claimed k tree.now (drop place bounds.now))) }
    ensures err { IfErr result (λ error. WalkFails k (claimed k tree.now (drop place bounds.now)) place error) }
{
    check_node(tree, k, bounds, place, scratch)?;
    let mut next = place + 1;
    for child in tree.children.as_slice() {
        check_tree(child, k, bounds, next, scratch)?;
        next += count(child);
    }
    Ok(())
}

// Checks the bound of the tree's root, which stands at the place.
fn check_node(
    tree: &Tree,
    k: u32,
    bounds: &[Bound],
    place: u32,
    scratch: &mut Scratch,
) -> Result<(), BoundsError>
    requires some { 1 ≤ k }
    requires bound { k ≤ 256 }
    requires limits { IsWithinLimits tree.now }
    requires few { length bounds.now ≤ most_nodes }
    requires enough { place + 1 + nodes tree.now.below ≤ length bounds.now }
    ensures ok { OnOk result ((bound : Bound) → slice_get bounds.now place ≡ Some bound → IsSupported k (claim_at k tree.now (drop (place + 1) bounds.now) bound)) }
    ensures err { IfErr result (λ error. (bound : Bound) → slice_get bounds.now place ≡ Some bound → NodeFails k (claim_at k tree.now (drop (place + 1) bounds.now) bound) place error) }
{
    let bound = bounds[place as usize];
    match exceeded(tree, k, bounds, place, scratch)? {
        Some((field, found)) => Err(BoundsError::Unsupported {
            node: place,
            field,
            claimed: number(bound, field),
            found,
        }),
        None => Ok(()),
    }
}

// The first number of the bound of the tree's root that isn't supported, and what a choice gives.
fn exceeded(
    tree: &Tree,
    k: u32,
    bounds: &[Bound],
    place: u32,
    scratch: &mut Scratch,
) -> Result<Option<(Field, u32)>, NoMemory>
    requires some { 1 ≤ k }
    requires bound { k ≤ 256 }
    requires limits { IsWithinLimits tree.now }
    requires few { length bounds.now ≤ most_nodes }
    requires enough { place + 1 + nodes tree.now.below ≤ length bounds.now }
    ensures { IfOk result (λ found. (bound : Bound) → slice_get bounds.now place ≡ Some bound → FindsExceeded k (claim_at k tree.now (drop (place + 1) bounds.now) bound) found) }
{
    let bound = bounds[place as usize];
    let own = weight(&tree.node);
    let Scratch { choices, children } = scratch;
    claim_children(tree, k, bounds, place, children)?;
    choices.exceeded(k, own, children.as_slice(), as_child(bound))
}

// Makes the list one of what is claimed of the children of the tree's root, whose bound stands at the
// place.
fn claim_children(
    tree: &Tree,
    k: u32,
    bounds: &[Bound],
    place: u32,
    list: &mut Vec<Child>,
) -> Result<(), NoMemory>
    requires limits { IsWithinLimits tree.now }
    requires few { length bounds.now ≤ most_nodes }
    requires enough { place + 1 + nodes tree.now.below ≤ length bounds.now }
    ensures { OnOk result (list.new.items ≡ claimed_children k tree.now.below (drop (place + 1) bounds.now)) }
{
    list.clear();
    let mut next = place + 1;
    for child in tree.children.as_slice() {
        list.push(claimed_child(&child.node, k, bounds[next as usize]))?;
        next += count(child);
    }
    Ok(())
}

// A child as the choices at its parent see it.
fn claimed_child(node: &Node, k: u32, bound: Bound) -> Child
    requires { IsShort node.now }
    ensures { result ≡ claimed_child k node.now bound }
{
    let own = weight(node);
    Child {
        least: bound.least,
        lean: own.max(bound.lean).min(k),
        nearly: own.max(bound.nearly).min(k),
    }
}

// The numbers that are claimed of a node.
fn as_child(bound: Bound) -> Child
    ensures { result ≡ as_child bound }
{
    Child {
        least: bound.least,
        lean: bound.lean,
        nearly: bound.nearly,
    }
}

// The number of the bound.
fn number(bound: Bound, field: Field) -> u32
    ensures { result ≡ claim field (as_child bound) }
{
    match field {
        Field::Least => bound.least,
        Field::Lean => bound.lean,
        Field::Nearly => bound.nearly,
    }
}
