// Bounds that are checked, and made, by all choices over the children of each node.
use super::choices::{Child, claim, first_exceeded, least_given};
use super::plain::{placed_nodes, slots};
use super::random::Random;
use nx_bounds::{BoundsError, Field};
use nx_parts::Bound;
use nx_tree::{NoMemory, Tree};
use std::alloc::Global;

// The children of the tree as the choices at it see them, where the bounds of the nodes below it begin
// the list, in document order.
fn claimed_children(
    alloc: Global,
    k: u32,
    tree: &Tree,
    below: &[Bound],
) -> Result<Vec<Child>, NoMemory> {
    let mut children = Vec::new(alloc);
    let mut place: usize = 0;
    for child in tree.children.as_slice() {
        let bound = below.get(place).copied().ok_or(NoMemory)?;
        children.push(claimed_child(k, child, bound))?;
        place = place.saturating_add(node_count(alloc, child)?);
    }
    Ok(children)
}

fn claimed_child(k: u32, child: &Tree, bound: Bound) -> Child {
    let own = u32::try_from(slots(&child.node)).unwrap_or(u32::MAX);
    Child {
        least: bound.least,
        lean: bound.lean.max(own).min(k),
        nearly: bound.nearly.max(own).min(k),
    }
}

fn node_count(alloc: Global, tree: &Tree) -> Result<usize, NoMemory> {
    Ok(placed_nodes(alloc, tree)?.len())
}

/// Why the bounds of these subtrees, in document order, aren't supported: the first number of the first
/// node.
pub(super) fn check_bounds(
    alloc: Global,
    k: u32,
    subtrees: &[&Tree],
    bounds: &[Bound],
) -> Result<(), BoundsError> {
    let mut node: u32 = 0;
    let mut left = bounds;
    for tree in subtrees {
        let (bound, below) = left.split_first().ok_or(BoundsError::Memory)?;
        if let Some((field, found)) = exceeded(alloc, k, tree, *bound, below)? {
            return Err(BoundsError::Unsupported {
                node,
                field,
                claimed: claim(field, *bound),
                found,
            });
        }
        node = node.saturating_add(1);
        left = below;
    }
    Ok(())
}

// The first number of the tree's bound that is more than the least that a choice gives, and that least.
fn exceeded(
    alloc: Global,
    k: u32,
    tree: &Tree,
    bound: Bound,
    below: &[Bound],
) -> Result<Option<(Field, u32)>, NoMemory> {
    let children = claimed_children(alloc, k, tree, below)?;
    Ok(first_exceeded(k, slots(&tree.node), children.as_slice(), bound))
}

/// Bounds for these subtrees, in document order, of which each is as great as those of its children
/// support, or now and then less.
pub(super) fn any_supported(
    alloc: Global,
    k: u32,
    subtrees: &[&Tree],
    random: &mut Random,
) -> Result<Vec<Bound>, NoMemory> {
    let mut bounds: Vec<Bound> = Vec::new(alloc);
    for tree in subtrees.iter().rev() {
        let children = claimed_children(alloc, k, tree, bounds.as_slice())?;
        let bound = any_bound(k, slots(&tree.node), children.as_slice(), random);
        bounds.insert(0, bound)?;
    }
    Ok(bounds)
}

// A bound that these children support.
fn any_bound(k: u32, own: u64, children: &[Child], random: &mut Random) -> Bound {
    let mut bound = Bound {
        least: 0,
        lean: 0,
        nearly: 0,
    };
    for field in [Field::Least, Field::Lean, Field::Nearly] {
        // Where there is no choice, any number is supported.
        let most = least_given(k, field, own, children, bound).unwrap_or(k);
        let number = most.min(random.near(most));
        match field {
            Field::Least => bound.least = number,
            Field::Lean => bound.lean = number,
            Field::Nearly => bound.nearly = number,
        }
    }
    bound
}
