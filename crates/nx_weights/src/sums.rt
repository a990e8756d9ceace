// The weights of all subtrees, in one pass over the nodes.
ghost use Rattle.std.specs.Prelude.{◌≡◌, ◌++◌, IfOk};
ghost use Rattle.nx_weights.specs.Weight.{tree_weight, tree_weights, IsWithinLimits};

use crate::{Weights, weight};
use nx_tree::{NoMemory, Tree};
use std::alloc::Global;

/// The sum of the weights of each subtree's nodes, in slots of 8 bytes and in document order: a
/// tree comes before those below it. The first is the weight of the whole tree, which has to be within
/// the limits of a document, as a document is and each tree in one.
///
/// Errors: `NoMemory`.
pub fn subtree_weights(alloc: Global, tree: &Tree) -> Result<Weights, NoMemory>
    requires { IsWithinLimits tree.now }
    ensures { IfOk result (λ weights. weights ≡ tree_weights tree.now) }
{
    let mut weights = Vec::new(alloc);
    push_weights(tree, &mut weights)?;
    Ok(Weights::from_vec(weights))
}

// Adds the sums of the tree and of those below it, and gives the tree's own, which is known after
// those and stands before them.
fn push_weights(tree: &Tree, weights: &mut Vec<u64>) -> Result<u64, NoMemory>
    requires { IsWithinLimits tree.now }
    ensures sum { IfOk result (λ sum. sum ≡ tree_weight tree.now) }
    ensures weights { IfOk result (λ _. weights.new.items ≡ weights.old.items ++ tree_weights tree.now) }
{
    let place = weights.len();
    let mut sum = u64::from(weight(&tree.node));
    weights.push(sum)?;
    for child in tree.children.as_slice() {
        sum += push_weights(child, weights)?;
    }
    weights[place] = sum;
    Ok(sum)
}
