// The first node that weighs more than a bound.
ghost use Rattle.std.specs.Prelude.{◌≡◌, IfOk, MatchOption};
ghost use Rattle.std.specs.Option.{option_map};
ghost use Rattle.nx_weights.specs.Weight.{first_heavy, weighed, IsAtMost, IsHeavyAt, IsWithinLimits};
ghost use Rattle.nx_weights.specs.Search.{HasSearched};

use crate::weight;
use nx_tree::{NoMemory, Path, Tree};
use std::alloc::Global;

/// A node that weighs more than a bound: where it stands, counted from the tree that was searched,
/// and its weight in slots of 8 bytes.
#[derive(Drop)]
pub struct HeavyNode {
    pub path: Path,
    pub weight: u32,
}

/// The first node of the tree in document order, which begins with the tree's root, that weighs
/// more than `k` slots; `None` where no node does. The tree has to be within the limits of a document,
/// as a document is and each tree in one.
///
/// Errors: `NoMemory`.
pub fn first_heavy(alloc: Global, tree: &Tree, k: u32) -> Result<Option<HeavyNode>, NoMemory>
    requires { IsWithinLimits tree.now }
    ensures first { IfOk result (λ found. option_map (λ heavy. (heavy.path, heavy.weight)) found ≡ option_map weighed (first_heavy k tree.now)) }
    ensures heavy { IfOk result (λ found. MatchOption found (IsAtMost k tree.now) (λ heavy. IsHeavyAt k tree.now heavy.path heavy.weight)) }
{
    let mut path = Vec::new(alloc);
    let Some(weight) = find_heavy(tree, k, &mut path)? else {
        return Ok(None);
    };
    Ok(Some(HeavyNode {
        path: Path::from_vec(path),
        weight,
    }))
}

// The weight of the first heavy node of the tree, which stands at the path. Then the path is that
// of the node; where there is none, it is as it was.
fn find_heavy(tree: &Tree, k: u32, path: &mut Vec<u32>) -> Result<Option<u32>, NoMemory>
    requires { IsWithinLimits tree.now }
    ensures { IfOk result (λ found. HasSearched k tree.now path.old.items path.new.items found) }
{
    let own = weight(&tree.node);
    if own > k {
        return Ok(Some(own));
    }
    for (position, child) in tree.children.as_slice().iter().enumerate() {
        path.push(position as u32)?;
        let found = find_heavy(child, k, path)?;
        if found.is_some() {
            return Ok(found);
        }
        let _ = path.pop();
    }
    Ok(None)
}
