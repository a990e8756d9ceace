// The minima of a node where those of all nodes below it are known.
ghost use Rattle.std.specs.Prelude.{◌+◌, ◌<◌, ◌≤◌, drop, length, OnOk};
ghost use Rattle.nx_weights.specs.Weight.{IsWithinLimits, weight};
ghost use Rattle.nx_parts.specs.Minima.{AreMinimaIn};
ghost use Rattle.nx_par.specs.Adding.{Settles};

use nx_lists::NoMemory;
use nx_partition::Scratch;
use nx_parts::Bound;
use nx_tree::Tree;
use std::alloc::Global;

/// What stands in the place of a node's minima until they are known.
pub const UNKNOWN: Bound = Bound {
    least: 0,
    lean: 0,
    nearly: 0,
};

/// Puts the minima of the tree itself into its place in the list, behind which those of the nodes below
/// it stand, and nothing else.
pub fn settle(
    alloc: Global,
    tree: &Tree,
    k: u32,
    place: usize,
    list: &mut Vec<Bound>,
) -> Result<(), NoMemory>
    requires some { 1 ≤ k }
    requires bound { k ≤ 256 }
    requires limits { IsWithinLimits tree.now }
    requires light { weight tree.now.node ≤ k }
    requires place { place < length list.old.items }
    requires minima { AreMinimaIn k tree.now.below (drop (place + 1) list.old.items) }
    ensures { OnOk result (Settles k tree.now place list.old.items list.new.items) }
{
    let bound = Scratch::new(alloc).least(tree, k, &list[place + 1..])?;
    list[place] = bound;
    Ok(())
}
