// A tree and a list of trees, which hold each other.
ghost use Rattle.std.specs.Prelude.{◌≡◌, ◌+◌, length, OnOk, OnErr, IfSome, ◌==◌, List};
ghost use Rattle.nx_tree.specs.Forest.{OrderedTree, Forest, forest_of, planted, trees_of, nodes};

mod copying;
mod edit;
mod kinds;
mod measure;

use crate::{NoMemory, Node};
pub use copying::copy;
pub use edit::{delete_at, insert_at, retext_at};
pub use measure::{count, depth, node_at};
use std::alloc::Global;
use std::marker::Model;

/// A node and its children in order. Contracts see the node and the forest below it.
#[cycle(tree)]
#[derive(Drop)]
pub struct Tree {
    pub node: Node,
    pub children: Trees,
}

/// A growing list of trees: the children of a node. Contracts see a forest. It keeps its
/// allocator, and only `push` takes memory.
#[cycle(tree)]
#[derive(Drop)]
pub struct Trees {
    trees: Vec<Tree>,
    // The nodes of the trees, at every depth.
    node_count: u32,
}

impl Model for Tree {
    ghost use Rattle.std.specs.Prelude.{◌+◌, ◌*◌};
    ghost use Rattle.nx_tree.specs.Forest.{OrderedTree, tree_code, nodes};
    ghost use Rattle.std.proofs.Common.{arith};

    ghost Value = { OrderedTree };

    ghost coded = { tree_code };

    ghost view = { λ a. record { node = a.node; below = a.children } };

    ghost size = { λ t. 2 * (1 + nodes t.below) };

    ghost size_decreases = { λ a h. Prim.omega arith };
}

impl Model for Trees {
    ghost use Rattle.std.specs.Prelude.{◌≡◌, ◌+◌, ◌*◌};
    ghost use Rattle.nx_tree.specs.Forest.{Forest, forest_code, forest_of, nodes, most_le_nodes};
    ghost use Rattle.std.proofs.Common.{arith};

    ghost Value = { Forest };

    ghost coded = { forest_code };

    ghost view = { λ a. forest_of a.trees.items };

    ghost invariant = { λ a. a.node_count ≡ nodes (forest_of a.trees.items) };

    ghost size = { λ f. 2 * nodes f + 1 };

    ghost size_decreases = { λ a h. Prim.omega (arith, most_le_nodes a.trees.items) };
}

impl Trees {
    /// No trees. It takes no memory.
    pub fn new(alloc: Global) -> Trees
        ensures { result ≡ Forest.Empty }
    {
        Trees {
            trees: Vec::new(alloc),
            node_count: 0,
        }
    }

    /// The trees as a vector, without a copy.
    pub fn into_vec(self) -> Vec<Tree>
        ensures { forest_of result.items ≡ self }
    {
        let Trees { trees, .. } = self;
        trees
    }

    /// Adds one tree at the end.
    ///
    /// Errors: `NoMemory`, also where the number of nodes would pass 4,294,967,295. The list is as it
    /// was then, and the tree is dropped.
    pub fn push(&mut self, item: Tree) -> Result<(), NoMemory>
        ensures ok { OnOk result (self.new ≡ planted self.old item) }
        ensures err { OnErr result (self.new ≡ self.old) }
    {
        let node_count = self.count_with(&item).ok_or(NoMemory)?;
        self.trees.push(item)?;
        self.node_count = node_count;
        Ok(())
    }

    // The number of nodes with those of one more tree, where it fits.
    fn count_with(&self, item: &Tree) -> Option<u32>
        ensures { IfSome result (λ n. n ≡ nodes self.now + 1 + nodes item.now.below) }
    {
        let below = item.children.node_count();
        self.node_count.checked_add(1)?.checked_add(below)
    }

    // The number of nodes of the trees, at every depth.
    fn node_count(&self) -> u32
        ensures { result ≡ nodes self.now }
    {
        self.node_count
    }

    /// The number of trees.
    pub fn len(&self) -> usize
        ensures { result ≡ length (trees_of self.now) }
    {
        self.trees.as_slice().len()
    }

    /// Whether there is no tree.
    pub fn is_empty(&self) -> bool
        ensures { result ≡ (length (trees_of self.now) == 0) }
    {
        self.trees.as_slice().is_empty()
    }

    /// The trees as a slice.
    pub fn as_slice(&self) -> &[Tree]
        ensures forest { forest_of result.now ≡ self.now }
        ensures trees { result.now ≡ trees_of self.now }
    {
        self.trees.as_slice()
    }
}
