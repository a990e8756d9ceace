// A node found by path, and the measures of a document.
ghost use Rattle.std.specs.Prelude.{◌≡◌, ◌≤◌, ◌+◌, None, Some, IfOk, IfErr};
ghost use Rattle.nx_tree.specs.declared.error.TreeError.TheVariants.{NoNode};
ghost use Rattle.nx_tree.specs.Forest.{nodes, forest_of};
ghost use Rattle.nx_tree.specs.Document.{IsDocument, depth, deepest, most_nodes};
ghost use Rattle.nx_tree.specs.Edit.{at};

use super::Tree;
use crate::TreeError;

/// The tree at the path. `NoNode` where the path leads nowhere. It takes no memory.
pub fn node_at<'a>(tree: &'a Tree, path: &[u32]) -> Result<&'a Tree, TreeError>
    requires { IsDocument tree.now }
    ensures ok { IfOk result (λ found. at tree.now path.now ≡ Some found.now) }
    ensures err { IfErr result (λ error. (error ≡ NoNode) × (at tree.now path.now ≡ None)) }
{
    let mut found = tree;
    for position in path {
        let Some(child) = found.children.as_slice().get(*position as usize) else {
            return Err(TreeError::NoNode);
        };
        found = child;
    }
    Ok(found)
}

/// The number of nodes of a document, or of a tree in one, its root counted. It takes no memory and
/// looks at no node.
pub fn count(tree: &Tree) -> u32
    requires { 1 + nodes tree.now.below ≤ most_nodes }
    ensures { result ≡ 1 + nodes tree.now.below }
{
    1 + tree.children.node_count()
}

/// The greatest depth of a node of the document, whose root has depth 0. It takes no memory.
pub fn depth(tree: &Tree) -> u32
    requires { IsDocument tree.now }
    ensures { result ≡ depth tree.now.below }
{
    depth_below(tree)
}

// The greatest depth of a node below the tree's, which has depth 0.
fn depth_below(tree: &Tree) -> u32
    requires { depth tree.now.below ≤ deepest }
    ensures { result ≡ depth tree.now.below }
{
    let mut greatest = 0;
    for child in tree.children.as_slice() {
        greatest = greatest.max(1 + depth_below(child));
    }
    greatest
}
