// A document copied.
ghost use Rattle.std.specs.Prelude.{◌≡◌, IfOk, IfErr};
ghost use Rattle.nx_tree.specs.declared.error.TreeError.TheVariants.{Memory};
ghost use Rattle.nx_tree.specs.Document.{IsDocument};

use super::{Tree, Trees};
use crate::{Bytes, NoMemory, Node, TreeError};
use std::alloc::Global;

/// A copy of the document.
///
/// Errors: `Memory` alone.
pub fn copy(alloc: Global, tree: &Tree) -> Result<Tree, TreeError>
    requires { IsDocument tree.now }
    ensures ok { IfOk result (λ copied. copied ≡ tree.now) }
    ensures err { IfErr result (λ error. error ≡ Memory) }
{
    Ok(copy_tree(alloc, tree)?)
}

// A copy of the tree.
fn copy_tree(alloc: Global, tree: &Tree) -> Result<Tree, NoMemory>
    ensures { IfOk result (λ copied. copied ≡ tree.now) }
{
    let children = tree.children.as_slice();
    let mut trees = Vec::with_capacity(alloc, children.len())?;
    for child in children {
        trees.push(copy_tree(alloc, child)?)?;
    }
    Ok(Tree {
        node: copy_node(alloc, &tree.node)?,
        children: Trees {
            trees,
            node_count: tree.children.node_count(),
        },
    })
}

fn copy_node(alloc: Global, node: &Node) -> Result<Node, NoMemory>
    ensures { IfOk result (λ copied. copied ≡ node.now) }
{
    Ok(Node {
        kind: node.kind,
        name: Bytes::from_slice(alloc, node.name.as_slice())?,
        content: Bytes::from_slice(alloc, node.content.as_slice())?,
    })
}
