// The document that is loaded.
ghost use Rattle.std.specs.Prelude.{◌≡◌, IfOk, OnOk};
ghost use Rattle.nx_gen.specs.Draws.{after_text};
ghost use Rattle.nx_gen.specs.Commands.{after_texts, document, element_node, numbered_element};
ghost use Rattle.nx_pyx.specs.Event.{text_node};
ghost use Rattle.nx_tree.specs.Forest.{Empty};

use crate::draws::Draws;
use itoa::Buffer;
use nx_tree::{Bytes, Kind, NoMemory, Node, Tree, Trees};
use std::alloc::Global;

/// An element `r` over so many elements with their numbers and drawn texts.
///
/// Errors: `NoMemory`.
pub fn document(alloc: Global, draws: &mut Draws, n: u32) -> Result<Tree, NoMemory>
    ensures tree { IfOk result (λ tree. tree ≡ document n draws.old.state) }
    ensures state { OnOk result (draws.new.state ≡ after_texts n draws.old.state) }
{
    let mut elements = Trees::new(alloc);
    for number in 0..n {
        elements.push(numbered_element(alloc, draws, number)?)?;
    }
    let root = Tree {
        node: element(alloc, b"r")?,
        children: elements,
    };
    let mut children = Trees::new(alloc);
    children.push(root)?;
    Ok(Tree {
        node: Node {
            kind: Kind::Doc,
            name: Bytes::new(alloc),
            content: Bytes::new(alloc),
        },
        children,
    })
}

// An element `e` with its number and a drawn text.
fn numbered_element(alloc: Global, draws: &mut Draws, number: u32) -> Result<Tree, NoMemory>
    ensures tree { IfOk result (λ tree. tree ≡ numbered_element number draws.old.state) }
    ensures state { OnOk result (draws.new.state ≡ after_text draws.old.state) }
{
    let mut buffer = Buffer::new();
    let id = Node {
        kind: Kind::Attribute,
        name: Bytes::from_slice(alloc, b"id")?,
        content: Bytes::from_slice(alloc, buffer.format(number).as_bytes())?,
    };
    let mut children = Trees::new(alloc);
    children.push(leaf(alloc, id))?;
    children.push(leaf(alloc, text_node(alloc, draws.text(alloc)?)))?;
    Ok(Tree {
        node: element(alloc, b"e")?,
        children,
    })
}

// A tree of one node.
fn leaf(alloc: Global, node: Node) -> Tree
    ensures node { result.node ≡ node }
    ensures below { result.below ≡ Empty }
{
    Tree {
        node,
        children: Trees::new(alloc),
    }
}

// A text.
pub fn text_node(alloc: Global, content: Bytes) -> Node
    ensures { result ≡ text_node content }
{
    Node {
        kind: Kind::Text,
        name: Bytes::new(alloc),
        content,
    }
}

// An element's node.
fn element(alloc: Global, name: &[u8]) -> Result<Node, NoMemory>
    ensures { IfOk result (λ node. node ≡ element_node name.now) }
{
    Ok(Node {
        kind: Kind::Element,
        name: Bytes::from_slice(alloc, name)?,
        content: Bytes::new(alloc),
    })
}
