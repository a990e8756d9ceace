// Whether a document may have a node.
ghost use Rattle.std.specs.Prelude.{◌≡◌, ◌↔◌, ◌||◌, ◌+◌, ◌≤◌, true, length};
ghost use Rattle.nx_tree.specs.Document.{is_element, is_instruction, longest_node};
ghost use Rattle.nx_tree.specs.Edit.{has_children};
ghost use Rattle.nx_piece.specs.Flat.{seen_node};
ghost use Rattle.nx_piece.specs.PieceNode.{content_length};
ghost use Rattle.nx_piece.specs.Viewing.{seen_tree};
ghost use Rattle.nx_nav.specs.Nodes.{CanBeWith, CanBeTree, MayHaveParts};

use nx_lists::LONGEST_NODE;
use nx_piece::{NodeView, TreeView};
use nx_pyx::is_name;
use nx_tree::Kind;

// Whether a document may have a node of this kind, with this name and a content of so many bytes, at this depth, where its
// root has depth 0. What stands around the node isn't asked, nor which bytes the content has.
pub fn may_be(kind: Kind, name: &[u8], content: usize, depth: usize) -> bool
    ensures { (result ≡ true) ↔ CanBeWith depth kind name.now content }
{
    if depth == 0 {
        return matches!(kind, Kind::Doc) && name.is_empty() && content == 0;
    }
    (depth > 1 || is_top(kind)) && has_parts(kind, name, content) && is_short(name, content)
}

// How many bytes the content of the node has, wherever it stands.
pub fn content_len(node: NodeView<'_>) -> usize
    ensures { result ≡ content_length (seen_node node.entry) }
{
    match node.far {
        None => node.content.len(),
        Some(far) => far.length as usize,
    }
}

// Whether a node of this kind may stand right below the root.
fn is_top(kind: Kind) -> bool
    ensures { result ≡ (is_element kind || is_instruction kind) }
{
    matches!(kind, Kind::Element | Kind::Instruction)
}

// Whether a node of this kind may have children.
pub fn may_have_children(kind: Kind) -> bool
    ensures { result ≡ has_children kind }
{
    matches!(kind, Kind::Doc | Kind::Element)
}

// Whether a document may have the tree's node at this depth, and the node may have children where it has some.
pub fn is_possible(tree: TreeView<'_>, depth: usize) -> bool
    ensures { (result ≡ true) ↔ CanBeTree depth (seen_tree tree.entry) }
{
    let TreeView { node, children } = tree;
    may_be(node.kind, node.name, content_len(node), depth)
        && (may_have_children(node.kind) || children.split_first().is_none())
}

// Whether a node below the root has such parts where it is of this kind.
fn has_parts(kind: Kind, name: &[u8], content: usize) -> bool
    ensures { (result ≡ true) ↔ MayHaveParts kind name.now content }
{
    match kind {
        Kind::Doc => false,
        Kind::Element => is_name(name) && content == 0,
        Kind::Attribute | Kind::Instruction => is_name(name),
        Kind::Text => name.is_empty(),
    }
}

// Whether the name and the content have no more bytes together than are allowed.
fn is_short(name: &[u8], content: usize) -> bool
    ensures { (result ≡ true) ↔ (length name.now + content ≤ longest_node) }
{
    match LONGEST_NODE.checked_sub(name.len()) {
        None => false,
        Some(room) => content <= room,
    }
}
