// The weight of one node.
ghost use Rattle.std.specs.Prelude.{◌≡◌, ◌≤◌};
ghost use Rattle.nx_weights.specs.Weight.{weight, weight_of, IsShort};

use nx_tree::Node;

/// The most bytes of a content that stands beside its node. A longer one stands elsewhere, and counts for the 8 bytes that
/// say where.
pub const LONGEST_NEAR: u32 = 1024;

/// The weight of a node without its children, in slots of 8 bytes, whose name and content have so many bytes: one slot, and
/// those that they fill together, where a content of more than 1,024 bytes counts for 8. Each may have at most 1,048,576
/// bytes. It takes no memory.
pub fn weight_of(name: u32, content: u32) -> u32
    requires name { name ≤ 1048576 }
    requires content { content ≤ 1048576 }
    ensures { result ≡ weight_of name content }
{
    let counted = if content <= LONGEST_NEAR { content } else { 8 };
    1 + (name + counted).div_ceil(8)
}

/// The weight of the node without its children, in slots of 8 bytes (`weight_of`). Its name and its content may
/// have at most 1,048,576 bytes together, as in a document. It takes no memory.
pub fn weight(node: &Node) -> u32
    requires { IsShort node.now }
    ensures { result ≡ weight node.now }
{
    weight_of(node.name.len() as u32, node.content.len() as u32)
}
