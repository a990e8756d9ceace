// Documents and nodes that the tests share.
ghost use Rattle.std.specs.Prelude.{◌+◌, ◌≤◌, length, IfOk};
ghost use Rattle.nx_tree.specs.Document.{IsDocument, IsNode, HasParts, longest_node};

use nx_pyx::{ReadError, Reader};
use nx_tree::{Bytes, Kind, NoMemory, Node, Tree};
use std::alloc::Global;

/// The document of these lines.
pub fn read(alloc: Global, text: &[u8]) -> Result<Tree, ReadError>
    ensures { IfOk result (λ tree. IsDocument tree) }
{
    let mut reader = Reader::new(alloc)?;
    reader.feed(text)?;
    reader.finish()
}

/// The node of one of these lines; of any other, the text `hi`.
pub fn node(alloc: Global, line: &[u8]) -> Result<Node, NoMemory>
    ensures { IfOk result (λ node. IsNode node) }
{
    match line {
        b"Ax 1" => made(alloc, Kind::Attribute, b"x", b"1"),
        b"Ax 2" => made(alloc, Kind::Attribute, b"x", b"2"),
        b"Ay 2" => made(alloc, Kind::Attribute, b"y", b"2"),
        b"(e" => made(alloc, Kind::Element, b"e", b""),
        b"?p 3" => made(alloc, Kind::Instruction, b"p", b"3"),
        _ => made(alloc, Kind::Text, b"", b"hi"),
    }
}

fn made(alloc: Global, kind: Kind, name: &[u8], content: &[u8]) -> Result<Node, NoMemory>
    requires parts { HasParts kind name.now content.now }
    requires short { length name.now + length content.now ≤ longest_node }
    ensures { IfOk result (λ node. IsNode node) }
{
    Ok(Node {
        kind,
        name: Bytes::from_slice(alloc, name)?,
        content: Bytes::from_slice(alloc, content)?,
    })
}
