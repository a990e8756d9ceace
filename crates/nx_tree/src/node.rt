// One node of a tree, without its children.
ghost use Rattle.std.specs.Prelude.{◌≡◌};
ghost use Rattle.nx_tree.specs.Document.{is_attribute};
ghost use Rattle.nx_tree.specs.Edit.{has_children};

use crate::Bytes;

/// What a node is.
#[derive(Clone, Copy, Debug, PartialEq, Eq)]
pub enum Kind {
    /// The root of a document, above its root element and the instructions beside it.
    Doc,
    /// An element, the one kind beside `Doc` that has children.
    Element,
    /// An attribute of an element.
    Attribute,
    /// Character data.
    Text,
    /// A processing instruction.
    Instruction,
}

impl Kind {
    // Whether nodes of this kind may have children. They have no content.
    pub(crate) fn has_children(self) -> bool
        ensures { result ≡ has_children self }
    {
        matches!(self, Kind::Doc | Kind::Element)
    }

    pub(crate) fn is_attribute(self) -> bool
        ensures { result ≡ is_attribute self }
    {
        matches!(self, Kind::Attribute)
    }
}

/// A node: what it is, its name and its content, both as bytes. In a document `Doc` and texts have
/// the empty name, `Doc` and elements the empty content.
#[derive(Drop)]
pub struct Node {
    pub kind: Kind,
    pub name: Bytes,
    pub content: Bytes,
}
