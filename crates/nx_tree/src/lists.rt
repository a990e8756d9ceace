// The lists that nodes and edits are made of.
use nx_lists::List;

/// A list of bytes: a name, a content, a text.
pub type Bytes = List<u8>;

/// A path: the position of a child of the root, of a child of that node, and so on, each counted
/// from 0. The empty path is that of the root, and the number of positions is the depth of the node.
pub type Path = List<u32>;
