// The limits of a document.

/// As many bytes as a node's name and content have at most together.
pub const LONGEST_NODE: usize = 1_048_576;

/// As deep as a node lies at most, where the root of a document has depth 0.
pub const DEEPEST: usize = 256;

/// As many nodes as a document has at most, its root counted.
pub const MOST_NODES: u32 = 524_288;
