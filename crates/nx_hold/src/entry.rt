// Where a document stands.
use nx_records::Rid;

/// Where a document stands, and how large it is.
#[derive(Clone, Copy, Debug, PartialEq, Eq)]
pub struct DocEntry {
    /// The place of the record that has its root.
    pub root: Rid,
    /// How many nodes it has, its root counted.
    pub nodes: u32,
}
