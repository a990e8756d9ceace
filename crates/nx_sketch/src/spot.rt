// One node of a sketch.
use nx_matrix::Entry;

/// A node of a sketch. A sketch is the list of its nodes in document order.
#[derive(Clone, Copy, Debug, PartialEq, Eq)]
pub struct Spot {
    /// Which child it is, counted as the document does.
    pub position: u32,
    /// What it weighs, in slots of 8 bytes.
    pub weight: u32,
    /// What it weighs with all nodes below it.
    pub within: u32,
    /// What is asked of it below its parent.
    pub entry: Entry,
    /// How many nodes stand below it, at every depth: those that come next in the list.
    pub below: u32,
}
