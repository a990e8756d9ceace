// What is claimed of the subtree of a node, and lists of such claims.
use nx_lists::List;

/// What is claimed of all feasible partitionings of one node's subtree.
#[derive(Clone, Copy, Debug, PartialEq, Eq)]
pub struct Bound {
    /// As few intervals as there may be.
    pub least: u32,
    /// As little as the root's part may weigh where there are so many intervals.
    pub lean: u32,
    /// As little as the root's part may weigh where there are at most so many intervals and one.
    pub nearly: u32,
}

/// A list of bounds, one for each node of a tree in document order.
pub type Bounds = List<Bound>;
