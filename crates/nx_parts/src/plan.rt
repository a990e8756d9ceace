// A partitioning with what is claimed of it.
use crate::{Bounds, Partitioning};
use nx_weights::Weights;

/// A partitioning of a document, with a weight for each of its parts and a bound for each node.
#[derive(Drop)]
pub struct Plan {
    /// The intervals, in any order.
    pub parts: Partitioning,
    /// What each interval's part is claimed to weigh, in slots of 8 bytes and in the order of
    /// `parts`.
    pub weights: Weights,
    /// What is claimed of each node's subtree, in document order.
    pub bounds: Bounds,
}
