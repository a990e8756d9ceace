// Sibling intervals, and lists of them.
use nx_lists::List;
use nx_tree::Path;

/// A sibling interval of a tree.
#[derive(Drop)]
pub enum Interval {
    /// The root alone.
    Root,
    /// Neighbouring children of one node.
    Run {
        /// The path of the node whose children they are.
        parent: Path,
        /// The position of the first of them, counted from 0.
        first: u32,
        /// The position of the last of them.
        last: u32,
    },
}

/// A list of sibling intervals.
pub type Partitioning = List<Interval>;
