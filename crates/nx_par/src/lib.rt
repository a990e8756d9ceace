//! The minima of the subtrees of a document, found by threads beside each other.
//!
//! What minima are is said in `nx_parts`, and one thread finds them in `nx_partition`. Each thread here
//! takes rows of subtrees and has a list of its own; the nodes above are bounded afterwards.
#![tactic(auto)]

mod all;
mod cut;
mod gate;
mod planning;
mod rows;
mod settle;
mod wide;

pub use all::{BoundsList, bounds_of_all};
pub use gate::{Gate, NoGate};
pub use planning::partition_wide;
pub use wide::bounds_wide;
