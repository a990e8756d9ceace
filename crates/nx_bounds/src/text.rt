// The text of plans.
mod read;
mod write;
mod writer;

use nx_parts::{Bound, Interval};
pub use read::read_plan;
pub use write::write_plan;
pub use writer::PlanWriter;

// A line of a plan.
#[derive(Drop)]
pub enum PlanLine {
    // An interval, and what its part is claimed to weigh.
    Part { interval: Interval, weight: u32 },
    // A node by its number in document order, and what is claimed of its subtree.
    Claim { node: u32, bound: Bound },
}
