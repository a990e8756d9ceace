//! Sibling partitionings of a tree: the list types that a plan is made of, the weights of the parts,
//! and the check that a list of intervals is a partitioning with parts that are light enough.
//!
//! What a sibling interval is, which part it holds, and what makes a partitioning feasible and
//! optimal is said in `specs/Partitioning.antt`.
#![tactic(auto)]

mod bounds;
mod check;
mod error;
mod interval;
mod marks;
mod plan;
mod weigh;

pub use bounds::{Bound, Bounds};
pub use error::PartsError;
pub use interval::{Interval, Partitioning};
pub use marks::{Mark, below_in, holder_in, mark_members};
pub use plan::Plan;
pub use weigh::{check_feasible, feasible_weights, part_weights};
