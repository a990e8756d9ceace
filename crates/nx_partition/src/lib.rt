//! The minima of the subtrees of a document, and lean optimal partitionings.
//!
//! What minima are and what is lean is said in `nx_parts`. They are what the least numeric choices over
//! the minima of a node's children give, so one walk finds all of them, and a second one, from the root
//! down, makes a partitioning of choices that give them.
#![tactic(auto)]

mod bounding;
mod error;
mod planning;
mod scratch;

pub use bounding::{bound_of, bound_tree, bounds, refusal};
pub use error::{BoundError, PlanError};
pub use planning::{partition, parts_from, plan, plan_from};
pub use scratch::Scratch;
