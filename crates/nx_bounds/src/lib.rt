//! Certificates of partitionings: a lower bound for each node of a document, the check that these
//! bounds support each other, and the text of plans.
//!
//! What a numeric choice over the children of a node is, and when a claim is supported, is said by
//! `nx_choices`; what is claimed of all nodes of a tree in `specs/Claim.antt`; that supported claims are lower bounds in
//! `specs/Law.antt`; what a text of a plan says in `specs/PlanText.antt`.
#![tactic(auto)]

mod certify;
mod error;
pub mod laws;
mod support;
mod text;

pub use certify::certified;
pub use error::BoundsError;
pub use nx_choices::Field;
pub use support::supported;
pub use text::{PlanWriter, read_plan, write_plan};
