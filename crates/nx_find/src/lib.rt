//! Nodes of stored documents by name: which labels stand at or below each record, and the paths that steps
//! reach, with the records passed over that don't hold the last step's label.
//!
//! Contracts see of `Names` what they hold (`holds_of`), and the paths that are found by `Found` of `nx_reach`.
#![tactic(auto)]

mod error;
mod finding;
mod gathering;
mod handing;
mod holding;
mod names;
mod walking;
mod wanted;

pub use error::FindError;
pub use finding::find;
pub use gathering::names_of;
pub use names::Names;
pub use nx_reach::{Paths, Step, Steps, read_steps};
