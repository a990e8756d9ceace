//! Nodes found by name steps.
//!
//! Contracts see `Steps` as the list of its steps, and the paths that are found as lists of positions
//! (`specs/Reach.antt`).
#![tactic(auto)]

mod finder;
mod label;
pub mod laws;
mod paths;
mod plain;
mod state;
mod step;
mod text;

pub use finder::Finder;
pub use label::is_label;
pub use paths::Paths;
pub use plain::find_in;
pub use state::State;
pub use step::{MOST_STEPS, Step, Steps};
pub use text::read_steps;
