//! Nodes of stored documents by name: which labels stand at or below each record, and what a walk over a
//! document's records shows that passes over some of them.
#![tactic(auto)]

mod gatherer;
mod hints;
mod holders;
mod holding;
mod labels;
pub mod laws;
mod map;
mod noted;
mod serials;

pub use gatherer::Gatherer;
pub use holders::Holders;
pub use map::LabelMap;
