//! The commands of a generated script: a document is loaded, changed and looked at at drawn places, and
//! exported at the end.
//!
//! Contracts see a `Gen` as the list of the commands that remain. Which these are for a seed and a number is
//! said in `specs/Commands.antt`.
#![tactic(auto)]

mod document;
mod draws;
mod generator;

pub use generator::Gen;
