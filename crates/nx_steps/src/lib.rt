//! What each command of a script does to a store, and what it is answered.
//!
//! `specs/Step.antt` says it of all commands. Besides
//! definitions and their laws the crate has one test: whether a command may change what is stored.
#![tactic(auto)]

mod change;
pub mod laws;

pub use change::{may_change, may_change_request};
