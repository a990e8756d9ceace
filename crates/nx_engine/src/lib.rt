//! Engines: what carries out the commands of a script.
//!
//! `Plain` keeps documents as plain trees in memory. `specs/Step.antt` says, apart from the code,
//! what a command is answered and which documents there are after it.
#![tactic(auto)]

mod plain;

pub use plain::Plain;
