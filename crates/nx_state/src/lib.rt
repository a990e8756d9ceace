//! The state of a store, and which state its pages stand for.
//!
//! `specs/State.antt` says what a store has, and `specs/Stands.antt` when pages stand for it. The crate has
//! definitions and their laws alone, for the crates that read and change a store.
#![tactic(auto)]

pub mod laws;
