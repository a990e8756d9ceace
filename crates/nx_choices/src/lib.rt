//! Choices over the children of a node, as numbers alone: what they give at least, and which of them
//! gives it.
//!
//! What a choice is, is said in `specs/Choice.antt`; what the least ones give in `specs/Least.antt`;
//! when a claim is supported in `specs/Claim.antt`; and how a choice is told, child by child, in
//! `specs/Stand.antt`.
#![tactic(auto)]

mod build;
mod child;
mod choices;
mod found;
mod lightest;
mod profile;
mod profiles;
mod reach;
mod walk;

pub use child::{Child, Field, Stand};
pub use choices::Choices;
