//! The check of a store: whether the pages of a disk stand for a state, and else the first rule that they break.
//!
//! `nx_rules` says the rules, which of them is broken first, and what holds of verdicts.
#![tactic(auto)]

mod chains;
mod checking;
mod error;
mod judging;
mod left;
mod listing;
mod marks;
mod placing;
mod reading;
mod recording;
mod siblings;
mod uses;
mod walking;

pub use checking::check;
pub use error::CheckError;
pub use nx_rules::{PageRule, Verdict};
