//! The rules that the pages of a store keep, which of them is broken first, and their laws.
//!
//! `specs/Tour.antt` says how far a walk over the pages has come, `specs/Broken.antt` which rule is broken where, and
//! `specs/Verdict.antt` what a verdict is.
#![tactic(auto)]

pub mod laws;
mod verdict;

pub use verdict::{PageRule, Verdict};
