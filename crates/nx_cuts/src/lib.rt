//! Trees with the intervals of a partitioning drawn in.
//!
//! A partitioning is a list of intervals that are found by paths. `specs/Cut.antt` has the same as one
//! value without paths, over which definitions and proofs go by recursion: a forest some of whose trees
//! are members of intervals. The laws say that both are the same.
#![tactic(auto)]

pub mod laws;
