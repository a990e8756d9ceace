//! The minima of a node's subtree are what the least numeric choices over its children's minima give.
//!
//! What the minima of a tree are is said over its partitionings, and what a choice is over numbers
//! alone. `specs/Drawing.antt` makes a drawn tree of a choice and a drawn tree below each child, and
//! `specs/ChoiceLaw.antt` says what holds of both.
#![tactic(auto)]

pub mod laws;
