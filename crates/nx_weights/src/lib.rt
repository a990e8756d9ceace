//! What the nodes and subtrees of a document count for, in slots of 8 bytes.
//!
//! What a node weighs, what a subtree weighs and what document order is stands in
//! `specs/Weight.antt`.
#![tactic(auto)]

mod heavy;
mod node;
mod sums;
mod weights;

pub use heavy::{HeavyNode, first_heavy};
pub use node::{LONGEST_NEAR, weight, weight_of};
pub use sums::subtree_weights;
pub use weights::Weights;
