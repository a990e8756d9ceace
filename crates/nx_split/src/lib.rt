//! The division of a piece that became too heavy, and the separator that divides it.
//!
//! What the separator, a split and a division are stands in `nx_sketch`, over a list of nodes with their paths, weights and
//! entries. Here that list is made of a piece (`specs/Piece.antt`).
#![tactic(auto)]

mod division;
pub mod laws;
mod listing;

pub use division::{separator, split};
pub use nx_division::Division;
pub use nx_sketch::Marks;
