//! A part of a document that became too heavy, over numbers alone: a sketch has the positions, weights
//! and entries of its nodes.
//!
//! What a plan, the separator, its plan and a split are is said of a list of nodes with their paths,
//! weights and entries (`specs/Plan.antt`, `specs/Separator.antt`, `specs/Split.antt`), so that it can be
//! said of a part of a document as well.
#![tactic(auto)]

mod marks;
mod spot;

pub use marks::{Marks, point, separator};
pub use spot::Spot;
