//! The split matrix: what is asked of a child below its parent where a part of a document is divided,
//! by the labels of both.
//!
//! Contracts see a `Matrix` as the list of its rules, and what it says as a map from pairs of labels to
//! entries (`specs/Rules.antt`).
#![tactic(auto)]

mod error;
mod label;
mod matrix;
mod rule;
mod rule_labels;

pub use error::MatrixError;
pub use matrix::Matrix;
pub use rule::{Entry, LONGEST_LABEL, MOST_RULES, Rule, Rules};
pub use rule_labels::{is_child_label, is_parent_label};
