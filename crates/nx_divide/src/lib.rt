//! Pieces that became too heavy for their records, divided.
#![tactic(auto)]

mod checking;
mod dividing;
pub mod laws;
mod row;
mod walk;

pub use checking::may_be_divided;
pub use dividing::{Row, divide_at};
