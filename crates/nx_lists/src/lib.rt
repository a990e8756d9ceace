//! What every other crate of this repository stands on: want of memory, the list that their list
//! types are, and the limits of a document.
//!
//! Contracts see a `List` as the list of its items.
#![tactic(auto)]

mod limits;
mod list;
mod memory;

pub use limits::{DEEPEST, LONGEST_NODE, MOST_NODES};
pub use list::List;
pub use memory::NoMemory;
