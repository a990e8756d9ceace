//! Trees of XML nodes. It stands on the lists of `nx_lists` alone.
//!
//! Contracts see `Bytes`, `Path` and `Trees` as lists, and a `Tree` as a node with the forest below
//! it (`specs/Forest.antt`). What makes a tree a document is said in `specs/Document.antt`.
#![tactic(auto)]

mod error;
mod lists;
mod node;
mod tree;

pub use error::TreeError;
pub use lists::{Bytes, Path};
pub use node::{Kind, Node};
pub use nx_lists::NoMemory;
pub use tree::{Tree, Trees, copy, count, delete_at, depth, insert_at, node_at, retext_at};
