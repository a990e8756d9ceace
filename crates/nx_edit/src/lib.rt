//! Edits of documents in records: a node is put, a content replaced, a tree taken away, or a document taken away whole.
//!
//! Each call takes the entry of a document. Its contract speaks of every document that the records hold from its root
//! on and that has its number of nodes.
#![tactic(auto)]

mod changing;
mod deleting;
mod error;
mod freeing;
mod growing;
mod inserting;
mod joining;
mod keeping;
pub mod laws;
mod making;
mod parting;
mod placing;
mod planting;
mod removing;
mod retexting;
mod rows;

pub use deleting::delete;
pub use error::{EditError, edit_error};
pub use inserting::insert;
pub use removing::remove_document;
pub use retexting::retext;
