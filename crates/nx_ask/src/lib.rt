//! Many questions at once over one snapshot of a store. A snapshot is taken of a disk and never changes; threads share it, and each
//! asks a store of its own over it.
#![tactic(auto)]

mod all;
mod cut;
mod disk;
mod error;
pub mod laws;
mod question;
mod reading;
mod row;
mod snapshot;

pub use all::{Replies, answer_all, answer_one};
pub use error::AskError;
pub use snapshot::Snapshot;
