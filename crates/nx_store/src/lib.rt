//! A store of documents on a disk: requests in, answers out, one commit for each request that changes it.
//!
//! `nx_steps` says what a request does to a state and what it is answered, `specs/Store.antt` what the
//! store promises at each moment of a request, and when it is done.
#![tactic(auto)]

mod asking;
mod changing;
mod editing;
mod edits;
mod error;
pub mod laws;
mod loading;
mod naming;
mod store;
mod transacting;

pub use error::EngineError;
pub use store::Store;
