//! The top call: from the words of a command line, the input and a disk to the output and a status.
#![tactic(auto)]

mod apply;
mod ask;
mod check;
mod find;
mod gathered;
mod generate;
mod init;
pub mod laws;
mod question;
mod serve;
mod ship;
mod top;
mod words;

pub use nx_filters::Status;
pub use nx_words::{Word, Words};
pub use top::run;
pub use words::named_store;
