//! Scripts: commands that come line by line, and the replies to them.
//!
//! `Parser` makes commands of the bytes of a script, each as soon as it is whole, and `Script` those
//! of a host's input; a document's lines are read as they come and never kept as text. `Requests` puts the
//! commands of a transaction together. `write_reply` gives a reply's text. Which lines are which command,
//! which commands are one request, and what a reply's text is, stands in `specs/`, apart from the code.
#![tactic(auto)]

mod body;
mod command;
mod error;
pub mod laws;
mod line;
mod parser;
mod reply;
mod request;
mod requests;
mod rule;
mod script;
mod whole;
mod write;

pub use body::Body;
pub use command::{Command, LineBody, LoadBody, TextBody};
pub use error::ScriptError;
pub use parser::Parser;
pub use reply::{DocLine, DocLines, Reply, ReplyError};
pub use request::{Answer, Request};
pub use requests::Requests;
pub use script::Script;
pub use whole::Line;
pub use write::{push_answer, push_reply, write_answer, write_reply};
