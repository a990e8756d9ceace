//! The words of a command line: which of them name the store, the command and its arguments.
#![tactic(auto)]

mod operands;
mod parse;
mod word;

pub use operands::{Operands, operands_of};
pub use word::{Word, Words};
