//! The program as a function: the command line and the outside in; the exit status, and the line to say on standard
//! error, out.
#![tactic(auto)]

mod arguments;
mod ending;
mod heard;
mod help;
pub mod laws;
mod process;

pub use ending::{Ending, Line};
pub use heard::{may_hear, may_hear_of};
pub use process::run_process;
