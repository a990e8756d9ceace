//! The commands that are filters: they read the input, give the output, and leave the disk as it was.
#![tactic(auto)]

mod consumer;
mod give;
mod planned;
mod planning;
mod read;
mod refusal;
mod status;
mod take_error;
mod tidying;
mod verifying;

pub use give::{BLOCK, GiveError, give_block};
pub use planning::plan;
pub use status::Status;
pub use tidying::tidy;
pub use verifying::verify;
