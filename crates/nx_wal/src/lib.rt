//! Pages under a log. A commit writes a group of pages behind the end of the log and opens its gate; a
//! checkpoint moves the pages to the pages area and empties the log; opening reads the log by its heads
//! and page numbers. What an image stands for is said in `nx_replay`.
#![tactic(auto)]

mod block;
mod error;
pub mod laws;
mod lost;
mod moving;
mod pages;
mod places;
mod reading;
mod renewing;
mod waiting;
mod wal;
mod writing;

pub use error::WalError;
pub use nx_groups::{Group, GroupPage, GroupPages};
pub use nx_slots::PageBytes;
pub use reading::GroupHead;
pub use wal::Wal;
