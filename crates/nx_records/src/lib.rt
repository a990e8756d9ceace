//! Records at places, byte lists at first pages, and a catalog, over pages under a log: they are read,
//! added, changed and removed, and every commit is whole or not there after a crash. What pages hold is
//! said in `nx_holdings`, and how byte lists stand on them in `nx_links`.
#![tactic(auto)]

mod chains;
mod changes;
mod error;
mod first;
pub mod laws;
mod lists;
mod pages;
mod patching;
mod reading;
mod records;
mod rewriting;
mod writing;

pub use error::StoreError;
pub use nx_holdings::{Header, NEWEST_FORMAT, Settings, read_header};
pub use nx_numbers::MOST_PAGES;
pub use reading::ListReader;
pub use records::{Records, Rid};
pub use rewriting::take_same_pages;
