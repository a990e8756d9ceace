//! What the pages of a store hold: the header, free pages, and what sound pages stand for. It says
//! nothing of how pages come to a disk. The forms of the header and of what pages hold are said in
//! `specs/Header.antt` and `specs/Holdings.antt`.
#![tactic(auto)]

mod free;
mod header;
pub mod laws;

pub use free::{free_page, read_free_page};
pub use header::{Header, NEWEST_FORMAT, Settings, are_settings, header_page, read_header};
