//! Pieces in records: which piece the record at a place holds, and the calls that read, add, replace and take away
//! one. A piece's proxies stand in its record, or in a byte list that the record names; so does a content that is too
//! long for its item.
#![tactic(auto)]

mod contents;
mod entry;
pub mod laws;
mod lists;
mod pieces;
mod taking;
mod updating;

pub use contents::{content, far_content, free_content, free_far, hold_node};
pub use entry::DocEntry;
pub use pieces::{
    WrittenPiece, add_piece, read_piece, read_written, remove_piece, update_piece, view_piece,
};
pub use taking::{TakenPiece, take_piece};
