//! Slotted pages: a page of 8,192 bytes as a list of optional records, each of which is found by the
//! number of its slot. It stands on `nx_numbers`.
//!
//! Contracts see a `Page` as that list, and its bytes by the form in `specs/Slots.antt`. What a change
//! makes of the list is said in `specs/Edits.antt`.
#![tactic(auto)]

mod appending;
mod changes;
mod emptying;
mod form;
mod known;
mod packing;
mod page;
mod reads;
mod room;

pub use known::KnownSlots;
pub use page::{
    Page, PageBytes, SlotsError, clear_in, free_bytes_in, has_beside, is_page, put_at, put_in,
    read_in, record_in, room_in, set_in,
};
pub use room::Room;
