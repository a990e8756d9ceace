// What room a page has, which the pass that tests it finds.
ghost use Rattle.nx_slots.specs.Covers.{IsSeen};
ghost use Rattle.nx_slots.specs.Edits.{free_in, needed_for};
ghost use Rattle.nx_slots.specs.Rooms.{HasRoom};
ghost use Rattle.nx_slots.specs.Slots.{count_of, slots_of, IsHeaded, IsSlotted};
ghost use Rattle.std.specs.Prelude.{◌≡◌, ◌↔◌, ◌+◌, ◌<◌, ◌≤◌, ℕ, List, true, false, length, IfSome, MatchOption};
ghost use Rattle.nx_numbers.specs.Sizes.{page_size, longest_record};

use crate::appending::records_start;
use crate::changes::needed_at;
use crate::form::{ends_full, has_slots, is_headed};
use crate::reads::{count_at, first_empty_slot, free_at, offset_in, size_at};
use nx_numbers::{PAGE_ROOM, PAGE_SIZE};

/// What room a slotted page has: `room_in` finds it, and `put_at` goes by it.
#[derive(Clone, Copy, Debug)]
pub struct Room {
    // How many slots there are, and the first empty one, else their number.
    pub(crate) count: usize,
    pub(crate) slot: usize,
    // How many bytes are free.
    pub(crate) free: usize,
    // No record begins in front of this place.
    pub(crate) start: usize,
}

impl Room {
    /// Whether a page with this room takes a record of so many bytes, at most 8,176.
    pub fn takes(&self, size: usize) -> bool
        requires { size ≤ longest_record }
        ensures { (page bytes : List ℕ) → HasRoom page self.now → length bytes ≡ size
            → (result ≡ true) ↔ (needed_for (slots_of page) bytes ≤ free_in (slots_of page)) }
    {
        needed_at(self.slot, self.count, size) <= self.free
    }
}

/// The room that a further slot leaves, where its record lies below the earlier ones.
fn with_slot(page: &[u8], room: Room, i: usize) -> Option<Room>
    requires headed { IsHeaded page.now }
    requires there { i < count_of page.now }
    requires seen { IsSeen page.now room i }
    ensures { IfSome result (λ next. IsSeen page.now next (i + 1)) }
{
    let at = offset_in(page, i);
    let size = size_at(page, i);
    if size == 0 && at == 0 {
        return Some(Room {
            count: room.count,
            slot: room.slot.min(i),
            free: room.free,
            start: room.start,
        });
    }
    if size == 0 || at < 8 + 4 * room.count || at > room.start || size > room.start - at {
        return None;
    }
    Some(Room {
        count: room.count,
        slot: room.slot,
        free: room.free - size,
        start: at,
    })
}

/// The room of a page whose records lie one below the other, as a packed page has them.
fn packed_room(page: &[u8], count: usize) -> Option<Room>
    requires headed { IsHeaded page.now }
    requires count { count ≡ count_of page.now }
    ensures { IfSome result (λ room. IsSeen page.now room count) }
{
    let mut room = Room {
        count,
        slot: count,
        free: PAGE_ROOM - 4 * count,
        start: PAGE_SIZE,
    };
    for i in 0..count {
        match with_slot(page, room, i) {
            Some(next) => room = next,
            None => return None,
        }
    }
    Some(room)
}

/// The room of a slotted page, in whatever order its records lie.
fn scanned_room(page: &[u8]) -> Room
    requires { IsSlotted page.now }
    ensures { HasRoom page.now result }
{
    Room {
        count: count_at(page),
        slot: first_empty_slot(page),
        free: free_at(page),
        start: records_start(page),
    }
}

/// The room of a page, and none exactly where the bytes are no slotted page.
pub(crate) fn room_of(page: &[u8]) -> Option<Room>
    requires { length page.now ≡ page_size }
    ensures { MatchOption result (IsSlotted page.now → ⊥) (λ room. HasRoom page.now room) }
{
    if !is_headed(page) {
        return None;
    }
    let count = count_at(page);
    if !ends_full(page, count) {
        return None;
    }
    if let Some(room) = packed_room(page, count) {
        return Some(room);
    }
    if !has_slots(page, count) {
        return None;
    }
    Some(scanned_room(page))
}
