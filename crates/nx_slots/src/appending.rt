// Putting a record into a new slot of a page, where it has room below the others.
ghost use Rattle.nx_slots.specs.Packing.{edited, CanBePacked};
ghost use Rattle.nx_slots.specs.Rooms.{HasRoom};
ghost use Rattle.nx_slots.specs.Slots.{at_of, count_of, size_of, slots_of, IsSlotted};
ghost use Rattle.std.specs.Prelude.{◌≡◌, ◌+◌, ◌*◌, ◌<◌, ◌≤◌, ℕ, length};
ghost use Rattle.nx_numbers.specs.Sizes.{page_size};

use crate::packing::{change, lay};
use crate::reads::{count_at, offset_in, size_at};
use crate::room::Room;
use nx_numbers::{PAGE_SIZE, set_u16_at};

/// Where the records begin with that of a further slot.
fn start_with(page: &[u8], i: usize, start: usize) -> usize
    requires { 12 + 4 * i ≤ length page.now }
    ensures least { result ≤ start }
    ensures behind { 1 ≤ size_of page.now i → result ≤ at_of page.now i }
{
    if size_at(page, i) == 0 {
        return start;
    }
    start.min(offset_in(page, i))
}

/// Where the records of a page begin, its end where there are none.
pub(crate) fn records_start(page: &[u8]) -> usize
    requires { IsSlotted page.now }
    ensures within { result ≤ page_size }
    ensures behind { (i : ℕ) → i < count_of page.now → 1 ≤ size_of page.now i → result ≤ at_of page.now i }
{
    let count = count_at(page);
    let mut start = PAGE_SIZE;
    for i in 0..count {
        start = start_with(page, i, start);
    }
    start
}

/// Lays a record below the others, which begin at `start`, and makes it that of a new slot.
fn append(page: &mut [u8], count: usize, start: usize, bytes: &[u8])
    requires slotted { IsSlotted page.old }
    requires count { count ≡ count_of page.old }
    requires some { 1 ≤ length bytes.now }
    requires within { start ≤ page_size }
    requires behind { (i : ℕ) → i < count_of page.old → 1 ≤ size_of page.old i → start ≤ at_of page.old i }
    requires room { 12 + 4 * count + length bytes.now ≤ start }
    ensures slotted { IsSlotted page.new }
    ensures slots { slots_of page.new ≡ edited page.old count bytes.now (count + 1) }
{
    set_u16_at(page, 2, (count + 1) as u16);
    lay(page, count, start, bytes);
}

/// Puts a record into the first empty slot of a page, else into a new one, so that there are so many slots.
/// What is packed anew has no holes, so that this is seldom done.
pub(crate) fn fill(page: &mut [u8], room: Room, bytes: &[u8], count: usize)
    requires room { HasRoom page.old room }
    requires some { 1 ≤ length bytes.now }
    requires there { (i : ℕ) → i < count → (i ≡ room.slot → ⊥) → i < count_of page.old }
    requires stands { CanBePacked (edited page.old room.slot bytes.now count) }
    ensures slotted { IsSlotted page.new }
    ensures slots { slots_of page.new ≡ edited page.old room.slot bytes.now count }
{
    let slot = room.slot;
    if slot == room.count && count == slot + 1 && 12 + 4 * slot + bytes.len() <= room.start {
        append(page, slot, room.start, bytes);
    } else {
        change(page, slot, bytes, count);
    }
}
