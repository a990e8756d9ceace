// Emptying a slot of a page in place.
ghost use Rattle.nx_slots.specs.Packing.{edited};
ghost use Rattle.nx_slots.specs.Slots.{count_of, size_of, slots_of, IsSlotted};
ghost use Rattle.std.specs.Prelude.{◌≡◌, ◌+◌, ◌<◌, ◌≤◌, [], ℕ};

use crate::packing::lay;
use nx_numbers::set_u16_at;

/// Empties a slot of a page, which then has so many slots. The other records stay where they lie, so that the place
/// of this one becomes a hole.
pub(crate) fn empty(page: &mut [u8], slot: usize, count: usize)
    requires slotted { IsSlotted page.old }
    requires there { slot < count_of page.old }
    requires few { count ≤ count_of page.old }
    requires last { (last : ℕ) → count ≡ last + 1 → (last ≡ slot → ⊥) × (1 ≤ size_of page.old last) }
    ensures slotted { IsSlotted page.new }
    ensures slots { slots_of page.new ≡ edited page.old slot [] count }
{
    lay(page, slot, 12 + 4 * slot, &[]);
    set_u16_at(page, 2, count as u16);
}
