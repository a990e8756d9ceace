// Whether pages are slotted, for who asks it of one page again and again.
ghost use Rattle.nx_slots.specs.Slots.{count_of, slots_of, IsSlotted};
ghost use Rattle.std.specs.Prelude.{◌≡◌, ◌+◌, ◌*◌, true, false, ℕ, length, take, List, Option, None, Some, slice_index_or, MatchOption};
ghost use Rattle.nx_numbers.specs.Sizes.{page_size};

use crate::PageBytes;
use crate::form::is_slotted;
use crate::packing::begin;
use crate::reads::{count_at, read_record};
use nx_numbers::PAGE_SIZE;
use std::marker::Model;

/// Whether two slices of one length are equal. It looks at each byte, so that many are looked at in one step.
fn are_same(one: &[u8], other: &[u8]) -> bool
    requires { length one.now ≡ length other.now }
    ensures { result ≡ true → one.now ≡ other.now }
{
    let mut same = true;
    for i in 0..one.len() {
        same &= one[i] == other[i];
    }
    same
}

/// Whether a page has the very slots of a slotted page.
fn has_its_slots(known: &[u8], page: &[u8]) -> bool
    requires slotted { IsSlotted known.now }
    requires long { length page.now ≡ page_size }
    ensures { result ≡ true → IsSlotted page.now }
{
    let end = 8 + 4 * count_at(known);
    are_same(&known[..end], &page[..end])
}

/// Writes the slots of a slotted page over those of another.
fn take_slots(known: &mut [u8], page: &[u8])
    requires slotted { IsSlotted page.now }
    requires long { length known.old ≡ page_size }
    ensures { IsSlotted known.new }
{
    let end = 8 + 4 * count_at(page);
    known[..end].copy_from_slice(&page[..end]);
}

/// The slots of the page that was last found to be slotted. Whether a page is slotted is a matter of its slots alone, and
/// not of the bytes of its records: one with the very same slots is told by comparing them.
///
/// It is seen as what such a page holds, which says nothing of the pages that it is asked of.
#[derive(Drop)]
pub struct KnownSlots {
    page: PageBytes,
}

impl Model for KnownSlots {
    ghost Value = { List (Option (List ℕ)) };

    ghost view = { λ known. slots_of known.page.bytes };

    ghost invariant = { λ known. IsSlotted known.page.bytes };
}

impl KnownSlots {
    /// Those of a page without slots.
    pub fn new() -> KnownSlots {
        let mut page = PageBytes {
            bytes: [0; PAGE_SIZE],
        };
        begin(&mut page.bytes, 0);
        KnownSlots { page }
    }

    /// Whether the given bytes are a slotted page, as `is_page` tells.
    pub fn is_page(&mut self, page: &PageBytes) -> bool
        ensures yes { result ≡ true → IsSlotted page.now.bytes }
        ensures no { result ≡ false → IsSlotted page.now.bytes → ⊥ }
    {
        if has_its_slots(&self.page.bytes, &page.bytes) {
            return true;
        }
        if !is_slotted(&page.bytes) {
            return false;
        }
        take_slots(&mut self.page.bytes, &page.bytes);
        true
    }

    /// The record of a slot of a page with the given bytes, as `record_in` gives it.
    pub fn record<'a>(&mut self, page: &'a PageBytes, slot: u16) -> Option<&'a [u8]>
        ensures { MatchOption result
            (IsSlotted page.now.bytes → slice_index_or (slots_of page.now.bytes) slot None ≡ None)
            (λ bytes. IsSlotted page.now.bytes × (slice_index_or (slots_of page.now.bytes) slot None ≡ Some bytes.now)) }
    {
        if !self.is_page(page) {
            return None;
        }
        read_record(&page.bytes, slot as usize)
    }
}
