// A slotted page.
ghost use Rattle.nx_slots.specs.Edits.{free_in, growth_of, needed_for, without_record, HasRecord, IsOneOfSeveral, IsPut, IsSet};
ghost use Rattle.nx_slots.specs.Refusals.{LacksRoom};
ghost use Rattle.nx_slots.specs.Rooms.{HasRoom};
ghost use Rattle.nx_slots.specs.Slots.{slots_of, IsSlotted};
ghost use Rattle.std.specs.Prelude.{◌≡◌, ◌≤◌, ℕ, true, false, List, [], Option, Some, None, length, slice_index_or, IfErr, IfOk, OnOk, MatchOption};
ghost use Rattle.nx_numbers.specs.Sizes.{longest_record};

use crate::changes::{clear_record, is_one_of_several, put_by, put_record, set_record};
use crate::form::is_slotted;
use crate::packing::begin;
use crate::reads::{free_at, read_record};
use crate::room::{Room, room_of};
use nx_numbers::PAGE_SIZE;
use std::marker::Model;
use thiserror::Error;

/// The bytes of one page, in place.
#[derive(Clone, Copy, Debug)]
pub struct PageBytes {
    pub bytes: [u8; PAGE_SIZE],
}

/// The record of a slot of a page with the given bytes, without a copy of the page. There is none exactly
/// where the bytes are no slotted page, or the slot is empty or isn't there.
pub fn record_in(page: &PageBytes, slot: u16) -> Option<&[u8]>
    ensures { MatchOption result
        (IsSlotted page.now.bytes → slice_index_or (slots_of page.now.bytes) slot None ≡ None)
        (λ bytes. IsSlotted page.now.bytes × (slice_index_or (slots_of page.now.bytes) slot None ≡ Some bytes.now)) }
{
    if !is_slotted(&page.bytes) {
        return None;
    }
    read_record(&page.bytes, slot as usize)
}

/// Whether the given bytes are a slotted page.
pub fn is_page(page: &PageBytes) -> bool
    ensures yes { result ≡ true → IsSlotted page.now.bytes }
    ensures no { result ≡ false → IsSlotted page.now.bytes → ⊥ }
{
    is_slotted(&page.bytes)
}

/// What room a page with the given bytes has, found in the pass that tests it. There is none exactly where
/// the bytes are no slotted page.
pub fn room_in(page: &PageBytes) -> Option<Room>
    ensures { MatchOption result (IsSlotted page.now.bytes → ⊥) (λ room. HasRoom page.now.bytes room) }
{
    room_of(&page.bytes)
}

/// As `put_in`, of a page whose room is known: a record of 1 to 8,176 bytes. The page has another room afterwards.
///
/// Errors: `NoRoom` exactly where the record, and 4 bytes for a new slot, are more than is free. The page stays.
pub fn put_at(page: &mut PageBytes, room: Room, bytes: &[u8]) -> Result<u16, SlotsError>
    requires room { HasRoom page.old.bytes room }
    requires some { 1 ≤ length bytes.now }
    requires few { length bytes.now ≤ longest_record }
    ensures slotted { IsSlotted page.new.bytes }
    ensures ok { IfOk result (λ slot. IsPut (slots_of page.old.bytes) bytes.now slot (slots_of page.new.bytes)) }
    ensures no_room { IfErr result (λ e.
        LacksRoom (slots_of page.old.bytes) (needed_for (slots_of page.old.bytes) bytes.now) e
        × (page.new ≡ page.old)) }
{
    put_by(&mut page.bytes, room, bytes)
}

/// As `Page::put`, of a page with the given bytes, without a copy of the page.
pub fn put_in(page: &mut PageBytes, bytes: &[u8]) -> Result<u16, SlotsError>
    requires slotted { IsSlotted page.old.bytes }
    requires some { 1 ≤ length bytes.now }
    requires few { length bytes.now ≤ longest_record }
    ensures slotted { IsSlotted page.new.bytes }
    ensures ok { IfOk result (λ slot. IsPut (slots_of page.old.bytes) bytes.now slot (slots_of page.new.bytes)) }
    ensures no_room { IfErr result (λ e.
        LacksRoom (slots_of page.old.bytes) (needed_for (slots_of page.old.bytes) bytes.now) e
        × (page.new ≡ page.old)) }
{
    put_record(&mut page.bytes, bytes)
}

/// As `Page::read`, of a page with the given bytes, without a copy of the page.
pub fn read_in(page: &PageBytes, slot: u16) -> Option<&[u8]>
    requires { IsSlotted page.now.bytes }
    ensures { MatchOption result (slice_index_or (slots_of page.now.bytes) slot None ≡ None)
        (λ bytes. slice_index_or (slots_of page.now.bytes) slot None ≡ Some bytes.now) }
{
    read_record(&page.bytes, slot as usize)
}

/// As `Page::set`, of a page with the given bytes, without a copy of the page.
pub fn set_in(page: &mut PageBytes, slot: u16, bytes: &[u8]) -> Result<(), SlotsError>
    requires slotted { IsSlotted page.old.bytes }
    requires there { HasRecord (slots_of page.old.bytes) slot }
    requires some { 1 ≤ length bytes.now }
    requires few { length bytes.now ≤ longest_record }
    ensures slotted { IsSlotted page.new.bytes }
    ensures ok { OnOk result (IsSet (slots_of page.old.bytes) slot bytes.now (slots_of page.new.bytes)) }
    ensures no_room { IfErr result (λ e.
        LacksRoom (slots_of page.old.bytes) (growth_of (slots_of page.old.bytes) slot bytes.now) e
        × (page.new ≡ page.old)) }
{
    set_record(&mut page.bytes, slot as usize, bytes)
}

/// How many bytes of a page with the given bytes are free, as `Page::free_bytes` has it.
pub fn free_bytes_in(page: &PageBytes) -> u32
    requires { IsSlotted page.now.bytes }
    ensures { result ≡ free_in (slots_of page.now.bytes) }
{
    free_at(&page.bytes) as u32
}

/// Whether a page with the given bytes is slotted, and has a record in a slot and another one besides.
pub fn has_beside(page: &PageBytes, slot: u16) -> bool
    ensures yes { result ≡ true → IsSlotted page.now.bytes × IsOneOfSeveral (slots_of page.now.bytes) slot }
    ensures no { result ≡ false → IsSlotted page.now.bytes → IsOneOfSeveral (slots_of page.now.bytes) slot → ⊥ }
{
    is_slotted(&page.bytes) && is_one_of_several(&page.bytes, slot as usize)
}

/// As `Page::clear`, of a page with the given bytes, without a copy of the page.
pub fn clear_in(page: &mut PageBytes, slot: u16)
    requires slotted { IsSlotted page.old.bytes }
    requires there { HasRecord (slots_of page.old.bytes) slot }
    ensures slotted { IsSlotted page.new.bytes }
    ensures now { slots_of page.new.bytes ≡ without_record (slots_of page.old.bytes) slot }
{
    clear_record(&mut page.bytes, slot as usize);
}

/// Why a page didn't take a record.
#[derive(Clone, Copy, Debug, PartialEq, Eq, Error)]
pub enum SlotsError {
    /// More bytes are needed than are free.
    #[error("{needed} bytes are needed and {free} are free")]
    NoRoom {
        /// How many bytes are needed, with those of a new slot.
        needed: u32,
        /// How many bytes are free.
        free: u32,
    },
}

/// A slotted page, seen as what its slots hold.
#[derive(Drop)]
pub struct Page {
    page: PageBytes,
}

impl Model for Page {
    ghost Value = { List (Option (List ℕ)) };

    ghost view = { λ p. slots_of p.page.bytes };

    ghost invariant = { λ p. IsSlotted p.page.bytes };
}

impl Page {
    /// A page without slots.
    pub fn new() -> Page
        ensures { result ≡ [] }
    {
        let mut page = PageBytes {
            bytes: [0; PAGE_SIZE],
        };
        begin(&mut page.bytes, 0);
        Page { page }
    }

    /// The page of the given bytes, and none exactly where they are no slotted page. Records may lie in
    /// any order and with holes between them.
    pub fn from_bytes(bytes: &PageBytes) -> Option<Page>
        ensures { MatchOption result (IsSlotted bytes.now.bytes → ⊥)
            (λ page. IsSlotted bytes.now.bytes × (page ≡ slots_of bytes.now.bytes)) }
    {
        if is_slotted(&bytes.bytes) {
            Some(Page { page: *bytes })
        } else {
            None
        }
    }

    /// The page's bytes.
    pub fn bytes(&self) -> &PageBytes
        ensures slotted { IsSlotted result.now.bytes }
        ensures slots { slots_of result.now.bytes ≡ self.now }
    {
        &self.page
    }

    /// The record of a slot, and none where the slot is empty or isn't there.
    pub fn read(&self, slot: u16) -> Option<&[u8]>
        ensures { MatchOption result (slice_index_or self.now slot None ≡ None)
            (λ bytes. slice_index_or self.now slot None ≡ Some bytes.now) }
    {
        read_record(&self.page.bytes, slot as usize)
    }

    /// Puts a record of 1 to 8,176 bytes into the first empty slot, else into a new one, and answers which.
    ///
    /// Errors: `NoRoom` exactly where the record, and 4 bytes for a new slot, are more than is free. The
    /// page stays.
    pub fn put(&mut self, bytes: &[u8]) -> Result<u16, SlotsError>
        requires some { 1 ≤ length bytes.now }
        requires few { length bytes.now ≤ longest_record }
        ensures ok { IfOk result (λ slot. IsPut self.old bytes.now slot self.new) }
        ensures no_room { IfErr result (λ e.
            LacksRoom self.old (needed_for self.old bytes.now) e
            × (self.new ≡ self.old)) }
    {
        put_record(&mut self.page.bytes, bytes)
    }

    /// Puts another record of 1 to 8,176 bytes in the place of that of a slot, which has one.
    ///
    /// Errors: `NoRoom` exactly where it is longer by more bytes than are free. The page stays.
    pub fn set(&mut self, slot: u16, bytes: &[u8]) -> Result<(), SlotsError>
        requires there { HasRecord self.old slot }
        requires some { 1 ≤ length bytes.now }
        requires few { length bytes.now ≤ longest_record }
        ensures ok { IfOk result (λ _. IsSet self.old slot bytes.now self.new) }
        ensures no_room { IfErr result (λ e.
            LacksRoom self.old (growth_of self.old slot bytes.now) e
            × (self.new ≡ self.old)) }
    {
        set_record(&mut self.page.bytes, slot as usize, bytes)
    }

    /// Takes away the record of a slot, which has one, and then the empty slots at the end.
    pub fn clear(&mut self, slot: u16)
        requires { HasRecord self.old slot }
        ensures { self.new ≡ without_record self.old slot }
    {
        clear_record(&mut self.page.bytes, slot as usize);
    }

    /// How many bytes are free: 8,184 less 4 for each slot and less the records.
    pub fn free_bytes(&self) -> u32
        ensures { result ≡ free_in self.now }
    {
        free_at(&self.page.bytes) as u32
    }
}
