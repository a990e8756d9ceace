// Putting records into pages, and taking them out.
ghost use Rattle.std.specs.Prelude.{◌≡◌, ◌≢◌, ◌+◌, ◌<◌, ◌≤◌, ℕ, [], length, slice_index_or, true, false, Some, None, IfOk, IfErr, IfSome, IfNone, OnOk};
ghost use Rattle.nx_numbers.specs.Sizes.{longest_record};
ghost use Rattle.nx_host.specs.Disk.{Image};
ghost use Rattle.nx_host.specs.Still.{IsStill};
ghost use Rattle.nx_wal.specs.Wal.{current};
ghost use Rattle.nx_slots.specs.Edits.{HasRecord};
ghost use Rattle.nx_slots.specs.Slots.{slots_of, IsSlotted};

use crate::{Records, Rid, StoreError};
use nx_host::Disk;
use nx_numbers::{PAGE_ROOM, PAGE_SIZE};
use nx_slots::{Page, PageBytes, clear_in, free_bytes_in, put_in, read_in, set_in};

// Whether these bytes are the record of a slot of a page.
fn is_there(page: &PageBytes, slot: u16, bytes: &[u8]) -> bool
    requires { IsSlotted page.now.bytes }
    ensures yes { result ≡ true → slice_index_or (slots_of page.now.bytes) slot None ≡ Some bytes.now }
    ensures no { result ≡ false → slice_index_or (slots_of page.now.bytes) slot None ≢ Some bytes.now }
{
    match read_in(page, slot) {
        Some(old) => old == bytes,
        None => false,
    }
}

impl Records {
    ghost use Rattle.nx_records.specs.Records.{has_ended, KeepsLog, KeepsSaved, ComesTo, HasChanges};
    ghost use Rattle.nx_records.specs.Refusals.{NotChanged, RunsOn};
    ghost use Rattle.nx_records.specs.Changes.{AddsRecord, RemovesRecord, UpdatesRecord, update_needs};
    ghost use Rattle.nx_records.specs.Room.{FitsRoom, HasRoomFor, TakesNoPage};
    ghost use Rattle.nx_records.specs.Pages.{HasSlots, SeesSo, StepsTo, NotPut};

    // Takes a record out of a slotted page, which is given back where that was its last.
    pub(crate) fn drop_record<D: Disk>(
        &mut self,
        disk: &D,
        page: &mut PageBytes,
        rid: Rid,
    ) -> Result<(), StoreError>
        requires runs { has_ended self.old ≡ false }
        requires low { rid.page < self.old.head.pages }
        requires slotted { IsSlotted page.old.bytes }
        requires there { HasRecord (slots_of page.old.bytes) rid.slot }
        ensures keeps { KeepsLog self.old self.new }
        ensures ok { OnOk result (SeesSo D.Disk self.old disk.now (λ pages. HasSlots pages rid.page (slots_of page.old.bytes)) → StepsTo D.Disk self.old self.new disk.now (λ was now. RemovesRecord rid.page rid.slot was now)) }
        ensures refused { IfErr result (λ e. e ≡ StoreError.Memory) }
    {
        clear_in(page, rid.slot);
        if free_bytes_in(page) == PAGE_ROOM as u32 {
            self.release(rid.page)
        } else {
            self.store(rid.page, page)
        }
    }

    // Takes a record out in place, where its page waits for a commit and has another one.
    pub(crate) fn clear_waiting<D: Disk>(&mut self, disk: &D, rid: Rid) -> bool
        requires { has_ended self.old ≡ false }
        ensures cleared { result ≡ true → KeepsLog self.old self.new × StepsTo D.Disk self.old self.new disk.now (λ was now. RemovesRecord rid.page rid.slot was now) }
        ensures none { result ≡ false → self.new ≡ self.old }
    {
        if rid.page == 0 || rid.page >= self.head.pages {
            return false;
        }
        self.wal.clear_record(rid.page, rid.slot)
    }

    // Reads the page of a record, takes the record out, and makes the page and the header wait.
    pub(crate) fn remove_loaded<D: Disk>(
        &mut self,
        disk: &mut D,
        rid: Rid,
    ) -> Result<(), StoreError>
        requires { has_ended self.old ≡ false }
        ensures still { IsStill D.Disk disk.old disk.new }
        ensures ok { OnOk result (ComesTo D.Disk self.old self.new disk.old disk.new (λ was now. RemovesRecord rid.page rid.slot was now)) }
        ensures keeps { OnOk result (RunsOn self.old self.new × KeepsSaved D.Disk self.old self.new disk.old disk.new × HasChanges self.new) }
        ensures refused { IfErr result (λ e. NotChanged D.Disk (λ was. was.records rid.page rid.slot ≡ None) rid.page e self.old self.new disk.old disk.new) }
    {
        let mut page = PageBytes {
            bytes: [0; PAGE_SIZE],
        };
        self.load_slotted(disk, rid.page, rid.page, &mut page)?;
        let Some(_) = read_in(&page, rid.slot) else {
            return Err(self.damaged(rid.page));
        };
        self.drop_record(disk, &mut page, rid)?;
        self.store_header()
    }

    // Puts a record into the room page in place, where that waits for a commit and the record fits.
    fn put_waiting<D: Disk>(&mut self, disk: &D, bytes: &[u8]) -> Option<Rid>
        requires runs { has_ended self.old ≡ false }
        requires there { self.old.head.room ≢ 0 }
        requires some { 1 ≤ length bytes.now }
        requires few { length bytes.now ≤ longest_record }
        ensures put { IfSome result (λ rid. KeepsLog self.old self.new × StepsTo D.Disk self.old self.new disk.now (λ was now. AddsRecord rid.page rid.slot bytes.now was now)) }
        ensures none { IfNone result (self.new ≡ self.old) }
        ensures head { self.new.head ≡ self.old.head }
        ensures fits { IfSome result (λ rid. (was : Image) → FitsRoom (current self.old.wal was) self.old.head bytes.now) }
    {
        let room = self.head.room;
        match self.wal.put_record(room, bytes) {
            Some(slot) => Some(Rid { page: room, slot }),
            None => None,
        }
    }

    // Reads the room page and puts a record into it, where the record fits.
    fn put_loaded<D: Disk>(
        &mut self,
        disk: &mut D,
        bytes: &[u8],
        named: u32,
    ) -> Result<Option<Rid>, StoreError>
        requires runs { has_ended self.old ≡ false }
        requires there { self.old.head.room ≢ 0 }
        requires some { 1 ≤ length bytes.now }
        requires few { length bytes.now ≤ longest_record }
        ensures still { IsStill D.Disk disk.old disk.new }
        ensures ok { IfOk result (λ found. IfSome found (λ rid. KeepsLog self.old self.new × StepsTo D.Disk self.old self.new disk.old (λ was now. AddsRecord rid.page rid.slot bytes.now was now))) }
        ensures none { IfOk result (λ found. IfNone found (self.new ≡ self.old)) }
        ensures takes { IfOk result (λ found. IfSome found (λ rid. TakesNoPage self.old self.new)) }
        ensures fits { IfOk result (λ found. IfSome found (λ rid. SeesSo D.Disk self.old disk.old (λ pages. FitsRoom pages self.old.head bytes.now))) }
        ensures full { IfOk result (λ found. IfNone found (SeesSo D.Disk self.old disk.old (λ pages. FitsRoom pages self.old.head bytes.now → ⊥))) }
        ensures refused { IfErr result (λ e. NotPut D.Disk (λ held. ⊥) named e self.old self.new disk.old disk.new) }
        ensures memory { IfErr result (λ e. e ≡ StoreError.Memory → SeesSo D.Disk self.old disk.old (λ pages. FitsRoom pages self.old.head bytes.now)) }
    {
        let room = self.head.room;
        let mut page = PageBytes {
            bytes: [0; PAGE_SIZE],
        };
        self.load_slotted(disk, room, named, &mut page)?;
        let Ok(slot) = put_in(&mut page, bytes) else {
            return Ok(None);
        };
        self.store(room, &page)?;
        Ok(Some(Rid { page: room, slot }))
    }

    // Puts a record into the room page, where there is one and the record fits.
    fn put_in_room<D: Disk>(
        &mut self,
        disk: &mut D,
        bytes: &[u8],
        named: u32,
    ) -> Result<Option<Rid>, StoreError>
        requires runs { has_ended self.old ≡ false }
        requires some { 1 ≤ length bytes.now }
        requires few { length bytes.now ≤ longest_record }
        ensures still { IsStill D.Disk disk.old disk.new }
        ensures ok { IfOk result (λ found. IfSome found (λ rid. KeepsLog self.old self.new × StepsTo D.Disk self.old self.new disk.old (λ was now. AddsRecord rid.page rid.slot bytes.now was now))) }
        ensures none { IfOk result (λ found. IfNone found (self.new ≡ self.old)) }
        ensures takes { IfOk result (λ found. IfSome found (λ rid. TakesNoPage self.old self.new)) }
        ensures fits { IfOk result (λ found. IfSome found (λ rid. SeesSo D.Disk self.old disk.old (λ pages. FitsRoom pages self.old.head bytes.now))) }
        ensures full { IfOk result (λ found. IfNone found (SeesSo D.Disk self.old disk.old (λ pages. FitsRoom pages self.old.head bytes.now → ⊥))) }
        ensures refused { IfErr result (λ e. NotPut D.Disk (λ held. ⊥) named e self.old self.new disk.old disk.new) }
        ensures memory { IfErr result (λ e. e ≡ StoreError.Memory → SeesSo D.Disk self.old disk.old (λ pages. FitsRoom pages self.old.head bytes.now)) }
    {
        if self.head.room == 0 {
            return Ok(None);
        }
        if let Some(rid) = self.put_waiting(disk, bytes) {
            return Ok(Some(rid));
        }
        self.put_loaded(disk, bytes, named)
    }

    // Puts a record into the room page, or else into one that was free, which becomes the room page.
    pub(crate) fn place<D: Disk>(
        &mut self,
        disk: &mut D,
        bytes: &[u8],
        named: u32,
    ) -> Result<Rid, StoreError>
        requires runs { has_ended self.old ≡ false }
        requires some { 1 ≤ length bytes.now }
        requires few { length bytes.now ≤ longest_record }
        ensures still { IsStill D.Disk disk.old disk.new }
        ensures ok { IfOk result (λ rid. KeepsLog self.old self.new × StepsTo D.Disk self.old self.new disk.old (λ was now. AddsRecord rid.page rid.slot bytes.now was now)) }
        ensures room { IfOk result (λ rid. SeesSo D.Disk self.old disk.old (λ pages. FitsRoom pages self.old.head bytes.now → TakesNoPage self.old self.new)) }
        ensures has_room { IfOk result (λ rid. SeesSo D.Disk self.old disk.old (λ pages. HasRoomFor self.old pages bytes.now)) }
        ensures refused { IfErr result (λ e. NotPut D.Disk (λ held. held.free ≡ 0) named e self.old self.new disk.old disk.new) }
        ensures memory { IfErr result (λ e. e ≡ StoreError.Memory → SeesSo D.Disk self.old disk.old (λ pages. HasRoomFor self.old pages bytes.now)) }
    {
        if let Some(rid) = self.put_in_room(disk, bytes, named)? {
            return Ok(rid);
        }
        let page = self.take(disk, named)?;
        let mut slots = Page::new();
        let Ok(slot) = slots.put(bytes) else {
            unreachable!();
        };
        self.store(page, slots.bytes())?;
        self.head.room = page;
        Ok(Rid { page, slot })
    }

    // Puts bytes in the place of a record of a slotted page, or elsewhere where they don't fit. Where they are
    // the same nothing is done.
    pub(crate) fn replace<D: Disk>(
        &mut self,
        disk: &mut D,
        page: &mut PageBytes,
        rid: Rid,
        bytes: &[u8],
    ) -> Result<Rid, StoreError>
        requires runs { has_ended self.old ≡ false }
        requires low { rid.page < self.old.head.pages }
        requires slotted { IsSlotted page.old.bytes }
        requires there { HasRecord (slots_of page.old.bytes) rid.slot }
        requires some { 1 ≤ length bytes.now }
        requires few { length bytes.now ≤ longest_record }
        ensures still { IsStill D.Disk disk.old disk.new }
        ensures keeps { IfOk result (λ place. KeepsLog self.old self.new) }
        ensures alone { IfOk result (λ place. slice_index_or (slots_of page.old.bytes) rid.slot None ≡ Some bytes.now → self.new ≡ self.old) }
        ensures ok { IfOk result (λ place. SeesSo D.Disk self.old disk.old (λ pages. HasSlots pages rid.page (slots_of page.old.bytes))
            → StepsTo D.Disk self.old self.new disk.old (λ was now. UpdatesRecord rid.page rid.slot bytes.now place.page place.slot was now)) }
        ensures refused { IfErr result (λ e. SeesSo D.Disk self.old disk.old (λ pages. HasSlots pages rid.page (slots_of page.old.bytes))
            → NotPut D.Disk (λ held. held.free < update_needs rid.page rid.slot bytes.now held) rid.page e self.old self.new disk.old disk.new) }
    {
        if is_there(page, rid.slot, bytes) {
            return Ok(rid);
        }
        match set_in(page, rid.slot, bytes) {
            Ok(()) => {
                self.store(rid.page, page)?;
                Ok(rid)
            }
            Err(_) => {
                self.drop_record(disk, page, rid)?;
                self.place(disk, bytes, rid.page)
            }
        }
    }
}
