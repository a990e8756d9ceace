// Reading pages, taking them and giving them back.
ghost use Rattle.std.specs.Prelude.{◌≡◌, ◌≢◌, ◌+◌, ◌<◌, ◌≤◌, ℕ, [], true, false, Some, None, IsSome, IfOk, IfErr, OnOk, MatchOption};
ghost use Rattle.nx_numbers.specs.Sizes.{most_pages};
ghost use Rattle.nx_host.specs.Disk.{Image};
ghost use Rattle.nx_host.specs.Still.{IsStill};
ghost use Rattle.nx_replay.specs.Log.{entry_pages};
ghost use Rattle.nx_wal.specs.Wal.{IsInStep, current, pending};
ghost use Rattle.nx_wal.specs.Reading.{page_found};
ghost use Rattle.nx_holdings.specs.Header.{header_bytes};
ghost use Rattle.nx_holdings.specs.Holdings.{with_page, free_bytes};
ghost use Rattle.nx_slots.specs.Slots.{slots_of, IsSlotted};
ghost use Rattle.nx_records.specs.Numbering.{IsNextHeader, number_behind as behind};
ghost use Rattle.nx_records.specs.Pages.{numbered, SlotGives};

use crate::{Records, Rid, StoreError};
use nx_holdings::{Header, NEWEST_FORMAT, free_page, header_page, read_free_page};
use nx_host::Disk;
use nx_lists::List;
use nx_numbers::PAGE_SIZE;
use nx_slots::{KnownSlots, PageBytes, is_page};
use std::alloc::Global;

// The number of the group behind one with this number.
fn number_behind(number: u64) -> u64
    ensures { result ≡ behind number }
{
    if number == 18_446_744_073_709_551_615 {
        0
    } else {
        number + 1
    }
}

// Makes a header that of the next commit: its group has the number behind this one, and it writes the newest format.
fn begin(header: &mut Header, last: u64)
    ensures { header.new ≡ numbered (behind last) header.old }
{
    header.format = NEWEST_FORMAT;
    header.number = number_behind(last);
}

// Whether a header is this one.
fn is_header(known: Option<Header>, header: Header) -> bool
    ensures { result ≡ true → known ≡ Some header }
{
    known == Some(header)
}

// The header whose page is known to wait, once this page was put.
fn known_beside(page: u32, known: Option<Header>) -> Option<Header>
    ensures here { page ≡ 0 → result ≡ None }
    ensures elsewhere { page ≢ 0 → result ≡ known }
{
    if page == 0 { None } else { known }
}

// A copy of the record of a slot of a page, where the page is slotted and the slot has one.
fn copy_record(
    alloc: Global,
    page: &PageBytes,
    slot: u16,
    known: &mut KnownSlots,
) -> Result<Option<List<u8>>, StoreError>
    ensures ok { IfOk result (λ found. SlotGives page.now.bytes slot found) }
    ensures refused { IfErr result (λ e. e ≡ StoreError.Memory) }
{
    let Some(bytes) = known.record(page, slot) else {
        return Ok(None);
    };
    match List::from_slice(alloc, bytes) {
        Ok(bytes) => Ok(Some(bytes)),
        Err(_) => Err(StoreError::Memory),
    }
}

// Room for a page that is read, whatever stands there, and the slots of the page of which a record was read last: the next
// record is most often one of the same page.
#[derive(Drop)]
pub(crate) struct Spare {
    pub(crate) page: PageBytes,
    known: KnownSlots,
}

// New room for a page, where there is memory.
fn new_spare(alloc: Global) -> Option<Box<Spare>> {
    let spare = Spare {
        page: PageBytes {
            bytes: [0; PAGE_SIZE],
        },
        known: KnownSlots::new(),
    };
    Box::new(alloc, spare).ok()
}

impl Records {
    ghost use Rattle.nx_records.specs.Records.{has_ended, KeepsLog, has_free, next_number, waiting};
    ghost use Rattle.nx_records.specs.Pages.{HasSlots, IsFreeAt, SeesSo, PlaceGives, NotSeen, NotLoaded, NotFound, NotTaken, IsPageTaken, IsFirstUnused, PutsPage, released};

    // Ends the records, and answers that the page that a call names is damaged.
    pub(crate) fn damaged(&mut self, page: u32) -> StoreError
        ensures result { result ≡ StoreError.Damaged page }
        ensures ended { (has_ended self.new ≡ true) × (self.new.wal ≡ self.old.wal) × (self.new.saved ≡ self.old.saved) × (self.new.head ≡ self.old.head) }
    {
        self.ended = true;
        StoreError::Damaged { page }
    }

    // Room for a page, whatever stands there: what was given back last, else new room. There is none for want of memory.
    pub(crate) fn take_spare(&self, alloc: Global) -> Option<Box<Spare>> {
        match self.spare.take() {
            Some(spare) => Some(spare),
            None => new_spare(alloc),
        }
    }

    // Gives room for a page back.
    pub(crate) fn give_spare(&self, spare: Box<Spare>) {
        self.spare.set(Some(spare));
    }

    // Reads a page, where one is there.
    pub(crate) fn load<D: Disk>(
        &mut self,
        disk: &mut D,
        page: u32,
        into: &mut PageBytes,
    ) -> Result<bool, StoreError>
        requires { has_ended self.old ≡ false }
        ensures still { IsStill D.Disk disk.old disk.new }
        ensures reads { D.reads disk.new ≤ D.reads disk.old + 1 }
        ensures waits { IsSome (entry_pages (pending self.old.wal) page) → disk.new ≡ disk.old }
        ensures ok { IfOk result (λ found. (self.new ≡ self.old) × SeesSo D.Disk self.old disk.old (λ pages. pages page ≡ page_found found into.new.bytes)) }
        ensures refused { IfErr result (λ e. NotLoaded D.Disk e self.old self.new disk.old disk.new) }
    {
        let Ok(found) = self.wal.load(disk, page, into) else {
            self.ended = true;
            return Err(StoreError::Disk);
        };
        Ok(found)
    }

    // A copy of the record of a place, where one is there. Of a page that waits for a commit nothing else is copied.
    pub(crate) fn record_at<D: Disk>(
        &mut self,
        alloc: Global,
        disk: &mut D,
        rid: Rid,
    ) -> Result<Option<List<u8>>, StoreError>
        requires { has_ended self.old ≡ false }
        ensures still { IsStill D.Disk disk.old disk.new }
        ensures reads { D.reads disk.new ≤ D.reads disk.old + 1 }
        ensures waits { IsSome (entry_pages (pending self.old.wal) rid.page) → disk.new ≡ disk.old }
        ensures ok { IfOk result (λ found. (self.new ≡ self.old) × SeesSo D.Disk self.old disk.old (λ pages. PlaceGives pages rid.page rid.slot found)) }
        ensures refused { IfErr result (λ e. NotSeen D.Disk e self.old self.new disk.old disk.new) }
    {
        let Some(mut spare) = self.take_spare(alloc) else {
            return Err(StoreError::Memory);
        };
        let found = self.copy_by(alloc, disk, rid, spare.as_mut())?;
        self.give_spare(spare);
        Ok(found)
    }

    // As `record_at`, by way of this room.
    fn copy_by<D: Disk>(
        &mut self,
        alloc: Global,
        disk: &mut D,
        rid: Rid,
        spare: &mut Spare,
    ) -> Result<Option<List<u8>>, StoreError>
        requires { has_ended self.old ≡ false }
        ensures still { IsStill D.Disk disk.old disk.new }
        ensures reads { D.reads disk.new ≤ D.reads disk.old + 1 }
        ensures waits { IsSome (entry_pages (pending self.old.wal) rid.page) → disk.new ≡ disk.old }
        ensures ok { IfOk result (λ found. (self.new ≡ self.old) × SeesSo D.Disk self.old disk.old (λ pages. PlaceGives pages rid.page rid.slot found)) }
        ensures refused { IfErr result (λ e. NotSeen D.Disk e self.old self.new disk.old disk.new) }
    {
        if let Some(page) = self.wal.waiting(rid.page) {
            return copy_record(alloc, page, rid.slot, &mut spare.known);
        }
        if !self.load(disk, rid.page, &mut spare.page)? {
            return Ok(None);
        }
        copy_record(alloc, &spare.page, rid.slot, &mut spare.known)
    }

    // Reads the page with this number, which is there and which the header counts.
    pub(crate) fn load_used<D: Disk>(
        &mut self,
        disk: &mut D,
        page: u32,
        named: u32,
        into: &mut PageBytes,
    ) -> Result<(), StoreError>
        requires { has_ended self.old ≡ false }
        ensures still { IsStill D.Disk disk.old disk.new }
        ensures reads { D.reads disk.new ≤ D.reads disk.old + 1 }
        ensures waits { IsSome (entry_pages (pending self.old.wal) page) → disk.new ≡ disk.old }
        ensures ok { OnOk result ((self.new ≡ self.old) × (page < self.old.head.pages) × SeesSo D.Disk self.old disk.old (λ pages. pages page ≡ Some into.new.bytes)) }
        ensures refused { IfErr result (λ e. NotFound D.Disk (λ pages. page < self.old.head.pages → pages page ≡ None) named e self.old self.new disk.old disk.new) }
    {
        if page >= self.head.pages {
            return Err(self.damaged(named));
        }
        if !self.load(disk, page, into)? {
            return Err(self.damaged(named));
        }
        Ok(())
    }

    // Reads the slotted page with this number.
    pub(crate) fn load_slotted<D: Disk>(
        &mut self,
        disk: &mut D,
        page: u32,
        named: u32,
        into: &mut PageBytes,
    ) -> Result<(), StoreError>
        requires { has_ended self.old ≡ false }
        ensures still { IsStill D.Disk disk.old disk.new }
        ensures reads { D.reads disk.new ≤ D.reads disk.old + 1 }
        ensures ok { OnOk result ((self.new ≡ self.old) × (page < self.old.head.pages) × IsSlotted into.new.bytes
            × SeesSo D.Disk self.old disk.old (λ pages. pages page ≡ Some into.new.bytes)) }
        ensures slots { OnOk result (SeesSo D.Disk self.old disk.old (λ pages. HasSlots pages page (slots_of into.new.bytes))) }
        ensures refused { IfErr result (λ e. NotFound D.Disk (λ pages. page < self.old.head.pages → (slots : _) → HasSlots pages page slots → ⊥) named e self.old self.new disk.old disk.new) }
    {
        self.load_used(disk, page, named, into)?;
        if !is_page(into) {
            return Err(self.damaged(named));
        }
        Ok(())
    }

    // Makes a page wait for the next commit, and the header that commit's.
    pub(crate) fn store(&mut self, page: u32, bytes: &PageBytes) -> Result<(), StoreError>
        requires runs { has_ended self.old ≡ false }
        requires low { page < most_pages }
        ensures keeps { KeepsLog self.old self.new }
        ensures ok { OnOk result ((self.new.head ≡ numbered (next_number self.old) self.old.head) × (pending self.new.wal ≢ [])
            × ((was : Image) → current self.new.wal was ≡ with_page (current self.old.wal was) page bytes.now.bytes)) }
        ensures waits { OnOk result (entry_pages (pending self.new.wal) page ≡ Some bytes.now.bytes) }
        ensures puts { OnOk result (PutsPage page bytes.now.bytes self.old self.new) }
        ensures known { self.new.catalog_pages ≡ self.old.catalog_pages }
        ensures refused { IfErr result (λ e. e ≡ StoreError.Memory) }
    {
        let Ok(_) = self.wal.put(page, bytes) else {
            return Err(StoreError::Memory);
        };
        self.waiting_head = known_beside(page, self.waiting_head);
        begin(&mut self.head, self.saved.number);
        Ok(())
    }

    // Makes the header wait for the next commit. Its page is made and put only where another one waits.
    pub(crate) fn store_header(&mut self) -> Result<(), StoreError>
        requires runs { has_ended self.old ≡ false }
        ensures keeps { KeepsLog self.old self.new }
        ensures ok { OnOk result ((self.new.head ≡ numbered (next_number self.old) self.old.head) × (pending self.new.wal ≢ [])
            × ((was : Image) → current self.new.wal was ≡ with_page (current self.old.wal was) 0 (header_bytes self.new.head))) }
        ensures beside { OnOk result ((p : ℕ) → p ≢ 0 → waiting self.new p ≡ waiting self.old p) }
        ensures known { self.new.catalog_pages ≡ self.old.catalog_pages }
        ensures refused { IfErr result (λ e. e ≡ StoreError.Memory) }
    {
        begin(&mut self.head, self.saved.number);
        if is_header(self.waiting_head, self.head) {
            return Ok(());
        }
        self.put_header()
    }

    // Makes the page of the header wait, which is the next commit's.
    fn put_header(&mut self) -> Result<(), StoreError>
        requires runs { has_ended self.old ≡ false }
        requires next { IsNextHeader self.old.saved self.old.head }
        ensures keeps { KeepsLog self.old self.new }
        ensures ok { OnOk result ((self.new.head ≡ self.old.head) × (pending self.new.wal ≢ [])
            × ((was : Image) → current self.new.wal was ≡ with_page (current self.old.wal was) 0 (header_bytes self.new.head))) }
        ensures beside { OnOk result ((p : ℕ) → p ≢ 0 → waiting self.new p ≡ waiting self.old p) }
        ensures known { self.new.catalog_pages ≡ self.old.catalog_pages }
        ensures refused { IfErr result (λ e. e ≡ StoreError.Memory) }
    {
        let page = header_page(&self.head);
        self.store(0, &page)?;
        self.waiting_head = Some(self.head);
        Ok(())
    }

    // A page that was free: the first of the free list, else the first that was never used.
    pub(crate) fn take<D: Disk>(&mut self, disk: &mut D, named: u32) -> Result<u32, StoreError>
        requires { has_ended self.old ≡ false }
        ensures still { IsStill D.Disk disk.old disk.new }
        ensures reads { D.reads disk.new ≤ D.reads disk.old + 1 }
        ensures keeps { IfOk result (λ page. KeepsLog self.old self.new × (self.new.wal ≡ self.old.wal) × (page < most_pages)) }
        ensures ok { IfOk result (λ page. SeesSo D.Disk self.old disk.old (λ pages. IsPageTaken pages page self.old.head self.new.head)) }
        ensures free { IfOk result (λ page. has_free self.old ≡ true) }
        ensures refused { IfErr result (λ e. NotTaken D.Disk named e self.old self.new disk.old disk.new) }
    {
        let page = self.head.free;
        if page == 0 {
            return self.take_new();
        }
        if page >= self.head.pages {
            return Err(self.damaged(named));
        }
        let mut bytes = PageBytes {
            bytes: [0; PAGE_SIZE],
        };
        if !self.load(disk, page, &mut bytes)? {
            return Err(self.damaged(named));
        }
        let Some(next) = read_free_page(&bytes) else {
            return Err(self.damaged(named));
        };
        self.head.free = next;
        Ok(page)
    }

    // The first page that was never used.
    fn take_new(&mut self) -> Result<u32, StoreError>
        requires none { self.old.head.free ≡ 0 }
        requires runs { has_ended self.old ≡ false }
        ensures ok { IfOk result (λ page. KeepsLog self.old self.new × (self.new.wal ≡ self.old.wal) × (page < most_pages) × IsFirstUnused page self.old.head self.new.head) }
        ensures free { IfOk result (λ page. has_free self.old ≡ true) }
        ensures refused { IfErr result (λ e. (e ≡ StoreError.Full) × (self.new ≡ self.old) × (has_free self.old ≡ false)) }
    {
        let page = self.head.pages;
        if page >= self.head.settings.limit {
            return Err(StoreError::Full);
        }
        self.head.pages = page + 1;
        Ok(page)
    }

    // Gives a page back to the free list.
    pub(crate) fn release(&mut self, page: u32) -> Result<(), StoreError>
        requires runs { has_ended self.old ≡ false }
        requires low { page < most_pages }
        ensures keeps { KeepsLog self.old self.new }
        ensures ok { OnOk result ((self.new.head ≡ numbered (next_number self.old) (released page self.old.head)) × (pending self.new.wal ≢ [])
            × ((was : Image) → current self.new.wal was ≡ with_page (current self.old.wal was) page (free_bytes self.old.head.free))) }
        ensures refused { IfErr result (λ e. e ≡ StoreError.Memory) }
    {
        let free = free_page(self.head.free);
        self.store(page, &free)?;
        self.head.free = page;
        if self.head.room == page {
            self.head.room = 0;
        }
        Ok(())
    }
}
