// Putting bytes in the place of as many of the catalog's, on the pages on which it stands.
ghost use Rattle.std.specs.Prelude.{List as Items, ◌≡◌, ◌≢◌, ◌+◌, ◌*◌, ◌≤◌, [], ℕ, length, true, false, Some, IfOk, IfErr, OnOk, slice_get};
ghost use Rattle.nx_numbers.specs.Sizes.{page_room};
ghost use Rattle.nx_host.specs.Disk.{Image};
ghost use Rattle.nx_host.specs.Still.{IsStill};
ghost use Rattle.nx_wal.specs.Wal.{IsInStep};
ghost use Rattle.nx_holdings.specs.Holdings.{Held, chain_count};
ghost use Rattle.nx_records.specs.Within.{patched};

use crate::{Records, StoreError};
use nx_host::Disk;
use nx_lists::{List, NoMemory};
use nx_numbers::PAGE_ROOM;
use std::alloc::Global;

// A content with other bytes in the place of as many of it, from an offset on.
fn patched_content(
    alloc: Global,
    content: &[u8],
    from: usize,
    bytes: &[u8],
) -> Result<List<u8>, NoMemory>
    requires { from + length bytes.now ≤ length content.now }
    ensures { IfOk result (λ made. made ≡ patched from bytes.now content.now) }
{
    let mut made = List::with_capacity(alloc, content.len())?;
    made.extend_from_slice(&content[..from])?;
    made.extend_from_slice(bytes)?;
    made.extend_from_slice(&content[from + bytes.len()..])?;
    Ok(made)
}

impl Records {
    ghost use Rattle.nx_records.specs.Records.{StandsFor, KeepsSaved, ComesTo, HasChanges, PutsChangedAlone, KeepsLog, has_ended, catalog_length_of, page_count_of};
    ghost use Rattle.nx_records.specs.Within.{KnowsCatalog, PatchesCatalog};
    ghost use Rattle.nx_records.specs.Room.{TakesNoPage};
    ghost use Rattle.nx_records.specs.Refusals.{NotChanged, RunsOn};
    ghost use Rattle.nx_records.specs.Pages.{HoldsSo};
    ghost use Rattle.nx_records.specs.Chains.{NoListFrom, NotListed};
    ghost use Rattle.nx_records.specs.Patching.{PatchesTo, PatchesAlone, PutsAt, NotPatched};

    /// How many bytes the catalog has, by the header. It takes no memory.
    pub fn catalog_length(&self) -> u64
        ensures { result ≡ catalog_length_of self.now }
    {
        self.head.catalog_length
    }

    /// Puts at most 8,184 bytes in the place of as many of the catalog's, from an offset on. The catalog keeps
    /// its pages and its other bytes, no page is taken or given back, and those pages alone wait for the commit
    /// whose bytes changed. At most two pages are read where it is known on which pages the catalog stands, as
    /// it is behind a call that went well, up to `abandon` and to `set_catalog`. Where it isn't, the catalog's
    /// chain pages are read besides, no more pages than the header counts.
    ///
    /// Errors: `Damaged` with page 0, only where the pages aren't sound; `Disk`, only where `faults` rose;
    /// `Ended` exactly where the records had ended; `Memory`, after which the caller calls `abandon`.
    pub fn change_catalog<D: Disk>(
        &mut self,
        alloc: Global,
        disk: &mut D,
        at: u64,
        bytes: &[u8],
    ) -> Result<(), StoreError>
        requires few { length bytes.now ≤ page_room }
        requires within { at + length bytes.now ≤ catalog_length_of self.old }
        ensures still { IsStill D.Disk disk.old disk.new }
        ensures reads { D.reads disk.new ≤ D.reads disk.old + (chain_count (catalog_length_of self.old) + 2) }
        ensures reads_pages { D.reads disk.new ≤ D.reads disk.old + (page_count_of self.old + 2) }
        ensures reads_two { KnowsCatalog self.old → D.reads disk.new ≤ D.reads disk.old + 2 }
        ensures known { OnOk result (KnowsCatalog self.new) }
        ensures ok { OnOk result (ComesTo D.Disk self.old self.new disk.old disk.new (λ was now. PatchesCatalog at bytes.now was now)) }
        ensures in_place { OnOk result (TakesNoPage self.old self.new × ((self.new.head).catalog ≡ (self.old.head).catalog)) }
        ensures alone { OnOk result ((saved now : Held) (stands : StandsFor D.Disk self.old disk.old saved now) → PutsChangedAlone self.old self.new (stands.keeps).image) }
        ensures keeps { OnOk result (RunsOn self.old self.new × KeepsSaved D.Disk self.old self.new disk.old disk.new × HasChanges self.new) }
        ensures refused { IfErr result (λ e. NotChanged D.Disk (λ was. ⊥) 0 e self.old self.new disk.old disk.new) }
    {
        if self.ended {
            return Err(StoreError::Ended);
        }
        self.know_catalog(alloc, disk)?;
        self.patch_catalog(alloc, disk, at, bytes)?;
        self.store_header()
    }

    // Finds on which pages the catalog stands, where that isn't known.
    fn know_catalog<D: Disk>(&mut self, alloc: Global, disk: &mut D) -> Result<(), StoreError>
        requires { has_ended self.old ≡ false }
        ensures still { IsStill D.Disk disk.old disk.new }
        ensures reads { D.reads disk.new ≤ D.reads disk.old + chain_count (catalog_length_of self.old) }
        ensures reads_pages { D.reads disk.new ≤ D.reads disk.old + page_count_of self.old }
        ensures reads_none { KnowsCatalog self.old → D.reads disk.new ≡ D.reads disk.old }
        ensures stays { OnOk result ((self.new.wal ≡ self.old.wal) × (self.new.saved ≡ self.old.saved) × (self.new.head ≡ self.old.head) × (has_ended self.new ≡ has_ended self.old)) }
        ensures known { OnOk result (KnowsCatalog self.new) }
        ensures ok { OnOk result ((saved now : Held) → StandsFor D.Disk self.old disk.old saved now → now.catalog.pages ≡ self.new.catalog_pages) }
        ensures refused { IfErr result (λ e. NotListed D.Disk (NoListFrom self.old.head.pages self.old.head.catalog (catalog_length_of self.old)) 0 e self.old self.new disk.old disk.new) }
    {
        if !self.catalog_pages.is_empty() {
            return Ok(());
        }
        let pages = self.find_catalog(alloc, disk)?;
        self.catalog_pages = pages;
        Ok(())
    }

    // The pages on which the catalog stands, in their order.
    fn find_catalog<D: Disk>(
        &mut self,
        alloc: Global,
        disk: &mut D,
    ) -> Result<List<u32>, StoreError>
        requires { has_ended self.old ≡ false }
        ensures still { IsStill D.Disk disk.old disk.new }
        ensures reads { D.reads disk.new ≤ D.reads disk.old + chain_count (catalog_length_of self.old) }
        ensures reads_pages { D.reads disk.new ≤ D.reads disk.old + page_count_of self.old }
        ensures some { IfOk result (λ pages. pages ≢ []) }
        ensures ok { IfOk result (λ pages. (self.new ≡ self.old) × HoldsSo D.Disk self.old disk.old (λ held. held.catalog.pages ≡ pages)) }
        ensures refused { IfErr result (λ e. NotListed D.Disk (NoListFrom self.old.head.pages self.old.head.catalog (catalog_length_of self.old)) 0 e self.old self.new disk.old disk.new) }
    {
        let Some(mut reader) = self.start_chain(self.head.catalog, self.head.catalog_length) else {
            return Err(self.damaged(0));
        };
        let mut pages = List::new(alloc);
        while reader.left > 0 {
            let Ok(()) = pages.push(reader.next) else {
                return Err(StoreError::Memory);
            };
            self.read_on(alloc, disk, &mut reader, 0)?;
        }
        Ok(pages)
    }

    // Puts bytes in the place of as many of the catalog's, whose pages are known.
    fn patch_catalog<D: Disk>(
        &mut self,
        alloc: Global,
        disk: &mut D,
        at: u64,
        bytes: &[u8],
    ) -> Result<(), StoreError>
        requires runs { has_ended self.old ≡ false }
        requires few { length bytes.now ≤ page_room }
        requires within { at + length bytes.now ≤ catalog_length_of self.old }
        ensures still { IsStill D.Disk disk.old disk.new }
        ensures reads { D.reads disk.new ≤ D.reads disk.old + 2 }
        ensures keeps { OnOk result (KeepsLog self.old self.new × (self.new.catalog_pages ≡ self.old.catalog_pages)) }
        ensures in_place { OnOk result (TakesNoPage self.old self.new × ((self.new.head).catalog ≡ (self.old.head).catalog)) }
        ensures ok { OnOk result (PatchesTo D.Disk self.old self.new disk.old self.old.catalog_pages at bytes.now) }
        ensures alone { OnOk result (PatchesAlone D.Disk self.old self.new disk.old self.old.catalog_pages) }
        ensures refused { IfErr result (λ e. NotPatched D.Disk self.old.catalog_pages e self.old self.new disk.old disk.new) }
    {
        let index = (at / PAGE_ROOM as u64) as usize;
        let from = (at % PAGE_ROOM as u64) as usize;
        let (front, rest) = bytes.split_at(bytes.len().min(PAGE_ROOM - from));
        self.patch_link(alloc, disk, index, from, front)?;
        self.patch_link(alloc, disk, index + 1, 0, rest)
    }

    // Puts bytes in the place of as many on the page of the catalog with this index, from an offset on.
    fn patch_link<D: Disk>(
        &mut self,
        alloc: Global,
        disk: &mut D,
        index: usize,
        from: usize,
        bytes: &[u8],
    ) -> Result<(), StoreError>
        requires runs { has_ended self.old ≡ false }
        requires few { from + length bytes.now ≤ page_room }
        requires within { 1 ≤ length bytes.now → index * page_room + (from + length bytes.now) ≤ catalog_length_of self.old }
        ensures still { IsStill D.Disk disk.old disk.new }
        ensures reads { D.reads disk.new ≤ D.reads disk.old + 1 }
        ensures keeps { OnOk result (KeepsLog self.old self.new × (self.new.catalog_pages ≡ self.old.catalog_pages)) }
        ensures in_place { OnOk result (TakesNoPage self.old self.new × ((self.new.head).catalog ≡ (self.old.head).catalog) × (catalog_length_of self.new ≡ catalog_length_of self.old)) }
        ensures ok { OnOk result (PatchesTo D.Disk self.old self.new disk.old self.old.catalog_pages (index * page_room + from) bytes.now) }
        ensures alone { OnOk result ((was : Image) → IsInStep D.Disk self.old.wal disk.old was → PutsAt self.old.catalog_pages index self.old self.new was) }
        ensures refused { IfErr result (λ e. NotPatched D.Disk self.old.catalog_pages e self.old self.new disk.old disk.new) }
    {
        if bytes.is_empty() {
            return Ok(());
        }
        let Some(page) = self.catalog_page(index) else {
            return Err(self.damaged(0));
        };
        let Some(mut room) = self.take_spare(alloc) else {
            return Err(StoreError::Memory);
        };
        let (next, had) = self.see_link(disk, page, 0, &mut room.page)?;
        if had.len() < from + bytes.len() {
            return Err(self.damaged(0));
        }
        let Ok(content) = patched_content(alloc, had, from, bytes) else {
            return Err(StoreError::Memory);
        };
        self.put_over(page, next, had, content.as_slice())?;
        self.give_spare(room);
        Ok(())
    }

    // The page of the catalog with this index, where its pages are known and so many.
    fn catalog_page(&self, index: usize) -> Option<u32>
        ensures { result ≡ slice_get self.now.catalog_pages index }
    {
        self.catalog_pages.as_slice().get(index).copied()
    }
}
