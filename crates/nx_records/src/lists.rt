// Byte lists on chain pages, and the catalog.
ghost use Rattle.std.specs.Prelude.{List as Items, ◌≡◌, ◌≢◌, ◌+◌, ◌≤◌, [], ℕ, length, true, false, Some, None, IfOk, IfErr, OnOk};
ghost use Rattle.nx_host.specs.Disk.{Image};
ghost use Rattle.nx_host.specs.Still.{IsStill};
ghost use Rattle.nx_holdings.specs.Holdings.{Held, chain_count};
ghost use Rattle.nx_links.specs.Lists.{IsListFrom, IsNamed};

use crate::{Records, StoreError};
use nx_host::Disk;
use nx_lists::List;
use std::alloc::Global;

impl Records {
    ghost use Rattle.nx_records.specs.Records.{StandsFor, KeepsSaved, LeavesRecords, ComesTo, HasChanges, IsInStepWith, PutsChangedAlone, current_pages, has_ended, has_free, catalog_length_of, page_count_of};
    ghost use Rattle.nx_records.specs.Changes.{LacksList, HasListFrom, IsListRead, WritesList, FreesList, ChangesList, SetsCatalog, catalog_needs};
    ghost use Rattle.nx_records.specs.Room.{TakesNoPage};
    ghost use Rattle.nx_records.specs.Refusals.{NotRead, NotChanged, NotStored, RunsOn};

    /// The byte list of so many bytes at a first page. It reads its chain pages, and whatever stands on
    /// them no more pages than the header counts. It gives what stands on these pages, also where the
    /// first is one behind the first page of a chain.
    ///
    /// Errors: `Damaged` with the first page, only where the pages aren't sound or no list of that
    /// length is there; `Disk`, only where `faults` rose; `Ended` exactly where the records had ended;
    /// `Memory`.
    pub fn read_list<D: Disk>(
        &mut self,
        alloc: Global,
        disk: &mut D,
        first: u32,
        len: u64,
    ) -> Result<List<u8>, StoreError>
        ensures still { IsStill D.Disk disk.old disk.new }
        ensures reads { D.reads disk.new ≤ D.reads disk.old + chain_count len }
        ensures reads_pages { D.reads disk.new ≤ D.reads disk.old + page_count_of self.old }
        ensures ok { IfOk result (λ bytes. (has_ended self.old ≡ false) × LeavesRecords self.old self.new × (length bytes ≡ len)
            × ((saved now : Held) (stands : StandsFor D.Disk self.old disk.old saved now) → IsListRead (current_pages self.old (stands.keeps).image) now first bytes)) }
        ensures list { IfOk result (λ bytes. (was : Image) → IsInStepWith D.Disk self.old disk.old was → IsListFrom (page_count_of self.old) (current_pages self.old was) first bytes) }
        ensures refused { IfErr result (λ e. NotRead D.Disk (λ now. LacksList now first len) first e self.old self.new disk.old disk.new) }
    {
        if self.ended {
            return Err(StoreError::Ended);
        }
        if !self.may_begin(first, len) {
            return Err(self.damaged(first));
        }
        self.read_chain(alloc, disk, first, len, first)
    }

    /// The catalog's bytes. It reads the catalog's chain pages, and no more pages than the header counts.
    ///
    /// Errors: `Damaged` with page 0, only where the pages aren't sound; `Disk`, only where `faults`
    /// rose; `Ended` exactly where the records had ended; `Memory`.
    pub fn read_catalog<D: Disk>(
        &mut self,
        alloc: Global,
        disk: &mut D,
    ) -> Result<List<u8>, StoreError>
        ensures still { IsStill D.Disk disk.old disk.new }
        ensures reads { D.reads disk.new ≤ D.reads disk.old + chain_count (catalog_length_of self.old) }
        ensures reads_pages { D.reads disk.new ≤ D.reads disk.old + page_count_of self.old }
        ensures ok { IfOk result (λ bytes. (has_ended self.old ≡ false) × LeavesRecords self.old self.new × (length bytes ≡ catalog_length_of self.old)
            × ((saved now : Held) → StandsFor D.Disk self.old disk.old saved now → now.catalog.bytes ≡ bytes)) }
        ensures refused { IfErr result (λ e. NotRead D.Disk (λ now. ⊥) 0 e self.old self.new disk.old disk.new) }
    {
        if self.ended {
            return Err(StoreError::Ended);
        }
        self.read_chain(alloc, disk, self.head.catalog, self.head.catalog_length, 0)
    }

    /// Adds a byte list of at least one byte, and answers its first page.
    ///
    /// Errors: `Full`, over sound pages only where fewer pages were free than the list takes chain
    /// pages, one for each 8,184 bytes begun; `Damaged` with page 0, only where the pages aren't
    /// sound; `Disk`, only where `faults` rose; `Ended` exactly where the records had ended; `Memory`,
    /// only where a page was free. After `Full` and `Memory` the caller calls `abandon`.
    pub fn write_list<D: Disk>(&mut self, disk: &mut D, bytes: &[u8]) -> Result<u32, StoreError>
        requires { 1 ≤ length bytes.now }
        ensures still { IsStill D.Disk disk.old disk.new }
        ensures reads { D.reads disk.new ≤ D.reads disk.old + chain_count (length bytes.now) }
        ensures ok { IfOk result (λ first. ComesTo D.Disk self.old self.new disk.old disk.new (λ was now. WritesList first bytes.now was now)) }
        ensures keeps { IfOk result (λ first. RunsOn self.old self.new × KeepsSaved D.Disk self.old self.new disk.old disk.new × HasChanges self.new) }
        ensures refused { IfErr result (λ e. NotStored D.Disk (λ was. chain_count (length bytes.now)) (λ was. ⊥) 0 e self.old self.new disk.old disk.new) }
        ensures memory { IfErr result (λ e. e ≡ StoreError.Memory → has_free self.old ≡ true) }
    {
        if self.ended {
            return Err(StoreError::Ended);
        }
        let first = self.write_chain(disk, bytes, 0)?;
        self.store_header()?;
        Ok(first)
    }

    /// Takes the byte list of so many bytes at a first page away, and gives its chain pages back. It
    /// reads them, and no more pages than the header counts. Chain pages of just that length stood there,
    /// whatever the other pages are. What it leaves is said only where a list begins at that page; else
    /// another page names it, and it is neither page 0 nor where the catalog begins.
    ///
    /// Errors: `Damaged` with the first page, only where the pages aren't sound or no list of that
    /// length is there; `Disk`, only where `faults` rose; `Ended` exactly where the records had ended;
    /// `Memory`, after which the caller calls `abandon`.
    pub fn free_list<D: Disk>(
        &mut self,
        alloc: Global,
        disk: &mut D,
        first: u32,
        len: u64,
    ) -> Result<(), StoreError>
        ensures still { IsStill D.Disk disk.old disk.new }
        ensures reads { D.reads disk.new ≤ D.reads disk.old + chain_count len }
        ensures reads_pages { D.reads disk.new ≤ D.reads disk.old + page_count_of self.old }
        ensures ok { OnOk result ((saved now : Held) (list : Items ℕ) → StandsFor D.Disk self.old disk.old saved now → now.lists first ≡ Some list
            → (length list ≡ len) × ((next : Held) × StandsFor D.Disk self.new disk.new saved next × FreesList first now next)) }
        ensures list { OnOk result ((was : Image) → IsInStepWith D.Disk self.old disk.old was → HasListFrom (page_count_of self.old) (current_pages self.old was) first len) }
        ensures behind { OnOk result ((saved now : Held) (stands : StandsFor D.Disk self.old disk.old saved now) → now.lists first ≡ None → IsNamed (current_pages self.old (stands.keeps).image) first) }
        ensures keeps { OnOk result (RunsOn self.old self.new × KeepsSaved D.Disk self.old self.new disk.old disk.new × HasChanges self.new) }
        ensures refused { IfErr result (λ e. NotChanged D.Disk (λ was. LacksList was first len) first e self.old self.new disk.old disk.new) }
    {
        if self.ended {
            return Err(StoreError::Ended);
        }
        let begins = self.may_begin(first, len);
        if !begins {
            return Err(self.damaged(first));
        }
        self.give_chain(alloc, disk, first, len, first)?;
        self.store_header()
    }

    /// Puts other bytes in the place of those of the byte list of so many bytes at a first page. They take
    /// as many chain pages (`take_same_pages`), so the list keeps its pages, no page is taken or given back,
    /// and those alone wait for the commit whose bytes changed. It reads them, and no more pages than the
    /// header counts. Chain pages of just that length stood there, whatever the other pages are. What it
    /// leaves is said only where a list begins at that page; else another page names it, and it is neither
    /// page 0 nor where the catalog begins.
    ///
    /// Errors: `Damaged` with the first page, only where the pages aren't sound or no list of that
    /// length is there; `Disk`, only where `faults` rose; `Ended` exactly where the records had ended;
    /// `Memory`, after which the caller calls `abandon`.
    pub fn change_list<D: Disk>(
        &mut self,
        alloc: Global,
        disk: &mut D,
        first: u32,
        len: u64,
        bytes: &[u8],
    ) -> Result<(), StoreError>
        requires some { 1 ≤ length bytes.now }
        requires pages { chain_count (length bytes.now) ≡ chain_count len }
        ensures still { IsStill D.Disk disk.old disk.new }
        ensures reads { D.reads disk.new ≤ D.reads disk.old + chain_count len }
        ensures reads_pages { D.reads disk.new ≤ D.reads disk.old + page_count_of self.old }
        ensures ok { OnOk result ((saved now : Held) (list : Items ℕ) → StandsFor D.Disk self.old disk.old saved now → now.lists first ≡ Some list
            → (length list ≡ len) × ((next : Held) × StandsFor D.Disk self.new disk.new saved next × ChangesList first bytes.now now next)) }
        ensures list { OnOk result ((was : Image) → IsInStepWith D.Disk self.old disk.old was → HasListFrom (page_count_of self.old) (current_pages self.old was) first len) }
        ensures behind { OnOk result ((saved now : Held) (stands : StandsFor D.Disk self.old disk.old saved now) → now.lists first ≡ None → IsNamed (current_pages self.old (stands.keeps).image) first) }
        ensures in_place { OnOk result (TakesNoPage self.old self.new) }
        ensures alone { OnOk result ((saved now : Held) (list : Items ℕ) (stands : StandsFor D.Disk self.old disk.old saved now) → now.lists first ≡ Some list → PutsChangedAlone self.old self.new (stands.keeps).image) }
        ensures keeps { OnOk result (RunsOn self.old self.new × KeepsSaved D.Disk self.old self.new disk.old disk.new × HasChanges self.new) }
        ensures refused { IfErr result (λ e. NotChanged D.Disk (λ was. LacksList was first len) first e self.old self.new disk.old disk.new) }
    {
        if self.ended {
            return Err(StoreError::Ended);
        }
        let may = self.may_begin(first, len);
        if !may {
            return Err(self.damaged(first));
        }
        self.rewrite_chain(alloc, disk, first, len, bytes, first)?;
        self.store_header()
    }

    /// Replaces the catalog by at least 8 bytes. Where they take as many chain pages as the old ones, those
    /// pages stay, and those alone wait for the commit whose bytes changed; else the old ones are given
    /// back first. The old one's chain pages are read, no more pages than the header counts.
    ///
    /// Errors: `Full`, over sound pages only where fewer pages were free than the new catalog takes
    /// chain pages beyond those of the old one; `Damaged` with page 0, only where the pages aren't
    /// sound; `Disk`, only where `faults` rose; `Ended` exactly where the records had ended; `Memory`.
    /// After `Full` and `Memory` the caller calls `abandon`.
    pub fn set_catalog<D: Disk>(
        &mut self,
        alloc: Global,
        disk: &mut D,
        bytes: &[u8],
    ) -> Result<(), StoreError>
        requires { 8 ≤ length bytes.now }
        ensures still { IsStill D.Disk disk.old disk.new }
        ensures reads { D.reads disk.new ≤ D.reads disk.old + (chain_count (catalog_length_of self.old) + chain_count (length bytes.now)) }
        ensures reads_pages { D.reads disk.new ≤ D.reads disk.old + (page_count_of self.old + chain_count (length bytes.now)) }
        ensures ok { OnOk result (ComesTo D.Disk self.old self.new disk.old disk.new (λ was now. SetsCatalog bytes.now was now)) }
        ensures in_place { OnOk result (chain_count (catalog_length_of self.old) ≡ chain_count (length bytes.now) → TakesNoPage self.old self.new × ((self.new.head).catalog ≡ (self.old.head).catalog)) }
        ensures alone { OnOk result ((saved now : Held) (stands : StandsFor D.Disk self.old disk.old saved now) → chain_count (length now.catalog.bytes) ≡ chain_count (length bytes.now) → PutsChangedAlone self.old self.new (stands.keeps).image) }
        ensures keeps { OnOk result (RunsOn self.old self.new × KeepsSaved D.Disk self.old self.new disk.old disk.new × HasChanges self.new) }
        ensures refused { IfErr result (λ e. NotStored D.Disk (λ was. catalog_needs bytes.now was) (λ was. ⊥) 0 e self.old self.new disk.old disk.new) }
    {
        if self.ended {
            return Err(StoreError::Ended);
        }
        let first = self.rewrite_catalog(alloc, disk, bytes)?;
        self.name_catalog(first, bytes.len() as u64);
        self.store_header()
    }
}
