// Writing chains and giving them back, page by page. A chain is written from its last page on, so that each step
// puts a page in front of a chain that is whole, and given back from its first page on.
ghost use Rattle.std.specs.Prelude.{List as Items, ◌≡◌, ◌≢◌, ◌+◌, ◌^◌, ◌<◌, ◌≤◌, [], ℕ, length, true, false, IfOk, IfErr, OnOk};
ghost use Rattle.nx_numbers.specs.Sizes.{page_room};
ghost use Rattle.nx_host.specs.Disk.{Image};
ghost use Rattle.nx_host.specs.Still.{IsStill};
ghost use Rattle.nx_wal.specs.Wal.{current};
ghost use Rattle.nx_holdings.specs.Holdings.{chain_count, next_of, content_of};
ghost use Rattle.nx_records.specs.Chains.{IsContentAt};

use crate::{Records, StoreError};
use nx_chain::{ChainPage, chain_page};
use nx_host::Disk;
use nx_numbers::PAGE_ROOM;
use std::alloc::Global;

// How many chain pages so many bytes take.
fn chain_pages(len: usize) -> usize
    requires { len < 2 ^ 63 }
    ensures { result ≡ chain_count len }
{
    len.div_ceil(PAGE_ROOM)
}

// The bytes that stand on the chain page with this index.
pub(crate) fn content_at(bytes: &[u8], index: usize) -> &[u8]
    requires { index < chain_count (length bytes.now) }
    ensures { IsContentAt bytes.now index result.now }
{
    let start = index * PAGE_ROOM;
    let end = bytes.len().min(start + PAGE_ROOM);
    &bytes[start..end]
}

impl Records {
    ghost use Rattle.nx_records.specs.Records.{has_ended, has_free, page_count_of, KeepsLog};
    ghost use Rattle.nx_records.specs.Pages.{SeesSo};
    ghost use Rattle.nx_records.specs.Changes.{HasListFrom};
    ghost use Rattle.nx_records.specs.Chains.{HasLink, AddsNoLink, MayLead, ChainStepsTo, NotLed, NotGivenBack, link_before, with_catalog};

    // Puts a page with these bytes, which was free, in front of a chain that begins at a page, 0 for none, and
    // answers its number.
    fn put_link<D: Disk>(
        &mut self,
        disk: &mut D,
        next: u32,
        content: &[u8],
        named: u32,
    ) -> Result<u32, StoreError>
        requires runs { has_ended self.old ≡ false }
        requires some { 1 ≤ length content.now }
        requires few { length content.now ≤ page_room }
        ensures still { IsStill D.Disk disk.old disk.new }
        ensures reads { D.reads disk.new ≤ D.reads disk.old + 1 }
        ensures keeps { IfOk result (λ page. KeepsLog self.old self.new) }
        ensures ok { IfOk result (λ page. ChainStepsTo D.Disk self.old self.new disk.old (MayLead next content.now) (λ links more. more ≡ link_before page content.now links)) }
        ensures free { IfOk result (λ page. has_free self.old ≡ true) }
        ensures refused { IfErr result (λ e. NotLed D.Disk (MayLead next content.now) (λ links held. held.free ≡ 0) named e self.old self.new disk.old disk.new) }
        ensures memory { IfErr result (λ e. e ≡ StoreError.Memory → has_free self.old ≡ true) }
    {
        let page = self.take(disk, named)?;
        let bytes = chain_page(next, content);
        self.store(page, &bytes)?;
        Ok(page)
    }

    // Puts bytes on pages that were free, and answers the first of them.
    pub(crate) fn write_chain<D: Disk>(
        &mut self,
        disk: &mut D,
        bytes: &[u8],
        named: u32,
    ) -> Result<u32, StoreError>
        requires { has_ended self.old ≡ false }
        ensures still { IsStill D.Disk disk.old disk.new }
        ensures reads { D.reads disk.new ≤ D.reads disk.old + chain_count (length bytes.now) }
        ensures keeps { IfOk result (λ first. KeepsLog self.old self.new) }
        ensures ok { IfOk result (λ first. ChainStepsTo D.Disk self.old self.new disk.old (λ links. links ≡ []) (λ links more. (next_of more ≡ first) × (content_of more ≡ bytes.now))) }
        ensures free { IfOk result (λ first. 1 ≤ length bytes.now → has_free self.old ≡ true) }
        ensures refused { IfErr result (λ e. NotLed D.Disk (λ links. links ≡ []) (λ links held. held.free < chain_count (length bytes.now)) named e self.old self.new disk.old disk.new) }
        ensures memory { IfErr result (λ e. e ≡ StoreError.Memory → has_free self.old ≡ true) }
    {
        let mut left = chain_pages(bytes.len());
        let mut next = 0;
        while left > 0 {
            let content = content_at(bytes, left - 1);
            let page = self.put_link(disk, next, content, named)?;
            next = page;
            left -= 1;
        }
        Ok(next)
    }

    // Gives the first page of a chain back, and answers what it said.
    fn give_link<D: Disk>(
        &mut self,
        alloc: Global,
        disk: &mut D,
        page: u32,
        named: u32,
    ) -> Result<ChainPage, StoreError>
        requires runs { has_ended self.old ≡ false }
        requires some { page ≢ 0 }
        ensures still { IsStill D.Disk disk.old disk.new }
        ensures reads { D.reads disk.new ≤ D.reads disk.old + 1 }
        ensures keeps { IfOk result (λ link. KeepsLog self.old self.new × (1 ≤ length link.content)) }
        ensures full { IfOk result (λ link. link.next ≢ 0 → length link.content ≡ page_room) }
        ensures link { IfOk result (λ link. (page < page_count_of self.old) × SeesSo D.Disk self.old disk.old (λ pages. HasLink pages page link.next link.content)) }
        ensures fewer { IfOk result (λ link. (page_count_of self.new ≡ page_count_of self.old) × ((was : Image) → AddsNoLink (current self.old.wal was) (current self.new.wal was))) }
        ensures ok { IfOk result (λ link. ChainStepsTo D.Disk self.old self.new disk.old (λ links. next_of links ≡ page)
            (λ links more. (links ≡ link_before page link.content more) × (next_of more ≡ link.next))) }
        ensures refused { IfErr result (λ e. NotGivenBack D.Disk (λ links. next_of links ≡ page) named e self.old self.new disk.old disk.new) }
    {
        let link = self.link(alloc, disk, page, named)?;
        self.release(page)?;
        Ok(link)
    }

    // Gives the pages of a chain back, which has so many bytes. It reads no more pages than there are.
    pub(crate) fn give_chain<D: Disk>(
        &mut self,
        alloc: Global,
        disk: &mut D,
        first: u32,
        len: u64,
        named: u32,
    ) -> Result<(), StoreError>
        requires { has_ended self.old ≡ false }
        ensures still { IsStill D.Disk disk.old disk.new }
        ensures reads { D.reads disk.new ≤ D.reads disk.old + chain_count len }
        ensures reads_pages { D.reads disk.new ≤ D.reads disk.old + page_count_of self.old }
        ensures keeps { OnOk result (KeepsLog self.old self.new) }
        ensures list { OnOk result (SeesSo D.Disk self.old disk.old (λ pages. HasListFrom (page_count_of self.old) pages first len)) }
        ensures ok { OnOk result (ChainStepsTo D.Disk self.old self.new disk.old (λ links. next_of links ≡ first) (λ links more. (more ≡ []) × (length (content_of links) ≡ len))) }
        ensures refused { IfErr result (λ e. NotGivenBack D.Disk (λ links. (next_of links ≡ first) × (length (content_of links) ≡ len)) named e self.old self.new disk.old disk.new) }
    {
        if !self.may_have(len) {
            return Err(self.damaged(named));
        }
        let mut left = len;
        let mut page = first;
        while page != 0 {
            if left == 0 {
                return Err(self.damaged(named));
            }
            let link = self.give_link(alloc, disk, page, named)?;
            let taken = link.content.len() as u64;
            if taken > left {
                return Err(self.damaged(named));
            }
            left -= taken;
            page = link.next;
        }
        if left != 0 {
            return Err(self.damaged(named));
        }
        Ok(())
    }

    // Names another chain as the catalog.
    pub(crate) fn name_catalog(&mut self, first: u32, len: u64)
        requires { 8 ≤ len }
        ensures head { self.new.head ≡ with_catalog first len self.old.head }
        ensures forgets { self.new.catalog_pages ≡ [] }
        ensures stays { (self.new.wal ≡ self.old.wal) × (self.new.saved ≡ self.old.saved) × (has_ended self.new ≡ has_ended self.old) }
    {
        self.head.catalog = first;
        self.head.catalog_length = len;
        self.catalog_pages.clear();
    }
}
