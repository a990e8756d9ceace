// Putting other bytes in the place of those of a chain, page by page. A page whose content stays isn't put.
ghost use Rattle.std.specs.Prelude.{◌≡◌, ◌≢◌, ◌+◌, ◌<◌, ◌≤◌, ℕ, length, true, false, IfOk, IfErr, OnOk};
ghost use Rattle.nx_numbers.specs.Sizes.{page_room, most_pages};
ghost use Rattle.nx_host.specs.Still.{IsStill};
ghost use Rattle.nx_holdings.specs.Holdings.{chain_count, next_of};

use crate::chains::may_stand;
use crate::writing::content_at;
use crate::{Records, StoreError};
use nx_chain::chain_page;
use nx_host::Disk;
use nx_numbers::PAGE_ROOM;
use nx_slots::PageBytes;
use std::alloc::Global;

/// Whether byte lists of so many bytes and of so many take as many chain pages, one for each 8,184
/// bytes begun.
pub fn take_same_pages(len: u64, other: u64) -> bool
    ensures yes { result ≡ true → chain_count len ≡ chain_count other }
    ensures no { result ≡ false → chain_count len ≢ chain_count other }
{
    len.div_ceil(PAGE_ROOM as u64) == other.div_ceil(PAGE_ROOM as u64)
}

impl Records {
    ghost use Rattle.nx_records.specs.Records.{has_ended, page_count_of, catalog_length_of, KeepsLog};
    ghost use Rattle.nx_records.specs.Changes.{HasListFrom};
    ghost use Rattle.nx_records.specs.Room.{TakesNoPage};
    ghost use Rattle.nx_records.specs.Pages.{SeesSo};
    ghost use Rattle.nx_records.specs.Chains.{HasLink, LinksStepTo, NotLed, NotGivenBack, SetsLink, MayChange, IsChainOf, IsRewritten};

    // Puts a chain page with this next page and this content, where it has another content.
    pub(crate) fn put_over(
        &mut self,
        page: u32,
        next: u32,
        had: &[u8],
        content: &[u8],
    ) -> Result<(), StoreError>
        requires runs { has_ended self.old ≡ false }
        requires low { page < most_pages }
        requires some { 1 ≤ length content.now }
        requires few { length content.now ≤ page_room }
        ensures keeps { KeepsLog self.old self.new }
        ensures ok { OnOk result (SetsLink page next had.now content.now self.old self.new) }
        ensures known { self.new.catalog_pages ≡ self.old.catalog_pages }
        ensures refused { IfErr result (λ e. e ≡ StoreError.Memory) }
    {
        if had == content {
            return Ok(());
        }
        let bytes = chain_page(next, content);
        self.store(page, &bytes)
    }

    // Puts other content on a page of a chain, and answers what it said, as that lies in the room for it.
    fn set_link<'a, D: Disk>(
        &mut self,
        disk: &mut D,
        page: u32,
        content: &[u8],
        named: u32,
        room: &'a mut PageBytes,
    ) -> Result<(u32, &'a [u8]), StoreError>
        requires runs { has_ended self.old ≡ false }
        requires there { page ≢ 0 }
        requires some { 1 ≤ length content.now }
        requires few { length content.now ≤ page_room }
        ensures still { IsStill D.Disk disk.old disk.new }
        ensures reads { D.reads disk.new ≤ D.reads disk.old + 1 }
        ensures keeps { IfOk result (λ link. KeepsLog self.old self.new × (1 ≤ length link.1.now)) }
        ensures low { IfOk result (λ link. page < page_count_of self.old) }
        ensures full { IfOk result (λ link. link.0 ≢ 0 → (length link.1.now ≡ page_room) × (length content.now ≡ page_room)) }
        ensures ok { IfOk result (λ link. SeesSo D.Disk self.old disk.old (λ pages. HasLink pages page link.0 link.1.now)
            × SetsLink page link.0 link.1.now content.now self.old self.new) }
        ensures refused { IfErr result (λ e. NotGivenBack D.Disk (MayChange page content.now) named e self.old self.new disk.old disk.new) }
    {
        let (next, had) = self.see_link(disk, page, named, room)?;
        if !may_stand(next, content.len()) {
            return Err(self.damaged(named));
        }
        self.put_over(page, next, had, content)?;
        Ok((next, had))
    }

    // Puts bytes in the place of those of a chain, which are so many, on its pages.
    pub(crate) fn rewrite_chain<D: Disk>(
        &mut self,
        alloc: Global,
        disk: &mut D,
        first: u32,
        len: u64,
        bytes: &[u8],
        named: u32,
    ) -> Result<(), StoreError>
        requires runs { has_ended self.old ≡ false }
        requires pages { chain_count (length bytes.now) ≡ chain_count len }
        ensures still { IsStill D.Disk disk.old disk.new }
        ensures reads { D.reads disk.new ≤ D.reads disk.old + chain_count len }
        ensures reads_pages { D.reads disk.new ≤ D.reads disk.old + page_count_of self.old }
        ensures keeps { OnOk result (KeepsLog self.old self.new) }
        ensures in_place { OnOk result (TakesNoPage self.old self.new) }
        ensures list { OnOk result (SeesSo D.Disk self.old disk.old (λ pages. HasListFrom (page_count_of self.old) pages first len)) }
        ensures ok { OnOk result (LinksStepTo D.Disk self.old self.new disk.old (λ links. next_of links ≡ first) (λ was links more. IsRewritten self.old self.new was first len bytes.now links more)) }
        ensures refused { IfErr result (λ e. NotGivenBack D.Disk (IsChainOf first len) named e self.old self.new disk.old disk.new) }
    {
        if !self.may_have(len) {
            return Err(self.damaged(named));
        }
        let Some(mut room) = self.take_spare(alloc) else {
            return Err(StoreError::Memory);
        };
        let mut left = len;
        let mut index = 0;
        let mut page = first;
        while page != 0 {
            if left == 0 {
                return Err(self.damaged(named));
            }
            let content = content_at(bytes, index);
            let (next, had) = self.set_link(disk, page, content, named, &mut room.page)?;
            let taken = had.len() as u64;
            if taken > left {
                return Err(self.damaged(named));
            }
            left -= taken;
            index += 1;
            page = next;
        }
        if left != 0 {
            return Err(self.damaged(named));
        }
        self.give_spare(room);
        Ok(())
    }

    // Puts bytes in the place of the catalog's, and answers the page where they begin: on its pages where they
    // take as many, else on others, once those were given back.
    pub(crate) fn rewrite_catalog<D: Disk>(
        &mut self,
        alloc: Global,
        disk: &mut D,
        bytes: &[u8],
    ) -> Result<u32, StoreError>
        requires { has_ended self.old ≡ false }
        ensures still { IsStill D.Disk disk.old disk.new }
        ensures reads { D.reads disk.new ≤ D.reads disk.old + (chain_count (catalog_length_of self.old) + chain_count (length bytes.now)) }
        ensures reads_pages { D.reads disk.new ≤ D.reads disk.old + (page_count_of self.old + chain_count (length bytes.now)) }
        ensures keeps { IfOk result (λ first. KeepsLog self.old self.new) }
        ensures in_place { IfOk result (λ first. chain_count (catalog_length_of self.old) ≡ chain_count (length bytes.now) → TakesNoPage self.old self.new × (first ≡ (self.old.head).catalog)) }
        ensures ok { IfOk result (λ first. LinksStepTo D.Disk self.old self.new disk.old (λ links. next_of links ≡ (self.old.head).catalog)
            (λ was links more. IsRewritten self.old self.new was first (catalog_length_of self.old) bytes.now links more)) }
        ensures refused { IfErr result (λ e. NotLed D.Disk (IsChainOf (self.old.head).catalog (catalog_length_of self.old))
            (λ links held. held.free + length links < chain_count (length bytes.now)) 0 e self.old self.new disk.old disk.new) }
    {
        let first = self.head.catalog;
        let len = self.head.catalog_length;
        if take_same_pages(len, bytes.len() as u64) {
            self.rewrite_chain(alloc, disk, first, len, bytes, 0)?;
            return Ok(first);
        }
        self.give_chain(alloc, disk, first, len, 0)?;
        self.write_chain(disk, bytes, 0)
    }
}
