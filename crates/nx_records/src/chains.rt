// Reading chains, page by page.
ghost use Rattle.std.specs.Prelude.{List as Items, ◌≡◌, ◌≢◌, ◌⊎◌, ◌+◌, ◌*◌, ◌++◌, ◌<◌, ◌≤◌, ℕ, length, true, false, IfOk, IfErr, IfSome, IfNone, OnOk};
ghost use Rattle.nx_numbers.specs.Sizes.{page_room};
ghost use Rattle.nx_host.specs.Still.{IsStill};
ghost use Rattle.nx_holdings.specs.Holdings.{chain_count};
ghost use Rattle.nx_links.specs.Lists.{IsLinkAt, IsListFrom, IsListStep};
ghost use Rattle.nx_replay.specs.Log.{Pages};

use crate::reading::ListReader;
use crate::{Records, StoreError};
use nx_chain::{ChainPage, view_chain_page};
use nx_host::Disk;
use nx_lists::List;
use nx_numbers::{PAGE_ROOM, PAGE_SIZE};
use nx_slots::PageBytes;
use std::alloc::Global;

// Whether a page of so many bytes may have this next page: all but the last of a chain are full.
pub(crate) fn may_stand(next: u32, len: usize) -> bool
    ensures yes { result ≡ true → next ≢ 0 → len ≡ page_room }
    ensures no { result ≡ false → (next ≢ 0) × (len ≢ page_room) }
{
    next == 0 || len == PAGE_ROOM
}

impl Records {
    ghost use Rattle.nx_records.specs.Records.{has_ended, page_count_of};
    ghost use Rattle.nx_records.specs.Pages.{SeesSo};
    ghost use Rattle.nx_records.specs.Reading.{AppendsBlock, Opens, IsBlock};
    ghost use Rattle.nx_records.specs.Chains.{HasLink, NoLink, NoListFrom, NotListed};

    // Whether a list of so many bytes may begin at a page: it has a byte, and isn't the catalog.
    pub(crate) fn may_begin(&self, first: u32, len: u64) -> bool
        ensures yes { result ≡ true → (len ≢ 0) × (first ≢ (self.now.head).catalog) }
        ensures no { result ≡ false → (len ≡ 0) ⊎ (first ≡ (self.now.head).catalog) }
    {
        len != 0 && first != self.head.catalog
    }

    // Whether a chain may have so many bytes: its pages are below the header's number, and none comes twice.
    pub(crate) fn may_have(&self, len: u64) -> bool
        ensures yes { result ≡ true → len ≤ page_room * page_count_of self.now }
        ensures no { result ≡ false → page_room * page_count_of self.now < len }
    {
        len <= u64::from(self.head.pages) * PAGE_ROOM as u64
    }

    // The next page and the content of the chain page with this number, as they lie in the room for it.
    pub(crate) fn see_link<'a, D: Disk>(
        &mut self,
        disk: &mut D,
        page: u32,
        named: u32,
        room: &'a mut PageBytes,
    ) -> Result<(u32, &'a [u8]), StoreError>
        requires { has_ended self.old ≡ false }
        ensures still { IsStill D.Disk disk.old disk.new }
        ensures reads { D.reads disk.new ≤ D.reads disk.old + 1 }
        ensures ok { IfOk result (λ link. (self.new ≡ self.old) × (page < self.old.head.pages) × (1 ≤ length link.1.now) × (link.0 ≢ 0 → length link.1.now ≡ page_room)
            × SeesSo D.Disk self.old disk.old (λ pages. HasLink pages page link.0 link.1.now)) }
        ensures few { IfOk result (λ link. length link.1.now ≤ page_room) }
        ensures refused { IfErr result (λ e. NotListed D.Disk (NoLink self.old.head.pages page) named e self.old self.new disk.old disk.new) }
    {
        if page >= self.head.pages {
            return Err(self.damaged(named));
        }
        if !self.load(disk, page, room)? {
            return Err(self.damaged(named));
        }
        let Some((next, content)) = view_chain_page(room) else {
            return Err(self.damaged(named));
        };
        if !may_stand(next, content.len()) {
            return Err(self.damaged(named));
        }
        Ok((next, content))
    }

    // The chain page with this number.
    pub(crate) fn link<D: Disk>(
        &mut self,
        alloc: Global,
        disk: &mut D,
        page: u32,
        named: u32,
    ) -> Result<ChainPage, StoreError>
        requires { has_ended self.old ≡ false }
        ensures still { IsStill D.Disk disk.old disk.new }
        ensures reads { D.reads disk.new ≤ D.reads disk.old + 1 }
        ensures ok { IfOk result (λ link. (self.new ≡ self.old) × (page < self.old.head.pages) × (1 ≤ length link.content) × (link.next ≢ 0 → length link.content ≡ page_room)
            × SeesSo D.Disk self.old disk.old (λ pages. HasLink pages page link.next link.content)) }
        ensures few { IfOk result (λ link. length link.content ≤ page_room) }
        ensures refused { IfErr result (λ e. NotListed D.Disk (NoLink self.old.head.pages page) named e self.old self.new disk.old disk.new) }
    {
        let mut room = PageBytes {
            bytes: [0; PAGE_SIZE],
        };
        let (next, content) = self.see_link(disk, page, named, &mut room)?;
        let Ok(content) = List::from_slice(alloc, content) else {
            return Err(StoreError::Memory);
        };
        Ok(ChainPage { next, content })
    }

    // How a chain of so many bytes is read from a page on, where there may be one. No page is read yet.
    pub(crate) fn start_chain(&self, first: u32, len: u64) -> Option<ListReader>
        ensures some { IfSome result (λ reader. Opens reader first len × (len ≤ page_room * page_count_of self.now)) }
        ensures none { IfNone result ((pages : Pages) → NoListFrom self.now.head.pages first len pages) }
    {
        if self.may_have(len) {
            ListReader::new(first, len)
        } else {
            None
        }
    }

    // The bytes on the next page of a chain of which some are left.
    pub(crate) fn read_on<D: Disk>(
        &mut self,
        alloc: Global,
        disk: &mut D,
        reader: &mut ListReader,
        named: u32,
    ) -> Result<List<u8>, StoreError>
        requires runs { has_ended self.old ≡ false }
        requires some { reader.old.left ≢ 0 }
        ensures still { IsStill D.Disk disk.old disk.new }
        ensures reads { D.reads disk.new ≤ D.reads disk.old + 1 }
        ensures ok { IfOk result (λ block. (self.new ≡ self.old) × IsBlock reader.old reader.new block) }
        ensures stood { IfOk result (λ block. SeesSo D.Disk self.old disk.old (λ pages. IsLinkAt pages reader.old.next reader.new.next block)) }
        ensures step { IfOk result (λ block. SeesSo D.Disk self.old disk.old (λ pages. IsListStep self.old.head.pages pages reader.old.next reader.new.next block)) }
        ensures refused { IfErr result (λ e. NotListed D.Disk (NoListFrom self.old.head.pages reader.old.next reader.old.left) named e self.old self.new disk.old disk.new) }
        ensures stays { IfErr result (λ e. reader.new ≡ reader.old) }
    {
        let link = self.link(alloc, disk, reader.next, named)?;
        let Some(behind) = reader.behind(link.next, link.content.len() as u64) else {
            return Err(self.damaged(named));
        };
        *reader = behind;
        Ok(link.content)
    }

    // Appends the bytes on the next page of a chain of which some are left, by way of this room for the page.
    fn append_on<D: Disk>(
        &mut self,
        disk: &mut D,
        reader: &mut ListReader,
        into: &mut List<u8>,
        named: u32,
        room: &mut PageBytes,
    ) -> Result<(), StoreError>
        requires runs { has_ended self.old ≡ false }
        requires some { reader.old.left ≢ 0 }
        ensures still { IsStill D.Disk disk.old disk.new }
        ensures reads { D.reads disk.new ≤ D.reads disk.old + 1 }
        ensures ok { OnOk result ((self.new ≡ self.old) × AppendsBlock D.Disk self.old disk.old reader.old reader.new into.old into.new) }
        ensures refused { IfErr result (λ e. NotListed D.Disk (NoListFrom self.old.head.pages reader.old.next reader.old.left) named e self.old self.new disk.old disk.new) }
    {
        let (next, content) = self.see_link(disk, reader.next, named, room)?;
        let Some(behind) = reader.behind(next, content.len() as u64) else {
            return Err(self.damaged(named));
        };
        let Ok(_) = into.extend_from_slice(content) else {
            return Err(StoreError::Memory);
        };
        *reader = behind;
        Ok(())
    }

    // The bytes on the chain pages from one on, which are so many. Also where pages run in a circle, it reads
    // no more of them than there are.
    pub(crate) fn read_chain<D: Disk>(
        &mut self,
        alloc: Global,
        disk: &mut D,
        first: u32,
        len: u64,
        named: u32,
    ) -> Result<List<u8>, StoreError>
        requires { has_ended self.old ≡ false }
        ensures still { IsStill D.Disk disk.old disk.new }
        ensures reads { D.reads disk.new ≤ D.reads disk.old + chain_count len }
        ensures reads_pages { D.reads disk.new ≤ D.reads disk.old + page_count_of self.old }
        ensures ok { IfOk result (λ bytes. (self.new ≡ self.old) × (length bytes ≡ len) × SeesSo D.Disk self.old disk.old (λ pages. IsListFrom self.old.head.pages pages first bytes)) }
        ensures refused { IfErr result (λ e. NotListed D.Disk (NoListFrom self.old.head.pages first len) named e self.old self.new disk.old disk.new) }
    {
        let Some(mut reader) = self.start_chain(first, len) else {
            return Err(self.damaged(named));
        };
        let Ok(mut bytes) = List::with_capacity(alloc, len as usize) else {
            return Err(StoreError::Memory);
        };
        let Some(mut room) = self.take_spare(alloc) else {
            return Err(StoreError::Memory);
        };
        while reader.left > 0 {
            self.append_on(disk, &mut reader, &mut bytes, named, &mut room.page)?;
        }
        self.give_spare(room);
        Ok(bytes)
    }
}
