// Pages that were read lately, each as a read gives it.
ghost use Rattle.std.specs.Prelude.{◌≡◌, ◌⊎◌, ◌^◌, ◌+◌, ◌<◌, ◌≤◌, [], ◌∷◌, length, take, true, is_some, Some, IfOk, OnOk, OnErr};
ghost use Rattle.nx_numbers.specs.Sizes.{page_size};
ghost use Rattle.nx_cache.specs.Cached.{bytes_listed, brought_to_front, page_with, without_page, EachListed};
ghost use Rattle.nx_cached_host.specs.Kept.{address_in, end_in, EndsBy, LiesBefore};

use nx_cache::{Address, PageCache};
use nx_host::Area;
use nx_lists::NoMemory;
use nx_numbers::PAGE_SIZE;
use std::alloc::Global;

// The address of that offset of an area.
pub(crate) fn address_in(area: Area, at: u64) -> Address
    ensures { result ≡ address_in area at }
{
    match area {
        Area::Pages => Address::InPages(at),
        Area::Log => Address::InLog(at),
    }
}

/// Pages that are kept, and where the last of them ends in each area, or behind that.
#[derive(Drop)]
pub(crate) struct KeptPages {
    pub(crate) cache: PageCache,
    pub(crate) pages_end: u64,
    pub(crate) log_end: u64,
    ghost within: { EachListed (EndsBy pages_end log_end) cache.pages },
}

impl KeptPages {
    /// No page is kept yet, and so many at most.
    ///
    /// Errors: `NoMemory`.
    pub(crate) fn new(alloc: Global, most: u32) -> Result<KeptPages, NoMemory>
        requires { 1 ≤ most }
        ensures pages { IfOk result (λ kept. kept.cache.pages ≡ []) }
        ensures most { IfOk result (λ kept. kept.cache.capacity ≡ most) }
    {
        Ok(KeptPages {
            cache: PageCache::new(alloc, most)?,
            pages_end: 0,
            log_end: 0,
        })
    }

    /// Copies the page at this address, where it is kept, and says whether it is. It is the most recently used then.
    pub(crate) fn copy(&mut self, address: Address, into: &mut [u8]) -> bool
        requires { length into.old ≡ page_size }
        ensures found { result ≡ is_some (bytes_listed address self.old.cache.pages) }
        ensures copied { result ≡ true → bytes_listed address self.old.cache.pages ≡ Some (page_with into.new) }
        ensures pages { self.new.cache.pages ≡ brought_to_front address self.old.cache.pages }
        ensures most { self.new.cache.capacity ≡ self.old.cache.capacity }
    {
        match self.cache.get(address) {
            Some(page) => {
                into.copy_from_slice(&page.bytes);
                true
            }
            None => false,
        }
    }

    /// Keeps the page at this offset of an area. Where too many are kept then, the least recently used is let go.
    ///
    /// Errors: `NoMemory`, also where no area goes so far. The same pages are kept as before then.
    pub(crate) fn keep(&mut self, area: Area, at: u64, page: &[u8]) -> Result<(), NoMemory>
        requires { length page.now ≡ page_size }
        ensures ok { OnOk result (self.new.cache.pages ≡ take self.old.cache.capacity ((address_in area at, page_with page.now) ∷ without_page (address_in area at) self.old.cache.pages)) }
        ensures err { OnErr result (self.new.cache.pages ≡ self.old.cache.pages) }
        ensures most { self.new.cache.capacity ≡ self.old.cache.capacity }
    {
        let Some(end) = at.checked_add(PAGE_SIZE as u64) else {
            return Err(NoMemory);
        };
        self.reach(area, end);
        self.cache.put(address_in(area, at), page)
    }

    // Lets pages of an area end there.
    fn reach(&mut self, area: Area, end: u64)
        ensures end { end ≤ end_in self.new.pages_end self.new.log_end area }
        ensures pages { self.new.cache ≡ self.old.cache }
    {
        match area {
            Area::Pages => self.pages_end = self.pages_end.max(end),
            Area::Log => self.log_end = self.log_end.max(end),
        }
    }

    /// Lets all pages go where one of the area may end behind this offset. Else none.
    pub(crate) fn make_way(&mut self, area: Area, at: u64)
        ensures before { EachListed (LiesBefore area at) self.new.cache.pages }
        ensures all { (self.new.cache.pages ≡ self.old.cache.pages) ⊎ (self.new.cache.pages ≡ []) }
        ensures stay { end_in self.old.pages_end self.old.log_end area ≤ at → self.new ≡ self.old }
        ensures most { self.new.cache.capacity ≡ self.old.cache.capacity }
    {
        if self.end(area) > at {
            self.forget();
        }
    }

    fn end(&self, area: Area) -> u64
        ensures { result ≡ end_in self.now.pages_end self.now.log_end area }
    {
        match area {
            Area::Pages => self.pages_end,
            Area::Log => self.log_end,
        }
    }

    /// Lets all pages go.
    pub(crate) fn forget(&mut self)
        ensures pages { self.new.cache.pages ≡ [] }
        ensures most { self.new.cache.capacity ≡ self.old.cache.capacity }
    {
        self.cache.forget();
        self.pages_end = 0;
        self.log_end = 0;
    }
}
