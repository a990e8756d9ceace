// The host in front of another.
ghost use Rattle.std.specs.Prelude.{◌≡◌, ◌≤◌, ◌∷◌, length, take, true, Some, is_some, IfOk, OnOk};
ghost use Rattle.nx_numbers.specs.Sizes.{page_size};
ghost use Rattle.nx_host.specs.Disk.{Image, area_of, given_at};
ghost use Rattle.nx_cache.specs.Cached.{bytes_listed, page_with, without_page};
ghost use Rattle.nx_cached_host.specs.Kept.{address_in, KeptStand, GivesPage};

use crate::kept::{KeptPages, address_in};
use nx_host::{Area, Disk, Failed, Host};
use nx_lists::NoMemory;
use nx_numbers::PAGE_SIZE;
use std::alloc::Global;

/// A host that hands each call to the host behind it, but for a read of a whole page that it kept. It
/// tells what that host tells.
///
/// It keeps what was read lately of whole pages, as many at most as it was made for. Want of memory for one more goes unnoticed:
/// that page isn't kept. A write lets all pages go, unless it goes behind those that are kept of its area.
/// A `sync` that fails lets all go.
#[derive(Drop)]
pub struct CachedHost<H: Disk> {
    inner: H,
    kept: KeptPages,
    ghost are_kept: { KeptStand (H.contents inner) kept.cache.pages },
}

impl<H: Disk> CachedHost<H> {
    /// A host in front of this one, which keeps no page yet, and so many at most.
    ///
    /// Errors: `NoMemory`.
    pub fn new(alloc: Global, inner: H, most: u32) -> Result<CachedHost<H>, NoMemory>
    where
        H: Drop,
        requires { 1 ≤ most }
        ensures over { IfOk result (λ host. host.inner ≡ inner) }
        ensures most { IfOk result (λ host. host.kept.cache.capacity ≡ most) }
    {
        Ok(CachedHost {
            inner,
            kept: KeptPages::new(alloc, most)?,
        })
    }

    /// The host behind it.
    pub fn inner(&self) -> &H
        ensures { result.now ≡ self.now.inner }
    {
        &self.inner
    }

    // Copies the page at this offset of an area, where it is kept, and says whether it is.
    fn copy_kept(&mut self, area: Area, at: u64, into: &mut [u8]) -> bool
        requires { length into.old ≡ page_size }
        ensures found { result ≡ is_some (bytes_listed (address_in area at) self.old.kept.cache.pages) }
        ensures inner { self.new.inner ≡ self.old.inner }
        ensures most { self.new.kept.cache.capacity ≡ self.old.kept.cache.capacity }
        ensures copied { result ≡ true → (image : Image) → H.contents self.old.inner ≡ Some image → GivesPage area at into.new image }
    {
        self.kept.copy(address_in(area, at), into)
    }

    // Keeps the page that a read gave at this offset of an area.
    //
    // Errors: `NoMemory`. The same pages are kept as before then.
    fn keep(&mut self, area: Area, at: u64, bytes: &[u8]) -> Result<(), NoMemory>
        requires page { length bytes.now ≡ page_size }
        requires given { (image : Image) → H.contents self.old.inner ≡ Some image → bytes.now ≡ given_at at page_size (area_of area image) }
        ensures kept { OnOk result (self.new.kept.cache.pages ≡ take self.old.kept.cache.capacity ((address_in area at, page_with bytes.now) ∷ without_page (address_in area at) self.old.kept.cache.pages)) }
        ensures inner { self.new.inner ≡ self.old.inner }
        ensures most { self.new.kept.cache.capacity ≡ self.old.kept.cache.capacity }
    {
        self.kept.keep(area, at, bytes)
    }
}

impl<H: Disk> Disk for CachedHost<H> {
    ghost contents = { λ host. H.contents host.inner };

    ghost may_leave = { λ host. H.may_leave host.inner };

    ghost beside = { λ host. H.beside host.inner };

    ghost moment = { λ host. H.moment host.inner };

    ghost stood_since = { λ host. H.stood_since host.inner };

    ghost faults = { λ host. H.faults host.inner };

    ghost reads = { λ host. H.reads host.inner };

    ghost renewed = { λ host. H.renewed host.inner };

    fn length(&mut self, area: Area) -> Result<u64, Failed> {
        self.inner.length(area)
    }

    fn read(&mut self, area: Area, at: u64, into: &mut [u8]) -> Result<usize, Failed> {
        if into.len() != PAGE_SIZE {
            return self.inner.read(area, at, into);
        }
        if self.copy_kept(area, at, into) {
            return Ok(PAGE_SIZE);
        }
        let given = self.inner.read(area, at, into);
        if let Ok(PAGE_SIZE) = given {
            // There is no answer for want of memory. The page isn't kept then.
            let _ = self.keep(area, at, into);
        }
        given
    }

    fn write_at(&mut self, area: Area, at: u64, bytes: &[u8]) -> Result<(), Failed> {
        self.kept.make_way(area, at);
        self.inner.write_at(area, at, bytes)
    }

    fn sync(&mut self, area: Area) -> Result<(), Failed> {
        let synced = self.inner.sync(area);
        if synced.is_err() {
            self.kept.forget();
        }
        synced
    }

    fn renew(&mut self, area: Area, at: u64) -> Result<(), Failed> {
        self.inner.renew(area, at)
    }

    ghost contents_may_stay = { λ host. H.contents_may_stay host.inner };

    ghost told_before = { λ host. H.told_before host.inner };

    ghost stands_now = { λ host. H.stands_now host.inner };

    ghost only_now = { λ host. H.only_now host.inner };

    ghost since_earlier = { λ host. H.since_earlier host.inner };

    ghost some_image = { λ host. H.some_image host.inner };

    ghost images_hold_bytes = { λ host. H.images_hold_bytes host.inner };

    ghost past_holds_bytes = { λ host. H.past_holds_bytes host.inner };

    ghost input_is_bytes = { λ host. H.input_is_bytes host.inner };
}

impl<H: Host> Host for CachedHost<H> {
    fn read_in(&mut self, into: &mut [u8]) -> Result<usize, Failed> {
        self.inner.read_in(into)
    }

    fn emit(&mut self, bytes: &[u8]) -> Result<(), Failed> {
        self.inner.emit(bytes)
    }
}
