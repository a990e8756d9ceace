//! Pages that were used lately, with their bytes, by where these stand on the disk.
//!
//! Contracts see a `PageCache` as the list of its pages, the most recently used first, and how many there
//! may be (`specs/Cached.antt`).
#![tactic(auto)]

ghost use Rattle.std.specs.Prelude.{◌≡◌, ◌≤◌, [], ◌∷◌, length, take, None, IfOk, OnOk, OnErr};
ghost use Rattle.std.specs.Option.{option_copied};
ghost use Rattle.std.specs.Borrow.{sem};
ghost use Rattle.nx_numbers.specs.Sizes.{page_size};
ghost use Rattle.nx_cache.specs.Cached.{bytes_listed, page_with, without_page};

mod address;

pub use address::Address;
use lru::LruCache;
use nx_lists::NoMemory;
use nx_numbers::PAGE_SIZE;
use nx_slots::PageBytes;
use std::alloc::Global;
use std::marker::Model;
use std::num::NonZeroUsize;

/// The pages that were used last, at most so many as its capacity says.
#[derive(Drop)]
pub struct PageCache {
    alloc: Global,
    // Each page stands in a frame of its own, so that the cache moves none.
    pages: LruCache<Address, Box<PageBytes>>,
    // The frame of a page that was let go, for the next page that comes.
    spare: Option<Box<PageBytes>>,
}

// A frame with these bytes: the spare one, or else a new one.
fn frame_with(
    alloc: Global,
    spare: &mut Option<Box<PageBytes>>,
    bytes: &[u8],
) -> Result<Box<PageBytes>, NoMemory>
    requires { length bytes.now ≡ page_size }
    ensures { IfOk result (λ frame. frame.value ≡ page_with bytes.now) }
{
    let mut room = match spare.take() {
        Some(room) => room,
        None => Box::new(
            alloc,
            PageBytes {
                bytes: [0; PAGE_SIZE],
            },
        )?,
    };
    room.bytes.copy_from_slice(bytes);
    Ok(room)
}

impl Model for PageCache {
    ghost use Rattle.nx_cache.specs.Cached.{Cached, in_frames};

    ghost Value = { Cached };

    ghost view = { λ a. record { pages = in_frames a.pages.entries; capacity = a.pages.cap } };
}

impl PageCache {
    ghost use Rattle.nx_cache.specs.Lending.{EndsInFront};

    /// A cache with no page yet. It takes the memory for its index at once, and that of each page as it comes.
    ///
    /// Errors: `NoMemory`.
    pub fn new(alloc: Global, capacity: u32) -> Result<PageCache, NoMemory>
        requires { 1 ≤ capacity }
        ensures pages { IfOk result (λ cache. cache.pages ≡ []) }
        ensures capacity { IfOk result (λ cache. cache.capacity ≡ capacity) }
    {
        let Some(capacity) = NonZeroUsize::new(capacity as usize) else {
            unreachable!()
        };
        Ok(PageCache {
            alloc,
            pages: LruCache::new(alloc, capacity)?,
            spare: None,
        })
    }

    /// The bytes of the page at this address, where it is listed. The page is the most recently used then. It
    /// takes no memory, and copies nothing.
    pub fn get(&mut self, address: Address) -> Option<&PageBytes>
        ensures* pages { sem 𝓛 (EndsInFront self.entry address) }
        ensures bytes { option_copied result ≡ bytes_listed address self.old.pages }
    {
        let _distinct = self.pages.len();
        match self.pages.get(&address) {
            Some(frame) => Some(frame.as_ref()),
            None => None,
        }
    }

    /// Lists the page at this address with these bytes, 8,192 of them, as the most recently used, in place of what
    /// was listed of it. Where there are too many pages then, the least recently used is let go. The bytes are
    /// copied once.
    ///
    /// Errors: `NoMemory`, only where the page wasn't listed. The list stays.
    pub fn put(&mut self, address: Address, bytes: &[u8]) -> Result<(), NoMemory>
        requires { length bytes.now ≡ page_size }
        ensures ok { OnOk result (self.new.pages ≡ take self.old.capacity ((address, page_with bytes.now) ∷ without_page address self.old.pages)) }
        ensures err { OnErr result (self.new.pages ≡ self.old.pages) }
        ensures absent { OnErr result (bytes_listed address self.old.pages ≡ None) }
        ensures capacity { self.new.capacity ≡ self.old.capacity }
    {
        let _distinct = self.pages.len();
        if let Some(frame) = self.pages.get_mut(&address) {
            frame.bytes.copy_from_slice(bytes);
            return Ok(());
        }
        let frame = frame_with(self.alloc, &mut self.spare, bytes)?;
        match self.pages.push(address, frame) {
            Ok(gone) => {
                self.spare = gone.map(|(_, frame)| frame);
                Ok(())
            }
            Err(refused) => {
                self.spare = Some(refused.value.1);
                Err(NoMemory)
            }
        }
    }

    /// Lets all pages go. It takes no memory.
    pub fn forget(&mut self)
        ensures pages { self.new.pages ≡ [] }
        ensures capacity { self.new.capacity ≡ self.old.capacity }
    {
        self.pages.clear();
    }
}
