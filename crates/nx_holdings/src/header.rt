// The header of a store, which is its page 0.
ghost use Rattle.nx_holdings.specs.Header.{AreSettings, IsHeader, IsInRange, IsHeaderLaid, IsNoHeader, header_bytes};
ghost use Rattle.nx_numbers.specs.Numbers.{number_at};
ghost use Rattle.std.specs.Prelude.{◌≡◌, ◌↔◌, ◌+◌, ◌∷◌, ◌++◌, [], ◌≤◌, ℕ, List, length, drop, true, MatchOption};
ghost use Rattle.nx_numbers.specs.Sizes.{page_size};
ghost use Rattle.nx_replay.specs.Log.{mark};

use crate::free::blank;
use nx_numbers::{MOST_PAGES, set_u16_at, set_u32_at, set_u64_at, u16_at, u32_at, u64_at};
use nx_slots::PageBytes;

/// The newest format of a store. Pages of the older one, 1, are read as those of this one.
pub const NEWEST_FORMAT: u16 = 2;

/// What a store is set to when it is made.
#[derive(Clone, Copy, Debug, PartialEq, Eq)]
pub struct Settings {
    /// The most that a part may weigh, in slots: 1 to 256.
    pub k: u32,
    /// Where a split aims, in percent: 0 to 100.
    pub target: u32,
    /// How far a split may miss its target, in slots: 0 to 256.
    pub tolerance: u32,
    /// How many pages there may be: 64 to 16,777,216.
    pub limit: u32,
}

/// The header of a store, its page 0.
#[derive(Clone, Copy, Debug, PartialEq, Eq)]
pub struct Header {
    /// The format of the store, from 1 to the newest.
    pub format: u16,
    /// What the store is set to.
    pub settings: Settings,
    /// All used and free pages are below this number, which is at least 2 and at most the limit.
    pub pages: u32,
    /// The first free page, 0 for none.
    pub free: u32,
    /// The slotted page that is tried first for a new record, 0 for none.
    pub room: u32,
    /// The number of the last log group.
    pub number: u64,
    /// The first chain page of the catalog.
    pub catalog: u32,
    /// The length of the catalog in bytes, at least 8.
    pub catalog_length: u64,
}

// What a store begins with.
const MARK: [u8; 8] = *b"NATIXST1";

/// Whether a store may have these settings.
pub fn are_settings(settings: &Settings) -> bool
    ensures { (result ≡ true) ↔ AreSettings settings.now }
{
    settings.k >= 1
        && settings.k <= 256
        && settings.target <= 100
        && settings.tolerance <= 256
        && settings.limit >= 64
        && settings.limit <= MOST_PAGES
}

// Whether each field is in its range.
fn is_in_range(header: Header) -> bool
    ensures yes { result ≡ true → IsInRange header }
    ensures no { IsInRange header → result ≡ true }
{
    if header.format < 1 || header.format > NEWEST_FORMAT || !are_settings(&header.settings) {
        return false;
    }
    if header.pages < 2 || header.pages > header.settings.limit {
        return false;
    }
    header.catalog_length >= 8
}

// Writes the mark in front.
fn set_mark(bytes: &mut [u8])
    requires { 8 ≤ length bytes.old }
    ensures { bytes.new ≡ mark ++ drop 8 bytes.old }
{
    bytes[..8].copy_from_slice(&MARK);
}

// A page that begins with the mark, and has zero bytes behind it.
fn marked() -> PageBytes
    ensures { IsHeaderLaid result.bytes 8 [] }
{
    let mut page = blank();
    set_mark(&mut page.bytes);
    page
}

// Writes the next field of two bytes.
fn lay_u16(page: &mut PageBytes, at: usize, number: u16)
    requires { at + 2 ≤ page_size }
    ensures { (fields : List (ℕ × ℕ)) → IsHeaderLaid page.old.bytes at fields → IsHeaderLaid page.new.bytes (at + 2) (fields ++ (2, number) ∷ []) }
{
    set_u16_at(&mut page.bytes, at, number);
}

// Writes the next field of four bytes.
fn lay_u32(page: &mut PageBytes, at: usize, number: u32)
    requires { at + 4 ≤ page_size }
    ensures { (fields : List (ℕ × ℕ)) → IsHeaderLaid page.old.bytes at fields → IsHeaderLaid page.new.bytes (at + 4) (fields ++ (4, number) ∷ []) }
{
    set_u32_at(&mut page.bytes, at, number);
}

// Writes the next field of eight bytes.
fn lay_u64(page: &mut PageBytes, at: usize, number: u64)
    requires { at + 8 ≤ page_size }
    ensures { (fields : List (ℕ × ℕ)) → IsHeaderLaid page.old.bytes at fields → IsHeaderLaid page.new.bytes (at + 8) (fields ++ (8, number) ∷ []) }
{
    set_u64_at(&mut page.bytes, at, number);
}

/// The page with this header, whose fields are in their ranges: settings as a store has them, 2 pages to
/// their limit, and a catalog of at least 8 bytes. It takes no memory.
pub fn header_page(header: &Header) -> PageBytes
    requires { IsInRange header.now }
    ensures { result.bytes ≡ header_bytes header.now }
{
    let mut page = marked();
    lay_u16(&mut page, 8, header.format);
    lay_u16(&mut page, 10, header.settings.k as u16);
    lay_u16(&mut page, 12, header.settings.target as u16);
    lay_u16(&mut page, 14, header.settings.tolerance as u16);
    lay_u32(&mut page, 16, header.settings.limit);
    lay_u32(&mut page, 20, header.pages);
    lay_u32(&mut page, 24, header.free);
    lay_u32(&mut page, 28, header.room);
    lay_u64(&mut page, 32, header.number);
    lay_u32(&mut page, 40, header.catalog);
    lay_u64(&mut page, 44, header.catalog_length);
    page
}

// What the fields of a header say.
fn fields_at(bytes: &PageBytes) -> Header
    requires { length bytes.now.bytes ≡ page_size }
    ensures settings { result.settings ≡ (record {
      k = number_at 2 bytes.now.bytes 10;
      target = number_at 2 bytes.now.bytes 12;
      tolerance = number_at 2 bytes.now.bytes 14;
      limit = number_at 4 bytes.now.bytes 16;
    }) }
    ensures fields { result ≡ (record {
      format = number_at 2 bytes.now.bytes 8;
      settings = result.settings;
      pages = number_at 4 bytes.now.bytes 20;
      free = number_at 4 bytes.now.bytes 24;
      room = number_at 4 bytes.now.bytes 28;
      number = number_at 8 bytes.now.bytes 32;
      catalog = number_at 4 bytes.now.bytes 40;
      catalog_length = number_at 8 bytes.now.bytes 44;
    }) }
{
    let settings = Settings {
        k: u16_at(&bytes.bytes, 10) as u32,
        target: u16_at(&bytes.bytes, 12) as u32,
        tolerance: u16_at(&bytes.bytes, 14) as u32,
        limit: u32_at(&bytes.bytes, 16),
    };
    Header {
        format: u16_at(&bytes.bytes, 8),
        settings,
        pages: u32_at(&bytes.bytes, 20),
        free: u32_at(&bytes.bytes, 24),
        room: u32_at(&bytes.bytes, 28),
        number: u64_at(&bytes.bytes, 32),
        catalog: u32_at(&bytes.bytes, 40),
        catalog_length: u64_at(&bytes.bytes, 44),
    }
}

/// The header of these bytes, and none exactly where they are no header: where they don't begin with
/// the eight bytes `NATIXST1`, a field is out of its range, or what follows the fields isn't zero. It
/// takes no memory.
pub fn read_header(bytes: &PageBytes) -> Option<Header>
    ensures { MatchOption result (IsNoHeader bytes.now.bytes) (λ header. IsHeader bytes.now.bytes header) }
{
    let header = fields_at(bytes);
    if !is_in_range(header) {
        return None;
    }
    let page = header_page(&header);
    if page.bytes == bytes.bytes {
        Some(header)
    } else {
        None
    }
}
