// Reading pages.
ghost use Rattle.std.specs.Prelude.{◌≡◌, ℕ, List, ◌+◌, ◌*◌, ◌^◌, ◌<◌, ◌≤◌, length, take, drop, true, false, Some, None, IsSome, IfOk, IfSome, IfNone, OnErr, ◌↔◌};
ghost use Rattle.nx_numbers.specs.Sizes.{page_size, most_pages};
ghost use Rattle.nx_host.specs.Disk.{Image, area_of, Rose};
ghost use Rattle.nx_host.specs.Still.{IsStill};
ghost use Rattle.nx_replay.specs.Log.{groups, replay, HasMark, mark};
ghost use Rattle.nx_wal.specs.Places.{LeadsTo, AreWithin};
ghost use Rattle.nx_wal.specs.Reading.{page_found};

use crate::PageBytes;
use crate::places::place_of;
use crate::reading::read_from;
use nx_host::{Area, Disk, Failed};
use nx_numbers::{MOST_PAGES, PAGE_SIZE};
use std::collections::BTreeMap;

// What a store begins with.
const MARK: [u8; 8] = *b"NATIXST1";

// Whether the eight bytes that a store begins with stand there.
fn begins_with_mark<D: Disk>(disk: &mut D, area: Area, at: u64) -> Result<bool, Failed>
    ensures still { IsStill D.Disk disk.old disk.new }
    ensures reads { D.reads disk.new ≤ D.reads disk.old + 1 }
    ensures mark { IfOk result (λ is. (was : Image) → D.contents disk.old ≡ Some was → at + 8 ≤ length (area_of area was) → (is ≡ true) ↔ (take 8 (drop at (area_of area was)) ≡ mark)) }
    ensures cause { OnErr result (Rose (D.faults disk.old) (D.faults disk.new)) }
{
    let mut first = [0u8; 8];
    let given = read_from(disk, area, at, &mut first)?;
    Ok(given == 8 && first == MARK)
}

// Whether page 0 is there and begins as a store does.
pub(crate) fn has_mark<D: Disk>(
    disk: &mut D,
    places: &BTreeMap<u32, Option<u64>>,
) -> Result<bool, Failed>
    ensures still { IsStill D.Disk disk.old disk.new }
    ensures reads { D.reads disk.new ≤ D.reads disk.old + 1 }
    ensures mark { IfOk result (λ is. (was : Image) → D.contents disk.old ≡ Some was → LeadsTo (groups was.log) places.now was.log → AreWithin (length was.log) places.now
        → (is ≡ true) ↔ HasMark (replay was)) }
    ensures cause { OnErr result (Rose (D.faults disk.old) (D.faults disk.new)) }
{
    if let Some(at) = place_of(places, 0) {
        return begins_with_mark(disk, Area::Log, at);
    }
    let length = disk.length(Area::Pages)?;
    if length < PAGE_SIZE as u64 {
        return Ok(false);
    }
    begins_with_mark(disk, Area::Pages, 0)
}

// Reads a whole page, where one stands there.
fn read_whole<D: Disk>(
    disk: &mut D,
    area: Area,
    at: u64,
    into: &mut PageBytes,
) -> Result<bool, Failed>
    ensures still { IsStill D.Disk disk.old disk.new }
    ensures reads { D.reads disk.new ≤ D.reads disk.old + 1 }
    ensures whole { IfOk result (λ found. found ≡ true → (was : Image) → D.contents disk.old ≡ Some was → (at + page_size ≤ length (area_of area was)) × (into.new.bytes ≡ take page_size (drop at (area_of area was)))) }
    ensures missing { IfOk result (λ found. found ≡ false → (was : Image) → D.contents disk.old ≡ Some was → at + page_size ≤ length (area_of area was) → ⊥) }
    ensures cause { OnErr result (Rose (D.faults disk.old) (D.faults disk.new)) }
{
    let given = read_from(disk, area, at, &mut into.bytes)?;
    if given < PAGE_SIZE {
        return Ok(false);
    }
    Ok(true)
}

// Reads a page as the log, else the pages area, has it.
pub(crate) fn read_page<D: Disk>(
    disk: &mut D,
    places: &BTreeMap<u32, Option<u64>>,
    page: u32,
    into: &mut PageBytes,
) -> Result<bool, Failed>
    ensures still { IsStill D.Disk disk.old disk.new }
    ensures reads { D.reads disk.new ≤ D.reads disk.old + 1 }
    ensures found { IfOk result (λ found. (was : Image) → D.contents disk.old ≡ Some was → LeadsTo (groups was.log) places.now was.log → AreWithin (length was.log) places.now
        → replay was page ≡ page_found found into.new.bytes) }
    ensures cause { OnErr result (Rose (D.faults disk.old) (D.faults disk.new)) }
{
    if let Some(at) = place_of(places, page) {
        return read_whole(disk, Area::Log, at, into);
    }
    if page >= MOST_PAGES {
        return Ok(false);
    }
    read_whole(disk, Area::Pages, PAGE_SIZE as u64 * (page as u64), into)
}

// The length of the pages area in whole pages.
pub(crate) fn area_count<D: Disk>(disk: &mut D) -> Result<u32, Failed>
    ensures still { IsStill D.Disk disk.old disk.new }
    ensures reads { D.reads disk.new ≡ D.reads disk.old }
    ensures low { IfOk result (λ count. count ≤ most_pages) }
    ensures count { IfOk result (λ count. (was : Image) → D.contents disk.old ≡ Some was → (p : ℕ) → (p < count) ↔ ((p < most_pages) × (page_size * p + page_size ≤ length was.pages))) }
    ensures cause { OnErr result (Rose (D.faults disk.old) (D.faults disk.new)) }
{
    let length = disk.length(Area::Pages)?;
    Ok(whole_pages(length))
}

// How many whole pages that may be lie within so many bytes.
fn whole_pages(length: u64) -> u32
    ensures count { (p : ℕ) → (p < result) ↔ ((p < most_pages) × (page_size * p + page_size ≤ length)) }
    ensures low { result ≤ most_pages }
{
    (length / PAGE_SIZE as u64).min(MOST_PAGES as u64) as u32
}
