// Reading a log: its groups by their heads and page numbers.
ghost use Rattle.std.specs.Prelude.{◌≡◌, [], Bool, ℕ, List, ◌+◌, ◌*◌, ◌/◌, ◌^◌, ◌<◌, ◌≤◌, ◌==◌, min, length, take, drop, slice_index, true, false, Some, None, IsSome, IfOk, IfErr, IfSome, IfNone, OnOk, OnErr, ◌↔◌};
ghost use Rattle.nx_host.specs.Disk.{Image, AreBytes, area_of, Rose, given_at};
ghost use Rattle.nx_host.specs.Still.{IsStill};
ghost use Rattle.nx_replay.specs.Log.{groups, replay, rise, entries_in, group_of, IsLogEnd, HasMark, mark};
ghost use Rattle.nx_groups.specs.Groups.{entry, entries, logged_as};
ghost use Rattle.byteorder.specs.Endian.{big_number};
ghost use Rattle.nx_wal.specs.Reading.{FillsPrefix, IsHead, IsRead, FailsBy, IsNotOpened, page_numbers, page_at, StandsAt, usable, IsHeadFor, ArePagesOf};
ghost use Rattle.nx_wal.specs.Places.{Notes, AreWithin};
ghost use Rattle.std.specs.BTreeMap.{IsEmpty, get};
ghost use Rattle.std.specs.Ordering.{nat_cmp};
ghost use Rattle.nx_numbers.specs.Sizes.{entry_size, most_pages};

use crate::pages::{area_count, has_mark};
use crate::{PageBytes, WalError};
use byteorder::{BigEndian, ByteOrder};
use nx_groups::{Group, GroupPage, GroupPages};
use nx_host::{Area, Disk, Failed};
use nx_numbers::{ENTRY_SIZE, MOST_PAGES, PAGE_SIZE};
use std::alloc::Global;
use std::collections::BTreeMap;

// What stands at the place of a gate.
#[derive(Clone, Copy)]
pub(crate) struct Head {
    // A byte is there and isn't 1.
    shut: bool,
    // How many pages the group has that may stand there, or 0.
    count: u32,
}

/// What a log says of a group at its beginning.
#[derive(Clone, Copy, Debug)]
pub struct GroupHead {
    /// The number of the group.
    pub number: u64,
    /// How many pages it has.
    pub count: u32,
}

// Where a log ends.
#[derive(Clone, Copy)]
pub(crate) struct End {
    pub(crate) at: u64,
    pub(crate) shut: bool,
}

// Reads bytes of an area.
pub(crate) fn read_from<D: Disk>(
    disk: &mut D,
    area: Area,
    at: u64,
    into: &mut [u8],
) -> Result<usize, Failed>
    ensures still { IsStill D.Disk disk.old disk.new }
    ensures reads { D.reads disk.new ≤ D.reads disk.old + 1 }
    ensures room { IfOk result (λ n. n ≤ length into.old) }
    ensures gives { IfOk result (λ n. (was : Image) → D.contents disk.old ≡ Some was → FillsPrefix n (length into.old) into.new (drop at (area_of area was))) }
    ensures cause { OnErr result (Rose (D.faults disk.old) (D.faults disk.new)) }
{
    disk.read(area, at, into)
}

// Whether a byte was given, and the first isn't 1.
fn is_shut(given: usize, head: &[u8]) -> bool
    requires { 1 ≤ length head.now }
    ensures shut { result ≡ true → (0 < given) × ((slice_index head.now 0 == 1) ≡ false) }
    ensures open { result ≡ false → 0 < given → slice_index head.now 0 ≡ 1 }
{
    given > 0 && head[0] != 1
}

// How many pages the group has whose head was given whole, where it is open and leaves a byte of the
// room; else 0.
fn pages_of(given: usize, head: &[u8], room: u64) -> u32
    requires { 13 ≤ length head.now }
    ensures whole { 0 < result → (13 ≤ given) × (13 + entry_size * result < room) }
    ensures counted { 0 < result → (slice_index head.now 0 ≡ 1) × (result ≡ big_number 4 (drop 9 head.now)) × (result ≤ most_pages) }
    ensures none { result ≡ 0 → 13 ≤ given → slice_index head.now 0 ≡ 1 → 1 ≤ big_number 4 (drop 9 head.now) → big_number 4 (drop 9 head.now) ≤ most_pages
        → 13 + entry_size * big_number 4 (drop 9 head.now) < room → ⊥ }
{
    if given < 13 || head[0] != 1 {
        return 0;
    }
    let count = BigEndian::read_u32(&head[9..]);
    if count > MOST_PAGES || 13 + ENTRY_SIZE as u64 * (count as u64) >= room {
        return 0;
    }
    count
}

// Reads the head of a group, where one may stand below the limit.
fn read_head<D: Disk>(disk: &mut D, at: u64, limit: u64) -> Result<Head, Failed>
    requires { at ≤ limit }
    ensures still { IsStill D.Disk disk.old disk.new }
    ensures reads { D.reads disk.new ≤ D.reads disk.old + 1 }
    ensures room { IfOk result (λ head. 0 < head.count → at + 13 + entry_size * head.count < limit) }
    ensures head { IfOk result (λ head. (was : Image) → D.contents disk.old ≡ Some was → limit ≡ min (2 ^ 63) (length was.log) → IsHead at head was.log) }
    ensures cause { OnErr result (Rose (D.faults disk.old) (D.faults disk.new)) }
{
    let mut head = [0u8; 13];
    let given = read_from(disk, Area::Log, at, &mut head)?;
    let shut = is_shut(given, &head);
    let count = pages_of(given, &head, limit - at);
    Ok(Head { shut, count })
}

// The number of the page that stands there, or none where a byte is missing.
fn read_number<D: Disk>(disk: &mut D, at: u64) -> Result<Option<u32>, Failed>
    ensures still { IsStill D.Disk disk.old disk.new }
    ensures reads { D.reads disk.new ≤ D.reads disk.old + 1 }
    ensures number { IfOk result (λ number. (was : Image) → D.contents disk.old ≡ Some was → at + 4 ≤ length was.log → number ≡ Some (big_number 4 (drop at was.log))) }
    ensures cause { OnErr result (Rose (D.faults disk.old) (D.faults disk.new)) }
{
    let mut number = [0u8; 4];
    let given = read_from(disk, Area::Log, at, &mut number)?;
    if given < 4 {
        return Ok(None);
    }
    Ok(Some(BigEndian::read_u32(&number)))
}

// Reads the numbers of so many pages; whether they rise strictly, and each may be.
fn read_numbers<D: Disk>(
    disk: &mut D,
    at: u64,
    count: u32,
    numbers: &mut Vec<u32>,
) -> Result<bool, WalError>
    requires { at + entry_size * count ≤ 2 ^ 63 }
    ensures still { IsStill D.Disk disk.old disk.new }
    ensures reads { D.reads disk.new ≤ D.reads disk.old + count }
    ensures rise { IfOk result (λ rises. (was : Image) → D.contents disk.old ≡ Some was → at + entry_size * count ≤ length was.log → rises ≡ rise 0 (entries_in count (drop at was.log))) }
    ensures long { IfOk result (λ rises. rises ≡ true → length numbers.new.items ≡ count) }
    ensures numbers { IfOk result (λ rises. rises ≡ true → (was : Image) → D.contents disk.old ≡ Some was → at + entry_size * count ≤ length was.log
        → numbers.new.items ≡ page_numbers (entries_in count (drop at was.log))) }
    ensures refused { IfErr result (λ e. FailsBy e (D.faults disk.old) (D.faults disk.new)) }
{
    numbers.clear();
    let mut least = 0u32;
    for i in 0..count {
        let Ok(read) = read_number(disk, at + ENTRY_SIZE as u64 * (i as u64)) else {
            return Err(WalError::Disk);
        };
        let Some(number) = read else {
            return Ok(false);
        };
        if number < least || number >= MOST_PAGES {
            return Ok(false);
        }
        let Ok(_) = numbers.push(number) else {
            return Err(WalError::Memory);
        };
        least = number + 1;
    }
    Ok(true)
}

// Notes where pages with these numbers stand, from the last to the first.
fn note_pages(
    places: &mut BTreeMap<u32, Option<u64>>,
    at: u64,
    numbers: &[u32],
) -> Result<(), WalError>
    requires { at + entry_size * length numbers.now ≤ 2 ^ 63 }
    ensures notes { OnOk result ((log : List ℕ) → numbers.now ≡ page_numbers (entries_in (length numbers.now) (drop at log))
        → Notes (entries_in (length numbers.now) (drop at log)) log places.old places.new) }
    ensures within { OnOk result ((limit : ℕ) → at + entry_size * length numbers.now ≤ limit → AreWithin limit places.old → AreWithin limit places.new) }
    ensures refused { IfErr result (λ e. e ≡ WalError.Memory) }
{
    let mut left = numbers.len();
    while left > 0 {
        left -= 1;
        let number = numbers[left];
        let Ok(_) = places.insert(number, Some(at + ENTRY_SIZE as u64 * (left as u64) + 4)) else {
            return Err(WalError::Memory);
        };
    }
    Ok(())
}

// Reads the log below the limit, and notes where its groups and pages stand.
fn read_log<D: Disk>(
    places: &mut BTreeMap<u32, Option<u64>>,
    disk: &mut D,
    starts: &mut Vec<u64>,
    limit: u64,
    alloc: Global,
) -> Result<End, WalError>
    requires none { IsEmpty places.old }
    requires none_begun { starts.old.items ≡ [] }
    requires limit { limit ≤ 2 ^ 63 }
    ensures still { IsStill D.Disk disk.old disk.new }
    ensures reads { D.reads disk.new ≤ D.reads disk.old + (3 * (limit / entry_size) + 1) }
    ensures read { IfOk result (λ end. (was : Image) → D.contents disk.old ≡ Some was → limit ≡ min (2 ^ 63) (length was.log) → IsRead places.new starts.new.items end was.log) }
    ensures refused { IfErr result (λ e. FailsBy e (D.faults disk.old) (D.faults disk.new)) }
{
    let mut at = 0u64;
    let mut numbers = Vec::new(alloc);
    loop {
        let Ok(head) = read_head(disk, at, limit) else {
            return Err(WalError::Disk);
        };
        if head.count == 0 {
            return Ok(End {
                at,
                shut: head.shut,
            });
        }
        let rises = read_numbers(disk, at + 13, head.count, &mut numbers)?;
        if !rises {
            return Ok(End {
                at,
                shut: head.shut,
            });
        }
        note_pages(places, at + 13, &numbers)?;
        let Ok(_) = starts.push(at) else {
            return Err(WalError::Memory);
        };
        at += 13 + ENTRY_SIZE as u64 * (head.count as u64);
    }
}

// Reads a page of a group, behind its number.
fn read_numbered<D: Disk>(disk: &mut D, at: u64) -> Result<GroupPage, Failed>
    ensures still { IsStill D.Disk disk.old disk.new }
    ensures reads { D.reads disk.new ≤ D.reads disk.old + 1 }
    ensures page { IfOk result (λ page. (was : Image) → D.contents disk.old ≡ Some was → at + entry_size ≤ length was.log → entry page ≡ page_at (drop at was.log)) }
    ensures cause { OnErr result (Rose (D.faults disk.old) (D.faults disk.new)) }
{
    let mut unit = [0u8; ENTRY_SIZE];
    let _given = read_from(disk, Area::Log, at, &mut unit)?;
    let mut bytes = PageBytes {
        bytes: [0; PAGE_SIZE],
    };
    bytes.bytes.copy_from_slice(&unit[4..]);
    Ok(GroupPage {
        page: BigEndian::read_u32(&unit),
        bytes,
    })
}

// Reads so many pages of a group.
fn read_pages<D: Disk>(
    disk: &mut D,
    at: u64,
    count: u32,
    alloc: Global,
) -> Result<GroupPages, WalError>
    requires { at ≤ 2 ^ 63 }
    ensures still { IsStill D.Disk disk.old disk.new }
    ensures reads { D.reads disk.new ≤ D.reads disk.old + count }
    ensures pages { IfOk result (λ pages. (was : Image) → D.contents disk.old ≡ Some was → at + entry_size * count ≤ length was.log → entries pages ≡ entries_in count (drop at was.log)) }
    ensures refused { IfErr result (λ e. FailsBy e (D.faults disk.old) (D.faults disk.new)) }
{
    let mut pages = GroupPages::new(alloc);
    for i in 0..count {
        let Ok(page) = read_numbered(disk, at + ENTRY_SIZE as u64 * (i as u64)) else {
            return Err(WalError::Disk);
        };
        let Ok(_) = pages.push(page) else {
            return Err(WalError::Memory);
        };
    }
    Ok(pages)
}

// Reads the number and the count of a group.
fn read_numbers_of<D: Disk>(disk: &mut D, at: u64) -> Result<(u64, u32), Failed>
    ensures still { IsStill D.Disk disk.old disk.new }
    ensures reads { D.reads disk.new ≤ D.reads disk.old + 1 }
    ensures head { IfOk result (λ head. (was : Image) → D.contents disk.old ≡ Some was → at + 13 ≤ length was.log
        → (head.0 ≡ big_number 8 (drop 1 (drop at was.log))) × (head.1 ≡ big_number 4 (drop 9 (drop at was.log)))) }
    ensures cause { OnErr result (Rose (D.faults disk.old) (D.faults disk.new)) }
{
    let mut head = [0u8; 13];
    let _given = read_from(disk, Area::Log, at, &mut head)?;
    Ok((
        BigEndian::read_u64(&head[1..]),
        BigEndian::read_u32(&head[9..]),
    ))
}

// Reads the group at an offset, where one stands.
pub(crate) fn read_group<D: Disk>(disk: &mut D, at: u64, alloc: Global) -> Result<Group, WalError>
    ensures still { IsStill D.Disk disk.old disk.new }
    ensures reads { (was : Image) → D.contents disk.old ≡ Some was → StandsAt at was.log → D.reads disk.new ≤ D.reads disk.old + 1 + length (group_of (drop at (usable was.log))).entries }
    ensures group { IfOk result (λ group. (was : Image) → D.contents disk.old ≡ Some was → StandsAt at was.log → logged_as group ≡ group_of (drop at (usable was.log))) }
    ensures refused { IfErr result (λ e. FailsBy e (D.faults disk.old) (D.faults disk.new)) }
{
    let Ok((number, count)) = read_numbers_of(disk, at) else {
        return Err(WalError::Disk);
    };
    let pages = read_pages(disk, at.min(9_223_372_036_854_775_000) + 13, count, alloc)?;
    Ok(Group { number, pages })
}

// Reads the number and the count of the group at an offset, where one stands.
pub(crate) fn read_group_head<D: Disk>(disk: &mut D, at: u64) -> Result<GroupHead, Failed>
    ensures still { IsStill D.Disk disk.old disk.new }
    ensures reads { D.reads disk.new ≤ D.reads disk.old + 1 }
    ensures head { IfOk result (λ head. (was : Image) → D.contents disk.old ≡ Some was → StandsAt at was.log → IsHeadFor (group_of (drop at (usable was.log))) head) }
    ensures cause { OnErr result (Rose (D.faults disk.old) (D.faults disk.new)) }
{
    let (number, count) = read_numbers_of(disk, at)?;
    Ok(GroupHead { number, count })
}

// Reads pages of the group at an offset, where one stands, from the page with this index in it on, as many as there is room for, as they stand.
pub(crate) fn read_part<D: Disk>(
    disk: &mut D,
    at: u64,
    first: u32,
    into: &mut [u8],
) -> Result<(), Failed>
    ensures still { IsStill D.Disk disk.old disk.new }
    ensures reads { D.reads disk.new ≤ D.reads disk.old + 1 }
    ensures part { OnOk result ((was : Image) → D.contents disk.old ≡ Some was → StandsAt at was.log → ArePagesOf (group_of (drop at (usable was.log))) first (length into.old) into.new) }
    ensures cause { OnErr result (Rose (D.faults disk.old) (D.faults disk.new)) }
{
    let begin = at.saturating_add(13 + ENTRY_SIZE as u64 * (first as u64));
    let _given = read_from(disk, Area::Log, begin, into)?;
    are_bytes(into);
    Ok(())
}

// As each slice of bytes, for the proofs of its callers.
fn are_bytes(_bytes: &[u8])
    ensures { AreBytes _bytes.now }
{}

// The limit below which a log's groups end.
pub(crate) fn log_limit<D: Disk>(disk: &mut D) -> Result<u64, Failed>
    ensures still { IsStill D.Disk disk.old disk.new }
    ensures reads { D.reads disk.new ≡ D.reads disk.old }
    ensures low { IfOk result (λ limit. limit ≤ 2 ^ 63) }
    ensures limit { IfOk result (λ limit. (was : Image) → D.contents disk.old ≡ Some was → limit ≡ min (2 ^ 63) (length was.log)) }
    ensures cause { OnErr result (Rose (D.faults disk.old) (D.faults disk.new)) }
{
    let length = disk.length(Area::Log)?;
    if length < 9_223_372_036_854_775_808 {
        Ok(length)
    } else {
        Ok(9_223_372_036_854_775_808)
    }
}

// A log that was opened.
#[derive(Drop)]
pub(crate) struct Opened {
    pub(crate) places: BTreeMap<u32, Option<u64>>,
    pub(crate) starts: Vec<u64>,
    pub(crate) end: End,
}

// Reads the log of a store.
pub(crate) fn open_log<D: Disk>(disk: &mut D, alloc: Global) -> Result<Opened, WalError>
    ensures still { IsStill D.Disk disk.old disk.new }
    ensures reads { IfSome (D.contents disk.old) (λ was. D.reads disk.new ≤ D.reads disk.old + (3 * (length was.log / entry_size + 1) + 1)) }
    ensures read { IfOk result (λ opened. (was : Image) → D.contents disk.old ≡ Some was → IsRead opened.places opened.starts.items opened.end was.log × HasMark (replay was)) }
    ensures refused { IfErr result (λ e. IsNotOpened e (D.faults disk.old) (D.faults disk.new) ((was : Image) → D.contents disk.old ≡ Some was → HasMark (replay was) → ⊥)) }
{
    let Ok(limit) = log_limit(disk) else {
        return Err(WalError::Disk);
    };
    let mut places = BTreeMap::new(alloc);
    let mut starts = Vec::new(alloc);
    let end = read_log(&mut places, disk, &mut starts, limit, alloc)?;
    let Ok(is) = has_mark(disk, &places) else {
        return Err(WalError::Disk);
    };
    if !is {
        return Err(WalError::NotAStore);
    }
    Ok(Opened {
        places,
        starts,
        end,
    })
}

// Whether a group stands at a log's beginning.
fn has_group<D: Disk>(disk: &mut D, head: Head, alloc: Global) -> Result<bool, WalError>
    ensures still { IsStill D.Disk disk.old disk.new }
    ensures some { IfOk result (λ has. has ≡ true → (0 < head.count) × ((was : Image) → D.contents disk.old ≡ Some was → 13 + entry_size * head.count ≤ length was.log
        → rise 0 (entries_in head.count (drop 13 was.log)) ≡ true)) }
    ensures none { IfOk result (λ has. has ≡ false → 0 < head.count → (was : Image) → D.contents disk.old ≡ Some was → 13 + entry_size * head.count ≤ length was.log
        → rise 0 (entries_in head.count (drop 13 was.log)) ≡ false) }
    ensures refused { IfErr result (λ e. FailsBy e (D.faults disk.old) (D.faults disk.new)) }
{
    if head.count == 0 {
        return Ok(false);
    }
    let mut numbers = Vec::new(alloc);
    read_numbers(disk, 13, head.count, &mut numbers)
}

// Where the disk has no page, whether a closed byte stands at the log's beginning.
pub(crate) fn shut_of_none<D: Disk>(disk: &mut D, alloc: Global) -> Result<Option<bool>, WalError>
    ensures still { IsStill D.Disk disk.old disk.new }
    ensures some { IfOk result (λ found. (shut : Bool) → found ≡ Some shut → (was : Image) → D.contents disk.old ≡ Some was → IsLogEnd 0 shut was.log × ((p : ℕ) → replay was p ≡ None)) }
    ensures none { IfOk result (λ found. found ≡ None → (was : Image) → D.contents disk.old ≡ Some was → (p : ℕ) × IsSome (replay was p)) }
    ensures refused { IfErr result (λ e. FailsBy e (D.faults disk.old) (D.faults disk.new)) }
{
    let Ok(limit) = log_limit(disk) else {
        return Err(WalError::Disk);
    };
    let Ok(head) = read_head(disk, 0, limit) else {
        return Err(WalError::Disk);
    };
    if has_group(disk, head, alloc)? {
        return Ok(None);
    }
    let Ok(count) = area_count(disk) else {
        return Err(WalError::Disk);
    };
    if count > 0 {
        return Ok(None);
    }
    Ok(Some(head.shut))
}
