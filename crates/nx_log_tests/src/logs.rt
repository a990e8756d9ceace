// What stands in a log, also where strangers wrote it.
use crate::stores::{bytes_of, commit_two, empty_host, host_of, page};
use nx_memory::{Choice, Image, MemoryHost};
use nx_tree::{Bytes, NoMemory};
use nx_wal::{Wal, WalError};
use std::alloc::Global;
use std::process::Abort;
use std::test::Fail;

// The bytes of a group: a gate, a number, a count, pages of the byte 7 under these numbers, and the
// next gate.
fn group(alloc: Global, gate: u8, count: u32, numbers: &[u32]) -> Result<Bytes, NoMemory> {
    let mut bytes = Bytes::new(alloc);
    bytes.push(gate)?;
    bytes.extend_from_slice(&[0; 8])?;
    bytes.extend_from_slice(&count.to_be_bytes())?;
    for number in numbers {
        bytes.extend_from_slice(&number.to_be_bytes())?;
        bytes.extend_from_slice(&page(*number, 7).bytes)?;
    }
    bytes.push(0)?;
    Ok(bytes)
}

// A store of one page of the byte 5, and this log.
fn store_with(alloc: Global, log: Bytes) -> Result<Image, NoMemory> {
    Ok(Image {
        pages: Bytes::from_slice(alloc, &page(0, 5).bytes)?,
        log,
    })
}

// How long the log is, as it is opened.
fn log_length(alloc: Global, log: Bytes) -> Result<u64, Fail> {
    let mut host = host_of(alloc, store_with(alloc, log)?)?;
    let wal = Wal::open_to_read(&mut host, alloc)?;
    Ok(wal.log_length())
}

// How long the areas are in an image.
fn check_lengths(
    rt: &impl Abort,
    host: &MemoryHost,
    choice: Choice,
    pages: usize,
    log: usize,
) -> Result<(), NoMemory> {
    let image = host.image(choice)?;
    assert_eq!(rt; (image.pages.len(), image.log.len()), (pages, log));
    Ok(())
}

// A new log takes two pages, and a checkpoint moves them.
fn check_moved(rt: &impl Abort, host: &mut MemoryHost, wal: &mut Wal) -> Result<(), Fail> {
    commit_two(rt, host, wal, [(0, 1), (1, 1)])??;
    assert_eq!(rt; wal.log_length(), 16_405);
    check_lengths(rt, host, Choice::Kept, 0, 16_406)?;
    empty(host, wal)?;
    assert_eq!(rt; wal.log_length(), 0);
    Ok(())
}

fn empty(host: &mut MemoryHost, wal: &mut Wal) -> Result<(), WalError> {
    wal.abandon();
    wal.checkpoint(host)
}

fn check_made(rt: &impl Abort, alloc: Global, host: &mut MemoryHost) -> Result<(), Fail> {
    let mut wal = Wal::create(host, alloc)?;
    check_moved(rt, host, &mut wal)
}

// The pages are those of the byte 1, and there is a store.
fn check_there(rt: &impl Abort, alloc: Global, host: &mut MemoryHost) -> Result<(), Fail> {
    let again = Wal::create(host, alloc).err();
    assert_eq!(rt; again, Some(WalError::Exists));
    let found = bytes_of(alloc, host.image(Choice::Lost)?)?;
    assert_eq!(rt; found.as_slice(), [1u8, 1].as_slice());
    Ok(())
}

fn check_nothing(rt: &impl Abort, alloc: Global, host: &mut MemoryHost) {
    let opened = Wal::open(host, alloc).err();
    assert_eq!(rt; opened, Some(WalError::NotAStore));
}

#[test]
fn two_pages_are_committed_and_moved(rt: HostRuntime) -> Result<(), Fail> {
    let mut host = empty_host(rt.alloc())?;
    check_nothing(&rt, rt.alloc(), &mut host);
    check_made(&rt, rt.alloc(), &mut host)?;
    check_there(&rt, rt.alloc(), &mut host)
}

// A log of this group is so long.
fn check_group(
    rt: &impl Abort,
    alloc: Global,
    (gate, count, numbers): (u8, u32, &[u32]),
    length: u64,
) -> Result<(), Fail> {
    let log = group(alloc, gate, count, numbers)?;
    let found = log_length(alloc, log)?;
    assert_eq!(rt; found, length, "{gate} {count} {numbers:?}");
    Ok(())
}

#[test]
fn what_is_no_group_ends_the_log(rt: HostRuntime) -> Result<(), Fail> {
    let alloc = rt.alloc();
    let groups: [(u8, u32, &[u32], u64); 11] = [
        (1, 1, &[1], 8_209),
        (1, 2, &[1, 16_777_215], 16_405),
        // A closed gate, whatever stands behind it.
        (0, 1, &[1], 0),
        (2, 1, &[1], 0),
        (255, 1, &[1], 0),
        // No pages, and more than there are.
        (1, 0, &[], 0),
        (1, 2, &[1], 0),
        (1, 4_294_967_295, &[1, 2], 0),
        // Numbers that don't rise, or are too great.
        (1, 2, &[1, 1], 0),
        (1, 2, &[2, 1], 0),
        (1, 1, &[16_777_216], 0),
    ];
    for (gate, count, numbers, length) in groups {
        check_group(&rt, alloc, (gate, count, numbers), length)?;
    }
    Ok(())
}

#[test]
fn a_group_that_is_cut_is_none(rt: HostRuntime) -> Result<(), Fail> {
    let alloc = rt.alloc();
    let whole = group(alloc, 1, 1, &[1])?;
    let bytes = whole.as_slice();
    for cut in 0..bytes.len() {
        let log = Bytes::from_slice(alloc, &bytes[..cut])?;
        assert_eq!(rt; log_length(alloc, log)?, 0, "cut at {cut}");
    }
    assert_eq!(rt; log_length(alloc, whole)?, 8_209);
    Ok(())
}

// Two groups, a checkpoint, and a shorter group over theirs.
fn write_over(rt: &impl Abort, host: &mut MemoryHost, wal: &mut Wal) -> Result<(), Fail> {
    commit_two(rt, host, wal, [(0, 1), (1, 1)])??;
    commit_two(rt, host, wal, [(1, 2), (2, 2)])??;
    empty(host, wal)?;
    commit_two(rt, host, wal, [(0, 3), (2, 3)])??;
    assert_eq!(rt; wal.log_length(), 16_405);
    Ok(())
}

fn check_over(rt: &impl Abort, alloc: Global, host: &mut MemoryHost) -> Result<(), Fail> {
    let mut wal = Wal::create(host, alloc)?;
    write_over(rt, host, &mut wal)
}

// A longer log that a checkpoint left behind a closed gate, or that a shorter group was written over.
#[test]
fn stale_groups_count_for_nothing(rt: HostRuntime) -> Result<(), Fail> {
    let mut host = empty_host(rt.alloc())?;
    check_over(&rt, rt.alloc(), &mut host)?;
    check_lengths(&rt, &host, Choice::Kept, 24_576, 32_811)?;
    let found = bytes_of(rt.alloc(), host.image(Choice::Kept)?)?;
    assert_eq!(rt; found.as_slice(), [3u8, 2, 3].as_slice());
    Ok(())
}
