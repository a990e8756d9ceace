// Reads of whole pages, through a host that keeps them, of a host in memory that counts its reads.
use nx_cached_host::CachedHost;
use nx_host::{Area, Disk};
use nx_lists::NoMemory;
use nx_memory::{Image, MemoryHost};
use nx_numbers::PAGE_SIZE;
use nx_tree::Bytes;
use std::alloc::Global;
use std::process::Abort;
use std::test::Fail;

const PAGE: u64 = PAGE_SIZE as u64;

// How many pages a host keeps at most.
const MOST_KEPT: u32 = 20;

// Two pages and a half: of the byte 1, of 2, and of 3.
fn area(alloc: Global) -> Result<Bytes, NoMemory> {
    let mut bytes = Vec::new(alloc);
    bytes.resize(PAGE_SIZE, 1)?;
    bytes.resize(2 * PAGE_SIZE, 2)?;
    bytes.resize(2 * PAGE_SIZE + PAGE_SIZE / 2, 3)?;
    Ok(Bytes::from_vec(bytes))
}

// A host of two such areas, whose call of that number fails.
fn host(alloc: Global, failing: u64) -> Result<CachedHost<MemoryHost>, NoMemory> {
    let image = Image {
        pages: area(alloc)?,
        log: area(alloc)?,
    };
    let mut host = MemoryHost::new(alloc, image, Bytes::new(alloc), 1, 100_000)?;
    host.fail_calls(&[failing])?;
    CachedHost::new(alloc, host, MOST_KEPT)
}

// Reads a page, of which so many bytes are to be given, the first and the last of them these, and by so many reads
// of the host behind.
fn expect(
    rt: &impl Abort,
    host: &mut CachedHost<MemoryHost>,
    (area, at): (Area, u64),
    (given, first, last): (usize, u8, u8),
    asked: u64,
) -> Result<(), Fail> {
    let before = host.inner().counts().reads;
    let mut page = [0u8; PAGE_SIZE];
    assert!(rt; host.read(area, at, &mut page)? == given, "{area:?} {at}");
    assert!(rt; page[0] == first, "{area:?} {at}");
    assert!(rt;
        page[given.clamp(1, PAGE_SIZE) - 1] == last,
        "{area:?} {at}"
    );
    assert!(rt;
        host.inner().counts().reads.wrapping_sub(before) == asked,
        "{area:?} {at}"
    );
    Ok(())
}

#[test]
fn a_page_is_read_once(rt: HostRuntime) -> Result<(), Fail> {
    let mut host = host(rt.alloc(), 0)?;
    let whole = PAGE_SIZE;
    expect(&rt, &mut host, (Area::Pages, 0), (whole, 1, 1), 1)?;
    expect(&rt, &mut host, (Area::Pages, PAGE), (whole, 2, 2), 1)?;
    // The same offset of the other area, and another offset, are other pages.
    expect(&rt, &mut host, (Area::Log, PAGE), (whole, 2, 2), 1)?;
    expect(&rt, &mut host, (Area::Log, PAGE - 1), (whole, 1, 2), 1)?;
    expect(&rt, &mut host, (Area::Pages, 0), (whole, 1, 1), 0)?;
    expect(&rt, &mut host, (Area::Pages, PAGE), (whole, 2, 2), 0)?;
    expect(&rt, &mut host, (Area::Log, PAGE), (whole, 2, 2), 0)?;
    expect(&rt, &mut host, (Area::Log, PAGE - 1), (whole, 1, 2), 0)
}

// What isn't a whole page is asked for each time.
#[test]
fn no_part_of_a_page_is_kept(rt: HostRuntime) -> Result<(), Fail> {
    let mut host = host(rt.alloc(), 0)?;
    let half = PAGE_SIZE / 2;
    for _ in 0..2 {
        expect(&rt, &mut host, (Area::Log, 2 * PAGE), (half, 3, 3), 1)?;
        let mut part = [0u8; 100];
        assert!(rt; host.read(Area::Log, 0, &mut part)? == 100);
        assert!(rt; part[99] == 1);
    }
    assert!(rt; host.inner().counts().reads == 4);
    Ok(())
}

#[test]
fn a_page_that_was_written_is_read_anew(rt: HostRuntime) -> Result<(), Fail> {
    let mut host = host(rt.alloc(), 0)?;
    let whole = PAGE_SIZE;
    for area in [Area::Pages, Area::Log] {
        expect(&rt, &mut host, (area, 0), (whole, 1, 1), 1)?;
        host.write_at(area, PAGE - 1, &[7])?;
        expect(&rt, &mut host, (area, 0), (whole, 1, 7), 1)?;
        host.write_at(area, 0, &[8])?;
        expect(&rt, &mut host, (area, 0), (whole, 8, 7), 1)?;
        // A write behind it leaves it.
        host.write_at(area, PAGE, &[9])?;
        expect(&rt, &mut host, (area, 0), (whole, 8, 7), 0)?;
        expect(&rt, &mut host, (area, PAGE), (whole, 9, 2), 1)?;
    }
    Ok(())
}

// The third call fails: read, sync, sync.
#[test]
fn a_sync_that_fails_lets_all_go(rt: HostRuntime) -> Result<(), Fail> {
    let mut host = host(rt.alloc(), 3)?;
    let whole = PAGE_SIZE;
    expect(&rt, &mut host, (Area::Pages, 0), (whole, 1, 1), 1)?;
    assert!(rt; host.sync(Area::Log).is_ok());
    expect(&rt, &mut host, (Area::Pages, 0), (whole, 1, 1), 0)?;
    assert!(rt; host.sync(Area::Log).is_err());
    expect(&rt, &mut host, (Area::Pages, 0), (whole, 1, 1), 1)
}

// Pages that begin at each of the first bytes, one more than are kept: the first one is let go for the last.
#[test]
fn the_last_pages_are_kept(rt: HostRuntime) -> Result<(), Fail> {
    let mut host = host(rt.alloc(), 0)?;
    let mut page = [0u8; PAGE_SIZE];
    let most = u64::from(MOST_KEPT);
    for at in 0..=most {
        host.read(Area::Log, at, &mut page)?;
    }
    for at in 1..=most {
        host.read(Area::Log, at, &mut page)?;
    }
    assert!(rt; host.inner().counts().reads == most + 1);
    expect(&rt, &mut host, (Area::Log, 0), (PAGE_SIZE, 1, 1), 1)
}
