// How many pages are free, seen without records.
use nx_holdings::{Header, read_free_page, read_header};
use nx_memory::MemoryHost;
use nx_slots::PageBytes;
use nx_wal::{Wal, WalError};
use std::alloc::Global;
use std::process::Abort;

fn open(alloc: Global, host: &mut MemoryHost) -> Result<Wal, WalError> {
    Wal::open_to_read(host, alloc)
}

fn read_page(
    rt: &impl Abort,
    host: &mut MemoryHost,
    wal: &mut Wal,
    page: u32,
    bytes: &mut PageBytes,
) -> Result<(), WalError> {
    let found = wal.page(host, page, bytes)?;
    assert!(rt; found);
    Ok(())
}

fn header(
    rt: &impl Abort,
    host: &mut MemoryHost,
    wal: &mut Wal,
    bytes: &mut PageBytes,
) -> Result<Header, WalError> {
    read_page(rt, host, wal, 0, bytes)?;
    let Some(header) = read_header(bytes) else {
        panic!(rt; "page 0 is no header");
    };
    Ok(header)
}

// The page behind a free one.
fn next_free(
    rt: &impl Abort,
    host: &mut MemoryHost,
    wal: &mut Wal,
    page: u32,
    bytes: &mut PageBytes,
) -> Result<u32, WalError> {
    read_page(rt, host, wal, page, bytes)?;
    let Some(next) = read_free_page(bytes) else {
        panic!(rt; "page {page} isn't free");
    };
    Ok(next)
}

// How many pages the free list has.
fn count_list(
    rt: &impl Abort,
    host: &mut MemoryHost,
    wal: &mut Wal,
    header: Header,
    bytes: &mut PageBytes,
) -> Result<u32, WalError> {
    let mut page = header.free;
    for free in 0..header.pages {
        if page == 0 {
            return Ok(free);
        }
        page = next_free(rt, host, wal, page, bytes)?;
    }
    panic!(rt; "the free list doesn't end");
}

/// How many pages are free after the last commit: those of the free list, and those that were never
/// used.
pub fn count_free(rt: &impl Abort, alloc: Global, host: &mut MemoryHost) -> Result<u32, WalError> {
    let mut wal = open(alloc, host)?;
    let mut bytes = PageBytes { bytes: [0; 8192] };
    let header = header(rt, host, &mut wal, &mut bytes)?;
    let listed = count_list(rt, host, &mut wal, header, &mut bytes)?;
    let unused = header.settings.limit.saturating_sub(header.pages);
    Ok(listed.saturating_add(unused))
}
