// What the pages of a store are used for, seen without records.
use crate::stores::LIMIT;
use nx_chain::read_chain_page;
use nx_holdings::{Header, read_free_page};
use nx_memory::MemoryHost;
use nx_records::read_header;
use nx_slots::{Page, PageBytes};
use nx_wal::{Wal, WalError};
use std::alloc::Global;
use std::process::Abort;

// More slots than a page of random records has.
const SLOTS: u16 = 256;

// The pages of a host, which of them are in use, and the bytes of the one that was read last.
#[derive(Drop)]
struct Pages<'a> {
    host: &'a mut MemoryHost,
    wal: Wal,
    used: [bool; 64],
    bytes: PageBytes,
}

impl Pages<'_> {
    // Reads a page, whose one use this is.
    fn take(&mut self, rt: &impl Abort, page: u32) -> Result<(), WalError> {
        mark(rt, &mut self.used, page);
        read_page(rt, self.host, &mut self.wal, page, &mut self.bytes)
    }

    fn header(&mut self, rt: &impl Abort) -> Result<Header, WalError> {
        self.take(rt, 0)?;
        let header = header_of(rt, &self.bytes);
        let pages = page_count(self.host, &mut self.wal)?;
        check_pages(rt, pages, header.pages);
        Ok(header)
    }

    // How many pages a free list has.
    fn free_pages(&mut self, rt: &impl Abort, first: u32) -> Result<u32, WalError> {
        let mut page = first;
        for count in 0..LIMIT {
            if page == 0 {
                return Ok(count);
            }
            page = self.next_free(rt, page)?;
        }
        panic!(rt; "the free list has no end");
    }

    fn next_free(&mut self, rt: &impl Abort, page: u32) -> Result<u32, WalError> {
        self.take(rt, page)?;
        Ok(next_of(rt, &self.bytes, page))
    }

    // How many records and chain pages there are in the pages that have no other use.
    fn rest(&mut self, rt: &impl Abort, alloc: Global, pages: u32) -> Result<Counts, WalError> {
        let mut counts = Counts::default();
        for page in 0..pages {
            if !is_used(&self.used, page) {
                counts = counts.with(self.use_of(rt, alloc, page)?);
            }
        }
        Ok(counts)
    }

    // How many records the page has, or that it is a chain page.
    fn use_of(&mut self, rt: &impl Abort, alloc: Global, page: u32) -> Result<Counts, WalError> {
        self.take(rt, page)?;
        let records = records_in(&self.bytes);
        let is_chained = is_chain_page(alloc, &self.bytes)?;
        assert!(rt; records > 0 || is_chained, "page {page} has no use");
        Ok(Counts {
            records,
            chains: u32::from(is_chained),
            free: 0,
        })
    }
}

fn is_used(used: &[bool], page: u32) -> bool {
    used.get(page as usize) != Some(&false)
}

// Marks the page, which has no use yet.
fn mark(rt: &impl Abort, used: &mut [bool], page: u32) {
    let Some(used) = used.get_mut(page as usize) else {
        panic!(rt; "page {page} is past the limit");
    };
    assert!(rt; !*used, "page {page} has two uses");
    *used = true;
}

fn read_page(
    rt: &impl Abort,
    host: &mut MemoryHost,
    wal: &mut Wal,
    page: u32,
    bytes: &mut PageBytes,
) -> Result<(), WalError> {
    let found = wal.page(host, page, bytes)?;
    assert!(rt; found, "page {page} is missing");
    Ok(())
}

fn page_count(host: &mut MemoryHost, wal: &mut Wal) -> Result<u32, WalError> {
    wal.page_count(host)
}

fn check_pages(rt: &impl Abort, found: u32, expected: u32) {
    assert_eq!(rt; found, expected);
}

fn header_of(rt: &impl Abort, bytes: &PageBytes) -> Header {
    let Some(header) = read_header(bytes) else {
        panic!(rt; "page 0 is no header");
    };
    header
}

// The page behind a free one.
fn next_of(rt: &impl Abort, bytes: &PageBytes, page: u32) -> u32 {
    let Some(next) = read_free_page(bytes) else {
        panic!(rt; "page {page} isn't free");
    };
    next
}

fn is_chain_page(alloc: Global, bytes: &PageBytes) -> Result<bool, WalError> {
    match read_chain_page(alloc, bytes) {
        Ok(found) => Ok(found.is_some()),
        Err(_) => Err(WalError::Memory),
    }
}

// How many records there are in a page, none where it isn't slotted.
fn records_in(bytes: &PageBytes) -> u32 {
    let Some(page) = Page::from_bytes(bytes) else {
        return 0;
    };
    let mut count = 0u32;
    for slot in 0..SLOTS {
        if page.read(slot).is_some() {
            count = count.saturating_add(1);
        }
    }
    count
}

/// How many records and chain pages sound pages have, and how many pages are free.
#[derive(Clone, Copy, Debug, Default, PartialEq, Eq)]
pub struct Counts {
    pub records: u32,
    pub chains: u32,
    pub free: u32,
}

impl Counts {
    // Those of both.
    fn with(self, other: Counts) -> Counts {
        Counts {
            records: self.records.saturating_add(other.records),
            chains: self.chains.saturating_add(other.chains),
            free: self.free.saturating_add(other.free),
        }
    }
}

fn open(alloc: Global, host: &mut MemoryHost) -> Result<Wal, WalError> {
    Wal::open(host, alloc)
}

/// Counts records, chain pages and free pages. Each page must have just one use, and at least as many are
/// free as there are pages but for the header, the records and the chain pages.
pub fn counts_of(
    rt: &impl Abort,
    alloc: Global,
    host: &mut MemoryHost,
) -> Result<Counts, WalError> {
    let wal = open(alloc, host)?;
    let mut pages = Pages {
        host,
        wal,
        used: [false; 64],
        bytes: PageBytes { bytes: [0; 8192] },
    };
    count(rt, alloc, &mut pages)
}

fn count(rt: &impl Abort, alloc: Global, pages: &mut Pages<'_>) -> Result<Counts, WalError> {
    let header = pages.header(rt)?;
    let listed = pages.free_pages(rt, header.free)?;
    let rest = pages.rest(rt, alloc, header.pages)?;
    let free = listed.saturating_add(LIMIT.saturating_sub(header.pages));
    let counts = Counts { free, ..rest };
    check_free(rt, counts);
    Ok(counts)
}

fn check_free(rt: &impl Abort, counts: Counts) {
    let used = counts.records.saturating_add(counts.chains);
    assert!(rt; counts.free.saturating_add(used) >= LIMIT - 1, "{counts:?}");
}

/// So much was counted.
pub fn check_counts(rt: &impl Abort, found: Counts, expected: Counts) {
    assert_eq!(rt; found, expected);
}
