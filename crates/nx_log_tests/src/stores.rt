// Stores of a few pages, and what is seen of them.
use nx_memory::{Image, MemoryHost};
use nx_tree::{Bytes, NoMemory};
use nx_wal::{PageBytes, Wal, WalError};
use std::alloc::Global;
use std::process::Abort;
use std::test::Fail;

// What page 0 of a store begins with.
const MARK: [u8; 8] = *b"NATIXST1";

/// A page of one byte alone, but for the mark of page 0.
pub fn page(number: u32, byte: u8) -> PageBytes {
    let mut page = PageBytes {
        bytes: [byte; 8192],
    };
    if number == 0 {
        page.bytes[..8].copy_from_slice(&MARK);
    }
    page
}

/// A host of these areas with room for some commits.
pub fn host_of(alloc: Global, image: Image) -> Result<MemoryHost, NoMemory> {
    MemoryHost::new(alloc, image, Bytes::new(alloc), 1, 131_072)
}

/// A host with empty areas.
pub fn empty_host(alloc: Global) -> Result<MemoryHost, NoMemory> {
    let image = Image {
        pages: Bytes::new(alloc),
        log: Bytes::new(alloc),
    };
    host_of(alloc, image)
}

/// Commits two pages, each of one byte alone.
pub fn commit_two(
    rt: &impl Abort,
    host: &mut MemoryHost,
    wal: &mut Wal,
    pages: [(u32, u8); 2],
) -> Result<Result<(), WalError>, Fail> {
    let [(first, byte), (second, other)] = pages;
    assert!(rt; first < 16_777_216 && second < 16_777_216);
    wal.put(first, &page(first, byte))?;
    wal.put(second, &page(second, other))?;
    assert!(rt; wal.log_length() <= 1 << 62);
    Ok(wal.commit(host, 0))
}

/// The byte of each page that an image stands for, 255 for a page that isn't one of `page`; nothing
/// where it has no store.
pub fn bytes_of(alloc: Global, image: Image) -> Result<Vec<u8>, Fail> {
    let mut host = host_of(alloc, image)?;
    let mut bytes = Vec::new(alloc);
    let mut wal = match Wal::open(&mut host, alloc) {
        Ok(wal) => wal,
        Err(WalError::NotAStore) => return Ok(bytes),
        Err(error) => return Err(Fail::new(error)),
    };
    for number in 0..wal.page_count(&mut host)? {
        let mut into = page(number, 0);
        let found = wal.page(&mut host, number, &mut into)?;
        let byte = into.bytes[8];
        let same = found && into.bytes == page(number, byte).bytes;
        bytes.push(if same { byte } else { 255 })?;
    }
    Ok(bytes)
}
