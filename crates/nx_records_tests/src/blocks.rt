// Lists that are read block by block, beside the whole.
use crate::checks::{check_bytes, check_count};
use crate::stores::{LIMIT, Store};
use nx_lists::List;
use nx_records::{ListReader, StoreError};
use std::alloc::{AllocError, Global};
use std::process::Abort;
use std::test::Fail;

// So many bytes, no two of which that stand a page apart are the same.
fn some_bytes(alloc: Global, len: u64) -> Result<Vec<u8>, AllocError> {
    let mut bytes = Vec::new(alloc);
    push_some(&mut bytes, len)?;
    Ok(bytes)
}

fn push_some(bytes: &mut Vec<u8>, len: u64) -> Result<(), AllocError> {
    for index in 0..len {
        bytes.push((index % 251) as u8)?;
    }
    Ok(())
}

// The next block of a list, for which one page was read; no page where there is none.
fn block(
    rt: &impl Abort,
    store: &mut Store,
    reader: &mut ListReader,
) -> Result<Option<List<u8>>, StoreError> {
    let before = store.reads();
    let found = store.next_block(reader)?;
    let made = store.reads().saturating_sub(before);
    check_count(rt, made, u64::from(found.is_some()));
    Ok(found)
}

fn extend(bytes: &mut List<u8>, block: &[u8]) -> Result<(), StoreError> {
    match bytes.extend_from_slice(block) {
        Ok(_) => Ok(()),
        Err(_) => Err(StoreError::Memory),
    }
}

// No block but the last has fewer than 8,184 bytes.
fn check_length(rt: &impl Abort, length: usize, left: u64) {
    assert!(rt; length == 8_184 || left == 0);
}

// Adds the next block, and says whether there was one.
fn push_block(
    rt: &impl Abort,
    store: &mut Store,
    reader: &mut ListReader,
    bytes: &mut List<u8>,
) -> Result<bool, StoreError> {
    let Some(found) = block(rt, store, reader)? else {
        check_count(rt, reader.left(), 0);
        return Ok(false);
    };
    check_length(rt, found.len(), reader.left());
    extend(bytes, found.as_slice())?;
    Ok(true)
}

fn push_blocks(
    rt: &impl Abort,
    store: &mut Store,
    reader: &mut ListReader,
    bytes: &mut List<u8>,
) -> Result<u32, StoreError> {
    for count in 0..LIMIT {
        if !push_block(rt, store, reader, bytes)? {
            return Ok(count);
        }
    }
    panic!(rt; "the list has no end");
}

/// The bytes of a list, read block by block, and how many blocks it has. No block but the last has fewer
/// than 8,184 bytes.
pub fn read_blocks(
    rt: &impl Abort,
    store: &mut Store,
    first: u32,
    len: u64,
) -> Result<(List<u8>, u32), StoreError> {
    let mut reader = store.open_list(first, len)?;
    let mut bytes = List::new(store.alloc());
    let count = push_blocks(rt, store, &mut reader, &mut bytes)?;
    Ok((bytes, count))
}

// The list is these bytes, whole.
fn check_whole(
    rt: &impl Abort,
    store: &mut Store,
    first: u32,
    bytes: &[u8],
) -> Result<(), StoreError> {
    let whole = store.read_list(first, bytes.len() as u64)?;
    check_bytes(rt, whole.as_slice(), bytes);
    Ok(())
}

// The list is these bytes, in so many blocks.
fn check_blocks(
    rt: &impl Abort,
    store: &mut Store,
    first: u32,
    bytes: &[u8],
    blocks: u32,
) -> Result<(), StoreError> {
    let (read, count) = read_blocks(rt, store, first, bytes.len() as u64)?;
    check_bytes(rt, read.as_slice(), bytes);
    check_count(rt, u64::from(count), u64::from(blocks));
    Ok(())
}

fn check_list(
    rt: &impl Abort,
    store: &mut Store,
    bytes: &[u8],
    blocks: u32,
) -> Result<(), StoreError> {
    let first = store.write_list(rt, bytes)?;
    store.commit(rt)?;
    store.reopen()?;
    check_whole(rt, store, first, bytes)?;
    check_blocks(rt, store, first, bytes, blocks)
}

fn check_bytes_of(rt: &impl Abort, alloc: Global, bytes: &[u8], blocks: u32) -> Result<(), Fail> {
    let mut store = Store::create(alloc)?;
    check_list(rt, &mut store, bytes, blocks)?;
    Ok(())
}

// A list of so many bytes has so many blocks, and they are the list.
fn check(rt: &impl Abort, alloc: Global, len: u64, blocks: u32) -> Result<(), Fail> {
    let bytes = some_bytes(alloc, len)?;
    check_bytes_of(rt, alloc, bytes.as_slice(), blocks)
}

#[test]
fn blocks_are_the_list(rt: HostRuntime) -> Result<(), Fail> {
    for (len, blocks) in [(1, 1), (8_184, 1), (8_185, 2), (20_000, 3)] {
        check(&rt, rt.alloc(), len, blocks)?;
    }
    Ok(())
}

fn next(
    rt: &impl Abort,
    store: &mut Store,
    reader: &mut ListReader,
) -> Result<List<u8>, StoreError> {
    let Some(found) = store.next_block(reader)? else {
        panic!(rt; "there is no block");
    };
    Ok(found)
}

// The next block has these bytes, and so many are left behind it.
fn check_next(
    rt: &impl Abort,
    store: &mut Store,
    reader: &mut ListReader,
    bytes: &[u8],
    left: u64,
) -> Result<(), StoreError> {
    let found = next(rt, store, reader)?;
    check_bytes(rt, found.as_slice(), bytes);
    check_count(rt, reader.left(), left);
    Ok(())
}

fn add(rt: &impl Abort, store: &mut Store, bytes: &[u8]) -> Result<(), StoreError> {
    store.add(rt, bytes)?;
    Ok(())
}

fn check_waiting(rt: &impl Abort, store: &mut Store, bytes: &[u8]) -> Result<(), StoreError> {
    let first = store.write_list(rt, bytes)?;
    let mut reader = store.open_list(first, 8_190)?;
    let Some((one, two)) = bytes.split_at_checked(8_184) else {
        panic!(rt; "there are too few bytes");
    };
    check_next(rt, store, &mut reader, one, 6)?;
    add(rt, store, &[7; 8_176])?;
    check_next(rt, store, &mut reader, two, 0)
}

fn check_waiting_bytes(rt: &impl Abort, alloc: Global, bytes: &[u8]) -> Result<(), Fail> {
    let mut store = Store::create(alloc)?;
    check_waiting(rt, &mut store, bytes)?;
    Ok(())
}

// A list that waits for a commit is read too, and reading goes on where something else is changed in between.
#[test]
fn a_list_that_waits(rt: HostRuntime) -> Result<(), Fail> {
    let bytes = some_bytes(rt.alloc(), 8_190)?;
    check_waiting_bytes(&rt, rt.alloc(), bytes.as_slice())
}
