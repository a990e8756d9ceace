// Which pages a commit writes where a list or the catalog changes in part.
use crate::checks::{check_bytes, check_count};
use crate::stores::Store;
use nx_records::StoreError;
use std::alloc::{AllocError, Global};
use std::process::Abort;
use std::test::Fail;

// Commits, and the group has so many pages beside the header's.
fn check_group(rt: &impl Abort, store: &mut Store, pages: u64) -> Result<(), StoreError> {
    let before = store.log_length();
    store.commit(rt)?;
    let bytes = store.log_length().saturating_sub(before);
    check_count(rt, bytes % 8_196, 13);
    check_count(rt, bytes / 8_196, pages.saturating_add(1));
    Ok(())
}

// So many sevens, of which those at these places are eights.
fn bytes_with(alloc: Global, count: usize, places: &[usize]) -> Result<Vec<u8>, AllocError> {
    let mut bytes = Vec::new(alloc);
    bytes.resize(count, 7)?;
    set_eights(&mut bytes, places);
    Ok(bytes)
}

fn set_eights(bytes: &mut [u8], places: &[usize]) {
    for place in places {
        if let Some(byte) = bytes.get_mut(*place) {
            *byte = 8;
        }
    }
}

// How many bytes, where the eights are, and how many chain pages change then, of a list of 24,500 sevens.
const CHANGES: [(usize, &[usize], u64); 9] = [
    (24_500, &[], 0),
    (24_500, &[0], 1),
    (24_500, &[8_183], 1),
    (24_500, &[8_184], 1),
    (24_500, &[12_000, 16_367], 1),
    (24_500, &[24_499], 1),
    (24_500, &[0, 24_499], 2),
    (24_552, &[], 1),
    (16_369, &[8_183, 8_184], 3),
];

fn check_list(
    rt: &impl Abort,
    store: &mut Store,
    first: u32,
    expected: &[u8],
) -> Result<(), StoreError> {
    let read = store.read_list(first, expected.len() as u64)?;
    check_bytes(rt, read.as_slice(), expected);
    Ok(())
}

// The list at that page, of 24,500 bytes, becomes another one, and then the old one again.
fn change_list(
    rt: &impl Abort,
    store: &mut Store,
    first: u32,
    old: &[u8],
    new: &[u8],
    pages: u64,
) -> Result<(), StoreError> {
    store.change_list(rt, first, 24_500, new)?;
    check_list(rt, store, first, new)?;
    check_group(rt, store, pages)?;
    store.change_list(rt, first, new.len() as u64, old)?;
    check_group(rt, store, pages)
}

fn change_lists(rt: &impl Abort, store: &mut Store, first: u32, old: &[u8]) -> Result<(), Fail> {
    for (count, places, pages) in CHANGES {
        let new = bytes_with(store.alloc(), count, places)?;
        change_list(rt, store, first, old, new.as_slice(), pages)?;
    }
    Ok(())
}

fn check_lists(rt: &impl Abort, store: &mut Store, old: &[u8]) -> Result<(), Fail> {
    let first = store.write_list(rt, old)?;
    check_group(rt, store, 3)?;
    change_lists(rt, store, first, old)
}

// A store of its own, in which the bytes are changed.
fn check_lists_from(rt: &impl Abort, alloc: Global, old: &[u8]) -> Result<(), Fail> {
    let mut store = Store::create(alloc)?;
    check_lists(rt, &mut store, old)
}

// Beside the header's page the group has those chain pages alone whose bytes change.
#[test]
fn a_list_is_changed_in_place(rt: HostRuntime) -> Result<(), Fail> {
    let old = bytes_with(rt.alloc(), 24_500, &[])?;
    check_lists_from(&rt, rt.alloc(), old.as_slice())
}

fn read_list(store: &mut Store, first: u32) -> Result<(), StoreError> {
    store.read_list(first, 24_500)?;
    Ok(())
}
