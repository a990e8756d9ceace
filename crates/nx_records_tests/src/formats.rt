// Stores of format 1, which are read as those of format 2 and become so by a commit.
use crate::checks::{check_bytes, check_count};
use crate::stores::Store;
use crate::strangers::changed;
use nx_lists::NoMemory;
use nx_memory::Choice;
use nx_records::{Rid, StoreError};
use std::process::Abort;
use std::test::Fail;

const LAST: Rid = Rid { page: 3, slot: 0 };

// The format that page 0 says where it stands in the area of pages.
fn format_of(store: &Store) -> Result<Option<u8>, NoMemory> {
    let image = store.image(Choice::Kept)?;
    Ok(image.pages.as_slice().get(9).copied())
}

fn check_stored(rt: &impl Abort, found: Option<u8>, expected: u8) {
    assert_eq!(rt; found, Some(expected));
}

// The formats by the store, by page 0, and as the store is opened anew.
fn check_formats(
    rt: &impl Abort,
    store: &mut Store,
    format: u64,
    stored: u8,
    opened: u64,
) -> Result<(), Fail> {
    check_count(rt, u64::from(store.format()), format);
    let found = format_of(store)?;
    check_stored(rt, found, stored);
    let found = store.format_opened()?;
    check_count(rt, u64::from(found), opened);
    Ok(())
}

fn check_new(rt: &impl Abort, store: &mut Store) -> Result<(), Fail> {
    check_count(rt, u64::from(store.format()), 2);
    store.checkpoint()?;
    check_formats(rt, store, 2, 2, 2)
}

#[test]
fn a_new_store_has_format_2(rt: HostRuntime) -> Result<(), Fail> {
    let mut store = Store::create(rt.alloc())?;
    check_new(&rt, &mut store)
}

fn check_last(rt: &impl Abort, store: &mut Store) -> Result<(), StoreError> {
    let read = store.read(LAST)?;
    check_bytes(rt, read.as_slice(), b"last");
    Ok(())
}

fn drop_change(rt: &impl Abort, store: &mut Store) -> Result<(), StoreError> {
    check_last(rt, store)?;
    store.remove(LAST)?;
    check_count(rt, u64::from(store.format()), 1);
    store.abandon();
    store.checkpoint()
}

// Reads of an old store leave its format, and so does what is dropped.
fn check_left(rt: &impl Abort, store: &mut Store) -> Result<(), Fail> {
    drop_change(rt, store)?;
    check_formats(rt, store, 1, 1, 1)
}

// A commit makes it format 2, and a checkpoint writes that where it stands.
fn check_committed(rt: &impl Abort, store: &mut Store) -> Result<(), Fail> {
    store.reopen()?;
    store.remove(LAST)?;
    store.commit(rt)?;
    check_formats(rt, store, 2, 1, 2)?;
    store.checkpoint()?;
    check_formats(rt, store, 2, 2, 2)
}

#[test]
fn a_commit_makes_it_format_2(rt: HostRuntime) -> Result<(), Fail> {
    let host = changed(rt.alloc(), &[])?;
    let mut store = Store::open(rt.alloc(), host)?;
    check_left(&rt, &mut store)?;
    check_committed(&rt, &mut store)
}
