// Catalogs in stores.
use crate::checks::{check_bytes, check_count, check_is};
use crate::made::{BYTES, RENAMED, check, made};
use crate::stores::Store;
use nx_catalog::Catalog;
use nx_lists::NoMemory;
use nx_records::StoreError;
use std::alloc::Global;
use std::process::Abort;
use std::test::Fail;

// Keeps the known catalog, whose bytes are then those of the store.
fn keep_known(rt: &impl Abort, alloc: Global, store: &mut Store) -> Result<Catalog, Fail> {
    let catalog = made(rt, alloc)?;
    keep_these(rt, alloc, store, &catalog)?;
    Ok(catalog)
}

fn keep_these(
    rt: &impl Abort,
    alloc: Global,
    store: &mut Store,
    catalog: &Catalog,
) -> Result<(), Fail> {
    store.keep(rt, catalog)?;
    let bytes = store.bytes(alloc)?;
    check_bytes(rt, bytes.as_slice(), &BYTES);
    Ok(())
}

// Keeps the known catalog without one of its documents, and without one that it doesn't have.
fn keep_fewer(rt: &impl Abort, store: &mut Store, catalog: &mut Catalog) -> Result<(), StoreError> {
    catalog.remove(b"b-2");
    catalog.remove(b"c");
    store.keep(rt, catalog)
}

// How many documents are loaded.
fn count_loaded(store: &mut Store, alloc: Global) -> Result<u32, StoreError> {
    let loaded = store.load(alloc)?;
    Ok(loaded.len())
}

fn check_loaded(rt: &impl Abort, store: &mut Store, alloc: Global) -> Result<(), Fail> {
    let loaded = store.load(alloc)?;
    check(rt, &loaded)
}

#[test]
fn saved_and_loaded(rt: HostRuntime) -> Result<(), Fail> {
    let mut store = Store::create(rt.alloc())?;
    check_kept(&rt, rt.alloc(), &mut store)
}

fn check_kept(rt: &impl Abort, alloc: Global, store: &mut Store) -> Result<(), Fail> {
    let count = count_loaded(store, alloc)?;
    check_count(rt, count, 0);
    let mut catalog = keep_known(rt, alloc, store)?;
    check_again(rt, alloc, store, &mut catalog)
}

// The known catalog, opened anew, and then with fewer documents.
fn check_again(
    rt: &impl Abort,
    alloc: Global,
    store: &mut Store,
    catalog: &mut Catalog,
) -> Result<(), Fail> {
    store.reopen(alloc)?;
    check_loaded(rt, store, alloc)?;
    keep_fewer(rt, store, catalog)?;
    let fewer = store.load(alloc)?;
    check_fewer(rt, &fewer);
    Ok(())
}

fn check_fewer(rt: &impl Abort, fewer: &Catalog) {
    check_count(rt, fewer.len(), 2);
    check_is(rt, fewer.find(b"b-2").is_none(), true);
}

#[test]
fn renamed_and_loaded(rt: HostRuntime) -> Result<(), Fail> {
    let mut store = Store::create(rt.alloc())?;
    check_copy(&rt, rt.alloc(), &mut store)
}

// A document gets another name. A copy of the catalog from before is as it was.
fn check_copy(rt: &impl Abort, alloc: Global, store: &mut Store) -> Result<(), Fail> {
    let mut catalog = made(rt, alloc)?;
    let before = copied(&catalog)?;
    store.rename(rt, &mut catalog, b"zz9", b"b-1")?;
    check(rt, &before)?;
    check_renamed(rt, alloc, store)
}

// The same catalog, which promises nothing.
fn copied(catalog: &Catalog) -> Result<Catalog, NoMemory> {
    catalog.copied()
}

fn check_renamed(rt: &impl Abort, alloc: Global, store: &mut Store) -> Result<(), Fail> {
    store.reopen(alloc)?;
    let renamed = store.bytes(alloc)?;
    check_bytes(rt, renamed.as_slice(), &RENAMED);
    Ok(())
}
