// Bytes that are a catalog's, and such that aren't.
use crate::checks::check_count;
use crate::made::{BYTES, check};
use nx_catalog::{Catalog, catalog_of};
use nx_lists::NoMemory;
use std::alloc::Global;
use std::process::Abort;
use std::test::Fail;

// What is read from the bytes.
fn found(alloc: Global, bytes: &[u8]) -> Result<Option<Catalog>, NoMemory> {
    catalog_of(alloc, bytes)
}

fn check_known(rt: &impl Abort, alloc: Global) -> Result<(), Fail> {
    let found = found(alloc, &BYTES)?;
    let Some(catalog) = &found else {
        panic!(rt; "no catalog was read");
    };
    check(rt, catalog)
}

fn check_first(rt: &impl Abort, alloc: Global) -> Result<(), Fail> {
    let found = found(alloc, &[0; 8])?;
    let Some(first) = &found else {
        panic!(rt; "no first catalog was read");
    };
    check_count(rt, first.len(), 0);
    check_count(rt, first.matrix().len(), 0);
    Ok(())
}

#[test]
fn known_bytes(rt: HostRuntime) -> Result<(), Fail> {
    check_known(&rt, rt.alloc())?;
    check_first(&rt, rt.alloc())
}
