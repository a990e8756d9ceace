// Where records and byte lists come to stand.
use crate::checks::{check_answer, check_place};
use crate::maps::Part;
use crate::pages::Counts;
use crate::stores::Store;
use nx_records::{Rid, StoreError};
use nx_slots::{Page, SlotsError};
use std::process::Abort;
use std::test::Fail;

// A record of these bytes comes to stand there.
fn check_add(
    rt: &impl Abort,
    store: &mut Store,
    bytes: &[u8],
    place: Rid,
) -> Result<(), StoreError> {
    let found = store.add(rt, bytes)?;
    check_place(rt, found, place);
    Ok(())
}

fn add(rt: &impl Abort, store: &mut Store, bytes: &[u8]) -> Result<(), StoreError> {
    store.add(rt, bytes)?;
    Ok(())
}

// Each page but those of the header and the catalog takes a record of these bytes.
fn fill(rt: &impl Abort, store: &mut Store, bytes: &[u8]) -> Result<(), StoreError> {
    for page in 2..64 {
        check_add(rt, store, bytes, Rid { page, slot: 0 })?;
    }
    assert!(rt; !store.has_free_page());
    store.commit(rt)
}

fn check_full(rt: &impl Abort, store: &mut Store, bytes: &[u8]) -> Result<(), StoreError> {
    fill(rt, store, bytes)?;
    check_answer(rt, add(rt, store, bytes), Err(StoreError::Full));
    let first = Rid { page: 2, slot: 0 };
    store.remove(first)?;
    check_add(rt, store, bytes, first)
}

#[test]
fn full_pages_are_taken_in_order(rt: HostRuntime) -> Result<(), Fail> {
    let mut store = Store::create(rt.alloc())?;
    check_full(&rt, &mut store, &[7; 8_176])?;
    Ok(())
}

#[test]
fn a_page_is_full_to_the_byte(rt: HostRuntime) -> Result<(), Fail> {
    let mut page = Page::new();
    assert_eq!(rt; page.put(&[7; 8_176]), Ok(0));
    let no_room = SlotsError::NoRoom { needed: 5, free: 4 };
    assert_eq!(rt; page.put(&[7]), Err(no_room));
    Ok(())
}

fn check_packed(rt: &impl Abort, store: &mut Store, bytes: &[u8]) -> Result<(), StoreError> {
    for (length, page, slot) in [(3_000, 2, 0), (3_000, 2, 1), (3_000, 3, 0), (1_000, 3, 1)] {
        let part = Part { from: 0, length };
        check_add(rt, store, part.of(bytes), Rid { page, slot })?;
    }
    Ok(())
}

#[test]
fn records_are_packed_next_fit(rt: HostRuntime) -> Result<(), Fail> {
    let mut store = Store::create(rt.alloc())?;
    check_packed(&rt, &mut store, &[7; 3_000])?;
    Ok(())
}

// A list of these bytes is written on the first free pages, and the pages are used for this then; its first page.
fn check_list(
    rt: &impl Abort,
    store: &mut Store,
    bytes: &[u8],
    expected: Counts,
) -> Result<u32, Fail> {
    let first = store.write_list(rt, bytes)?;
    assert!(rt; first == 2 || first == 3, "{first}");
    store.commit(rt)?;
    store.check_counts(rt, expected)?;
    Ok(first)
}

fn free_list(rt: &impl Abort, store: &mut Store, first: u32, expected: Counts) -> Result<(), Fail> {
    store.free_list(first, 8_185)?;
    store.commit(rt)?;
    store.check_counts(rt, expected)?;
    Ok(())
}

// So many chain pages, no records, and all other pages but the header free.
fn counts(chains: u32) -> Counts {
    Counts {
        records: 0,
        chains,
        free: 63u32.saturating_sub(chains),
    }
}

fn check_lists(rt: &impl Abort, store: &mut Store, bytes: &[u8; 8_185]) -> Result<(), Fail> {
    let first = check_list(rt, store, bytes, counts(3))?;
    free_list(rt, store, first, counts(1))?;
    check_list(rt, store, &bytes[1..], counts(2))?;
    Ok(())
}

// The catalog is a chain page too.
#[test]
fn a_list_takes_a_page_for_each_8184_bytes(rt: HostRuntime) -> Result<(), Fail> {
    let mut store = Store::create(rt.alloc())?;
    check_lists(&rt, &mut store, &[7; 8_185])
}
