// Pages that strangers wrote: each is answered as damaged or as no store, and never by a wrong record.
use crate::checks::{check_answer, check_bytes};
use crate::pages::Counts;
use crate::stores::{LIMIT, Store, host_of};
use nx_lists::{List, NoMemory};
use nx_memory::{Image, MemoryHost};
use nx_records::{Rid, StoreError};
use std::alloc::{AllocError, Global};
use std::process::Abort;
use std::test::Fail;

/// Bytes at an offset of the area of pages.
pub type Edit<'a> = (usize, &'a [u8]);

// A store of six pages, all other bytes of which are zero: the header; a catalog; two slotted pages with
// three records of four bytes; and two free pages.
const SOUND: [Edit; 10] = [
    (0, b"NATIXST1"),
    (8, &[0, 1, 0, 16, 0, 50, 0, 4, 0, 0, 0, 64]),
    (20, &[0, 0, 0, 6, 0, 0, 0, 4, 0, 0, 0, 2]),
    (40, &[0, 0, 0, 1, 0, 0, 0, 0, 0, 0, 0, 8]),
    (8_192, &[2, 0, 0, 8]),
    (
        16_384,
        &[1, 0, 0, 2, 0, 0, 0, 0, 31, 252, 0, 4, 31, 248, 0, 4],
    ),
    (24_568, b"otherone"),
    (24_576, &[1, 0, 0, 1, 0, 0, 0, 0, 31, 252, 0, 4]),
    (32_764, b"last"),
    (32_772, &[0, 0, 0, 5]),
];

// What a store is asked for. `Fill` adds records, each of which takes a page, until one is refused.
#[derive(Clone, Copy, Debug)]
enum Ask {
    Open,
    Read { page: u32, slot: u16 },
    Update,
    Remove,
    Fill,
}

/// Puts bytes over those at an offset, where they are all within.
pub fn put(bytes: &mut [u8], edit: Edit) {
    let (at, new) = edit;
    for (place, byte) in new.iter().enumerate() {
        if let Some(old) = bytes.get_mut(at.saturating_add(place)) {
            *old = *byte;
        }
    }
}

/// The sound pages, with other bytes at some offsets.
pub fn changed_pages(alloc: Global, edits: &[Edit]) -> Result<Vec<u8>, AllocError> {
    let mut pages = Vec::new(alloc);
    pages.resize(49_152, 0)?;
    put_all(&mut pages, &SOUND);
    put_all(&mut pages, edits);
    Ok(pages)
}

/// Makes these edits.
pub fn put_all(pages: &mut [u8], edits: &[Edit]) {
    for edit in edits {
        put(pages, *edit);
    }
}

/// A host of these pages.
pub fn host_with(alloc: Global, pages: Vec<u8>) -> Result<MemoryHost, NoMemory> {
    let image = Image {
        pages: List::from_vec(pages),
        log: List::new(alloc),
    };
    host_of(alloc, image)
}

/// A host of the sound pages, with other bytes at some offsets.
pub fn changed(alloc: Global, edits: &[Edit]) -> Result<MemoryHost, Fail> {
    let pages = changed_pages(alloc, edits)?;
    Ok(host_with(alloc, pages)?)
}

// The record that is updated or removed.
const FIRST: Rid = Rid { page: 2, slot: 0 };

fn read(store: &mut Store, place: Rid) -> Result<(), StoreError> {
    store.read(place)?;
    Ok(())
}

fn update(rt: &impl Abort, store: &mut Store, bytes: &[u8]) -> Result<(), StoreError> {
    store.update(rt, FIRST, bytes)?;
    Ok(())
}

fn fill(rt: &impl Abort, store: &mut Store, bytes: &[u8]) -> Result<(), StoreError> {
    for _ in 0..LIMIT {
        store.add(rt, bytes)?;
    }
    Ok(())
}

fn make(rt: &impl Abort, store: &mut Store, asked: Ask) -> Result<(), StoreError> {
    match asked {
        Ask::Open => Ok(()),
        Ask::Read { page, slot } => read(store, Rid { page, slot }),
        Ask::Update => update(rt, store, &[7; 8_100]),
        Ask::Remove => store.remove(FIRST),
        Ask::Fill => fill(rt, store, &[7; 8_176]),
    }
}

fn is_damaged(answer: Result<(), StoreError>) -> bool {
    matches!(answer, Err(StoreError::Damaged { .. }))
}

// What the store answers. Where that is damaged, it has ended.
fn answer(rt: &impl Abort, store: &mut Store, asked: Ask) -> Result<(), StoreError> {
    let answer = make(rt, store, asked);
    if is_damaged(answer) {
        check_answer(rt, store.remove(FIRST), Err(StoreError::Ended));
    }
    answer
}

// What the host's store answers, which is opened first.
fn answer_of(
    rt: &impl Abort,
    alloc: Global,
    host: MemoryHost,
    asked: Ask,
) -> Result<(), StoreError> {
    let mut store = Store::open(alloc, host)?;
    answer(rt, &mut store, asked)
}

fn check_damaged(
    rt: &impl Abort,
    answered: Result<(), StoreError>,
    page: u32,
    edit: Edit,
    asked: Ask,
) {
    assert_eq!(rt;
        answered,
        Err(StoreError::Damaged { page }),
        "{edit:?} {asked:?}"
    );
}

fn check(rt: &impl Abort, alloc: Global, edit: Edit, asked: Ask, page: u32) -> Result<(), Fail> {
    let host = changed(alloc, &[edit])?;
    let answered = answer_of(rt, alloc, host, asked);
    check_damaged(rt, answered, page, edit, asked);
    Ok(())
}

fn check_record(
    rt: &impl Abort,
    store: &mut Store,
    place: Rid,
    expected: &[u8],
) -> Result<(), StoreError> {
    let bytes = store.read(place)?;
    check_bytes(rt, bytes.as_slice(), expected);
    Ok(())
}

fn check_records(rt: &impl Abort, store: &mut Store) -> Result<(), StoreError> {
    for (page, slot, record) in [(2, 0, b"rone"), (2, 1, b"othe"), (3, 0, b"last")] {
        check_record(rt, store, Rid { page, slot }, record)?;
    }
    Ok(())
}

// The store is opened anew, and answers this.
fn check_anew(
    rt: &impl Abort,
    store: &mut Store,
    asked: Ask,
    expected: Result<(), StoreError>,
) -> Result<(), StoreError> {
    store.reopen()?;
    check_answer(rt, answer(rt, store, asked), expected);
    Ok(())
}

fn check_sound(rt: &impl Abort, store: &mut Store) -> Result<(), StoreError> {
    check_records(rt, store)?;
    for asked in [Ask::Open, Ask::Update, Ask::Remove] {
        check_anew(rt, store, asked, Ok(()))?;
    }
    check_anew(rt, store, Ask::Fill, Err(StoreError::Full))
}

// What the sound pages are used for.
const COUNTS: Counts = Counts {
    records: 3,
    chains: 1,
    free: 60,
};

// Unchanged, the pages are sound: the free pages and those past the last one take a record each.
#[test]
fn sound_pages_are_taken(rt: HostRuntime) -> Result<(), Fail> {
    let host = changed(rt.alloc(), &[])?;
    let mut store = Store::open(rt.alloc(), host)?;
    store.check_counts(&rt, COUNTS)?;
    check_sound(&rt, &mut store)?;
    Ok(())
}

// A host whose pages are too few for a header.
fn cut_host(alloc: Global) -> Result<MemoryHost, NoMemory> {
    let image = Image {
        pages: List::from_slice(alloc, b"NATIXST1")?,
        log: List::new(alloc),
    };
    host_of(alloc, image)
}

fn check_no_store(rt: &impl Abort, alloc: Global, host: MemoryHost) {
    let answered = answer_of(rt, alloc, host, Ask::Open);
    check_answer(rt, answered, Err(StoreError::NotAStore));
}

#[test]
fn what_has_no_mark_is_no_store(rt: HostRuntime) -> Result<(), Fail> {
    let host = changed(rt.alloc(), &[(0, b"NATIXST2")])?;
    check_no_store(&rt, rt.alloc(), host);
    let host = cut_host(rt.alloc())?;
    check_no_store(&rt, rt.alloc(), host);
    Ok(())
}

// The first slotted page is damaged by the edit.
fn check_slotted(rt: &impl Abort, alloc: Global, edit: Edit) -> Result<(), Fail> {
    for asked in [Ask::Read { page: 2, slot: 0 }, Ask::Update, Ask::Remove] {
        check(rt, alloc, edit, asked, 2)?;
    }
    check(rt, alloc, edit, Ask::Fill, 0)
}

#[test]
fn slotted_pages_of_strangers(rt: HostRuntime) -> Result<(), Fail> {
    let edits: [Edit; 14] = [
        // Offsets past the end, and before the end of the slots.
        (16_392, &[31, 253]),
        (16_392, &[255, 255]),
        (16_392, &[0, 15]),
        // Lengths past the end.
        (16_394, &[0, 5]),
        (16_394, &[255, 255]),
        // Slots that overlap, and an empty one with an offset.
        (16_396, &[31, 249]),
        (16_396, &[31, 252]),
        (16_394, &[0, 0]),
        // An empty slot at the end.
        (16_396, &[0, 0, 0, 0]),
        // Too many slots, and other bytes in front.
        (16_386, &[7, 255]),
        (16_384, &[3]),
        (16_384, &[0]),
        (16_385, &[1]),
        (16_391, &[1]),
    ];
    for edit in edits {
        check_slotted(&rt, rt.alloc(), edit)?;
    }
    Ok(())
}
