// Stores of several kinds, areas that are cut or lengthened, and logs.
use crate::damages::verdict_of;
use crate::laid::{PAGE, sound_store};
use nx_check::{CheckError, PageRule, Verdict, check};
use nx_lists::{List, NoMemory};
use nx_memory::{Image, QuietHost};
use nx_records::{Records, Settings};
use std::alloc::Global;
use std::process::Abort;
use std::test::Fail;

const SETTINGS: Settings = Settings {
    k: 16,
    target: 50,
    tolerance: 4,
    limit: 64,
};

fn wrong(page: u32, rule: PageRule) -> Result<Verdict, CheckError> {
    Ok(Verdict::Wrong { page, rule })
}

// A host with a store that was just made.
fn new_store(alloc: Global) -> Result<QuietHost, NoMemory> {
    let image = Image {
        pages: List::new(alloc),
        log: List::new(alloc),
    };
    let mut host = QuietHost::new(alloc, image, List::new(alloc), 1_048_576)?;
    match Records::create(alloc, &mut host, SETTINGS) {
        Ok(_) => Ok(host),
        Err(_) => Err(NoMemory),
    }
}

#[test]
fn a_new_store_is_sound(rt: HostRuntime) -> Result<(), Fail> {
    let mut host = new_store(rt.alloc())?;
    assert_eq!(rt; check(rt.alloc(), &mut host), Ok(Verdict::Sound));
    Ok(())
}

#[test]
fn nothing_is_no_store(rt: HostRuntime) -> Result<(), Fail> {
    let alloc = rt.alloc();
    let found = verdict_of(alloc, Vec::new(alloc), Vec::new(alloc))?;
    assert_eq!(rt; found, Err(CheckError::NotAStore));
    Ok(())
}

// The area with so many pages, the further ones of zero bytes.
fn with_pages(alloc: Global, count: usize) -> Result<Vec<u8>, NoMemory> {
    let mut pages = sound_store(alloc)?;
    pages.resize(PAGE.saturating_mul(count), 0)?;
    Ok(pages)
}

fn has_verdict(
    rt: &impl Abort,
    alloc: Global,
    count: usize,
    asked: Result<Verdict, CheckError>,
) -> Result<(), Fail> {
    let found = verdict_of(alloc, with_pages(alloc, count)?, Vec::new(alloc))?;
    assert_eq!(rt; found, asked);
    Ok(())
}

#[test]
fn pages_too_many_or_too_few_are_told(rt: HostRuntime) -> Result<(), Fail> {
    let alloc = rt.alloc();
    has_verdict(&rt, alloc, 7, Ok(Verdict::Sound))?;
    has_verdict(&rt, alloc, 8, wrong(7, PageRule::Unused))?;
    has_verdict(&rt, alloc, 10, wrong(9, PageRule::Unused))?;
    has_verdict(&rt, alloc, 6, wrong(5, PageRule::Free))?;
    has_verdict(&rt, alloc, 5, wrong(0, PageRule::Free))?;
    has_verdict(&rt, alloc, 2, wrong(0, PageRule::Header))?;
    has_verdict(&rt, alloc, 1, wrong(0, PageRule::Header))?;
    has_verdict(&rt, alloc, 0, Err(CheckError::NotAStore))
}

#[test]
fn a_log_that_counts_too_many_pages_has_no_group(rt: HostRuntime) -> Result<(), Fail> {
    let alloc = rt.alloc();
    let mut log = Vec::from_slice(alloc, b"\x01\0\0\0\0\0\0\0\x01\xff\xff\xff\xff\0\0\0\x63")?;
    log.resize(9_000, 7)?;
    let found = verdict_of(alloc, sound_store(alloc)?, log)?;
    assert_eq!(rt; found, Ok(Verdict::Sound));
    Ok(())
}

// A log of one group, which has a page of zero bytes under this number.
fn one_page(alloc: Global, page: u32) -> Result<Vec<u8>, NoMemory> {
    let mut log = Vec::from_slice(alloc, b"\x01\0\0\0\0\0\0\0\x01\0\0\0\x01")?;
    log.extend_from_slice(&page.to_be_bytes())?;
    log.resize(13 + 8_196 + 1, 0)?;
    Ok(log)
}

#[test]
fn a_page_of_the_log_counts(rt: HostRuntime) -> Result<(), Fail> {
    let alloc = rt.alloc();
    let free = verdict_of(alloc, sound_store(alloc)?, one_page(alloc, 6)?)?;
    assert_eq!(rt; free, Ok(Verdict::Sound));
    let catalog = verdict_of(alloc, sound_store(alloc)?, one_page(alloc, 1)?)?;
    assert_eq!(rt; catalog, wrong(1, PageRule::Chain));
    let far = verdict_of(alloc, sound_store(alloc)?, one_page(alloc, 16_777_215)?)?;
    assert_eq!(rt; far, wrong(16_777_215, PageRule::Unused));
    Ok(())
}

// An element that has itself below it: the second record of page 1, behind the root of its document.
const LOOP: [&[u8]; 3] = [
    b"NATIXST1\0\x02\0\x10\0\x32\0\x04\0\0\0\x40\0\0\0\x03\0\0\0\0\0\0\0\x01\0\0\0\0\0\0\0\0\0\0\0\x02\0\0\0\0\0\0\0\x15",
    b"\x01\0\0\x02\0\0\0\0\0\x10\0\x28\0\x38\0\x30\x01\0\0\x01\0\0\0\x02\0\0\0\x01\0\0\0\0\x01\0\0\0\0\0\0\x01\x06\0\0\0\0\0\0\x01\0\0\0\x01\0\x01\0\x01\x01\0\0\x01\0\0\0\x02\0\0\0\x01\0\0\0\0\x02\0\0\x01\0\0\0\x01a\0\0\0\0\0\0\0\x06\0\0\0\0\0\0\x01\0\0\0\x01\0\x01\0\x01",
    b"\x02\0\0\x15\0\0\0\0\0\0\0\x01\0\x01t\0\0\0\x01\0\0\0\0\0\x03\0\0\0\0",
];

#[test]
fn a_record_below_itself_is_reached_twice(rt: HostRuntime) -> Result<(), Fail> {
    let alloc = rt.alloc();
    let mut pages = Vec::new(alloc);
    for bytes in LOOP {
        pages.extend_from_slice(bytes)?;
        let rest = PAGE.saturating_sub(bytes.len());
        pages.extend_from_slice(Vec::from_elem(alloc, 0u8, rest)?.as_slice())?;
    }
    let found = verdict_of(alloc, pages, Vec::new(alloc))?;
    assert_eq!(rt; found, wrong(1, PageRule::Twice));
    Ok(())
}
