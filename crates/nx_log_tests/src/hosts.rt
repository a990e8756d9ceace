// The hosts in memory: what a crash leaves.
use nx_host::{Area, Disk, Failed, Host};
use nx_memory::{Choice, Image, MemoryHost, QuietHost};
use nx_tree::{Bytes, NoMemory};
use std::alloc::Global;
use std::process::Abort;
use std::test::Fail;

fn image_of(alloc: Global, pages: &[u8], log: &[u8]) -> Result<Image, NoMemory> {
    Ok(Image {
        pages: Bytes::from_slice(alloc, pages)?,
        log: Bytes::from_slice(alloc, log)?,
    })
}

// Writes to the pages, one of them synced, and one to the log past its end.
fn write_some<D: Disk>(disk: &mut D) -> Result<(), Failed> {
    disk.write_at(Area::Pages, 1, &[50, 51])?;
    disk.sync(Area::Pages)?;
    disk.write_at(Area::Pages, 0, &[60])?;
    disk.write_at(Area::Log, 3, &[70, 71])?;
    disk.write_at(Area::Pages, 2, &[80, 81])?;
    disk.write_at(Area::Pages, 5, &[])
}

// What is written over, and one byte of a log.
fn begun(alloc: Global) -> Result<Image, NoMemory> {
    image_of(alloc, &[10, 11, 12], &[20])
}

fn memory_host(alloc: Global) -> Result<MemoryHost, NoMemory> {
    MemoryHost::new(alloc, begun(alloc)?, Bytes::new(alloc), 1, 512)
}

fn quiet_host(alloc: Global) -> Result<QuietHost, NoMemory> {
    QuietHost::new(alloc, begun(alloc)?, Bytes::new(alloc), 512)
}

// A crash, and the pages and the log that it leaves.
const OUTCOMES: [(Choice, &[u8], &[u8]); 3] = [
    (Choice::Kept, &[60, 50, 80, 81, 0], &[20, 0, 0, 70, 71]),
    (Choice::Lost, &[10, 50, 51], &[20]),
    (Choice::Ones, &[1, 50, 1, 1, 1], &[20, 1, 1, 1, 1]),
];

fn check_image(rt: &impl Abort, image: &Image, pages: &[u8], log: &[u8]) {
    assert_eq!(rt; image.pages.as_slice(), pages);
    assert_eq!(rt; image.log.as_slice(), log);
}

fn check_memory(rt: &impl Abort, host: &MemoryHost) -> Result<(), NoMemory> {
    for (choice, pages, log) in OUTCOMES {
        let image = host.image(choice)?;
        check_image(rt, &image, pages, log);
    }
    Ok(())
}

fn check_quiet(rt: &impl Abort, host: &QuietHost) -> Result<(), NoMemory> {
    for (choice, pages, log) in OUTCOMES {
        let image = host.image(choice)?;
        check_image(rt, &image, pages, log);
    }
    Ok(())
}

#[test]
fn a_crash_keeps_or_loses_what_is_unsynced(rt: HostRuntime) -> Result<(), Fail> {
    let mut host = memory_host(rt.alloc())?;
    write_some(&mut host)?;
    check_memory(&rt, &host)?;
    Ok(())
}

#[test]
fn so_it_does_behind_a_quiet_host(rt: HostRuntime) -> Result<(), Fail> {
    let mut host = quiet_host(rt.alloc())?;
    write_some(&mut host)?;
    check_quiet(&rt, &host)?;
    Ok(())
}
