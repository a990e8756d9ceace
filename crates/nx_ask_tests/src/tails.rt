// Which pages of a disk are read for a snapshot: those below the header's number.
use crate::stores::{answers, areas_of, host_of, store_of, take};
use nx_ask::AskError;
use nx_memory::Image;
use nx_par::NoGate;
use nx_tree::Bytes;
use std::alloc::Global;
use std::process::Abort;
use std::test::Fail;
use std::thread::Threads;

// The areas of a store with a document on some pages, which were moved from the log, and one that came later.
fn image<R: Threads + Sync>(rt: &R, alloc: Global) -> Result<Image, Fail> {
    let mut lines = Vec::from_slice(alloc, b"load d\n(a\n")?;
    for _ in 0..400 {
        lines.extend_from_slice(b"-a text of more than forty bytes, four hundred times\n(b\n)b\n")?;
    }
    lines.extend_from_slice(b")a\n.\ncheckpoint\nload e\n(a\n)a\n.\n")?;
    Ok(areas_of(&store_of(rt, alloc, lines.as_slice())?)?)
}

// The areas with so many pages of other bytes behind the pages.
fn with_tail(alloc: Global, image: &Image, count: usize) -> Result<Image, Fail> {
    let mut pages = Vec::from_slice(alloc, image.pages.as_slice())?;
    for _ in 0..count {
        pages.extend_from_slice(&[7; 8_192])?;
    }
    Ok(Image {
        pages: Bytes::from_vec(pages),
        log: Bytes::from_slice(alloc, image.log.as_slice())?,
    })
}

// The areas with so many bytes of the pages.
fn with_pages(alloc: Global, image: &Image, length: usize) -> Result<Image, Fail> {
    let pages = image.pages.as_slice().get(..length).unwrap_or(&[]);
    Ok(Image {
        pages: Bytes::from_slice(alloc, pages)?,
        log: Bytes::from_slice(alloc, image.log.as_slice())?,
    })
}

// What is read for a snapshot of these areas, and which documents it has.
fn read_of<R: Threads + Sync>(rt: &R, alloc: Global, image: Image) -> Result<(u64, Vec<u8>), Fail> {
    let mut host = host_of(alloc, image)?;
    let snapshot = take(alloc, &mut host)?;
    let reads = host.counts().reads;
    let names = answers(rt, alloc, &snapshot, b"names\n", 1, &NoGate)?;
    Ok((reads, names))
}

fn tail<R: Threads + Abort + Sync>(rt: &R, alloc: Global) -> Result<(), Fail> {
    let image = image(rt, alloc)?;
    let (reads, names) = read_of(rt, alloc, with_tail(alloc, &image, 0)?)?;
    let (more, same) = read_of(rt, alloc, with_tail(alloc, &image, 200)?)?;
    assert_eq!(rt; more, reads);
    assert_eq!(rt; same.as_slice(), names.as_slice());
    Ok(())
}

#[test]
fn a_tail_is_not_read(rt: HostRuntime) -> Result<(), Fail> {
    tail(&rt, rt.alloc())
}

// Why no snapshot is taken of these areas.
fn error_of(alloc: Global, image: Image) -> Result<Option<AskError>, Fail> {
    Ok(take(alloc, &mut host_of(alloc, image)?).err())
}

// Without the pages area, and with one that is two pages short, of which the log may have the last: the first page that lacks is told.
fn cut<R: Threads + Abort + Sync>(rt: &R, alloc: Global) -> Result<(), Fail> {
    let image = image(rt, alloc)?;
    let gone = error_of(alloc, with_pages(alloc, &image, 0)?)?;
    assert_eq!(rt; gone, Some(AskError::Damaged { page: 2 }));
    let count = (image.pages.len() / 8_192).wrapping_sub(2);
    assert!(rt; count > 2, "{count}");
    let page = u32::try_from(count).unwrap_or(0);
    let short = error_of(alloc, with_pages(alloc, &image, count.wrapping_mul(8_192))?)?;
    assert_eq!(rt; short, Some(AskError::Damaged { page }));
    Ok(())
}

#[test]
fn pages_that_went(rt: HostRuntime) -> Result<(), Fail> {
    cut(&rt, rt.alloc())
}
