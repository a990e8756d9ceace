// Why no snapshot is taken, and why a snapshot gives no answers.
use crate::stores::{areas_of, ask_all, ask_one, commands_of, empty_host, host_of, store_of, take};
use nx_ask::{AskError, Snapshot};
use nx_memory::{Image, MemoryHost};
use nx_par::NoGate;
use nx_tree::Bytes;
use std::alloc::Global;
use std::process::Abort;
use std::test::Fail;
use std::thread::Threads;

fn error_of(alloc: Global, host: &mut MemoryHost) -> Option<AskError> {
    match take(alloc, host) {
        Ok(_) => None,
        Err(error) => Some(error),
    }
}

#[test]
fn no_store(rt: HostRuntime) -> Result<(), Fail> {
    let mut host = empty_host(rt.alloc())?;
    assert_eq!(rt; error_of(rt.alloc(), &mut host), Some(AskError::NotAStore));
    Ok(())
}

// The areas of a store with a document that has two texts.
fn image<R: Threads + Sync>(rt: &R, alloc: Global) -> Result<Image, Fail> {
    let host = store_of(
        rt,
        alloc,
        b"load e\n(a\n-hi\n(b\n)b\n-ho\n)a\n.\ncheckpoint\n",
    )?;
    Ok(areas_of(&host)?)
}

// Each call of a disk that fails in turn.
#[test]
fn a_call_that_fails(rt: HostRuntime) -> Result<(), Fail> {
    let mut host = host_of(rt.alloc(), image(&rt, rt.alloc())?)?;
    let calls: [u64; 4] = [1, 3, 6, 10];
    host.fail_calls(&calls)?;
    let mut failed = 0u32;
    for _ in 0..8 {
        if let Some(error) = error_of(rt.alloc(), &mut host) {
            assert_eq!(rt; error, AskError::Disk);
            failed = failed.saturating_add(1);
        }
    }
    assert!(rt; failed >= 2, "{failed}");
    assert_eq!(rt; host.counts().faults, u64::from(failed));
    Ok(())
}

// The areas with one byte of the pages changed.
fn spoiled(alloc: Global, image: &Image, at: usize) -> Result<Image, Fail> {
    let mut pages = Vec::from_slice(alloc, image.pages.as_slice())?;
    if let Some(byte) = pages.get_mut(at) {
        *byte ^= 0xff;
    }
    Ok(Image {
        pages: Bytes::from_vec(pages),
        log: Bytes::from_slice(alloc, image.log.as_slice())?,
    })
}

// Why some questions over areas aren't answered, if they aren't.
fn refusal<R: Threads + Sync>(
    rt: &R,
    alloc: Global,
    image: Image,
) -> Result<Option<AskError>, Fail> {
    let questions = commands_of(alloc, b"names\nget e /0/0\nexport e\n")?;
    let mut host = host_of(alloc, image)?;
    let snapshot = match take(alloc, &mut host) {
        Ok(snapshot) => snapshot,
        Err(error) => return Ok(Some(error)),
    };
    match ask_all(rt, alloc, &snapshot, questions.as_slice(), 2, &NoGate) {
        Ok(_) => Ok(None),
        Err(error) => Ok(Some(error)),
    }
}

// The first byte of each page in turn.
fn damages<R: Threads + Abort + Sync>(rt: &R, alloc: Global) -> Result<(), Fail> {
    let image = image(rt, alloc)?;
    let pages = image.pages.len() / 8_192;
    assert_eq!(rt;
        refusal(rt, alloc, spoiled(alloc, &image, image.pages.len())?)?,
        None
    );
    assert_eq!(rt;
        refusal(rt, alloc, spoiled(alloc, &image, 0)?)?,
        Some(AskError::NotAStore)
    );
    assert!(rt; pages >= 3, "{pages}");
    for page in 1..pages {
        let found = refusal(rt, alloc, spoiled(alloc, &image, page.wrapping_mul(8_192))?)?;
        assert!(rt;
            matches!(found, Some(AskError::Damaged { .. })),
            "page {page}"
        );
    }
    Ok(())
}

#[test]
fn damaged_pages(rt: HostRuntime) -> Result<(), Fail> {
    damages(&rt, rt.alloc())
}

// A load of a document with more bytes than a page has.
fn add_load(lines: &mut Vec<u8>, name: u8) -> Result<(), Fail> {
    lines.extend_from_slice(b"load ")?;
    lines.push(name)?;
    lines.extend_from_slice(b"\n(a\n")?;
    for _ in 0..400 {
        lines.extend_from_slice(b"-a text of more than forty bytes, four hundred times\n")?;
    }
    lines.extend_from_slice(b")a\n.\n")?;
    Ok(())
}

// A snapshot of a store with the documents `d` and `e`, on pages of their own, of which no record can be read.
fn unreadable<R: Threads + Sync>(rt: &R, alloc: Global) -> Result<Snapshot, Fail> {
    let mut lines = Vec::new(alloc);
    add_load(&mut lines, b'd')?;
    add_load(&mut lines, b'e')?;
    lines.extend_from_slice(b"checkpoint\n")?;
    let mut image = areas_of(&store_of(rt, alloc, lines.as_slice())?)?;
    for page in 0..image.pages.len() / 8_192 {
        let at = page.wrapping_mul(8_192);
        if image.pages.as_slice().get(at) == Some(&1) {
            image = spoiled(alloc, &image, at)?;
        }
    }
    Ok(take(alloc, &mut host_of(alloc, image)?)?)
}

// Why a question isn't answered, if it isn't.
fn error_of_one<R: Threads + Sync>(
    rt: &R,
    alloc: Global,
    snapshot: &Snapshot,
    line: &[u8],
) -> Result<Option<AskError>, Fail> {
    let questions = commands_of(alloc, line)?;
    let Some(question) = questions.first() else {
        return Ok(None);
    };
    Ok(ask_one(rt, alloc, snapshot, question).err())
}

// The same of several questions, by so many workers.
fn error_of_all<R: Threads + Sync>(
    rt: &R,
    alloc: Global,
    snapshot: &Snapshot,
    lines: &[u8],
    workers: u32,
) -> Result<Option<AskError>, Fail> {
    let questions = commands_of(alloc, lines)?;
    Ok(ask_all(rt, alloc, snapshot, questions.as_slice(), workers, &NoGate).err())
}

// Where several questions aren't answered, the error is that of the first of these.
#[test]
fn the_first_error(rt: HostRuntime) -> Result<(), Fail> {
    let alloc = rt.alloc();
    let snapshot = unreadable(&rt, alloc)?;
    let one = error_of_one(&rt, alloc, &snapshot, b"get d /0\n")?;
    let other = error_of_one(&rt, alloc, &snapshot, b"get e /0\n")?;
    assert!(rt; matches!(one, Some(AskError::Damaged { .. })));
    assert!(rt; matches!(other, Some(AskError::Damaged { .. })));
    assert!(rt; one != other);
    for workers in 1..4 {
        let found = error_of_all(
            &rt,
            alloc,
            &snapshot,
            b"names\nget d /0\nget e /0\n",
            workers,
        )?;
        assert_eq!(rt; found, one);
        let found = error_of_all(
            &rt,
            alloc,
            &snapshot,
            b"names\nget e /0\nget d /0\n",
            workers,
        )?;
        assert_eq!(rt; found, other);
    }
    Ok(())
}
