// The command `ask` of the program, over hosts in memory.
use crate::stores::{areas_of, store_of};
use nx_front::{Status, Word, Words, run};
use nx_memory::{Image, MemoryHost};
use nx_tree::{Bytes, NoMemory};
use std::alloc::Global;
use std::process::Abort;
use std::test::Fail;
use std::thread::Threads;

// Room for the output of a run.
const ROOM: u64 = 16_777_216;

fn words_of(alloc: Global, texts: &[&str]) -> Result<Words, NoMemory> {
    let mut words = Words::new(alloc);
    for text in texts {
        words.push(Word::new(alloc, text)?)?;
    }
    Ok(words)
}

fn status_of<R: Threads + Sync>(
    rt: &R,
    alloc: Global,
    words: &Words,
    host: &mut MemoryHost,
) -> Status {
    run(rt, alloc, words, host)
}

// How `ask` by these workers ends over areas, with this input, and what it gives.
fn asked<R: Threads + Sync>(
    rt: &R,
    alloc: Global,
    image: Image,
    workers: &str,
    input: &[u8],
) -> Result<(Status, Bytes), Fail> {
    let input = Bytes::from_slice(alloc, input)?;
    let mut host = MemoryHost::new(alloc, image, input, 1_000, ROOM)?;
    let words = words_of(alloc, &["s", "ask", workers])?;
    let status = status_of(rt, alloc, &words, &mut host);
    Ok((status, Bytes::from_slice(alloc, host.output())?))
}

fn image<R: Threads + Sync>(rt: &R, alloc: Global) -> Result<Image, Fail> {
    let host = store_of(rt, alloc, b"load e\n(a\nAx 1\n-hi\n)a\n.\n")?;
    Ok(areas_of(&host)?)
}

// The run ends with `Done`, and gives this.
fn check<R: Threads + Abort + Sync>(
    rt: &R,
    alloc: Global,
    workers: &str,
    input: &[u8],
    output: &[u8],
) -> Result<(), Fail> {
    let (status, found) = asked(rt, alloc, image(rt, alloc)?, workers, input)?;
    assert_eq!(rt; status, Status::Done);
    assert!(rt; found.as_slice() == output, "{workers} workers");
    Ok(())
}

#[test]
fn questions_of_a_script(rt: HostRuntime) -> Result<(), Fail> {
    let input = b"get e /0/1\ndrop e\nnames\n".as_slice();
    let output = b"node 0 -hi\nerror syntax\ndoc e 4\n.\n".as_slice();
    check(&rt, rt.alloc(), "2", input, output)?;
    check(&rt, rt.alloc(), "64", b"", b"")
}

#[test]
fn misuse(rt: HostRuntime) -> Result<(), Fail> {
    for workers in ["0", "65", "-1", "01", "x"] {
        let image = image(&rt, rt.alloc())?;
        let (status, found) = asked(&rt, rt.alloc(), image, workers, b"names\n")?;
        assert_eq!(rt; status, Status::Usage);
        assert!(rt; found.is_empty());
    }
    Ok(())
}

#[test]
fn no_store(rt: HostRuntime) -> Result<(), Fail> {
    let image = Image {
        pages: Bytes::new(rt.alloc()),
        log: Bytes::new(rt.alloc()),
    };
    let (status, found) = asked(&rt, rt.alloc(), image, "2", b"names\n")?;
    assert_eq!(rt; status, Status::NotAStore);
    assert!(rt; found.is_empty());
    Ok(())
}

// Batches that are whole, and one that isn't.
#[test]
fn batches(rt: HostRuntime) -> Result<(), Fail> {
    for count in [1_023usize, 1_024, 1_025, 2_048, 3_000] {
        let mut input = Vec::new(rt.alloc());
        let mut output = Vec::new(rt.alloc());
        for place in 0..count {
            if place % 3 == 0 {
                input.extend_from_slice(b"get e /0/1\n")?;
                output.extend_from_slice(b"node 0 -hi\n")?;
            } else {
                input.extend_from_slice(b"get e /0\n")?;
                output.extend_from_slice(b"node 2 (a\n")?;
            }
        }
        check(&rt, rt.alloc(), "4", input.as_slice(), output.as_slice())?;
    }
    Ok(())
}
