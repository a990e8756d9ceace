// Groups that are shipped from one store and applied to another.
use crate::hosts::{host_with, left, no_store, ran};
use nx_front::Status;
use nx_memory::{Choice, Image};
use nx_tree::{Bytes, NoMemory};
use std::alloc::Global;
use std::process::Abort;
use std::test::Fail;
use std::thread::Threads;

// Four nodes come.
const LOAD: &[u8] = b"load e\n(a\nAx 1\n-hi\n)a\n.\n";

// How a command line ends over the areas of an image, what is out then, and what is left.
fn done(
    rt: &(impl Threads + Sync),
    alloc: Global,
    texts: &[&str],
    image: &Image,
    input: &[u8],
) -> Result<(Status, Bytes, Image), NoMemory> {
    let mut host = host_with(alloc, image, input, 5_000)?;
    let status = ran(rt, alloc, texts, &mut host)?;
    let kept = left(&host, Choice::Kept)?;
    Ok((status, Bytes::from_slice(alloc, host.output())?, kept))
}

// It ends so, with that output; what is left.
fn check(
    rt: &(impl Threads + Abort + Sync),
    alloc: Global,
    texts: &[&str],
    image: &Image,
    input: &[u8],
    (status, output): (Status, &[u8]),
) -> Result<Image, NoMemory> {
    let (ended, out, kept) = done(rt, alloc, texts, image, input)?;
    assert_eq!(rt; ended, status, "{output:?}");
    assert_eq!(rt; out.as_slice(), output);
    Ok(kept)
}

// A store with a document: groups 0 and 1.
fn sender(rt: &(impl Threads + Abort + Sync), alloc: Global) -> Result<Image, NoMemory> {
    let made = check(
        rt,
        alloc,
        &["s", "init", "16"],
        &no_store(alloc),
        b"",
        (Status::Done, b"ok\n"),
    )?;
    check(
        rt,
        alloc,
        &["s", "run"],
        &made,
        LOAD,
        (Status::Done, b"ok 4 1\n"),
    )
}

// The groups of a store from this one on.
fn shipped(
    rt: &(impl Threads + Abort + Sync),
    alloc: Global,
    image: &Image,
    from: &str,
) -> Result<Bytes, NoMemory> {
    let (status, stream, _) = done(rt, alloc, &["s", "ship", from], image, b"")?;
    assert_eq!(rt; status, Status::Done);
    Ok(stream)
}

// The store of the sender's two groups.
fn receiver(
    rt: &(impl Threads + Abort + Sync),
    alloc: Global,
    stream: &[u8],
) -> Result<Image, NoMemory> {
    check(
        rt,
        alloc,
        &["t", "apply"],
        &no_store(alloc),
        stream,
        (Status::Done, b"ok 0\nok 1\n"),
    )
}

#[test]
fn a_store_follows(rt: HostRuntime) -> Result<(), Fail> {
    let alloc = rt.alloc();
    let stream = shipped(&rt, alloc, &sender(&rt, alloc)?, "0")?;
    let followed = receiver(&rt, alloc, stream.as_slice())?;
    check(
        &rt,
        alloc,
        &["t", "run"],
        &followed,
        b"names\n",
        (Status::Done, b"doc e 4\n.\n"),
    )?;
    let refused: &[u8] = b"refused repeat 0 1\n";
    check(
        &rt,
        alloc,
        &["t", "apply"],
        &followed,
        stream.as_slice(),
        (Status::Refused, refused),
    )?;
    Ok(())
}
