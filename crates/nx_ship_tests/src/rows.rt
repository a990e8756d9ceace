// Groups that are shipped and applied, by example.
use crate::hosts::{answers, applied, made, no_store, shipped};
use nx_memory::Image;
use nx_ship::{ShipError, Start};
use nx_tree::{Bytes, NoMemory};
use std::alloc::Global;
use std::process::Abort;
use std::test::Fail;
use std::thread::Threads;

// Four nodes come.
pub const LOAD: &[u8] = b"load e\n(a\nAx 1\n-hi\n)a\n.\n";

// A new store with a document: groups 0 and 1.
pub fn sender(rt: &(impl Threads + Sync), alloc: Global) -> Result<Image, NoMemory> {
    let (_, _, image) = answers(rt, alloc, &made(rt, alloc)?, LOAD)?;
    Ok(image)
}

// The stream of its groups.
pub fn stream(rt: &(impl Threads + Sync), alloc: Global) -> Result<Bytes, NoMemory> {
    let store = sender(rt, alloc)?;
    let (_, bytes) = shipped(alloc, &store, Start::Number(0))?;
    Ok(bytes)
}

fn check_end(rt: &impl Abort, found: Result<(), ShipError>, want: Result<(), ShipError>) {
    assert_eq!(rt; found, want);
}

fn check_out(rt: &impl Abort, found: &[u8], want: &[u8]) {
    assert_eq!(rt; found, want);
}

// Applying the stream to these areas ends so, with that out; what is left.
fn check_applied(
    rt: &impl Abort,
    alloc: Global,
    image: &Image,
    stream: &[u8],
    ended: Result<(), ShipError>,
    out: &[u8],
) -> Result<Image, NoMemory> {
    let (result, found, left) = applied(alloc, image, stream, 1_000)?;
    check_end(rt, result, ended);
    check_out(rt, found.as_slice(), out);
    Ok(left)
}

// Shipping the areas ends so, with nothing out.
fn check_shipped(
    rt: &impl Abort,
    alloc: Global,
    image: &Image,
    start: Start,
    ended: Result<(), ShipError>,
) -> Result<(), NoMemory> {
    let (result, out) = shipped(alloc, image, start)?;
    check_end(rt, result, ended);
    check_out(rt, out.as_slice(), b"");
    Ok(())
}

// The store answers a script so.
fn check_answer(
    rt: &(impl Threads + Abort + Sync),
    alloc: Global,
    image: &Image,
    script: &[u8],
    text: &[u8],
) -> Result<(), NoMemory> {
    let (_, found, _) = answers(rt, alloc, image, script)?;
    check_out(rt, found.as_slice(), text);
    Ok(())
}

// The store of both groups, to which they come again.
fn check_again(
    rt: &(impl Threads + Abort + Sync),
    alloc: Global,
    image: &Image,
    stream: &[u8],
) -> Result<(), NoMemory> {
    check_answer(rt, alloc, image, b"names\n", b"doc e 4\n.\n")?;
    let repeat = Err(ShipError::Repeat { number: 0, last: 1 });
    check_applied(rt, alloc, image, stream, repeat, b"")?;
    Ok(())
}

fn check_followed(
    rt: &(impl Threads + Abort + Sync),
    alloc: Global,
    stream: &[u8],
) -> Result<(), NoMemory> {
    let none = no_store(alloc);
    let image = check_applied(rt, alloc, &none, stream, Ok(()), b"ok 0\nok 1\n")?;
    check_again(rt, alloc, &image, stream)
}

#[test]
fn a_log_is_shipped_and_comes_again(rt: HostRuntime) -> Result<(), Fail> {
    let stream = stream(&rt, rt.alloc())?;
    check_followed(&rt, rt.alloc(), stream.as_slice())?;
    Ok(())
}

fn check_numbers(rt: &impl Abort, alloc: Global, image: &Image) -> Result<(), NoMemory> {
    check_shipped(rt, alloc, image, Start::Number(2), Ok(()))?;
    let none = Err(ShipError::NoGroup { from: 3, last: 1 });
    check_shipped(rt, alloc, image, Start::Number(3), none)
}

#[test]
fn the_next_number_ships_nothing(rt: HostRuntime) -> Result<(), Fail> {
    let image = sender(&rt, rt.alloc())?;
    check_numbers(&rt, rt.alloc(), &image)?;
    Ok(())
}

// The sender with an empty log.
fn emptied(rt: &(impl Threads + Sync), alloc: Global) -> Result<Image, NoMemory> {
    let store = sender(rt, alloc)?;
    let (_, _, image) = answers(rt, alloc, &store, b"checkpoint\n")?;
    Ok(image)
}

// A group of all pages is a store.
fn check_pages(
    rt: &(impl Threads + Abort + Sync),
    alloc: Global,
    stream: &[u8],
) -> Result<(), NoMemory> {
    let none = no_store(alloc);
    let left = check_applied(rt, alloc, &none, stream, Ok(()), b"ok 1\n")?;
    check_answer(rt, alloc, &left, b"export e\n", b"(a\nAx 1\n-hi\n)a\n.\n")
}

fn check_all(
    rt: &(impl Threads + Abort + Sync),
    alloc: Global,
    image: &Image,
) -> Result<(), NoMemory> {
    let none = Err(ShipError::NoGroup { from: 1, last: 1 });
    check_shipped(rt, alloc, image, Start::Number(1), none)?;
    let (result, stream) = shipped(alloc, image, Start::All)?;
    check_end(rt, result, Ok(()));
    check_pages(rt, alloc, stream.as_slice())
}

#[test]
fn all_pages_are_shipped(rt: HostRuntime) -> Result<(), Fail> {
    let image = emptied(&rt, rt.alloc())?;
    check_all(&rt, rt.alloc(), &image)?;
    Ok(())
}

fn check_short(rt: &impl Abort, alloc: Global, stream: &[u8]) -> Result<(), NoMemory> {
    let short = &stream[..stream.len().saturating_sub(1)];
    let broken = Err(ShipError::Stream { offset: 16_404 });
    check_applied(rt, alloc, &no_store(alloc), short, broken, b"ok 0\n")?;
    Ok(())
}

#[test]
fn a_last_byte_is_missing(rt: HostRuntime) -> Result<(), Fail> {
    let stream = stream(&rt, rt.alloc())?;
    check_short(&rt, rt.alloc(), stream.as_slice())?;
    Ok(())
}

// The sender with two groups more.
fn grown(rt: &(impl Threads + Sync), alloc: Global) -> Result<Image, NoMemory> {
    let store = sender(rt, alloc)?;
    let edits = b"retext e /0/1 bye\nretext e /0/1 hello\n";
    let (_, _, image) = answers(rt, alloc, &store, edits)?;
    Ok(image)
}

// The last of them alone.
fn later(rt: &(impl Threads + Sync), alloc: Global) -> Result<Bytes, NoMemory> {
    let store = grown(rt, alloc)?;
    let (_, bytes) = shipped(alloc, &store, Start::Number(3))?;
    Ok(bytes)
}

fn check_gap(
    rt: &(impl Threads + Abort + Sync),
    alloc: Global,
    stream: &[u8],
) -> Result<(), NoMemory> {
    let none = no_store(alloc);
    let receiver = check_applied(rt, alloc, &none, stream, Ok(()), b"ok 0\nok 1\n")?;
    check_refused(rt, alloc, &receiver)
}

fn check_refused(
    rt: &(impl Threads + Abort + Sync),
    alloc: Global,
    receiver: &Image,
) -> Result<(), NoMemory> {
    let later = later(rt, alloc)?;
    let gap = Err(ShipError::Gap { number: 3, last: 1 });
    check_applied(rt, alloc, receiver, later.as_slice(), gap, b"")?;
    Ok(())
}

#[test]
fn a_group_is_missing(rt: HostRuntime) -> Result<(), Fail> {
    let stream = stream(&rt, rt.alloc())?;
    check_gap(&rt, rt.alloc(), stream.as_slice())?;
    Ok(())
}
