// Applying a stream that is stopped after each call of the host, and at which each one fails.
use crate::hosts::{CHOICES, answers, host_with, no_store};
use crate::rows::stream;
use nx_front::Status;
use nx_memory::{Image, MemoryHost};
use nx_ship::apply;
use nx_tree::NoMemory;
use std::alloc::Global;
use std::process::Abort;
use std::test::Fail;
use std::thread::Threads;

// More calls than applying takes here.
const CALLS: u64 = 60;

// How many groups are in: none where there is no store.
fn groups_in(rt: &(impl Threads + Sync), alloc: Global, image: &Image) -> Result<usize, NoMemory> {
    let (status, out, _) = answers(rt, alloc, image, b"names\n")?;
    if status != Status::Done {
        return Ok(0);
    }
    if out.as_slice() == b".\n".as_slice() {
        return Ok(1);
    }
    Ok(2)
}

fn check_groups(rt: &impl Abort, groups: usize, lines: usize) {
    assert!(rt; groups == lines || groups == lines.saturating_add(1));
}

// With so many lines out each image has as many groups, or one more.
fn check_images(
    rt: &(impl Threads + Abort + Sync),
    alloc: Global,
    host: &MemoryHost,
) -> Result<(), NoMemory> {
    let lines = host.output().iter().filter(|byte| **byte == b'\n').count();
    for choice in CHOICES {
        let image = host.image(choice)?;
        let groups = groups_in(rt, alloc, &image)?;
        check_groups(rt, groups, lines);
    }
    Ok(())
}

// Applying that is stopped after so many calls.
fn check_stop(
    rt: &(impl Threads + Abort + Sync),
    alloc: Global,
    stream: &[u8],
    calls: u64,
) -> Result<(), NoMemory> {
    let mut host = host_with(alloc, &no_store(alloc), stream, 10_000)?;
    host.stop_after(calls);
    let _result = apply(alloc, &mut host);
    check_images(rt, alloc, &host)
}

#[test]
fn applying_stops_after_each_call(rt: HostRuntime) -> Result<(), Fail> {
    let stream = stream(&rt, rt.alloc())?;
    for calls in 0..CALLS {
        check_stop(&rt, rt.alloc(), stream.as_slice(), calls)?;
    }
    Ok(())
}
