// One call that fails, by its name.
use crate::hosts::{CHOICES, answers, host_with, left, no_store, ran};
use crate::stories::SHORT;
use crate::tables::{after, all_lines};
use nx_front::Status;
use nx_memory::{Choice, Image, MemoryHost};
use nx_tree::NoMemory;
use std::alloc::Global;
use std::process::Abort;
use std::test::Fail;
use std::thread::Threads;

// More calls than the session takes.
const CALLS: u64 = 400;

// The replies before that of the `retext`.
const BEFORE: &[u8] = b"ok 4 1\nerror twice\nnode 2 (a\nerror no-content\n";

// The areas of a new store.
fn begun(rt: &(impl Threads + Abort + Sync), alloc: Global) -> Result<Image, NoMemory> {
    after(rt, alloc, SHORT.sessions[0], &no_store(alloc))
}

// The session with an edit, which stops after so many calls.
fn stopped(
    rt: &(impl Threads + Sync),
    alloc: Global,
    image: &Image,
    calls: u64,
) -> Result<MemoryHost, NoMemory> {
    let script = all_lines(alloc, SHORT.sessions[1])?;
    let mut host = host_with(alloc, image, script.as_slice(), 65_536)?;
    host.stop_after(calls);
    ran(rt, alloc, &["s", "run"], &mut host)?;
    Ok(host)
}

// ... or at which one call fails.
fn failed(
    rt: &(impl Threads + Sync),
    alloc: Global,
    image: &Image,
    number: u64,
) -> Result<(MemoryHost, Status), NoMemory> {
    let script = all_lines(alloc, SHORT.sessions[1])?;
    let mut host = host_with(alloc, image, script.as_slice(), 65_536)?;
    host.fail_calls(&[number])?;
    let status = ran(rt, alloc, &["s", "run"], &mut host)?;
    Ok((host, status))
}

// Whether an image has the new text.
fn has_new_text(
    rt: &(impl Threads + Sync),
    alloc: Global,
    host: &MemoryHost,
    choice: Choice,
) -> Result<bool, NoMemory> {
    let (status, found) = answers(rt, alloc, &left(host, choice)?, b"get e /0/1\n")?;
    Ok(status == Status::Done && found.as_slice() == b"node 0 -bye\n".as_slice())
}

// The number of the call that writes the gate of the edit: after it the new text is there, and not before.
fn gate_of(
    rt: &(impl Threads + Abort + Sync),
    alloc: Global,
    image: &Image,
) -> Result<u64, NoMemory> {
    for calls in 1..CALLS {
        let host = stopped(rt, alloc, image, calls)?;
        if host.output() == BEFORE && has_new_text(rt, alloc, &host, Choice::Kept)? {
            return Ok(calls);
        }
    }
    panic!(rt; "no call writes the gate");
}

// Whether a crash loses bytes of the log after so many calls.
fn may_lose(
    rt: &(impl Threads + Sync),
    alloc: Global,
    image: &Image,
    calls: u64,
) -> Result<bool, NoMemory> {
    let host = stopped(rt, alloc, image, calls)?;
    let kept = left(&host, Choice::Kept)?;
    let lost = left(&host, Choice::Lost)?;
    Ok(kept.log.as_slice() != lost.log.as_slice())
}

// Each image has the old text.
fn check_old_text(
    rt: &(impl Threads + Abort + Sync),
    alloc: Global,
    host: &MemoryHost,
) -> Result<(), NoMemory> {
    for choice in CHOICES {
        let (status, found) = answers(rt, alloc, &left(host, choice)?, b"get e /0/1\n")?;
        assert_eq!(rt; status, Status::Done);
        assert_eq!(rt; found.as_slice(), b"node 0 -hi\n".as_slice(), "{choice:?}");
    }
    Ok(())
}

// The call before the one that writes the gate syncs the body of the log: after it a crash loses nothing, and before it does.
#[test]
fn the_sync_of_an_edits_log_fails(rt: HostRuntime) -> Result<(), Fail> {
    let image = begun(&rt, rt.alloc())?;
    let sync = gate_of(&rt, rt.alloc(), &image)?.saturating_sub(1);
    assert!(rt; may_lose(&rt, rt.alloc(), &image, sync.saturating_sub(1))?);
    assert!(rt; !may_lose(&rt, rt.alloc(), &image, sync)?);
    let (host, status) = failed(&rt, rt.alloc(), &image, sync)?;
    assert_eq!(rt; status, Status::DiskFault);
    assert_eq!(rt; host.output(), BEFORE);
    check_old_text(&rt, rt.alloc(), &host)?;
    Ok(())
}
