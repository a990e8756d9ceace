// Stores that are made.
use crate::stores::{CHOICES, empty_host, host_of, left, settings_of, status_of, words_of};
use nx_front::{Status, Words};
use nx_memory::{Choice, MemoryHost};
use nx_records::Settings;
use nx_tree::NoMemory;
use std::alloc::Global;
use std::process::Abort;
use std::test::Fail;
use std::thread::Threads;

// More calls than making a store takes.
const CALLS: u64 = 32;

// Words, and the settings of the store that they make: K, the target, the tolerance and the limit of pages.
const MADE: [(&[&str], [u32; 4]); 6] = [
    (&["s", "init", "16"], [16, 50, 4, 16_777_216]),
    (&["s", "init", "3"], [3, 50, 0, 16_777_216]),
    (&["s", "init", "16", "0"], [16, 0, 4, 16_777_216]),
    (
        &["s", "init", "256", "100", "256"],
        [256, 100, 256, 16_777_216],
    ),
    (&["s", "init", "1", "0", "0", "64"], [1, 0, 0, 64]),
    (
        &["_.", "init", "7", "50", "4", "16777216"],
        [7, 50, 4, 16_777_216],
    ),
];

fn are(settings: Option<Settings>, [k, target, tolerance, limit]: [u32; 4]) -> bool {
    settings
        == Some(Settings {
            k,
            target,
            tolerance,
            limit,
        })
}

// The host with the store that these words make.
fn made(
    rt: &(impl Threads + Abort + Sync),
    alloc: Global,
    texts: &[&str],
) -> Result<MemoryHost, NoMemory> {
    let words = words_of(alloc, texts)?;
    let mut host = empty_host(alloc)?;
    let status = status_of(rt, alloc, &words, &mut host);
    assert_eq!(rt; status, Status::Done, "{texts:?}");
    Ok(host)
}

fn check_made(
    rt: &(impl Threads + Abort + Sync),
    alloc: Global,
    texts: &[&str],
    want: [u32; 4],
) -> Result<(), Fail> {
    let host = made(rt, alloc, texts)?;
    assert_eq!(rt; host.output(), "ok\n".as_bytes());
    assert_eq!(rt; host.counts().faults, 0);
    let there = settings_of(alloc, left(&host, Choice::Lost)?)?;
    assert!(rt; are(there, want), "{texts:?}");
    Ok(())
}

#[test]
fn a_store_has_its_settings(rt: HostRuntime) -> Result<(), Fail> {
    for (texts, settings) in MADE {
        check_made(&rt, rt.alloc(), texts, settings)?;
    }
    Ok(())
}

// Words that would make another store are refused.
fn check_refused(
    rt: &(impl Threads + Abort + Sync),
    alloc: Global,
    host: &mut MemoryHost,
) -> Result<(), NoMemory> {
    let others = words_of(alloc, &["s", "init", "256", "0", "0", "64"])?;
    assert_eq!(rt; status_of(rt, alloc, &others, host), Status::Refused);
    assert_eq!(rt; host.output(), "refused exists\n".as_bytes());
    Ok(())
}

// The areas are those that the other host has.
fn check_same(
    rt: &impl Abort,
    now: &MemoryHost,
    was: &MemoryHost,
    choice: Choice,
) -> Result<(), NoMemory> {
    let now = left(now, choice)?;
    let was = left(was, Choice::Lost)?;
    assert_eq!(rt; now.pages.as_slice(), was.pages.as_slice());
    assert_eq!(rt; now.log.as_slice(), was.log.as_slice());
    Ok(())
}

#[test]
fn a_store_that_is_there_is_left(rt: HostRuntime) -> Result<(), Fail> {
    let host = made(&rt, rt.alloc(), &["s", "init", "16"])?;
    let mut again = host_of(rt.alloc(), left(&host, Choice::Lost)?)?;
    check_refused(&rt, rt.alloc(), &mut again)?;
    for choice in CHOICES {
        check_same(&rt, &again, &host, choice)?;
    }
    Ok(())
}

// Each image has no store, which is so after a fault of the disk alone, or the new one.
fn check_images(
    rt: &impl Abort,
    alloc: Global,
    host: &MemoryHost,
    status: Status,
) -> Result<(), Fail> {
    for choice in CHOICES {
        let there = settings_of(alloc, left(host, choice)?)?;
        let is_new = are(there, [16, 50, 4, 64]);
        assert!(rt;
            is_new || status == Status::DiskFault && there.is_none(),
            "{status:?}, {choice:?}: {there:?}"
        );
    }
    Ok(())
}

// Makes a store with a host that is stopped after so many calls, and says how that ends.
fn stopped(
    rt: &(impl Threads + Abort + Sync),
    alloc: Global,
    words: &Words,
    calls: u64,
) -> Result<Status, Fail> {
    let mut host = empty_host(alloc)?;
    host.stop_after(calls);
    let status = status_of(rt, alloc, words, &mut host);
    assert!(rt;
        status == Status::Done || host.output().is_empty(),
        "{calls}"
    );
    check_images(rt, alloc, &host, status)?;
    Ok(status)
}

// Afterwards there is no store or the new one, and that once a byte is out.
#[test]
fn a_store_is_made_whole_or_not_at_all(rt: HostRuntime) -> Result<(), Fail> {
    let words = words_of(rt.alloc(), &["s", "init", "16", "50", "4", "64"])?;
    let mut failed = 0u64;
    let mut silent = 0u64;
    let mut done = 0u64;
    for calls in 0..CALLS {
        match stopped(&rt, rt.alloc(), &words, calls)? {
            Status::DiskFault => failed = failed.saturating_add(1),
            Status::WriteFault => silent = silent.saturating_add(1),
            _ => done = done.saturating_add(1),
        }
    }
    assert!(rt; 0 < failed && silent == 1 && 0 < done);
    Ok(())
}
