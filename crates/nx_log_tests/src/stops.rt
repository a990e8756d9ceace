// A commit or a checkpoint that is stopped after each call of the disk.
use crate::stores::{bytes_of, commit_two, empty_host};
use nx_memory::{Choice, MemoryHost};
use nx_wal::{Wal, WalError};
use std::alloc::Global;
use std::process::Abort;
use std::test::Fail;

// More calls than any of the steps takes.
const CALLS: u64 = 32;

// What is stopped: the first commit of a log, a second one, or a checkpoint behind both.
#[derive(Clone, Copy, Debug, PartialEq, Eq, PartialOrd, Ord)]
enum Step {
    First,
    Second,
    Checkpoint,
}

// A log before this step.
fn before(rt: &impl Abort, alloc: Global, host: &mut MemoryHost, step: Step) -> Result<Wal, Fail> {
    let mut wal = Wal::create(host, alloc)?;
    if step >= Step::Second {
        commit_two(rt, host, &mut wal, [(0, 1), (1, 1)])??;
    }
    if step >= Step::Checkpoint {
        commit_two(rt, host, &mut wal, [(1, 2), (2, 2)])??;
    }
    Ok(wal)
}

fn take(
    rt: &impl Abort,
    host: &mut MemoryHost,
    wal: &mut Wal,
    step: Step,
) -> Result<Result<(), WalError>, Fail> {
    match step {
        Step::First => commit_two(rt, host, wal, [(0, 1), (1, 1)]),
        Step::Second => commit_two(rt, host, wal, [(1, 2), (2, 2)]),
        Step::Checkpoint => {
            wal.abandon();
            Ok(wal.checkpoint(host))
        }
    }
}

// Stops the step after so many calls, and says whether it was done then. What each crash leaves is
// opened again.
fn is_done_after(
    rt: &impl Abort,
    alloc: Global,
    step: Step,
    calls: u64,
    was: &[u8],
    now: &[u8],
) -> Result<bool, Fail> {
    let mut host = empty_host(alloc)?;
    let mut wal = before(rt, alloc, &mut host, step)?;
    host.stop_after(calls);
    let done = take(rt, &mut host, &mut wal, step)?;
    assert_eq!(rt; host.counts().faults, u64::from(done.is_err()));
    for choice in [Choice::Kept, Choice::Lost, Choice::Ones] {
        let seen = bytes_of(alloc, host.image(choice)?)?;
        let after = seen.as_slice() == now;
        let holds = after || done.is_err() && seen.as_slice() == was;
        assert!(rt; holds, "{step:?} after {calls} calls, {choice:?}: {seen:?}");
    }
    Ok(done.is_ok())
}

// Afterwards a log has the pages before the step or those after it, and after Ok those after it.
#[test]
fn a_step_is_taken_whole_or_not_at_all(rt: HostRuntime) -> Result<(), Fail> {
    let steps: [(Step, &[u8], &[u8]); 3] = [
        (Step::First, &[], &[1, 1]),
        (Step::Second, &[1, 1], &[1, 2, 2]),
        (Step::Checkpoint, &[1, 2, 2], &[1, 2, 2]),
    ];
    for (step, was, now) in steps {
        let mut done = 0u64;
        for calls in 0..CALLS {
            if is_done_after(&rt, rt.alloc(), step, calls, was, now)? {
                done = done.saturating_add(1);
            }
        }
        assert!(rt; 0 < done && done < CALLS, "{step:?}");
    }
    Ok(())
}

// To open a log with a group takes one call more than to open it to read alone: the one that renews its gate.
#[test]
fn a_renewal_that_fails_opens_no_log(rt: HostRuntime) -> Result<(), Fail> {
    let alloc = rt.alloc();
    let mut host = empty_host(alloc)?;
    let mut wal = Wal::create(&mut host, alloc)?;
    commit_two(&rt, &mut host, &mut wal, [(0, 1), (1, 1)])??;
    let mut reading = 0u64;
    let mut opening = 0u64;
    for calls in 0..CALLS {
        host.stop_after(calls);
        if Wal::open_to_read(&mut host, alloc).is_ok() {
            reading = reading.saturating_add(1);
        }
        host.stop_after(calls);
        if Wal::open(&mut host, alloc).is_ok() {
            opening = opening.saturating_add(1);
        }
    }
    assert!(rt; 0 < opening);
    assert_eq!(rt; opening.saturating_add(1), reading);
    Ok(())
}
