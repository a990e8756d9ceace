// Each call of each session of a story fails in turn. What is out and what is left go together each time.
use crate::hosts::{answers, are_same, host_with, left, no_store, ran, spelled};
use crate::stories::{LONG, SHORT, Session, Story};
use nx_front::Status;
use nx_memory::{Choice, Image, MemoryHost};
use nx_tree::NoMemory;
use std::alloc::{AllocError, Global};
use std::process::Abort;
use std::test::Fail;
use std::thread::Threads;

// More calls than a session here takes.
const CALLS: u64 = 400;

// How the call of a number fails.
#[derive(Clone, Copy, Debug, PartialEq, Eq)]
enum How {
    // It alone does.
    Once,
    // So do all behind it.
    Stop,
    // It alone does, and it gives output.
    Emit,
}

/// The lines of all steps of a session.
pub fn all_lines(alloc: Global, session: Session) -> Result<Vec<u8>, AllocError> {
    let mut script = Vec::new(alloc);
    for (lines, _, _) in session.steps {
        script.extend_from_slice(spelled(alloc, lines)?.as_slice())?;
    }
    Ok(script)
}

fn all_replies(alloc: Global, session: Session) -> Result<Vec<u8>, AllocError> {
    let mut replies = Vec::new(alloc);
    for (_, reply, _) in session.steps {
        replies.extend_from_slice(reply)?;
    }
    Ok(replies)
}

/// With so many bytes out, the state behind the commands that were answered, and behind one more.
pub fn states_after(session: Session, out: usize) -> (usize, usize) {
    let mut texts = 0usize;
    let mut state = session.begins;
    for (_, reply, then) in session.steps {
        texts = texts.saturating_add(reply.len());
        if out < texts {
            return (state, *then);
        }
        state = *then;
    }
    (state, state)
}

/// Whether a store on the areas answers the looks as it does in that state. Where there is none, it says so.
pub fn is_in(
    rt: &(impl Threads + Sync),
    alloc: Global,
    story: Story,
    image: &Image,
    state: usize,
) -> Result<bool, NoMemory> {
    let Some(text) = story.left.get(state) else {
        return Ok(false);
    };
    let (status, found) = answers(rt, alloc, image, story.looks)?;
    let want = if text.is_empty() {
        Status::NotAStore
    } else {
        Status::Done
    };
    Ok(status == want && found.as_slice() == spelled(alloc, text)?.as_slice())
}

// An image is in one of the two states.
fn check_image(
    rt: &(impl Threads + Abort + Sync),
    alloc: Global,
    story: Story,
    image: &Image,
    (before, after): (usize, usize),
) -> Result<(), NoMemory> {
    let is_left = is_in(rt, alloc, story, image, before)? || is_in(rt, alloc, story, image, after)?;
    assert!(rt; is_left, "{before} or {after}");
    Ok(())
}

// Each image is in the state behind the commands that were answered, or behind one more.
fn check_left(
    rt: &(impl Threads + Abort + Sync),
    alloc: Global,
    story: Story,
    session: Session,
    host: &MemoryHost,
) -> Result<(), NoMemory> {
    let states = states_after(session, host.output().len());
    let kept = left(host, Choice::Kept)?;
    check_image(rt, alloc, story, &kept, states)?;
    for choice in [Choice::Lost, Choice::Ones] {
        let image = left(host, choice)?;
        if !are_same(&image, &kept) {
            check_image(rt, alloc, story, &image, states)?;
        }
    }
    Ok(())
}

// A host at which so many calls failed ends its run so.
fn status_by(host: &MemoryHost) -> Status {
    let counts = host.counts();
    if counts.faults > 0 {
        Status::DiskFault
    } else if counts.in_faults > 0 {
        Status::ReadFault
    } else if counts.out_faults > 0 {
        Status::WriteFault
    } else {
        Status::Done
    }
}

// Behind a call that fails there is no other.
fn check_faults(rt: &impl Abort, host: &MemoryHost, status: Status) {
    assert_eq!(rt; status, status_by(host));
    let counts = host.counts();
    let faults = counts
        .faults
        .saturating_add(counts.in_faults)
        .saturating_add(counts.out_faults);
    assert_eq!(rt; faults, u64::from(status != Status::Done));
}

// The host of a session at which a call will fail.
fn failing_host(
    rt: &impl Abort,
    alloc: Global,
    piece: u32,
    image: &Image,
    session: Session,
    how: How,
    number: u64,
) -> Result<MemoryHost, NoMemory> {
    assert!(rt; piece > 0);
    let script = all_lines(alloc, session)?;
    let mut host = host_with(alloc, image, script.as_slice(), piece)?;
    match how {
        How::Stop => host.stop_after(number.saturating_sub(1)),
        How::Once | How::Emit => host.fail_calls(&[number])?,
    }
    Ok(host)
}

// Runs a session where this call fails, and says how it ends.
fn case(
    rt: &(impl Threads + Abort + Sync),
    alloc: Global,
    story: Story,
    session: Session,
    image: &Image,
    how: How,
    number: u64,
) -> Result<Status, NoMemory> {
    let mut host = failing_host(rt, alloc, story.piece, image, session, how, number)?;
    let status = ran(rt, alloc, session.words, &mut host)?;
    check_faults(rt, &host, status);
    assert!(rt; all_replies(alloc, session)?.starts_with(host.output()));
    if how != How::Emit || status == Status::WriteFault {
        check_left(rt, alloc, story, session, &host)?;
    }
    Ok(status)
}

// Runs a session with each of its calls failing in turn, and says how many calls did.
fn check_session(
    rt: &(impl Threads + Abort + Sync),
    alloc: Global,
    story: Story,
    session: Session,
    image: &Image,
    how: How,
) -> Result<u32, NoMemory> {
    let mut cases = 0u32;
    for number in 1..CALLS {
        match case(rt, alloc, story, session, image, how, number)? {
            Status::Done => return Ok(cases),
            Status::WriteFault => cases = cases.saturating_add(1),
            _ => cases = cases.saturating_add(u32::from(how != How::Emit)),
        }
    }
    panic!(rt; "the session isn't done after {CALLS} calls");
}

/// What a session leaves that nothing disturbs. It gives all replies.
pub fn after(
    rt: &(impl Threads + Abort + Sync),
    alloc: Global,
    session: Session,
    image: &Image,
) -> Result<Image, NoMemory> {
    let script = all_lines(alloc, session)?;
    let mut host = host_with(alloc, image, script.as_slice(), 65_536)?;
    assert_eq!(rt; ran(rt, alloc, session.words, &mut host)?, Status::Done);
    assert_eq!(rt; host.output(), all_replies(alloc, session)?.as_slice());
    left(&host, Choice::Lost)
}

// How many calls failed in all sessions of a story, one after the other. Each is followed by three images.
fn cases(
    rt: &(impl Threads + Abort + Sync),
    alloc: Global,
    story: Story,
    how: How,
) -> Result<u32, NoMemory> {
    let mut cases = 0u32;
    let mut image = no_store(alloc);
    for session in story.sessions {
        let tried = check_session(rt, alloc, story, *session, &image, how)?;
        cases = cases.saturating_add(tried);
        image = after(rt, alloc, *session, &image)?;
    }
    Ok(cases)
}

// A store is made and used by two sessions.
#[test]
fn each_call_fails_once(rt: HostRuntime) -> Result<(), Fail> {
    assert_eq!(rt; cases(&rt, rt.alloc(), SHORT, How::Once)?, 138);
    Ok(())
}

#[test]
fn the_host_stops_at_each_call(rt: HostRuntime) -> Result<(), Fail> {
    assert_eq!(rt; cases(&rt, rt.alloc(), SHORT, How::Stop)?, 138);
    Ok(())
}

#[test]
fn each_emit_fails(rt: HostRuntime) -> Result<(), Fail> {
    assert_eq!(rt; cases(&rt, rt.alloc(), SHORT, How::Emit)?, 19);
    Ok(())
}

#[test]
fn the_host_stops_at_each_call_of_much(rt: HostRuntime) -> Result<(), Fail> {
    assert_eq!(rt; cases(&rt, rt.alloc(), LONG, How::Stop)?, 168);
    Ok(())
}
