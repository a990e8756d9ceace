// Sessions without memory. Where it is tried by hand so, one allocation of this test fails: then the test may fail for want of
// memory too, but no assertion does. In the gate none fails.
use crate::hosts::{CHOICES, host_with, left, no_store, ran};
use crate::stories::{LONG, SHORT, Session, Story};
use crate::tables::{after, all_lines, is_in, states_after};
use nx_front::Status;
use nx_memory::{Image, MemoryHost};
use nx_tree::NoMemory;
use std::alloc::Global;
use std::process::Abort;
use std::test::Fail;
use std::thread::Threads;

// The store is as it was behind the commands that were answered, and goes on.
fn check_left(
    rt: &(impl Threads + Abort + Sync),
    alloc: Global,
    story: Story,
    session: Session,
    host: &MemoryHost,
) -> Result<(), NoMemory> {
    let (before, _) = states_after(session, host.output().len());
    for choice in CHOICES {
        let image = left(host, choice)?;
        assert!(rt; is_in(rt, alloc, story, &image, before)?, "{before}");
    }
    Ok(())
}

// A session ends well or for want of memory.
fn check_session(
    rt: &(impl Threads + Abort + Sync),
    alloc: Global,
    story: Story,
    session: Session,
    image: &Image,
) -> Result<(), NoMemory> {
    let script = all_lines(alloc, session)?;
    let mut host = host_with(alloc, image, script.as_slice(), 65_536)?;
    let status = ran(rt, alloc, session.words, &mut host)?;
    assert!(rt;
        status == Status::Done || status == Status::NoMemory,
        "{status:?}"
    );
    check_left(rt, alloc, story, session, &host)
}

fn check_story(
    rt: &(impl Threads + Abort + Sync),
    alloc: Global,
    story: Story,
) -> Result<(), NoMemory> {
    let mut image = no_store(alloc);
    for session in story.sessions {
        check_session(rt, alloc, story, *session, &image)?;
        image = after(rt, alloc, *session, &image)?;
    }
    Ok(())
}

#[test]
fn a_session_without_memory(rt: HostRuntime) -> Result<(), Fail> {
    check_story(&rt, rt.alloc(), SHORT)?;
    Ok(())
}

#[test]
fn a_session_of_much_without_memory(rt: HostRuntime) -> Result<(), Fail> {
    check_story(&rt, rt.alloc(), LONG)?;
    Ok(())
}
