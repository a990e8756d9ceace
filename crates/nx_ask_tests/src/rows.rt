// Scripts with all that they are answered.
use crate::stores::{answers, areas_of, ask_one, commands_of, store_of, take, texts_of};
use nx_par::NoGate;
use std::alloc::Global;
use std::process::Abort;
use std::test::Fail;
use std::thread::Threads;

// Two documents and a rule.
const SCRIPT: &[u8] =
    b"load e\n(a\nAx 1\n-hi\n)a\n.\nload f\n(b\n(c\n-one\n)c\n(c\n-two\n)c\n)b\n.\nrule b c cluster\n";

// Each kind of question, some that have no answer, and each command that would change the store.
const QUESTIONS: &[u8] =
    b"get e /0/1\ndrop e\nnames\nget e /0\nget e /7\nget g /0\nexport f\nexport g\nlayout e\nlayout g\nrules\nno such\ncheckpoint\nrule b c free\ndelete e /0/1\nretext e /0/1 x\ninsert e /0/1 -x\nload h\n(a\n)a\n.\nnames\n";

const REPLIES: &[u8] =
    b"node 0 -hi\nerror syntax\ndoc e 4\ndoc f 6\n.\nnode 2 (a\nerror no-node\nerror no-document\n(b\n(c\n-one\n)c\n(c\n-two\n)c\n)b\n.\nerror no-document\nroot 7\n.\nerror no-document\nrule b c cluster\n.\nerror syntax\nerror syntax\nerror syntax\nerror syntax\nerror syntax\nerror syntax\nerror syntax\ndoc e 4\ndoc f 6\n.\n";

#[test]
fn one_of_each(rt: HostRuntime) -> Result<(), Fail> {
    let mut host = store_of(&rt, rt.alloc(), SCRIPT)?;
    let snapshot = take(rt.alloc(), &mut host)?;
    for workers in [1u32, 2, 3, 4, 7, 64] {
        let found = answers(&rt, rt.alloc(), &snapshot, QUESTIONS, workers, &NoGate)?;
        assert!(rt; found.as_slice() == REPLIES);
    }
    Ok(())
}

// The same, each alone.
fn alone<R: Threads + Abort + Sync>(rt: &R, alloc: Global) -> Result<(), Fail> {
    let mut host = store_of(rt, alloc, SCRIPT)?;
    let snapshot = take(alloc, &mut host)?;
    let mut replies = Vec::new(alloc);
    for question in commands_of(alloc, QUESTIONS)?.as_slice() {
        replies.push(ask_one(rt, alloc, &snapshot, question)?)?;
    }
    let found = texts_of(alloc, replies.as_slice())?;
    assert!(rt; found.as_slice() == REPLIES);
    Ok(())
}

#[test]
fn each_alone(rt: HostRuntime) -> Result<(), Fail> {
    alone(&rt, rt.alloc())
}

// The areas are as they were, and the snapshot doesn't see what is changed behind it.
#[test]
fn a_snapshot_stays(rt: HostRuntime) -> Result<(), Fail> {
    let mut host = store_of(&rt, rt.alloc(), b"load e\n(a\nAx 1\n-hi\n)a\n.\n")?;
    let before = areas_of(&host)?;
    let snapshot = take(rt.alloc(), &mut host)?;
    let found = answers(
        &rt,
        rt.alloc(),
        &snapshot,
        b"get e /0/1\ndrop e\nnames\n",
        2,
        &NoGate,
    )?;
    assert_eq!(rt;
        found.as_slice(),
        b"node 0 -hi\nerror syntax\ndoc e 4\n.\n".as_slice()
    );
    let after = areas_of(&host)?;
    assert_eq!(rt; before.pages.as_slice(), after.pages.as_slice());
    assert_eq!(rt; before.log.as_slice(), after.log.as_slice());
    Ok(())
}

// No question has no reply.
#[test]
fn no_question(rt: HostRuntime) -> Result<(), Fail> {
    let mut host = store_of(&rt, rt.alloc(), b"")?;
    let snapshot = take(rt.alloc(), &mut host)?;
    let found = answers(&rt, rt.alloc(), &snapshot, b"", 64, &NoGate)?;
    assert_eq!(rt; found.as_slice(), b"".as_slice());
    let found = answers(&rt, rt.alloc(), &snapshot, b"names\n", 64, &NoGate)?;
    assert_eq!(rt; found.as_slice(), b".\n".as_slice());
    Ok(())
}
