// The texts of replies.
use nx_pyx::{PyxError, PyxFault};
use nx_script::{DocLine, DocLines, Reply, ReplyError, push_reply, write_reply};
use nx_tree::{Bytes, Kind, NoMemory, Node};
use std::alloc::Global;
use std::process::Abort;
use std::test::Fail;

// A refusal, and its text.
const REFUSALS: [(ReplyError, &[u8]); 12] = [
    (ReplyError::Syntax, b"error syntax\n"),
    (ReplyError::NoDocument, b"error no-document\n"),
    (ReplyError::Exists, b"error exists\n"),
    (
        ReplyError::Pyx(PyxError {
            line: 1,
            fault: PyxFault::BadCode,
        }),
        b"error pyx 1 bad-code\n",
    ),
    (
        ReplyError::Pyx(PyxError {
            line: 12,
            fault: PyxFault::Unclosed,
        }),
        b"error pyx 12 unclosed\n",
    ),
    (
        ReplyError::Pyx(PyxError {
            line: u64::MAX,
            fault: PyxFault::LongLine,
        }),
        b"error pyx 18446744073709551615 long-line\n",
    ),
    (ReplyError::NoNode, b"error no-node\n"),
    (ReplyError::BadPlace, b"error bad-place\n"),
    (ReplyError::Twice, b"error twice\n"),
    (ReplyError::NoContent, b"error no-content\n"),
    (ReplyError::TooDeep, b"error too-deep\n"),
    (ReplyError::TooMany, b"error too-many\n"),
];

// A kind, a name, a content and a number of children, and the text.
const SHOWN: [(Kind, &[u8], &[u8], u32, &[u8]); 4] = [
    (Kind::Doc, b"", b"", 1, b"node 1 #doc\n"),
    (Kind::Element, b"a", b"", u32::MAX, b"node 4294967295 (a\n"),
    (Kind::Text, b"", b"x\ny", 0, b"node 0 -x\\ny\n"),
    (Kind::Attribute, b"k", b"", 0, b"node 0 Ak \n"),
];

fn docs(alloc: Global, count: u32) -> Result<DocLines, NoMemory> {
    let mut docs = DocLines::new(alloc);
    for nodes in 0..count {
        let name = Bytes::from_slice(alloc, b"!d")?;
        docs.push(DocLine { name, nodes })?;
    }
    Ok(docs)
}

fn written(alloc: Global, reply: &Reply) -> Result<Bytes, NoMemory> {
    write_reply(alloc, reply)
}

fn pushed(alloc: Global, reply: &Reply) -> Result<Bytes, NoMemory> {
    let mut block = Bytes::from_slice(alloc, b"before")?;
    push_reply(&mut block, reply)?;
    Ok(block)
}

// The reply is written so, and added so to what a block has.
fn check(rt: &impl Abort, alloc: Global, reply: &Reply, expected: &[u8]) -> Result<(), NoMemory> {
    assert_eq!(rt; written(alloc, reply)?.as_slice(), expected);
    let block = pushed(alloc, reply)?;
    assert!(rt; block.as_slice().strip_prefix(b"before") == Some(expected));
    Ok(())
}

#[test]
fn replies(rt: HostRuntime) -> Result<(), Fail> {
    check(&rt, rt.alloc(), &Reply::Done, b"ok\n")?;
    let (nodes, intervals) = (8, u32::MAX);
    let loaded = Reply::Loaded { nodes, intervals };
    check(&rt, rt.alloc(), &loaded, b"ok 8 4294967295\n")?;
    let text = Bytes::from_slice(rt.alloc(), b"(a\n)a\n")?;
    check(&rt, rt.alloc(), &Reply::Exported(text), b"(a\n)a\n.\n")?;
    Ok(())
}

fn names(alloc: Global, count: u32) -> Result<Reply, NoMemory> {
    Ok(Reply::Names(docs(alloc, count)?))
}

#[test]
fn documents(rt: HostRuntime) -> Result<(), Fail> {
    check(&rt, rt.alloc(), &names(rt.alloc(), 0)?, b".\n")?;
    let two = names(rt.alloc(), 2)?;
    check(&rt, rt.alloc(), &two, b"doc !d 0\ndoc !d 1\n.\n")?;
    Ok(())
}

// A node that is shown, with a number of children.
fn shown(
    alloc: Global,
    kind: Kind,
    name: &[u8],
    content: &[u8],
    children: u32,
) -> Result<Reply, NoMemory> {
    let node = Node {
        kind,
        name: Bytes::from_slice(alloc, name)?,
        content: Bytes::from_slice(alloc, content)?,
    };
    Ok(Reply::Shown { node, children })
}

#[test]
fn nodes(rt: HostRuntime) -> Result<(), Fail> {
    for (kind, name, content, children, expected) in SHOWN {
        let reply = shown(rt.alloc(), kind, name, content, children)?;
        check(&rt, rt.alloc(), &reply, expected)?;
    }
    Ok(())
}

#[test]
fn refusals(rt: HostRuntime) -> Result<(), Fail> {
    for (error, expected) in REFUSALS {
        check(&rt, rt.alloc(), &Reply::Refused(error), expected)?;
    }
    Ok(())
}
