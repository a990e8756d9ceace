// Runs that partition a document.
use crate::driven::{check_run, words_of};
use nx_front::Status;
use nx_tree::NoMemory;
use std::alloc::Global;
use std::process::Abort;
use std::test::Fail;
use std::thread::Threads;

const DOCUMENT: &str = "(a\nAx 1\n-hi\n)a\n";

// The most slots of a part, a document, how the run ends, and its output.
const PLANS: [(&str, &str, Status, &str); 7] = [
    (
        "16",
        DOCUMENT,
        Status::Done,
        "root 7\nbound 0 1 7 1\nbound 1 1 6 2\nbound 2 1 2 2\nbound 3 1 2 2\n",
    ),
    (
        "4",
        DOCUMENT,
        Status::Done,
        "root 3\nrun /0 0 1 4\nbound 0 2 3 1\nbound 1 2 2 2\nbound 2 1 2 2\nbound 3 1 2 2\n",
    ),
    ("1", DOCUMENT, Status::Refused, "refused too-heavy /0 2\n"),
    (
        "2",
        "(a\n-x\n(b\n-123456789\n)b\n)a\n",
        Status::Refused,
        "refused too-heavy /0/1/0 3\n",
    ),
    // A fault comes first, and the heavy node that stands first.
    (
        "1",
        "(a\n-123456789\n",
        Status::Refused,
        "refused pyx 2 unclosed\n",
    ),
    (
        "2",
        "(a\n(b\n-123456789\n)b\n-x\n-12345678901234567\n)a\n",
        Status::Refused,
        "refused too-heavy /0/0/0 3\n",
    ),
    ("256", "", Status::Refused, "refused pyx 0 empty\n"),
];

// The output of a run, however the input is cut into pieces.
fn check(
    rt: &(impl Threads + Abort + Sync),
    alloc: Global,
    limit: &str,
    input: &str,
    status: Status,
    output: &str,
) -> Result<(), NoMemory> {
    let words = words_of(alloc, &["_", "plan", limit])?;
    for piece in [1, 2, 7, 64, 4096usize] {
        let given = (input.as_bytes(), piece);
        check_run(rt, alloc, &words, given, status, output.as_bytes())?;
    }
    Ok(())
}

#[test]
fn a_document_has_a_plan(rt: HostRuntime) -> Result<(), Fail> {
    for (limit, input, status, output) in PLANS {
        check(&rt, rt.alloc(), limit, input, status, output)?;
    }
    Ok(())
}

// How many letters the text of an element has, how a run ends that cuts it in parts of at most 128 slots, and its output.
const LONG: [(usize, Status, &[u8]); 2] = [
    (1_024, Status::Refused, b"refused too-heavy /0/0 129\n"),
    (
        1_025,
        Status::Done,
        b"root 5\nbound 0 1 5 1\nbound 1 1 4 2\nbound 2 1 2 2\n",
    ),
];

fn long_text(alloc: Global, letters: usize) -> Result<Vec<u8>, NoMemory> {
    let text = Vec::from_elem(alloc, b'x', letters)?;
    let parts: [&[u8]; 3] = [b"(a\n-", text.as_slice(), b"\n)a\n"];
    Ok(parts.concat(alloc)?)
}

// A content of more than 1,024 bytes weighs as one of 8.
#[test]
fn long_contents_weigh_little(rt: HostRuntime) -> Result<(), Fail> {
    let words = words_of(rt.alloc(), &["_", "plan", "128"])?;
    for (letters, status, output) in LONG {
        let document = long_text(rt.alloc(), letters)?;
        let given = (document.as_slice(), 4_096);
        check_run(&rt, rt.alloc(), &words, given, status, output)?;
    }
    Ok(())
}
