// Runs that check a partitioning of a document.
use crate::driven::{check_run, words_of};
use nx_front::Status;
use nx_tree::NoMemory;
use std::alloc::Global;
use std::process::Abort;
use std::test::Fail;
use std::thread::Threads;

// Five nodes besides the root: an element with an attribute and a text of 9 slots in all.
const DOCUMENT: &str = "(shop\nAlang en\n(item\n-tea\n)item\n)shop\n";

const PARTS: &str = "root 1\nrun / 0 0 4\nrun /0 1 1 4\n";

const BOUNDS: &str = "bound 0 3 1 1\nbound 1 2 4 2\nbound 2 1 2 2\nbound 3 1 4 2\nbound 4 1 2 2\n";

const WHOLE: &[&str] = &[DOCUMENT, ".\n", PARTS, BOUNDS];

// Texts that are the input together, and what refuses them.
const REFUSED: [(&[&str], &str); 16] = [
    (&["(a\n.\n"], "refused pyx 1 unclosed\n"),
    (&["(a\n-x\n)b\n.\n", PARTS], "refused pyx 3 bad-nesting\n"),
    (&["(a\n)a\n..\n.\n"], "refused pyx 3 bad-code\n"),
    (&[], "refused pyx 0 empty\n"),
    (&["."], "refused pyx 0 empty\n"),
    (
        &[DOCUMENT, ".\n", PARTS, "bound 0 3 1\n"],
        "refused plan-line 4\n",
    ),
    (
        &[DOCUMENT, ".\n", PARTS, "bound 1 3 1 1\n"],
        "refused plan-line 4\n",
    ),
    (
        &[DOCUMENT, ".\n", PARTS, BOUNDS, "root 1\n"],
        "refused plan-line 9\n",
    ),
    (
        &[DOCUMENT, ".\nroot 1\nrun /0 1 2 4\n"],
        "refused out-of-tree 1\n",
    ),
    (
        &[DOCUMENT, ".\nroot 1\nrun /0 0 1 6\nrun /0 1 1 4\n"],
        "refused overlap 2\n",
    ),
    (&[DOCUMENT], "refused no-root\n"),
    (&[DOCUMENT, ".\nroot 9\n"], "refused heavy 0 9\n"),
    (
        &[DOCUMENT, ".\nroot 1\nrun / 0 0 4\nrun /0 1 1 3\n"],
        "refused weight 2 3 4\n",
    ),
    (&[DOCUMENT, ".\n", PARTS], "refused length 0 5\n"),
    (
        &[
            DOCUMENT,
            ".\n",
            PARTS,
            "bound 0 3 1 1\nbound 1 2 4 3\nbound 2 1 2 2\nbound 3 1 4 2\nbound 4 1 2 2\n",
        ],
        "refused unsupported 1 nearly 3 2\n",
    ),
    (
        &[
            DOCUMENT,
            ".\nroot 1\nrun / 0 0 2\nrun /0 0 0 2\nrun /0 1 1 4\n",
            BOUNDS,
        ],
        "refused count 4 3\n",
    ),
];

fn input_of(alloc: Global, texts: &[&str]) -> Result<Vec<u8>, NoMemory> {
    let mut input = Vec::new(alloc);
    for text in texts {
        input.extend_from_slice(text.as_bytes())?;
    }
    Ok(input)
}

// Checks with parts of at most 4 slots, however the input is cut into pieces.
fn check(
    rt: &(impl Threads + Abort + Sync),
    alloc: Global,
    texts: &[&str],
    status: Status,
    output: &str,
) -> Result<(), NoMemory> {
    let words = words_of(alloc, &["_", "verify", "4"])?;
    let input = input_of(alloc, texts)?;
    for piece in [1, 2, 7, 64, 4096usize] {
        let given = (input.as_slice(), piece);
        check_run(rt, alloc, &words, given, status, output.as_bytes())?;
    }
    Ok(())
}

#[test]
fn a_plan_has_its_verdict(rt: HostRuntime) -> Result<(), Fail> {
    let certified = "certified 3\n";
    check(&rt, rt.alloc(), WHOLE, Status::Done, certified)?;
    let texts: [&str; 4] = [DOCUMENT, ".\r\n", PARTS, BOUNDS];
    check(&rt, rt.alloc(), &texts, Status::Done, certified)?;
    for (texts, line) in REFUSED {
        check(&rt, rt.alloc(), texts, Status::Refused, line)?;
    }
    Ok(())
}
