// Runs of `tidy`, words that are no command, and the hosts themselves.
use crate::driven::{
    check_failing, check_run, endless_status, host_of, read_in, status_of, words_of,
};
use crate::endless::EndlessHost;
use nx_front::{Status, Words};
use nx_host::Failed;
use nx_tree::NoMemory;
use std::alloc::Global;
use std::process::Abort;
use std::test::Fail;
use std::thread::Threads;

// An input, and its answer.
const TIDIED: [(&str, Status, &str); 8] = [
    ("(a\n-hi\n)a\n", Status::Done, "(a\n-hi\n)a\n"),
    ("(a\nAx 1\n-hi\n)a\n", Status::Done, "(a\nAx 1\n-hi\n)a\n"),
    ("(a\r\n-hi\r\n)a", Status::Done, "(a\n-hi\n)a\n"),
    ("", Status::Refused, "refused pyx 0 empty\n"),
    ("\n", Status::Refused, "refused pyx 1 bad-code\n"),
    (
        "?p\n(a\nAx 1\n-\\qy\n)a\n",
        Status::Done,
        "?p\n(a\nAx 1\n-\\\\qy\n)a\n",
    ),
    ("(a\n)b\n", Status::Refused, "refused pyx 2 bad-nesting\n"),
    ("(a\n-hi\n", Status::Refused, "refused pyx 2 unclosed\n"),
];

// However the input is cut into pieces.
#[test]
fn an_input_has_its_answer(rt: HostRuntime) -> Result<(), Fail> {
    let words = words_of(rt.alloc(), &["_", "tidy"])?;
    for (input, status, output) in TIDIED {
        for piece in 1..13usize {
            let given = (input.as_bytes(), piece);
            check_run(&rt, rt.alloc(), &words, given, status, output.as_bytes())?;
        }
    }
    Ok(())
}

const MISUSED: [&[&str]; 50] = [
    &["run"],
    &["s", "run", "s"],
    &["_", "run"],
    &["_", "run", "_"],
    &[],
    &["_"],
    &["tidy"],
    &["s", "nothing"],
    &["", "tidy"],
    &["-x", "tidy"],
    &["_", ""],
    &["_", "tidy", "_"],
    &["_", "plan"],
    &["_", "plan", "0"],
    &["s", "plan", "016"],
    &["s", "plan", "257"],
    &["_", "verify"],
    &["_", "verify", "0"],
    &["_", "verify", "257"],
    &["_", "verify", "04"],
    &["_", "verify", ""],
    &["_", "verify", "+4"],
    &["_", "verify", "4294967297"],
    &["", "verify", "4"],
    &["_", "verify", "4", "4"],
    &["s", "ship"],
    &["_", "ship", "all"],
    &["s", "ship", "All"],
    &["s", "ship", "01"],
    &["s", "ship", "+1"],
    &["s", "ship", "18446744073709551616"],
    &["s", "ship", "all", "1"],
    &["_", "apply"],
    &["s", "apply", "all"],
    &["s", "init"],
    &["_", "init", "16"],
    &["s", "init", "0"],
    &["s", "init", "257"],
    &["s", "init", "016"],
    &["s", "init", "16", "101"],
    &["s", "init", "16", "50", "257"],
    &["s", "init", "16", "50", "4", "63"],
    &["s", "init", "16", "50", "4", "16777217"],
    &["s", "init", "16", "50", "4", "64", "64"],
    &["s", "gen", "0"],
    &["_", "gen", "0", "1"],
    &["s", "gen", "2147483648", "1"],
    &["s", "gen", "00", "1"],
    &["s", "gen", "0", "0"],
    &["s", "gen", "0", "100001"],
];

// These are the words.
fn check_words(rt: &impl Abort, words: &Words, texts: &[&str]) {
    assert_eq!(rt; words.len(), texts.len());
    assert_eq!(rt; words.is_empty(), texts.is_empty());
    for (word, text) in words.as_slice().iter().zip(texts) {
        assert_eq!(rt; word.as_str(), *text);
    }
}

// They are misuse, and the run makes no call, so that one behind it is the first.
fn check_misuse(
    rt: &(impl Threads + Abort + Sync),
    alloc: Global,
    words: &Words,
) -> Result<(), NoMemory> {
    let mut host = host_of(alloc, b"(a\n)a\n", 8)?;
    host.fail_call(1);
    assert_eq!(rt; status_of(rt, alloc, words, &mut host), Status::Usage);
    assert!(rt; host.output().is_empty());
    assert_eq!(rt; read_in(&mut host, &mut [0u8; 8]), Err(Failed));
    Ok(())
}

#[test]
fn other_words_are_misuse(rt: HostRuntime) -> Result<(), Fail> {
    for texts in MISUSED {
        let words = words_of(rt.alloc(), texts)?;
        check_words(&rt, &words, texts);
        check_misuse(&rt, rt.alloc(), &words)?;
    }
    Ok(())
}

const SHORT: &[u8] = b"(a\n-hi\n)a\n";

const FAULTY: &[u8] = b"(a\nA/ 1\n)a\n";

const REFUSAL: &[u8] = b"refused pyx 2 bad-name\n";

// An input, the call that fails, how the run ends, the whole answer, and how much of it is given.
const FAILING: [(&[u8], u64, Status, &[u8], usize); 5] = [
    // Three reads, of which the last finds the end, and the output.
    (SHORT, 1, Status::ReadFault, SHORT, 0),
    (SHORT, 3, Status::ReadFault, SHORT, 0),
    (SHORT, 4, Status::WriteFault, SHORT, 0),
    // A read shows the fault, and none is made behind it.
    (FAULTY, 2, Status::WriteFault, REFUSAL, 0),
    (FAULTY, 3, Status::Refused, REFUSAL, 23),
];

// A run at which a call fails ends so, with that first part of its answer, and counts that call.
fn check_counted(
    rt: &(impl Threads + Abort + Sync),
    alloc: Global,
    words: &Words,
    given: (&[u8], usize, u64),
    status: Status,
    output: &[u8],
) -> Result<(), NoMemory> {
    let counts = check_failing(rt, alloc, words, given, status, output)?;
    assert_eq!(rt; counts.in_faults, u64::from(status == Status::ReadFault));
    assert_eq!(rt; counts.out_faults, u64::from(status == Status::WriteFault));
    Ok(())
}

// The first so many bytes.
fn first(bytes: &[u8], count: usize) -> &[u8] {
    bytes.get(..count).unwrap_or(bytes)
}

// The first piece of `FAULTY` ends with its faulty line.
#[test]
fn a_failing_call_ends_the_run(rt: HostRuntime) -> Result<(), Fail> {
    let words = words_of(rt.alloc(), &["_", "tidy"])?;
    for (input, call, status, answer, count) in FAILING {
        let output = first(answer, count);
        check_counted(&rt, rt.alloc(), &words, (input, 8, call), status, output)?;
    }
    Ok(())
}

#[test]
fn a_line_without_end_is_refused(rt: HostRuntime) -> Result<(), Fail> {
    let words = words_of(rt.alloc(), &["_", "tidy"])?;
    let mut host = EndlessHost::default();
    let status = endless_status(&rt, rt.alloc(), &words, &mut host);
    assert_eq!(rt; status, Status::Refused);
    // Seventeen blocks, and `refused pyx 1 long-line` with its LF.
    assert_eq!(rt; (host.taken, host.given), (1_114_112, 24));
    Ok(())
}
