// Scripts with transactions, the requests that they give, and the texts of answers.
use crate::checks::check_bytes;
use nx_lists::List;
use nx_memory::{Image, QuietHost};
use nx_pyx::push_number;
use nx_script::{Answer, Command, Reply, ReplyError, Request, Requests, ScriptError, write_answer};
use nx_tree::{Bytes, NoMemory, Path};
use std::alloc::Global;
use std::process::Abort;
use std::test::Fail;

// A script, and its requests in words: a command of its own, one that is none, and a transaction with how
// many commands it has.
const SCRIPTS: [(&[u8], &[u8]); 10] = [
    (b"begin\ndrop d\nnames\ncommit\n", b"all 2\n"),
    (b"begin\r\ncommit\r\nnames\n", b"all 0\none\n"),
    (b"begin \ndrop d\ncommit\nnames\n", b"bad\none\n"),
    (b"begin now\ndrop d\ncommit\n", b"bad\n"),
    (b"begin\nbegin x\n\n.\ncommit\ncommit\n", b"all 3\none\n"),
    (b"begin\nload d\n(a\ncommit\n)a\n.\ncommit\n", b"all 1\n"),
    (b"begin\ndrop d\n", b"bad\n"),
    (b"names\nbegin\nload d\n(a\ncommit\n", b"one\nbad\n"),
    (b"begin\ncommit", b"all 0\n"),
    (b"commit \nbegins\n", b"bad\nbad\n"),
];

// A host that gives this input.
fn host_of(alloc: Global, input: &[u8]) -> Result<QuietHost, NoMemory> {
    let image = Image {
        pages: Bytes::new(alloc),
        log: Bytes::new(alloc),
    };
    QuietHost::new(alloc, image, Bytes::from_slice(alloc, input)?, 0)
}

fn next(requests: &mut Requests, host: &mut QuietHost) -> Result<Option<Request>, ScriptError> {
    requests.next(host)
}

// Adds a request in words.
fn push(text: &mut Bytes, request: &Request) -> Result<(), NoMemory> {
    match request {
        Request::Single(Command::Bad) => text.extend_from_slice(b"bad\n"),
        Request::Single(_) => text.extend_from_slice(b"one\n"),
        Request::Transaction(commands) => {
            push_number(text, b"all ", commands.len() as u64)?;
            text.push(b'\n')
        }
    }
}

// Adds the next request, and says whether there was one.
fn push_next(
    text: &mut Bytes,
    requests: &mut Requests,
    host: &mut QuietHost,
) -> Result<bool, ScriptError> {
    match next(requests, host)? {
        Some(request) => {
            push(text, &request)?;
            Ok(true)
        }
        None => Ok(false),
    }
}

// Adds all requests, of which there are few.
fn push_all(
    text: &mut Bytes,
    requests: &mut Requests,
    host: &mut QuietHost,
) -> Result<(), ScriptError> {
    for _ in 0..9 {
        if !push_next(text, requests, host)? {
            return Ok(());
        }
    }
    Ok(())
}

// The requests of a script in words.
fn requests_of(alloc: Global, input: &[u8]) -> Result<Bytes, ScriptError> {
    let mut host = host_of(alloc, input)?;
    requests_over(alloc, &mut host)
}

fn requests_over(alloc: Global, host: &mut QuietHost) -> Result<Bytes, ScriptError> {
    let mut requests = Requests::new(alloc)?;
    words_of(alloc, &mut requests, host)
}

fn words_of(
    alloc: Global,
    requests: &mut Requests,
    host: &mut QuietHost,
) -> Result<Bytes, ScriptError> {
    let mut text = Bytes::new(alloc);
    push_all(&mut text, requests, host)?;
    Ok(text)
}

fn check_requests(rt: &impl Abort, text: &[u8], expected: &[u8], input: &[u8]) {
    assert_eq!(rt; text, expected, "{input:?}");
}

fn check_script(
    rt: &impl Abort,
    alloc: Global,
    input: &[u8],
    expected: &[u8],
) -> Result<(), ScriptError> {
    let text = requests_of(alloc, input)?;
    check_requests(rt, text.as_slice(), expected, input);
    Ok(())
}

#[test]
fn scripts(rt: HostRuntime) -> Result<(), Fail> {
    for (input, expected) in SCRIPTS {
        check_script(&rt, rt.alloc(), input, expected)?;
    }
    Ok(())
}

fn written(alloc: Global, answer: &Answer) -> Result<Bytes, NoMemory> {
    write_answer(alloc, answer)
}

fn check_answer(
    rt: &impl Abort,
    alloc: Global,
    answer: &Answer,
    expected: &[u8],
) -> Result<(), NoMemory> {
    let text = written(alloc, answer)?;
    check_bytes(rt, text.as_slice(), expected);
    Ok(())
}

// The answer to a transaction of two commands.
fn both(alloc: Global) -> Result<Answer, NoMemory> {
    let mut replies = List::new(alloc);
    push_both(&mut replies)?;
    Ok(Answer::All(replies))
}

fn push_both(replies: &mut List<Reply>) -> Result<(), NoMemory> {
    replies.push(Reply::Done)?;
    replies.push(Reply::Loaded {
        nodes: 2,
        intervals: 1,
    })
}

fn third(alloc: Global) -> Result<Answer, NoMemory> {
    let path = Path::from_slice(alloc, &[0, 1])?;
    let error = ReplyError::TooHeavy { path, weight: 400 };
    Ok(Answer::RefusedAt { number: 3, error })
}

fn check_both(rt: &impl Abort, alloc: Global) -> Result<(), NoMemory> {
    let both = both(alloc)?;
    check_answer(rt, alloc, &both, b"ok\nok 2 1\n.\n")
}

fn check_third(rt: &impl Abort, alloc: Global) -> Result<(), NoMemory> {
    let third = third(alloc)?;
    check_answer(rt, alloc, &third, b"error at 3 too-heavy /0/1 400\n")
}

#[test]
fn answers(rt: HostRuntime) -> Result<(), Fail> {
    let one = Answer::One(Reply::Done);
    check_answer(&rt, rt.alloc(), &one, b"ok\n")?;
    let none = Answer::All(List::new(rt.alloc()));
    check_answer(&rt, rt.alloc(), &none, b".\n")?;
    Ok(())
}

#[test]
fn answers_to_transactions(rt: HostRuntime) -> Result<(), Fail> {
    check_both(&rt, rt.alloc())?;
    check_third(&rt, rt.alloc())?;
    Ok(())
}
