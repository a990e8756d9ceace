// Scripts with their replies: each command, and each of its refusals in their order.
ghost use Rattle.std.specs.Prelude.{[], IfOk};
ghost use Rattle.nx_script.specs.Commands.{CanCome, CanLoad};

use crate::checks::{check_bytes, check_count};
use crate::fixtures::{node, read};
use nx_engine::Plain;
use nx_matrix::{Entry, Rule};
use nx_pyx::{PyxError, PyxFault, ReadError, is_document_name};
use nx_script::{Command, LineBody, LoadBody, Reply, TextBody, write_reply};
use nx_tree::{Bytes, NoMemory, Path, count};
use std::alloc::Global;
use std::process::Abort;
use std::test::Fail;

// A command's word, the document, the path, the text behind it, and the reply's text.
type Step = (
    &'static str,
    &'static [u8],
    &'static [u32],
    &'static [u8],
    &'static [u8],
);

const EDITED: [Step; 16] = [
    ("load", b"d", &[], b"(a\n-hi\n)a\n", b"ok 3 0\n"),
    ("get", b"d", &[0, 0], b"", b"node 0 -hi\n"),
    ("insert", b"d", &[0, 1], b"(e", b"ok\n"),
    ("insert", b"d", &[0, 9], b"-", b"error bad-place\n"),
    ("delete", b"d", &[0, 0], b"", b"ok\n"),
    ("retext", b"d", &[0], b"x", b"error no-content\n"),
    ("export", b"d", &[], b"", b"(a\n(e\n)e\n)a\n.\n"),
    ("names", b"", &[], b"", b"doc d 3\n.\n"),
    ("layout", b"d", &[], b"", b"error syntax\n"),
    ("rule", b"", &[], b"", b"error syntax\n"),
    ("rules", b"", &[], b"", b"error syntax\n"),
    ("checkpoint", b"", &[], b"", b"error syntax\n"),
    ("begin", b"", &[], b"", b"error syntax\n"),
    ("commit", b"", &[], b"", b"error syntax\n"),
    ("names", b"", &[], b"", b"doc d 3\n.\n"),
    ("nothing", b"d", &[], b"", b"error syntax\n"),
];

// The text behind `rename` is the new name.
const RENAMED: [Step; 10] = [
    ("rename", b"d", &[], b"e", b"error no-document\n"),
    ("rename", b"d", &[], b"d", b"error no-document\n"),
    ("load", b"d", &[], b"(a\n)a\n", b"ok 2 0\n"),
    ("rename", b"d", &[], b"d", b"error exists\n"),
    ("rename", b"d", &[], b"e", b"ok\n"),
    ("get", b"d", &[], b"", b"error no-document\n"),
    ("load", b"d", &[], b"(b\n)b\n", b"ok 2 0\n"),
    ("rename", b"d", &[], b"e", b"error exists\n"),
    ("names", b"", &[], b"", b"doc d 2\ndoc e 2\n.\n"),
    ("export", b"e", &[], b"", b"(a\n)a\n.\n"),
];

const REFUSED: [Step; 38] = [
    ("load", b"e", &[], b"(a\nAx 1\n-hi\n)a\n", b"ok 4 0\n"),
    ("load", b"e", &[], b"(a\n", b"error exists\n"),
    ("load", b"e", &[], b"(a\n)a\n", b"error exists\n"),
    ("load", b"f", &[], b"(a\n", b"error pyx 1 unclosed\n"),
    ("drop", b"f", &[], b"", b"error no-document\n"),
    ("export", b"f", &[], b"", b"error no-document\n"),
    ("layout", b"f", &[], b"", b"error syntax\n"),
    ("get", b"f", &[], b"", b"error no-document\n"),
    ("get", b"e", &[9], b"", b"error no-node\n"),
    ("get", b"e", &[0], b"", b"node 2 (a\n"),
    ("get", b"e", &[], b"", b"node 1 #doc\n"),
    ("insert", b"f", &[], b"", b"error no-document\n"),
    ("insert", b"e", &[], b"", b"error pyx 1 bad-code\n"),
    ("insert", b"e", &[], b"-", b"error bad-place\n"),
    ("insert", b"e", &[9, 9], b"-", b"error no-node\n"),
    ("insert", b"e", &[0, 3], b"-", b"error bad-place\n"),
    ("insert", b"e", &[0, 2], b"Ax 2", b"error bad-place\n"),
    ("insert", b"e", &[0, 1], b"Ax 2", b"error twice\n"),
    ("delete", b"f", &[], b"", b"error no-document\n"),
    ("delete", b"e", &[], b"", b"error bad-place\n"),
    ("delete", b"e", &[1], b"", b"error no-node\n"),
    ("delete", b"e", &[0], b"", b"error bad-place\n"),
    ("retext", b"f", &[9], b"", b"error no-document\n"),
    ("retext", b"e", &[9], b"*", b"error pyx 1 long-line\n"),
    ("retext", b"e", &[9], b"x", b"error no-node\n"),
    ("retext", b"e", &[], b"x", b"error no-content\n"),
    ("retext", b"e", &[0], b"x", b"error no-content\n"),
    ("retext", b"e", &[0, 0], b"2", b"ok\n"),
    ("retext", b"e", &[0, 1], b"", b"ok\n"),
    ("export", b"e", &[], b"", b"(a\nAx 2\n-\n)a\n.\n"),
    ("load", b"d", &[], b"?p\n(a\n)a\n", b"ok 3 0\n"),
    ("load", b"ee", &[], b"(a\n)a\n", b"ok 2 0\n"),
    ("names", b"", &[], b"", b"doc d 3\ndoc e 4\ndoc ee 2\n.\n"),
    ("drop", b"e", &[], b"", b"ok\n"),
    ("drop", b"e", &[], b"", b"error no-document\n"),
    ("delete", b"d", &[0], b"", b"ok\n"),
    ("names", b"", &[], b"", b"doc d 2\ndoc ee 2\n.\n"),
    ("nothing", b"", &[], b"", b"error syntax\n"),
];

fn document(alloc: Global, text: &[u8]) -> Result<LoadBody, ReadError>
    ensures { IfOk result (λ body. CanLoad body) }
{
    match read(alloc, text) {
        Ok(tree) => Ok(LoadBody::Read(tree)),
        Err(ReadError::Pyx(error)) => Ok(LoadBody::Wrong(error)),
        Err(ReadError::Memory) => Err(ReadError::Memory),
    }
}

fn line(alloc: Global, text: &[u8]) -> Result<LineBody, NoMemory>
    ensures { IfOk result (λ body. CanCome (Command.Insert [] [] body)) }
{
    if text.is_empty() {
        return Ok(LineBody::Wrong(PyxError {
            line: 1,
            fault: PyxFault::BadCode,
        }));
    }
    Ok(LineBody::Read(node(alloc, text)?))
}

// A star stands for a content that is too long.
fn content(alloc: Global, text: &[u8]) -> Result<TextBody, NoMemory>
    ensures { IfOk result (λ body. CanCome (Command.Retext [] [] body)) }
{
    if text == b"*".as_slice() || text.len() > 9 {
        return Ok(TextBody::Wrong(PyxError {
            line: 1,
            fault: PyxFault::LongLine,
        }));
    }
    Ok(TextBody::Read(Bytes::from_slice(alloc, text)?))
}

fn rule(alloc: Global) -> Result<Rule, NoMemory>
    ensures { IfOk result (λ rule. CanCome (Command.SetRule rule)) }
{
    Ok(Rule {
        parent: Bytes::from_slice(alloc, b"a")?,
        child: Bytes::from_slice(alloc, b"#text")?,
        entry: Entry::Cluster,
    })
}

fn load(alloc: Global, name: &[u8], text: &[u8]) -> Result<Command, ReadError>
    ensures { IfOk result (λ command. CanCome command) }
{
    if !is_document_name(name) {
        return Ok(Command::Bad);
    }
    let body = document(alloc, text)?;
    Ok(Command::Load {
        name: Bytes::from_slice(alloc, name)?,
        body,
    })
}

fn insert(alloc: Global, name: Bytes, path: Path, text: &[u8]) -> Result<Command, ReadError>
    ensures { IfOk result (λ command. CanCome command) }
{
    let line = line(alloc, text)?;
    Ok(Command::Insert { name, path, line })
}

fn retext(alloc: Global, name: Bytes, path: Path, text: &[u8]) -> Result<Command, ReadError>
    ensures { IfOk result (λ command. CanCome command) }
{
    let text = content(alloc, text)?;
    Ok(Command::Retext { name, path, text })
}

// A command of a document and a path.
fn edit(
    alloc: Global,
    word: &str,
    name: Bytes,
    path: Path,
    text: &[u8],
) -> Result<Command, ReadError>
    ensures { IfOk result (λ command. CanCome command) }
{
    match word {
        "insert" => insert(alloc, name, path, text),
        "retext" => retext(alloc, name, path, text),
        "delete" => Ok(Command::Delete { name, path }),
        _ => Ok(Command::Get { name, path }),
    }
}

// A command of a document.
fn look(word: &str, name: Bytes) -> Command
    ensures { CanCome result }
{
    match word {
        "drop" => Command::Discard { name },
        "export" => Command::Export { name },
        _ => Command::Layout { name },
    }
}

fn command(alloc: Global, step: Step) -> Result<Command, ReadError>
    ensures { IfOk result (λ command. CanCome command) }
{
    match step.0 {
        "load" => load(alloc, step.1, step.3),
        "insert" | "retext" | "delete" | "get" => edit_of(alloc, step),
        "drop" | "export" | "layout" => look_of(alloc, step),
        "rename" => rename(alloc, step.1, step.3),
        "rule" => set_rule(alloc),
        word => Ok(bare(word)),
    }
}

fn edit_of(alloc: Global, step: Step) -> Result<Command, ReadError>
    ensures { IfOk result (λ command. CanCome command) }
{
    let name = Bytes::from_slice(alloc, step.1)?;
    let path = Path::from_slice(alloc, step.2)?;
    edit(alloc, step.0, name, path, step.3)
}

fn look_of(alloc: Global, step: Step) -> Result<Command, ReadError>
    ensures { IfOk result (λ command. CanCome command) }
{
    Ok(look(step.0, Bytes::from_slice(alloc, step.1)?))
}

fn rename(alloc: Global, old: &[u8], new: &[u8]) -> Result<Command, ReadError>
    ensures { IfOk result (λ command. CanCome command) }
{
    if !is_document_name(new) {
        return Ok(Command::Bad);
    }
    Ok(Command::Rename {
        old: Bytes::from_slice(alloc, old)?,
        new: Bytes::from_slice(alloc, new)?,
    })
}

fn set_rule(alloc: Global) -> Result<Command, ReadError>
    ensures { IfOk result (λ command. CanCome command) }
{
    Ok(Command::SetRule { rule: rule(alloc)? })
}

// A command of one word.
fn bare(word: &str) -> Command
    ensures { CanCome result }
{
    match word {
        "names" => Command::Names,
        "rules" => Command::Rules,
        "checkpoint" => Command::Checkpoint,
        "begin" => Command::Begin { bare: true },
        "commit" => Command::Commit,
        _ => Command::Bad,
    }
}

// The text of the reply to this command.
fn replied(alloc: Global, plain: &mut Plain, step: Step) -> Result<Bytes, ReadError> {
    let command = command(alloc, step)?;
    applied(alloc, plain, command)
}

fn applied(alloc: Global, plain: &mut Plain, command: Command) -> Result<Bytes, ReadError>
    requires { CanCome command }
{
    let reply = plain.apply(command)?;
    reply_text(alloc, &reply)
}

fn reply_text(alloc: Global, reply: &Reply) -> Result<Bytes, ReadError> {
    Ok(write_reply(alloc, reply)?)
}

fn check(
    rt: &impl Abort,
    alloc: Global,
    plain: &mut Plain,
    steps: &[Step],
) -> Result<(), ReadError> {
    for step in steps {
        check_step(rt, alloc, plain, *step)?;
    }
    Ok(())
}

fn check_step(
    rt: &impl Abort,
    alloc: Global,
    plain: &mut Plain,
    step: Step,
) -> Result<(), ReadError> {
    let text = replied(alloc, plain, step)?;
    check_bytes(rt, text.as_slice(), step.4);
    Ok(())
}

// The number of nodes of the document under that name, and 0 where there is none.
fn count_in(plain: &Plain, name: &[u8]) -> u32 {
    match plain.document(name) {
        Some(tree) => count(tree),
        None => 0,
    }
}

#[test]
fn refused(rt: HostRuntime) -> Result<(), Fail> {
    let mut plain = Plain::new(rt.alloc());
    check_refused(&rt, rt.alloc(), &mut plain)?;
    Ok(())
}

fn check_refused(rt: &impl Abort, alloc: Global, plain: &mut Plain) -> Result<(), ReadError> {
    check(rt, alloc, plain, &REFUSED)?;
    check_count(rt, count_in(plain, b"d"), 2);
    check_count(rt, count_in(plain, b"e"), 0);
    Ok(())
}

#[test]
fn renamed(rt: HostRuntime) -> Result<(), Fail> {
    let mut plain = Plain::new(rt.alloc());
    check(&rt, rt.alloc(), &mut plain, &RENAMED)?;
    Ok(())
}

// The text of the reply to a content that a node may have, and that is too long beside a name.
fn retexted(alloc: Global, plain: &mut Plain, position: u32) -> Result<Bytes, ReadError> {
    let name = Bytes::from_slice(alloc, b"d")?;
    let path = Path::from_slice(alloc, &[position])?;
    let command = long_retext(alloc, name, path)?;
    applied(alloc, plain, command)
}

fn long_retext(alloc: Global, name: Bytes, path: Path) -> Result<Command, NoMemory>
    ensures { IfOk result (λ command. CanCome command) }
{
    let bytes = Vec::from_elem(alloc, b'x', 1_048_576)?;
    let text = TextBody::Read(Bytes::from_vec(bytes));
    Ok(Command::Retext { name, path, text })
}

// At the end a content that a node may have, and that is too long beside a name.
#[test]
fn edited(rt: HostRuntime) -> Result<(), Fail> {
    let mut plain = Plain::new(rt.alloc());
    check_edited(&rt, rt.alloc(), &mut plain)?;
    Ok(())
}

fn check_edited(rt: &impl Abort, alloc: Global, plain: &mut Plain) -> Result<(), ReadError> {
    check(rt, alloc, plain, &EDITED)?;
    check_retexted(rt, alloc, plain, 0, b"error pyx 1 long-line\n")?;
    check_retexted(rt, alloc, plain, 1, b"error no-node\n")
}

fn check_retexted(
    rt: &impl Abort,
    alloc: Global,
    plain: &mut Plain,
    position: u32,
    want: &[u8],
) -> Result<(), ReadError> {
    let text = retexted(alloc, plain, position)?;
    check_bytes(rt, text.as_slice(), want);
    Ok(())
}
