// Scripts, and the commands that they give.
use crate::driven::{endless_next, host_of, next};
use crate::endless::EndlessHost;
use crate::host::DisklessHost;
use nx_pyx::{PyxError, push_node_line, push_number, write};
use nx_script::{Command, LineBody, LoadBody, Script, ScriptError, TextBody};
use nx_tree::{Bytes, NoMemory, Path, Tree};
use std::alloc::Global;
use std::process::Abort;
use std::test::Fail;

// A line, and its command in words: its name, the document's, the positions of the path, and the
// node, the content or the fault.
const LINES: [(&[u8], &[u8]); 26] = [
    (b"drop d", b"drop d"),
    (b"drop !~a/#@-", b"drop !~a/#@-"),
    (b"names", b"names"),
    (b"export .", b"export ."),
    (b"insert d / (a", b"insert d: (a"),
    (b"insert d /0 -two  words ", b"insert d 0: -two  words "),
    (b"insert d /0 Ak", b"insert d 0: Ak "),
    (b"insert d /0 ?p \\q", b"insert d 0: ?p \\\\q"),
    (b"insert d /0 ", b"insert d 0: 1 bad-code"),
    (b"insert d /0  (a", b"insert d 0: 1 bad-code"),
    (b"insert d /0 (a b", b"insert d 0: 1 bad-name"),
    (b"insert d /0 )a", b"insert d 0: 1 bad-nesting"),
    (b"delete d /0/3", b"delete d 0 3"),
    (b"retext d /0 new text", b"retext d 0: new text"),
    (b"retext d /0", b"retext d 0: "),
    (b"retext d /0 ", b"retext d 0: "),
    (b"retext d /0  x ", b"retext d 0:  x "),
    (b"retext d / a\\nb\\q\\", b"retext d: a\nb\\q\\"),
    (b"get d /", b"get d"),
    (b"get d /0", b"get d 0"),
    (b"get d /4294967295", b"get d 4294967295"),
    (b"get d /0/12/4294967295", b"get d 0 12 4294967295"),
    (b"layout d", b"layout d"),
    (b"rule #doc a standalone", b"rule #doc a"),
    (b"rules", b"rules"),
    (b"checkpoint", b"checkpoint"),
];

// Lines that are no command for their fields,
const WRONG_FIELDS: [&[u8]; 22] = [
    b"",
    b" ",
    b"get",
    b"get d",
    b"get d ",
    b" get d /",
    b"get  d /",
    b"get d  /",
    b"get d / ",
    b"get d /0 x",
    b"delete d /0 ",
    b"insert d /0",
    b"insert d",
    b"retext d",
    b"names ",
    b"names d",
    b"GET d /",
    b"Names",
    b"drops d",
    b"drop d e",
    b"load d",
    b"rule",
];

// for a path,
const WRONG_PATHS: [&[u8]; 17] = [
    b"0",
    b"//",
    b"/0/",
    b"/0//1",
    b"//0",
    b"/00",
    b"/01",
    b"/0/00",
    b"/+1",
    b"/-1",
    b"/1a",
    b"/a",
    b"/4294967296",
    b"/9999999999",
    b"/10000000000",
    b"/18446744073709551616",
    b"/0/4294967296/0",
];

// and for a document's name.
const WRONG_NAMES: [&[u8]; 8] = [b"", b"-d", b"-", b"d ", b"a\tb", b"\x7f", b"a\x80", b"\x00"];

// Scripts, and their commands: lines that begin a document, whatever its name is, and others; lines of
// a document that don't end it; and scripts whose last line no LF ends.
const SCRIPTS: [(&[u8], &[u8]); 28] = [
    (b"load d\n(a\n)a\n.\nnames\n", b"load d\n(a\n)a\nnames\n"),
    (b"load !~\n(a\n)a\n.\nnames\n", b"load !~\n(a\n)a\nnames\n"),
    (b"load\n(a\n)a\n.\nnames\n", b"bad\nnames\n"),
    (b"load \n(a\n)a\n.\nnames\n", b"bad\nnames\n"),
    (b"load -d\n(a\n)a\n.\nnames\n", b"bad\nnames\n"),
    (b"load d \n(a\n)a\n.\nnames\n", b"bad\nnames\n"),
    (b"load  d\n(a\n)a\n.\nnames\n", b"bad\nnames\n"),
    (b"load d e\n(a\n)a\n.\nnames\n", b"bad\nnames\n"),
    (b"\n.\nnames\n", b"bad\nbad\nnames\n"),
    (b"loads\n.\nnames\n", b"bad\nbad\nnames\n"),
    (b"load\td\n.\nnames\n", b"bad\nbad\nnames\n"),
    (b" load\n.\nnames\n", b"bad\nbad\nnames\n"),
    (b"Load d\n.\nnames\n", b"bad\nbad\nnames\n"),
    (b"loa\n.\nnames\n", b"bad\nbad\nnames\n"),
    (b"load d\n..\n.\nnames\n", b"load d: 1 bad-code\nnames\n"),
    (b"load d\n\n.\nnames\n", b"load d: 1 bad-code\nnames\n"),
    (b"load d\n. \n.\nnames\n", b"load d: 1 bad-code\nnames\n"),
    (b"", b""),
    (b"\n", b"bad\n"),
    (b"\r", b"bad\n"),
    (b"names", b"names\n"),
    (b"names\nget a /\r", b"names\nget a\n"),
    (b"load a", b"bad\n"),
    (b"load a\n", b"bad\n"),
    (b"load a\n(a\n)a\n.", b"load a\n(a\n)a\n"),
    (b"load a\r\n(a\r\n)a\r\n.\r", b"load a\n(a\n)a\n"),
    (b"load a\n(a\n)a\n..", b"bad\n"),
    (b"load a\n(a\n)a\n.\nnames", b"load a\n(a\n)a\nnames\n"),
];

fn push_place(text: &mut Bytes, word: &[u8], name: &Bytes, path: &Path) -> Result<(), NoMemory> {
    text.extend_from_slice(word)?;
    text.extend_from_slice(name.as_slice())?;
    for position in path.as_slice() {
        push_number(text, b" ", u64::from(*position))?;
    }
    Ok(())
}

fn push_fault(text: &mut Bytes, error: PyxError) -> Result<(), NoMemory> {
    push_number(text, b": ", error.line)?;
    text.push(b' ')?;
    text.extend_from_slice(error.fault.word().as_bytes())
}

fn push_load(
    alloc: Global,
    text: &mut Bytes,
    name: &Bytes,
    body: &LoadBody,
) -> Result<(), NoMemory> {
    push_name(alloc, text, b"load ", name)?;
    match body {
        LoadBody::Read(tree) => push_document(alloc, text, tree),
        LoadBody::Wrong(error) => {
            push_fault(text, *error)?;
            text.push(b'\n')
        }
    }
}

fn push_document(alloc: Global, text: &mut Bytes, tree: &Tree) -> Result<(), NoMemory> {
    text.push(b'\n')?;
    text.extend_from_slice(write(alloc, tree)?.as_slice())
}

fn push_name(alloc: Global, text: &mut Bytes, word: &[u8], name: &Bytes) -> Result<(), NoMemory> {
    push_place(text, word, name, &Path::new(alloc))
}

fn push_line(text: &mut Bytes, line: &LineBody) -> Result<(), NoMemory> {
    match line {
        LineBody::Read(node) => {
            text.extend_from_slice(b": ")?;
            push_node_line(text, node)
        }
        LineBody::Wrong(error) => push_fault(text, *error),
    }
}

fn push_content(text: &mut Bytes, body: &TextBody) -> Result<(), NoMemory> {
    match body {
        TextBody::Read(content) => {
            text.extend_from_slice(b": ")?;
            text.extend_from_slice(content.as_slice())
        }
        TextBody::Wrong(error) => push_fault(text, *error),
    }
}

// A command of one document.
fn push_one(alloc: Global, text: &mut Bytes, command: &Command) -> Result<(), NoMemory> {
    match command {
        Command::Discard { name } => push_name(alloc, text, b"drop ", name),
        Command::Export { name } => push_name(alloc, text, b"export ", name),
        Command::Layout { name } => push_name(alloc, text, b"layout ", name),
        _ => push_other(alloc, text, command),
    }
}

// A command of a node.
fn push_edit(alloc: Global, text: &mut Bytes, command: &Command) -> Result<(), NoMemory> {
    match command {
        Command::Insert { name, path, line } => {
            push_place(text, b"insert ", name, path)?;
            push_line(text, line)
        }
        Command::Retext {
            name,
            path,
            text: body,
        } => {
            push_place(text, b"retext ", name, path)?;
            push_content(text, body)
        }
        Command::Delete { name, path } => push_place(text, b"delete ", name, path),
        Command::Get { name, path } => push_place(text, b"get ", name, path),
        _ => push_one(alloc, text, command),
    }
}

// A command of no document.
fn push_other(alloc: Global, text: &mut Bytes, command: &Command) -> Result<(), NoMemory> {
    match command {
        Command::Names => text.extend_from_slice(b"names"),
        Command::SetRule { rule } => {
            push_name(alloc, text, b"rule ", &rule.parent)?;
            push_name(alloc, text, b" ", &rule.child)
        }
        Command::Rules => text.extend_from_slice(b"rules"),
        Command::Checkpoint => text.extend_from_slice(b"checkpoint"),
        _ => text.extend_from_slice(b"bad"),
    }
}

// Adds the command in words: its own, the document's name, the positions of the path, and the document,
// the node, the content or the fault.
fn push(alloc: Global, text: &mut Bytes, command: &Command) -> Result<(), NoMemory> {
    if let Command::Load { name, body } = command {
        return push_load(alloc, text, name, body);
    }
    push_edit(alloc, text, command)?;
    text.push(b'\n')
}

// Adds the next command, and says whether there was one.
fn push_next(
    alloc: Global,
    text: &mut Bytes,
    script: &mut Script,
    host: &mut DisklessHost,
) -> Result<bool, ScriptError> {
    match next(script, host)? {
        Some(command) => {
            push(alloc, text, &command)?;
            Ok(true)
        }
        None => Ok(false),
    }
}

// The commands of a script of these bytes that comes in pieces of so many.
fn commands_of(alloc: Global, input: &[u8], piece: usize) -> Result<Bytes, ScriptError> {
    let mut host = host_of(alloc, input, piece)?;
    let mut script = Script::new(alloc)?;
    let mut text = Bytes::new(alloc);
    for _ in 0..100 {
        if !push_next(alloc, &mut text, &mut script, &mut host)? {
            break;
        }
    }
    Ok(text)
}

// The same of two texts, one behind the other.
fn commands(alloc: Global, prefix: &[u8], back: &[u8], piece: usize) -> Result<Bytes, ScriptError> {
    let input = [prefix, back].concat(alloc)?;
    commands_of(alloc, input.as_slice(), piece)
}

#[test]
fn lines(rt: HostRuntime) -> Result<(), Fail> {
    for (line, expected) in LINES {
        let text = commands(rt.alloc(), line, b"\n", 1000)?;
        let found = text.as_slice().strip_suffix(b"\n");
        assert_eq!(rt; found, Some(expected), "{line:?}");
    }
    Ok(())
}

// The two texts are a line that is no command.
fn check_bad(rt: &impl Abort, alloc: Global, prefix: &[u8], back: &[u8]) -> Result<(), Fail> {
    let text = commands(alloc, prefix, back, 1000)?;
    assert_eq!(rt; text.as_slice(), b"bad\n".as_slice(), "{prefix:?} {back:?}");
    Ok(())
}

#[test]
fn wrong_lines(rt: HostRuntime) -> Result<(), Fail> {
    for line in WRONG_FIELDS {
        check_bad(&rt, rt.alloc(), line, b"\n")?;
    }
    for path in WRONG_PATHS {
        check_bad(&rt, rt.alloc(), b"get d ", path)?;
    }
    for name in WRONG_NAMES {
        check_bad(&rt, rt.alloc(), b"drop ", name)?;
    }
    Ok(())
}

#[test]
fn scripts(rt: HostRuntime) -> Result<(), Fail> {
    for (script, expected) in SCRIPTS {
        for piece in [1, 2, 1000usize] {
            let text = commands_of(rt.alloc(), script, piece)?;
            assert_eq!(rt; text.as_slice(), expected, "{script:?}");
        }
    }
    Ok(())
}

#[test]
fn a_script_without_end_is_too_much(rt: HostRuntime) -> Result<(), Fail> {
    let mut host = EndlessHost::default();
    let mut script = Script::new(rt.alloc())?;
    let found = endless_next(&mut script, &mut host);
    assert!(rt; matches!(&found, Err(ScriptError::TooMuch)));
    assert_eq!(rt; (host.taken, host.given), (4_294_967_296, 0));
    Ok(())
}
