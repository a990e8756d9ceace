// Lines alone, the text of documents, and the texts of faults.
use crate::checks::{check_bytes, check_row, check_text};
use nx_pyx::{PyxError, PyxFault, ReadError, line_node, node_line};
use nx_tree::{Bytes, Kind, NoMemory, Node};
use std::alloc::Global;
use std::process::Abort;
use std::test::Fail;

// A line, and the node that it says or its fault.
const LINES: [(&[u8], Result<(Kind, &[u8], &[u8]), PyxFault>); 25] = [
    (b"", Err(PyxFault::BadCode)),
    (b"a", Err(PyxFault::BadCode)),
    (b" (a", Err(PyxFault::BadCode)),
    (b"(", Err(PyxFault::BadName)),
    (b"(a b", Err(PyxFault::BadName)),
    (b"(a\\n", Err(PyxFault::BadName)),
    (b"(a", Ok((Kind::Element, b"a", b""))),
    (b")a", Err(PyxFault::BadNesting)),
    (b")", Err(PyxFault::BadNesting)),
    (b"A", Err(PyxFault::BadName)),
    (b"A v", Err(PyxFault::BadName)),
    (b"Ak", Ok((Kind::Attribute, b"k", b""))),
    (b"Ak ", Ok((Kind::Attribute, b"k", b""))),
    (b"Ak  v\\\\", Ok((Kind::Attribute, b"k", b" v\\"))),
    (b"?", Err(PyxFault::BadName)),
    (b"?p", Ok((Kind::Instruction, b"p", b""))),
    (b"?p q r\\t", Ok((Kind::Instruction, b"p", b"q r\t"))),
    (b"-", Ok((Kind::Text, b"", b""))),
    (b"- a\r", Ok((Kind::Text, b"", b" a\r"))),
    (
        b"-a\\nb\\tc\\rd\\\\e",
        Ok((Kind::Text, b"", b"a\nb\tc\rd\\e")),
    ),
    (b"-\\", Ok((Kind::Text, b"", b"\\"))),
    (b"-\\x\\", Ok((Kind::Text, b"", b"\\x\\"))),
    (b"-\\\\n", Ok((Kind::Text, b"", b"\\n"))),
    (b"-\\\\\\n", Ok((Kind::Text, b"", b"\\\n"))),
    (
        b"-more bytes than are looked at together\\nand an end\\",
        Ok((
            Kind::Text,
            b"",
            b"more bytes than are looked at together\nand an end\\",
        )),
    ),
];

// Whether the node is the one that was said.
fn is_node(node: &Node, said: (Kind, &[u8], &[u8])) -> bool {
    node.kind == said.0 && node.name.as_slice() == said.1 && node.content.as_slice() == said.2
}

// Whether the line says what is expected of it.
fn says(alloc: Global, line: &[u8], expected: Result<(Kind, &[u8], &[u8]), PyxFault>) -> bool {
    match (line_node(alloc, line), expected) {
        (Ok(node), Ok(said)) => is_node(&node, said),
        (Err(found), Err(fault)) => found == ReadError::Pyx(PyxError { line: 1, fault }),
        _ => false,
    }
}

#[test]
fn line_nodes(rt: HostRuntime) {
    for (line, expected) in LINES {
        check_row(&rt, says(rt.alloc(), line, expected), true, line);
    }
}

// A kind, a name, a content and the line of them.
const NODES: [(Kind, &[u8], &[u8], &[u8]); 10] = [
    (Kind::Doc, b"", b"", b"#doc"),
    (Kind::Element, b"a", b"", b"(a"),
    (Kind::Attribute, b"k", b"", b"Ak "),
    (Kind::Attribute, b"k", b"v w\\", b"Ak v w\\\\"),
    (Kind::Text, b"", b"", b"-"),
    (Kind::Text, b"", b"\n\n x\ty\rz\\", b"-\\n\\n x\\ty\\rz\\\\"),
    (Kind::Text, b"", b"\x0b\xff n", b"-\x0b\xff n"),
    (
        Kind::Text,
        b"",
        b"more bytes than are looked at together\nand an end",
        b"-more bytes than are looked at together\\nand an end",
    ),
    (Kind::Instruction, b"p", b"", b"?p"),
    (Kind::Instruction, b"p", b"\tq", b"?p \\tq"),
];

fn node(alloc: Global, kind: Kind, name: &[u8], content: &[u8]) -> Result<Node, NoMemory> {
    Ok(Node {
        kind,
        name: Bytes::from_slice(alloc, name)?,
        content: Bytes::from_slice(alloc, content)?,
    })
}

fn line_of(alloc: Global, kind: Kind, name: &[u8], content: &[u8]) -> Result<Bytes, NoMemory> {
    node_line(alloc, &node(alloc, kind, name, content)?)
}

#[test]
fn node_lines(rt: HostRuntime) -> Result<(), Fail> {
    for (kind, name, content, expected) in NODES {
        let line = line_of(rt.alloc(), kind, name, content)?;
        check_bytes(&rt, line.as_slice(), expected);
    }
    Ok(())
}

// A line, its fault, and the text of both.
const PRINTED: [(u64, PyxFault, &str); 10] = [
    (2, PyxFault::BadCode, "2 bad-code"),
    (3, PyxFault::BadName, "3 bad-name"),
    (1, PyxFault::BadNesting, "1 bad-nesting"),
    (4, PyxFault::BadAttribute, "4 bad-attribute"),
    (5, PyxFault::Twice, "5 twice"),
    (6, PyxFault::LongLine, "6 long-line"),
    (7, PyxFault::TooDeep, "7 too-deep"),
    (8, PyxFault::TooMany, "8 too-many"),
    (
        u64::MAX,
        PyxFault::Unclosed,
        "18446744073709551615 unclosed",
    ),
    (0, PyxFault::Empty, "0 empty"),
];

fn error_text(alloc: Global, error: ReadError) -> Result<String, NoMemory> {
    Ok(format!(in alloc; "{error}")?)
}

fn word_text(alloc: Global, line: u64, fault: PyxFault) -> Result<String, NoMemory> {
    Ok(format!(in alloc; "{line} {}", fault.word())?)
}

#[test]
fn printed(rt: HostRuntime) -> Result<(), Fail> {
    for (line, fault, want) in PRINTED {
        check_printed(&rt, rt.alloc(), line, fault, want)?;
    }
    let memory = error_text(rt.alloc(), ReadError::Memory)?;
    check_text(&rt, memory.as_str(), "out of memory");
    Ok(())
}

fn check_printed(
    rt: &impl Abort,
    alloc: Global,
    line: u64,
    fault: PyxFault,
    want: &str,
) -> Result<(), NoMemory> {
    let error = error_text(alloc, ReadError::Pyx(PyxError { line, fault }))?;
    check_text(rt, error.as_str(), want);
    let word = word_text(alloc, line, fault)?;
    check_text(rt, word.as_str(), want);
    Ok(())
}
