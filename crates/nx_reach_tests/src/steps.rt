// Texts that say steps, and texts that say none.
ghost use Rattle.std.specs.Prelude.{◌≡◌};

use nx_reach::{MOST_STEPS, Step, read_steps};
use nx_tree::{Bytes, NoMemory};
use std::alloc::Global;
use std::process::Abort;
use std::test::Fail;

// A text, and its steps with their labels, each behind what it goes to.
const READ: [(&[u8], &[u8]); 6] = [
    (b"/a", b"child a\n"),
    (b"//a", b"below a\n"),
    (b"/a//b/c", b"child a\nbelow b\nchild c\n"),
    (b"//@id", b"below @id\n"),
    (
        b"/?xml-stylesheet/#text",
        b"child ?xml-stylesheet\nchild #text\n",
    ),
    (b"/#text//?p//@q", b"child #text\nbelow ?p\nbelow @q\n"),
];

const NONE: [&[u8]; 21] = [
    b"", b"a", b"/", b"//", b"///a", b"/a/", b"/a//", b"/a///b", b"a/b", b" /a", b"/a ", b"/a b",
    b"/#doc", b"/#", b"/#texts", b"/@", b"/?", b"/@@a", b"/a@b", b"/*", b"/a\\",
];

fn said(alloc: Global, text: &[u8]) -> Result<Option<Bytes>, NoMemory> {
    let Some(steps) = read_steps(alloc, text)? else {
        return Ok(None);
    };
    let mut said = Bytes::new(alloc);
    for step in steps.as_slice() {
        push_step(&mut said, step)?;
    }
    Ok(Some(said))
}

fn push_step(said: &mut Bytes, step: &Step) -> Result<(), NoMemory> {
    match step {
        Step::Child { label } => push_line(said, b"child ", label.as_slice()),
        Step::Below { label } => push_line(said, b"below ", label.as_slice()),
    }
}

fn push_line(said: &mut Bytes, word: &[u8], label: &[u8]) -> Result<(), NoMemory> {
    said.extend_from_slice(word)?;
    said.extend_from_slice(label)?;
    said.push(b'\n')
}

// So many times this text, with a label of so many bytes.
fn long(alloc: Global, count: usize, label: usize) -> Result<Bytes, NoMemory> {
    let mut text = Bytes::new(alloc);
    for _ in 0..count {
        text.push(b'/')?;
        for _ in 0..label {
            text.push(b'n')?;
        }
    }
    Ok(text)
}

fn is_read(alloc: Global, count: usize, label: usize) -> Result<bool, NoMemory> {
    let text = long(alloc, count, label)?;
    Ok(read_steps(alloc, text.as_slice())?.is_some())
}

#[test]
fn some(rt: HostRuntime) -> Result<(), Fail> {
    for (text, want) in READ {
        match said(rt.alloc(), text)? {
            Some(said) => assert_eq!(rt; said.as_slice(), want),
            None => panic!(rt),
        }
    }
    Ok(())
}

#[test]
fn none(rt: HostRuntime) -> Result<(), Fail> {
    for text in NONE {
        assert!(rt; said(rt.alloc(), text)?.is_none());
    }
    Ok(())
}

#[test]
fn limits(rt: HostRuntime) -> Result<(), Fail> {
    assert!(rt; is_read(rt.alloc(), MOST_STEPS, 1)?);
    assert!(rt; !is_read(rt.alloc(), MOST_STEPS + 1, 1)?);
    assert!(rt; is_read(rt.alloc(), 2, 1_024)?);
    assert!(rt; !is_read(rt.alloc(), 2, 1_025)?);
    Ok(())
}
