// What steps find in whole documents.
ghost use Rattle.std.specs.Prelude.{IfOk};
ghost use Rattle.nx_tree.specs.Document.{IsDocument};

use crate::cases::CASES;
use nx_pyx::{ReadError, Reader, push_path};
use nx_reach::{Paths, Steps, find_in, read_steps};
use nx_tree::{Bytes, NoMemory, Tree};
use std::alloc::Global;
use std::process::Abort;
use std::test::Fail;

const BOOK: &[u8] =
    b"?xml-stylesheet href=\"a.css\"\n(book\nAisbn 0-123\n-\\n  \n(title\n-Trees & pages\n)title\n-\\n\n)book\n";

const NESTED: &[u8] = b"(a\n(a\n(a\n)a\n)a\n)a\n";

// A document, steps, and the paths that they find.
const EXAMPLES: [(&[u8], &[u8], &[u8]); 14] = [
    (BOOK, b"//title", b"/1/2\n"),
    (BOOK, b"/book/@isbn", b"/1/0\n"),
    (BOOK, b"//@isbn", b"/1/0\n"),
    (BOOK, b"//#text", b"/1/1\n/1/2/0\n/1/3\n"),
    (BOOK, b"/book/#text", b"/1/1\n/1/3\n"),
    (BOOK, b"/?xml-stylesheet", b"/0\n"),
    (BOOK, b"//title//book", b""),
    (BOOK, b"/title", b""),
    (BOOK, b"//isbn", b""),
    (NESTED, b"/a", b"/0\n"),
    (NESTED, b"/a/a", b"/0/0\n"),
    (NESTED, b"//a", b"/0\n/0/0\n/0/0/0\n"),
    (NESTED, b"//a//a", b"/0/0\n/0/0/0\n"),
    (NESTED, b"//a//a//a/a", b""),
];

// The document of these lines.
pub fn read(alloc: Global, text: &[u8]) -> Result<Tree, ReadError>
    ensures { IfOk result (λ tree. IsDocument tree) }
{
    let mut reader = Reader::new(alloc)?;
    reader.feed(text)?;
    reader.finish()
}

// Paths, a line each.
pub fn lines(alloc: Global, paths: &Paths) -> Result<Bytes, NoMemory> {
    let mut written = Bytes::new(alloc);
    for index in 0..paths.len() {
        push_path(&mut written, paths.path(index))?;
        written.push(b'\n')?;
    }
    Ok(written)
}

// The steps that a text says.
pub fn steps(alloc: Global, text: &[u8]) -> Result<Steps, Fail> {
    match read_steps(alloc, text)? {
        Some(steps) => Ok(steps),
        None => Err(NoMemory.into()),
    }
}

fn found(alloc: Global, document: &[u8], text: &[u8]) -> Result<Bytes, Fail> {
    let tree = read(alloc, document)?;
    let steps = steps(alloc, text)?;
    let paths = find_in(alloc, &tree, &steps)?;
    Ok(lines(alloc, &paths)?)
}

#[test]
fn examples(rt: HostRuntime) -> Result<(), Fail> {
    for (document, text, want) in EXAMPLES {
        assert_eq!(rt; found(rt.alloc(), document, text)?.as_slice(), want);
    }
    Ok(())
}

#[test]
fn cases(rt: HostRuntime) -> Result<(), Fail> {
    for (document, text, want) in CASES {
        assert_eq!(rt; found(rt.alloc(), document, text)?.as_slice(), want);
    }
    Ok(())
}
