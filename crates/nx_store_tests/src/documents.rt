// Documents, and the lines that load them.
use nx_tree::NoMemory;
use std::alloc::{AllocError, Global};

/// A document of four nodes.
pub const SMALL: &[u8] = b"(a\nAx 1\n-hi\n)a\n";

/// A document with each kind of node.
pub const BOOK: &[u8] =
    b"?xml-stylesheet href=\"a.css\"\n(book\nAisbn 0-123\n-\\n  \n(title\n-Trees & pages\n)title\n-\\n\n)book\n";

/// The document of an element over so many texts of so many letters.
pub fn wide(alloc: Global, texts: usize, letters: usize) -> Result<Vec<u8>, AllocError> {
    let line = Vec::from_elem(alloc, b'x', letters)?;
    let mut document = Vec::from_slice(alloc, b"(r\n")?;
    for _ in 0..texts {
        document.push(b'-')?;
        document.extend_from_slice(line.as_slice())?;
        document.push(b'\n')?;
    }
    document.extend_from_slice(b")r\n")?;
    Ok(document)
}

/// The lines that load a document under this name.
pub fn load(alloc: Global, name: &[u8], document: &[u8]) -> Result<Vec<u8>, AllocError> {
    let parts: [&[u8]; 5] = [b"load ", name, b"\n", document, b".\n"];
    parts.concat(alloc)
}

/// The text with 1,024 letters for each `!`, 1,025 for `~`, 8,184 for `*` and 8,185 for `^`: the most that an item holds
/// and that a chain page holds, and one more.
pub fn spelled(alloc: Global, text: &[u8]) -> Result<Vec<u8>, AllocError> {
    let mut spelled = Vec::new(alloc);
    for byte in text {
        match *byte {
            b'!' => push_letters(alloc, &mut spelled, 1_024)?,
            b'~' => push_letters(alloc, &mut spelled, 1_025)?,
            b'*' => push_letters(alloc, &mut spelled, 8_184)?,
            b'^' => push_letters(alloc, &mut spelled, 8_185)?,
            letter => spelled.push(letter)?,
        }
    }
    Ok(spelled)
}

fn push_letters(alloc: Global, text: &mut Vec<u8>, letters: usize) -> Result<(), AllocError> {
    let line = Vec::from_elem(alloc, b'x', letters)?;
    text.extend_from_slice(line.as_slice())
}
