// What one line says.
ghost use Rattle.std.specs.Prelude.{◌≡◌, ◌+◌, ◌<◌, ◌≤◌, ◌∷◌, false, nat_lt, MatchOption, None, Some, IfOk, IfErr, IfSome, true, [], length, take, slice_index};
ghost use Rattle.std.specs.List.{list_all, list_any, position, before_first, after_first};
ghost use Rattle.nx_tree.specs.Document.{is_name, is_name_byte};
ghost use Rattle.nx_pyx.specs.Lines.{without_cr};
ghost use Rattle.nx_pyx.specs.Event.{event_of, is_space, unescape, unescaped_byte};
ghost use Rattle.nx_pyx.specs.Fault.{early_fault, event_size, is_long, is_misnamed};
ghost use Rattle.nx_pyx.specs.Reader.{MayGrowBy};
ghost use Rattle.nx_pyx.specs.Line.{event_in, is_backslash};

use crate::PyxFault;
use crate::scan::{self, Backslash};
use nx_lists::LONGEST_NODE;
use nx_tree::{Bytes, NoMemory};
use std::alloc::Global;

// A line that begins with one of the five codes. Contents are as they stand in the line.
#[derive(Clone, Copy)]
pub enum Line<'a> {
    Start(&'a [u8]),
    End(&'a [u8]),
    Attribute(&'a [u8], &'a [u8]),
    Text(&'a [u8]),
    Instruction(&'a [u8], &'a [u8]),
}

impl Line<'_> {
    // Whether its name and its content have more bytes together than are allowed.
    pub fn is_long(&self) -> bool
        ensures { result ≡ is_long (event_in self.now) }
    {
        match self {
            Line::Start(name) | Line::End(name) => name.len() > LONGEST_NODE,
            Line::Text(content) => is_long_with(&[], content),
            Line::Attribute(name, content) | Line::Instruction(name, content) => {
                is_long_with(name, content)
            }
        }
    }

    // How many bytes more its name and its content may have together, unless they have too many.
    fn left(&self) -> Option<usize>
        ensures { MatchOption result (is_long (event_in self.now) ≡ true) (λ left. event_size (event_in self.now) + left ≡ 1048576) }
    {
        match self {
            Line::Start(name) | Line::End(name) => LONGEST_NODE.checked_sub(name.len()),
            Line::Text(content) => LONGEST_NODE.checked_sub(unescaped_len(content)),
            Line::Attribute(name, content) | Line::Instruction(name, content) => {
                let left = LONGEST_NODE.checked_sub(name.len())?;
                left.checked_sub(unescaped_len(content))
            }
        }
    }

    // Whether the name that it needs isn't one.
    pub fn is_misnamed(&self) -> bool
        ensures { result ≡ is_misnamed (event_in self.now) }
    {
        match self {
            Line::Start(name) | Line::Attribute(name, _) | Line::Instruction(name, _) => {
                !is_name(name)
            }
            Line::End(_) | Line::Text(_) => false,
        }
    }
}

// What the line says, where it begins with one of the five codes.
pub fn parse(line: &[u8]) -> Option<Line<'_>>
    ensures { MatchOption result (event_of line.now ≡ None) (λ found. event_of line.now ≡ Some (event_in found)) }
{
    let (code, rest) = line.split_first()?;
    match *code {
        b'(' => Some(Line::Start(rest)),
        b')' => Some(Line::End(rest)),
        b'A' => {
            let (name, content) = split_name(rest);
            Some(Line::Attribute(name, content))
        }
        b'-' => Some(Line::Text(rest)),
        b'?' => {
            let (name, content) = split_name(rest);
            Some(Line::Instruction(name, content))
        }
        _ => None,
    }
}

// How many bytes may come behind these before their line could show a fault, or the fault that it
// shows already.
pub fn room(bytes: &[u8]) -> Result<usize, PyxFault>
    ensures ok { IfOk result (MayGrowBy bytes.now) }
    ensures fault { IfErr result (λ fault. early_fault bytes.now ≡ Some fault) }
{
    if bytes.is_empty() {
        return Ok(0);
    }
    let Some(line) = parse(without_cr(bytes)) else {
        return Err(PyxFault::BadCode);
    };
    // So few bytes are never too many.
    if bytes.len() <= LONGEST_NODE {
        return Ok(LONGEST_NODE - bytes.len());
    }
    match line.left() {
        // A CR at the end may turn out to be a byte of the content.
        Some(left) => Ok(left.saturating_sub(1)),
        None => Err(PyxFault::LongLine),
    }
}

// The bytes up to the first space, and those behind it.
fn split_name(rest: &[u8]) -> (&[u8], &[u8])
    ensures name { result.0.now ≡ before_first is_space rest.now }
    ensures content { result.1.now ≡ after_first is_space rest.now }
{
    match first_space(rest) {
        Some(end) => (&rest[..end], &rest[end + 1..]),
        None => (rest, &[]),
    }
}

// Where the first space stands, if there is one.
fn first_space(bytes: &[u8]) -> Option<usize>
    ensures at { result ≡ position is_space bytes.now }
    ensures inside { IfSome result (λ end. end < length bytes.now) }
{
    bytes.iter().position(|b| *b == b' ')
}

/// The line without one CR at its end, where there is one.
pub fn without_cr(line: &[u8]) -> &[u8]
    ensures { result.now ≡ without_cr line.now }
{
    match line.split_last() {
        None => line,
        Some((last, prefix)) => { if *last == b'\r' { prefix } else { line } }
    }
}

/// Whether the bytes are a name: one at least, each above the space, and none of `#`, `*`, `/`, `?`,
/// `@` and the backslash. How many they are isn't asked.
pub fn is_name(name: &[u8]) -> bool
    ensures { result ≡ is_name name.now }
{
    match name.split_first() {
        None => false,
        Some(_) => has_name_bytes(name),
    }
}

// Whether a name may hold each of the bytes.
fn has_name_bytes(bytes: &[u8]) -> bool
    ensures { result ≡ list_all is_name_byte bytes.now }
{
    bytes.iter().all(|b| is_name_byte(*b))
}

// Whether a name may hold the byte.
fn is_name_byte(b: u8) -> bool
    ensures { result ≡ is_name_byte b }
{
    b > b' ' && !matches!(b, b'#' | b'*' | b'/' | b'?' | b'@' | b'\\')
}

/// The content that bytes of a line stand for: LF, TAB, CR and a backslash for each pair of a
/// backslash and `n`, `t`, `r` or a backslash, and every other byte for itself.
///
/// Errors: `NoMemory`.
pub fn unescaped(alloc: Global, content: &[u8]) -> Result<Bytes, NoMemory>
    ensures { IfOk result (λ bytes. bytes ≡ unescape content.now) }
{
    // It has no more bytes than the line: this is its one call for memory.
    let mut bytes = Bytes::with_capacity(alloc, content.len())?;
    let mut rest = content;
    loop {
        let (stretch, others) = rest.split_at(scan::unmarked_len::<Backslash>(rest));
        bytes.extend_from_slice(stretch)?;
        let Some((_, after)) = others.split_first() else {
            return Ok(bytes);
        };
        let (byte, left) = behind_backslash(after);
        bytes.push(byte)?;
        rest = left;
    }
}

// Whether a name and a content, as it stands in its line, have more bytes together than are allowed.
// Its pairs only make a content shorter, so most are not counted.
fn is_long_with(name: &[u8], content: &[u8]) -> bool
    ensures { result ≡ nat_lt 1048576 (length name.now + length (unescape content.now)) }
{
    if name.len() > LONGEST_NODE {
        return true;
    }
    let room = LONGEST_NODE - name.len();
    content.len() > room && unescaped_len(content) > room
}

/// The number of bytes of the content that bytes of a line stand for. It takes no memory.
pub fn unescaped_len(content: &[u8]) -> usize
    ensures { result ≡ length (unescape content.now) }
{
    let mut len = 0;
    let mut rest = content;
    loop {
        let (stretch, others) = rest.split_at(scan::unmarked_len::<Backslash>(rest));
        len += stretch.len();
        let Some((_, after)) = others.split_first() else {
            return len;
        };
        let (_, left) = behind_backslash(after);
        len += 1;
        rest = left;
    }
}

// The byte that a backslash stands for before these bytes, and what is left of them.
fn behind_backslash(after: &[u8]) -> (u8, &[u8])
    ensures value { unescape (92 ∷ after.now) ≡ result.0 ∷ unescape result.1.now }
    ensures shorter { length result.1.now ≤ length after.now }
{
    if let Some((second, left)) = after.split_first()
        && let Some(byte) = unescaped_byte(*second)
    {
        return (byte, left);
    }
    (b'\\', after)
}

// The byte that a backslash and this byte stand for, where they stand for one.
fn unescaped_byte(b: u8) -> Option<u8>
    ensures { result ≡ unescaped_byte b }
{
    match b {
        b'n' => Some(b'\n'),
        b't' => Some(b'\t'),
        b'r' => Some(b'\r'),
        b'\\' => Some(b'\\'),
        _ => None,
    }
}
