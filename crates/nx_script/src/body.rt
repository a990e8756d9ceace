// The lines of a document, which a line of one dot ends.
ghost use Rattle.std.specs.Prelude.{◌≡◌, ◌⊎◌, ◌<◌, ◌≤◌, ◌≢◌, ℕ, List, [], ◌∷◌, ◌++◌, length, take, drop, min, slice_index, true, false, Option, IfOk, OnOk, IsTrue, ◌↔◌};
ghost use Rattle.std.specs.List.{list_any};
ghost use Rattle.nx_pyx.specs.Lines.{cut, ended_lines, has_lf, without_cr};
ghost use Rattle.nx_pyx.specs.Field.{begins_with};
ghost use Rattle.nx_script.specs.Commands.{SaysBody, is_dot};
ghost use Rattle.nx_script.specs.BeforeDot.{before_dot, shown_before_dot};
ghost use Rattle.nx_script.specs.Body.{HasReadOrFailed, HasReadLines, AwaitsDot, IsEndedBy, AwaitsOrHasDot, IsBeforeDot, Says, fault_in, unread};

use crate::LoadBody;
use crate::line::is_dot;
use nx_pyx::{PyxError, ReadError, Reader, line_end, without_cr};
use nx_tree::{Bytes, NoMemory};
use std::alloc::Global;

// As many bytes of a line as tell whether it is a dot, with a CR behind it or not.
const FRONT: usize = 3;

/// The lines of a document so far, up to a line that is a dot, with a CR behind it or not. They come
/// in pieces of any length, and are read as they come, but for a line that may still be the dot.
///
/// After `NoMemory` it is of no further use.
#[derive(Drop)]
pub struct Body {
    reader: Reader,
    // The first bytes of the line that no LF has ended yet.
    held: Bytes,
}

impl Body {
    /// A document of which no line has come.
    ///
    /// Errors: `NoMemory`.
    pub fn new(alloc: Global) -> Result<Body, NoMemory>
        ensures { IfOk result (λ body. AwaitsDot body []) }
    {
        let Ok(reader) = Reader::new(alloc) else {
            return Err(NoMemory);
        };
        Ok(Body {
            reader,
            held: Bytes::new(alloc),
        })
    }

    /// Takes a prefix of the bytes that come, and gives how many they were, at least one, and whether
    /// the dot has ended the document's lines with them. The bytes behind are then no longer the
    /// document's.
    ///
    /// Errors: `NoMemory`.
    pub fn take(&mut self, bytes: &[u8]) -> Result<(usize, bool), NoMemory>
        requires { 0 < length bytes.now }
        ensures some { IfOk result (λ r. 0 < r.0) }
        ensures within { IfOk result (λ r. r.0 ≤ length bytes.now) }
        ensures stands { IfOk result (λ r. (s : List ℕ) → AwaitsDot self.old s → AwaitsOrHasDot r.1 self.new (s ++ take r.0 bytes.now)) }
    {
        if self.held.is_empty() && bytes[0] != b'.' {
            return Ok((self.take_lines(bytes)?, false));
        }
        match line_end(bytes) {
            Some(end) => Ok((end + 1, self.end_line(&bytes[..=end])?)),
            None => {
                self.go_on(bytes)?;
                Ok((bytes.len(), false))
            }
        }
    }

    /// The fault that the bytes show which have come so far, if they show one. Of a line that may
    /// still be the dot nothing is told.
    pub fn fault(&self) -> Option<PyxError>
        ensures { (s : List ℕ) → AwaitsDot self.now s → result ≡ shown_before_dot s }
    {
        fault_in(self.reader.error())
    }

    /// Whether the bytes that no LF has ended yet are the dot. At the end of all bytes it ends the
    /// document's lines.
    pub fn is_at_dot(&self) -> bool
        ensures held { result ≡ is_dot (without_cr self.now.held) }
        ensures within { (s : List ℕ) → AwaitsDot self.now s → result ≡ is_dot (without_cr (cut s).rest) }
    {
        is_dot(without_cr(self.held.as_slice()))
    }

    /// The document that the lines before the dot say, or their fault, once the dot or the end of all
    /// bytes has ended them.
    ///
    /// Errors: `NoMemory`.
    pub fn finish(self) -> Result<LoadBody, NoMemory>
        ensures lines { IfOk result (λ said. (s : List ℕ) → HasReadLines self.reader s → SaysBody (ended_lines s) said) }
        ensures within { IfOk result (λ said. (s : List ℕ) → AwaitsDot self s → Says (before_dot s) said) }
        ensures ended { IfOk result (λ said. (s : List ℕ) → IsEndedBy self s → (more : List ℕ) → Says (before_dot (s ++ more)) said) }
    {
        let Body { reader, held: _ } = self;
        said(reader)
    }

    // Takes the bytes before the first line that begins with a dot, and gives how many they were.
    // A line begins where they begin, and not with a dot.
    fn take_lines(&mut self, bytes: &[u8]) -> Result<usize, NoMemory>
        requires held { self.old.held ≡ [] }
        requires some { 0 < length bytes.now }
        requires undotted { begins_with 46 bytes.now ≡ false }
        ensures some { IfOk result (λ n. 0 < n) }
        ensures within { IfOk result (λ n. n ≤ length bytes.now) }
        ensures stands { IfOk result (λ n. (s : List ℕ) → AwaitsDot self.old s → AwaitsDot self.new (s ++ take n bytes.now)) }
    {
        let (len, last) = before_dot(bytes);
        feed(&mut self.reader, &bytes[..len])?;
        self.hold(&bytes[last..len])?;
        Ok(len)
    }

    // Takes bytes without an LF, which go on with a line or begin one.
    fn go_on(&mut self, bytes: &[u8]) -> Result<(), NoMemory>
        requires some { 0 < length bytes.now }
        requires unbroken { has_lf bytes.now ≡ false }
        ensures { OnOk result ((s : List ℕ) → AwaitsDot self.old s → AwaitsDot self.new (s ++ bytes.now)) }
    {
        let unread = self.unread_len();
        self.hold(bytes)?;
        if self.is_at_dot() {
            return Ok(());
        }
        self.read_on(unread, bytes)
    }

    // Takes the rest of a line, with its LF, and says whether the line ends the document.
    fn end_line(&mut self, rest: &[u8]) -> Result<bool, NoMemory>
        requires { (line : List ℕ) × (rest.now ≡ line ++ 10 ∷ []) × (has_lf line ≡ false) }
        ensures { IfOk result (λ ended. (s : List ℕ) → AwaitsDot self.old s → AwaitsOrHasDot ended self.new (s ++ rest.now)) }
    {
        let unread = self.unread_len();
        self.hold(&rest[..rest.len() - 1])?;
        let ended = self.is_at_dot();
        if !ended {
            self.read_on(unread, rest)?;
        }
        self.held.clear();
        Ok(ended)
    }

    // How many of the bytes that are held the reader hasn't read: those of a line that may be the
    // dot.
    fn unread_len(&self) -> usize
        ensures len { result ≡ length (unread self.now.held) }
        ensures within { result ≤ length self.now.held }
    {
        if self.is_at_dot() { self.held.len() } else { 0 }
    }

    // Reads so many of the bytes that are held, and then these.
    fn read_on(&mut self, unread: usize, bytes: &[u8]) -> Result<(), NoMemory>
        requires { unread ≤ length self.old.held }
        ensures read { OnOk result ((s : List ℕ) → HasReadOrFailed self.old.reader s → HasReadOrFailed self.new.reader (s ++ (take unread self.old.held ++ bytes.now))) }
        ensures held { self.new.held ≡ self.old.held }
    {
        feed(&mut self.reader, &self.held.as_slice()[..unread])?;
        feed(&mut self.reader, bytes)
    }

    // Holds as many of the bytes as are needed of the line's beginning.
    fn hold(&mut self, bytes: &[u8]) -> Result<(), NoMemory>
        ensures held { OnOk result ((line : List ℕ) → self.old.held ≡ take 3 line → self.new.held ≡ take 3 (line ++ bytes.now)) }
        ensures longer { OnOk result (length self.old.held ≤ length self.new.held) }
        ensures reader { self.new.reader ≡ self.old.reader }
    {
        let room = FRONT.saturating_sub(self.held.len());
        self.held
            .extend_from_slice(&bytes[..room.min(bytes.len())])?;
        Ok(())
    }
}

// The document that a reader has read, or its fault.
fn said(reader: Reader) -> Result<LoadBody, NoMemory>
    ensures { IfOk result (λ said. (s : List ℕ) → HasReadOrFailed reader s → Says s said) }
{
    match reader.finish() {
        Ok(tree) => Ok(LoadBody::Read(tree)),
        Err(ReadError::Pyx(error)) => Ok(LoadBody::Wrong(error)),
        Err(ReadError::Memory) => Err(NoMemory),
    }
}

// The fault among a reader's errors.
fn fault_in(error: Option<ReadError>) -> Option<PyxError>
    ensures { result ≡ fault_in error }
{
    match error {
        Some(ReadError::Pyx(error)) => Some(error),
        Some(ReadError::Memory) | None => None,
    }
}

// Hands bytes to the reader. A fault stays with it, and is told when the lines end.
fn feed(reader: &mut Reader, bytes: &[u8]) -> Result<(), NoMemory>
    ensures { OnOk result ((s : List ℕ) → HasReadOrFailed reader.old s → HasReadOrFailed reader.new (s ++ bytes.now)) }
{
    match reader.feed(bytes) {
        Ok(()) => Ok(()),
        Err(ReadError::Pyx(_)) => Ok(()),
        Err(ReadError::Memory) => Err(NoMemory),
    }
}

// The number of bytes before the first line that begins with a dot, or of all where there is none,
// and where the last line among them begins.
fn before_dot(bytes: &[u8]) -> (usize, usize)
    ensures { IsBeforeDot bytes.now result.0 result.1 }
{
    let mut start = 0;
    while start < bytes.len() && bytes[start] != b'.' {
        match line_end(&bytes[start..]) {
            Some(end) => start += end + 1,
            None => return (bytes.len(), start),
        }
    }
    (start, start)
}
