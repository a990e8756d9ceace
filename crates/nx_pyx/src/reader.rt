// From pieces of a stream to lines.
ghost use Rattle.std.specs.Prelude.{false, ◌∷◌, ◌<◌, ◌≤◌, length, take, slice_index, MatchOption, MatchResult, ◌≡◌, ℕ, List, [], ◌++◌, Some, IfOk, OnOk, IfErr, IsOkAnd, Err};
ghost use Rattle.nx_pyx.specs.declared.error.ReadError.{ReadError};
ghost use Rattle.nx_tree.specs.Forest.{OrderedTree};
ghost use Rattle.nx_pyx.specs.Fault.{shown_fault, fault_of};
ghost use Rattle.nx_pyx.specs.Reading.{Reads};
ghost use Rattle.nx_pyx.specs.Builder.{HasBuilt, Fails};
ghost use Rattle.nx_pyx.specs.Lines.{has_lf, EndsLine, lines};
ghost use Rattle.nx_pyx.specs.Reader.{HasRead, HasFailed};

use crate::builder::Builder;
use crate::scan::{self, LineEnd};
use crate::{ReadError, line};
use nx_tree::{Bytes, Tree};
use std::alloc::Global;

/// Reads a document from its PYX lines, which come in pieces of any length.
///
/// After an error the reader has failed, and every later call answers that same error.
#[derive(Drop)]
pub struct Reader {
    builder: Builder,
    // The line that no LF has ended yet.
    held: Bytes,
    // As many bytes may come before the line that is held could show a fault.
    room: usize,
    failed: Option<ReadError>,
}

impl Reader {
    /// A reader of a stream that is about to come. It takes no memory and doesn't fail.
    pub fn new(alloc: Global) -> Result<Reader, ReadError>
        ensures { IsOkAnd result (λ reader. HasRead reader []) }
    {
        Ok(Reader {
            builder: Builder::new(alloc),
            held: Bytes::new(alloc),
            room: 0,
            failed: None,
        })
    }

    /// Takes the next piece of the stream.
    ///
    /// Errors: `Pyx` exactly where the stream so far shows a fault, however it was cut: that of the
    /// first faulty line that an LF ends, or else that of the line that comes, `BadCode` by its
    /// first byte and `LongLine` as soon as no bytes could follow with which it were short enough;
    /// `Memory`.
    pub fn feed(&mut self, piece: &[u8]) -> Result<(), ReadError>
        ensures ok { OnOk result ((s : List ℕ) → HasRead self.old s → HasRead self.new (s ++ piece.now)) }
        ensures fault { IfErr result (λ e. (s : List ℕ) → HasRead self.old s → Fails e (shown_fault (s ++ piece.now))) }
        ensures failed { IfErr result (HasFailed self.new) }
        ensures again { (e : ReadError) → HasFailed self.old e → (result ≡ Err e) × HasFailed self.new e }
    {
        if let Some(error) = self.failed {
            return Err(error);
        }
        let taken = self.take(piece);
        if let Err(error) = taken {
            self.failed = Some(error);
        }
        taken
    }

    /// The error with which the reader has failed, if it has.
    pub fn error(&self) -> Option<ReadError>
        ensures { result ≡ self.now.failed }
    {
        self.failed
    }

    /// The document that the whole stream says.
    ///
    /// Errors: `Pyx` exactly where the stream has a fault; `Memory`.
    pub fn finish(self) -> Result<Tree, ReadError>
        ensures ok { IfOk result (λ tree. (s : List ℕ) → HasRead self s → Reads s tree) }
        ensures fault { IfErr result (λ e. (s : List ℕ) → HasRead self s → Fails e (fault_of s)) }
        ensures again { (e : ReadError) → HasFailed self e → result ≡ Err e }

        // A stream that has a reading is read, unless memory runs out, and has no other.
        ensures only { (s : List ℕ) (tree : OrderedTree) → HasRead self s → Reads s tree → MatchResult result (λ t. t ≡ tree) (λ e. e ≡ ReadError.Memory) }
    {
        self.end()
    }

    // The document or the fault of the whole stream.
    fn end(mut self) -> Result<Tree, ReadError>
        ensures ok { IfOk result (λ tree. (s : List ℕ) → HasRead self s → Reads s tree) }
        ensures fault { IfErr result (λ e. (s : List ℕ) → HasRead self s → Fails e (fault_of s)) }
        ensures again { (e : ReadError) → HasFailed self e → result ≡ Err e }
    {
        if let Some(error) = self.failed {
            return Err(error);
        }
        self.take_rest()?;
        let Reader {
            builder,
            held: _,
            room: _,
            failed: _,
        } = self;
        builder.finish()
    }

    // Takes the lines that the piece ends, and holds what stands behind them.
    fn take(&mut self, piece: &[u8]) -> Result<(), ReadError>
        ensures ok { OnOk result ((s : List ℕ) → HasRead self.old s → HasRead self.new (s ++ piece.now)) }
        ensures err { IfErr result (λ e. (s : List ℕ) → HasRead self.old s → Fails e (shown_fault (s ++ piece.now))) }
    {
        let mut rest = piece;
        while let Some(end) = line_end(rest) {
            self.end_line(&rest[..end])?;
            rest = &rest[end + 1..];
        }
        self.hold(rest)
    }

    // Takes the line that is held and goes on with these bytes, and that an LF ends then.
    fn end_line(&mut self, bytes: &[u8]) -> Result<(), ReadError>
        requires { has_lf bytes.now ≡ false }
        ensures ok { OnOk result ((s : List ℕ) → HasRead self.old s → HasRead self.new (s ++ (bytes.now ++ 10 ∷ []))) }
        ensures err { IfErr result (λ e. (s : List ℕ) → HasRead self.old s → Fails e (shown_fault (s ++ (bytes.now ++ 10 ∷ [])))) }
    {
        if self.held.is_empty() {
            return self.builder.take(bytes);
        }
        self.held.extend_from_slice(bytes)?;
        self.builder.take(self.held.as_slice())?;
        self.held.clear();
        self.room = 0;
        Ok(())
    }

    // Takes the last line, which no LF ends, where there is one.
    fn take_rest(&mut self) -> Result<(), ReadError>
        ensures ok { OnOk result ((s : List ℕ) → HasRead self.old s → HasBuilt self.new.builder (lines s)) }
        ensures err { IfErr result (λ e. (s : List ℕ) → HasRead self.old s → Fails e (fault_of s)) }
    {
        if self.held.is_empty() {
            return Ok(());
        }
        self.builder.take(self.held.as_slice())
    }

    // Holds more bytes of the line, and tells the fault that it shows already.
    //
    // The line is measured again only once more bytes have come than there was room for. Two bytes of
    // a line stand for at least one, so this about halves the room that is left: a line is measured
    // some twenty times, however small its pieces are.
    fn hold(&mut self, bytes: &[u8]) -> Result<(), ReadError>
        requires { has_lf bytes.now ≡ false }
        ensures ok { OnOk result ((s : List ℕ) → HasRead self.old s → HasRead self.new (s ++ bytes.now)) }
        ensures err { IfErr result (λ e. (s : List ℕ) → HasRead self.old s → Fails e (shown_fault (s ++ bytes.now))) }
    {
        self.held.extend_from_slice(bytes)?;
        if bytes.len() <= self.room {
            self.room -= bytes.len();
            return Ok(());
        }
        match line::room(self.held.as_slice()) {
            Ok(room) => {
                self.room = room;
                Ok(())
            }
            Err(fault) => Err(self.builder.next_fault(fault)),
        }
    }
}

/// Where the first LF stands, if there is one.
pub fn line_end(bytes: &[u8]) -> Option<usize>
    ensures { MatchOption result (has_lf bytes.now ≡ false) (EndsLine bytes.now) }
{
    let end = scan::unmarked_len::<LineEnd>(bytes);
    if end < bytes.len() { Some(end) } else { None }
}
