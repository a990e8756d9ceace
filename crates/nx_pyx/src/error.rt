// The faults of a text, and the errors of reading one.
ghost use Rattle.std.specs.Prelude.{◌≡◌};
ghost use Rattle.nx_pyx.specs.Word.{word_of};
ghost use Rattle.nx_pyx.specs.declared.error.ReadError.TheVariants.{Memory};

use nx_tree::NoMemory;
use std::alloc::AllocFailed;
use thiserror::Error;

/// What is wrong with a text in PYX lines.
#[derive(Clone, Copy, Debug, PartialEq, Eq, Error)]
#[error("{}", self.word())]
pub enum PyxFault {
    /// The line is empty, or its first byte is none of the five codes.
    BadCode,
    /// The name isn't one.
    BadName,
    /// The line's node has no place there, or another element ends than the one that is open.
    BadNesting,
    /// An attribute stands elsewhere than directly after its element's start or an attribute of it.
    BadAttribute,
    /// The element has an attribute of that name.
    Twice,
    /// The text ends within an element.
    Unclosed,
    /// The text ends without an element.
    Empty,
    /// The line's name and content have more bytes together than are allowed.
    LongLine,
    /// The line's node would lie too deep.
    TooDeep,
    /// The line's node would be one too many.
    TooMany,
}

impl PyxFault {
    /// The word that names the fault where it is printed.
    pub fn word(self) -> &'static str
        ensures { result.now ≡ word_of self }
    {
        match self {
            PyxFault::BadCode => "bad-code",
            PyxFault::BadName => "bad-name",
            PyxFault::BadNesting => "bad-nesting",
            PyxFault::BadAttribute => "bad-attribute",
            PyxFault::Twice => "twice",
            PyxFault::Unclosed => "unclosed",
            PyxFault::Empty => "empty",
            PyxFault::LongLine => "long-line",
            PyxFault::TooDeep => "too-deep",
            PyxFault::TooMany => "too-many",
        }
    }
}

/// A fault and the number of its line, counted from 1. A fault of the end has the number of lines.
#[derive(Clone, Copy, Debug, PartialEq, Eq, Error)]
#[error("{line} {fault}")]
pub struct PyxError {
    pub line: u64,
    pub fault: PyxFault,
}

/// Why a document could not be read.
#[derive(Clone, Copy, Debug, PartialEq, Eq, Error)]
pub enum ReadError {
    /// The text is faulty.
    #[error("{0}")]
    Pyx(PyxError),
    /// There was no memory for what the call had to keep.
    #[error("out of memory")]
    Memory,
}

impl From<NoMemory> for ReadError {
    ghost from_gives = { λ _ e. e ≡ Memory };

    fn from(_: NoMemory) -> ReadError {
        ReadError::Memory
    }
}

impl<T: Drop> From<AllocFailed<T>> for ReadError {
    ghost from_gives = { λ _ e. e ≡ Memory };

    fn from(_: AllocFailed<T>) -> ReadError {
        ReadError::Memory
    }
}
