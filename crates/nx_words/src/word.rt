// A word of a command line, and a list of them.
ghost use Rattle.std.specs.Prelude.{◌≡◌, IfOk};
ghost use Rattle.nx_words.specs.Operands.{is_operand};

use nx_lists::{List, NoMemory};
use std::alloc::Global;
use std::convert::AsStr;
use std::marker::Model;

/// One word of a command line. Contracts see its bytes.
#[derive(Drop)]
pub struct Word {
    text: String,
}

impl Model for Word {
    ghost use Rattle.std.specs.Prelude.{List, ℕ, string_bytes};

    ghost Value = { List ℕ };

    ghost view = { λ a. string_bytes a.text };
}

impl Word {
    /// A copy of the text.
    ///
    /// Errors: `NoMemory`.
    pub fn new(alloc: Global, text: &str) -> Result<Word, NoMemory>
        ensures { IfOk result (λ word. word ≡ text.now) }
    {
        Ok(Word {
            text: String::from_str(alloc, text)?,
        })
    }

    /// The word as text.
    pub fn as_str(&self) -> &str
        ensures { result.now ≡ self.now }
    {
        self.text.as_str()
    }

    // Whether the word isn't empty and doesn't begin with a hyphen.
    pub(crate) fn is_operand(&self) -> bool
        ensures { result ≡ is_operand self.now }
    {
        match self.text.as_bytes() {
            [] => false,
            [first, ..] => *first != b'-',
        }
    }
}

impl AsStr for Word {
    ghost text = { λ word. word };

    fn as_str(&self) -> &str {
        self.text.as_str()
    }
}

/// A list of words.
pub type Words = List<Word>;
