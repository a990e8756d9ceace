// The operands of a command line.
ghost use Rattle.std.specs.Prelude.{◌≡◌, ◌≤◌, IfOk, IfErr, MatchOption, length, true, false};
ghost use Rattle.nx_words.specs.Operands.{are_operands, said_by};

use crate::parse::parse;
use crate::{Word, Words};
use nx_lists::{List, NoMemory};
use std::alloc::Global;

/// The words of a command line, by what they are: a store, a command, and the command's arguments.
#[derive(Drop)]
pub struct Operands<'a> {
    /// The first word.
    pub store: &'a str,
    /// The second word.
    pub command: &'a str,
    /// All other words, in order.
    pub arguments: List<&'a str>,
}

/// The operands that the words are. They are none where there are fewer than two of them, where one is
/// empty, and where one begins with `-`.
///
/// Errors: `NoMemory`, and only where the words are operands.
pub fn operands_of<'a>(alloc: Global, words: &'a Words) -> Result<Option<Operands<'a>>, NoMemory>
    ensures found { IfOk result (λ found. MatchOption found (are_operands words.entry.now ≡ false) (λ operands. (are_operands words.entry.now ≡ true) × (words.entry.now ≡ said_by operands))) }
    ensures memory { IfErr result (λ _. are_operands words.entry.now ≡ true) }
{
    let words = words.as_slice();
    if !are_operands(words) {
        return Ok(None);
    }
    let matches = parse(alloc, words)?;
    let arguments = matches.get_strs("ARG").unwrap_or(&[]);
    Ok(Some(Operands {
        store: matches.get_str("STORE").unwrap(),
        command: matches.get_str("COMMAND").unwrap(),
        arguments: List::from_slice(alloc, arguments)?,
    }))
}

// Whether there are two words or more, and each is an operand.
fn are_operands(words: &[Word]) -> bool
    ensures test { result ≡ are_operands words.now }
    ensures few { length words.now ≤ usize.MAX }
{
    2 <= words.len() && words.iter().all(|word| word.is_operand())
}
