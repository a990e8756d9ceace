// What clap makes of the words.
ghost use Rattle.std.specs.Prelude.{◌≡◌, ◌≤◌, [], IfOk, length, true, codes, option_map, drop, slice_get, unwrap_or};
ghost use Rattle.clap.specs.Words.{first_value, found_of, matched_of, raw_values};
ghost use Rattle.nx_words.specs.Operands.{are_operands};

use crate::Word;
use clap::error::ErrorKind;
use clap::{Arg, ArgMatches, Command};
use nx_lists::NoMemory;
use std::alloc::Global;

// What clap finds in operands: the store, the command, and any number of arguments.
pub fn parse<'a>(alloc: Global, words: &'a [Word]) -> Result<ArgMatches<'a>, NoMemory>
    requires operands { are_operands words.now ≡ true }
    requires few { length words.now ≤ usize.MAX }
    ensures store { IfOk result (λ matches. first_value (found_of matches) (codes "STORE") ≡ slice_get words.entry.now 0) }
    ensures command { IfOk result (λ matches. first_value (found_of matches) (codes "COMMAND") ≡ slice_get words.entry.now 1) }
    ensures arguments { IfOk result (λ matches. unwrap_or (option_map raw_values (matched_of (found_of matches) (codes "ARG"))) [] ≡ drop 2 words.entry.now) }
{
    let store = Arg::new(alloc, "STORE").required(true);
    let command = Arg::new(alloc, "COMMAND").required(true);
    let arguments = Arg::new(alloc, "ARG").num_args(0..);
    let natix = Command::new(alloc, "natix")
        .no_binary_name(true)
        .disable_help_flag(true)
        .arg(store)?
        .arg(command)?
        .arg(arguments)?;
    match natix.try_get_matches_from(words) {
        Ok(matches) => Ok(matches),
        Err(error) => {
            prove!(matches!(error.kind(), ErrorKind::OutOfMemory));
            Err(NoMemory)
        }
    }
}
