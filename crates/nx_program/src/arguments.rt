// The words of a command line.
ghost use Rattle.std.specs.Prelude.{◌≡◌, ◌≢◌, drop, map, string_bytes, Err, IfOk, IfErr, IsOk};
ghost use Rattle.std.specs.IoError.{error_kind};
ghost use Rattle.std.specs.Vec.Iter.{into_iter_items};
ghost use Rattle.nx_program.specs.Command.{most_kept, most_kept_for, makes_log, makes_log_for};

use nx_front::{Status, Word, Words};
use nx_lists::NoMemory;
use std::alloc::Global;
use std::env::Args;
use std::io;
use std::io::ErrorKind;

// How many pages that were read lately are kept for a command.
const MOST_KEPT: u32 = 256;

// The same for a check, which notes something of each page besides: of a large store it takes a two-hundredth in all.
const MOST_KEPT_FOR_CHECK: u32 = 64;

// The words of a command line, of which the first argument, the program's own name, is none.
//
// An argument that is no UTF-8 is no command and no word of one, so it ends as a usage error.
pub fn words(alloc: Global, arguments: io::Result<Args>) -> Result<Words, Status>
    ensures given { IfOk result (λ words. IfOk arguments (λ given. words ≡ map string_bytes (drop 1 (into_iter_items given)))) }
    ensures had { IfOk result (λ _. IsOk arguments) }
    ensures memory { IfErr result (λ status. IfOk arguments (λ _. status ≡ Status.NoMemory)) }
    ensures no_memory { IfErr arguments (λ error. error_kind error ≡ ErrorKind.OutOfMemory → result ≡ Err Status.NoMemory) }
    ensures no_text { IfErr arguments (λ error. error_kind error ≢ ErrorKind.OutOfMemory → result ≡ Err Status.Usage) }
{
    match arguments {
        Ok(arguments) => words_of(alloc, arguments).map_err(|_| Status::NoMemory),
        Err(error) => Err(match error.kind() {
            ErrorKind::OutOfMemory => Status::NoMemory,
            _ => Status::Usage,
        }),
    }
}

fn words_of(alloc: Global, mut arguments: Args) -> Result<Words, NoMemory>
    ensures { IfOk result (λ words. words ≡ map string_bytes (drop 1 (into_iter_items arguments))) }
{
    let mut words = Words::new(alloc);
    let _ = arguments.next();
    while let Some(argument) = arguments.next() {
        words.push(Word::new(alloc, argument.as_str())?)?;
    }
    Ok(words)
}

// How many pages that were read lately are kept for the command of these words.
pub fn most_kept(words: &Words) -> u32
    ensures { result ≡ most_kept words.now }
{
    match words.as_slice() {
        [_, command, ..] => most_kept_for(command.as_str()),
        _ => MOST_KEPT,
    }
}

fn most_kept_for(command: &str) -> u32
    ensures { result ≡ most_kept_for command.now }
{
    if command == "check" {
        MOST_KEPT_FOR_CHECK
    } else {
        MOST_KEPT
    }
}

// Whether the command of these words may begin a store, and makes a log that is missing: `init`, and `apply`, of which the first
// group may be a base.
pub fn makes_log(words: &Words) -> bool
    ensures { result ≡ makes_log words.now }
{
    match words.as_slice() {
        [_, command, ..] => makes_log_for(command.as_str()),
        _ => false,
    }
}

fn makes_log_for(command: &str) -> bool
    ensures { result ≡ makes_log_for command.now }
{
    command == "init" || command == "apply"
}
