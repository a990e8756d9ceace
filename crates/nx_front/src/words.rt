// The words of a command line.
ghost use Rattle.std.specs.Prelude.{◌≡◌, ◌≤◌, ◌∷◌, true, false, map, is_some, option_map, IfOk, IfErr, IfSome, IsSome, MatchOption};
ghost use Rattle.nx_pyx.specs.Field.{value_of};
ghost use Rattle.nx_records.specs.Words.{AreSettings};
ghost use Rattle.nx_front.specs.CommandLine.{is_store, is_log_name, is_named_store, named_store, uses_store, is_within, is_weight_limit, has_plain_start, is_group_number, usual_settings, settings_said, start_said, command_of_two, command_of_ship, are_workers, command_of_ask, command_of_limit, command_of_three, command_of_four, command_of_init, command_line_of, command_line, IsLimited};

use nx_lists::NoMemory;
use nx_pyx::position;
use nx_records::{MOST_PAGES, Settings};
use nx_ship::Start;
use nx_words::{Word, Words, operands_of};
use std::alloc::Global;
use std::convert::AsStr;

// Where a split aims, in percent, where the words don't say it.
const TARGET: u32 = 50;

// The greatest seed of generated commands, and the greatest number of elements of their document.
const GREATEST_SEED: u32 = 2_147_483_647;

const MOST_ELEMENTS: u32 = 100_000;

// How many workers there are at most.
const MOST_WORKERS: u32 = 64;

// A command line.
#[derive(Clone, Copy)]
pub enum CommandLine {
    // A document is read, and its canonical text given.
    Tidy,
    // A script is carried out over a store.
    Run,
    // A document is partitioned into parts that weigh at most so much.
    Plan(u32),
    // A partitioning of a document is checked, whose parts weigh at most so much.
    Verify(u32),
    // A store is made with these settings.
    Init(Settings),
    // The commands of a seed and a number are carried out over a store.
    Gen(u32, u32),
    // A store's pages are checked.
    Check,
    // Questions for nodes by name are answered over a store.
    Find,
    // Groups of a store are given as a stream, from there on.
    Ship(Start),
    // A stream of groups is applied to a store.
    Apply,
    // Questions of a script are answered over a snapshot of a store, by so many workers.
    Ask(u32),
}

// The command line that the words are, if they are one.
//
// Errors: `NoMemory`, and only where they are one, so that misuse is told whatever memory there is.
pub fn command_line(alloc: Global, words: &Words) -> Result<Option<CommandLine>, NoMemory>
    ensures line { IfOk result (λ line. line ≡ command_line words.now) }
    ensures limit { IfOk result (λ line. IfSome line IsLimited) }
    ensures memory { IfErr result (λ _. IsSome (command_line words.now)) }
{
    match operands_of(alloc, words) {
        Ok(Some(operands)) => Ok(command_by(
            operands.store,
            operands.command,
            operands.arguments.as_slice(),
        )),
        Ok(None) => Ok(None),
        Err(NoMemory) if is_command_line(words.as_slice()) => Err(NoMemory),
        Err(NoMemory) => Ok(None),
    }
}

// Whether the words are a command line.
fn is_command_line(words: &[Word]) -> bool
    ensures { result ≡ is_some (command_line words.now) }
{
    match words {
        [store, command, arguments @ ..] => {
            command_by(store.as_str(), command.as_str(), arguments).is_some()
        }
        _ => false,
    }
}

/// The word that names the store, where the words are a command line that uses one. `tidy`, `plan` and `verify`
/// use none.
pub fn named_store(words: &Words) -> Option<&str>
    ensures { option_map (λ store. store.now) result ≡ named_store words.now }
{
    match words.as_slice() {
        [store, command, arguments @ ..] => {
            let line = command_by(store.as_str(), command.as_str(), arguments)?;
            if uses_store(line) {
                Some(store.as_str())
            } else {
                None
            }
        }
        _ => None,
    }
}

// Whether the command line uses the store that it names.
fn uses_store(line: CommandLine) -> bool
    ensures { result ≡ uses_store line }
{
    !matches!(
        line,
        CommandLine::Tidy | CommandLine::Plan(_) | CommandLine::Verify(_)
    )
}

// The command line of a store, a command and its arguments.
fn command_by<S: AsStr>(store: &str, command: &str, arguments: &[S]) -> Option<CommandLine>
    ensures line { result ≡ command_line (store.now ∷ command.now ∷ map S.text arguments.now) }
    ensures limit { IfSome result IsLimited }
{
    if command == "init" {
        command_of_init(store, arguments)
    } else {
        command_of(store, command, arguments)
    }
}

// The command line of a store, `init` and these words.
fn command_of_init<S: AsStr>(store: &str, words: &[S]) -> Option<CommandLine>
    ensures line { result ≡ command_of_init store.now (map S.text words.now) }
    ensures limit { IfSome result IsLimited }
{
    if !is_named_store(store) {
        return None;
    }
    let settings = settings_of(words)?;
    Some(CommandLine::Init(settings))
}

// The settings that the words say. Each but the first may be left out with those behind it.
fn settings_of<S: AsStr>(words: &[S]) -> Option<Settings>
    ensures said { result ≡ settings_said (map S.text words.now) }
    ensures limit { IfSome result AreSettings }
{
    match words {
        [k] => usual_settings(k.as_str()),
        [k, target] => {
            let settings = usual_settings(k.as_str())?;
            let target = number_within(target.as_str(), 0, 100)?;
            Some(Settings { target, ..settings })
        }
        [k, target, tolerance] => {
            let settings = usual_settings(k.as_str())?;
            let target = number_within(target.as_str(), 0, 100)?;
            let tolerance = number_within(tolerance.as_str(), 0, 256)?;
            Some(Settings {
                target,
                tolerance,
                ..settings
            })
        }
        [k, target, tolerance, limit] => {
            let k = weight_limit(k.as_str())?;
            let target = number_within(target.as_str(), 0, 100)?;
            let tolerance = number_within(tolerance.as_str(), 0, 256)?;
            let limit = number_within(limit.as_str(), 64, MOST_PAGES)?;
            Some(Settings {
                k,
                target,
                tolerance,
                limit,
            })
        }
        _ => None,
    }
}

// The settings where the words say alone what a part weighs at most, if they say that.
fn usual_settings(limit: &str) -> Option<Settings>
    ensures said { MatchOption result (is_weight_limit limit.now ≡ false) (λ settings. (is_weight_limit limit.now ≡ true) × (settings ≡ usual_settings (value_of limit.now))) }
    ensures limit { IfSome result AreSettings }
{
    let k = weight_limit(limit)?;
    Some(Settings {
        k,
        target: TARGET,
        tolerance: k / 4,
        limit: MOST_PAGES,
    })
}

// The command line of a store, a command that isn't `init`, and these words.
fn command_of<S: AsStr>(store: &str, command: &str, words: &[S]) -> Option<CommandLine>
    ensures line { result ≡ command_line_of store.now command.now (map S.text words.now) }
    ensures limit { IfSome result IsLimited }
{
    match words {
        [] => command_of_two(store, command),
        [limit] => command_of_three(store, command, limit.as_str()),
        [seed, number] => command_of_four(store, command, seed.as_str(), number.as_str()),
        _ => None,
    }
}

// The command line of two words.
fn command_of_two(store: &str, command: &str) -> Option<CommandLine>
    ensures line { result ≡ command_of_two store.now command.now }
    ensures limit { IfSome result IsLimited }
{
    if is_store(store) && command == "tidy" {
        Some(CommandLine::Tidy)
    } else if is_named_store(store) && command == "run" {
        Some(CommandLine::Run)
    } else if is_named_store(store) && command == "check" {
        Some(CommandLine::Check)
    } else if is_named_store(store) && command == "find" {
        Some(CommandLine::Find)
    } else if is_named_store(store) && command == "apply" {
        Some(CommandLine::Apply)
    } else {
        None
    }
}

// The command line of three words.
fn command_of_three(store: &str, command: &str, word: &str) -> Option<CommandLine>
    ensures line { result ≡ command_of_three store.now command.now word.now }
    ensures limit { IfSome result IsLimited }
{
    if command == "ship" {
        command_of_ship(store, word)
    } else if command == "ask" {
        command_of_ask(store, word)
    } else {
        command_of_limit(store, command, word)
    }
}

// The command line of a store, `ask` and this word.
fn command_of_ask(store: &str, word: &str) -> Option<CommandLine>
    ensures line { result ≡ command_of_ask store.now word.now }
    ensures limit { IfSome result IsLimited }
{
    if !is_named_store(store) {
        return None;
    }
    let workers = workers_of(word)?;
    Some(CommandLine::Ask(workers))
}

// How many workers there are, if the word says it.
fn workers_of(word: &str) -> Option<u32>
    ensures said { MatchOption result (are_workers word.now ≡ false) (λ n. (are_workers word.now ≡ true) × (n ≡ value_of word.now)) }
    ensures limit { IfSome result (λ n. (1 ≤ n) × (n ≤ 64)) }
{
    number_within(word, 1, MOST_WORKERS)
}

// The command line of a store, `ship` and this word.
fn command_of_ship(store: &str, word: &str) -> Option<CommandLine>
    ensures line { result ≡ command_of_ship store.now word.now }
    ensures limit { IfSome result IsLimited }
{
    if !is_named_store(store) {
        return None;
    }
    let start = start_of(word)?;
    Some(CommandLine::Ship(start))
}

// Where shipping begins, if the word says that.
fn start_of(word: &str) -> Option<Start>
    ensures { result ≡ start_said word.now }
{
    if word == "all" {
        return Some(Start::All);
    }
    let number = group_number(word)?;
    Some(Start::Number(number))
}

// The number of a group that the word says, if it says one.
fn group_number(word: &str) -> Option<u64>
    ensures { MatchOption result (is_group_number word.now ≡ false) (λ n. (is_group_number word.now ≡ true) × (n ≡ value_of word.now)) }
{
    if !has_plain_start(word.as_bytes()) {
        return None;
    }
    match word.parse::<u64>() {
        Ok(number) => Some(number),
        Err(_) => None,
    }
}

// Whether there are bytes, without a sign and without a leading zero before others.
fn has_plain_start(digits: &[u8]) -> bool
    ensures { result ≡ has_plain_start digits.now }
{
    match digits {
        [] => false,
        [_] => digits[0] != b'+',
        [first, ..] => *first != b'0' && *first != b'+',
    }
}

// The command line of a store, a command that is neither `ship` nor `ask`, and what a part weighs at most.
fn command_of_limit(store: &str, command: &str, limit: &str) -> Option<CommandLine>
    ensures line { result ≡ command_of_limit store.now command.now limit.now }
    ensures limit { IfSome result IsLimited }
{
    let limit = weight_limit(limit)?;
    if is_store(store) && command == "plan" {
        Some(CommandLine::Plan(limit))
    } else if is_store(store) && command == "verify" {
        Some(CommandLine::Verify(limit))
    } else {
        None
    }
}

// The command line of four words.
fn command_of_four(store: &str, command: &str, seed: &str, number: &str) -> Option<CommandLine>
    ensures line { result ≡ command_of_four store.now command.now seed.now number.now }
    ensures limit { IfSome result IsLimited }
{
    let seed = number_within(seed, 0, GREATEST_SEED)?;
    let number = number_within(number, 1, MOST_ELEMENTS)?;
    if is_named_store(store) && command == "gen" {
        Some(CommandLine::Gen(seed, number))
    } else {
        None
    }
}

// What a part weighs at most, if the word says it.
fn weight_limit(word: &str) -> Option<u32>
    ensures said { MatchOption result (is_weight_limit word.now ≡ false) (λ k. (is_weight_limit word.now ≡ true) × (k ≡ value_of word.now)) }
    ensures limit { IfSome result (λ k. (1 ≤ k) × (k ≤ 256)) }
{
    number_within(word, 1, 256)
}

// The number in this range that the word says, if it says one.
fn number_within(word: &str, least: u32, most: u32) -> Option<u32>
    ensures said { MatchOption result (is_within least most word.now ≡ false) (λ n. (is_within least most word.now ≡ true) × (n ≡ value_of word.now)) }
    ensures limit { IfSome result (λ n. (least ≤ n) × (n ≤ most)) }
{
    let number = position(word.as_bytes())?;
    if least <= number && number <= most {
        Some(number)
    } else {
        None
    }
}

// Whether the word names a store that is used.
fn is_named_store(store: &str) -> bool
    ensures { result ≡ is_named_store store.now }
{
    is_store(store) && store != "_" && !is_log_name(store)
}

// Whether the word ends as the name of a log does.
fn is_log_name(word: &str) -> bool
    ensures { result ≡ is_log_name word.now }
{
    word.as_bytes().ends_with(b".log")
}

// Whether the word may name a store.
fn is_store(word: &str) -> bool
    ensures { result ≡ is_store word.now }
{
    match word.as_bytes() {
        [] => false,
        [first, ..] => *first != b'-',
    }
}
