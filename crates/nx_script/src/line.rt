// What one line says.
ghost use Rattle.std.specs.Prelude.{◌≡◌, if◌then◌else◌, None, Some, MatchOption, IfOk};
ghost use Rattle.std.specs.Option.{option_map_or};
ghost use Rattle.nx_pyx.specs.DocumentName.{is_document_name};
ghost use Rattle.nx_script.specs.Line.{line_body, text_body, place_said, place_in, insert_at, retext_at, ends_there, lone_command, rename_by, command_by, said_at_length, command_of};
ghost use Rattle.nx_script.specs.Rule.{rule_of};
ghost use Rattle.nx_script.specs.Commands.{begins_load, is_dot, loaded_name};

use crate::rule::read_rule;
use crate::{Command, LineBody, TextBody};
use nx_lists::LONGEST_NODE;
use nx_pyx::{
    PyxError, PyxFault, ReadError, is_document_name, line_node, path, split_field, unescaped,
    unescaped_len,
};
use nx_tree::{Bytes, NoMemory, Path};
use std::alloc::Global;

// As many bytes as a line has at most that isn't part of a document.
pub const LONGEST_LINE: usize = 4_194_304;

// A place in a document.
#[derive(Drop)]
struct Place<'a> {
    name: Bytes,
    path: Path,
    // What stands behind the path and a space, where there is one.
    last: Option<&'a [u8]>,
}

// Whether the line begins a document, whatever else it says.
pub fn begins_load(line: &[u8]) -> bool
    ensures { result ≡ begins_load line.now }
{
    line == b"load".as_slice() || line.starts_with(b"load ".as_slice())
}

// The name under which a line that begins a document has it kept, if it says one.
pub fn loaded_name(line: &[u8]) -> Option<&[u8]>
    ensures { MatchOption result (loaded_name line.now ≡ None) (λ name. loaded_name line.now ≡ Some name.now) }
{
    if line.len() > LONGEST_LINE {
        return None;
    }
    let (_, name) = split_field(line);
    name.filter(|name| is_document_name(name))
}

// Whether the line ends a document.
pub fn is_dot(line: &[u8]) -> bool
    ensures { result ≡ is_dot line.now }
{
    line == b".".as_slice()
}

// What a line says that no others belong to.
pub fn parse(alloc: Global, line: &[u8]) -> Result<Command, NoMemory>
    ensures { IfOk result (λ command. command ≡ command_of line.now) }
{
    if line.len() > LONGEST_LINE {
        return Ok(said_at_length(line));
    }
    match split_field(line) {
        (word, Some(rest)) => command(alloc, word, rest),
        (word, None) => Ok(lone_command(word)),
    }
}

// What a line that is too long says: it may begin a transaction, and is no command else.
fn said_at_length(line: &[u8]) -> Command
    ensures { result ≡ said_at_length line.now }
{
    if line.starts_with(b"begin ".as_slice()) {
        Command::Begin { bare: false }
    } else {
        Command::Bad
    }
}

// What a word alone says.
fn lone_command(word: &[u8]) -> Command
    ensures { result ≡ lone_command word.now }
{
    if word == b"names".as_slice() {
        Command::Names
    } else if word == b"rules".as_slice() {
        Command::Rules
    } else if word == b"checkpoint".as_slice() {
        Command::Checkpoint
    } else if word == b"begin".as_slice() {
        Command::Begin { bare: true }
    } else if word == b"commit".as_slice() {
        Command::Commit
    } else {
        Command::Bad
    }
}

// What a word and the bytes behind its space say.
fn command(alloc: Global, word: &[u8], rest: &[u8]) -> Result<Command, NoMemory>
    ensures { IfOk result (λ command. command ≡ command_by word.now rest.now) }
{
    if word == b"drop".as_slice() {
        discard(alloc, rest)
    } else if word == b"rename".as_slice() {
        rename(alloc, rest)
    } else if word == b"export".as_slice() {
        export(alloc, rest)
    } else if word == b"insert".as_slice() {
        insert(alloc, rest)
    } else if word == b"delete".as_slice() {
        delete(alloc, rest)
    } else if word == b"retext".as_slice() {
        retext(alloc, rest)
    } else if word == b"get".as_slice() {
        get(alloc, rest)
    } else if word == b"layout".as_slice() {
        layout(alloc, rest)
    } else if word == b"rule".as_slice() {
        set_rule(alloc, rest)
    } else if word == b"begin".as_slice() {
        Ok(Command::Begin { bare: false })
    } else {
        Ok(Command::Bad)
    }
}

fn discard(alloc: Global, rest: &[u8]) -> Result<Command, NoMemory>
    ensures { IfOk result (λ command. command ≡ (if is_document_name rest.now then Command.Discard rest.now else Command.Bad)) }
{
    if !is_document_name(rest) {
        return Ok(Command::Bad);
    }
    let name = Bytes::from_slice(alloc, rest)?;
    Ok(Command::Discard { name })
}

fn rename(alloc: Global, rest: &[u8]) -> Result<Command, NoMemory>
    ensures { IfOk result (λ command. command ≡ rename_by rest.now) }
{
    let (old, Some(new)) = split_field(rest) else {
        return Ok(Command::Bad);
    };
    if !is_document_name(old) || !is_document_name(new) {
        return Ok(Command::Bad);
    }
    let old = Bytes::from_slice(alloc, old)?;
    let new = Bytes::from_slice(alloc, new)?;
    Ok(Command::Rename { old, new })
}

fn export(alloc: Global, rest: &[u8]) -> Result<Command, NoMemory>
    ensures { IfOk result (λ command. command ≡ (if is_document_name rest.now then Command.Export rest.now else Command.Bad)) }
{
    if !is_document_name(rest) {
        return Ok(Command::Bad);
    }
    let name = Bytes::from_slice(alloc, rest)?;
    Ok(Command::Export { name })
}

fn insert(alloc: Global, rest: &[u8]) -> Result<Command, NoMemory>
    ensures { IfOk result (λ command. command ≡ option_map_or insert_at (place_said rest.now) Command.Bad) }
{
    let Some(Place { name, path, last }) = place_at(alloc, rest)? else {
        return Ok(Command::Bad);
    };
    let Some(line) = last else {
        return Ok(Command::Bad);
    };
    let line = line_body(alloc, line)?;
    Ok(Command::Insert { name, path, line })
}

fn delete(alloc: Global, rest: &[u8]) -> Result<Command, NoMemory>
    ensures { IfOk result (λ command. command ≡ option_map_or (ends_there Command.Delete) (place_said rest.now) Command.Bad) }
{
    let Some(Place { name, path, last }) = place_at(alloc, rest)? else {
        return Ok(Command::Bad);
    };
    if last.is_some() {
        return Ok(Command::Bad);
    }
    Ok(Command::Delete { name, path })
}

fn retext(alloc: Global, rest: &[u8]) -> Result<Command, NoMemory>
    ensures { IfOk result (λ command. command ≡ option_map_or retext_at (place_said rest.now) Command.Bad) }
{
    let Some(Place { name, path, last }) = place_at(alloc, rest)? else {
        return Ok(Command::Bad);
    };
    let text = text_body(alloc, last.unwrap_or(&[]))?;
    Ok(Command::Retext { name, path, text })
}

fn get(alloc: Global, rest: &[u8]) -> Result<Command, NoMemory>
    ensures { IfOk result (λ command. command ≡ option_map_or (ends_there Command.Get) (place_said rest.now) Command.Bad) }
{
    let Some(Place { name, path, last }) = place_at(alloc, rest)? else {
        return Ok(Command::Bad);
    };
    if last.is_some() {
        return Ok(Command::Bad);
    }
    Ok(Command::Get { name, path })
}

fn layout(alloc: Global, rest: &[u8]) -> Result<Command, NoMemory>
    ensures { IfOk result (λ command. command ≡ (if is_document_name rest.now then Command.Layout rest.now else Command.Bad)) }
{
    if !is_document_name(rest) {
        return Ok(Command::Bad);
    }
    let name = Bytes::from_slice(alloc, rest)?;
    Ok(Command::Layout { name })
}

fn set_rule(alloc: Global, rest: &[u8]) -> Result<Command, NoMemory>
    ensures { IfOk result (λ command. command ≡ option_map_or Command.SetRule (rule_of rest.now) Command.Bad) }
{
    match read_rule(alloc, rest)? {
        Some(rule) => Ok(Command::SetRule { rule }),
        None => Ok(Command::Bad),
    }
}

// The place that the fields behind a word say, if they say one.
fn place_at(alloc: Global, bytes: &[u8]) -> Result<Option<Place<'_>>, NoMemory>
    ensures { IfOk result (λ found. MatchOption found (place_said bytes.now ≡ None) (λ place. place_said bytes.now ≡ Some (place_in place))) }
{
    let (name, Some(more)) = split_field(bytes) else {
        return Ok(None);
    };
    if !is_document_name(name) {
        return Ok(None);
    }
    let (text, last) = split_field(more);
    let Some(path) = path(alloc, text)? else {
        return Ok(None);
    };
    let name = Bytes::from_slice(alloc, name)?;
    Ok(Some(Place { name, path, last }))
}

// The node that a line of a document says, or its fault.
fn line_body(alloc: Global, line: &[u8]) -> Result<LineBody, NoMemory>
    ensures { IfOk result (λ body. body ≡ line_body line.now) }
{
    match line_node(alloc, line) {
        Ok(node) => Ok(LineBody::Read(node)),
        Err(ReadError::Pyx(error)) => Ok(LineBody::Wrong(error)),
        Err(ReadError::Memory) => Err(NoMemory),
    }
}

// The content that the bytes stand for, where a node may have as many. One that is too long is only
// counted.
fn text_body(alloc: Global, bytes: &[u8]) -> Result<TextBody, NoMemory>
    ensures { IfOk result (λ body. body ≡ text_body bytes.now) }
{
    // Pairs only make a content shorter, so most are not counted.
    if bytes.len() > LONGEST_NODE && unescaped_len(bytes) > LONGEST_NODE {
        return Ok(TextBody::Wrong(PyxError {
            line: 1,
            fault: PyxFault::LongLine,
        }));
    }
    Ok(TextBody::Read(unescaped(alloc, bytes)?))
}
