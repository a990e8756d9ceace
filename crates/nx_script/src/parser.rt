// From the bytes of a script to its commands.
ghost use Rattle.std.specs.Prelude.{◌≡◌, ◌<◌, ◌≤◌, ℕ, false, List, [], ◌∷◌, ◌++◌, length, take, Some, None, IfOk, OnOk};
ghost use Rattle.nx_pyx.specs.Lines.{ended_lines, has_lf};
ghost use Rattle.nx_script.specs.declared.command.Command.{Command};
ghost use Rattle.nx_script.specs.Commands.{loaded_name, IsLoadCommand, AreCommands};
ghost use Rattle.nx_script.specs.Body.{HasReadLines};
ghost use Rattle.nx_script.specs.declared.parser.Parser.{Parser};
ghost use Rattle.nx_script.specs.Parser.{HasParsed, AddsLine, with_command, most_held};
ghost use Rattle.nx_script.specs.declared.whole.Line.{Line};
ghost use Rattle.nx_script.specs.Whole.{HasHeld, AreLines, with_line};

use crate::Command;
use crate::body::Body;
use crate::line::{begins_load, loaded_name, parse};
use crate::whole::{Line, whole_line};
use nx_pyx::{line_end, without_cr};
use nx_tree::{Bytes, NoMemory};
use std::alloc::Global;
use std::mem;

// As many bytes of a line as are held: with so many it is too long for a command, whatever follows.
const MOST_HELD: usize = 4_194_306;

// A document whose lines come, and the name under which it is to be kept, if the line was right.
#[derive(Drop)]
pub struct Load {
    pub name: Option<Bytes>,
    pub body: Body,
}

/// Makes commands of the bytes of a script, as they come. A document's lines are read and not kept.
///
/// After `NoMemory` it is of no further use.
#[derive(Drop)]
pub struct Parser {
    alloc: Global,
    // The first bytes of the line that no LF has ended yet, where it is no line of a document.
    held: Bytes,
    load: Option<Load>,
}

impl Parser {
    /// A parser to which no byte has come.
    pub fn new(alloc: Global) -> Parser
        ensures commands { HasParsed result [] [] }
        ensures lines { HasHeld result [] [] }
    {
        Parser {
            alloc,
            held: Bytes::new(alloc),
            load: None,
        }
    }

    /// Takes a prefix of the bytes that come, and gives how many they were, at least one, and the
    /// command that they end, if they end one.
    ///
    /// Errors: `NoMemory`.
    pub fn take(&mut self, bytes: &[u8]) -> Result<(usize, Option<Command>), NoMemory>
        requires { 0 < length bytes.now }
        ensures some { IfOk result (λ r. 0 < r.0) }
        ensures within { IfOk result (λ r. r.0 ≤ length bytes.now) }
        ensures given { IfOk result (λ r. (seen : List ℕ) (commands : List Command) → HasParsed self.old seen commands →
            HasParsed self.new (seen ++ take r.0 bytes.now) (with_command commands r.1)) }
    {
        match self.load.take() {
            Some(load) => self.take_body(load, bytes),
            None => self.take_line(bytes),
        }
    }

    /// The command of the last lines, which no LF or no dot has ended, if there are any, once all
    /// bytes have come.
    ///
    /// Errors: `NoMemory`.
    pub fn finish(&mut self) -> Result<Option<Command>, NoMemory>
        ensures { IfOk result (λ last. (seen : List ℕ) (commands : List Command) → HasParsed self.old seen commands → AreCommands seen (with_command commands last)) }
    {
        match self.load.take() {
            Some(load) => last_load(load),
            None => self.last_line(),
        }
    }

    /// Takes a prefix of the bytes that come, and gives how many they were, at least one, and the
    /// line that they end, whatever it says, if they end one.
    ///
    /// Errors: `NoMemory`.
    pub fn take_whole(&mut self, bytes: &[u8]) -> Result<(usize, Option<Line>), NoMemory>
        requires { 0 < length bytes.now }
        ensures some { IfOk result (λ r. 0 < r.0) }
        ensures within { IfOk result (λ r. r.0 ≤ length bytes.now) }
        ensures given { IfOk result (λ r. (seen : List ℕ) (lines : List Line) → HasHeld self.old seen lines →
            HasHeld self.new (seen ++ take r.0 bytes.now) (with_line lines r.1)) }
    {
        match line_end(bytes) {
            Some(end) => Ok((end + 1, Some(self.end_whole(&bytes[..end])?))),
            None => {
                self.hold(bytes)?;
                Ok((bytes.len(), None))
            }
        }
    }

    /// The last line, which no LF has ended, if there is one, once all bytes have come.
    ///
    /// Errors: `NoMemory`.
    pub fn last_whole(&self) -> Result<Option<Line>, NoMemory>
        ensures { IfOk result (λ last. (seen : List ℕ) (lines : List Line) → HasHeld self.now seen lines → AreLines seen (with_line lines last)) }
    {
        if self.held.is_empty() {
            return Ok(None);
        }
        Ok(Some(whole_line(self.alloc, self.held.as_slice())?))
    }

    // Takes the rest of a line, which an LF ends then.
    fn end_whole(&mut self, rest: &[u8]) -> Result<Line, NoMemory>
        requires { has_lf rest.now ≡ false }
        ensures { IfOk result (λ line. (seen : List ℕ) (lines : List Line) → HasHeld self.old seen lines →
            HasHeld self.new (seen ++ (rest.now ++ 10 ∷ [])) (lines ++ line ∷ [])) }
    {
        self.hold(rest)?;
        let held = mem::replace(&mut self.held, Bytes::new(self.alloc));
        whole_line(self.alloc, held.as_slice())
    }

    // The command of the last line, which no LF has ended, if there is one.
    fn last_line(&self) -> Result<Option<Command>, NoMemory>
        requires { self.now.load ≡ None }
        ensures { IfOk result (λ last. (seen : List ℕ) (commands : List Command) → HasParsed self.now seen commands → AreCommands seen (with_command commands last)) }
    {
        if self.held.is_empty() {
            return Ok(None);
        }
        let line = without_cr(self.held.as_slice());
        if begins_load(line) {
            return Ok(Some(Command::Bad));
        }
        Ok(Some(parse(self.alloc, line)?))
    }

    // Takes bytes of a document's lines.
    fn take_body(
        &mut self,
        mut load: Load,
        bytes: &[u8],
    ) -> Result<(usize, Option<Command>), NoMemory>
        requires some { 0 < length bytes.now }
        requires taken { self.old.load ≡ None }
        ensures some { IfOk result (λ r. 0 < r.0) }
        ensures within { IfOk result (λ r. r.0 ≤ length bytes.now) }
        ensures given { IfOk result (λ r. (seen : List ℕ) (commands : List Command) → HasParsed (record self.old { load = Some load }) seen commands →
            HasParsed self.new (seen ++ take r.0 bytes.now) (with_command commands r.1)) }
    {
        let (len, ended) = load.body.take(bytes)?;
        if ended {
            return Ok((len, Some(loaded(load)?)));
        }
        self.load = Some(load);
        Ok((len, None))
    }

    // Takes bytes of a line that is no line of a document.
    fn take_line(&mut self, bytes: &[u8]) -> Result<(usize, Option<Command>), NoMemory>
        requires some { 0 < length bytes.now }
        requires outside { self.old.load ≡ None }
        ensures some { IfOk result (λ r. 0 < r.0) }
        ensures within { IfOk result (λ r. r.0 ≤ length bytes.now) }
        ensures given { IfOk result (λ r. (seen : List ℕ) (commands : List Command) → HasParsed self.old seen commands →
            HasParsed self.new (seen ++ take r.0 bytes.now) (with_command commands r.1)) }
    {
        match line_end(bytes) {
            Some(end) => Ok((end + 1, self.end_line(&bytes[..end])?)),
            None => {
                self.hold(bytes)?;
                Ok((bytes.len(), None))
            }
        }
    }

    // Takes the rest of a line, which an LF ends then.
    fn end_line(&mut self, rest: &[u8]) -> Result<Option<Command>, NoMemory>
        requires unbroken { has_lf rest.now ≡ false }
        requires outside { self.old.load ≡ None }
        ensures { IfOk result (λ command. (seen : List ℕ) (commands : List Command) → HasParsed self.old seen commands →
            HasParsed self.new (seen ++ (rest.now ++ 10 ∷ [])) (with_command commands command)) }
    {
        if self.held.is_empty() {
            return self.add(without_cr(rest));
        }
        self.hold(rest)?;
        let held = mem::replace(&mut self.held, Bytes::new(self.alloc));
        self.add(without_cr(held.as_slice()))
    }

    // Takes a whole line.
    fn add(&mut self, line: &[u8]) -> Result<Option<Command>, NoMemory>
        requires { self.old.load ≡ None }
        ensures added { IfOk result (AddsLine line.now self.new) }
        ensures held { self.new.held ≡ self.old.held }
    {
        if !begins_load(line) {
            return Ok(Some(parse(self.alloc, line)?));
        }
        let name = match loaded_name(line) {
            Some(name) => Some(Bytes::from_slice(self.alloc, name)?),
            None => None,
        };
        let body = Body::new(self.alloc)?;
        self.load = Some(Load { name, body });
        Ok(None)
    }

    // Holds as many of the bytes as are needed of the line's beginning.
    fn hold(&mut self, bytes: &[u8]) -> Result<(), NoMemory>
        ensures held { OnOk result ((line : List ℕ) → self.old.held ≡ take most_held line → self.new.held ≡ take most_held (line ++ bytes.now)) }
        ensures load { self.new.load ≡ self.old.load }
    {
        let room = MOST_HELD.saturating_sub(self.held.len());
        self.held
            .extend_from_slice(&bytes[..room.min(bytes.len())])?;
        Ok(())
    }
}

// The command of a document at the end of all bytes. Without a dot its lines are cut off.
fn last_load(load: Load) -> Result<Option<Command>, NoMemory>
    ensures { IfOk result (λ last. (parser : Parser) (seen : List ℕ) (commands : List Command) → parser.load ≡ Some load → HasParsed parser seen commands →
        AreCommands seen (with_command commands last)) }
{
    if !load.body.is_at_dot() {
        return Ok(Some(Command::Bad));
    }
    Ok(Some(loaded(load)?))
}

// The command of a document whose lines a dot has ended.
fn loaded(load: Load) -> Result<Command, NoMemory>
    ensures { IfOk result (λ command. (line : List ℕ) (s : List ℕ) → load.name ≡ loaded_name line → HasReadLines load.body.reader s →
        IsLoadCommand line (ended_lines s) command) }
{
    let Load { name, body } = load;
    match name {
        Some(name) => Ok(Command::Load {
            name,
            body: body.finish()?,
        }),
        None => Ok(Command::Bad),
    }
}
