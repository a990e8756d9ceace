// A script that comes from a host.
ghost use Rattle.std.specs.Prelude.{◌≡◌, ◌<◌, ◌≤◌};

use crate::parser::Parser;
use crate::{Command, Line, ScriptError};
use nx_host::{Disk, Host, Input};
use std::alloc::Global;

/// A script whose bytes come from a host's input.
///
/// After an error it is of no further use.
#[derive(Drop)]
pub struct Script {
    parser: Parser,
    input: Input,
    // Where the bytes of the input's block begin that are still to be looked at.
    start: usize,
    ended: bool,
    // Whether the last command was given.
    finished: bool,
}

impl Script {
    ghost use Rattle.std.specs.Prelude.{◌⊎◌, ◌↔◌, ℕ, List, [], ◌∷◌, ◌++◌, true, false, Option, Some, None, Ok, Err, IfOk, IfErr, IfSome, OnOk, OnErr};
    ghost use Rattle.std.specs.Bool.{MatchBool};
    ghost use Rattle.nx_host.specs.Disk.{Rose};
    ghost use Rattle.nx_host.specs.Input.{most_input};
    ghost use Rattle.nx_host.specs.Phase.{TakesAlone};
    ghost use Rattle.nx_script.specs.declared.command.Command.{Command};
    ghost use Rattle.nx_script.specs.declared.error.ScriptError.TheVariants.{Read, TooMuch, Memory};
    ghost use Rattle.nx_script.specs.Commands.{AreWhole, AreCommands};
    ghost use Rattle.nx_script.specs.Script.{HasGiven, HasGivenIn, IsDrained, GivesNext, Stops, work_left};
    ghost use Rattle.nx_script.specs.declared.whole.Line.{Line};
    ghost use Rattle.nx_script.specs.Whole.{AreLines, AreEnded, HasCut, HasCutIn, CutsNext, StopsCutting};

    /// A script that is about to come.
    ///
    /// Errors: `Memory`.
    pub fn new(alloc: Global) -> Result<Script, ScriptError>
        ensures ok { IfOk result (λ script. (input : Option (List ℕ)) → HasGivenIn script [] [] input input) }
        ensures lines { IfOk result (λ script. (input : Option (List ℕ)) → HasCutIn script [] [] input input) }
        ensures err { IfErr result (λ error. error ≡ Memory) }
    {
        Ok(Script {
            parser: Parser::new(alloc),
            input: Input::new(alloc)?,
            start: 0,
            ended: false,
            finished: false,
        })
    }

    /// The next command. `None` says that the input has ended and no command is left.
    ///
    /// Errors: `Read`, only where the input's count of faults rose; `TooMuch` where 4,294,967,296
    /// bytes were taken; `Memory`. With the first two all commands were given whose last line's LF
    /// was taken. With any of them no more was taken than 4,294,967,296 bytes.
    pub fn next<H: Host>(&mut self, host: &mut H) -> Result<Option<Command>, ScriptError>
        ensures given { IfOk result (λ next. (first : Option (List ℕ)) (taken : List ℕ) (commands : List Command) →
            HasGivenIn self.old taken commands first (H.beside host.old).input → GivesNext next self.new taken commands first (H.beside host.new).input) }
        ensures err { IfErr result (λ error. (first : Option (List ℕ)) (taken : List ℕ) (commands : List Command) →
            HasGivenIn self.old taken commands first (H.beside host.old).input → Stops error self.new taken commands first (H.beside host.new).input) }
        ensures cause { result ≡ Err Read → Rose (H.beside host.old).in_faults (H.beside host.new).in_faults }
        ensures alone { TakesAlone ⟦<H as Disk>⟧ host.old host.new }
    {
        loop {
            if let Some(command) = self.ready()? {
                return Ok(Some(command));
            }
            if self.ended {
                return Ok(None);
            }
            self.fill(host)?;
        }
    }

    /// The next command, if the bytes that were taken so far hold all its lines, or the input has
    /// ended. It takes no further input.
    ///
    /// Errors: `Memory`.
    pub fn ready(&mut self) -> Result<Option<Command>, ScriptError>
        ensures given { IfOk result (λ next. IfSome next (λ command. (taken : List ℕ) (commands : List Command) →
            HasGiven self.old taken commands → HasGiven self.new taken (commands ++ command ∷ []))) }
        ensures none { result ≡ Ok None → (taken : List ℕ) (commands : List Command) → HasGiven self.old taken commands →
            HasGiven self.new taken commands × MatchBool self.new.ended (AreCommands taken commands) (AreWhole taken commands) }
        ensures drained { result ≡ Ok None → IsDrained self.new }
        ensures finished { result ≡ Ok None → self.new.ended ≡ true → self.new.finished ≡ true }
        ensures less { IfOk result (λ next. IfSome next (λ _. work_left self.new < work_left self.old)) }
        ensures err { IfErr result (λ error. error ≡ Memory) }
        ensures taken { self.new.input.taken ≡ self.old.input.taken }
        ensures ended { self.new.ended ≡ self.old.ended }
    {
        while self.start < self.input.block().len() {
            let (len, command) = self.parser.take(&self.input.block()[self.start..])?;
            self.start += len;
            if command.is_some() {
                return Ok(command);
            }
        }
        if self.ended && !self.finished {
            self.finished = true;
            return Ok(self.parser.finish()?);
        }
        Ok(None)
    }

    /// Takes the next bytes of the input, or learns that it has ended.
    ///
    /// Errors: `Read`, only where the input's count of faults rose; `TooMuch` where 4,294,967,296
    /// bytes were taken.
    pub fn fill<H: Host>(&mut self, host: &mut H) -> Result<(), ScriptError>
        requires drained { IsDrained self.old }
        requires unended { self.old.ended ≡ false }
        ensures ok { OnOk result ((first : Option (List ℕ)) (taken : List ℕ) (commands : List Command) → HasGivenIn self.old taken commands first (H.beside host.old).input →
            (more : List ℕ) × HasGivenIn self.new (taken ++ more) commands first (H.beside host.new).input) }
        ensures lines { OnOk result ((first : Option (List ℕ)) (taken : List ℕ) (lines : List Line) → HasCutIn self.old taken lines first (H.beside host.old).input →
            (more : List ℕ) × HasCutIn self.new (taken ++ more) lines first (H.beside host.new).input) }
        ensures more { OnOk result ((self.old.input.taken < self.new.input.taken) ⊎ (self.new.ended ≡ true)) }
        ensures taken { self.old.input.taken ≤ self.new.input.taken }
        ensures err { OnErr result ((first : Option (List ℕ)) (taken : List ℕ) (commands : List Command) → HasGivenIn self.old taken commands first (H.beside host.old).input →
            HasGivenIn self.new taken commands first (H.beside host.new).input) }
        ensures lines_err { OnErr result ((first : Option (List ℕ)) (taken : List ℕ) (lines : List Line) → HasCutIn self.old taken lines first (H.beside host.old).input →
            HasCutIn self.new taken lines first (H.beside host.new).input) }
        ensures too_much { (result ≡ Err TooMuch) ↔ (self.old.input.taken ≡ most_input) }
        ensures errors { IfErr result (λ error. (error ≡ Read) ⊎ (error ≡ TooMuch)) }
        ensures cause { result ≡ Err Read → Rose (H.beside host.old).in_faults (H.beside host.new).in_faults }
        ensures alone { TakesAlone ⟦<H as Disk>⟧ host.old host.new }
    {
        self.start = 0;
        let count = self.input.fill(host)?;
        self.ended = count == 0;
        Ok(())
    }

    /// The next line, whatever it says. `None` says that the input has ended and no line is left. A script
    /// gives commands or lines, and not both.
    ///
    /// Errors: as those of `next`. With `Read` and `TooMuch` all lines were given whose LF was taken.
    pub fn next_line<H: Host>(&mut self, host: &mut H) -> Result<Option<Line>, ScriptError>
        ensures given { IfOk result (λ next. (first : Option (List ℕ)) (taken : List ℕ) (lines : List Line) →
            HasCutIn self.old taken lines first (H.beside host.old).input → CutsNext next self.new taken lines first (H.beside host.new).input) }
        ensures err { IfErr result (λ error. (first : Option (List ℕ)) (taken : List ℕ) (lines : List Line) →
            HasCutIn self.old taken lines first (H.beside host.old).input → StopsCutting error self.new taken lines first (H.beside host.new).input) }
        ensures cause { result ≡ Err Read → Rose (H.beside host.old).in_faults (H.beside host.new).in_faults }
        ensures alone { TakesAlone ⟦<H as Disk>⟧ host.old host.new }
    {
        loop {
            let line = self.ready_line()?;
            if line.is_some() || self.ended {
                return Ok(line);
            }
            self.fill(host)?;
        }
    }

    // The next line, if the bytes that were taken so far hold it whole, or the input has ended.
    fn ready_line(&mut self) -> Result<Option<Line>, ScriptError>
        ensures given { IfOk result (λ next. IfSome next (λ line. (taken : List ℕ) (lines : List Line) →
            HasCut self.old taken lines → HasCut self.new taken (lines ++ line ∷ []))) }
        ensures none { result ≡ Ok None → (taken : List ℕ) (lines : List Line) → HasCut self.old taken lines →
            HasCut self.new taken lines × MatchBool self.new.ended (AreLines taken lines) (AreEnded taken lines) }
        ensures drained { result ≡ Ok None → IsDrained self.new }
        ensures err { IfErr result (λ error. error ≡ Memory) }
        ensures taken { self.new.input.taken ≡ self.old.input.taken }
        ensures ended { self.new.ended ≡ self.old.ended }
    {
        while self.start < self.input.block().len() {
            let (len, line) = self.parser.take_whole(&self.input.block()[self.start..])?;
            self.start += len;
            if line.is_some() {
                return Ok(line);
            }
        }
        if self.ended && !self.finished {
            self.finished = true;
            return Ok(self.parser.last_whole()?);
        }
        Ok(None)
    }

    /// Whether the input has ended.
    pub fn is_ended(&self) -> bool
        ensures { result ≡ self.now.ended }
    {
        self.ended
    }

    /// How many bytes of the input were taken.
    pub fn taken(&self) -> u64
        ensures { result ≡ self.now.input.taken }
    {
        self.input.taken()
    }
}
