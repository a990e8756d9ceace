// The requests of a script that comes from a host.
ghost use Rattle.std.specs.Prelude.{◌≡◌, ◌<◌, ◌≤◌};
ghost use Rattle.nx_script.specs.Requests.{closed};

use crate::{Command, Request, Script, ScriptError};
use nx_host::{Disk, Host};
use nx_lists::List;
use nx_tree::NoMemory;
use std::alloc::Global;

// A transaction whose `commit` hasn't come.
#[derive(Drop)]
pub struct Begun {
    // Whether nothing stood behind its `begin`.
    pub bare: bool,
    pub commands: List<Command>,
}

/// The requests of a script: its commands, those of a transaction as one.
///
/// After an error it is of no further use.
#[derive(Drop)]
pub struct Requests {
    alloc: Global,
    script: Script,
    begun: Option<Begun>,
}

impl Requests {
    ghost use Rattle.std.specs.Prelude.{◌⊎◌, ◌↔◌, ℕ, List, [], ◌∷◌, ◌++◌, true, false, Option, Some, None, Ok, Err, IfOk, IfErr, IfSome, OnOk, OnErr};
    ghost use Rattle.std.specs.Prelude.{if◌then◌else◌};
    ghost use Rattle.std.specs.Option.{option_map};
    ghost use Rattle.std.specs.Bool.{MatchBool};
    ghost use Rattle.nx_host.specs.Disk.{Rose};
    ghost use Rattle.nx_host.specs.Input.{most_input};
    ghost use Rattle.nx_host.specs.Phase.{TakesAlone};
    ghost use Rattle.nx_script.specs.declared.command.Command.{Command};
    ghost use Rattle.nx_script.specs.declared.request.Request.{Request};
    ghost use Rattle.nx_script.specs.declared.error.ScriptError.TheVariants.{Read, TooMuch, Memory};
    ghost use Rattle.nx_script.specs.Script.{IsDrained};
    ghost use Rattle.nx_script.specs.Requests.{AreRequests, AreWholeRequests, HasGrouped, HasGivenRequests, HasGivenRequestsIn, GivesNextRequest, StopsRequests, requests_left, with_request};

    /// The requests of a script that is about to come.
    ///
    /// Errors: `Memory`.
    pub fn new(alloc: Global) -> Result<Requests, ScriptError>
        ensures ok { IfOk result (λ requests. (input : Option (List ℕ)) → HasGivenRequestsIn requests [] [] input input) }
        ensures err { IfErr result (λ error. error ≡ Memory) }
    {
        Ok(Requests {
            alloc,
            script: Script::new(alloc)?,
            begun: None,
        })
    }

    /// The next request. `None` says that the input has ended and no request is left.
    ///
    /// Errors: `Read`, only where the input's count of faults rose; `TooMuch` where 4,294,967,296
    /// bytes were taken; `Memory`. With the first two all requests were given whose last line's LF
    /// was taken. With any of them no more was taken than 4,294,967,296 bytes.
    pub fn next<H: Host>(&mut self, host: &mut H) -> Result<Option<Request>, ScriptError>
        ensures given { IfOk result (λ next. (first : Option (List ℕ)) (taken : List ℕ) (given : List Request) →
            HasGivenRequestsIn self.old taken given first (H.beside host.old).input → GivesNextRequest next self.new taken given first (H.beside host.new).input) }
        ensures err { IfErr result (λ error. (first : Option (List ℕ)) (taken : List ℕ) (given : List Request) →
            HasGivenRequestsIn self.old taken given first (H.beside host.old).input → StopsRequests error self.new taken given first (H.beside host.new).input) }
        ensures cause { result ≡ Err Read → Rose (H.beside host.old).in_faults (H.beside host.new).in_faults }
        ensures alone { TakesAlone ⟦<H as Disk>⟧ host.old host.new }
    {
        loop {
            if let Some(request) = self.ready()? {
                return Ok(Some(request));
            }
            if self.is_ended() {
                return Ok(None);
            }
            self.fill(host)?;
        }
    }

    /// The next request, if the bytes that were taken so far hold all its lines, or the input has
    /// ended. It takes no further input.
    ///
    /// Errors: `Memory`.
    pub fn ready(&mut self) -> Result<Option<Request>, ScriptError>
        ensures given { IfOk result (λ next. IfSome next (λ request. (taken : List ℕ) (given : List Request) →
            HasGivenRequests self.old taken given → HasGivenRequests self.new taken (given ++ request ∷ []))) }
        ensures none { result ≡ Ok None → (taken : List ℕ) (given : List Request) → HasGivenRequests self.old taken given →
            HasGivenRequests self.new taken given × MatchBool (self.new.script).ended (AreRequests taken given) (AreWholeRequests taken given) }
        ensures drained { result ≡ Ok None → IsDrained self.new.script }
        ensures less { IfOk result (λ next. IfSome next (λ _. requests_left self.new < requests_left self.old)) }
        ensures err { IfErr result (λ error. error ≡ Memory) }
        ensures taken { ((self.new.script).input).taken ≡ ((self.old.script).input).taken }
        ensures ended { (self.new.script).ended ≡ (self.old.script).ended }
    {
        while let Some(command) = self.script.ready()? {
            let request = self.add(command)?;
            if request.is_some() {
                return Ok(request);
            }
        }
        Ok(self.last())
    }

    /// Takes the next bytes of the input, or learns that it has ended.
    ///
    /// Errors: `Read`, only where the input's count of faults rose; `TooMuch` where 4,294,967,296
    /// bytes were taken.
    pub fn fill<H: Host>(&mut self, host: &mut H) -> Result<(), ScriptError>
        requires drained { IsDrained self.old.script }
        requires unended { (self.old.script).ended ≡ false }
        ensures ok { OnOk result ((first : Option (List ℕ)) (taken : List ℕ) (given : List Request) → HasGivenRequestsIn self.old taken given first (H.beside host.old).input →
            (more : List ℕ) × HasGivenRequestsIn self.new (taken ++ more) given first (H.beside host.new).input) }
        ensures more { OnOk result ((((self.old.script).input).taken < ((self.new.script).input).taken) ⊎ ((self.new.script).ended ≡ true)) }
        ensures taken { ((self.old.script).input).taken ≤ ((self.new.script).input).taken }
        ensures err { OnErr result ((first : Option (List ℕ)) (taken : List ℕ) (given : List Request) → HasGivenRequestsIn self.old taken given first (H.beside host.old).input →
            HasGivenRequestsIn self.new taken given first (H.beside host.new).input) }
        ensures too_much { (result ≡ Err TooMuch) ↔ (((self.old.script).input).taken ≡ most_input) }
        ensures errors { IfErr result (λ error. (error ≡ Read) ⊎ (error ≡ TooMuch)) }
        ensures cause { result ≡ Err Read → Rose (H.beside host.old).in_faults (H.beside host.new).in_faults }
        ensures alone { TakesAlone ⟦<H as Disk>⟧ host.old host.new }
    {
        self.script.fill(host)
    }

    /// Whether the input has ended.
    pub fn is_ended(&self) -> bool
        ensures { result ≡ (self.now.script).ended }
    {
        self.script.is_ended()
    }

    /// How many bytes of the input were taken.
    pub fn taken(&self) -> u64
        ensures { result ≡ ((self.now.script).input).taken }
    {
        self.script.taken()
    }

    // Takes a command that came: the request that it ends, if it ends one.
    fn add(&mut self, command: Command) -> Result<Option<Request>, NoMemory>
        ensures grouped { IfOk result (λ next. (commands : List Command) (given : List Request) → HasGrouped self.old.begun commands given →
            HasGrouped self.new.begun (commands ++ command ∷ []) (with_request given next)) }
        ensures script { self.new.script ≡ self.old.script }
    {
        match self.begun.take() {
            None => Ok(self.begin(command)),
            Some(begun) => self.go_on(begun, command),
        }
    }

    // ... a command outside a transaction.
    fn begin(&mut self, command: Command) -> Option<Request>
        requires { self.old.begun ≡ None }
        ensures grouped { (commands : List Command) (given : List Request) → HasGrouped None commands given →
            HasGrouped self.new.begun (commands ++ command ∷ []) (with_request given result) }
        ensures script { self.new.script ≡ self.old.script }
    {
        match command {
            Command::Begin { bare } => {
                let commands = List::new(self.alloc);
                self.begun = Some(Begun { bare, commands });
                None
            }
            command => Some(Request::Single(command)),
        }
    }

    // ... one within it.
    fn go_on(&mut self, mut begun: Begun, command: Command) -> Result<Option<Request>, NoMemory>
        requires { self.old.begun ≡ None }
        ensures grouped { IfOk result (λ next. (commands : List Command) (given : List Request) → HasGrouped (Some begun) commands given →
            HasGrouped self.new.begun (commands ++ command ∷ []) (with_request given next)) }
        ensures script { self.new.script ≡ self.old.script }
    {
        match command {
            Command::Commit => Ok(Some(closed(begun))),
            command => {
                begun.commands.push(command)?;
                self.begun = Some(begun);
                Ok(None)
            }
        }
    }

    // The request of a transaction that the input's end cuts off, if there is one: it is no command.
    fn last(&mut self) -> Option<Request>
        ensures last { result ≡ (if (self.old.script).ended then option_map (λ _. Request.Single Command.Bad) self.old.begun else None) }
        ensures begun { self.new.begun ≡ (if (self.old.script).ended then None else self.old.begun) }
        ensures script { self.new.script ≡ self.old.script }
    {
        if !self.script.is_ended() {
            return None;
        }
        match self.begun.take() {
            Some(_) => Some(Request::Single(Command::Bad)),
            None => None,
        }
    }
}

// The request of a transaction whose `commit` has come.
fn closed(begun: Begun) -> Request
    ensures { result ≡ closed begun.bare begun.commands }
{
    let Begun { bare, commands } = begun;
    if bare {
        Request::Transaction(commands)
    } else {
        Request::Single(Command::Bad)
    }
}
