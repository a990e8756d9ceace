// Which commands may change what is stored.
ghost use Rattle.std.specs.Prelude.{◌≡◌};
ghost use Rattle.nx_steps.specs.Step.{may_change};
ghost use Rattle.nx_steps.specs.Requests.{may_change_request};

use nx_script::{Command, Request};

/// Whether the command may change what is stored. Any other leaves the state, whatever it is answered.
pub fn may_change(command: &Command) -> bool
    ensures answer { result ≡ may_change command.now }
{
    match command {
        Command::Load { .. }
        | Command::Discard { .. }
        | Command::Rename { .. }
        | Command::Insert { .. }
        | Command::Delete { .. }
        | Command::Retext { .. }
        | Command::SetRule { .. } => true,
        Command::Names
        | Command::Export { .. }
        | Command::Get { .. }
        | Command::Layout { .. }
        | Command::Rules
        | Command::Checkpoint
        | Command::Begin { .. }
        | Command::Commit
        | Command::Bad => false,
    }
}

/// Whether the request may change what is stored. Any other leaves the state, whatever it is answered.
pub fn may_change_request(request: &Request) -> bool
    ensures answer { result ≡ may_change_request request.now }
{
    match request {
        Request::Single(command) => may_change(command),
        Request::Transaction(commands) => !commands.is_empty(),
    }
}
