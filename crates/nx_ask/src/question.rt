// Which commands are questions.
ghost use Rattle.std.specs.Prelude.{◌≡◌, true, false, IfOk, IfSome, IfNone};
ghost use Rattle.nx_ask.specs.Asked.{is_question};

use nx_lists::NoMemory;
use nx_script::Command;
use nx_tree::{Bytes, Path};
use std::alloc::Global;

/// The question as a command of its own; none exactly where the command is no question.
///
/// Errors: `NoMemory`.
pub fn copy_question(alloc: Global, question: &Command) -> Result<Option<Command>, NoMemory>
    ensures some { IfOk result (λ copy. IfSome copy (λ command. (command ≡ question.now) × (is_question question.now ≡ true))) }
    ensures none { IfOk result (λ copy. IfNone copy (is_question question.now ≡ false)) }
{
    match question {
        Command::Names => Ok(Some(Command::Names)),
        Command::Rules => Ok(Some(Command::Rules)),
        Command::Bad => Ok(Some(Command::Bad)),
        Command::Export { name } => {
            let name = Bytes::from_slice(alloc, name.as_slice())?;
            Ok(Some(Command::Export { name }))
        }
        Command::Layout { name } => {
            let name = Bytes::from_slice(alloc, name.as_slice())?;
            Ok(Some(Command::Layout { name }))
        }
        Command::Get { name, path } => {
            let name = Bytes::from_slice(alloc, name.as_slice())?;
            let path = Path::from_slice(alloc, path.as_slice())?;
            Ok(Some(Command::Get { name, path }))
        }
        Command::Load { .. }
        | Command::Discard { .. }
        | Command::Rename { .. }
        | Command::Insert { .. }
        | Command::Delete { .. }
        | Command::Retext { .. }
        | Command::SetRule { .. }
        | Command::Checkpoint
        | Command::Begin { .. }
        | Command::Commit => Ok(None),
    }
}
