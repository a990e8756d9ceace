// Why a script gives no further command.
ghost use Rattle.std.specs.Prelude.{◌≡◌};
ghost use Rattle.nx_script.specs.Script.{error_of};
ghost use Rattle.nx_script.specs.declared.error.ScriptError.TheVariants.{Memory};

use nx_host::InputError;
use nx_tree::NoMemory;
use std::alloc::AllocError;
use thiserror::Error;

/// Why a script gives no further command.
#[derive(Clone, Copy, Debug, PartialEq, Eq, Error)]
pub enum ScriptError {
    /// Reading the input failed.
    #[error("reading the input failed")]
    Read,
    /// As many bytes of input were taken as a script may have.
    #[error("too much input")]
    TooMuch,
    /// There was no memory for what the call had to keep.
    #[error("out of memory")]
    Memory,
}

impl From<InputError> for ScriptError {
    ghost from_gives = { λ input error. error ≡ error_of input };

    fn from(error: InputError) -> ScriptError {
        match error {
            InputError::Read => ScriptError::Read,
            InputError::TooMuch => ScriptError::TooMuch,
        }
    }
}

impl From<NoMemory> for ScriptError {
    ghost from_gives = { λ _ e. e ≡ Memory };

    fn from(_: NoMemory) -> ScriptError {
        ScriptError::Memory
    }
}

impl From<AllocError> for ScriptError {
    ghost from_gives = { λ _ e. e ≡ Memory };

    fn from(_: AllocError) -> ScriptError {
        ScriptError::Memory
    }
}
