// How a run ends.
ghost use Rattle.std.specs.Prelude.{◌≡◌};
ghost use Rattle.nx_filters.specs.declared.status.Status.TheVariants.{NoMemory};
ghost use Rattle.nx_filters.specs.TakeError.{status_of_script, status_of_give_error};

use crate::give::GiveError;
use nx_script::ScriptError;

/// The status that a run ends with.
#[derive(Clone, Copy, Debug, PartialEq, Eq)]
pub enum Status {
    /// The command was carried out: the input was read to its end, if it takes any, and the output is
    /// whole.
    Done,
    /// The words are no command line. The host wasn't touched.
    Usage,
    /// The input was refused, or for `init` the disk had pages, or for `gen` its document was there. The output is one line,
    /// which says why.
    Refused,
    /// A call of the disk failed.
    DiskFault,
    /// Reading the input failed.
    ReadFault,
    /// Writing the output failed.
    WriteFault,
    /// There was no memory for what the run had to keep.
    NoMemory,
    /// The disk has no store: its page 0 is missing, or doesn't begin with the eight bytes `NATIXST1`.
    NotAStore,
    /// The pages of the disk stand for no state.
    Damaged {
        /// The page at which that was found.
        page: u32,
    },
    /// As many bytes of input were taken as a run takes at most, and it ended there.
    TooMuch,
}

impl From<nx_tree::NoMemory> for Status {
    ghost from_gives = { λ _ status. status ≡ NoMemory };

    fn from(_: nx_tree::NoMemory) -> Status {
        Status::NoMemory
    }
}

impl From<ScriptError> for Status {
    ghost from_gives = { λ error status. status ≡ status_of_script error };

    fn from(error: ScriptError) -> Status {
        match error {
            ScriptError::Read => Status::ReadFault,
            ScriptError::TooMuch => Status::TooMuch,
            ScriptError::Memory => Status::NoMemory,
        }
    }
}

impl From<GiveError> for Status {
    ghost from_gives = { λ error status. status ≡ status_of_give_error error };

    fn from(error: GiveError) -> Status {
        match error {
            GiveError::WriteFault => Status::WriteFault,
            GiveError::NoMemory => Status::NoMemory,
        }
    }
}
