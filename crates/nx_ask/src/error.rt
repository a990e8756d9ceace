// Why questions aren't answered.
use nx_lists::NoMemory;
use thiserror::Error;

/// Why a snapshot wasn't taken, or questions weren't answered over one.
#[derive(Clone, Copy, Debug, PartialEq, Eq, Error)]
pub enum AskError {
    /// The disk has no store.
    #[error("not a store")]
    NotAStore,
    /// A call of the disk failed. Its `faults` rose in this call.
    #[error("disk fault")]
    Disk,
    /// The pages stand for no state.
    #[error("damaged page {page}")]
    Damaged {
        /// The page that shows it.
        page: u32,
    },
    /// There was no memory for what the call had to keep.
    #[error("out of memory")]
    Memory,
}

impl From<NoMemory> for AskError {
    ghost use Rattle.std.specs.Prelude.{◌≡◌};
    ghost use Rattle.nx_ask.specs.declared.error.AskError.TheVariants.{Memory};

    ghost from_gives = { λ _ error. error ≡ Memory };

    fn from(_: NoMemory) -> AskError {
        AskError::Memory
    }
}
