// Why nodes by name weren't found.
ghost use Rattle.std.specs.Prelude.{◌≡◌};
ghost use Rattle.nx_find.specs.declared.error.FindError.TheVariants.{Memory};

use nx_tree::NoMemory;
use thiserror::Error;

/// Why a call that looks for nodes by name gave up.
#[derive(Clone, Copy, Debug, PartialEq, Eq, Error)]
pub enum FindError {
    /// A call of the disk failed. Its `faults` rose in this call.
    #[error("a call of the disk failed")]
    Disk,
    /// The records don't hold a document from that place on, or not the one that was spoken of.
    #[error("page {page} is damaged")]
    Damaged {
        /// The page of the record at which the walk stopped.
        page: u32,
    },
    /// An earlier call on the records answered `Disk` or `Damaged`, or they were ended.
    #[error("an earlier call failed")]
    Ended,
    /// There was no memory for what the call had to keep.
    #[error("out of memory")]
    Memory,
}

impl From<NoMemory> for FindError {
    ghost from_gives = { λ _ e. e ≡ Memory };

    fn from(_: NoMemory) -> FindError {
        FindError::Memory
    }
}
