// Why a document wasn't told of.
ghost use Rattle.std.specs.Prelude.{◌≡◌};
ghost use Rattle.nx_nav.specs.declared.error.NavError.TheVariants.{Memory};

use nx_tree::NoMemory;
use thiserror::Error;

/// Why a call that looks at a document gave up. Each call says which of these it answers, and when.
#[derive(Clone, Copy, Debug, PartialEq, Eq, Error)]
pub enum NavError {
    /// The path leads nowhere.
    #[error("no node")]
    NoNode,
    /// A call of the disk failed. Its `faults` rose in this call.
    #[error("a call of the disk failed")]
    Disk,
    /// The output wasn't written. Its count of faults rose in this call.
    #[error("writing the output failed")]
    Write,
    /// The records don't hold a document from that place on, or one of another size.
    #[error("page {page} is damaged")]
    Damaged {
        /// The page of the record at which the walk stopped, or the first page of the list of a content.
        page: u32,
    },
    /// An earlier call on the records answered `Disk` or `Damaged`, or they were ended.
    #[error("an earlier call failed")]
    Ended,
    /// There was no memory for what the call had to keep.
    #[error("out of memory")]
    Memory,
}

impl From<NoMemory> for NavError {
    ghost from_gives = { λ _ e. e ≡ Memory };

    fn from(_: NoMemory) -> NavError {
        NavError::Memory
    }
}
