// The refusals of the calls on trees.
ghost use Rattle.std.specs.Prelude.{◌≡◌};
ghost use Rattle.nx_tree.specs.declared.error.TreeError.TheVariants.{Memory};

use crate::NoMemory;
use std::alloc::AllocFailed;
use thiserror::Error;

/// Why a tree wasn't edited, or a node not found.
#[derive(Clone, Copy, Debug, PartialEq, Eq, Error)]
pub enum TreeError {
    /// The path leads nowhere.
    #[error("no node")]
    NoNode,
    /// The node may not stand there, or may not be taken away.
    #[error("bad place")]
    BadPlace,
    /// The element has an attribute of that name.
    #[error("twice")]
    Twice,
    /// The node is one without a content.
    #[error("no content")]
    NoContent,
    /// The node would lie too deep.
    #[error("too deep")]
    TooDeep,
    /// The node would be one too many.
    #[error("too many")]
    TooMany,
    /// There was no memory for what the call had to keep.
    #[error("out of memory")]
    Memory,
}

impl From<NoMemory> for TreeError {
    ghost from_gives = { λ _ e. e ≡ Memory };

    fn from(_: NoMemory) -> TreeError {
        TreeError::Memory
    }
}

impl<T: Drop> From<AllocFailed<T>> for TreeError {
    ghost from_gives = { λ _ e. e ≡ Memory };

    fn from(_: AllocFailed<T>) -> TreeError {
        TreeError::Memory
    }
}
