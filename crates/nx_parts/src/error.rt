// Why a list of intervals is no feasible partitioning.
ghost use Rattle.std.specs.Prelude.{◌≡◌};
ghost use Rattle.nx_parts.specs.declared.error.PartsError.TheVariants.{Memory};

use nx_tree::NoMemory;
use std::alloc::{AllocError, AllocFailed};
use thiserror::Error;

/// Why a list of intervals is no feasible partitioning of a tree. Each index is the least one for
/// which it can be said, counted from 0 in the order of the list.
#[derive(Clone, Copy, Debug, PartialEq, Eq, Error)]
pub enum PartsError {
    /// The parent or a member isn't there, or the first position is above the last.
    #[error("interval {index} is out of the tree")]
    OutOfTree {
        /// Which interval it is.
        index: u32,
    },
    /// The interval shares a member with an earlier one.
    #[error("interval {index} overlaps an earlier one")]
    Overlap {
        /// Which interval it is.
        index: u32,
    },
    /// No interval is the root's.
    #[error("no interval is the root's")]
    NoRoot,
    /// The interval's part weighs more than a part may.
    #[error("the part of interval {index} weighs {weight}")]
    Heavy {
        /// Which interval it is.
        index: u32,
        /// What its part weighs, in slots of 8 bytes.
        weight: u64,
    },
    /// There was no memory for what the call had to keep.
    #[error("out of memory")]
    Memory,
}

impl From<NoMemory> for PartsError {
    ghost from_gives = { λ _ e. e ≡ Memory };

    fn from(_: NoMemory) -> PartsError {
        PartsError::Memory
    }
}

impl From<AllocError> for PartsError {
    ghost from_gives = { λ _ e. e ≡ Memory };

    fn from(_: AllocError) -> PartsError {
        PartsError::Memory
    }
}

impl<T: Drop> From<AllocFailed<T>> for PartsError {
    ghost from_gives = { λ _ e. e ≡ Memory };

    fn from(_: AllocFailed<T>) -> PartsError {
        PartsError::Memory
    }
}
