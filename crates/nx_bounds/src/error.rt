// Why a plan isn't certified.
ghost use Rattle.std.specs.Prelude.{◌≡◌};
ghost use Rattle.nx_bounds.specs.declared.error.BoundsError.TheVariants.{Parts, Memory};
ghost use Rattle.nx_bounds.specs.Refusal.{error_of_parts};

use nx_choices::Field;
use nx_parts::PartsError;
use nx_tree::NoMemory;
use std::alloc::AllocFailed;
use thiserror::Error;

/// Why a plan isn't certified, or a text is no plan. Each index, node and line is the first one for
/// which it can be said.
#[derive(Clone, Copy, Debug, PartialEq, Eq, Error)]
pub enum BoundsError {
    /// The intervals are no feasible partitioning.
    #[error("{0}")]
    Parts(PartsError),
    /// The weight of a part isn't the one that is claimed.
    #[error("part {index} weighs {found}, and not {claimed}")]
    WrongWeight {
        /// Which interval it is, counted from 0.
        index: u32,
        /// The weight that is claimed, or 0 where none is.
        claimed: u64,
        /// What the part weighs.
        found: u64,
    },
    /// There isn't one bound for each node.
    #[error("{bounds} bounds for {nodes} nodes")]
    Length {
        /// How many bounds there are.
        bounds: u32,
        /// How many nodes there are.
        nodes: u32,
    },
    /// A claim is more than what a choice over the claims of the node's children gives.
    #[error("the bound of node {node} isn't supported")]
    Unsupported {
        /// Which node it is in document order, counted from 0.
        node: u32,
        /// Which of its numbers.
        field: Field,
        /// The number that is claimed.
        claimed: u32,
        /// The least number that a choice gives.
        found: u32,
    },
    /// There are more intervals than the bound of the root says.
    #[error("{intervals} intervals where {bound} may do")]
    Count {
        /// How many intervals there are.
        intervals: u32,
        /// The least number that is claimed of the root.
        bound: u32,
    },
    /// A line of the text is no line of a plan, or stands out of order.
    #[error("line {line} is no line of a plan")]
    BadPlanLine {
        /// Which line it is, counted from 1.
        line: u64,
    },
    /// There was no memory for what the call had to keep.
    #[error("out of memory")]
    Memory,
}

impl From<PartsError> for BoundsError {
    ghost from_gives = { λ error e. e ≡ error_of_parts error };

    fn from(error: PartsError) -> BoundsError {
        match error {
            PartsError::Memory => BoundsError::Memory,
            error => BoundsError::Parts(error),
        }
    }
}

impl From<NoMemory> for BoundsError {
    ghost from_gives = { λ _ e. e ≡ Memory };

    fn from(_: NoMemory) -> BoundsError {
        BoundsError::Memory
    }
}

impl<T: Drop> From<AllocFailed<T>> for BoundsError {
    ghost from_gives = { λ _ e. e ≡ Memory };

    fn from(_: AllocFailed<T>) -> BoundsError {
        BoundsError::Memory
    }
}
