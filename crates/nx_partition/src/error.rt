// Why there are no bounds of a tree.
ghost use Rattle.std.specs.Prelude.{◌≡◌};
ghost use Rattle.nx_partition.specs.declared.error.PlanError.TheVariants.{Memory};
ghost use Rattle.nx_partition.specs.declared.error.BoundError.TheVariants as bound;

use nx_lists::NoMemory;
use nx_tree::Path;
use std::alloc::{AllocError, AllocFailed};

/// Why a tree has no feasible partitioning, or none was found.
#[derive(Drop)]
pub enum PlanError {
    /// A node alone weighs more than a part may, the first one in document order.
    TooHeavy {
        /// The path of the node, from the root of the tree.
        path: Path,
        /// What it weighs, in slots of 8 bytes.
        weight: u32,
    },
    /// There was no memory for what the call had to keep.
    Memory,
}

impl From<NoMemory> for PlanError {
    ghost from_gives = { λ _ e. e ≡ Memory };

    fn from(_: NoMemory) -> PlanError {
        PlanError::Memory
    }
}

impl<T: Drop> From<AllocFailed<T>> for PlanError {
    ghost from_gives = { λ _ e. e ≡ Memory };

    fn from(_: AllocFailed<T>) -> PlanError {
        PlanError::Memory
    }
}

/// Why the minima of a tree's nodes weren't found. Which node is too heavy `nx_weights::first_heavy` tells.
#[derive(Clone, Copy, Debug, PartialEq, Eq)]
pub enum BoundError {
    /// A node alone weighs more than a part may.
    TooHeavy,
    /// There was no memory for what the call had to keep.
    Memory,
}

impl From<NoMemory> for BoundError {
    ghost from_gives = { λ _ e. e ≡ bound.Memory };

    fn from(_: NoMemory) -> BoundError {
        BoundError::Memory
    }
}

impl From<AllocError> for BoundError {
    ghost from_gives = { λ _ e. e ≡ bound.Memory };

    fn from(_: AllocError) -> BoundError {
        BoundError::Memory
    }
}

impl<T: Drop> From<AllocFailed<T>> for BoundError {
    ghost from_gives = { λ _ e. e ≡ bound.Memory };

    fn from(_: AllocFailed<T>) -> BoundError {
        BoundError::Memory
    }
}
