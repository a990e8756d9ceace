// Why a matrix can't be changed or listed.
ghost use Rattle.std.specs.Prelude.{◌≡◌};
ghost use Rattle.nx_matrix.specs.declared.error.MatrixError.TheVariants.{Memory};

use nx_lists::NoMemory;
use std::alloc::AllocFailed;
use thiserror::Error;

/// Why a matrix isn't changed or its rules aren't listed.
#[derive(Clone, Copy, Debug, PartialEq, Eq, Error)]
pub enum MatrixError {
    /// A rule for one more pair of labels would be one too many.
    #[error("too many rules")]
    TooManyRules,
    /// There was no memory for what the call had to keep.
    #[error("out of memory")]
    Memory,
}

impl From<NoMemory> for MatrixError {
    ghost from_gives = { λ _ e. e ≡ Memory };

    fn from(_: NoMemory) -> MatrixError {
        MatrixError::Memory
    }
}

impl<T: Drop> From<AllocFailed<T>> for MatrixError {
    ghost from_gives = { λ _ e. e ≡ Memory };

    fn from(_: AllocFailed<T>) -> MatrixError {
        MatrixError::Memory
    }
}
