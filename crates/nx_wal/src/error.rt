// Why a call of a log refused.
use thiserror::Error;

/// Why a call of a log refused. Each call says which of these it answers, and when.
#[derive(Clone, Copy, Debug, PartialEq, Eq, Error)]
pub enum WalError {
    /// A call of the disk failed. Its `faults` rose in this call.
    #[error("a call of the disk failed")]
    Disk,
    /// The disk has pages already.
    #[error("there are pages already")]
    Exists,
    /// Page 0 is missing, or doesn't begin with the eight bytes `NATIXST1`.
    #[error("the disk has no store")]
    NotAStore,
    /// An earlier call answered `Disk`.
    #[error("an earlier call failed")]
    Ended,
    /// There was no memory for what the call had to keep.
    #[error("out of memory")]
    Memory,
}
