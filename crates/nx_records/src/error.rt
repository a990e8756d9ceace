// Why a call of records refused.
use thiserror::Error;

/// Why a call of records refused. Each call says which of these it answers, and when.
#[derive(Clone, Copy, Debug, PartialEq, Eq, Error)]
pub enum StoreError {
    /// A call of the disk failed. Its `faults` rose in this call.
    #[error("a call of the disk failed")]
    Disk,
    /// The disk has pages already.
    #[error("there are pages already")]
    Exists,
    /// Page 0 is missing, or doesn't begin with the eight bytes `NATIXST1`.
    #[error("the disk has no store")]
    NotAStore,
    /// No page is free.
    #[error("no page is free")]
    Full,
    /// The pages aren't sound, or lack what the call names.
    #[error("page {page} is damaged")]
    Damaged {
        /// The page that the call names, 0 where it names none.
        page: u32,
    },
    /// An earlier call answered `Disk` or `Damaged`, or the records were ended.
    #[error("an earlier call failed")]
    Ended,
    /// There was no memory for what the call had to keep.
    #[error("out of memory")]
    Memory,
}
