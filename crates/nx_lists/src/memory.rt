// Want of memory, the one error of a call that takes memory and can fail by nothing else.
use std::alloc::{AllocError, AllocFailed};
use thiserror::Error;

/// There was no memory for what the call had to keep.
#[derive(Clone, Copy, Debug, PartialEq, Eq, Error)]
#[error("out of memory")]
pub struct NoMemory;

impl From<AllocError> for NoMemory {
    fn from(_: AllocError) -> NoMemory {
        NoMemory
    }
}

impl<T: Drop> From<AllocFailed<T>> for NoMemory {
    fn from(_: AllocFailed<T>) -> NoMemory {
        NoMemory
    }
}
