// Where shipping begins, and why it or the applying of a stream refused.
ghost use Rattle.std.specs.Prelude.{◌≡◌};
ghost use Rattle.nx_ship.specs.Faults.{error_of_log};

use nx_host::{Failed, InputError};
use nx_lists::NoMemory;
use nx_wal::WalError;
use std::alloc::AllocError;
use thiserror::Error;

/// Where shipping begins.
#[derive(Clone, Copy, Debug, PartialEq, Eq)]
pub enum Start {
    /// All pages of the store, as one group.
    All,
    /// The first group of the log with this number.
    Number(u64),
}

/// Why shipping, or the applying of a stream, refused. Each of the two calls says which of these it answers, and when.
#[derive(Clone, Copy, Debug, PartialEq, Eq, Error)]
pub enum ShipError {
    /// No group of the log has the number, and it isn't the next one.
    #[error("no group has the number {from}, the last one is {last}")]
    NoGroup { from: u64, last: u64 },
    /// A good group isn't the next one, and its number is at most that of the last one.
    #[error("the group {number} comes again, the last one is {last}")]
    Repeat { number: u64, last: u64 },
    /// A good group isn't the next one, and its number is above that of the last one.
    #[error("the group {number} comes too early, the last one is {last}")]
    Gap { number: u64, last: u64 },
    /// There is no store, and a good first group doesn't hold all pages of one.
    #[error("the first group, {number}, isn't a whole store")]
    Base { number: u64 },
    /// Bytes are left from the offset on, and no good group stands there.
    #[error("there is no group at {offset}")]
    Stream { offset: u64 },
    /// The disk has no store.
    #[error("the disk has no store")]
    NotAStore,
    /// The page makes that the store stands for no state.
    #[error("page {page} is damaged")]
    Damaged { page: u32 },
    /// A call of the disk failed. Its `faults` rose in this call.
    #[error("a call of the disk failed")]
    Disk,
    /// Reading the input failed. Its count of faults rose in this call.
    #[error("reading the input failed")]
    Read,
    /// Writing the output failed. Its count of faults rose in this call.
    #[error("writing the output failed")]
    Write,
    /// As many bytes of input were taken as may be.
    #[error("too much input")]
    TooMuch,
    /// There was no memory.
    #[error("out of memory")]
    Memory,
}

impl From<AllocError> for ShipError {
    ghost use Rattle.nx_ship.specs.declared.error.ShipError.TheVariants.{Memory};

    ghost from_gives = { λ _ error. error ≡ Memory };

    fn from(_: AllocError) -> ShipError {
        ShipError::Memory
    }
}

impl From<NoMemory> for ShipError {
    ghost use Rattle.nx_ship.specs.declared.error.ShipError.TheVariants.{Memory};

    ghost from_gives = { λ _ error. error ≡ Memory };

    fn from(_: NoMemory) -> ShipError {
        ShipError::Memory
    }
}

impl From<InputError> for ShipError {
    ghost use Rattle.nx_ship.specs.Faults.{error_of_input};

    ghost from_gives = { λ input error. error ≡ error_of_input input };

    fn from(error: InputError) -> ShipError {
        match error {
            InputError::Read => ShipError::Read,
            InputError::TooMuch => ShipError::TooMuch,
        }
    }
}

impl From<Failed> for ShipError {
    ghost use Rattle.nx_ship.specs.declared.error.ShipError.TheVariants.{Write};

    ghost from_gives = { λ _ error. error ≡ Write };

    // A call for output is the one call of a host that is made here by itself.
    fn from(_: Failed) -> ShipError {
        ShipError::Write
    }
}

// Why a call of the log refused, in a call that knows of no other reason.
pub(crate) fn error_of(error: WalError) -> ShipError
    ensures { result ≡ error_of_log error }
{
    match error {
        WalError::Disk => ShipError::Disk,
        _ => ShipError::Memory,
    }
}
