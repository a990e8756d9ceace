// Why a command ended early.
ghost use Rattle.std.specs.Prelude.{◌≡◌};
ghost use Rattle.nx_wal_driver.specs.Fault.{told_fault};
ghost use Rattle.nx_wal_driver.specs.declared.faults.Fault.TheVariants.{Memory};

use nx_lists::NoMemory;
use nx_wal::WalError;
use std::alloc::AllocError;

// Why a command ended early.
#[derive(Clone, Copy, Debug, PartialEq, Eq, Drop)]
pub enum Fault {
    // The words are no command.
    Usage,
    // A group is to have more pages than the store has.
    TooFewPages,
    // There are pages already.
    Exists,
    // A call of the disk failed.
    Disk,
    // Standard output failed.
    Write,
    Memory,
    // There is no store, or none that this program made.
    NotAStore,
}

impl From<WalError> for Fault {
    ghost from_gives = { λ error fault. fault ≡ told_fault error };

    fn from(error: WalError) -> Fault {
        match error {
            WalError::Disk | WalError::Ended => Fault::Disk,
            WalError::Exists => Fault::Exists,
            WalError::NotAStore => Fault::NotAStore,
            WalError::Memory => Fault::Memory,
        }
    }
}

impl From<NoMemory> for Fault {
    ghost from_gives = { λ _ fault. fault ≡ Memory };

    fn from(_: NoMemory) -> Fault {
        Fault::Memory
    }
}

impl From<AllocError> for Fault {
    ghost from_gives = { λ _ fault. fault ≡ Memory };

    fn from(_: AllocError) -> Fault {
        Fault::Memory
    }
}
