// Why a check ends.
ghost use Rattle.std.specs.Prelude.{◌≡◌};

use nx_lists::NoMemory;
use nx_rules::PageRule;
use thiserror::Error;

/// Why a store wasn't checked.
#[derive(Clone, Copy, Debug, PartialEq, Eq, Error)]
pub enum CheckError {
    /// Page 0 is missing, or doesn't begin with the eight bytes of a store.
    #[error("not a store")]
    NotAStore,
    /// A call of the disk failed. Its `faults` rose in this call.
    #[error("a call of the disk failed")]
    Disk,
    /// There was no memory for what the call had to keep.
    #[error("out of memory")]
    Memory,
}

// Why a walk over the pages stops: at a rule that they break, or since it can't go on.
#[derive(Clone, Copy, Debug, PartialEq, Eq)]
pub enum Stop {
    Broken { page: u32, rule: PageRule },
    Disk,
    Memory,
}

impl From<NoMemory> for Stop {
    ghost use Rattle.nx_check.specs.declared.error.Stop.TheVariants.{Memory};

    ghost from_gives = { λ _ e. e ≡ Memory };

    fn from(_: NoMemory) -> Stop {
        Stop::Memory
    }
}

// The rule is broken, and the page is to blame.
pub fn broken(page: u32, rule: PageRule) -> Stop
    ensures { result ≡ Stop.Broken page rule }
{
    Stop::Broken { page, rule }
}
