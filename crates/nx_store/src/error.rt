// Why a call of a store gives up.
ghost use Rattle.std.specs.Prelude.{◌≡◌, Some, IsSome};
ghost use Rattle.nx_store.specs.declared.error.EngineError.TheVariants.{Memory};
ghost use Rattle.nx_store.specs.Told.{told_error, told_by, is_no_node, told_removal};

use nx_edit::EditError;
use nx_nav::NavError;
use nx_records::StoreError;
use nx_tree::NoMemory;
use thiserror::Error;

/// Why a call of a store gives up.
#[derive(Clone, Copy, Debug, PartialEq, Eq, Error)]
pub enum EngineError {
    /// The disk has pages, so no store was made.
    #[error("there is a store already")]
    Exists,
    /// The disk has no store.
    #[error("not a store")]
    NotAStore,
    /// A call of the disk failed.
    #[error("disk fault")]
    Disk,
    /// The output failed.
    #[error("write fault")]
    Write,
    /// The pages stand for no state.
    #[error("damaged page {page}")]
    Damaged {
        /// The page that shows it.
        page: u32,
    },
    /// An earlier call answered `Disk` or `Damaged`.
    #[error("the store has ended")]
    Ended,
    /// There was no memory for what the call had to keep.
    #[error("out of memory")]
    Memory,
}

impl From<NoMemory> for EngineError {
    ghost from_gives = { λ _ error. error ≡ Memory };

    fn from(_: NoMemory) -> EngineError {
        EngineError::Memory
    }
}

// Why a call gives up whose call of records gave up so. That no page is free is a reply, or doesn't come.
pub(crate) fn told_error(error: StoreError) -> EngineError
    requires { IsSome (told_error error) }
    ensures { told_error error ≡ Some result }
{
    match error {
        StoreError::Disk => EngineError::Disk,
        StoreError::Exists => EngineError::Exists,
        StoreError::NotAStore => EngineError::NotAStore,
        StoreError::Damaged { page } => EngineError::Damaged { page },
        StoreError::Ended => EngineError::Ended,
        StoreError::Memory => EngineError::Memory,
        StoreError::Full => unreachable!(),
    }
}

// ... and whose look at a document gave up so. That no node is there is a reply.
pub(crate) fn told_by(error: NavError) -> EngineError
    requires { IsSome (told_by error) }
    ensures { told_by error ≡ Some result }
{
    match error {
        NavError::Disk => EngineError::Disk,
        NavError::Write => EngineError::Write,
        NavError::Damaged { page } => EngineError::Damaged { page },
        NavError::Ended => EngineError::Ended,
        NavError::Memory => EngineError::Memory,
        NavError::NoNode => unreachable!(),
    }
}

// The path leads nowhere.
pub(crate) fn is_no_node(error: NavError) -> bool
    ensures { result ≡ is_no_node error }
{
    matches!(error, NavError::NoNode)
}

// Why a call gives up whose call that takes a document away gave up so.
pub(crate) fn told_removal(error: EditError) -> EngineError
    requires { IsSome (told_removal error) }
    ensures { told_removal error ≡ Some result }
{
    match error {
        EditError::Disk => EngineError::Disk,
        EditError::Damaged { page } => EngineError::Damaged { page },
        EditError::Ended => EngineError::Ended,
        EditError::Memory => EngineError::Memory,
        EditError::NoNode
        | EditError::BadPlace
        | EditError::Twice
        | EditError::NoContent
        | EditError::TooLong
        | EditError::TooDeep
        | EditError::TooMany
        | EditError::TooHeavy { .. }
        | EditError::Full => unreachable!(),
    }
}
