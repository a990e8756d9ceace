// Why an input gave no answer.
ghost use Rattle.std.specs.Prelude.{◌≡◌};
ghost use Rattle.nx_filters.specs.TakeError.{take_error_of, take_error_of_plan, take_error_of_input, take_error_of_bounds};
ghost use Rattle.nx_filters.specs.declared.take_error.TakeError.TheVariants.{NoMemory};

use crate::refusal::Refusal;
use nx_bounds::BoundsError;
use nx_host::InputError;
use nx_partition::PlanError;
use nx_pyx::ReadError;
use std::alloc::AllocError;

// Why the input gave no answer.
#[derive(Drop)]
pub enum TakeError {
    Refused(Refusal),
    ReadFault,
    TooMuch,
    NoMemory,
}

impl From<ReadError> for TakeError {
    ghost from_gives = { λ error stop. stop ≡ take_error_of error };

    fn from(error: ReadError) -> TakeError {
        match error {
            ReadError::Pyx(error) => TakeError::Refused(Refusal::Pyx(error)),
            ReadError::Memory => TakeError::NoMemory,
        }
    }
}

impl From<PlanError> for TakeError {
    ghost from_gives = { λ error stop. stop ≡ take_error_of_plan error };

    fn from(error: PlanError) -> TakeError {
        match error {
            PlanError::TooHeavy { path, weight } => {
                TakeError::Refused(Refusal::TooHeavy { path, weight })
            }
            PlanError::Memory => TakeError::NoMemory,
        }
    }
}

impl From<BoundsError> for TakeError {
    ghost from_gives = { λ error stop. stop ≡ take_error_of_bounds error };

    fn from(error: BoundsError) -> TakeError {
        match error {
            BoundsError::Memory => TakeError::NoMemory,
            error => TakeError::Refused(Refusal::Bounds(error)),
        }
    }
}

impl From<nx_tree::NoMemory> for TakeError {
    ghost from_gives = { λ _ stop. stop ≡ NoMemory };

    fn from(_: nx_tree::NoMemory) -> TakeError {
        TakeError::NoMemory
    }
}

impl From<AllocError> for TakeError {
    ghost from_gives = { λ _ stop. stop ≡ NoMemory };

    fn from(_: AllocError) -> TakeError {
        TakeError::NoMemory
    }
}

impl From<InputError> for TakeError {
    ghost from_gives = { λ error stop. stop ≡ take_error_of_input error };

    fn from(error: InputError) -> TakeError {
        match error {
            InputError::Read => TakeError::ReadFault,
            InputError::TooMuch => TakeError::TooMuch,
        }
    }
}
