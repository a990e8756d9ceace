// Why a walk gave up, as the refusal of a call that looks for nodes.
ghost use Rattle.nx_find.specs.Over.{StopsWalking, IsHandedOn};

use crate::FindError;
use nx_nav::NavError;

pub fn handed_on(error: NavError) -> FindError
    requires { StopsWalking error }
    ensures { IsHandedOn error result }
{
    match error {
        NavError::Disk => FindError::Disk,
        NavError::Damaged { page } => FindError::Damaged { page },
        NavError::Ended => FindError::Ended,
        NavError::Memory => FindError::Memory,
        NavError::NoNode | NavError::Write => unreachable!(),
    }
}
