// Pages that no group of the log has.
ghost use Rattle.std.specs.Prelude.{ℕ, ◌<◌, IfSome, IfNone};
ghost use Rattle.nx_wal.specs.Lost.{IsPlaced, IsFirstUnplaced};

use crate::places::place_of;
use std::collections::BTreeMap;

// The first page below this number that the log doesn't have. It looks at no page behind that one.
pub(crate) fn first_unplaced(places: &BTreeMap<u32, Option<u64>>, below: u32) -> Option<u32>
    ensures some { IfSome result (λ page. IsFirstUnplaced places.now page below) }
    ensures none { IfNone result ((p : ℕ) → p < below → IsPlaced places.now p) }
{
    for page in 0..below {
        let Some(_at) = place_of(places, page) else {
            return Some(page);
        };
    }
    None
}
