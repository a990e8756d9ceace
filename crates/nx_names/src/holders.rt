// The records that have one label.
ghost use Rattle.std.specs.List.Sorted.{IsNonDecreasingBy};
ghost use Rattle.nx_names.specs.Serials.{HaveSmallSlots, noted_key};

use crate::noted::Noted;

/// The records that have a label at or below them.
#[derive(Drop)]
pub struct Holders {
    // In the order of their places.
    pub(crate) records: Vec<Noted>,
    ghost small: { HaveSmallSlots records.items },
    ghost rise: { IsNonDecreasingBy noted_key records.items },
}
