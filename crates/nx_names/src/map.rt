// The labels at or below records, as a map.
ghost use Rattle.std.specs.Prelude.{◌≡◌, ℕ, ◌<◌, Bool, true, List, length, get_or};
ghost use Rattle.std.specs.List.Sorted.{IsNonDecreasing};
ghost use Rattle.nx_layouts.specs.Layout.{RecordPlace};
ghost use Rattle.nx_names.specs.declared.noted.Noted.{Noted};
ghost use Rattle.nx_names.specs.Serials.{AreNumbered, HaveSmallSlots, PlacesRise, has_noted, is_in, serials_at};

use crate::noted::Noted;
use crate::serials::Serials;
use std::alloc::Global;

/// For each record of a document the labels of the nodes in its part and in all parts below it. Each label is kept once,
/// with a map's entry and a list, and besides 4 bytes for each record that has it; for a record it keeps 24. A list has
/// room for twice as much at most.
#[derive(Drop)]
pub struct LabelMap {
    pub(crate) alloc: Global,
    pub(crate) serials: Serials,
    // In the order of their numbers.
    pub(crate) noted: Vec<Noted>,
    // The same in the order of their places.
    pub(crate) placed: Vec<Noted>,
    ghost numbered: { AreNumbered 0 noted.items },
    ghost low: { HaveSmallSlots noted.items },
    ghost small: { HaveSmallSlots placed.items },
    ghost rise: { PlacesRise placed.items },
    ghost same: { (place : RecordPlace) (test : ℕ → Bool) → has_noted placed.items place test ≡ has_noted noted.items place test },
    ghost ascend: { (name : List ℕ) → IsNonDecreasing (serials_at serials name) },
    ghost known: { (name : List ℕ) (serial : ℕ) → is_in (serials_at serials name) serial ≡ true → serial < length noted.items },
}
