// The separator: the nodes in whose subtrees a part is divided.
ghost use Rattle.std.specs.Prelude.{◌≡◌, ◌≤◌, ◌+◌, ◌<◌, ◌^◌, ◌&&◌, nat_le, nat_lt, IfOk};
ghost use Rattle.std.specs.List.{sum_by};
ghost use Rattle.nx_sketch.specs.Sketch.{Sketch, AreRising, IsFlat, placed, spots_of};
ghost use Rattle.nx_sketch.specs.Separator.{marks, point};

use crate::Spot;
use nx_lists::{List, NoMemory};
use std::alloc::Global;

/// Truth values, one for each node of a part in document order.
pub type Marks = List<bool>;

/// Whether each node of the part is of the separator, in document order. The part is divided at its
/// weight times `target`, divided by 100 and rounded down; a node is of the separator where this point
/// lies within its subtree, which weighs more than `tolerance`. The list has to be that of a sketch whose
/// positions rise, which weighs less than 2^24.
///
/// Errors: `NoMemory`.
pub fn separator(
    alloc: Global,
    spots: &[Spot],
    target: u32,
    tolerance: u32,
) -> Result<Marks, NoMemory>
    requires { IsFlat spots.now }
    ensures { IfOk result (λ found. (s : Sketch) → spots.now ≡ spots_of s → AreRising 0 s → found ≡ marks (placed s) (point (placed s) target) tolerance) }
{
    let t = point(spots, target);
    let mut found = Marks::with_capacity(alloc, spots.len())?;
    let mut before = 0;
    for spot in spots {
        found.push(is_marked(before, u64::from(spot.within), t, tolerance))?;
        before += u64::from(spot.weight);
    }
    Ok(found)
}

/// Where the part is divided: its weight times `target`, divided by 100 and rounded down. The list has to
/// be that of a sketch which weighs less than 2^24. It takes no memory.
pub fn point(spots: &[Spot], target: u32) -> u64
    requires { IsFlat spots.now }
    ensures { (s : Sketch) → spots.now ≡ spots_of s → result ≡ point (placed s) target }
{
    u64::from(weight(spots)) * u64::from(target) / 100
}

// What the nodes weigh.
fn weight(spots: &[Spot]) -> u32
    requires { sum_by (λ spot. spot.weight) spots.now < 2 ^ 24 }
    ensures { result ≡ sum_by (λ spot. spot.weight) spots.now }
{
    spots.iter().map(|spot| spot.weight).sum()
}

// Whether a subtree of that weight, which so much comes before, is of the separator.
fn is_marked(before: u64, within: u64, t: u64, tolerance: u32) -> bool
    requires before { before < 2 ^ 63 }
    requires within { within < 2 ^ 32 }
    ensures { result ≡ (nat_le before t && nat_lt t (before + within) && nat_lt tolerance within) }
{
    before <= t && t < before + within && u64::from(tolerance) < within
}
