// The check of a plan: its partitioning, its weights and its bounds.
ghost use Rattle.std.specs.Prelude.{◌≡◌, ◌^◌, ◌<◌, ◌≤◌, ℕ, length, slice_index, OnOk, IfErr};
ghost use Rattle.nx_tree.specs.Document.{IsDocument};
ghost use Rattle.nx_bounds.specs.Refusal.{IsCertified, IsNotCertified, root_least};
ghost use Rattle.nx_bounds.specs.Walk.{WeightsFail, CountFails};

use crate::{BoundsError, supported};
use nx_parts::{Bound, Bounds, Partitioning, Plan, feasible_weights};
use nx_tree::Tree;
use std::alloc::Global;

/// Whether the plan is certified for the document: its intervals are a feasible partitioning, its
/// weights are those of the parts, its bounds are supported, and there are no more intervals than the
/// bound of the root says. Then no feasible partitioning has fewer intervals. No part may weigh more
/// than `k` slots. `k` has to be from 1 to 256, and there have to be fewer than 2^32 intervals,
/// weights and bounds each.
///
/// Errors: the first of these that applies: `Parts` where the intervals are no feasible partitioning;
/// `WrongWeight` for the first part whose weight isn't the one that is claimed, where none counts as 0
/// and weights behind the last part are not looked at; `Length` and `Unsupported` as [`supported`]
/// says them; `Count` where there are more intervals than the bound of the root says. Besides it
/// answers `Memory`.
pub fn certified(alloc: Global, tree: &Tree, k: u32, plan: &Plan) -> Result<(), BoundsError>
    requires document { IsDocument tree.now }
    requires some { 1 ≤ k }
    requires bound { k ≤ 256 }
    requires few_parts { length plan.now.parts < 2 ^ 32 }
    requires few_weights { length plan.now.weights < 2 ^ 32 }
    requires few_bounds { length plan.now.bounds < 2 ^ 32 }
    ensures ok { OnOk result (IsCertified k tree.now plan.now) }
    ensures err { IfErr result (λ error. IsNotCertified k tree.now plan.now error) }
{
    let found = feasible_weights(alloc, tree, k, &plan.parts)?;
    check_weights(found.as_slice(), plan.weights.as_slice())?;
    supported(alloc, tree, k, &plan.bounds)?;
    check_count(&plan.parts, &plan.bounds)
}

// Whether the claimed weights begin with those that were found, where a missing one counts as 0.
fn check_weights(found: &[u64], claimed: &[u64]) -> Result<(), BoundsError>
    requires { length found.now < 2 ^ 32 }
    ensures ok { OnOk result ((index : ℕ) → index < length found.now → slice_index claimed.now index ≡ slice_index found.now index) }
    ensures err { IfErr result (λ error. WeightsFail found.now claimed.now error) }
{
    for index in 0..found.len() {
        let claimed = weight_at(claimed, index);
        let found = found[index];
        if claimed != found {
            return Err(BoundsError::WrongWeight {
                index: index as u32,
                claimed,
                found,
            });
        }
    }
    Ok(())
}

// The weight at the index, or 0 behind the last.
fn weight_at(weights: &[u64], index: usize) -> u64
    ensures { result ≡ slice_index weights.now index }
{
    weights.get(index).copied().unwrap_or(0)
}

// Whether there are no more intervals than the bound of the root says.
fn check_count(parts: &Partitioning, bounds: &Bounds) -> Result<(), BoundsError>
    requires { length parts.now < 2 ^ 32 }
    ensures ok { OnOk result (length parts.now ≤ root_least bounds.now) }
    ensures err { IfErr result (λ error. CountFails (length parts.now) (root_least bounds.now) error) }
{
    let bound = root_least(bounds.as_slice());
    let intervals = parts.len() as u32;
    if intervals > bound {
        return Err(BoundsError::Count { intervals, bound });
    }
    Ok(())
}

// What the bound of the root says of the number of intervals.
fn root_least(bounds: &[Bound]) -> u32
    ensures { result ≡ root_least bounds.now }
{
    match bounds {
        [] => 0,
        [bound, ..] => bound.least,
    }
}
