// Splits.
ghost use Rattle.std.specs.Prelude.{◌≡◌, ◌↔◌, ◌<◌, ◌^◌, IfOk, IsTrue, length};
ghost use Rattle.std.specs.Cmp.Lexicographic.{pointwise};
ghost use Rattle.std.specs.List.{AllPairs};
ghost use Rattle.nx_parts.specs.Order.{AreInOrder};
ghost use Rattle.nx_sketch.specs.Plan.{AreComponentsLight, AreNeighboursFull, IsFeasiblePlan, KeepsClusters};
ghost use Rattle.nx_sketch.specs.Separator.{IsSeparatorPlan, is_before, point};
ghost use Rattle.nx_sketch.specs.Split.{IsSplit};
ghost use Rattle.nx_division_tests.specs.Tests.{same_interval};

use super::clusters::{are_light, keeps_clusters};
use super::neighbours::are_neighbours_full;
use super::plans::is_feasible_plan;
use super::separator::{is_in_order, separator_plan};
use super::weights::point;
use crate::nodes::Node;
use nx_lists::NoMemory;
use nx_parts::Interval;
use std::alloc::Global;

fn is_same(one: &Interval, other: &Interval) -> bool
    ensures { result ≡ same_interval one.now other.now }
{
    match (one, other) {
        (Interval::Root, Interval::Root) => true,
        (
            Interval::Run {
                parent,
                first,
                last,
            },
            Interval::Run {
                parent: other_parent,
                first: other_first,
                last: other_last,
            },
        ) => {
            parent.as_slice() == other_parent.as_slice()
                && (first == other_first && last == other_last)
        }
        _ => false,
    }
}

// Whether the lists are the same.
pub(crate) fn are_same(one: &[Interval], other: &[Interval]) -> bool
    ensures { result ≡ pointwise same_interval one.now other.now }
{
    match (one.split_first(), other.split_first()) {
        (Some((first, rest)), Some((other_first, other_rest))) => {
            is_same(first, other_first) && are_same(rest, other_rest)
        }
        (None, None) => true,
        (None, Some(_)) => false,
        (Some(_), None) => false,
    }
}

// Whether no cluster edge is cut, where that is asked for.
fn keeps_light_clusters(k: u32, nodes: &[Node], parts: &[Interval]) -> bool
    requires { length nodes.now < 2 ^ 20 }
    ensures { IsTrue result ↔ (AreComponentsLight k nodes.now → KeepsClusters nodes.now parts.now) }
{
    if are_light(k, nodes) {
        keeps_clusters(nodes, parts)
    } else {
        true
    }
}

fn is_full_and_keeps_clusters(k: u32, nodes: &[Node], parts: &[Interval]) -> bool
    requires { length nodes.now < 2 ^ 20 }
    ensures { IsTrue result ↔ (AreNeighboursFull k nodes.now parts.now × (AreComponentsLight k nodes.now → KeepsClusters nodes.now parts.now)) }
{
    are_neighbours_full(k, nodes, parts) && keeps_light_clusters(k, nodes, parts)
}

// Whether the intervals are what they have to be where the separator's plan is too heavy.
fn is_other(k: u32, nodes: &[Node], parts: &[Interval]) -> bool
    requires { length nodes.now < 2 ^ 20 }
    ensures { IsTrue result ↔ (IsFeasiblePlan k nodes.now parts.now × (AreNeighboursFull k nodes.now parts.now × (AreComponentsLight k nodes.now → KeepsClusters nodes.now parts.now))) }
{
    is_feasible_plan(k, nodes, parts) && is_full_and_keeps_clusters(k, nodes, parts)
}

// Whether the intervals are a split, where `plan` is the separator's.
fn is_split_by(
    k: u32,
    nodes: &[Node],
    target: u32,
    tolerance: u32,
    plan: &[Interval],
    parts: &[Interval],
) -> bool
    requires few { length nodes.now < 2 ^ 20 }
    requires plan { IsSeparatorPlan nodes.now (point nodes.now target) tolerance plan.now }
    requires order { AreInOrder parts.now }
    ensures { IsTrue result ↔ IsSplit k nodes.now target tolerance parts.now }
{
    if is_feasible_plan(k, nodes, plan) {
        are_same(parts, plan)
    } else {
        is_other(k, nodes, parts)
    }
}

// Whether the intervals, which stand in document order, are a split.
fn is_ordered_split(
    alloc: Global,
    nodes: &[Node],
    k: u32,
    target: u32,
    tolerance: u32,
    parts: &[Interval],
) -> Result<bool, NoMemory>
    requires few { length nodes.now < 2 ^ 20 }
    requires order { AllPairs (λ a b. IsTrue (is_before a.path b.path)) nodes.now }
    requires parts { AreInOrder parts.now }
    ensures { IfOk result (λ answer. IsTrue answer ↔ IsSplit k nodes.now target tolerance parts.now) }
{
    let plan = separator_plan(alloc, nodes, point(nodes, target), tolerance)?;
    Ok(is_split_by(k, nodes, target, tolerance, plan.as_slice(), parts))
}

// Whether these intervals are a split of a part with these nodes, which stand in document order.
//
// Errors: `NoMemory`.
pub(crate) fn is_split(
    alloc: Global,
    nodes: &[Node],
    k: u32,
    target: u32,
    tolerance: u32,
    parts: &[Interval],
) -> Result<bool, NoMemory>
    requires few { length nodes.now < 2 ^ 20 }
    requires order { AllPairs (λ a b. IsTrue (is_before a.path b.path)) nodes.now }
    ensures { IfOk result (λ answer. IsTrue answer ↔ IsSplit k nodes.now target tolerance parts.now) }
{
    if is_in_order(parts) {
        is_ordered_split(alloc, nodes, k, target, tolerance, parts)
    } else {
        Ok(false)
    }
}
