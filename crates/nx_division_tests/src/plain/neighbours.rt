// Intervals beside each other.
ghost use Rattle.std.specs.Prelude.{◌≡◌, ◌↔◌, ◌<◌, ◌^◌, ◌&&◌, ◌||◌, not, IsTrue, length};
ghost use Rattle.std.specs.List.{enumerate_from, list_all};
ghost use Rattle.nx_parts.specs.Partitioning.{has_member};
ghost use Rattle.nx_sketch.specs.Plan.{AreNeighboursFull};
ghost use Rattle.nx_division_tests.specs.Tests.{beside_test, full_test, is_standalone, neighbours_test, ordinary_test};

use super::entries::is_standalone;
use super::paths::has_member;
use super::weights::part_weight;
use crate::nodes::Node;
use nx_parts::Interval;

fn is_ordinary_in(node: &Node, interval: &Interval) -> bool
    ensures { result ≡ (not (is_standalone node.now.entry) || not (has_member interval.now node.now.path)) }
{
    !is_standalone(node.entry()) || !has_member(interval, node.path())
}

// Whether no member is a standalone child.
fn is_ordinary(nodes: &[Node], interval: &Interval) -> bool
    ensures { result ≡ ordinary_test nodes.now interval.now }
{
    nodes.iter().all(|node| is_ordinary_in(node, interval))
}

// Whether the second interval begins right behind the first one.
fn are_beside(one: &Interval, other: &Interval) -> bool
    ensures { result ≡ beside_test one.now other.now }
{
    match (one, other) {
        (
            Interval::Run { parent, last, .. },
            Interval::Run {
                parent: other_parent,
                first,
                ..
            },
        ) => {
            parent.as_slice() == other_parent.as_slice()
                && u64::from(*last) + 1 == u64::from(*first)
        }
        _ => false,
    }
}

fn are_neighbours(nodes: &[Node], one: &Interval, other: &Interval) -> bool
    ensures { result ≡ (beside_test one.now other.now && ordinary_test nodes.now one.now && ordinary_test nodes.now other.now) }
{
    are_beside(one, other) && is_ordinary(nodes, one) && is_ordinary(nodes, other)
}

// Whether an interval and another one, by their places, are no neighbours that fit together.
fn are_full(
    k: u32,
    nodes: &[Node],
    parts: &[Interval],
    place: usize,
    one: &Interval,
    other_place: usize,
    other: &Interval,
) -> bool
    requires { length nodes.now < 2 ^ 20 }
    ensures { result ≡ full_test k nodes.now parts.now (place, one.now) (other_place, other.now) }
{
    !are_neighbours(nodes, one, other)
        || u128::from(k)
            < u128::from(part_weight(nodes, parts, place))
                + u128::from(part_weight(nodes, parts, other_place))
}

// The same of an interval and all others.
fn is_full(k: u32, nodes: &[Node], parts: &[Interval], place: usize, one: &Interval) -> bool
    requires { length nodes.now < 2 ^ 20 }
    ensures { result ≡ list_all (full_test k nodes.now parts.now (place, one.now)) (enumerate_from 0 parts.now) }
{
    parts.iter().enumerate().all(|(other_place, other)| are_full(
        k,
        nodes,
        parts,
        place,
        one,
        other_place,
        other,
    ))
}

fn are_all_full(k: u32, nodes: &[Node], parts: &[Interval]) -> bool
    requires { length nodes.now < 2 ^ 20 }
    ensures { result ≡ neighbours_test k nodes.now parts.now }
{
    parts
        .iter()
        .enumerate()
        .all(|(place, one)| is_full(k, nodes, parts, place, one))
}

// Whether no two neighbours fit together.
pub(super) fn are_neighbours_full(k: u32, nodes: &[Node], parts: &[Interval]) -> bool
    requires { length nodes.now < 2 ^ 20 }
    ensures { IsTrue result ↔ AreNeighboursFull k nodes.now parts.now }
{
    are_all_full(k, nodes, parts)
}
