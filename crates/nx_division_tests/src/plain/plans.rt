// Plans.
ghost use Rattle.std.specs.Prelude.{◌≡◌, ◌-◌, ◌∷◌, ◌++◌, [], ◌↔◌, ◌<◌, ◌^◌, IsTrue, length, nat_le};
ghost use Rattle.std.specs.List.{list_all, list_any, range_with_len};
ghost use Rattle.nx_parts.specs.Partitioning.{has_member};
ghost use Rattle.nx_sketch.specs.Plan.{IsFeasiblePlan, placed_part_weight};
ghost use Rattle.nx_division_tests.specs.Tests.{alone_member, alone_test, apart_test, feasible_test, inside_test, pairs_test, placed_test, plan_test, rooted_test};

use super::entries::is_standalone;
use super::paths::{has_member, is_child, share_member};
use super::weights::part_weight;
use crate::nodes::Node;
use nx_parts::Interval;

// Whether there is a child at the position.
fn is_placed(nodes: &[Node], parent: &[u32], position: u64) -> bool
    ensures { result ≡ placed_test nodes.now (parent.now ++ position ∷ []) }
{
    nodes
        .iter()
        .any(|node| is_child(node.path(), parent, position))
}

// Whether there is one at each position from the first one on.
fn is_row(nodes: &[Node], parent: &[u32], first: u64, end: u64) -> bool
    ensures { result ≡ list_all (λ position. placed_test nodes.now (parent.now ++ position ∷ [])) (range_with_len first (end - first)) }
{
    (first..end).all(|position| is_placed(nodes, parent, position))
}

fn is_inside(nodes: &[Node], interval: &Interval) -> bool
    ensures { result ≡ inside_test nodes.now interval.now }
{
    match interval {
        Interval::Root => false,
        Interval::Run {
            parent,
            first,
            last,
        } => {
            first <= last
                && is_row(
                    nodes,
                    parent.as_slice(),
                    u64::from(*first),
                    u64::from(*last) + 1,
                )
        }
    }
}

fn are_inside(nodes: &[Node], parts: &[Interval]) -> bool
    ensures { result ≡ list_all (inside_test nodes.now) parts.now }
{
    parts.iter().all(|interval| is_inside(nodes, interval))
}

// Whether an interval shares no member with others.
fn is_apart(interval: &Interval, others: &[Interval]) -> bool
    ensures { result ≡ list_all (apart_test interval.now) others.now }
{
    others.iter().all(|other| !share_member(interval, other))
}

fn are_disjoint(parts: &[Interval]) -> bool
    ensures { result ≡ pairs_test apart_test parts.now }
{
    let Some((first, rest)) = parts.split_first() else {
        return true;
    };
    is_apart(first, rest) && are_disjoint(rest)
}

// Whether some interval has the node as a member.
fn is_held(parts: &[Interval], path: &[u32]) -> bool
    ensures { result ≡ list_any (λ interval. has_member interval path.now) parts.now }
{
    parts.iter().any(|interval| has_member(interval, path))
}

// Whether a root is held.
fn is_rooted(parts: &[Interval], node: &Node) -> bool
    ensures { result ≡ rooted_test parts.now node.now }
{
    node.path().len() != 1 || is_held(parts, node.path())
}

// Whether the interval has the node as its one member.
fn is_lone_member(path: &[u32], interval: &Interval) -> bool
    ensures { result ≡ alone_member path.now interval.now }
{
    match interval {
        Interval::Root => false,
        Interval::Run { first, last, .. } => has_member(interval, path) && first == last,
    }
}

// Whether there is such an interval.
fn is_lone(parts: &[Interval], path: &[u32]) -> bool
    ensures { result ≡ list_any (alone_member path.now) parts.now }
{
    parts.iter().any(|interval| is_lone_member(path, interval))
}

// Whether a standalone child is an interval alone.
fn is_alone(parts: &[Interval], node: &Node) -> bool
    ensures { result ≡ alone_test parts.now node.now }
{
    let path = node.path();
    !is_standalone(node.entry()) || path.is_empty() || is_lone(parts, path)
}

fn are_rooted(nodes: &[Node], parts: &[Interval]) -> bool
    ensures { result ≡ list_all (rooted_test parts.now) nodes.now }
{
    nodes.iter().all(|node| is_rooted(parts, node))
}

fn are_alone(nodes: &[Node], parts: &[Interval]) -> bool
    ensures { result ≡ list_all (alone_test parts.now) nodes.now }
{
    nodes.iter().all(|node| is_alone(parts, node))
}

fn is_plan(nodes: &[Node], parts: &[Interval]) -> bool
    ensures { result ≡ plan_test nodes.now parts.now }
{
    are_inside(nodes, parts)
        && are_disjoint(parts)
        && are_rooted(nodes, parts)
        && are_alone(nodes, parts)
}

// Whether no part weighs more than `k`.
fn are_parts_light(k: u32, nodes: &[Node], parts: &[Interval]) -> bool
    requires { length nodes.now < 2 ^ 20 }
    ensures { result ≡ list_all (λ index. nat_le (placed_part_weight nodes.now parts.now index) k) (range_with_len 0 (length parts.now)) }
{
    (0..parts.len()).all(|index| part_weight(nodes, parts, index) <= u64::from(k))
}

fn is_feasible(k: u32, nodes: &[Node], parts: &[Interval]) -> bool
    requires { length nodes.now < 2 ^ 20 }
    ensures { result ≡ feasible_test k nodes.now parts.now }
{
    is_plan(nodes, parts) && are_parts_light(k, nodes, parts)
}

// Whether the intervals are a plan none of whose parts weighs more than `k`.
pub(crate) fn is_feasible_plan(k: u32, nodes: &[Node], parts: &[Interval]) -> bool
    requires { length nodes.now < 2 ^ 20 }
    ensures { IsTrue result ↔ IsFeasiblePlan k nodes.now parts.now }
{
    is_feasible(k, nodes, parts)
}
