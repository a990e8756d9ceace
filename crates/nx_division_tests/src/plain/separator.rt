// The separator's plan.
ghost use Rattle.std.specs.Prelude.{◌≡◌, ℕ, ◌+◌, ◌∷◌, ◌++◌, [], ◌↔◌, ◌<◌, ◌≤◌, ◌^◌, ◌&&◌, ◌==◌, ◌⊎◌, true, IfOk, OnOk, IsTrue, length, MatchOption};
ghost use Rattle.std.specs.List.{AllPairs, find, list_all};
ghost use Rattle.std.specs.Option.{option_copied};
ghost use Rattle.std.specs.Str.{bytes_eq};
ghost use Rattle.nx_parts.specs.declared.interval.Interval.TheVariants.{Run};
ghost use Rattle.nx_parts.specs.Order.{AreInOrder};
ghost use Rattle.nx_sketch.specs.Separator.{IsLoose, IsSeparatorPlan, IsSeparatorRun, IsSingle, is_before, is_marked};
ghost use Rattle.nx_division_tests.specs.Runs.{AddsRun, BeginsRow, IsFirstOfRow, IsOnlyRun, IsRowEnd};
ghost use Rattle.nx_division_tests.specs.Tests.{comes_test, is_loose, is_single, loose_test, pairs_test, same_bool, single_test, starts_before};

use super::entries::{is_free, is_standalone};
use super::paths::{is_before, is_child, starts_before};
use super::weights::{is_left, is_marked};
use crate::nodes::Node;
use nx_lists::NoMemory;
use nx_parts::{Interval, Partitioning};
use nx_tree::Path;
use std::alloc::Global;

// Whether the node is free and not of the separator, and its subtree ends on that side.
fn is_loose_node(nodes: &[Node], t: u128, tolerance: u32, left: bool, node: &Node) -> bool
    requires { length nodes.now < 2 ^ 20 }
    ensures { result ≡ is_loose nodes.now t tolerance left node.now }
{
    is_free(node.entry())
        && !is_marked(nodes, t, tolerance, node.path())
        && is_same(is_left(nodes, t, node.path()), left)
}

fn is_same(one: bool, other: bool) -> bool
    ensures { result ≡ same_bool one other }
{
    one == other
}

// Whether such a node is the child at the position.
fn is_loose_child(
    nodes: &[Node],
    t: u128,
    tolerance: u32,
    left: bool,
    parent: &[u32],
    position: u64,
    node: &Node,
) -> bool
    requires { length nodes.now < 2 ^ 20 }
    ensures { result ≡ (bytes_eq node.now.path (parent.now ++ position ∷ []) && is_loose nodes.now t tolerance left node.now) }
{
    is_child(node.path(), parent, position) && is_loose_node(nodes, t, tolerance, left, node)
}

// Whether there is such a node at the position.
fn is_loose(
    nodes: &[Node],
    t: u128,
    tolerance: u32,
    left: bool,
    parent: &[u32],
    position: u64,
) -> bool
    requires { length nodes.now < 2 ^ 20 }
    ensures { result ≡ loose_test nodes.now t tolerance left (parent.now ++ position ∷ []) }
{
    nodes.iter().any(|node| is_loose_child(nodes, t, tolerance, left, parent, position, node))
}

fn is_marked_root(nodes: &[Node], t: u128, tolerance: u32, path: &[u32]) -> bool
    requires { length nodes.now < 2 ^ 20 }
    ensures { result ≡ ((length path.now == 1) && is_marked nodes.now t tolerance path.now) }
{
    path.len() == 1 && is_marked(nodes, t, tolerance, path)
}

// Whether the node is standalone or a root of the separator.
fn is_single_node(nodes: &[Node], t: u128, tolerance: u32, node: &Node) -> bool
    requires { length nodes.now < 2 ^ 20 }
    ensures { result ≡ is_single nodes.now t tolerance node.now }
{
    is_standalone(node.entry()) || is_marked_root(nodes, t, tolerance, node.path())
}

fn is_single_at(nodes: &[Node], t: u128, tolerance: u32, path: &[u32], node: &Node) -> bool
    requires { length nodes.now < 2 ^ 20 }
    ensures { result ≡ (bytes_eq node.now.path path.now && is_single nodes.now t tolerance node.now) }
{
    node.path() == path && is_single_node(nodes, t, tolerance, node)
}

// Whether such a node stands at the path.
fn is_single(nodes: &[Node], t: u128, tolerance: u32, path: &[u32]) -> bool
    requires { length nodes.now < 2 ^ 20 }
    ensures { result ≡ single_test nodes.now t tolerance path.now }
{
    nodes
        .iter()
        .any(|node| is_single_at(nodes, t, tolerance, path, node))
}

// Whether the child at the position is loose, on that side.
fn is_loose_at(
    nodes: &[Node],
    t: u128,
    tolerance: u32,
    left: bool,
    parent: &[u32],
    position: u64,
) -> bool
    requires { length nodes.now < 2 ^ 20 }
    ensures { IsTrue result ↔ IsLoose nodes.now t tolerance left (parent.now ++ position ∷ []) }
{
    is_loose(nodes, t, tolerance, left, parent, position)
}

// Whether the child at the path is an interval alone.
fn is_single_child(
    nodes: &[Node],
    t: u128,
    tolerance: u32,
    path: &[u32],
    parent: &[u32],
    first: u32,
) -> bool
    requires few { length nodes.now < 2 ^ 20 }
    requires path { path.now ≡ parent.now ++ first ∷ [] }
    ensures { IsTrue result ↔ IsSingle nodes.now t tolerance parent.now first }
{
    is_single(nodes, t, tolerance, path)
}

// Whether the children are of the helper or of a node of the separator.
fn is_opened(nodes: &[Node], t: u128, tolerance: u32, parent: &[u32]) -> bool
    requires { length nodes.now < 2 ^ 20 }
    ensures { IsTrue result ↔ ((parent.now ≡ []) ⊎ (is_marked nodes.now t tolerance parent.now ≡ true)) }
{
    if parent.is_empty() {
        return true;
    }
    is_marked(nodes, t, tolerance, parent)
}

// Whether the child before it isn't of the row.
fn is_begun(nodes: &[Node], t: u128, tolerance: u32, left: bool, parent: &[u32], first: u32) -> bool
    requires { length nodes.now < 2 ^ 20 }
    ensures { IsTrue result ↔ ((position : ℕ) → position + 1 ≡ first → ¬ IsLoose nodes.now t tolerance left (parent.now ++ position ∷ [])) }
{
    if first == 0 {
        return true;
    }
    !is_loose_at(nodes, t, tolerance, left, parent, u64::from(first - 1))
}

// Whether a row on that side begins with the child, if any does.
fn is_first_of_row(
    nodes: &[Node],
    t: u128,
    tolerance: u32,
    left: bool,
    parent: &[u32],
    first: u32,
) -> bool
    requires { length nodes.now < 2 ^ 20 }
    ensures { IsTrue result ↔ IsFirstOfRow nodes.now t tolerance left parent.now first }
{
    is_loose_at(nodes, t, tolerance, left, parent, u64::from(first))
        && is_begun(nodes, t, tolerance, left, parent, first)
}

// Whether a row on that side begins with the child.
fn begins_row(
    nodes: &[Node],
    t: u128,
    tolerance: u32,
    left: bool,
    parent: &[u32],
    first: u32,
) -> bool
    requires { length nodes.now < 2 ^ 20 }
    ensures { IsTrue result ↔ BeginsRow nodes.now t tolerance left parent.now first }
{
    is_opened(nodes, t, tolerance, parent)
        && is_first_of_row(nodes, t, tolerance, left, parent, first)
}

// The first loose node on that side that is the child at the position.
fn find_loose<'a>(
    nodes: &'a [Node],
    t: u128,
    tolerance: u32,
    left: bool,
    parent: &[u32],
    position: u64,
) -> Option<&'a Node>
    requires { length nodes.now < 2 ^ 20 }
    ensures { option_copied result ≡ find (λ node. bytes_eq node.path (parent.now ++ position ∷ []) && is_loose nodes.now t tolerance left node) nodes.now }
{
    nodes.iter().find(|node| is_loose_child(nodes, t, tolerance, left, parent, position, node))
}

// The position, if the child there is loose on that side.
fn loose_position(
    nodes: &[Node],
    t: u128,
    tolerance: u32,
    left: bool,
    parent: &[u32],
    position: u64,
) -> Option<u32>
    requires { length nodes.now < 2 ^ 20 }
    ensures { MatchOption result (¬ IsLoose nodes.now t tolerance left (parent.now ++ position ∷ [])) (λ found. (found ≡ position) × IsLoose nodes.now t tolerance left (parent.now ++ position ∷ [])) }
{
    let Some(node) = find_loose(nodes, t, tolerance, left, parent, position) else {
        return None;
    };
    let Some((last, _)) = node.path().split_last() else {
        return None;
    };
    Some(*last)
}

// The last position of the row that goes on from this one.
fn row_end(nodes: &[Node], t: u128, tolerance: u32, left: bool, parent: &[u32], last: u32) -> u32
    requires { length nodes.now < 2 ^ 20 }
    ensures { IsRowEnd nodes.now t tolerance left parent.now last result }
{
    match loose_position(nodes, t, tolerance, left, parent, u64::from(last) + 1) {
        Some(next) => row_end(nodes, t, tolerance, left, parent, next),
        None => last,
    }
}

// The last member of the plan's interval that begins with that child, if there is one.
fn run_end(
    nodes: &[Node],
    t: u128,
    tolerance: u32,
    path: &[u32],
    parent: &[u32],
    first: u32,
) -> Option<u32>
    requires few { length nodes.now < 2 ^ 20 }
    requires path { path.now ≡ parent.now ++ first ∷ [] }
    requires order { AllPairs (λ a b. IsTrue (is_before a.path b.path)) nodes.now }
    ensures { MatchOption result ((last : ℕ) → ¬ IsSeparatorRun nodes.now t tolerance (Run parent.now first last)) (IsOnlyRun nodes.now t tolerance parent.now first) }
{
    let left = is_left(nodes, t, path);
    if is_single_child(nodes, t, tolerance, path, parent, first) {
        Some(first)
    } else if begins_row(nodes, t, tolerance, left, parent, first) {
        Some(row_end(nodes, t, tolerance, left, parent, first))
    } else {
        None
    }
}

// Adds the plan's interval that begins with the node, if there is one.
fn push_run(
    alloc: Global,
    nodes: &[Node],
    t: u128,
    tolerance: u32,
    node: &Node,
    found: &mut Partitioning,
) -> Result<(), NoMemory>
    requires few { length nodes.now < 2 ^ 20 }
    requires order { AllPairs (λ a b. IsTrue (is_before a.path b.path)) nodes.now }
    ensures { OnOk result (AddsRun nodes.now t tolerance node.now.path found.old found.new) }
{
    let path = node.path();
    let Some((first, parent)) = path.split_last() else {
        return Ok(());
    };
    let Some(last) = run_end(nodes, t, tolerance, path, parent, *first) else {
        return Ok(());
    };
    found.push(Interval::Run {
        parent: Path::from_slice(alloc, parent)?,
        first: *first,
        last,
    })?;
    Ok(())
}

// The intervals of the separator's plan.
pub(crate) fn separator_plan(
    alloc: Global,
    nodes: &[Node],
    t: u128,
    tolerance: u32,
) -> Result<Partitioning, NoMemory>
    requires few { length nodes.now < 2 ^ 20 }
    requires order { AllPairs (λ a b. IsTrue (is_before a.path b.path)) nodes.now }
    ensures { IfOk result (IsSeparatorPlan nodes.now t tolerance) }
{
    let mut found = Partitioning::new(alloc);
    for node in nodes {
        push_run(alloc, nodes, t, tolerance, node, &mut found)?;
    }
    Ok(found)
}

// Whether a node comes before others.
fn is_first_node(node: &Node, others: &[Node]) -> bool
    ensures { result ≡ list_all (comes_test node.now) others.now }
{
    others
        .iter()
        .all(|other| is_before(node.path(), other.path()))
}

fn are_nodes_ordered(nodes: &[Node]) -> bool
    ensures { result ≡ pairs_test comes_test nodes.now }
{
    let Some((first, rest)) = nodes.split_first() else {
        return true;
    };
    is_first_node(first, rest) && are_nodes_ordered(rest)
}

// Whether the nodes stand in document order.
pub(crate) fn are_ordered(nodes: &[Node]) -> bool
    ensures { IsTrue result ↔ AllPairs (λ a b. IsTrue (is_before a.path b.path)) nodes.now }
{
    are_nodes_ordered(nodes)
}

// Whether an interval begins before others.
fn is_first_part(interval: &Interval, others: &[Interval]) -> bool
    ensures { result ≡ list_all (starts_before interval.now) others.now }
{
    others.iter().all(|other| starts_before(interval, other))
}

fn are_parts_ordered(parts: &[Interval]) -> bool
    ensures { result ≡ pairs_test starts_before parts.now }
{
    let Some((first, rest)) = parts.split_first() else {
        return true;
    };
    is_first_part(first, rest) && are_parts_ordered(rest)
}

// Whether the intervals stand in document order of their first members.
pub(super) fn is_in_order(parts: &[Interval]) -> bool
    ensures { IsTrue result ↔ AreInOrder parts.now }
{
    are_parts_ordered(parts)
}
