// Tests of the intervals and of their weights.
ghost use Rattle.std.specs.Prelude.{◌≡◌, ◌≤◌, ◌<◌, ◌^◌, false, nat_lt, length, MatchOption, IsTrue};
ghost use Rattle.std.specs.List.{All};
ghost use Rattle.std.specs.Option.{option_map_or};
ghost use Rattle.nx_tree.specs.Document.{IsDocument};
ghost use Rattle.nx_tree.specs.Edit.{at};
ghost use Rattle.nx_tree.specs.Forest.{trees_of};
ghost use Rattle.nx_parts.specs.Partitioning.{is_in_tree};
ghost use Rattle.nx_parts.specs.Refusal.{IsFirst, IsOutOfTree};
ghost use Rattle.nx_parts.specs.Light.{IsFirstAbove};

use crate::Interval;
use nx_tree::{Tree, node_at};

// The place of the first interval that isn't in the tree.
pub(crate) fn first_outside(tree: &Tree, intervals: &[Interval]) -> Option<u32>
    requires document { IsDocument tree.now }
    requires few { length intervals.now < 2 ^ 32 }
    ensures { MatchOption result (All (λ interval. IsTrue (is_in_tree tree.now interval)) intervals.now) (IsFirst (IsOutOfTree tree.now intervals.now)) }
{
    for (index, interval) in intervals.iter().enumerate() {
        if !is_in_tree(tree, interval) {
            return Some(index as u32);
        }
    }
    None
}

// Whether the interval lies in the tree.
fn is_in_tree(tree: &Tree, interval: &Interval) -> bool
    requires { IsDocument tree.now }
    ensures { result ≡ is_in_tree tree.now interval.now }
{
    match interval {
        Interval::Root => true,
        Interval::Run {
            parent,
            first,
            last,
        } => first <= last && has_child(tree, parent.as_slice(), *last as usize),
    }
}

// Whether the node at the path is there and has a child at the position.
fn has_child(tree: &Tree, path: &[u32], position: usize) -> bool
    requires { IsDocument tree.now }
    ensures { result ≡ option_map_or (λ t. nat_lt position (length (trees_of t.below))) (at tree.now path.now) false }
{
    match node_at(tree, path) {
        Ok(node) => position < node.children.len(),
        Err(_) => false,
    }
}

// The place of the first weight above `k`, and the weight.
pub(crate) fn first_above(weights: &[u64], k: u32) -> Option<(u32, u64)>
    requires { length weights.now < 2 ^ 32 }
    ensures { MatchOption result (All (λ weight. weight ≤ k) weights.now) (IsFirstAbove k weights.now) }
{
    for (index, weight) in weights.iter().enumerate() {
        if *weight > u64::from(k) {
            return Some((index as u32, *weight));
        }
    }
    None
}
