// What nodes weigh together. They are few enough that the sums fit.
ghost use Rattle.std.specs.Prelude.{◌≡◌, ◌<◌, ◌^◌, length};
ghost use Rattle.std.specs.List.{sum_by};
ghost use Rattle.nx_sketch.specs.Plan.{placed_part_weight};
ghost use Rattle.nx_sketch.specs.Separator.{is_left, is_marked, point, weight_before, weight_within};

use super::paths::{is_before, is_prefix, owns};
use crate::nodes::Node;
use nx_parts::Interval;

// What the part of an interval weighs.
pub(crate) fn part_weight(nodes: &[Node], parts: &[Interval], index: usize) -> u64
    requires { length nodes.now < 2 ^ 20 }
    ensures { result ≡ placed_part_weight nodes.now parts.now index }
{
    nodes
        .iter()
        .map(|node| {
            if owns(parts, index, node.path()) {
                u64::from(node.weight())
            } else {
                0
            }
        })
        .sum()
}

// What all nodes weigh.
fn weight(nodes: &[Node]) -> u64
    requires { length nodes.now < 2 ^ 20 }
    ensures { result ≡ sum_by (λ node. node.weight) nodes.now }
{
    nodes.iter().map(|node| u64::from(node.weight())).sum()
}

// Where a part is divided.
pub(crate) fn point(nodes: &[Node], target: u32) -> u128
    requires { length nodes.now < 2 ^ 20 }
    ensures { result ≡ point nodes.now target }
{
    u128::from(weight(nodes)) * u128::from(target) / 100
}

// What the nodes weigh that come before the path.
pub(super) fn weight_before(nodes: &[Node], path: &[u32]) -> u64
    requires { length nodes.now < 2 ^ 20 }
    ensures { result ≡ weight_before nodes.now path.now }
{
    nodes
        .iter()
        .map(|node| {
            if is_before(node.path(), path) {
                u64::from(node.weight())
            } else {
                0
            }
        })
        .sum()
}

// What the subtree at the path weighs.
pub(super) fn weight_within(nodes: &[Node], path: &[u32]) -> u64
    requires { length nodes.now < 2 ^ 20 }
    ensures { result ≡ weight_within nodes.now path.now }
{
    nodes
        .iter()
        .map(|node| {
            if is_prefix(path, node.path()) {
                u64::from(node.weight())
            } else {
                0
            }
        })
        .sum()
}

pub(super) fn is_marked(nodes: &[Node], t: u128, tolerance: u32, path: &[u32]) -> bool
    requires { length nodes.now < 2 ^ 20 }
    ensures { result ≡ is_marked nodes.now t tolerance path.now }
{
    let before = u128::from(weight_before(nodes, path));
    let within = u128::from(weight_within(nodes, path));
    before <= t && t < before + within && u128::from(tolerance) < within
}

pub(super) fn is_left(nodes: &[Node], t: u128, path: &[u32]) -> bool
    requires { length nodes.now < 2 ^ 20 }
    ensures { result ≡ is_left nodes.now t path.now }
{
    u128::from(weight_before(nodes, path)) + u128::from(weight_within(nodes, path)) <= t
}
