// Cluster edges and components.
ghost use Rattle.std.specs.Prelude.{◌≡◌, ◌↔◌, ◌<◌, ◌≤◌, ◌^◌, ◌&&◌, IsTrue, length, take, drop};
ghost use Rattle.std.specs.List.{list_all};
ghost use Rattle.std.specs.Str.{bytes_eq};
ghost use Rattle.nx_sketch.specs.Plan.{AreComponentsLight, KeepsClusters, clusters_down, component_weight, is_cluster, is_cluster_at, is_joined};
ghost use Rattle.nx_division_tests.specs.Tests.{kept_test, light_test, same_place};

use super::entries::is_cluster;
use super::paths::{is_prefix, owner};
use crate::nodes::Node;
use nx_parts::Interval;

fn is_same_place(one: Option<usize>, other: Option<usize>) -> bool
    ensures { result ≡ same_place one other }
{
    match (one, other) {
        (Some(place), Some(other_place)) => place == other_place,
        (None, None) => true,
        _ => false,
    }
}

// Whether a cluster child is owned with its parent.
fn is_kept(parts: &[Interval], node: &Node) -> bool
    ensures { result ≡ kept_test parts.now node.now }
{
    let path = node.path();
    !is_cluster(node.entry())
        || path.is_empty()
        || is_same_place(owner(parts, path), owner(parts, &path[..path.len() - 1]))
}

fn are_kept(nodes: &[Node], parts: &[Interval]) -> bool
    ensures { result ≡ list_all (kept_test parts.now) nodes.now }
{
    nodes.iter().all(|node| is_kept(parts, node))
}

// Whether no cluster edge is cut.
pub(super) fn keeps_clusters(nodes: &[Node], parts: &[Interval]) -> bool
    ensures { IsTrue result ↔ KeepsClusters nodes.now parts.now }
{
    are_kept(nodes, parts)
}

fn is_cluster_child(node: &Node, path: &[u32]) -> bool
    ensures { result ≡ (bytes_eq node.now.path path.now && is_cluster node.now.entry) }
{
    node.path() == path && is_cluster(node.entry())
}

fn is_cluster_at(nodes: &[Node], path: &[u32]) -> bool
    ensures { result ≡ is_cluster_at nodes.now path.now }
{
    nodes.iter().any(|node| is_cluster_child(node, path))
}

// Whether each step of the path from that one on is to a cluster child.
fn clusters_down(nodes: &[Node], path: &[u32], from: usize) -> bool
    requires { from ≤ length path.now }
    ensures { result ≡ clusters_down nodes.now (take from path.now) (drop from path.now) }
{
    if from == path.len() {
        return true;
    }
    is_cluster_at(nodes, &path[..from + 1]) && clusters_down(nodes, path, from + 1)
}

fn is_joined(nodes: &[Node], top: &[u32], path: &[u32]) -> bool
    ensures { result ≡ is_joined nodes.now top.now path.now }
{
    is_prefix(top, path) && clusters_down(nodes, path, top.len())
}

// What the component of a node weighs.
fn component_weight(nodes: &[Node], top: &[u32]) -> u64
    requires { length nodes.now < 2 ^ 20 }
    ensures { result ≡ component_weight nodes.now top.now }
{
    nodes
        .iter()
        .map(|node| {
            if is_joined(nodes, top, node.path()) {
                u64::from(node.weight())
            } else {
                0
            }
        })
        .sum()
}

fn is_light(k: u32, nodes: &[Node], node: &Node) -> bool
    requires { length nodes.now < 2 ^ 20 }
    ensures { result ≡ light_test k nodes.now node.now }
{
    is_cluster(node.entry()) || component_weight(nodes, node.path()) <= u64::from(k)
}

fn are_all_light(k: u32, nodes: &[Node]) -> bool
    requires { length nodes.now < 2 ^ 20 }
    ensures { result ≡ list_all (light_test k nodes.now) nodes.now }
{
    nodes.iter().all(|node| is_light(k, nodes, node))
}

// Whether no cluster component weighs more than `k`.
pub(crate) fn are_light(k: u32, nodes: &[Node]) -> bool
    requires { length nodes.now < 2 ^ 20 }
    ensures { IsTrue result ↔ AreComponentsLight k nodes.now }
{
    are_all_light(k, nodes)
}
