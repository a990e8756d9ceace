// What partitionings are, by plain and slow functions that follow the definitions word by word.
ghost use Rattle.nx_tree.specs.Document.{IsDocument};

use nx_parts::{Interval, Partitioning, PartsError};
use nx_tree::{NoMemory, Node, Tree, node_at};
use std::alloc::Global;

/// A node below some tree, by its path there.
#[derive(Drop)]
pub(super) struct Placed<'a> {
    pub(super) path: Vec<u32>,
    pub(super) tree: &'a Tree,
}

/// The nodes of the tree in document order, the root first.
pub(super) fn placed_nodes(alloc: Global, tree: &Tree) -> Result<Vec<Placed<'_>>, NoMemory> {
    let mut list = Vec::new(alloc);
    let mut path = Vec::new(alloc);
    push_placed(alloc, tree, &mut path, &mut list)?;
    Ok(list)
}

fn push_placed<'a>(
    alloc: Global,
    tree: &'a Tree,
    path: &mut Vec<u32>,
    list: &mut Vec<Placed<'a>>,
) -> Result<(), NoMemory> {
    list.push(Placed {
        path: Vec::from_slice(alloc, path.as_slice())?,
        tree,
    })?;
    let mut position: u32 = 0;
    for child in tree.children.as_slice() {
        path.push(position)?;
        push_placed(alloc, child, path, list)?;
        let _ = path.pop();
        position = position.saturating_add(1);
    }
    Ok(())
}

fn has_member(interval: &Interval, path: &[u32]) -> bool {
    match interval {
        Interval::Root => path.is_empty(),
        Interval::Run {
            parent,
            first,
            last,
        } => match path.split_last() {
            Some((position, prefix)) => {
                parent.as_slice() == prefix && first <= position && position <= last
            }
            None => false,
        },
    }
}

fn is_in_tree(tree: &Tree, interval: &Interval) -> bool
    requires { IsDocument tree.now }
{
    match interval {
        Interval::Root => true,
        Interval::Run {
            parent,
            first,
            last,
        } => match node_at(tree, parent.as_slice()) {
            Ok(node) => first <= last && (*last as usize) < node.children.len(),
            Err(_) => false,
        },
    }
}

// Whether some node is a member of both.
fn share_member(alloc: Global, one: &Interval, other: &Interval) -> Result<bool, NoMemory> {
    match one {
        Interval::Root => Ok(has_member(other, &[])),
        Interval::Run {
            parent,
            first,
            last,
        } => {
            for position in *first..=*last {
                let mut path = Vec::from_slice(alloc, parent.as_slice())?;
                path.push(position)?;
                if has_member(other, path.as_slice()) {
                    return Ok(true);
                }
            }
            Ok(false)
        }
    }
}

fn holder(parts: &[Interval], path: &[u32]) -> Option<usize> {
    parts.iter().position(|interval| has_member(interval, path))
}

// The index of the interval that has the node or the nearest one above it.
fn owner(parts: &[Interval], path: &[u32]) -> Option<usize> {
    for len in (0..=path.len()).rev() {
        if let Some(prefix) = path.get(..len)
            && let Some(index) = holder(parts, prefix)
        {
            return Some(index);
        }
    }
    None
}

/// What the part of the interval of that index weighs.
pub(super) fn part_weight(nodes: &[Placed<'_>], parts: &[Interval], index: usize) -> u64 {
    let mut sum: u64 = 0;
    for placed in nodes {
        if owner(parts, placed.path.as_slice()) == Some(index) {
            let tree = placed.tree;
            sum = sum.saturating_add(slots(&tree.node));
        }
    }
    sum
}

/// What the part of the root's interval weighs.
pub(super) fn root_weight(nodes: &[Placed<'_>], parts: &[Interval]) -> u64 {
    match holder(parts, &[]) {
        Some(index) => part_weight(nodes, parts, index),
        None => 0,
    }
}

/// What the node weighs: a content of more than 1,024 bytes counts for 8.
pub(super) fn slots(node: &Node) -> u64 {
    let content = node.content.len();
    let counted = if content > 1_024 { 8 } else { content };
    let bytes = node.name.len().saturating_add(counted);
    (bytes.div_ceil(8) as u64).saturating_add(1)
}

/// Whether the list is a partitioning none of whose parts weighs more than k, and else why not: the
/// first reason, and its first place.
pub(super) fn check_plainly(
    alloc: Global,
    tree: &Tree,
    k: u32,
    parts: &Partitioning,
) -> Result<(), PartsError>
    requires { IsDocument tree.now }
{
    let parts = parts.as_slice();
    check_partitioning(alloc, tree, parts)?;
    let nodes = placed_nodes(alloc, tree)?;
    for index in 0..parts.len() {
        let weight = part_weight(nodes.as_slice(), parts, index);
        if weight > u64::from(k) {
            let index = u32::try_from(index).unwrap_or(u32::MAX);
            return Err(PartsError::Heavy { index, weight });
        }
    }
    Ok(())
}

fn check_partitioning(alloc: Global, tree: &Tree, parts: &[Interval]) -> Result<(), PartsError>
    requires { IsDocument tree.now }
{
    for (index, interval) in parts.iter().enumerate() {
        if !is_in_tree(tree, interval) {
            let index = u32::try_from(index).unwrap_or(u32::MAX);
            return Err(PartsError::OutOfTree { index });
        }
    }
    for index in 0..parts.len() {
        for earlier in 0..index {
            if share_member(alloc, &parts[index], &parts[earlier])? {
                let index = u32::try_from(index).unwrap_or(u32::MAX);
                return Err(PartsError::Overlap { index });
            }
        }
    }
    if !parts
        .iter()
        .any(|interval| matches!(interval, Interval::Root))
    {
        return Err(PartsError::NoRoot);
    }
    Ok(())
}
