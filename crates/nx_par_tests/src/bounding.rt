// Documents, and their bounds.
ghost use Rattle.std.specs.Prelude.{◌≤◌, IfOk};
ghost use Rattle.nx_tree.specs.Document.{IsDocument};

use nx_par::{BoundsList, Gate, NoGate, bounds_of_all, bounds_wide};
use nx_partition::PlanError;
use nx_parts::Bounds;
use nx_pyx::{ReadError, Reader};
use nx_tree::{NoMemory, Path, Tree};
use nx_weights::first_heavy;
use std::alloc::Global;
use std::thread::Threads;

/// The document of these lines.
pub fn read(alloc: Global, text: &[u8]) -> Result<Tree, ReadError>
    ensures { IfOk result (λ tree. IsDocument tree) }
{
    let mut reader = Reader::new(alloc)?;
    reader.feed(text)?;
    reader.finish()
}

/// The minima of the document's nodes, unless one of them is too heavy.
pub fn bounded<R: Threads + Sync, G: Gate>(
    rt: &R,
    alloc: Global,
    tree: &Tree,
    k: u32,
    workers: u32,
    gate: &G,
) -> Result<Option<Bounds>, NoMemory>
    requires document { IsDocument tree.now }
    requires some { 1 ≤ k }
    requires bound { k ≤ 256 }
    requires workers { 1 ≤ workers }
{
    match bounds_wide(rt, alloc, tree, k, workers, gate) {
        Ok(found) => Ok(Some(found)),
        Err(PlanError::TooHeavy { .. }) => Ok(None),
        Err(PlanError::Memory) => Err(NoMemory),
    }
}

/// The first node that is too heavy, and its weight, as the bounds of the document are refused.
pub fn refused<R: Threads + Sync>(
    rt: &R,
    alloc: Global,
    tree: &Tree,
    k: u32,
    workers: u32,
) -> Option<(Path, u32)>
    requires document { IsDocument tree.now }
    requires some { 1 ≤ k }
    requires bound { k ≤ 256 }
    requires workers { 1 ≤ workers }
{
    match bounds_wide(rt, alloc, tree, k, workers, &NoGate) {
        Err(PlanError::TooHeavy { path, weight }) => Some((path, weight)),
        _ => None,
    }
}

/// The minima of the nodes of two documents, a list for each, unless a node is too heavy.
pub fn both_bounded<R: Threads + Sync>(
    rt: &R,
    alloc: Global,
    first: Tree,
    second: Tree,
    k: u32,
    workers: u32,
) -> Result<Option<BoundsList>, NoMemory>
    requires first { IsDocument first }
    requires second { IsDocument second }
    requires some { 1 ≤ k }
    requires bound { k ≤ 256 }
    requires workers { 1 ≤ workers }
{
    let heavy = first_heavy(alloc, &first, k)?.is_some();
    if heavy || first_heavy(alloc, &second, k)?.is_some() {
        return Ok(None);
    }
    let mut trees = Vec::new(alloc);
    trees.push(first)?;
    trees.push(second)?;
    Ok(Some(bounds_of_all(rt, alloc, trees.as_slice(), k, workers)?))
}
