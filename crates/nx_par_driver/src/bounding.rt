// Documents, and their bounds.
ghost use Rattle.std.specs.Prelude.{◌≤◌, IfOk};
ghost use Rattle.nx_tree.specs.Document.{IsDocument};
ghost use Rattle.nx_weights.specs.Weight.{IsWithinLimits};

use nx_par::{NoGate, bounds_wide};
use nx_partition::{PlanError, bounds};
use nx_parts::Bound;
use nx_pyx::{ReadError, Reader};
use nx_tree::{NoMemory, Tree};
use std::alloc::Global;
use std::thread::Threads;

// The document of these lines.
pub(crate) fn read(alloc: Global, text: &[u8]) -> Result<Tree, ReadError>
    ensures { IfOk result (λ tree. IsDocument tree) }
{
    let mut reader = Reader::new(alloc)?;
    reader.feed(text)?;
    reader.finish()
}

// The numbers of intervals of all bounds of the document, added up, as often as there are rounds; 0 where a node is too heavy.
// No worker stands for one thread by itself, as the partitioner has it.
pub(crate) fn bounded<R: Threads + Sync>(
    rt: &R,
    alloc: Global,
    tree: &Tree,
    k: u32,
    workers: u32,
    rounds: u32,
) -> Result<u64, NoMemory>
    requires document { IsDocument tree.now }
    requires some { 1 ≤ k }
    requires bound { k ≤ 256 }
{
    let mut all: u64 = 0;
    for _ in 0..rounds {
        all = all.wrapping_add(once(rt, alloc, tree, k, workers)?);
    }
    Ok(all)
}

fn once<R: Threads + Sync>(
    rt: &R,
    alloc: Global,
    tree: &Tree,
    k: u32,
    workers: u32,
) -> Result<u64, NoMemory>
    requires some { 1 ≤ k }
    requires bound { k ≤ 256 }
    requires limits { IsWithinLimits tree.now }
{
    let found = if workers == 0 {
        bounds(alloc, tree, k)
    } else {
        bounds_wide(rt, alloc, tree, k, workers, &NoGate)
    };
    match found {
        Ok(bounds) => Ok(sum(bounds.as_slice())),
        Err(PlanError::TooHeavy { .. }) => Ok(0),
        Err(PlanError::Memory) => Err(NoMemory),
    }
}

fn sum(bounds: &[Bound]) -> u64 {
    let mut sum: u64 = 0;
    for bound in bounds {
        sum = sum.wrapping_add(u64::from(bound.least));
    }
    sum
}
