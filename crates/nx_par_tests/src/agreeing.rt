// Bounds by several threads beside those by one.
ghost use Rattle.std.specs.Prelude.{◌≤◌};
ghost use Rattle.nx_tree.specs.Document.{IsDocument};

use crate::bounding::{bounded, read};
use nx_par::NoGate;
use nx_partition::bounds;
use nx_parts::Bounds;
use nx_tree::Tree;
use std::alloc::Global;
use std::process::Abort;
use std::test::Fail;
use std::thread::Threads;

/// The bounds of the document of these lines by some numbers of workers are those by one thread.
pub fn agree<R: Threads + Abort + Sync>(rt: &R, alloc: Global, text: &[u8]) -> Result<(), Fail> {
    let tree = read(alloc, text)?;
    agree_at(rt, alloc, &tree, 14)?;
    agree_at(rt, alloc, &tree, 64)
}

fn agree_at<R: Threads + Abort + Sync>(
    rt: &R,
    alloc: Global,
    tree: &Tree,
    k: u32,
) -> Result<(), Fail>
    requires document { IsDocument tree.now }
    requires some { 1 ≤ k }
    requires bound { k ≤ 256 }
{
    let expected = plain(alloc, tree, k);
    for workers in [1u32, 2, 3, 16] {
        let found = bounded(rt, alloc, tree, k, workers.max(1), &NoGate)?;
        match (&expected, &found) {
            (Some(expected), Some(found)) => {
                assert!(rt;
                    expected.as_slice() == found.as_slice(),
                    "{workers} workers at {k}"
                );
            }
            (None, None) => {}
            _ => assert!(rt; false, "{workers} workers at {k}: one is refused"),
        }
    }
    Ok(())
}

// The bounds by one thread, unless a node is too heavy.
fn plain(alloc: Global, tree: &Tree, k: u32) -> Option<Bounds>
    requires document { IsDocument tree.now }
    requires some { 1 ≤ k }
    requires bound { k ≤ 256 }
{
    bounds(alloc, tree, k).ok()
}
