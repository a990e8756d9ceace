// What nodes of some lengths weigh, and the sums and first heavy nodes of one small document.
ghost use Rattle.std.specs.Prelude.{◌+◌, ◌≤◌};
ghost use Rattle.nx_tree.specs.Document.{longest_node};
ghost use Rattle.nx_weights.specs.Weight.{IsWithinLimits};

use crate::checks::check_count;
use crate::fixtures::read;
use nx_tree::{Bytes, Kind, NoMemory, Node, Tree, node_at};
use nx_weights::{Weights, first_heavy, subtree_weights, weight, weight_of};
use std::alloc::Global;
use std::process::Abort;
use std::test::Fail;

// How many bytes a name and a content have, and what a node of them weighs.
const LENGTHS: [(usize, usize, u32); 10] = [
    (0, 0, 1),
    (0, 1, 2),
    (3, 4, 2),
    (8, 0, 2),
    (4, 5, 3),
    (0, 16, 3),
    (1, 16, 4),
    // A content of more than 1,024 bytes counts for 8.
    (0, 1_024, 129),
    (0, 1_025, 2),
    (576, 1_048_000, 74),
];

// What a node of a name and a content of so many bytes weighs, by the node and by the two lengths.
fn weigh(rt: &impl Abort, alloc: Global, name: usize, content: usize) -> Result<u32, Fail> {
    assert!(rt; name <= 576 && content <= 1_048_000);
    let node = Node {
        kind: Kind::Attribute,
        name: Bytes::from_vec(vec![in alloc; b'n'; name]?),
        content: Bytes::from_vec(vec![in alloc; b'c'; content]?),
    };
    let weight = weight(&node);
    check_count(rt, weight_of(name as u32, content as u32), weight);
    Ok(weight)
}

#[test]
fn lengths(rt: HostRuntime) -> Result<(), Fail> {
    for (name, content, want) in LENGTHS {
        let found = weigh(&rt, rt.alloc(), name, content)?;
        check_count(&rt, found, want);
    }
    Ok(())
}

const TEXT: &[u8] = b"?p of eight
(e
Ax 
-sixteen, no less
(f
-and this has one.
)f
-this has twenty-four, so
)e
";

fn weights_of(alloc: Global, tree: &Tree) -> Result<Weights, NoMemory>
    requires { IsWithinLimits tree.now }
{
    subtree_weights(alloc, tree)
}

// Whether that is the first node that weighs more than k.
fn is_heavy(
    alloc: Global,
    tree: &Tree,
    k: u32,
    want: Option<(&[u32], u32)>,
) -> Result<bool, NoMemory>
    requires { IsWithinLimits tree.now }
{
    Ok(match first_heavy(alloc, tree, k)? {
        Some(heavy) => want == Some((heavy.path.as_slice(), heavy.weight)),
        None => want.is_none(),
    })
}

// The weights of the subtrees, and the first node that weighs more than each number from `k` on.
fn check(
    rt: &impl Abort,
    alloc: Global,
    tree: &Tree,
    weights: &[u64],
    mut k: u32,
    heavy: &[Option<(&[u32], u32)>],
) -> Result<(), NoMemory>
    requires { IsWithinLimits tree.now }
{
    let found = weights_of(alloc, tree)?;
    check_weights(rt, found.as_slice(), weights);
    for want in heavy {
        let found = is_heavy(alloc, tree, k, *want)?;
        check_heavy(rt, found, k);
        k = k.saturating_add(1);
    }
    Ok(())
}

fn check_weights(rt: &impl Abort, found: &[u64], want: &[u64]) {
    assert_eq!(rt; found, want);
}

fn check_heavy(rt: &impl Abort, found: bool, k: u32) {
    assert_eq!(rt; found, true, "{k}");
}

const HEAVY: [Option<(&[u32], u32)>; 5] = [
    Some((&[], 1)),
    Some((&[0], 3)),
    Some((&[0], 3)),
    Some((&[1, 2, 0], 4)),
    None,
];

// The document, and its element as a tree of its own.
#[test]
fn trees(rt: HostRuntime) -> Result<(), Fail> {
    let alloc = rt.alloc();
    let tree = read(alloc, TEXT)?;
    check(&rt, alloc, &tree, &[21, 3, 17, 2, 3, 6, 4, 4], 0, &HEAVY)?;
    let element = node_at(&tree, &[1])?;
    check(
        &rt,
        alloc,
        element,
        &[17, 2, 3, 6, 4, 4],
        2,
        &[Some((&[1], 3))],
    )?;
    Ok(())
}
