// A document's lists of intervals, with the weights of their parts or why they are refused.
ghost use Rattle.std.specs.Prelude.{◌<◌, length};
ghost use Rattle.nx_tree.specs.Document.{IsDocument};

use nx_document_tests::read;
use nx_parts::{
    Interval, Partitioning, PartsError, check_feasible, feasible_weights, part_weights,
};
use nx_tree::{NoMemory, Path, Tree};
use nx_weights::Weights;
use std::alloc::Global;
use std::process::Abort;
use std::test::Fail;

// An element over a text, an element with two texts, and a text. A text weighs 3, an element 2.
const TEXT: &[u8] = b"(e
-0123456789abcdef
(e
-0123456789abcdef
-0123456789abcdef
)e
-0123456789abcdef
)e
";

// A run is given by its parent's path, its first and its last position, the root by nothing.
type Codes = &'static [&'static [u32]];

fn interval(alloc: Global, code: &[u32]) -> Result<Interval, NoMemory> {
    let [parent @ .., first, last] = code else {
        return Ok(Interval::Root);
    };
    Ok(Interval::Run {
        parent: Path::from_slice(alloc, parent)?,
        first: *first,
        last: *last,
    })
}

fn partitioning(alloc: Global, codes: &[&[u32]]) -> Result<Partitioning, NoMemory> {
    let mut parts = Partitioning::new(alloc);
    for code in codes {
        parts.push(interval(alloc, code)?)?;
    }
    Ok(parts)
}

// Partitionings, and the weights of their parts.
const WEIGHED: [(Codes, &[u64]); 3] = [
    (&[&[]], &[17]),
    (&[&[], &[0, 0]], &[1, 16]),
    (&[&[0, 0, 1], &[], &[0, 1, 1, 1], &[0, 2, 2]], &[8, 3, 3, 3]),
];

// The parts of the document have these weights, and are feasible with the heaviest allowed.
fn check_weights(
    rt: &impl Abort,
    alloc: Global,
    tree: &Tree,
    parts: &Partitioning,
    want: &[u64],
) -> Result<(), PartsError>
    requires { IsDocument tree.now }
{
    assert!(rt; parts.len() < 10);
    assert_eq!(rt; weights_of(alloc, tree, parts)?.as_slice(), want);
    assert_eq!(rt; feasible_of(alloc, tree, parts)?.as_slice(), want);
    Ok(())
}

fn weights_of(alloc: Global, tree: &Tree, parts: &Partitioning) -> Result<Weights, PartsError>
    requires document { IsDocument tree.now }
    requires few { length parts.now < 10 }
{
    part_weights(alloc, tree, parts)
}

fn feasible_of(alloc: Global, tree: &Tree, parts: &Partitioning) -> Result<Weights, PartsError>
    requires document { IsDocument tree.now }
    requires few { length parts.now < 10 }
{
    feasible_weights(alloc, tree, 17, parts)
}

#[test]
fn weighed(rt: HostRuntime) -> Result<(), Fail> {
    let tree = read(rt.alloc(), TEXT)?;
    for (codes, want) in WEIGHED {
        let parts = partitioning(rt.alloc(), codes)?;
        check_weights(&rt, rt.alloc(), &tree, &parts, want)?;
    }
    Ok(())
}

const HEAVY: PartsError = PartsError::Heavy {
    index: 1,
    weight: 16,
};

// Lists of intervals, the greatest weight that a part may have, and whether they are feasible.
const CHECKED: [(Codes, u32, Result<(), PartsError>); 10] = [
    (
        &[&[0, 1, 0], &[]],
        17,
        Err(PartsError::OutOfTree { index: 0 }),
    ),
    (
        &[&[0, 2, 3], &[7, 0]],
        17,
        Err(PartsError::OutOfTree { index: 0 }),
    ),
    (
        &[&[0, 3, 0, 0], &[]],
        17,
        Err(PartsError::OutOfTree { index: 0 }),
    ),
    (
        &[&[], &[], &[0, 3, 3]],
        17,
        Err(PartsError::OutOfTree { index: 2 }),
    ),
    (&[&[], &[]], 17, Err(PartsError::Overlap { index: 1 })),
    (
        &[&[0, 0, 1], &[0, 1, 2], &[0, 2, 2]],
        17,
        Err(PartsError::Overlap { index: 1 }),
    ),
    (&[], 17, Err(PartsError::NoRoot)),
    (&[&[0, 0]], 17, Err(PartsError::NoRoot)),
    (&[&[], &[0, 0]], 15, Err(HEAVY)),
    (&[&[], &[0, 0]], 16, Ok(())),
];

// Why the list is refused, if it is.
fn answer(
    rt: &impl Abort,
    alloc: Global,
    tree: &Tree,
    k: u32,
    codes: &[&[u32]],
) -> Result<(), PartsError>
    requires { IsDocument tree.now }
{
    let parts = partitioning(alloc, codes)?;
    assert!(rt; parts.len() < 10);
    check_feasible(alloc, tree, k, &parts)
}

#[test]
fn checked(rt: HostRuntime) -> Result<(), Fail> {
    let tree = read(rt.alloc(), TEXT)?;
    for (codes, k, want) in CHECKED {
        assert_eq!(rt; answer(&rt, rt.alloc(), &tree, k, codes), want);
    }
    Ok(())
}
