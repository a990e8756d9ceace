// The trial of the checks against plain functions, over all documents of a few nodes.
ghost use Rattle.nx_tree.specs.Document.{IsDocument};

mod choices;
mod claims;
mod documents;
mod minima;
mod plain;
mod planned;
mod random;

use choices::claim;
use claims::{any_supported, check_bounds};
use documents::{Shape, any_intervals, document, partitioning, partitioning_codes, push_shapes};
use minima::{Measured, measure, minima};
use nx_bounds::{BoundsError, Field, supported};
use nx_parts::{Bound, Bounds, Partitioning, PartsError, check_feasible};
use nx_tree::{NoMemory, Tree};
use plain::{check_plainly, placed_nodes, slots};
use random::Random;
use std::alloc::Global;
use std::process::Abort;
use std::test::Fail;

// The greatest number of nodes below the root.
const MOST: u32 = 5;

// How many shapes documents with so few nodes have.
const SHAPES: u32 = 1 + 3 + 7 + 16 + 39;

// How many lists of disjoint intervals there are over these shapes, each with the root's.
const PARTITIONINGS: u32 = 2_725;

// How much was tried.
#[derive(Clone, Copy, Debug, PartialEq, Eq)]
struct Tried {
    documents: u32,
    // Lists of intervals, at a number of slots each.
    lists: u32,
    // The feasible ones among them.
    feasible: u32,
    // Lists of bounds.
    claims: u32,
    // Those that aren't supported.
    refused: u32,
    // Partitionings for which a supported bound was seen to be true.
    obeyed: u32,
}

impl Tried {
    fn new() -> Tried {
        Tried {
            documents: 0,
            lists: 0,
            feasible: 0,
            claims: 0,
            refused: 0,
            obeyed: 0,
        }
    }
}

fn add_one(number: &mut u32) {
    *number = number.saturating_add(1);
}

// Each shape of a document with at most so many nodes below the root, and words that are none.
fn shapes(alloc: Global) -> Result<Vec<Shape>, NoMemory> {
    let mut list = Vec::new(alloc);
    for nodes in 1..=MOST {
        for before in 0..nodes {
            for after in 0..nodes - before {
                push_shapes(before, nodes - 1 - before - after, after, &mut list)?;
            }
        }
    }
    Ok(list)
}

#[test]
fn tries_all_partitionings(rt: HostRuntime) -> Result<(), Fail> {
    let mut random = Random::new(1);
    let mut tried = Tried::new();
    for shape in shapes(rt.alloc())?.as_slice() {
        for number in 0..6 {
            let weights = random.below(27).saturating_mul(6).saturating_add(number);
            try_lists(&rt, rt.alloc(), *shape, weights, &mut random, &mut tried)?;
        }
    }
    assert_eq!(rt;
        tried,
        Tried {
            documents: 6 * SHAPES,
            lists: 7 * 6 * (PARTITIONINGS + 20 * SHAPES),
            feasible: 29_810,
            claims: 0,
            refused: 0,
            obeyed: 0,
        }
    );
    Ok(())
}

// Lists of intervals of the document of that shape, if there is one.
fn try_lists(
    rt: &impl Abort,
    alloc: Global,
    shape: Shape,
    weights: u32,
    random: &mut Random,
    tried: &mut Tried,
) -> Result<(), Fail> {
    if let Some(tree) = document(alloc, shape, weights)? {
        add_one(&mut tried.documents);
        try_partitionings(rt, alloc, &tree, tried)?;
        try_intervals(rt, alloc, &tree, random, tried)?;
    }
    Ok(())
}

// All lists of disjoint intervals of the document.
fn try_partitionings(
    rt: &impl Abort,
    alloc: Global,
    tree: &Tree,
    tried: &mut Tried,
) -> Result<(), Fail>
    requires { IsDocument tree.now }
{
    let nodes = placed_nodes(alloc, tree)?;
    for code in 0..partitioning_codes(nodes.as_slice()) {
        if let Some(parts) = partitioning(alloc, nodes.as_slice(), code)? {
            try_list(rt, alloc, tree, &parts, tried)?;
        }
    }
    Ok(())
}

// Some lists of which most are no partitioning.
fn try_intervals(
    rt: &impl Abort,
    alloc: Global,
    tree: &Tree,
    random: &mut Random,
    tried: &mut Tried,
) -> Result<(), Fail>
    requires { IsDocument tree.now }
{
    for _ in 0..20 {
        let parts = any_intervals(alloc, tree, random)?;
        try_list(rt, alloc, tree, &parts, tried)?;
    }
    Ok(())
}

fn try_list(
    rt: &impl Abort,
    alloc: Global,
    tree: &Tree,
    parts: &Partitioning,
    tried: &mut Tried,
) -> Result<(), Fail>
    requires { IsDocument tree.now }
{
    for k in 1..8 {
        let found = feasible(rt, alloc, tree, k, parts);
        assert_eq!(rt; found, check_plainly(alloc, tree, k, parts));
        add_one(&mut tried.lists);
        if found.is_ok() {
            add_one(&mut tried.feasible);
        }
    }
    Ok(())
}

// What the check of a short list says.
fn feasible(
    rt: &impl Abort,
    alloc: Global,
    tree: &Tree,
    k: u32,
    parts: &Partitioning,
) -> Result<(), PartsError>
    requires { IsDocument tree.now }
{
    assert!(rt; parts.len() < 100);
    check_feasible(alloc, tree, k, parts)
}

#[test]
fn tries_bounds(rt: HostRuntime) -> Result<(), Fail> {
    let mut random = Random::new(2);
    let mut tried = Tried::new();
    for shape in shapes(rt.alloc())?.as_slice() {
        let weights = random.below(162);
        try_shape(&rt, rt.alloc(), *shape, weights, &mut random, &mut tried)?;
    }
    assert_eq!(rt;
        tried,
        Tried {
            documents: SHAPES,
            lists: 0,
            feasible: 0,
            claims: 5_337,
            refused: 3_791,
            obeyed: 11_162,
        }
    );
    Ok(())
}

// Bounds of the document of that shape, if there is one.
fn try_shape(
    rt: &impl Abort,
    alloc: Global,
    shape: Shape,
    weights: u32,
    random: &mut Random,
    tried: &mut Tried,
) -> Result<(), Fail> {
    if let Some(tree) = document(alloc, shape, weights)? {
        add_one(&mut tried.documents);
        try_bounds(rt, alloc, &tree, random, tried)?;
    }
    Ok(())
}

// The subtrees in document order, the tree itself the first.
fn subtrees(alloc: Global, tree: &Tree) -> Result<Vec<&Tree>, NoMemory> {
    let mut list = Vec::new(alloc);
    for placed in placed_nodes(alloc, tree)?.as_slice() {
        list.push(placed.tree)?;
    }
    Ok(list)
}

// All partitionings of each subtree.
fn measure_all(alloc: Global, subtrees: &[&Tree]) -> Result<Vec<Vec<Measured>>, NoMemory> {
    let mut lists = Vec::new(alloc);
    for subtree in subtrees {
        lists.push(measure_tree(alloc, subtree)?)?;
    }
    Ok(lists)
}

fn measure_tree(alloc: Global, tree: &Tree) -> Result<Vec<Measured>, NoMemory> {
    let nodes = placed_nodes(alloc, tree)?;
    measure(alloc, nodes.as_slice())
}

// What the heaviest of the subtrees' roots weighs.
fn heaviest_root(subtrees: &[&Tree]) -> u32 {
    let mut heaviest = 1;
    for subtree in subtrees {
        let own = slots(&subtree.node);
        heaviest = u32::try_from(own).unwrap_or(1).max(heaviest);
    }
    heaviest
}

fn try_bounds(
    rt: &impl Abort,
    alloc: Global,
    tree: &Tree,
    random: &mut Random,
    tried: &mut Tried,
) -> Result<(), Fail>
    requires { IsDocument tree.now }
{
    let subtrees = subtrees(alloc, tree)?;
    let lists = measure_all(alloc, subtrees.as_slice())?;
    let heaviest = heaviest_root(subtrees.as_slice());
    for k in 1..heaviest.saturating_add(3) {
        if heaviest <= k {
            try_all_minima(rt, alloc, k, tree, lists.as_slice(), tried)?;
        }
        for _ in 0..3 {
            let bounds = any_supported(alloc, k, subtrees.as_slice(), random)?;
            try_supported(
                rt,
                alloc,
                k,
                tree,
                bounds.as_slice(),
                lists.as_slice(),
                tried,
            )?;
            let bounds = any_near(alloc, bounds.as_slice(), random)?;
            try_near(
                rt,
                alloc,
                k,
                tree,
                bounds.as_slice(),
                lists.as_slice(),
                tried,
            )?;
        }
    }
    Ok(())
}

// Bounds that are supported, and so true.
fn try_supported(
    rt: &impl Abort,
    alloc: Global,
    k: u32,
    tree: &Tree,
    bounds: &[Bound],
    lists: &[Vec<Measured>],
    tried: &mut Tried,
) -> Result<(), Fail>
    requires { IsDocument tree.now }
{
    let supported = try_claims(rt, alloc, k, tree, bounds, tried)?;
    assert_eq!(rt; supported, Ok(()));
    try_law(rt, k, bounds, lists, tried)
}

// Bounds that are true where they are supported.
fn try_near(
    rt: &impl Abort,
    alloc: Global,
    k: u32,
    tree: &Tree,
    bounds: &[Bound],
    lists: &[Vec<Measured>],
    tried: &mut Tried,
) -> Result<(), Fail>
    requires { IsDocument tree.now }
{
    if try_claims(rt, alloc, k, tree, bounds, tried)?.is_ok() {
        try_law(rt, k, bounds, lists, tried)?;
    }
    Ok(())
}

fn try_all_minima(
    rt: &impl Abort,
    alloc: Global,
    k: u32,
    tree: &Tree,
    lists: &[Vec<Measured>],
    tried: &mut Tried,
) -> Result<(), Fail>
    requires { IsDocument tree.now }
{
    let bounds = all_minima(alloc, k, lists)?;
    try_minima(rt, alloc, k, tree, bounds.as_slice(), tried)
}

// The true minima of all subtrees, none of whose nodes weighs more than k.
fn all_minima(alloc: Global, k: u32, lists: &[Vec<Measured>]) -> Result<Vec<Bound>, Fail> {
    let mut bounds = Vec::new(alloc);
    for list in lists {
        bounds.push(minima(list.as_slice(), k).ok_or("no partitioning")?)?;
    }
    Ok(bounds)
}

// The true minima are supported, and no longer where one number is greater by one.
fn try_minima(
    rt: &impl Abort,
    alloc: Global,
    k: u32,
    tree: &Tree,
    bounds: &[Bound],
    tried: &mut Tried,
) -> Result<(), Fail>
    requires { IsDocument tree.now }
{
    let supported = try_claims(rt, alloc, k, tree, bounds, tried)?;
    assert_eq!(rt; supported, Ok(()));
    let mut node = 0;
    for bound in bounds {
        for field in [Field::Least, Field::Lean, Field::Nearly] {
            let found = claim(field, *bound);
            let claims = raised(alloc, bounds, node, field)?;
            let supported = try_claims(rt, alloc, k, tree, claims.as_slice(), tried)?;
            assert_eq!(rt; supported, Err(raised_refusal(node, field, found)));
        }
        add_one(&mut node);
    }
    Ok(())
}

// The refusal of a number that is greater by one than what was found.
fn raised_refusal(node: u32, field: Field, found: u32) -> BoundsError {
    BoundsError::Unsupported {
        node,
        field,
        claimed: found.saturating_add(1),
        found,
    }
}

fn raise(bound: &mut Bound, field: Field) {
    match field {
        Field::Least => add_one(&mut bound.least),
        Field::Lean => add_one(&mut bound.lean),
        Field::Nearly => add_one(&mut bound.nearly),
    }
}

// The bounds, with one number of a node greater by one.
fn raised(
    alloc: Global,
    bounds: &[Bound],
    node: u32,
    field: Field,
) -> Result<Vec<Bound>, NoMemory> {
    let mut list = Vec::from_slice(alloc, bounds)?;
    if let Some(bound) = list.get_mut(node as usize) {
        raise(bound, field);
    }
    Ok(list)
}

// Each feasible partitioning of each subtree obeys its bound.
fn try_law(
    rt: &impl Abort,
    k: u32,
    bounds: &[Bound],
    lists: &[Vec<Measured>],
    tried: &mut Tried,
) -> Result<(), Fail> {
    for (bound, list) in bounds.iter().zip(lists) {
        for measured in list.as_slice() {
            if measured.is_feasible(k) {
                assert!(rt; measured.obeys(*bound), "{measured:?}, {bound:?}, {k}");
                add_one(&mut tried.obeyed);
            }
        }
    }
    Ok(())
}

// Bounds of which some number is another one.
fn any_near(alloc: Global, bounds: &[Bound], random: &mut Random) -> Result<Vec<Bound>, NoMemory> {
    let mut list = Vec::new(alloc);
    for bound in bounds {
        list.push(Bound {
            least: random.near(bound.least),
            lean: random.near(bound.lean),
            nearly: random.near(bound.nearly),
        })?;
    }
    Ok(list)
}

// What the check of the bounds says, which is what the plain one says.
fn try_claims(
    rt: &impl Abort,
    alloc: Global,
    k: u32,
    tree: &Tree,
    bounds: &[Bound],
    tried: &mut Tried,
) -> Result<Result<(), BoundsError>, Fail>
    requires { IsDocument tree.now }
{
    let subtrees = subtrees(alloc, tree)?;
    let found = check_claims(rt, alloc, k, tree, bounds)?;
    assert_eq!(rt;
        found,
        check_bounds(alloc, k, subtrees.as_slice(), bounds),
        "{k}: {bounds:?}"
    );
    add_one(&mut tried.claims);
    if found.is_err() {
        add_one(&mut tried.refused);
    }
    Ok(found)
}

fn bounds_of(alloc: Global, bounds: &[Bound]) -> Result<Bounds, NoMemory> {
    Bounds::from_slice(alloc, bounds)
}

fn check_claims(
    rt: &impl Abort,
    alloc: Global,
    k: u32,
    tree: &Tree,
    bounds: &[Bound],
) -> Result<Result<(), BoundsError>, NoMemory>
    requires { IsDocument tree.now }
{
    let list = bounds_of(alloc, bounds)?;
    Ok(check_list(rt, alloc, k, tree, &list))
}

// What the check of a short list of bounds says.
fn check_list(
    rt: &impl Abort,
    alloc: Global,
    k: u32,
    tree: &Tree,
    list: &Bounds,
) -> Result<(), BoundsError>
    requires { IsDocument tree.now }
{
    assert!(rt; 0 < k && k <= 256);
    assert!(rt; list.len() < 100);
    supported(alloc, tree, k, list)
}
