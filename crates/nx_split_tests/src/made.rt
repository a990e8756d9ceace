// Small pieces, written as records and read again, and what divisions of them are.
ghost use Rattle.std.specs.Prelude.{IsTrue};
ghost use Rattle.nx_piece.specs.Gapped.{grown_of};
ghost use Rattle.nx_piece.specs.Valid.{IsValidInline};
ghost use Rattle.nx_piece.specs.Weight.{HasShortNodes, HaveShortNodes};
ghost use Rattle.nx_matrix.specs.Rules.{IsLabel};
ghost use Rattle.nx_split.specs.Piece.{AreGappedAtMost};
ghost use Rattle.nx_split_tests.specs.Light.{IsTreeAtMost};

use nx_lists::NoMemory;
use nx_matrix::{Entry, Matrix, MatrixError};
use nx_parts::{Interval, Partitioning};
use nx_piece::{Item, Piece, PieceTree, Stored, decode, weight};
use nx_split::{Division, Marks, separator, split};
use nx_tree::Node;
use std::alloc::Global;

// What stands at one place of a piece.
#[derive(Clone, Copy)]
pub(crate) enum Made {
    // A node of which nothing is asked, that weighs so much and has so many items below it.
    Free(u16, u16),
    // One that is asked to stay with its parent.
    Cluster(u16, u16),
    // One that is asked to be an interval alone.
    Standalone(u16, u16),
    // A run of one proxy, with so many roots.
    Proxy(u16),
}

// How a piece is divided.
#[derive(Clone, Copy)]
pub(crate) struct Limits {
    pub(crate) room: u32,
    pub(crate) k: u32,
    pub(crate) target: u32,
    pub(crate) tolerance: u32,
}

// The entries of attributes, texts and instructions below each other: a text is asked to stay, and an
// instruction to be alone.
pub(crate) fn make_rules(alloc: Global) -> Result<Matrix, MatrixError> {
    let mut matrix = Matrix::new(alloc);
    set_below(&mut matrix, b"@")?;
    set_below(&mut matrix, b"#text")?;
    set_below(&mut matrix, b"?")?;
    Ok(matrix)
}

// These entries below one parent.
fn set_below(matrix: &mut Matrix, parent: &[u8]) -> Result<(), MatrixError>
    requires { IsLabel parent.now }
{
    matrix.set(parent, b"#text", Entry::Cluster)?;
    matrix.set(parent, b"?", Entry::Standalone)
}

// The record of a piece with so many roots.
fn record(alloc: Global, roots: u16, items: &[Made]) -> Result<Vec<u8>, NoMemory> {
    let mut body = Vec::new(alloc);
    let mut proxies = Vec::new(alloc);
    for item in items {
        match item {
            Made::Free(weight, below) => push_node(&mut body, 3, *weight, *below)?,
            Made::Cluster(weight, below) => push_node(&mut body, 4, *weight, *below)?,
            Made::Standalone(weight, below) => push_node(&mut body, 5, *weight, *below)?,
            Made::Proxy(roots) => {
                let [r1, r0] = roots.to_be_bytes();
                body.extend_from_slice(&[6, 0, 0, 0, 0, 0, 0, 1])?;
                proxies.extend_from_slice(&[0, 0, 0, 9, 0, 3, r1, r0])?;
            }
        }
    }
    let [r1, r0] = roots.to_be_bytes();
    let [_, _, _, _, _, _, i1, i0] = (items.len() as u64).to_be_bytes();
    let [_, _, _, _, _, _, p1, p0] = (proxies.len() as u64 / 8).to_be_bytes();
    let mut bytes = Vec::new(alloc);
    bytes.extend_from_slice(&[1, 0, r1, r0, 0, 0, i1, i0, 0, 0, p1, p0, 0, 0, 0, 0])?;
    bytes.extend_from_slice(&body)?;
    bytes.extend_from_slice(&proxies)?;
    Ok(bytes)
}

// A node with an empty name, of which the content makes the weight.
fn push_node(bytes: &mut Vec<u8>, kind: u8, weight: u16, items: u16) -> Result<(), NoMemory> {
    let [c1, c0] = weight.saturating_sub(1).saturating_mul(8).to_be_bytes();
    let [i1, i0] = items.to_be_bytes();
    bytes.extend_from_slice(&[kind, 0, 0, 0, c1, c0, i1, i0])?;
    for _ in 1..weight {
        bytes.extend_from_slice(b"contents")?;
    }
    Ok(())
}

// The division of the piece. `None` where there is no such piece, or it may not be divided.
pub(crate) fn division_of(
    alloc: Global,
    roots: u16,
    items: &[Made],
    above: Option<&Node>,
    matrix: &Matrix,
    limits: Limits,
) -> Result<Option<Division>, NoMemory> {
    let bytes = record(alloc, roots, items)?;
    let Some(Stored::Inline(piece)) = decode(alloc, bytes.as_slice())? else {
        return Ok(None);
    };
    divide_piece(alloc, &piece, above, matrix, limits)
}

// The division of a piece, where it may be divided.
#[tactic(auto, using(nx_piece::proofs::Laws::inline_is_piece, nx_piece::proofs::Laws::are_short, nx_piece::proofs::Laws::little_weight))]
fn divide_piece(
    alloc: Global,
    piece: &Piece,
    above: Option<&Node>,
    matrix: &Matrix,
    limits: Limits,
) -> Result<Option<Division>, NoMemory>
    requires { IsValidInline piece.now.body.roots piece.now.proxies }
{
    let Limits {
        room,
        k,
        target,
        tolerance,
    } = limits;
    let heavy = weight(&piece.body);
    if heavy <= k || !are_light(k, piece.body.roots.as_slice()) {
        return Ok(None);
    }
    Ok(Some(split(alloc, piece, above, room, matrix, k, target, tolerance)?))
}

// Whether no node of these trees weighs more than k.
fn are_light(k: u32, trees: &[PieceTree]) -> bool
    requires { HaveShortNodes (grown_of trees.now) }
    ensures { IsTrue result → AreGappedAtMost k (grown_of trees.now) }
{
    for tree in trees {
        if !is_light(k, tree) {
            return false;
        }
    }
    true
}

// Whether no node of the tree weighs more than k.
fn is_light(k: u32, tree: &PieceTree) -> bool
    requires { HasShortNodes tree.now }
    ensures { IsTrue result → IsTreeAtMost k tree.now }
{
    if tree.weight() > k {
        return false;
    }
    for item in tree.children.as_slice() {
        if let Item::Tree(child) = item {
            if !is_light(k, child) {
                return false;
            }
        }
    }
    true
}

// The intervals as numbers: of each how long the parent's path is, that path, the first position and the last one.
pub(crate) fn numbers(alloc: Global, parts: &Partitioning) -> Result<Vec<u32>, NoMemory> {
    let mut numbers = Vec::new(alloc);
    for interval in parts.as_slice() {
        if let Interval::Run {
            parent,
            first,
            last,
        } = interval
        {
            numbers.push(u32::try_from(parent.len()).unwrap_or(u32::MAX))?;
            numbers.extend_from_slice(parent.as_slice())?;
            numbers.extend_from_slice(&[*first, *last])?;
        }
    }
    Ok(numbers)
}

// The marks of the piece, `None` where there is no such piece.
#[tactic(auto, using(nx_piece::proofs::Laws::inline_is_piece, nx_piece::proofs::Laws::are_short, nx_piece::proofs::Laws::little_weight))]
pub(crate) fn marks_of(
    alloc: Global,
    roots: u16,
    items: &[Made],
    target: u32,
    tolerance: u32,
) -> Result<Option<Marks>, NoMemory> {
    let bytes = record(alloc, roots, items)?;
    let Some(Stored::Inline(piece)) = decode(alloc, bytes.as_slice())? else {
        return Ok(None);
    };
    Ok(Some(separator(alloc, &piece, target, tolerance)?))
}
