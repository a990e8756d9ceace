// All documents of a few nodes, and all lists of disjoint intervals of a tree.
ghost use Rattle.std.specs.Prelude.{IfOk, IfSome};
ghost use Rattle.nx_tree.specs.Document.{IsDocument};

use super::plain::Placed;
use super::random::Random;
use nx_document_tests::read;
use nx_parts::{Interval, Partitioning};
use nx_pyx::ReadError;
use nx_tree::{NoMemory, Path, Tree};
use std::alloc::Global;

const LONG_NAME: &'static [u8] = b"element12";

const LONG_TEXT: &'static [u8] = b"-0123456789abcdef\n";

// The shape of a document: the instructions before and after its element, and what stands below that, as
// a word of two bits a node, which opens by 1 and closes by 0.
#[derive(Clone, Copy, Debug)]
pub(super) struct Shape {
    pub(super) before: u32,
    pub(super) below: u32,
    pub(super) after: u32,
    pub(super) word: u32,
}

// The document of that shape; `None` where the word isn't one of so many nodes. The weights are
// taken from the digits of a number.
pub(super) fn document(alloc: Global, shape: Shape, weights: u32) -> Result<Option<Tree>, ReadError>
    ensures { IfOk result (λ found. IfSome found IsDocument) }
{
    let mut text = Vec::new(alloc);
    if !push_document(alloc, shape, weights, &mut text)? {
        return Ok(None);
    }
    Ok(Some(read(alloc, text.as_slice())?))
}

fn push_document(
    alloc: Global,
    shape: Shape,
    weights: u32,
    text: &mut Vec<u8>,
) -> Result<bool, NoMemory> {
    push_lines(text, shape.before, b"?p x\n")?;
    if !push_element(alloc, shape, weights, text)? {
        return Ok(false);
    }
    push_lines(text, shape.after, b"?p 12345678\n")?;
    Ok(true)
}

fn push_lines(text: &mut Vec<u8>, count: u32, line: &[u8]) -> Result<(), NoMemory> {
    for _ in 0..count {
        text.extend_from_slice(line)?;
    }
    Ok(())
}

// The element, if its word is one of so many nodes.
fn push_element(
    alloc: Global,
    shape: Shape,
    weights: u32,
    text: &mut Vec<u8>,
) -> Result<bool, NoMemory> {
    // What is left of the word, and the names of the open elements.
    let mut word = shape.word;
    let mut open = Vec::new(alloc);
    push_open(text, &mut open, weights % 2 == 0)?;
    let mut weights = weights / 2;
    for _ in 0..2 * shape.below.min(8) {
        if word % 2 == 1 {
            push_node(text, &mut open, word % 4 == 1, weights % 3)?;
            weights /= 3;
        } else if open.len() < 2 || !push_close(text, &mut open)? {
            return Ok(false);
        }
        word /= 2;
    }
    Ok(word == 0 && open.len() == 1 && push_close(text, &mut open)?)
}

// An element, or a text that the next bit closes, of one of three weights.
fn push_node(
    text: &mut Vec<u8>,
    open: &mut Vec<&'static [u8]>,
    is_leaf: bool,
    weight: u32,
) -> Result<(), NoMemory> {
    if is_leaf && weight < 2 {
        push_text(text, weight == 0)?;
        open.push(&b""[..])?;
        return Ok(());
    }
    push_open(text, open, weight == 2)
}

fn push_open(
    text: &mut Vec<u8>,
    open: &mut Vec<&'static [u8]>,
    long: bool,
) -> Result<(), NoMemory> {
    let name = if long { LONG_NAME } else { &b"e"[..] };
    text.push(b'(')?;
    text.extend_from_slice(name)?;
    text.push(b'\n')?;
    open.push(name)?;
    Ok(())
}

// Closes the last open element; a text has the empty name, and no line of its own closes it.
fn push_close(text: &mut Vec<u8>, open: &mut Vec<&'static [u8]>) -> Result<bool, NoMemory> {
    let Some(name) = open.pop() else {
        return Ok(false);
    };
    if !name.is_empty() {
        text.push(b')')?;
        text.extend_from_slice(name)?;
        text.push(b'\n')?;
    }
    Ok(true)
}

fn push_text(text: &mut Vec<u8>, long: bool) -> Result<(), NoMemory> {
    text.extend_from_slice(if long { LONG_TEXT } else { b"-\n" })?;
    Ok(())
}

// The shapes with all words that may be one of so many nodes.
pub(super) fn push_shapes(
    before: u32,
    below: u32,
    after: u32,
    list: &mut Vec<Shape>,
) -> Result<(), NoMemory> {
    let mut words: u32 = 1;
    for _ in 0..below {
        words = words.saturating_mul(4);
    }
    for word in 0..words {
        list.push(Shape {
            before,
            below,
            after,
            word,
        })?;
    }
    Ok(())
}

// How many numbers code partitionings of a tree of these nodes.
pub(super) fn partitioning_codes(nodes: &[Placed<'_>]) -> u32 {
    let mut codes: u32 = 1;
    for _ in nodes.iter().skip(1) {
        codes = codes.saturating_mul(3);
    }
    codes
}

// The partitioning that a number codes by a digit for each node below the root: 0 where the node is no
// member, 1 where it begins an interval, 2 where it continues that of the node before it. `None` where
// there is nothing to continue.
pub(super) fn partitioning(
    alloc: Global,
    nodes: &[Placed<'_>],
    code: u32,
) -> Result<Option<Partitioning>, NoMemory> {
    let mut parts = Vec::new(alloc);
    if code % 2 == 0 {
        parts.push(Interval::Root)?;
    }
    let mut left = code;
    for placed in nodes {
        if let Some((position, parent)) = placed.path.as_slice().split_last() {
            if !is_placed(alloc, &mut parts, parent, *position, left % 3)? {
                return Ok(None);
            }
            left /= 3;
        }
    }
    if code % 2 == 1 {
        parts.push(Interval::Root)?;
    }
    Ok(Some(Partitioning::from_vec(parts)))
}

// Places that child by its digit; false where there is nothing to continue.
fn is_placed(
    alloc: Global,
    parts: &mut Vec<Interval>,
    parent: &[u32],
    position: u32,
    digit: u32,
) -> Result<bool, NoMemory> {
    if digit == 1 {
        parts.push(single(alloc, parent, position)?)?;
    }
    Ok(digit < 2 || is_continued(parts, parent, position))
}

// The interval of one child.
fn single(alloc: Global, parent: &[u32], position: u32) -> Result<Interval, NoMemory> {
    Ok(Interval::Run {
        parent: Path::from_slice(alloc, parent)?,
        first: position,
        last: position,
    })
}

// Continues the run that ends before that child; whether there is one.
fn is_continued(parts: &mut Vec<Interval>, path: &[u32], position: u32) -> bool {
    for interval in parts.iter_mut() {
        if let Interval::Run { parent, last, .. } = interval
            && parent.as_slice() == path
            && last.checked_add(1) == Some(position)
        {
            *last = position;
            return true;
        }
    }
    false
}

// A list of a few intervals, most often no partitioning.
pub(super) fn any_intervals(
    alloc: Global,
    tree: &Tree,
    random: &mut Random,
) -> Result<Partitioning, NoMemory> {
    let mut parts = Partitioning::new(alloc);
    for _ in 0..random.below(5) {
        let interval = if random.below(3) == 0 {
            Interval::Root
        } else {
            any_run(alloc, tree, random)?
        };
        parts.push(interval)?;
    }
    Ok(parts)
}

// A run below some node of the tree, or now and then below none.
fn any_run(alloc: Global, tree: &Tree, random: &mut Random) -> Result<Interval, NoMemory> {
    let mut path = Vec::new(alloc);
    let mut parent = tree;
    for _ in 0..random.below(4) {
        let position = random.below(3);
        path.push(position)?;
        match parent.children.as_slice().get(position as usize) {
            Some(child) => parent = child,
            None => break,
        }
    }
    Ok(Interval::Run {
        parent: Path::from_vec(path),
        first: random.below(3),
        last: random.below(4),
    })
}
