// Sketches for tests: from a list of their nodes, which may be written in a short notation.
ghost use Rattle.std.specs.Prelude.{IfSome, IsTrue};
ghost use Rattle.nx_sketch.specs.Sketch.{IsFlat};
ghost use Rattle.nx_division.specs.Divided.{IsSplittable};
ghost use Rattle.nx_division_tests.specs.Grown.{IsAllowed, IsGrown, IsSum};

use nx_lists::NoMemory;
use nx_matrix::Entry;
use nx_sketch::Spot;
use std::alloc::Global;

/// A node of a list in document order.
#[derive(Clone, Copy)]
pub struct Item {
    /// How deep it stands, where roots have depth 0.
    pub depth: usize,
    /// How many nodes of other parts stand right before it.
    pub gap: u32,
    /// What it weighs, in slots of 8 bytes.
    pub weight: u32,
    /// What is asked of it below its parent.
    pub entry: Entry,
}

// What was read last.
#[derive(Clone, Copy)]
enum Token {
    Weight,
    Gap,
    Other,
}

/// The nodes of a sketch that is written so: each node is its weight, `c` or `s` where it is a cluster or a
/// standalone child, and its children in brackets. `~2` stands for two nodes of other parts, and `~` for one.
///
/// Errors: `NoMemory`.
pub fn read(alloc: Global, text: &[u8]) -> Result<Vec<Item>, NoMemory> {
    let mut items: Vec<Item> = Vec::new(alloc);
    let (mut depth, mut gap, mut token) = (0usize, 0, Token::Other);
    for byte in text {
        match *byte {
            b'0'..=b'9' => {
                let digit = u32::from(*byte - b'0');
                match token {
                    Token::Gap => gap = digit,
                    Token::Weight => add_digit(&mut items, digit),
                    Token::Other => {
                        items.push(Item {
                            depth,
                            gap,
                            weight: digit,
                            entry: Entry::Free,
                        })?;
                        gap = 0;
                        token = Token::Weight;
                    }
                }
            }
            b'~' => {
                gap = 1;
                token = Token::Gap;
            }
            b'c' => ask(&mut items, Entry::Cluster),
            b's' => ask(&mut items, Entry::Standalone),
            other => {
                match other {
                    b'[' => depth = depth.saturating_add(1),
                    b']' => depth = depth.saturating_sub(1),
                    _ => {}
                }
                token = Token::Other;
            }
        }
    }
    Ok(items)
}

// One digit more of the last node's weight.
fn add_digit(items: &mut Vec<Item>, digit: u32) {
    if let Some(item) = items.last_mut() {
        item.weight = item.weight.saturating_mul(10).saturating_add(digit);
    }
}

// What is asked of the last node.
fn ask(items: &mut Vec<Item>, entry: Entry) {
    if let Some(item) = items.last_mut() {
        item.entry = entry;
    }
}

/// The list of the sketch with these nodes, each of which stands at most one level deeper than the one before. A
/// root that would have to stay with its parent is free.
///
/// Errors: `NoMemory`.
pub fn sketch(alloc: Global, items: &[Item]) -> Result<Vec<Spot>, NoMemory> {
    let mut spots = Vec::with_capacity(alloc, items.len())?;
    let mut next: Vec<u32> = Vec::new(alloc);
    for (place, item) in items.iter().enumerate() {
        next.truncate(item.depth.saturating_add(1));
        if next.len() <= item.depth {
            next.push(0)?;
        }
        let mut position = item.gap;
        if let Some(free) = next.last_mut() {
            position = position.saturating_add(*free);
            *free = position.saturating_add(1);
        }
        let (below, inner) = subtree(
            items.get(place.saturating_add(1)..).unwrap_or(&[]),
            item.depth,
        );
        spots.push(Spot {
            position,
            weight: item.weight,
            within: item.weight.saturating_add(inner),
            entry: match item.entry {
                Entry::Cluster if item.depth == 0 => Entry::Free,
                entry => entry,
            },
            below,
        })?;
    }
    Ok(spots)
}

// How many of the first nodes stand deeper, and what they weigh.
fn subtree(items: &[Item], depth: usize) -> (u32, u32) {
    let (mut nodes, mut weight) = (0u32, 0u32);
    for item in items {
        if item.depth <= depth {
            break;
        }
        nodes = nodes.saturating_add(1);
        weight = weight.saturating_add(item.weight);
    }
    (nodes, weight)
}

// Whether the node may stand there.
fn is_allowed(k: u32, low: u64, spot: &Spot) -> bool
    ensures { IsTrue result → IsAllowed k low spot.now }
{
    low <= u64::from(spot.position) && 0 < spot.weight && spot.weight <= k
}

// Whether the node weighs so much with those below it, and not too much with those beside it as well.
fn is_sum(spot: &Spot, inner: u32, others: u32) -> bool
    ensures { IsTrue result → IsSum spot.now inner others }
{
    let within = spot.weight as u64 + inner as u64;
    within == spot.within as u64 && within + (others as u64) < 1 << 24
}

// What the list's nodes weigh, where it is that of a sketch.
fn weigh(k: u32, low: u64, spots: &[Spot]) -> Option<u32>
    ensures { IfSome result (IsGrown k low spots.now) }
{
    let Some((spot, rest)) = spots.split_first() else {
        return Some(0);
    };
    let nodes = spot.below as usize;
    if rest.len() < nodes {
        return None;
    }
    let (below, beside) = rest.split_at(nodes);
    let inner = weigh(k, 0, below)?;
    let others = weigh(k, spot.position as u64 + 1, beside)?;
    if !is_allowed(k, low, spot) {
        return None;
    }
    if is_sum(spot, inner, others) {
        Some(spot.weight + inner + others)
    } else {
        None
    }
}

/// Whether the list is that of a sketch which weighs less than 2^24, whose positions rise, and in which no node
/// weighs 0 or more than `k`.
pub fn is_splittable(k: u32, spots: &[Spot]) -> bool
    ensures splittable { IsTrue result → IsSplittable k spots.now }
    ensures flat { IsTrue result → IsFlat spots.now }
{
    weigh(k, 0, spots).is_some()
}
