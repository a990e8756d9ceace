// Where rows of trees are cut, by numbers of nodes.
ghost use Rattle.std.specs.Prelude.{◌≡◌, ◌+◌, ◌<◌, ◌≤◌, drop, length, IfSome};
ghost use Rattle.std.specs.Option.{option_map};
ghost use Rattle.nx_tree.specs.Forest.{forest_of, nodes};
ghost use Rattle.nx_par.specs.Rows.{AreTwo};

use nx_tree::{Tree, count};

/// Fewer nodes aren't worth a thread.
pub const FEW: usize = 2048;

/// What is known of trees that stand beside each other, and by how many workers they are bounded.
#[derive(Clone, Copy)]
pub struct Share {
    /// How many nodes the trees have.
    pub nodes: usize,
    /// The number of the first tree, where a gate is told of them.
    pub first: Option<u32>,
    pub workers: u32,
}

/// How trees that stand beside each other are bounded in two rows.
#[derive(Clone, Copy)]
pub struct TwoRows {
    /// How many trees the first row has.
    pub at: usize,
    pub front: Share,
    pub back: Share,
    /// Whether the rows are bounded at once, and not one after the other.
    pub at_once: bool,
}

/// Cuts a row off behind that has about one worker's part of the nodes, and shares the workers out by numbers of nodes. Where
/// one row has so few nodes beside the other that a worker for it would be lost to the other, the two are
/// bounded one after the other.
pub fn two_rows(trees: &[Tree], share: Share) -> TwoRows
    requires many { 2 ≤ length trees.now }
    requires few { share.nodes ≤ 524288 }
    requires nodes { share.nodes ≡ nodes (forest_of trees.now) }
    requires numbers { IfSome share.first (λ number. number + length trees.now ≤ 524288) }
    requires workers { 2 ≤ share.workers }
    ensures { AreTwo share trees.now result }
{
    let (at, behind) = last_row(trees, share.nodes, share.workers);
    let before = share.nodes - behind;
    let (front, back, at_once) = workers_of(before, behind, share.workers);
    TwoRows {
        at,
        front: Share {
            nodes: before,
            first: share.first,
            workers: front,
        },
        back: Share {
            nodes: behind,
            first: number_at(share.first, at),
            workers: back,
        },
        at_once,
    }
}

// How many of the workers bound a row of so many nodes, how many another one, and whether they do so at once.
fn workers_of(before: usize, behind: usize, workers: u32) -> (u32, u32, bool)
    requires before { before ≤ 524288 }
    requires behind { behind ≤ 524288 }
    requires any { 1 ≤ behind }
    requires workers { 2 ≤ workers }
    ensures front { 1 ≤ result.0 }
    ensures back { 1 ≤ result.1 }
{
    let lesser = before.min(behind);
    let most = before.max(behind) / workers as usize / workers as usize;
    if before + behind >= FEW && lesser <= most {
        return if before == lesser {
            (1, workers, false)
        } else {
            (workers, 1, false)
        };
    }
    let all = before + behind;
    let share = (before * workers as usize + all / 2) / all;
    let front = (share as u32).clamp(1, workers - 1);
    (front, workers - front, true)
}

// Before how many trees, at least one and not all, a last row begins that has about one worker's part of the nodes, and how many it has.
fn last_row(trees: &[Tree], all: usize, workers: u32) -> (usize, usize)
    requires many { 2 ≤ length trees.now }
    requires few { all ≤ 524288 }
    requires nodes { all ≡ nodes (forest_of trees.now) }
    requires workers { 2 ≤ workers }
    ensures some { 1 ≤ result.0 }
    ensures more { result.0 < length trees.now }
    ensures behind { result.1 ≡ nodes (forest_of (drop result.0 trees.now)) }
{
    let part = all / workers as usize;
    if all == trees.len() {
        // No tree has nodes below its root.
        let behind = part.max(1);
        return (all - behind, behind);
    }
    let mut at = trees.len() - 1;
    let mut behind = count(&trees[at]) as usize;
    while at > 1 {
        let next = count(&trees[at - 1]) as usize;
        if 2 * behind + next > 2 * part {
            return (at, behind);
        }
        behind += next;
        at -= 1;
    }
    (at, behind)
}

/// The number of the tree at a place, where trees have numbers.
pub fn number_at(first: Option<u32>, place: usize) -> Option<u32>
    requires { IfSome first (λ number. number + place ≤ 524288) }
    ensures { result ≡ option_map (λ number. number + place) first }
{
    match first {
        Some(number) => Some(number + place as u32),
        None => None,
    }
}
