// The list of a piece's nodes, as a split sees them.
ghost use Rattle.std.specs.Prelude.{◌≡◌, ◌+◌, ◌<◌, ◌≤◌, ◌^◌, ◌++◌, length, IfOk};
ghost use Rattle.std.specs.List.{sum_by};
ghost use Rattle.std.specs.Option.{option_copied};
ghost use Rattle.nx_piece.specs.PieceNode.{item_slots, node_weight, MayBeFar};
ghost use Rattle.nx_piece.specs.Gapped.{gapped_size, gapped_weight, proxies_in};
ghost use Rattle.nx_piece.specs.Valid.{AreFar, HaveRoots, IsPiece};
ghost use Rattle.nx_sketch.specs.Sketch.{spots_of};
ghost use Rattle.nx_split.specs.Piece.{asked_of_root, sketch_of, tree_sketch};

use nx_lists::NoMemory;
use nx_matrix::{Entry, Matrix};
use nx_piece::{Item, Piece, PieceTree, Proxy};
use nx_sketch::Spot;
use nx_tree::Node;
use std::alloc::Global;

// What the nodes of a tree weigh, and how many proxies stand before it and in it.
#[derive(Clone, Copy)]
struct Passed {
    weight: u32,
    proxies: u32,
}

// The nodes of the piece in document order.
pub(crate) fn list_nodes(
    alloc: Global,
    piece: &Piece,
    above: Option<&Node>,
    matrix: &Matrix,
) -> Result<Vec<Spot>, NoMemory>
    requires { IsPiece piece.now }
    ensures { IfOk result (λ spots. spots.items ≡ spots_of (sketch_of matrix.now (option_copied above.entry) piece.now)) }
{
    let proxies = piece.proxies.as_slice();
    let mut spots = Vec::new(alloc);
    let mut first = 0;
    for (position, root) in piece.body.roots.as_slice().iter().enumerate() {
        let entry = root_entry(matrix, above, &root.node);
        let position = position as u32;
        let passed = push_tree(matrix, proxies, first, position, entry, root, &mut spots)?;
        first = passed.proxies;
    }
    Ok(spots)
}

// What is asked of a root below the node above the piece.
fn root_entry(matrix: &Matrix, above: Option<&Node>, root: &Node) -> Entry
    ensures { result ≡ asked_of_root matrix.now (option_copied above.entry) root.now }
{
    let Some(above) = above else {
        return Entry::Free;
    };
    match matrix.entry(above, root) {
        Entry::Standalone => Entry::Standalone,
        Entry::Cluster | Entry::Free => Entry::Free,
    }
}

// Adds the nodes of a tree, which has this position and entry and so many proxies before it.
fn push_tree(
    matrix: &Matrix,
    proxies: &[Proxy],
    first: u32,
    position: u32,
    entry: Entry,
    tree: &PieceTree,
    spots: &mut Vec<Spot>,
) -> Result<Passed, NoMemory>
    requires fits { first + proxies_in tree.now.below ≤ length proxies.now }
    requires few { length proxies.now ≤ 524288 }
    requires ranged { HaveRoots proxies.now }
    requires far { MayBeFar tree.now.node × AreFar tree.now.below }
    requires small { item_slots tree.now.node + gapped_size tree.now.below ≤ 512 }
    ensures spots { IfOk result (λ _. spots.new.items ≡ spots.old.items ++ spots_of (tree_sketch matrix.now proxies.now entry first position tree.now)) }
    ensures weight { IfOk result (λ passed. passed.weight ≡ node_weight tree.now.node + gapped_weight tree.now.below) }
    ensures proxies { IfOk result (λ passed. passed.proxies ≡ first + proxies_in tree.now.below) }
{
    let place = spots.len();
    let weight = tree.weight();
    let mut own = Spot {
        position,
        weight,
        within: weight,
        entry,
        below: 0,
    };
    spots.push(own)?;
    let (mut within, mut before, mut next) = (weight, first, 0);
    for item in tree.children.as_slice() {
        match item {
            Item::Tree(child) => {
                let entry = matrix.entry(&tree.node, &child.node);
                let passed = push_tree(matrix, proxies, before, next, entry, child, spots)?;
                within += passed.weight;
                before = passed.proxies;
                next += 1;
            }
            Item::Run { count } => {
                let behind = before + *count;
                next += roots_of(&proxies[before as usize..behind as usize]);
                before = behind;
            }
        }
    }
    own.within = within;
    own.below = (spots.len() - place - 1) as u32;
    spots[place] = own;
    Ok(Passed {
        weight: within,
        proxies: before,
    })
}

// How many trees the proxies stand for.
fn roots_of(proxies: &[Proxy]) -> u32
    requires { sum_by (λ proxy. proxy.roots) proxies.now < 2 ^ 32 }
    ensures { result ≡ sum_by (λ proxy. proxy.roots) proxies.now }
{
    proxies.iter().map(|proxy| u32::from(proxy.roots)).sum()
}
