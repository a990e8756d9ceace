// Whether a piece may be divided.
ghost use Rattle.std.specs.Prelude.{◌≡◌, ◌+◌, ◌≤◌, ◌↔◌, IsTrue};
ghost use Rattle.nx_piece.specs.PieceNode.{node_weight};
ghost use Rattle.nx_piece.specs.Gapped.{grown_of};
ghost use Rattle.nx_piece.specs.Valid.{IsPiece};
ghost use Rattle.nx_piece.specs.Weight.{HasShortNodes, HaveShortNodes};
ghost use Rattle.nx_split.specs.Piece.{AreGappedAtMost};
ghost use Rattle.nx_divide.specs.Marked.{many};
ghost use Rattle.nx_divide.specs.Heavy.{MayBeDivided};

use nx_piece::{Item, Piece, PieceTree};

/// Whether a piece that may be split may be divided into parts of at most `k`: it has 524,288 nodes and proxies at most,
/// and none of its nodes weighs more than `k`. A part of a document that became too heavy by one node has such a piece;
/// over pages that nobody vouches for it has to be asked.
pub fn may_be_divided(piece: &Piece, k: u32) -> bool
    requires { IsPiece piece.now }
    ensures { IsTrue result ↔ MayBeDivided k piece.now }
{
    let roots = piece.body.roots.as_slice();
    are_light(k, roots) && count_all(roots) <= 524_288
}

// Whether no node of these trees weighs more than k.
fn are_light(k: u32, trees: &[PieceTree]) -> bool
    requires { HaveShortNodes (grown_of trees.now) }
    ensures { IsTrue result ↔ AreGappedAtMost k (grown_of trees.now) }
{
    for tree in trees {
        if !is_light(k, tree) {
            return false;
        }
    }
    true
}

// Whether no node of the tree weighs more than k.
fn is_light(k: u32, tree: &PieceTree) -> bool
    requires { HasShortNodes tree.now }
    ensures { IsTrue result ↔ ((node_weight tree.now.node ≤ k) × AreGappedAtMost k tree.now.below) }
{
    if tree.weight() > k {
        return false;
    }
    for item in tree.children.as_slice() {
        if let Item::Tree(child) = item {
            if !is_light(k, child) {
                return false;
            }
        }
    }
    true
}

// How many nodes and proxies these trees have.
fn count_all(trees: &[PieceTree]) -> u32
    requires { many (grown_of trees.now) ≤ 4294967295 }
    ensures { result ≡ many (grown_of trees.now) }
{
    let mut count = 0;
    for tree in trees {
        count += count_tree(tree);
    }
    count
}

// How many the tree has.
fn count_tree(tree: &PieceTree) -> u32
    requires { 1 + many tree.now.below ≤ 4294967295 }
    ensures { result ≡ 1 + many tree.now.below }
{
    let mut count = 1;
    for item in tree.children.as_slice() {
        match item {
            Item::Tree(child) => count += count_tree(child),
            Item::Run { count: run } => count += run,
        }
    }
    count
}
