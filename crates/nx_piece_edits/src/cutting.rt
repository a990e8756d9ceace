// A tree taken out of a piece.
ghost use Rattle.std.specs.Prelude.{◌≡◌, ◌+◌, ◌++◌, ◌<◌, ◌≤◌, length, take, drop, vec_len, slice_index_or, IfOk};
ghost use Rattle.nx_piece.specs.Gapped.{proxies_in, grown_of};
ghost use Rattle.nx_piece.specs.Items.{gapped_of, with_items};
ghost use Rattle.nx_piece.specs.Valid.{AreApart, IsPiece};
ghost use Rattle.nx_piece_edits.specs.Cutting.{IsTreeRemoved};
ghost use Rattle.nx_piece_edits.specs.Taking.{IsTakenOut};

use nx_lists::NoMemory;
use nx_piece::{
    Body, FoundChild, Item, Items, Located, Piece, PieceTree, PieceTrees, Proxies, Proxy, child_at,
    locate, proxies_below, root_at,
};
use std::alloc::Global;
use std::mem;

/// A piece without one of its trees.
#[derive(Drop)]
pub struct Removed {
    /// What is left. It may be stored where it has a root.
    pub rest: Piece,
    /// The tree.
    pub tree: PieceTree,
    /// The proxies of the runs below the tree.
    pub proxies: Proxies,
}

/// Takes out the tree of the piece that the path leads to, which begins at the root `member`, with its proxies. Runs
/// that become neighbours are one. The answer is none exactly where the path leads to a proxy's record or to nothing;
/// the piece is dropped then. The piece may have 512 slots and 257 roots.
///
/// Errors: `NoMemory`, where there is none for the list of the tree's proxies.
pub fn remove_tree(
    alloc: Global,
    piece: Piece,
    member: u16,
    path: &[u32],
) -> Result<Option<Removed>, NoMemory>
    requires { IsPiece piece }
    ensures { IfOk result (λ removed. IsTreeRemoved piece member path.now removed) }
{
    let Located::Here { tree, first } = locate(&piece, member, path) else {
        return Ok(None);
    };
    let start = first as usize;
    let end = start + proxies_below(tree) as usize;
    let own = Proxies::from_slice(alloc, &piece.proxies.as_slice()[start..end])?;
    let left = without_range(alloc, piece.proxies.as_slice(), start, end)?;
    let Piece { body, proxies } = piece;
    let mut roots = body.roots.into_vec();
    let Some(tree) = cut_root(alloc, &mut roots, proxies.as_slice(), member, path) else {
        return Ok(None);
    };
    let body = Body {
        roots: PieceTrees::from_vec(roots),
    };
    Ok(Some(Removed {
        rest: Piece {
            body,
            proxies: left,
        },
        tree,
        proxies: own,
    }))
}

// The proxies without those from one index up to another.
fn without_range(
    alloc: Global,
    proxies: &[Proxy],
    start: usize,
    end: usize,
) -> Result<Proxies, NoMemory>
    requires order { start ≤ end }
    requires within { end ≤ length proxies.now }
    ensures { IfOk result (λ left. left ≡ take start proxies.now ++ drop end proxies.now) }
{
    let mut left = Proxies::with_capacity(alloc, proxies.len() - (end - start))?;
    left.extend_from_slice(&proxies[..start])?;
    left.extend_from_slice(&proxies[end..])?;
    Ok(left)
}

// Takes a tree out of the roots, or out of what is below one of them.
fn cut_root(
    alloc: Global,
    roots: &mut Vec<PieceTree>,
    proxies: &[Proxy],
    member: u16,
    path: &[u32],
) -> Option<PieceTree>
    requires fits { proxies_in (grown_of roots.old.items) ≤ length proxies.now }
    requires few { length proxies.now ≤ 524288 }
    requires apart { AreApart (grown_of roots.old.items) }
    ensures { IsTakenOut proxies.now 0 member path.now (grown_of roots.old.items) result (grown_of roots.new.items) }
{
    let (_, first) = root_at(roots.as_slice(), member)?;
    let index = usize::from(member);
    match path.split_first() {
        None => Some(roots.remove(index)),
        Some((next, rest)) => cut_below(alloc, &mut roots[index], proxies, first, *next, rest),
    }
}

// Takes a tree out of what is below a node, before whose items stand `first` of the proxies.
fn cut_below(
    alloc: Global,
    tree: &mut PieceTree,
    proxies: &[Proxy],
    first: u32,
    position: u32,
    path: &[u32],
) -> Option<PieceTree>
    requires fits { first + proxies_in tree.old.below ≤ length proxies.now }
    requires few { length proxies.now ≤ 524288 }
    requires apart { AreApart tree.old.below }
    ensures node { tree.new.node ≡ tree.old.node }
    ensures below { IsTakenOut proxies.now first position path.now tree.old.below result tree.new.below }
{
    let Some(FoundChild::Tree(_, before, index)) = child_at(
        tree.children.as_slice(),
        proxies,
        first,
        position,
    ) else {
        return None;
    };
    let mut items = mem::replace(&mut tree.children, Items::new(alloc)).into_vec();
    let Some((next, rest)) = path.split_first() else {
        let cut = take_item(&mut items, index);
        tree.children = Items::from_vec(items);
        return match cut {
            Item::Tree(cut) => Some(cut),
            Item::Run { count: _ } => unreachable!(),
        };
    };
    match &mut items[index] {
        Item::Tree(child) => {
            let cut = cut_below(alloc, child, proxies, before, *next, rest);
            tree.children = Items::from_vec(items);
            cut
        }
        Item::Run { count: _ } => unreachable!(),
    }
}

// Takes one item out. Runs that become neighbours are one.
fn take_item(items: &mut Vec<Item>, index: usize) -> Item
    requires within { index < vec_len items.old }
    requires few { proxies_in (gapped_of items.old.items) ≤ 524288 }
    requires apart { AreApart (gapped_of items.old.items) }
    ensures item { result ≡ slice_index_or items.old.items index result }
    ensures rest { gapped_of items.new.items ≡ with_items (take index items.old.items) (gapped_of (drop (index + 1) items.old.items)) }
{
    let item = items.remove(index);
    join_runs(items, index);
    item
}

// Makes one of the item before the index and the one at it, where both are runs.
fn join_runs(items: &mut Vec<Item>, index: usize)
    requires within { index ≤ vec_len items.old }
    requires few { proxies_in (gapped_of items.old.items) ≤ 524288 }
    requires apart { AreApart (gapped_of (take index items.old.items)) }
    ensures { gapped_of items.new.items ≡ with_items (take index items.old.items) (gapped_of (drop index items.old.items)) }
{
    if index == 0 || index >= items.len() {
        return;
    }
    let Item::Run { count } = &items[index - 1] else {
        return;
    };
    let Item::Run { count: more } = &items[index] else {
        return;
    };
    let count = *count + *more;
    items[index - 1] = Item::Run { count };
    items.remove(index);
}
