// A proxy taken out of a piece, or replaced.
ghost use Rattle.std.specs.Prelude.{◌≡◌, ◌<◌, ◌≤◌, [], ◌∷◌, length, vec_len};
ghost use Rattle.nx_piece.specs.Gapped.{proxies_in, grown_of};
ghost use Rattle.nx_piece.specs.Items.{gapped_of};
ghost use Rattle.nx_piece.specs.Valid.{IsPiece};
ghost use Rattle.nx_piece_edits.specs.Cutting.{without_proxy, IsWithoutProxy, IsWithProxy};
ghost use Rattle.nx_piece_edits.specs.Shortening.{IsRootOf, IsItemOf, WithoutRun};

use nx_piece::{Body, Item, Items, Piece, PieceTree, PieceTrees, Proxies, Proxy, proxies_below};
use std::alloc::Global;
use std::mem;

/// The piece without the proxy at the index, in whose run one fewer stands then. It may have 512 slots and 257 roots.
/// It takes no memory.
pub fn remove_proxy(alloc: Global, piece: Piece, index: u32) -> Piece
    requires piece { IsPiece piece }
    requires within { index < length piece.proxies }
    ensures { IsWithoutProxy piece index result }
{
    let Piece { body, proxies } = piece;
    let mut roots = body.roots.into_vec();
    let (place, left) = root_of(roots.as_slice(), index);
    shorten_below(alloc, &mut roots[place], left);
    let mut proxies = proxies.into_vec();
    proxies.remove(index as usize);
    Piece {
        body: Body {
            roots: PieceTrees::from_vec(roots),
        },
        proxies: Proxies::from_vec(proxies),
    }
}

/// The piece with this proxy in the place of the one at the index. It takes no memory.
pub fn replace_proxy(piece: Piece, index: u32, proxy: Proxy) -> Piece
    requires { index < length piece.proxies }
    ensures { IsWithProxy piece index proxy result }
{
    let Piece { body, proxies } = piece;
    let mut proxies = proxies.into_vec();
    proxies[index as usize] = proxy;
    Piece {
        body,
        proxies: Proxies::from_vec(proxies),
    }
}

// The root below which a proxy stands, and its index among the proxies there.
pub(crate) fn root_of(roots: &[PieceTree], index: u32) -> (usize, u32)
    requires there { index < proxies_in (grown_of roots.now) }
    requires few { proxies_in (grown_of roots.now) ≤ 524288 }
    ensures { IsRootOf roots.now index result }
{
    let mut left = index;
    for (place, root) in roots.iter().enumerate() {
        let below = proxies_below(root);
        if left < below {
            return (place, left);
        }
        left -= below;
    }
    unreachable!()
}

// The item in which or below which a proxy stands, and its index among the proxies there.
pub(crate) fn item_of(items: &[Item], index: u32) -> (usize, u32)
    requires there { index < proxies_in (gapped_of items.now) }
    requires few { proxies_in (gapped_of items.now) ≤ 524288 }
    ensures { IsItemOf items.now index result }
{
    let mut left = index;
    for (place, item) in items.iter().enumerate() {
        let own = proxies_of(item);
        if left < own {
            return (place, left);
        }
        left -= own;
    }
    unreachable!()
}

// How many proxies stand for the item, or below it.
fn proxies_of(item: &Item) -> u32
    requires { proxies_in (gapped_of (item.now ∷ [])) ≤ 524288 }
    ensures { result ≡ proxies_in (gapped_of (item.now ∷ [])) }
{
    match item {
        Item::Tree(tree) => proxies_below(tree),
        Item::Run { count } => *count,
    }
}

// Makes the run one shorter that has a proxy, whose index is that among those below the node.
fn shorten_below(alloc: Global, tree: &mut PieceTree, index: u32)
    requires there { index < proxies_in tree.old.below }
    requires few { proxies_in tree.old.below ≤ 524288 }
    ensures node { tree.new.node ≡ tree.old.node }
    ensures below { tree.new.below ≡ without_proxy index tree.old.below }
{
    let (place, left) = item_of(tree.children.as_slice(), index);
    let mut items = mem::replace(&mut tree.children, Items::new(alloc)).into_vec();
    match &mut items[place] {
        Item::Tree(child) => {
            shorten_below(alloc, child, left);
            tree.children = Items::from_vec(items);
        }
        Item::Run { count } => {
            let count = *count;
            shorten_run(&mut items, place, count);
            tree.children = Items::from_vec(items);
        }
    }
}

// Makes the run of so many proxies at that place one shorter, or takes it away.
fn shorten_run(items: &mut Vec<Item>, place: usize, count: u32)
    requires within { place < vec_len items.old }
    requires some { 1 ≤ count }
    ensures { WithoutRun items.old.items place count items.new.items }
{
    if count > 1 {
        items[place] = Item::Run { count: count - 1 };
    } else {
        items.remove(place);
    }
}
