// Where a new child falls among the children of a node.
ghost use Rattle.std.specs.Prelude.{◌≡◌, ◌+◌, ◌≤◌, ℕ, length, drop};
ghost use Rattle.nx_piece.specs.Gapped.{GappedTree, proxies_in};
ghost use Rattle.nx_piece.specs.Items.{gapped_of};
ghost use Rattle.nx_piece.specs.Locate.{Inside, children_of, reached_in};
ghost use Rattle.nx_piece.specs.Valid.{AreApart, HaveRoots, IsPiece};
ghost use Rattle.nx_piece_edits.specs.Setting.{LeadsInside};
ghost use Rattle.nx_piece_edits.specs.Planting.{FallsAt, FallsApart};
ghost use Rattle.nx_piece_edits.specs.Editing.{IsSpot};

use nx_piece::{
    FoundChild, Item, Located, Piece, Proxy, child_at, children, locate, member_at, proxies_below,
};

/// Where a new child of a node falls at a position among its children. A proxy counts as as many children as it has
/// roots.
#[derive(Clone, Copy)]
pub enum Fall {
    /// Between two children, or before or behind all. Before it stand `index` of the piece's proxies.
    Between {
        index: u32,
    },
    /// Into the interval of the proxy with this index: `member` of its roots stand before it, one at least and not all.
    Inside {
        proxy: Proxy,
        index: u32,
        member: u16,
    },
    /// Behind all children and not next to them: the node has fewer.
    Nowhere,
}

/// Where a position falls among the children of the node that the path leads to, which begins at the root `member`: to a
/// tree of the piece, as `locate` tells. The piece may have 512 slots and 257 roots. It takes no memory.
pub fn fall_at(piece: &Piece, member: u16, path: &[u32], position: u32) -> Fall
    requires piece { IsPiece piece.now }
    requires leads { LeadsInside piece.now member path.now }
    ensures { (tree : GappedTree) (first : ℕ) → reached_in piece.now member path.now ≡ Inside tree first → FallsAt piece.now tree first position result }
{
    let Located::Here { tree, first } = locate(piece, member, path) else {
        unreachable!();
    };
    let proxies = piece.proxies.as_slice();
    let Some(found) = child_at(tree.children.as_slice(), proxies, first, position) else {
        if position != children(piece, tree, first) {
            return Fall::Nowhere;
        }
        let index = first + proxies_below(tree);
        return Fall::Between { index };
    };
    match found {
        FoundChild::Tree(_, index, _) => Fall::Between { index },
        FoundChild::Root(index, member) => {
            if member == 0 {
                return Fall::Between { index };
            }
            let proxy = proxies[index as usize];
            Fall::Inside {
                proxy,
                index,
                member,
            }
        }
    }
}

// The index of the item at which a position falls, and how many proxies of the run there stand before it.
pub(crate) fn spot_at(items: &[Item], proxies: &[Proxy], first: u32, position: u32) -> (usize, u32)
    requires fits { first + proxies_in (gapped_of items.now) ≤ length proxies.now }
    requires few { length proxies.now ≤ 524288 }
    requires apart { AreApart (gapped_of items.now) }
    requires ranged { HaveRoots proxies.now }
    requires between { FallsApart (children_of proxies.now first (gapped_of items.now)) position }
    ensures { IsSpot items.now (drop first proxies.now) position result.0 result.1 }
{
    let mut before = first;
    let mut left = position;
    for (index, item) in items.iter().enumerate() {
        if left == 0 {
            return (index, 0);
        }
        match item {
            Item::Tree(tree) => {
                left -= 1;
                before += proxies_below(tree);
            }
            Item::Run { count } => {
                let behind = before + *count;
                match member_at(&proxies[before as usize..behind as usize], before, left) {
                    Ok((index_there, _)) => return (index, index_there - before),
                    Err(rest) => left = rest,
                }
                before = behind;
            }
        }
    }
    (items.len(), 0)
}
