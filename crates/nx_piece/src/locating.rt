// Where a path leads in a piece, and how many children a node has there.
ghost use Rattle.std.specs.Prelude.{◌≡◌, ◌+◌, ◌≤◌, List, None, Some, length, MatchOption};
ghost use Rattle.std.specs.List.{slice_get};
ghost use Rattle.nx_piece.specs.declared.piece.Proxy.{Proxy};
ghost use Rattle.nx_piece.specs.Gapped.{grown_of, proxies_in};
ghost use Rattle.nx_piece.specs.Items.{gapped_of};
ghost use Rattle.nx_piece.specs.Valid.{IsPiece};
ghost use Rattle.nx_piece.specs.Locate.{Own, children_of, reached_in, IsPartOf, IsLocated};
ghost use Rattle.nx_piece.specs.Found.{IsFound, IsFoundAt};

use crate::finding::{member_at, roots_of};
use crate::{Item, Piece, PieceTree, Proxy};

/// Where a path leads.
#[derive(Clone, Copy)]
pub enum Located<'a> {
    /// To this tree of the piece. Before its own items stand runs of `first` proxies.
    Here {
        tree: &'a PieceTree,
        first: u32,
    },
    /// After `used` positions into the record of the proxy with this index, to the root `member` there.
    Away {
        proxy: Proxy,
        index: u32,
        member: u16,
        used: u32,
    },
    /// To no child of a node.
    Nowhere,
}

/// A child of a node.
#[derive(Clone, Copy)]
pub enum FoundChild<'a> {
    /// A tree, with the number of proxies that stand in runs before its own items, and its index among the node's items.
    Tree(&'a PieceTree, u32, usize),
    /// A root of the record of a proxy: the proxy's index, and the root's among those of the record.
    Root(u32, u16),
}

/// Where the path leads that begins at the root `member` of a piece of at most 512 slots and 257
/// roots; to no child where it has no such root. A proxy counts as as many children as it has roots. It takes no memory.
pub fn locate<'a>(piece: &'a Piece, member: u16, path: &[u32]) -> Located<'a>
    requires { IsPiece piece.now }
    ensures { IsLocated piece.now (reached_in piece.now member path.now) result }
{
    let proxies = piece.proxies.as_slice();
    let Some((mut tree, mut first)) = root_at(piece.body.roots.as_slice(), member) else {
        return Located::Nowhere;
    };
    for (used, position) in path.iter().enumerate() {
        match child_at(tree.children.as_slice(), proxies, first, *position) {
            None => return Located::Nowhere,
            Some(FoundChild::Tree(child, before, _)) => {
                tree = child;
                first = before;
            }
            Some(FoundChild::Root(index, member)) => {
                return Located::Away {
                    proxy: proxies[index as usize],
                    index,
                    member,
                    used: used as u32 + 1,
                };
            }
        }
    }
    Located::Here { tree, first }
}

/// How many children the node has, a proxy counted as as many as it has roots. The node is one of the
/// piece, and `first` proxies stand in runs before its own items. It takes no memory.
pub fn children(piece: &Piece, at: &PieceTree, first: u32) -> u32
    requires piece { IsPiece piece.now }
    requires node { IsPartOf piece.now at.now first }
    ensures { result ≡ length (children_of piece.now.proxies first at.now.below) }
{
    let proxies = piece.proxies.as_slice();
    let mut children = 0;
    let mut before = first;
    for item in at.children.as_slice() {
        match item {
            Item::Tree(tree) => {
                children += 1;
                before += proxies_below(tree);
            }
            Item::Run { count } => {
                let behind = before + *count;
                children += roots_of(&proxies[before as usize..behind as usize]);
                before = behind;
            }
        }
    }
    children
}

/// The root with this index, and how many proxies stand in runs before its own items; none where there are no more
/// roots. It takes no memory.
pub fn root_at(roots: &[PieceTree], member: u16) -> Option<(&PieceTree, u32)>
    requires { proxies_in (grown_of roots.now) ≤ 524288 }
    ensures { MatchOption result ((proxies : List Proxy) → slice_get (children_of proxies 0 (grown_of roots.now)) member ≡ None) (λ found. (proxies : List Proxy) → slice_get (children_of proxies 0 (grown_of roots.now)) member ≡ Some (Own found.0.now found.1)) }
{
    let mut first = 0;
    let mut left = member;
    for root in roots {
        if left == 0 {
            return Some((root, first));
        }
        left -= 1;
        first += proxies_below(root);
    }
    None
}

/// The child at a position among the items of a node, before which `first` of the proxies stand; none where the items stand
/// for no more children. A proxy counts as as many children as it has roots. It takes no memory.
pub fn child_at<'a>(
    items: &'a [Item],
    proxies: &[Proxy],
    first: u32,
    position: u32,
) -> Option<FoundChild<'a>>
    requires fits { first + proxies_in (gapped_of items.now) ≤ length proxies.now }
    requires few { length proxies.now ≤ 524288 }
    ensures found { IsFound (children_of proxies.now first (gapped_of items.now)) position result }
    ensures place { IsFoundAt items.now proxies.now first position result }
{
    let mut before = first;
    let mut left = position;
    for (index, item) in items.iter().enumerate() {
        match item {
            Item::Tree(tree) => {
                if left == 0 {
                    return Some(FoundChild::Tree(tree, before, index));
                }
                left -= 1;
                before += proxies_below(tree);
            }
            Item::Run { count } => {
                let behind = before + *count;
                match member_at(&proxies[before as usize..behind as usize], before, left) {
                    Ok((index, member)) => return Some(FoundChild::Root(index, member)),
                    Err(rest) => left = rest,
                }
                before = behind;
            }
        }
    }
    None
}

/// How many proxies stand in the runs below the node, at every depth. It takes no memory.
pub fn proxies_below(tree: &PieceTree) -> u32
    requires { proxies_in tree.now.below ≤ 524288 }
    ensures { result ≡ proxies_in tree.now.below }
{
    let mut proxies = 0;
    for item in tree.children.as_slice() {
        match item {
            Item::Tree(child) => proxies += proxies_below(child),
            Item::Run { count } => proxies += *count,
        }
    }
    proxies
}
