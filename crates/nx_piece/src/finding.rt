// Where a path leads in a view of a piece, and how many children a node has there.
ghost use Rattle.std.specs.Prelude.{◌≡◌, ◌+◌, ◌≤◌, List, None, Some, length, MatchOption, IfOk, IfErr};
ghost use Rattle.std.specs.List.{slice_get, sum_by};
ghost use Rattle.nx_piece.specs.declared.piece.Proxy.{Proxy};
ghost use Rattle.nx_piece.specs.Gapped.{proxies_in};
ghost use Rattle.nx_piece.specs.Viewing.{seen_items, seen_tree};
ghost use Rattle.nx_piece.specs.Valid.{HaveRoots, IsPiece};
ghost use Rattle.nx_piece.specs.Locate.{Kept, kept_from, children_of, reached_in, IsPartOf};
ghost use Rattle.nx_piece.specs.Find.{IsLocatedView};
ghost use Rattle.nx_piece.specs.FoundView.{IsFoundView};

use crate::{ItemView, ItemsView, PieceView, Proxy, TreeView};

/// Where a path leads.
#[derive(Clone, Copy)]
pub enum LocatedView<'a> {
    /// To this tree of the piece. Before its own items stand runs of `first` proxies.
    Here {
        tree: TreeView<'a>,
        first: u32,
    },
    /// After `used` positions into the record of the proxy with this index, to the root `member` there.
    Away {
        proxy: Proxy,
        index: u32,
        member: u16,
        used: u32,
    },
    /// To no child of a node.
    Nowhere,
}

/// A child of a node.
#[derive(Clone, Copy)]
pub enum FoundView<'a> {
    /// A tree, with the number of proxies that stand in runs before its own items.
    Tree(TreeView<'a>, u32),
    /// A root of the record of a proxy: the proxy's index, and the root's among those of the record.
    Root(u32, u16),
}

/// Where the path leads that begins at the root `member` of a piece of at most 512 slots and 257
/// roots; to no child where it has no such root. A proxy counts as as many children as it has roots. It takes no memory.
pub fn find<'a>(piece: &'a PieceView<'_>, member: u16, path: &[u32]) -> LocatedView<'a>
    requires { IsPiece piece.now }
    ensures { IsLocatedView piece.now (reached_in piece.now member path.now) result }
{
    let proxies = piece.proxies.as_slice();
    let (mut tree, mut first) = match find_child(
        piece.body.roots(),
        proxies,
        0,
        u32::from(member),
    ) {
        None => return LocatedView::Nowhere,
        Some(FoundView::Tree(tree, first)) => (tree, first),
        // The roots of a piece are trees.
        Some(FoundView::Root(_, _)) => return LocatedView::Nowhere,
    };
    for (used, position) in path.iter().enumerate() {
        match find_child(tree.children, proxies, first, *position) {
            None => return LocatedView::Nowhere,
            Some(FoundView::Tree(child, before)) => {
                tree = child;
                first = before;
            }
            Some(FoundView::Root(index, member)) => {
                return LocatedView::Away {
                    proxy: proxies[index as usize],
                    index,
                    member,
                    used: used as u32 + 1,
                };
            }
        }
    }
    LocatedView::Here { tree, first }
}

/// How many children the node has, a proxy counted as as many as it has roots. The node is one of the
/// piece, and `first` proxies stand in runs before its own items. It takes no memory.
pub fn count_children(piece: &PieceView<'_>, at: TreeView<'_>, first: u32) -> u32
    requires piece { IsPiece piece.now }
    requires node { IsPartOf piece.now (seen_tree at) first }
    ensures { result ≡ length (children_of piece.now.proxies first (seen_items at.entry.children)) }
{
    let proxies = piece.proxies.as_slice();
    let mut children = 0;
    let mut before = first;
    let mut rest = at.children;
    while let Some((item, behind)) = rest.split_first() {
        match item {
            ItemView::Tree(tree) => {
                children += 1;
                before += tree.children.proxies();
            }
            ItemView::Run { count } => {
                let end = before + count;
                children += roots_of(&proxies[before as usize..end as usize]);
                before = end;
            }
        }
        rest = behind;
    }
    children
}

/// The child at a position among the items of a node, before which `first` of the proxies stand; none where the items stand
/// for no more children. A proxy counts as as many children as it has roots. It takes no memory.
pub fn find_child<'a>(
    items: ItemsView<'a>,
    proxies: &[Proxy],
    first: u32,
    position: u32,
) -> Option<FoundView<'a>>
    requires fits { first + proxies_in (seen_items items) ≤ length proxies.now }
    requires few { length proxies.now ≤ 524288 }
    ensures { IsFoundView (children_of proxies.now first (seen_items items.entry)) position result }
{
    let mut before = first;
    let mut left = position;
    let mut rest = items;
    while let Some((item, behind)) = rest.split_first() {
        match item {
            ItemView::Tree(tree) => {
                if left == 0 {
                    return Some(FoundView::Tree(tree, before));
                }
                left -= 1;
                before += tree.children.proxies();
            }
            ItemView::Run { count } => {
                let end = before + count;
                match member_at(&proxies[before as usize..end as usize], before, left) {
                    Ok((index, member)) => return Some(FoundView::Root(index, member)),
                    Err(over) => left = over,
                }
                before = end;
            }
        }
        rest = behind;
    }
    None
}

/// The proxy, by its index, and the root of it at a position among all roots of these proxies, of which the first has the
/// index `first`. It takes no memory.
///
/// Errors: how many positions are left behind them, where they have no more roots.
pub fn member_at(proxies: &[Proxy], first: u32, position: u32) -> Result<(u32, u16), u32>
    requires { first + length proxies.now ≤ 4294967295 }
    ensures found { IfOk result (λ found. slice_get (kept_from first proxies.now) position ≡ Some (Kept found.0 found.1)) }
    ensures behind { IfErr result (λ left. position ≡ length (kept_from first proxies.now) + left) }
{
    let mut left = position;
    for (offset, proxy) in proxies.iter().enumerate() {
        let roots = u32::from(proxy.roots);
        if left < roots {
            return Ok((first + offset as u32, left as u16));
        }
        left -= roots;
    }
    Err(left)
}

// How many roots the proxies have together.
pub(crate) fn roots_of(proxies: &[Proxy]) -> u32
    requires few { length proxies.now ≤ 524288 }
    requires ranged { HaveRoots proxies.now }
    ensures { result ≡ sum_by (λ proxy. proxy.roots) proxies.now }
{
    let mut roots = 0;
    for proxy in proxies {
        roots += u32::from(proxy.roots);
    }
    roots
}
