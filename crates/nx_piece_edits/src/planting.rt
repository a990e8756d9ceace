// A node or a proxy planted among the children of a node.
ghost use Rattle.std.specs.Prelude.{◌≡◌, ◌+◌, ◌-◌, ◌++◌, ◌∷◌, ◌<◌, ◌≤◌, ℕ, length, take, drop, List, vec_len, IfOk, OnOk, MatchOption};
ghost use Rattle.std.specs.List.{insert};
ghost use Rattle.nx_piece.specs.declared.piece.Item.{Item};
ghost use Rattle.nx_piece.specs.declared.piece.Item.TheVariants as run;
ghost use Rattle.nx_piece.specs.Gapped.{Gapped, proxies_in, with_gap};
ghost use Rattle.nx_piece.specs.Items.{gapped_of, with_items};
ghost use Rattle.nx_piece.specs.Locate.{children_of};
ghost use Rattle.nx_piece.specs.Valid.{AreApart, BeginsNoGap, HaveRoots, IsPiece};
ghost use Rattle.nx_piece_edits.specs.Cutting.{gap_before};
ghost use Rattle.nx_piece_edits.specs.Planting.{put_below, FallsApart, LeadsBetween, IsWithNode, IsWithProxyAt};
ghost use Rattle.nx_piece_edits.specs.Editing.{HasLongerRun};

use crate::falling::spot_at;
use crate::setting::{NodeEdit, edit_root};
use nx_lists::NoMemory;
use nx_piece::{Body, Far, Item, Items, Piece, PieceTree, PieceTrees, Proxies, Proxy};
use nx_tree::Node;
use std::alloc::Global;
use std::mem;

/// The piece with the node as a leaf at the position among the children of the node that the path leads to, which begins at
/// the root `member`. The position falls between children there, as `fall_at` tells. Where `far` is there, the node's
/// content stands elsewhere, and is empty here. A valid piece stays one where its nodes take 256 slots at most then, and
/// may be split where the node takes no more than that; a far content has to be as one may be.
///
/// Errors: `NoMemory`. The piece and the node are dropped then.
pub fn plant_node(
    alloc: Global,
    piece: Piece,
    member: u16,
    path: &[u32],
    position: u32,
    node: Node,
    far: Option<Far>,
) -> Result<Piece, NoMemory>
    requires piece { IsPiece piece }
    requires leads { LeadsBetween piece member path.now position }
    ensures { IfOk result (λ grown. IsWithNode piece member path.now position (record { node = node; far = far }) grown) }
{
    let Piece { body, proxies } = piece;
    let mut roots = body.roots.into_vec();
    let edit = NodeEdit::Leaf(position, node, far);
    edit_root(alloc, &mut roots, proxies.as_slice(), member, path, edit)?;
    Ok(Piece {
        body: Body {
            roots: PieceTrees::from_vec(roots),
        },
        proxies,
    })
}

/// The piece with the proxy at the position among the children of the node that the path leads to, which begins at the root
/// `member`, in a run that is longer then or in one of its own; the proxy has this index among all. The position falls
/// between children there, as `fall_at` tells, and so it tells the index. A valid piece stays one where it has room for a
/// proxy more, and the proxy has 1 to 256 roots.
///
/// Errors: `NoMemory`. The piece is dropped then.
pub fn plant_proxy(
    alloc: Global,
    piece: Piece,
    member: u16,
    path: &[u32],
    position: u32,
    index: u32,
    proxy: Proxy,
) -> Result<Piece, NoMemory>
    requires piece { IsPiece piece }
    requires leads { LeadsBetween piece member path.now position }
    requires within { index ≤ length piece.proxies }
    ensures { IfOk result (λ grown. IsWithProxyAt piece member path.now position index proxy grown) }
{
    let Piece { body, proxies } = piece;
    let mut roots = body.roots.into_vec();
    let edit = NodeEdit::OneProxy(position);
    edit_root(alloc, &mut roots, proxies.as_slice(), member, path, edit)?;
    let mut proxies = proxies.into_vec();
    proxies.insert(index as usize, proxy)?;
    Ok(Piece {
        body: Body {
            roots: PieceTrees::from_vec(roots),
        },
        proxies: Proxies::from_vec(proxies),
    })
}

// Puts a leaf at a position among the children of a node, before whose items stand `first` of the proxies.
pub(crate) fn put_leaf(
    alloc: Global,
    tree: &mut PieceTree,
    proxies: &[Proxy],
    first: u32,
    position: u32,
    node: Node,
    far: Option<Far>,
) -> Result<(), NoMemory>
    requires fits { first + proxies_in tree.old.below ≤ length proxies.now }
    requires few { length proxies.now ≤ 524288 }
    requires apart { AreApart tree.old.below }
    requires ranged { HaveRoots proxies.now }
    requires between { FallsApart (children_of proxies.now first tree.old.below) position }
    ensures { OnOk result (tree.new ≡ put_below (λ f. Gapped.Grow (record { node = node; far = far }) Gapped.End f) position tree.old (drop first proxies.now)) }
{
    let (index, before) = spot_at(tree.children.as_slice(), proxies, first, position);
    let mut items = mem::replace(&mut tree.children, Items::new(alloc)).into_vec();
    let children = Items::new(alloc);
    insert_item(
        &mut items,
        index,
        before,
        Item::Tree(PieceTree {
            node,
            far,
            children,
        }),
    )?;
    tree.children = Items::from_vec(items);
    Ok(())
}

// Puts a proxy at a position among the children of a node, before whose items stand `first` of the proxies.
pub(crate) fn put_proxy(
    alloc: Global,
    tree: &mut PieceTree,
    proxies: &[Proxy],
    first: u32,
    position: u32,
) -> Result<(), NoMemory>
    requires fits { first + proxies_in tree.old.below ≤ length proxies.now }
    requires few { length proxies.now ≤ 524288 }
    requires apart { AreApart tree.old.below }
    requires ranged { HaveRoots proxies.now }
    requires between { FallsApart (children_of proxies.now first tree.old.below) position }
    ensures { OnOk result (tree.new ≡ put_below (λ f. with_gap 1 f) position tree.old (drop first proxies.now)) }
{
    let (index, _) = spot_at(tree.children.as_slice(), proxies, first, position);
    let mut items = mem::replace(&mut tree.children, Items::new(alloc)).into_vec();
    insert_run(&mut items, index, 1)?;
    tree.children = Items::from_vec(items);
    Ok(())
}

// Inserts an item at the index, or into the run there behind so many of its proxies.
fn insert_item(items: &mut Vec<Item>, index: usize, before: u32, item: Item) -> Result<(), NoMemory>
    requires within { index ≤ vec_len items.old }
    requires longer { 1 ≤ before → HasLongerRun items.old.items index before }
    ensures front { OnOk result (before ≡ 0 → items.new.items ≡ insert items.old.items index item) }
    ensures inside { OnOk result ((count : ℕ) → 1 ≤ before → drop index items.old.items ≡ run.Run count ∷ drop (index + 1) items.old.items →
        items.new.items ≡ take index items.old.items ++ run.Run before ∷ item ∷ run.Run (count - before) ∷ drop (index + 1) items.old.items) }
{
    if before == 0 {
        items.insert(index, item)?;
        return Ok(());
    }
    let Item::Run { count } = &items[index] else {
        unreachable!();
    };
    let behind = *count - before;
    items[index] = Item::Run { count: before };
    items.insert(index + 1, Item::Run { count: behind })?;
    items.insert(index + 1, item)?;
    Ok(())
}

// Puts so many proxies at the index, into a run that ends or begins there or into one of their own.
pub(crate) fn insert_run(items: &mut Vec<Item>, index: usize, count: u32) -> Result<(), NoMemory>
    requires within { index ≤ vec_len items.old }
    requires fits { count + proxies_in (gapped_of items.old.items) ≤ 4294967295 }
    requires apart { AreApart (gapped_of items.old.items) }
    ensures { OnOk result (gapped_of items.new.items ≡ with_items (take index items.old.items) (gap_before count (gapped_of (drop index items.old.items)))) }
{
    if count == 0 {
        return Ok(());
    }
    if let Some(had) = run_before(items.as_slice(), index) {
        items[index - 1] = Item::Run { count: had + count };
        return Ok(());
    }
    if let Some(had) = run_at(items.as_slice(), index) {
        items[index] = Item::Run { count: had + count };
        return Ok(());
    }
    items.insert(index, Item::Run { count })?;
    Ok(())
}

// How many proxies the run has that ends at the index. Where none does, no run put there becomes one with it.
fn run_before(items: &[Item], index: usize) -> Option<u32>
    requires within { index ≤ length items.now }
    requires apart { AreApart (gapped_of items.now) }
    ensures { MatchOption result ((more : List Item) → with_items (take index items.now) (gapped_of more) ≡ gapped_of (take index items.now ++ more)) (λ count. (1 ≤ index) × (drop (index - 1) items.now ≡ run.Run count ∷ drop index items.now)) }
{
    if index == 0 {
        return None;
    }
    run_at(items, index - 1)
}

// How many proxies the run has that stands at the index.
fn run_at(items: &[Item], index: usize) -> Option<u32>
    ensures { MatchOption result (BeginsNoGap (gapped_of (drop index items.now))) (λ count. drop index items.now ≡ run.Run count ∷ drop (index + 1) items.now) }
{
    if index >= items.len() {
        return None;
    }
    match &items[index] {
        Item::Run { count } => Some(*count),
        Item::Tree(_) => None,
    }
}
