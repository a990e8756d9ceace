// Items in the place of a proxy, and a row of proxies.
ghost use Rattle.std.specs.Prelude.{◌≡◌, ◌+◌, ◌++◌, ◌<◌, ◌≤◌, length, take, drop, vec_len, IfOk, OnOk};
ghost use Rattle.nx_piece.specs.Gapped.{Gapped, proxies_in};
ghost use Rattle.nx_piece.specs.Items.{gapped_of};
ghost use Rattle.nx_piece.specs.Valid.{AreApart, BeginsNoGap, IsPiece};
ghost use Rattle.nx_piece_edits.specs.Cutting.{gap_before, joined_items, with_items_at, IsWithItems, IsWithRow};
ghost use Rattle.nx_piece_edits.specs.Shortening.{items_before};

use crate::planting::insert_run;
use crate::shortening::{item_of, root_of};
use nx_lists::NoMemory;
use nx_piece::{Body, Item, Items, Piece, PieceTree, PieceTrees, Proxies, Proxy};
use std::alloc::Global;
use std::mem;

/// The piece with these items in the place of the proxy at the index, whose run is divided around them; runs that become
/// neighbours are one. The proxies are those of the items' runs, 524,288 at most. The piece may have 512 slots and 257
/// roots. A valid piece stays one where its nodes take 256 slots at most then, each proxy has 1 to 256 roots, they are
/// 524,288 at most together, and each far content is as one may be; it may be split where the items take no more than that.
///
/// Errors: `NoMemory`, where there is none for the list of all proxies or for that of the children among which the items
/// stand.
pub fn replace_by_items(
    alloc: Global,
    piece: Piece,
    index: u32,
    items: Items,
    proxies: &[Proxy],
) -> Result<Piece, NoMemory>
    requires piece { IsPiece piece }
    requires within { index < length piece.proxies }
    requires apart { AreApart items }
    requires counted { proxies_in items ≡ length proxies.now }
    requires few { length proxies.now ≤ 524288 }
    ensures { IfOk result (λ changed. IsWithItems piece index items proxies.now changed) }
{
    let Piece {
        body,
        proxies: olds,
    } = piece;
    let all = with_range(alloc, olds.as_slice(), index as usize, proxies)?;
    let mut roots = body.roots.into_vec();
    let (place, left) = root_of(roots.as_slice(), index);
    widen_below(alloc, &mut roots[place], left, items.into_vec())?;
    Ok(Piece {
        body: Body {
            roots: PieceTrees::from_vec(roots),
        },
        proxies: all,
    })
}

/// The piece with these proxies in the place of the one at the index, whose run is longer then. The piece may have 512
/// slots and 257 roots; the row has one proxy at least, and 524,288 at most. A valid piece stays one where each proxy
/// has 1 to 256 roots and they are 524,288 at most together.
///
/// Errors: `NoMemory`, as for `replace_by_items`.
pub fn replace_by_row(
    alloc: Global,
    piece: Piece,
    index: u32,
    row: &[Proxy],
) -> Result<Piece, NoMemory>
    requires piece { IsPiece piece }
    requires within { index < length piece.proxies }
    requires some { 1 ≤ length row.now }
    requires few { length row.now ≤ 524288 }
    ensures { IfOk result (λ changed. IsWithRow piece index row.now changed) }
{
    let mut items = Items::new(alloc);
    items.push(Item::Run {
        count: row.len() as u32,
    })?;
    replace_by_items(alloc, piece, index, items, row)
}

// The proxies with a row in the place of the one at an index.
fn with_range(
    alloc: Global,
    proxies: &[Proxy],
    index: usize,
    row: &[Proxy],
) -> Result<Proxies, NoMemory>
    requires within { index < length proxies.now }
    requires few { length proxies.now + length row.now ≤ 4294967295 }
    ensures { IfOk result (λ all. all ≡ take index proxies.now ++ row.now ++ drop (index + 1) proxies.now) }
{
    let mut all = Proxies::with_capacity(alloc, proxies.len() - 1 + row.len())?;
    all.extend_from_slice(&proxies[..index])?;
    all.extend_from_slice(row)?;
    all.extend_from_slice(&proxies[index + 1..])?;
    Ok(all)
}

// Puts items in the place of a proxy, whose index is that among those below the node. After an error the node is no more to
// be used.
fn widen_below(
    alloc: Global,
    tree: &mut PieceTree,
    index: u32,
    row: Vec<Item>,
) -> Result<(), NoMemory>
    requires there { index < proxies_in tree.old.below }
    requires few { proxies_in tree.old.below ≤ 524288 }
    requires apart { AreApart tree.old.below }
    requires fits { proxies_in (gapped_of row.items) ≤ 524288 }
    requires row { AreApart (gapped_of row.items) }
    ensures { OnOk result ((tree.new.node ≡ tree.old.node) × (tree.new.below ≡ with_items_at index (gapped_of row.items) tree.old.below)) }
{
    let (place, left) = item_of(tree.children.as_slice(), index);
    let mut items = mem::replace(&mut tree.children, Items::new(alloc)).into_vec();
    match &mut items[place] {
        Item::Tree(child) => {
            widen_below(alloc, child, left, row)?;
            tree.children = Items::from_vec(items);
            Ok(())
        }
        Item::Run { count } => {
            let behind = *count - 1 - left;
            let all = closed(row, left, behind)?;
            put_items(&mut items, place, all)?;
            tree.children = Items::from_vec(items);
            Ok(())
        }
    }
}

// The items with so many proxies more before them and behind them.
fn closed(mut row: Vec<Item>, before: u32, behind: u32) -> Result<Vec<Item>, NoMemory>
    requires fits { before + behind + proxies_in (gapped_of row.items) ≤ 4294967295 }
    requires apart { AreApart (gapped_of row.items) }
    ensures { IfOk result (λ all. gapped_of all.items ≡ gap_before before (joined_items (gapped_of row.items) (gap_before behind Gapped.End))) }
{
    let end = row.len();
    insert_run(&mut row, end, behind)?;
    insert_run(&mut row, 0, before)?;
    Ok(row)
}

// Puts items in the place of one.
fn put_items(items: &mut Vec<Item>, place: usize, mut row: Vec<Item>) -> Result<(), NoMemory>
    requires { place < vec_len items.old }
    ensures { OnOk result (items.new.items ≡ take place items.old.items ++ (row.items ++ drop (place + 1) items.old.items)) }
{
    items.remove(place);
    items.rotate_left(place);
    let behind = items.len() - place;
    items.append(&mut row)?;
    items.rotate_left(behind);
    Ok(())
}
