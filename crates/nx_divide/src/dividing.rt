// A piece that became too heavy, divided.
ghost use Rattle.std.specs.Prelude.{◌≡◌, ◌<◌, ◌≤◌, ℕ, false, None, Some, length, Option, IfOk, IfErr};
ghost use Rattle.std.specs.Option.{option_copied};
ghost use Rattle.std.specs.Vec.Iter.{into_iter_items};
ghost use Rattle.nx_host.specs.Still.{IsStill};
ghost use Rattle.nx_tree.specs.declared.node.Node.{Node as AnyNode};
ghost use Rattle.nx_cuts.specs.Cut.{Bare};
ghost use Rattle.nx_parts.specs.Marks.{holder_by_marks};
ghost use Rattle.nx_parts.specs.Partitioning.{holder};
ghost use Rattle.nx_records.specs.Records.{HasChanges, KeepsSaved, has_ended, settings_of};
ghost use Rattle.nx_records.specs.Refusals.{RunsOn};
ghost use Rattle.nx_hold.specs.Pieces.{MayName};
ghost use Rattle.nx_hold.specs.Changes.{ComesTidyWhere, place_of};
ghost use Rattle.nx_piece.specs.Gapped.{item_count, gapped_weight, grown_of};
ghost use Rattle.nx_piece.specs.Items.{gapped_of};
ghost use Rattle.nx_piece.specs.Valid.{AreNear, IsPiece};
ghost use Rattle.nx_layouts.specs.Layout.{Layout, AreLaidParts, piece_of, proxies_of};
ghost use Rattle.nx_layouts.specs.Replace.{above_at, kept_at, replaced_at};
ghost use Rattle.nx_split.specs.Piece.{AreGappedAtMost};
ghost use Rattle.nx_drafts.specs.Draft.{Draft, draft_needs};
ghost use Rattle.nx_divide.specs.Marked.{HasMarkedDivision, HasMarkedDraft, HasMarkedRow, IsMarkedDivision, IsMarkedDraft, IsMarkedRow, many};
ghost use Rattle.nx_divide.specs.Dividing.{PutsRowAt, NotPutAt, NotSplitAt, PutsSome, SplitsAt, IsDivisionOf, IsRowWithin};

use crate::row::{last_begin, next_root};
use crate::walk::{gather_piece, items_of};
use nx_build::add_proxy;
use nx_hold::{remove_piece, update_piece};
use nx_host::Disk;
use nx_lists::NoMemory;
use nx_matrix::Matrix;
use nx_parts::{Interval, Mark, mark_members};
use nx_piece::{Item, Items, Piece, PieceTree, Proxies, Proxy};
use nx_records::{Records, Rid, StoreError};
use nx_split::split;
use nx_tree::Node;
use std::alloc::Global;
use std::vec::IntoIter;

/// What comes in the piece above in the place of a divided piece's proxy: runs of proxies, and the tree that joins it, with the
/// proxies of all these.
#[derive(Drop)]
pub struct Row {
    pub items: Items,
    pub proxies: Proxies,
}

/// Divides a piece that became too heavy in the place of its record, whatever piece that holds: each interval of a division
/// of the piece gets a record of its own, and what the piece above has in the place of its proxy is answered: the proxies of
/// those that hold the roots, in order, and the tree of the root that is raised, where one is, among them. The record's place
/// is free then, or one of those that came has it. `above` is the node above the piece, `None` where it holds the document's
/// `Doc` node, and `room` what the part of that node has left below K: no more joins it, so that the answer may come in its piece.
/// Records that the piece's proxies name stay as they are, and so do all others. It is said for each row of which the piece
/// is that of the interval at some index, as that of the whole document, whose interval at index 0 is its root's. Far
/// contents stay where they stand; what is said of all pieces holds where those of this one name lists that are there, as
/// long as they are, and hold no record's proxies.
///
/// The piece has to be one that may be stored, but its nodes may take up to 512 slots, and it may have up to 257 roots;
/// no near content has more than 1,024 bytes. It has to weigh more than the K of these records, and none of its nodes may.
/// It has 524,288 nodes and proxies at most.
///
/// Errors: `Full`, over pages whose lists are in order only where fewer pages were free than one for each interval of
/// the division, and those of their chains; `Damaged`, only where the pages aren't sound, the record at the place holds no
/// piece, or lists that records name are missing or named twice; `Disk`, only where `faults` rose; `Ended` exactly where
/// the records had ended; `Memory`. After `Full` and `Memory` the caller calls `abandon`.
pub fn divide_at<D: Disk>(
    alloc: Global,
    records: &mut Records,
    disk: &mut D,
    rid: Rid,
    piece: Piece,
    above: Option<&Node>,
    room: u32,
    matrix: &Matrix,
) -> Result<Row, StoreError>
    requires piece { IsPiece piece }
    requires near { AreNear piece.body.roots }
    requires few { many piece.body.roots ≤ 524288 }
    requires heavy { (settings_of records.old).k < gapped_weight piece.body.roots }
    requires nodes { AreGappedAtMost (settings_of records.old).k piece.body.roots }
    ensures still { IsStill D.Disk disk.old disk.new }
    ensures splits { IfOk result (λ row. (top : Option AnyNode) (index : ℕ) (whole members : Layout) → kept_at index whole ≡ Some members → piece_of members ≡ piece → above_at index top whole ≡ option_copied above.entry →
        AreLaidParts (settings_of records.old).k (replaced_at index Bare whole) → AreLaidParts (settings_of records.old).k members → index < length (proxies_of whole) →
        SplitsAt D.Disk (settings_of records.old) matrix.now room top index (place_of rid) records.old records.new disk.old disk.new whole members row) }
    ensures row { IfOk result (λ row. IsRowWithin room row) }
    ensures comes { IfOk result (λ row. ComesTidyWhere D.Disk records.old records.new disk.old disk.new (λ was. MayName was piece.body.roots) (PutsSome (place_of rid) row)) }
    ensures keeps { IfOk result (λ row. RunsOn records.old records.new × KeepsSaved D.Disk records.old records.new disk.old disk.new × HasChanges records.new) }
    ensures refused { IfErr result (λ e. NotSplitAt D.Disk (settings_of records.old) matrix.now room (option_copied above.entry) (place_of rid) piece e records.old records.new disk.old disk.new) }
{
    if records.is_ended() {
        return Err(StoreError::Ended);
    }
    let settings = records.settings();
    let Ok(division) = split(
        alloc,
        &piece,
        above,
        room,
        matrix,
        settings.k,
        settings.target,
        settings.tolerance,
    ) else {
        return Err(StoreError::Memory);
    };
    put_parts(
        alloc,
        records,
        disk,
        rid,
        piece,
        division.parts.as_slice(),
        division.raised,
    )
}

// Puts the records of a division of a piece in the place of one, and answers what the piece above has of its roots.
fn put_parts<D: Disk>(
    alloc: Global,
    records: &mut Records,
    disk: &mut D,
    rid: Rid,
    piece: Piece,
    parts: &[Interval],
    raised: Option<u32>,
) -> Result<Row, StoreError>
    requires runs { has_ended records.old ≡ false }
    requires piece { IsPiece piece }
    requires near { AreNear piece.body.roots }
    requires few { many piece.body.roots ≤ 524288 }
    requires division { IsDivisionOf (settings_of records.old) piece parts.now raised }
    ensures still { IsStill D.Disk disk.old disk.new }
    ensures ok { IfOk result (λ row. (drawn : Draft (Unit {0})) → IsMarkedDivision raised (holder parts.now) piece.body.roots piece.proxies drawn →
        PutsRowAt D.Disk (place_of rid) records.old records.new disk.old disk.new drawn row) }
    ensures comes { IfOk result (λ row. ComesTidyWhere D.Disk records.old records.new disk.old disk.new (λ was. MayName was piece.body.roots) (PutsSome (place_of rid) row)) }
    ensures keeps { IfOk result (λ row. RunsOn records.old records.new × KeepsSaved D.Disk records.old records.new disk.old disk.new × HasChanges records.new) }
    ensures cause { IfErr result (λ e. (needs : ℕ) × NotPutAt D.Disk (place_of rid) needs e records.old records.new disk.old disk.new) }
    ensures refused { IfErr result (λ e. (drawn : Draft (Unit {0})) → IsMarkedDivision raised (holder parts.now) piece.body.roots piece.proxies drawn →
        NotPutAt D.Disk (place_of rid) (draft_needs drawn) e records.old records.new disk.old disk.new) }
{
    let Ok(mark) = mark_members(alloc, parts) else {
        return Err(StoreError::Memory);
    };
    let Piece { body, proxies } = piece;
    let mut olds = proxies.into_vec().into_iter();
    let Ok(roots) = items_from(alloc, body.roots.into_vec()) else {
        return Err(StoreError::Memory);
    };
    put_division(
        alloc,
        records,
        disk,
        rid,
        roots,
        mark.below(),
        &mut olds,
        raised,
    )
}

// The trees, as items.
fn items_from(alloc: Global, trees: Vec<PieceTree>) -> Result<Vec<Item>, NoMemory>
    ensures { IfOk result (λ items. gapped_of items.items ≡ grown_of trees.items) }
{
    let len = trees.len();
    let mut left = trees.into_iter();
    let mut items = Vec::new(alloc);
    for _ in 0..len {
        items.push(Item::Tree(next_root(&mut left)))?;
    }
    Ok(items)
}

// Puts the records of the intervals that hold these trees in the place of one; of the root that is raised there is none.
fn put_division<D: Disk>(
    alloc: Global,
    records: &mut Records,
    disk: &mut D,
    rid: Rid,
    roots: Vec<Item>,
    marks: &[Mark],
    olds: &mut IntoIter<Proxy>,
    raised: Option<u32>,
) -> Result<Row, StoreError>
    requires some { 1 ≤ length roots.items }
    requires few { many (gapped_of roots.items) ≤ 524288 }
    requires small { item_count (gapped_of roots.items) ≤ 1048576 }
    requires olds { length (into_iter_items olds.old) ≤ 524288 }
    requires marked { HasMarkedDivision raised (holder_by_marks marks.now) (gapped_of roots.items) (into_iter_items olds.old) }
    ensures still { IsStill D.Disk disk.old disk.new }
    ensures ok { IfOk result (λ row. (drawn : Draft (Unit {0})) → IsMarkedDivision raised (holder_by_marks marks.now) (gapped_of roots.items) (into_iter_items olds.old) drawn →
        PutsRowAt D.Disk (place_of rid) records.old records.new disk.old disk.new drawn row) }
    ensures refused { IfErr result (λ e. (drawn : Draft (Unit {0})) → IsMarkedDivision raised (holder_by_marks marks.now) (gapped_of roots.items) (into_iter_items olds.old) drawn →
        NotPutAt D.Disk (place_of rid) (draft_needs drawn) e records.old records.new disk.old disk.new) }
{
    match raised {
        None => put_roots(alloc, records, disk, rid, roots, marks, olds),
        Some(_) => raise_root(alloc, records, disk, rid, roots, marks, olds),
    }
}

// Puts the records of the intervals that hold these trees, but not the one that joins the piece above, beside one, which
// goes then: none may be left to come in its place.
fn raise_root<D: Disk>(
    alloc: Global,
    records: &mut Records,
    disk: &mut D,
    rid: Rid,
    roots: Vec<Item>,
    marks: &[Mark],
    olds: &mut IntoIter<Proxy>,
) -> Result<Row, StoreError>
    requires few { many (gapped_of roots.items) ≤ 524288 }
    requires small { item_count (gapped_of roots.items) ≤ 1048576 }
    requires olds { length (into_iter_items olds.old) ≤ 524288 }
    requires marked { HasMarkedDraft (holder_by_marks marks.now) 0 (gapped_of roots.items) (into_iter_items olds.old) }
    ensures still { IsStill D.Disk disk.old disk.new }
    ensures ok { IfOk result (λ row. (drawn : Draft (Unit {0})) → IsMarkedDraft None (holder_by_marks marks.now) 0 (gapped_of roots.items) (into_iter_items olds.old) drawn →
        PutsRowAt D.Disk (place_of rid) records.old records.new disk.old disk.new drawn row) }
    ensures refused { IfErr result (λ e. (drawn : Draft (Unit {0})) → IsMarkedDraft None (holder_by_marks marks.now) 0 (gapped_of roots.items) (into_iter_items olds.old) drawn →
        NotPutAt D.Disk (place_of rid) (draft_needs drawn) e records.old records.new disk.old disk.new) }
{
    records.read(alloc, disk, rid)?;
    let mut proxies = Proxies::new(alloc);
    let items = items_of(alloc, records, disk, roots, marks, olds, &mut proxies)?;
    remove_piece(alloc, records, disk, rid)?;
    Ok(Row { items, proxies })
}

// Puts the records of the intervals that hold these trees, the last of them in the place of one.
fn put_roots<D: Disk>(
    alloc: Global,
    records: &mut Records,
    disk: &mut D,
    rid: Rid,
    mut roots: Vec<Item>,
    marks: &[Mark],
    olds: &mut IntoIter<Proxy>,
) -> Result<Row, StoreError>
    requires some { 1 ≤ length roots.items }
    requires few { many (gapped_of roots.items) ≤ 524288 }
    requires small { item_count (gapped_of roots.items) ≤ 1048576 }
    requires olds { length (into_iter_items olds.old) ≤ 524288 }
    requires marked { HasMarkedRow (holder_by_marks marks.now) (gapped_of roots.items) (into_iter_items olds.old) }
    ensures still { IsStill D.Disk disk.old disk.new }
    ensures ok { IfOk result (λ row. (drawn : Draft (Unit {0})) → IsMarkedRow (holder_by_marks marks.now) (gapped_of roots.items) (into_iter_items olds.old) drawn →
        PutsRowAt D.Disk (place_of rid) records.old records.new disk.old disk.new drawn row) }
    ensures refused { IfErr result (λ e. (drawn : Draft (Unit {0})) → IsMarkedRow (holder_by_marks marks.now) (gapped_of roots.items) (into_iter_items olds.old) drawn →
        NotPutAt D.Disk (place_of rid) (draft_needs drawn) e records.old records.new disk.old disk.new) }
{
    // Were no record there, one of those that come could take the place, and the last would replace it.
    records.read(alloc, disk, rid)?;
    let len = roots.len();
    let first = last_begin(marks, len);
    let Ok(lasts) = roots.split_off(first) else {
        return Err(StoreError::Memory);
    };
    let mut proxies = Proxies::new(alloc);
    let front = items_of(alloc, records, disk, roots, marks, olds, &mut proxies)?;
    let mut items = front.into_vec();
    let mut left = lasts.into_iter();
    let last = gather_piece(alloc, records, disk, &mut left, marks, first, len, olds)?;
    // So a list of proxies that takes as many pages as before stays on them.
    let proxy = update_piece(alloc, records, disk, rid, &last)?;
    let Ok(()) = add_proxy(&mut items, &mut proxies, proxy) else {
        return Err(StoreError::Memory);
    };
    Ok(Row {
        items: Items::from_vec(items),
        proxies,
    })
}
