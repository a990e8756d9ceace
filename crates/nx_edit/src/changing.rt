// What comes in the place of an interval below which a node gets another content or another child.
ghost use Rattle.std.specs.Prelude.{◌≡◌, ◌<◌, ◌≤◌, ◌∷◌, [], ℕ, None, Some, false, length, IfOk, IfErr, OnOk, IsTrue, ◌↔◌};
ghost use Rattle.std.specs.Option.{option_copied, option_to_list};
ghost use Rattle.nx_host.specs.Still.{IsStill};
ghost use Rattle.nx_weights.specs.Weight.{weight_of};
ghost use Rattle.nx_records.specs.Records.{KeepsSaved, HasChanges, has_ended, settings_of};
ghost use Rattle.nx_records.specs.Refusals.{RunsOn, NotStored};
ghost use Rattle.nx_records.specs.declared.error.StoreError.TheVariants as error;
ghost use Rattle.nx_piece_edits.specs.Setting.{LeadsInside};
ghost use Rattle.nx_piece.specs.Gapped.{End, Gap};
ghost use Rattle.nx_piece.specs.Valid.{IsPiece, IsValidPiece};
ghost use Rattle.nx_piece.specs.PieceNode.{IsFarWith, IsNearWith, length_with};
ghost use Rattle.nx_hold.specs.Pieces.{HoldsNone, MayName};
ghost use Rattle.nx_hold.specs.Changes.{ComesTidyWhere, place_of};
ghost use Rattle.nx_edit.specs.declared.changing.Change.TheVariants as change;
ghost use Rattle.nx_nav.specs.Route.{EndsInside};
ghost use Rattle.nx_edit.specs.Changing.{Put, ChangesKnown, IsLaidPut, IsWrittenChange, MayChangeAlong, MayPutIn, NotChangedAlong, NotChangedKnown};
ghost use Rattle.nx_edit.specs.Passing.{NotPassed, put_needs};
ghost use Rattle.nx_divide.specs.Dividing.{IsRowWithin};
ghost use Rattle.nx_edit.specs.RowPut.{IsOneProxy, IsPutAlone, IsTreeAt, MayHaveRow, PassesRow, piece_with_row};

use crate::growing::put_grown;
use crate::keeping::{is_alone, own_proxy};
use crate::making::make_far;
use crate::planting::plant_own;
use crate::removing::damaged;
use nx_divide::Row;
use nx_hold::{read_piece, update_piece};
use nx_host::Disk;
use nx_lists::NoMemory;
use nx_matrix::Matrix;
use nx_nav::{PassedRecord, Route};
use nx_piece::{Far, Item, Items, Located, Piece, PieceTree, Proxies, Proxy, locate, weight};
use nx_piece_edits::{replace_by_items, set_content};
use nx_records::{Records, Rid, StoreError};
use nx_tree::{Bytes, Node};
use nx_weights::weight_of;
use std::alloc::Global;

// What an edit puts at the end of a path.
#[derive(Drop)]
pub(crate) enum Change {
    // Another content of the node there. Where it is far, the bytes are empty.
    Content(Bytes, Option<Far>),
    // A node without children, before the child at this position of the node there, or behind its last one.
    Child { position: u32, leaf: PieceTree },
}

// What a change put in the place of an interval: what the piece above has there, and the far content that no node has any
// more, whose list is there still.
#[derive(Drop)]
pub(crate) struct Changed {
    pub row: Row,
    pub gone: Option<Far>,
}

// Makes a change of the node of a document that the path leads to, by the way that was kept, as `change_in`.
pub(crate) fn change_at<D: Disk>(
    alloc: Global,
    records: &mut Records,
    disk: &mut D,
    matrix: &Matrix,
    root: Rid,
    path: &[u32],
    route: Route,
    change: Change,
) -> Result<Changed, StoreError>
    requires runs { has_ended records.old ≡ false }
    requires ends { EndsInside 0 path.now route.passed.items route.last }
    requires written { IsWrittenChange change }
    ensures still { IsStill D.Disk disk.old disk.new }
    ensures ok { IfOk result (λ changed. (put : Put) → IsLaidPut change put → ComesTidyWhere D.Disk records.old records.new disk.old disk.new (λ was. MayChangeAlong was put (place_of root) 0 path.now route.passed.items route.last) (ChangesKnown matrix.now None 0 None put (place_of root) 0 path.now changed.row (option_to_list changed.gone))) }
    ensures keeps { OnOk result (RunsOn records.old records.new × KeepsSaved D.Disk records.old records.new disk.old disk.new × HasChanges records.new) }
    ensures refused { IfErr result (λ e. (put : Put) → IsLaidPut change put → NotChangedAlong D.Disk route.passed.items route.last matrix.now put (place_of root) 0 path.now e records.old records.new disk.old disk.new) }
{
    let Route { passed, last } = route;
    change_in(
        alloc,
        records,
        disk,
        matrix,
        root,
        None,
        0,
        0,
        path,
        passed.as_slice(),
        last,
        change,
    )
}

// Makes a change of the node that the path leads to, which begins with the position of a member of the interval whose
// record stands there, passes these records, and ends in the record of the last piece. It answers what the piece above has
// in the place of its proxy: one proxy, where its part doesn't outweigh K, or what comes of a split. `above` is the node
// above the interval, whose part has so much room. It speaks of intervals of whose node the change may be made. No list of
// a content goes.
pub(crate) fn change_in<D: Disk>(
    alloc: Global,
    records: &mut Records,
    disk: &mut D,
    matrix: &Matrix,
    rid: Rid,
    above: Option<&Node>,
    room: u32,
    member: u16,
    path: &[u32],
    passed: &[PassedRecord],
    last: Piece,
    change: Change,
) -> Result<Changed, StoreError>
    requires runs { has_ended records.old ≡ false }
    requires ends { EndsInside member path.now passed.now last }
    requires written { IsWrittenChange change }
    requires room { room ≤ 256 }
    ensures still { IsStill D.Disk disk.old disk.new }
    ensures row { IfOk result (λ changed. IsRowWithin 256 changed.row) }
    ensures ok { IfOk result (λ changed. (put : Put) → IsLaidPut change put → ComesTidyWhere D.Disk records.old records.new disk.old disk.new (λ was. MayChangeAlong was put (place_of rid) member path.now passed.now last) (ChangesKnown matrix.now None room (option_copied above.entry) put (place_of rid) member path.now changed.row (option_to_list changed.gone))) }
    ensures keeps { OnOk result (RunsOn records.old records.new × KeepsSaved D.Disk records.old records.new disk.old disk.new × HasChanges records.new) }
    ensures refused { IfErr result (λ e. (put : Put) → IsLaidPut change put → NotChangedAlong D.Disk passed.now last matrix.now put (place_of rid) member path.now e records.old records.new disk.old disk.new) }
{
    let Some((first, more)) = passed.split_first() else {
        return change_own(
            alloc, records, disk, matrix, rid, above, room, last, member, path, change,
        );
    };
    let below = Rid {
        page: first.proxy.page,
        slot: first.proxy.slot,
    };
    let left = records.settings().k.saturating_sub(first.weight);
    let changed = change_in(
        alloc,
        records,
        disk,
        matrix,
        below,
        Some(&first.above),
        left,
        first.member,
        &path[first.used as usize..],
        more,
        last,
        change,
    )?;
    let row = pass_row(alloc, records, disk, rid, first, changed.row)?;
    Ok(Changed {
        row,
        gone: changed.gone,
    })
}

// The same where the node is one of the record's own, whose piece this is.
fn change_own<D: Disk>(
    alloc: Global,
    records: &mut Records,
    disk: &mut D,
    matrix: &Matrix,
    rid: Rid,
    above: Option<&Node>,
    room: u32,
    piece: Piece,
    member: u16,
    path: &[u32],
    change: Change,
) -> Result<Changed, StoreError>
    requires runs { has_ended records.old ≡ false }
    requires valid { IsValidPiece piece }
    requires here { LeadsInside piece member path.now }
    requires written { IsWrittenChange change }
    requires room { room ≤ 256 }
    ensures still { IsStill D.Disk disk.old disk.new }
    ensures row { IfOk result (λ changed. IsRowWithin 256 changed.row) }
    ensures ok { IfOk result (λ changed. (put : Put) → IsLaidPut change put → ComesTidyWhere D.Disk records.old records.new disk.old disk.new (λ was. MayPutIn was put piece)
        (ChangesKnown matrix.now (Some piece) room (option_copied above.entry) put (place_of rid) member path.now changed.row (option_to_list changed.gone))) }
    ensures keeps { OnOk result (RunsOn records.old records.new × KeepsSaved D.Disk records.old records.new disk.old disk.new × HasChanges records.new) }
    ensures refused { IfErr result (λ e. (put : Put) → IsLaidPut change put → NotChangedKnown D.Disk matrix.now (Some piece) put (place_of rid) member path.now e records.old records.new disk.old disk.new) }
{
    match change {
        Change::Content(content, far) => set_own(
            alloc, records, disk, matrix, rid, above, room, piece, member, path, content, far,
        ),
        Change::Child { position, leaf } => {
            let row = plant_own(
                alloc, records, disk, matrix, rid, above, room, piece, member, path, position, leaf,
            )?;
            Ok(Changed { row, gone: None })
        }
    }
}

// The node gets another content.
fn set_own<D: Disk>(
    alloc: Global,
    records: &mut Records,
    disk: &mut D,
    matrix: &Matrix,
    rid: Rid,
    above: Option<&Node>,
    room: u32,
    piece: Piece,
    member: u16,
    path: &[u32],
    content: Bytes,
    far: Option<Far>,
) -> Result<Changed, StoreError>
    requires runs { has_ended records.old ≡ false }
    requires valid { IsValidPiece piece }
    requires here { LeadsInside piece member path.now }
    requires written { IsWrittenChange (change.Content content far) }
    requires room { room ≤ 256 }
    ensures still { IsStill D.Disk disk.old disk.new }
    ensures row { IfOk result (λ changed. IsRowWithin 256 changed.row) }
    ensures ok { IfOk result (λ changed. (put : Put) → IsLaidPut (change.Content content far) put → ComesTidyWhere D.Disk records.old records.new disk.old disk.new (λ was. MayPutIn was put piece)
        (ChangesKnown matrix.now (Some piece) room (option_copied above.entry) put (place_of rid) member path.now changed.row (option_to_list changed.gone))) }
    ensures keeps { OnOk result (RunsOn records.old records.new × KeepsSaved D.Disk records.old records.new disk.old disk.new × HasChanges records.new) }
    ensures refused { IfErr result (λ e. (put : Put) → IsLaidPut (change.Content content far) put → NotChangedKnown D.Disk matrix.now (Some piece) put (place_of rid) member path.now e records.old records.new disk.old disk.new) }
{
    let tree = tree_at(&piece, member, path);
    let gone = tree.far;
    if !may_have(
        tree.node.name.as_slice(),
        content.as_slice(),
        far,
        records.settings().k,
    ) {
        return Err(damaged(records, rid.page));
    }
    let piece = set_content(alloc, piece, member, path, content, far);
    let row = put_grown(alloc, records, disk, matrix, rid, above, room, piece)?;
    Ok(Changed { row, gone })
}

// The tree that the path leads to in the piece.
pub(crate) fn tree_at<'a>(piece: &'a Piece, member: u16, path: &[u32]) -> &'a PieceTree
    requires piece { IsPiece piece.now }
    requires leads { LeadsInside piece.now member path.now }
    ensures { IsTreeAt piece.now member path.now result.now }
{
    match locate(piece, member, path) {
        Located::Here { tree, .. } => tree,
        Located::Away { .. } | Located::Nowhere => unreachable!(),
    }
}

// A node of this name doesn't outweigh `k` with this content, near or far.
pub(crate) fn may_have(name: &[u8], content: &[u8], far: Option<Far>, k: u32) -> bool
    requires few { k ≤ 256 }
    requires written { IsNearWith content.now far × IsFarWith content.now far }
    ensures { IsTrue result ↔ (weight_of (length name.now) (length_with (length content.now) far) ≤ k) }
{
    let content = match far {
        None => content.len() as u32,
        Some(far) => far.length,
    };
    name.len() <= 2048 && weight_of(name.len() as u32, content) <= k
}

// Puts a row in the place of the proxy by which the path left a record's piece; it answers the record's own proxy. Where
// the row is that proxy, the record stays, and isn't read again. Where the row can't stand there, the records hold no
// document.
fn pass_row<D: Disk>(
    alloc: Global,
    records: &mut Records,
    disk: &mut D,
    rid: Rid,
    passed: &PassedRecord,
    row: Row,
) -> Result<Row, StoreError>
    requires runs { has_ended records.old ≡ false }
    requires roots { (1 ≤ passed.now.roots) × (passed.now.roots ≤ 256) }
    requires row { IsRowWithin 256 row }
    ensures still { IsStill D.Disk disk.old disk.new }
    ensures unwritten { OnOk result (IsOneProxy row passed.now.proxy → (records.new ≡ records.old) × (disk.new ≡ disk.old)) }
    ensures alone { IfOk result (λ put. (put.items ≡ Gap 1 End) × IsRowWithin 256 put) }
    ensures ok { IfOk result (λ put. ComesTidyWhere D.Disk records.old records.new disk.old disk.new (λ was. MayName was row.items) (PassesRow (place_of rid) passed.now row put)) }
    ensures keeps { OnOk result (RunsOn records.old records.new × KeepsSaved D.Disk records.old records.new disk.old disk.new × (HasChanges records.old → HasChanges records.new)) }
    ensures refused { IfErr result (λ e. NotPassed D.Disk (place_of rid) passed.now (piece_with_row passed.now.index row) (λ piece. MayHaveRow (settings_of records.old).k piece row) e records.old records.new disk.old disk.new) }
{
    if is_alone(&row, passed.proxy) {
        return row_alone(alloc, own_proxy(rid, passed.roots));
    }
    let piece = read_piece(alloc, records, disk, rid)?;
    if piece.proxies.len() <= passed.index as usize {
        return Err(damaged(records, rid.page));
    }
    put_row(alloc, records, disk, rid, piece, passed.index, row)
}

// Puts a row in the place of a proxy of the piece, and the piece in the place of its record; it answers the record's own
// proxy. Where the row can't stand there, the records hold no document.
pub(crate) fn put_row<D: Disk>(
    alloc: Global,
    records: &mut Records,
    disk: &mut D,
    rid: Rid,
    piece: Piece,
    index: u32,
    row: Row,
) -> Result<Row, StoreError>
    requires runs { has_ended records.old ≡ false }
    requires valid { IsValidPiece piece }
    requires within { index < length piece.proxies }
    requires row { IsRowWithin 256 row }
    ensures still { IsStill D.Disk disk.old disk.new }
    ensures alone { IfOk result (λ put. (put.items ≡ Gap 1 End) × IsRowWithin 256 put) }
    ensures ok { IfOk result (λ put. MayHaveRow (settings_of records.old).k piece row
        × ComesTidyWhere D.Disk records.old records.new disk.old disk.new (λ was. MayName was piece.body.roots × MayName was row.items) (IsPutAlone (place_of rid) (piece_with_row index row piece) put)) }
    ensures keeps { OnOk result (RunsOn records.old records.new × KeepsSaved D.Disk records.old records.new disk.old disk.new × HasChanges records.new) }
    ensures refused { IfErr result (λ e. (page : ℕ) × NotStored D.Disk (λ was. put_needs (piece_with_row index row piece)) (λ was. MayHaveRow (settings_of records.old).k piece row → HoldsNone was (place_of rid)) page e records.old records.new disk.old disk.new) }
{
    if row.proxies.len() > 524_289 - piece.proxies.len() {
        return Err(damaged(records, rid.page));
    }
    let Row { items, proxies } = row;
    let Ok(piece) = replace_by_items(alloc, piece, index, items, proxies.as_slice()) else {
        return Err(StoreError::Memory);
    };
    if weight(&piece.body) > records.settings().k {
        return Err(damaged(records, rid.page));
    }
    let made = make_far(alloc, records, disk, piece)?;
    let proxy = update_piece(alloc, records, disk, rid, &made)?;
    row_alone(alloc, proxy)
}

// The row of this proxy alone.
pub(crate) fn row_alone(alloc: Global, proxy: Proxy) -> Result<Row, StoreError>
    requires ranged { (1 ≤ proxy.roots) × (proxy.roots ≤ 256) }
    ensures ok { IfOk result (λ row. IsOneProxy row proxy × IsRowWithin 0 row) }
    ensures refused { IfErr result (λ e. e ≡ error.Memory) }
{
    let Ok(items) = one_run(alloc) else {
        return Err(StoreError::Memory);
    };
    let Ok(proxies) = Proxies::from_slice(alloc, &[proxy]) else {
        return Err(StoreError::Memory);
    };
    Ok(Row { items, proxies })
}

// A run of one proxy.
fn one_run(alloc: Global) -> Result<Items, NoMemory>
    ensures { IfOk result (λ items. items ≡ Gap 1 End) }
{
    let mut items = Vec::with_capacity(alloc, 1)?;
    items.push(Item::Run { count: 1 })?;
    Ok(Items::from_vec(items))
}
