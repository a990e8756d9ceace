// A node put below a node of a record's own, into an interval that it divides.
ghost use Rattle.std.specs.Prelude.{◌≡◌, ◌≢◌, ◌<◌, ◌≤◌, [], Some, false, length, IfOk, IfErr, OnOk};
ghost use Rattle.std.specs.Option.{option_copied};
ghost use Rattle.nx_host.specs.Still.{IsStill};
ghost use Rattle.nx_piece.specs.PieceNode.{node_weight};
ghost use Rattle.nx_piece.specs.Gapped.{End, Grow};
ghost use Rattle.nx_layouts.specs.Layout.{LaidNode, in_record};
ghost use Rattle.nx_hold.specs.Pieces.{MayName};
ghost use Rattle.nx_records.specs.Records.{KeepsSaved, HasChanges, has_ended, settings_of};
ghost use Rattle.nx_records.specs.Refusals.{RunsOn, NotStored};
ghost use Rattle.nx_piece.specs.Valid.{IsPiece, IsValidPiece};
ghost use Rattle.nx_hold.specs.Changes.{ComesTidy, ComesTidyWhere, piece_needs, place_of};
ghost use Rattle.nx_matrix.specs.declared.rule.Entry.TheVariants as ask;
ghost use Rattle.nx_divide.specs.Dividing.{IsRowWithin};
ghost use Rattle.nx_edit.specs.Changing as put;
ghost use Rattle.nx_edit.specs.Changing.{ChangesKnown, IsWrittenNode, MayPutIn, NotChangedKnown};
ghost use Rattle.nx_edit.specs.Parting.{HavePartRoots, IsRecordParted, IsNodePlaced, IsPlacedAlone, IsPlacedBetween, NotParted, alone_piece};
ghost use Rattle.nx_edit.specs.Planting.{IsWithin, IsAskedThere};

use crate::growing::put_grown;
use crate::making::make_far;
use crate::planting::piece_alone;
use crate::removing::damaged;
use nx_divide::Row;
use nx_hold::{add_piece, read_piece, update_piece};
use nx_host::Disk;
use nx_lists::NoMemory;
use nx_matrix::{Entry, Matrix};
use nx_piece::{Piece, PieceTree, Proxy};
use nx_piece_edits::{divide_roots, plant_node, replace_by_row};
use nx_records::{Records, Rid, StoreError};
use nx_tree::Node;
use std::alloc::Global;

// Puts the node below the one that the path leads to, a node of the record's own, whose piece this is, into the interval
// of a proxy, behind so many of its members, so that it becomes two. It answers what the piece above has in the place of
// the upper interval. `above` is the node above that, whose part has so much room.
pub(crate) fn divide_interval<D: Disk>(
    alloc: Global,
    records: &mut Records,
    disk: &mut D,
    matrix: &Matrix,
    rid: Rid,
    above: Option<&Node>,
    room: u32,
    piece: Piece,
    member: u16,
    path: &[u32],
    position: u32,
    proxy: Proxy,
    index: u32,
    before: u16,
    entry: Entry,
    leaf: PieceTree,
) -> Result<Row, StoreError>
    requires runs { has_ended records.old ≡ false }
    requires valid { IsValidPiece piece }
    requires within { IsWithin piece member path.now position proxy index before }
    requires light { node_weight leaf.node ≤ (settings_of records.old).k }
    requires written { IsWrittenNode leaf.node }
    requires asked { IsAskedThere matrix.now piece member path.now leaf.node.node entry }
    requires bound { entry ≢ ask.Free }
    requires room { room ≤ 256 }
    ensures still { IsStill D.Disk disk.old disk.new }
    ensures row { IfOk result (λ row. IsRowWithin 256 row) }
    ensures ok { IfOk result (λ row. (node : LaidNode) → leaf.node ≡ in_record node → ComesTidyWhere D.Disk records.old records.new disk.old disk.new (λ was. MayPutIn was (put.Child position node) piece)
        (ChangesKnown matrix.now (Some piece) room (option_copied above.entry) (put.Child position node) (place_of rid) member path.now row [])) }
    ensures keeps { OnOk result (RunsOn records.old records.new × KeepsSaved D.Disk records.old records.new disk.old disk.new × HasChanges records.new) }
    ensures refused { IfErr result (λ e. (node : LaidNode) → leaf.node ≡ in_record node → NotChangedKnown D.Disk matrix.now (Some piece) (put.Child position node) (place_of rid) member path.now e records.old records.new disk.old disk.new) }
{
    if piece.proxies.len() > 524_286 {
        return Err(damaged(records, rid.page));
    }
    let below = Rid {
        page: proxy.page,
        slot: proxy.slot,
    };
    let (front, back) = part_record(alloc, records, disk, below, before)?;
    let piece = place_node(
        alloc, records, disk, piece, member, path, position, index, before, front, back, entry,
        leaf,
    )?;
    put_grown(alloc, records, disk, matrix, rid, above, room, piece)
}

// Puts the first roots of a record in its place, and those behind them into a record of their own. It speaks of a piece
// that has more roots.
fn part_record<D: Disk>(
    alloc: Global,
    records: &mut Records,
    disk: &mut D,
    rid: Rid,
    before: u16,
) -> Result<(Proxy, Proxy), StoreError>
    requires runs { has_ended records.old ≡ false }
    requires some { 1 ≤ before }
    ensures still { IsStill D.Disk disk.old disk.new }
    ensures ranged { IfOk result (λ parts. HavePartRoots before parts.0 parts.1) }
    ensures ok { IfOk result (λ parts. ComesTidy D.Disk records.old records.new disk.old disk.new (IsRecordParted (place_of rid) before parts.0 parts.1)) }
    ensures keeps { OnOk result (RunsOn records.old records.new × KeepsSaved D.Disk records.old records.new disk.old disk.new × HasChanges records.new) }
    ensures refused { IfErr result (λ e. NotParted D.Disk (place_of rid) before e records.old records.new disk.old disk.new) }
{
    let inner = read_piece(alloc, records, disk, rid)?;
    if inner.body.roots.len() <= usize::from(before) {
        return Err(damaged(records, rid.page));
    }
    let made = make_far(alloc, records, disk, inner)?;
    let Ok((first, second)) = divide_roots(alloc, made, before) else {
        return Err(StoreError::Memory);
    };
    let front = update_piece(alloc, records, disk, rid, &first)?;
    let back = add_piece(alloc, records, disk, &second)?;
    Ok((front, back))
}

// The piece with the two proxies in the place of one, and the node between them: in the piece, or in a record of its own
// where it is to be an interval alone.
fn place_node<D: Disk>(
    alloc: Global,
    records: &mut Records,
    disk: &mut D,
    piece: Piece,
    member: u16,
    path: &[u32],
    position: u32,
    index: u32,
    before: u16,
    front: Proxy,
    back: Proxy,
    entry: Entry,
    leaf: PieceTree,
) -> Result<Piece, StoreError>
    requires runs { has_ended records.old ≡ false }
    requires valid { IsValidPiece piece }
    requires few { length piece.proxies ≤ 524286 }
    requires within { (proxy : Proxy) × IsWithin piece member path.now position proxy index before }
    requires ranged { HavePartRoots before front back }
    requires light { node_weight leaf.node ≤ 256 }
    requires written { IsWrittenNode leaf.node }
    ensures still { IsStill D.Disk disk.old disk.new }
    ensures piece { IfOk result (λ placed. IsPiece placed) }
    ensures ok { IfOk result (λ placed. ComesTidyWhere D.Disk records.old records.new disk.old disk.new (λ was. MayName was (Grow leaf.node End End)) (IsNodePlaced entry piece member path.now position index front back leaf.node placed)) }
    ensures keeps { OnOk result (RunsOn records.old records.new × KeepsSaved D.Disk records.old records.new disk.old disk.new) }
    ensures refused { IfErr result (λ e. NotStored D.Disk (λ was. piece_needs (alone_piece leaf.node)) (λ was. ⊥) 0 e records.old records.new disk.old disk.new) }
{
    match entry {
        Entry::Standalone => place_alone(alloc, records, disk, piece, index, front, back, leaf),
        Entry::Cluster | Entry::Free => {
            let Ok(placed) = place_between(
                alloc, piece, member, path, position, index, before, front, back, leaf,
            ) else {
                return Err(StoreError::Memory);
            };
            Ok(placed)
        }
    }
}

// ... in a record of its own.
fn place_alone<D: Disk>(
    alloc: Global,
    records: &mut Records,
    disk: &mut D,
    piece: Piece,
    index: u32,
    front: Proxy,
    back: Proxy,
    leaf: PieceTree,
) -> Result<Piece, StoreError>
    requires runs { has_ended records.old ≡ false }
    requires valid { IsValidPiece piece }
    requires few { length piece.proxies ≤ 524286 }
    requires within { index < length piece.proxies }
    requires ranged { (1 ≤ front.roots) × (front.roots ≤ 256) × (1 ≤ back.roots) × (back.roots ≤ 256) }
    requires light { node_weight leaf.node ≤ 256 }
    requires written { IsWrittenNode leaf.node }
    ensures still { IsStill D.Disk disk.old disk.new }
    ensures piece { IfOk result (λ placed. IsPiece placed) }
    ensures ok { IfOk result (λ placed. ComesTidyWhere D.Disk records.old records.new disk.old disk.new (λ was. MayName was (Grow leaf.node End End)) (IsPlacedAlone piece index front back leaf.node placed)) }
    ensures keeps { OnOk result (RunsOn records.old records.new × KeepsSaved D.Disk records.old records.new disk.old disk.new) }
    ensures refused { IfErr result (λ e. NotStored D.Disk (λ was. piece_needs (alone_piece leaf.node)) (λ was. ⊥) 0 e records.old records.new disk.old disk.new) }
{
    let Ok(alone) = piece_alone(alloc, leaf) else {
        return Err(StoreError::Memory);
    };
    let own = add_piece(alloc, records, disk, &alone)?;
    let Ok(placed) = replace_by_row(alloc, piece, index, &[front, own, back]) else {
        return Err(StoreError::Memory);
    };
    Ok(placed)
}

// ... in the piece.
fn place_between(
    alloc: Global,
    piece: Piece,
    member: u16,
    path: &[u32],
    position: u32,
    index: u32,
    before: u16,
    front: Proxy,
    back: Proxy,
    leaf: PieceTree,
) -> Result<Piece, NoMemory>
    requires valid { IsValidPiece piece }
    requires few { length piece.proxies ≤ 524286 }
    requires within { (proxy : Proxy) × IsWithin piece member path.now position proxy index before }
    requires ranged { HavePartRoots before front back }
    requires light { node_weight leaf.node ≤ 256 }
    requires written { IsWrittenNode leaf.node }
    ensures piece { IfOk result (λ placed. IsPiece placed) }
    ensures ok { IfOk result (λ placed. IsPlacedBetween piece member path.now position index front back leaf.node placed) }
{
    let two = replace_by_row(alloc, piece, index, &[front, back])?;
    plant_node(alloc, two, member, path, position, leaf.node, leaf.far)
}
