// A node put into an interval below a node of a record's own, among the interval's members.
ghost use Rattle.std.specs.Prelude.{◌≡◌, ◌≤◌, [], Some, false, IfOk, IfErr, OnOk};
ghost use Rattle.std.specs.Option.{option_copied};
ghost use Rattle.nx_host.specs.Still.{IsStill};
ghost use Rattle.nx_piece.specs.PieceNode.{node_weight};
ghost use Rattle.nx_layouts.specs.Layout.{LaidNode, in_record};
ghost use Rattle.nx_records.specs.Records.{KeepsSaved, HasChanges, has_ended, settings_of};
ghost use Rattle.nx_records.specs.Refusals.{RunsOn};
ghost use Rattle.nx_piece.specs.Valid.{IsValidPiece};
ghost use Rattle.nx_hold.specs.Changes.{ComesTidyWhere, place_of};
ghost use Rattle.nx_matrix.specs.declared.rule.Entry.TheVariants as ask;
ghost use Rattle.nx_divide.specs.Dividing.{IsRowWithin};
ghost use Rattle.nx_edit.specs.Changing as put;
ghost use Rattle.nx_edit.specs.Changing.{ChangesKnown, IsWrittenNode, MayPutIn, NotChangedKnown};
ghost use Rattle.nx_edit.specs.Planting.{IsWithin, IsAskedThere};

use crate::changing::{put_row, tree_at};
use crate::growing::put_grown;
use crate::removing::damaged;
use nx_divide::Row;
use nx_hold::read_piece;
use nx_host::Disk;
use nx_matrix::Matrix;
use nx_piece::{Piece, PieceTree, Proxy, weight};
use nx_piece_edits::plant_root;
use nx_records::{Records, Rid, StoreError};
use nx_tree::Node;
use std::alloc::Global;

// Puts the node below the one that the path leads to, a node of the record's own, whose piece this is, into the interval
// of a proxy, behind so many of its members. It answers what the piece above has in the place of the upper interval.
// `above` is the node above that, whose part has so much room. The piece is read again once the record below is put.
pub(crate) fn join_interval<D: Disk>(
    alloc: Global,
    records: &mut Records,
    disk: &mut D,
    matrix: &Matrix,
    rid: Rid,
    above: Option<&Node>,
    room: u32,
    piece: Piece,
    member: u16,
    path: &[u32],
    position: u32,
    proxy: Proxy,
    index: u32,
    before: u16,
    leaf: PieceTree,
) -> Result<Row, StoreError>
    requires runs { has_ended records.old ≡ false }
    requires valid { IsValidPiece piece }
    requires within { IsWithin piece member path.now position proxy index before }
    requires light { node_weight leaf.node ≤ (settings_of records.old).k }
    requires written { IsWrittenNode leaf.node }
    requires asked { IsAskedThere matrix.now piece member path.now leaf.node.node ask.Free }
    requires room { room ≤ 256 }
    ensures still { IsStill D.Disk disk.old disk.new }
    ensures row { IfOk result (λ row. IsRowWithin 256 row) }
    ensures ok { IfOk result (λ row. (node : LaidNode) → leaf.node ≡ in_record node → ComesTidyWhere D.Disk records.old records.new disk.old disk.new (λ was. MayPutIn was (put.Child position node) piece)
        (ChangesKnown matrix.now (Some piece) room (option_copied above.entry) (put.Child position node) (place_of rid) member path.now row [])) }
    ensures keeps { OnOk result (RunsOn records.old records.new × KeepsSaved D.Disk records.old records.new disk.old disk.new × HasChanges records.new) }
    ensures refused { IfErr result (λ e. (node : LaidNode) → leaf.node ≡ in_record node → NotChangedKnown D.Disk matrix.now (Some piece) (put.Child position node) (place_of rid) member path.now e records.old records.new disk.old disk.new) }
{
    let below = Rid {
        page: proxy.page,
        slot: proxy.slot,
    };
    let inner = read_piece(alloc, records, disk, below)?;
    if inner.body.roots.len() < usize::from(before) {
        return Err(damaged(records, below.page));
    }
    let Ok(inner) = plant_root(alloc, inner, before, leaf.node, leaf.far) else {
        return Err(StoreError::Memory);
    };
    let parent = &tree_at(&piece, member, path).node;
    let left = records.settings().k.saturating_sub(weight(&piece.body));
    let row = put_grown(
        alloc,
        records,
        disk,
        matrix,
        below,
        Some(parent),
        left,
        inner,
    )?;
    let upper = read_piece(alloc, records, disk, rid)?;
    if upper.proxies.len() <= index as usize {
        return Err(damaged(records, rid.page));
    }
    put_row(alloc, records, disk, rid, upper, index, row)
}
