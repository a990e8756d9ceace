// A node put below a node of a record's own.
ghost use Rattle.std.specs.Prelude.{◌≡◌, ◌≢◌, ◌≤◌, ℕ, [], Some, false, IfOk, IfErr, OnOk};
ghost use Rattle.std.specs.Option.{option_copied};
ghost use Rattle.nx_host.specs.Still.{IsStill};
ghost use Rattle.nx_piece.specs.PieceNode.{node_weight};
ghost use Rattle.nx_layouts.specs.Layout.{LaidNode, in_record};
ghost use Rattle.nx_records.specs.Records.{KeepsSaved, HasChanges, has_ended, settings_of};
ghost use Rattle.nx_records.specs.Refusals.{RunsOn};
ghost use Rattle.nx_piece.specs.Gapped.{Grow, End};
ghost use Rattle.nx_piece_edits.specs.Setting.{LeadsInside};
ghost use Rattle.nx_piece.specs.Valid.{IsValidPiece};
ghost use Rattle.nx_hold.specs.Changes.{ComesTidyWhere, place_of};
ghost use Rattle.nx_matrix.specs.declared.rule.Entry.TheVariants as ask;
ghost use Rattle.nx_divide.specs.Dividing.{IsRowWithin};
ghost use Rattle.nx_edit.specs.Changing as put;
ghost use Rattle.nx_edit.specs.Changing.{ChangesKnown, IsWrittenNode, MayPutIn, NotChangedKnown};
ghost use Rattle.nx_edit.specs.Planting.{IsBetweenChildren, IsAskedThere};

use crate::changing::{may_have, tree_at};
use crate::growing::put_grown;
use crate::joining::join_interval;
use crate::parting::divide_interval;
use crate::removing::damaged;
use nx_divide::Row;
use nx_hold::add_piece;
use nx_host::Disk;
use nx_lists::NoMemory;
use nx_matrix::{Entry, Matrix};
use nx_piece::{Body, Items, Piece, PieceTree, PieceTrees, Proxies};
use nx_piece_edits::{Fall, fall_at, plant_node, plant_proxy};
use nx_records::{Records, Rid, StoreError};
use nx_tree::Node;
use std::alloc::Global;

// Puts the node below the one that the path leads to, a node of the record's own, whose piece this is, before the child
// at the position. It answers what the piece above has in the place of the interval's proxy. `above` is the node above the
// interval, whose part has so much room.
pub(crate) fn plant_own<D: Disk>(
    alloc: Global,
    records: &mut Records,
    disk: &mut D,
    matrix: &Matrix,
    rid: Rid,
    above: Option<&Node>,
    room: u32,
    piece: Piece,
    member: u16,
    path: &[u32],
    position: u32,
    leaf: PieceTree,
) -> Result<Row, StoreError>
    requires runs { has_ended records.old ≡ false }
    requires valid { IsValidPiece piece }
    requires here { LeadsInside piece member path.now }
    requires written { IsWrittenNode leaf.node }
    requires room { room ≤ 256 }
    ensures still { IsStill D.Disk disk.old disk.new }
    ensures row { IfOk result (λ row. IsRowWithin 256 row) }
    ensures ok { IfOk result (λ row. (node : LaidNode) → leaf.node ≡ in_record node → ComesTidyWhere D.Disk records.old records.new disk.old disk.new (λ was. MayPutIn was (put.Child position node) piece)
        (ChangesKnown matrix.now (Some piece) room (option_copied above.entry) (put.Child position node) (place_of rid) member path.now row [])) }
    ensures keeps { OnOk result (RunsOn records.old records.new × KeepsSaved D.Disk records.old records.new disk.old disk.new × HasChanges records.new) }
    ensures refused { IfErr result (λ e. (node : LaidNode) → leaf.node ≡ in_record node → NotChangedKnown D.Disk matrix.now (Some piece) (put.Child position node) (place_of rid) member path.now e records.old records.new disk.old disk.new) }
{
    let (name, content) = (leaf.node.name.as_slice(), leaf.node.content.as_slice());
    if !may_have(name, content, leaf.far, records.settings().k) {
        return Err(damaged(records, rid.page));
    }
    let entry = matrix.entry(&tree_at(&piece, member, path).node, &leaf.node);
    match fall_at(&piece, member, path, position) {
        Fall::Nowhere => Err(damaged(records, rid.page)),
        Fall::Between { index } => match entry {
            Entry::Standalone => plant_alone(
                alloc, records, disk, matrix, rid, above, room, piece, member, path, position,
                index, leaf,
            ),
            Entry::Cluster | Entry::Free => plant_beside(
                alloc, records, disk, matrix, rid, above, room, piece, member, path, position,
                entry, leaf,
            ),
        },
        Fall::Inside {
            proxy,
            index,
            member: before,
        } => match entry {
            Entry::Free => join_interval(
                alloc, records, disk, matrix, rid, above, room, piece, member, path, position,
                proxy, index, before, leaf,
            ),
            Entry::Standalone | Entry::Cluster => divide_interval(
                alloc, records, disk, matrix, rid, above, room, piece, member, path, position,
                proxy, index, before, entry, leaf,
            ),
        },
    }
}

// The same where the position stands between children of the record's own or of several records, before which so many
// proxies stand, and the node is to be an interval alone.
fn plant_alone<D: Disk>(
    alloc: Global,
    records: &mut Records,
    disk: &mut D,
    matrix: &Matrix,
    rid: Rid,
    above: Option<&Node>,
    room: u32,
    piece: Piece,
    member: u16,
    path: &[u32],
    position: u32,
    index: u32,
    leaf: PieceTree,
) -> Result<Row, StoreError>
    requires runs { has_ended records.old ≡ false }
    requires valid { IsValidPiece piece }
    requires between { IsBetweenChildren piece member path.now position index }
    requires light { node_weight leaf.node ≤ (settings_of records.old).k }
    requires written { IsWrittenNode leaf.node }
    requires asked { IsAskedThere matrix.now piece member path.now leaf.node.node ask.Standalone }
    requires room { room ≤ 256 }
    ensures still { IsStill D.Disk disk.old disk.new }
    ensures row { IfOk result (λ row. IsRowWithin 256 row) }
    ensures ok { IfOk result (λ row. (node : LaidNode) → leaf.node ≡ in_record node → ComesTidyWhere D.Disk records.old records.new disk.old disk.new (λ was. MayPutIn was (put.Child position node) piece)
        (ChangesKnown matrix.now (Some piece) room (option_copied above.entry) (put.Child position node) (place_of rid) member path.now row [])) }
    ensures keeps { OnOk result (RunsOn records.old records.new × KeepsSaved D.Disk records.old records.new disk.old disk.new × HasChanges records.new) }
    ensures refused { IfErr result (λ e. (node : LaidNode) → leaf.node ≡ in_record node → NotChangedKnown D.Disk matrix.now (Some piece) (put.Child position node) (place_of rid) member path.now e records.old records.new disk.old disk.new) }
{
    if piece.proxies.len() >= 524_288 {
        return Err(damaged(records, rid.page));
    }
    let Ok(alone) = piece_alone(alloc, leaf) else {
        return Err(StoreError::Memory);
    };
    let proxy = add_piece(alloc, records, disk, &alone)?;
    let Ok(piece) = plant_proxy(alloc, piece, member, path, position, index, proxy) else {
        return Err(StoreError::Memory);
    };
    put_grown(alloc, records, disk, matrix, rid, above, room, piece)
}

// The same where the node isn't to be one.
fn plant_beside<D: Disk>(
    alloc: Global,
    records: &mut Records,
    disk: &mut D,
    matrix: &Matrix,
    rid: Rid,
    above: Option<&Node>,
    room: u32,
    piece: Piece,
    member: u16,
    path: &[u32],
    position: u32,
    entry: Entry,
    leaf: PieceTree,
) -> Result<Row, StoreError>
    requires runs { has_ended records.old ≡ false }
    requires valid { IsValidPiece piece }
    requires between { (index : ℕ) × IsBetweenChildren piece member path.now position index }
    requires light { node_weight leaf.node ≤ (settings_of records.old).k }
    requires written { IsWrittenNode leaf.node }
    requires asked { IsAskedThere matrix.now piece member path.now leaf.node.node entry }
    requires beside { entry ≢ ask.Standalone }
    requires room { room ≤ 256 }
    ensures still { IsStill D.Disk disk.old disk.new }
    ensures row { IfOk result (λ row. IsRowWithin 256 row) }
    ensures ok { IfOk result (λ row. (node : LaidNode) → leaf.node ≡ in_record node → ComesTidyWhere D.Disk records.old records.new disk.old disk.new (λ was. MayPutIn was (put.Child position node) piece)
        (ChangesKnown matrix.now (Some piece) room (option_copied above.entry) (put.Child position node) (place_of rid) member path.now row [])) }
    ensures keeps { OnOk result (RunsOn records.old records.new × KeepsSaved D.Disk records.old records.new disk.old disk.new × HasChanges records.new) }
    ensures refused { IfErr result (λ e. (node : LaidNode) → leaf.node ≡ in_record node → NotChangedKnown D.Disk matrix.now (Some piece) (put.Child position node) (place_of rid) member path.now e records.old records.new disk.old disk.new) }
{
    let Ok(piece) = plant_node(alloc, piece, member, path, position, leaf.node, leaf.far) else {
        return Err(StoreError::Memory);
    };
    put_grown(alloc, records, disk, matrix, rid, above, room, piece)
}

// A piece of one node.
pub(crate) fn piece_alone(alloc: Global, leaf: PieceTree) -> Result<Piece, NoMemory>
    ensures { IfOk result (λ piece. (piece.body.roots ≡ Grow leaf.node End End) × (piece.proxies ≡ [])) }
{
    let PieceTree { node, far, .. } = leaf;
    let mut roots = PieceTrees::new(alloc);
    roots.push(PieceTree {
        node,
        far,
        children: Items::new(alloc),
    })?;
    Ok(Piece {
        body: Body { roots },
        proxies: Proxies::new(alloc),
    })
}
