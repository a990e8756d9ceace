// A piece that an edit made heavier, put in the place of its record.
ghost use Rattle.std.specs.Prelude.{◌≡◌, ◌<◌, ◌≤◌, ℕ, List, Option, false, IfOk, IfErr, OnOk};
ghost use Rattle.std.specs.Option.{option_copied};
ghost use Rattle.nx_host.specs.Still.{IsStill};
ghost use Rattle.nx_tree.specs.declared.node.Node.{Node as AnyNode};
ghost use Rattle.nx_matrix.specs.declared.rule.Rule.{Rule};
ghost use Rattle.nx_records.specs.Records.{KeepsSaved, HasChanges, has_ended, settings_of};
ghost use Rattle.nx_records.specs.Refusals.{RunsOn};
ghost use Rattle.nx_piece.specs.Gapped.{gapped_weight};
ghost use Rattle.nx_piece.specs.Valid.{AreNear, IsPiece};
ghost use Rattle.nx_hold.specs.Pieces.{MayName};
ghost use Rattle.nx_hold.specs.Changes.{ComesTidyWhere, place_of};
ghost use Rattle.nx_divide.specs.Dividing.{IsRowWithin};
ghost use Rattle.nx_edit.specs.Growing.{NotGrown, PutsGrown};

use crate::changing::row_alone;
use crate::making::make_far;
use crate::removing::damaged;
use nx_divide::{Row, divide_at, may_be_divided};
use nx_hold::update_piece;
use nx_host::Disk;
use nx_matrix::Matrix;
use nx_piece::{Piece, weight};
use nx_records::{Records, Rid, StoreError};
use nx_tree::Node;
use std::alloc::Global;

// Puts a piece that an edit made heavier in the place of its record, or the records of a split of it where it outweighs
// K, and answers what the piece above has of it then. `above` is the node above the interval, whose part has so much room
// for the separator of a split. It speaks of intervals of which one part at most may be too heavy, their own. No content
// stays in its item that is too long for that.
pub(crate) fn put_grown<D: Disk>(
    alloc: Global,
    records: &mut Records,
    disk: &mut D,
    matrix: &Matrix,
    rid: Rid,
    above: Option<&Node>,
    room: u32,
    piece: Piece,
) -> Result<Row, StoreError>
    requires runs { has_ended records.old ≡ false }
    requires piece { IsPiece piece }
    requires room { room ≤ 256 }
    ensures still { IsStill D.Disk disk.old disk.new }
    ensures row { IfOk result (λ row. IsRowWithin 256 row) }
    ensures ok { IfOk result (λ row. ComesTidyWhere D.Disk records.old records.new disk.old disk.new (λ was. MayName was piece.body.roots) (PutsGrown matrix.now room (option_copied above.entry) piece (place_of rid) row)) }
    ensures keeps { OnOk result (RunsOn records.old records.new × KeepsSaved D.Disk records.old records.new disk.old disk.new × HasChanges records.new) }
    ensures refused { IfErr result (λ e. NotGrown D.Disk piece (place_of rid) e records.old records.new disk.old disk.new) }
{
    let piece = make_far(alloc, records, disk, piece)?;
    if weight(&piece.body) > records.settings().k {
        put_heavy(alloc, records, disk, matrix, rid, above, room, piece)
    } else {
        put_light(alloc, records, disk, rid, &piece)
    }
}

// Puts a piece that doesn't outweigh K, whatever the rules and the node above it.
fn put_light<D: Disk>(
    alloc: Global,
    records: &mut Records,
    disk: &mut D,
    rid: Rid,
    piece: &Piece,
) -> Result<Row, StoreError>
    requires runs { has_ended records.old ≡ false }
    requires piece { IsPiece piece.now }
    requires near { AreNear piece.now.body.roots }
    requires light { gapped_weight piece.now.body.roots ≤ (settings_of records.old).k }
    ensures still { IsStill D.Disk disk.old disk.new }
    ensures row { IfOk result (λ row. IsRowWithin 256 row) }
    ensures ok { IfOk result (λ row. (rules : List Rule) (room : ℕ) (above : Option AnyNode) → ComesTidyWhere D.Disk records.old records.new disk.old disk.new (λ was. MayName was piece.now.body.roots) (PutsGrown rules room above piece.now (place_of rid) row)) }
    ensures keeps { OnOk result (RunsOn records.old records.new × KeepsSaved D.Disk records.old records.new disk.old disk.new × HasChanges records.new) }
    ensures refused { IfErr result (λ e. NotGrown D.Disk piece.now (place_of rid) e records.old records.new disk.old disk.new) }
{
    let proxy = update_piece(alloc, records, disk, rid, piece)?;
    row_alone(alloc, proxy)
}

// Puts the records of a split of a piece that outweighs K.
fn put_heavy<D: Disk>(
    alloc: Global,
    records: &mut Records,
    disk: &mut D,
    matrix: &Matrix,
    rid: Rid,
    above: Option<&Node>,
    room: u32,
    piece: Piece,
) -> Result<Row, StoreError>
    requires runs { has_ended records.old ≡ false }
    requires piece { IsPiece piece }
    requires near { AreNear piece.body.roots }
    requires heavy { (settings_of records.old).k < gapped_weight piece.body.roots }
    requires room { room ≤ 256 }
    ensures still { IsStill D.Disk disk.old disk.new }
    ensures row { IfOk result (λ row. IsRowWithin 256 row) }
    ensures ok { IfOk result (λ row. ComesTidyWhere D.Disk records.old records.new disk.old disk.new (λ was. MayName was piece.body.roots) (PutsGrown matrix.now room (option_copied above.entry) piece (place_of rid) row)) }
    ensures keeps { OnOk result (RunsOn records.old records.new × KeepsSaved D.Disk records.old records.new disk.old disk.new × HasChanges records.new) }
    ensures refused { IfErr result (λ e. NotGrown D.Disk piece (place_of rid) e records.old records.new disk.old disk.new) }
{
    if !may_be_divided(&piece, records.settings().k) {
        return Err(damaged(records, rid.page));
    }
    divide_at(alloc, records, disk, rid, piece, above, room, matrix)
}
