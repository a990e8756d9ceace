// Contents that stand in a record's items and are too long for that, put into lists of their own before it is written.
ghost use Rattle.std.specs.Prelude.{◌≡◌, ◌+◌, ◌≤◌, ◌↔◌, ℕ, List as Elements, Option, Some, None, IsTrue, IsSome, IfOk, IfErr, OnOk, false, length, MatchOption, ◌<◌};
ghost use Rattle.std.specs.List.{slice_get};
ghost use Rattle.nx_host.specs.Still.{IsStill};
ghost use Rattle.nx_records.specs.Words.{chain_count};
ghost use Rattle.nx_records.specs.Records.{ComesTo, KeepsSaved, HasChanges, has_ended};
ghost use Rattle.nx_records.specs.Changes.{WritesList};
ghost use Rattle.nx_records.specs.Refusals.{NotStored, RunsOn};
ghost use Rattle.nx_piece.specs.declared.piece.Far.{Far};
ghost use Rattle.nx_piece.specs.PieceNode.{item_slots};
ghost use Rattle.nx_piece.specs.Gapped.{End, Grow, grown_of, gapped_size, gapped_width};
ghost use Rattle.nx_piece.specs.Items.{gapped_of};
ghost use Rattle.nx_piece.specs.Valid.{IsPiece, IsValidPiece};
ghost use Rattle.nx_hold.specs.Contents.{near_in};
ghost use Rattle.nx_hold.specs.Pieces.{HoldsNone, MayName};
ghost use Rattle.nx_hold.specs.Changes.{ComesTidyWhere, place_named, place_of};
ghost use Rattle.nx_edit.specs.Making.{IsFirstLongItem, IsFirstLongRoot, IsMadeFar, LeavesPieces, MakesFar, PutsFar, first_long, needs_list, with_far};
ghost use Rattle.nx_edit.specs.Passing.{put_needs};

use nx_hold::update_piece;
use nx_host::Disk;
use nx_piece::{Body, Far, Item, Items, Piece, PieceTree, PieceTrees, Proxy};
use nx_records::{Records, Rid, StoreError};
use nx_tree::Bytes;
use nx_weights::LONGEST_NEAR;
use std::alloc::Global;
use std::mem;

// Makes the piece far, as `make_far`, and puts it in the place of a record.
pub(crate) fn update_far<D: Disk>(
    alloc: Global,
    records: &mut Records,
    disk: &mut D,
    rid: Rid,
    piece: Piece,
) -> Result<Proxy, StoreError>
    requires runs { has_ended records.old ≡ false }
    requires valid { IsValidPiece piece }
    ensures still { IsStill D.Disk disk.old disk.new }
    ensures roots { IfOk result (λ proxy. proxy.roots ≡ gapped_width piece.body.roots) }
    ensures ok { IfOk result (λ proxy. ComesTidyWhere D.Disk records.old records.new disk.old disk.new (λ was. MayName was piece.body.roots) (PutsFar (place_of rid) (place_named proxy) piece)) }
    ensures keeps { OnOk result (RunsOn records.old records.new × KeepsSaved D.Disk records.old records.new disk.old disk.new × HasChanges records.new) }
    ensures refused { IfErr result (λ e. (page : ℕ) × NotStored D.Disk (λ was. put_needs piece) (λ was. HoldsNone was (place_of rid)) page e records.old records.new disk.old disk.new) }
{
    let made = make_far(alloc, records, disk, piece)?;
    update_piece(alloc, records, disk, rid, &made)
}

// The piece with each content in a list of its own that stands in its item and is too long for that. An older format
// wrote such ones.
pub(crate) fn make_far<D: Disk>(
    alloc: Global,
    records: &mut Records,
    disk: &mut D,
    piece: Piece,
) -> Result<Piece, StoreError>
    requires runs { has_ended records.old ≡ false }
    requires piece { IsPiece piece }
    ensures still { IsStill D.Disk disk.old disk.new }
    ensures piece { IfOk result (λ made. IsPiece made) }
    ensures far { IfOk result (λ made. IsMadeFar piece made) }
    ensures ok { IfOk result (λ made. ComesTidyWhere D.Disk records.old records.new disk.old disk.new (λ was. MayName was piece.body.roots) (MakesFar piece made)) }
    // Also where lists that records name are out of order.
    ensures leaves { IfOk result (λ made. ComesTo D.Disk records.old records.new disk.old disk.new (LeavesPieces (near_in piece.body.roots))) }
    ensures keeps { OnOk result (RunsOn records.old records.new × KeepsSaved D.Disk records.old records.new disk.old disk.new × (HasChanges records.old → HasChanges records.new)) }
    ensures refused { IfErr result (λ e. NotStored D.Disk (λ was. near_in piece.body.roots) (λ was. ⊥) 0 e records.old records.new disk.old disk.new) }
{
    let Some(index) = long_root(piece.body.roots.as_slice()) else {
        return Ok(piece);
    };
    let Piece { body, proxies } = piece;
    let mut roots = body.roots.into_vec();
    write_long(alloc, records, disk, &mut roots[index])?;
    let body = Body {
        roots: PieceTrees::from_vec(roots),
    };
    make_far(alloc, records, disk, Piece { body, proxies })
}

// Writes the first content of the tree that is too long for its item as a list, and names that in its place.
fn write_long<D: Disk>(
    alloc: Global,
    records: &mut Records,
    disk: &mut D,
    tree: &mut PieceTree,
) -> Result<(), StoreError>
    requires runs { has_ended records.old ≡ false }
    requires long { IsSome (first_long (Grow tree.old.node tree.old.below End)) }
    requires small { item_slots tree.old.node + gapped_size tree.old.below ≤ 512 }
    ensures still { IsStill D.Disk disk.old disk.new }
    ensures ok { OnOk result ((content : Elements ℕ) → first_long (Grow tree.old.node tree.old.below End) ≡ Some content → (far : Far) × (far.length ≡ length content)
        × (Grow tree.new.node tree.new.below End ≡ with_far far (Grow tree.old.node tree.old.below End)) × ComesTo D.Disk records.old records.new disk.old disk.new (λ was now. WritesList far.first content was now)) }
    ensures keeps { OnOk result (RunsOn records.old records.new × KeepsSaved D.Disk records.old records.new disk.old disk.new × HasChanges records.new) }
    ensures refused { IfErr result (λ e. (content : Elements ℕ) → first_long (Grow tree.old.node tree.old.below End) ≡ Some content
        → NotStored D.Disk (λ was. chain_count (length content)) (λ was. ⊥) 0 e records.old records.new disk.old disk.new) }
{
    if needs_list(tree) {
        let first = records.write_list(disk, tree.node.content.as_slice())?;
        let length = tree.node.content.len() as u32;
        tree.node.content = Bytes::new(alloc);
        tree.far = Some(Far { first, length });
        return Ok(());
    }
    let Some(index) = long_item(tree.children.as_slice()) else {
        unreachable!();
    };
    let mut items = mem::replace(&mut tree.children, Items::new(alloc)).into_vec();
    match &mut items[index] {
        Item::Tree(child) => {
            let done = write_long(alloc, records, disk, child);
            tree.children = Items::from_vec(items);
            done
        }
        Item::Run { count: _ } => unreachable!(),
    }
}

// The index of the first root of these that has such a content, or a node below with one.
fn long_root(roots: &[PieceTree]) -> Option<usize>
    ensures { MatchOption result (first_long (grown_of roots.now) ≡ None) (λ index. IsFirstLongRoot roots.now index) }
{
    for (index, tree) in roots.iter().enumerate() {
        if has_long(tree) {
            return Some(index);
        }
    }
    None
}

// ... of these items.
#[cycle(long)]
fn long_item(items: &[Item]) -> Option<usize>
    ensures { MatchOption result (first_long (gapped_of items.now) ≡ None) (λ index. IsFirstLongItem items.now index) }
{
    for (index, item) in items.iter().enumerate() {
        if let Item::Tree(tree) = item {
            if has_long(tree) {
                return Some(index);
            }
        }
    }
    None
}

// Whether such a content is in the tree.
#[cycle(long)]
fn has_long(tree: &PieceTree) -> bool
    ensures { IsTrue result ↔ IsSome (first_long (Grow tree.now.node tree.now.below End)) }
{
    needs_list(tree) || long_item(tree.children.as_slice()).is_some()
}

// Whether the node has such a content.
fn needs_list(tree: &PieceTree) -> bool
    ensures { result ≡ needs_list tree.now.node }
{
    tree.far.is_none() && tree.node.content.len() > LONGEST_NEAR as usize
}
