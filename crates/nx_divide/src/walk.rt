// The walk over a piece and the marks of its split, which puts a record for each interval of it.
ghost use Rattle.std.specs.Prelude.{◌≡◌, ◌≢◌, ◌+◌, ◌-◌, ◌≤◌, [], ℕ, false, length, take, drop, IfOk, IfErr, OnOk};
ghost use Rattle.std.specs.Vec.Iter.{into_iter_items};
ghost use Rattle.nx_host.specs.Still.{IsStill};
ghost use Rattle.nx_parts.specs.Marks.{holder_by_marks};
ghost use Rattle.nx_records.specs.Records.{has_ended};
ghost use Rattle.nx_records.specs.Refusals.{NotStored};
ghost use Rattle.nx_piece.specs.Gapped.{item_count, proxies_in};
ghost use Rattle.nx_piece.specs.Items.{gapped_of};
ghost use Rattle.nx_piece.specs.Valid.{AreNear, IsValidPiece};
ghost use Rattle.nx_drafts.specs.Draft.{Draft, Ends, Comes, draft_needs};
ghost use Rattle.nx_divide.specs.Marked.{IsMarkedDraft, AreMarkedMembers, HasMarkedDraft, HasMarkedMembers, many};
ghost use Rattle.nx_divide.specs.Putting.{PutsRow, GathersPiece, PutsMembers};

use crate::row::{keep_run, next_item, next_tree};
use nx_build::{add_proxy, members_end};
use nx_hold::add_piece;
use nx_host::Disk;
use nx_parts::{Mark, below_in, holder_in};
use nx_piece::{Body, Item, Items, Piece, PieceTree, PieceTrees, Proxies, Proxy};
use nx_records::{Records, StoreError};
use std::alloc::Global;
use std::vec::IntoIter;

// The tree as its new piece has it; a far content stays where it is. A record is put for each interval below it that
// comes. The proxies of the intervals that stand are taken from the old ones that are left, which begin with them.
#[cycle(walk)]
fn piece_tree<D: Disk>(
    alloc: Global,
    records: &mut Records,
    disk: &mut D,
    tree: PieceTree,
    marks: &[Mark],
    olds: &mut IntoIter<Proxy>,
    proxies: &mut Proxies,
) -> Result<PieceTree, StoreError>
    requires runs { has_ended records.old ≡ false }
    requires few { many tree.below ≤ 524288 }
    requires small { item_count tree.below ≤ 1048576 }
    requires olds { length (into_iter_items olds.old) ≤ 524288 }
    requires marked { HasMarkedDraft (holder_by_marks marks.now) 0 tree.below (into_iter_items olds.old) }
    ensures still { IsStill D.Disk disk.old disk.new }
    ensures node { IfOk result (λ made. made.node ≡ tree.node) }
    ensures olds { OnOk result (into_iter_items olds.new ≡ drop (proxies_in tree.below) (into_iter_items olds.old)) }
    ensures ok { IfOk result (λ made. (drawn : Draft (Unit {0})) → IsMarkedDraft None (holder_by_marks marks.now) 0 tree.below (into_iter_items olds.old) drawn →
        PutsRow D.Disk records.old records.new disk.old disk.new drawn made.below proxies.old proxies.new) }
    ensures refused { IfErr result (λ e. (drawn : Draft (Unit {0})) → IsMarkedDraft None (holder_by_marks marks.now) 0 tree.below (into_iter_items olds.old) drawn →
        NotStored D.Disk (λ was. draft_needs drawn) (λ was. ⊥) 0 e records.old records.new disk.old disk.new) }
{
    let PieceTree {
        node,
        far,
        children,
    } = tree;
    let children = items_of(
        alloc,
        records,
        disk,
        children.into_vec(),
        marks,
        olds,
        proxies,
    )?;
    Ok(PieceTree {
        node,
        far,
        children,
    })
}

// What a piece has of a row: a tree that is a member of no interval stands with the node above, neighbours that
// are the members of one that comes get a record of their own, and proxies stay.
#[cycle(walk)]
pub(crate) fn items_of<D: Disk>(
    alloc: Global,
    records: &mut Records,
    disk: &mut D,
    items: Vec<Item>,
    marks: &[Mark],
    olds: &mut IntoIter<Proxy>,
    proxies: &mut Proxies,
) -> Result<Items, StoreError>
    requires runs { has_ended records.old ≡ false }
    requires few { many (gapped_of items.items) ≤ 524288 }
    requires small { item_count (gapped_of items.items) ≤ 1048576 }
    requires olds { length (into_iter_items olds.old) ≤ 524288 }
    requires marked { HasMarkedDraft (holder_by_marks marks.now) 0 (gapped_of items.items) (into_iter_items olds.old) }
    ensures still { IsStill D.Disk disk.old disk.new }
    ensures olds { OnOk result (into_iter_items olds.new ≡ drop (proxies_in (gapped_of items.items)) (into_iter_items olds.old)) }
    ensures ok { IfOk result (λ made. (drawn : Draft (Unit {0})) → IsMarkedDraft None (holder_by_marks marks.now) 0 (gapped_of items.items) (into_iter_items olds.old) drawn →
        PutsRow D.Disk records.old records.new disk.old disk.new drawn made proxies.old proxies.new) }
    ensures refused { IfErr result (λ e. (drawn : Draft (Unit {0})) → IsMarkedDraft None (holder_by_marks marks.now) 0 (gapped_of items.items) (into_iter_items olds.old) drawn →
        NotStored D.Disk (λ was. draft_needs drawn) (λ was. ⊥) 0 e records.old records.new disk.old disk.new) }
{
    let mut count = items.len();
    let mut left = items.into_iter();
    let mut made = Vec::new(alloc);
    let mut position = 0;
    while count > 0 {
        match holder_in(marks, position) {
            Some(holder) => {
                let end = members_end(marks, holder, position, position + count);
                let proxy = put_members(
                    alloc, records, disk, &mut left, marks, position, end, olds,
                )?;
                let Ok(()) = add_proxy(&mut made, proxies, proxy) else {
                    return Err(StoreError::Memory);
                };
                count -= end - position;
                position = end;
            }
            None => {
                count -= 1;
                match next_item(&mut left) {
                    Item::Tree(tree) => {
                        let below = below_in(marks, position);
                        let tree = piece_tree(alloc, records, disk, tree, below, olds, proxies)?;
                        let Ok(()) = made.push(Item::Tree(tree)) else {
                            return Err(StoreError::Memory);
                        };
                        position += 1;
                    }
                    Item::Run { count: run } => {
                        let Ok(roots) = keep_run(&mut made, proxies, olds, run) else {
                            return Err(StoreError::Memory);
                        };
                        position += roots;
                    }
                }
            }
        }
    }
    Ok(Items::from_vec(made))
}

// Puts the record of an interval that comes, once the records of all below its members are put, and answers its
// proxy. The members stand from the first position up to the end. They are taken from the items that are left,
// which begin with them.
#[cycle(walk)]
fn put_members<D: Disk>(
    alloc: Global,
    records: &mut Records,
    disk: &mut D,
    left: &mut IntoIter<Item>,
    marks: &[Mark],
    first: usize,
    end: usize,
    olds: &mut IntoIter<Proxy>,
) -> Result<Proxy, StoreError>
    requires runs { has_ended records.old ≡ false }
    requires few { many (gapped_of (into_iter_items left.old)) ≤ 524288 }
    requires small { item_count (gapped_of (into_iter_items left.old)) ≤ 1048576 }
    requires olds { length (into_iter_items olds.old) ≤ 524288 }
    requires order { first ≤ end }
    requires within { end ≤ first + length (into_iter_items left.old) }
    requires marked { HasMarkedMembers (holder_by_marks marks.now) first (gapped_of (take (end - first) (into_iter_items left.old))) (into_iter_items olds.old) }
    ensures still { IsStill D.Disk disk.old disk.new }
    ensures left { OnOk result (into_iter_items left.new ≡ drop (end - first) (into_iter_items left.old)) }
    ensures olds { OnOk result (into_iter_items olds.new ≡ drop (proxies_in (gapped_of (take (end - first) (into_iter_items left.old)))) (into_iter_items olds.old)) }
    ensures ok { IfOk result (λ proxy. (members : Draft (Unit {0})) → AreMarkedMembers (holder_by_marks marks.now) first (gapped_of (take (end - first) (into_iter_items left.old))) (into_iter_items olds.old) members →
        PutsMembers D.Disk records.old records.new disk.old disk.new members proxy) }
    ensures refused { IfErr result (λ e. (members : Draft (Unit {0})) → AreMarkedMembers (holder_by_marks marks.now) first (gapped_of (take (end - first) (into_iter_items left.old))) (into_iter_items olds.old) members →
        NotStored D.Disk (λ was. draft_needs (Comes tt members Ends)) (λ was. ⊥) 0 e records.old records.new disk.old disk.new) }
{
    let piece = gather_piece(alloc, records, disk, left, marks, first, end, olds)?;
    add_piece(alloc, records, disk, &piece)
}

// The piece of an interval that comes, once the records of all below its members are put. They stand as those of
// `put_members`.
#[cycle(walk)]
pub(crate) fn gather_piece<D: Disk>(
    alloc: Global,
    records: &mut Records,
    disk: &mut D,
    left: &mut IntoIter<Item>,
    marks: &[Mark],
    first: usize,
    end: usize,
    olds: &mut IntoIter<Proxy>,
) -> Result<Piece, StoreError>
    requires runs { has_ended records.old ≡ false }
    requires few { many (gapped_of (into_iter_items left.old)) ≤ 524288 }
    requires small { item_count (gapped_of (into_iter_items left.old)) ≤ 1048576 }
    requires olds { length (into_iter_items olds.old) ≤ 524288 }
    requires order { first ≤ end }
    requires within { end ≤ first + length (into_iter_items left.old) }
    requires marked { HasMarkedMembers (holder_by_marks marks.now) first (gapped_of (take (end - first) (into_iter_items left.old))) (into_iter_items olds.old) }
    ensures still { IsStill D.Disk disk.old disk.new }
    ensures left { OnOk result (into_iter_items left.new ≡ drop (end - first) (into_iter_items left.old)) }
    ensures olds { OnOk result (into_iter_items olds.new ≡ drop (proxies_in (gapped_of (take (end - first) (into_iter_items left.old)))) (into_iter_items olds.old)) }
    ensures valid { IfOk result (λ piece. IsValidPiece piece) }
    ensures near { IfOk result (λ piece. AreNear piece.body.roots) }
    ensures ok { IfOk result (λ piece. (members : Draft (Unit {0})) → AreMarkedMembers (holder_by_marks marks.now) first (gapped_of (take (end - first) (into_iter_items left.old))) (into_iter_items olds.old) members →
        GathersPiece D.Disk records.old records.new disk.old disk.new members piece) }
    ensures refused { IfErr result (λ e. (members : Draft (Unit {0})) → AreMarkedMembers (holder_by_marks marks.now) first (gapped_of (take (end - first) (into_iter_items left.old))) (into_iter_items olds.old) members →
        NotStored D.Disk (λ was. draft_needs members) (λ was. ⊥) 0 e records.old records.new disk.old disk.new) }
{
    let mut roots = PieceTrees::new(alloc);
    let mut proxies = Proxies::new(alloc);
    for position in first..end {
        let below = below_in(marks, position);
        let made = piece_tree(
            alloc,
            records,
            disk,
            next_tree(left),
            below,
            olds,
            &mut proxies,
        )?;
        let Ok(()) = roots.push(made) else {
            return Err(StoreError::Memory);
        };
    }
    let body = Body { roots };
    Ok(Piece { body, proxies })
}
