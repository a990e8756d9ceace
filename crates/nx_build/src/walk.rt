// The walk over a tree and its marks, which puts a record for each interval below it.
ghost use Rattle.std.specs.Prelude.{◌≡◌, ◌+◌, ◌-◌, ◌≤◌, [], ℕ, false, length, take, drop, IfOk, IfErr, OnOk};
ghost use Rattle.std.specs.Vec.Iter.{into_iter_items};
ghost use Rattle.nx_host.specs.Still.{IsStill};
ghost use Rattle.nx_tree.specs.Forest.{forest_of, nodes};
ghost use Rattle.nx_weights.specs.Weight.{IsShort, AreShort};
ghost use Rattle.nx_parts.specs.Marks.{marked_in, holder_by_marks};
ghost use Rattle.nx_records.specs.Records.{HasChanges, has_ended};
ghost use Rattle.nx_records.specs.Refusals.{NotStored};
ghost use Rattle.nx_piece.specs.Gapped.{Grow, End};
ghost use Rattle.nx_cuts.specs.Cut.{CutForest, Grown, Bare};
ghost use Rattle.nx_hold.specs.Contents.{content_pages};
ghost use Rattle.nx_build.specs.Marked.{IsMarked, AreMembers, CanMark, CanHold};
ghost use Rattle.nx_build.specs.Laying.{LaysTrees, LaysMembers, drawn_needs, proxy_count};

use crate::items::{add_proxy, members_end, next_tree};
use nx_hold::{add_piece, hold_node};
use nx_host::Disk;
use nx_parts::{Mark, below_in, holder_in};
use nx_piece::{Body, Item, Items, Piece, PieceTree, PieceTrees, Proxies, Proxy};
use nx_records::{Records, StoreError};
use nx_tree::Tree;
use std::alloc::Global;
use std::vec::IntoIter;

// The tree of a piece: its node, and what stands below it in the same record. A content that is too long for its
// item is written first, and let go before what is below it is laid out. A record is put for each interval below the
// node, and the proxies of those that its piece names are added.
#[cycle(walk)]
fn piece_tree<D: Disk>(
    alloc: Global,
    records: &mut Records,
    disk: &mut D,
    tree: Tree,
    marks: &[Mark],
    proxies: &mut Proxies,
) -> Result<PieceTree, StoreError>
    requires runs { has_ended records.old ≡ false }
    requires few { nodes tree.below ≤ 524288 }
    requires short { IsShort tree.node × AreShort tree.below }
    requires marked { CanMark (holder_by_marks marks.now) 0 tree.below }
    ensures still { IsStill D.Disk disk.old disk.new }
    ensures ok { IfOk result (λ made. (drawn : CutForest) → IsMarked None (holder_by_marks marks.now) 0 tree.below drawn →
        LaysTrees D.Disk records.old records.new disk.old disk.new (Grown tree.node drawn Bare) (Grow made.node made.below End) proxies.old proxies.new) }
    ensures refused { IfErr result (λ e. (drawn : CutForest) → IsMarked None (holder_by_marks marks.now) 0 tree.below drawn →
        NotStored D.Disk (λ was. content_pages tree.node + drawn_needs drawn) (λ was. ⊥) 0 e records.old records.new disk.old disk.new) }
{
    let Tree { node, children } = tree;
    let mut made = hold_node(alloc, records, disk, node)?;
    made.children = items_of(alloc, records, disk, children.into_vec(), marks, proxies)?;
    Ok(made)
}

// What a piece has of trees beside each other: a tree that is a member of no interval stands with the node
// above, and neighbours that are the members of one interval get a record of their own.
#[cycle(walk)]
fn items_of<D: Disk>(
    alloc: Global,
    records: &mut Records,
    disk: &mut D,
    trees: Vec<Tree>,
    marks: &[Mark],
    proxies: &mut Proxies,
) -> Result<Items, StoreError>
    requires runs { has_ended records.old ≡ false }
    requires few { nodes (forest_of trees.items) ≤ 524288 }
    requires short { AreShort (forest_of trees.items) }
    requires marked { CanMark (holder_by_marks marks.now) 0 (forest_of trees.items) }
    ensures still { IsStill D.Disk disk.old disk.new }
    ensures ok { IfOk result (λ items. (drawn : CutForest) → IsMarked None (holder_by_marks marks.now) 0 (forest_of trees.items) drawn →
        LaysTrees D.Disk records.old records.new disk.old disk.new drawn items proxies.old proxies.new) }
    ensures refused { IfErr result (λ e. (drawn : CutForest) → IsMarked None (holder_by_marks marks.now) 0 (forest_of trees.items) drawn →
        NotStored D.Disk (λ was. drawn_needs drawn) (λ was. ⊥) 0 e records.old records.new disk.old disk.new) }
{
    let len = trees.len();
    let mut rest = trees.into_iter();
    let mut items = Vec::new(alloc);
    let mut position = 0;
    while position < len {
        match holder_in(marks, position) {
            None => {
                let tree = next_tree(&mut rest);
                let below = below_in(marks, position);
                let made = piece_tree(alloc, records, disk, tree, below, proxies)?;
                let Ok(()) = items.push(Item::Tree(made)) else {
                    return Err(StoreError::Memory);
                };
                position += 1;
            }
            Some(holder) => {
                let end = members_end(marks, holder, position, len);
                let proxy = put_members(alloc, records, disk, &mut rest, marks, position, end)?;
                let Ok(()) = add_proxy(&mut items, proxies, proxy) else {
                    return Err(StoreError::Memory);
                };
                position = end;
            }
        }
    }
    Ok(Items::from_vec(items))
}

// Puts the record of an interval, once the records of all intervals below its members are put, and answers
// its proxy. The members stand from the first position up to the end. They are taken from the trees that are
// left, which begin with them.
#[cycle(walk)]
pub(crate) fn put_members<D: Disk>(
    alloc: Global,
    records: &mut Records,
    disk: &mut D,
    trees: &mut IntoIter<Tree>,
    marks: &[Mark],
    first: usize,
    end: usize,
) -> Result<Proxy, StoreError>
    requires runs { has_ended records.old ≡ false }
    requires few { nodes (forest_of (into_iter_items trees.old)) ≤ 524288 }
    requires short { AreShort (forest_of (into_iter_items trees.old)) }
    requires order { first ≤ end }
    requires within { end ≤ first + length (into_iter_items trees.old) }
    requires marked { CanHold (holder_by_marks marks.now) first (forest_of (take (end - first) (into_iter_items trees.old))) }
    ensures still { IsStill D.Disk disk.old disk.new }
    ensures ok { IfOk result (λ proxy. (members : CutForest) → AreMembers (holder_by_marks marks.now) first (forest_of (take (end - first) (into_iter_items trees.old))) members →
        LaysMembers D.Disk records.old records.new disk.old disk.new members proxy) }
    ensures rest { OnOk result (into_iter_items trees.new ≡ drop (end - first) (into_iter_items trees.old)) }
    ensures changes { IfOk result (λ proxy. HasChanges records.new) }
    ensures refused { IfErr result (λ e. (members : CutForest) → AreMembers (holder_by_marks marks.now) first (forest_of (take (end - first) (into_iter_items trees.old))) members →
        NotStored D.Disk (λ was. 1 + proxy_count members + drawn_needs members) (λ was. ⊥) 0 e records.old records.new disk.old disk.new) }
{
    let mut roots = PieceTrees::new(alloc);
    let mut proxies = Proxies::new(alloc);
    for position in first..end {
        let below = below_in(marks, position);
        let made = piece_tree(alloc, records, disk, next_tree(trees), below, &mut proxies)?;
        let Ok(()) = roots.push(made) else {
            return Err(StoreError::Memory);
        };
    }
    let body = Body { roots };
    add_piece(alloc, records, disk, &Piece { body, proxies })
}
