// The weights of the parts, by one walk over the tree and its marks.
ghost use Rattle.std.specs.Prelude.{◌≡◌, ◌+◌, ◌<◌, ◌^◌, ◌==◌, ℕ, List, length, if◌then◌else◌, Some, OnOk, IfOk, IfErr, slice_index};
ghost use Rattle.nx_tree.specs.Document.{IsDocument};
ghost use Rattle.nx_tree.specs.Forest.{forest_of};
ghost use Rattle.nx_weights.specs.Weight.{AreShort, total, weight};
ghost use Rattle.nx_parts.specs.Partitioning.{IsPartitioning, IsFeasible, part_weights};
ghost use Rattle.nx_parts.specs.Refusal.{IsNoPartitioning, IsNotFeasible};
ghost use Rattle.nx_parts.specs.Marks.{marked_in, holder_by_marks, owed};
ghost use Rattle.nx_parts.specs.declared.marks.Mark.{out-Mark};

use crate::check::{first_above, first_outside};
use crate::marks::{Mark, below_in, holder_in, mark_members};
use crate::{Partitioning, PartsError};
use nx_tree::Tree;
use nx_weights::{Weights, weight};
use std::alloc::Global;

/// The weights of the parts of a partitioning of the tree, in slots of 8 bytes and in the order of
/// its intervals: each part is what its interval's members own, down to the next members. The tree
/// has to be a document, and there have to be fewer than 2^32 intervals.
///
/// The first of these that applies refuses the list, each with the least index: `OutOfTree` for an
/// interval whose parent or a member isn't there or whose first position is above its last,
/// `Overlap` for one that shares a member with an earlier interval, `NoRoot` where none is the
/// root's. Besides it answers `Memory`.
pub fn part_weights(alloc: Global, tree: &Tree, parts: &Partitioning) -> Result<Weights, PartsError>
    requires document { IsDocument tree.now }
    requires few { length parts.now < 2 ^ 32 }
    ensures ok { IfOk result (λ weights. IsPartitioning tree.now parts.now × (weights ≡ part_weights tree.now parts.now)) }
    ensures err { IfErr result (λ error. IsNoPartitioning tree.now parts.now error) }
{
    let intervals = parts.as_slice();
    if let Some(index) = first_outside(tree, intervals) {
        return Err(PartsError::OutOfTree { index });
    }
    let root = mark_members(alloc, intervals)?;
    let owner = root.holder.ok_or(PartsError::NoRoot)?;
    let sums = sum_owned(alloc, tree, &root, owner, intervals.len())?;
    Ok(Weights::from_vec(sums))
}

/// The weights of the parts of a partitioning of the tree, none of which weighs more than `k`
/// slots. The tree has to be a document, and there have to be fewer than 2^32 intervals.
///
/// It refuses the list as [`part_weights`] does, and then by `Heavy` for the first part that weighs
/// more.
pub fn feasible_weights(
    alloc: Global,
    tree: &Tree,
    k: u32,
    parts: &Partitioning,
) -> Result<Weights, PartsError>
    requires document { IsDocument tree.now }
    requires few { length parts.now < 2 ^ 32 }
    ensures ok { IfOk result (λ weights. IsFeasible k tree.now parts.now × (weights ≡ part_weights tree.now parts.now)) }
    ensures err { IfErr result (λ error. IsNotFeasible k tree.now parts.now error) }
{
    let weights = part_weights(alloc, tree, parts)?;
    match first_above(weights.as_slice(), k) {
        Some((index, weight)) => Err(PartsError::Heavy { index, weight }),
        None => Ok(weights),
    }
}

/// Whether the intervals are a partitioning of the tree and none of its parts weighs more than `k`
/// slots. The tree has to be a document, and there have to be fewer than 2^32 intervals. It refuses
/// them as [`feasible_weights`] does.
pub fn check_feasible(
    alloc: Global,
    tree: &Tree,
    k: u32,
    parts: &Partitioning,
) -> Result<(), PartsError>
    requires document { IsDocument tree.now }
    requires few { length parts.now < 2 ^ 32 }
    ensures ok { OnOk result (IsFeasible k tree.now parts.now) }
    ensures err { IfErr result (λ error. IsNotFeasible k tree.now parts.now error) }
{
    feasible_weights(alloc, tree, k, parts)?;
    Ok(())
}

// What each of so many intervals owns of the tree, whose root the one at `owner` owns.
fn sum_owned(
    alloc: Global,
    tree: &Tree,
    root: &Mark,
    owner: u32,
    count: usize,
) -> Result<Vec<u64>, PartsError>
    requires document { IsDocument tree.now }
    requires owner { owner < count }
    requires marks { (position : ℕ) (path : List ℕ) (place : ℕ) → marked_in (out-Mark root.now).below.items position path ≡ Some place → place < count }
    ensures len { IfOk result (λ sums. length sums.items ≡ count) }
    ensures sums { IfOk result (λ sums. (index : ℕ) → index < count → slice_index sums.items index ≡ (if owner == index then weight tree.now.node else 0) + owed (holder_by_marks (out-Mark root.now).below.items) index owner 0 tree.now.below) }
    ensures err { IfErr result (λ error. error ≡ PartsError.Memory) }
{
    let mut sums = vec![in alloc; 0u64; count]?;
    sums[owner as usize] = u64::from(weight(&tree.node));
    add_owned(
        tree.children.as_slice(),
        root.below.as_slice(),
        owner,
        &mut sums,
    );
    Ok(sums)
}

// Adds to the sum of each interval what it owns of the trees, which stand below a node that the
// interval at `above` owns.
fn add_owned(children: &[Tree], marks: &[Mark], above: u32, sums: &mut [u64])
    requires short { AreShort (forest_of children.now) }
    requires above { above < length sums.old }
    requires marks { (position : ℕ) (path : List ℕ) (place : ℕ) → marked_in marks.now position path ≡ Some place → place < length sums.old }
    requires room { (index : ℕ) → index < length sums.old → slice_index sums.old index + total (forest_of children.now) < 2 ^ 64 }
    ensures { (index : ℕ) → index < length sums.old → slice_index sums.new index ≡ slice_index sums.old index + owed (holder_by_marks marks.now) index above 0 (forest_of children.now) }
{
    for (position, child) in children.iter().enumerate() {
        let owner = holder_in(marks, position).unwrap_or(above);
        sums[owner as usize] += u64::from(weight(&child.node));
        add_owned(
            child.children.as_slice(),
            below_in(marks, position),
            owner,
            sums,
        );
    }
}
