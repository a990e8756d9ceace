// Marks on the nodes of a tree: which interval each is a member of.
ghost use Rattle.std.specs.Prelude.{◌≡◌, ◌≤◌, ◌<◌, ◌^◌, [], ◌∷◌, List, ℕ, length, None, OnOk, IfOk, IfErr};
ghost use Rattle.nx_tree.specs.Document.{is_empty};
ghost use Rattle.nx_parts.specs.Partitioning.{is_child_path, has_member, holder};
ghost use Rattle.nx_parts.specs.Refusal.{Overlaps};
ghost use Rattle.nx_parts.specs.Marks.{marked, marked_in, HoldsMembers, IsClash, IsOverlap};

use crate::{Interval, PartsError};
use std::alloc::Global;

/// The mark of a node: the interval that it is a member of, and the marks of its first children.
/// Behind them no node is a member at all.
#[derive(Drop)]
pub struct Mark {
    // The interval, as its place in the list.
    pub(crate) holder: Option<u32>,
    pub(crate) below: Vec<Mark>,
}

impl Mark {
    /// The interval that the node is a member of, as its place in the list, if there is one. It takes
    /// no memory.
    pub fn holder(&self) -> Option<u32>
        ensures { result ≡ marked self.now [] }
    {
        self.holder
    }

    /// The marks of the node's first children. It takes no memory.
    pub fn below(&self) -> &[Mark]
        ensures { (position : ℕ) (path : List ℕ) → marked_in result.now position path ≡ marked self.now (position ∷ path) }
    {
        self.below.as_slice()
    }

    // No interval, at the node and below it. It takes no memory.
    fn new(alloc: Global) -> Mark
        ensures { (path : List ℕ) → marked result path ≡ None }
    {
        Mark {
            holder: None,
            below: Vec::new(alloc),
        }
    }

    // Marks the interval's members as its own.
    fn hold_members(
        &mut self,
        alloc: Global,
        interval: &Interval,
        index: u32,
    ) -> Result<(), PartsError>
        ensures ok { OnOk result (HoldsMembers (has_member interval.now) index self.old self.new) }
        ensures err { IfErr result (IsClash (has_member interval.now) index self.old) }
    {
        match interval {
            Interval::Root => self.hold(index),
            Interval::Run {
                parent,
                first,
                last,
            } => self.hold_run(alloc, parent.as_slice(), *first, *last, index),
        }
    }

    // Makes the node itself a member of the interval.
    fn hold(&mut self, index: u32) -> Result<(), PartsError>
        ensures ok { OnOk result (HoldsMembers is_empty index self.old self.new) }
        ensures err { IfErr result (IsClash is_empty index self.old) }
    {
        if self.holder.is_some() {
            return Err(PartsError::Overlap { index });
        }
        self.holder = Some(index);
        Ok(())
    }

    // Makes the children from the first to the last members of the interval.
    fn hold_children(
        &mut self,
        alloc: Global,
        first: u32,
        last: u32,
        index: u32,
    ) -> Result<(), PartsError>
        ensures ok { OnOk result (HoldsMembers (is_child_path [] first last) index self.old self.new) }
        ensures err { IfErr result (IsClash (is_child_path [] first last) index self.old) }
    {
        let end = last as usize + 1;
        grow(alloc, &mut self.below, end)?;
        for position in first as usize..end {
            self.below[position].hold(index)?;
        }
        Ok(())
    }

    // Makes the children from the first to the last of the node at the path members of the interval.
    fn hold_run(
        &mut self,
        alloc: Global,
        parent: &[u32],
        first: u32,
        last: u32,
        index: u32,
    ) -> Result<(), PartsError>
        ensures ok { OnOk result (HoldsMembers (is_child_path parent.now first last) index self.old self.new) }
        ensures err { IfErr result (IsClash (is_child_path parent.now first last) index self.old) }
    {
        let Some((position, path)) = parent.split_first() else {
            return self.hold_children(alloc, first, last, index);
        };
        let position = *position as usize;
        grow(alloc, &mut self.below, position + 1)?;
        self.below[position].hold_run(alloc, path, first, last, index)
    }
}

// Makes sure that there are so many marks, by empty ones at the end.
fn grow(alloc: Global, marks: &mut Vec<Mark>, count: usize) -> Result<(), PartsError>
    ensures len { OnOk result (count ≤ length marks.new.items) }
    ensures same { (position : ℕ) (path : List ℕ) → marked_in marks.new.items position path ≡ marked_in marks.old.items position path }
    ensures err { IfErr result (λ error. error ≡ PartsError.Memory) }
{
    while marks.len() < count {
        marks.push(Mark::new(alloc))?;
    }
    Ok(())
}

/// The root's mark, with those below it: each node is marked with the interval that it is a member of.
/// There have to be fewer than 2^32 intervals.
///
/// Errors: `Overlap` for the first interval that shares a member with an earlier one; `Memory`.
pub fn mark_members(alloc: Global, intervals: &[Interval]) -> Result<Mark, PartsError>
    requires { length intervals.now < 2 ^ 32 }
    ensures marked { IfOk result (λ root. (path : List ℕ) → marked root path ≡ holder intervals.now path) }
    ensures apart { OnOk result ((index : ℕ) → ¬ Overlaps intervals.now index) }
    ensures err { IfErr result (IsOverlap intervals.now) }
{
    let mut root = Mark::new(alloc);
    for (index, interval) in intervals.iter().enumerate() {
        root.hold_members(alloc, interval, index as u32)?;
    }
    Ok(root)
}

/// The interval that the node at a position is a member of, if there is one. It takes no memory.
pub fn holder_in(marks: &[Mark], position: usize) -> Option<u32>
    ensures { result ≡ marked_in marks.now position [] }
{
    marks.get(position)?.holder
}

/// The marks below the node at a position, none where no members are marked there. It takes no memory.
pub fn below_in(marks: &[Mark], position: usize) -> &[Mark]
    ensures { (next : ℕ) (path : List ℕ) → marked_in result.now next path ≡ marked_in marks.now position (next ∷ path) }
{
    match marks.get(position) {
        Some(mark) => mark.below.as_slice(),
        None => &[],
    }
}
