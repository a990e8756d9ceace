// Paths of nodes, kept in one piece.
ghost use Rattle.std.specs.Prelude.{◌≡◌, ◌≤◌, ◌<◌, [], ◌∷◌, ◌++◌, length, get_or, OnErr, OnOk};
ghost use Rattle.nx_reach.specs.Parts.{begin_of};

use nx_lists::NoMemory;
use std::alloc::Global;
use std::marker::Model;

/// Paths of nodes, in order. Contracts see the list of them. The positions of all paths stand in one list, one path
/// behind the other, so that a path takes 4 bytes for a position and 8 besides, with room for twice as much at most.
#[derive(Drop)]
pub struct Paths {
    positions: Vec<u32>,
    // Behind how many of the positions each path ends.
    ends: Vec<usize>,
}

impl Model for Paths {
    ghost use Rattle.std.specs.Prelude.{List, ℕ, length};
    ghost use Rattle.nx_reach.specs.Parts.{AreEnds, parts_from};

    ghost Value = { List (List ℕ) };

    ghost view = { λ a. parts_from 0 a.ends.items a.positions.items };

    ghost invariant = { λ a. AreEnds 0 a.ends.items (length a.positions.items) };
}

impl Paths {
    /// No paths. It takes no memory.
    pub fn new(alloc: Global) -> Paths
        ensures { result ≡ [] }
    {
        Paths {
            positions: Vec::new(alloc),
            ends: Vec::new(alloc),
        }
    }

    /// The number of paths.
    pub fn len(&self) -> usize
        ensures { result ≡ length self.now }
    {
        self.ends.len()
    }

    /// The path of this number, from 0 on.
    pub fn path(&self, index: usize) -> &[u32]
        requires { index < length self.now }
        ensures { result.now ≡ get_or self.now index [] }
    {
        let begin = begin_of(self.ends.as_slice(), index);
        &self.positions[begin..self.ends[index]]
    }

    // Adds a path behind the others.
    //
    // Errors: `NoMemory`. The paths are as they were then.
    pub(crate) fn push(&mut self, path: &[u32]) -> Result<(), NoMemory>
        ensures ok { OnOk result (self.new ≡ self.old ++ path.now ∷ []) }
        ensures err { OnErr result (self.new ≡ self.old) }
    {
        let begin = self.positions.len();
        self.positions.extend_from_slice(path)?;
        let end = self.positions.len();
        if self.ends.push(end).is_err() {
            self.positions.truncate(begin);
            return Err(NoMemory);
        }
        Ok(())
    }
}

// Where the part of this number begins, if these are the ends of parts from 0 on.
fn begin_of(ends: &[usize], index: usize) -> usize
    requires { index ≤ length ends.now }
    ensures { result ≡ begin_of 0 ends.now index }
{
    if index == 0 { 0 } else { ends[index - 1] }
}
