// The nodes of a part, as the definitions of a split speak of them.
ghost use Rattle.std.specs.Prelude.{◌≡◌, ◌+◌, [], ◌++◌, length, IfOk, IfSome, MatchOption, OnOk};
ghost use Rattle.nx_sketch.specs.Sketch.{IsFlat, Sketch, placed, placed_in, spots_of};
ghost use Rattle.nx_division.specs.Parts.{IsParted};

use nx_lists::NoMemory;
use nx_matrix::Entry;
use nx_sketch::Spot;
use nx_tree::Path;
use std::alloc::Global;
use std::marker::Model;

// A node with its path from a helper above the roots, its weight and what is asked of it below its parent.
#[derive(Drop)]
pub(crate) struct Node {
    path: Path,
    weight: u32,
    entry: Entry,
}

impl Model for Node {
    ghost use Rattle.nx_sketch.specs.Sketch.{Placed};

    ghost Value = { Placed };

    ghost view = { λ n. record { path = n.path; weight = n.weight; entry = n.entry } };
}

impl Node {
    pub(crate) fn path(&self) -> &[u32]
        ensures { result.now ≡ self.now.path }
    {
        self.path.as_slice()
    }

    pub(crate) fn weight(&self) -> u32
        ensures { result ≡ self.now.weight }
    {
        self.weight
    }

    pub(crate) fn entry(&self) -> Entry
        ensures { result ≡ self.now.entry }
    {
        self.entry
    }
}

// The nodes of the sketch in document order.
pub(crate) fn nodes(alloc: Global, spots: &[Spot]) -> Result<Vec<Node>, NoMemory>
    requires { IsFlat spots.now }
    ensures { IfOk result (λ nodes. (s : Sketch) → spots.now ≡ spots_of s → nodes.items ≡ placed s) }
{
    let mut found = Vec::new(alloc);
    let mut path = Vec::new(alloc);
    push_nodes(alloc, &mut path, spots, &mut found)?;
    Ok(found)
}

// The first node of a sketch, the nodes below it, and those beside it.
fn parts(spots: &[Spot]) -> Option<(&Spot, &[Spot], &[Spot])>
    requires { IsFlat spots.now }
    ensures cases { MatchOption result (spots.now ≡ []) (λ p. (s : Sketch) → spots.now ≡ spots_of s → IsParted p.0.now p.1.now p.2.now s) }
    ensures shorter { IfSome result (λ p. length spots.now ≡ 1 + length p.1.now + length p.2.now) }
{
    let (spot, rest) = spots.split_first()?;
    let (below, beside) = rest.split_at(spot.below as usize);
    Some((spot, below, beside))
}

// Adds the nodes in document order, below the node at the path, which is as before then.
fn push_nodes(
    alloc: Global,
    path: &mut Vec<u32>,
    spots: &[Spot],
    found: &mut Vec<Node>,
) -> Result<(), NoMemory>
    requires { IsFlat spots.now }
    ensures path { OnOk result (path.new.items ≡ path.old.items) }
    ensures found { OnOk result ((s : Sketch) → spots.now ≡ spots_of s → found.new.items ≡ found.old.items ++ placed_in path.old.items s) }
{
    let Some((spot, below, beside)) = parts(spots) else {
        return Ok(());
    };
    path.push(spot.position)?;
    found.push(Node {
        path: Path::from_slice(alloc, path.as_slice())?,
        weight: spot.weight,
        entry: spot.entry,
    })?;
    push_nodes(alloc, path, below, found)?;
    let _ = path.pop();
    push_nodes(alloc, path, beside, found)?;
    Ok(())
}
