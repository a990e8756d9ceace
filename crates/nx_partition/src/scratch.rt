// The choices at one node.
ghost use Rattle.std.specs.Prelude.{◌≡◌, ◌<◌, ◌≤◌, length, IfOk, OnOk};
ghost use Rattle.nx_tree.specs.Forest.{Plant, Empty, nodes};
ghost use Rattle.nx_weights.specs.Weight.{IsWithinLimits, weight};
ghost use Rattle.nx_parts.specs.Minima.{IsMinima, AreMinimaIn};
ghost use Rattle.nx_choices.specs.Stand.{IsChoice};
ghost use Rattle.nx_minima.specs.Seen.{as_child, seen, tops};
ghost use Rattle.nx_partition.specs.Planning.{first_bound, behind_first, number_in, weight_in};

use nx_choices::{Child, Choices, Stand};
use nx_lists::NoMemory;
use nx_parts::Bound;
use nx_tree::{Tree, count};
use nx_weights::weight;
use std::alloc::Global;

/// What the work at one node needs, and the next one again.
#[derive(Drop)]
pub struct Scratch {
    alloc: Global,
    choices: Choices,
    // The minima of the node's children.
    children: Vec<Child>,
}

impl Scratch {
    /// It takes no memory yet.
    pub fn new(alloc: Global) -> Scratch {
        Scratch {
            alloc,
            choices: Choices::new(alloc),
            children: Vec::new(alloc),
        }
    }

    /// The minima of the tree, where `below` begins with those of the nodes below its root.
    pub fn least(&mut self, tree: &Tree, k: u32, below: &[Bound]) -> Result<Bound, NoMemory>
        requires some { 1 ≤ k }
        requires bound { k ≤ 256 }
        requires limits { IsWithinLimits tree.now }
        requires light { weight tree.now.node ≤ k }
        requires minima { AreMinimaIn k tree.now.below below.now }
        ensures { IfOk result (λ bound. IsMinima k tree.now bound) }
    {
        self.see(tree, below)?;
        let Scratch {
            choices,
            children,
            ..
        } = self;
        let node = choices.least(k, weight(&tree.node), children.as_slice())?;
        Ok(as_bound(node))
    }

    /// How the children of the tree's root stand in a choice for a form of the tree's minima: the second
    /// or the first. `bounds` begins with the minima of the tree's nodes.
    pub fn choose(
        &mut self,
        tree: &Tree,
        k: u32,
        bounds: &[Bound],
        second: bool,
    ) -> Result<Vec<Stand>, NoMemory>
        requires some { 1 ≤ k }
        requires bound { k ≤ 256 }
        requires limits { IsWithinLimits tree.now }
        requires minima { AreMinimaIn k (Plant tree.now.node tree.now.below Empty) bounds.now }
        ensures { IfOk result (λ list. IsChoice k (weight tree.now.node) (number_in second (first_bound bounds.now)) (weight_in second (first_bound bounds.now)) (seen (tops tree.now.below (behind_first bounds.now))) list.items) }
    {
        self.see(tree, &bounds[1..])?;
        let form = form_of(bounds[0], second);
        let mut stands = Vec::new(self.alloc);
        let Scratch {
            choices,
            children,
            ..
        } = self;
        choices.choose(
            k,
            weight(&tree.node),
            children.as_slice(),
            form.0,
            form.1,
            &mut stands,
        )?;
        Ok(stands)
    }

    // Makes the list one of the minima of the children of the tree's root.
    fn see(&mut self, tree: &Tree, below: &[Bound]) -> Result<(), NoMemory>
        requires limits { IsWithinLimits tree.now }
        requires enough { nodes tree.now.below ≤ length below.now }
        ensures { OnOk result (self.new.children.items ≡ seen (tops tree.now.below below.now)) }
    {
        self.children.clear();
        let mut next: usize = 0;
        for child in tree.children.as_slice() {
            self.children.push(as_child(below[next]))?;
            next += count(child) as usize;
        }
        Ok(())
    }
}

/// The minima of a node, as the choices at its parent see them.
pub fn as_child(bound: Bound) -> Child
    ensures { result ≡ as_child bound }
{
    Child {
        least: bound.least,
        lean: bound.lean,
        nearly: bound.nearly,
    }
}

/// What choices give, as minima.
pub fn as_bound(child: Child) -> Bound
    ensures { child ≡ as_child result }
{
    Bound {
        least: child.least,
        lean: child.lean,
        nearly: child.nearly,
    }
}

// The numbers of a form of minima.
fn form_of(bound: Bound, second: bool) -> (u32, u32)
    requires { bound.least < 4294967295 }
    ensures number { result.0 ≡ number_in second bound }
    ensures weight { result.1 ≡ weight_in second bound }
{
    if second {
        (bound.least + 1, bound.nearly)
    } else {
        (bound.least, bound.lean)
    }
}
