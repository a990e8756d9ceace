// Steps, which say what nodes are looked for.
ghost use Rattle.std.specs.Prelude.{◌≡◌, ◌≤◌, length};

use nx_lists::List;
use nx_tree::Bytes;
use std::marker::Model;

/// As many steps as are asked for at most.
pub const MOST_STEPS: usize = 64;

/// One step: to the children, or to all nodes below, that have a label.
#[derive(Drop)]
pub enum Step {
    /// To the children of this label.
    Child { label: Bytes },
    /// To the nodes at any depth below that have this label.
    Below { label: Bytes },
}

/// From 1 to 64 steps, in order. Contracts see the list of them.
#[derive(Drop)]
pub struct Steps {
    steps: List<Step>,
}

impl Model for Steps {
    ghost use Rattle.std.specs.Prelude.{◌≤◌, List, length};
    ghost use Rattle.nx_reach.specs.declared.step.Step.{Step};

    ghost Value = { List Step };

    ghost view = { λ a. a.steps };

    ghost invariant = { λ a. (1 ≤ length a.steps) × (length a.steps ≤ 64) };
}

impl Steps {
    // These steps, of which there are some and not too many.
    pub(crate) fn from_list(steps: List<Step>) -> Steps
        requires some { 1 ≤ length steps }
        requires few { length steps ≤ 64 }
        ensures { result ≡ steps }
    {
        Steps { steps }
    }

    /// The steps as a slice, at least one of them and 64 at most.
    pub fn as_slice(&self) -> &[Step]
        ensures steps { result.now ≡ self.now }
        ensures some { 1 ≤ length self.now }
        ensures few { length self.now ≤ 64 }
    {
        self.steps.as_slice()
    }
}
