// The steps that are open at a place of a walk.
ghost use Rattle.std.specs.Prelude.{◌≡◌, ◌≤◌, ◌<◌, ◌^◌, ◌++◌, [], ◌∷◌, false, length, IfOk, OnErr, OnOk};
ghost use Rattle.nx_matrix.specs.Label.{label_by};
ghost use Rattle.nx_reach.specs.Fit.{Goes, stays};
ghost use Rattle.nx_reach.specs.Stand.{IsStateAt, OpensTo, ClosesTo};

use crate::label::asks;
use crate::{Step, Steps};
use nx_lists::{List, NoMemory};
use nx_tree::Kind;
use std::alloc::Global;

/// What a walk that looks for steps knows where it is: which steps are open below the node that it
/// is in, and which were below each node around it.
#[derive(Drop)]
pub struct State<'a> {
    steps: &'a Steps,
    // A bit for each step, the first one's least.
    bits: u64,
    above: List<u64>,
}

impl<'a> State<'a> {
    /// At the root, below which the first step is open. It takes no memory.
    pub fn new(alloc: Global, steps: &'a Steps) -> State<'a>
        ensures steps { result.steps.now ≡ steps.now }
        ensures some { 1 ≤ length steps.now }
        ensures stands { IsStateAt result [] }
    {
        // The first step exists.
        let _all = steps.as_slice();
        State {
            steps,
            bits: 1,
            above: List::new(alloc),
        }
    }

    /// A child of the node begins, of this kind and name: whether the steps match it.
    ///
    /// Errors: `NoMemory`. The state is as it was then.
    pub fn open(&mut self, kind: Kind, name: &[u8]) -> Result<bool, NoMemory>
        ensures ok { IfOk result (λ matches. OpensTo self.old (label_by kind name.now) self.new matches) }
        ensures err { OnErr result (self.new ≡ self.old) }
    {
        let (below, matches) = advance(self.steps.as_slice(), self.bits, false, kind, name);
        self.above.push(self.bits)?;
        self.bits = below;
        Ok(matches)
    }

    /// The node ends that began last. Nothing is done where none is open.
    pub fn close(&mut self)
        ensures closes { 1 ≤ length self.old.above → ClosesTo self.old self.new }
        ensures none { length self.old.above ≡ 0 → self.new ≡ self.old }
    {
        if self.above.is_empty() {
            return;
        }
        let last = self.above.len() - 1;
        self.bits = self.above.as_slice()[last];
        self.above.truncate(last);
    }
}

// The steps that are open below a node of this label, and whether all of them match it.
fn advance(steps: &[Step], bits: u64, fit: bool, kind: Kind, name: &[u8]) -> (u64, bool)
    requires few { length steps.now ≤ 64 }
    ensures small { result.0 < 2 ^ length steps.now }
    ensures goes { Goes steps.now bits fit (label_by kind name.now) result.0 result.1 }
{
    let Some((step, rest)) = steps.split_first() else {
        return (0, fit);
    };
    let is_open = bits % 2 == 1;
    let is_next = is_open && asks(step, kind, name);
    let (more, all) = advance(rest, bits / 2, is_next, kind, name);
    if stays_open(step, is_open, fit) {
        (1 + 2 * more, all)
    } else {
        (2 * more, all)
    }
}

// Whether the step is open below a node, where it was above, or those before it match the node.
fn stays_open(step: &Step, is_open: bool, fit: bool) -> bool
    ensures { result ≡ stays step.now is_open fit }
{
    match step {
        Step::Child { .. } => fit,
        Step::Below { .. } => fit || is_open,
    }
}
