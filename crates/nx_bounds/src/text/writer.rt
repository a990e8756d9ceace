// From a plan to its text, block by block.
ghost use Rattle.std.specs.Prelude.{◌≡◌, ◌<◌, ◌≤◌, ℕ, [], ◌∷◌, ◌++◌, length, take, drop, true, false, Ok, IfSome, MatchOption, OnOk, OnErr};
ghost use Rattle.std.specs.List.{zip};
ghost use Rattle.nx_bounds.specs.PlanText.{plan_text};

use super::write::{push_claim, push_part};
use nx_parts::{Bound, Interval, Plan};
use nx_tree::{Bytes, NoMemory};
use std::marker::Model;

/// Writes a plan's text, which `read_plan` reads, in blocks and without a copy of it as a whole.
/// Contracts see the bytes that are still to come.
#[derive(Drop)]
pub struct PlanWriter<'a> {
    // The intervals that are left, and the weights of their parts.
    parts: &'a [Interval],
    weights: &'a [u64],
    // The bounds of all nodes, and how many of them are written.
    bounds: &'a [Bound],
    node: usize,
}

impl<'a> Model for PlanWriter<'a> {
    ghost use Rattle.std.specs.Prelude.{ℕ, List};

    ghost Value = { List ℕ };

    ghost use Rattle.nx_bounds.specs.PlanWriter.{plan_text_left};

    ghost view = { plan_text_left };
}

impl<'a> PlanWriter<'a> {
    ghost use Rattle.nx_bounds.specs.PlanWriter.{HasMoreBytes};

    /// A writer of the whole text. It takes no memory.
    pub fn new(plan: &'a Plan) -> PlanWriter<'a>
        ensures { result ≡ plan_text plan.now }
    {
        PlanWriter {
            parts: plan.parts.as_slice(),
            weights: plan.weights.as_slice(),
            bounds: plan.bounds.as_slice(),
            node: 0,
        }
    }

    /// Adds lines to the block until it has at least `enough` bytes, and then answers `true`, or until
    /// the text has ended, and then answers `false`.
    ///
    /// Errors: `NoMemory`. What was added by then is whole lines, and a later call goes on behind them.
    pub fn fill(&mut self, block: &mut Bytes, enough: usize) -> Result<bool, NoMemory>
        ensures text { block.new ++ self.new ≡ block.old ++ self.old }
        ensures prefix { (n : ℕ) × (block.new ≡ block.old ++ take n self.old) }
        ensures more { result ≡ Ok true → enough ≤ length block.new }
        ensures end { result ≡ Ok false → self.new ≡ [] }
    {
        while block.len() < enough {
            if !self.step(block)? {
                return Ok(false);
            }
        }
        Ok(true)
    }

    // Adds the next line, if there is one. Want of memory leaves the block and the writer as they were.
    fn step(&mut self, block: &mut Bytes) -> Result<bool, NoMemory>
        ensures text { block.new ++ self.new ≡ block.old ++ self.old }
        ensures begun { HasMoreBytes block.old block.new }
        ensures more { result ≡ Ok true → length block.old < length block.new }
        ensures end { result ≡ Ok false → self.new ≡ [] }
    {
        let len = block.len();
        let wrote = self.write_line(block);
        if wrote.is_err() {
            block.truncate(len);
        }
        wrote
    }

    // Adds the next line, if there is one. Want of memory leaves the writer as it was.
    fn write_line(&mut self, block: &mut Bytes) -> Result<bool, NoMemory>
        ensures ok { OnOk result (block.new ++ self.new ≡ block.old ++ self.old) }
        ensures err { OnErr result (self.new ≡ self.old) }
        ensures begun { HasMoreBytes block.old block.new }
        ensures more { result ≡ Ok true → length block.old < length block.new }
        ensures end { result ≡ Ok false → self.new ≡ [] }
    {
        if let Some((interval, weight)) = first_part(self.parts, self.weights) {
            push_part(block, interval, weight)?;
            self.parts = &self.parts[1..];
            self.weights = &self.weights[1..];
            return Ok(true);
        }
        let Some(bound) = self.bounds.get(self.node) else {
            return Ok(false);
        };
        push_claim(block, self.node as u64, bound)?;
        self.node += 1;
        Ok(true)
    }
}

// The first interval and the weight of its part, if there are both.
fn first_part<'a>(parts: &'a [Interval], weights: &[u64]) -> Option<(&'a Interval, u64)>
    ensures first { MatchOption result (zip parts.now weights.now ≡ [])
        (λ part. zip parts.now weights.now ≡ (part.0.now, part.1) ∷ zip (drop 1 parts.now) (drop 1 weights.now)) }
    ensures inside { IfSome result (λ _. (1 ≤ length parts.now) × (1 ≤ length weights.now)) }
{
    let interval = parts.first()?;
    let weight = weights.first()?;
    Some((interval, *weight))
}
