// A run that checks a partitioning of a document.
ghost use Rattle.std.specs.Prelude.{◌≤◌, ◌<◌, ◌^◌, length, IfOk, IfErr};
ghost use Rattle.nx_host.specs.Phase.{TakesAlone};
ghost use Rattle.nx_tree.specs.Document.{IsDocument};
ghost use Rattle.nx_bounds.specs.PlanText.{ReadsAs, IsNoPlan};
ghost use Rattle.nx_filters.specs.Outcome.{ReadsTo, RunsBeside, TakesFew};
ghost use Rattle.nx_filters.specs.Verify.{JudgesText, AreFew, verify};

use crate::Status;
use crate::give::{end_after, give_count, status_of};
use crate::planned::{Planned, read_planned};
use crate::take_error::TakeError;
use nx_bounds::{BoundsError, certified, read_plan};
use nx_host::{Disk, Host};
use nx_parts::Plan;
use nx_tree::Bytes;
use std::alloc::Global;

/// Reads a document, a line of one dot and a plan, and gives one line: the plan's number of intervals, if it is
/// certified for parts of at most K slots, or else why not.
pub fn verify<H: Host>(alloc: Global, host: &mut H, k: u32) -> Status
    requires least { 1 ≤ k }
    requires most { k ≤ 256 }
    ensures { RunsBeside ⟦<H as Disk>⟧ (verify k) result host.old host.new }
{
    match read_verdict(alloc, host, k) {
        Ok(intervals) => status_of(give_count(alloc, host, intervals), Status::Done),
        Err(stop) => end_after(alloc, host, stop),
    }
}

// The number of intervals of the input's plan, if it is certified for the input's document.
fn read_verdict<H: Host>(alloc: Global, host: &mut H, k: u32) -> Result<usize, TakeError>
    requires least { 1 ≤ k }
    requires most { k ≤ 256 }
    ensures reads { ReadsTo (verify k) result (H.beside host.old) (H.beside host.new) }
    ensures bounded { TakesFew (H.beside host.old).input (H.beside host.new).input }
    ensures alone { TakesAlone ⟦<H as Disk>⟧ host.old host.new }
{
    let planned = read_planned(alloc, host)?;
    Ok(judge(alloc, planned, k)?)
}

// The number of intervals of the plan that the text is, if it is certified.
fn judge(alloc: Global, planned: Planned, k: u32) -> Result<usize, BoundsError>
    requires least { 1 ≤ k }
    requires most { k ≤ 256 }
    requires document { IsDocument planned.tree }
    requires few { length planned.plan < 2 ^ 32 }
    ensures { JudgesText k planned.tree planned.plan result }
{
    let Planned { tree, plan: text } = planned;
    let plan = plan_of(alloc, text)?;
    certified(alloc, &tree, k, &plan)?;
    Ok(plan.parts.len())
}

// The plan that the text is. The text is let go.
fn plan_of(alloc: Global, text: Bytes) -> Result<Plan, BoundsError>
    requires few { length text < 2 ^ 32 }
    ensures ok { IfOk result (λ plan. ReadsAs text plan) }
    ensures lengths { IfOk result (λ plan. AreFew plan) }
    ensures err { IfErr result (λ error. IsNoPlan text error) }
{
    read_plan(alloc, text.as_slice())
}
