// A run that partitions a document.
ghost use Rattle.std.specs.Prelude.{◌≤◌};
ghost use Rattle.nx_host.specs.Phase.{TakesAlone};
ghost use Rattle.nx_filters.specs.Outcome.{ReadsTo, RunsBeside, TakesFew};
ghost use Rattle.nx_filters.specs.Plan.{plan};

use crate::Status;
use crate::give::{end_after, give_plan, status_of};
use crate::read::read;
use crate::take_error::TakeError;
use nx_host::{Disk, Host};
use nx_parts::Plan;
use std::alloc::Global;

/// Reads a document in PYX lines and gives the text of a plan of it with parts of at most K slots, or one line that
/// refuses the input.
pub fn plan<H: Host>(alloc: Global, host: &mut H, k: u32) -> Status
    requires least { 1 ≤ k }
    requires most { k ≤ 256 }
    ensures { RunsBeside ⟦<H as Disk>⟧ (plan k) result host.old host.new }
{
    match read_and_plan(alloc, host, k) {
        Ok(plan) => status_of(give_plan(alloc, host, &plan), Status::Done),
        Err(stop) => end_after(alloc, host, stop),
    }
}

// A plan of the input's document, which is let go.
fn read_and_plan<H: Host>(alloc: Global, host: &mut H, k: u32) -> Result<Plan, TakeError>
    requires least { 1 ≤ k }
    requires most { k ≤ 256 }
    ensures reads { ReadsTo (plan k) result (H.beside host.old) (H.beside host.new) }
    ensures bounded { TakesFew (H.beside host.old).input (H.beside host.new).input }
    ensures alone { TakesAlone ⟦<H as Disk>⟧ host.old host.new }
{
    let tree = read(alloc, host)?;
    Ok(nx_partition::plan(alloc, &tree, k)?)
}
