// A run that gives a document's canonical text.
ghost use Rattle.nx_filters.specs.Outcome.{RunsBeside};
ghost use Rattle.nx_filters.specs.Tidy.{tidy};

use crate::Status;
use crate::give::{end_after, give_text, status_of};
use crate::read::read;
use nx_host::{Disk, Host};
use std::alloc::Global;

/// Reads a document in PYX lines and gives its canonical text, or one line that refuses the input.
pub fn tidy<H: Host>(alloc: Global, host: &mut H) -> Status
    ensures { RunsBeside ⟦<H as Disk>⟧ tidy result host.old host.new }
{
    match read(alloc, host) {
        Ok(tree) => status_of(give_text(alloc, host, &tree), Status::Done),
        Err(stop) => end_after(alloc, host, stop),
    }
}
