// A run that makes a store.
ghost use Rattle.std.specs.Prelude.{◌≤◌, length};
ghost use Rattle.nx_records.specs.Words.{AreSettings};
ghost use Rattle.nx_host.specs.Phase.{GivesAlone};
ghost use Rattle.nx_front.specs.Init.{SaysLine, Initializes};

use crate::Status;
use nx_host::{Disk, Host};
use nx_records::Settings;
use nx_store::{EngineError, Store};
use std::alloc::Global;

// Makes a store with these settings, and says so once it is there, or that the disk has pages. No input
// is taken.
pub fn init<H: Host>(alloc: Global, host: &mut H, settings: Settings) -> Status
    requires { AreSettings settings }
    ensures { Initializes ⟦<H as Disk>⟧ settings result host.old host.new }
{
    let error = match Store::create(alloc, host, settings) {
        Ok(_) => return say(host, b"ok\n", Status::Done),
        Err(error) => error,
    };
    match error {
        EngineError::Exists => say(host, b"refused exists\n", Status::Refused),
        EngineError::Disk => Status::DiskFault,
        _ => Status::NoMemory,
    }
}

// Gives a line or several, with which the run ends.
pub fn say<H: Host>(host: &mut H, line: &[u8], whole: Status) -> Status
    requires { 1 ≤ length line.now }
    ensures says { SaysLine line.now whole result (H.beside host.old) (H.beside host.new) }
    ensures alone { GivesAlone ⟦<H as Disk>⟧ line.now host.old host.new }
{
    match host.emit(line) {
        Ok(()) => whole,
        Err(_) => Status::WriteFault,
    }
}
