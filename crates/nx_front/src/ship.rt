// A run that gives groups of a store as a stream.
ghost use Rattle.std.specs.Prelude.{◌≡◌, IfOk, MatchOption, None, Some, string_bytes};
ghost use Rattle.nx_front.specs.Shipping.{ShipsGroups};
ghost use Rattle.nx_front.specs.Endings.{shipping_status, said_lacking};

use crate::Status;
use crate::init::say;
use nx_host::{Disk, Host};
use nx_ship::{ShipError, Start};
use std::alloc::{AllocError, Global};

// Gives groups of the store on the disk as a stream, or says that there is no such group. No input is taken, and nothing on the
// disk is changed.
pub fn ship<H: Host>(alloc: Global, host: &mut H, start: Start) -> Status
    ensures { ShipsGroups ⟦<H as Disk>⟧ start result host.old host.new }
{
    let ended = nx_ship::ship(alloc, host, start);
    let Some(line) = lacking_line(alloc, ended) else {
        return shipping_status(ended);
    };
    match line {
        Ok(line) => say(host, line.as_bytes(), Status::Refused),
        Err(_) => Status::NoMemory,
    }
}

// The line for a number that no group has, where that is the reason.
fn lacking_line(alloc: Global, ended: Result<(), ShipError>) -> Option<Result<String, AllocError>>
    ensures { MatchOption result (said_lacking ended ≡ None) (λ made. IfOk made (λ line. said_lacking ended ≡ Some (string_bytes line))) }
{
    match ended {
        Err(ShipError::NoGroup { from, last }) => {
            Some(format!(in alloc; "refused no-group {from} {last}\n"))
        }
        _ => None,
    }
}

// The status with which shipping ends, but for a refusal.
fn shipping_status(ended: Result<(), ShipError>) -> Status
    ensures { result ≡ shipping_status ended }
{
    match ended {
        Ok(()) => Status::Done,
        Err(ShipError::NotAStore) => Status::NotAStore,
        Err(ShipError::Damaged { page }) => Status::Damaged { page },
        Err(ShipError::Disk) => Status::DiskFault,
        Err(ShipError::Write) => Status::WriteFault,
        Err(_) => Status::NoMemory,
    }
}
