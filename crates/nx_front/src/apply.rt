// A run that applies a stream of groups to a store.
ghost use Rattle.std.specs.Prelude.{◌≡◌, IfOk, MatchOption, None, Some, string_bytes};
ghost use Rattle.nx_front.specs.Applied.{ReceivesGroups};
ghost use Rattle.nx_front.specs.Endings.{applying_status, turned_away_line};

use crate::Status;
use crate::init::say;
use nx_host::{Disk, Host};
use nx_ship::ShipError;
use std::alloc::{AllocError, Global};

// Applies the groups of the input to the store on the disk, in their order, and says so of each; or says why one isn't applied.
pub fn apply<H: Host>(alloc: Global, host: &mut H) -> Status
    ensures { ReceivesGroups ⟦<H as Disk>⟧ result host.old host.new }
{
    let ended = nx_ship::apply(alloc, host);
    let Some(line) = turned_away_line(alloc, ended) else {
        return applying_status(ended);
    };
    match line {
        Ok(line) => say(host, line.as_bytes(), Status::Refused),
        Err(_) => Status::NoMemory,
    }
}

// The line for a group that isn't applied, where that is the reason.
fn turned_away_line(
    alloc: Global,
    ended: Result<(), ShipError>,
) -> Option<Result<String, AllocError>>
    ensures { MatchOption result (turned_away_line ended ≡ None) (λ made. IfOk made (λ line. turned_away_line ended ≡ Some (string_bytes line))) }
{
    match ended {
        Err(ShipError::Repeat { number, last }) => {
            Some(format!(in alloc; "refused repeat {number} {last}\n"))
        }
        Err(ShipError::Gap { number, last }) => {
            Some(format!(in alloc; "refused gap {number} {last}\n"))
        }
        Err(ShipError::Base { number }) => Some(format!(in alloc; "refused base {number}\n")),
        Err(ShipError::Stream { offset }) => Some(format!(in alloc; "refused stream {offset}\n")),
        _ => None,
    }
}

// The status with which applying ends, but for a refusal.
fn applying_status(ended: Result<(), ShipError>) -> Status
    ensures { result ≡ applying_status ended }
{
    match ended {
        Ok(()) => Status::Done,
        Err(ShipError::NotAStore) => Status::NotAStore,
        Err(ShipError::Damaged { page }) => Status::Damaged { page },
        Err(ShipError::Disk) => Status::DiskFault,
        Err(ShipError::Read) => Status::ReadFault,
        Err(ShipError::Write) => Status::WriteFault,
        Err(ShipError::TooMuch) => Status::TooMuch,
        Err(_) => Status::NoMemory,
    }
}
