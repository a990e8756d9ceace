// Applying a stream of groups to a store.
ghost use Rattle.std.specs.Prelude.{◌≡◌};
ghost use Rattle.nx_ship.specs.Applying.{IsApplyCause, ReceivesStream};
ghost use Rattle.nx_ship.specs.Receiving.{EndsReceiving, TakesInput};

use crate::ShipError;
use crate::receiver::Receiver;
use nx_host::{Disk, Host, Input};
use std::alloc::Global;

/// Takes a stream of groups from the input, as `ship` gives it, and applies them to the store on the disk in their order, each with one commit,
/// and then gives the line `ok NUMBER`. A group must have the number behind that of the last one, which is 0 behind 2^64 - 1; on a disk
/// without pages the first one must hold exactly the pages that its header says. Before a group a checkpoint comes where the log is longer
/// than 67,108,864 bytes. At most 4,294,967,296 bytes are taken. Of the stream it keeps the group that is under way, once.
///
/// Errors: `Stream` exactly where bytes are left at the offset and the group there isn't good: where its count of pages isn't from 1 to
/// 16,777,216, the numbers of its pages don't rise or aren't below 16,777,216, its first page isn't page 0 and a header with its number,
/// or bytes are missing. `Base` exactly where there is no page and a good first group isn't whole. `Repeat` and `Gap` exactly where a good group
/// isn't the next one, and its number is at most that of the last one, or above it. All groups before stay applied then, and their lines
/// are out. `NotAStore` exactly where the disk has pages, and page 0 is missing or doesn't begin as that of a store. `Damaged` only where it does,
/// and the pages stand for no state: with page 0, which is no header; or with the first page below the header's number that no group of the log
/// has, where the pages area has none. Nothing is taken then. `TooMuch` exactly where as many bytes were taken as may be; with it and with `Read`
/// each group that was there was applied or refused before. `Disk`, `Read` and `Write` only where that count of faults rose; `Memory`.
pub fn apply<H: Host>(alloc: Global, host: &mut H) -> Result<(), ShipError>
    ensures { ReceivesStream ⟦<H as Disk>⟧ result host.old host.new }
{
    let mut receiver = Receiver::open(alloc, host)?;
    receive(alloc, host, &mut receiver)
}

// Takes the whole input.
fn receive<H: Host>(alloc: Global, host: &mut H, receiver: &mut Receiver) -> Result<(), ShipError>
    ensures ends { EndsReceiving ⟦<H as Disk>⟧ receiver.old result host.old host.new }
    ensures takes { TakesInput ⟦<H as Disk>⟧ host.old host.new }
    ensures cause { IsApplyCause ⟦<H as Disk>⟧ result host.old host.new }
{
    let mut input = Input::new(alloc)?;
    for count in 0..u64::MAX {
        let filled = input.fill(host)?;
        if filled == 0 {
            return receiver.end();
        }
        receiver.take(host, input.block())?;
    }
    // An input has fewer blocks.
    Err(ShipError::Memory)
}
