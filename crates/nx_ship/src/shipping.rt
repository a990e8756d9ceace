// Giving the groups of a store as a stream.
ghost use Rattle.std.specs.Prelude.{IfErr};
ghost use Rattle.nx_ship.specs.Sending.{Ships};
ghost use Rattle.nx_ship.specs.Sent.{EndsSending, IsSendFault};

use crate::opening::{open_store, read_head};
use crate::sender::{send_all, send_from};
use crate::{ShipError, Start};
use nx_holdings::Header;
use nx_host::{Disk, Host};
use nx_wal::Wal;
use std::alloc::Global;

/// Gives groups of the store on the disk as a stream: with `All` one group of all pages, with the header's number; with a number the groups of
/// the log from the first one with it on, and none where it is the next one. A group is its number in eight bytes, the count of its pages in
/// four, and each page behind its number in four, the highest byte first. No input is taken, and both areas are left. Of the
/// log it reads at most eight pages at once, and of a group before the first one that is wanted the first bytes alone; it keeps less than
/// 200 KiB, however large a group is.
///
/// Errors: `NoGroup` exactly where no group of the log has the number, and it isn't the next one; nothing is given then. `NotAStore` exactly
/// where page 0 is missing or doesn't begin as that of a store; nothing is given then. `Damaged` only where page 0 begins so and is no header, or
/// with `All` a page is missing of those that it says. `Disk` and `Write` only where that count of faults rose; `Memory`. A first part of the stream
/// may have been given.
#[tactic(none)]
pub fn ship<H: Host>(alloc: Global, host: &mut H, start: Start) -> Result<(), ShipError>
    ensures { Ships ⟦<H as Disk>⟧ start result host.old host.new }
{
    let mut wal = open_store(alloc, host)?;
    let header = read_head(host, &mut wal)?;
    send(alloc, host, &mut wal, &header, start)
}

// Sends what is shipped of the store with this header.
#[tactic(none)]
fn send<H: Host>(
    alloc: Global,
    host: &mut H,
    wal: &mut Wal,
    header: &Header,
    start: Start,
) -> Result<(), ShipError>
    ensures ends { EndsSending ⟦<H as Disk>⟧ header.now start wal.old result host.old host.new }
    ensures cause { IfErr result (λ e. IsSendFault ⟦<H as Disk>⟧ e host.old host.new) }
{
    let mut block = Vec::new(alloc);
    match start {
        Start::All => send_all(host, wal, &mut block, header.number, header.pages),
        Start::Number(number) => { send_from(alloc, host, wal, &mut block, number, header.number) }
    }
}
