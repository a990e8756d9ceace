// What a store says of its last group.
ghost use Rattle.std.specs.Prelude.{◌≡◌, [], Err, IfSome, IfOk, IfErr, OnOk};
ghost use Rattle.nx_host.specs.Disk.{Image};
ghost use Rattle.nx_host.specs.Still.{IsStill, IsSettled};
ghost use Rattle.nx_replay.specs.Log.{HasMark, replay};
ghost use Rattle.nx_wal.specs.Wal.{IsInStep, pending};
ghost use Rattle.nx_ship.specs.Applying.{IsUnapplied};
ghost use Rattle.nx_ship.specs.Lost.{LacksNone};
ghost use Rattle.nx_ship.specs.Next.{IsHeadedBy, number_following};
ghost use Rattle.nx_ship.specs.Sent.{FindsStore, IsHeadless, IsNoStoreOpened, IsBarred, IsFault};

use crate::ShipError;
use crate::error::error_of;
use nx_holdings::{Header, read_header};
use nx_host::Disk;
use nx_wal::{PageBytes, Wal, WalError};
use std::alloc::Global;

// The number of the group behind one with this number.
pub(crate) fn following(number: u64) -> u64
    ensures { result ≡ number_following number }
{
    if number == u64::MAX { 0 } else { number + 1 }
}

// The log of the store on the disk. Its last gate is renewed, also where it is read alone: a group that is given away has to stay.
//
// Errors: `NotAStore` exactly where page 0 is missing or doesn't begin as that of a store; `Disk`, only where `faults` rose; `Memory`.
pub(crate) fn open_store<D: Disk>(alloc: Global, disk: &mut D) -> Result<Wal, ShipError>
    ensures still { IsStill D.Disk disk.old disk.new }
    ensures ok { IfOk result (λ wal. (was : Image) → IsSettled D.Disk disk.old was → IsInStep D.Disk wal disk.new was × HasMark (replay was)) }
    ensures fresh { IfOk result (λ wal. pending wal ≡ []) }
    ensures err { IfErr result (λ e. (was : Image) → IsSettled D.Disk disk.old was → IsNoStoreOpened (replay was) e) }
    ensures cause { IfErr result (λ e. IsFault D.Disk e disk.old disk.new) }
{
    match Wal::open(disk, alloc) {
        Ok(wal) => Ok(wal),
        Err(WalError::NotAStore) => Err(ShipError::NotAStore),
        Err(WalError::Disk) => Err(ShipError::Disk),
        Err(_) => Err(ShipError::Memory),
    }
}

// As `open_store`, to commit to it too, and none where the disk has no store.
pub(crate) fn find_store<D: Disk>(alloc: Global, disk: &mut D) -> Result<Option<Wal>, ShipError>
    ensures still { IsStill D.Disk disk.old disk.new }
    ensures ok { IfOk result (λ found. (was : Image) → IsSettled D.Disk disk.old was → FindsStore D.Disk was found disk.new) }
    ensures fresh { IfOk result (λ found. IfSome found (λ wal. pending wal ≡ [])) }
    ensures barred { IfErr result (λ e. IsBarred e) }
    ensures cause { IfErr result (λ e. IsFault D.Disk e disk.old disk.new) }
{
    match Wal::open(disk, alloc) {
        Ok(wal) => Ok(Some(wal)),
        Err(WalError::NotAStore) => Ok(None),
        Err(WalError::Disk) => Err(ShipError::Disk),
        Err(_) => Err(ShipError::Memory),
    }
}

// The header of the store.
//
// Errors: `NotAStore`, where page 0 is missing; `Damaged`, where it is no header; `Disk`, only where `faults` rose; `Memory`, where
// the log has ended.
pub(crate) fn read_head<D: Disk>(disk: &mut D, wal: &mut Wal) -> Result<Header, ShipError>
    ensures still { IsStill D.Disk disk.old disk.new }
    ensures stays { OnOk result (wal.new ≡ wal.old) }
    ensures ok { IfOk result (λ header. (was : Image) → IsInStep D.Disk wal.old disk.old was → pending wal.old ≡ [] → IsHeadedBy (replay was) header) }
    ensures err { IfErr result (λ e. (was : Image) → IsInStep D.Disk wal.old disk.old was → pending wal.old ≡ [] → IsHeadless (replay was) e) }
    ensures cause { IfErr result (λ e. IsFault D.Disk e disk.old disk.new) }
{
    let mut bytes = PageBytes { bytes: [0; 8192] };
    match wal.load(disk, 0, &mut bytes) {
        Ok(true) => {}
        Ok(false) => return Err(ShipError::NotAStore),
        Err(error) => return Err(error_of(error)),
    }
    match read_header(&bytes) {
        Some(header) => Ok(header),
        None => Err(ShipError::Damaged { page: 0 }),
    }
}

// The header of the store, to commit to it too. Where the pages area has no page, a group of the log has to have each page below the
// header's number: a pages area that went isn't taken for one that was never written.
//
// Errors: as `read_head`; `Damaged` also with the first page below the header's number that no group of the log has, where the pages
// area has none.
pub(crate) fn read_whole_head<D: Disk>(disk: &mut D, wal: &mut Wal) -> Result<Header, ShipError>
    ensures still { IsStill D.Disk disk.old disk.new }
    ensures stays { OnOk result (wal.new ≡ wal.old) }
    ensures ok { IfOk result (λ header. (was : Image) → IsInStep D.Disk wal.old disk.old was → pending wal.old ≡ [] → IsHeadedBy (replay was) header) }
    ensures whole { OnOk result ((was : Image) → IsInStep D.Disk wal.old disk.old was → pending wal.old ≡ [] → LacksNone was) }
    ensures err { IfErr result (λ e. (was : Image) → IsInStep D.Disk wal.old disk.old was → pending wal.old ≡ [] → HasMark (replay was) → IsUnapplied was (Err e)) }
    ensures cause { IfErr result (λ e. IsFault D.Disk e disk.old disk.new) }
{
    let header = read_head(disk, wal)?;
    match wal.first_lost(disk, header.pages) {
        Ok(None) => Ok(header),
        Ok(Some(page)) => Err(ShipError::Damaged { page }),
        Err(error) => Err(error_of(error)),
    }
}
