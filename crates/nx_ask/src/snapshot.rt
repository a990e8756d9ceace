// The pages of a store at one moment.
ghost use Rattle.std.specs.Prelude.{◌≡◌, ℕ, ◌+◌, ◌-◌, ◌≤◌, [], false, Some, IfOk, IfErr};
ghost use Rattle.nx_host.specs.Disk.{Image};
ghost use Rattle.nx_host.specs.Still.{IsStill, IsSettled};
ghost use Rattle.nx_records.specs.Records.{HasHeader};
ghost use Rattle.nx_records.specs.Words.{replay};
ghost use Rattle.nx_wal.specs.Wal.{wal_ended, pending, IsInStep, IsPageCount};
ghost use Rattle.nx_ask.specs.Snapshot.{SaysPages, HasPagesOf, ReadsSnapshot, ReadsPages, NoSnapshot, NoSnapshotOf, opening_error};

use crate::AskError;
use crate::reading::{read_first, read_pages};
use nx_host::Disk;
use nx_numbers::PAGE_SIZE;
use nx_wal::{PageBytes, Wal, WalError};
use std::alloc::Global;

/// The pages of a store at one moment, one behind the other in memory. It never changes, and many threads may read it
/// at once.
#[derive(Drop)]
pub struct Snapshot {
    pub(crate) bytes: Vec<u8>,
}

impl Snapshot {
    /// The pages of a disk below the number that its header says, as its log, else its pages area, has them, however long the areas are. The log is read by its heads
    /// and page numbers, and each of these pages once. Nothing is written. All memory is taken at once, 8,192 bytes for each page below that number; where the header says more than
    /// there are, for each up to the greatest that is there.
    ///
    /// Errors: `NotAStore` exactly where page 0 is missing or doesn't begin with the eight bytes
    /// `NATIXST1`; `Disk`, only where `faults` rose; `Damaged`, only where the disk stands for no state; `Memory`.
    pub fn take<D: Disk>(alloc: Global, disk: &mut D) -> Result<Snapshot, AskError>
        ensures still { IsStill D.Disk disk.old disk.new }
        ensures pages { IfOk result (λ snapshot. (was : Image) → IsSettled D.Disk disk.old was → HasHeader was × HasPagesOf snapshot was) }
        ensures reads { (was : Image) → IsSettled D.Disk disk.old was → ReadsSnapshot was (D.reads disk.old) (D.reads disk.new) }
        ensures refused { IfErr result (λ e. NoSnapshot D.Disk e disk.old disk.new) }
    {
        match Wal::open_to_read(disk, alloc) {
            Ok(wal) => keep(alloc, wal, disk),
            Err(error) => Err(opening_error(error)),
        }
    }
}

// The pages below the header's number, as an opened log and the area have them.
fn keep<D: Disk>(alloc: Global, wal: Wal, disk: &mut D) -> Result<Snapshot, AskError>
    requires runs { wal_ended wal ≡ false }
    requires none { pending wal ≡ [] }
    ensures still { IsStill D.Disk disk.old disk.new }
    ensures pages { IfOk result (λ snapshot. (was : Image) → IsInStep D.Disk wal disk.old was → HasPagesOf snapshot was) }
    ensures reads { (was : Image) → IsInStep D.Disk wal disk.old was → ReadsPages was (D.reads disk.old) (D.reads disk.new) }
    ensures refused { IfErr result (λ e. NoSnapshotOf D.Disk e wal disk.old disk.new) }
{
    let mut wal = wal;
    let mut first = PageBytes {
        bytes: [0; PAGE_SIZE],
    };
    match read_first(&mut wal, disk, &mut first) {
        Ok(number) => keep_below(alloc, &first, wal, disk, number),
        Err(error) => Err(error),
    }
}

// The same where page 0 was read, and this is the number that it says. Where a page below the number lacks there is no state.
fn keep_below<D: Disk>(
    alloc: Global,
    first: &PageBytes,
    wal: Wal,
    disk: &mut D,
    number: u32,
) -> Result<Snapshot, AskError>
    requires runs { wal_ended wal ≡ false }
    requires none { pending wal ≡ [] }
    requires here { (was : Image) → IsInStep D.Disk wal disk.old was → replay was 0 ≡ Some first.now.bytes }
    requires said { (was : Image) → IsInStep D.Disk wal disk.old was → SaysPages number (replay was) }
    ensures still { IsStill D.Disk disk.old disk.new }
    ensures pages { IfOk result (λ snapshot. (was : Image) → IsInStep D.Disk wal disk.old was → HasPagesOf snapshot was) }
    ensures few { D.reads disk.new ≤ D.reads disk.old + (number - 1) }
    ensures reads { (was : Image) → IsInStep D.Disk wal disk.old was → (count : ℕ) → IsPageCount count (replay was) → D.reads disk.new ≤ D.reads disk.old + (count - 1) }
    ensures refused { IfErr result (λ e. NoSnapshotOf D.Disk e wal disk.old disk.new) }
{
    let mut wal = wal;
    let Ok(count) = wal.page_count(disk) else {
        return Err(AskError::Disk);
    };
    match read_pages(alloc, first, &mut wal, disk, number.min(count)) {
        Ok(bytes) => {
            if count < number {
                return Err(AskError::Damaged { page: count });
            }
            Ok(Snapshot { bytes })
        }
        Err(error) => Err(error),
    }
}

// Why no snapshot is taken of a disk whose log isn't opened.
fn opening_error(error: WalError) -> AskError
    ensures { result ≡ opening_error error }
{
    match error {
        WalError::NotAStore => AskError::NotAStore,
        WalError::Memory => AskError::Memory,
        _ => AskError::Disk,
    }
}
