// The pages of a store, read one after the other.
ghost use Rattle.std.specs.Prelude.{◌≡◌, ◌+◌, ◌-◌, ◌≤◌, ◌++◌, false, [], length, Some, IfOk, IfErr, OnOk};
ghost use Rattle.nx_numbers.specs.Sizes.{page_size};
ghost use Rattle.nx_host.specs.Disk.{Image};
ghost use Rattle.nx_host.specs.Still.{IsStill};
ghost use Rattle.nx_replay.specs.Log.{replay};
ghost use Rattle.nx_wal.specs.Wal.{wal_ended, pending, IsInStep};
ghost use Rattle.nx_ask.specs.Reading.{AreFirstPages, AddsPage, NotCopied};
ghost use Rattle.nx_ask.specs.Snapshot.{SaysPages, NoSnapshotOf};

use crate::AskError;
use nx_holdings::read_header;
use nx_host::Disk;
use nx_numbers::PAGE_SIZE;
use nx_wal::{PageBytes, Wal};
use std::alloc::Global;

/// Reads page 0, and gives the number of pages that its header says.
pub fn read_first<D: Disk>(
    wal: &mut Wal,
    disk: &mut D,
    into: &mut PageBytes,
) -> Result<u32, AskError>
    requires runs { wal_ended wal.old ≡ false }
    requires none { pending wal.old ≡ [] }
    ensures still { IsStill D.Disk disk.old disk.new }
    ensures same { IfOk result (λ number. wal.new ≡ wal.old) }
    ensures here { IfOk result (λ number. (was : Image) → IsInStep D.Disk wal.old disk.old was → replay was 0 ≡ Some into.new.bytes) }
    ensures said { IfOk result (λ number. (was : Image) → IsInStep D.Disk wal.old disk.old was → SaysPages number (replay was)) }
    ensures reads { D.reads disk.new ≤ D.reads disk.old + 1 }
    ensures refused { IfErr result (λ e. NoSnapshotOf D.Disk e wal.old disk.old disk.new) }
{
    let Ok(found) = wal.load(disk, 0, into) else {
        return Err(AskError::Disk);
    };
    if !found {
        return Err(AskError::Damaged { page: 0 });
    }
    let Some(header) = read_header(into) else {
        return Err(AskError::Damaged { page: 0 });
    };
    Ok(header.pages)
}

/// The pages below this number, one behind the other. The first of them was read before.
pub fn read_pages<D: Disk>(
    alloc: Global,
    first: &PageBytes,
    wal: &mut Wal,
    disk: &mut D,
    count: u32,
) -> Result<Vec<u8>, AskError>
    requires runs { wal_ended wal.old ≡ false }
    requires none { pending wal.old ≡ [] }
    requires here { (was : Image) → IsInStep D.Disk wal.old disk.old was → replay was 0 ≡ Some first.now.bytes }
    ensures still { IsStill D.Disk disk.old disk.new }
    ensures ok { IfOk result (λ bytes. (was : Image) → IsInStep D.Disk wal.old disk.old was → AreFirstPages bytes.items count (replay was)) }
    ensures reads { D.reads disk.new ≤ D.reads disk.old + (count - 1) }
    ensures refused { IfErr result (λ e. NotCopied D.Disk e wal.old count disk.old disk.new) }
{
    let Ok(mut bytes) = Vec::with_capacity(alloc, count as usize * PAGE_SIZE) else {
        return Err(AskError::Memory);
    };
    if count == 0 {
        return Ok(bytes);
    }
    push_page(&mut bytes, first)?;
    for page in 1..count {
        add_page(wal, disk, page, &mut bytes)?;
    }
    Ok(bytes)
}

// Adds the bytes of a page at the end.
fn push_page(bytes: &mut Vec<u8>, page: &PageBytes) -> Result<(), AskError>
    ensures ok { OnOk result ((bytes.new.items ≡ bytes.old.items ++ page.now.bytes) × (length page.now.bytes ≡ page_size)) }
    ensures refused { IfErr result (λ e. e ≡ AskError.Memory) }
{
    let Ok(_) = bytes.extend_from_slice(&page.bytes) else {
        return Err(AskError::Memory);
    };
    Ok(())
}

// Adds a page at the end.
fn add_page<D: Disk>(
    wal: &mut Wal,
    disk: &mut D,
    page: u32,
    bytes: &mut Vec<u8>,
) -> Result<(), AskError>
    requires runs { wal_ended wal.old ≡ false }
    requires none { pending wal.old ≡ [] }
    ensures still { IsStill D.Disk disk.old disk.new }
    ensures same { OnOk result (wal.new ≡ wal.old) }
    ensures ok { OnOk result ((was : Image) → IsInStep D.Disk wal.old disk.old was → AddsPage (replay was) page bytes.old.items bytes.new.items) }
    ensures reads { D.reads disk.new ≤ D.reads disk.old + 1 }
    ensures refused { IfErr result (λ e. NotCopied D.Disk e wal.old (page + 1) disk.old disk.new) }
{
    let mut into = PageBytes {
        bytes: [0; PAGE_SIZE],
    };
    let Ok(found) = wal.load(disk, page, &mut into) else {
        return Err(AskError::Disk);
    };
    if !found {
        return Err(AskError::Damaged { page });
    }
    let Ok(_) = bytes.extend_from_slice(&into.bytes) else {
        return Err(AskError::Memory);
    };
    Ok(())
}
