// The catalog of records, loaded and saved.
ghost use Rattle.std.specs.Prelude.{◌≡◌, ◌+◌, ◌≤◌, true, false, All, IfOk, IfErr, OnOk};
ghost use Rattle.nx_host.specs.Still.{IsStill};
ghost use Rattle.nx_records.specs.Words.{Held, chain_count};
ghost use Rattle.nx_records.specs.Records.{StandsFor, KeepsSaved, LeavesRecords, ComesTo, HasChanges, has_ended, catalog_length_of};
ghost use Rattle.nx_records.specs.Changes.{SetsCatalog, catalog_needs};
ghost use Rattle.nx_records.specs.Refusals.{NotRead, NotStored, RunsOn, EndNow};
ghost use Rattle.nx_matrix.specs.RuleLabels.{HasLabels};
ghost use Rattle.nx_catalog.specs.Catalog.{Contents, IsCatalog, catalog_bytes};

use crate::{Catalog, catalog_of};
use nx_host::Disk;
use nx_records::{Records, StoreError};
use std::alloc::Global;

/// The catalog of the records. It reads the catalog's chain pages.
///
/// Errors: `Damaged` with page 0, only where the pages aren't sound or the catalog's bytes are those of
/// none; `Disk`, only where `faults` rose; `Ended` exactly where the records had ended; `Memory`.
pub fn load_catalog<D: Disk>(
    alloc: Global,
    records: &mut Records,
    disk: &mut D,
) -> Result<Catalog, StoreError>
    ensures still { IsStill D.Disk disk.old disk.new }
    ensures reads { D.reads disk.new ≤ D.reads disk.old + chain_count (catalog_length_of records.old) }
    ensures ok { IfOk result (λ catalog. (has_ended records.old ≡ false) × LeavesRecords records.old records.new
        × ((saved now : Held) → StandsFor D.Disk records.old disk.old saved now → IsCatalog now.catalog.bytes catalog)) }
    ensures refused { IfErr result (λ e. NotRead D.Disk (λ now. (contents : Contents) → IsCatalog now.catalog.bytes contents → ⊥) 0 e records.old records.new disk.old disk.new) }
{
    let bytes = records.read_catalog(alloc, disk)?;
    let Ok(read) = catalog_of(alloc, bytes.as_slice()) else {
        return Err(StoreError::Memory);
    };
    let Some(catalog) = read else {
        return Err(damaged(records));
    };
    Ok(catalog)
}

// Ends the records, whose catalog is damaged.
fn damaged(records: &mut Records) -> StoreError
    ensures result { result ≡ StoreError.Damaged 0 }
    ensures ends { has_ended records.old ≡ false → EndNow records.old records.new }
{
    records.end();
    StoreError::Damaged { page: 0 }
}

impl Catalog {
    /// Makes this the catalog of the records. The old one's chain pages are given back first.
    ///
    /// Errors: `Full`, over sound pages only where fewer pages were free than the new catalog takes
    /// chain pages beyond those of the old one; `Damaged` with page 0, only where the pages aren't
    /// sound; `Disk`, only where `faults` rose; `Ended` exactly where the records had ended; `Memory`.
    /// After `Full` and `Memory` the caller calls `abandon` of the records.
    pub fn save<D: Disk>(&self, records: &mut Records, disk: &mut D) -> Result<(), StoreError>
        ensures still { IsStill D.Disk disk.old disk.new }
        ensures ok { OnOk result (ComesTo D.Disk records.old records.new disk.old disk.new (λ was now. SetsCatalog (catalog_bytes self.now) was now)) }
        ensures keeps { OnOk result (RunsOn records.old records.new × KeepsSaved D.Disk records.old records.new disk.old disk.new × HasChanges records.new) }
        ensures form { has_ended records.old ≡ false → All HasLabels self.now.rules → IsCatalog (catalog_bytes self.now) self.now }
        ensures refused { IfErr result (λ e. NotStored D.Disk (λ was. catalog_needs (catalog_bytes self.now) was) (λ was. ⊥) 0 e records.old records.new disk.old disk.new) }
    {
        if records.is_ended() {
            return Err(StoreError::Ended);
        }
        let Ok(bytes) = self.bytes() else {
            return Err(StoreError::Memory);
        };
        records.set_catalog(self.alloc, disk, bytes.as_slice())
    }
}
