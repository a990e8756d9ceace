// A document stored.
ghost use Rattle.std.specs.Prelude.{◌≡◌, IfOk, IfErr};
ghost use Rattle.nx_host.specs.Still.{IsStill};
ghost use Rattle.nx_tree.specs.Document.{IsDocument};
ghost use Rattle.nx_parts.specs.Partitioning.{IsFeasible};
ghost use Rattle.nx_records.specs.Records.{KeepsSaved, HasChanges, settings_of};
ghost use Rattle.nx_records.specs.Refusals.{NotStored, RunsOn};
ghost use Rattle.nx_hold.specs.Changes.{place_named, ComesTidy};
ghost use Rattle.nx_build.specs.Storing.{store_needs, StoresDocument};

use crate::walk::put_members;
use nx_host::Disk;
use nx_parts::{Partitioning, mark_members};
use nx_piece::Proxy;
use nx_records::{Records, StoreError};
use nx_tree::Tree;
use std::alloc::Global;
use std::slice::from_ref;

/// Stores a document: one record for each interval of the partitioning, and a byte list for each content of
/// more than 1,024 bytes. It answers the proxy of the record that has the root. The partitioning has to be
/// feasible for the K of these records. The nodes move into the records' pieces, each of which is let go
/// when its record is put, and a content that is written as a list before what stands below its node; also
/// where the call gives up the document is gone.
///
/// Errors: `Full`, over sound pages only where fewer pages were free than twice the number of nodes, and one
/// for each 8,184 bytes begun of each such content; `Damaged` with page 0, only where the pages aren't sound; `Disk`, only where `faults` rose; `Ended`
/// exactly where the records had ended; `Memory`. After `Full` and `Memory` the caller calls `abandon`.
pub fn store<D: Disk>(
    alloc: Global,
    records: &mut Records,
    disk: &mut D,
    tree: Tree,
    parts: &Partitioning,
) -> Result<Proxy, StoreError>
    requires document { IsDocument tree }
    requires feasible { IsFeasible (settings_of records.old).k tree parts.now }
    ensures still { IsStill D.Disk disk.old disk.new }
    ensures roots { IfOk result (λ proxy. proxy.roots ≡ 1) }
    ensures ok { IfOk result (λ proxy. ComesTidy D.Disk records.old records.new disk.old disk.new (λ was now. StoresDocument tree parts.now (place_named proxy) was now)) }
    ensures keeps { IfOk result (λ proxy. RunsOn records.old records.new × KeepsSaved D.Disk records.old records.new disk.old disk.new × HasChanges records.new) }
    ensures refused { IfErr result (λ e. NotStored D.Disk (λ was. store_needs tree) (λ was. ⊥) 0 e records.old records.new disk.old disk.new) }
{
    if records.is_ended() {
        return Err(StoreError::Ended);
    }
    let Ok(mark) = mark_members(alloc, parts.as_slice()) else {
        return Err(StoreError::Memory);
    };
    let mut trees = Vec::new(alloc);
    let Ok(()) = trees.push(tree) else {
        return Err(StoreError::Memory);
    };
    let mut trees = trees.into_iter();
    put_members(alloc, records, disk, &mut trees, from_ref(&mark), 0, 1)
}
