// Records that are taken away: those of a row of intervals, and a document's.
ghost use Rattle.std.specs.Prelude.{◌≡◌, ◌≢◌, ◌++◌, ◌≤◌, List as Elements, false, length, IfOk, IfErr, OnOk};
ghost use Rattle.nx_host.specs.Still.{IsStill};
ghost use Rattle.nx_records.specs.Records.{KeepsSaved, HasChanges, has_ended};
ghost use Rattle.nx_records.specs.Refusals.{RunsOn, EndNow, NotChanged};
ghost use Rattle.nx_piece.specs.declared.piece.Far.{Far};
ghost use Rattle.nx_piece.specs.Contents.{fars_in};
ghost use Rattle.nx_piece.specs.Gapped.{gapped_nodes};
ghost use Rattle.nx_layouts.specs.Layout.{Layout, piece_body, piece_of, proxies_of};
ghost use Rattle.nx_hold.specs.Pieces.{HoldsPiece, HoldsNone};
ghost use Rattle.nx_hold.specs.Changes.{ComesTidy, RemovesPiece, place_named};
ghost use Rattle.nx_edit.specs.Removing.{OwnComes, RemovesRow, NotRemovedRow, RemovesDocument, NotRemoved};

use crate::EditError;
use crate::error::edit_error;
use crate::freeing::free_all;
use nx_hold::{DocEntry, take_piece};
use nx_host::Disk;
use nx_piece::{Far, Proxy};
use nx_records::{Records, Rid, StoreError};
use std::alloc::Global;

/// Takes each record of a document away, with the lists of its proxies and of its contents. It speaks of documents whose
/// contents no other record names, each once. It needs no page, and has at most as many turns as the entry counts nodes.
///
/// Errors: `Damaged`, only where the records hold no such document of the entry, or lists that records name are missing,
/// or named twice for proxies; `Disk`, only where `faults` rose; `Ended` exactly where the records had ended; `Memory`.
/// After each the caller calls `abandon`.
pub fn remove_document<D: Disk>(
    alloc: Global,
    records: &mut Records,
    disk: &mut D,
    entry: DocEntry,
) -> Result<(), EditError>
    ensures still { IsStill D.Disk disk.old disk.new }
    ensures ok { OnOk result (OwnComes D.Disk records.old records.new disk.old disk.new entry (RemovesDocument entry)) }
    ensures keeps { OnOk result (RunsOn records.old records.new × KeepsSaved D.Disk records.old records.new disk.old disk.new × HasChanges records.new) }
    ensures refused { IfErr result (λ e. NotRemoved D.Disk entry e records.old records.new disk.old disk.new) }
{
    if records.is_ended() {
        return Err(EditError::Ended);
    }
    let root = Proxy {
        page: entry.root.page,
        slot: entry.root.slot,
        roots: 1,
    };
    let mut gone = Vec::new(alloc);
    if let Err(error) = remove_rows(alloc, records, disk, &[root], entry.nodes, &mut gone) {
        return Err(edit_error(error));
    }
    match free_all(alloc, records, disk, gone.as_slice()) {
        Ok(()) => Ok(()),
        Err(error) => Err(edit_error(error)),
    }
}

// Takes the records that the proxies name away, and all below them, and answers how many nodes they had. It adds the far
// contents of these, whose lists stay. It speaks of rows of at most so many nodes.
pub(crate) fn remove_rows<D: Disk>(
    alloc: Global,
    records: &mut Records,
    disk: &mut D,
    proxies: &[Proxy],
    limit: u32,
    gone: &mut Vec<Far>,
) -> Result<u32, StoreError>
    requires { has_ended records.old ≡ false }
    ensures still { IsStill D.Disk disk.old disk.new }
    ensures few { IfOk result (λ went. went ≤ limit) }
    ensures ok { IfOk result (λ went. (fars : Elements Far) × (gone.new.items ≡ gone.old.items ++ fars) × ComesTidy D.Disk records.old records.new disk.old disk.new (RemovesRow proxies.now limit went fars)) }
    ensures keeps { OnOk result (RunsOn records.old records.new × KeepsSaved D.Disk records.old records.new disk.old disk.new × (length proxies.now ≢ 0 → HasChanges records.new)) }
    ensures refused { IfErr result (λ e. NotRemovedRow D.Disk proxies.now limit e records.old records.new disk.old disk.new) }
{
    let mut stack = Vec::new(alloc);
    let Ok(()) = stack.extend_from_slice(proxies) else {
        return Err(StoreError::Memory);
    };
    let mut went = 0;
    while let Some(proxy) = stack.pop() {
        let own = remove_record(alloc, records, disk, proxy, &mut stack, gone)?;
        let room = limit - went;
        if room < own {
            return Err(damaged(records, proxy.page));
        }
        went += own;
    }
    Ok(went)
}

// Takes the record of a proxy away, adds the proxies of its piece and the far contents of its nodes, and answers how many
// nodes it had.
fn remove_record<D: Disk>(
    alloc: Global,
    records: &mut Records,
    disk: &mut D,
    proxy: Proxy,
    stack: &mut Vec<Proxy>,
    gone: &mut Vec<Far>,
) -> Result<u32, StoreError>
    ensures still { IsStill D.Disk disk.old disk.new }
    ensures some { IfOk result (λ own. 1 ≤ own) }
    ensures ok { IfOk result (λ own. (fars : Elements Far) × (gone.new.items ≡ gone.old.items ++ fars) × ComesTidy D.Disk records.old records.new disk.old disk.new (λ was now. RemovesPiece (place_named proxy) was now
        × ((members : Layout) → HoldsPiece was (place_named proxy) (piece_of members) → (stack.new.items ≡ stack.old.items ++ proxies_of members) × (own ≡ gapped_nodes (piece_body members)) × (fars ≡ fars_in (piece_body members))))) }
    ensures keeps { OnOk result (RunsOn records.old records.new × KeepsSaved D.Disk records.old records.new disk.old disk.new × HasChanges records.new) }
    ensures refused { IfErr result (λ e. NotChanged D.Disk (λ was. HoldsNone was (place_named proxy)) proxy.page e records.old records.new disk.old disk.new) }
{
    let rid = Rid {
        page: proxy.page,
        slot: proxy.slot,
    };
    let taken = take_piece(alloc, records, disk, rid)?;
    let Ok(()) = stack.extend_from_slice(taken.proxies.as_slice()) else {
        return Err(StoreError::Memory);
    };
    let Ok(()) = gone.extend_from_slice(taken.fars.as_slice()) else {
        return Err(StoreError::Memory);
    };
    Ok(taken.nodes)
}

// Ends the records, and answers that a page is damaged.
pub(crate) fn damaged(records: &mut Records, page: u32) -> StoreError
    ensures result { result ≡ StoreError.Damaged page }
    ensures ends { has_ended records.old ≡ false → EndNow records.old records.new }
{
    records.end();
    StoreError::Damaged { page }
}
