// The records of pieces, and the lists that hold their proxies.
ghost use Rattle.std.specs.Prelude.{◌≡◌, ◌+◌, ◌*◌, ◌≤◌, true, false, length, Some, List as Items, ℕ, IfOk, IfErr, OnOk, MatchOption};
ghost use Rattle.nx_piece.specs.declared.piece.Body.{Body};
ghost use Rattle.nx_piece.specs.declared.piece.Stored.{Stored};
ghost use Rattle.nx_piece.specs.declared.piece.Stored.TheVariants.{Chained};
ghost use Rattle.nx_seek.specs.Written.{IsRecord, IsInline};
ghost use Rattle.nx_host.specs.Still.{IsStill};
ghost use Rattle.nx_records.specs.Words.{Held, chain_count};
ghost use Rattle.nx_records.specs.Records.{StandsFor, KeepsSaved, ComesTo, LeavesRecords, HasChanges, has_ended};
ghost use Rattle.nx_records.specs.Refusals.{NotRead, NotChanged, NotStored, RunsOn, EndNow};
ghost use Rattle.nx_piece.specs.Encoding.{proxies_bytes};
ghost use Rattle.nx_piece.specs.Viewing.{seen_stored};
ghost use Rattle.nx_piece.specs.Valid.{longest_inline, IsValid, IsValidPiece, HaveRoots, HaveNumbers, HasNumbers};
ghost use Rattle.nx_hold.specs.Pieces.{IsStored, HoldsNone};
ghost use Rattle.nx_hold.specs.Changes.{place_of, chain_pages};
ghost use Rattle.nx_piece.specs.Checked.{IsChecked};
ghost use Rattle.nx_hold.specs.Named.{NamesSo};
ghost use Rattle.nx_hold.specs.Putting.{told_at, LacksProxies, HasList, FreesChain, PutsProxies};

use nx_host::Disk;
use nx_piece::{
    Checked, Piece, Proxies, Stored, StoredView, check, decode, decode_proxies, encode_chained,
    encode_inline, encode_proxies, fits_inline, read_head, view,
};
use nx_records::{Records, Rid, StoreError};
use nx_tree::Bytes;
use std::alloc::Global;

// The record at a place, read as one of a piece.
pub(crate) fn stored_at<D: Disk>(
    alloc: Global,
    records: &mut Records,
    disk: &mut D,
    rid: Rid,
) -> Result<Stored, StoreError>
    ensures still { IsStill D.Disk disk.old disk.new }
    ensures reads { D.reads disk.new ≤ D.reads disk.old + 1 }
    ensures ok { IfOk result (λ stored. (has_ended records.old ≡ false) × LeavesRecords records.old records.new × IsValid stored × HasNumbers stored
        × ((saved now : Held) → StandsFor D.Disk records.old disk.old saved now → IsStored now (place_of rid) stored)) }
    ensures refused { IfErr result (λ e. NotRead D.Disk (λ now. HoldsNone now (place_of rid)) rid.page e records.old records.new disk.old disk.new) }
{
    let bytes = records.read(alloc, disk, rid)?;
    let Ok(read) = decode(alloc, bytes.as_slice()) else {
        return Err(StoreError::Memory);
    };
    let Some(stored) = read else {
        return Err(damaged(records, rid.page));
    };
    Ok(stored)
}

// As `stored_at`, but the nodes stay in the record's bytes.
pub(crate) fn viewed_at<'a, D: Disk>(
    alloc: Global,
    records: &mut Records,
    disk: &mut D,
    rid: Rid,
    bytes: &'a mut Bytes,
) -> Result<StoredView<'a>, StoreError>
    ensures still { IsStill D.Disk disk.old disk.new }
    ensures reads { D.reads disk.new ≤ D.reads disk.old + 1 }
    ensures ok { IfOk result (λ view. (has_ended records.old ≡ false) × LeavesRecords records.old records.new × IsValid (seen_stored view) × HasNumbers (seen_stored view)
        × ((saved now : Held) → StandsFor D.Disk records.old disk.old saved now → IsStored now (place_of rid) (seen_stored view))) }
    ensures refused { IfErr result (λ e. NotRead D.Disk (λ now. HoldsNone now (place_of rid)) rid.page e records.old records.new disk.old disk.new) }
{
    *bytes = records.read(alloc, disk, rid)?;
    let Ok(read) = view(alloc, bytes.as_slice()) else {
        return Err(StoreError::Memory);
    };
    let Some(stored) = read else {
        return Err(damaged(records, rid.page));
    };
    Ok(stored)
}

// The list that the record of a piece at a place names.
pub(crate) fn named_at<D: Disk>(
    alloc: Global,
    records: &mut Records,
    disk: &mut D,
    rid: Rid,
) -> Result<Option<NamedList>, StoreError>
    ensures still { IsStill D.Disk disk.old disk.new }
    ensures reads { D.reads disk.new ≤ D.reads disk.old + 1 }
    ensures ok { IfOk result (λ list. (stored : Stored) × (has_ended records.old ≡ false) × LeavesRecords records.old records.new × NamesSo stored list
        × ((saved now : Held) → StandsFor D.Disk records.old disk.old saved now → IsStored now (place_of rid) stored)) }
    ensures refused { IfErr result (λ e. NotRead D.Disk (λ now. HoldsNone now (place_of rid)) rid.page e records.old records.new disk.old disk.new) }
{
    let bytes = records.read(alloc, disk, rid)?;
    let Some(checked) = check(bytes.as_slice()) else {
        return Err(damaged(records, rid.page));
    };
    Ok(list_of(checked))
}

// The list that a record names of which this is told.
fn list_of(checked: Checked) -> Option<NamedList>
    ensures { (stored : Stored) → IsChecked stored checked → NamesSo stored result }
{
    match checked.chain {
        None => None,
        Some(chain) => Some(NamedList {
            count: checked.proxies,
            chain,
        }),
    }
}

// The proxies of a list that a record names.
pub(crate) fn proxies_at<D: Disk>(
    alloc: Global,
    records: &mut Records,
    disk: &mut D,
    count: u32,
    chain: u32,
    named: u32,
) -> Result<Proxies, StoreError>
    requires { has_ended records.old ≡ false }
    ensures still { IsStill D.Disk disk.old disk.new }
    ensures reads { D.reads disk.new ≤ D.reads disk.old + chain_count (8 * count) }
    ensures ok { IfOk result (λ proxies. LeavesRecords records.old records.new × (length proxies ≡ count) × HaveRoots proxies × HaveNumbers proxies
        × ((saved now : Held) (list : Items ℕ) → StandsFor D.Disk records.old disk.old saved now → now.lists chain ≡ Some list → list ≡ proxies_bytes proxies)) }
    ensures refused { IfErr result (λ e. NotRead D.Disk (λ now. LacksProxies now count chain) named e records.old records.new disk.old disk.new) }
{
    let bytes = match records.read_list(alloc, disk, chain, 8 * u64::from(count)) {
        Ok(bytes) => bytes,
        Err(error) => return Err(at_page(error, named)),
    };
    let Ok(read) = decode_proxies(alloc, bytes.as_slice(), count) else {
        return Err(StoreError::Memory);
    };
    let Some(proxies) = read else {
        return Err(damaged(records, named));
    };
    Ok(proxies)
}

// How many proxies the list has that a record of these bytes names, and its first page.
pub(crate) fn list_named(bytes: &[u8]) -> Option<(u32, u32)>
    ensures { (stored : Stored) → IsRecord bytes.now stored → MatchOption result (IsInline stored) (λ list. (body : Body) × (stored ≡ Chained body list.0 list.1)) }
{
    let Some((head, _)) = read_head(bytes) else {
        return None;
    };
    if head.form != 2 {
        return None;
    }
    Some((head.proxies, head.chain))
}

// The bytes of a list that a record names.
pub(crate) fn list_at<D: Disk>(
    alloc: Global,
    records: &mut Records,
    disk: &mut D,
    count: u32,
    chain: u32,
    named: u32,
) -> Result<Bytes, StoreError>
    requires { has_ended records.old ≡ false }
    ensures still { IsStill D.Disk disk.old disk.new }
    ensures reads { D.reads disk.new ≤ D.reads disk.old + chain_count (8 * count) }
    ensures ok { IfOk result (λ bytes. LeavesRecords records.old records.new
        × ((saved now : Held) (all : Items ℕ) → StandsFor D.Disk records.old disk.old saved now → now.lists chain ≡ Some all → bytes ≡ all)) }
    ensures refused { IfErr result (λ e. NotRead D.Disk (λ now. LacksProxies now count chain) named e records.old records.new disk.old disk.new) }
{
    match records.read_list(alloc, disk, chain, 8 * u64::from(count)) {
        Ok(bytes) => Ok(bytes),
        Err(error) => Err(at_page(error, named)),
    }
}

// The bytes of the record of a piece. Proxies that don't stand there are put into a list.
pub(crate) fn record_bytes<D: Disk>(
    alloc: Global,
    records: &mut Records,
    disk: &mut D,
    piece: &Piece,
    named: u32,
) -> Result<Bytes, StoreError>
    requires runs { has_ended records.old ≡ false }
    requires valid { IsValidPiece piece.now }
    ensures still { IsStill D.Disk disk.old disk.new }
    ensures some { IfOk result (λ bytes. 1 ≤ length bytes) }
    ensures few { IfOk result (λ bytes. length bytes ≤ longest_inline) }
    ensures ok { IfOk result (λ bytes. ComesTo D.Disk records.old records.new disk.old disk.new (λ was now. PutsProxies piece.now bytes was now)) }
    ensures keeps { IfOk result (λ bytes. RunsOn records.old records.new × KeepsSaved D.Disk records.old records.new disk.old disk.new) }
    ensures refused { IfErr result (λ e. NotStored D.Disk (λ was. chain_pages piece.now) (λ was. ⊥) named e records.old records.new disk.old disk.new) }
{
    if fits_inline(piece) {
        let Ok(bytes) = encode_inline(alloc, piece) else {
            return Err(StoreError::Memory);
        };
        return Ok(bytes);
    }
    let Ok(list) = encode_proxies(alloc, piece.proxies.as_slice()) else {
        return Err(StoreError::Memory);
    };
    let chain = match records.write_list(disk, list.as_slice()) {
        Ok(chain) => chain,
        Err(error) => return Err(at_page(error, named)),
    };
    let Ok(bytes) = encode_chained(alloc, &piece.body, piece.proxies.len() as u32, chain) else {
        return Err(StoreError::Memory);
    };
    Ok(bytes)
}

// Takes the list away that a record names.
pub(crate) fn free_proxies<D: Disk>(
    alloc: Global,
    records: &mut Records,
    disk: &mut D,
    list: Option<NamedList>,
    named: u32,
) -> Result<(), StoreError>
    requires { has_ended records.old ≡ false }
    ensures still { IsStill D.Disk disk.old disk.new }
    ensures ok { OnOk result ((stored : Stored) → NamesSo stored list → (saved now : Held) → StandsFor D.Disk records.old disk.old saved now → HasList now stored
        → (next : Held) × StandsFor D.Disk records.new disk.new saved next × FreesChain stored now next) }
    ensures keeps { OnOk result (RunsOn records.old records.new × KeepsSaved D.Disk records.old records.new disk.old disk.new × (HasChanges records.old → HasChanges records.new)) }
    ensures refused { IfErr result (λ e. (stored : Stored) → NamesSo stored list → NotChanged D.Disk (λ was. HasList was stored → ⊥) named e records.old records.new disk.old disk.new) }
{
    let Some(list) = list else {
        return Ok(());
    };
    match records.free_list(alloc, disk, list.chain, 8 * u64::from(list.count)) {
        Ok(()) => Ok(()),
        Err(error) => Err(at_page(error, named)),
    }
}

// The list that the record names which holds this.
pub(crate) fn named_in(stored: &StoredView) -> Option<NamedList>
    ensures { NamesSo (seen_stored stored.now) result }
{
    match stored {
        StoredView::Inline(_) => None,
        StoredView::Chained { count, chain, .. } => Some(NamedList {
            count: *count,
            chain: *chain,
        }),
    }
}

// The list that a record names: how many proxies it has, and its first page.
#[derive(Clone, Copy)]
pub(crate) struct NamedList {
    pub(crate) count: u32,
    pub(crate) chain: u32,
}

// A refusal, told of this page where it is told of one.
pub(crate) fn at_page(error: StoreError, page: u32) -> StoreError
    ensures { result ≡ told_at page error }
{
    match error {
        StoreError::Damaged { page: _ } => StoreError::Damaged { page },
        other => other,
    }
}

// Ends the records, and answers that a page is damaged.
fn damaged(records: &mut Records, page: u32) -> StoreError
    ensures result { result ≡ StoreError.Damaged page }
    ensures ends { has_ended records.old ≡ false → EndNow records.old records.new }
{
    records.end();
    StoreError::Damaged { page }
}
