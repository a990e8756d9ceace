// The pieces that records hold: reading them, adding, replacing and taking away.
ghost use Rattle.std.specs.Prelude.{◌≡◌, ◌+◌, ◌≤◌, ℕ, true, false, length, IfOk, IfErr, OnOk};
ghost use Rattle.nx_host.specs.Still.{IsStill};
ghost use Rattle.nx_records.specs.Words.{Held};
ghost use Rattle.nx_records.specs.Records.{StandsFor, KeepsSaved, ComesTo, LeavesRecords, HasChanges, has_ended};
ghost use Rattle.nx_records.specs.Refusals.{NotRead, NotChanged, NotStored, RunsOn};
ghost use Rattle.nx_piece.specs.declared.piece.Piece.{Piece};
ghost use Rattle.nx_piece.specs.Gapped.{gapped_width};
ghost use Rattle.nx_piece.specs.Valid.{AreNear, IsValidPiece, HaveNumbers};
ghost use Rattle.nx_seek.specs.Written.{IsWrittenAs};
ghost use Rattle.nx_hold.specs.Pieces.{HoldsPiece, HoldsNone, HasNamedList, MayName};
ghost use Rattle.nx_hold.specs.Changes.{place_of, place_named, chain_pages, piece_needs, TakesPages, AddsPiece, UpdatesPiece, RemovesPiece, ComesOwn, ComesTidy, ComesTidyWhere};

use crate::lists::{
    free_proxies, list_at, list_named, named_at, proxies_at, record_bytes, stored_at, viewed_at,
};
use crate::taking::take_piece;
use crate::updating::{list_kept, update_on_list};
use nx_host::Disk;
use nx_piece::{Piece, PieceView, Proxy, Stored, StoredView};
use nx_records::{Records, Rid, StoreError};
use nx_tree::Bytes;
use std::alloc::Global;

/// The piece of the record at a place, with its proxies, whatever lists other records name. It reads
/// the record's page, and the chain pages of the proxies that don't stand in the record, also where it
/// gives up.
///
/// Errors: `Damaged` with the place's page, only where the pages aren't sound or the record at the
/// place holds no piece: there is none, its bytes are those of none, or the list that it names
/// doesn't hold its proxies, each with 1 to 256 roots; `Disk`, only where `faults` rose; `Ended`
/// exactly where the records had ended; `Memory`.
pub fn read_piece<D: Disk>(
    alloc: Global,
    records: &mut Records,
    disk: &mut D,
    rid: Rid,
) -> Result<Piece, StoreError>
    ensures still { IsStill D.Disk disk.old disk.new }
    ensures reads { (pages : ℕ) × (D.reads disk.new ≤ D.reads disk.old + pages)
        × ((saved now : Held) → StandsFor D.Disk records.old disk.old saved now → TakesPages now (place_of rid) pages) }
    ensures few { IfOk result (λ piece. D.reads disk.new ≤ D.reads disk.old + (1 + chain_pages piece)) }
    ensures valid { IfOk result (λ piece. IsValidPiece piece × HaveNumbers piece.proxies) }
    ensures ok { IfOk result (λ piece. (has_ended records.old ≡ false) × LeavesRecords records.old records.new
        × ((saved now : Held) (held : Piece) → StandsFor D.Disk records.old disk.old saved now → HoldsPiece now (place_of rid) held → piece ≡ held)) }
    ensures holds { IfOk result (λ piece. (saved now : Held) → StandsFor D.Disk records.old disk.old saved now → HasNamedList now (place_of rid) → HoldsPiece now (place_of rid) piece) }
    ensures refused { IfErr result (λ e. NotRead D.Disk (λ now. HoldsNone now (place_of rid)) rid.page e records.old records.new disk.old disk.new) }
{
    match stored_at(alloc, records, disk, rid)? {
        Stored::Inline(piece) => Ok(piece),
        Stored::Chained { body, count, chain } => {
            let proxies = proxies_at(alloc, records, disk, count, chain, rid.page)?;
            Ok(Piece { body, proxies })
        }
    }
}

/// As `read_piece`, but the nodes stay in the record's bytes, which are put into `bytes` in place of
/// what that had. Nothing is promised of `bytes` where the call gives up.
///
/// Errors: those of `read_piece`.
pub fn view_piece<'a, D: Disk>(
    alloc: Global,
    records: &mut Records,
    disk: &mut D,
    rid: Rid,
    bytes: &'a mut Bytes,
) -> Result<PieceView<'a>, StoreError>
    ensures still { IsStill D.Disk disk.old disk.new }
    ensures reads { (pages : ℕ) × (D.reads disk.new ≤ D.reads disk.old + pages)
        × ((saved now : Held) → StandsFor D.Disk records.old disk.old saved now → TakesPages now (place_of rid) pages) }
    ensures few { IfOk result (λ piece. D.reads disk.new ≤ D.reads disk.old + (1 + chain_pages piece)) }
    ensures valid { IfOk result (λ piece. IsValidPiece piece × HaveNumbers piece.proxies) }
    ensures ok { IfOk result (λ piece. (has_ended records.old ≡ false) × LeavesRecords records.old records.new
        × ((saved now : Held) (held : Piece) → StandsFor D.Disk records.old disk.old saved now → HoldsPiece now (place_of rid) held → piece ≡ held)) }
    ensures holds { IfOk result (λ piece. (saved now : Held) → StandsFor D.Disk records.old disk.old saved now → HasNamedList now (place_of rid) → HoldsPiece now (place_of rid) piece) }
    ensures refused { IfErr result (λ e. NotRead D.Disk (λ now. HoldsNone now (place_of rid)) rid.page e records.old records.new disk.old disk.new) }
{
    match viewed_at(alloc, records, disk, rid, bytes)? {
        StoredView::Inline(piece) => Ok(piece),
        StoredView::Chained { body, count, chain } => {
            let proxies = proxies_at(alloc, records, disk, count, chain, rid.page)?;
            Ok(PieceView { body, proxies })
        }
    }
}

/// The bytes of the record of a piece, and those of the list that the record names for its proxies: none where it names no list.
#[derive(Drop)]
pub struct WrittenPiece {
    pub record: Bytes,
    pub list: Bytes,
}

/// The bytes of the piece of the record at a place. They are given as they are, also where they are those of no piece. It reads the
/// record's page, and the chain pages of the list, also where it gives up.
///
/// Errors: those of `read_piece`, but that it isn't looked whether the bytes are those of a piece.
pub fn read_written<D: Disk>(
    alloc: Global,
    records: &mut Records,
    disk: &mut D,
    rid: Rid,
) -> Result<WrittenPiece, StoreError>
    ensures still { IsStill D.Disk disk.old disk.new }
    ensures reads { (pages : ℕ) × (D.reads disk.new ≤ D.reads disk.old + pages)
        × ((saved now : Held) (held : Piece) → StandsFor D.Disk records.old disk.old saved now → HoldsPiece now (place_of rid) held → TakesPages now (place_of rid) pages) }
    ensures ok { IfOk result (λ written. (has_ended records.old ≡ false) × LeavesRecords records.old records.new
        × ((saved now : Held) (held : Piece) → StandsFor D.Disk records.old disk.old saved now → HoldsPiece now (place_of rid) held → IsWrittenAs held written.record written.list)) }
    ensures refused { IfErr result (λ e. NotRead D.Disk (λ now. HoldsNone now (place_of rid)) rid.page e records.old records.new disk.old disk.new) }
{
    let record = records.read(alloc, disk, rid)?;
    match list_named(record.as_slice()) {
        None => Ok(WrittenPiece {
            record,
            list: Bytes::new(alloc),
        }),
        Some((count, chain)) => {
            let list = list_at(alloc, records, disk, count, chain, rid.page)?;
            Ok(WrittenPiece { record, list })
        }
    }
}

/// Adds a piece at a place that was free, and answers its proxy. Its proxies stand in its record
/// exactly where that then has at most 8,176 bytes, and else in a list of their own. No content that stands in it may
/// have more than 1,024 bytes. What is said of all pieces holds where each far content of this one names a list that is
/// there, as long as it, and holds no record's proxies.
///
/// Errors: `Full`, over sound pages only where fewer pages were free than one, and one for each
/// chain page of that list; `Damaged` with page 0, only where the pages aren't sound; `Disk`, only
/// where `faults` rose; `Ended` exactly where the records had ended; `Memory`. After `Full` and
/// `Memory` the caller calls `abandon`.
pub fn add_piece<D: Disk>(
    alloc: Global,
    records: &mut Records,
    disk: &mut D,
    piece: &Piece,
) -> Result<Proxy, StoreError>
    requires valid { IsValidPiece piece.now }
    requires near { AreNear piece.now.body.roots }
    ensures still { IsStill D.Disk disk.old disk.new }
    ensures roots { IfOk result (λ proxy. proxy.roots ≡ gapped_width piece.now.body.roots) }
    ensures ok { IfOk result (λ proxy. ComesTidyWhere D.Disk records.old records.new disk.old disk.new (λ was. MayName was piece.now.body.roots) (λ was now. AddsPiece (place_named proxy) piece.now was now)) }
    // Also where lists that records name are out of order.
    ensures adds { IfOk result (λ proxy. ComesTo D.Disk records.old records.new disk.old disk.new (λ was now. AddsPiece (place_named proxy) piece.now was now)) }
    ensures takes { IfOk result (λ proxy. ComesTo D.Disk records.old records.new disk.old disk.new (λ was now. was.free ≤ now.free + piece_needs piece.now)) }
    ensures keeps { IfOk result (λ proxy. RunsOn records.old records.new × KeepsSaved D.Disk records.old records.new disk.old disk.new × HasChanges records.new) }
    ensures refused { IfErr result (λ e. NotStored D.Disk (λ was. piece_needs piece.now) (λ was. ⊥) 0 e records.old records.new disk.old disk.new) }
{
    if records.is_ended() {
        return Err(StoreError::Ended);
    }
    let bytes = record_bytes(alloc, records, disk, piece, 0)?;
    let rid = records.add(disk, bytes.as_slice())?;
    Ok(proxy_of(rid, piece))
}

/// Puts a piece in the place of another, and answers its proxy, whose place is another one where the
/// record doesn't fit there: a record that is no longer than the old one keeps its place. Where both
/// pieces have a list, on as many chain pages, the list stays, and of its pages those alone wait for the
/// commit whose bytes changed; else the list of the old piece goes, and that of the new one comes. Lists of
/// contents stay. No content that stands in the new piece may have more than 1,024 bytes. What is said of all pieces
/// holds where each far content of the new one names a list that is there, as long as it, and holds no record's proxies.
///
/// Errors: `Full`, over sound pages only where fewer pages were free than one, and one for each
/// chain page of the new list; `Damaged` with the place's page, only where the pages aren't sound or
/// the record at the place holds no piece; `Disk`, only where `faults` rose; `Ended` exactly where
/// the records had ended; `Memory`. After `Full` and `Memory` the caller calls `abandon`.
pub fn update_piece<D: Disk>(
    alloc: Global,
    records: &mut Records,
    disk: &mut D,
    rid: Rid,
    piece: &Piece,
) -> Result<Proxy, StoreError>
    requires valid { IsValidPiece piece.now }
    requires near { AreNear piece.now.body.roots }
    ensures still { IsStill D.Disk disk.old disk.new }
    ensures roots { IfOk result (λ proxy. proxy.roots ≡ gapped_width piece.now.body.roots) }
    ensures ok { IfOk result (λ proxy. ComesTidyWhere D.Disk records.old records.new disk.old disk.new (λ was. MayName was piece.now.body.roots) (λ was now. UpdatesPiece (place_of rid) (place_named proxy) piece.now was now)) }
    // Also where lists that other records name are out of order.
    ensures own { IfOk result (λ proxy. ComesOwn D.Disk records.old records.new disk.old disk.new (place_of rid) (λ was now. UpdatesPiece (place_of rid) (place_named proxy) piece.now was now)) }
    ensures keeps { IfOk result (λ proxy. RunsOn records.old records.new × KeepsSaved D.Disk records.old records.new disk.old disk.new × HasChanges records.new) }
    ensures refused { IfErr result (λ e. NotStored D.Disk (λ was. piece_needs piece.now) (λ was. HoldsNone was (place_of rid)) rid.page e records.old records.new disk.old disk.new) }
{
    let old = named_at(alloc, records, disk, rid)?;
    if let Some(list) = list_kept(old, piece) {
        let kept = update_on_list(alloc, records, disk, rid, piece, list)?;
        return Ok(proxy_of(kept, piece));
    }
    let bytes = record_bytes(alloc, records, disk, piece, rid.page)?;
    let place = records.update(disk, rid, bytes.as_slice())?;
    free_proxies(alloc, records, disk, old, rid.page)?;
    Ok(proxy_of(place, piece))
}

/// Takes the piece of the record at a place away, and the list of its proxies.
///
/// Errors: `Damaged` with the place's page, only where the pages aren't sound or the record at the
/// place holds no piece; `Disk`, only where `faults` rose; `Ended` exactly where the records had
/// ended; `Memory`, after which the caller calls `abandon`.
pub fn remove_piece<D: Disk>(
    alloc: Global,
    records: &mut Records,
    disk: &mut D,
    rid: Rid,
) -> Result<(), StoreError>
    ensures still { IsStill D.Disk disk.old disk.new }
    ensures ok { OnOk result (ComesTidy D.Disk records.old records.new disk.old disk.new (λ was now. RemovesPiece (place_of rid) was now)) }
    // Also where lists that other records name are out of order.
    ensures own { OnOk result (ComesOwn D.Disk records.old records.new disk.old disk.new (place_of rid) (λ was now. RemovesPiece (place_of rid) was now)) }
    ensures keeps { OnOk result (RunsOn records.old records.new × KeepsSaved D.Disk records.old records.new disk.old disk.new × HasChanges records.new) }
    ensures refused { IfErr result (λ e. NotChanged D.Disk (λ was. HoldsNone was (place_of rid)) rid.page e records.old records.new disk.old disk.new) }
{
    take_piece(alloc, records, disk, rid)?;
    Ok(())
}

// The proxy of a piece at a place.
fn proxy_of(rid: Rid, piece: &Piece) -> Proxy
    requires { gapped_width piece.now.body.roots ≤ 256 }
    ensures place { place_named result ≡ place_of rid }
    ensures roots { result.roots ≡ gapped_width piece.now.body.roots }
{
    Proxy {
        page: rid.page,
        slot: rid.slot,
        roots: piece.body.roots.len() as u16,
    }
}
