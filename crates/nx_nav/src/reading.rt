// The piece of a record, which has to have as many roots as its proxy says, and whose nodes may take no more
// slots than the settings let a part weigh.
ghost use Rattle.std.specs.Prelude.{◌≡◌, ◌+◌, ◌≤◌, ℕ, false, IfOk, IfErr};
ghost use Rattle.nx_host.specs.Still.{IsStill};
ghost use Rattle.nx_records.specs.Words.{Held};
ghost use Rattle.nx_records.specs.Records.{StandsFor, has_ended, settings_of, LeavesRecords};
ghost use Rattle.nx_records.specs.Refusals.{EndNow};
ghost use Rattle.nx_piece.specs.Gapped.{gapped_width, gapped_size};
ghost use Rattle.nx_piece.specs.Valid.{IsValidPiece};
ghost use Rattle.nx_piece.specs.declared.piece.Piece.{Piece};
ghost use Rattle.nx_seek.specs.Written.{IsWrittenAs};
ghost use Rattle.nx_hold.specs.Pieces.{HoldsPiece};
ghost use Rattle.nx_hold.specs.Changes.{place_of, place_named, TakesPages};
ghost use Rattle.nx_nav.specs.Along.{ReadsPiece};
ghost use Rattle.nx_nav.specs.Refusals.{IsRefused, StopsReading, IsPassedOn};
ghost use Rattle.nx_nav.specs.Parts.{IsPieceAt, HasNoInterval};

use crate::NavError;
use nx_hold::{WrittenPiece, read_written, view_piece};
use nx_host::Disk;
use nx_piece::{PieceView, Proxy};
use nx_records::{Records, Rid, StoreError};
use nx_tree::Bytes;
use std::alloc::Global;

/// The piece of the record at a place, which has so many roots and whose nodes take no more slots than a part may
/// weigh, seen in the record's bytes, which are put into `bytes`. It reads the record's page, and the chain pages that the record names for
/// its proxies.
///
/// Errors: `Damaged` only where no interval with so many roots stands there; `Disk`, only where `faults` rose; `Ended` exactly where
/// the records had ended; `Memory`. With the first two the records end.
pub fn piece_at<'a, D: Disk>(
    alloc: Global,
    records: &mut Records,
    disk: &mut D,
    rid: Rid,
    roots: u16,
    bytes: &'a mut Bytes,
) -> Result<PieceView<'a>, NavError>
    ensures still { IsStill D.Disk disk.old disk.new }
    ensures stays { IfOk result (λ piece. (has_ended records.old ≡ false) × LeavesRecords records.old records.new) }
    ensures valid { IfOk result (λ piece. IsValidPiece piece) }
    ensures roots { IfOk result (λ piece. gapped_width piece.body.roots ≡ roots) }
    ensures light { IfOk result (λ piece. gapped_size piece.body.roots ≤ (settings_of records.old).k) }
    ensures ok { IfOk result (λ piece. IsPieceAt D.Disk records.old disk.old (place_of rid) roots piece) }
    ensures reads { ReadsPiece D.Disk records.old disk.old disk.new (place_of rid) }
    ensures refused { IfErr result (λ e. IsRefused D.Disk ⊥ ⊥ (HasNoInterval D.Disk records.old disk.old (place_of rid) roots) e records.old records.new disk.old disk.new) }
{
    let piece = match view_piece(alloc, records, disk, rid, bytes) {
        Ok(piece) => piece,
        Err(error) => return Err(passed_on(error)),
    };
    if piece.body.root_count() != roots {
        return Err(damaged(records, rid.page));
    }
    if piece.body.size() > records.settings().k {
        return Err(damaged(records, rid.page));
    }
    Ok(piece)
}

// The bytes of the piece of the record at a place.
pub fn written_at<D: Disk>(
    alloc: Global,
    records: &mut Records,
    disk: &mut D,
    rid: Rid,
) -> Result<WrittenPiece, NavError>
    ensures still { IsStill D.Disk disk.old disk.new }
    ensures stays { IfOk result (λ written. (has_ended records.old ≡ false) × LeavesRecords records.old records.new) }
    ensures ok { IfOk result (λ written. (saved now : Held) (held : Piece) → StandsFor D.Disk records.old disk.old saved now → HoldsPiece now (place_of rid) held → IsWrittenAs held written.record written.list) }
    ensures reads { (pages : ℕ) × (D.reads disk.new ≤ D.reads disk.old + pages)
        × ((saved now : Held) (held : Piece) → StandsFor D.Disk records.old disk.old saved now → HoldsPiece now (place_of rid) held → TakesPages now (place_of rid) pages) }
    ensures refused { (roots : ℕ) → IfErr result (λ e. IsRefused D.Disk ⊥ ⊥ (HasNoInterval D.Disk records.old disk.old (place_of rid) roots) e records.old records.new disk.old disk.new) }
{
    match read_written(alloc, records, disk, rid) {
        Ok(written) => Ok(written),
        Err(error) => Err(passed_on(error)),
    }
}

// Why a record or a content wasn't read, as the refusal of a call that looks at a document.
pub fn passed_on(error: StoreError) -> NavError
    requires { StopsReading error }
    ensures { IsPassedOn error result }
{
    match error {
        StoreError::Disk => NavError::Disk,
        StoreError::Damaged { page } => NavError::Damaged { page },
        StoreError::Ended => NavError::Ended,
        StoreError::Memory => NavError::Memory,
        StoreError::Exists | StoreError::NotAStore | StoreError::Full => unreachable!(),
    }
}

/// Ends the records, and answers that a page is damaged: for what walks over documents by other crates.
pub fn damaged(records: &mut Records, page: u32) -> NavError
    ensures result { result ≡ NavError.Damaged page }
    ensures ends { has_ended records.old ≡ false → EndNow records.old records.new }
{
    records.end();
    NavError::Damaged { page }
}

// The place of the record of a proxy.
pub fn rid_of(proxy: Proxy) -> Rid
    ensures { place_of result ≡ place_named proxy }
{
    Rid {
        page: proxy.page,
        slot: proxy.slot,
    }
}
