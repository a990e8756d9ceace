// Putting a piece in the place of another, on the list that has that one's proxies.
ghost use Rattle.std.specs.Prelude.{◌≡◌, ◌*◌, length, true, false, IfSome, IfOk, IfErr};
ghost use Rattle.nx_host.specs.Still.{IsStill};
ghost use Rattle.nx_records.specs.Words.{Held, chain_count};
ghost use Rattle.nx_records.specs.Records.{StandsFor, KeepsSaved, HasChanges, has_ended};
ghost use Rattle.nx_records.specs.Refusals.{NotStored, RunsOn};
ghost use Rattle.nx_piece.specs.declared.piece.Body.{Body};
ghost use Rattle.nx_piece.specs.declared.piece.Stored.TheVariants.{Chained};
ghost use Rattle.nx_piece.specs.declared.piece.Stored.{Stored};
ghost use Rattle.nx_piece.specs.Valid.{is_inline, IsValidPiece};
ghost use Rattle.nx_hold.specs.Named.{NamesSo};
ghost use Rattle.nx_hold.specs.Pieces.{HoldsNone, NamesList, HasItsList};
ghost use Rattle.nx_hold.specs.Changes.{place_of, piece_needs, UpdatesPiece};

use crate::lists::{NamedList, at_page};
use nx_host::Disk;
use nx_piece::{Piece, encode_chained, encode_proxies, fits_inline};
use nx_records::{Records, Rid, StoreError, take_same_pages};
use std::alloc::Global;

// The list that the record of a piece names, where another piece's proxies stand in a list too, on as many pages.
pub(crate) fn list_kept(old: Option<NamedList>, piece: &Piece) -> Option<NamedList>
    requires { IsValidPiece piece.now }
    ensures names { IfSome result (λ list. (stored : Stored) → NamesSo stored old → (body : Body) × (stored ≡ Chained body list.count list.chain)) }
    ensures long { IfSome result (λ list. is_inline piece.now ≡ false) }
    ensures pages { IfSome result (λ list. chain_count (8 * length piece.now.proxies) ≡ chain_count (8 * list.count)) }
{
    let Some(list) = old else {
        return None;
    };
    let proxies = piece.proxies.len() as u64;
    if fits_inline(piece) || !take_same_pages(8 * proxies, 8 * u64::from(list.count)) {
        return None;
    }
    Some(list)
}

// Puts a piece in the place of one whose record names this list, whose pages then have the new piece's proxies.
pub(crate) fn update_on_list<D: Disk>(
    alloc: Global,
    records: &mut Records,
    disk: &mut D,
    rid: Rid,
    piece: &Piece,
    list: NamedList,
) -> Result<Rid, StoreError>
    requires runs { has_ended records.old ≡ false }
    requires valid { IsValidPiece piece.now }
    requires long { is_inline piece.now ≡ false }
    requires pages { chain_count (8 * length piece.now.proxies) ≡ chain_count (8 * list.count) }
    ensures still { IsStill D.Disk disk.old disk.new }
    ensures ok { IfOk result (λ place. (saved now : Held) → StandsFor D.Disk records.old disk.old saved now → NamesList now (place_of rid) list.count list.chain → HasItsList now (place_of rid)
        → (next : Held) × StandsFor D.Disk records.new disk.new saved next × UpdatesPiece (place_of rid) (place_of place) piece.now now next) }
    ensures keeps { IfOk result (λ place. RunsOn records.old records.new × KeepsSaved D.Disk records.old records.new disk.old disk.new × HasChanges records.new) }
    ensures refused { IfErr result (λ e. NotStored D.Disk (λ was. piece_needs piece.now) (λ was. NamesList was (place_of rid) list.count list.chain → HoldsNone was (place_of rid)) rid.page e
        records.old records.new disk.old disk.new) }
{
    let Ok(proxies) = encode_proxies(alloc, piece.proxies.as_slice()) else {
        return Err(StoreError::Memory);
    };
    let Ok(bytes) = encode_chained(alloc, &piece.body, piece.proxies.len() as u32, list.chain)
    else {
        return Err(StoreError::Memory);
    };
    let place = records.update(disk, rid, bytes.as_slice())?;
    let len = 8 * u64::from(list.count);
    match records.change_list(alloc, disk, list.chain, len, proxies.as_slice()) {
        Ok(()) => Ok(place),
        Err(error) => Err(at_page(error, rid.page)),
    }
}
