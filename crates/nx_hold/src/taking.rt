// Taking a piece away, and telling what it was.
ghost use Rattle.std.specs.Prelude.{◌≡◌, ◌≤◌, ◌++◌, false, length, IfOk, IfErr, OnOk};
ghost use Rattle.nx_host.specs.Still.{IsStill};
ghost use Rattle.nx_records.specs.Words.{Held};
ghost use Rattle.nx_records.specs.Records.{StandsFor, KeepsSaved, LeavesRecords, HasChanges, has_ended};
ghost use Rattle.nx_records.specs.Refusals.{NotRead, NotChanged, RunsOn};
ghost use Rattle.nx_piece.specs.declared.piece.Piece.{Piece};
ghost use Rattle.nx_piece.specs.Contents.{fars_in};
ghost use Rattle.nx_piece.specs.Valid.{IsValid};
ghost use Rattle.nx_piece.specs.Viewing.{seen_items, seen_stored};
ghost use Rattle.nx_layouts.specs.Layout.{RecordPlace};
ghost use Rattle.nx_hold.specs.Pieces.{IsStored, HoldsPiece, HoldsNone, roots_stored};
ghost use Rattle.nx_hold.specs.Changes.{place_of, IsTakenOf, RemovesPiece, ComesOwn, ComesTidy};
ghost use Rattle.nx_hold.specs.Putting.{piece_with};

use crate::lists::{free_proxies, named_in, proxies_at, viewed_at};
use nx_host::Disk;
use nx_piece::{Far, ItemView, ItemsView, PieceView, Proxies, StoredView};
use nx_records::{Records, Rid, StoreError};
use nx_tree::{Bytes, NoMemory};
use std::alloc::Global;

/// What a piece was that was taken away.
#[derive(Drop)]
pub struct TakenPiece {
    /// Its proxies, in document order.
    pub proxies: Proxies,
    /// Where its far contents stand, in document order.
    pub fars: Vec<Far>,
    /// How many nodes it had.
    pub nodes: u32,
}

/// Takes the piece of the record at a place away, and the list of its proxies, and tells what it was. The record is read
/// once, and its nodes stay in its bytes. The lists of its contents stay.
///
/// Errors: `Damaged` with the place's page, only where the pages aren't sound or the record at the
/// place holds no piece; `Disk`, only where `faults` rose; `Ended` exactly where the records had
/// ended; `Memory`, after which the caller calls `abandon`.
pub fn take_piece<D: Disk>(
    alloc: Global,
    records: &mut Records,
    disk: &mut D,
    rid: Rid,
) -> Result<TakenPiece, StoreError>
    ensures still { IsStill D.Disk disk.old disk.new }
    ensures some { IfOk result (λ taken. 1 ≤ taken.nodes) }
    ensures taken { IfOk result (λ taken. (saved now : Held) (held : Piece) → StandsFor D.Disk records.old disk.old saved now → HoldsPiece now (place_of rid) held → IsTakenOf held taken) }
    ensures ok { OnOk result (ComesTidy D.Disk records.old records.new disk.old disk.new (λ was now. RemovesPiece (place_of rid) was now)) }
    // Also where lists that other records name are out of order.
    ensures own { OnOk result (ComesOwn D.Disk records.old records.new disk.old disk.new (place_of rid) (λ was now. RemovesPiece (place_of rid) was now)) }
    ensures keeps { OnOk result (RunsOn records.old records.new × KeepsSaved D.Disk records.old records.new disk.old disk.new × HasChanges records.new) }
    ensures refused { IfErr result (λ e. NotChanged D.Disk (λ was. HoldsNone was (place_of rid)) rid.page e records.old records.new disk.old disk.new) }
{
    let mut bytes = Bytes::new(alloc);
    let stored = viewed_at(alloc, records, disk, rid, &mut bytes)?;
    let listed = listed_proxies(alloc, records, disk, &stored, rid.page)?;
    let Ok(fars) = fars_of(alloc, &stored) else {
        return Err(StoreError::Memory);
    };
    records.remove(disk, rid)?;
    free_proxies(alloc, records, disk, named_in(&stored), rid.page)?;
    Ok(taken_of(stored, listed, fars))
}

// The proxies of the list that a record names, none where it names no list.
fn listed_proxies<D: Disk>(
    alloc: Global,
    records: &mut Records,
    disk: &mut D,
    stored: &StoredView,
    named: u32,
) -> Result<Proxies, StoreError>
    requires { has_ended records.old ≡ false }
    ensures still { IsStill D.Disk disk.old disk.new }
    ensures ok { IfOk result (λ listed. LeavesRecords records.old records.new
        × ((saved now : Held) (place : RecordPlace) (held : Piece) → StandsFor D.Disk records.old disk.old saved now → IsStored now place (seen_stored stored.now) → HoldsPiece now place held
        → piece_with (seen_stored stored.now) listed ≡ held)) }
    ensures refused { IfErr result (λ e. NotRead D.Disk (λ now. (place : RecordPlace) → IsStored now place (seen_stored stored.now) → HoldsNone now place) named e records.old records.new disk.old disk.new) }
{
    match stored {
        StoredView::Inline(_) => Ok(Proxies::new(alloc)),
        StoredView::Chained { count, chain, .. } => {
            proxies_at(alloc, records, disk, *count, *chain, named)
        }
    }
}

// Where the far contents of what a record holds stand, in document order.
fn fars_of(alloc: Global, stored: &StoredView) -> Result<Vec<Far>, NoMemory>
    ensures { IfOk result (λ fars. fars.items ≡ fars_in (roots_stored (seen_stored stored.now))) }
{
    let mut fars = Vec::new(alloc);
    let roots = match stored {
        StoredView::Inline(piece) => piece.body.roots(),
        StoredView::Chained { body, .. } => body.roots(),
    };
    gather_fars(roots, &mut fars)?;
    Ok(fars)
}

// Adds where the far contents of these items stand, in document order.
fn gather_fars(items: ItemsView<'_>, fars: &mut Vec<Far>) -> Result<(), NoMemory>
    ensures { OnOk result (fars.new.items ≡ fars.old.items ++ fars_in (seen_items items.entry)) }
{
    let mut rest = items;
    while let Some((item, behind)) = rest.split_first() {
        if let ItemView::Tree(tree) = item {
            if let Some(far) = tree.node.far {
                fars.push(far)?;
            }
            gather_fars(tree.children, fars)?;
        }
        rest = behind;
    }
    Ok(())
}

// What a record held whose list had these proxies, and whose far contents stand there.
fn taken_of(stored: StoredView, listed: Proxies, fars: Vec<Far>) -> TakenPiece
    requires valid { IsValid (seen_stored stored) }
    requires fars { fars.items ≡ fars_in (roots_stored (seen_stored stored)) }
    ensures some { 1 ≤ result.nodes }
    ensures taken { IsTakenOf (piece_with (seen_stored stored.entry) listed) result }
{
    match stored {
        StoredView::Inline(PieceView { body, proxies }) => TakenPiece {
            proxies,
            fars,
            nodes: body.nodes(),
        },
        StoredView::Chained { body, .. } => TakenPiece {
            proxies: listed,
            fars,
            nodes: body.nodes(),
        },
    }
}
