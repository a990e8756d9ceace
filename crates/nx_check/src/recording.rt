// One record: its bytes, and the lists that it names.
ghost use Rattle.std.specs.Prelude.{◌≡◌, ◌*◌, ◌≤◌, ◌++◌, ◌∷◌, ℕ, List, [], false, length, IfOk, IfErr, OnOk, Contains};
ghost use Rattle.nx_host.specs.Disk.{Image};
ghost use Rattle.nx_host.specs.Still.{IsStill};
ghost use Rattle.nx_replay.specs.Log.{replay};
ghost use Rattle.nx_wal.specs.Wal.{wal_ended};
ghost use Rattle.nx_holdings.specs.Holdings.{Link, content_of, pages_of_links};
ghost use Rattle.nx_piece.specs.Encoding.{proxies_bytes};
ghost use Rattle.nx_piece.specs.Valid.{IsValidBody, HaveNumbers};
ghost use Rattle.nx_layouts.specs.Layout.{RecordPlace};
ghost use Rattle.nx_rules.specs.declared.verdict.PageRule.TheVariants as rule;
ghost use Rattle.nx_rules.specs.Listed.{IsListOf};
ghost use Rattle.nx_rules.specs.Walked.{Walked, walked_body, walked_proxies, links_behind, HaveRootNumbers, IsRecordAt, Named, named_place, naming_page};
ghost use Rattle.nx_rules.specs.Tour.{Visit, Tour, all_reached, used_in};
ghost use Rattle.nx_rules.specs.Broken.{BreaksList, IsReadFirst};
ghost use Rattle.nx_check.specs.Come.{HasCome, StopsSo};
ghost use Rattle.nx_check.specs.AtRecord.{BreaksAt};

use crate::chains::{proxies_of, walk_contents, walk_list};
use crate::error::{Stop, broken};
use crate::marks::reach;
use crate::reading::{Walk, is_slotted, load};
use nx_host::Disk;
use nx_piece::{PieceView, Proxies, StoredView, view};
use nx_rules::PageRule;
use nx_slots::read_in;
use nx_tree::Bytes;

// The bytes of the record that a proxy names, which stands in a record of the page `by`, or in the catalog where that is 0.
// It wasn't reached before, and is marked.
pub fn read_record<D: Disk>(
    walk: &mut Walk,
    disk: &mut D,
    by: u32,
    page: u32,
    slot: u16,
) -> Result<Bytes, Stop>
    requires runs { wal_ended walk.old.wal ≡ false }
    ensures still { IsStill D.Disk disk.old disk.new }
    ensures same { OnOk result (walk.new ≡ record walk.old { uses = walk.new.uses; left = walk.new.left; page = walk.new.page; at = walk.new.at }) }
    ensures ok { IfOk result (λ bytes. (was : Image) (base : ℕ) (free used : List ℕ) (reached : List RecordPlace) → HasCome D.Disk walk.old disk.old was base free used reached
        → IsRecordAt (replay was) (record { page = page; slot = slot }) bytes × (Contains reached (record { page = page; slot = slot }) → ⊥)
        × HasCome D.Disk walk.new disk.new was base free used (reached ++ record { page = page; slot = slot } ∷ [])) }
    ensures refused { IfErr result (λ e. StopsSo D.Disk disk.old disk.new (λ broken blamed. (was : Image) (base : ℕ) (free used : List ℕ) (tour : Tour) (visit : Visit) (named : Named)
        → HasCome D.Disk walk.old disk.old was base free used (all_reached tour.visits) → naming_page named.by ≡ by → named_place named ≡ record { page = page; slot = slot }
        → BreaksAt (replay was) tour visit named broken blamed) e) }
{
    if !load(walk, disk, page)? {
        return Err(broken(by, PageRule::Missing));
    }
    if !is_slotted(walk) {
        return Err(broken(page, PageRule::Slotted));
    }
    let found = match read_in(&walk.page, slot) {
        Some(found) => found,
        None => return Err(broken(by, PageRule::Missing)),
    };
    if !reach(&mut walk.uses, &mut walk.left, page, slot, &walk.page)? {
        return Err(broken(page, PageRule::Twice));
    }
    Ok(Bytes::from_slice(walk.alloc, found)?)
}

// What stands in the record of these bytes, whose lists no other record has. They are marked.
pub fn read_piece<'a, D: Disk>(
    walk: &mut Walk,
    disk: &mut D,
    page: u32,
    slot: u16,
    bytes: &'a [u8],
) -> Result<PieceView<'a>, Stop>
    requires runs { wal_ended walk.old.wal ≡ false }
    ensures still { IsStill D.Disk disk.old disk.new }
    ensures same { OnOk result (walk.new ≡ record walk.old { uses = walk.new.uses; page = walk.new.page; at = walk.new.at }) }
    ensures body { IfOk result (λ piece. IsValidBody piece.body.roots (length piece.proxies)) }
    ensures ok { IfOk result (λ piece. (was : Image) (base : ℕ) (tour : Tour) (named : Named)
        → HasCome D.Disk walk.old disk.old was base tour.free (used_in tour) (all_reached tour.visits ++ named_place named ∷ []) → named_place named ≡ record { page = page; slot = slot }
        → IsRecordAt (replay was) (named_place named) bytes.now → (Contains (all_reached tour.visits) (named_place named) → ⊥)
        → (chains : List (List Link)) × (new : Walked) × IsReadFirst (replay was) tour named chains new × (walked_body new ≡ piece.body.roots) × (walked_proxies new ≡ piece.proxies)
        × HasCome D.Disk walk.new disk.new was base tour.free (used_in tour ++ pages_of_links (links_behind chains)) (all_reached tour.visits ++ named_place named ∷ [])) }
    ensures refused { IfErr result (λ e. StopsSo D.Disk disk.old disk.new (λ broken blamed. (was : Image) (base : ℕ) (tour : Tour) (visit : Visit) (named : Named)
        → HasCome D.Disk walk.old disk.old was base tour.free (used_in tour) (all_reached tour.visits ++ named_place named ∷ []) → named_place named ≡ record { page = page; slot = slot }
        → IsRecordAt (replay was) (named_place named) bytes.now → (Contains (all_reached tour.visits) (named_place named) → ⊥)
        → BreaksAt (replay was) tour visit named broken blamed) e) }
{
    let found = view(walk.alloc, bytes)?;
    let stored = match found {
        Some(stored) => stored,
        None => return Err(broken(page, PageRule::Form)),
    };
    match stored {
        StoredView::Inline(piece) => {
            let PieceView { body, proxies } = piece;
            walk_contents(walk, disk, page, body.roots())?;
            Ok(PieceView { body, proxies })
        }
        StoredView::Chained { body, count, chain } => {
            let proxies = read_proxies(walk, disk, page, chain, count)?;
            walk_contents(walk, disk, page, body.roots())?;
            Ok(PieceView { body, proxies })
        }
    }
}

// The proxies that stand in a list, whose pages are marked.
fn read_proxies<D: Disk>(
    walk: &mut Walk,
    disk: &mut D,
    page: u32,
    chain: u32,
    count: u32,
) -> Result<Proxies, Stop>
    requires runs { wal_ended walk.old.wal ≡ false }
    requires some { 1 ≤ count }
    ensures still { IsStill D.Disk disk.old disk.new }
    ensures same { OnOk result (walk.new ≡ record walk.old { uses = walk.new.uses; page = walk.new.page; at = walk.new.at }) }
    ensures many { IfOk result (λ proxies. length proxies ≡ count) }
    ensures numbers { IfOk result (λ proxies. HaveNumbers proxies × HaveRootNumbers proxies) }
    ensures ok { IfOk result (λ proxies. (was : Image) (base : ℕ) (free used : List ℕ) (reached : List RecordPlace) → HasCome D.Disk walk.old disk.old was base free used reached
        → (links : List Link) × IsListOf (replay was) used chain (8 * count) links × (content_of links ≡ proxies_bytes proxies) × HasCome D.Disk walk.new disk.new was base free (used ++ pages_of_links links) reached) }
    ensures refused { IfErr result (λ e. StopsSo D.Disk disk.old disk.new (λ broken blamed. (broken ≡ rule.Chain) × ((was : Image) (base : ℕ) (free used : List ℕ) (reached : List RecordPlace)
        → HasCome D.Disk walk.old disk.old was base free used reached → BreaksList (replay was) used page chain (8 * count) blamed)) e) }
{
    let mut bytes = Bytes::new(walk.alloc);
    walk_list(walk, disk, page, chain, 8 * u64::from(count), &mut bytes)?;
    Ok(proxies_of(walk.alloc, bytes.as_slice(), count)?)
}
