// The check of a store.
ghost use Rattle.std.specs.Prelude.{◌≡◌, ◌+◌, ◌*◌, ◌/◌, ◌<◌, ◌≤◌, ℕ, List, [], ◌++◌, false, length, IfOk, IfErr, OnOk, IfSome, IfNone};
ghost use Rattle.nx_host.specs.Disk.{Image};
ghost use Rattle.nx_host.specs.Still.{IsStill, IsSettled};
ghost use Rattle.nx_numbers.specs.Sizes.{entry_size};
ghost use Rattle.nx_replay.specs.Log.{Pages, replay, HasMark};
ghost use Rattle.nx_holdings.specs.Header.{IsInRange};
ghost use Rattle.nx_wal.specs.Wal.{wal_ended, pending, IsInStep};
ghost use Rattle.nx_rules.specs.Tour.{Tour, Visit};
ghost use Rattle.nx_rules.specs.Verdict.{IsVerdict};
ghost use Rattle.nx_layouts.specs.Layout.{RecordPlace};
ghost use Rattle.nx_check.specs.Marks.{AreMarked, HasUse};
ghost use Rattle.nx_check.specs.On.{StopsWalk};
ghost use Rattle.nx_check.specs.Between.{HasBegunWalk, IsBetweenDocuments, HasComeToEnd};
ghost use Rattle.nx_check.specs.Refusals.{NotChecked, HasNoVerdict, refusal_of, told_of_stop};

use crate::CheckError;
use crate::error::{Stop, broken};
use crate::left::Left;
use crate::listing::{walk_catalog, walk_free, walk_header};
use crate::marks::is_in_use;
use crate::reading::{Walk, begin_walk};
use crate::uses::Uses;
use crate::walking::walk_document;
use nx_catalog::Catalog;
use nx_holdings::Header;
use nx_host::Disk;
use nx_rules::{PageRule, Verdict};
use nx_wal::{Wal, WalError};
use std::alloc::Global;

/// Whether the pages of a disk stand for a state, and else the first rule that they break, in the order in which the walk
/// goes: the header, the free list, the catalog, the documents by name, each record in document order of its first member,
/// and at last every page. Nothing is written.
///
/// Errors: `NotAStore` exactly where page 0 is missing or doesn't begin with the eight bytes `NATIXST1`; `Disk`, only
/// where `faults` rose; `Memory`.
pub fn check<D: Disk>(alloc: Global, disk: &mut D) -> Result<Verdict, CheckError>
    ensures still { IsStill D.Disk disk.old disk.new }
    ensures verdict { IfOk result (λ found. (was : Image) → IsSettled D.Disk disk.old was → HasMark (replay was) × IsVerdict (replay was) found) }
    ensures reads { IfOk result (λ found. (was : Image) → IsSettled D.Disk disk.old was → found ≡ Verdict.Sound
        → (tour : Tour) × HasComeToEnd D.Disk disk.new was (D.reads disk.old + (3 * (length was.log / entry_size + 1) + 1) + 2) tour) }
    ensures refused { IfErr result (λ e. NotChecked D.Disk e disk.old disk.new) }
{
    match Wal::open_to_read(disk, alloc) {
        Ok(wal) => verdict_of(alloc, wal, disk),
        Err(error) => Err(refusal_of(error)),
    }
}

// The verdict of the pages that a log and an area stand for.
fn verdict_of<D: Disk>(alloc: Global, wal: Wal, disk: &mut D) -> Result<Verdict, CheckError>
    requires runs { wal_ended wal ≡ false }
    requires none { pending wal ≡ [] }
    ensures still { IsStill D.Disk disk.old disk.new }
    ensures verdict { IfOk result (λ found. (was : Image) → IsInStep D.Disk wal disk.old was → HasMark (replay was) → IsVerdict (replay was) found) }
    ensures reads { IfOk result (λ found. (was : Image) → IsInStep D.Disk wal disk.old was → found ≡ Verdict.Sound → (tour : Tour) × HasComeToEnd D.Disk disk.new was (D.reads disk.old + 2) tour) }
    ensures refused { IfErr result (λ e. HasNoVerdict D.Disk e disk.old disk.new) }
{
    match walk_all(alloc, wal, disk) {
        Ok(()) => Ok(Verdict::Sound),
        Err(stop) => told_by(stop),
    }
}

// Why a store isn't checked whose log isn't opened.
fn refusal_of(error: WalError) -> CheckError
    ensures { result ≡ refusal_of error }
{
    match error {
        WalError::NotAStore => CheckError::NotAStore,
        WalError::Memory => CheckError::Memory,
        _ => CheckError::Disk,
    }
}

// What a walk that stops tells.
fn told_by(stop: Stop) -> Result<Verdict, CheckError>
    ensures { result ≡ told_of_stop stop }
{
    match stop {
        Stop::Broken { page, rule } => Ok(Verdict::Wrong { page, rule }),
        Stop::Disk => Err(CheckError::Disk),
        Stop::Memory => Err(CheckError::Memory),
    }
}

// The whole walk.
fn walk_all<D: Disk>(alloc: Global, wal: Wal, disk: &mut D) -> Result<(), Stop>
    requires runs { wal_ended wal ≡ false }
    requires none { pending wal ≡ [] }
    ensures still { IsStill D.Disk disk.old disk.new }
    ensures ok { OnOk result ((was : Image) → IsInStep D.Disk wal disk.old was → (tour : Tour) × HasComeToEnd D.Disk disk.new was (D.reads disk.old + 2) tour) }
    ensures refused { IfErr result (λ e. StopsWalk D.Disk disk.old disk.new (λ was. IsInStep D.Disk wal disk.old was × HasMark (replay was)) e) }
{
    let begun = begin_check(alloc, wal, disk)?;
    let (mut walk, head) = begun;
    let catalog = walk_catalog(&mut walk, disk, &head)?;
    walk_documents(&mut walk, disk, u32::from(head.settings.k), &catalog)?;
    walk_rest(&mut walk, disk, head.pages)
}

// The header and the free list.
fn begin_check<D: Disk>(alloc: Global, wal: Wal, disk: &mut D) -> Result<(Walk, Header), Stop>
    requires runs { wal_ended wal ≡ false }
    requires none { pending wal ≡ [] }
    ensures still { IsStill D.Disk disk.old disk.new }
    ensures runs { IfOk result (λ begun. wal_ended begun.0.wal ≡ false) }
    ensures range { IfOk result (λ begun. IsInRange begun.1) }
    ensures ok { IfOk result (λ begun. (was : Image) → IsInStep D.Disk wal disk.old was → HasBegunWalk D.Disk begun.0 disk.new was (D.reads disk.old + 2) begun.1) }
    ensures refused { IfErr result (λ e. StopsWalk D.Disk disk.old disk.new (λ was. IsInStep D.Disk wal disk.old was × HasMark (replay was)) e) }
{
    let mut walk = begin_walk(alloc, wal, disk)?;
    let head = walk_header(&mut walk, disk)?;
    walk_free(&mut walk, disk, &head)?;
    Ok((walk, head))
}

// The documents by name.
fn walk_documents<D: Disk>(
    walk: &mut Walk,
    disk: &mut D,
    k: u32,
    catalog: &Catalog,
) -> Result<(), Stop>
    requires runs { wal_ended walk.old.wal ≡ false }
    ensures still { IsStill D.Disk disk.old disk.new }
    ensures same { OnOk result (walk.new.wal ≡ walk.old.wal) }
    ensures ok { OnOk result ((was : Image) (base : ℕ) (tour : Tour) → IsBetweenDocuments D.Disk walk.old disk.old was base tour [] tour.visits → k ≡ tour.head.settings.k → tour.contents ≡ catalog.now
        → (new : Tour) × (new ≡ record tour { visits = new.visits }) × IsBetweenDocuments D.Disk walk.new disk.new was base new new.visits []) }
    ensures refused { IfErr result (λ e. StopsWalk D.Disk disk.old disk.new (λ was. (base : ℕ) × (tour : Tour) × IsBetweenDocuments D.Disk walk.old disk.old was base tour [] tour.visits × (k ≡ tour.head.settings.k) × (tour.contents ≡ catalog.now)) e) }
{
    for document in catalog.iter() {
        walk_document(walk, disk, k, *document.1)?;
    }
    Ok(())
}

// Each page below the header's number has a use, and no page is there from it on.
fn walk_rest<D: Disk>(walk: &mut Walk, disk: &mut D, pages: u32) -> Result<(), Stop>
    requires runs { wal_ended walk.old.wal ≡ false }
    ensures still { IsStill D.Disk disk.old disk.new }
    ensures ok { OnOk result ((was : Image) (base : ℕ) (tour : Tour) → IsBetweenDocuments D.Disk walk.old disk.old was base tour tour.visits [] → pages ≡ tour.head.pages → HasComeToEnd D.Disk disk.new was base tour) }
    ensures refused { IfErr result (λ e. StopsWalk D.Disk disk.old disk.new (λ was. (base : ℕ) × (tour : Tour) × IsBetweenDocuments D.Disk walk.old disk.old was base tour tour.visits [] × (pages ≡ tour.head.pages)) e) }
{
    if let Some(page) = first_unused(&walk.uses, &walk.left, pages) {
        return Err(broken(page, PageRule::Unused));
    }
    let Ok(count) = walk.wal.page_count(disk) else {
        return Err(Stop::Disk);
    };
    if count > pages {
        return Err(broken(count - 1, PageRule::Unused));
    }
    Ok(())
}

// The first page behind page 0, below this number, that has no use.
fn first_unused(uses: &Uses, left: &Left, pages: u32) -> Option<u32>
    ensures none { IfNone result ((those : Pages) (free used : List ℕ) (reached : List RecordPlace) → AreMarked uses.now left.now those free used reached → (p : ℕ) → 1 ≤ p → p < pages → HasUse those free used reached p) }
    ensures some { IfSome result (λ page. (1 ≤ page) × (page < pages) × ((those : Pages) (free used : List ℕ) (reached : List RecordPlace) → AreMarked uses.now left.now those free used reached
        → (HasUse those free used reached page → ⊥) × ((p : ℕ) → 1 ≤ p → p < page → HasUse those free used reached p))) }
{
    for page in 1..pages {
        if !is_in_use(uses, left, page) {
            return Some(page);
        }
    }
    None
}
