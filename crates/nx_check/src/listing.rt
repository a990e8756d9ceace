// The header, the free list and the catalog, page by page.
ghost use Rattle.std.specs.Prelude.{◌≡◌, ◌≢◌, ◌+◌, ◌<◌, ◌≤◌, ℕ, List, [], true, false, length, IfOk, IfErr, OnOk};
ghost use Rattle.nx_host.specs.Disk.{Image, Rose};
ghost use Rattle.nx_host.specs.Still.{IsStill};
ghost use Rattle.nx_replay.specs.Log.{replay, HasMark};
ghost use Rattle.nx_wal.specs.Wal.{wal_ended};
ghost use Rattle.nx_holdings.specs.Header.{IsInRange};
ghost use Rattle.nx_rules.specs.Tour.{Tour};
ghost use Rattle.nx_rules.specs.Listed.{IsSlottedPage, HasHeaderPage, IsFreeTo};
ghost use Rattle.nx_check.specs.Uses.{use_of, MarksFree};
ghost use Rattle.nx_check.specs.Between.{HasBegunWalk, IsBetweenDocuments};
ghost use Rattle.nx_check.specs.On.{IsOn, StopsWalk};

use crate::chains::walk_list;
use crate::error::{Stop, broken};
use crate::reading::{Walk, load};
use crate::uses::{PageUse, Uses};
use nx_catalog::{Catalog, catalog_of};
use nx_holdings::{Header, read_free_page, read_header};
use nx_host::Disk;
use nx_rules::PageRule;
use nx_slots::is_page;
use nx_tree::Bytes;

// The header, whose room page, where it names one, is slotted.
pub fn walk_header<D: Disk>(walk: &mut Walk, disk: &mut D) -> Result<Header, Stop>
    requires runs { wal_ended walk.old.wal ≡ false }
    ensures still { IsStill D.Disk disk.old disk.new }
    ensures reads { D.reads disk.new ≤ D.reads disk.old + 2 }
    ensures same { OnOk result (walk.new ≡ record walk.old { page = walk.new.page; at = walk.new.at }) }
    ensures range { IfOk result (λ head. IsInRange head) }
    ensures ok { IfOk result (λ head. (was : Image) → IsOn D.Disk walk.old disk.old was → IsOn D.Disk walk.new disk.new was × HasHeaderPage (replay was) head) }
    ensures refused { IfErr result (λ e. StopsWalk D.Disk disk.old disk.new (λ was. IsOn D.Disk walk.old disk.old was × HasMark (replay was)) e) }
{
    if !load(walk, disk, 0)? {
        return Err(broken(0, PageRule::Header));
    }
    let head = match read_header(&walk.page) {
        Some(head) => head,
        None => return Err(broken(0, PageRule::Header)),
    };
    if !has_room_page(walk, disk, head.room)? {
        return Err(broken(0, PageRule::Header));
    }
    Ok(head)
}

// Whether the page that is tried first for a new record is slotted, where there is one.
fn has_room_page<D: Disk>(walk: &mut Walk, disk: &mut D, room: u32) -> Result<bool, Stop>
    requires runs { wal_ended walk.old.wal ≡ false }
    ensures still { IsStill D.Disk disk.old disk.new }
    ensures reads { D.reads disk.new ≤ D.reads disk.old + 1 }
    ensures same { OnOk result (walk.new ≡ record walk.old { page = walk.new.page; at = walk.new.at }) }
    ensures on { OnOk result ((was : Image) → IsOn D.Disk walk.old disk.old was → IsOn D.Disk walk.new disk.new was) }
    ensures yes { IfOk result (λ found. (was : Image) → IsOn D.Disk walk.old disk.old was → found ≡ true → room ≢ 0 → (bytes : List ℕ) × IsSlottedPage (replay was) room bytes) }
    ensures no { IfOk result (λ found. (was : Image) → IsOn D.Disk walk.old disk.old was → found ≡ false → (room ≢ 0) × ((bytes : List ℕ) → IsSlottedPage (replay was) room bytes → ⊥)) }
    ensures refused { IfErr result (λ e. (e ≡ Stop.Disk) × Rose (D.faults disk.old) (D.faults disk.new)) }
{
    if room == 0 {
        return Ok(true);
    }
    is_slotted_at(walk, disk, room)
}

// Whether a page is there and slotted.
fn is_slotted_at<D: Disk>(walk: &mut Walk, disk: &mut D, page: u32) -> Result<bool, Stop>
    requires runs { wal_ended walk.old.wal ≡ false }
    ensures still { IsStill D.Disk disk.old disk.new }
    ensures reads { D.reads disk.new ≤ D.reads disk.old + 1 }
    ensures same { OnOk result (walk.new ≡ record walk.old { page = walk.new.page; at = walk.new.at }) }
    ensures on { OnOk result ((was : Image) → IsOn D.Disk walk.old disk.old was → IsOn D.Disk walk.new disk.new was) }
    ensures yes { IfOk result (λ found. (was : Image) → IsOn D.Disk walk.old disk.old was → found ≡ true → (bytes : List ℕ) × IsSlottedPage (replay was) page bytes) }
    ensures no { IfOk result (λ found. (was : Image) → IsOn D.Disk walk.old disk.old was → found ≡ false → (bytes : List ℕ) → IsSlottedPage (replay was) page bytes → ⊥) }
    ensures refused { IfErr result (λ e. (e ≡ Stop.Disk) × Rose (D.faults disk.old) (D.faults disk.new)) }
{
    if !load(walk, disk, page)? {
        return Ok(false);
    }
    Ok(is_page(&walk.page))
}

// The free list, whose pages are below the header's number, each once. They are marked.
pub fn walk_free<D: Disk>(walk: &mut Walk, disk: &mut D, head: &Header) -> Result<(), Stop>
    requires runs { wal_ended walk.old.wal ≡ false }
    requires clear { (p : ℕ) → use_of walk.old.uses p ≡ PageUse.Unseen }
    ensures still { IsStill D.Disk disk.old disk.new }
    ensures same { OnOk result (walk.new ≡ record walk.old { uses = walk.new.uses; page = walk.new.page; at = walk.new.at }) }
    ensures ok { OnOk result ((was : Image) → IsOn D.Disk walk.old disk.old was → IsOn D.Disk walk.new disk.new was
        × ((free : List ℕ) × IsFreeTo (replay was) head.now free 0 × MarksFree walk.new.uses free × (D.reads disk.new ≤ D.reads disk.old + length free))) }
    ensures refused { IfErr result (λ e. StopsWalk D.Disk disk.old disk.new (λ was. IsOn D.Disk walk.old disk.old was × HasHeaderPage (replay was) head.now) e) }
{
    let mut by = 0;
    let mut page = head.free;
    while page != 0 {
        if !load(walk, disk, page)? {
            return Err(broken(by, PageRule::Free));
        }
        let next = match read_free_page(&walk.page) {
            Some(next) => next,
            None => return Err(broken(page, PageRule::Free)),
        };
        if !may_be_free(&walk.uses, page, head.pages) {
            return Err(broken(page, PageRule::Free));
        }
        walk.uses.set_use(page, PageUse::Free)?;
        by = page;
        page = next;
    }
    Ok(())
}

// Whether a page is below the header's number and wasn't come to.
fn may_be_free(uses: &Uses, page: u32, pages: u32) -> bool
    ensures yes { result ≡ true → (page < pages) × (use_of uses.now page ≡ PageUse.Unseen) }
    ensures no { result ≡ false → page < pages → use_of uses.now page ≡ PageUse.Unseen → ⊥ }
{
    page < pages && uses.is_unseen(page)
}

// The catalog, in which nothing was reached of each document.
pub fn walk_catalog<D: Disk>(walk: &mut Walk, disk: &mut D, head: &Header) -> Result<Catalog, Stop>
    requires runs { wal_ended walk.old.wal ≡ false }
    requires range { IsInRange head.now }
    ensures still { IsStill D.Disk disk.old disk.new }
    ensures same { OnOk result (walk.new.wal ≡ walk.old.wal) }
    ensures ok { IfOk result (λ catalog. (was : Image) (base : ℕ) → HasBegunWalk D.Disk walk.old disk.old was base head.now
        → (tour : Tour) × (tour.head ≡ head.now) × (tour.contents ≡ catalog) × IsBetweenDocuments D.Disk walk.new disk.new was base tour [] tour.visits) }
    ensures refused { IfErr result (λ e. StopsWalk D.Disk disk.old disk.new (λ was. (base : ℕ) × HasBegunWalk D.Disk walk.old disk.old was base head.now) e) }
{
    let mut bytes = Bytes::new(walk.alloc);
    walk_list(walk, disk, 0, head.catalog, head.catalog_length, &mut bytes)?;
    let found = catalog_of(walk.alloc, bytes.as_slice())?;
    match found {
        Some(catalog) => Ok(catalog),
        None => Err(broken(head.catalog, PageRule::Catalog)),
    }
}
