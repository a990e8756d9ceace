// Pages, as a walk reads them.
ghost use Rattle.std.specs.Prelude.{◌≡◌, ◌+◌, ◌≤◌, ◌⊎◌, ℕ, [], false, true, Some, IfOk, IfErr, OnOk};
ghost use Rattle.nx_host.specs.Disk.{Image, Rose};
ghost use Rattle.nx_host.specs.Still.{IsStill};
ghost use Rattle.nx_replay.specs.Log.{replay};
ghost use Rattle.nx_wal.specs.Wal.{wal_ended, pending, IsInStep};
ghost use Rattle.nx_wal.specs.Reading.{page_found};
ghost use Rattle.nx_slots.specs.Slots.{IsSlotted};
ghost use Rattle.nx_check.specs.Uses.{use_of};
ghost use Rattle.nx_check.specs.On.{IsOn};

use crate::error::Stop;
use crate::left::Left;
use crate::uses::{PageUse, Uses};
use nx_host::{Area, Disk};
use nx_numbers::{MOST_PAGES, PAGE_SIZE};
use nx_slots::{KnownSlots, PageBytes, is_page};
use nx_wal::Wal;
use std::alloc::Global;
use std::cell::Cell;

// A walk over the pages: what it has come to, and the page that it read last.
#[derive(Drop)]
pub struct Walk {
    pub alloc: Global,
    pub wal: Wal,
    pub uses: Uses,
    pub left: Left,
    pub page: PageBytes,
    // Which page that is.
    pub at: Option<u32>,
    // The slots of a page that was found to be slotted, where there was memory for them.
    known: Cell<Option<Box<KnownSlots>>>,
}

// A walk that has come nowhere.
pub fn begin_walk<D: Disk>(alloc: Global, wal: Wal, disk: &mut D) -> Result<Walk, Stop>
    requires { pending wal ≡ [] }
    ensures still { IsStill D.Disk disk.old disk.new }
    ensures reads { D.reads disk.new ≡ D.reads disk.old }
    ensures same { IfOk result (λ walk. walk.wal ≡ wal) }
    ensures ok { IfOk result (λ walk. ((p : ℕ) → use_of walk.uses p ≡ PageUse.Unseen) × ((was : Image) → IsInStep D.Disk wal disk.old was → IsOn D.Disk walk disk.new was)) }
    ensures refused { IfErr result (λ e. (e ≡ Stop.Memory) ⊎ (e ≡ Stop.Disk) × Rose (D.faults disk.old) (D.faults disk.new)) }
{
    let Ok(length) = disk.length(Area::Pages) else {
        return Err(Stop::Disk);
    };
    let pages = (length / PAGE_SIZE as u64).min(MOST_PAGES as u64) as u32;
    Ok(Walk {
        alloc,
        wal,
        uses: Uses::new(alloc, pages)?,
        left: Left::new(alloc),
        page: PageBytes {
            bytes: [0; PAGE_SIZE],
        },
        at: None,
        known: Cell::new(Box::new(alloc, KnownSlots::new()).ok()),
    })
}

// Whether the page that was read last is slotted.
pub fn is_slotted(walk: &Walk) -> bool
    ensures yes { result ≡ true → IsSlotted walk.now.page.bytes }
    ensures no { result ≡ false → IsSlotted walk.now.page.bytes → ⊥ }
{
    match walk.known.take() {
        Some(mut known) => {
            let is = known.is_page(&walk.page);
            walk.known.set(Some(known));
            is
        }
        None => is_page(&walk.page),
    }
}

// Reads a page, and says whether it is there.
pub fn load<D: Disk>(walk: &mut Walk, disk: &mut D, page: u32) -> Result<bool, Stop>
    requires runs { wal_ended walk.old.wal ≡ false }
    ensures still { IsStill D.Disk disk.old disk.new }
    ensures reads { D.reads disk.new ≤ D.reads disk.old + 1 }
    ensures same { OnOk result (walk.new ≡ record walk.old { page = walk.new.page; at = walk.new.at }) }
    ensures ok { IfOk result (λ found. (was : Image) → IsOn D.Disk walk.old disk.old was → IsOn D.Disk walk.new disk.new was × (replay was page ≡ page_found found walk.new.page.bytes)) }
    ensures refused { IfErr result (λ e. (e ≡ Stop.Disk) × Rose (D.faults disk.old) (D.faults disk.new)) }
{
    if is_at(walk.at, page) {
        return Ok(true);
    }
    walk.at = None;
    let Ok(found) = walk.wal.load(disk, page, &mut walk.page) else {
        return Err(Stop::Disk);
    };
    if found {
        walk.at = Some(page);
    }
    Ok(found)
}

// Whether this page was read last.
fn is_at(at: Option<u32>, page: u32) -> bool
    ensures { result ≡ true → at ≡ Some page }
{
    match at {
        Some(found) => found == page,
        None => false,
    }
}
