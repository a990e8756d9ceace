// Moving pages from the log to the pages area.
ghost use Rattle.std.specs.Prelude.{◌≡◌, ◌+◌, ◌*◌, ◌^◌, ◌<◌, ◌≤◌, length, take, drop, ℕ, true, Some, None, IsSome, OnOk, OnErr, IfOk};
ghost use Rattle.std.specs.BTreeMap.{BTreeMap};
ghost use Rattle.nx_numbers.specs.Sizes.{page_size};
ghost use Rattle.nx_host.specs.Disk.{Image, Rose, ComesTorn, WritesTo};
ghost use Rattle.nx_host.specs.declared.disk.Area.TheVariants.{Pages};
ghost use Rattle.nx_host.specs.Still.{WritesAlone, IsSettled};
ghost use Rattle.nx_replay.specs.Log.{replay, groups, end_of, IsLogEnd, Stays};
ghost use Rattle.nx_wal.specs.Own.{BeginsWithGate, IsOwn};
ghost use Rattle.nx_wal.specs.Moving.{WritesPage, Moves, IsLed, HasMoved};

use crate::PageBytes;
use crate::reading::read_from;
use crate::writing::write_gate;
use nx_host::{Area, Disk, Failed};
use nx_numbers::PAGE_SIZE;
use std::collections::BTreeMap;

// Writes a page to the pages area.
fn write_area<D: Disk>(disk: &mut D, page: u32, bytes: &[u8]) -> Result<(), Failed>
    requires { length bytes.now ≡ page_size }
    ensures writes { WritesPage D.Disk page disk.old disk.new }
    ensures written { OnOk result ((was now : Image) → D.contents disk.old ≡ Some was → D.contents disk.new ≡ Some now → WritesTo Pages (page_size * page) bytes.now was now) }
    ensures cause { OnErr result (Rose (D.faults disk.old) (D.faults disk.new)) }
{
    disk.write_at(Area::Pages, PAGE_SIZE as u64 * (page as u64), bytes)
}

// Writes the page that stands in the log there to the pages area.
fn move_page<D: Disk>(disk: &mut D, page: u32, at: u64) -> Result<(), Failed>
    ensures writes { WritesPage D.Disk page disk.old disk.new }
    ensures moved { OnOk result ((was now : Image) → D.contents disk.old ≡ Some was → D.contents disk.new ≡ Some now → at + page_size ≤ length was.log
        → WritesTo Pages (page_size * page) (take page_size (drop at was.log)) was now) }
    ensures cause { OnErr result (Rose (D.faults disk.old) (D.faults disk.new)) }
{
    let mut bytes = [0u8; PAGE_SIZE];
    read_from(disk, Area::Log, at, &mut bytes)?;
    write_area(disk, page, &bytes)
}

// The same where there is a place.
fn move_from<D: Disk>(disk: &mut D, page: u32, place: &Option<u64>) -> Result<(), Failed>
    ensures none { place.now ≡ None → disk.new ≡ disk.old }
    ensures writes { (at : ℕ) → place.now ≡ Some at → WritesPage D.Disk page disk.old disk.new }
    ensures moved { OnOk result ((at : ℕ) → place.now ≡ Some at → (was now : Image) → D.contents disk.old ≡ Some was → D.contents disk.new ≡ Some now → at + page_size ≤ length was.log
        → WritesTo Pages (page_size * page) (take page_size (drop at was.log)) was now) }
    ensures cause { OnErr result (Rose (D.faults disk.old) (D.faults disk.new)) }
{
    match place {
        Some(at) => move_page(disk, page, *at),
        None => Ok(()),
    }
}

// Writes each page that the log has to the pages area.
fn move_pages<D: Disk>(disk: &mut D, places: &BTreeMap<u32, Option<u64>>) -> Result<(), Failed>
    ensures moves { Moves D.Disk places.now disk.old disk.new }
    ensures moved { OnOk result (HasMoved D.Disk places.now places.now.entries disk.old disk.new) }
    ensures cause { OnErr result (Rose (D.faults disk.old) (D.faults disk.new)) }
{
    for (page, place) in places.iter() {
        move_from(disk, *page, place)?;
    }
    Ok(())
}

// Makes durable what was written to the pages area.
fn sync_pages<D: Disk>(disk: &mut D) -> Result<(), Failed>
    ensures goes { WritesAlone D.Disk disk.old disk.new (D.may_leave disk.old) }
    ensures images { (i : Image) → D.may_leave disk.new i → D.may_leave disk.old i }
    ensures durable { OnOk result ((now : Image) → D.contents disk.new ≡ Some now → (D.contents disk.old ≡ Some now) × ((i : Image) → D.may_leave disk.new i → i.pages ≡ now.pages)) }
    ensures cause { OnErr result (Rose (D.faults disk.old) (D.faults disk.new)) }
{
    disk.sync(Area::Pages)
}

// Moves the pages of a log that has a group to the pages area, and then empties the log.
pub(crate) fn empty_log<D: Disk>(
    disk: &mut D,
    places: &BTreeMap<u32, Option<u64>>,
) -> Result<(), Failed>
    ensures goes { WritesAlone D.Disk disk.old disk.new (λ i. (was : Image) → IsLed D.Disk places.now disk.old was → 0 < end_of (groups was.log) → Stays (replay was) (replay i)) }
    ensures own { WritesAlone D.Disk disk.old disk.new (λ i. (was : Image) → IsLed D.Disk places.now disk.old was → 0 < end_of (groups was.log) → BeginsWithGate i.log → IsOwn i) }
    ensures ok { OnOk result ((was now : Image) → IsLed D.Disk places.now disk.old was → 0 < end_of (groups was.log) → D.contents disk.new ≡ Some now
        → IsSettled D.Disk disk.new now × Stays (replay was) (replay now) × IsLogEnd 0 true now.log) }
    ensures cause { OnErr result (Rose (D.faults disk.old) (D.faults disk.new)) }
{
    move_pages(disk, places)?;
    sync_pages(disk)?;
    write_gate(disk, 0, 0)
}
