// What the commands do.
ghost use Rattle.std.specs.Prelude.{◌≡◌, ◌≢◌, ◌⊎◌, ◌<◌, ◌≤◌, ◌^◌, ℕ, List, [], false, Some, IsSome, IfErr, OnOk};
ghost use Rattle.nx_host.specs.Disk.{Image, Keeps};
ghost use Rattle.nx_host.specs.Still.{WritesAlone};
ghost use Rattle.nx_host.specs.Time.{Elapses};
ghost use Rattle.nx_replay.specs.Log.{entry_pages, replay};
ghost use Rattle.nx_wal.specs.Wal.{Follows, IsInStep, wal_ended, length_of, pending};
ghost use Rattle.nx_wal_driver.specs.Group.{page_on_ring, AreThere, IsThere};
ghost use Rattle.nx_wal_driver.specs.Drive.{IsReady};
ghost use Rattle.nx_wal_driver.specs.Fault.{FaultCountsGrow, HasCause};
ghost use Rattle.nx_wal_driver.specs.declared.faults.Fault.TheVariants.{Memory};

use crate::commands::{Creation, Filling};
use crate::faults::Fault;
use crate::giving::give;
use crate::stamps::{Stamp, stamp_of, stamped};
use nx_host::{Disk, Host};
use nx_slots::PageBytes;
use nx_wal::Wal;
use std::alloc::Global;

// As long as a log may be before a commit.
const LONGEST_LOG: u64 = 1 << 62;

// Makes a store, all of whose pages are in group 0.
pub fn create<H: Host>(alloc: Global, host: &mut H, creation: Creation) -> Result<(), Fault>
    requires some { 1 ≤ creation.pages }
    requires few { creation.pages ≤ 16777216 }
    ensures cause { IfErr result (λ fault. HasCause ⟦<H as Disk>⟧ fault host.old host.new) }
{
    let mut wal = Wal::create(host, alloc)?;
    put_all(&mut wal, creation)?;
    wal.commit(host, 0)?;
    give(host, &format!(in alloc; "commit 0\n")?)
}

// Makes all pages of a new store wait.
fn put_all(wal: &mut Wal, creation: Creation) -> Result<(), Fault>
    requires ready { IsReady wal.old }
    requires some { 1 ≤ creation.pages }
    requires few { creation.pages ≤ 16777216 }
    ensures some { OnOk result (pending wal.new ≢ []) }
    ensures goes_on { wal_ended wal.new ≡ false }
    ensures length { length_of wal.new ≡ length_of wal.old }
    ensures fault { IfErr result (λ fault. fault ≡ Memory) }
{
    for page in 0..creation.pages {
        put(
            wal,
            Stamp {
                seed: creation.seed,
                group: 0,
                page,
            },
        )?;
    }
    Ok(())
}

// Commits groups behind the last one that the store has.
pub fn fill<H: Host>(alloc: Global, host: &mut H, filling: Filling) -> Result<(), Fault>
    requires some { 1 ≤ filling.pages }
    ensures cause { IfErr result (λ fault. HasCause ⟦<H as Disk>⟧ fault host.old host.new) }
{
    let mut wal = Wal::open(host, alloc)?;
    let count = wal.page_count(host)?;
    let mut group = last_group(host, &mut wal)?;
    if filling.pages > count || count > 16_777_216 {
        return Err(Fault::TooFewPages);
    }
    for i in 0..filling.groups {
        group = group.wrapping_add(1);
        commit(alloc, host, &mut wal, filling, group, count)?;
        if filling.every > 0 && i % filling.every == filling.every - 1 {
            checkpoint(alloc, host, &mut wal, group)?;
        }
    }
    Ok(())
}

// The number of the last group, which page 0 says.
fn last_group<H: Host>(host: &mut H, wal: &mut Wal) -> Result<u64, Fault>
    requires ready { IsReady wal.old }
    ensures ready { OnOk result (IsReady wal.new) }
    ensures grow { FaultCountsGrow ⟦<H as Disk>⟧ host.old host.new }
    ensures cause { IfErr result (λ fault. HasCause ⟦<H as Disk>⟧ fault host.old host.new) }
{
    let mut page = PageBytes { bytes: [0; 8192] };
    if !wal.page(host, 0, &mut page)? {
        return Err(Fault::NotAStore);
    }
    match stamp_of(&page) {
        Some(stamp) => Ok(stamp.group),
        None => Err(Fault::NotAStore),
    }
}

// Commits a group, and says so once it is there: while no byte of the line is out, the group may be
// missing, and from then on each image that a crash may leave has it.
fn commit<H: Host>(
    alloc: Global,
    host: &mut H,
    wal: &mut Wal,
    filling: Filling,
    group: u64,
    count: u32,
) -> Result<(), Fault>
    requires ready { IsReady wal.old }
    requires some { 1 ≤ filling.pages }
    requires enough { filling.pages ≤ count }
    requires few { count ≤ 16777216 }
    ensures told { (was : Image) → IsInStep ⟦<H as Disk>⟧ wal.old host.old was → Elapses H.moment H.stood_since host.old host.new
        (λ s. Keeps (H.beside host.old).output s.output ⊎ (IsSome (H.contents host.new) → AreThere filling group count filling.pages (replay s.image))) }
    ensures ready { OnOk result (IsReady wal.new) }
    ensures grow { FaultCountsGrow ⟦<H as Disk>⟧ host.old host.new }
    ensures cause { IfErr result (λ fault. HasCause ⟦<H as Disk>⟧ fault host.old host.new) }
{
    commit_pages(host, wal, filling, group, count)?;
    give(host, &format!(in alloc; "commit {group}\n")?)
}

// Commits a group.
fn commit_pages<H: Host>(
    host: &mut H,
    wal: &mut Wal,
    filling: Filling,
    group: u64,
    count: u32,
) -> Result<(), Fault>
    requires ready { IsReady wal.old }
    requires some { 1 ≤ filling.pages }
    requires enough { filling.pages ≤ count }
    requires few { count ≤ 16777216 }
    ensures alone { WritesAlone ⟦<H as Disk>⟧ host.old host.new (λ _. Unit {0}) }
    ensures there { OnOk result ((was now : Image) → IsInStep ⟦<H as Disk>⟧ wal.old host.old was → H.contents host.new ≡ Some now →
        IsInStep ⟦<H as Disk>⟧ wal.new host.new now × AreThere filling group count filling.pages (replay now)) }
    ensures ready { OnOk result (IsReady wal.new) }
    ensures cause { IfErr result (λ fault. HasCause ⟦<H as Disk>⟧ fault host.old host.new) }
{
    make_room(host, wal)?;
    put_pages(wal, filling, group, count)?;
    wal.commit(host, group)?;
    Ok(())
}

// Sees that the log isn't too long for a commit.
fn make_room<H: Host>(host: &mut H, wal: &mut Wal) -> Result<(), Fault>
    requires ready { IsReady wal.old }
    ensures alone { WritesAlone ⟦<H as Disk>⟧ host.old host.new (λ _. Unit {0}) }
    ensures in_step { OnOk result ((was now : Image) → IsInStep ⟦<H as Disk>⟧ wal.old host.old was → H.contents host.new ≡ Some now → IsInStep ⟦<H as Disk>⟧ wal.new host.new now) }
    ensures ready { OnOk result (IsReady wal.new) }
    ensures room { OnOk result (length_of wal.new ≤ 2 ^ 62) }
    ensures cause { IfErr result (λ fault. HasCause ⟦<H as Disk>⟧ fault host.old host.new) }
{
    if wal.log_length() <= LONGEST_LOG {
        return Ok(());
    }
    wal.checkpoint(host)?;
    Ok(())
}

// Makes a checkpoint, and says so once it is made.
fn checkpoint<H: Host>(alloc: Global, host: &mut H, wal: &mut Wal, group: u64) -> Result<(), Fault>
    requires ready { IsReady wal.old }
    ensures ready { OnOk result (IsReady wal.new) }
    ensures grow { FaultCountsGrow ⟦<H as Disk>⟧ host.old host.new }
    ensures cause { IfErr result (λ fault. HasCause ⟦<H as Disk>⟧ fault host.old host.new) }
{
    wal.checkpoint(host)?;
    give(host, &format!(in alloc; "checkpoint {group}\n")?)
}

// Makes the pages of a group wait.
fn put_pages(wal: &mut Wal, filling: Filling, group: u64, count: u32) -> Result<(), Fault>
    requires ready { IsReady wal.old }
    requires some { 1 ≤ filling.pages }
    requires enough { filling.pages ≤ count }
    requires few { count ≤ 16777216 }
    ensures there { OnOk result (AreThere filling group count filling.pages (entry_pages (pending wal.new))) }
    ensures follows { OnOk result ((log : List ℕ) → Follows wal.old log → Follows wal.new log) }
    ensures some { OnOk result (pending wal.new ≢ []) }
    ensures goes_on { wal_ended wal.new ≡ false }
    ensures length { length_of wal.new ≡ length_of wal.old }
    ensures fault { IfErr result (λ fault. fault ≡ Memory) }
{
    for i in 0..filling.pages {
        let page = page_of(filling.seed, group, i, count);
        put(
            wal,
            Stamp {
                seed: filling.seed,
                group,
                page,
            },
        )?;
    }
    Ok(())
}

// Which page of so many the i-th of a group is: page 0, and then others behind each other, as on a ring.
fn page_of(seed: u64, group: u64, i: u32, count: u32) -> u32
    requires { i < count }
    ensures place { result ≡ page_on_ring seed group count i }
    ensures low { result < count }
{
    if i == 0 {
        return 0;
    }
    let others = (count - 1) as u64;
    let first = group.wrapping_mul(7_919).wrapping_add(seed) % others;
    1 + ((first + i as u64) % others) as u32
}

// Makes the page with this stamp wait.
fn put(wal: &mut Wal, stamp: Stamp) -> Result<(), Fault>
    requires page { stamp.page < 16777216 }
    requires goes_on { wal_ended wal.old ≡ false }
    ensures there { OnOk result (IsThere stamp (entry_pages (pending wal.new))) }
    ensures others { OnOk result ((p : ℕ) → p ≢ stamp.page → entry_pages (pending wal.new) p ≡ entry_pages (pending wal.old) p) }
    ensures follows { (log : List ℕ) → Follows wal.old log → Follows wal.new log }
    ensures some { OnOk result (pending wal.new ≢ []) }
    ensures goes_on { wal_ended wal.new ≡ false }
    ensures length { length_of wal.new ≡ length_of wal.old }
    ensures fault { IfErr result (λ fault. fault ≡ Memory) }
{
    wal.put(stamp.page, &stamped(stamp))?;
    Ok(())
}

// Tells how long the log is, and of each page which group wrote it.
pub fn dump<H: Host>(alloc: Global, host: &mut H) -> Result<(), Fault>
    ensures cause { IfErr result (λ fault. HasCause ⟦<H as Disk>⟧ fault host.old host.new) }
{
    let mut wal = Wal::open(host, alloc)?;
    let count = wal.page_count(host)?;
    give_lengths(alloc, host, &wal, count)?;
    for page in 0..count {
        give_page(alloc, host, &mut wal, page)?;
    }
    Ok(())
}

// Tells how long the log is, and how many pages there are.
pub fn open<H: Host>(alloc: Global, host: &mut H) -> Result<(), Fault>
    ensures cause { IfErr result (λ fault. HasCause ⟦<H as Disk>⟧ fault host.old host.new) }
{
    let mut wal = Wal::open(host, alloc)?;
    let count = wal.page_count(host)?;
    give_lengths(alloc, host, &wal, count)
}

fn give_lengths<H: Host>(alloc: Global, host: &mut H, wal: &Wal, count: u32) -> Result<(), Fault>
    ensures grow { FaultCountsGrow ⟦<H as Disk>⟧ host.old host.new }
    ensures cause { IfErr result (λ fault. HasCause ⟦<H as Disk>⟧ fault host.old host.new) }
{
    let length = wal.log_length();
    give(host, &format!(in alloc; "log {length} pages {count}\n")?)
}

// Tells which group wrote a page.
fn give_page<H: Host>(alloc: Global, host: &mut H, wal: &mut Wal, page: u32) -> Result<(), Fault>
    requires ready { IsReady wal.old }
    ensures ready { OnOk result (IsReady wal.new) }
    ensures grow { FaultCountsGrow ⟦<H as Disk>⟧ host.old host.new }
    ensures cause { IfErr result (λ fault. HasCause ⟦<H as Disk>⟧ fault host.old host.new) }
{
    let mut bytes = PageBytes { bytes: [0; 8192] };
    if !wal.page(host, page, &mut bytes)? {
        return give(host, &format!(in alloc; "page {page} missing\n")?);
    }
    match stamp_of(&bytes) {
        Some(stamp) => {
            let (of, group, seed) = (stamp.page, stamp.group, stamp.seed);
            give(
                host,
                &format!(in alloc; "page {page} holds {of} group {group} seed {seed}\n")?,
            )
        }
        None => give(host, &format!(in alloc; "page {page} broken\n")?),
    }
}
