// Pages under a log.
ghost use Rattle.std.specs.Prelude.{◌≡◌, ◌≢◌, ◌⊎◌, ◌++◌, ◌∷◌, [], ℕ, List, ◌+◌, ◌*◌, ◌/◌, ◌^◌, ◌<◌, ◌≤◌, length, true, false, is_some, slice_get, if◌then◌else◌, All, Some, None, IsSome, IfSome, IfNone, IfOk, IfErr, OnOk, OnErr};
ghost use Rattle.std.specs.Option.{option_map};
ghost use Rattle.std.specs.BTreeMap.{keys, btree_map_len};
ghost use Rattle.std.specs.Vec.{vec_capacity};
ghost use Rattle.std.proofs.Props.{props};
ghost use Rattle.nx_numbers.specs.Sizes.{entry_size, longest_record, most_pages};
ghost use Rattle.nx_host.specs.Disk.{Image, IsRenewedLast};
ghost use Rattle.nx_host.specs.declared.disk.Area.TheVariants.{Log};
ghost use Rattle.nx_host.specs.Still.{IsStill, IsSettled, WritesAlone};
ghost use Rattle.nx_replay.specs.Log.{replay, over, groups, group_size, entry_pages, Stays, HasSame, HasGroup, HasMark};
ghost use Rattle.nx_replay.specs.Log.{Group as LogGroup};
ghost use Rattle.nx_groups.specs.Groups.{logged_as};
ghost use Rattle.nx_wal.specs.Places.{MayWait};

use crate::block::Block;
use crate::lost::first_unplaced;
use crate::moving::empty_log;
use crate::pages::{area_count, read_page};
use crate::places::{logged_count, make_place, set_places};
use crate::reading::{open_log, read_group, read_group_head, read_part, shut_of_none};
use crate::renewing::renew_gate;
use crate::waiting::Waiting;
use crate::writing::write_group;
use crate::{GroupHead, PageBytes, WalError};
use nx_groups::Group;
use nx_host::Disk;
use nx_numbers::{ENTRY_SIZE, PAGE_SIZE};
use std::alloc::Global;
use std::collections::BTreeMap;

/// Pages under a log: the pages of a disk as its log, else its pages area, has them, and besides the
/// pages that wait for a commit.
///
/// Of the log it keeps where each page stands, and no page but those that wait. It stands for the
/// disk that the last call was handed, as that call left it.
#[derive(Drop)]
pub struct Wal {
    // Where the log has a page, or none where it only waits.
    places: BTreeMap<u32, Option<u64>>,
    // Where each group begins.
    starts: Vec<u64>,
    waiting: Waiting,
    block: Block,
    // Where the log ends, and whether a closed byte stands there.
    end: u64,
    shut: bool,
    ended: bool,
    ghost numbers: { All (MayWait places) (keys waiting.pages) } by { Prim.hlevel props },
    // Where a page waits, there is room for where its group begins.
    ghost room: { 0 < btree_map_len waiting.pages → length starts.items < vec_capacity starts },
}

impl Wal {
    ghost use Rattle.nx_wal.specs.Wal.{Follows, IsInStep, IsPageCount, EndsWal, group_count, NoGroupRead, pending, current, next_group, wal_ended, length_of, PutsRecord, HasNoPageFor, ClearsRecord, HasNoneBeside, Refused, NoLogCreated, NoLogOpened};
    ghost use Rattle.nx_wal.specs.Reading.{page_found, IsHeadFor, ArePagesOf};
    ghost use Rattle.nx_wal.specs.Own.{BeginsWithGate, IsOwn};
    ghost use Rattle.nx_wal.specs.Renewing.{IsRenewed, last_gate};
    ghost use Rattle.nx_wal.specs.Lost.{Loses};

    /// A log over a disk that has no pages. Nothing is written.
    ///
    /// Errors: `Exists` exactly where the disk has a page; `Disk`, only where `faults` rose;
    /// `Memory`.
    pub fn create<D: Disk>(disk: &mut D, alloc: Global) -> Result<Wal, WalError>
        ensures still { IsStill D.Disk disk.old disk.new }
        ensures ok { IfOk result (λ wal. (was : Image) → IsSettled D.Disk disk.old was → IsInStep D.Disk wal disk.new was × ((p : ℕ) → replay was p ≡ None)) }
        ensures fresh { IfOk result (λ wal. (wal_ended wal ≡ false) × (length_of wal ≡ 0) × (pending wal ≡ [])) }
        ensures refused { IfErr result (λ e. NoLogCreated D.Disk e disk.old disk.new) }
    {
        let found = match shut_of_none(disk, alloc) {
            Ok(found) => found,
            Err(error) => return Err(error),
        };
        let Some(shut) = found else {
            return Err(WalError::Exists);
        };
        let Ok(block) = Block::new(alloc) else {
            return Err(WalError::Memory);
        };
        Ok(Wal {
            places: BTreeMap::new(alloc),
            starts: Vec::new(alloc),
            waiting: Waiting::new(alloc),
            block,
            end: 0,
            shut,
            ended: false,
        })
    }

    /// As `open_to_read`, for a session that may commit: what it found it also gives to the disk once more,
    /// so that nothing is built on a byte that a failed sync lost while a read still gives it. That is the
    /// gate of the log's last group, else the log's first byte, where there is one. Contents and images stay.
    ///
    /// Errors: `NotAStore` exactly where page 0 is missing or doesn't begin with the eight bytes
    /// `NATIXST1`; `Disk`, only where `faults` rose; `Memory`.
    pub fn open<D: Disk>(disk: &mut D, alloc: Global) -> Result<Wal, WalError>
        ensures still { IsStill D.Disk disk.old disk.new }
        ensures ok { IfOk result (λ wal. (was : Image) → IsSettled D.Disk disk.old was → IsInStep D.Disk wal disk.new was × HasMark (replay was)) }
        ensures fresh { IfOk result (λ wal. (wal_ended wal ≡ false) × (pending wal ≡ [])) }
        ensures reads { IfSome (D.contents disk.old) (λ was. D.reads disk.new ≤ D.reads disk.old + (3 * (length was.log / entry_size + 1) + 1)) }
        ensures renewed { OnOk result (IsRenewed D.Disk disk.old disk.new) }
        ensures refused { IfErr result (λ e. NoLogOpened D.Disk e disk.old disk.new) }
    {
        let mut wal = match Wal::open_to_read(disk, alloc) {
            Ok(wal) => wal,
            Err(error) => return Err(error),
        };
        let Ok(_) = wal.renew(disk) else {
            return Err(WalError::Disk);
        };
        Ok(wal)
    }

    /// The log of a disk that has a store, for a session that only reads. Nothing is written.
    ///
    /// Errors: `NotAStore` exactly where page 0 is missing or doesn't begin with the eight bytes
    /// `NATIXST1`; `Disk`, only where `faults` rose; `Memory`.
    pub fn open_to_read<D: Disk>(disk: &mut D, alloc: Global) -> Result<Wal, WalError>
        ensures still { IsStill D.Disk disk.old disk.new }
        ensures ok { IfOk result (λ wal. (was : Image) → IsSettled D.Disk disk.old was → IsInStep D.Disk wal disk.new was × HasMark (replay was)) }
        ensures fresh { IfOk result (λ wal. (wal_ended wal ≡ false) × (pending wal ≡ [])) }
        ensures reads { IfSome (D.contents disk.old) (λ was. D.reads disk.new ≤ D.reads disk.old + (3 * (length was.log / entry_size + 1) + 1)) }
        ensures refused { IfErr result (λ e. NoLogOpened D.Disk e disk.old disk.new) }
    {
        let opened = match open_log(disk, alloc) {
            Ok(opened) => opened,
            Err(error) => return Err(error),
        };
        let Ok(block) = Block::new(alloc) else {
            return Err(WalError::Memory);
        };
        Ok(Wal {
            places: opened.places,
            starts: opened.starts,
            waiting: Waiting::new(alloc),
            block,
            end: opened.end.at,
            shut: opened.end.shut,
            ended: false,
        })
    }

    /// Gives the gate of the log's last group to the disk once more, else the log's first byte, where there
    /// is one. Contents and images stay. It takes no read, and no memory.
    ///
    /// Errors: `Disk`, only where `faults` rose; `Ended` exactly where an earlier call answered
    /// `Disk`.
    pub fn renew<D: Disk>(&mut self, disk: &mut D) -> Result<(), WalError>
        ensures still { IsStill D.Disk disk.old disk.new }
        ensures reads { D.reads disk.new ≡ D.reads disk.old }
        ensures ok { OnOk result ((self.new ≡ self.old) × (wal_ended self.old ≡ false)) }
        ensures renewed { OnOk result ((was : Image) (at : ℕ) → IsInStep D.Disk self.old disk.old was → last_gate was.log ≡ Some at → IsRenewedLast Log at (D.renewed disk.new)) }
        ensures refused { IfErr result (λ e. Refused D.Disk e self.old self.new disk.old disk.new) }
    {
        if self.ended {
            return Err(WalError::Ended);
        }
        let Ok(_) = renew_gate(disk, &self.starts) else {
            self.ended = true;
            return Err(WalError::Disk);
        };
        Ok(())
    }

    /// A page as the pending puts, else the log, else the pages area have it; `false` exactly where
    /// there is none, after which `into` may hold anything. It takes one read at most, none where the page
    /// waits, and no memory.
    ///
    /// Errors: `Disk`, only where `faults` rose; `Ended` exactly where an earlier call answered
    /// `Disk`.
    pub fn load<D: Disk>(
        &mut self,
        disk: &mut D,
        page: u32,
        into: &mut PageBytes,
    ) -> Result<bool, WalError>
        ensures still { IsStill D.Disk disk.old disk.new }
        ensures reads { D.reads disk.new ≤ D.reads disk.old + 1 }
        ensures waits { IsSome (entry_pages (pending self.old) page) → disk.new ≡ disk.old }
        ensures ok { IfOk result (λ found. (self.new ≡ self.old) × (wal_ended self.old ≡ false) × ((was : Image) → IsInStep D.Disk self.old disk.old was →
            current self.old was page ≡ page_found found into.new.bytes)) }
        ensures refused { IfErr result (λ e. Refused D.Disk e self.old self.new disk.old disk.new) }
    {
        if self.ended {
            return Err(WalError::Ended);
        }
        if let Some(bytes) = self.waiting.get(page) {
            *into = *bytes;
            return Ok(true);
        }
        let Ok(found) = read_page(disk, &self.places, page, into) else {
            self.ended = true;
            return Err(WalError::Disk);
        };
        Ok(found)
    }

    /// As `load`, but where there is no such page `into` stays.
    ///
    /// Errors: `Disk`, only where `faults` rose; `Ended` exactly where an earlier call answered
    /// `Disk`.
    pub fn page<D: Disk>(
        &mut self,
        disk: &mut D,
        page: u32,
        into: &mut PageBytes,
    ) -> Result<bool, WalError>
        ensures still { IsStill D.Disk disk.old disk.new }
        ensures reads { D.reads disk.new ≤ D.reads disk.old + 1 }
        ensures ok { IfOk result (λ found. (self.new ≡ self.old) × (wal_ended self.old ≡ false) × ((was : Image) → IsInStep D.Disk self.old disk.old was →
            current self.old was page ≡ page_found found into.new.bytes)) }
        ensures untouched { IfOk result (λ found. found ≡ false → into.new ≡ into.old) }
        ensures refused { IfErr result (λ e. Refused D.Disk e self.old self.new disk.old disk.new) }
    {
        let mut bytes = PageBytes {
            bytes: [0; PAGE_SIZE],
        };
        let found = self.load(disk, page, &mut bytes)?;
        if found {
            *into = bytes;
        }
        Ok(found)
    }

    /// The page that waits for a commit under this number, if one does.
    pub fn waiting(&self, page: u32) -> Option<&PageBytes>
        ensures { option_map (λ bytes. bytes.now.bytes) result ≡ entry_pages (pending self.now) page }
    {
        self.waiting.get(page)
    }

    /// Makes a page wait for a commit, in place of one that waits under the same number, which is
    /// below 16,777,216. It takes all the memory that the commit needs, and keeps that of a page for
    /// later ones.
    ///
    /// Errors: `Memory`; `Ended` exactly where an earlier call answered `Disk`. The pages that wait
    /// stay then.
    pub fn put(&mut self, page: u32, bytes: &PageBytes) -> Result<(), WalError>
        requires { page < most_pages }
        ensures follows { (log : List ℕ) → Follows self.old log → Follows self.new log }
        ensures pending { OnOk result (entry_pages (pending self.new) ≡ over (entry_pages (record { page = page; bytes = bytes.now.bytes } ∷ [])) (entry_pages (pending self.old))) }
        ensures some { OnOk result (pending self.new ≢ []) }
        ensures count { OnOk result (length (pending self.new) ≡ length (pending self.old) + (if is_some (entry_pages (pending self.old) page) then 0 else 1)) }
        ensures stays { (length_of self.new ≡ length_of self.old) × (wal_ended self.new ≡ wal_ended self.old) }
        ensures open { OnOk result (wal_ended self.old ≡ false) }
        ensures refused { IfErr result (λ e. (e ≡ WalError.Memory ⊎ (e ≡ WalError.Ended) × (wal_ended self.old ≡ true)) × (pending self.new ≡ pending self.old)) }
    {
        if self.ended {
            return Err(WalError::Ended);
        }
        if !make_place(&mut self.places, page) {
            return Err(WalError::Memory);
        }
        let Ok(_) = self.starts.reserve(1) else {
            return Err(WalError::Memory);
        };
        let Ok(()) = self.waiting.put(page, bytes) else {
            return Err(WalError::Memory);
        };
        Ok(())
    }

    /// Puts a record of 1 to 8,176 bytes into the page that waits for a commit under this number, in place:
    /// into its first empty slot, else into a new one. It answers which. It takes no memory.
    ///
    /// It answers none exactly where no page waits under the number, or one that isn't slotted or has no
    /// room for the record, or where an earlier call answered `Disk`. Nothing changes then.
    pub fn put_record(&mut self, page: u32, bytes: &[u8]) -> Option<u16>
        requires some { 1 ≤ length bytes.now }
        requires few { length bytes.now ≤ longest_record }
        ensures follows { (log : List ℕ) → Follows self.old log → Follows self.new log }
        ensures put { IfSome result (λ slot. PutsRecord page bytes.now slot self.old self.new) }
        ensures none { IfNone result ((self.new ≡ self.old) × (wal_ended self.old ≡ false → HasNoPageFor (entry_pages (pending self.old) page) bytes.now)) }
        ensures count { length (pending self.new) ≡ length (pending self.old) }
        ensures stays { (length_of self.new ≡ length_of self.old) × (wal_ended self.new ≡ wal_ended self.old) }
    {
        if self.ended {
            return None;
        }
        let Some(room) = self.waiting.room(page) else {
            return None;
        };
        if !room.takes(bytes.len()) {
            return None;
        }
        let slot = self.waiting.put_record(page, room, bytes);
        Some(slot)
    }

    /// Takes the record of a slot out of the page that waits for a commit under this number, in place, where the
    /// page has another record. It answers whether it did, and takes no memory.
    ///
    /// It answers `false` exactly where no page waits under the number, or one that isn't slotted, has no record in
    /// the slot or none besides, or where an earlier call answered `Disk`. Nothing changes then.
    pub fn clear_record(&mut self, page: u32, slot: u16) -> bool
        ensures follows { (log : List ℕ) → Follows self.old log → Follows self.new log }
        ensures cleared { result ≡ true → ClearsRecord page slot self.old self.new }
        ensures none { result ≡ false → (self.new ≡ self.old) × (wal_ended self.old ≡ false → HasNoneBeside (entry_pages (pending self.old) page) slot) }
        ensures count { length (pending self.new) ≡ length (pending self.old) }
        ensures stays { (length_of self.new ≡ length_of self.old) × (wal_ended self.new ≡ wal_ended self.old) }
    {
        if self.ended {
            return false;
        }
        if !self.waiting.has_beside(page, slot) {
            return false;
        }
        self.waiting.clear_record(page, slot);
        true
    }

    /// Writes the pages that wait as a group with this number at the log's end. At every moment the
    /// disk stands for the pages before or for those after, and after Ok for those after, with one
    /// group more in its log. Both files stay such as this program leaves them. It takes no memory.
    ///
    /// Errors: `Disk`, only where `faults` rose; `Ended` exactly where an earlier call answered
    /// `Disk`.
    pub fn commit<D: Disk>(&mut self, disk: &mut D, number: u64) -> Result<(), WalError>
        requires some { pending self.old ≢ [] }
        requires room { length_of self.old ≤ 2 ^ 62 }
        ensures goes { WritesAlone D.Disk disk.old disk.new (λ i. (was : Image) → IsInStep D.Disk self.old disk.old was → HasSame was i ⊎ HasGroup (next_group number self.old) was i) }
        ensures own { WritesAlone D.Disk disk.old disk.new (λ i. (was : Image) → IsInStep D.Disk self.old disk.old was → IsOwn was → BeginsWithGate i.log → IsOwn i) }
        ensures ok { OnOk result ((was now : Image) → IsInStep D.Disk self.old disk.old was → D.contents disk.new ≡ Some now →
            IsInStep D.Disk self.new disk.new now × HasGroup (next_group number self.old) was now) }
        ensures none_left { OnOk result ((pending self.new ≡ []) × (wal_ended self.old ≡ false) × (wal_ended self.new ≡ false)) }
        ensures length { OnOk result (length_of self.new ≡ length_of self.old + group_size (length (pending self.old))) }
        ensures reads { D.reads disk.new ≡ D.reads disk.old }
        ensures refused { IfErr result (λ e. Refused D.Disk e self.old self.new disk.old disk.new) }
    {
        if self.ended {
            return Err(WalError::Ended);
        }
        let count = self.waiting.pages.len() as u64;
        let Ok(_) = write_group(
            disk,
            &mut self.block,
            self.end,
            self.shut,
            number,
            &self.waiting.pages,
        ) else {
            self.ended = true;
            return Err(WalError::Disk);
        };
        set_places(&mut self.places, &self.waiting.pages, self.end + 13);
        let Ok(_) = self.starts.push(self.end) else {
            unreachable!()
        };
        self.waiting.clear();
        self.end += 13 + ENTRY_SIZE as u64 * count;
        self.shut = true;
        Ok(())
    }

    /// Drops the pages that wait for a commit. It takes no memory.
    pub fn abandon(&mut self)
        ensures follows { (log : List ℕ) → Follows self.old log → Follows self.new log }
        ensures none_left { pending self.new ≡ [] }
        ensures stays { (length_of self.new ≡ length_of self.old) × (wal_ended self.new ≡ wal_ended self.old) }
    {
        self.waiting.clear();
    }

    /// Writes the pages of the log to the pages area, in the order of their numbers, and empties the
    /// log. At every moment each page that the disk stands for stays, and none is added where none
    /// is missing below the greatest. A log without groups is left alone, and the disk with it. Both
    /// files stay such as this program leaves them. It takes no memory.
    ///
    /// Errors: `Disk`, only where `faults` rose; `Ended` exactly where an earlier call answered
    /// `Disk`.
    pub fn checkpoint<D: Disk>(&mut self, disk: &mut D) -> Result<(), WalError>
        requires none { pending self.old ≡ [] }
        ensures goes { WritesAlone D.Disk disk.old disk.new (λ i. (was : Image) → IsInStep D.Disk self.old disk.old was → Stays (replay was) (replay i)) }
        ensures own { WritesAlone D.Disk disk.old disk.new (λ i. (was : Image) → IsInStep D.Disk self.old disk.old was → IsOwn was → BeginsWithGate i.log → IsOwn i) }
        ensures ok { OnOk result ((was now : Image) → IsInStep D.Disk self.old disk.old was → D.contents disk.new ≡ Some now →
            IsInStep D.Disk self.new disk.new now × Stays (replay was) (replay now) × (groups now.log ≡ [])) }
        ensures empty { OnOk result ((length_of self.new ≡ 0) × (pending self.new ≡ []) × (wal_ended self.old ≡ false) × (wal_ended self.new ≡ false)) }
        ensures nothing { length_of self.old ≡ 0 → (self.new ≡ self.old) × (disk.new ≡ disk.old) }
        ensures refused { IfErr result (λ e. Refused D.Disk e self.old self.new disk.old disk.new) }
    {
        if self.ended {
            return Err(WalError::Ended);
        }
        if self.end == 0 {
            return Ok(());
        }
        let Ok(_) = empty_log(disk, &self.places) else {
            self.ended = true;
            return Err(WalError::Disk);
        };
        self.places.clear();
        self.starts.clear();
        self.end = 0;
        self.shut = true;
        Ok(())
    }

    /// How many groups the log has. It takes no read, and no memory.
    pub fn groups(&self) -> u64
        ensures value { result ≡ group_count self.now }
        ensures count { (log : List ℕ) → Follows self.now log → result ≡ length (groups log) }
    {
        self.starts.len() as u64
    }

    /// The group of the log with this index, below `groups`. It reads that group alone: its head, and each
    /// of its pages.
    ///
    /// Errors: `Disk`, only where `faults` rose; `Ended` exactly where an earlier call answered
    /// `Disk`; `Memory`. Nothing changes where it is `Memory`.
    pub fn group<D: Disk>(&mut self, disk: &mut D, index: u64) -> Result<Group, WalError>
        requires { index < group_count self.old }
        ensures still { IsStill D.Disk disk.old disk.new }
        ensures reads { (was : Image) → IsInStep D.Disk self.old disk.old was → (g : LogGroup) → slice_get (groups was.log) index ≡ Some g → D.reads disk.new ≤ D.reads disk.old + 1 + length g.entries }
        ensures ok { IfOk result (λ group. (self.new ≡ self.old) × (wal_ended self.old ≡ false) × ((was : Image) → IsInStep D.Disk self.old disk.old was →
            slice_get (groups was.log) index ≡ Some (logged_as group))) }
        ensures refused { IfErr result (λ e. NoGroupRead D.Disk e self.old self.new disk.old disk.new) }
    {
        if self.ended {
            return Err(WalError::Ended);
        }
        let at = self.starts[index as usize];
        match read_group(disk, at, self.waiting.alloc) {
            Ok(group) => Ok(group),
            Err(WalError::Disk) => {
                self.ended = true;
                Err(WalError::Disk)
            }
            Err(_) => Err(WalError::Memory),
        }
    }

    /// The number of the group of the log with this index, below `groups`, and how many pages it has.
    ///
    /// Errors: `Disk`, only where `faults` rose; `Ended` exactly where an earlier call answered
    /// `Disk`.
    pub fn group_head<D: Disk>(&mut self, disk: &mut D, index: u64) -> Result<GroupHead, WalError>
        requires { index < group_count self.old }
        ensures still { IsStill D.Disk disk.old disk.new }
        ensures reads { D.reads disk.new ≤ D.reads disk.old + 1 }
        ensures ok { IfOk result (λ head. (self.new ≡ self.old) × (wal_ended self.old ≡ false)
            × ((was : Image) → IsInStep D.Disk self.old disk.old was → (g : LogGroup) → slice_get (groups was.log) index ≡ Some g → IsHeadFor g head)) }
        ensures refused { IfErr result (λ e. Refused D.Disk e self.old self.new disk.old disk.new) }
    {
        if self.ended {
            return Err(WalError::Ended);
        }
        let Ok(head) = read_group_head(disk, self.starts[index as usize]) else {
            self.ended = true;
            return Err(WalError::Disk);
        };
        Ok(head)
    }

    /// Pages of the group of the log with this index, below `groups`, as they stand there, each behind its
    /// number in four bytes: from the page with the index `first` in the group on, as many as there is room
    /// for. The room is a multiple of `ENTRY_SIZE`, and the group has as many pages; else the bytes are any.
    ///
    /// Errors: `Disk`, only where `faults` rose; `Ended` exactly where an earlier call answered
    /// `Disk`. The bytes are any then.
    pub fn group_part<D: Disk>(
        &mut self,
        disk: &mut D,
        index: u64,
        first: u32,
        into: &mut [u8],
    ) -> Result<(), WalError>
        requires { index < group_count self.old }
        ensures still { IsStill D.Disk disk.old disk.new }
        ensures reads { D.reads disk.new ≤ D.reads disk.old + 1 }
        ensures ok { OnOk result ((self.new ≡ self.old) × (wal_ended self.old ≡ false)
            × ((was : Image) → IsInStep D.Disk self.old disk.old was → (g : LogGroup) → slice_get (groups was.log) index ≡ Some g → ArePagesOf g first (length into.old) into.new)) }
        ensures refused { IfErr result (λ e. Refused D.Disk e self.old self.new disk.old disk.new) }
    {
        if self.ended {
            return Err(WalError::Ended);
        }
        let Ok(_) = read_part(disk, self.starts[index as usize], first, into) else {
            self.ended = true;
            return Err(WalError::Disk);
        };
        Ok(())
    }

    /// Where the log ends: how many bytes its groups take, their gates counted, but for the gate
    /// behind the last one.
    pub fn log_length(&self) -> u64
        ensures { result ≡ length_of self.now }
    {
        self.end
    }

    /// One more than the number of the greatest page that the disk stands for, 0 where there is
    /// none. It takes no read, and no memory.
    ///
    /// Errors: `Disk`, only where `faults` rose; `Ended` exactly where an earlier call answered
    /// `Disk`.
    pub fn page_count<D: Disk>(&mut self, disk: &mut D) -> Result<u32, WalError>
        ensures still { IsStill D.Disk disk.old disk.new }
        ensures reads { D.reads disk.new ≡ D.reads disk.old }
        ensures ok { IfOk result (λ count. (self.new ≡ self.old) × (wal_ended self.old ≡ false)
            × ((was : Image) → IsInStep D.Disk self.old disk.old was → IsPageCount count (replay was))) }
        ensures refused { IfErr result (λ e. Refused D.Disk e self.old self.new disk.old disk.new) }
    {
        if self.ended {
            return Err(WalError::Ended);
        }
        let Ok(count) = area_count(disk) else {
            self.ended = true;
            return Err(WalError::Disk);
        };
        Ok(count.max(logged_count(&self.places)))
    }

    /// The first page below this number that no group of the log has, where the pages area has no page; none
    /// where that has one, or the log has each. It takes no read, and no memory, and looks at no page of the
    /// log where the pages area has one.
    ///
    /// Errors: `Disk`, only where `faults` rose; `Ended` exactly where an earlier call answered
    /// `Disk`.
    pub fn first_lost<D: Disk>(&mut self, disk: &mut D, below: u32) -> Result<Option<u32>, WalError>
        ensures still { IsStill D.Disk disk.old disk.new }
        ensures reads { D.reads disk.new ≡ D.reads disk.old }
        ensures ok { IfOk result (λ lost. (self.new ≡ self.old) × (wal_ended self.old ≡ false)
            × ((was : Image) → IsInStep D.Disk self.old disk.old was → Loses lost below was)) }
        ensures refused { IfErr result (λ e. Refused D.Disk e self.old self.new disk.old disk.new) }
    {
        if self.ended {
            return Err(WalError::Ended);
        }
        let Ok(count) = area_count(disk) else {
            self.ended = true;
            return Err(WalError::Disk);
        };
        if count > 0 {
            return Ok(None);
        }
        Ok(first_unplaced(&self.places, below))
    }
}
