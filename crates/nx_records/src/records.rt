// Records, byte lists and a catalog over pages under a log.
ghost use Rattle.std.specs.Prelude.{List as Items, ◌≡◌, ◌≢◌, ◌⊎◌, ◌+◌, ◌*◌, ◌/◌, ◌^◌, ◌<◌, ◌≤◌, [], ℕ, length, true, false, Some, None, IsSome, IfOk, IfErr, IfSome, OnOk};
ghost use Rattle.std.proofs.Props.{props};
ghost use Rattle.nx_numbers.specs.Sizes.{entry_size, longest_record};
ghost use Rattle.nx_host.specs.Disk.{Image, IsRenewedLast};
ghost use Rattle.nx_host.specs.declared.disk.Area.TheVariants.{Log};
ghost use Rattle.nx_host.specs.Still.{IsStill, IsSettled, WritesAlone};
ghost use Rattle.nx_replay.specs.Log.{entry_pages, groups, replay, group_size, Stays, HasSame, HasGroup};
ghost use Rattle.nx_wal.specs.Wal.{pending, next_group, wal_ended};
ghost use Rattle.nx_wal.specs.Renewing.{IsRenewed, last_gate};
ghost use Rattle.nx_holdings.specs.Header.{AreSettings, IsInRange, header_bytes, newest_format};
ghost use Rattle.nx_holdings.specs.Holdings.{Held, Holds};
ghost use Rattle.nx_records.specs.Numbering.{IsNextHeader};

use crate::StoreError;
use crate::first::{first_header, put_first};
use crate::pages::Spare;
use nx_holdings::{Header, Settings, read_header};
use nx_host::Disk;
use nx_lists::List;
use nx_numbers::PAGE_SIZE;
use nx_slots::{PageBytes, read_in};
use nx_wal::{Wal, WalError};
use std::alloc::Global;
use std::cell::Cell;

/// The place of a record.
#[derive(Clone, Copy, Debug, PartialEq, Eq)]
pub struct Rid {
    /// The number of a slotted page.
    pub page: u32,
    /// A slot of it.
    pub slot: u16,
}

/// Records at places, byte lists at first pages, and a catalog, over the pages of a disk.
///
/// Of the pages it keeps those alone that were changed since the last commit. It stands for the disk
/// that the last call was handed, as that call left it.
#[derive(Drop)]
pub struct Records {
    pub(crate) wal: Wal,
    // The header of the last commit, and that of the next one.
    pub(crate) saved: Header,
    pub(crate) head: Header,
    // The header whose page waits for a commit, where it is known.
    pub(crate) waiting_head: Option<Header>,
    // The pages on which the catalog stands, in their order; none where they aren't known.
    pub(crate) catalog_pages: List<u32>,
    pub(crate) ended: bool,
    // Room for a page that is read, whatever stands there, and the slots of one that was.
    pub(crate) spare: Cell<Option<Box<Spare>>>,
    pub(crate) alloc: Global,
    ghost saved_range: { IsInRange saved } by { Prim.hlevel props },
    ghost head_range: { IsInRange head } by { Prim.hlevel props },
    ghost numbered: { pending wal ≢ [] → IsNextHeader saved head } by { Prim.hlevel props },
    ghost header_waits: { IfSome waiting_head (λ h. entry_pages (pending wal) 0 ≡ Some (header_bytes h)) } by { Prim.hlevel props },
    ghost runs: { ended ≡ false → wal_ended wal ≡ false } by { Prim.hlevel props },
}

impl Records {
    ghost use Rattle.nx_records.specs.Records.{HasSaved, StandsFor, KeepsSaved, KeepsLog, LeavesRecords, FollowsOn, ComesTo, HasChanges, HasNoChanges, HasHeader, IsInStepWith, PutsChangedAlone, current_pages, has_ended, has_free, settings_of, format_of, log_length_of, last_number, next_number};
    ghost use Rattle.nx_records.specs.Changes.{nothing_held, AddsRecord, UpdatesRecord, RemovesRecord, update_needs};
    ghost use Rattle.nx_records.specs.Room.{FitsRoom, HasRoomFor, TakesNoPage};
    ghost use Rattle.nx_records.specs.Refusals.{IsNewStore, NotRead, NotChanged, NotStored, NotWritten, NotCreated, NoRecordsOpened, HasLostNone, RunsOn};

    /// A store on a disk that has no pages, committed: with these settings, and without records,
    /// lists, and documents in its catalog. The settings are in range: K from 1 to 256, a target of at
    /// most 100, a tolerance of at most 256, and a limit from 64 to 16,777,216 pages.
    ///
    /// Errors: `Exists` exactly where the disk has a page; `Disk`, only where `faults` rose;
    /// `Memory`.
    pub fn create<D: Disk>(
        alloc: Global,
        disk: &mut D,
        settings: Settings,
    ) -> Result<Records, StoreError>
        requires { AreSettings settings }
        ensures goes { WritesAlone D.Disk disk.old disk.new (λ i. (was : Image) → IsSettled D.Disk disk.old was → HasSame was i ⊎ IsNewStore settings was i) }
        ensures ok { IfOk result (λ records. (was now : Image) → IsSettled D.Disk disk.old was → D.contents disk.new ≡ Some now →
            StandsFor D.Disk records disk.new (nothing_held settings) (nothing_held settings) × IsInStepWith D.Disk records disk.new now × IsNewStore settings was now) }
        ensures fresh { IfOk result (λ records. (has_ended records ≡ false) × HasNoChanges records × (settings_of records ≡ settings)) }
        ensures number { IfOk result (λ records. last_number records ≡ 0) }
        ensures format { IfOk result (λ records. format_of records ≡ newest_format) }
        ensures refused { IfErr result (λ e. NotCreated D.Disk e disk.old disk.new) }
    {
        let mut wal = match Wal::create(disk, alloc) {
            Ok(wal) => wal,
            Err(WalError::Exists) => return Err(StoreError::Exists),
            Err(WalError::Disk) => return Err(StoreError::Disk),
            Err(_) => return Err(StoreError::Memory),
        };
        let header = first_header(settings);
        put_first(&mut wal, &header)?;
        let Ok(_) = wal.commit(disk, 0) else {
            return Err(StoreError::Disk);
        };
        Ok(Records {
            wal,
            saved: header,
            head: header,
            waiting_head: None,
            catalog_pages: List::new(alloc),
            ended: false,
            spare: Cell::new(None),
            alloc,
        })
    }

    /// As `open_to_read`, for a session that may commit: it renews what `Wal::open` renews, before anything is
    /// built on it.
    ///
    /// Errors: as `open_to_read`.
    pub fn open<D: Disk>(alloc: Global, disk: &mut D) -> Result<Records, StoreError>
        ensures still { IsStill D.Disk disk.old disk.new }
        ensures ok { IfOk result (λ records. (was : Image) (held : Held) → IsSettled D.Disk disk.old was → Holds (replay was) held → StandsFor D.Disk records disk.new held held) }
        ensures step { IfOk result (λ records. (was : Image) → IsSettled D.Disk disk.old was → IsInStepWith D.Disk records disk.new was × HasHeader was) }
        ensures header { IfOk result (λ records. (was : Image) → IsSettled D.Disk disk.old was → replay was 0 ≡ Some (header_bytes records.saved)) }
        ensures fresh { IfOk result (λ records. (has_ended records ≡ false) × HasNoChanges records) }
        ensures reads { IfSome (D.contents disk.old) (λ was. D.reads disk.new ≤ D.reads disk.old + (3 * (length was.log / entry_size + 1) + 2)) }
        ensures whole { IfOk result (λ records. (was : Image) → IsSettled D.Disk disk.old was → HasLostNone was) }
        ensures renewed { OnOk result (IsRenewed D.Disk disk.old disk.new) }
        ensures refused { IfErr result (λ e. NoRecordsOpened D.Disk e disk.old disk.new) }
    {
        let mut records = match Records::open_to_read(alloc, disk) {
            Ok(records) => records,
            Err(error) => return Err(error),
        };
        let Ok(_) = records.renew(disk) else {
            return Err(StoreError::Disk);
        };
        Ok(records)
    }

    /// Gives the gate of the log's last group to the disk once more, else the log's first byte, where there is
    /// one. It takes no read, and no memory.
    ///
    /// Errors: `Disk`, only where `faults` rose; `Ended` exactly where the records had ended.
    pub fn renew<D: Disk>(&mut self, disk: &mut D) -> Result<(), StoreError>
        ensures still { IsStill D.Disk disk.old disk.new }
        ensures reads { D.reads disk.new ≡ D.reads disk.old }
        ensures ok { OnOk result ((self.new ≡ self.old) × (has_ended self.old ≡ false)) }
        ensures renewed { OnOk result ((was : Image) (at : ℕ) → IsInStepWith D.Disk self.old disk.old was → last_gate was.log ≡ Some at → IsRenewedLast Log at (D.renewed disk.new)) }
        ensures refused { IfErr result (λ e. NotWritten D.Disk e self.old self.new disk.old disk.new) }
    {
        if self.ended {
            return Err(StoreError::Ended);
        }
        let Ok(_) = self.wal.renew(disk) else {
            self.ended = true;
            return Err(StoreError::Disk);
        };
        Ok(())
    }

    /// The records of a disk that has a store, for a session that only reads. It reads the log by its heads and
    /// page numbers, and one page. Nothing is written. Where the pages area has no page, a group of the log has to have each
    /// page below the header's number: a pages area that went isn't taken for one that was never written.
    ///
    /// Errors: `NotAStore` exactly where page 0 is missing or doesn't begin with the eight bytes
    /// `NATIXST1`; `Damaged`, only where the pages aren't sound: with page 0 where that is no header, else
    /// with the first page below the header's number that no group of the log has, where the pages area has
    /// none; `Disk`, only where `faults` rose; `Memory`.
    pub fn open_to_read<D: Disk>(alloc: Global, disk: &mut D) -> Result<Records, StoreError>
        ensures still { IsStill D.Disk disk.old disk.new }
        ensures ok { IfOk result (λ records. (was : Image) (held : Held) → IsSettled D.Disk disk.old was → Holds (replay was) held → StandsFor D.Disk records disk.new held held) }
        ensures step { IfOk result (λ records. (was : Image) → IsSettled D.Disk disk.old was → IsInStepWith D.Disk records disk.new was × HasHeader was) }
        ensures header { IfOk result (λ records. (was : Image) → IsSettled D.Disk disk.old was → replay was 0 ≡ Some (header_bytes records.saved)) }
        ensures whole { IfOk result (λ records. (was : Image) → IsSettled D.Disk disk.old was → HasLostNone was) }
        ensures fresh { IfOk result (λ records. (has_ended records ≡ false) × HasNoChanges records) }
        ensures reads { IfSome (D.contents disk.old) (λ was. D.reads disk.new ≤ D.reads disk.old + (3 * (length was.log / entry_size + 1) + 2)) }
        ensures refused { IfErr result (λ e. NoRecordsOpened D.Disk e disk.old disk.new) }
    {
        let mut wal = match Wal::open_to_read(disk, alloc) {
            Ok(wal) => wal,
            Err(WalError::NotAStore) => return Err(StoreError::NotAStore),
            Err(WalError::Disk) => return Err(StoreError::Disk),
            Err(_) => return Err(StoreError::Memory),
        };
        let mut page = PageBytes {
            bytes: [0; PAGE_SIZE],
        };
        let Ok(found) = wal.page(disk, 0, &mut page) else {
            return Err(StoreError::Disk);
        };
        if !found {
            return Err(StoreError::Damaged { page: 0 });
        }
        let Some(header) = read_header(&page) else {
            return Err(StoreError::Damaged { page: 0 });
        };
        let Ok(lost) = wal.first_lost(disk, header.pages) else {
            return Err(StoreError::Disk);
        };
        if let Some(page) = lost {
            return Err(StoreError::Damaged { page });
        }
        Ok(Records {
            wal,
            saved: header,
            head: header,
            waiting_head: None,
            catalog_pages: List::new(alloc),
            ended: false,
            spare: Cell::new(None),
            alloc,
        })
    }

    /// What the store was set to when it was made. It takes no memory.
    pub fn settings(&self) -> Settings
        ensures { result ≡ settings_of self.now }
    {
        self.head.settings
    }

    /// The format that the last commit's header says. Each commit writes the newest one, also where the
    /// store was of an older. It takes no memory.
    pub fn format(&self) -> u16
        ensures { result ≡ format_of self.now }
    {
        self.saved.format
    }

    /// Whether a page is free: one of the free list, or one that was never used. The header alone
    /// tells. It takes no memory.
    pub fn has_free_page(&self) -> bool
        ensures { result ≡ has_free self.now }
    {
        self.head.free != 0 || self.head.pages < self.head.settings.limit
    }

    /// The length of the log: how many bytes its groups take. It takes no memory.
    pub fn log_length(&self) -> u64
        ensures { result ≡ log_length_of self.now }
    {
        self.wal.log_length()
    }

    /// Whether the records have ended, so that each later call that needs the disk answers `Ended`. It
    /// takes no memory.
    pub fn is_ended(&self) -> bool
        ensures { result ≡ has_ended self.now }
    {
        self.ended
    }

    /// Ends the records: each later call that answers a `Result` answers `Ended`; the others go on. A
    /// layer above calls it where it answers `Damaged` by itself. It takes no memory.
    pub fn end(&mut self)
        ensures { (has_ended self.new ≡ true) × (self.new.wal ≡ self.old.wal) × (self.new.saved ≡ self.old.saved) × (self.new.head ≡ self.old.head) }
    {
        self.ended = true;
    }

    /// The record at a place. It reads one page at most, and none where that waits for a commit.
    ///
    /// Errors: `Damaged` with the place's page, only where the pages aren't sound or no record is
    /// there; `Disk`, only where `faults` rose; `Ended` exactly where the records had ended;
    /// `Memory`.
    pub fn read<D: Disk>(
        &mut self,
        alloc: Global,
        disk: &mut D,
        rid: Rid,
    ) -> Result<List<u8>, StoreError>
        ensures still { IsStill D.Disk disk.old disk.new }
        ensures reads { D.reads disk.new ≤ D.reads disk.old + 1 }
        ensures waits { IsSome (entry_pages (pending self.old.wal) rid.page) → disk.new ≡ disk.old }
        ensures ok { IfOk result (λ bytes. (has_ended self.old ≡ false) × LeavesRecords self.old self.new
            × ((saved now : Held) → StandsFor D.Disk self.old disk.old saved now → now.records rid.page rid.slot ≡ Some bytes)) }
        ensures refused { IfErr result (λ e. NotRead D.Disk (λ now. now.records rid.page rid.slot ≡ None) rid.page e self.old self.new disk.old disk.new) }
    {
        if self.ended {
            return Err(StoreError::Ended);
        }
        if rid.page >= self.head.pages {
            return Err(self.damaged(rid.page));
        }
        match self.record_at(alloc, disk, rid)? {
            Some(bytes) => Ok(bytes),
            None => Err(self.damaged(rid.page)),
        }
    }

    /// Adds a record of 1 to 8,176 bytes, and answers its place. One that fits on the room page takes no
    /// other page. `Memory` is told only where it fits there or a page is free.
    ///
    /// Errors: `Full`, over sound pages only where no page was free; `Damaged` with page 0, only
    /// where the pages aren't sound; `Disk`, only where `faults` rose; `Ended` exactly where the
    /// records had ended; `Memory`. After `Full` and `Memory` the caller calls `abandon`.
    pub fn add<D: Disk>(&mut self, disk: &mut D, bytes: &[u8]) -> Result<Rid, StoreError>
        requires some { 1 ≤ length bytes.now }
        requires few { length bytes.now ≤ longest_record }
        ensures still { IsStill D.Disk disk.old disk.new }
        ensures ok { IfOk result (λ rid. ComesTo D.Disk self.old self.new disk.old disk.new (λ was now. AddsRecord rid.page rid.slot bytes.now was now)) }
        ensures keeps { IfOk result (λ rid. RunsOn self.old self.new × KeepsSaved D.Disk self.old self.new disk.old disk.new × HasChanges self.new) }
        ensures room { IfOk result (λ rid. (was : Image) → IsInStepWith D.Disk self.old disk.old was → FitsRoom (current_pages self.old was) self.old.head bytes.now → TakesNoPage self.old self.new) }
        ensures refused { IfErr result (λ e. NotStored D.Disk (λ was. 1) (λ was. ⊥) 0 e self.old self.new disk.old disk.new) }
        ensures memory { IfErr result (λ e. e ≡ StoreError.Memory → (was : Image) → IsInStepWith D.Disk self.old disk.old was → HasRoomFor self.old (current_pages self.old was) bytes.now) }
    {
        if self.ended {
            return Err(StoreError::Ended);
        }
        let rid = self.place(disk, bytes, 0)?;
        self.store_header()?;
        Ok(rid)
    }

    /// Puts 1 to 8,176 bytes in the place of a record, and answers its place, which is another where
    /// they don't fit there. Where they are the same its page isn't put.
    ///
    /// Errors: `Full`, over sound pages only where the bytes are longer than the old ones and no page
    /// was free; `Damaged` with the place's page, only where the pages aren't sound or no record is
    /// there; `Disk`, only where `faults` rose; `Ended` exactly where the records had ended;
    /// `Memory`. After `Full` and `Memory` the caller calls `abandon`.
    pub fn update<D: Disk>(
        &mut self,
        disk: &mut D,
        rid: Rid,
        bytes: &[u8],
    ) -> Result<Rid, StoreError>
        requires some { 1 ≤ length bytes.now }
        requires few { length bytes.now ≤ longest_record }
        ensures still { IsStill D.Disk disk.old disk.new }
        ensures ok { IfOk result (λ place. ComesTo D.Disk self.old self.new disk.old disk.new (λ was now. UpdatesRecord rid.page rid.slot bytes.now place.page place.slot was now)) }
        ensures alone { IfOk result (λ place. (saved now : Held) (stands : StandsFor D.Disk self.old disk.old saved now) → now.records rid.page rid.slot ≡ Some bytes.now → PutsChangedAlone self.old self.new (stands.keeps).image) }
        ensures keeps { IfOk result (λ place. RunsOn self.old self.new × KeepsSaved D.Disk self.old self.new disk.old disk.new × HasChanges self.new) }
        ensures refused { IfErr result (λ e. NotStored D.Disk (update_needs rid.page rid.slot bytes.now) (λ was. was.records rid.page rid.slot ≡ None) rid.page e self.old self.new disk.old disk.new) }
    {
        if self.ended {
            return Err(StoreError::Ended);
        }
        let Some(mut spare) = self.take_spare(self.alloc) else {
            return Err(StoreError::Memory);
        };
        let room = &mut spare.page;
        self.load_slotted(disk, rid.page, rid.page, room)?;
        let Some(_) = read_in(room, rid.slot) else {
            return Err(self.damaged(rid.page));
        };
        let place = self.replace(disk, room, rid, bytes)?;
        self.give_spare(spare);
        self.store_header()?;
        Ok(place)
    }

    /// Takes the record of a place away.
    ///
    /// Errors: `Damaged` with the place's page, only where the pages aren't sound or no record is
    /// there; `Disk`, only where `faults` rose; `Ended` exactly where the records had ended;
    /// `Memory`, after which the caller calls `abandon`.
    pub fn remove<D: Disk>(&mut self, disk: &mut D, rid: Rid) -> Result<(), StoreError>
        ensures still { IsStill D.Disk disk.old disk.new }
        ensures ok { OnOk result (ComesTo D.Disk self.old self.new disk.old disk.new (λ was now. RemovesRecord rid.page rid.slot was now)) }
        ensures keeps { OnOk result (RunsOn self.old self.new × KeepsSaved D.Disk self.old self.new disk.old disk.new × HasChanges self.new) }
        ensures refused { IfErr result (λ e. NotChanged D.Disk (λ was. was.records rid.page rid.slot ≡ None) rid.page e self.old self.new disk.old disk.new) }
    {
        if self.ended {
            return Err(StoreError::Ended);
        }
        if self.clear_waiting(disk, rid) {
            return self.store_header();
        }
        self.remove_loaded(disk, rid)
    }

    /// Commits what was changed. Something was, since the last commit or `abandon`, and the log has at
    /// most 2^62 bytes. At every moment the disk holds what it held after the last commit, or what is
    /// held now, and after Ok the latter, with one group more in its log, and the header has the newest
    /// format. It takes no memory.
    ///
    /// Errors: `Disk`, only where `faults` rose; `Ended` exactly where the records had ended.
    pub fn commit<D: Disk>(&mut self, disk: &mut D) -> Result<(), StoreError>
        requires changed { HasChanges self.old }
        requires room { log_length_of self.old ≤ 2 ^ 62 }
        ensures goes { WritesAlone D.Disk disk.old disk.new (λ i. (saved now : Held) → StandsFor D.Disk self.old disk.old saved now → Holds (replay i) saved ⊎ Holds (replay i) now) }
        ensures groups_go { WritesAlone D.Disk disk.old disk.new (λ i. (was : Image) → IsInStepWith D.Disk self.old disk.old was → HasSame was i ⊎ HasGroup (next_group (next_number self.old) self.old.wal) was i) }
        ensures ok { OnOk result ((saved now : Held) (image : Image) → StandsFor D.Disk self.old disk.old saved now → D.contents disk.new ≡ Some image → StandsFor D.Disk self.new disk.new now now) }
        ensures group { OnOk result ((was now : Image) → IsInStepWith D.Disk self.old disk.old was → D.contents disk.new ≡ Some now → HasGroup (next_group (next_number self.old) self.old.wal) was now) }
        ensures step { OnOk result ((was now : Image) → IsInStepWith D.Disk self.old disk.old was → D.contents disk.new ≡ Some now → IsInStepWith D.Disk self.new disk.new now) }
        ensures none_left { OnOk result ((has_ended self.old ≡ false) × (has_ended self.new ≡ false) × HasNoChanges self.new) }
        ensures header { OnOk result ((self.new.saved ≡ self.old.head) × (self.new.head ≡ self.old.head) × (last_number self.new ≡ next_number self.old)) }
        ensures format { OnOk result (format_of self.new ≡ newest_format) }
        ensures length { OnOk result (log_length_of self.new ≡ log_length_of self.old + group_size (length (pending self.old.wal))) }
        ensures reads { D.reads disk.new ≡ D.reads disk.old }
        ensures refused { IfErr result (λ e. NotWritten D.Disk e self.old self.new disk.old disk.new) }
    {
        if self.ended {
            return Err(StoreError::Ended);
        }
        self.waiting_head = None;
        let Ok(_) = self.wal.commit(disk, self.head.number) else {
            self.ended = true;
            return Err(StoreError::Disk);
        };
        self.saved = self.head;
        Ok(())
    }

    /// Drops what was changed since the last commit. It takes no memory.
    pub fn abandon(&mut self)
        ensures follows { FollowsOn self.old self.new }
        ensures none_left { HasNoChanges self.new }
        ensures saved { (self.new.saved ≡ self.old.saved) × (self.new.head ≡ self.old.saved) }
        ensures forgets { self.new.catalog_pages ≡ [] }
        ensures stays { (has_ended self.new ≡ has_ended self.old) × (log_length_of self.new ≡ log_length_of self.old) }
    {
        self.waiting_head = None;
        self.wal.abandon();
        self.head = self.saved;
        self.catalog_pages.clear();
    }

    /// Moves the pages of the log to the pages area, and empties the log. Nothing was changed since the
    /// last commit or `abandon`. At every moment the disk holds the same. Where the log has no group nothing
    /// is done. It takes no memory.
    ///
    /// Errors: `Disk`, only where `faults` rose; `Ended` exactly where the records had ended.
    pub fn checkpoint<D: Disk>(&mut self, disk: &mut D) -> Result<(), StoreError>
        requires none { HasNoChanges self.old }
        ensures goes { WritesAlone D.Disk disk.old disk.new (λ i. (saved : Held) → HasSaved D.Disk self.old disk.old saved → Holds (replay i) saved) }
        ensures ok { OnOk result ((saved now : Held) (image : Image) → StandsFor D.Disk self.old disk.old saved now → D.contents disk.new ≡ Some image → StandsFor D.Disk self.new disk.new saved now) }
        ensures step { OnOk result ((was now : Image) → IsInStepWith D.Disk self.old disk.old was → D.contents disk.new ≡ Some now → IsInStepWith D.Disk self.new disk.new now × Stays (replay was) (replay now)) }
        ensures nothing { log_length_of self.old ≡ 0 → LeavesRecords self.old self.new × (disk.new ≡ disk.old) }
        ensures stays { WritesAlone D.Disk disk.old disk.new (λ i. (was : Image) → IsInStepWith D.Disk self.old disk.old was → Stays (replay was) (replay i)) }
        ensures header { (self.new.saved ≡ self.old.saved) × (self.new.head ≡ self.old.head) }
        ensures empty { OnOk result ((has_ended self.old ≡ false) × (has_ended self.new ≡ false) × (log_length_of self.new ≡ 0) × HasNoChanges self.new
            × ((was now : Image) → IsInStepWith D.Disk self.old disk.old was → D.contents disk.new ≡ Some now → groups now.log ≡ [])) }
        ensures refused { IfErr result (λ e. NotWritten D.Disk e self.old self.new disk.old disk.new) }
    {
        if self.ended {
            return Err(StoreError::Ended);
        }
        self.waiting_head = None;
        let Ok(_) = self.wal.checkpoint(disk) else {
            self.ended = true;
            return Err(StoreError::Disk);
        };
        Ok(())
    }
}
