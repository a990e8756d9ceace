// Records over a host in memory, which are asked for nothing that they don't promise to do. The methods promise
// nothing, since a test that knows much is proved slowly.
ghost use Rattle.std.specs.Prelude.{◌≡◌, ◌≤◌, length, true};
ghost use Rattle.nx_holdings.specs.Holdings.{chain_count};
ghost use Rattle.nx_records.specs.Records.{HasChanges};

use crate::pages::{Counts, check_counts, counts_of};
use nx_lists::{List, NoMemory};
use nx_memory::{Choice, Image, MemoryHost};
use nx_records::{ListReader, Records, Rid, Settings, StoreError, take_same_pages};
use nx_wal::WalError;
use std::alloc::Global;
use std::process::Abort;
use std::test::Fail;

/// How many pages there may be.
pub const LIMIT: u32 = 64;

/// A host of these areas with room for some commits of many pages.
pub fn host_of(alloc: Global, image: Image) -> Result<MemoryHost, NoMemory> {
    MemoryHost::new(alloc, image, List::new(alloc), 1, 16_777_216)
}

/// A host with empty areas.
pub fn empty_host(alloc: Global) -> Result<MemoryHost, NoMemory> {
    let image = Image {
        pages: List::new(alloc),
        log: List::new(alloc),
    };
    host_of(alloc, image)
}

/// Records of a new store.
pub fn new_records(alloc: Global, host: &mut MemoryHost) -> Result<Records, StoreError> {
    let settings = Settings {
        k: 16,
        target: 50,
        tolerance: 4,
        limit: LIMIT,
    };
    Records::create(alloc, host, settings)
}

fn open_records(alloc: Global, host: &mut MemoryHost) -> Result<Records, StoreError> {
    Records::open(alloc, host)
}

/// Records over a host, and whether they were changed since the last commit. What a refused call changed
/// is dropped at once.
#[derive(Drop)]
pub struct Store {
    alloc: Global,
    host: MemoryHost,
    records: Records,
    changed: bool,
    ghost waits: { changed ≡ true → HasChanges records },
}

impl Store {
    /// A new store.
    pub fn create(alloc: Global) -> Result<Store, Fail> {
        let mut host = empty_host(alloc)?;
        let records = new_records(alloc, &mut host)?;
        Ok(Store {
            alloc,
            host,
            records,
            changed: false,
        })
    }

    /// The store that the host has.
    pub fn open(alloc: Global, mut host: MemoryHost) -> Result<Store, StoreError> {
        let records = open_records(alloc, &mut host)?;
        Ok(Store {
            alloc,
            host,
            records,
            changed: false,
        })
    }

    /// Opens the host's store anew.
    pub fn reopen(&mut self) -> Result<(), StoreError> {
        let records = open_records(self.alloc, &mut self.host)?;
        self.changed = false;
        self.records = records;
        Ok(())
    }

    /// The format of the store as it is opened anew, beside this one.
    pub fn format_opened(&mut self) -> Result<u16, StoreError> {
        let records = open_records(self.alloc, &mut self.host)?;
        Ok(records.format())
    }

    pub fn alloc(&self) -> Global {
        self.alloc
    }

    /// What a crash leaves of the host's areas.
    pub fn image(&self, choice: Choice) -> Result<Image, NoMemory> {
        self.host.image(choice)
    }

    /// How many pages and parts of the log were read from the host.
    pub fn reads(&self) -> u64 {
        self.host.counts().reads
    }

    /// What the pages are used for after the last commit.
    pub fn counts(&mut self, rt: &impl Abort) -> Result<Counts, WalError> {
        counts_of(rt, self.alloc, &mut self.host)
    }

    /// They are used for this.
    pub fn check_counts(&mut self, rt: &impl Abort, expected: Counts) -> Result<(), WalError> {
        let counts = self.counts(rt)?;
        check_counts(rt, counts, expected);
        Ok(())
    }

    pub fn format(&self) -> u16 {
        self.records.format()
    }

    pub fn has_free_page(&self) -> bool {
        self.records.has_free_page()
    }

    pub fn log_length(&self) -> u64 {
        self.records.log_length()
    }

    pub fn read(&mut self, place: Rid) -> Result<List<u8>, StoreError> {
        match self.records.read(self.alloc, &mut self.host, place) {
            Ok(bytes) => Ok(bytes),
            Err(error) => {
                self.changed = false;
                self.records.abandon();
                Err(error)
            }
        }
    }

    pub fn add(&mut self, rt: &impl Abort, bytes: &[u8]) -> Result<Rid, StoreError> {
        assert!(rt; 1 <= bytes.len() && bytes.len() <= 8_176);
        self.add_record(bytes)
    }

    fn add_record(&mut self, bytes: &[u8]) -> Result<Rid, StoreError>
        requires some { 1 ≤ length bytes.now }
        requires few { length bytes.now ≤ 8176 }
    {
        match self.records.add(&mut self.host, bytes) {
            Ok(place) => {
                self.changed = true;
                Ok(place)
            }
            Err(error) => {
                self.changed = false;
                self.records.abandon();
                Err(error)
            }
        }
    }

    pub fn update(&mut self, rt: &impl Abort, place: Rid, bytes: &[u8]) -> Result<Rid, StoreError> {
        assert!(rt; 1 <= bytes.len() && bytes.len() <= 8_176);
        self.update_record(place, bytes)
    }

    fn update_record(&mut self, place: Rid, bytes: &[u8]) -> Result<Rid, StoreError>
        requires some { 1 ≤ length bytes.now }
        requires few { length bytes.now ≤ 8176 }
    {
        match self.records.update(&mut self.host, place, bytes) {
            Ok(place) => {
                self.changed = true;
                Ok(place)
            }
            Err(error) => {
                self.changed = false;
                self.records.abandon();
                Err(error)
            }
        }
    }

    pub fn remove(&mut self, place: Rid) -> Result<(), StoreError> {
        match self.records.remove(&mut self.host, place) {
            Ok(_) => {
                self.changed = true;
                Ok(())
            }
            Err(error) => {
                self.changed = false;
                self.records.abandon();
                Err(error)
            }
        }
    }

    pub fn read_list(&mut self, first: u32, len: u64) -> Result<List<u8>, StoreError> {
        match self
            .records
            .read_list(self.alloc, &mut self.host, first, len)
        {
            Ok(bytes) => Ok(bytes),
            Err(error) => {
                self.changed = false;
                self.records.abandon();
                Err(error)
            }
        }
    }

    pub fn open_list(&mut self, first: u32, len: u64) -> Result<ListReader, StoreError> {
        match self.records.open_list(&self.host, first, len) {
            Ok(reader) => Ok(reader),
            Err(error) => {
                self.changed = false;
                self.records.abandon();
                Err(error)
            }
        }
    }

    pub fn next_block(&mut self, reader: &mut ListReader) -> Result<Option<List<u8>>, StoreError> {
        match self.records.next_block(self.alloc, &mut self.host, reader) {
            Ok(found) => Ok(found),
            Err(error) => {
                self.changed = false;
                self.records.abandon();
                Err(error)
            }
        }
    }

    pub fn write_list(&mut self, rt: &impl Abort, bytes: &[u8]) -> Result<u32, StoreError> {
        assert!(rt; 1 <= bytes.len());
        self.write_bytes(bytes)
    }

    fn write_bytes(&mut self, bytes: &[u8]) -> Result<u32, StoreError>
        requires { 1 ≤ length bytes.now }
    {
        match self.records.write_list(&mut self.host, bytes) {
            Ok(first) => {
                self.changed = true;
                Ok(first)
            }
            Err(error) => {
                self.changed = false;
                self.records.abandon();
                Err(error)
            }
        }
    }

    pub fn free_list(&mut self, first: u32, len: u64) -> Result<(), StoreError> {
        match self
            .records
            .free_list(self.alloc, &mut self.host, first, len)
        {
            Ok(_) => {
                self.changed = true;
                Ok(())
            }
            Err(error) => {
                self.changed = false;
                self.records.abandon();
                Err(error)
            }
        }
    }

    /// Puts other bytes in the place of those of a list, which take as many pages.
    pub fn change_list(
        &mut self,
        rt: &impl Abort,
        first: u32,
        len: u64,
        bytes: &[u8],
    ) -> Result<(), StoreError> {
        assert!(rt; 1 <= bytes.len());
        assert!(rt; take_same_pages(bytes.len() as u64, len));
        self.change_bytes(first, len, bytes)
    }

    fn change_bytes(&mut self, first: u32, len: u64, bytes: &[u8]) -> Result<(), StoreError>
        requires some { 1 ≤ length bytes.now }
        requires pages { chain_count (length bytes.now) ≡ chain_count len }
    {
        match self
            .records
            .change_list(self.alloc, &mut self.host, first, len, bytes)
        {
            Ok(_) => {
                self.changed = true;
                Ok(())
            }
            Err(error) => {
                self.changed = false;
                self.records.abandon();
                Err(error)
            }
        }
    }

    /// Commits, where something was changed.
    pub fn commit(&mut self, rt: &impl Abort) -> Result<(), StoreError> {
        if !self.changed {
            return Ok(());
        }
        assert!(rt; self.has_room());
        self.commit_changes()
    }

    // Whether the log is short enough for a commit.
    fn has_room(&self) -> bool {
        self.records.log_length() <= 1 << 62
    }

    fn commit_changes(&mut self) -> Result<(), StoreError> {
        if !self.changed || self.records.log_length() > 1 << 62 {
            return Ok(());
        }
        match self.records.commit(&mut self.host) {
            Ok(_) => {
                self.changed = false;
                Ok(())
            }
            Err(error) => {
                self.changed = false;
                self.records.abandon();
                Err(error)
            }
        }
    }

    pub fn abandon(&mut self) {
        self.changed = false;
        self.records.abandon();
    }

    /// A checkpoint, before which what was changed is dropped.
    pub fn checkpoint(&mut self) -> Result<(), StoreError> {
        self.changed = false;
        self.records.abandon();
        self.records.checkpoint(&mut self.host)
    }
}
