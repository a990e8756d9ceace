// Records with a catalog, over a host in memory. Its methods promise nothing, since a test that knows much
// is proved slowly.
use nx_catalog::{Catalog, load_catalog};
use nx_lists::{List, NoMemory};
use nx_memory::{Image, MemoryHost};
use nx_pyx::is_document_name;
use nx_records::{Records, Settings, StoreError};
use std::alloc::Global;
use std::process::Abort;
use std::test::Fail;

fn open(alloc: Global, host: &mut MemoryHost) -> Result<Records, StoreError> {
    Records::open(alloc, host)
}

// A host without pages.
fn new_host(alloc: Global) -> Result<MemoryHost, NoMemory> {
    let image = Image {
        pages: List::new(alloc),
        log: List::new(alloc),
    };
    MemoryHost::new(alloc, image, List::new(alloc), 1, 67_108_864)
}

// New records of at most 64 pages.
fn new_records(alloc: Global, host: &mut MemoryHost) -> Result<Records, StoreError> {
    let settings = Settings {
        k: 16,
        target: 50,
        tolerance: 4,
        limit: 64,
    };
    Records::create(alloc, host, settings)
}

#[derive(Drop)]
pub struct Store {
    records: Records,
    host: MemoryHost,
}

impl Store {
    /// A new store of at most 64 pages.
    pub fn create(alloc: Global) -> Result<Store, Fail> {
        let mut host = new_host(alloc)?;
        let records = new_records(alloc, &mut host)?;
        Ok(Store { records, host })
    }

    /// Opens the records anew.
    pub fn reopen(&mut self, alloc: Global) -> Result<(), StoreError> {
        let records = open(alloc, &mut self.host)?;
        self.records = records;
        Ok(())
    }

    /// The bytes of the catalog.
    pub fn bytes(&mut self, alloc: Global) -> Result<List<u8>, StoreError> {
        self.records.read_catalog(alloc, &mut self.host)
    }

    pub fn load(&mut self, alloc: Global) -> Result<Catalog, StoreError> {
        load_catalog(alloc, &mut self.records, &mut self.host)
    }

    pub fn save(&mut self, catalog: &Catalog) -> Result<(), StoreError> {
        catalog.save(&mut self.records, &mut self.host)
    }

    /// Puts the entry of a document under another name, and commits.
    pub fn rename(
        &mut self,
        rt: &impl Abort,
        catalog: &mut Catalog,
        old_name: &[u8],
        new_name: &[u8],
    ) -> Result<(), StoreError> {
        assert!(rt; is_document_name(new_name));
        assert!(rt; catalog.find(old_name).is_some());
        assert!(rt; catalog.find(new_name).is_none());
        catalog.save_renamed(&mut self.records, &mut self.host, old_name, new_name)?;
        assert!(rt; self.records.log_length() <= 1 << 62);
        self.records.commit(&mut self.host)
    }

    /// Saves the catalog and commits.
    pub fn keep(&mut self, rt: &impl Abort, catalog: &Catalog) -> Result<(), StoreError> {
        catalog.save(&mut self.records, &mut self.host)?;
        assert!(rt; self.records.log_length() <= 1 << 62);
        self.records.commit(&mut self.host)
    }
}
