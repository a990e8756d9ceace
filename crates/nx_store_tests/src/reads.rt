// How many pages are read for one node, behind a host that keeps pages, as the program has it.
use crate::documents::{load, wide};
use crate::stores::{HEAVY, host_of, new_store, stored};
use nx_cached_host::CachedHost;
use nx_catalog::load_catalog;
use nx_hold::DocEntry;
use nx_lists::NoMemory;
use nx_memory::{Image, MemoryHost};
use nx_nav::{NavError, Shown, get};
use nx_records::{Records, StoreError};
use std::alloc::Global;
use std::process::Abort;
use std::test::Fail;
use std::thread::Threads;

// A store with the document `w`, whose last text stands in a record of its own. The root's record has its 1,499 proxies in
// two chain pages.
pub fn wide_store(rt: &(impl Threads + Abort + Sync), alloc: Global) -> Result<Image, Fail> {
    let document = wide(alloc, 1_500, 1_024)?;
    let script = load(alloc, b"w", document.as_slice())?;
    let new = new_store(alloc, HEAVY)?;
    Ok(stored(rt, alloc, &new, script.as_slice())?)
}

fn cached(alloc: Global, image: Image) -> Result<CachedHost<MemoryHost>, NoMemory> {
    CachedHost::new(alloc, host_of(alloc, image)?, 256)
}

fn open(alloc: Global, host: &mut CachedHost<MemoryHost>) -> Result<Records, StoreError> {
    Records::open(alloc, host)
}

// Where the document `w` stands.
fn entry_of(
    alloc: Global,
    records: &mut Records,
    host: &mut CachedHost<MemoryHost>,
) -> Result<Option<DocEntry>, StoreError> {
    Ok(load_catalog(alloc, records, host)?.find(b"w"))
}

// The last text.
fn last_text(
    alloc: Global,
    records: &mut Records,
    host: &mut CachedHost<MemoryHost>,
    entry: DocEntry,
) -> Result<Shown, NavError> {
    get(alloc, records, host, entry.root, &[0, 1_499])
}

// How often the host behind is read for the last text.
fn reads(
    rt: &impl Abort,
    alloc: Global,
    records: &mut Records,
    host: &mut CachedHost<MemoryHost>,
    entry: DocEntry,
) -> Result<u64, Fail> {
    let before = host.inner().counts().reads;
    let shown = last_text(alloc, records, host, entry)?;
    assert!(rt; shown.node.content.len() == 1_024);
    Ok(host.inner().counts().reads.wrapping_sub(before))
}

// The root's record, its two chain pages and the text's own record; and nothing the second time.
#[test]
fn a_node_is_read_by_its_path_and_once(rt: HostRuntime) -> Result<(), Fail> {
    let image = wide_store(&rt, rt.alloc())?;
    let mut host = cached(rt.alloc(), image)?;
    let mut records = open(rt.alloc(), &mut host)?;
    let Some(entry) = entry_of(rt.alloc(), &mut records, &mut host)? else {
        panic!(rt; "there is no document");
    };
    let first = reads(&rt, rt.alloc(), &mut records, &mut host, entry)?;
    assert!(rt; first <= 4, "{first}");
    assert!(rt; first >= 2, "{first}");
    assert!(rt; reads(&rt, rt.alloc(), &mut records, &mut host, entry)? == 0);
    Ok(())
}
