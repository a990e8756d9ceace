// What is shown of a node with all below it, as one text and given to an output.
use crate::documents::{load, spelled};
use crate::stores::{LIGHT, host_of, new_store, stored};
use nx_catalog::load_catalog;
use nx_hold::DocEntry;
use nx_lists::NoMemory;
use nx_memory::{Image, MemoryHost};
use nx_nav::{NavError, show, subtree_of};
use nx_records::{Records, StoreError};
use nx_tree::Bytes;
use std::alloc::Global;
use std::process::Abort;
use std::test::Fail;
use std::thread::Threads;

// A document in several records, with a content that stands in a list.
const TEXT: &[u8] = b"(r\nAa 1\n(b\n-text\n(c\n-deep below\n)c\n)b\n-~\n(e\n)e\n)r\n";

// Paths, and the lines there.
const ROWS: [(&[u32], &[u8]); 8] = [
    (&[], TEXT),
    (&[0], TEXT),
    (&[0, 0], b"Aa 1\n"),
    (&[0, 1], b"(b\n-text\n(c\n-deep below\n)c\n)b\n"),
    (&[0, 1, 0], b"-text\n"),
    (&[0, 1, 1], b"(c\n-deep below\n)c\n"),
    (&[0, 2], b"-~\n"),
    (&[0, 3], b"(e\n)e\n"),
];

// Paths that lead nowhere.
const NOWHERE: [&[u32]; 3] = [&[1], &[0, 4], &[0, 0, 0]];

// A store with the document `d`.
fn store_of(rt: &(impl Threads + Abort + Sync), alloc: Global) -> Result<Image, Fail> {
    let document = spelled(alloc, TEXT)?;
    let script = load(alloc, b"d", document.as_slice())?;
    let new = new_store(alloc, LIGHT)?;
    Ok(stored(rt, alloc, &new, script.as_slice())?)
}

fn hosted(alloc: Global, image: Image) -> Result<MemoryHost, NoMemory> {
    host_of(alloc, image)
}

fn open(alloc: Global, host: &mut MemoryHost) -> Result<Records, StoreError> {
    Records::open(alloc, host)
}

fn entry_of(
    alloc: Global,
    records: &mut Records,
    host: &mut MemoryHost,
) -> Result<Option<DocEntry>, StoreError> {
    Ok(load_catalog(alloc, records, host)?.find(b"d"))
}

// The lines as one text.
fn text_at(
    alloc: Global,
    records: &mut Records,
    host: &mut MemoryHost,
    entry: DocEntry,
    path: &[u32],
) -> Result<Bytes, NavError> {
    subtree_of(alloc, records, host, entry.root, entry.nodes, path)
}

// ... behind `ok` in a block: what is left in it, where the host's output was taken before.
fn block_at(
    alloc: Global,
    records: &mut Records,
    host: &mut MemoryHost,
    entry: DocEntry,
    path: &[u32],
) -> Result<Bytes, NavError> {
    let mut block = Bytes::from_slice(alloc, b"ok\n")?;
    show(
        alloc,
        records,
        host,
        entry.root,
        entry.nodes,
        path,
        &mut block,
    )?;
    Ok(block)
}

// What came to the output behind its first bytes, and the block behind that.
fn whole(
    alloc: Global,
    host: &MemoryHost,
    before: usize,
    block: &Bytes,
) -> Result<Bytes, NoMemory> {
    let mut whole = Bytes::new(alloc);
    if let Some(out) = host.output().get(before..) {
        whole.extend_from_slice(out)?;
    }
    whole.extend_from_slice(block.as_slice())?;
    Ok(whole)
}

#[test]
fn a_node_is_shown_with_all_below_it(rt: HostRuntime) -> Result<(), Fail> {
    let image = store_of(&rt, rt.alloc())?;
    let mut host = hosted(rt.alloc(), image)?;
    let mut records = open(rt.alloc(), &mut host)?;
    let Some(entry) = entry_of(rt.alloc(), &mut records, &mut host)? else {
        panic!(rt; "there is no document");
    };
    for (path, lines) in ROWS {
        let want = spelled(rt.alloc(), lines)?;
        let text = text_at(rt.alloc(), &mut records, &mut host, entry, path)?;
        assert!(rt; text.as_slice() == want.as_slice());
        let before = host.output().len();
        let block = block_at(rt.alloc(), &mut records, &mut host, entry, path)?;
        let whole = whole(rt.alloc(), &host, before, &block)?;
        assert!(rt; whole.as_slice().strip_prefix(b"ok\n") == Some(want.as_slice()));
    }
    for path in NOWHERE {
        let text = text_at(rt.alloc(), &mut records, &mut host, entry, path);
        assert!(rt; matches!(text, Err(NavError::NoNode)));
    }
    Ok(())
}
