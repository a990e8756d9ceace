// How early an export is given: how much was read before its first bytes were out.
use crate::documents::load;
use crate::reads::wide_store;
use crate::stores::{HEAVY, command_of, host_of, new_store, open, stored};
use nx_lists::NoMemory;
use nx_memory::{Image, MemoryHost};
use nx_script::Request;
use nx_store::{EngineError, Store};
use nx_tree::Bytes;
use std::alloc::Global;
use std::process::Abort;
use std::test::Fail;
use std::thread::Threads;

// What an export came to: what it was answered, how often its host was read, and how many bytes are out.
#[derive(Drop)]
struct Export {
    answer: Result<(), EngineError>,
    reads: u64,
    out: usize,
}

// An export of the document `w`.
fn answer(
    rt: &(impl Threads + Sync),
    alloc: Global,
    store: &mut Store,
    host: &mut MemoryHost,
) -> Result<Result<(), EngineError>, Fail> {
    let command = command_of(alloc, b"export w\n")?;
    Ok(store.answer(rt, host, Request::Single(command)))
}

// ... whose host fails behind so many calls.
fn export_within(
    rt: &(impl Threads + Sync),
    alloc: Global,
    image: Image,
    calls: u64,
) -> Result<Export, Fail> {
    let mut host = host_of(alloc, image)?;
    let mut store = open(alloc, &mut host)?;
    let before = host.counts().reads;
    host.stop_after(calls);
    let answer = answer(rt, alloc, &mut store, &mut host)?;
    Ok(Export {
        answer,
        reads: host.counts().reads.wrapping_sub(before),
        out: host.output().len(),
    })
}

// Where it isn't refused, the lines are out before the second record is read, which fails.
#[test]
fn lines_are_out_before_a_second_record_is_read(rt: HostRuntime) -> Result<(), Fail> {
    let image = wide_store(&rt, rt.alloc())?;
    let export = export_within(&rt, rt.alloc(), image, 4)?;
    assert!(rt; export.answer == Err(EngineError::Disk));
    assert!(rt; export.out > 0);
    assert!(rt; export.out < 65_536);
    Ok(())
}

// A store with the document `w` in one record.
fn small_store(rt: &(impl Threads + Abort + Sync), alloc: Global) -> Result<Image, Fail> {
    let script = load(alloc, b"w", b"(a\n)a\n")?;
    let new = new_store(alloc, HEAVY)?;
    Ok(stored(rt, alloc, &new, script.as_slice())?)
}

fn export_into(
    store: &mut Store,
    host: &mut MemoryHost,
    block: &mut Bytes,
) -> Result<(), EngineError> {
    store.export_into(host, b"w", block)
}

// What is behind `ok` in a block, where nothing is out.
fn waiting(alloc: Global, image: Image) -> Result<(Bytes, usize), Fail> {
    let mut host = host_of(alloc, image)?;
    let mut store = open(alloc, &mut host)?;
    let mut block = Bytes::from_slice(alloc, b"ok\n")?;
    export_into(&mut store, &mut host, &mut block)?;
    Ok((block, host.output().len()))
}

// A document of one record waits with the replies before it.
#[test]
fn one_record_waits(rt: HostRuntime) -> Result<(), Fail> {
    let image = small_store(&rt, rt.alloc())?;
    let (block, out) = waiting(rt.alloc(), image)?;
    assert!(rt; out == 0);
    assert!(rt; block.as_slice() == b"ok\n(a\n)a\n.\n".as_slice());
    Ok(())
}
