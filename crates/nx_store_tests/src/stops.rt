// Stores that are stopped, or a call of whose host fails: what is out and what is left go together.
use crate::documents::{BOOK, SMALL, load, wide};
use crate::stores::{
    CHOICES, HEAVY, LIGHT, answers, apply, host_with, left, new_store, open, run_script, stored,
};
use nx_front::Status;
use nx_memory::{Choice, Image, MemoryHost};
use nx_store::{EngineError, Store};
use nx_tree::NoMemory;
use std::alloc::Global;
use std::process::Abort;
use std::test::Fail;
use std::thread::Threads;

// More calls than a script here takes.
const CALLS: u64 = 400;

// From the call with this number on, all fail; or it alone does.
fn fail(host: &mut MemoryHost, number: u64, alone: bool) -> Result<(), NoMemory> {
    if alone {
        host.fail_calls(&[number])?;
    } else {
        host.stop_after(number.saturating_sub(1));
    }
    Ok(())
}

// The host of a store at which a call will fail.
fn failing_host(
    alloc: Global,
    store: &Image,
    script: &[u8],
    number: u64,
    alone: bool,
) -> Result<MemoryHost, NoMemory> {
    let mut host = host_with(alloc, store, script, 65_536)?;
    fail(&mut host, number, alone)?;
    Ok(host)
}

// Whether one of the images has the document; otherwise it has none.
fn has(
    rt: &(impl Threads + Abort + Sync),
    alloc: Global,
    host: &MemoryHost,
    choice: Choice,
) -> Result<bool, NoMemory> {
    let image = left(host, choice)?;
    let found = answers(rt, alloc, &image, b"names\nexport e\n")?;
    if found.as_slice() == b".\nerror no-document\n".as_slice() {
        return Ok(false);
    }
    assert_eq!(rt;
        found.as_slice(),
        b"doc e 4\n.\n(a\nAx 1\n-hi\n)a\n.\n".as_slice(),
        "{choice:?}"
    );
    Ok(true)
}

// Of the three images, how many have the document.
fn having(
    rt: &(impl Threads + Abort + Sync),
    alloc: Global,
    host: &MemoryHost,
) -> Result<u32, NoMemory> {
    let mut having = 0u32;
    for choice in CHOICES {
        having = having.saturating_add(u32::from(has(rt, alloc, host, choice)?));
    }
    Ok(having)
}

// How many images have the document, how much is out, and how the run ended.
type Stopped = (u32, usize, Status);

fn stopped(
    rt: &(impl Threads + Abort + Sync),
    alloc: Global,
    store: &Image,
    script: &[u8],
    number: u64,
    alone: bool,
) -> Result<Stopped, NoMemory> {
    let mut host = failing_host(alloc, store, script, number, alone)?;
    let status = run_script(rt, alloc, &mut host)?;
    Ok((having(rt, alloc, &host)?, host.output().len(), status))
}

// What comes of a load at which each call is the one that fails, where some image has the document.
fn stops(
    rt: &(impl Threads + Abort + Sync),
    alloc: Global,
    store: &Image,
    script: &[u8],
    alone: bool,
) -> Result<Vec<Stopped>, NoMemory> {
    let mut steps = Vec::new(alloc);
    for number in 1..CALLS {
        let (having, out, status) = stopped(rt, alloc, store, script, number, alone)?;
        if having > 0 {
            steps.push((having, out, status))?;
        } else {
            assert_eq!(rt; out, 0);
            assert!(rt; status == Status::DiskFault || status == Status::ReadFault);
        }
        if status == Status::Done {
            break;
        }
    }
    Ok(steps)
}

const AT_THE_GATE: [Stopped; 4] = [
    (2, 0, Status::DiskFault),
    (3, 0, Status::WriteFault),
    (3, 7, Status::ReadFault),
    (3, 7, Status::Done),
];

// One call writes the gate, after which two of the images have the document. Before it none has it. Behind it
// the gate is synced, and all have it: then the reply is given, and the input's end is found.
fn check_gate(rt: &(impl Threads + Abort + Sync), alloc: Global, alone: bool) -> Result<(), Fail> {
    let store = new_store(alloc, LIGHT)?;
    let script = load(alloc, b"e", SMALL)?;
    let steps = stops(rt, alloc, &store, script.as_slice(), alone)?;
    assert_eq!(rt; steps.as_slice(), AT_THE_GATE.as_slice());
    Ok(())
}

#[test]
fn a_document_is_there_once_its_gate_is(rt: HostRuntime) -> Result<(), Fail> {
    check_gate(&rt, rt.alloc(), false)
}

// A store with three documents.
fn with_three(
    rt: &(impl Threads + Abort + Sync),
    alloc: Global,
    document: &[u8],
) -> Result<Image, Fail> {
    let mut script = load(alloc, b"a", document)?;
    script.extend_from_slice(load(alloc, b"b", SMALL)?.as_slice())?;
    script.extend_from_slice(load(alloc, b"c", BOOK)?.as_slice())?;
    let empty = new_store(alloc, HEAVY)?;
    Ok(stored(rt, alloc, &empty, script.as_slice())?)
}

// Each image answers so.
fn check_images(
    rt: &(impl Threads + Abort + Sync),
    alloc: Global,
    host: &MemoryHost,
    script: &[u8],
    output: &[u8],
) -> Result<(), NoMemory> {
    for choice in CHOICES {
        let image = left(host, choice)?;
        let found = answers(rt, alloc, &image, script)?;
        assert_eq!(rt; found.as_slice(), output, "{choice:?}");
    }
    Ok(())
}

// Stops a checkpoint after so many calls, and says whether all was done. The documents stay.
fn is_checkpointed(
    rt: &(impl Threads + Abort + Sync),
    alloc: Global,
    store: &Image,
    number: u64,
    whole: &[u8],
) -> Result<bool, NoMemory> {
    let mut host = failing_host(alloc, store, b"checkpoint\n", number, false)?;
    let status = run_script(rt, alloc, &mut host)?;
    check_images(rt, alloc, &host, b"export a\nexport b\nexport c\n", whole)?;
    assert!(rt; status != Status::Done || host.output() == b"ok\n".as_slice());
    Ok(status == Status::Done)
}

#[test]
fn documents_stay_through_a_checkpoint(rt: HostRuntime) -> Result<(), Fail> {
    let document = wide(rt.alloc(), 9, 2_040)?;
    let store = with_three(&rt, rt.alloc(), document.as_slice())?;
    let texts: [&[u8]; 6] = [document.as_slice(), b".\n", SMALL, b".\n", BOOK, b".\n"];
    let whole = texts.concat(rt.alloc())?;
    let mut stopped = 0u32;
    for number in 1..CALLS {
        if is_checkpointed(&rt, rt.alloc(), &store, number, whole.as_slice())? {
            break;
        }
        stopped = stopped.saturating_add(1);
    }
    // At least each of five pages was written, and three times it was synced.
    assert!(rt; 8 <= stopped, "{stopped}");
    Ok(())
}

// Loads where the host is stopped, and says whether the store has ended.
fn is_ended_by_load(
    rt: &(impl Threads + Abort + Sync),
    alloc: Global,
    store: &mut Store,
    host: &mut MemoryHost,
) -> Result<bool, Fail> {
    let script = load(alloc, b"e", SMALL)?;
    let loaded = apply(rt, alloc, store, host, script.as_slice())?.err();
    let is_ended = store.is_ended();
    let want = if is_ended {
        Some(EngineError::Disk)
    } else {
        None
    };
    assert_eq!(rt; loaded, want);
    Ok(is_ended)
}

// Stops the host of an open store after so many calls, and says whether the store has ended.
fn is_ended_at(
    rt: &(impl Threads + Abort + Sync),
    alloc: Global,
    image: &Image,
    stop: u64,
) -> Result<bool, Fail> {
    let mut host = host_with(alloc, image, b"", 1)?;
    let mut store = open(alloc, &mut host)?;
    host.stop_after(stop);
    let is_ended = is_ended_by_load(rt, alloc, &mut store, &mut host)?;
    if is_ended {
        let later = apply(rt, alloc, &mut store, &mut host, b"names\n")?.err();
        assert_eq!(rt; later, Some(EngineError::Ended));
    }
    Ok(is_ended)
}

// A store that met a fault has ended.
#[test]
fn a_store_ends_by_a_fault(rt: HostRuntime) -> Result<(), Fail> {
    let image = new_store(rt.alloc(), LIGHT)?;
    let mut faults = 0u32;
    for stop in 0..16 {
        let is_ended = is_ended_at(&rt, rt.alloc(), &image, stop)?;
        faults = faults.saturating_add(u32::from(is_ended));
    }
    assert!(rt; 0 < faults && faults < 16);
    Ok(())
}
