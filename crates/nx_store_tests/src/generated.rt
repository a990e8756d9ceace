// Generated commands over stores.
use crate::stores::{CHOICES, LIGHT, left, new_store, status_of, words_of};
use nx_engine::Plain;
use nx_front::Status;
use nx_gen::Gen;
use nx_memory::{Choice, Image, MemoryHost};
use nx_script::{Command, Reply};
use nx_tree::{Bytes, NoMemory};
use std::alloc::Global;
use std::process::Abort;
use std::test::Fail;
use std::thread::Threads;

// Room for some thousands of commits.
const ROOM: u64 = 134_217_728;

// A host with a new store of light parts.
fn host_with_store(alloc: Global) -> Result<MemoryHost, Fail> {
    let image = new_store(alloc, LIGHT)?;
    Ok(MemoryHost::new(alloc, image, Bytes::new(alloc), 1, ROOM)?)
}

// A host with what is left of another one's areas.
fn host_after(alloc: Global, host: &MemoryHost) -> Result<MemoryHost, NoMemory> {
    MemoryHost::new(alloc, left(host, Choice::Lost)?, Bytes::new(alloc), 1, ROOM)
}

// Runs generated commands.
fn generate(
    rt: &(impl Threads + Sync),
    alloc: Global,
    host: &mut MemoryHost,
    seed: &str,
    n: &str,
) -> Result<Status, NoMemory> {
    let words = words_of(alloc, &["s", "gen", seed, n])?;
    Ok(status_of(rt, alloc, &words, host))
}

#[test]
fn one_element(rt: HostRuntime) -> Result<(), Fail> {
    let alloc = rt.alloc();
    let mut host = host_with_store(alloc)?;
    assert_eq!(rt; generate(&rt, alloc, &mut host, "0", "1")?, Status::Done);
    assert_eq!(rt;
        host.output(),
        "commands 3\nerrors 0\nnodes 5\nbytes 38\n".as_bytes()
    );
    let mut again = host_after(alloc, &host)?;
    assert_eq!(rt;
        generate(&rt, alloc, &mut again, "0", "1")?,
        Status::Refused
    );
    assert_eq!(rt; again.output(), "refused exists\n".as_bytes());
    check_same(
        &rt,
        &left(&again, Choice::Lost)?,
        &left(&host, Choice::Lost)?,
    );
    Ok(())
}

fn check_same(rt: &impl Abort, now: &Image, was: &Image) {
    assert_eq!(rt; now.pages.as_slice(), was.pages.as_slice());
    assert_eq!(rt; now.log.as_slice(), was.log.as_slice());
}

// What the seed 7 and the number 2000 come to, worked out apart from the program.
const MANY: &str = "commands 2520\nerrors 0\nnodes 6499\nbytes 73694\n";

#[test]
fn many_elements(rt: HostRuntime) -> Result<(), Fail> {
    let alloc = rt.alloc();
    let mut host = host_with_store(alloc)?;
    assert_eq!(rt; generate(&rt, alloc, &mut host, "7", "2000")?, Status::Done);
    assert_eq!(rt; host.output(), MANY.as_bytes());
    Ok(())
}

// What plain trees in memory come to by the same commands.
fn plain_summary(alloc: Global) -> Result<String, Fail> {
    let mut plain = Plain::new(alloc);
    let mut commands = Gen::new(alloc, 7, 2000)?;
    let mut count = 0u32;
    let mut bytes = 0;
    // One or two for each element, a load and an export.
    for _ in 0..4_002 {
        let Some(command) = commands.next()? else {
            break;
        };
        count = count.wrapping_add(1);
        if let Reply::Exported(text) = plain.apply(command)? {
            bytes = text.len();
        }
    }
    let nodes = plain_nodes(&mut plain)?;
    Ok(format!(in alloc; "commands {count}\nerrors 0\nnodes {nodes}\nbytes {bytes}\n")?)
}

fn plain_nodes(plain: &mut Plain) -> Result<u32, NoMemory> {
    match plain.apply(Command::Names)? {
        Reply::Names(lines) => Ok(lines.as_slice().first().map_or(0, |line| line.nodes)),
        _ => Ok(0),
    }
}

#[test]
fn plain_trees_come_to_the_same(rt: HostRuntime) -> Result<(), Fail> {
    let summary = plain_summary(rt.alloc())?;
    assert_eq!(rt; summary.as_str(), MANY);
    Ok(())
}
