// How runs over stores begin and end.
ghost use Rattle.std.specs.Prelude.{◌<◌};

use crate::documents::load;
use crate::stores::{LIGHT, host_with, new_store, run_script};
use nx_front::Status;
use nx_memory::{Image, MemoryHost};
use nx_tree::{Bytes, NoMemory};
use std::alloc::Global;
use std::process::Abort;
use std::test::Fail;
use std::thread::Threads;

// An image without a log.
fn image_of(alloc: Global, pages: &[u8]) -> Result<Image, NoMemory> {
    Ok(Image {
        pages: Bytes::from_slice(alloc, pages)?,
        log: Bytes::new(alloc),
    })
}

// A run finds no store in these pages.
fn check_without(
    rt: &(impl Threads + Abort + Sync),
    alloc: Global,
    pages: &[u8],
) -> Result<(), NoMemory> {
    let image = image_of(alloc, pages)?;
    let mut host = host_with(alloc, &image, b"names\n", 8)?;
    assert_eq!(rt; run_script(rt, alloc, &mut host)?, Status::NotAStore);
    assert!(rt; host.output().is_empty());
    assert_eq!(rt; host.counts().faults, 0);
    Ok(())
}

#[test]
fn areas_without_a_store(rt: HostRuntime) -> Result<(), Fail> {
    check_without(&rt, rt.alloc(), b"")?;
    check_without(&rt, rt.alloc(), b"NATIXST1")?;
    check_without(&rt, rt.alloc(), &[0; 8_192])?;
    Ok(())
}

// Whole scripts and all that they are answered: the end of the input in the midst of a command, lines that end
// otherwise, and lines that are no command.
const SCRIPTS: [(&[u8], &[u8]); 7] = [
    (b"names", b".\n"),
    (
        b"insert e\n\nload e\n(a\n",
        b"error syntax\nerror syntax\nerror syntax\n",
    ),
    (b"load d\n(a\n)a\n.", b"ok 2 1\n"),
    (
        b"load d\r\n(a\r\n)a\r\n.\r\nget d /0\r\n",
        b"ok 2 1\nnode 0 (a\n",
    ),
    (
        b"load d\n(a\n..\n)a\n.\nnames\n",
        b"error pyx 2 bad-code\n.\n",
    ),
    (
        b"load\ndrop d\n.\nload d e\nnames\n.\nnames\n",
        b"error syntax\nerror syntax\n.\n",
    ),
    (
        b"load b\n?x href=\"a.css\"\n(b\nAi 0-1\n-\\n  \n(t\n-T & p\n)t\n-\\n\n)b\n.\nexport b\n",
        b"ok 8 1\n?x href=\"a.css\"\n(b\nAi 0-1\n-\\n  \n(t\n-T & p\n)t\n-\\n\n)b\n.\n",
    ),
];

// A run over the store answers so, where its input comes in such pieces.
fn check_piece(
    rt: &(impl Threads + Abort + Sync),
    alloc: Global,
    image: &Image,
    (script, output): (&[u8], &[u8]),
    piece: u32,
) -> Result<(), NoMemory> {
    let mut host = host_with(alloc, image, script, piece.max(1))?;
    assert_eq!(rt; run_script(rt, alloc, &mut host)?, Status::Done);
    assert_eq!(rt; host.output(), output, "{piece}");
    Ok(())
}

// However the input is cut into pieces.
#[test]
fn a_script_has_its_replies(rt: HostRuntime) -> Result<(), Fail> {
    let image = new_store(rt.alloc(), LIGHT)?;
    for script in SCRIPTS {
        for piece in 1..20u32 {
            check_piece(&rt, rt.alloc(), &image, script, piece)?;
        }
    }
    Ok(())
}

// How a run ends that is stopped after so many calls, and its host then.
fn stopped(
    rt: &(impl Threads + Sync),
    alloc: Global,
    image: &Image,
    script: &[u8],
    piece: u32,
    stop: u64,
) -> Result<(Status, MemoryHost), NoMemory>
    requires { 0 < piece }
{
    let mut host = host_with(alloc, image, script, piece)?;
    host.stop_after(stop);
    let status = run_script(rt, alloc, &mut host)?;
    Ok((status, host))
}

// What is out at each read that fails.
const OUT: [&[u8]; 5] = [
    b"",
    b".\n",
    b".\n",
    b".\nerror no-document\n",
    b".\nerror no-document\n",
];

// Whether a read is the call that fails; what is out then is that of so many reads.
fn is_at_read(
    rt: &(impl Threads + Abort + Sync),
    alloc: Global,
    image: &Image,
    stop: u64,
    read: usize,
) -> Result<bool, NoMemory> {
    let (status, host) = stopped(rt, alloc, image, b"names\nget x /\nexport", 6, stop)?;
    if status != Status::ReadFault {
        return Ok(false);
    }
    assert_eq!(rt; OUT.get(read).copied(), Some(host.output()));
    Ok(true)
}

// The replies to what was read are out before more is read.
#[test]
fn a_reply_comes_before_more_is_read(rt: HostRuntime) -> Result<(), Fail> {
    let image = new_store(rt.alloc(), LIGHT)?;
    let mut read = 0usize;
    for stop in 0..64 {
        if is_at_read(&rt, rt.alloc(), &image, stop, read)? {
            read = read.saturating_add(1);
        }
    }
    assert_eq!(rt; read, 5);
    Ok(())
}
