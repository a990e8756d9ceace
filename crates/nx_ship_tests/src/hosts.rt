// Hosts with areas, and the two calls over them. None promises anything, since a test that knows much is proved slowly.
ghost use Rattle.std.specs.Prelude.{◌<◌};

use nx_front::{Status, Word, Words, run};
use nx_memory::{Choice, Image, MemoryHost};
use nx_ship::{ShipError, Start, apply, ship};
use nx_tree::{Bytes, NoMemory};
use std::alloc::Global;
use std::thread::Threads;

/// What a crash may leave.
pub const CHOICES: [Choice; 3] = [Choice::Kept, Choice::Lost, Choice::Ones];

// Room for some commits.
const ROOM: u64 = 2_097_152;

/// Empty areas.
pub fn no_store(alloc: Global) -> Image {
    Image {
        pages: Bytes::new(alloc),
        log: Bytes::new(alloc),
    }
}

/// A host with the areas of this image, and with this input, which it gives in pieces.
pub fn host_with(
    alloc: Global,
    image: &Image,
    input: &[u8],
    piece: u32,
) -> Result<MemoryHost, NoMemory>
    requires { 0 < piece }
{
    let copy = Image {
        pages: Bytes::from_slice(alloc, image.pages.as_slice())?,
        log: Bytes::from_slice(alloc, image.log.as_slice())?,
    };
    MemoryHost::new(alloc, copy, Bytes::from_slice(alloc, input)?, piece, ROOM)
}

// How a command line ends over the host.
fn ran(
    rt: &(impl Threads + Sync),
    alloc: Global,
    texts: &[&str],
    host: &mut MemoryHost,
) -> Result<Status, NoMemory> {
    let mut words = Words::new(alloc);
    for text in texts {
        words.push(Word::new(alloc, text)?)?;
    }
    Ok(run(rt, alloc, &words, host))
}

/// The areas of a store that was made just now.
pub fn made(rt: &(impl Threads + Sync), alloc: Global) -> Result<Image, NoMemory> {
    let mut host = host_with(alloc, &no_store(alloc), b"", 65_536)?;
    ran(rt, alloc, &["s", "init", "16"], &mut host)?;
    host.image(Choice::Kept)
}

/// What the store answers to a script, how the run ends, and what is left then.
pub fn answers(
    rt: &(impl Threads + Sync),
    alloc: Global,
    image: &Image,
    script: &[u8],
) -> Result<(Status, Bytes, Image), NoMemory> {
    let mut host = host_with(alloc, image, script, 65_536)?;
    let status = ran(rt, alloc, &["s", "run"], &mut host)?;
    let left = host.image(Choice::Kept)?;
    Ok((status, Bytes::from_slice(alloc, host.output())?, left))
}

/// How shipping ends, and what is out then.
pub fn shipped(
    alloc: Global,
    image: &Image,
    start: Start,
) -> Result<(Result<(), ShipError>, Bytes), NoMemory> {
    let mut host = host_with(alloc, image, b"", 65_536)?;
    let result = ship(alloc, &mut host, start);
    Ok((result, Bytes::from_slice(alloc, host.output())?))
}

/// How applying ends, what is out then, and what is left.
pub fn applied(
    alloc: Global,
    image: &Image,
    stream: &[u8],
    piece: u32,
) -> Result<(Result<(), ShipError>, Bytes, Image), NoMemory>
    requires { 0 < piece }
{
    let mut host = host_with(alloc, image, stream, piece)?;
    let result = apply(alloc, &mut host);
    let left = host.image(Choice::Kept)?;
    Ok((result, Bytes::from_slice(alloc, host.output())?, left))
}
