// Hosts with areas, runs over them, and what a crash leaves. None promises anything, since a test that knows much is proved
// slowly.
ghost use Rattle.std.specs.Prelude.{◌<◌, ◌^◌};

use nx_front::{Status, Word, Words, run};
use nx_memory::{Choice, Image, MemoryHost};
use nx_tree::{Bytes, NoMemory};
use std::alloc::{AllocError, Global};
use std::thread::Threads;

/// What a crash may leave.
pub const CHOICES: [Choice; 3] = [Choice::Kept, Choice::Lost, Choice::Ones];

// Room for some commits.
const ROOM: u64 = 2_097_152;

/// The words of a command line.
pub fn words_of(alloc: Global, texts: &[&str]) -> Result<Words, NoMemory> {
    let mut words = Words::new(alloc);
    for text in texts {
        words.push(Word::new(alloc, text)?)?;
    }
    Ok(words)
}

/// Empty areas.
pub fn no_store(alloc: Global) -> Image {
    Image {
        pages: Bytes::new(alloc),
        log: Bytes::new(alloc),
    }
}

fn copy_of(alloc: Global, image: &Image) -> Result<Image, NoMemory> {
    Ok(Image {
        pages: Bytes::from_slice(alloc, image.pages.as_slice())?,
        log: Bytes::from_slice(alloc, image.log.as_slice())?,
    })
}

/// A host with the areas of this image, and with this input, which it gives in pieces.
pub fn host_with(
    alloc: Global,
    image: &Image,
    input: &[u8],
    piece: u32,
) -> Result<MemoryHost, NoMemory>
    requires { 0 < piece }
{
    let copy = copy_of(alloc, image)?;
    MemoryHost::new(alloc, copy, Bytes::from_slice(alloc, input)?, piece, ROOM)
}

/// How a run over the host ends.
pub fn status_of(
    rt: &(impl Threads + Sync),
    alloc: Global,
    words: &Words,
    host: &mut MemoryHost,
) -> Status {
    run(rt, alloc, words, host)
}

/// How a command line ends over the host.
pub fn ran(
    rt: &(impl Threads + Sync),
    alloc: Global,
    texts: &[&str],
    host: &mut MemoryHost,
) -> Result<Status, NoMemory> {
    let words = words_of(alloc, texts)?;
    Ok(status_of(rt, alloc, &words, host))
}

/// What a crash leaves of the host's areas.
pub fn left(host: &MemoryHost, choice: Choice) -> Result<Image, NoMemory> {
    host.image(choice)
}

/// Whether the areas are the same.
pub fn are_same(one: &Image, other: &Image) -> bool {
    one.pages.as_slice() == other.pages.as_slice() && one.log.as_slice() == other.log.as_slice()
}

/// How a run of a script over an image ends, and what is out then.
pub fn answers(
    rt: &(impl Threads + Sync),
    alloc: Global,
    image: &Image,
    script: &[u8],
) -> Result<(Status, Bytes), NoMemory> {
    let mut host = host_with(alloc, image, script, 65_536)?;
    let status = ran(rt, alloc, &["s", "run"], &mut host)?;
    Ok((status, Bytes::from_slice(alloc, host.output())?))
}

/// The text with 1,024 letters for each `!`, 1,025 for `~`, 8,184 for `*` and 8,185 for `^`: the most that an item holds
/// and that a chain page holds, and one more.
pub fn spelled(alloc: Global, text: &[u8]) -> Result<Vec<u8>, AllocError> {
    let mut spelled = Vec::new(alloc);
    for byte in text {
        match *byte {
            b'!' => push_letters(alloc, &mut spelled, 1_024)?,
            b'~' => push_letters(alloc, &mut spelled, 1_025)?,
            b'*' => push_letters(alloc, &mut spelled, 8_184)?,
            b'^' => push_letters(alloc, &mut spelled, 8_185)?,
            letter => spelled.push(letter)?,
        }
    }
    Ok(spelled)
}

fn push_letters(alloc: Global, text: &mut Vec<u8>, letters: usize) -> Result<(), AllocError> {
    let line = Vec::from_elem(alloc, b'x', letters)?;
    text.extend_from_slice(line.as_slice())
}
