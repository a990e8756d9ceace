// Hosts with stores, what runs over them answer, and what is seen of a store. Most promise nothing, since a test
// that knows much is proved slowly.
ghost use Rattle.std.specs.Prelude.{◌<◌, IfOk};
ghost use Rattle.nx_holdings.specs.Header.{AreSettings};
ghost use Rattle.nx_script.specs.Commands.{CanCome};
ghost use Rattle.nx_script.specs.Requests.{CanComeRequest};

use nx_front::{Status, Word, Words, run};
use nx_memory::{Choice, Image, MemoryHost};
use nx_records::{Records, Settings, StoreError};
use nx_script::{Command, Reply, Request, Requests, Script, ScriptError};
use nx_store::{EngineError, Store};
use nx_tree::{Bytes, NoMemory};
use std::alloc::Global;
use std::process::Abort;
use std::test::Fail;
use std::thread::Threads;

/// What a crash may leave.
pub const CHOICES: [Choice; 3] = [Choice::Kept, Choice::Lost, Choice::Ones];

/// A store with light parts, and one with heavy ones.
pub const LIGHT: Settings = Settings {
    k: 16,
    target: 50,
    tolerance: 4,
    limit: 16_777_216,
};

pub const HEAVY: Settings = Settings {
    k: 256,
    target: 50,
    tolerance: 64,
    limit: 16_777_216,
};

// Room for some loads.
const ROOM: u64 = 16_777_216;

/// The words of a command line.
pub fn words_of(alloc: Global, texts: &[&str]) -> Result<Words, NoMemory> {
    let mut words = Words::new(alloc);
    for text in texts {
        words.push(Word::new(alloc, text)?)?;
    }
    Ok(words)
}

/// A host of these areas, without input, and with room for some commits.
pub fn host_of(alloc: Global, image: Image) -> Result<MemoryHost, NoMemory> {
    MemoryHost::new(alloc, image, Bytes::new(alloc), 1, ROOM)
}

/// A host with empty areas.
pub fn empty_host(alloc: Global) -> Result<MemoryHost, NoMemory> {
    let image = Image {
        pages: Bytes::new(alloc),
        log: Bytes::new(alloc),
    };
    host_of(alloc, image)
}

/// A host with the areas of this image, and with this input, which it gives in pieces.
pub fn host_with(
    alloc: Global,
    image: &Image,
    input: &[u8],
    piece: u32,
) -> Result<MemoryHost, NoMemory>
    requires { 0 < piece }
{
    let copy = copy_of(alloc, image)?;
    MemoryHost::new(alloc, copy, Bytes::from_slice(alloc, input)?, piece, ROOM)
}

fn copy_of(alloc: Global, image: &Image) -> Result<Image, NoMemory> {
    Ok(Image {
        pages: Bytes::from_slice(alloc, image.pages.as_slice())?,
        log: Bytes::from_slice(alloc, image.log.as_slice())?,
    })
}

/// What a crash leaves of the host's areas.
pub fn left(host: &MemoryHost, choice: Choice) -> Result<Image, NoMemory> {
    host.image(choice)
}

fn opened_settings(alloc: Global, host: &mut MemoryHost) -> Result<Settings, StoreError> {
    Ok(Records::open(alloc, host)?.settings())
}

/// The settings of the store that an image has, if it has one.
pub fn settings_of(alloc: Global, image: Image) -> Result<Option<Settings>, Fail> {
    let mut host = host_of(alloc, image)?;
    match opened_settings(alloc, &mut host) {
        Ok(settings) => Ok(Some(settings)),
        Err(StoreError::NotAStore) => Ok(None),
        Err(error) => Err(Fail::new(error)),
    }
}

fn opened_format(alloc: Global, host: &mut MemoryHost) -> Result<u16, StoreError> {
    Ok(Records::open(alloc, host)?.format())
}

/// The format of the store that an image has.
pub fn format_of(alloc: Global, image: Image) -> Result<u16, Fail> {
    let mut host = host_of(alloc, image)?;
    Ok(opened_format(alloc, &mut host)?)
}

/// The command of these lines.
pub fn command_of(alloc: Global, lines: &[u8]) -> Result<Command, ScriptError>
    ensures { IfOk result (λ command. CanCome command) }
{
    let image = Image {
        pages: Bytes::new(alloc),
        log: Bytes::new(alloc),
    };
    let mut host = MemoryHost::new(alloc, image, Bytes::from_slice(alloc, lines)?, 65_536, 0)?;
    let mut script = Script::new(alloc)?;
    match script.next(&mut host)? {
        Some(command) => Ok(command),
        None => Ok(Command::Bad),
    }
}

/// The first request of these lines.
pub fn request_of(alloc: Global, lines: &[u8]) -> Result<Request, ScriptError>
    ensures { IfOk result (λ request. CanComeRequest request) }
{
    let image = Image {
        pages: Bytes::new(alloc),
        log: Bytes::new(alloc),
    };
    let mut host = MemoryHost::new(alloc, image, Bytes::from_slice(alloc, lines)?, 65_536, 0)?;
    let mut script = Requests::new(alloc)?;
    match script.next(&mut host)? {
        Some(request) => Ok(request),
        None => Ok(Request::Single(Command::Bad)),
    }
}

/// Makes a store.
pub fn create(
    alloc: Global,
    host: &mut MemoryHost,
    settings: Settings,
) -> Result<Store, EngineError>
    requires { AreSettings settings }
{
    Store::create(alloc, host, settings)
}

/// Opens the store that the host has.
pub fn open(alloc: Global, host: &mut MemoryHost) -> Result<Store, EngineError> {
    Store::open(alloc, host)
}

/// What the store says to the command of these lines.
pub fn apply(
    rt: &(impl Threads + Sync),
    alloc: Global,
    store: &mut Store,
    host: &mut MemoryHost,
    lines: &[u8],
) -> Result<Result<Reply, EngineError>, ScriptError> {
    let command = command_of(alloc, lines)?;
    Ok(store.apply(rt, host, command))
}

/// The image of a new store.
pub fn new_store(alloc: Global, settings: Settings) -> Result<Image, EngineError>
    requires { AreSettings settings }
{
    let mut host = empty_host(alloc)?;
    create(alloc, &mut host, settings)?;
    Ok(left(&host, Choice::Lost)?)
}

/// How a run over the host ends.
pub fn status_of(
    rt: &(impl Threads + Sync),
    alloc: Global,
    words: &Words,
    host: &mut MemoryHost,
) -> Status {
    run(rt, alloc, words, host)
}

/// Runs a script over a host that has a store.
pub fn run_script(
    rt: &(impl Threads + Sync),
    alloc: Global,
    host: &mut MemoryHost,
) -> Result<Status, NoMemory> {
    let words = words_of(alloc, &["s", "run"])?;
    Ok(status_of(rt, alloc, &words, host))
}

// The host after a whole script.
fn ran(
    rt: &(impl Threads + Abort + Sync),
    alloc: Global,
    image: &Image,
    script: &[u8],
) -> Result<MemoryHost, NoMemory> {
    let mut host = host_with(alloc, image, script, 65_536)?;
    assert_eq!(rt; run_script(rt, alloc, &mut host)?, Status::Done);
    Ok(host)
}

/// What a store answers to a script.
pub fn answers(
    rt: &(impl Threads + Abort + Sync),
    alloc: Global,
    image: &Image,
    script: &[u8],
) -> Result<Bytes, NoMemory> {
    let host = ran(rt, alloc, image, script)?;
    assert_eq!(rt; host.counts().faults, 0);
    Bytes::from_slice(alloc, host.output())
}

/// What a store is after a script.
pub fn stored(
    rt: &(impl Threads + Abort + Sync),
    alloc: Global,
    image: &Image,
    script: &[u8],
) -> Result<Image, NoMemory> {
    left(&ran(rt, alloc, image, script)?, Choice::Lost)
}
