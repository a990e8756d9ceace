// Hosts with stores, and what snapshots of them answer. Most promise nothing, since a test that knows much is proved slowly.
use nx_ask::{AskError, Replies, Snapshot, answer_all, answer_one};
use nx_front::{Word, Words, run};
use nx_memory::{Choice, Image, MemoryHost};
use nx_par::Gate;
use nx_records::Settings;
use nx_script::{Command, Reply, Script, write_reply};
use nx_store::{EngineError, Store};
use nx_tree::{Bytes, NoMemory};
use std::alloc::Global;
use std::test::Fail;
use std::thread::Threads;

const LIGHT: Settings = Settings {
    k: 16,
    target: 50,
    tolerance: 4,
    limit: 16_777_216,
};

// Room for some loads.
const ROOM: u64 = 16_777_216;

/// A host of these areas.
pub fn host_of(alloc: Global, image: Image) -> Result<MemoryHost, NoMemory> {
    MemoryHost::new(alloc, image, Bytes::new(alloc), 1, ROOM)
}

/// A host with empty areas.
pub fn empty_host(alloc: Global) -> Result<MemoryHost, NoMemory> {
    let image = Image {
        pages: Bytes::new(alloc),
        log: Bytes::new(alloc),
    };
    host_of(alloc, image)
}

// The commands of a script, read by a host of their own.
fn script_of(alloc: Global, lines: &[u8]) -> Result<MemoryHost, NoMemory> {
    let image = Image {
        pages: Bytes::new(alloc),
        log: Bytes::new(alloc),
    };
    MemoryHost::new(alloc, image, Bytes::from_slice(alloc, lines)?, 65_536, 0)
}

/// The commands of these lines.
pub fn commands_of(alloc: Global, lines: &[u8]) -> Result<Vec<Command>, Fail> {
    let mut host = script_of(alloc, lines)?;
    let mut script = Script::new(alloc)?;
    let mut commands = Vec::new(alloc);
    for _ in 0..lines.len() {
        let Some(command) = script.next(&mut host)? else {
            return Ok(commands);
        };
        commands.push(command)?;
    }
    Ok(commands)
}

fn create(alloc: Global, host: &mut MemoryHost) -> Result<Store, EngineError> {
    Store::create(alloc, host, LIGHT)
}

// The words with which a script is answered over a store.
fn run_words(alloc: Global) -> Result<Words, NoMemory> {
    let mut words = Words::new(alloc);
    words.push(Word::new(alloc, "s")?)?;
    words.push(Word::new(alloc, "run")?)?;
    Ok(words)
}

fn answer<R: Threads + Sync>(rt: &R, alloc: Global, words: &Words, host: &mut MemoryHost) {
    run(rt, alloc, words, host);
}

/// A host with a new store over which a script was answered.
pub fn store_of<R: Threads + Sync>(
    rt: &R,
    alloc: Global,
    lines: &[u8],
) -> Result<MemoryHost, Fail> {
    let mut new = empty_host(alloc)?;
    create(alloc, &mut new)?;
    let input = Bytes::from_slice(alloc, lines)?;
    let mut host = MemoryHost::new(alloc, areas_of(&new)?, input, 65_536, ROOM)?;
    let words = run_words(alloc)?;
    answer(rt, alloc, &words, &mut host);
    Ok(host)
}

/// What the host's areas are.
pub fn areas_of(host: &MemoryHost) -> Result<Image, NoMemory> {
    host.image(Choice::Lost)
}

/// A snapshot of the host's store.
pub fn take(alloc: Global, host: &mut MemoryHost) -> Result<Snapshot, AskError> {
    Snapshot::take(alloc, host)
}

/// The replies to these questions.
pub fn ask_all<R: Threads + Sync, G: Gate>(
    rt: &R,
    alloc: Global,
    snapshot: &Snapshot,
    questions: &[Command],
    workers: u32,
    gate: &G,
) -> Result<Replies, AskError> {
    let few = questions.get(..1_000_000).unwrap_or(questions);
    if few.len() > 1_000_000 {
        return Ok(Replies::new(alloc));
    }
    answer_all(rt, alloc, snapshot, few, workers.max(1), gate)
}

/// The reply to this question.
pub fn ask_one<R: Threads + Sync>(
    rt: &R,
    alloc: Global,
    snapshot: &Snapshot,
    question: &Command,
) -> Result<Reply, AskError> {
    answer_one(rt, alloc, snapshot, question)
}

/// The texts of replies, one behind the other.
pub fn texts_of(alloc: Global, replies: &[Reply]) -> Result<Vec<u8>, Fail> {
    let mut texts = Vec::new(alloc);
    for reply in replies {
        texts.extend_from_slice(write_reply(alloc, reply)?.as_slice())?;
    }
    Ok(texts)
}

/// What the snapshot answers to a script.
pub fn answers<R: Threads + Sync, G: Gate>(
    rt: &R,
    alloc: Global,
    snapshot: &Snapshot,
    lines: &[u8],
    workers: u32,
    gate: &G,
) -> Result<Vec<u8>, Fail> {
    let questions = commands_of(alloc, lines)?;
    let replies = ask_all(rt, alloc, snapshot, questions.as_slice(), workers, gate)?;
    texts_of(alloc, replies.as_slice())
}
