// A session over a new store in memory.
ghost use Rattle.std.specs.Prelude.{◌≡◌, ◌<◌, ◌≤◌, ◌^◌, ℕ, List, [], ◌∷◌, length, false, Some, IfOk, codes};
ghost use Rattle.nx_host.specs.Input.{most_input};
ghost use Rattle.nx_records.specs.Words.{Settings};
ghost use Rattle.nx_front.specs.CommandLine.{command_line};
ghost use Rattle.nx_front.specs.declared.words.CommandLine.TheVariants.{Init};
ghost use Rattle.nx_memory_session.specs.Session.{IsUntouched, HasNewStore, EndsMaking, EndsSession};

use nx_front::{Status, Word, Words, run};
use nx_lists::NoMemory;
use nx_memory::{Image, QuietHost};
use nx_tree::Bytes;
use std::alloc::Global;
use std::thread::Threads;

/// How a session ended, and the host with its output and its areas.
#[derive(Drop)]
pub struct Session {
    pub status: Status,
    pub host: QuietHost,
}

/// Runs a command line `STORE init K ..` over a host in memory with empty areas, and then `STORE run` with
/// this script. The output is `ok`, and behind it the replies.
///
/// Where the words are such a command line, the script has fewer than 4,294,967,296 bytes, and the host's
/// room, so many bytes for each area, the output and the history, isn't used up (`QuietHost::is_full`), the
/// session ends with `Done` or, where memory ran out, with `NoMemory`. With `Done` each request of the script
/// is answered, from the new store on, each one from the state that the one before left; and whatever crash
/// comes then, the disk has the last state.
///
/// Errors: `NoMemory`, where there was none for the host or the words.
pub fn answer_script<R: Threads + Sync>(
    rt: &R,
    alloc: Global,
    words: &Words,
    script: Bytes,
    room: u64,
) -> Result<Session, NoMemory>
    requires { room ≤ 2 ^ 32 }
    ensures { IfOk result (λ session. (settings : Settings) → command_line words.now ≡ Some (Init settings) → length script < most_input → session.host.full ≡ false →
        EndsSession settings script session.status session.host) }
{
    let mut host = new_host(alloc, script, room)?;
    let status = make_and_answer(rt, alloc, words, &mut host)?;
    Ok(Session { status, host })
}

// A host of empty areas.
fn new_host(alloc: Global, script: Bytes, room: u64) -> Result<QuietHost, NoMemory>
    requires { room ≤ 2 ^ 32 }
    ensures { IfOk result (λ host. IsUntouched script host) }
{
    let image = Image {
        pages: Bytes::new(alloc),
        log: Bytes::new(alloc),
    };
    QuietHost::new(alloc, image, script, room)
}

// Makes the store and answers the script over it. Where there is no room left, the script isn't begun.
fn make_and_answer<R: Threads + Sync>(
    rt: &R,
    alloc: Global,
    words: &Words,
    host: &mut QuietHost,
) -> Result<Status, NoMemory>
    ensures { IfOk result (λ status. (settings : Settings) (script : List ℕ) → command_line words.now ≡ Some (Init settings) → length script < most_input →
        IsUntouched script host.old → host.new.full ≡ false → EndsSession settings script status host.new) }
{
    match make_store(rt, alloc, words, host) {
        Status::Done => {}
        status => return Ok(status),
    }
    if host.is_full() {
        return Ok(Status::Done);
    }
    let words = run_words(alloc)?;
    Ok(answer(rt, alloc, &words, host))
}

// Makes the store.
fn make_store<R: Threads + Sync>(
    rt: &R,
    alloc: Global,
    words: &Words,
    host: &mut QuietHost,
) -> Status
    ensures { (settings : Settings) (script : List ℕ) → command_line words.now ≡ Some (Init settings) → IsUntouched script host.old → host.new.full ≡ false →
        EndsMaking settings script result host.new }
{
    run(rt, alloc, words, host)
}

// Answers the script.
fn answer<R: Threads + Sync>(rt: &R, alloc: Global, words: &Words, host: &mut QuietHost) -> Status
    requires { words.now ≡ codes "store" ∷ codes "run" ∷ [] }
    ensures { (settings : Settings) (script : List ℕ) → length script < most_input → HasNewStore settings script host.old → host.old.full ≡ false → host.new.full ≡ false →
        EndsSession settings script result host.new }
{
    run(rt, alloc, words, host)
}

// The words with which a script is answered over a store.
fn run_words(alloc: Global) -> Result<Words, NoMemory>
    ensures { IfOk result (λ words. words ≡ codes "store" ∷ codes "run" ∷ []) }
{
    let mut words = Words::new(alloc);
    words.push(Word::new(alloc, "store")?)?;
    words.push(Word::new(alloc, "run")?)?;
    Ok(words)
}
