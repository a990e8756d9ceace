// Questions that one worker answers, one after the other.
ghost use Rattle.std.specs.Prelude.{◌≡◌, ◌+◌, ◌^◌, ◌≤◌, length, Some, IsSome, IfOk, IfErr};
ghost use Rattle.nx_host.specs.Disk.{Image};
ghost use Rattle.nx_host.specs.Still.{IsStill, IsSettled};
ghost use Rattle.nx_state.specs.State.{State};
ghost use Rattle.nx_state.specs.Stands.{Recovers};
ghost use Rattle.nx_store.specs.Store.{IsAt};
ghost use Rattle.nx_ask.specs.Asked.{Asked, AreAsked, NotAsked};
ghost use Rattle.nx_ask.specs.Errors.{asked_error};

use crate::AskError;
use crate::question::copy_question;
use nx_host::Disk;
use nx_par::Gate;
use nx_script::{Command, Reply, ReplyError};
use nx_store::{EngineError, Store};
use std::alloc::Global;
use std::thread::Threads;

/// The replies to questions that are asked of a disk, in their order. Its store is opened once. The gate is told of each question by
/// its number, of which this is the first one's. At the first question that isn't answered the row ends.
///
/// Errors: `Damaged`, only where the disk stands for no state; `Memory`.
pub fn answer_row<R: Threads + Sync, D: Disk, G: Gate>(
    rt: &R,
    alloc: Global,
    disk: &mut D,
    questions: &[Command],
    first: u32,
    gate: &G,
) -> Result<Vec<Reply>, AskError>
    requires { first + length questions.now ≤ 2 ^ 32 }
    ensures ok { IfOk result (λ replies. IsSome (D.contents disk.new) → (was : Image) → IsSettled D.Disk disk.old was → AreAsked (λ state. Recovers was (Some state)) questions.now replies.items) }
    ensures refused { IfErr result (λ e. IsSome (D.contents disk.new) → (was : Image) → IsSettled D.Disk disk.old was → NotAsked (λ state. Recovers was (Some state)) e) }
{
    let Ok(mut replies) = Vec::with_capacity(alloc, questions.len()) else {
        return Err(AskError::Memory);
    };
    let mut store = open_store(alloc, disk)?;
    for (place, question) in questions.iter().enumerate() {
        let number = first + place as u32;
        gate.before(number);
        let answered = ask(rt, alloc, &mut store, disk, question);
        gate.after(number);
        let reply = answered?;
        let Ok(_) = replies.push(reply) else {
            return Err(AskError::Memory);
        };
    }
    Ok(replies)
}

/// The reply to a question that is asked of a disk.
///
/// Errors: as `answer_row`.
pub fn answer_over<R: Threads + Sync, D: Disk>(
    rt: &R,
    alloc: Global,
    disk: &mut D,
    question: &Command,
) -> Result<Reply, AskError>
    ensures ok { IfOk result (λ reply. IsSome (D.contents disk.new) → (was : Image) → IsSettled D.Disk disk.old was → (state : State) → Recovers was (Some state) → Asked state question.now reply) }
    ensures refused { IfErr result (λ e. IsSome (D.contents disk.new) → (was : Image) → IsSettled D.Disk disk.old was → NotAsked (λ state. Recovers was (Some state)) e) }
{
    let mut store = open_store(alloc, disk)?;
    ask(rt, alloc, &mut store, disk, question)
}

// The store of a disk.
fn open_store<D: Disk>(alloc: Global, disk: &mut D) -> Result<Store, AskError>
    ensures still { IsStill D.Disk disk.old disk.new }
    ensures ok { IfOk result (λ store. (was : Image) → IsSettled D.Disk disk.old was → (state : State) → Recovers was (Some state) → IsAt D.Disk store disk.new state) }
    ensures refused { IfErr result (λ e. (was : Image) → IsSettled D.Disk disk.old was → NotAsked (λ state. Recovers was (Some state)) e) }
{
    match Store::open_to_read(alloc, disk) {
        Ok(store) => Ok(store),
        Err(error) => Err(asked_error(error)),
    }
}

// Asks a store. What is no question doesn't reach it.
fn ask<R: Threads + Sync, D: Disk>(
    rt: &R,
    alloc: Global,
    store: &mut Store,
    disk: &mut D,
    question: &Command,
) -> Result<Reply, AskError>
    ensures told { IsSome (D.contents disk.new) → IsSome (D.contents disk.old) }
    ensures ok { IfOk result (λ reply. IsSome (D.contents disk.new) → (state : State) → IsAt D.Disk store.old disk.old state → Asked state question.now reply × IsAt D.Disk store.new disk.new state) }
    ensures refused { IfErr result (λ e. IsSome (D.contents disk.new) → NotAsked (IsAt D.Disk store.old disk.old) e) }
{
    let Some(command) = copy_question(alloc, question)? else {
        return Ok(Reply::Refused(ReplyError::Syntax));
    };
    match store.apply(rt, disk, command) {
        Ok(reply) => Ok(reply),
        Err(error) => Err(asked_error(error)),
    }
}

// What a question is answered whose store gives up so. Where page 0 isn't that of a store, the pages stand for no state. The disk of a
// snapshot fails where it is written alone, and no question writes it.
fn asked_error(error: EngineError) -> AskError
    ensures { result ≡ asked_error error }
{
    match error {
        EngineError::Damaged { page } => AskError::Damaged { page },
        EngineError::NotAStore => AskError::Damaged { page: 0 },
        _ => AskError::Memory,
    }
}
