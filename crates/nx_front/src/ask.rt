// A run of questions over a snapshot of a store.
ghost use Rattle.std.specs.Prelude.{◌≡◌, ◌≤◌, length, IfOk, IfErr, OnOk, OnErr};
ghost use Rattle.std.specs.List.{flat_map};
ghost use Rattle.nx_host.specs.Disk.{Rose};
ghost use Rattle.nx_host.specs.Host.{Appends};
ghost use Rattle.nx_host.specs.Phase.{TakesAlone, GivesAlone};
ghost use Rattle.nx_script.specs.Reply.{reply_text};
ghost use Rattle.nx_front.specs.Conversation.{conversation_status};
ghost use Rattle.nx_front.specs.Asking.{Asks, as_question, batch_size};
ghost use Rattle.nx_front.specs.Batches.{ReadsBatch, StopsBatch, AreAnswers, StopsAnswering, AnswersBatch, LeavesBatch, AsksAll, status_of_asking};

use crate::Status;
use nx_ask::{AskError, Replies, Snapshot, answer_all};
use nx_host::{Disk, Failed, Host};
use nx_par::NoGate;
use nx_script::{Command, Request, Requests, push_reply};
use nx_tree::{Bytes, NoMemory};
use std::alloc::Global;
use std::thread::Threads;

// How many requests are answered at once.
const BATCH: usize = 1_024;

// Answers every request of the input as a question over a snapshot of the store on the disk, in order, by so many workers. The requests are
// taken in batches, and the replies to a batch are given when there are all of them.
pub fn ask<R: Threads + Sync, H: Host>(rt: &R, alloc: Global, host: &mut H, workers: u32) -> Status
    requires { 1 ≤ workers }
    ensures { Asks ⟦<H as Disk>⟧ result host.old host.new }
{
    match Snapshot::take(alloc, host) {
        Ok(snapshot) => match answer_input(rt, alloc, host, &snapshot, workers) {
            Ok(()) => Status::Done,
            Err(status) => status,
        },
        Err(error) => status_of_asking(error),
    }
}

// Answers every request of the input.
fn answer_input<R: Threads + Sync, H: Host>(
    rt: &R,
    alloc: Global,
    host: &mut H,
    snapshot: &Snapshot,
    workers: u32,
) -> Result<(), Status>
    requires { 1 ≤ workers }
    ensures { AsksAll ⟦<H as Disk>⟧ snapshot.now (conversation_status result) host.old host.new }
{
    let mut script = Requests::new(alloc)?;
    for _ in 0..u64::MAX {
        let batch = read_batch(alloc, host, &mut script)?;
        answer_batch(rt, alloc, host, snapshot, batch.as_slice(), workers)?;
        if batch.len() < BATCH {
            return Ok(());
        }
    }
    // An input has fewer batches.
    Err(Status::NoMemory)
}

// What the next requests ask: as many as a batch has, or all that are left.
fn read_batch<H: Host>(
    alloc: Global,
    host: &mut H,
    script: &mut Requests,
) -> Result<Vec<Command>, Status>
    ensures ok { IfOk result (λ batch. ReadsBatch batch.items script.old script.new (H.beside host.old).input (H.beside host.new).input) }
    ensures most { IfOk result (λ batch. length batch.items ≤ batch_size) }
    ensures alone { TakesAlone ⟦<H as Disk>⟧ host.old host.new }
    ensures err { IfErr result (λ status. StopsBatch ⟦<H as Disk>⟧ status script.old script.new host.old host.new) }
{
    let Ok(mut batch) = Vec::with_capacity(alloc, BATCH) else {
        return Err(Status::NoMemory);
    };
    while batch.len() < BATCH {
        let Some(request) = script.next(host)? else {
            return Ok(batch);
        };
        let Ok(_) = batch.push(as_question(request)) else {
            return Err(Status::NoMemory);
        };
    }
    Ok(batch)
}

// The question that the request is. A transaction asks nothing, and is answered as a line that is no command.
fn as_question(request: Request) -> Command
    ensures { result ≡ as_question request }
{
    match request {
        Request::Single(command) => command,
        Request::Transaction(_) => Command::Bad,
    }
}

// Answers a batch of questions, and gives the texts of the replies. Where they aren't all there, nothing is given.
fn answer_batch<R: Threads + Sync, H: Host>(
    rt: &R,
    alloc: Global,
    host: &mut H,
    snapshot: &Snapshot,
    batch: &[Command],
    workers: u32,
) -> Result<(), Status>
    requires some { 1 ≤ workers }
    requires few { length batch.now ≤ batch_size }
    ensures ok { OnOk result (AnswersBatch ⟦<H as Disk>⟧ snapshot.now batch.now host.old host.new) }
    ensures err { IfErr result (λ status. LeavesBatch ⟦<H as Disk>⟧ status snapshot.now batch.now host.old host.new) }
{
    let texts = answer_texts(rt, alloc, snapshot, batch, workers)?;
    match give_texts(host, texts.as_slice()) {
        Ok(()) => Ok(()),
        Err(Failed) => Err(Status::WriteFault),
    }
}

// The texts of the replies to questions, one behind the other.
fn answer_texts<R: Threads + Sync>(
    rt: &R,
    alloc: Global,
    snapshot: &Snapshot,
    questions: &[Command],
    workers: u32,
) -> Result<Bytes, Status>
    requires some { 1 ≤ workers }
    requires few { length questions.now ≤ batch_size }
    ensures ok { IfOk result (λ texts. AreAnswers snapshot.now questions.now texts) }
    ensures err { IfErr result (λ status. StopsAnswering status snapshot.now) }
{
    match answer_all(rt, alloc, snapshot, questions, workers, &NoGate) {
        Ok(replies) => Ok(texts_of(alloc, &replies)?),
        Err(error) => Err(status_of_asking(error)),
    }
}

// The texts of replies, one behind the other.
fn texts_of(alloc: Global, replies: &Replies) -> Result<Bytes, NoMemory>
    ensures { IfOk result (λ texts. texts ≡ flat_map reply_text replies.now) }
{
    let mut texts = Bytes::new(alloc);
    for reply in replies.as_slice() {
        push_reply(&mut texts, reply)?;
    }
    Ok(texts)
}

// Gives texts, if there are any.
fn give_texts<H: Host>(host: &mut H, texts: &[u8]) -> Result<(), Failed>
    ensures gave { OnOk result (Appends texts.now (H.beside host.old).output (H.beside host.new).output) }
    ensures cause { OnErr result (Rose (H.beside host.old).out_faults (H.beside host.new).out_faults) }
    ensures alone { GivesAlone ⟦<H as Disk>⟧ texts.now host.old host.new }
{
    if texts.is_empty() {
        return Ok(());
    }
    host.emit(texts)
}

// The status of a run that can't ask so.
fn status_of_asking(error: AskError) -> Status
    ensures { result ≡ status_of_asking error }
{
    match error {
        AskError::NotAStore => Status::NotAStore,
        AskError::Disk => Status::DiskFault,
        AskError::Damaged { page } => Status::Damaged { page },
        AskError::Memory => Status::NoMemory,
    }
}
