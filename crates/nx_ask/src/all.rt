// Questions over a snapshot.
ghost use Rattle.std.specs.Prelude.{◌+◌, ◌-◌, ◌^◌, ◌<◌, ◌≤◌, length, IfOk, IfErr};
ghost use Rattle.std.specs.Thread.{IsSync};
ghost use Rattle.nx_state.specs.State.{State};
ghost use Rattle.nx_ask.specs.Asked.{Asked, AreAsked, NotAsked, IsSnapshotOf};

use crate::cut::before_last;
use crate::disk::SnapshotDisk;
use crate::row::{answer_over, answer_row};
use crate::{AskError, Snapshot};
use nx_lists::List;
use nx_par::Gate;
use nx_script::{Command, Reply};
use std::alloc::Global;
use std::thread::{Threads, join};

/// A list of replies.
pub type Replies = List<Reply>;

/// The reply to a question about the store of which the snapshot is: that of a store in its state. What is no question, as a
/// command that changes a store, is answered as a line that is no command. The snapshot stays as it is.
///
/// Errors: `Damaged`, only where the snapshot's pages stand for no state; `Memory`.
pub fn answer_one<R: Threads + Sync>(
    rt: &R,
    alloc: Global,
    snapshot: &Snapshot,
    question: &Command,
) -> Result<Reply, AskError>
    ensures ok { IfOk result (λ reply. (state : State) → IsSnapshotOf snapshot.now state → Asked state question.now reply) }
    ensures refused { IfErr result (λ e. NotAsked (IsSnapshotOf snapshot.now) e) }
{
    let mut disk = SnapshotDisk::new(snapshot.bytes.as_slice());
    answer_over(rt, alloc, &mut disk, question)
}

/// The replies to questions, in their order: one to each, as `answer_one` gives it, for every number of workers. There is at least one worker,
/// and there are fewer than 4,294,967,296 questions.
///
/// The questions are cut into as many rows as there are workers, or into rows of one where there are fewer questions. The rows have
/// the same number of questions but for one. Each row is answered by a thread of its own, a single row by this one; whoever answers a row opens a
/// store of its own over the snapshot. There is a thread for each row, and calls stand in each other as often. The gate is told before and after
/// each question, by its place.
///
/// Errors: as `answer_one`.
pub fn answer_all<R: Threads + Sync, G: Gate>(
    rt: &R,
    alloc: Global,
    snapshot: &Snapshot,
    questions: &[Command],
    workers: u32,
    gate: &G,
) -> Result<Replies, AskError>
    requires some { 1 ≤ workers }
    requires few { length questions.now < 2 ^ 32 }
    ensures ok { IfOk result (λ replies. AreAsked (IsSnapshotOf snapshot.now) questions.now replies) }
    ensures refused { IfErr result (λ e. NotAsked (IsSnapshotOf snapshot.now) e) }
{
    if questions.is_empty() {
        return Ok(Replies::new(alloc));
    }
    let workers = workers.min(questions.len() as u32);
    match answer_by(rt, alloc, snapshot, questions, workers, gate) {
        Ok(replies) => Ok(Replies::from_vec(replies)),
        Err(error) => Err(error),
    }
}

// The same by this thread, or by one for each worker.
fn answer_by<R: Threads + Sync, G: Gate>(
    rt: &R,
    alloc: Global,
    snapshot: &Snapshot,
    questions: &[Command],
    workers: u32,
    gate: &G,
) -> Result<Vec<Reply>, AskError>
    requires some { 1 ≤ workers }
    requires few { length questions.now < 2 ^ 32 }
    ensures ok { IfOk result (λ replies. AreAsked (IsSnapshotOf snapshot.now) questions.now replies.items) }
    ensures refused { IfErr result (λ e. NotAsked (IsSnapshotOf snapshot.now) e) }
{
    if workers == 1 {
        answer_alone(rt, alloc, snapshot, questions, 0, gate)
    } else {
        answer_rows(rt, alloc, snapshot, questions, 0, workers, gate)
    }
}

// The replies to questions of which the first one has this number. The last row is answered by a thread, and this one goes on with the
// questions before it. So it begins all threads itself and then waits: Linux puts threads that one thread begins on processors of their own,
// and one that a new thread begins often beside that one.
#[cycle(rows)]
fn answer_rows<R: Threads + Sync, G: Gate>(
    rt: &R,
    alloc: Global,
    snapshot: &Snapshot,
    questions: &[Command],
    first: u32,
    workers: u32,
    gate: &G,
) -> Result<Vec<Reply>, AskError>
    requires some { 1 ≤ length questions.now → 1 ≤ workers }
    requires few { first + length questions.now < 2 ^ 32 }
    ensures ok { IfOk result (λ replies. AreAsked (IsSnapshotOf snapshot.now) questions.now replies.items) }
    ensures refused { IfErr result (λ e. NotAsked (IsSnapshotOf snapshot.now) e) }
{
    if questions.is_empty() {
        return Ok(Vec::new(alloc));
    }
    let at = before_last(questions.len(), workers);
    let next = first + at as u32;
    let (front, back) = questions.split_at(at);
    let last = move || -> Result<Vec<Reply>, AskError>
        requires { IsSync R.row × IsSync G.row × (next + length back.now < 2 ^ 32) }
        ensures { IfOk result (λ replies. AreAsked (IsSnapshotOf snapshot.entry.now) back.entry.now replies.items) × IfErr result (λ e. NotAsked (IsSnapshotOf snapshot.entry.now) e) }
    { answer_alone(rt, alloc, snapshot, back, next, gate) };
    let others = move || -> Result<Vec<Reply>, AskError>
        requires { IsSync R.row × IsSync G.row × (1 ≤ workers) × (1 ≤ length front.now → 1 ≤ workers - 1) × (first + length front.now < 2 ^ 32) }
        ensures { IfOk result (λ replies. AreAsked (IsSnapshotOf snapshot.entry.now) front.entry.now replies.items) × IfErr result (λ e. NotAsked (IsSnapshotOf snapshot.entry.now) e) }
    { answer_rows(rt, alloc, snapshot, front, first, workers - 1, gate) };
    let (high, low) = join(rt, last, others);
    let mut replies = low?;
    let mut more = high?;
    let Ok(_) = replies.append(&mut more) else {
        return Err(AskError::Memory);
    };
    Ok(replies)
}

// The same by one worker, over a disk of its own.
fn answer_alone<R: Threads + Sync, G: Gate>(
    rt: &R,
    alloc: Global,
    snapshot: &Snapshot,
    questions: &[Command],
    first: u32,
    gate: &G,
) -> Result<Vec<Reply>, AskError>
    requires { first + length questions.now < 2 ^ 32 }
    ensures ok { IfOk result (λ replies. AreAsked (IsSnapshotOf snapshot.now) questions.now replies.items) }
    ensures refused { IfErr result (λ e. NotAsked (IsSnapshotOf snapshot.now) e) }
{
    let mut disk = SnapshotDisk::new(snapshot.bytes.as_slice());
    answer_row(rt, alloc, &mut disk, questions, first, gate)
}
