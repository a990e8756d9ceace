// What changes a store, and is committed once.
ghost use Rattle.std.specs.Prelude.{◌≡◌, ◌≢◌, ◌≤◌, ◌<◌, ◌+◌, [], ◌∷◌, true, false, All, IsSome, IfOk, IfErr, OnOk, length};
ghost use Rattle.std.specs.Vec.Iter.{into_iter_items};
ghost use Rattle.nx_host.specs.Disk.{Image, Rose};
ghost use Rattle.nx_host.specs.Still.{IsStill, IsSettled, WritesAlone};
ghost use Rattle.nx_records.specs.Records.{log_length_of};
ghost use Rattle.nx_script.specs.Commands.{CanCome};
ghost use Rattle.nx_state.specs.State.{State};
ghost use Rattle.nx_steps.specs.Step.{may_change};
ghost use Rattle.nx_store.specs.Store.{is_ended, longest_log, IsShortened, IsOf, EndsNow, HoldsOn, RefusedHolds, GoesOn, IsAt, IsApplied, NotApplied};
ghost use Rattle.nx_store.specs.Staying.{LeavesOthers};
ghost use Rattle.nx_script.specs.declared.request.Request.TheVariants.{Single, Transaction};
ghost use Rattle.nx_script.specs.Reply.{answered_text};
ghost use Rattle.nx_store.specs.Changing.{reply_of, HasReplyText, IsToldOrNot, IsCarriedWithText, DropsChanges, NotPrepared, PreparesPart, PreparesAll, NotAllPrepared};

use crate::{EngineError, Store};
use nx_catalog::Catalog;
use nx_host::Disk;
use nx_lists::List;
use nx_script::{Answer, Command, Reply, ReplyError, write_answer, write_reply};
use nx_steps::may_change;
use nx_tree::Bytes;
use std::alloc::Global;
use std::thread::Threads;
use std::vec::IntoIter;

// A request that changes the store begins with a checkpoint where the log is longer, in bytes.
const LONG_LOG: u64 = 67_108_864;

// Which command of a transaction is refused, counted from 1, and why.
#[derive(Drop)]
pub(crate) struct Refusal {
    pub(crate) number: u64,
    pub(crate) error: ReplyError,
}

impl Store {
    // Carries out a command that may change the store. Beside the reply is its text, whose memory is taken before the commit.
    pub(crate) fn change<R: Threads + Sync, D: Disk>(
        &mut self,
        rt: &R,
        disk: &mut D,
        command: Command,
    ) -> Result<(Reply, Bytes), EngineError>
        requires runs { is_ended self.old ≡ false }
        requires come { CanCome command }
        requires may { may_change command ≡ true }
        ensures applies { (state : State) → IsAt D.Disk self.old disk.old state → IsSome (D.contents disk.new) → IsApplied D.Disk (reply_of result) state command self.new disk.old disk.new }
        ensures ok { IfOk result (λ answer. GoesOn self.old self.new × HasReplyText answer) }
        ensures refused { IfErr result (λ e. NotApplied D.Disk e self.old self.new disk.old disk.new) }
        ensures areas { WritesAlone D.Disk disk.old disk.new (λ _. Unit {0}) }
        ensures leaves { LeavesOthers D.Disk (Single command) self.old self.new disk.old disk.new }
        ensures kept { RefusedHolds D.Disk (reply_of result) self.old self.new disk.old disk.new }
    {
        self.shorten_log(disk)?;
        self.change_shortly(rt, disk, command)
    }

    // ... where the log is short.
    fn change_shortly<R: Threads + Sync, D: Disk>(
        &mut self,
        rt: &R,
        disk: &mut D,
        command: Command,
    ) -> Result<(Reply, Bytes), EngineError>
        requires runs { is_ended self.old ≡ false }
        requires short { log_length_of self.old.records ≤ longest_log }
        requires come { CanCome command }
        requires may { may_change command ≡ true }
        ensures applies { (state : State) → IsAt D.Disk self.old disk.old state → IsSome (D.contents disk.new) → IsApplied D.Disk (reply_of result) state command self.new disk.old disk.new }
        ensures ok { IfOk result (λ answer. GoesOn self.old self.new × HasReplyText answer) }
        ensures refused { IfErr result (λ e. NotApplied D.Disk e self.old self.new disk.old disk.new) }
        ensures areas { WritesAlone D.Disk disk.old disk.new (λ _. Unit {0}) }
        ensures leaves { LeavesOthers D.Disk (Single command) self.old self.new disk.old disk.new }
        ensures kept { RefusedHolds D.Disk (reply_of result) self.old self.new disk.old disk.new }
    {
        let mut text = Bytes::new(self.alloc);
        let reply = match self.prepare_change(rt, disk, command, &mut text) {
            Ok(Ok(reply)) => reply,
            Ok(Err(error)) => {
                self.drop_changes();
                return told(self.alloc, Reply::Refused(error));
            }
            Err(error) => {
                self.drop_changes();
                return Err(error);
            }
        };
        let Ok(()) = self.records.commit(disk) else {
            return Err(EngineError::Disk);
        };
        Ok((reply, text))
    }

    // Empties the log where it is long. Nothing waits.
    fn shorten_log<D: Disk>(&mut self, disk: &mut D) -> Result<(), EngineError>
        requires { is_ended self.old ≡ false }
        ensures goes { WritesAlone D.Disk disk.old disk.new (λ i. (state : State) → IsAt D.Disk self.old disk.old state → IsOf state i) }
        ensures ok { OnOk result ((is_ended self.new ≡ false) × (log_length_of self.new.records ≤ longest_log)
            × ((state : State) → IsAt D.Disk self.old disk.old state → IsSome (D.contents disk.new) → IsAt D.Disk self.new disk.new state)) }
        ensures log { OnOk result ((state : State) (was now : Image) → IsAt D.Disk self.old disk.old state → IsSettled D.Disk disk.old was → IsSettled D.Disk disk.new now → IsShortened was now) }
        ensures catalog { self.new.catalog ≡ self.old.catalog }
        ensures holds { OnOk result (HoldsOn D.Disk self.old self.new disk.old disk.new) }
        ensures refused { IfErr result (λ e. (e ≡ EngineError.Disk) × Rose (D.faults disk.old) (D.faults disk.new) × EndsNow self.old self.new) }
    {
        if self.records.log_length() <= LONG_LOG {
            return Ok(());
        }
        self.empty_log(disk)
    }

    // Drops what was changed and never committed. The catalog stays.
    fn drop_changes(&mut self)
        ensures drops { DropsChanges self.old self.new }
        ensures catalog { self.new.catalog ≡ self.old.catalog }
    {
        self.records.abandon();
    }

    // ... and puts this catalog back.
    fn put_back(&mut self, was: Catalog)
        ensures drops { DropsChanges self.old self.new }
        ensures catalog { self.new.catalog ≡ was }
    {
        self.records.abandon();
        self.catalog = was;
    }

    // Carries out a transaction. The text of its answer is given, whose memory is taken before the commit.
    pub(crate) fn transact<R: Threads + Sync, D: Disk>(
        &mut self,
        rt: &R,
        disk: &mut D,
        commands: List<Command>,
    ) -> Result<Bytes, EngineError>
        requires runs { is_ended self.old ≡ false }
        requires come { All CanCome commands }
        ensures transacts { (state : State) → IsAt D.Disk self.old disk.old state → IsSome (D.contents disk.new) → IsCarriedWithText D.Disk result state (Transaction commands) self.old self.new disk.old disk.new }
        ensures ok { OnOk result (GoesOn self.old self.new) }
        ensures refused { IfErr result (λ e. NotApplied D.Disk e self.old self.new disk.old disk.new) }
        ensures areas { WritesAlone D.Disk disk.old disk.new (λ _. Unit {0}) }
        ensures leaves { LeavesOthers D.Disk (Transaction commands) self.old self.new disk.old disk.new }
        ensures holds { commands ≡ [] → OnOk result (HoldsOn D.Disk self.old self.new disk.old disk.new) }
        ensures unread { commands ≡ [] → D.reads disk.new ≡ D.reads disk.old }
    {
        if commands.is_empty() {
            let mut text = Bytes::new(self.alloc);
            text.extend_from_slice(b".\n")?;
            return Ok(text);
        }
        self.shorten_log(disk)?;
        self.transact_shortly(rt, disk, commands)
    }

    // ... where the log is short. The catalog is copied once, to be put back.
    fn transact_shortly<R: Threads + Sync, D: Disk>(
        &mut self,
        rt: &R,
        disk: &mut D,
        commands: List<Command>,
    ) -> Result<Bytes, EngineError>
        requires runs { is_ended self.old ≡ false }
        requires short { log_length_of self.old.records ≤ longest_log }
        requires some { commands ≢ [] }
        requires come { All CanCome commands }
        ensures transacts { (state : State) → IsAt D.Disk self.old disk.old state → IsSome (D.contents disk.new) → IsCarriedWithText D.Disk result state (Transaction commands) self.old self.new disk.old disk.new }
        ensures ok { OnOk result (GoesOn self.old self.new) }
        ensures refused { IfErr result (λ e. NotApplied D.Disk e self.old self.new disk.old disk.new) }
        ensures areas { WritesAlone D.Disk disk.old disk.new (λ _. Unit {0}) }
        ensures leaves { LeavesOthers D.Disk (Transaction commands) self.old self.new disk.old disk.new }
    {
        let was = self.catalog.copied()?;
        let mut text = Bytes::new(self.alloc);
        match self.prepare_all(rt, disk, commands, &mut text) {
            Ok(None) => {}
            Ok(Some(refusal)) => {
                self.put_back(was);
                return told_at(self.alloc, refusal);
            }
            Err(error) => {
                self.put_back(was);
                return Err(error);
            }
        }
        let Ok(()) = self.records.commit(disk) else {
            return Err(EngineError::Disk);
        };
        Ok(text)
    }

    // Carries the commands out one after the other, but for the commit. Adds the texts of their replies, and a dot.
    fn prepare_all<R: Threads + Sync, D: Disk>(
        &mut self,
        rt: &R,
        disk: &mut D,
        commands: List<Command>,
        text: &mut Bytes,
    ) -> Result<Option<Refusal>, EngineError>
        requires runs { is_ended self.old ≡ false }
        requires come { All CanCome commands }
        ensures still { IsStill D.Disk disk.old disk.new }
        ensures ok { IfOk result (λ refusal. PreparesAll D.Disk commands refusal text.old text.new self.old self.new disk.old disk.new) }
        ensures refused { IfErr result (λ e. NotAllPrepared D.Disk e self.old self.new disk.old disk.new) }
    {
        let len = commands.len();
        let mut rest = commands.into_vec().into_iter();
        for done in 0..len {
            let next = next_command(&mut rest);
            match self.prepare_part(rt, disk, next, text)? {
                Ok(_) => {}
                Err(error) => return Ok(Some(refused_behind(done, error))),
            }
        }
        text.extend_from_slice(b".\n")?;
        Ok(None)
    }

    // ... one of them. A command that may not change the store is refused.
    fn prepare_part<R: Threads + Sync, D: Disk>(
        &mut self,
        rt: &R,
        disk: &mut D,
        command: Command,
        text: &mut Bytes,
    ) -> Result<Result<Reply, ReplyError>, EngineError>
        requires runs { is_ended self.old ≡ false }
        requires come { CanCome command }
        ensures still { IsStill D.Disk disk.old disk.new }
        ensures ok { IfOk result (λ made. PreparesPart D.Disk command made text.old text.new self.old self.new disk.old disk.new) }
        ensures refused { IfErr result (λ e. NotPrepared D.Disk e self.old self.new disk.old disk.new) }
    {
        if !may_change(&command) {
            return Ok(Err(ReplyError::Syntax));
        }
        self.prepare_change(rt, disk, command, text)
    }
}

// The next command.
fn next_command(rest: &mut IntoIter<Command>) -> Command
    requires { 1 ≤ length (into_iter_items rest.old) }
    ensures { into_iter_items rest.old ≡ result ∷ into_iter_items rest.new }
{
    let Some(next) = rest.next() else {
        unreachable!()
    };
    next
}

// The command behind so many is refused.
fn refused_behind(done: usize, error: ReplyError) -> Refusal
    requires { done < 18446744073709551615 }
    ensures { result ≡ record { number = done + 1; error = error } }
{
    Refusal {
        number: done as u64 + 1,
        error,
    }
}

// A reply, and its text beside it.
fn told(alloc: Global, reply: Reply) -> Result<(Reply, Bytes), EngineError>
    ensures { IsToldOrNot reply result }
{
    let text = write_reply(alloc, &reply)?;
    Ok((reply, text))
}

// The text of the answer to a transaction that is refused.
fn told_at(alloc: Global, refusal: Refusal) -> Result<Bytes, EngineError>
    ensures ok { IfOk result (λ text. text ≡ answered_text (Answer.RefusedAt refusal.number refusal.error)) }
    ensures err { IfErr result (λ e. e ≡ EngineError.Memory) }
{
    let Refusal { number, error } = refusal;
    let text = write_answer(alloc, &Answer::RefusedAt { number, error })?;
    Ok(text)
}
