// A run of a script over a store.
ghost use Rattle.std.specs.Prelude.{◌≡◌, ℕ, List, true, false, OnOk, IfErr};
ghost use Rattle.nx_script.specs.declared.request.Request.{Request};
ghost use Rattle.nx_script.specs.declared.request.Request.TheVariants.{Single};
ghost use Rattle.nx_script.specs.Commands.{CanCome};
ghost use Rattle.nx_script.specs.Script.{IsDrained};
ghost use Rattle.nx_script.specs.Requests.{HasGivenRequests, CanComeRequest};
ghost use Rattle.nx_steps.specs.Step.{may_change};
ghost use Rattle.nx_store.specs.Store.{TakesNone, HoldsOn};
ghost use Rattle.nx_steps.specs.Requests.{may_change_request};
ghost use Rattle.nx_store.specs.Reads.{is_lookup, needs_no_page_request, ReadsWithin};
ghost use Rattle.nx_front.specs.Lookups.{is_lookup_request, ReadsRequestWithin};
ghost use Rattle.nx_front.specs.Serving.{Serves};
ghost use Rattle.nx_front.specs.Conversation.{AnswersNext, BeginsNext, IsUnanswered, AnswersAll, EndsConversing, Converses, conversation_status, status_of_engine};

use crate::Status;
use nx_filters::{BLOCK, give_block};
use nx_host::{Disk, Host};
use nx_script::{Command, Request, Requests, push_reply};
use nx_steps::may_change;
use nx_store::{EngineError, Store};
use nx_tree::Bytes;
use std::alloc::Global;
use std::thread::Threads;

// Answers every request of the input from the store on the disk, in order. The replies to the requests that
// are whole in what was read are given before more is read, and before the next commit begins.
pub fn serve<R: Threads + Sync, H: Host>(rt: &R, alloc: Global, host: &mut H) -> Status
    ensures { Serves ⟦<H as Disk>⟧ result host.old host.new }
{
    match Store::open(alloc, host) {
        Ok(mut store) => match converse(rt, alloc, host, &mut store) {
            Ok(()) => Status::Done,
            Err(status) => status,
        },
        Err(error) => status_of(error),
    }
}

// Answers every request of the input.
fn converse<R: Threads + Sync, H: Host>(
    rt: &R,
    alloc: Global,
    host: &mut H,
    store: &mut Store,
) -> Result<(), Status>
    ensures { Converses ⟦<H as Disk>⟧ store.old (conversation_status result) host.old host.new }
{
    let mut script = Requests::new(alloc)?;
    let mut block = Bytes::new(alloc);
    loop {
        answer_ready(rt, host, store, &mut script, &mut block)?;
        give_block(host, &mut block)?;
        if script.is_ended() {
            return Ok(());
        }
        script.fill(host)?;
    }
}

// Answers every request that is whole in what was read. The last of the replies' texts are left in the
// block.
fn answer_ready<R: Threads + Sync, H: Host>(
    rt: &R,
    host: &mut H,
    store: &mut Store,
    script: &mut Requests,
    block: &mut Bytes,
) -> Result<(), Status>
    requires { (taken : List ℕ) × (requests : List Request) × HasGivenRequests script.old taken requests }
    ensures ok { OnOk result (AnswersAll ⟦<H as Disk>⟧ script.old script.new store.old store.new block.old block.new host.old host.new) }
    ensures drained { OnOk result (IsDrained script.new.script) }
    ensures taken { OnOk result (script.new.script.input.taken ≡ script.old.script.input.taken) }
    ensures ended { OnOk result (script.new.script.ended ≡ script.old.script.ended) }
    ensures err { IfErr result (λ status. EndsConversing ⟦<H as Disk>⟧ status script.old store.old block.old host.old host.new) }
{
    loop {
        let Some(request) = script.ready()? else {
            return Ok(());
        };
        answer(rt, host, store, block, request)?;
        if block.len() >= BLOCK {
            give_block(host, block)?;
        }
    }
}

// Answers a request: adds the reply's text to the block, or gives what the block has and a prefix of the
// text where it is long. All replies before a request that may write to the disk are given first, and its
// own at once; a transaction is such a one.
fn answer<R: Threads + Sync, H: Host>(
    rt: &R,
    host: &mut H,
    store: &mut Store,
    block: &mut Bytes,
    request: Request,
) -> Result<(), Status>
    requires { CanComeRequest request }
    ensures ok { OnOk result (AnswersNext ⟦<H as Disk>⟧ request store.old store.new block.old block.new host.old host.new) }
    ensures err { IfErr result (λ status. BeginsNext ⟦<H as Disk>⟧ request status store.old block.old host.old host.new) }
    ensures cause { IfErr result (λ status. IsUnanswered ⟦<H as Disk>⟧ status host.old host.new) }
    ensures beside { TakesNone ⟦<H as Disk>⟧ host.old host.new }
    ensures holds { is_lookup_request request ≡ true → OnOk result (HoldsOn ⟦<H as Disk>⟧ store.old store.new host.old host.new) }
    ensures reads { is_lookup_request request ≡ true → ReadsRequestWithin ⟦<H as Disk>⟧ request store.old host.old host.new }
{
    match request {
        Request::Single(command) => {
            if writes(&command) {
                return answer_alone(rt, host, store, block, Request::Single(command));
            }
            answer_behind(rt, host, store, block, command)
        }
        Request::Transaction(commands) => {
            answer_alone(rt, host, store, block, Request::Transaction(commands))
        }
    }
}

// ... one that may write to the disk.
fn answer_alone<R: Threads + Sync, H: Host>(
    rt: &R,
    host: &mut H,
    store: &mut Store,
    block: &mut Bytes,
    request: Request,
) -> Result<(), Status>
    requires { CanComeRequest request }
    ensures ok { OnOk result (AnswersNext ⟦<H as Disk>⟧ request store.old store.new block.old block.new host.old host.new) }
    ensures err { IfErr result (λ status. BeginsNext ⟦<H as Disk>⟧ request status store.old block.old host.old host.new) }
    ensures cause { IfErr result (λ status. IsUnanswered ⟦<H as Disk>⟧ status host.old host.new) }
    ensures beside { TakesNone ⟦<H as Disk>⟧ host.old host.new }
    ensures holds { may_change_request request ≡ false → OnOk result (HoldsOn ⟦<H as Disk>⟧ store.old store.new host.old host.new) }
    ensures unread { needs_no_page_request request ≡ true → H.reads host.new ≡ H.reads host.old }
{
    give_block(host, block)?;
    if let Err(error) = store.answer(rt, host, request) {
        return Err(status_of(error));
    }
    Ok(())
}

// ... a command that leaves what is stored.
fn answer_behind<R: Threads + Sync, H: Host>(
    rt: &R,
    host: &mut H,
    store: &mut Store,
    block: &mut Bytes,
    command: Command,
) -> Result<(), Status>
    requires can_come { CanCome command }
    requires leaves { may_change command ≡ false }
    ensures ok { OnOk result (AnswersNext ⟦<H as Disk>⟧ (Single command) store.old store.new block.old block.new host.old host.new) }
    ensures err { IfErr result (λ status. BeginsNext ⟦<H as Disk>⟧ (Single command) status store.old block.old host.old host.new) }
    ensures cause { IfErr result (λ status. IsUnanswered ⟦<H as Disk>⟧ status host.old host.new) }
    ensures beside { TakesNone ⟦<H as Disk>⟧ host.old host.new }
    ensures holds { is_lookup command ≡ true → OnOk result (HoldsOn ⟦<H as Disk>⟧ store.old store.new host.old host.new) }
    ensures reads { is_lookup command ≡ true → ReadsWithin ⟦<H as Disk>⟧ command store.old host.old host.new }
{
    match command {
        Command::Export { name } => {
            if let Err(error) = store.export_into(host, name.as_slice(), block) {
                return Err(status_of(error));
            }
        }
        command => {
            let reply = match store.apply(rt, host, command) {
                Ok(reply) => reply,
                Err(error) => return Err(status_of(error)),
            };
            push_reply(block, &reply)?;
        }
    }
    Ok(())
}

// Whether the command may write to the disk: it may change what is stored, or moves the log's pages.
fn writes(command: &Command) -> bool
    ensures none { result ≡ false → may_change command.now ≡ false }
    ensures some { result ≡ true → is_lookup command.now ≡ false }
{
    match command {
        Command::Checkpoint => true,
        other => may_change(other),
    }
}

// How a run ends that the store stops.
pub fn status_of(error: EngineError) -> Status
    ensures { result ≡ status_of_engine error }
{
    // A store that runs is never told that it has ended, and none is made here.
    match error {
        EngineError::Disk => Status::DiskFault,
        EngineError::Write => Status::WriteFault,
        EngineError::NotAStore => Status::NotAStore,
        EngineError::Damaged { page } => Status::Damaged { page },
        EngineError::Memory | EngineError::Ended | EngineError::Exists => Status::NoMemory,
    }
}
