// A run of generated commands over a store.
ghost use Rattle.std.specs.Prelude.{◌≡◌, ◌<◌, ◌≤◌, ◌+◌, ◌^◌, ℕ, if◌then◌else◌, map, length, IfOk, IfErr, IsSome, string_bytes};
ghost use Rattle.std.specs.FinMap.{entries};
ghost use Rattle.nx_host.specs.Still.{WritesAlone};
ghost use Rattle.nx_gen.specs.Commands.{gen_name};
ghost use Rattle.nx_state.specs.State.{State};
ghost use Rattle.nx_steps.specs.Requests.{is_refused};
ghost use Rattle.nx_store.specs.Told.{line_of};
ghost use Rattle.nx_store.specs.Store.{IsAt};
ghost use Rattle.nx_store.specs.declared.error.EngineError.TheVariants as engine;
ghost use Rattle.nx_front.specs.Conversation.{IsUnanswered, status_of_engine};
ghost use Rattle.nx_front.specs.Generating.{generated_requests, summary_text, Generates};
ghost use Rattle.nx_front.specs.Carrying.{exported_size, listed_nodes, CarriesOut, StopsCarrying};

use crate::Status;
use crate::init::say;
use crate::serve::status_of;
use nx_gen::Gen;
use nx_host::{Disk, Host};
use nx_script::{DocLine, Reply};
use nx_store::{EngineError, Store};
use nx_tree::NoMemory;
use std::alloc::Global;
use std::thread::Threads;

// The name of the document that the generated commands load.
const NAME: &[u8] = b"gen";

// Carries out the commands of a seed and a number over the store on the disk, and tells what came of them; or says that there
// is a document of their name. No input is taken.
pub fn generate<R: Threads + Sync, H: Host>(
    rt: &R,
    alloc: Global,
    host: &mut H,
    seed: u32,
    n: u32,
) -> Status
    requires seed { seed < 2 ^ 31 }
    requires some { 1 ≤ n }
    requires few { n ≤ 100000 }
    ensures { Generates ⟦<H as Disk>⟧ seed n result host.old host.new }
{
    let mut store = match Store::open(alloc, host) {
        Ok(store) => store,
        Err(error) => return status_of(error),
    };
    match generated_nodes(&store) {
        Ok(None) => {}
        Ok(Some(_)) => return say(host, b"refused exists\n", Status::Refused),
        Err(error) => return status_of(error),
    }
    match carry_out(rt, alloc, host, &mut store, seed, n) {
        Ok(summary) => say(host, summary.as_bytes(), Status::Done),
        Err(error) => status_of(error),
    }
}

// Carries out the commands of a seed and a number, and makes the lines that tell what came of them.
fn carry_out<R: Threads + Sync, D: Disk>(
    rt: &R,
    alloc: Global,
    disk: &mut D,
    store: &mut Store,
    seed: u32,
    n: u32,
) -> Result<String, EngineError>
    requires seed { seed < 2 ^ 31 }
    requires some { 1 ≤ n }
    requires few { n ≤ 100000 }
    ensures ok { IfOk result (λ summary. CarriesOut D.Disk (generated_requests seed n) (string_bytes summary) store.old store.new disk.old disk.new) }
    ensures some { IfOk result (λ summary. 1 ≤ length (string_bytes summary)) }
    ensures err { IfErr result (λ e. StopsCarrying D.Disk (generated_requests seed n) e store.old disk.old disk.new) }
    ensures cause { IfErr result (λ e. IsUnanswered D.Disk (status_of_engine e) disk.old disk.new) }
    ensures areas { WritesAlone D.Disk disk.old disk.new (λ _. Unit {0}) }
{
    let mut commands = Gen::new(alloc, seed, n)?;
    let mut counts = Counts::new();
    while let Some(command) = commands.next()? {
        let reply = store.apply(rt, disk, command)?;
        counts.add(reply);
    }
    let nodes = generated_nodes(store)?;
    Ok(summary(alloc, &counts, nodes.unwrap_or(0))?)
}

// What came of commands.
#[derive(Clone, Copy)]
struct Counts {
    commands: u32,
    // How many of them were refused.
    errors: u32,
    // How many bytes of text the last reply gives, where it gives a document.
    bytes: usize,
}

impl Counts {
    // Of no command.
    fn new() -> Counts
        ensures commands { result.commands ≡ 0 }
        ensures errors { result.errors ≡ 0 }
        ensures bytes { result.bytes ≡ 0 }
    {
        Counts {
            commands: 0,
            errors: 0,
            bytes: 0,
        }
    }

    // Counts one more, with this reply.
    fn add(&mut self, reply: Reply)
        requires few { self.old.commands < 2 ^ 31 }
        requires fewer { self.old.errors ≤ self.old.commands }
        ensures commands { self.new.commands ≡ self.old.commands + 1 }
        ensures errors { self.new.errors ≡ self.old.errors + (if is_refused reply then 1 else 0) }
        ensures bytes { self.new.bytes ≡ exported_size reply }
    {
        self.commands += 1;
        if matches!(&reply, Reply::Refused(_)) {
            self.errors += 1;
        }
        self.bytes = match &reply {
            Reply::Exported(text) => text.len(),
            _ => 0,
        };
    }
}

// The lines that tell what came of commands.
fn summary(alloc: Global, counts: &Counts, nodes: u32) -> Result<String, NoMemory>
    ensures { IfOk result (λ lines. string_bytes lines ≡ summary_text (counts.now).commands (counts.now).errors nodes (counts.now).bytes) }
{
    Ok(format!(in alloc;
        "commands {}\nerrors {}\nnodes {}\nbytes {}\n",
        counts.commands, counts.errors, nodes, counts.bytes
    )?)
}

// How many nodes the generated document has, if it is there, by what the store lists.
fn generated_nodes(store: &Store) -> Result<Option<u32>, EngineError>
    ensures ok { IfOk result (λ nodes. nodes ≡ listed_nodes gen_name (map line_of (entries ((store.now).catalog).documents))) }
    ensures err { IfErr result (λ e. e ≡ engine.Memory) }
{
    match store.names()? {
        Reply::Names(lines) => Ok(listed_nodes(lines.as_slice(), NAME)),
        _ => Ok(None),
    }
}

// How many nodes the document of that name has, if it is listed.
fn listed_nodes(lines: &[DocLine], name: &[u8]) -> Option<u32>
    ensures { result ≡ listed_nodes name.now lines.now }
{
    for line in lines {
        if name == line.name.as_slice() {
            return Some(line.nodes);
        }
    }
    None
}
