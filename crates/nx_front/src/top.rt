// The top call.
ghost use Rattle.std.specs.Prelude.{◌≡◌, ◌≤◌, ◌⊎◌, ◌↔◌, ℕ, List, None, Some};
ghost use Rattle.nx_front.specs.CommandLine.{command_line, IsLimited};
ghost use Rattle.nx_filters.specs.Outcome.{TakesFew, CountsGrow, IsUndisturbed};
ghost use Rattle.nx_front.specs.Run.{IsCarriedOut, IsCompleted};
ghost use Rattle.nx_filters.specs.Plan.{IsLightInput};
ghost use Rattle.nx_filters.specs.Verify.{IsSoundInput};
ghost use Rattle.nx_front.specs.declared.words.CommandLine.{CommandLine};
ghost use Rattle.nx_front.specs.declared.words.CommandLine.TheVariants.{Plan, Verify};

use crate::apply::apply;
use crate::ask::ask;
use crate::check::check;
use crate::find::answer_questions;
use crate::generate::generate;
use crate::init::init;
use crate::serve::serve;
use crate::ship::ship;
use crate::words::{CommandLine, command_line};
use crate::{Status, Words};
use nx_filters::{plan, tidy, verify};
use nx_host::{Disk, Host};
use nx_lists::NoMemory;
use std::alloc::Global;
use std::thread::Threads;

/// Carries out the command line of these words, which are those after the program's own name, over
/// the host, and answers how it ended. Where a command uses a store, STORE is neither `_` nor a word that ends in `.log`; `tidy`, `plan` and
/// `verify` use none.
///
/// `STORE tidy` reads a document in PYX lines and gives its canonical text, or one line that
/// refuses it, and nothing else. `STORE run` reads the requests of a script, which are commands and transactions of several, and
/// gives their replies in order, over the store on the disk: whatever crash comes, the disk has the documents of the requests
/// that were answered, or of one request more, and so a transaction whole or not at all. `STORE plan K` reads a document in PYX lines and gives the lines of a plan: as few intervals
/// as there can be with parts of at most K slots, of which the root's is as light as it can be with so
/// many, and the minima of each node's subtree; or one line that says what is wrong, or which node
/// weighs more than K. `STORE verify K` reads a document in PYX lines, a line of one dot and the lines of a plan,
/// and gives the plan's number of intervals where no partitioning of the document with parts of at
/// most K slots has fewer, by the plan's own bounds, or one line that says what is wrong. An input of
/// 4,294,967,296 bytes or more is too much.
///
/// `STORE init K [TARGET [TOLERANCE [PAGES]]]` makes a store on a disk that has no
/// pages: whatever crash comes, the disk is as it was, or has the new store, and the latter once a byte of
/// `ok` is out. Over a disk with pages it gives the line `refused exists`, and writes nothing to the disk. It
/// takes no input.
///
/// `STORE gen SEED N` carries out the generated commands of a seed below 2^31 and a number from 1 to
/// 100,000 over the store on the disk, and gives four lines: how many commands there were, how many of them were refused, and
/// how many nodes and bytes of text the document `gen` has then. Whatever crash comes, the disk has the documents after some
/// of the commands, and after all of them once a byte is out. Where there is a document `gen` it gives the line `refused exists`,
/// and writes nothing to the disk. It takes no input.
///
/// `STORE check` gives the line `sound` where the pages of the disk stand for a state, and else `wrong PAGE RULE`, the first
/// rule that they break and the page to blame. It takes no input, and writes nothing to the disk.
///
/// `STORE find` reads lines `find NAME STEPS`, and gives for each a line `at PATH` for each node that the steps reach in
/// the document of that name, in document order, and a line `.`; or one line that refuses it. It writes nothing to the disk.
///
/// `STORE ask WORKERS` answers the requests of a script over one snapshot of the store on the disk, by that many workers,
/// 1 to 64, which share it. `names`, `export`, `get`, `layout` and `rules` are answered as `run` answers them; every other command, and a transaction, is answered as a line
/// that is no command. The replies to 1,024 requests are given at once, in their order, when there are all of them. It writes nothing to the disk.
///
/// `STORE ship FROM` gives groups of the store as a stream: with `all` one group of all pages, with the number of
/// the last commit; with a number up to 18,446,744,073,709,551,615 the groups of the log from the first one with it on, and none
/// where it is the next one. Where no group has it, and it isn't the next one, it gives the line `refused no-group FROM LAST` instead. It takes
/// no input, and changes nothing on the disk.
///
/// `STORE apply` reads such a stream, applies each group to the store on the disk with one commit, and gives a line
/// `ok NUMBER` for each. Over a disk without pages the first group must be a whole store; every other group must have the number behind the last
/// one's, which is 0 behind the greatest. Whatever crash comes, the disk has the pages of the store with the groups whose lines are out laid
/// over them, or of one group more. Behind the lines of the groups before, which stay applied, it gives `refused repeat NUMBER LAST` or
/// `refused gap NUMBER LAST` for a group that isn't the next one, `refused base NUMBER` for a first one that is no whole store, and
/// `refused stream OFFSET` where no good group stands at that offset.
pub fn run<R: Threads + Sync, H: Host>(rt: &R, alloc: Global, words: &Words, host: &mut H) -> Status
    // For those that read an input and keep nothing there is one outcome, for `run` over a store one run. Why the run ends so, what it has taken by then, and what it has given
    // of that outcome's text, then and at every moment; what it leaves of the disk.
    ensures carried { (line : CommandLine) → command_line words.now ≡ Some line → IsCarriedOut ⟦<H as Disk>⟧ line result host.old host.new }

    // However it ends.
    ensures bounded { TakesFew (H.beside host.old).input (H.beside host.new).input }
    ensures counts { CountsGrow (H.beside host.old) (H.beside host.new) × (H.faults host.old ≤ H.faults host.new) }

    ensures usage { (result ≡ Status.Usage) ↔ (command_line words.now ≡ None) }
    ensures untouched { result ≡ Status.Usage → host.new ≡ host.old }

    // It doesn't give up by itself, unless memory runs out.
    ensures complete { (line : CommandLine) → command_line words.now ≡ Some line → IsCompleted ⟦<H as Disk>⟧ line result host.old host.new }
    ensures planned { (k : ℕ) (input : List ℕ) → command_line words.now ≡ Some (Plan k) → IsUndisturbed input (H.beside host.old) (H.beside host.new) →
        IsLightInput k input → (result ≡ Status.Done) ⊎ (result ≡ Status.NoMemory) }
    ensures certified { (k : ℕ) (input : List ℕ) → command_line words.now ≡ Some (Verify k) → IsUndisturbed input (H.beside host.old) (H.beside host.new) →
        IsSoundInput k input → (result ≡ Status.Done) ⊎ (result ≡ Status.NoMemory) }
{
    match command_line(alloc, words) {
        Ok(Some(line)) => carry_out(rt, alloc, line, host),
        Ok(None) => Status::Usage,
        Err(NoMemory) => Status::NoMemory,
    }
}

// Carries out a command line.
fn carry_out<R: Threads + Sync, H: Host>(
    rt: &R,
    alloc: Global,
    line: CommandLine,
    host: &mut H,
) -> Status
    requires { IsLimited line }
    ensures { IsCarriedOut ⟦<H as Disk>⟧ line result host.old host.new }
{
    match line {
        CommandLine::Tidy => tidy(alloc, host),
        CommandLine::Run => serve(rt, alloc, host),
        CommandLine::Plan(k) => plan(alloc, host, k),
        CommandLine::Verify(k) => verify(alloc, host, k),
        CommandLine::Init(settings) => init(alloc, host, settings),
        CommandLine::Gen(seed, n) => generate(rt, alloc, host, seed, n),
        CommandLine::Check => check(alloc, host),
        CommandLine::Find => answer_questions(alloc, host),
        CommandLine::Ship(start) => ship(alloc, host, start),
        CommandLine::Apply => apply(alloc, host),
        CommandLine::Ask(workers) => ask(rt, alloc, host, workers),
    }
}
