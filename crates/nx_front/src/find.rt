// A run of questions for nodes by name over a store.
ghost use Rattle.std.specs.Prelude.{◌≡◌, ◌++◌, ◌∷◌, [], codes, IfOk, IfErr, OnOk};
ghost use Rattle.nx_host.specs.Still.{IsStill};
ghost use Rattle.nx_host.specs.Phase.{GivesAlone};
ghost use Rattle.nx_filters.specs.Outcome.{Given};
ghost use Rattle.nx_front.specs.Conversation.{IsUnanswered, conversation_status};
ghost use Rattle.nx_front.specs.Finding.{Finds, found_line, found_text};
ghost use Rattle.nx_front.specs.Questions.{answer_text, LooksUpOf, StopsLooking, FindsAll};
ghost use Rattle.nx_front.specs.Searching.{SearchesOf, StopsSearching, GathersOf, StopsGathering, ReachesOf, StopsReaching};

use crate::Status;
use crate::gathered::Gathered;
use crate::question::{Question, read_question};
use crate::serve::status_of;
use nx_filters::{BLOCK, GiveError, give_block};
use nx_find::Paths;
use nx_host::{Disk, Host};
use nx_pyx::push_path;
use nx_script::{Line, Script};
use nx_store::Store;
use nx_tree::{Bytes, NoMemory};
use std::alloc::Global;

// Answers every line of the input from the store on the disk, in order, each before the next one is taken.
pub fn answer_questions<H: Host>(alloc: Global, host: &mut H) -> Status
    ensures { Finds ⟦<H as Disk>⟧ result host.old host.new }
{
    match Store::open_to_read(alloc, host) {
        Ok(mut store) => match answer_all(alloc, host, &mut store) {
            Ok(()) => Status::Done,
            Err(status) => status,
        },
        Err(error) => status_of(error),
    }
}

// Answers every line of the input.
fn answer_all<H: Host>(alloc: Global, host: &mut H, store: &mut Store) -> Result<(), Status>
    ensures { FindsAll ⟦<H as Disk>⟧ store.old (conversation_status result) host.old host.new }
{
    let mut script = Script::new(alloc)?;
    let mut gathered = Gathered::new(alloc);
    for _ in 0..u64::MAX {
        let Some(line) = script.next_line(host)? else {
            return Ok(());
        };
        let answer = look_up(alloc, host, store, &mut gathered, &line)?;
        give_answer(alloc, host, &answer)?;
    }
    // An input has fewer lines.
    Err(Status::NoMemory)
}

// What a line is answered.
#[derive(Drop)]
pub enum Answer {
    // It asks for nothing.
    NoQuestion,
    // There is no document of that name.
    NoSuchDocument,
    // The paths that the steps reach.
    Reached(Paths),
}

// What a line is answered. The labels of each document are gathered once.
fn look_up<D: Disk>(
    alloc: Global,
    disk: &mut D,
    store: &mut Store,
    gathered: &mut Gathered,
    line: &Line,
) -> Result<Answer, Status>
    ensures still { IsStill D.Disk disk.old disk.new }
    ensures ok { IfOk result (λ answer. LooksUpOf D.Disk line.now answer store.old store.new gathered.old gathered.new disk.old disk.new) }
    ensures err { IfErr result (λ status. StopsLooking D.Disk line.now status store.old gathered.old disk.old disk.new) }
    ensures cause { IfErr result (λ status. IsUnanswered D.Disk status disk.old disk.new) }
{
    let Some(question) = read_question(alloc, line)? else {
        return Ok(Answer::NoQuestion);
    };
    match reach(alloc, disk, store, gathered, &question)? {
        Some(paths) => Ok(Answer::Reached(paths)),
        None => Ok(Answer::NoSuchDocument),
    }
}

// The paths that a question asks for, or none where there is no such document.
fn reach<D: Disk>(
    alloc: Global,
    disk: &mut D,
    store: &mut Store,
    gathered: &mut Gathered,
    question: &Question,
) -> Result<Option<Paths>, Status>
    ensures still { IsStill D.Disk disk.old disk.new }
    ensures ok { IfOk result (λ paths. ReachesOf D.Disk question.now.name question.now.steps paths store.old store.new gathered.old gathered.new disk.old disk.new) }
    ensures err { IfErr result (λ status. StopsReaching D.Disk question.now.name question.now.steps status store.old gathered.old disk.old disk.new) }
    ensures cause { IfErr result (λ status. IsUnanswered D.Disk status disk.old disk.new) }
{
    if gathered.has(question.name.as_slice()) {
        return search(disk, store, gathered, question);
    }
    gather(alloc, disk, store, gathered, question.name.as_slice())?;
    search(disk, store, gathered, question)
}

// Gathers the labels of the document of a name, if there is one.
fn gather<D: Disk>(
    alloc: Global,
    disk: &mut D,
    store: &mut Store,
    gathered: &mut Gathered,
    name: &[u8],
) -> Result<(), Status>
    ensures still { IsStill D.Disk disk.old disk.new }
    ensures ok { OnOk result (GathersOf D.Disk name.now store.old store.new gathered.old gathered.new disk.old disk.new) }
    ensures err { IfErr result (λ status. StopsGathering D.Disk name.now status store.old gathered.old disk.old disk.new) }
    ensures cause { IfErr result (λ status. IsUnanswered D.Disk status disk.old disk.new) }
{
    match store.names_of(disk, name) {
        Ok(Some(names)) => {
            gathered.keep(alloc, name, names)?;
            Ok(())
        }
        Ok(None) => Ok(()),
        Err(error) => Err(status_of(error)),
    }
}

// The paths that a question asks for in a document whose labels were gathered, or none where none were.
fn search<D: Disk>(
    disk: &mut D,
    store: &mut Store,
    gathered: &Gathered,
    question: &Question,
) -> Result<Option<Paths>, Status>
    ensures still { IsStill D.Disk disk.old disk.new }
    ensures ok { IfOk result (λ paths. SearchesOf D.Disk question.now.name question.now.steps paths store.old store.new gathered.now disk.old disk.new) }
    ensures err { IfErr result (λ status. StopsSearching D.Disk question.now.name question.now.steps status store.old gathered.now disk.old disk.new) }
    ensures cause { IfErr result (λ status. IsUnanswered D.Disk status disk.old disk.new) }
{
    let name = question.name.as_slice();
    match gathered.get(name) {
        Some(names) => match store.find(disk, name, names, &question.steps) {
            Ok(paths) => Ok(paths),
            Err(error) => Err(status_of(error)),
        },
        None => Ok(None),
    }
}

// Gives the text of an answer.
fn give_answer<H: Host>(alloc: Global, host: &mut H, answer: &Answer) -> Result<(), GiveError>
    ensures given { Given (answer_text answer.now) result (H.beside host.old) (H.beside host.new) }
    ensures alone { GivesAlone ⟦<H as Disk>⟧ (answer_text answer.now) host.old host.new }
{
    match answer {
        Answer::NoQuestion => give_line(alloc, host, b"error syntax\n"),
        Answer::NoSuchDocument => give_line(alloc, host, b"error no-document\n"),
        Answer::Reached(paths) => give_found(alloc, host, paths),
    }
}

// Gives a line.
fn give_line<H: Host>(alloc: Global, host: &mut H, line: &[u8]) -> Result<(), GiveError>
    ensures given { Given line.now result (H.beside host.old) (H.beside host.new) }
    ensures alone { GivesAlone ⟦<H as Disk>⟧ line.now host.old host.new }
{
    let mut block = Bytes::from_slice(alloc, line)?;
    give_block(host, &mut block)
}

// Gives a line for each path, and the last one, block by block.
fn give_found<H: Host>(alloc: Global, host: &mut H, paths: &Paths) -> Result<(), GiveError>
    ensures given { Given (found_text paths.now) result (H.beside host.old) (H.beside host.new) }
    ensures alone { GivesAlone ⟦<H as Disk>⟧ (found_text paths.now) host.old host.new }
{
    let mut block = Bytes::new(alloc);
    for index in 0..paths.len() {
        push_found(&mut block, paths.path(index))?;
        if block.len() >= BLOCK {
            give_block(host, &mut block)?;
        }
    }
    block.extend_from_slice(b".\n")?;
    give_block(host, &mut block)
}

// Adds the line for a path.
fn push_found(block: &mut Bytes, path: &[u32]) -> Result<(), NoMemory>
    ensures { OnOk result (block.new ≡ block.old ++ found_line path.now) }
{
    block.extend_from_slice(b"at ")?;
    push_path(block, path)?;
    block.push(b'\n')
}
