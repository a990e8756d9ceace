// The program over the files of the system.
ghost use Rattle.std.specs.Prelude.{◌≡◌, ◌≢◌, ◌⊎◌, Ok, drop, map, string_bytes, IfOk, IfErr};
ghost use Rattle.std.specs.IoError.{error_kind};
ghost use Rattle.std.specs.Vec.Iter.{into_iter_items};
ghost use Rattle.nx_program.specs.Command.{RanOver};
ghost use Rattle.nx_program.specs.Ending.{EndsAs};
ghost use Rattle.nx_program.specs.Process.{GivesAt, IsHostOf, AnswersQuestion, RanKept, EndsOver};

use crate::Ending;
use crate::arguments::{makes_log, most_kept, words};
use crate::ending::end;
use crate::help::{answer, question_of};
use nx_cached_host::CachedHost;
use nx_files::{FileHost, Streams, SystemFolder};
use nx_front::{Status, Words, named_store, run};
use nx_host::{Disk, Host};
use nx_lists::NoMemory;
use std::alloc::{AllocGlobal, Global};
use std::env::Args;
use std::fs::{File, Files};
use std::io;
use std::io::{ErrorKind, Read, Write};
use std::thread::Threads;

/// Runs the command of a process's arguments over the files of the store that its first word names, where it uses one,
/// and over this reader and this writer; and tells how the program ends. No line is to be said where standard error
/// may not be written to, which isn't `heard` then.
///
/// `look` says what stands behind the reader and the writer. It is asked where a store is used.
pub fn run_process<'a, P, R, W, L>(
    process: &'a P,
    arguments: io::Result<Args>,
    reader: R,
    writer: W,
    look: L,
    heard: bool,
) -> Ending
where
    P: AllocGlobal + Files<File = File> + Threads + Sync,
    R: Read + Drop,
    W: Write + Drop,
    L: FnOnce(&R, &W) -> Result<Streams, NoMemory>,
    requires { L.IsAlwaysCallable look }
    ensures carried { IfOk arguments (λ given. EndsAs result heard (λ status. (status ≡ Status.NoMemory) ⊎ RanOver (λ words host. IsHostOf (λ streams. GivesAt L.FnOnce look reader writer (Ok streams)) words reader writer host.reader host.writer host.folder.followed host.store)
        (λ words host ended. EndsOver ⟦<FileHost<SystemFolder<&'a P>, R, W> as Disk>⟧ ⟦<CachedHost<FileHost<SystemFolder<&'a P>, R, W>> as Disk>⟧ (λ kept. kept.inner) words host ended)
        (map string_bytes (drop 1 (into_iter_items given))) status)) }
    ensures no_memory { IfErr arguments (λ error. error_kind error ≡ ErrorKind.OutOfMemory → EndsAs result heard (λ status. status ≡ Status.NoMemory)) }
    ensures no_text { IfErr arguments (λ error. error_kind error ≢ ErrorKind.OutOfMemory → EndsAs result heard (λ status. status ≡ Status.Usage)) }
{
    end(command(process, arguments, reader, writer, look), heard)
}

// Runs the command.
fn command<'a, P, R, W, L>(
    process: &'a P,
    arguments: io::Result<Args>,
    reader: R,
    writer: W,
    look: L,
) -> Status
where
    P: AllocGlobal + Files<File = File> + Threads + Sync,
    R: Read + Drop,
    W: Write + Drop,
    L: FnOnce(&R, &W) -> Result<Streams, NoMemory>,
    requires { L.IsAlwaysCallable look }
    ensures carried { IfOk arguments (λ given. (result ≡ Status.NoMemory) ⊎ RanOver (λ words host. IsHostOf (λ streams. GivesAt L.FnOnce look reader writer (Ok streams)) words reader writer host.reader host.writer host.folder.followed host.store)
        (λ words host ended. EndsOver ⟦<FileHost<SystemFolder<&'a P>, R, W> as Disk>⟧ ⟦<CachedHost<FileHost<SystemFolder<&'a P>, R, W>> as Disk>⟧ (λ kept. kept.inner) words host ended)
        (map string_bytes (drop 1 (into_iter_items given))) result) }
    ensures no_memory { IfErr arguments (λ error. error_kind error ≡ ErrorKind.OutOfMemory → result ≡ Status.NoMemory) }
    ensures no_text { IfErr arguments (λ error. error_kind error ≢ ErrorKind.OutOfMemory → result ≡ Status.Usage) }
{
    let words = match words(process.alloc(), arguments) {
        Ok(words) => words,
        Err(status) => return status,
    };
    match host_of(process, &words, reader, writer, look) {
        Ok(host) => carry_out(process, process.alloc(), &words, host),
        Err(NoMemory) => Status::NoMemory,
    }
}

// A host over the files of the store that the words use, or one that has no store. A command that begins no store has one
// that makes no log.
fn host_of<'a, P, R, W, L>(
    process: &'a P,
    words: &Words,
    reader: R,
    writer: W,
    look: L,
) -> Result<FileHost<SystemFolder<&'a P>, R, W>, NoMemory>
where
    P: AllocGlobal + Files<File = File>,
    R: Drop,
    W: Drop,
    L: FnOnce(&R, &W) -> Result<Streams, NoMemory>,
    requires { L.IsAlwaysCallable look }
    ensures { IfOk result (λ host. IsHostOf (λ streams. GivesAt L.FnOnce look reader writer (Ok streams)) words.now reader writer host.reader host.writer host.folder.followed host.store) }
{
    match named_store(words) {
        Some(name) => {
            let streams = look(&reader, &writer)?;
            let host = FileHost::new(process.alloc(), process, name, reader, writer, streams)?;
            Ok(host.making_log(makes_log(words)))
        }
        None => Ok(FileHost::without_store(process.alloc(), process, reader, writer)),
    }
}

// Answers what the words ask of natix itself, or carries them out over this host.
fn carry_out<P: Threads + Sync, H: Host + Drop>(
    process: &P,
    alloc: Global,
    words: &Words,
    mut host: H,
) -> Status
    ensures { EndsOver ⟦<H as Disk>⟧ ⟦<CachedHost<H> as Disk>⟧ (λ kept. kept.inner) words.now host result }
{
    match question_of(words) {
        Some(question) => give(&mut host, answer(question)),
        None => run_kept(process, alloc, words, host),
    }
}

// Gives a text.
fn give<H: Host>(host: &mut H, text: &str) -> Status
    ensures { AnswersQuestion result (H.beside host.old) (H.beside host.new) }
{
    match host.emit(text.as_bytes()) {
        Ok(()) => Status::Done,
        Err(_) => Status::WriteFault,
    }
}

// Carries out the words over this host, behind one that keeps the pages that were read lately.
fn run_kept<P: Threads + Sync, H: Host + Drop>(
    process: &P,
    alloc: Global,
    words: &Words,
    host: H,
) -> Status
    ensures { RanKept ⟦<CachedHost<H> as Disk>⟧ (λ kept. kept.inner) words.now host result }
{
    match CachedHost::new(alloc, host, most_kept(words)) {
        Ok(mut kept) => run(process, alloc, words, &mut kept),
        Err(NoMemory) => Status::NoMemory,
    }
}
