// Hosts whose calls promise nothing here, since a test that knows much is proved slowly, and what runs on them
// leave.
use crate::endless::EndlessHost;
use crate::host::{Counts, DisklessHost};
use nx_front::{Status, Word, Words, run};
use nx_host::{Disk, Failed, Host};
use nx_script::{Command, Script, ScriptError};
use nx_tree::NoMemory;
use std::alloc::Global;
use std::process::Abort;
use std::thread::Threads;

/// The words of a command line.
pub fn words_of(alloc: Global, texts: &[&str]) -> Result<Words, NoMemory> {
    let mut words = Words::new(alloc);
    for text in texts {
        words.push(Word::new(alloc, text)?)?;
    }
    Ok(words)
}

/// A host that gives this input in pieces of so many bytes.
pub fn host_of(alloc: Global, input: &[u8], piece: usize) -> Result<DisklessHost, NoMemory> {
    Ok(DisklessHost::new(alloc, input.to_vec(alloc)?, piece.max(1)))
}

/// How a run over the host ends.
pub fn status_of(
    rt: &(impl Threads + Sync),
    alloc: Global,
    words: &Words,
    host: &mut DisklessHost,
) -> Status {
    run(rt, alloc, words, host)
}

/// The same over an input without end.
pub fn endless_status(
    rt: &(impl Threads + Sync),
    alloc: Global,
    words: &Words,
    host: &mut EndlessHost,
) -> Status {
    run(rt, alloc, words, host)
}

/// A run on this input in such pieces ends so, with that output and without a call that failed.
pub fn check_run(
    rt: &(impl Threads + Abort + Sync),
    alloc: Global,
    words: &Words,
    (input, piece): (&[u8], usize),
    status: Status,
    output: &[u8],
) -> Result<(), NoMemory> {
    let mut host = host_of(alloc, input, piece)?;
    assert_eq!(rt; status_of(rt, alloc, words, &mut host), status, "{input:?}");
    assert_eq!(rt; host.output(), output, "{input:?}");
    assert_eq!(rt; host.counts(), Counts::default());
    Ok(())
}

/// A run on this input in such pieces at which that call fails ends so, with that output; what was counted.
pub fn check_failing(
    rt: &(impl Threads + Abort + Sync),
    alloc: Global,
    words: &Words,
    (input, piece, call): (&[u8], usize, u64),
    status: Status,
    output: &[u8],
) -> Result<Counts, NoMemory> {
    let mut host = host_of(alloc, input, piece)?;
    host.fail_call(call);
    assert_eq!(rt;
        status_of(rt, alloc, words, &mut host),
        status,
        "{piece} {call}"
    );
    assert_eq!(rt; host.output(), output);
    Ok(host.counts())
}

/// The next command of a script.
pub fn next(script: &mut Script, host: &mut DisklessHost) -> Result<Option<Command>, ScriptError> {
    script.next(host)
}

/// The same of a script without end.
pub fn endless_next(
    script: &mut Script,
    host: &mut EndlessHost,
) -> Result<Option<Command>, ScriptError> {
    script.next(host)
}

pub fn read_in(host: &mut DisklessHost, room: &mut [u8]) -> Result<usize, Failed> {
    host.read_in(room)
}
