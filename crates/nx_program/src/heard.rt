// Whether standard error may be written to.
use arrayvec::ArrayString;
use nx_files::{Identity, Sight, Stream};
use nx_lists::NoMemory;
use std::alloc::AllocGlobal;
use std::env::{Env, FillError};
use std::fs::{File, Files};
use std::io::IsTerminal;
use std::os::fd::AsFd;
use std::path::{Path, PathBuf};
use std::{fs, io, str};

// How many links lead from one to the next at most. The system follows no more.
const MOST_LINKS: u32 = 40;

// As long as a path of the system is at most.
const LONGEST_PATH: usize = 4096;

/// Whether a line may be written to the stream: it is open, and it isn't a file of the store that the first argument
/// names, whatever the others are. Where that is no UTF-8, or longer than a path is, a terminal alone may be.
pub fn may_hear<P, S>(process: &P, stream: &S) -> bool
where
    P: Env + AllocGlobal + Files<File = File>,
    S: AsFd,
{
    let mut name = [0; LONGEST_PATH];
    let name = match process.arg(1, &mut name) {
        Ok(length) => str::from_utf8(&name[..length]).ok(),
        Err(FillError::NotPresent) => Some(""),
        Err(FillError::TooLong) => None,
    };
    match name {
        Some(name) => may_hear_of(process, stream, name),
        // The files at such a name can't be looked at.
        None => stream.as_fd().is_terminal(),
    }
}

/// The same, of the store of this name.
///
/// The store's files are those at its name and at that with `.log` behind it, and those of each name that these lead to.
/// Where a link can't be followed for want of memory, nothing may be written.
pub fn may_hear_of<P, S>(process: &P, stream: &S, name: &str) -> bool
where
    P: AllocGlobal + Files<File = File>,
    S: AsFd,
{
    match Stream::of(process.alloc(), process, stream) {
        Ok(Stream::NoFile) => false,
        Ok(Stream::Known(identity)) => !is_of_store(process, identity, name).unwrap_or(true),
        // No terminal is a file of a store; anything else may be one.
        Ok(Stream::Unknown) | Err(NoMemory) => stream.as_fd().is_terminal(),
    }
}

fn is_of_store<P>(process: &P, identity: Identity, name: &str) -> io::Result<bool>
where
    P: AllocGlobal + Files<File = File>,
{
    if is_at(process, identity, name) || is_log_at(process, identity, name) {
        return Ok(true);
    }
    if !is_link(process, name) {
        return Ok(false);
    }
    is_log_behind(process, identity, name)
}

// Whether it is the log of a name to which this one leads. To the file behind all links the system leads itself.
fn is_log_behind<P>(process: &P, identity: Identity, name: &str) -> io::Result<bool>
where
    P: AllocGlobal + Files<File = File>,
{
    let mut path = PathBuf::from_str(process.alloc(), name)?;
    for _ in 0..MOST_LINKS {
        if !is_link(process, path.as_str()) {
            return Ok(false);
        }
        path = followed(process, path.as_path())?;
        if is_log_at(process, identity, path.as_str()) {
            return Ok(true);
        }
    }
    Ok(false)
}

// Where a link leads to.
fn followed<P>(process: &P, link: Path<'_>) -> io::Result<PathBuf>
where
    P: AllocGlobal + Files<File = File>,
{
    let target = process.read_link(process.alloc(), link.as_str())?;
    match link.parent() {
        Some(folder) => Ok(folder.join(process.alloc(), target.as_path())?),
        None => Ok(target),
    }
}

fn is_link<F: Files<File = File>>(files: &F, path: &str) -> bool {
    fs::symlink_metadata(files, path).is_ok_and(|metadata| metadata.is_symlink())
}

fn is_log_at<F: Files<File = File>>(files: &F, identity: Identity, name: &str) -> bool {
    let mut log = ArrayString::<LONGEST_PATH>::new();
    // Nothing stands at a path that is longer.
    log.try_push_str(name).is_ok()
        && log.try_push_str(".log").is_ok()
        && is_at(files, identity, log.as_str())
}

fn is_at<F: Files<File = File>>(files: &F, identity: Identity, path: &str) -> bool {
    fs::metadata(files, path).is_ok_and(|metadata| Sight::of(&metadata).identity == identity)
}
