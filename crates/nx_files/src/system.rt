// The files of the system. Each call here is one of the system, and what it does there is trusted.
ghost use Rattle.std.specs.Prelude.{◌≡◌, ◌≤◌, ◌≤ℤ◌, pos, length, true, None, IfOk, IsTrue};
ghost use Rattle.std.specs.Fd.{file_raw_fd};

use crate::cursor::FileCursor;
use crate::stream::{read_full, write_whole};
use crate::{Folder, Sight, StoreFile};
use nx_host::Failed;
use nx_lists::NoMemory;
use std::alloc::Global;
use std::fs::{self, File, Files};
use std::io;
use std::io::ErrorKind;
use std::os::fd::AsRawFd;
use std::path::Path;

// The first descriptor that is none of the input's, the output's and the errors'.
const FIRST_FREE: i32 = 3;

/// A file of the system. What is written to the standard streams never comes to it, also where one was
/// closed when the program began.
#[derive(Drop)]
pub struct SystemFile {
    file: File,
    ghost is_no_standard_stream: { pos 3 ≤ℤ file_raw_fd file },
}

impl SystemFile {
    /// A file that is open for reading and writing. Where the system gave it the descriptor of a standard
    /// stream, it gets another one, and that one is closed again.
    pub fn new(file: File) -> io::Result<SystemFile> {
        if file.as_raw_fd() >= FIRST_FREE {
            return Ok(SystemFile { file });
        }
        let file = file.try_clone()?;
        if file.as_raw_fd() >= FIRST_FREE {
            Ok(SystemFile { file })
        } else {
            Err(io::Error::from(ErrorKind::Unsupported))
        }
    }
}

impl StoreFile for SystemFile {
    ghost path = { λ _. None };

    ghost identity = { λ _. None };

    ghost holds = { λ _. None };

    ghost last_write = { λ _. None };

    ghost is_locked = { λ _. true };

    ghost is_settled = { λ _. true };

    ghost is_durable = { λ _. true };

    fn lock(&mut self) -> Result<(), Failed> {
        self.file.try_lock().map_err(|_| Failed)
    }

    fn sync(&mut self) -> Result<(), Failed> {
        self.file.sync_data().map_err(|_| Failed)
    }

    fn look(&mut self) -> Result<Sight, Failed> {
        match self.file.metadata() {
            Ok(metadata) => Ok(Sight::of(&metadata)),
            Err(_) => Err(Failed),
        }
    }

    fn read_at(&mut self, at: u64, into: &mut [u8]) -> Result<usize, Failed>
        ensures room { IfOk result (λ n. n ≤ length into.old) }
    {
        read_full(&mut FileCursor::new(&self.file, at), into)
    }

    fn write_at(&mut self, at: u64, bytes: &[u8]) -> Result<(), Failed> {
        if bytes.is_empty() {
            return reach(&self.file, at).map_err(|_| Failed);
        }
        write_whole(&mut FileCursor::new(&self.file, at), bytes)
    }
}

/// The folders of the system.
#[derive(Drop)]
pub struct SystemFolder<F> {
    files: F,
    // A name that it was asked for was a link, which the system followed to its end.
    followed: bool,
}

impl<F> SystemFolder<F> {
    /// The folders that these calls reach.
    pub fn new(files: F) -> SystemFolder<F> {
        SystemFolder {
            files,
            followed: false,
        }
    }
}

impl<F: Files<File = File>> Folder for SystemFolder<F> {
    type File = SystemFile;

    ghost is_durable = { λ _. true };

    ghost stands_for = { λ folder name path. ¬ IsTrue folder.followed → path ≡ name };

    ghost made = { λ _. None };

    ghost standing = { λ _ _. None };

    fn resolve(&mut self, alloc: Global, name: &str) -> Result<Option<String>, NoMemory> {
        match fs::symlink_metadata(&self.files, name) {
            Ok(metadata) if metadata.is_symlink() => {
                self.followed = true;
                follow(&self.files, alloc, name)
            }
            _ => Ok(Some(String::from_str(alloc, name)?)),
        }
    }

    fn look(&mut self, path: &str) -> Result<Option<Sight>, Failed> {
        match fs::symlink_metadata(&self.files, path) {
            Ok(metadata) => Ok(Some(Sight::of(&metadata))),
            Err(error) if error.kind() == ErrorKind::NotFound => Ok(None),
            Err(_) => Err(Failed),
        }
    }

    fn open(&mut self, path: &str) -> Result<SystemFile, Failed> {
        open_old(&self.files, path).map_err(|_| Failed)
    }

    fn make(&mut self, path: &str) -> Result<SystemFile, Failed> {
        open_new(&self.files, path).map_err(|_| Failed)
    }

    fn sync(&mut self, path: &str) -> Result<(), Failed> {
        sync_folder(&self.files, path).map_err(|_| Failed)
    }
}

// Where the link at the path leads to in the end.
fn follow<F: Files<File = File>>(
    files: &F,
    alloc: Global,
    path: &str,
) -> Result<Option<String>, NoMemory> {
    match files.canonicalize(alloc, path) {
        Ok(real) => Ok(Some(String::from_str(alloc, real.as_str())?)),
        Err(error) if error.kind() == ErrorKind::OutOfMemory => Err(NoMemory),
        Err(_) => Ok(None),
    }
}

fn open_old<F: Files<File = File>>(files: &F, path: &str) -> io::Result<SystemFile> {
    SystemFile::new(File::options().read(true).write(true).open(files, path)?)
}

// It fails where something stands at the path, also a link that leads to nothing.
fn open_new<F: Files<File = File>>(files: &F, path: &str) -> io::Result<SystemFile> {
    SystemFile::new(File::create_new(files, path)?)
}

fn sync_folder<F: Files<File = File>>(files: &F, path: &str) -> io::Result<()> {
    let folder = match Path::new(path).parent() {
        Some(parent) if !parent.as_str().is_empty() => parent.as_str(),
        _ => ".",
    };
    File::open(files, folder)?.sync_all()
}

fn length_of(file: &File) -> io::Result<u64> {
    Ok(file.metadata()?.len())
}

// Makes a file that ends before this offset end there.
fn reach(file: &File, at: u64) -> io::Result<()> {
    if length_of(file)? < at {
        file.set_len(at)?;
    }
    Ok(())
}
