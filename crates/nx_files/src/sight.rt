// What tells one file of the system from every other.
ghost use Rattle.std.specs.Prelude.{◌≡◌, ◌⊎◌, ◌↔◌, IsTrue};
ghost use Rattle.nx_files.specs.Sight.{IsUnknown, MayBe, MayBeStream};

use nx_lists::NoMemory;
use std::alloc::Global;
use std::fs::{Files, Metadata};
use std::os::fd::{AsFd, AsRawFd};
use std::os::unix::fs::MetadataExt;

// The number of the system's error for a descriptor that isn't open.
const NOT_OPEN: i32 = 9;

/// A file of the system, by its device and its number there.
#[derive(Clone, Copy, Debug, PartialEq, Eq)]
pub struct Identity {
    pub device: u64,
    pub inode: u64,
}

/// What can be seen of a file, or of what stands at a path.
#[derive(Clone, Copy, Debug, PartialEq, Eq)]
pub struct Sight {
    pub identity: Identity,
    /// It is a regular file, and no link to one either.
    pub is_file: bool,
    /// How many names it has.
    pub links: u64,
    /// Its length in bytes.
    pub length: u64,
}

impl Sight {
    pub fn of(metadata: &Metadata) -> Sight {
        Sight {
            identity: Identity {
                device: metadata.dev(),
                inode: metadata.ino(),
            },
            is_file: metadata.is_file(),
            links: metadata.nlink(),
            length: metadata.len(),
        }
    }
}

/// What stands behind an input or an output.
#[derive(Clone, Copy, Debug)]
pub enum Stream {
    /// Nothing of the system, or it is closed.
    NoFile,
    /// This file, pipe or terminal.
    Known(Identity),
    /// The system doesn't say which file: it may be any.
    Unknown,
}

impl Stream {
    /// What stands behind this one now. A system without `/proc` doesn't say it.
    ///
    /// Errors: `NoMemory`.
    pub fn of<F: Files, S: AsFd>(alloc: Global, files: &F, stream: &S) -> Result<Stream, NoMemory> {
        let descriptor = stream.as_fd();
        let number = descriptor.as_raw_fd();
        let path = format!(in alloc; "/proc/self/fd/{number}")?;
        if let Ok(metadata) = files.metadata(path.as_str()) {
            return Ok(Stream::Known(Sight::of(&metadata).identity));
        }
        match descriptor.try_clone_to_owned() {
            Err(error) if error.raw_os_error() == Some(NOT_OPEN) => Ok(Stream::NoFile),
            _ => Ok(Stream::Unknown),
        }
    }

    /// Whether the file may stand behind this one.
    pub fn may_be(&self, identity: Identity) -> bool
        ensures { IsTrue result ↔ MayBe self.now identity }
    {
        match self {
            Stream::NoFile => false,
            Stream::Known(known) => *known == identity,
            Stream::Unknown => true,
        }
    }
}

/// What stands behind an input and an output. No file of a store may.
#[derive(Clone, Copy, Debug)]
pub struct Streams {
    pub input: Stream,
    pub output: Stream,
}

impl Streams {
    /// An input and an output that are no files of the system, as a test has them.
    pub const NO_FILES: Streams = Streams {
        input: Stream::NoFile,
        output: Stream::NoFile,
    };

    /// What stands behind these two now.
    ///
    /// Errors: `NoMemory`.
    pub fn of<F: Files, R: AsFd, W: AsFd>(
        alloc: Global,
        files: &F,
        input: &R,
        output: &W,
    ) -> Result<Streams, NoMemory> {
        Ok(Streams {
            input: Stream::of(alloc, files, input)?,
            output: Stream::of(alloc, files, output)?,
        })
    }

    /// Whether it isn't known of one of them what stands behind it.
    pub fn is_unknown(&self) -> bool
        ensures { IsTrue result ↔ IsUnknown self.now }
    {
        matches!(self.input, Stream::Unknown) || matches!(self.output, Stream::Unknown)
    }

    /// Whether the file may stand behind one of them.
    pub fn may_have(&self, identity: Identity) -> bool
        ensures { IsTrue result ↔ MayBeStream self.now identity }
    {
        self.input.may_be(identity) || self.output.may_be(identity)
    }
}
