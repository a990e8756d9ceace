// A reader, a writer and a folder that fail where a test says.
ghost use Rattle.std.specs.Prelude.{◌≡◌, None, true};

use nx_files::{Folder, Identity, Sight, StoreFile};
use nx_host::{Area, Failed};
use nx_lists::NoMemory;
use std::alloc::Global;
use std::cell::{Cell, RefCell};
use std::io;
use std::io::{ErrorKind, Read, Write};

/// Which calls go wrong, counted from 1, and by which error.
#[derive(Clone, Copy)]
pub struct Trouble {
    pub first: u32,
    pub last: u32,
    pub kind: ErrorKind,
}

impl Trouble {
    pub const NONE: Trouble = Trouble {
        first: 1,
        last: 0,
        kind: ErrorKind::Other,
    };

    pub fn at(call: u32, kind: ErrorKind) -> Trouble {
        Trouble {
            first: call,
            last: call,
            kind,
        }
    }

    fn has(self, call: u32) -> bool {
        self.first <= call && call <= self.last
    }
}

/// Gives its bytes by three in a call.
#[derive(Drop)]
pub struct FakeReader {
    pub bytes: &'static [u8],
    pub calls: u32,
    pub trouble: Trouble,
}

impl FakeReader {
    pub fn new(bytes: &'static [u8], trouble: Trouble) -> FakeReader {
        FakeReader {
            bytes,
            calls: 0,
            trouble,
        }
    }
}

impl Read for FakeReader {
    fn read(&mut self, buf: &mut [u8]) -> io::Result<usize> {
        self.calls = self.calls.saturating_add(1);
        if self.trouble.has(self.calls) {
            return Err(io::Error::from(self.trouble.kind));
        }
        let count = buf.len().min(self.bytes.len()).min(3);
        let (prefix, rest) = self.bytes.split_at(count);
        buf[..count].copy_from_slice(prefix);
        self.bytes = rest;
        Ok(count)
    }
}

/// Takes three bytes in a call. A call that goes wrong by `WriteZero` takes none, and says so by its
/// count.
#[derive(Drop)]
pub struct FakeWriter {
    pub taken: Vec<u8>,
    pub calls: u32,
    pub trouble: Trouble,
}

impl Write for FakeWriter {
    fn write(&mut self, buf: &[u8]) -> io::Result<usize> {
        self.calls = self.calls.saturating_add(1);
        if self.trouble.has(self.calls) {
            return match self.trouble.kind {
                ErrorKind::WriteZero => Ok(0),
                kind => Err(io::Error::from(kind)),
            };
        }
        let count = buf.len().min(3);
        self.taken.extend_from_slice(&buf[..count])?;
        Ok(count)
    }

    fn flush(&mut self) -> io::Result<()> {
        Ok(())
    }
}

/// What a folder and the files in it were asked.
#[derive(Clone, Copy, Debug, PartialEq, Eq)]
pub enum Call {
    LookAtName(Area),
    Open(Area),
    Make(Area),
    Lock(Area),
    Look(Area),
    Sync(Area),
    SyncFolder,
    Read(Area),
    Write(Area),
}

/// The calls so far, in order, and which of them fails, counted from 1.
#[derive(Drop)]
pub struct Calls {
    made: RefCell<Vec<Call>>,
    failing: usize,
}

impl Calls {
    pub fn new(rt: &HostRuntime, failing: usize) -> Calls {
        Calls {
            made: RefCell::new(Vec::new(rt.alloc())),
            failing,
        }
    }

    /// Whether these were the calls, and no others.
    pub fn are(&self, calls: &[Call]) -> bool {
        self.made
            .try_borrow()
            .is_ok_and(|made| made.as_slice() == calls)
    }

    /// Whether this was one of the calls.
    pub fn has(&self, call: Call) -> bool {
        self.made
            .try_borrow()
            .is_ok_and(|made| made.contains(&call))
    }

    /// How many were made since the last that was forgotten.
    fn count(&self) -> usize {
        self.made.try_borrow().map_or(0, |made| made.len())
    }

    /// Forgets the calls so far.
    pub fn forget(&self) {
        if let Ok(mut made) = self.made.try_borrow_mut() {
            made.clear();
        }
    }

    fn note(&self, call: Call) -> Result<(), Failed> {
        let mut made = self.made.try_borrow_mut().map_err(|_| Failed)?;
        made.push(call).map_err(|_| Failed)?;
        if made.len() == self.failing {
            return Err(Failed);
        }
        Ok(())
    }
}

/// A folder of files. What has a name in `.log` is a log.
#[derive(Drop)]
pub struct FakeFolder<'a> {
    pub calls: &'a Calls,
    /// The files that are there when it is asked first.
    pub has_pages: bool,
    pub has_log: bool,
    /// Behind so many calls a look at a name gives the log, also where nothing was.
    pub moved: &'a Cell<usize>,
}

fn area_of(path: &str) -> Area {
    if path.ends_with(".log") {
        Area::Log
    } else {
        Area::Pages
    }
}

// Empty pages, and a log of one byte.
fn sight_of(area: Area) -> Sight {
    Sight {
        identity: Identity {
            device: 1,
            inode: match area {
                Area::Pages => 1,
                Area::Log => 2,
            },
        },
        is_file: true,
        links: 1,
        length: match area {
            Area::Pages => 0,
            Area::Log => 1,
        },
    }
}

impl<'a> FakeFolder<'a> {
    fn file(&self, area: Area) -> FakeFile<'a> {
        FakeFile {
            area,
            calls: self.calls,
            is_locked: false,
            is_settled: false,
            is_durable: false,
        }
    }
}

impl<'a> Folder for FakeFolder<'a> {
    type File = FakeFile<'a>;

    ghost is_durable = { λ _. true };

    ghost stands_for = { λ _ name path. path ≡ name };

    ghost made = { λ _. None };

    ghost standing = { λ _ _. None };

    fn resolve(&mut self, alloc: Global, name: &str) -> Result<Option<String>, NoMemory> {
        Ok(Some(String::from_str(alloc, name)?))
    }

    fn look(&mut self, path: &str) -> Result<Option<Sight>, Failed> {
        let area = area_of(path);
        self.calls.note(Call::LookAtName(area))?;
        let is_there = match area {
            Area::Pages => self.has_pages,
            Area::Log => self.has_log,
        };
        if self.calls.count() > self.moved.get() {
            return Ok(Some(sight_of(Area::Log)));
        }
        Ok(is_there.then_some(sight_of(area)))
    }

    fn open(&mut self, path: &str) -> Result<FakeFile<'a>, Failed> {
        let area = area_of(path);
        self.calls.note(Call::Open(area))?;
        Ok(self.file(area))
    }

    fn make(&mut self, path: &str) -> Result<FakeFile<'a>, Failed> {
        let area = area_of(path);
        self.calls.note(Call::Make(area))?;
        match area {
            Area::Pages => self.has_pages = true,
            Area::Log => self.has_log = true,
        }
        Ok(self.file(area))
    }

    fn sync(&mut self, _path: &str) -> Result<(), Failed> {
        self.calls.note(Call::SyncFolder)
    }
}

/// Empty pages, or a log of one byte, a 1, that tells what was done to it.
#[derive(Drop)]
pub struct FakeFile<'a> {
    area: Area,
    calls: &'a Calls,
    is_locked: bool,
    is_settled: bool,
    is_durable: bool,
}

impl StoreFile for FakeFile<'_> {
    ghost path = { λ _. None };

    ghost identity = { λ _. None };

    ghost holds = { λ _. None };

    ghost last_write = { λ _. None };

    ghost is_locked = { λ file. file.is_locked };

    ghost is_settled = { λ file. file.is_settled };

    ghost is_durable = { λ file. file.is_durable };

    fn lock(&mut self) -> Result<(), Failed> {
        self.calls.note(Call::Lock(self.area))?;
        self.is_locked = true;
        Ok(())
    }

    fn look(&mut self) -> Result<Sight, Failed> {
        self.calls.note(Call::Look(self.area))?;
        Ok(sight_of(self.area))
    }

    fn sync(&mut self) -> Result<(), Failed> {
        self.calls.note(Call::Sync(self.area))?;
        self.is_settled = true;
        self.is_durable = true;
        Ok(())
    }

    fn read_at(&mut self, at: u64, into: &mut [u8]) -> Result<usize, Failed> {
        self.calls.note(Call::Read(self.area))?;
        match into {
            [first, ..] if at == 0 && self.area == Area::Log => {
                *first = 1;
                Ok(1)
            }
            _ => Ok(0),
        }
    }

    fn write_at(&mut self, _at: u64, _bytes: &[u8]) -> Result<(), Failed> {
        self.is_durable = false;
        self.calls.note(Call::Write(self.area))
    }
}
