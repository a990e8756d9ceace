// The calls of `Disk` over real files.
use crate::fakes::{FakeReader, Trouble};
use nx_files::{FileHost, Folder, Sight, StoreFile, Stream, Streams, SystemFile, SystemFolder};
use nx_host::{Area, Disk, Failed};
use std::alloc::AllocError;
use std::fs::File;
use std::io::Stdout;
use std::os::unix::fs::symlink;
use std::test::Fail;
use std::{env, fs, process};

// A folder of its own for the files of one test.
#[derive(Drop)]
struct Room<'a> {
    rt: &'a HostRuntime,
    folder: String,
}

type RealHost<'a> = FileHost<SystemFolder<&'a HostRuntime>, FakeReader, Stdout>;

impl<'a> Room<'a> {
    fn new(rt: &'a HostRuntime, test: &str) -> Result<Room<'a>, Fail> {
        let number = process::id(rt.process());
        let parent = env::temp_dir(rt)?;
        let parent = parent.as_str();
        let folder = format!(in rt.alloc(); "{parent}/nx_files-{number}-{test}")?;
        fs::create_dir(rt, folder.as_str())?;
        Ok(Room { rt, folder })
    }

    fn path(&self, name: &str) -> Result<String, AllocError> {
        let folder = self.folder.as_str();
        format!(in self.rt.alloc(); "{folder}/{name}")
    }

    fn host(&self, name: &str) -> Result<RealHost<'a>, Fail> {
        self.host_beside(name, Streams::NO_FILES)
    }

    fn host_beside(&self, name: &str, streams: Streams) -> Result<RealHost<'a>, Fail> {
        let reader = FakeReader::new(b"", Trouble::NONE);
        let (rt, path) = (self.rt, self.path(name)?);
        let host = FileHost::new(rt.alloc(), rt, path.as_str(), reader, rt.stdout(), streams)?;
        Ok(host)
    }

    fn write(&self, name: &str, bytes: &[u8]) -> Result<(), Fail> {
        Ok(fs::write(self.rt, self.path(name)?.as_str(), bytes)?)
    }

    fn has(&self, name: &str) -> Result<bool, Fail> {
        Ok(fs::exists(self.rt, self.path(name)?.as_str())?)
    }

    fn remove(self) -> Result<(), Fail> {
        Ok(fs::remove_dir_all(self.rt, self.folder.as_str())?)
    }
}

#[test]
fn what_is_written_is_read(rt: HostRuntime) -> Result<(), Fail> {
    let room = Room::new(&rt, "written")?;
    let mut host = room.host("s")?;
    assert_eq!(rt; host.write_at(Area::Pages, 2, b"pages"), Ok(()));
    assert_eq!(rt; host.write_at(Area::Pages, 4, b"--"), Ok(()));
    assert_eq!(rt; host.write_at(Area::Pages, 9, b""), Ok(()));
    let mut into = [b'.'; 10];
    assert_eq!(rt; host.read(Area::Pages, 1, &mut into), Ok(8));
    assert_eq!(rt; into.as_slice(), b"\0pa--s\0\0..".as_slice());
    assert_eq!(rt; host.read(Area::Pages, 99, &mut into), Ok(0));
    room.remove()
}

// Nothing is made before the first write, and a file is locked until the host is gone. A renewal leaves the byte.
#[test]
fn a_second_host_fails(rt: HostRuntime) -> Result<(), Fail> {
    let room = Room::new(&rt, "locked")?;
    {
        let mut first = room.host("s")?;
        assert_eq!(rt; first.length(Area::Log), Ok(0));
        assert!(rt; !room.has("s")? && !room.has("s.log")?);
        assert_eq!(rt; first.write_at(Area::Log, 0, b"\x01"), Ok(()));
        assert!(rt; room.has("s")?);
        assert_eq!(rt; room.host("s")?.length(Area::Log), Err(Failed));
    }
    room.write("s.log", b"\0")?;
    let mut next = room.host("s")?;
    assert_eq!(rt; next.renew(Area::Log, 0), Ok(()));
    let mut byte = [9];
    assert_eq!(rt; next.read(Area::Log, 0, &mut byte), Ok(1));
    assert_eq!(rt; byte, [0]);
    room.remove()
}

// What a file of the store may not be: of another, a folder, with two names, or a link, but for the pages' name.
#[test]
fn what_is_no_store_is_a_fault(rt: HostRuntime) -> Result<(), Fail> {
    let room = Room::new(&rt, "others")?;
    for name in ["text", "text.log", "log.log", "one", "a.log"] {
        room.write(name, b"a text")?;
    }
    room.write("own", b"")?;
    room.write("linked", b"")?;
    fs::create_dir(&rt, room.path("folder")?.as_str())?;
    fs::hard_link(&rt, room.path("one")?.as_str(), room.path("two")?.as_str())?;
    for (from, to) in [
        ("to_none", "none"),
        ("itself", "itself"),
        ("to_log", "a.log"),
        ("linked.log", "own"),
    ] {
        symlink(&rt, room.path(to)?.as_str(), room.path(from)?.as_str())?;
    }
    for name in [
        "text", "log", "one", "folder", "to_none", "itself", "to_log", "linked", "none/s",
    ] {
        let mut host = room.host(name)?;
        assert_eq!(rt; host.length(Area::Pages), Err(Failed), "{name}");
        assert_eq!(rt;
            host.write_at(Area::Pages, 0, b"abc"),
            Err(Failed),
            "{name}"
        );
        assert_eq!(rt; host.sync(Area::Log), Err(Failed), "{name}");
    }
    assert!(rt; !room.has("none")? && !room.has("log")? && !room.has("one.log")?);
    room.remove()
}

// Two names of one store are one store.
#[test]
fn a_link_stands_for_what_it_leads_to(rt: HostRuntime) -> Result<(), Fail> {
    let room = Room::new(&rt, "link")?;
    room.write("s", b"")?;
    symlink(&rt, "s", room.path("l")?.as_str())?;
    assert_eq!(rt; room.host("l")?.write_at(Area::Log, 0, b"\0"), Ok(()));
    assert!(rt; room.has("s.log")? && !room.has("l.log")?);
    room.remove()
}

#[test]
fn no_stream_is_a_file_of_the_store(rt: HostRuntime) -> Result<(), Fail> {
    let room = Room::new(&rt, "streams")?;
    room.write("s", b"")?;
    room.write("s.log", b"\0")?;
    for name in ["s", "s.log"] {
        let file = File::open(&rt, room.path(name)?.as_str())?;
        let stream = Stream::of(rt.alloc(), &rt, &file)?;
        let streams = Streams {
            input: stream,
            ..Streams::NO_FILES
        };
        assert_eq!(rt;
            room.host_beside("s", streams)?.length(Area::Log),
            Err(Failed)
        );
        let streams = Streams {
            output: stream,
            ..Streams::NO_FILES
        };
        assert_eq!(rt;
            room.host_beside("s", streams)?.length(Area::Log),
            Err(Failed)
        );
    }
    let streams = Streams::of(rt.alloc(), &rt, &rt.stdin(), &rt.stdout())?;
    assert_eq!(rt; room.host_beside("s", streams)?.length(Area::Log), Ok(1));
    room.remove()
}

// Who cuts a file or takes its name away is found out before anything is answered by it.
#[test]
fn a_file_that_goes_is_a_fault(rt: HostRuntime) -> Result<(), Fail> {
    let room = Room::new(&rt, "going")?;
    let mut host = room.host("s")?;
    assert_eq!(rt; host.write_at(Area::Log, 0, b"\x01og"), Ok(()));
    room.write("s.log", b"\x01o")?;
    assert_eq!(rt; host.read(Area::Log, 0, &mut [0; 2]), Ok(2));
    assert_eq!(rt; host.read(Area::Log, 0, &mut [0; 8]), Err(Failed));
    assert_eq!(rt; host.write_at(Area::Log, 0, b"\x01"), Err(Failed));
    assert_eq!(rt; host.length(Area::Log), Err(Failed));
    assert_eq!(rt; host.sync(Area::Pages), Err(Failed));
    room.write("s.log", b"\x01og")?;
    assert_eq!(rt; host.sync(Area::Log), Err(Failed));
    room.remove()
}

#[test]
fn a_name_that_goes_is_a_fault(rt: HostRuntime) -> Result<(), Fail> {
    let room = Room::new(&rt, "renamed")?;
    let mut host = room.host("s")?;
    assert_eq!(rt; host.write_at(Area::Log, 0, b"\x01og"), Ok(()));
    assert_eq!(rt; host.sync(Area::Log), Ok(()));
    fs::rename(&rt, room.path("s")?.as_str(), room.path("t")?.as_str())?;
    assert_eq!(rt; host.sync(Area::Log), Err(Failed));
    room.remove()
}

// A host that makes no log begins no store, and makes pages that are missing beside one.
#[test]
fn no_store_is_begun_without_leave(rt: HostRuntime) -> Result<(), Fail> {
    let room = Room::new(&rt, "leave")?;
    let mut host = room.host("s")?.making_log(false);
    assert_eq!(rt; host.length(Area::Log), Ok(0));
    assert_eq!(rt; host.write_at(Area::Log, 0, b"\0"), Err(Failed));
    assert!(rt; !room.has("s")? && !room.has("s.log")?);
    room.write("t.log", b"\x01")?;
    let mut host_of_log = room.host("t")?.making_log(false);
    assert_eq!(rt; host_of_log.write_at(Area::Pages, 0, b"a"), Ok(()));
    assert!(rt; room.has("t")?);
    room.remove()
}

// The system refuses to sync what has nothing to be kept.
#[test]
fn a_sync_of_the_system_that_fails_is_told(rt: HostRuntime) -> Result<(), Fail> {
    let mut file = SystemFile::new(File::open(&rt, "/dev/null")?)?;
    assert_eq!(rt; file.sync(), Err(Failed));
    assert_eq!(rt; SystemFolder::new(&rt).sync("/none/s"), Err(Failed));
    let device = Sight::of(&fs::metadata(&rt, "/dev/null")?);
    assert!(rt; !device.is_file);
    Ok(())
}
