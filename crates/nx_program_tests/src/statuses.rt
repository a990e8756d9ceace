// How runs over real files end, and what they leave there.
use crate::session::Room;
use nx_files::{FileHost, Streams};
use nx_host::{Area, Disk};
use nx_program::may_hear_of;
use std::fs;
use std::fs::{File, Files};
use std::test::Fail;

// How a status is printed.
const DONE: &str = "ExitCode(unix_exit_status(0))";

const USAGE: &str = "ExitCode(unix_exit_status(1))";

const REFUSED: &str = "ExitCode(unix_exit_status(2))";

const DISK_FAULT: &str = "ExitCode(unix_exit_status(3))";

const NOT_A_STORE: &str = "ExitCode(unix_exit_status(7))";

#[test]
fn a_store_is_opened_again(rt: HostRuntime) -> Result<(), Fail> {
    let room = Room::new(&rt, "again")?;
    assert!(rt;
        room.run(&rt, "s", &["init", "16"], "")?
            .is(DONE, "ok\n", "")
    );
    let loads = "load d\n(a\n-hi\n)a\n.\nlayout d\n";
    assert!(rt;
        room.run(&rt, "s", &["run"], loads)?
            .is(DONE, "ok 3 1\nroot 5\n.\n", "")
    );
    assert!(rt;
        room.run(&rt, "s", &["run"], "export d\n")?
            .is(DONE, "(a\n-hi\n)a\n.\n", "")
    );
    room.remove()
}

#[test]
fn each_name_has_its_store(rt: HostRuntime) -> Result<(), Fail> {
    let room = Room::new(&rt, "names")?;
    for name in ["s", "t"] {
        assert!(rt;
            room.run(&rt, name, &["init", "16"], "")?
                .is(DONE, "ok\n", "")
        );
    }
    assert!(rt;
        room.run(&rt, "s", &["run"], "load d\n(a\n)a\n.\n")?
            .is(DONE, "ok 2 1\n", "")
    );
    assert!(rt; room.run(&rt, "t", &["run"], "names\n")?.is(DONE, ".\n", ""));
    assert!(rt;
        room.run(&rt, "s", &["run"], "names\n")?
            .is(DONE, "doc d 2\n.\n", "")
    );
    for name in ["s", "s.log", "t", "t.log"] {
        assert!(rt; fs::exists(&rt, room.path(name)?.as_str())?);
    }
    room.remove()
}

#[test]
fn each_end_has_its_number(rt: HostRuntime) -> Result<(), Fail> {
    let room = Room::new(&rt, "ends")?;
    let usage = "usage: natix STORE COMMAND [ARG]...";
    assert!(rt; room.run(&rt, "s", &["init"], "")?.is(USAGE, "", usage));
    assert!(rt;
        room.run(&rt, "s.log", &["init", "16"], "")?
            .is(USAGE, "", usage)
    );
    assert!(rt; !fs::exists(&rt, room.path("s.log")?.as_str())?);
    assert!(rt;
        room.run(&rt, "s.log", &["tidy"], "(a\n)a\n")?
            .is(DONE, "(a\n)a\n", "")
    );
    assert!(rt;
        room.run(&rt, "s", &["run"], "names\n")?
            .is(NOT_A_STORE, "", "not a store")
    );
    assert!(rt; !fs::exists(&rt, room.path("s")?.as_str())?);
    assert!(rt;
        room.run(&rt, "s", &["init", "16"], "")?
            .is(DONE, "ok\n", "")
    );
    assert!(rt;
        room.run(&rt, "s", &["init", "16"], "")?
            .is(REFUSED, "refused exists\n", "")
    );
    assert!(rt;
        room.run(&rt, "none/s", &["run"], "names\n")?
            .is(DISK_FAULT, "", "disk fault")
    );
    room.remove()
}

// Another host has the store meanwhile.
#[test]
fn a_store_that_is_locked_is_a_disk_fault(rt: HostRuntime) -> Result<(), Fail> {
    let room = Room::new(&rt, "locked")?;
    assert!(rt;
        room.run(&rt, "s", &["init", "16"], "")?
            .is(DONE, "ok\n", "")
    );
    {
        let name = room.path("s")?;
        let (reader, writer) = (rt.stdin(), rt.stdout());
        let streams = Streams::NO_FILES;
        let mut host = FileHost::new(rt.alloc(), &rt, name.as_str(), reader, writer, streams)?;
        assert!(rt; host.length(Area::Pages).is_ok());
        assert!(rt;
            room.run(&rt, "s", &["run"], "names\n")?
                .is(DISK_FAULT, "", "disk fault")
        );
    }
    assert!(rt; room.run(&rt, "s", &["run"], "names\n")?.is(DONE, ".\n", ""));
    room.remove()
}

// A line must not come into a file of the store, by whatever name.
#[test]
fn a_file_of_the_store_hears_nothing(rt: HostRuntime) -> Result<(), Fail> {
    let room = Room::new(&rt, "heard")?;
    let (store, link) = (room.path("s")?, room.path("link")?);
    rt.symlink("s", link.as_str())?;
    for name in ["s", "s.log", "link.log", "other"] {
        let file = File::create(&rt, room.path(name)?.as_str())?;
        let is_other = name == "other";
        let is_far = is_other || name == "link.log";
        assert!(rt; may_hear_of(&rt, &file, store.as_str()) == is_far);
        assert!(rt; may_hear_of(&rt, &file, link.as_str()) == is_other);
        assert!(rt; may_hear_of(&rt, &file, ""));
    }
    room.remove()
}
