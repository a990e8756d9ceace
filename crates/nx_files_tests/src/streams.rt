// One read or write going wrong in mid-stream: the call says so, and no byte is lost or doubled.
use crate::fakes::{FakeReader, FakeWriter, Trouble};
use nx_files::FileHost;
use nx_host::{Failed, Host};
use std::io::ErrorKind;
use std::test::Fail;

// How often a call that a signal cuts short is tried.
const TRIES: u32 = 1024;

fn writer(rt: &HostRuntime, trouble: Trouble) -> FakeWriter {
    FakeWriter {
        taken: Vec::new(rt.alloc()),
        calls: 0,
        trouble,
    }
}

fn reader(trouble: Trouble) -> FakeReader {
    FakeReader::new(b"abcdefgh", trouble)
}

#[test]
fn a_failed_read_takes_nothing(rt: HostRuntime) -> Result<(), Fail> {
    let reader = reader(Trouble::at(2, ErrorKind::Other));
    let writer = writer(&rt, Trouble::NONE);
    let mut host = FileHost::without_store(rt.alloc(), &rt, reader, writer);
    let mut into = [b'.'; 8];
    assert_eq!(rt; host.read_in(&mut into), Ok(3));
    assert_eq!(rt; into.as_slice(), b"abc.....".as_slice());
    assert_eq!(rt; host.read_in(&mut into), Err(Failed));
    assert_eq!(rt; host.read_in(&mut into), Ok(3));
    assert_eq!(rt; into.as_slice(), b"def.....".as_slice());
    assert_eq!(rt; host.read_in(&mut into), Ok(2));
    assert_eq!(rt; into.as_slice(), b"ghf.....".as_slice());
    assert_eq!(rt; host.read_in(&mut into), Ok(0));
    Ok(())
}

#[test]
fn a_signal_is_no_fault(rt: HostRuntime) -> Result<(), Fail> {
    let once = Trouble::at(1, ErrorKind::Interrupted);
    let mut writer = writer(&rt, once);
    {
        let mut host = FileHost::without_store(rt.alloc(), &rt, reader(once), &mut writer);
        assert_eq!(rt; host.read_in(&mut [b'.'; 8]), Ok(3));
        assert_eq!(rt; host.emit(b"abcdefgh"), Ok(()));
    }
    assert_eq!(rt; writer.taken.as_slice(), b"abcdefgh".as_slice());
    Ok(())
}

#[test]
fn signals_without_end_are_a_fault(rt: HostRuntime) -> Result<(), Fail> {
    let always = Trouble {
        first: 1,
        last: u32::MAX,
        kind: ErrorKind::Interrupted,
    };
    let (mut reader, mut writer) = (reader(always), writer(&rt, always));
    {
        let mut host = FileHost::without_store(rt.alloc(), &rt, &mut reader, &mut writer);
        assert_eq!(rt; host.read_in(&mut [0; 8]), Err(Failed));
        assert_eq!(rt; host.emit(b"abcdefgh"), Err(Failed));
    }
    assert_eq!(rt; (reader.calls, writer.calls), (TRIES, TRIES));
    Ok(())
}

#[test]
fn a_failed_write_leaves_a_prefix(rt: HostRuntime) -> Result<(), Fail> {
    for kind in [ErrorKind::BrokenPipe, ErrorKind::WriteZero] {
        let mut writer = writer(&rt, Trouble::at(2, kind));
        {
            let mut host = FileHost::without_store(
                rt.alloc(),
                &rt,
                reader(Trouble::NONE),
                &mut writer,
            );
            assert_eq!(rt; host.emit(b"abcdefgh"), Err(Failed));
            assert_eq!(rt; host.emit(b"ij"), Ok(()));
        }
        assert_eq!(rt; writer.taken.as_slice(), b"abcij".as_slice());
    }
    Ok(())
}

#[test]
fn short_writes_go_on(rt: HostRuntime) -> Result<(), Fail> {
    let mut writer = writer(&rt, Trouble::NONE);
    {
        let mut host = FileHost::without_store(rt.alloc(), &rt, reader(Trouble::NONE), &mut writer);
        assert_eq!(rt; host.emit(b""), Ok(()));
        assert_eq!(rt; host.emit(b"abcdefgh"), Ok(()));
    }
    assert_eq!(rt; writer.taken.as_slice(), b"abcdefgh".as_slice());
    assert_eq!(rt; writer.calls, 3);
    Ok(())
}
