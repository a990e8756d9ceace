// Which file is asked what, and when.
use crate::fakes::{Call, Calls, FakeFolder, FakeReader, FakeWriter, Trouble};
use nx_files::{FileHost, Stream, Streams};
use nx_host::{Area, Disk, Failed};
use std::cell::Cell;
use std::test::Fail;

// What opening asks, before anything but the log's first byte is read.
const OPENING: [Call; 14] = [
    Call::LookAtName(Area::Pages),
    Call::Open(Area::Pages),
    Call::Lock(Area::Pages),
    Call::Look(Area::Pages),
    Call::Sync(Area::Pages),
    Call::LookAtName(Area::Log),
    Call::Open(Area::Log),
    Call::Lock(Area::Log),
    Call::Look(Area::Log),
    Call::Sync(Area::Log),
    Call::LookAtName(Area::Pages),
    Call::LookAtName(Area::Log),
    Call::Read(Area::Log),
    Call::SyncFolder,
];

// No name leads elsewhere.
const NEVER: usize = usize::MAX;

fn host<'a>(
    rt: &HostRuntime,
    folder: FakeFolder<'a>,
) -> Result<FileHost<FakeFolder<'a>, FakeReader, FakeWriter>, Fail> {
    host_beside(rt, folder, Streams::NO_FILES)
}

fn host_beside<'a>(
    rt: &HostRuntime,
    folder: FakeFolder<'a>,
    streams: Streams,
) -> Result<FileHost<FakeFolder<'a>, FakeReader, FakeWriter>, Fail> {
    let writer = FakeWriter {
        taken: Vec::new(rt.alloc()),
        calls: 0,
        trouble: Trouble::NONE,
    };
    let reader = FakeReader::new(b"", Trouble::NONE);
    Ok(FileHost::over(rt.alloc(), folder, "s", reader, writer, streams)?)
}

fn folder<'a>(calls: &'a Calls, moved: &'a Cell<usize>) -> FakeFolder<'a> {
    FakeFolder {
        calls,
        has_pages: true,
        has_log: true,
        moved,
    }
}

// Each call of opening fails once. Nothing is asked behind it, then and at further calls.
#[test]
fn a_fault_of_opening_ends_the_disk(rt: HostRuntime) -> Result<(), Fail> {
    let moved = Cell::new(NEVER);
    for failing in 1..=OPENING.len() {
        let calls = Calls::new(&rt, failing);
        let mut host = host(&rt, folder(&calls, &moved))?;
        assert!(rt; calls.are(&[]));
        assert_eq!(rt; host.read(Area::Log, 0, &mut [0; 8]), Err(Failed));
        assert_eq!(rt; host.sync(Area::Log), Err(Failed));
        assert!(rt; calls.are(&OPENING[..failing]));
    }
    Ok(())
}

// A write looks at its file first, and a sync at both names afterwards.
#[test]
fn each_area_has_its_file(rt: HostRuntime) -> Result<(), Fail> {
    let (calls, moved) = (Calls::new(&rt, 0), Cell::new(NEVER));
    let mut host = host(&rt, folder(&calls, &moved))?;
    assert_eq!(rt; host.length(Area::Pages), Ok(0));
    for (area, bytes) in [(Area::Pages, b"".as_slice()), (Area::Log, b"a".as_slice())] {
        calls.forget();
        assert_eq!(rt; host.read(area, 0, &mut [0; 8]), Ok(bytes.len()));
        assert_eq!(rt; host.write_at(area, 0, bytes), Ok(()));
        assert!(rt; calls.are(&[Call::Read(area), Call::Look(area), Call::Write(area)]));
    }
    calls.forget();
    assert_eq!(rt; host.sync(Area::Pages), Ok(()));
    assert_eq!(rt; host.sync(Area::Log), Ok(()));
    let (pages, log) = (Call::LookAtName(Area::Pages), Call::LookAtName(Area::Log));
    let [of_pages, of_log] = [Call::Sync(Area::Pages), Call::Sync(Area::Log)];
    assert!(rt; calls.are(&[of_pages, pages, log, of_log, pages, log]));
    Ok(())
}

// The first write makes what is missing, the pages first, and no call before it does.
#[test]
fn the_first_write_makes_the_files(rt: HostRuntime) -> Result<(), Fail> {
    let made = |area| [
        Call::Make(area),
        Call::Lock(area),
        Call::Look(area),
        Call::Sync(area),
    ];
    let ([a, b, c, d], [e, f, g, h]) = (made(Area::Pages), made(Area::Log));
    let write = [Call::Look(Area::Log), Call::Write(Area::Log)];
    let [i, j] = write;
    let (calls, moved) = (Calls::new(&rt, 0), Cell::new(NEVER));
    for (has_pages, area, wanted) in [
        (
            false,
            Area::Log,
            [a, b, c, d, e, f, g, h, Call::SyncFolder, i, j].as_slice(),
        ),
        (
            true,
            Area::Log,
            [e, f, g, h, Call::SyncFolder, i, j].as_slice(),
        ),
    ] {
        let folder = FakeFolder {
            calls: &calls,
            has_pages,
            has_log: false,
            moved: &moved,
        };
        let mut host = host(&rt, folder)?;
        let _ = host.length(Area::Log);
        assert_eq!(rt; host.sync(Area::Log), Ok(()));
        calls.forget();
        assert_eq!(rt; host.write_at(area, 0, b"a"), Ok(()));
        assert!(rt; calls.are(wanted));
    }
    Ok(())
}

// Any file may stand behind a stream of which that isn't known. None is made then.
#[test]
fn an_unknown_stream_makes_no_file(rt: HostRuntime) -> Result<(), Fail> {
    let (calls, moved) = (Calls::new(&rt, 0), Cell::new(NEVER));
    let (known, unknown) = (Stream::NoFile, Stream::Unknown);
    for (input, output) in [(unknown, known), (known, unknown)] {
        let mut folder = folder(&calls, &moved);
        (folder.has_pages, folder.has_log) = (false, false);
        let mut host = host_beside(&rt, folder, Streams { input, output })?;
        assert_eq!(rt; host.length(Area::Log), Ok(0));
        assert_eq!(rt; host.write_at(Area::Log, 0, b"a"), Err(Failed));
        assert_eq!(rt; host.length(Area::Log), Err(Failed));
        assert!(rt; !calls.has(Call::Make(Area::Pages)) && !calls.has(Call::Make(Area::Log)));
    }
    Ok(())
}

// Of a file that is synced under another name nobody would find what it holds.
#[test]
fn a_name_that_leads_elsewhere_ends_the_disk(rt: HostRuntime) -> Result<(), Fail> {
    let (calls, moved) = (Calls::new(&rt, 0), Cell::new(NEVER));
    let mut host = host(&rt, folder(&calls, &moved))?;
    assert_eq!(rt; host.sync(Area::Log), Ok(()));
    moved.set(0);
    assert_eq!(rt; host.sync(Area::Pages), Err(Failed));
    moved.set(NEVER);
    assert_eq!(rt; host.sync(Area::Log), Err(Failed));
    assert_eq!(rt; host.length(Area::Pages), Err(Failed));
    Ok(())
}

// A renewal syncs too.
#[test]
fn a_renewal_looks_at_both_names(rt: HostRuntime) -> Result<(), Fail> {
    let (calls, moved) = (Calls::new(&rt, 0), Cell::new(NEVER));
    let mut host = host(&rt, folder(&calls, &moved))?;
    assert_eq!(rt; host.renew(Area::Log, 0), Ok(()));
    moved.set(0);
    assert_eq!(rt; host.renew(Area::Log, 0), Err(Failed));
    moved.set(NEVER);
    assert_eq!(rt; host.length(Area::Log), Err(Failed));
    Ok(())
}

// A name that leads elsewhere before both files are taken, or to a file that was missing: nothing is read.
#[test]
fn a_name_that_moves_while_it_is_opened_is_a_fault(rt: HostRuntime) -> Result<(), Fail> {
    let (looks, moved) = (OPENING.len() - 3, Cell::new(OPENING.len() - 4));
    let calls = Calls::new(&rt, 0);
    let mut host_of_both = host(&rt, folder(&calls, &moved))?;
    assert_eq!(rt; host_of_both.length(Area::Pages), Err(Failed));
    assert!(rt; calls.are(&OPENING[..looks]));
    for (has_pages, has_log, before) in [(false, true, 6), (true, false, 7), (false, false, 2)] {
        calls.forget();
        moved.set(before);
        let mut folder = folder(&calls, &moved);
        folder.has_pages = has_pages;
        folder.has_log = has_log;
        let mut host = host(&rt, folder)?;
        assert_eq!(rt; host.length(Area::Pages), Err(Failed));
        assert_eq!(rt; host.write_at(Area::Log, 0, b"a"), Err(Failed));
        assert!(rt; !calls.has(Call::Read(Area::Log)) && !calls.has(Call::Write(Area::Log)));
    }
    Ok(())
}

// A read or a write that fails is told, and the disk goes on. A sync that fails ends it, and so does a renewal.
#[test]
fn a_failed_sync_ends_the_disk(rt: HostRuntime) -> Result<(), Fail> {
    let moved = Cell::new(NEVER);
    let calls = Calls::new(&rt, OPENING.len() + 2);
    let mut host_of_write = host(&rt, folder(&calls, &moved))?;
    assert_eq!(rt; host_of_write.write_at(Area::Pages, 0, b"a"), Err(Failed));
    assert_eq!(rt; host_of_write.renew(Area::Log, 0), Ok(()));
    let calls = Calls::new(&rt, OPENING.len() + 1);
    let mut host_of_sync = host(&rt, folder(&calls, &moved))?;
    assert_eq!(rt; host_of_sync.sync(Area::Pages), Err(Failed));
    assert_eq!(rt; host_of_sync.write_at(Area::Pages, 0, b"a"), Err(Failed));
    let calls = Calls::new(&rt, OPENING.len() + 4);
    let mut host_of_renewal = host(&rt, folder(&calls, &moved))?;
    assert_eq!(rt; host_of_renewal.renew(Area::Log, 0), Err(Failed));
    assert_eq!(rt; host_of_renewal.length(Area::Log), Err(Failed));
    Ok(())
}
