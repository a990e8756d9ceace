// How the files of a store are found, opened and made.
ghost use Rattle.std.specs.Prelude.{◌≡◌, ◌≤◌, [], length, Some, IfOk, IfSome, IsSome, IsTrue, OnOk, OnErr};
ghost use Rattle.nx_host.specs.Disk.{Keeps};
ghost use Rattle.nx_files.specs.Sight.{IsUnknown};
ghost use Rattle.nx_files.specs.Files.{AreFilesAt, AreTaken, IsFileAt, IsFileTaken, IsOwnStore, IsStillThere, file_bytes, file_end, with_missing};
ghost use Rattle.nx_files.specs.Made.{MayMake, MayMakeBoth, with_made};

use crate::locked::admit;
use crate::own::is_own;
use crate::settled::SettledFile;
use crate::{Folder, StoreFile, Streams, area_file};
use nx_host::Failed;

// The files of a store, of which each may be missing.
#[derive(Drop)]
pub struct OpenStore<T: StoreFile> {
    pub pages: Option<SettledFile<T>>,
    pub log: Option<SettledFile<T>>,
}

// Opens the files that are there. All of both is made durable, which may take long, so their names are looked at
// again before anything is read: both files are of one store only where both still stand there, and what was missing
// is missing still. Then the names are made durable. What no store has left so is none of a store.
pub fn open<D: Folder>(
    folder: &mut D,
    pages: &str,
    log: &str,
    streams: &Streams,
) -> Result<OpenStore<D::File>, Failed>
    ensures taken { IfOk result (AreTaken D.File.StoreFile streams.now pages.now log.now) }
    ensures at { IfOk result (AreFilesAt D.File.StoreFile streams.now pages.now log.now) }
    ensures own { IfOk result (IsOwnStore D.File.StoreFile) }
    ensures names { OnOk result (IsTrue (D.is_durable folder.new)) }
    ensures made { D.made folder.new ≡ D.made folder.old }
{
    let pages_file = find(folder, pages, streams)?;
    let mut log_file = find(folder, log, streams)?;
    stands(folder, pages, &pages_file)?;
    stands(folder, log, &log_file)?;
    let first = area_file::first(&mut log_file)?;
    if !is_own(area_file::end(&pages_file), first) {
        return Err(Failed);
    }
    folder.sync(pages)?;
    Ok(OpenStore {
        pages: pages_file,
        log: log_file,
    })
}

// The file at the path, where one is there. It is looked at before it is opened, since opening alone may act on what
// is no file, and is the same when it is open.
fn find<D: Folder>(
    folder: &mut D,
    path: &str,
    streams: &Streams,
) -> Result<Option<SettledFile<D::File>>, Failed>
    ensures taken { IfOk result (λ found. IfSome found (IsFileTaken D.File.StoreFile streams.now path.now)) }
    ensures at { IfOk result (λ found. IfSome found (IsFileAt D.File.StoreFile streams.now path.now)) }
    ensures end { IfOk result (λ found. IfSome (file_bytes D.File.StoreFile found) (λ now. file_end found ≡ length now)) }
    ensures made { D.made folder.new ≡ D.made folder.old }
{
    let Some(sight) = folder.look(path)? else {
        return Ok(None);
    };
    if !sight.is_file {
        return Err(Failed);
    }
    let locked = admit(folder.open(path)?, streams)?;
    if locked.sight.identity != sight.identity {
        return Err(Failed);
    }
    Ok(Some(SettledFile::settle(locked)?))
}

// Makes the files that are missing, the pages first, and then their names durable. No file that is made could be
// taken where a stream may be any file, so none is made then.
pub fn make_missing<D: Folder>(
    folder: &mut D,
    pages: &str,
    log: &str,
    streams: &Streams,
    store: &mut OpenStore<D::File>,
) -> Result<(), Failed>
    ensures known { OnOk result (¬ IsUnknown streams.now) }
    ensures there { OnOk result (IsSome store.new.pages × IsSome store.new.log) }
    ensures pages { IsSome store.old.pages → store.new.pages ≡ store.old.pages }
    ensures log { IsSome store.old.log → store.new.log ≡ store.old.log }
    ensures pages_held { Keeps (file_bytes D.File.StoreFile store.old.pages) (file_bytes D.File.StoreFile store.new.pages) }
    ensures log_held { Keeps (file_bytes D.File.StoreFile store.old.log) (file_bytes D.File.StoreFile store.new.log) }
    ensures pages_end { file_end store.old.pages ≤ file_end store.new.pages }
    ensures log_end { file_end store.old.log ≤ file_end store.new.log }
    ensures taken { AreTaken D.File.StoreFile streams.now pages.now log.now store.old
        → AreTaken D.File.StoreFile streams.now pages.now log.now store.new }
    ensures at { AreFilesAt D.File.StoreFile streams.now pages.now log.now store.old
        → AreFilesAt D.File.StoreFile streams.now pages.now log.now store.new }
    ensures names { OnOk result (IsTrue (D.is_durable folder.new)) }
    ensures made { OnOk result (D.made folder.new ≡ with_missing log.now store.old.log (with_missing pages.now store.old.pages (D.made folder.old))) }
    ensures both { MayMakeBoth pages.now log.now (D.made folder.old) (D.made folder.new) }
    ensures beside { IsSome store.old.log → MayMake pages.now (D.made folder.old) (D.made folder.new) }
{
    if streams.is_unknown() {
        return Err(Failed);
    }
    if store.pages.is_none() {
        store.pages = Some(make(folder, pages, streams)?);
    }
    if store.log.is_none() {
        store.log = Some(make(folder, log, streams)?);
    }
    folder.sync(pages)
}

fn make<D: Folder>(
    folder: &mut D,
    path: &str,
    streams: &Streams,
) -> Result<SettledFile<D::File>, Failed>
    ensures taken { IfOk result (IsFileTaken D.File.StoreFile streams.now path.now) }
    ensures at { IfOk result (IsFileAt D.File.StoreFile streams.now path.now) }
    ensures empty { IfOk result (λ made. IfSome (D.File.holds made.file) (λ held. held ≡ [])) }
    ensures made { OnOk result (D.made folder.new ≡ with_made path.now (D.made folder.old)) }
    ensures failed { OnErr result (MayMake path.now (D.made folder.old) (D.made folder.new)) }
{
    let locked = admit(folder.make(path)?, streams)?;
    SettledFile::settle(locked)
}

// The file at the path is still the one that is open, and as long as this session saw or made it at least; or it is
// still missing. What is written to a file without a name is found by nobody, and a file that ends before was cut.
pub fn stands<D: Folder>(
    folder: &mut D,
    path: &str,
    file: &Option<SettledFile<D::File>>,
) -> Result<(), Failed>
    ensures there { OnOk result (IfSome (D.standing folder.new path.now) (IsStillThere file.now)) }
    ensures standing { D.standing folder.new ≡ D.standing folder.old }
    ensures made { D.made folder.new ≡ D.made folder.old }
{
    let is_there = match (folder.look(path)?, file) {
        (Some(sight), Some(file)) => {
            sight.identity == file.identity() && file.end() <= sight.length
        }
        (None, None) => true,
        _ => false,
    };
    if is_there { Ok(()) } else { Err(Failed) }
}
