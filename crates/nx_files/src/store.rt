// The two files of a store, of which each is an area.
ghost use Rattle.std.specs.Prelude.{◌≡◌, ◌≢◌, ◌↔◌, ◌⊎◌, IsNone, ◌≤◌, ◌<◌, ◌+◌, ◌-◌, ◌^◌, ℕ, List, min, length, take, drop, string_bytes, Some, IfOk, IfSome, IsSome, IsOk, IsErr, IsTrue, OnOk, OnErr};
ghost use Rattle.nx_host.specs.Disk.{Keeps, Written, Torn, given_at};
ghost use Rattle.nx_files.specs.Files.{IsStoreNamed, AreTaken, file_of, other_file_of, file_bytes, file_end, IsOpen, HasEnded, HasTriedOpening, HasItsFiles, AreFilesAt, IsSynced, area_bytes, area_end, HasFile, LacksLog, LeavesOther, file_write, area_write, StandAt};
ghost use Rattle.nx_files.specs.declared.sight.Streams.{Streams};
ghost use Rattle.nx_files.specs.Made.{MayMake, MayMakeBoth};
ghost use Rattle.nx_files.specs.Writes.{IsByteAt};

use crate::opening::{OpenStore, make_missing, open, stands};
use crate::{Folder, StoreFile, Streams, area_file};
use nx_host::{Area, Failed};
use nx_lists::NoMemory;
use std::alloc::Global;

// The files of a store, opened at the first use.
#[derive(Drop)]
pub struct Store<T: StoreFile> {
    pages: String,
    log: String,
    streams: Streams,
    // A write makes both files, where the log is missing. Without it only pages are made that are missing beside a log.
    makes_log: bool,
    state: State<T>,
}

#[derive(Drop)]
pub enum State<T: StoreFile> {
    Unopened,
    Open(OpenStore<T>),
    // There is no store, its files couldn't be opened or made, or a sync failed. What a sync that fails leaves
    // behind, the system may take for written, so that a later one would succeed without it.
    Broken,
}

impl<T: StoreFile + Drop> Store<T> {
    // The store of this name, whose log has the name of its pages with `.log` behind it. No file is touched.
    // There is none where the name stands for no path, or for one that another store's log may have.
    #[tactic(auto, using(std::proofs::lemmas::Str::Pattern::ends_text))]
    pub fn new<D: Folder<File = T>>(
        alloc: Global,
        folder: &mut D,
        name: &str,
        streams: Streams,
    ) -> Result<Store<T>, NoMemory>
        ensures named { IfOk result (IsStoreNamed (D.stands_for folder.new name.now)) }
        ensures its_files { IfOk result (HasItsFiles T.StoreFile) }
        ensures streams { IfOk result (λ store. store.streams ≡ streams) }
        ensures made { D.made folder.new ≡ D.made folder.old }
    {
        let Some(pages) = folder.resolve(alloc, name)? else {
            return Ok(Store::none(alloc, streams));
        };
        if pages.as_str().ends_with(".log") {
            return Ok(Store::none(alloc, streams));
        }
        let mut log = String::from_str(alloc, pages.as_str())?;
        log.push_str(".log")?;
        Ok(Store {
            pages,
            log,
            streams,
            makes_log: true,
            state: State::Unopened,
        })
    }

    // A store that can't be opened.
    pub fn none(alloc: Global, streams: Streams) -> Store<T>
        ensures ended { HasEnded result.state }
        ensures streams { result.streams ≡ streams }
        ensures makes_none { ¬ IsTrue result.makes_log }
    {
        Store {
            pages: String::new(alloc),
            log: String::new(alloc),
            streams,
            makes_log: false,
            state: State::Broken,
        }
    }

    // The same store, of which a log is made that is missing, or none is.
    pub fn making_log(self, makes_log: bool) -> Store<T>
        ensures { result ≡ record self { makes_log = makes_log } }
    {
        Store { makes_log, ..self }
    }

    pub fn length<D: Folder<File = T>>(&mut self, folder: &mut D, area: Area) -> Result<u64, Failed>
        ensures value { IfOk result (λ n. IfSome (area_bytes T.StoreFile area self.new.state) (λ now. n ≡ length now)) }
        ensures held { IsOpen self.old.state → area_bytes T.StoreFile area self.new.state ≡ area_bytes T.StoreFile area self.old.state }
        ensures seen { IfOk result (λ n. area_end area self.new.state ≡ n) }
        ensures no_less { area_end area self.old.state ≤ area_end area self.new.state }
        ensures ok { OnOk result (IsOpen self.new.state) }
        ensures ended { HasEnded self.old.state → IsErr result × HasEnded self.new.state }
        ensures other { LeavesOther area self.old.state self.new.state }
        ensures others { self.new ≡ record self.old { state = self.new.state } }
        ensures its_files { HasItsFiles T.StoreFile self.old → HasItsFiles T.StoreFile self.new }
        ensures made { D.made folder.new ≡ D.made folder.old }
    {
        self.open(folder);
        match &mut self.state {
            State::Open(store) => store.length(area),
            State::Unopened | State::Broken => Err(Failed),
        }
    }

    // Fills the slice from an offset on, as far as the file goes.
    pub fn read<D: Folder<File = T>>(
        &mut self,
        folder: &mut D,
        area: Area,
        at: u64,
        into: &mut [u8],
    ) -> Result<usize, Failed>
        ensures room { IfOk result (λ n. n ≤ length into.old) }
        ensures count { IfOk result (λ n. IfSome (area_bytes T.StoreFile area self.new.state)
            (λ now. n ≡ length (given_at at (length into.old) now))) }
        ensures given { IfOk result (λ n. IfSome (area_bytes T.StoreFile area self.new.state)
            (λ now. take n into.new ≡ given_at at (length into.old) now)) }
        ensures held { IsOpen self.old.state → area_bytes T.StoreFile area self.new.state ≡ area_bytes T.StoreFile area self.old.state }
        ensures not_short { IfOk result (λ n. min (length into.old) (area_end area self.new.state - at) ≤ n) }
        ensures raised { IfOk result (λ n. 0 < n → min (at + n) (2 ^ 64 - 1) ≤ area_end area self.new.state) }
        ensures no_less { area_end area self.old.state ≤ area_end area self.new.state }
        ensures ok { OnOk result (IsOpen self.new.state) }
        ensures ended { HasEnded self.old.state → IsErr result × HasEnded self.new.state }
        ensures other { LeavesOther area self.old.state self.new.state }
        ensures others { self.new ≡ record self.old { state = self.new.state } }
        ensures its_files { HasItsFiles T.StoreFile self.old → HasItsFiles T.StoreFile self.new }
        ensures made { D.made folder.new ≡ D.made folder.old }
    {
        self.open(folder);
        match &mut self.state {
            State::Open(store) => store.read(area, at, into),
            State::Unopened | State::Broken => Err(Failed),
        }
    }

    // Writes the slice at an offset. A write of no bytes behind the end makes the file as long too. Where the
    // file is missing, what is missing is made first.
    pub fn write_at<D: Folder<File = T>>(
        &mut self,
        folder: &mut D,
        area: Area,
        at: u64,
        bytes: &[u8],
    ) -> Result<(), Failed>
        requires { at + length bytes.now ≤ 2 ^ 63 }
        ensures told { IsOpen self.old.state → IsSome (area_bytes T.StoreFile area self.new.state) → IsSome (area_bytes T.StoreFile area self.old.state) }
        ensures here { OnOk result (IfSome (area_bytes T.StoreFile area self.new.state)
            (λ now. take (length bytes.now) (drop at now) ≡ bytes.now)) }
        ensures written { OnOk result (IfSome (area_bytes T.StoreFile area self.new.state)
            (λ now. IfSome (area_bytes T.StoreFile area self.old.state) (λ was. Written at bytes.now was now))) }
        ensures failed { OnErr result (IfSome (area_bytes T.StoreFile area self.new.state)
            (λ now. IfSome (area_bytes T.StoreFile area self.old.state) (λ was. Torn at (length bytes.now) was now))) }
        ensures cut { IfSome (area_bytes T.StoreFile area self.old.state)
            (λ was. length was < area_end area self.old.state → IsErr result) }
        ensures made { OnOk result (at + length bytes.now ≤ area_end area self.new.state) }
        ensures no_less { IsOpen self.new.state → area_end area self.old.state ≤ area_end area self.new.state }
        ensures ok { OnOk result (IsOpen self.new.state) }
        ensures ended { HasEnded self.old.state → IsErr result × HasEnded self.new.state }
        ensures other { HasFile area self.old.state → LeavesOther area self.old.state self.new.state }
        ensures others { self.new ≡ record self.old { state = self.new.state } }
        ensures its_files { HasItsFiles T.StoreFile self.old → HasItsFiles T.StoreFile self.new }
        ensures both_made { MayMakeBoth (string_bytes self.old.pages) (string_bytes self.old.log) (D.made folder.old) (D.made folder.new) }
        ensures no_log { ¬ IsTrue self.old.makes_log → MayMake (string_bytes self.old.pages) (D.made folder.old) (D.made folder.new) }
        ensures none_beside { ¬ IsTrue self.old.makes_log → LacksLog self.old.state → D.made folder.new ≡ D.made folder.old }
        ensures none_again { HasFile area self.old.state → D.made folder.new ≡ D.made folder.old }
    {
        self.open(folder);
        self.make(folder, area);
        match &mut self.state {
            State::Open(store) => store.write_at(area, at, bytes),
            State::Unopened | State::Broken => Err(Failed),
        }
    }

    // Makes what the file holds durable, with the length that it needs. What a file holds is there for whoever
    // comes next only where both names still lead to the files that are open: so a checkpoint empties no log
    // whose pages went with a file that was removed, and no answer stands in a log that nobody finds.
    pub fn sync<D: Folder<File = T>>(&mut self, folder: &mut D, area: Area) -> Result<(), Failed>
        ensures ok { OnOk result (IsSynced T.StoreFile area self.new.state) }
        ensures held { OnOk result (IsOpen self.old.state → area_bytes T.StoreFile area self.new.state ≡ area_bytes T.StoreFile area self.old.state) }
        ensures no_less { OnOk result (area_end area self.old.state ≤ area_end area self.new.state) }
        ensures err { OnErr result (HasEnded self.new.state) }
        ensures ended { HasEnded self.old.state → IsErr result × HasEnded self.new.state }
        ensures other { OnOk result (LeavesOther area self.old.state self.new.state) }
        ensures stand { OnOk result (StandAt (D.standing folder.new) (string_bytes self.old.pages) (string_bytes self.old.log) self.new.state) }
        ensures others { self.new ≡ record self.old { state = self.new.state } }
        ensures its_files { HasItsFiles T.StoreFile self.old → HasItsFiles T.StoreFile self.new }
        ensures made { D.made folder.new ≡ D.made folder.old }
    {
        self.open(folder);
        let synced = match &mut self.state {
            State::Open(store) => store.sync(area),
            State::Unopened | State::Broken => Err(Failed),
        };
        let stood = self.stand(folder, synced);
        if stood.is_err() {
            self.state = State::Broken;
        }
        stood
    }

    // Writes the byte that stands at the offset there once more, and makes the file durable. As behind a sync, both
    // names still lead to the files that are open.
    pub fn renew<D: Folder<File = T>>(
        &mut self,
        folder: &mut D,
        area: Area,
        at: u64,
    ) -> Result<(), Failed>
        ensures ok { OnOk result (IsSynced T.StoreFile area self.new.state) }
        ensures held { OnOk result (IsOpen self.old.state → Keeps (area_bytes T.StoreFile area self.old.state) (area_bytes T.StoreFile area self.new.state)) }
        ensures last { OnOk result (IfSome (area_write T.StoreFile area self.new.state) (IsByteAt at)) }
        ensures no_less { OnOk result (area_end area self.old.state ≤ area_end area self.new.state) }
        ensures err { OnErr result (HasEnded self.new.state) }
        ensures ended { HasEnded self.old.state → IsErr result × HasEnded self.new.state }
        ensures other { OnOk result (LeavesOther area self.old.state self.new.state) }
        ensures stand { OnOk result (StandAt (D.standing folder.new) (string_bytes self.old.pages) (string_bytes self.old.log) self.new.state) }
        ensures others { self.new ≡ record self.old { state = self.new.state } }
        ensures its_files { HasItsFiles T.StoreFile self.old → HasItsFiles T.StoreFile self.new }
        ensures made { D.made folder.new ≡ D.made folder.old }
    {
        self.open(folder);
        let renewed = match &mut self.state {
            State::Open(store) => store.renew(area, at),
            State::Unopened | State::Broken => Err(Failed),
        };
        let stood = self.stand(folder, renewed);
        if stood.is_err() {
            self.state = State::Broken;
        }
        stood
    }

    // Opens the files where that wasn't tried yet.
    fn open<D: Folder<File = T>>(&mut self, folder: &mut D)
        ensures again { self.old.state ≢ State.Unopened → self.new ≡ self.old }
        ensures first { self.old.state ≡ State.Unopened → HasTriedOpening T.StoreFile self.old.streams (string_bytes self.old.pages) (string_bytes self.old.log) self.new.state }
        ensures names { self.old.state ≡ State.Unopened → IsOpen self.new.state → IsTrue (D.is_durable folder.new) }
        ensures others { self.new ≡ record self.old { state = self.new.state } }
        ensures its_files { HasItsFiles T.StoreFile self.old → HasItsFiles T.StoreFile self.new }
        ensures made { D.made folder.new ≡ D.made folder.old }
    {
        if let State::Unopened = self.state {
            self.state = match open(
                folder,
                self.pages.as_str(),
                self.log.as_str(),
                &self.streams,
            ) {
                Ok(store) => State::Open(store),
                Err(Failed) => State::Broken,
            };
        }
    }

    // Makes what is missing, where the area's file is. It begins no store that may not be begun.
    fn make<D: Folder<File = T>>(&mut self, folder: &mut D, area: Area)
        ensures ended { HasEnded self.old.state → HasEnded self.new.state }
        ensures there { IsOpen self.new.state → HasFile area self.new.state }
        ensures held { Keeps (area_bytes T.StoreFile area self.old.state) (area_bytes T.StoreFile area self.new.state) }
        ensures no_less { IsOpen self.new.state → area_end area self.old.state ≤ area_end area self.new.state }
        ensures had { HasFile area self.old.state → self.new ≡ self.old }
        ensures others { self.new ≡ record self.old { state = self.new.state } }
        ensures its_files { HasItsFiles T.StoreFile self.old → HasItsFiles T.StoreFile self.new }
        ensures both_made { MayMakeBoth (string_bytes self.old.pages) (string_bytes self.old.log) (D.made folder.old) (D.made folder.new) }
        ensures no_log { ¬ IsTrue self.old.makes_log → MayMake (string_bytes self.old.pages) (D.made folder.old) (D.made folder.new) }
        ensures none_beside { ¬ IsTrue self.old.makes_log → LacksLog self.old.state → D.made folder.new ≡ D.made folder.old }
        ensures none_again { HasFile area self.old.state → D.made folder.new ≡ D.made folder.old }
    {
        let made = match &mut self.state {
            State::Open(store) if store.is_missing(area) => {
                if self.makes_log || store.log.is_some() {
                    let (pages, log) = (self.pages.as_str(), self.log.as_str());
                    make_missing(folder, pages, log, &self.streams, store)
                } else {
                    Err(Failed)
                }
            }
            _ => Ok(()),
        };
        if made.is_err() {
            self.state = State::Broken;
        }
    }

    // Behind what went well: both names still lead to the files that are open, and none of these was cut.
    fn stand<D: Folder<File = T>>(
        &self,
        folder: &mut D,
        done: Result<(), Failed>,
    ) -> Result<(), Failed>
        ensures went { OnOk result (IsOk done) }
        ensures stand { OnOk result (StandAt (D.standing folder.new) (string_bytes self.now.pages) (string_bytes self.now.log) self.now.state) }
        ensures made { D.made folder.new ≡ D.made folder.old }
    {
        done?;
        match &self.state {
            State::Open(store) => {
                stands(folder, self.pages.as_str(), &store.pages)?;
                stands(folder, self.log.as_str(), &store.log)
            }
            State::Unopened | State::Broken => Ok(()),
        }
    }
}

impl<T: StoreFile> OpenStore<T> {
    fn is_missing(&self, area: Area) -> bool
        ensures { IsTrue result ↔ IsNone (file_of area self.now) }
    {
        match area {
            Area::Pages => self.pages.is_none(),
            Area::Log => self.log.is_none(),
        }
    }

    fn length(&mut self, area: Area) -> Result<u64, Failed>
        ensures value { IfOk result (λ n. IfSome (file_bytes T.StoreFile (file_of area self.new)) (λ now. n ≡ length now)) }
        ensures seen { IfOk result (λ n. file_end (file_of area self.new) ≡ n) }
        ensures no_less { file_end (file_of area self.old) ≤ file_end (file_of area self.new) }
        ensures held { file_bytes T.StoreFile (file_of area self.new) ≡ file_bytes T.StoreFile (file_of area self.old) }
        ensures other { other_file_of area self.new ≡ other_file_of area self.old }
        ensures its_files { (streams : Streams) (pages log : List ℕ) → AreFilesAt T.StoreFile streams pages log self.old → AreFilesAt T.StoreFile streams pages log self.new }
    {
        match area {
            Area::Pages => area_file::length(&mut self.pages),
            Area::Log => area_file::length(&mut self.log),
        }
    }

    fn read(&mut self, area: Area, at: u64, into: &mut [u8]) -> Result<usize, Failed>
        ensures room { IfOk result (λ n. n ≤ length into.old) }
        ensures count { IfOk result (λ n. IfSome (file_bytes T.StoreFile (file_of area self.new))
            (λ now. n ≡ length (given_at at (length into.old) now))) }
        ensures given { IfOk result (λ n. IfSome (file_bytes T.StoreFile (file_of area self.new))
            (λ now. take n into.new ≡ given_at at (length into.old) now)) }
        ensures not_short { IfOk result (λ n. min (length into.old) (file_end (file_of area self.new) - at) ≤ n) }
        ensures raised { IfOk result (λ n. 0 < n → min (at + n) (2 ^ 64 - 1) ≤ file_end (file_of area self.new)) }
        ensures no_less { file_end (file_of area self.old) ≤ file_end (file_of area self.new) }
        ensures held { file_bytes T.StoreFile (file_of area self.new) ≡ file_bytes T.StoreFile (file_of area self.old) }
        ensures other { other_file_of area self.new ≡ other_file_of area self.old }
        ensures its_files { (streams : Streams) (pages log : List ℕ) → AreFilesAt T.StoreFile streams pages log self.old → AreFilesAt T.StoreFile streams pages log self.new }
    {
        match area {
            Area::Pages => area_file::read_at(&mut self.pages, at, into),
            Area::Log => area_file::read_at(&mut self.log, at, into),
        }
    }

    fn write_at(&mut self, area: Area, at: u64, bytes: &[u8]) -> Result<(), Failed>
        requires { at + length bytes.now ≤ 2 ^ 63 }
        ensures told { IsSome (file_bytes T.StoreFile (file_of area self.new)) → IsSome (file_bytes T.StoreFile (file_of area self.old)) }
        ensures here { OnOk result (IfSome (file_bytes T.StoreFile (file_of area self.new))
            (λ now. take (length bytes.now) (drop at now) ≡ bytes.now)) }
        ensures written { OnOk result (IfSome (file_bytes T.StoreFile (file_of area self.new))
            (λ now. IfSome (file_bytes T.StoreFile (file_of area self.old)) (λ was. Written at bytes.now was now))) }
        ensures failed { OnErr result (IfSome (file_bytes T.StoreFile (file_of area self.new))
            (λ now. IfSome (file_bytes T.StoreFile (file_of area self.old)) (λ was. Torn at (length bytes.now) was now))) }
        ensures cut { IfSome (file_bytes T.StoreFile (file_of area self.old))
            (λ was. length was < file_end (file_of area self.old) → IsErr result) }
        ensures made { OnOk result (at + length bytes.now ≤ file_end (file_of area self.new)) }
        ensures no_less { file_end (file_of area self.old) ≤ file_end (file_of area self.new) }
        ensures other { other_file_of area self.new ≡ other_file_of area self.old }
        ensures its_files { (streams : Streams) (pages log : List ℕ) → AreFilesAt T.StoreFile streams pages log self.old → AreFilesAt T.StoreFile streams pages log self.new }
    {
        match area {
            Area::Pages => area_file::write_at(&mut self.pages, at, bytes),
            Area::Log => area_file::write_at(&mut self.log, at, bytes),
        }
    }

    fn sync(&mut self, area: Area) -> Result<(), Failed>
        ensures durable { OnOk result (IfSome (file_of area self.new) (λ file. IsTrue (T.is_durable file.file))) }
        ensures held { file_bytes T.StoreFile (file_of area self.new) ≡ file_bytes T.StoreFile (file_of area self.old) }
        ensures end { file_end (file_of area self.new) ≡ file_end (file_of area self.old) }
        ensures other { other_file_of area self.new ≡ other_file_of area self.old }
        ensures its_files { (streams : Streams) (pages log : List ℕ) → AreFilesAt T.StoreFile streams pages log self.old → AreFilesAt T.StoreFile streams pages log self.new }
    {
        match area {
            Area::Pages => area_file::sync(&mut self.pages),
            Area::Log => area_file::sync(&mut self.log),
        }
    }

    fn renew(&mut self, area: Area, at: u64) -> Result<(), Failed>
        ensures held { OnOk result (Keeps (file_bytes T.StoreFile (file_of area self.old)) (file_bytes T.StoreFile (file_of area self.new))) }
        ensures last { OnOk result (IfSome (file_write T.StoreFile (file_of area self.new)) (IsByteAt at)) }
        ensures durable { OnOk result (IfSome (file_of area self.new) (λ file. IsTrue (T.is_durable file.file))) }
        ensures no_less { file_end (file_of area self.old) ≤ file_end (file_of area self.new) }
        ensures other { other_file_of area self.new ≡ other_file_of area self.old }
        ensures its_files { (streams : Streams) (pages log : List ℕ) → AreFilesAt T.StoreFile streams pages log self.old → AreFilesAt T.StoreFile streams pages log self.new }
    {
        match area {
            Area::Pages => area_file::renew(&mut self.pages, at),
            Area::Log => area_file::renew(&mut self.log, at),
        }
    }
}
