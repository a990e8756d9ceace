// The host over files.
ghost use Rattle.std.specs.Prelude.{◌≡◌, ◌⊎◌, ◌+◌, ◌-◌, ◌^◌, ◌<◌, ◌≤◌, ℕ, min, length, take, drop, string_bytes, None, IfOk, IfSome, IsErr, IsSome, IsTrue, OnOk, OnErr, refl};
ghost use Rattle.std.specs.Io.KnownBytes.{Appends, Consumes, IsAtEnd, Keeps};
ghost use Rattle.std.proofs.Common.{subst, sym};
ghost use Rattle.nx_host.specs.Disk.{Keeps as KeepsTold, HoldsBytes, Rose, Written, Torn, no_bytes, given_at};
ghost use Rattle.nx_host.proofs.DiskLemmas.{no_bytes_hold_bytes, untold};
ghost use Rattle.nx_files.specs.Files.{IsStoreNamed, IsOpen, IsSynced, area_bytes, area_end, HasEnded, HasFile, HasItsFiles, LacksLog, LeavesOther, StandAt, area_write};
ghost use Rattle.nx_files.specs.Made.{MayMake, MayMakeBoth};
ghost use Rattle.nx_files.specs.Writes.{IsByteAt};

use crate::store::Store;
use crate::stream::{read_some, write_whole};
use crate::{Folder, Streams, SystemFolder};
use nx_host::{Area, Disk, Failed, Host};
use nx_lists::NoMemory;
use std::alloc::Global;
use std::fs::{File, Files};
use std::io::{Read, Write};

/// A host over the two files of a store, a reader and a writer. It tells nothing of their bytes.
///
/// The files are opened at the first call of `Disk`, and made at the first write. From then on both are locked
/// until the host is dropped. Before anything is read or written, both and their names are made durable, whoever
/// wrote and made them. A file that is missing is an empty area.
#[derive(Drop)]
pub struct FileHost<D: Folder, R, W> {
    folder: D,
    store: Store<D::File>,
    reader: R,
    writer: W,
    // Each count stops at its type's end.
    reads: u64,
    faults: u64,
    in_faults: u64,
    out_faults: u64,
}

impl<F: Files<File = File> + Drop, R: Drop, W: Drop> FileHost<SystemFolder<F>, R, W> {
    /// A host over the file that the name stands for, for the pages, the file with `.log` behind its path, for
    /// the log, and these two, neither of which is buffered here. A name that is a link stands for the file that
    /// it leads to in the end. No file is opened yet.
    ///
    /// What can't be a store fails at the first call of `Disk`: a link that leads to nothing, a path that ends in
    /// `.log`, a file with a second name, a log that is a link, what is no regular file, a file that is one of
    /// the streams, and files that no store has left.
    ///
    /// Errors: `NoMemory`.
    pub fn new(
        alloc: Global,
        files: F,
        name: &str,
        reader: R,
        writer: W,
        streams: Streams,
    ) -> Result<FileHost<SystemFolder<F>, R, W>, NoMemory>
        ensures named { IfOk result (λ host. IsStoreNamed (λ path. ¬ IsTrue host.folder.followed → path ≡ name.now) host.store) }
        ensures streams { IfOk result (λ host. host.store.streams ≡ streams) }
        ensures over { IfOk result (λ host. (host.reader ≡ reader) × (host.writer ≡ writer)) }
        ensures no_fault { IfOk result (λ host. (host.faults ≡ 0) × (host.in_faults ≡ 0) × (host.out_faults ≡ 0)) }
    {
        FileHost::over(
            alloc,
            SystemFolder::new(files),
            name,
            reader,
            writer,
            streams,
        )
    }

    /// A host of a command that has no store: each call of `Disk` fails, and asks the system for nothing.
    pub fn without_store(
        alloc: Global,
        files: F,
        reader: R,
        writer: W,
    ) -> FileHost<SystemFolder<F>, R, W>
        ensures no_store { HasEnded result.store.state }
        ensures makes_none { ¬ IsTrue result.store.makes_log }
        ensures over { (result.reader ≡ reader) × (result.writer ≡ writer) }
        ensures no_fault { (result.faults ≡ 0) × (result.in_faults ≡ 0) × (result.out_faults ≡ 0) }
    {
        FileHost {
            folder: SystemFolder::new(files),
            store: Store::none(alloc, Streams::NO_FILES),
            reader,
            writer,
            reads: 0,
            faults: 0,
            in_faults: 0,
            out_faults: 0,
        }
    }
}

impl<D: Folder + Drop, R: Drop, W: Drop> FileHost<D, R, W> {
    /// The same over files of this folder.
    ///
    /// Errors: `NoMemory`.
    pub fn over(
        alloc: Global,
        folder: D,
        name: &str,
        reader: R,
        writer: W,
        streams: Streams,
    ) -> Result<FileHost<D, R, W>, NoMemory>
        ensures named { IfOk result (λ host. IsStoreNamed (D.stands_for host.folder name.now) host.store) }
        ensures its_files { IfOk result (λ host. HasItsFiles D.File.StoreFile host.store) }
        ensures streams { IfOk result (λ host. host.store.streams ≡ streams) }
        ensures over { IfOk result (λ host. (host.reader ≡ reader) × (host.writer ≡ writer)) }
        ensures no_fault { IfOk result (λ host. (host.faults ≡ 0) × (host.in_faults ≡ 0) × (host.out_faults ≡ 0)) }
        ensures made { IfOk result (λ host. D.made host.folder ≡ D.made folder) }
    {
        let mut folder = folder;
        let store = Store::new(alloc, &mut folder, name, streams)?;
        Ok(FileHost {
            folder,
            store,
            reader,
            writer,
            reads: 0,
            faults: 0,
            in_faults: 0,
            out_faults: 0,
        })
    }

    /// The same host, which makes a log that is missing, or makes none: then it begins no store, and only pages are made
    /// that are missing beside a log. A write of another file that is missing fails.
    pub fn making_log(self, makes_log: bool) -> FileHost<D, R, W>
        ensures { result ≡ record self { store = record self.store { makes_log = makes_log } } }
    {
        FileHost {
            store: self.store.making_log(makes_log),
            ..self
        }
    }
}

impl<D: Folder, R: Read, W: Write> Disk for FileHost<D, R, W> {
    ghost contents = { λ _. None };

    ghost may_leave = { λ _ image. HoldsBytes image };

    ghost beside = { λ host. record { input = None; output = None; in_faults = host.in_faults; out_faults = host.out_faults } };

    ghost moment = { λ _. 0 };

    ghost stood_since = { λ _ _ stood. (stood.output ≡ None) × HoldsBytes stood.image };

    ghost faults = { λ host. host.faults };

    ghost reads = { λ host. host.reads };

    ghost renewed = { λ _. None };

    fn length(&mut self, area: Area) -> Result<u64, Failed>
        ensures value { IfOk result (λ n. IfSome (area_bytes D.File.StoreFile area self.new.store.state) (λ now. n ≡ length now)) }
        ensures held { IsOpen self.old.store.state
            → area_bytes D.File.StoreFile area self.new.store.state ≡ area_bytes D.File.StoreFile area self.old.store.state }
        ensures seen { IfOk result (λ n. area_end area self.new.store.state ≡ n) }
        ensures no_less { area_end area self.old.store.state ≤ area_end area self.new.store.state }
        ensures ended { HasEnded self.old.store.state → IsErr result × HasEnded self.new.store.state }
        ensures other { LeavesOther area self.old.store.state self.new.store.state }
        ensures its_files { HasItsFiles D.File.StoreFile self.old.store → HasItsFiles D.File.StoreFile self.new.store }
        ensures others { self.new ≡ record self.old { folder = self.new.folder; store = record self.old.store { state = self.new.store.state }; faults = self.new.faults } }
        ensures made { D.made self.new.folder ≡ D.made self.old.folder }
        ensures faults { self.old.faults ≤ self.new.faults }
        ensures cause { OnErr result (Rose self.old.faults self.new.faults) }
    {
        let length = self.store.length(&mut self.folder, area);
        if length.is_err() {
            self.faults = self.faults.saturating_add(1);
        }
        length
    }

    fn read(&mut self, area: Area, at: u64, into: &mut [u8]) -> Result<usize, Failed>
        ensures room { IfOk result (λ n. n ≤ length into.old) }
        ensures count { IfOk result (λ n. IfSome (area_bytes D.File.StoreFile area self.new.store.state)
            (λ now. n ≡ length (given_at at (length into.old) now))) }
        ensures given { IfOk result (λ n. IfSome (area_bytes D.File.StoreFile area self.new.store.state)
            (λ now. take n into.new ≡ given_at at (length into.old) now)) }
        ensures held { IsOpen self.old.store.state
            → area_bytes D.File.StoreFile area self.new.store.state ≡ area_bytes D.File.StoreFile area self.old.store.state }
        ensures not_short { IfOk result (λ n. min (length into.old) (area_end area self.new.store.state - at) ≤ n) }
        ensures no_less { area_end area self.old.store.state ≤ area_end area self.new.store.state }
        ensures raised { IfOk result (λ n. 0 < n → min (at + n) (2 ^ 64 - 1) ≤ area_end area self.new.store.state) }
        ensures ended { HasEnded self.old.store.state → IsErr result × HasEnded self.new.store.state }
        ensures other { LeavesOther area self.old.store.state self.new.store.state }
        ensures its_files { HasItsFiles D.File.StoreFile self.old.store → HasItsFiles D.File.StoreFile self.new.store }
        ensures others { self.new ≡ record self.old { folder = self.new.folder; store = record self.old.store { state = self.new.store.state }; reads = self.new.reads; faults = self.new.faults } }
        ensures reads { (self.old.reads ≤ self.new.reads) × (self.new.reads ≤ self.old.reads + 1) }
        ensures made { D.made self.new.folder ≡ D.made self.old.folder }
        ensures faults { self.old.faults ≤ self.new.faults }
        ensures cause { OnErr result (Rose self.old.faults self.new.faults) }
    {
        self.reads = self.reads.saturating_add(1);
        let count = self.store.read(&mut self.folder, area, at, into);
        if count.is_err() {
            self.faults = self.faults.saturating_add(1);
        }
        count
    }

    fn write_at(&mut self, area: Area, at: u64, bytes: &[u8]) -> Result<(), Failed>
        requires { at + length bytes.now ≤ 2 ^ 63 }
        ensures told { IsOpen self.old.store.state → IsSome (area_bytes D.File.StoreFile area self.new.store.state)
            → IsSome (area_bytes D.File.StoreFile area self.old.store.state) }
        ensures here { OnOk result (IfSome (area_bytes D.File.StoreFile area self.new.store.state)
            (λ now. take (length bytes.now) (drop at now) ≡ bytes.now)) }
        ensures written { OnOk result (IfSome (area_bytes D.File.StoreFile area self.new.store.state)
            (λ now. IfSome (area_bytes D.File.StoreFile area self.old.store.state) (λ was. Written at bytes.now was now))) }
        ensures failed { OnErr result (IfSome (area_bytes D.File.StoreFile area self.new.store.state)
            (λ now. IfSome (area_bytes D.File.StoreFile area self.old.store.state) (λ was. Torn at (length bytes.now) was now))) }
        ensures cut { IfSome (area_bytes D.File.StoreFile area self.old.store.state)
            (λ was. length was < area_end area self.old.store.state → IsErr result) }
        ensures made { OnOk result (at + length bytes.now ≤ area_end area self.new.store.state) }
        ensures no_less { IsOpen self.new.store.state → area_end area self.old.store.state ≤ area_end area self.new.store.state }
        ensures ended { HasEnded self.old.store.state → IsErr result × HasEnded self.new.store.state }
        ensures other { HasFile area self.old.store.state → LeavesOther area self.old.store.state self.new.store.state }
        ensures its_files { HasItsFiles D.File.StoreFile self.old.store → HasItsFiles D.File.StoreFile self.new.store }
        ensures others { self.new ≡ record self.old { folder = self.new.folder; store = record self.old.store { state = self.new.store.state }; faults = self.new.faults } }
        ensures both_made { MayMakeBoth (string_bytes self.old.store.pages) (string_bytes self.old.store.log) (D.made self.old.folder) (D.made self.new.folder) }
        ensures no_log { ¬ IsTrue self.old.store.makes_log → MayMake (string_bytes self.old.store.pages) (D.made self.old.folder) (D.made self.new.folder) }
        ensures none_beside { ¬ IsTrue self.old.store.makes_log → LacksLog self.old.store.state → D.made self.new.folder ≡ D.made self.old.folder }
        ensures none_again { HasFile area self.old.store.state → D.made self.new.folder ≡ D.made self.old.folder }
        ensures faults { self.old.faults ≤ self.new.faults }
        ensures cause { OnErr result (Rose self.old.faults self.new.faults) }
    {
        let written = self.store.write_at(&mut self.folder, area, at, bytes);
        if written.is_err() {
            self.faults = self.faults.saturating_add(1);
        }
        written
    }

    fn sync(&mut self, area: Area) -> Result<(), Failed>
        ensures synced { OnOk result (IsSynced D.File.StoreFile area self.new.store.state) }
        ensures failed { OnErr result (HasEnded self.new.store.state) }
        ensures held { OnOk result (IsOpen self.old.store.state
            → area_bytes D.File.StoreFile area self.new.store.state ≡ area_bytes D.File.StoreFile area self.old.store.state) }
        ensures no_less { OnOk result (area_end area self.old.store.state ≤ area_end area self.new.store.state) }
        ensures ended { HasEnded self.old.store.state → IsErr result × HasEnded self.new.store.state }
        ensures other { OnOk result (LeavesOther area self.old.store.state self.new.store.state) }
        ensures its_files { HasItsFiles D.File.StoreFile self.old.store → HasItsFiles D.File.StoreFile self.new.store }
        ensures others { self.new ≡ record self.old { folder = self.new.folder; store = record self.old.store { state = self.new.store.state }; faults = self.new.faults } }
        ensures stand { OnOk result (StandAt (D.standing self.new.folder) (string_bytes self.old.store.pages) (string_bytes self.old.store.log) self.new.store.state) }
        ensures made { D.made self.new.folder ≡ D.made self.old.folder }
        ensures faults { self.old.faults ≤ self.new.faults }
        ensures cause { OnErr result (Rose self.old.faults self.new.faults) }
    {
        let synced = self.store.sync(&mut self.folder, area);
        if synced.is_err() {
            self.faults = self.faults.saturating_add(1);
        }
        synced
    }

    fn renew(&mut self, area: Area, at: u64) -> Result<(), Failed>
        ensures synced { OnOk result (IsSynced D.File.StoreFile area self.new.store.state) }
        ensures failed { OnErr result (HasEnded self.new.store.state) }
        ensures held { OnOk result (IsOpen self.old.store.state
            → KeepsTold (area_bytes D.File.StoreFile area self.old.store.state) (area_bytes D.File.StoreFile area self.new.store.state)) }
        ensures last { OnOk result (IfSome (area_write D.File.StoreFile area self.new.store.state) (IsByteAt at)) }
        ensures no_less { OnOk result (area_end area self.old.store.state ≤ area_end area self.new.store.state) }
        ensures ended { HasEnded self.old.store.state → IsErr result × HasEnded self.new.store.state }
        ensures other { OnOk result (LeavesOther area self.old.store.state self.new.store.state) }
        ensures its_files { HasItsFiles D.File.StoreFile self.old.store → HasItsFiles D.File.StoreFile self.new.store }
        ensures others { self.new ≡ record self.old { folder = self.new.folder; store = record self.old.store { state = self.new.store.state }; faults = self.new.faults } }
        ensures stand { OnOk result (StandAt (D.standing self.new.folder) (string_bytes self.old.store.pages) (string_bytes self.old.store.log) self.new.store.state) }
        ensures made { D.made self.new.folder ≡ D.made self.old.folder }
        ensures faults { self.old.faults ≤ self.new.faults }
        ensures cause { OnErr result (Rose self.old.faults self.new.faults) }
    {
        let renewed = self.store.renew(&mut self.folder, area, at);
        if renewed.is_err() {
            self.faults = self.faults.saturating_add(1);
        }
        renewed
    }

    ghost contents_may_stay = { λ _ image is. untold image is };

    ghost told_before = { λ _ _ _ _ since told. subst IsSome (sym since.0) told };

    ghost stands_now = { λ _ _ _ _ left. (refl, left) };

    ghost only_now = { λ _ _ since. since };

    ghost since_earlier = { λ _ _ _ _ _ _ since. since };

    ghost some_image = { λ _. (no_bytes, no_bytes_hold_bytes) };

    ghost images_hold_bytes = { λ _ _ left. left };

    ghost past_holds_bytes = { λ _ _ _ _ since. since.1 };

    ghost input_is_bytes = { λ _ input is. untold input is };
}

impl<D: Folder, R: Read, W: Write> Host for FileHost<D, R, W> {
    fn read_in(&mut self, into: &mut [u8]) -> Result<usize, Failed>
        ensures room { IfOk result (λ n. n ≤ length into.old) }
        ensures taken { IfOk result (λ n. Consumes (R.remaining self.old.reader) (R.remaining self.new.reader) (take n into.new)) }
        ensures end { IfOk result (λ n. n ≡ 0 → 0 < length into.old → IsAtEnd (R.remaining self.new.reader)) }
        ensures untaken { OnErr result (Keeps (R.remaining self.old.reader) (R.remaining self.new.reader)) }
        ensures others { self.new ≡ record self.old { reader = self.new.reader; in_faults = self.new.in_faults } }
        ensures well { OnOk result (self.new.in_faults ≡ self.old.in_faults) }
        ensures in_faults { (self.old.in_faults ≤ self.new.in_faults) × (self.new.in_faults ≤ self.old.in_faults + 1) }
        ensures cause { OnErr result (Rose self.old.in_faults self.new.in_faults) }
    {
        let taken = read_some(&mut self.reader, into);
        if taken.is_err() {
            self.in_faults = self.in_faults.saturating_add(1);
        }
        taken
    }

    fn emit(&mut self, bytes: &[u8]) -> Result<(), Failed>
        ensures whole { OnOk result (Appends (W.contents self.old.writer) (W.contents self.new.writer) bytes.now) }
        ensures prefix { OnErr result ((n : ℕ) × Appends (W.contents self.old.writer) (W.contents self.new.writer) (take n bytes.now)) }
        ensures others { self.new ≡ record self.old { writer = self.new.writer; out_faults = self.new.out_faults } }
        ensures well { OnOk result (self.new.out_faults ≡ self.old.out_faults) }
        ensures out_faults { (self.old.out_faults ≤ self.new.out_faults) × (self.new.out_faults ≤ self.old.out_faults + 1) }
        ensures cause { OnErr result (Rose self.old.out_faults self.new.out_faults) }
    {
        let put = write_whole(&mut self.writer, bytes);
        if put.is_err() {
            self.out_faults = self.out_faults.saturating_add(1);
        }
        put
    }
}
