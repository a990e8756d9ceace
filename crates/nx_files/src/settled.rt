// A file that may be read and written.
ghost use Rattle.std.specs.Prelude.{◌≡◌, ◌≤◌, ◌<◌, ◌+◌, ◌-◌, ◌^◌, ℕ, List, [], min, length, take, slice_get, IfOk, IfSome, IsSome, IsErr, IsTrue, OnOk, OnErr};
ghost use Rattle.std.specs.Option.{ForSome};
ghost use Rattle.nx_host.specs.Disk.{Keeps, Written, Torn, given_at};
ghost use Rattle.nx_files.specs.Writes.{IsByteAt};

use crate::locked::LockedFile;
use crate::{Identity, StoreFile};
use nx_host::Failed;

// A file that is locked against every other open of it, and that was durable as it was found.
#[derive(Drop)]
pub struct SettledFile<T: StoreFile> {
    file: T,
    identity: Identity,
    // The farthest end that this session saw the file have, or gave to it. A file that ends before was cut
    // by somebody else.
    end: u64,
    ghost locked: { IsTrue (T.is_locked file) },
    ghost seen: { ForSome (T.identity file) (λ told. identity ≡ told) },
    ghost settled: { IsTrue (T.is_settled file) },
}

impl<T: StoreFile> SettledFile<T> {
    // Who wrote the file may have been killed before it was durable, and what is read of it is what the
    // system holds. So all of it is made durable first.
    pub fn settle(found: LockedFile<T>) -> Result<SettledFile<T>, Failed>
    where
        T: Drop,
        ensures durable { IfOk result (λ settled. IsTrue (T.is_durable settled.file)) }
        ensures path { IfOk result (λ settled. T.path settled.file ≡ T.path found.file) }
        ensures identity { IfOk result (λ settled. T.identity settled.file ≡ T.identity found.file) }
        ensures held { IfOk result (λ settled. T.holds settled.file ≡ T.holds found.file) }
        ensures end { IfOk result (λ settled. settled.end ≡ found.sight.length) }
    {
        let LockedFile { mut file, sight } = found;
        file.sync()?;
        Ok(SettledFile {
            file,
            identity: sight.identity,
            end: sight.length,
        })
    }

    pub fn identity(&self) -> Identity
        ensures { result ≡ self.now.identity }
    {
        self.identity
    }

    // The end as it was seen last.
    pub fn end(&self) -> u64
        ensures { result ≡ self.now.end }
    {
        self.end
    }

    // A file that was cut is a fault.
    pub fn length(&mut self) -> Result<u64, Failed>
        ensures value { IfOk result (λ n. IfSome (T.holds self.new.file) (λ now. n ≡ length now)) }
        ensures seen { IfOk result (λ n. self.new.end ≡ n) }
        ensures no_less { self.old.end ≤ self.new.end }
        ensures held { T.holds self.new.file ≡ T.holds self.old.file }
        ensures path { T.path self.new.file ≡ T.path self.old.file }
        ensures identity { T.identity self.new.file ≡ T.identity self.old.file }
    {
        let length = self.file.look()?.length;
        if length < self.end {
            return Err(Failed);
        }
        self.end = length;
        Ok(length)
    }

    // A file that ends before this session saw it end is a fault.
    pub fn read_at(&mut self, at: u64, into: &mut [u8]) -> Result<usize, Failed>
        ensures room { IfOk result (λ n. n ≤ length into.old) }
        ensures count { IfOk result (λ n. IfSome (T.holds self.new.file)
            (λ now. n ≡ length (given_at at (length into.old) now))) }
        ensures given { IfOk result (λ n. IfSome (T.holds self.new.file)
            (λ now. take n into.new ≡ given_at at (length into.old) now)) }
        ensures not_short { IfOk result (λ n. min (length into.old) (self.new.end - at) ≤ n) }
        ensures raised { IfOk result (λ n. 0 < n → min (at + n) (2 ^ 64 - 1) ≤ self.new.end) }
        ensures no_less { self.old.end ≤ self.new.end }
        ensures held { T.holds self.new.file ≡ T.holds self.old.file }
        ensures stays_durable { T.is_durable self.new.file ≡ T.is_durable self.old.file }
        ensures path { T.path self.new.file ≡ T.path self.old.file }
        ensures identity { T.identity self.new.file ≡ T.identity self.old.file }
    {
        let room = into.len() as u64;
        let count = self.file.read_at(at, into)?;
        if (count as u64) < room.min(self.end.saturating_sub(at)) {
            return Err(Failed);
        }
        if count > 0 {
            self.end = self.end.max(at.saturating_add(count as u64));
        }
        Ok(count)
    }

    // The first byte of a file that has one.
    pub fn first(&mut self) -> Result<Option<u8>, Failed>
        ensures first { IfOk result (λ first. IfSome (T.holds self.new.file) (λ now. first ≡ slice_get now 0)) }
        ensures no_less { self.old.end ≤ self.new.end }
        ensures held { T.holds self.new.file ≡ T.holds self.old.file }
        ensures stays_durable { T.is_durable self.new.file ≡ T.is_durable self.old.file }
        ensures path { T.path self.new.file ≡ T.path self.old.file }
        ensures identity { T.identity self.new.file ≡ T.identity self.old.file }
    {
        let mut byte = [0];
        match self.read_at(0, &mut byte)? {
            0 => Ok(None),
            _ => Ok(Some(byte[0])),
        }
    }

    // A file that was cut is not written.
    pub fn write_at(&mut self, at: u64, bytes: &[u8]) -> Result<(), Failed>
        requires { at + length bytes.now ≤ 2 ^ 63 }
        ensures told { IsSome (T.holds self.new.file) → IsSome (T.holds self.old.file) }
        ensures written { OnOk result (IfSome (T.holds self.new.file)
            (λ now. IfSome (T.holds self.old.file) (λ was. Written at bytes.now was now))) }
        ensures failed { OnErr result (IfSome (T.holds self.new.file)
            (λ now. IfSome (T.holds self.old.file) (λ was. Torn at (length bytes.now) was now))) }
        ensures last { OnOk result (IfSome (T.last_write self.new.file) (λ last. (last.at ≡ at) × (last.bytes ≡ bytes.now))) }
        ensures cut { IfSome (T.holds self.old.file) (λ was. length was < self.old.end → IsErr result) }
        ensures made { OnOk result (at + length bytes.now ≤ self.new.end) }
        ensures no_less { self.old.end ≤ self.new.end }
        ensures path { T.path self.new.file ≡ T.path self.old.file }
        ensures identity { T.identity self.new.file ≡ T.identity self.old.file }
    {
        self.length()?;
        self.file.write_at(at, bytes)?;
        self.end = self.end.max(at + bytes.len() as u64);
        Ok(())
    }

    pub fn sync(&mut self) -> Result<(), Failed>
        ensures durable { OnOk result (IsTrue (T.is_durable self.new.file)) }
        ensures held { T.holds self.new.file ≡ T.holds self.old.file }
        ensures last { T.last_write self.new.file ≡ T.last_write self.old.file }
        ensures end { self.new.end ≡ self.old.end }
        ensures path { T.path self.new.file ≡ T.path self.old.file }
        ensures identity { T.identity self.new.file ≡ T.identity self.old.file }
    {
        self.file.sync()
    }

    // Writes the byte that stands at the offset there once more, and makes the file durable: a byte that is
    // in memory alone, since a sync failed, is on the disk then.
    pub fn renew(&mut self, at: u64) -> Result<(), Failed>
        ensures held { OnOk result (Keeps (T.holds self.old.file) (T.holds self.new.file)) }
        ensures last { OnOk result (IfSome (T.last_write self.new.file) (IsByteAt at)) }
        ensures durable { OnOk result (IsTrue (T.is_durable self.new.file)) }
        ensures no_less { self.old.end ≤ self.new.end }
        ensures path { T.path self.new.file ≡ T.path self.old.file }
        ensures identity { T.identity self.new.file ≡ T.identity self.old.file }
    {
        let mut byte = [0];
        if at >= 1 << 62 || self.read_at(at, &mut byte)? == 0 {
            return Err(Failed);
        }
        self.write_at(at, &byte)?;
        self.sync()
    }
}
