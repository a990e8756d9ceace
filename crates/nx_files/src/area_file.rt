// The file of an area, which may be missing: the area is empty then.
ghost use Rattle.std.specs.Prelude.{◌≡◌, ◌≤◌, ◌<◌, ◌+◌, ◌-◌, ◌^◌, ℕ, List, min, length, take, slice_get, Some, IfOk, IfSome, IsSome, IsErr, IsTrue, OnOk, OnErr};
ghost use Rattle.nx_host.specs.Disk.{Keeps, Written, Torn, given_at};
ghost use Rattle.nx_files.specs.declared.sight.Streams.{Streams};
ghost use Rattle.nx_files.specs.Files.{file_bytes, file_end, file_write, IsFileAt, IsFileTaken};
ghost use Rattle.nx_files.specs.Writes.{IsByteAt};

use crate::StoreFile;
use crate::settled::SettledFile;
use nx_host::Failed;

// The end as it was seen last.
pub fn end<T: StoreFile>(file: &Option<SettledFile<T>>) -> u64
    ensures { result ≡ file_end file.now }
{
    match file {
        Some(file) => file.end(),
        None => 0,
    }
}

// The first byte of an area that has one.
pub fn first<T: StoreFile>(file: &mut Option<SettledFile<T>>) -> Result<Option<u8>, Failed>
    ensures first { IfOk result (λ first. IfSome (file_bytes T.StoreFile file.new) (λ now. first ≡ slice_get now 0)) }
    ensures held { file_bytes T.StoreFile file.new ≡ file_bytes T.StoreFile file.old }
    ensures taken { (streams : Streams) (path : List ℕ) → IfSome file.old (IsFileTaken T.StoreFile streams path)
        → IfSome file.new (IsFileTaken T.StoreFile streams path) }
    ensures at { (streams : Streams) (path : List ℕ) → IfSome file.old (IsFileAt T.StoreFile streams path)
        → IfSome file.new (IsFileAt T.StoreFile streams path) }
{
    match file {
        Some(file) => file.first(),
        None => Ok(None),
    }
}

pub fn length<T: StoreFile>(file: &mut Option<SettledFile<T>>) -> Result<u64, Failed>
    ensures value { IfOk result (λ n. IfSome (file_bytes T.StoreFile file.new) (λ now. n ≡ length now)) }
    ensures seen { IfOk result (λ n. file_end file.new ≡ n) }
    ensures no_less { file_end file.old ≤ file_end file.new }
    ensures held { file_bytes T.StoreFile file.new ≡ file_bytes T.StoreFile file.old }
    ensures at { (streams : Streams) (path : List ℕ) → IfSome file.old (IsFileAt T.StoreFile streams path)
        → IfSome file.new (IsFileAt T.StoreFile streams path) }
{
    match file {
        Some(file) => file.length(),
        None => Ok(0),
    }
}

pub fn read_at<T: StoreFile>(
    file: &mut Option<SettledFile<T>>,
    at: u64,
    into: &mut [u8],
) -> Result<usize, Failed>
    ensures room { IfOk result (λ n. n ≤ length into.old) }
    ensures count { IfOk result (λ n. IfSome (file_bytes T.StoreFile file.new)
        (λ now. n ≡ length (given_at at (length into.old) now))) }
    ensures given { IfOk result (λ n. IfSome (file_bytes T.StoreFile file.new)
        (λ now. take n into.new ≡ given_at at (length into.old) now)) }
    ensures not_short { IfOk result (λ n. min (length into.old) (file_end file.new - at) ≤ n) }
    ensures raised { IfOk result (λ n. 0 < n → min (at + n) (2 ^ 64 - 1) ≤ file_end file.new) }
    ensures no_less { file_end file.old ≤ file_end file.new }
    ensures held { file_bytes T.StoreFile file.new ≡ file_bytes T.StoreFile file.old }
    ensures at { (streams : Streams) (path : List ℕ) → IfSome file.old (IsFileAt T.StoreFile streams path)
        → IfSome file.new (IsFileAt T.StoreFile streams path) }
{
    match file {
        Some(file) => file.read_at(at, into),
        None => Ok(0),
    }
}

// A file that is missing can't be written.
pub fn write_at<T: StoreFile>(
    file: &mut Option<SettledFile<T>>,
    at: u64,
    bytes: &[u8],
) -> Result<(), Failed>
    requires { at + length bytes.now ≤ 2 ^ 63 }
    ensures told { IsSome (file_bytes T.StoreFile file.new) → IsSome (file_bytes T.StoreFile file.old) }
    ensures written { OnOk result (IfSome (file_bytes T.StoreFile file.new)
        (λ now. IfSome (file_bytes T.StoreFile file.old) (λ was. Written at bytes.now was now))) }
    ensures failed { OnErr result (IfSome (file_bytes T.StoreFile file.new)
        (λ now. IfSome (file_bytes T.StoreFile file.old) (λ was. Torn at (length bytes.now) was now))) }
    ensures cut { IfSome (file_bytes T.StoreFile file.old) (λ was. length was < file_end file.old → IsErr result) }
    ensures made { OnOk result (at + length bytes.now ≤ file_end file.new) }
    ensures no_less { file_end file.old ≤ file_end file.new }
    ensures at { (streams : Streams) (path : List ℕ) → IfSome file.old (IsFileAt T.StoreFile streams path)
        → IfSome file.new (IsFileAt T.StoreFile streams path) }
{
    match file {
        Some(file) => file.write_at(at, bytes),
        None => Err(Failed),
    }
}

// There is nothing to sync of a file that is missing.
pub fn sync<T: StoreFile>(file: &mut Option<SettledFile<T>>) -> Result<(), Failed>
    ensures durable { OnOk result (IfSome file.new (λ file. IsTrue (T.is_durable file.file))) }
    ensures held { file_bytes T.StoreFile file.new ≡ file_bytes T.StoreFile file.old }
    ensures end { file_end file.new ≡ file_end file.old }
    ensures at { (streams : Streams) (path : List ℕ) → IfSome file.old (IsFileAt T.StoreFile streams path)
        → IfSome file.new (IsFileAt T.StoreFile streams path) }
{
    match file {
        Some(file) => file.sync(),
        None => Ok(()),
    }
}

// A file that is missing has no byte.
pub fn renew<T: StoreFile>(file: &mut Option<SettledFile<T>>, at: u64) -> Result<(), Failed>
    ensures held { OnOk result (Keeps (file_bytes T.StoreFile file.old) (file_bytes T.StoreFile file.new)) }
    ensures last { OnOk result (IfSome (file_write T.StoreFile file.new) (IsByteAt at)) }
    ensures durable { OnOk result (IfSome file.new (λ file. IsTrue (T.is_durable file.file))) }
    ensures no_less { file_end file.old ≤ file_end file.new }
    ensures at { (streams : Streams) (path : List ℕ) → IfSome file.old (IsFileAt T.StoreFile streams path)
        → IfSome file.new (IsFileAt T.StoreFile streams path) }
{
    match file {
        Some(file) => file.renew(at),
        None => Err(Failed),
    }
}
