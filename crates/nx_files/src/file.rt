// The files of a store and the folder that they are in, as traits.
ghost use Rattle.std.specs.Prelude.{◌≡◌, ◌≤◌, ◌+◌, ◌^◌, ℕ, Bool, List, [], Option, length, take, string_bytes, IfOk, IfSome, IsSome, IsTrue, OnOk, OnErr};
ghost use Rattle.nx_host.specs.Disk.{Keeps, Written, Torn, given_at};
ghost use Rattle.nx_files.specs.declared.sight.Identity.{Identity};
ghost use Rattle.nx_files.specs.declared.sight.Sight.{Sight};
ghost use Rattle.nx_files.specs.Made.{MayMake, with_made};
ghost use Rattle.nx_files.specs.Writes.{LastWrite};

use crate::Sight;
use nx_host::Failed;
use nx_lists::NoMemory;
use std::alloc::Global;

/// A file of a store, as it was opened.
///
/// It tells of itself what its calls have shown. A file of the system tells nothing, and has each of
/// these facts for true: what is proved of code over any file holds over it too.
pub trait StoreFile {
    /// The path that it was opened at, where it is told.
    ghost path: { Self → Option (List ℕ) };

    /// Which file it is, where that is told.
    ghost identity: { Self → Option Identity };

    /// The bytes that it holds, where they are told.
    ghost holds: { Self → Option (List ℕ) };

    /// What was written to it last, where that is told.
    ghost last_write: { Self → Option LastWrite };

    /// No other open of the file may use it.
    ghost is_locked: { Self → Bool };

    /// What it held when it was opened is durable.
    ghost is_settled: { Self → Bool };

    /// All that it holds is durable.
    ghost is_durable: { Self → Bool };

    /// Locks the file against each other open of it, until this one is closed.
    ///
    /// Errors: `Failed`, also where another open has the lock.
    fn lock(&mut self) -> Result<(), Failed>
        ensures locked { OnOk result (IsTrue (is_locked self.new)) }
        ensures path { path self.new ≡ path self.old }
        ensures identity { identity self.new ≡ identity self.old }
        ensures held { holds self.new ≡ holds self.old };

    /// What can be seen of the file.
    ///
    /// Errors: `Failed`.
    fn look(&mut self) -> Result<Sight, Failed>
        ensures seen { IfOk result (λ sight. IfSome (identity self.new) (λ told. sight.identity ≡ told)) }
        ensures length { IfOk result (λ sight. IfSome (holds self.new) (λ now. sight.length ≡ length now)) }
        ensures stays_locked { is_locked self.new ≡ is_locked self.old }
        ensures stays_settled { is_settled self.new ≡ is_settled self.old }
        ensures stays_durable { is_durable self.new ≡ is_durable self.old }
        ensures path { path self.new ≡ path self.old }
        ensures identity { identity self.new ≡ identity self.old }
        ensures held { holds self.new ≡ holds self.old };

    /// Makes all that the file holds durable, whoever wrote it, with the length that it needs.
    ///
    /// Errors: `Failed`.
    fn sync(&mut self) -> Result<(), Failed>
        ensures settled { OnOk result (IsTrue (is_settled self.new)) }
        ensures durable { OnOk result (IsTrue (is_durable self.new)) }
        ensures stays_settled { IsTrue (is_settled self.old) → IsTrue (is_settled self.new) }
        ensures stays_locked { IsTrue (is_locked self.old) → IsTrue (is_locked self.new) }
        ensures last { last_write self.new ≡ last_write self.old }
        ensures path { path self.new ≡ path self.old }
        ensures identity { identity self.new ≡ identity self.old }
        ensures held { holds self.new ≡ holds self.old };

    /// Fills the slice from an offset on, as far as the file goes, and gives how many bytes it wrote
    /// there.
    ///
    /// Errors: `Failed`.
    fn read_at(&mut self, at: u64, into: &mut [u8]) -> Result<usize, Failed>
        requires locked { IsTrue (is_locked self.old) }
        requires settled { IsTrue (is_settled self.old) }
        ensures room { IfOk result (λ n. n ≤ length into.old) }
        ensures count { IfOk result (λ n. IfSome (holds self.new)
            (λ now. n ≡ length (given_at at (length into.old) now))) }
        ensures given { IfOk result (λ n. IfSome (holds self.new)
            (λ now. take n into.new ≡ given_at at (length into.old) now)) }
        ensures stays_settled { IsTrue (is_settled self.new) }
        ensures stays_locked { IsTrue (is_locked self.new) }
        ensures stays_durable { is_durable self.new ≡ is_durable self.old }
        ensures path { path self.new ≡ path self.old }
        ensures identity { identity self.new ≡ identity self.old }
        ensures held { holds self.new ≡ holds self.old };

    /// Writes the slice at an offset. A write of no bytes behind the end makes the file as long too.
    ///
    /// Errors: `Failed`. The range may then hold any bytes.
    fn write_at(&mut self, at: u64, bytes: &[u8]) -> Result<(), Failed>
        requires locked { IsTrue (is_locked self.old) }
        requires settled { IsTrue (is_settled self.old) }
        requires within { at + length bytes.now ≤ 2 ^ 63 }
        ensures told { IsSome (holds self.new) → IsSome (holds self.old) }
        ensures written { OnOk result (IfSome (holds self.new)
            (λ now. IfSome (holds self.old) (λ was. Written at bytes.now was now))) }
        ensures failed { OnErr result (IfSome (holds self.new)
            (λ now. IfSome (holds self.old) (λ was. Torn at (length bytes.now) was now))) }
        ensures last { OnOk result (IfSome (last_write self.new) (λ last. (last.at ≡ at) × (last.bytes ≡ bytes.now))) }
        ensures path { path self.new ≡ path self.old }
        ensures identity { identity self.new ≡ identity self.old }
        ensures stays_settled { IsTrue (is_settled self.new) }
        ensures stays_locked { IsTrue (is_locked self.new) };
}

/// The folder in which the files of a store are.
pub trait Folder {
    /// What `open` and `make` give.
    type File: StoreFile + Drop;

    /// The names in it are durable.
    ghost is_durable: { Self → Bool };

    /// A name stands for the file at a path: at the name itself, or where a link there leads to in the end.
    ghost stands_for: { Self → List ℕ → List ℕ → Type 0 };

    /// The paths at which files were made in it, in this order, where they are told.
    ghost made: { Self → Option (List (List ℕ)) };

    /// What stands at a path, itself and not what a link there leads to, where that is told.
    ghost standing: { Self → List ℕ → Option (Option Sight) };

    /// The path of the file that a name stands for. There is none where a link leads to nothing, to itself,
    /// or where nobody may follow it.
    ///
    /// Errors: `NoMemory`.
    fn resolve(&mut self, alloc: Global, name: &str) -> Result<Option<String>, NoMemory>
        ensures path { IfOk result (λ found. IfSome found (λ path. stands_for self.new name.now (string_bytes path))) }
        ensures made { made self.new ≡ made self.old };

    /// What stands at this path, itself and not what a link there leads to. Nothing may stand there.
    ///
    /// Errors: `Failed`.
    fn look(&mut self, path: &str) -> Result<Option<Sight>, Failed>
        ensures seen { IfOk result (λ seen. IfSome (standing self.new path.now) (λ told. seen ≡ told)) }
        ensures standing { standing self.new ≡ standing self.old }
        ensures made { made self.new ≡ made self.old };

    /// Opens the file at this path.
    ///
    /// Errors: `Failed`, also where there is none.
    fn open(&mut self, path: &str) -> Result<Self::File, Failed>
        ensures path { IfOk result (λ file. IfSome (Self.File.path file) (λ told. told ≡ path.now)) }
        ensures made { made self.new ≡ made self.old };

    /// Makes an empty file at this path.
    ///
    /// Errors: `Failed`, also where something stands there. A file that was made may stay then.
    fn make(&mut self, path: &str) -> Result<Self::File, Failed>
        ensures path { IfOk result (λ file. IfSome (Self.File.path file) (λ told. told ≡ path.now)) }
        ensures empty { IfOk result (λ file. IfSome (Self.File.holds file) (λ held. held ≡ [])) }
        ensures made { OnOk result (made self.new ≡ with_made path.now (made self.old)) }
        ensures failed { OnErr result (MayMake path.now (made self.old) (made self.new)) };

    /// Makes the names in the path's folder durable, whoever made them.
    ///
    /// Errors: `Failed`.
    fn sync(&mut self, path: &str) -> Result<(), Failed>
        ensures durable { OnOk result (IsTrue (is_durable self.new)) }
        ensures made { made self.new ≡ made self.old };
}
