// The input of a host, taken in blocks.
ghost use Rattle.std.specs.Prelude.{◌≡◌, ◌↔◌, ◌^◌, ◌<◌, ◌≤◌, length, take, min, IfOk, OnErr};
ghost use Rattle.nx_host.specs.Disk.{Keeps, Rose};
ghost use Rattle.nx_host.specs.Host.{Takes, IsAtEnd};
ghost use Rattle.nx_host.specs.Phase.{TakesAlone};

use crate::{Disk, Failed, Host};
use std::alloc::{AllocError, Global};
use thiserror::Error;

// As many bytes as are asked for at once.
const BLOCK: usize = 65_536;

// As many bytes as are taken at most.
const MOST_INPUT: u64 = 1 << 32;

/// Why no further bytes of an input were taken.
#[derive(Clone, Copy, Debug, PartialEq, Eq, Error)]
pub enum InputError {
    /// Reading the input failed.
    #[error("reading the input failed")]
    Read,
    /// As many bytes of input were taken as may be.
    #[error("too much input")]
    TooMuch,
}

/// The input of a host, taken in blocks of at most 65,536 bytes, and of at most 4,294,967,296 bytes
/// in total.
#[derive(Drop)]
pub struct Input {
    // The bytes that were taken last stand at its beginning.
    buffer: Vec<u8>,
    // How many they are.
    len: usize,
    taken: u64,
    ghost within: { len ≤ length buffer.items },
    ghost whole: { length buffer.items ≡ 2 ^ 16 },
    ghost few: { taken ≤ 2 ^ 32 },
}

impl Input {
    ghost use Rattle.std.specs.Prelude.{ℕ, List, [], ◌+◌, ◌++◌, Option, Err, IfOk, IfErr};
    ghost use Rattle.nx_host.specs.declared.input.InputError.TheVariants.{Read, TooMuch};
    ghost use Rattle.nx_host.specs.Disk.{Rose};
    ghost use Rattle.nx_host.specs.Host.{IsAtEnd};
    ghost use Rattle.nx_host.specs.Phase.{TakesAlone};
    ghost use Rattle.nx_host.specs.Input.{HasTaken, IsStopped, block_of, most_block, most_input};

    /// An input of which nothing was taken.
    ///
    /// Errors: `AllocError`, if memory runs out.
    pub fn new(alloc: Global) -> Result<Input, AllocError>
        ensures none { IfOk result (λ input. (first : Option (List ℕ)) → HasTaken input [] first first) }
        ensures empty { IfOk result (λ input. block_of input ≡ []) }
    {
        Ok(Input {
            buffer: vec![in alloc; 0u8; BLOCK]?,
            len: 0,
            taken: 0,
        })
    }

    /// Takes the next bytes of the input, which are the block then, and gives how many they are.
    /// 0 says that the input has ended.
    ///
    /// Errors: `Read`, only where the input's count of faults rose; `TooMuch` exactly where
    /// 4,294,967,296 bytes were taken before, and then without asking the host. No byte is taken
    /// then, and the block is empty. With `Read` fewer were taken.
    pub fn fill<H: Host>(&mut self, host: &mut H) -> Result<usize, InputError>
        ensures ok { IfOk result (λ _. (taken : List ℕ) (first : Option (List ℕ)) → HasTaken self.old taken first (H.beside host.old).input →
            HasTaken self.new (taken ++ block_of self.new) first (H.beside host.new).input) }
        ensures count { IfOk result (λ n. n ≡ length (block_of self.new)) }
        ensures block { length (block_of self.new) ≤ most_block }
        ensures taken { IfOk result (λ n. self.new.taken ≡ self.old.taken + n) }
        ensures end { IfOk result (λ n. n ≡ 0 → IsAtEnd (H.beside host.new).input) }
        ensures err { OnErr result ((taken : List ℕ) (first : Option (List ℕ)) → HasTaken self.old taken first (H.beside host.old).input →
            HasTaken self.new taken first (H.beside host.new).input) }
        ensures none { OnErr result (block_of self.new ≡ []) }
        ensures untaken { OnErr result (self.new.taken ≡ self.old.taken) }
        ensures below { IfOk result (λ _. self.old.taken < most_input) }
        ensures stopped { IfErr result (λ error. IsStopped error self.new.taken) }
        ensures too_much { (result ≡ Err TooMuch) ↔ (self.old.taken ≡ most_input) }
        ensures unasked { result ≡ Err TooMuch → host.new ≡ host.old }
        ensures cause { result ≡ Err Read → Rose (H.beside host.old).in_faults (H.beside host.new).in_faults }
        ensures alone { TakesAlone ⟦<H as Disk>⟧ host.old host.new }
    {
        self.len = 0;
        if self.taken >= MOST_INPUT {
            return Err(InputError::TooMuch);
        }
        let Ok(count) = take_block(host, &mut self.buffer, MOST_INPUT - self.taken) else {
            return Err(InputError::Read);
        };
        self.len = count;
        self.taken += count as u64;
        Ok(count)
    }

    /// The bytes that were taken last.
    pub fn block(&self) -> &[u8]
        ensures { result.now ≡ block_of self.now }
    {
        &self.buffer[..self.len]
    }

    /// How many bytes were taken in total.
    pub fn taken(&self) -> u64
        ensures { result ≡ self.now.taken }
    {
        self.taken
    }
}

// Takes the next bytes of the input into the beginning of the buffer, at most as many as it has and there
// is room for, and gives how many they were. 0 says that the input has ended.
fn take_block<H: Host>(host: &mut H, buffer: &mut [u8], room: u64) -> Result<usize, Failed>
    requires buffer { 0 < length buffer.old }
    requires room { 0 < room }
    ensures within { IfOk result (λ n. n ≤ length buffer.new) }
    ensures room { IfOk result (λ n. n ≤ room) }
    ensures taken { IfOk result (λ n. Takes (take n buffer.new) (H.beside host.old).input (H.beside host.new).input) }
    ensures end { IfOk result (λ n. n ≡ 0 → IsAtEnd (H.beside host.new).input) }
    ensures untaken { OnErr result (Keeps (H.beside host.old).input (H.beside host.new).input) }
    ensures cause { OnErr result (Rose (H.beside host.old).in_faults (H.beside host.new).in_faults) }
    ensures alone { TakesAlone ⟦<H as Disk>⟧ host.old host.new }
{
    let most = least(buffer.len(), room);
    host.read_in(&mut buffer[..most])
}

// The lesser of a length and a number of bytes.
fn least(len: usize, room: u64) -> usize
    ensures { result ≡ min len room }
{
    if (len as u64) < room {
        len
    } else {
        room as usize
    }
}
