// Which calls of a host fail, and how often calls failed.
ghost use Rattle.std.specs.Prelude.{◌≡◌, ◌+◌, ◌++◌, [], min, OnOk, OnErr};

use nx_lists::NoMemory;
use std::alloc::Global;

/// How often each kind of call failed, and how often `read` was called. Each stops at 2^64 - 1.
#[derive(Clone, Copy, Debug, PartialEq, Eq, Default)]
pub struct Counts {
    /// Failed calls of the disk.
    pub faults: u64,
    /// Failed calls of `read_in`.
    pub in_faults: u64,
    /// Failed calls of `emit`.
    pub out_faults: u64,
    /// Calls of `read`, failed ones too.
    pub reads: u64,
}

/// How many calls there were, and which ones fail. Calls are numbered from 1.
#[derive(Drop)]
pub(crate) struct Calls {
    pub(crate) made: u64,
    // The number of the last call that may go well.
    pub(crate) last: u64,
    pub(crate) failing: Vec<u64>,
}

impl Calls {
    ghost use Rattle.nx_memory.specs.Calls.{fails, IsNext, next_call_number};

    /// No call was made, and none fails.
    pub(crate) fn new(alloc: Global) -> Calls
        ensures made { result.made ≡ 0 }
        ensures last { result.last ≡ u64.MAX }
        ensures failing { result.failing.items ≡ [] }
    {
        Calls {
            made: 0,
            last: u64::MAX,
            failing: Vec::new(alloc),
        }
    }

    /// Counts one call more, and says whether it fails.
    pub(crate) fn next_fails(&mut self) -> bool
        ensures next { IsNext self.old self.new }
        ensures fails { result ≡ fails (next_call_number self.old) self.old }
    {
        self.made = self.made.saturating_add(1);
        self.made > self.last || self.failing.contains(&self.made)
    }

    /// Lets the calls of these numbers fail too.
    pub(crate) fn fail(&mut self, numbers: &[u64]) -> Result<(), NoMemory>
        ensures ok { OnOk result (self.new.failing.items ≡ self.old.failing.items ++ numbers.now) }
        ensures err { OnErr result (self.new.failing.items ≡ self.old.failing.items) }
        ensures made { self.new.made ≡ self.old.made }
        ensures last { self.new.last ≡ self.old.last }
    {
        self.failing.extend_from_slice(numbers)?;
        Ok(())
    }
}
