// A host of tests that tells its input, its output and its moments.
ghost use Rattle.std.specs.Prelude.{◌≡◌, ◌+◌, ◌<◌, ◌≤◌, ◌↔◌, [], ◌∷◌, ◌++◌, length, drop, min, Some, IsTrue, OnOk, OnErr, refl};
ghost use Rattle.nx_host_tests.specs.TestHost.{EmptyStoodSince, only_nothing, told_since, stands_since, only_whole, stood_since_earlier, input_left_is_bytes};
ghost use Rattle.nx_host.specs.Disk.{AreBytes, HoldsBytes, no_bytes};
ghost use Rattle.nx_host.proofs.DiskLemmas.{no_bytes_hold_bytes};
ghost use Rattle.std.proofs.Common.{subst, sym};

use nx_host::{Area, Disk, Failed, Host};
use std::alloc::{AllocError, Global};

/// How often each kind of call failed, and how often `read` was called. A count stops at 2^64 - 1.
#[derive(Clone, Copy, Debug, PartialEq, Eq, Default)]
pub struct Counts {
    pub faults: u64,
    pub in_faults: u64,
    pub out_faults: u64,
    pub reads: u64,
}

// The calls so far, over all seven kinds, and the number of the one that is to fail: they are
// numbered from 1.
#[derive(Drop)]
struct Calls {
    made: u64,
    failing: u64,
}

impl Calls {
    // Counts one more call, and says whether it is to fail.
    fn next_fails(&mut self) -> bool
        ensures made { self.new.made ≡ min (self.old.made + 1) u64.MAX }
        ensures failing { self.new.failing ≡ self.old.failing }
        ensures fails { IsTrue result ↔ (self.new.made ≡ self.old.failing) }
    {
        self.made = self.made.saturating_add(1);
        self.made == self.failing
    }
}

/// Input from memory in pieces, output to memory, and a disk with no room: both areas stay empty.
#[derive(Drop)]
pub struct DisklessHost {
    input: Vec<u8>,
    // How much of the input was given.
    given: usize,
    // The most bytes that one `read_in` gives.
    piece: usize,
    output: Vec<u8>,
    // The output's length at each earlier moment: an `emit` that is done begins a new one.
    past: Vec<usize>,
    calls: Calls,
    counts: Counts,
    ghost bytes: { AreBytes input.items },
    ghost given_of_input: { given ≤ length input.items },
    ghost some_piece: { 0 < piece },
}

impl DisklessHost {
    pub fn new(alloc: Global, input: Vec<u8>, piece: usize) -> Self
        requires { 0 < piece }
        ensures input { result.input.items ≡ input.items }
        ensures given { result.given ≡ 0 }
        ensures piece { result.piece ≡ piece }
        ensures output { result.output.items ≡ [] }
        ensures past { result.past.items ≡ [] }
    {
        DisklessHost {
            input,
            given: 0,
            piece,
            output: Vec::new(alloc),
            past: Vec::new(alloc),
            calls: Calls {
                made: 0,
                failing: 0,
            },
            counts: Counts::default(),
        }
    }

    /// Lets the call of this number fail, before it does anything. 0 is no call's number.
    pub fn fail_call(&mut self, number: u64)
        ensures { self.new ≡ record self.old { calls = record self.old.calls { failing = number } } }
    {
        self.calls.failing = number;
    }

    pub fn output(&self) -> &[u8]
        ensures { result.now ≡ self.now.output.items }
    {
        &self.output
    }

    pub fn counts(&self) -> Counts
        ensures { result ≡ self.now.counts }
    {
        self.counts
    }
}

// Appends to the output, and keeps the length that it had. Where memory runs out, nothing changes.
fn append(output: &mut Vec<u8>, past: &mut Vec<usize>, bytes: &[u8]) -> Result<(), AllocError>
    ensures ok { OnOk result (output.new.items ≡ output.old.items ++ bytes.now) }
    ensures past { OnOk result (past.new.items ≡ past.old.items ++ length output.old.items ∷ []) }
    ensures err { OnErr result (output.new.items ≡ output.old.items) }
    ensures past_err { OnErr result (past.new.items ≡ past.old.items) }
{
    let now = output.len();
    past.push(now)?;
    if let Err(error) = output.extend_from_slice(bytes) {
        let _ = past.pop();
        return Err(error);
    }
    Ok(())
}

impl Disk for DisklessHost {
    ghost contents = { λ _. Some no_bytes };

    ghost may_leave = { λ _ image. image ≡ no_bytes };

    ghost beside = { λ host. record {
      input = Some (drop host.given host.input.items);
      output = Some host.output.items;
      in_faults = host.counts.in_faults;
      out_faults = host.counts.out_faults;
    } };

    ghost moment = { λ host. length host.past.items };

    ghost stood_since = { λ host. EmptyStoodSince host.past.items host.output.items };

    ghost faults = { λ host. host.counts.faults };

    ghost reads = { λ host. host.counts.reads };

    ghost renewed = { λ _. Some [] };

    ghost contents_may_stay = { λ host image is. only_nothing image is };

    ghost told_before = { λ host t s le since is_told. told_since host.past.items host.output.items t s since };

    ghost stands_now = { λ host t image le may. stands_since host.past.items host.output.items t image may };

    ghost only_now = { λ host s since. only_whole host.past.items host.output.items s since };

    ghost since_earlier = { λ host t u s le now since. stood_since_earlier host.past.items host.output.items t u s le since };

    ghost some_image = { λ host. (no_bytes, refl) };

    ghost images_hold_bytes = { λ host image is. subst HoldsBytes (sym is) no_bytes_hold_bytes };

    ghost past_holds_bytes = { λ host t s le since. subst HoldsBytes (sym since.empty) no_bytes_hold_bytes };

    ghost input_is_bytes = { λ host input is. input_left_is_bytes host.given host.input.items input host.bytes is };

    fn length(&mut self, _area: Area) -> Result<u64, Failed> {
        if self.calls.next_fails() {
            self.counts.faults = self.counts.faults.saturating_add(1);
            return Err(Failed);
        }
        Ok(0)
    }

    fn read(&mut self, _area: Area, _at: u64, _into: &mut [u8]) -> Result<usize, Failed> {
        self.counts.reads = self.counts.reads.saturating_add(1);
        if self.calls.next_fails() {
            self.counts.faults = self.counts.faults.saturating_add(1);
            return Err(Failed);
        }
        Ok(0)
    }

    fn write_at(&mut self, _area: Area, _at: u64, _bytes: &[u8]) -> Result<(), Failed> {
        // There is no room for the bytes, so each call fails, whatever its number.
        let _ = self.calls.next_fails();
        self.counts.faults = self.counts.faults.saturating_add(1);
        Err(Failed)
    }

    fn sync(&mut self, _area: Area) -> Result<(), Failed> {
        if self.calls.next_fails() {
            self.counts.faults = self.counts.faults.saturating_add(1);
            return Err(Failed);
        }
        Ok(())
    }

    fn renew(&mut self, _area: Area, _at: u64) -> Result<(), Failed> {
        // There is no byte, so each call fails, whatever its number.
        let _ = self.calls.next_fails();
        self.counts.faults = self.counts.faults.saturating_add(1);
        Err(Failed)
    }
}

impl Host for DisklessHost {
    fn read_in(&mut self, into: &mut [u8]) -> Result<usize, Failed> {
        if self.calls.next_fails() {
            self.counts.in_faults = self.counts.in_faults.saturating_add(1);
            return Err(Failed);
        }
        let left = self.input.len() - self.given;
        let n = self.piece.min(into.len()).min(left);
        into[..n].copy_from_slice(&self.input[self.given..self.given + n]);
        self.given += n;
        Ok(n)
    }

    fn emit(&mut self, bytes: &[u8]) -> Result<(), Failed> {
        if self.calls.next_fails() {
            self.counts.out_faults = self.counts.out_faults.saturating_add(1);
            return Err(Failed);
        }
        match append(&mut self.output, &mut self.past, bytes) {
            Ok(()) => Ok(()),
            Err(_) => {
                self.counts.out_faults = self.counts.out_faults.saturating_add(1);
                Err(Failed)
            }
        }
    }
}
