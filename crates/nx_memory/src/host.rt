// The host in memory that tells everything, and fails as it is told to.
ghost use Rattle.std.specs.Prelude.{◌≡◌, ◌↔◌, ◌+◌, ◌*◌, ◌^◌, ◌<◌, ◌≤◌, ◌++◌, ◌∷◌, [], length, take, drop, min, true, false, Some, IfOk, OnOk, OnErr};
ghost use Rattle.nx_memory.specs.Source.{bytes_left};
ghost use Rattle.nx_memory.specs.Memory.{changes_of, present_of, areas_of, output_of};
ghost use Rattle.nx_memory.specs.History.{MayLeave, StoodSince};
ghost use Rattle.nx_memory.specs.Laws.{contents_left, contents_stay, image_holds_bytes, told, stood, only_stands, only_stood, stood_earlier, stood_holds_bytes, left_are_bytes};

use crate::calls::{Calls, Counts};
use crate::history::Change;
use crate::image::{Choice, Image};
use crate::memory::Memory;
use crate::renewals::Renewals;
use nx_host::{Area, Disk, Failed, Host};
use nx_lists::NoMemory;
use nx_tree::Bytes;
use std::alloc::Global;

/// A host in memory. It tells its contents, its input and its output, and the images and outputs at
/// every moment since it was made, and which bytes were renewed.
///
/// Its calls are numbered from 1 over all seven kinds, and those fail that it is told to fail. A call
/// that fails raises its count of faults, and leaves the areas, the images, the input and the output
/// as they were.
#[derive(Drop)]
pub struct MemoryHost {
    alloc: Global,
    memory: Memory,
    renewals: Renewals,
    // The most bytes that one `read_in` gives.
    piece: u32,
    calls: Calls,
    counts: Counts,
    ghost some_piece: { 0 < piece },
}

impl MemoryHost {
    ghost use Rattle.nx_memory.specs.Host.{raised, areas_in, no_counts, renewed_of, IsFresh, HasOnly, HasRoomToGrow, HostMayLeave, NoneFails};
    ghost use Rattle.nx_memory.specs.Crash.{crash_image};
    ghost use Rattle.nx_memory.specs.Calls.{fails};
    ghost use Rattle.std.specs.Prelude.{◌-◌, ◌==◌, ◌||◌, ℕ};
    ghost use Rattle.std.specs.List.{list_any};

    /// A host of these areas, with nothing unsynced, and this input, which it gives in pieces of at
    /// most `piece` bytes, at least 1. The output is empty, all counts are 0, and no call is to fail.
    ///
    /// Each area may grow by `room` bytes, at most 4,294,967,296, the output and the history of the calls take at most
    /// `room` each: the history takes 32 bytes for each `write_at`, `sync` and `emit` that succeeded,
    /// and for a `write_at` also those that it wrote over. 64 bytes may be renewed. A call for which there is no room fails.
    ///
    /// Errors: `NoMemory`.
    pub fn new(
        alloc: Global,
        image: Image,
        input: Bytes,
        piece: u32,
        room: u64,
    ) -> Result<MemoryHost, NoMemory>
        requires piece { 0 < piece }
        requires room { room ≤ 2 ^ 32 }
        ensures fresh { IfOk result (λ host. IsFresh image input host.memory) }
        ensures settled { IfOk result (λ host. HasOnly host (areas_in image)) }
        ensures room { IfOk result (λ host. HasRoomToGrow room image host.memory) }
        ensures piece { IfOk result (λ host. host.piece ≡ piece) }
        ensures renewals { IfOk result (λ host. renewed_of host.renewals ≡ []) }
        ensures counts { IfOk result (λ host. host.counts ≡ no_counts) }
        ensures calls { IfOk result (λ host. (host.calls.made ≡ 0) × NoneFails host.calls) }
    {
        Ok(MemoryHost {
            alloc,
            memory: Memory::new(alloc, image, input, room)?,
            renewals: Renewals::new(alloc)?,
            piece,
            calls: Calls::new(alloc),
            counts: Counts::default(),
        })
    }

    /// Makes the calls of these numbers fail too.
    ///
    /// Errors: `NoMemory`. The same calls fail as before then.
    pub fn fail_calls(&mut self, calls: &[u64]) -> Result<(), NoMemory>
        ensures ok { OnOk result ((number : ℕ) → fails number self.new.calls ≡ (fails number self.old.calls || list_any (λ n. n == number) calls.now)) }
        ensures err { OnErr result ((number : ℕ) → fails number self.new.calls ≡ fails number self.old.calls) }
        ensures others { self.new ≡ record self.old { calls = record self.old.calls { failing = self.new.calls.failing } } }
    {
        self.calls.fail(calls)
    }

    /// Lets so many calls more go by, and makes each one after them fail. Calls that are to fail anyway
    /// count too.
    pub fn stop_after(&mut self, calls: u64)
        ensures { self.new ≡ record self.old { calls = record self.old.calls { last = min (self.old.calls.made + calls) (2 ^ 64 - 1) } } }
    {
        self.calls.last = self.calls.made.saturating_add(calls);
    }

    /// The output so far.
    pub fn output(&self) -> &[u8]
        ensures { result.now ≡ output_of self.now.memory }
    {
        &self.memory.output.bytes
    }

    /// What a crash may leave now, by this choice.
    ///
    /// Errors: `NoMemory`.
    pub fn image(&self, choice: Choice) -> Result<Image, NoMemory>
        ensures image { IfOk result (λ image. areas_in image ≡ crash_image choice (changes_of self.now.memory) (present_of self.now.memory)) }
        ensures left { IfOk result (λ image. HostMayLeave self.now (areas_in image)) }
    {
        self.memory.image(self.alloc, choice)
    }

    /// How often calls failed, and how often `read` was called.
    pub fn counts(&self) -> Counts
        ensures { result ≡ self.now.counts }
    {
        self.counts
    }

    // A call of the disk failed.
    fn fault(&mut self) -> Failed
        ensures counted { self.new ≡ record self.old { counts = record self.old.counts { faults = raised self.old.counts.faults } } }
        ensures rises { self.old.counts.faults ≤ self.new.counts.faults }
    {
        self.counts.faults = self.counts.faults.saturating_add(1);
        Failed
    }

    // A call for input failed.
    fn in_fault(&mut self) -> Failed
        ensures counted { self.new ≡ record self.old { counts = record self.old.counts { in_faults = raised self.old.counts.in_faults } } }
        ensures rises { self.old.counts.in_faults ≤ self.new.counts.in_faults }
    {
        self.counts.in_faults = self.counts.in_faults.saturating_add(1);
        Failed
    }

    // A call for output failed.
    fn out_fault(&mut self) -> Failed
        ensures counted { self.new ≡ record self.old { counts = record self.old.counts { out_faults = raised self.old.counts.out_faults } } }
        ensures rises { self.old.counts.out_faults ≤ self.new.counts.out_faults }
    {
        self.counts.out_faults = self.counts.out_faults.saturating_add(1);
        Failed
    }
}

impl Disk for MemoryHost {
    ghost use Rattle.nx_memory.specs.Host.{next_fails, raised, renewed_of, Passes, FailsCall, MayFail, HostElapses, HostMayLeave, AreAmong, MayBeRenewed};
    ghost use Rattle.nx_memory.specs.Memory.{AddsChange, HasRoomToWrite, HasRoomToSync};
    ghost use Rattle.nx_host.specs.Disk.{WritesTo, ComesTorn, IsDurable, Keeps, area_of, given_at};

    ghost contents = { λ host. Some (areas_of host.memory) };

    ghost may_leave = { λ host. MayLeave (changes_of host.memory) (present_of host.memory) };

    ghost beside = { λ host. record {
      input = Some (bytes_left host.memory.source);
      output = Some (output_of host.memory);
      in_faults = host.counts.in_faults;
      out_faults = host.counts.out_faults;
    } };

    ghost moment = { λ host. length (changes_of host.memory) };

    ghost stood_since = { λ host. StoodSince (changes_of host.memory) (present_of host.memory) };

    ghost faults = { λ host. host.counts.faults };

    ghost reads = { λ host. host.counts.reads };

    ghost renewed = { λ host. Some (renewed_of host.renewals) };

    ghost contents_may_stay = { λ host image is. contents_stay (changes_of host.memory) (present_of host.memory) host.memory.sound image is };

    ghost told_before = { λ host t s le since is_told. told (changes_of host.memory) (present_of host.memory) t s since };

    ghost stands_now = { λ host t image le left. stood (changes_of host.memory) (present_of host.memory) t image left };

    ghost only_now = { λ host s since. only_stood (changes_of host.memory) (present_of host.memory) s since };

    ghost since_earlier = { λ host t u s le now since. stood_earlier (changes_of host.memory) (present_of host.memory) t u s le since };

    ghost some_image = { λ host. (areas_of host.memory, contents_left (changes_of host.memory) (present_of host.memory) host.memory.sound) };

    ghost images_hold_bytes = { λ host image left. image_holds_bytes (changes_of host.memory) (present_of host.memory) image host.memory.sound left };

    ghost past_holds_bytes = { λ host t s le since. stood_holds_bytes (changes_of host.memory) (present_of host.memory) t s host.memory.sound since };

    ghost input_is_bytes = { λ host input is. left_are_bytes host.memory.source input is };

    fn length(&mut self, area: Area) -> Result<u64, Failed>
        ensures renewals { self.new.renewals ≡ self.old.renewals }
        ensures passes { OnOk result (Passes self.old.counts (Unit {0}) self.old self.new) }
        ensures value { IfOk result (λ n. n ≡ length (area_of area (areas_of self.old.memory))) }
        ensures memory { self.new.memory ≡ self.old.memory }
        ensures refuses { OnErr result (FailsCall (record self.old.counts { faults = raised self.old.counts.faults }) self.old self.new) }
        ensures reason { OnErr result (next_fails self.old ≡ true) }
        ensures faults { self.old.counts.faults ≤ self.new.counts.faults }
    {
        if self.calls.next_fails() {
            return Err(self.fault());
        }
        Ok(self.memory.length(area))
    }

    fn read(&mut self, area: Area, at: u64, into: &mut [u8]) -> Result<usize, Failed>
        ensures renewals { self.new.renewals ≡ self.old.renewals }
        ensures passes { OnOk result (Passes (record self.old.counts { reads = raised self.old.counts.reads }) (Unit {0}) self.old self.new) }
        ensures count { IfOk result (λ n. n ≡ length (given_at at (length into.old) (area_of area (areas_of self.old.memory)))) }
        ensures bytes { IfOk result (λ n. take n into.new ≡ given_at at (length into.old) (area_of area (areas_of self.old.memory))) }
        ensures memory { self.new.memory ≡ self.old.memory }
        ensures refuses { OnErr result (FailsCall (record self.old.counts { reads = raised self.old.counts.reads; faults = raised self.old.counts.faults }) self.old self.new) }
        ensures reason { OnErr result (next_fails self.old ≡ true) }
        ensures faults { self.old.counts.faults ≤ self.new.counts.faults }
        ensures reads { (self.old.counts.reads ≤ self.new.counts.reads) × (self.new.counts.reads ≤ self.old.counts.reads + 1) }
    {
        self.counts.reads = self.counts.reads.saturating_add(1);
        if self.calls.next_fails() {
            return Err(self.fault());
        }
        Ok(self.memory.read(area, at, into))
    }

    fn write_at(&mut self, area: Area, at: u64, bytes: &[u8]) -> Result<(), Failed>
        requires { at + length bytes.now ≤ 2 ^ 63 }
        ensures renewals { self.new.renewals ≡ self.old.renewals }
        ensures passes { OnOk result (Passes self.old.counts (HasRoomToWrite area at (length bytes.now) self.old.memory) self.old self.new) }
        ensures written { OnOk result (WritesTo area at bytes.now (areas_of self.old.memory) (areas_of self.new.memory)) }
        ensures adds { OnOk result (AddsChange (Change.Write area at (length bytes.now) (length (area_of area (areas_of self.old.memory)))) self.old.memory self.new.memory) }
        ensures refuses { OnErr result (FailsCall (record self.old.counts { faults = raised self.old.counts.faults }) self.old self.new) }
        ensures reason { OnErr result (MayFail (HasRoomToWrite area at (length bytes.now) self.old.memory) self.old) }
        ensures images { AreAmong (HostMayLeave self.new) (ComesTorn area at (length bytes.now) (HostMayLeave self.old)) }
        ensures time { HostElapses self.old self.new (λ s. Keeps (Some (output_of self.old.memory)) s.output × ComesTorn area at (length bytes.now) (HostMayLeave self.old) s.image) }
        ensures faults { self.old.counts.faults ≤ self.new.counts.faults }
    {
        if self.calls.next_fails() {
            return Err(self.fault());
        }
        if !self.memory.write(area, at, bytes) {
            return Err(self.fault());
        }
        Ok(())
    }

    fn sync(&mut self, area: Area) -> Result<(), Failed>
        ensures renewals { self.new.renewals ≡ self.old.renewals }
        ensures passes { OnOk result (Passes self.old.counts (HasRoomToSync self.old.memory) self.old self.new) }
        ensures areas { areas_of self.new.memory ≡ areas_of self.old.memory }
        ensures adds { OnOk result (AddsChange (Change.Sync area) self.old.memory self.new.memory) }
        ensures refuses { OnErr result (FailsCall (record self.old.counts { faults = raised self.old.counts.faults }) self.old self.new) }
        ensures reason { OnErr result (MayFail (HasRoomToSync self.old.memory) self.old) }
        ensures durable { OnOk result (IsDurable area (HostMayLeave self.new) (areas_of self.new.memory)) }
        ensures images { AreAmong (HostMayLeave self.new) (HostMayLeave self.old) }
        ensures time { HostElapses self.old self.new (λ s. Keeps (Some (output_of self.old.memory)) s.output × HostMayLeave self.old s.image) }
        ensures faults { self.old.counts.faults ≤ self.new.counts.faults }
    {
        if self.calls.next_fails() {
            return Err(self.fault());
        }
        if !self.memory.sync(area) {
            return Err(self.fault());
        }
        Ok(())
    }

    fn renew(&mut self, area: Area, at: u64) -> Result<(), Failed>
        ensures passes { OnOk result (Passes self.old.counts (MayBeRenewed area at self.old) self.old self.new) }
        ensures renewed { OnOk result (renewed_of self.new.renewals ≡ renewed_of self.old.renewals ++ record { area = area; at = at } ∷ []) }
        ensures memory { self.new.memory ≡ self.old.memory }
        ensures refuses { OnErr result (FailsCall (record self.old.counts { faults = raised self.old.counts.faults }) self.old self.new) }
        ensures unrenewed { OnErr result (self.new.renewals ≡ self.old.renewals) }
        ensures reason { OnErr result (MayFail (MayBeRenewed area at self.old) self.old) }
        ensures faults { self.old.counts.faults ≤ self.new.counts.faults }
    {
        if self.calls.next_fails() {
            return Err(self.fault());
        }
        if at >= self.memory.length(area) || !self.renewals.add(area, at) {
            return Err(self.fault());
        }
        Ok(())
    }
}

impl Host for MemoryHost {
    ghost use Rattle.nx_memory.specs.Host.{next_fails, raised, Passes, FailsCall, MayFail, HostElapses, HostMayLeave, AreSame};
    ghost use Rattle.nx_memory.specs.Memory.{AddsChange, HasRoomToEmit};
    ghost use Rattle.nx_host.specs.Host.{AppendsPrefix};

    fn read_in(&mut self, into: &mut [u8]) -> Result<usize, Failed>
        ensures renewals { self.new.renewals ≡ self.old.renewals }
        ensures passes { OnOk result (Passes self.old.counts (Unit {0}) self.old self.new) }
        ensures count { IfOk result (λ n. n ≡ min (min self.old.piece (length into.old)) (length (bytes_left self.old.memory.source))) }
        ensures bytes { IfOk result (λ n. take n into.new ≡ take n (bytes_left self.old.memory.source)) }
        ensures left { IfOk result (λ n. bytes_left self.new.memory.source ≡ drop n (bytes_left self.old.memory.source)) }
        ensures piece { 0 < self.old.piece }
        ensures others { OnOk result (self.new.memory ≡ record self.old.memory { source = self.new.memory.source }) }
        ensures refuses { OnErr result (FailsCall (record self.old.counts { in_faults = raised self.old.counts.in_faults }) self.old self.new) }
        ensures reason { OnErr result (next_fails self.old ≡ true) }
        ensures in_faults { self.old.counts.in_faults ≤ self.new.counts.in_faults }
    {
        if self.calls.next_fails() {
            return Err(self.in_fault());
        }
        Ok(self.memory.source.give(self.piece as usize, into))
    }

    fn emit(&mut self, bytes: &[u8]) -> Result<(), Failed>
        ensures renewals { self.new.renewals ≡ self.old.renewals }
        ensures passes { OnOk result (Passes self.old.counts (HasRoomToEmit (length bytes.now) self.old.memory) self.old self.new) }
        ensures output { OnOk result (output_of self.new.memory ≡ output_of self.old.memory ++ bytes.now) }
        ensures areas { areas_of self.new.memory ≡ areas_of self.old.memory }
        ensures adds { OnOk result (AddsChange (Change.Emit (length (output_of self.old.memory))) self.old.memory self.new.memory) }
        ensures refuses { OnErr result (FailsCall (record self.old.counts { out_faults = raised self.old.counts.out_faults }) self.old self.new) }
        ensures reason { OnErr result (MayFail (HasRoomToEmit (length bytes.now) self.old.memory) self.old) }
        ensures images { AreSame (HostMayLeave self.new) (HostMayLeave self.old) }
        ensures time { HostElapses self.old self.new (λ s. AppendsPrefix bytes.now (Some (output_of self.old.memory)) s.output × HostMayLeave self.old s.image) }
        ensures out_faults { self.old.counts.out_faults ≤ self.new.counts.out_faults }
    {
        if self.calls.next_fails() {
            return Err(self.out_fault());
        }
        if !self.memory.emit(bytes) {
            return Err(self.out_fault());
        }
        Ok(())
    }
}
