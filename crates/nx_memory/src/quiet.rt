// The host in memory that never fails.
ghost use Rattle.std.specs.Prelude.{◌≡◌, ◌+◌, ◌^◌, ◌≤◌, [], length, true, false, Some, IfSome, IsSome, IfOk, IsOk};
ghost use Rattle.nx_memory.specs.Source.{bytes_left};
ghost use Rattle.nx_memory.specs.Memory.{changes_of, present_of, areas_of, output_of};
ghost use Rattle.nx_memory.specs.History.{MayLeave};
ghost use Rattle.nx_memory.specs.Laws.{contents_left, image_holds_bytes, left_are_bytes};
ghost use Rattle.nx_memory.specs.Quiet.{told_of, moment_at, QuietSince, quiet_contents, quiet_told, quiet_stood, quiet_only, quiet_earlier, quiet_holds_bytes};

use crate::history::Change;
use crate::image::{Choice, Image};
use crate::memory::Memory;
use crate::renewals::Renewals;
use nx_host::{Area, Disk, Failed, Host};
use nx_lists::NoMemory;
use nx_tree::Bytes;
use std::alloc::Global;

/// A host in memory that never fails. It tells what `MemoryHost` tells, until a call comes for which
/// there is no room: then and from then on it writes and gives nothing, and tells its areas and its
/// output no longer. Which bytes were renewed it tells as long as they are 64 at most.
#[derive(Drop)]
pub struct QuietHost {
    alloc: Global,
    memory: Memory,
    // Whether a call came for which there was no room.
    full: bool,
    reads: u64,
    renewals: Renewals,
    // Whether more were renewed.
    missed: bool,
}

impl QuietHost {
    ghost use Rattle.nx_memory.specs.Host.{IsFresh, HasRoomToGrow, areas_in, renewed_of};
    ghost use Rattle.nx_memory.specs.Crash.{crash_image};

    /// A host of these areas, with nothing unsynced, and this input. The output is empty.
    ///
    /// Each area may grow by `room` bytes, at most 4,294,967,296, the output and the history of the calls take at most
    /// `room` each, as those of `MemoryHost` do.
    ///
    /// Errors: `NoMemory`.
    pub fn new(alloc: Global, image: Image, input: Bytes, room: u64) -> Result<QuietHost, NoMemory>
        requires { room ≤ 2 ^ 32 }
        ensures fresh { IfOk result (λ host. IsFresh image input host.memory) }
        ensures room { IfOk result (λ host. HasRoomToGrow room image host.memory) }
        ensures told { IfOk result (λ host. host.full ≡ false) }
        ensures reads { IfOk result (λ host. host.reads ≡ 0) }
        ensures renewals { IfOk result (λ host. (renewed_of host.renewals ≡ []) × (host.missed ≡ false)) }
    {
        Ok(QuietHost {
            alloc,
            memory: Memory::new(alloc, image, input, room)?,
            full: false,
            reads: 0,
            renewals: Renewals::new(alloc)?,
            missed: false,
        })
    }

    /// The output so far, as long as there was room for it.
    pub fn output(&self) -> &[u8]
        ensures { result.now ≡ output_of self.now.memory }
    {
        &self.memory.output.bytes
    }

    /// Whether a call came for which there was no room.
    pub fn is_full(&self) -> bool
        ensures { result ≡ self.now.full }
    {
        self.full
    }

    /// What a crash may leave now, by this choice.
    ///
    /// Errors: `NoMemory`.
    pub fn image(&self, choice: Choice) -> Result<Image, NoMemory>
        ensures image { IfOk result (λ image. areas_in image ≡ crash_image choice (changes_of self.now.memory) (present_of self.now.memory)) }
        ensures left { IfOk result (λ image. MayLeave (changes_of self.now.memory) (present_of self.now.memory) (areas_in image)) }
    {
        self.memory.image(self.alloc, choice)
    }
}

impl Disk for QuietHost {
    ghost use Rattle.nx_host.specs.Disk.{WritesTo, ComesTorn, IsDurable, Keeps, LeavesBeside, area_of};
    ghost use Rattle.nx_memory.specs.Memory.{HasRoomToWrite, HasRoomToSync};
    ghost use Rattle.nx_memory.specs.Host.{AreAmong, renewed_of};
    ghost use Rattle.nx_memory.specs.QuietHost.{GoesOnTelling, IsUsedUp, QuietMayLeave, QuietElapses, quiet_beside};

    ghost contents = { λ host. told_of host.full (areas_of host.memory) };

    ghost may_leave = { λ host. MayLeave (changes_of host.memory) (present_of host.memory) };

    ghost beside = { λ host. record {
      input = Some (bytes_left host.memory.source);
      output = told_of host.full (output_of host.memory);
      in_faults = 0;
      out_faults = 0;
    } };

    ghost moment = { λ host. moment_at host.full (changes_of host.memory) };

    ghost stood_since = { λ host. QuietSince host.full (changes_of host.memory) (present_of host.memory) };

    ghost faults = { λ _. 0 };

    ghost reads = { λ host. host.reads };

    ghost renewed = { λ host. told_of host.missed (renewed_of host.renewals) };

    ghost contents_may_stay = { λ host image is. quiet_contents (changes_of host.memory) (present_of host.memory) host.full host.memory.sound image is };

    ghost told_before = { λ host t s le since is_told. quiet_told (changes_of host.memory) (present_of host.memory) host.full t s since is_told };

    ghost stands_now = { λ host t image le left. quiet_stood (changes_of host.memory) (present_of host.memory) host.full t image left };

    ghost only_now = { λ host s since. quiet_only (changes_of host.memory) (present_of host.memory) host.full s since };

    ghost since_earlier = { λ host t u s le now since. quiet_earlier (changes_of host.memory) (present_of host.memory) host.full t u s le since };

    ghost some_image = { λ host. (areas_of host.memory, contents_left (changes_of host.memory) (present_of host.memory) host.memory.sound) };

    ghost images_hold_bytes = { λ host image left. image_holds_bytes (changes_of host.memory) (present_of host.memory) image host.memory.sound left };

    ghost past_holds_bytes = { λ host t s le since. quiet_holds_bytes (changes_of host.memory) (present_of host.memory) host.full t s host.memory.sound since };

    ghost input_is_bytes = { λ host input is. left_are_bytes host.memory.source input is };

    fn length(&mut self, area: Area) -> Result<u64, Failed> {
        Ok(self.memory.length(area))
    }

    fn read(&mut self, area: Area, at: u64, into: &mut [u8]) -> Result<usize, Failed> {
        self.reads = self.reads.saturating_add(1);
        Ok(self.memory.read(area, at, into))
    }

    fn write_at(&mut self, area: Area, at: u64, bytes: &[u8]) -> Result<(), Failed>
        requires { at + length bytes.now ≤ 2 ^ 63 }
        ensures ok { IsOk result }
        ensures goes_on { self.new.full ≡ false → GoesOnTelling (Change.Write area at (length bytes.now) (length (area_of area (areas_of self.old.memory)))) (HasRoomToWrite area at (length bytes.now) self.old.memory) self.old self.new }
        ensures used_up { self.new.full ≡ true → IsUsedUp (HasRoomToWrite area at (length bytes.now) self.old.memory) self.old self.new }
        ensures told { IsSome (told_of self.new.full (areas_of self.new.memory)) → IsSome (told_of self.old.full (areas_of self.old.memory)) }
        ensures written { IfSome (told_of self.new.full (areas_of self.new.memory)) (λ now. IfSome (told_of self.old.full (areas_of self.old.memory)) (λ was. WritesTo area at bytes.now was now)) }
        ensures images { AreAmong (QuietMayLeave self.new) (ComesTorn area at (length bytes.now) (QuietMayLeave self.old)) }
        ensures beside { LeavesBeside (quiet_beside self.old) (quiet_beside self.new) }
        ensures time { QuietElapses self.old self.new (λ s. Keeps (quiet_beside self.old).output s.output × ComesTorn area at (length bytes.now) (QuietMayLeave self.old) s.image) }
        ensures reads { self.new.reads ≡ self.old.reads }
        ensures renewals { (self.new.renewals ≡ self.old.renewals) × (self.new.missed ≡ self.old.missed) }
    {
        if self.full {
            return Ok(());
        }
        if self.memory.write(area, at, bytes) {
            return Ok(());
        }
        self.full = true;
        Ok(())
    }

    fn sync(&mut self, area: Area) -> Result<(), Failed>
        ensures ok { IsOk result }
        ensures goes_on { self.new.full ≡ false → GoesOnTelling (Change.Sync area) (HasRoomToSync self.old.memory) self.old self.new }
        ensures used_up { self.new.full ≡ true → IsUsedUp (HasRoomToSync self.old.memory) self.old self.new }
        ensures told { IsSome (told_of self.new.full (areas_of self.new.memory)) → IsSome (told_of self.old.full (areas_of self.old.memory)) }
        ensures contents { Keeps (told_of self.old.full (areas_of self.old.memory)) (told_of self.new.full (areas_of self.new.memory)) }
        ensures durable { IfSome (told_of self.new.full (areas_of self.new.memory)) (IsDurable area (QuietMayLeave self.new)) }
        ensures images { AreAmong (QuietMayLeave self.new) (QuietMayLeave self.old) }
        ensures beside { LeavesBeside (quiet_beside self.old) (quiet_beside self.new) }
        ensures time { QuietElapses self.old self.new (λ s. Keeps (quiet_beside self.old).output s.output × QuietMayLeave self.old s.image) }
        ensures reads { self.new.reads ≡ self.old.reads }
        ensures renewals { (self.new.renewals ≡ self.old.renewals) × (self.new.missed ≡ self.old.missed) }
    {
        if self.full {
            return Ok(());
        }
        if self.memory.sync(area) {
            return Ok(());
        }
        self.full = true;
        Ok(())
    }

    fn renew(&mut self, area: Area, at: u64) -> Result<(), Failed> {
        if !self.renewals.add(area, at) {
            self.missed = true;
        }
        Ok(())
    }
}

impl Host for QuietHost {
    ghost use Rattle.nx_host.specs.Disk.{Keeps};
    ghost use Rattle.nx_host.specs.Host.{Appends, AppendsPrefix};
    ghost use Rattle.nx_memory.specs.Memory.{HasRoomToEmit};
    ghost use Rattle.nx_memory.specs.Host.{AreSame};
    ghost use Rattle.nx_memory.specs.QuietHost.{GoesOnTelling, IsUsedUp, QuietMayLeave, QuietElapses, quiet_beside};

    fn read_in(&mut self, into: &mut [u8]) -> Result<usize, Failed> {
        let most = into.len();
        Ok(self.memory.source.give(most, into))
    }

    fn emit(&mut self, bytes: &[u8]) -> Result<(), Failed>
        ensures ok { IsOk result }
        ensures goes_on { self.new.full ≡ false → GoesOnTelling (Change.Emit (length (output_of self.old.memory))) (HasRoomToEmit (length bytes.now) self.old.memory) self.old self.new }
        ensures used_up { self.new.full ≡ true → IsUsedUp (HasRoomToEmit (length bytes.now) self.old.memory) self.old self.new }
        ensures output { Appends bytes.now (quiet_beside self.old).output (quiet_beside self.new).output }
        ensures input { bytes_left self.new.memory.source ≡ bytes_left self.old.memory.source }
        ensures contents { Keeps (told_of self.old.full (areas_of self.old.memory)) (told_of self.new.full (areas_of self.new.memory)) }
        ensures images { AreSame (QuietMayLeave self.new) (QuietMayLeave self.old) }
        ensures time { QuietElapses self.old self.new (λ s. AppendsPrefix bytes.now (quiet_beside self.old).output s.output × QuietMayLeave self.old s.image) }
        ensures reads { self.new.reads ≡ self.old.reads }
        ensures renewals { (self.new.renewals ≡ self.old.renewals) × (self.new.missed ≡ self.old.missed) }
    {
        if self.full {
            return Ok(());
        }
        if self.memory.emit(bytes) {
            return Ok(());
        }
        self.full = true;
        Ok(())
    }
}
