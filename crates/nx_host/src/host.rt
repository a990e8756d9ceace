// A disk with input and output beside it.
ghost use Rattle.std.specs.Prelude.{◌≡◌, ◌↔◌, ℕ, ◌+◌, ◌<◌, ◌≤◌, List, length, take, Option, Some, IfSome, IfOk, OnOk, OnErr};
ghost use Rattle.nx_host.specs.Disk.{Image, Rose, Keeps};
ghost use Rattle.nx_host.specs.Host.{Appends, AppendsPrefix, Takes, IsAtEnd};
ghost use Rattle.nx_host.specs.Time.{Stood, Elapses};

use crate::{Disk, Failed};

/// A disk with an input and an output beside it. No call has an answer for want of memory.
pub trait Host: Disk {
    /// Takes the first bytes of the input that is left, at most as many as the slice has, and gives
    /// how many it wrote to the slice's beginning. 0 for a slice that isn't empty says that the input
    /// has ended.
    ///
    /// Errors: `Failed`, only where `in_faults` rose. No byte of the input is taken then.
    fn read_in(&mut self, into: &mut [u8]) -> Result<usize, Failed>
        ensures room { IfOk result (λ n. n ≤ length into.old) }
        ensures taken { IfOk result (λ n. Takes (take n into.new) (Self.beside self.old).input (Self.beside self.new).input) }
        ensures end { IfOk result (λ n. n ≡ 0 → 0 < length into.old → IsAtEnd (Self.beside self.new).input) }
        ensures untaken { OnErr result (Keeps (Self.beside self.old).input (Self.beside self.new).input) }
        ensures output { (Self.beside self.new).output ≡ (Self.beside self.old).output }
        ensures contents { Self.contents self.new ≡ Self.contents self.old }
        ensures images { (i : Image) → Self.may_leave self.new i ↔ Self.may_leave self.old i }
        ensures time { Elapses Self.moment Self.stood_since self.old self.new
            (λ s. Keeps (Self.beside self.old).output s.output × Self.may_leave self.old s.image) }
        ensures reads { Self.reads self.new ≡ Self.reads self.old }
        ensures renewed { Keeps (Self.renewed self.old) (Self.renewed self.new) }
        ensures faults { Self.faults self.new ≡ Self.faults self.old }
        ensures out_faults { (Self.beside self.new).out_faults ≡ (Self.beside self.old).out_faults }
        ensures in_faults { (Self.beside self.old).in_faults ≤ (Self.beside self.new).in_faults }
        ensures cause { OnErr result (Rose (Self.beside self.old).in_faults (Self.beside self.new).in_faults) };

    /// Appends the whole slice to the output.
    ///
    /// Errors: `Failed`, only where `out_faults` rose. The output has then grown by some prefix of
    /// the slice.
    fn emit(&mut self, bytes: &[u8]) -> Result<(), Failed>
        ensures ok { OnOk result (Appends bytes.now (Self.beside self.old).output (Self.beside self.new).output) }
        ensures prefix { OnErr result (AppendsPrefix bytes.now (Self.beside self.old).output (Self.beside self.new).output) }
        ensures input { (Self.beside self.new).input ≡ (Self.beside self.old).input }
        ensures contents { Keeps (Self.contents self.old) (Self.contents self.new) }
        ensures images { (i : Image) → Self.may_leave self.new i ↔ Self.may_leave self.old i }
        ensures time { Elapses Self.moment Self.stood_since self.old self.new
            (λ s. AppendsPrefix bytes.now (Self.beside self.old).output s.output × Self.may_leave self.old s.image) }
        ensures reads { Self.reads self.new ≡ Self.reads self.old }
        ensures renewed { Keeps (Self.renewed self.old) (Self.renewed self.new) }
        ensures faults { Self.faults self.new ≡ Self.faults self.old }
        ensures in_faults { (Self.beside self.new).in_faults ≡ (Self.beside self.old).in_faults }
        ensures out_faults { (Self.beside self.old).out_faults ≤ (Self.beside self.new).out_faults }
        ensures cause { OnErr result (Rose (Self.beside self.old).out_faults (Self.beside self.new).out_faults) };
}
