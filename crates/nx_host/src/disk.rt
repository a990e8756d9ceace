// A disk of two areas.
ghost use Rattle.std.specs.Prelude.{◌≡◌, ◌⊎◌, ◌↔◌, ℕ, ◌+◌, ◌*◌, ◌^◌, ◌≤◌, List, length, take, drop, Option, Some, IsSome, IfSome, IfOk, OnOk, OnErr};
ghost use Rattle.nx_host.specs.Disk.{Image, Place, AreBytes, HoldsBytes, area_of, Beside, Rose, Keeps, Renews, LeavesBeside, WritesTo, TearsIn, ComesTorn, IsDurable, given_at};
ghost use Rattle.nx_host.specs.Time.{Stood, Elapses};

use thiserror::Error;

/// One of the two areas of a disk.
#[derive(Clone, Copy, Debug, PartialEq, Eq)]
pub enum Area {
    /// The pages of a store.
    Pages,
    /// Its log.
    Log,
}

/// A call to the outside failed. The count of its kind says so too.
#[derive(Clone, Copy, Debug, PartialEq, Eq, Error)]
#[error("a call to the outside failed")]
pub struct Failed;

/// A disk of two areas of bytes. No call has an answer for want of memory.
///
/// A meaning that a disk may keep to itself is an `Option`, and the clauses on it hold where it is
/// told after the call. Counts never fall, and may stop at 2^64 - 1.
pub trait Disk {
    /// What a read gives, where it is told.
    ghost contents: { Self → Option Image };

    /// The images that a crash at this moment may leave.
    ghost may_leave: { Self → Image → Type 0 };

    /// The input that is left, the output so far, and how often they failed.
    ghost beside: { Self → Beside };

    /// The clock, a number that doesn't fall.
    ghost moment: { Self → ℕ };

    /// At some moment from that one on, this output and this image stood.
    ghost stood_since: { Self → ℕ → Stood → Type 0 };

    /// How many calls of the disk failed.
    ghost faults: { Self → ℕ };

    /// How often `read` was called.
    ghost reads: { Self → ℕ };

    /// The bytes that `renew` gave to the disk once more, in this order.
    ghost renewed: { Self → Option (List Place) };

    /// The length of an area in bytes.
    ///
    /// Errors: `Failed`, only where `faults` rose.
    fn length(&mut self, area: Area) -> Result<u64, Failed>
        ensures value { IfOk result (λ n. IfSome (contents self.new) (λ now. n ≡ length (area_of area now))) }
        ensures contents { contents self.new ≡ contents self.old }
        ensures images { (i : Image) → may_leave self.new i ↔ may_leave self.old i }
        ensures beside { LeavesBeside (beside self.old) (beside self.new) }
        ensures time { Elapses moment stood_since self.old self.new
            (λ s. Keeps (beside self.old).output s.output × may_leave self.old s.image) }
        ensures reads { reads self.new ≡ reads self.old }
        ensures renewed { Keeps (renewed self.old) (renewed self.new) }
        ensures faults { faults self.old ≤ faults self.new }
        ensures cause { OnErr result (Rose (faults self.old) (faults self.new)) };

    /// Fills `into` from offset `at` of an area, and gives how many bytes it wrote there: as many
    /// as the slice takes and the area has from `at` on.
    ///
    /// Errors: `Failed`, only where `faults` rose. What stands in `into` then is open.
    fn read(&mut self, area: Area, at: u64, into: &mut [u8]) -> Result<usize, Failed>
        ensures room { IfOk result (λ n. n ≤ length into.old) }
        ensures count { IfOk result (λ n. IfSome (contents self.new) (λ now. n ≡ length (given_at at (length into.old) (area_of area now)))) }
        ensures bytes { IfOk result (λ n. IfSome (contents self.new) (λ now. take n into.new ≡ given_at at (length into.old) (area_of area now))) }
        ensures contents { contents self.new ≡ contents self.old }
        ensures images { (i : Image) → may_leave self.new i ↔ may_leave self.old i }
        ensures beside { LeavesBeside (beside self.old) (beside self.new) }
        ensures time { Elapses moment stood_since self.old self.new
            (λ s. Keeps (beside self.old).output s.output × may_leave self.old s.image) }
        ensures reads { (reads self.old ≤ reads self.new) × (reads self.new ≤ reads self.old + 1) }
        ensures renewed { Keeps (renewed self.old) (renewed self.new) }
        ensures faults { faults self.old ≤ faults self.new }
        ensures cause { OnErr result (Rose (faults self.old) (faults self.new)) };

    /// Writes `bytes` at `at`, also past the area's end, but no further than to offset 2^63; what
    /// lies between the old end and `at` is then open. Until a `sync` of the area, a crash may leave
    /// any bytes in the range and past the old end.
    ///
    /// Errors: `Failed`, only where `faults` rose. The range may then hold any bytes.
    fn write_at(&mut self, area: Area, at: u64, bytes: &[u8]) -> Result<(), Failed>
        requires { at + length bytes.now ≤ 2 ^ 63 }
        ensures told { IsSome (contents self.new) → IsSome (contents self.old) }
        ensures written { OnOk result (IfSome (contents self.new) (λ now. IfSome (contents self.old) (λ was. WritesTo area at bytes.now was now))) }
        ensures failed { OnErr result (IfSome (contents self.new) (λ now. IfSome (contents self.old) (λ was. TearsIn area at (length bytes.now) was now))) }
        ensures images { (i : Image) → may_leave self.new i → ComesTorn area at (length bytes.now) (may_leave self.old) i }
        ensures beside { LeavesBeside (beside self.old) (beside self.new) }
        ensures time { Elapses moment stood_since self.old self.new
            (λ s. Keeps (beside self.old).output s.output × ComesTorn area at (length bytes.now) (may_leave self.old) s.image) }
        ensures reads { reads self.new ≡ reads self.old }
        ensures renewed { Keeps (renewed self.old) (renewed self.new) }
        ensures faults { faults self.old ≤ faults self.new }
        ensures cause { OnErr result (Rose (faults self.old) (faults self.new)) };

    /// Makes what was written to an area durable: a crash afterwards leaves there what a read gives.
    ///
    /// Errors: `Failed`, only where `faults` rose. A crash may then leave what it might have left
    /// before.
    fn sync(&mut self, area: Area) -> Result<(), Failed>
        ensures told { IsSome (contents self.new) → IsSome (contents self.old) }
        ensures contents { OnOk result (Keeps (contents self.old) (contents self.new)) }
        ensures durable { OnOk result (IfSome (contents self.new) (IsDurable area (may_leave self.new))) }
        ensures images { (i : Image) → may_leave self.new i → may_leave self.old i }
        ensures beside { LeavesBeside (beside self.old) (beside self.new) }
        ensures time { Elapses moment stood_since self.old self.new
            (λ s. Keeps (beside self.old).output s.output × may_leave self.old s.image) }
        ensures reads { reads self.new ≡ reads self.old }
        ensures renewed { Keeps (renewed self.old) (renewed self.new) }
        ensures faults { faults self.old ≤ faults self.new }
        ensures cause { OnErr result (Rose (faults self.old) (faults self.new)) };

    /// Gives the byte that stands at `at` to the disk once more, and makes the area durable. A byte that
    /// a read gives out of memory, though a sync failed that was to make it durable, is on the disk
    /// afterwards.
    ///
    /// Errors: `Failed`, only where `faults` rose. It may also fail where the area has no byte there.
    fn renew(&mut self, area: Area, at: u64) -> Result<(), Failed>
        ensures ok { OnOk result (Renews area at (renewed self.old) (renewed self.new)) }
        ensures failed { OnErr result (Keeps (renewed self.old) (renewed self.new) ⊎ Renews area at (renewed self.old) (renewed self.new)) }
        ensures contents { contents self.new ≡ contents self.old }
        ensures images { (i : Image) → may_leave self.new i ↔ may_leave self.old i }
        ensures beside { LeavesBeside (beside self.old) (beside self.new) }
        ensures time { Elapses moment stood_since self.old self.new
            (λ s. Keeps (beside self.old).output s.output × may_leave self.old s.image) }
        ensures reads { reads self.new ≡ reads self.old }
        ensures faults { faults self.old ≤ faults self.new }
        ensures cause { OnErr result (Rose (faults self.old) (faults self.new)) };

    /// What a read gives is one of the images.
    ghost contents_may_stay: { (d : Self) (i : Image) → contents d ≡ Some i → may_leave d i };

    /// What is told now was told at every moment before.
    ghost told_before: { (d : Self) (t : ℕ) (s : Stood) → t ≤ moment d → stood_since d t s → IsSome (beside d).output → IsSome s.output };

    /// What stands now has stood since any moment up to now.
    ghost stands_now: { (d : Self) (t : ℕ) (i : Image) → t ≤ moment d → may_leave d i → stood_since d t (record { output = (beside d).output; image = i }) };

    /// Since this moment nothing else has.
    ghost only_now: { (d : Self) (s : Stood) → stood_since d (moment d) s → (s.output ≡ (beside d).output) × may_leave d s.image };

    /// What has stood since a moment has stood since any earlier one.
    ghost since_earlier: { (d : Self) (t u : ℕ) (s : Stood) → t ≤ u → u ≤ moment d → stood_since d u s → stood_since d t s };

    /// A crash can always leave some image.
    ghost some_image: { (d : Self) → (i : Image) × may_leave d i };

    /// Images hold bytes, and so do the contents, which are one of them.
    ghost images_hold_bytes: { (d : Self) (i : Image) → may_leave d i → HoldsBytes i };

    /// So did the images at every moment.
    ghost past_holds_bytes: { (d : Self) (t : ℕ) (s : Stood) → t ≤ moment d → stood_since d t s → HoldsBytes s.image };

    /// The input that is left is bytes.
    ghost input_is_bytes: { (d : Self) (input : List ℕ) → (beside d).input ≡ Some input → AreBytes input };
}
