// A host of tests whose input is one line without end.
ghost use Rattle.std.specs.Prelude.{◌≡◌, None, IsSome, refl};
ghost use Rattle.std.proofs.Common.{subst, sym};
ghost use Rattle.nx_host.specs.Disk.{HoldsBytes, no_bytes};
ghost use Rattle.nx_host.proofs.DiskLemmas.{no_bytes_hold_bytes, untold};

use nx_host::{Area, Disk, Failed, Host};

/// Makes the bytes of a text as they are read, and keeps none. It tells nothing but that no call fails.
#[derive(Drop, Default)]
pub struct EndlessHost {
    /// How many bytes were read.
    pub taken: u64,
    /// How many were given as output.
    pub given: u64,
}

impl Disk for EndlessHost {
    ghost contents = { λ _. None };

    ghost may_leave = { λ _ image. HoldsBytes image };

    ghost beside = { λ _. record { input = None; output = None; in_faults = 0; out_faults = 0 } };

    ghost moment = { λ _. 0 };

    ghost stood_since = { λ _ _ stood. (stood.output ≡ None) × HoldsBytes stood.image };

    ghost faults = { λ _. 0 };

    ghost reads = { λ _. 0 };

    ghost renewed = { λ _. None };

    fn length(&mut self, _area: Area) -> Result<u64, Failed> {
        Ok(0)
    }

    fn read(&mut self, _area: Area, _at: u64, _into: &mut [u8]) -> Result<usize, Failed> {
        Ok(0)
    }

    fn write_at(&mut self, _area: Area, _at: u64, _bytes: &[u8]) -> Result<(), Failed> {
        Ok(())
    }

    fn sync(&mut self, _area: Area) -> Result<(), Failed> {
        Ok(())
    }

    fn renew(&mut self, _area: Area, _at: u64) -> Result<(), Failed> {
        Ok(())
    }

    ghost contents_may_stay = { λ _ image is. untold image is };

    ghost told_before = { λ _ _ _ _ since told. subst IsSome (sym since.0) told };

    ghost stands_now = { λ _ _ _ _ left. (refl, left) };

    ghost only_now = { λ _ _ since. since };

    ghost since_earlier = { λ _ _ _ _ _ _ since. since };

    ghost some_image = { λ _. (no_bytes, no_bytes_hold_bytes) };

    ghost images_hold_bytes = { λ _ _ left. left };

    ghost past_holds_bytes = { λ _ _ _ _ since. since.1 };

    ghost input_is_bytes = { λ _ input is. untold input is };
}

impl Host for EndlessHost {
    fn read_in(&mut self, into: &mut [u8]) -> Result<usize, Failed> {
        into.fill(b'-');
        self.taken = self.taken.saturating_add(into.len() as u64);
        Ok(into.len())
    }

    fn emit(&mut self, bytes: &[u8]) -> Result<(), Failed> {
        self.given = self.given.saturating_add(bytes.len() as u64);
        Ok(())
    }
}
