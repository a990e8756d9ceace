// Numbers that look random and are the same in each run.
ghost use Rattle.std.specs.Prelude.{◌≤◌};

#[derive(Drop)]
pub(crate) struct Random {
    state: u64,
}

impl Random {
    pub(crate) fn new(seed: u64) -> Random {
        Random { state: seed }
    }

    // A number below the bound, or 0 where that is 0.
    pub(crate) fn below(&mut self, bound: u32) -> u32
        ensures { result ≤ bound }
    {
        self.state = self
            .state
            .wrapping_mul(6364136223846793005)
            .wrapping_add(1442695040888963407);
        let number = (self.state >> 33) as u32;
        if bound == 0 { 0 } else { number % bound }
    }

    // Most often the number itself, or else one near to it.
    pub(crate) fn near(&mut self, number: u32) -> u32 {
        match self.below(10) {
            0 => number.saturating_add(self.below(3)),
            1 => number.saturating_sub(self.below(3)),
            _ => number,
        }
    }
}
