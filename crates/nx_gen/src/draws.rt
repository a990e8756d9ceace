// Numbers and texts that are drawn.
ghost use Rattle.std.specs.Prelude.{◌≡◌, ◌<◌, ◌≤◌, IfOk, OnOk};
ghost use Rattle.nx_gen.specs.Draws.{next_state, after_text, draw_from, drawn_below, drawn_text};

use nx_tree::{Bytes, NoMemory};
use std::alloc::Global;

/// A linear congruential generator, by the state that the draws have come to.
#[derive(Clone, Copy, Debug)]
pub struct Draws {
    pub state: u32,
}

impl Draws {
    // The next draw.
    fn draw(&mut self) -> u32
        ensures value { result ≡ draw_from self.old.state }
        ensures state { self.new.state ≡ next_state self.old.state }
    {
        let next = (u64::from(self.state) * 1_103_515_245 + 12_345) % 2_147_483_648;
        self.state = next as u32;
        self.state / 256
    }

    /// The next draw, as a number below `n`.
    pub fn below(&mut self, n: u32) -> u32
        requires { 1 ≤ n }
        ensures value { result ≡ drawn_below n self.old.state }
        ensures small { result < n }
        ensures state { self.new.state ≡ next_state self.old.state }
    {
        self.draw() % n
    }

    /// A text of at most 32 times the same letter.
    ///
    /// Errors: `NoMemory`.
    pub fn text(&mut self, alloc: Global) -> Result<Bytes, NoMemory>
        ensures text { IfOk result (λ text. text ≡ drawn_text self.old.state) }
        ensures state { OnOk result (self.new.state ≡ after_text self.old.state) }
    {
        let length = self.below(33);
        let letter = 97 + self.below(26) as u8;
        let bytes = vec![in alloc; letter; length as usize]?;
        Ok(Bytes::from_vec(bytes))
    }
}
