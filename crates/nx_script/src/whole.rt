// Lines, whatever they say.
ghost use Rattle.std.specs.Prelude.{◌≡◌, ℕ, List, take, IfOk};
ghost use Rattle.nx_pyx.specs.Lines.{without_cr};
ghost use Rattle.nx_script.specs.Parser.{most_held};
ghost use Rattle.nx_script.specs.Whole.{as_line};

use crate::line::LONGEST_LINE;
use nx_pyx::without_cr;
use nx_tree::{Bytes, NoMemory};
use std::alloc::Global;

/// A line, without its LF and without one CR before that.
#[derive(Drop)]
pub enum Line {
    /// The bytes of a line of at most 4,194,304 of them.
    Bytes(Bytes),
    /// A line has more.
    TooLong,
}

// The line whose first bytes these are, as many as are held of a line.
pub(crate) fn whole_line(alloc: Global, bytes: &[u8]) -> Result<Line, NoMemory>
    ensures { IfOk result (λ line. (whole : List ℕ) → bytes.now ≡ take most_held whole → line ≡ as_line (without_cr whole)) }
{
    let line = without_cr(bytes);
    if line.len() > LONGEST_LINE {
        return Ok(Line::TooLong);
    }
    Ok(Line::Bytes(Bytes::from_slice(alloc, line)?))
}
