// Searches over bytes, many of them at once.
ghost use Rattle.std.specs.Prelude.{◌≡◌, ◌==◌, ◌<◌, ◌≤◌, ℕ, Bool, true, false, length, take, slice_index};
ghost use Rattle.std.specs.List.{list_any};
ghost use Rattle.nx_pyx.specs.Escape.{needs_escape};
ghost use Rattle.nx_pyx.specs.Lines.{is_lf};
ghost use Rattle.nx_pyx.specs.Line.{is_backslash};

// As many bytes as are looked at together.
const CHUNK: usize = 16;

// The bytes that a search stops at.
pub trait Mark {
    ghost marks: { ℕ → Bool };

    // Whether the byte is one of them.
    fn is(b: u8) -> bool
        ensures { result ≡ marks b };
}

pub struct LineEnd;

impl Mark for LineEnd {
    ghost marks = { is_lf };

    fn is(b: u8) -> bool {
        b == b'\n'
    }
}

pub struct Backslash;

impl Mark for Backslash {
    ghost marks = { is_backslash };

    fn is(b: u8) -> bool {
        b == b'\\'
    }
}

// A byte that is written as two.
pub struct Escaped;

impl Mark for Escaped {
    ghost marks = { needs_escape };

    fn is(b: u8) -> bool {
        b == b'\n' || b == b'\t' || b == b'\r' || b == b'\\'
    }
}

// The number of bytes before the first marked one, or of all where there is none.
pub fn unmarked_len<M: Mark>(bytes: &[u8]) -> usize
    ensures within { result ≤ length bytes.now }
    ensures none { list_any M.marks (take result bytes.now) ≡ false }
    ensures end { result < length bytes.now → M.marks (slice_index bytes.now result) ≡ true }
{
    let mut len = 0;
    while bytes.len() - len >= CHUNK && !has::<M>(&bytes[len..len + CHUNK]) {
        len += CHUNK;
    }
    while len < bytes.len() && !M::is(bytes[len]) {
        len += 1;
    }
    len
}

// Whether a marked byte is among them. It looks at all of them, so that a processor may look at many
// of them at once.
fn has<M: Mark>(bytes: &[u8]) -> bool
    ensures { result ≡ list_any M.marks bytes.now }
{
    let mut found = false;
    for b in bytes {
        found |= M::is(*b);
    }
    found
}
