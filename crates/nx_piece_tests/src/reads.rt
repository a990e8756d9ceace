// Records read and measured, with what the calls of a piece ask for and nothing else.
ghost use Rattle.std.specs.Prelude.{◌≤◌, IfOk, IfSome};
ghost use Rattle.nx_piece.specs.Gapped.{gapped_size};
ghost use Rattle.nx_piece.specs.Valid.{AreFar, IsPiece, IsValid};

use nx_lists::NoMemory;
use nx_piece::{Body, Piece, Stored, decode, encode, size, weight};
use nx_tree::Bytes;
use std::alloc::Global;
use std::process::Abort;

// The piece that these bytes hold, if they do.
pub(crate) fn stored(alloc: Global, bytes: &[u8]) -> Result<Option<Stored>, NoMemory>
    ensures { IfOk result (λ found. IfSome found (λ stored. IsValid stored)) }
{
    decode(alloc, bytes)
}

// The same where its proxies stand in its record.
#[tactic(auto, using(nx_piece::proofs::Laws::inline_is_piece))]
pub(crate) fn inline(alloc: Global, bytes: &[u8]) -> Result<Option<Piece>, NoMemory>
    ensures { IfOk result (λ found. IfSome found (λ piece. IsPiece piece)) }
{
    match stored(alloc, bytes)? {
        Some(Stored::Inline(piece)) => Ok(Some(piece)),
        _ => Ok(None),
    }
}

// The bytes of the record of that piece.
pub(crate) fn encoded(alloc: Global, stored: &Stored) -> Result<Bytes, NoMemory>
    requires { IsValid stored.now }
{
    encode(alloc, stored)
}

// What its nodes weigh, and how many slots their items take.
pub(crate) fn sizes(stored: &Stored) -> (u32, u32)
    requires { IsValid stored.now }
{
    match stored {
        Stored::Inline(piece) => measured(&piece.body),
        Stored::Chained { body, .. } => measured(body),
    }
}

#[tactic(auto, using(nx_piece::proofs::Laws::are_short, nx_piece::proofs::Laws::little_weight))]
fn measured(body: &Body) -> (u32, u32)
    requires small { gapped_size body.now.roots ≤ 256 }
    requires far { AreFar body.now.roots }
{
    (weight(body), size(body))
}

// What was found, one function for each kind of value: an assert in a function with a type parameter takes long to be
// proved, and a call of one that has it takes nearly nothing.
pub(crate) fn check_bytes(rt: &impl Abort, found: &[u8], expected: &[u8]) {
    assert_eq!(rt; found, expected);
}

pub(crate) fn check_sizes(rt: &impl Abort, found: (u32, u32), expected: (u32, u32)) {
    assert_eq!(rt; found, expected);
}

pub(crate) fn check_count(rt: &impl Abort, found: u32, expected: u32) {
    assert_eq!(rt; found, expected);
}

pub(crate) fn check_len(rt: &impl Abort, found: usize, expected: usize) {
    assert_eq!(rt; found, expected);
}

pub(crate) fn check_is(rt: &impl Abort, found: bool, expected: bool) {
    assert_eq!(rt; found, expected);
}
