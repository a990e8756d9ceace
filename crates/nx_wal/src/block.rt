// A block of bytes that wait to be written to the log.
ghost use Rattle.std.specs.Prelude.{◌≡◌, ◌≤◌, [], IfOk};
ghost use Rattle.std.specs.Vec.{vec_capacity};

use std::alloc::{AllocError, Global};

// How many bytes are written at once: a group of 32 pages with all that stands around them.
pub(crate) const ROOM: usize = 262_285;

// Bytes that wait to be written behind each other.
#[derive(Drop)]
pub(crate) struct Block {
    pub(crate) bytes: Vec<u8>,
    // Where the first of them goes.
    pub(crate) at: u64,
    ghost room: { 262285 ≤ vec_capacity bytes },
}

impl Block {
    // A block with nothing in it.
    pub(crate) fn new(alloc: Global) -> Result<Block, AllocError>
        ensures empty { IfOk result (λ block. block.bytes.items ≡ []) }
    {
        Ok(Block {
            bytes: Vec::with_capacity(alloc, ROOM)?,
            at: 0,
        })
    }
}
