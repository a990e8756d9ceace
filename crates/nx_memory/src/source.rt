// An input in memory.
ghost use Rattle.std.specs.Prelude.{◌≡◌, ◌≤◌, length, take, drop, min};
ghost use Rattle.nx_host.specs.Disk.{AreBytes};

use nx_tree::Bytes;

/// The bytes of an input, and how many of them were given.
#[derive(Drop)]
pub(crate) struct Source {
    pub(crate) bytes: Vec<u8>,
    pub(crate) given: usize,
    ghost within: { given ≤ length bytes.items },
    ghost are_bytes: { AreBytes bytes.items },
}

impl Source {
    ghost use Rattle.nx_memory.specs.Source.{bytes_left};

    /// These bytes, of which none was given.
    pub(crate) fn new(bytes: Bytes) -> Source
        ensures { bytes_left result ≡ bytes }
    {
        let bytes = bytes.into_vec();
        Source { bytes, given: 0 }
    }

    /// Gives the first bytes that are left, at most so many, and says how many it wrote to the
    /// slice's beginning.
    pub(crate) fn give(&mut self, most: usize, into: &mut [u8]) -> usize
        ensures count { result ≡ min (min most (length into.old)) (length (bytes_left self.old)) }
        ensures bytes { take result into.new ≡ take result (bytes_left self.old) }
        ensures left { bytes_left self.new ≡ drop result (bytes_left self.old) }
    {
        let left = self.bytes.len() - self.given;
        let n = most.min(into.len()).min(left);
        into[..n].copy_from_slice(&self.bytes[self.given..self.given + n]);
        self.given += n;
        n
    }
}
