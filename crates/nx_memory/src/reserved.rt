// Bytes in room that was reserved.
ghost use Rattle.std.specs.Prelude.{◌≡◌, ◌+◌, ◌^◌, ◌≤◌, ◌-◌, ◌++◌, length, take, drop, min, replicate, IfOk, IsTrue, ◌↔◌};
ghost use Rattle.std.specs.Vec.{vec_capacity};
ghost use Rattle.nx_host.specs.Disk.{AreBytes, Written, given_at};
ghost use Rattle.nx_memory.specs.History.{spliced};

use nx_lists::NoMemory;

/// Bytes with room for the most that they may become.
#[derive(Drop)]
pub(crate) struct Reserved {
    pub(crate) bytes: Vec<u8>,
    pub(crate) most: usize,
    ghost within: { length bytes.items ≤ most },
    ghost room: { most ≤ vec_capacity bytes },
    ghost are_bytes: { AreBytes bytes.items },
}

impl Reserved {
    /// These bytes, with room for so many more.
    pub(crate) fn new(mut bytes: Vec<u8>, room: u64) -> Result<Reserved, NoMemory>
        requires { room ≤ 2 ^ 32 }
        ensures bytes { IfOk result (λ reserved. reserved.bytes.items ≡ bytes.items) }
        ensures most { IfOk result (λ reserved. reserved.most ≡ length bytes.items + room) }
    {
        let most = bytes.len() + room as usize;
        bytes.reserve_exact(room as usize)?;
        Ok(Reserved { bytes, most })
    }

    /// What a write of so many bytes at this offset covers.
    pub(crate) fn covered(&self, at: u64, count: usize) -> &[u8]
        requires { at + count ≤ 2 ^ 63 }
        ensures { result.now ≡ take (min count (length self.now.bytes.items - at)) (drop at self.now.bytes.items) }
    {
        let from = self.bytes.len().min(at as usize);
        let to = self.bytes.len().min(at as usize + count);
        &self.bytes[from..to]
    }

    /// Fills a slice from this offset on, and gives how many bytes it wrote there.
    pub(crate) fn read(&self, at: u64, into: &mut [u8]) -> usize
        ensures count { result ≡ length (given_at at (length into.old) self.now.bytes.items) }
        ensures bytes { take result into.new ≡ given_at at (length into.old) self.now.bytes.items }
    {
        let from = at.min(self.bytes.len() as u64) as usize;
        let n = into.len().min(self.bytes.len() - from);
        into[..n].copy_from_slice(&self.bytes[from..from + n]);
        n
    }

    /// Writes bytes at an offset. A gap behind the old end is filled with zeros.
    pub(crate) fn write(&mut self, at: u64, bytes: &[u8])
        requires { at + length bytes.now ≤ self.old.most }
        ensures written { Written at bytes.now self.old.bytes.items self.new.bytes.items }
        ensures most { self.new.most ≡ self.old.most }
    {
        let at = at as usize;
        self.grow(at + bytes.len());
        splice(&mut self.bytes, at, bytes);
    }

    // Adds zeros up to this length.
    fn grow(&mut self, len: usize)
        requires { len ≤ self.old.most }
        ensures bytes { self.new.bytes.items ≡ self.old.bytes.items ++ replicate (len - length self.old.bytes.items) 0 }
        ensures most { self.new.most ≡ self.old.most }
    {
        if self.bytes.len() >= len {
            return;
        }
        let Ok(_) = self.bytes.resize(len, 0) else {
            unreachable!()
        };
    }

    /// Adds bytes at the end.
    pub(crate) fn append(&mut self, bytes: &[u8])
        requires { length self.old.bytes.items + length bytes.now ≤ self.old.most }
        ensures bytes { self.new.bytes.items ≡ self.old.bytes.items ++ bytes.now }
        ensures most { self.new.most ≡ self.old.most }
    {
        let Ok(_) = self.bytes.extend_from_slice(bytes) else {
            unreachable!()
        };
    }
}

// Puts bytes in place of those at an offset.
fn splice(list: &mut [u8], at: usize, bytes: &[u8])
    requires { at + length bytes.now ≤ length list.old }
    ensures spliced { list.new ≡ spliced at bytes.now list.old }
    ensures are_bytes { AreBytes list.new }
{
    list[at..at + bytes.len()].copy_from_slice(bytes);
}
