// The disk that a worker has of its own.
ghost use Rattle.std.specs.Prelude.{◌≡◌, Some, None, length, take};
ghost use Rattle.std.proofs.Common.{refl};
ghost use Rattle.nx_host.specs.Disk.{AreBytes, given_at};
ghost use Rattle.nx_ask.specs.PagesAlone.{pages_alone, nothing_beside, AlwaysStood, seen_contents, seen_told, seen_bytes, none_are_bytes, no_bytes_seen};

use nx_host::{Area, Disk, Failed};

/// A disk whose pages are those of a snapshot, and whose log is empty. It is for reading alone: a write fails and leaves
/// it as it is, and nothing needs to be renewed.
#[derive(Drop)]
pub struct SnapshotDisk<'a> {
    pages: &'a [u8],
    faults: u64,
    reads: u64,
    ghost are_bytes: { AreBytes pages.now },
}

impl<'a> SnapshotDisk<'a> {
    /// The disk with these pages.
    pub fn new(pages: &'a [u8]) -> SnapshotDisk<'a>
        ensures { result.pages.now ≡ pages.now }
    {
        SnapshotDisk {
            pages,
            faults: 0,
            reads: 0,
        }
    }
}

impl<'a> Disk for SnapshotDisk<'a> {
    ghost contents = { λ disk. Some (pages_alone disk.pages.now) };

    ghost may_leave = { λ disk i. i ≡ pages_alone disk.pages.now };

    ghost beside = { λ _. nothing_beside };

    ghost moment = { λ _. 0 };

    ghost stood_since = { λ disk t s. AlwaysStood (pages_alone disk.pages.now) s };

    ghost faults = { λ disk. disk.faults };

    ghost reads = { λ disk. disk.reads };

    ghost renewed = { λ _. None };

    ghost contents_may_stay = { λ disk i is. seen_contents (pages_alone disk.pages.now) i is };

    ghost told_before = { λ disk t s le since is_told. seen_told (pages_alone disk.pages.now) s since };

    ghost stands_now = { λ disk t i le left. (refl, left) };

    ghost only_now = { λ disk s since. since };

    ghost since_earlier = { λ disk t u s le now since. since };

    ghost some_image = { λ disk. (pages_alone disk.pages.now, refl) };

    ghost images_hold_bytes = { λ disk i left. seen_bytes (pages_alone disk.pages.now) i (record { pages = disk.are_bytes; log = none_are_bytes }) left };

    ghost past_holds_bytes = { λ disk t s le since. seen_bytes (pages_alone disk.pages.now) s.image (record { pages = disk.are_bytes; log = none_are_bytes }) since.1 };

    ghost input_is_bytes = { λ disk input is. no_bytes_seen input is };

    fn length(&mut self, area: Area) -> Result<u64, Failed> {
        match area {
            Area::Pages => Ok(self.pages.len() as u64),
            Area::Log => Ok(0),
        }
    }

    fn read(&mut self, area: Area, at: u64, into: &mut [u8]) -> Result<usize, Failed> {
        self.reads = self.reads.saturating_add(1);
        match area {
            Area::Pages => Ok(copy_from(self.pages, at, into)),
            Area::Log => Ok(0),
        }
    }

    fn write_at(&mut self, _area: Area, _at: u64, _bytes: &[u8]) -> Result<(), Failed> {
        self.faults = self.faults.saturating_add(1);
        Err(Failed)
    }

    fn sync(&mut self, _area: Area) -> Result<(), Failed> {
        Ok(())
    }

    fn renew(&mut self, _area: Area, _at: u64) -> Result<(), Failed> {
        Ok(())
    }
}

// Fills the slice from this offset of the bytes on, and gives how many it wrote there.
fn copy_from(bytes: &[u8], at: u64, into: &mut [u8]) -> usize
    ensures count { result ≡ length (given_at at (length into.old) bytes.now) }
    ensures bytes { take result into.new ≡ given_at at (length into.old) bytes.now }
{
    let from = at.min(bytes.len() as u64) as usize;
    let n = into.len().min(bytes.len() - from);
    into[..n].copy_from_slice(&bytes[from..from + n]);
    n
}
