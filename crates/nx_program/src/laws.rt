//! What ties the files that a log leaves to those that opening takes, as the contract of a function that does nothing.
ghost use Rattle.std.specs.Prelude.{length, slice_get};
ghost use Rattle.nx_host.specs.Disk.{Image};
ghost use Rattle.nx_wal.specs.Own.{IsOwn};
ghost use Rattle.nx_files.specs.Own.{MayBeOwn};

/// Files that are as this program leaves them are never refused as somebody else's.
pub fn own_files_are_taken()
    ensures { (image : Image) → IsOwn image → MayBeOwn (length image.pages) (slice_get image.log 0) }
{}
