//! The law of the files that a log leaves, as the contract of a function that does nothing.
ghost use Rattle.nx_host.specs.Disk.{no_bytes};
ghost use Rattle.nx_wal.specs.Own.{IsOwn};

/// A disk without a byte is as this program leaves one.
pub fn nothing_is_own()
    ensures { IsOwn no_bytes }
{}
