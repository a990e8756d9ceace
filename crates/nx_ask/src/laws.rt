//! The law of snapshots.
ghost use Rattle.nx_ask.specs.Laws.{KeepsState};

/// A state hangs on the pages below the header's number alone: a snapshot of an image that stands for one stands for it too.
pub fn snapshot_keeps_state()
    ensures { KeepsState }
{}
