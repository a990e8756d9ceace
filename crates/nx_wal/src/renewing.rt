// Renewing the byte of a log that a session builds on.
ghost use Rattle.std.specs.Prelude.{◌≡◌, ◌<◌, ℕ, Some, OnOk, OnErr};
ghost use Rattle.nx_host.specs.Disk.{Image, Rose, IsRenewedLast};
ghost use Rattle.nx_host.specs.declared.disk.Area.TheVariants.{Log};
ghost use Rattle.nx_host.specs.Still.{IsStill};
ghost use Rattle.nx_replay.specs.Log.{groups};
ghost use Rattle.nx_wal.specs.Places.{starts_from};
ghost use Rattle.nx_wal.specs.Renewing.{first_byte, last_gate};

use crate::reading::log_limit;
use nx_host::{Area, Disk, Failed};

// Gives a byte of the log to the disk once more.
fn renew_byte<D: Disk>(disk: &mut D, at: u64) -> Result<(), Failed>
    ensures still { IsStill D.Disk disk.old disk.new }
    ensures reads { D.reads disk.new ≡ D.reads disk.old }
    ensures renewed { OnOk result (IsRenewedLast Log at (D.renewed disk.new)) }
    ensures cause { OnErr result (Rose (D.faults disk.old) (D.faults disk.new)) }
{
    disk.renew(Area::Log, at)
}

// Renews the log's first byte, where there is one.
fn renew_first<D: Disk>(disk: &mut D) -> Result<(), Failed>
    ensures still { IsStill D.Disk disk.old disk.new }
    ensures reads { D.reads disk.new ≡ D.reads disk.old }
    ensures renewed { OnOk result ((was : Image) (at : ℕ) → D.contents disk.old ≡ Some was → first_byte was.log ≡ Some at → IsRenewedLast Log at (D.renewed disk.new)) }
    ensures cause { OnErr result (Rose (D.faults disk.old) (D.faults disk.new)) }
{
    let limit = log_limit(disk)?;
    if limit == 0 {
        return Ok(());
    }
    renew_byte(disk, 0)
}

// Renews the gate of the last group, else the log's first byte, where there is one.
pub(crate) fn renew_gate<D: Disk>(disk: &mut D, starts: &[u64]) -> Result<(), Failed>
    ensures still { IsStill D.Disk disk.old disk.new }
    ensures reads { D.reads disk.new ≡ D.reads disk.old }
    ensures renewed { OnOk result ((was : Image) (at : ℕ) → D.contents disk.old ≡ Some was → starts.now ≡ starts_from 0 (groups was.log) → last_gate was.log ≡ Some at
        → IsRenewedLast Log at (D.renewed disk.new)) }
    ensures cause { OnErr result (Rose (D.faults disk.old) (D.faults disk.new)) }
{
    match starts.last() {
        Some(at) => renew_byte(disk, *at),
        None => renew_first(disk),
    }
}
