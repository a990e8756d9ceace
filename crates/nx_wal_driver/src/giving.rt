// The lines that the commands give, each at once.
ghost use Rattle.std.specs.Prelude.{◌≡◌, IfErr, OnErr, OnOk, string_bytes};
ghost use Rattle.nx_host.specs.Disk.{Keeps, Rose};
ghost use Rattle.nx_host.specs.Host.{Appends};
ghost use Rattle.nx_host.specs.Time.{Elapses};
ghost use Rattle.nx_wal_driver.specs.Fault.{FaultCountsGrow};
ghost use Rattle.nx_wal_driver.specs.declared.faults.Fault.TheVariants.{Write};

use crate::faults::Fault;
use nx_host::{Disk, Host};

// Gives a line.
pub fn give<H: Host>(host: &mut H, line: &String) -> Result<(), Fault>
    ensures given { OnOk result (Appends (string_bytes line.now) (H.beside host.old).output (H.beside host.new).output) }
    ensures images { Elapses H.moment H.stood_since host.old host.new (λ s. H.may_leave host.old s.image) }
    ensures contents { Keeps (H.contents host.old) (H.contents host.new) }
    ensures grow { FaultCountsGrow ⟦<H as Disk>⟧ host.old host.new }
    ensures cause { OnErr result (Rose (H.beside host.old).out_faults (H.beside host.new).out_faults) }
    ensures fault { IfErr result (λ fault. fault ≡ Write) }
{
    match host.emit(line.as_str().as_bytes()) {
        Ok(()) => Ok(()),
        Err(_) => Err(Fault::Write),
    }
}
