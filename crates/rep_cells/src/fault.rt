//! What a device answers, as a refusal.

ghost use Rattle.std.specs.Prelude.{◌≡◌, IfErr};
ghost use Rattle.rep_cells.specs.Faults.{fault_of};

use rep_disk::DiskFault;
use rep_layout::Refusal;

/// What the device answered, as a refusal: `DiskFault` where it failed, and no other.
pub fn refusal_of(answer: Result<(), DiskFault>) -> Result<(), Refusal>
    ensures fault { fault_of result ≡ answer }
    ensures only { IfErr result (λ e. e ≡ Refusal.DiskFault) }
{
    match answer {
        Ok(()) => Ok(()),
        Err(DiskFault) => Err(Refusal::DiskFault),
    }
}
