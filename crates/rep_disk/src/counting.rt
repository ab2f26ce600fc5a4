//! How failures are counted.
ghost use Rattle.std.specs.Prelude.{◌≡◌, IsOk, IsErr, is_ok};
ghost use Rattle.rep_disk.specs.Calls.{Rises};

use crate::DiskFault;

/// Counts a failure, and answers it.
pub(crate) fn counted<E: Drop>(outcome: Result<(), E>, failures: &mut u64) -> Result<(), DiskFault>
    ensures answer { is_ok result ≡ is_ok outcome }
    ensures none { IsOk result → failures.new ≡ failures.old }
    ensures one { IsErr result → Rises failures.old failures.new }
{
    if outcome.is_err() {
        *failures = failures.saturating_add(1);
        return Err(DiskFault);
    }
    Ok(())
}
