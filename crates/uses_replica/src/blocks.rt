//! A third client: all that was delivered is made durable, a block after another.

ghost use Rattle.std.specs.Prelude.{◌≡◌, ◌||◌, ◌⊎◌, false, is_some, IfErr};
ghost use Rattle.rep_replica.specs.Settling.{EndsEarly};
ghost use Rattle.uses_replica.specs.Committing.{Committed};

use rep_disk::Disk;
use rep_replica::{Replica, runs_are_joined};
use rep_types::Refusal;

/// Makes all that was delivered durable, a block after another, with at most so many pages of the checkpoint under way
/// beside each. Gives how many items became durable and were replied to, also behind a refusal, which is that of `commit_block`.
pub fn commit<D: Disk>(replica: &mut Replica<D>, pages: u64) -> (u64, Result<(), Refusal>)
    ensures committed { (replica.old.stopped || is_some replica.old.engine.halted) ≡ false → Committed D.Disk replica.old replica.new result.0 result.1 }
    ensures refused { IfErr result.1 (λ e. (e ≡ Refusal.Stopped) ⊎ EndsEarly e) }
{
    runs_are_joined::<D>();
    if replica.is_stopped() {
        return (0, Err(Refusal::Stopped));
    }
    let first = replica.durable();
    while replica.durable() < replica.delivered() {
        if let Err(refusal) = replica.commit_block(pages) {
            return (replica.durable() - first, Err(refusal));
        }
    }
    (replica.durable() - first, Ok(()))
}
