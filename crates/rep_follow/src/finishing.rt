//! How a node that follows an order ends.

ghost use Rattle.std.specs.Prelude.{◌≡◌, ◌⊎◌, ◌||◌, true, false, is_some, Err, IfErr, OnOk};
ghost use Rattle.rep_streams.specs.Streams.{Notes};
ghost use Rattle.rep_replica.specs.Replicas.{facts_of};
ghost use Rattle.rep_replica.specs.Settling.{is_quiet, Works};
ghost use Rattle.rep_follow.specs.Counting.{HasSettled};
ghost use Rattle.rep_follow.specs.Committing.{IsHeldUp, TellsAll};
ghost use Rattle.rep_follow.specs.Finishing.{TellsAndSettles, WaitsOrRests};

use crate::blocks::commit_all;
use crate::counts::Counts;
use rep_disk::Disk;
use rep_replica::Replica;
use rep_streams::Sink;
use rep_types::Refusal;

/// Takes the steps that are due, until all that was delivered is durable and no checkpoint is under way, and counts the checkpoint that ended.
fn settle<D: Disk>(replica: &mut Replica<D>, counts: &mut Counts) -> Result<(), Refusal>
    requires running { (replica.old.stopped || is_some replica.old.engine.halted) ≡ false }
    ensures works { Works D.Disk replica.old replica.new result }
    ensures quiet { OnOk result (is_quiet (facts_of D.Disk replica.new) ≡ true) }
    ensures counted { HasSettled D.Disk replica.old replica.new counts.old counts.new }
    ensures refused { IfErr result (IsHeldUp D.Disk replica.new) }
{
    let base = replica.base();
    let ended = replica.settle();
    counts.count_checkpoint(base < replica.base());
    ended
}

/// Makes all that was delivered durable and tells it, as `commit` does, and then ends the checkpoint that is under way, where one is. Where nothing
/// waits, none begins.
///
/// Refuses as `commit` does, and where a step of the checkpoint is refused as `Replica::settle` says: all is durable and told then.
pub fn finish<D: Disk, W: Sink>(
    replica: &mut Replica<D>,
    counts: &mut Counts,
    writer: &mut W,
) -> Result<(), Refusal>
    ensures settles { TellsAndSettles D.Disk replica.old replica.new counts.old (W.contents writer.old) (W.contents writer.new) result }
    // So all is told and counted, as `commit` does it.
    ensures tells { WaitsOrRests D.Disk replica.old → TellsAll D.Disk replica.old replica.new counts.old counts.new (W.contents writer.old) (W.contents writer.new) result }
    ensures quiet { OnOk result (is_quiet (facts_of D.Disk replica.new) ≡ true) }
    ensures notes { Notes (W.failed writer.old) (W.failed writer.new) result }
    ensures refused { IfErr result (λ e. (e ≡ Refusal.StreamFault) ⊎ IsHeldUp D.Disk replica.new e) }
    // Where it is stopped, nothing changes.
    ensures stopped { (replica.old.stopped || is_some replica.old.engine.halted) ≡ true → (result ≡ Err Refusal.Stopped) × (replica.new ≡ replica.old) }
{
    counts.limits();
    if replica.is_stopped() {
        return Err(Refusal::Stopped);
    }
    match commit_all(replica, counts, writer) {
        Ok(()) => settle(replica, counts),
        Err(refusal) => Err(refusal),
    }
}
