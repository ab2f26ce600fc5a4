//! The items of the order are taken.

ghost use Rattle.std.specs.Prelude.{◌≡◌, ◌≢◌, ◌<◌, ◌||◌, [], true, false, is_some, length, ℕ, List, Option, None, Some, MatchResult, IfErr};
ghost use Rattle.rep_streams.specs.Streams.{Notes};
ghost use Rattle.rep_steps.specs.Standings.{refusal};
ghost use Rattle.rep_steps.specs.Events.{delivery};
ghost use Rattle.rep_replica.specs.Replicas.{facts_of};
ghost use Rattle.rep_follow.specs.Committing.{Goes};
ghost use Rattle.rep_follow.specs.Taking.{taken_by, Delivers, IsNotTaken, is_backlogged, TakesItem};

use crate::blocks::{commit_and_begin, outcome};
use crate::counts::Counts;
use rep_disk::Disk;
use rep_replica::{Replica, runs_are_joined};
use rep_streams::Sink;
use rep_types::{Item, MAX_AHEAD, Refusal};

/// Delivers the item with this seqno of the order.
///
/// Refuses, in this order, with `Stopped`; with `Undefined` where the node belongs to no cluster; with `Exhausted` where no seqno is left; with
/// `OutOfOrder` where the seqno is not the next one; and with `Backlogged` where 256 items are delivered and not durable. Nothing changes
/// then.
pub fn deliver<D: Disk>(replica: &mut Replica<D>, seqno: u64, item: &Item) -> Result<(), Refusal>
    ensures delivers { Delivers D.Disk replica.old replica.new item.now result }
    // No item is refused as a stream that has failed.
    ensures own { IfErr result (λ e. e ≢ Refusal.StreamFault) }
    // The first refusal that applies is the answer, and where none does, it is taken.
    ensures exact { MatchResult result (λ _. refusal (facts_of D.Disk replica.old) (delivery seqno item.now) ≡ None) (λ e. refusal (facts_of D.Disk replica.old) (delivery seqno item.now) ≡ Some e) }
{
    runs_are_joined::<D>();
    outcome(replica.deliver(seqno, item))
}

/// Whether as many items are delivered and not durable as may be, at a replica that runs.
fn is_backlogged<D: Disk>(replica: &Replica<D>) -> bool
    ensures { result ≡ is_backlogged (facts_of D.Disk replica.now) }
{
    if replica.is_stopped() {
        return false;
    }
    replica.delivered().saturating_sub(replica.durable()) >= MAX_AHEAD
}

/// Delivers the item with this seqno of the order, and counts it where it is taken.
///
/// Refuses as `deliver` does.
fn deliver_counted<D: Disk>(
    replica: &mut Replica<D>,
    counts: &mut Counts,
    seqno: u64,
    item: &Item,
) -> Result<(), Refusal>
    ensures goes { (text : Option (List ℕ)) → Goes D.Disk replica.old replica.new (taken_by item.now result) [] counts.old counts.new text text result }
    ensures delivers { Delivers D.Disk replica.old replica.new item.now result }
    ensures own { IfErr result (λ e. e ≢ Refusal.StreamFault) }
    ensures refused { IfErr result (λ e. refusal (facts_of D.Disk replica.new) (delivery seqno item.now) ≡ Some e) }
{
    counts.limits();
    let more = Counts::of_item();
    match deliver(replica, seqno, item) {
        Ok(()) => {
            counts.rise(&more);
            Ok(())
        }
        Err(refusal) => Err(refusal),
    }
}

/// Takes the item with this seqno of the order, and counts it, its text aside: where 256 items are delivered and not durable, a block of them is made durable
/// first, and told, and a checkpoint begins after it, where one is due.
///
/// Refuses as `commit` does where a block comes first, and else as `deliver` does. The item is not taken then.
pub fn take<D: Disk, W: Sink>(
    replica: &mut Replica<D>,
    counts: &mut Counts,
    writer: &mut W,
    seqno: u64,
    item: &Item,
) -> Result<(), Refusal>
    ensures goes { Goes D.Disk replica.old replica.new (taken_by item.now result) [] counts.old counts.new (W.contents writer.old) (W.contents writer.new) result }
    ensures takes { TakesItem D.Disk item.now replica.old replica.new counts.old (W.contents writer.old) (W.contents writer.new) result }
    ensures notes { Notes (W.failed writer.old) (W.failed writer.new) result }
    ensures refused { IfErr result (IsNotTaken D.Disk replica.new seqno item.now) }
{
    if !is_backlogged(replica) {
        return deliver_counted(replica, counts, seqno, item);
    }
    match commit_and_begin(replica, counts, writer) {
        Ok(()) => deliver_counted(replica, counts, seqno, item),
        Err(refusal) => Err(refusal),
    }
}
