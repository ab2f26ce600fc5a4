//! A batch for which a node is started and closed.

ghost use Rattle.std.specs.Prelude.{◌≡◌, ◌||◌, true, is_some, Some, [], length, ◌<◌, ◌≤◌, IsFalse, IfSome};
ghost use Rattle.uuid.specs.Parts.{is_nil_bytes};
ghost use Rattle.rep_types.specs.declared.refusal.Refusal.TheVariants.{Stopped as is_stopped};
ghost use Rattle.rep_replica.specs.Replicas.{facts_of};
ghost use Rattle.rep_replica.specs.Settling.{is_quiet, IsRunning};
ghost use Rattle.rep_node.specs.Batches.{AreLetOn};
ghost use Rattle.rep_node.specs.Served.{EndedFor, IsServed};

use crate::batch::Batch;
use crate::node::Node;
use crate::pace::Pace;
use rep_disk::Disk;
use rep_replica::Replica;
use rep_stations::{histories_extend_the_order, histories_lie_between_replicas};
use rep_types::{Item, Refusal};
use std::alloc::Global;
use std::sync::Wait;
use std::thread::Threads;

/// Starts a node from a replica that has nothing left to do and belongs to a cluster, hands a batch in by so many workers, 1 to 64, which make
/// its items durable, and closes the node. The replica comes back beside what came of the batch.
///
/// The history of the node is legal behind what the replica held, and each receipt is of an item of it. Where the batch has no end, the
/// history is the batch's items in the order of the receipts, which is that of the seqnos. Unless it was stopped, the replica stands for its order with the history
/// at its end; and stopped or not, each image that a crash may leave of its device stands for a front of that order with all receipts.
///
/// The end is `Stopped` where the replica was stopped, or the node was halted, as it is where the device fails or the pace says no: then
/// the replica is stopped. It is `Exhausted` where there are no more seqnos than items left, and `OutOfMemory` where a growth was
/// refused before anything was handed in: then the history is empty. It is not promised that it returns.
pub fn serve_batch<D: Disk + Send, R: Threads + Wait + Sync, P: Pace + Sync>(
    rt: &R,
    alloc: Global,
    replica: Replica<D>,
    items: &[Item],
    workers: usize,
    pace: &P,
) -> (Replica<D>, Batch)
    requires quiet { is_quiet (facts_of D.Disk replica) ≡ true }
    requires defined { IsFalse (is_nil_bytes replica.engine.checkpoint.base.uuid) }
    requires workers { (0 < workers) × (workers ≤ 64) }
    ensures stopped { (replica.stopped || is_some replica.engine.halted) ≡ true → (result.0 ≡ replica) × (result.1.receipts.items ≡ []) × (result.1.end ≡ Some is_stopped) }
    ensures served { IsRunning replica → IsServed D.Disk replica items.now result.0 result.1.receipts.items result.1.end }
    ensures paced { AreLetOn (P.lets pace.now) result.1.receipts.items }
    ensures ended { IfSome result.1.end (EndedFor replica (length items.now) result.0 result.1.receipts.items) }
{
    histories_lie_between_replicas::<D>();
    histories_extend_the_order::<D>();
    if replica.is_stopped() {
        return (replica, Batch::refused(alloc, Refusal::Stopped));
    }
    // Tells the proof what holds of the replica.
    let _position = replica.durable();
    let (node, mut seat, _readers) = match Node::start(alloc, rt, replica, 1) {
        Ok(made) => made,
        Err((replica, refusal)) => return (replica, Batch::refused(alloc, refusal)),
    };
    let batch = node.serve(rt, alloc, &mut seat, items, workers, pace);
    (node.close(rt, seat), batch)
}
