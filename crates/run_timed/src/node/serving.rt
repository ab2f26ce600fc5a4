//! A node that serves the batch, with readers beside.

ghost use Rattle.std.specs.Prelude.{◌≡◌, ◌-◌, ◌<◌, ◌≤◌, true, IfOk, IsFalse, OnOk};
ghost use Rattle.uuid.specs.Parts.{is_nil_bytes};
ghost use Rattle.rep_types.specs.declared.limits.TheConstants.{MAX_SEQNO};
ghost use Rattle.rep_replica.specs.Engines.{durable_of};
ghost use Rattle.rep_replica.specs.Replicas.{facts_of};
ghost use Rattle.rep_replica.specs.Settling.{is_quiet};
ghost use Rattle.rep_ordered.specs.Views.{HasAll};

use crate::node::items::params;
use crate::node::readers::{Tally, Watchers};
use rep_disk::Disk;
use rep_node::{Node, NodeReader, Pace, Point, Seat};
use rep_recover::format_disk;
use rep_replica::Replica;
use rep_types::{Item, Params, Refusal};
use std::alloc::Global;
use std::sync::Wait;
use std::thread::Threads;
use std::time::{Clock, Duration, Instant};
use uuid::Uuid;

/// Workers go on at once.
pub(crate) struct AtOnce;

impl Pace for AtOnce {
    ghost lets = { λ pace point seqno. Unit {0} };

    fn at(&self, _point: Point, _seqno: u64) -> bool {
        true
    }
}

/// What came of the batch, and of the look-ups beside it.
#[derive(Clone, Copy)]
pub(crate) struct Outcome {
    /// Why the batch ended before all of it was durable, if it did.
    pub(crate) end: Option<Refusal>,
    /// What the readers found.
    pub(crate) tally: Tally,
    /// How long the batch took, where the clock told.
    pub(crate) took: Option<Duration>,
}

/// How long it is between two moments.
fn between(began: Option<Instant>, ended: Option<Instant>) -> Option<Duration> {
    Some(ended?.duration_since(began?))
}

/// The replica on a disk that is formatted first, with these parameters.
pub(crate) fn new_replica<D: Disk + Drop>(
    alloc: Global,
    disk: D,
    params: &Params,
) -> Result<Replica<D>, Refusal> {
    let (disk, formatted) = format_disk(disk, params, Some(Uuid::from_bytes([0x11; 16])));
    formatted?;
    match Replica::open(alloc, disk) {
        Ok(replica) => Ok(replica),
        Err((_, refusal)) => Err(refusal),
    }
}

/// Lets a replica go. It is taken apart for that: each place where a whole one goes by itself is dear to prove.
pub(crate) fn let_go<D: Disk + Drop>(replica: Replica<D>) {
    let _disk = replica.into_disk();
}

/// Brings the replica to where it has nothing left to do.
///
/// Refuses as `Replica::settle` does, and with `Undefined` where the replica belongs to no cluster.
pub(crate) fn settle<D: Disk>(replica: &mut Replica<D>) -> Result<(), Refusal>
    ensures quiet { OnOk result (is_quiet (facts_of D.Disk replica.new) ≡ true) }
    ensures defined { OnOk result (IsFalse (is_nil_bytes replica.new.engine.checkpoint.base.uuid)) }
{
    replica.settle()?;
    if replica.uuid().is_nil() {
        return Err(Refusal::Undefined);
    }
    Ok(())
}

/// A node with its first seat and its readers.
pub(crate) type Started<D> = (Node<D>, Seat<D>, Vec<NodeReader>);

/// Starts a node, with so many readers, from a replica that has nothing left to do and belongs to a cluster.
///
/// Refuses as `Node::start` does.
pub(crate) fn started<R: Wait, D: Disk + Drop>(
    rt: &R,
    alloc: Global,
    replica: Replica<D>,
    readers: usize,
) -> Result<Started<D>, Refusal>
    requires quiet { is_quiet (facts_of D.Disk replica) ≡ true }
    requires defined { IsFalse (is_nil_bytes replica.engine.checkpoint.base.uuid) }
    requires readers { (0 < readers) × (readers ≤ 64) }
    ensures lock { IfOk result (λ made. made.1.lock ≡ made.0) }
    ensures all { IfOk result (λ made. HasAll made.1.view) }
    ensures allowance { IfOk result (λ made. made.1.view.allowance ≡ MAX_SEQNO - durable_of replica.engine.log) }
{
    match Node::start(alloc, rt, replica, readers) {
        Ok(made) => Ok(made),
        Err((replica, refusal)) => {
            let_go(replica);
            Err(refusal)
        }
    }
}

/// Serves the batch at the node, with the watchers beside.
fn serve_watched<R: Clock + Threads + Wait + Sync, D: Disk + Send>(
    rt: &R,
    alloc: Global,
    node: &Node<D>,
    seat: &mut Seat<D>,
    items: &[Item],
    workers: usize,
    watchers: &mut Watchers,
) -> Outcome
    requires lock { seat.old.lock ≡ node.now }
    requires workers { (0 < workers) × (workers ≤ 64) }
    ensures lock { seat.new.lock ≡ seat.old.lock }
    ensures all { HasAll seat.old.view → HasAll seat.new.view }
{
    let began = Instant::now(rt).ok();
    let batch = node.serve(rt, alloc, seat, items, workers, &AtOnce);
    let ended = Instant::now(rt).ok();
    Outcome {
        end: batch.end,
        tally: watchers.end(rt),
        took: between(began, ended),
    }
}

/// Serves the batch at a node that is started from a replica which has nothing left to do and belongs to a cluster, with so many readers
/// beside. It says how many items are durable then.
fn serve_settled<R: Clock + Threads + Wait + Sync, D: Disk + Drop + Send>(
    rt: &R,
    alloc: Global,
    replica: Replica<D>,
    items: &[Item],
    workers: usize,
    readers: usize,
    watchers: &mut Watchers,
) -> Result<(u64, Outcome), Refusal>
    requires quiet { is_quiet (facts_of D.Disk replica) ≡ true }
    requires defined { IsFalse (is_nil_bytes replica.engine.checkpoint.base.uuid) }
    requires workers { (0 < workers) × (workers ≤ 64) }
    requires readers { readers ≤ 64 }
{
    let (node, mut seat, watching) = started(rt, alloc, replica, readers.max(1))?;
    watchers.start(rt, watching, readers);
    let came = serve_watched(rt, alloc, &node, &mut seat, items, workers, watchers);
    let replica = node.close(rt, seat);
    let durable = replica.durable();
    let_go(replica);
    Ok((durable, came))
}

/// Serves the batch at a node on a disk that is formatted first, by so many workers, 1 to 64, with so many readers beside, at most 64. It
/// says how many items are durable then.
///
/// Refuses as `format_disk`, `Replica::open`, `Replica::settle` and `Node::start` do.
pub(crate) fn serve_on<R: Clock + Threads + Wait + Sync, D: Disk + Drop + Send>(
    rt: &R,
    alloc: Global,
    disk: D,
    items: &[Item],
    workers: usize,
    readers: usize,
    watchers: &mut Watchers,
) -> Result<(u64, Outcome), Refusal>
    requires workers { (0 < workers) × (workers ≤ 64) }
    requires readers { readers ≤ 64 }
{
    let mut replica = new_replica(alloc, disk, &params()?)?;
    match settle(&mut replica) {
        Ok(()) => serve_settled(rt, alloc, replica, items, workers, readers, watchers),
        Err(refusal) => {
            let_go(replica);
            Err(refusal)
        }
    }
}
