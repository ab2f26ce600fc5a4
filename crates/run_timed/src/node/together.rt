//! Two batches that go to one node at once: one is served by workers that make items durable themselves, and one is submitted by workers that
//! leave that to others.

ghost use Rattle.std.specs.Prelude.{◌≡◌, ◌<◌, ◌≤◌, true, IfOk, IsFalse};
ghost use Rattle.std.specs.Thread.{IsSync};
ghost use Rattle.uuid.specs.Parts.{is_nil_bytes};
ghost use Rattle.rep_replica.specs.Replicas.{facts_of};
ghost use Rattle.rep_replica.specs.Settling.{is_quiet};
ghost use Rattle.rep_ordered.specs.Going.{Goes};

use crate::node::items::batch;
use crate::node::serving::{AtOnce, let_go, new_replica, settle, started};
use crate::words::number;
use anyhow::{Result, bail};
use rep_disk::{Disk, MemDisk};
use rep_layout::need;
use rep_node::{Node, Seat};
use rep_replica::Replica;
use rep_types::{Item, Params, Refusal};
use std::alloc::Global;
use std::env::Args;
use std::sync::Wait;
use std::thread::{Threads, join_mut};

/// The most workers of a batch.
const MOST_WORKERS: usize = 64;

/// The most items of a batch: the log has a cell for each item of both, so that it is never full.
const MOST_ITEMS: usize = 60;

/// A window of 256 seqnos, a log of 128 cells, and one table of 63 rows.
fn small() -> Result<Params, Refusal> {
    Params::new(256, 128, &[63])
}

/// How many workers hand in how many items, of each of the two batches.
#[derive(Clone, Copy)]
struct Counts {
    workers: usize,
    items: usize,
}

/// The next two words, which are the number of workers, from 1 to 64, and the number of items, at most 60.
fn read_counts(words: &mut Args) -> Result<Counts>
    ensures { IfOk result (λ counts. (0 < counts.workers) × (counts.workers ≤ 64)) }
{
    let workers = number(words, "no number of workers")?;
    let items = number(words, "no number of items")?;
    if workers == 0 || workers > MOST_WORKERS || items > MOST_ITEMS {
        bail!("there are 1 to {MOST_WORKERS} workers, and at most {MOST_ITEMS} items");
    }
    Ok(Counts { workers, items })
}

/// Serves the items, and then makes items durable until so many are: those who submit the other batch wait for that.
fn serve_then_keep<R: Threads + Wait + Sync, D: Disk + Send>(
    rt: &R,
    alloc: Global,
    node: &Node<D>,
    seat: &mut Seat<D>,
    items: &[Item],
    workers: usize,
) -> Result<(), Refusal>
    requires lock { seat.old.lock ≡ node.now }
    requires workers { (0 < workers) × (workers ≤ 64) }
    ensures lock { seat.new.lock ≡ seat.old.lock }
    ensures goes { Goes seat.old.view seat.new.view }
{
    let served = node.serve(rt, alloc, seat, items, workers, &AtOnce);
    if let Some(refusal) = served.end {
        return Err(refusal);
    }
    let both = items.len().saturating_mul(2);
    node.keep(rt, seat, both as u64)?;
    Ok(())
}

/// Serves the items, and keeps for those who submit them beside. Where that is refused, the node is halted, so that nobody waits for it.
fn serve_or_halt<R: Threads + Wait + Sync, D: Disk + Send>(
    rt: &R,
    alloc: Global,
    node: &Node<D>,
    seat: &mut Seat<D>,
    items: &[Item],
    workers: usize,
) -> Result<(), Refusal>
    requires lock { seat.old.lock ≡ node.now }
    requires workers { (0 < workers) × (workers ≤ 64) }
    ensures lock { seat.new.lock ≡ seat.old.lock }
    ensures goes { Goes seat.old.view seat.new.view }
{
    let done = serve_then_keep(rt, alloc, node, seat, items, workers);
    if done.is_err() {
        node.halt(seat);
    }
    done
}

/// Submits the items. Where that is refused, the node is halted, so that nobody waits for them.
fn submit_or_halt<R: Threads + Wait + Sync, D: Disk + Send>(
    rt: &R,
    alloc: Global,
    node: &Node<D>,
    seat: &mut Seat<D>,
    items: &[Item],
    workers: usize,
) -> Result<(), Refusal>
    requires lock { seat.old.lock ≡ node.now }
    requires workers { (0 < workers) × (workers ≤ 64) }
    ensures lock { seat.new.lock ≡ seat.old.lock }
    ensures goes { Goes seat.old.view seat.new.view }
{
    let submitted = node.submit_batch(rt, alloc, seat, items, workers, &AtOnce);
    match submitted.end {
        Some(refusal) => {
            node.halt(seat);
            Err(refusal)
        }
        None => Ok(()),
    }
}

/// Serves the items by the one seat, and in a thread beside submits the same by the other seat.
// What is only read has one lifetime: with several, the borrow checker does not cover the call with both closures.
fn both<'a, R: Threads + Wait + Sync, D: Disk + Send>(
    rt: &'a R,
    alloc: Global,
    node: &'a Node<D>,
    items: &'a [Item],
    workers: usize,
    seat: &mut Seat<D>,
    other: &mut Seat<D>,
) -> Result<(), Refusal>
    requires lock { (seat.old.lock ≡ node.now) × (other.old.lock ≡ node.now) }
    requires workers { (0 < workers) × (workers ≤ 64) }
    ensures lock { (seat.new.lock ≡ seat.old.lock) × (other.new.lock ≡ other.old.lock) }
    ensures goes { Goes seat.old.view seat.new.view × Goes other.old.view other.new.view }
{
    let mut submit = || -> Result<(), Refusal>
        requires { IsSync R.row × (other.now.lock ≡ node.now) × (0 < workers) × (workers ≤ 64) }
        ensures { (other.exit.now.lock ≡ other.entry.now.lock) × Goes other.entry.now.view other.exit.now.view }
    { submit_or_halt(rt, alloc, node, other, items, workers) };
    let mut serve = || -> Result<(), Refusal>
        requires { IsSync R.row × (seat.now.lock ≡ node.now) × (0 < workers) × (workers ≤ 64) }
        ensures { (seat.exit.now.lock ≡ seat.entry.now.lock) × Goes seat.entry.now.view seat.exit.now.view }
    { serve_or_halt(rt, alloc, node, seat, items, workers) };
    let (submitted, served) = join_mut(rt, &mut submit, &mut serve);
    served?;
    submitted
}

/// Hands in both batches at a node that is started from a replica which has nothing left to do and belongs to a cluster. It says how many items
/// are durable then.
///
/// Refuses as `Node::start` does, and with `Undefined` a replica that is not new.
fn hand_in<R: Threads + Wait + Sync, D: Disk + Drop + Send>(
    rt: &R,
    alloc: Global,
    replica: Replica<D>,
    items: &[Item],
    workers: usize,
) -> Result<u64, Refusal>
    requires quiet { is_quiet (facts_of D.Disk replica) ≡ true }
    requires defined { IsFalse (is_nil_bytes replica.engine.checkpoint.base.uuid) }
    requires workers { (0 < workers) × (workers ≤ 64) }
{
    if replica.durable() > 0 {
        let_go(replica);
        return Err(Refusal::Undefined);
    }
    let (node, mut seat, _readers) = started(rt, alloc, replica, 1)?;
    let mut other = node.split(&mut seat, MOST_ITEMS as u64 + 1);
    let done = both(rt, alloc, &node, items, workers, &mut seat, &mut other);
    node.join(&mut seat, other);
    let replica = node.close(rt, seat);
    let durable = replica.durable();
    let_go(replica);
    done?;
    Ok(durable)
}

/// Hands in both batches, of these items each, at a node on a new disk in memory.
fn hand_in_anew<R: Threads + Wait + Sync>(
    rt: &R,
    alloc: Global,
    items: &[Item],
    workers: usize,
) -> Result<u64, Refusal>
    requires workers { (0 < workers) × (workers ≤ 64) }
{
    let params = small()?;
    let disk = MemDisk::new(alloc, need(&params) as usize)?;
    let mut replica = new_replica(alloc, disk, &params)?;
    match settle(&mut replica) {
        Ok(()) => hand_in(rt, alloc, replica, items, workers),
        Err(refusal) => {
            let_go(replica);
            Err(refusal)
        }
    }
}

/// The words are the number of workers of each batch, from 1 to 64, and the number of its items, at most 60. It prints how many items are
/// durable.
pub(crate) fn run<R: Print + AllocGlobal + Threads + Wait + Sync>(
    rt: &R,
    words: &mut Args,
) -> Result<()> {
    let counts = read_counts(words)?;
    let items = batch(rt.alloc(), counts.items, counts.workers)?;
    let durable = hand_in_anew(rt, rt.alloc(), &items, counts.workers)?;
    rt.println(format_args!("{durable} durable"))?;
    Ok(())
}
