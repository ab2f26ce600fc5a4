//! Two workers hand in two items, while in a thread beside them a seat that was split off makes the items durable, or halts the node.

ghost use Rattle.std.specs.Prelude.{◌≡◌};
ghost use Rattle.std.specs.Thread.{IsSync};
ghost use Rattle.rep_ordered.specs.Going.{Goes};
ghost use Rattle.test_node.specs.Running.{HasReader};

use super::batches::{CALLS, failing, told_of};
use super::paces::Queueing;
use super::replicas::{
    Failing, Found, OTHER, ROW, durable_after_crash, is_whole, let_go, new_disk, opened, sound,
    writing,
};
use super::running::found_by_peek;
use rep_disk::{Disk, FaultyDisk};
use rep_node::{Batch, Node, NodeReader, Seat};
use rep_replica::Replica;
use rep_types::{Item, Refusal};
use std::alloc::Global;
use std::process::Abort;
use std::sync::Wait;
use std::test::Fail;
use std::thread::{Threads, join_mut};
use std::time::Clock;

/// Two items that had seen nothing: one puts `a` under the row, and one `b` under the other row.
fn two_items(alloc: Global) -> Result<Vec<Item>, Refusal> {
    let mut items = Vec::new(alloc);
    items.push(Item::WriteSet(writing(0, ROW, Some(b'a'))?))?;
    items.push(Item::WriteSet(writing(0, OTHER, Some(b'b'))?))?;
    Ok(items)
}

/// What is durable, and what the reader finds of both rows behind two items.
type Seen = (u64, Found, Found);

/// Both items are durable, and each row has what its item put there.
const BOTH: Seen = (2, Found::Put(b'a'), Found::Put(b'b'));

/// What is done in the thread beside the workers.
#[derive(Clone, Copy)]
enum Beside {
    /// Both items are made durable, from the start on.
    Keep,
    /// Both items are made durable, once their workers sleep.
    KeepLate,
    /// The node is halted, once their workers sleep.
    Halt,
}

/// Does by a seat what is to be done beside the workers, and says what is durable then, which the reader learns.
///
/// Refuses as the keeper does; with `Stopped` where it halts the node; and with `NotDue` where it waits in vain for the items to be queued:
/// then it halts the node too.
fn done<R: Wait + Clock, D: Disk>(
    rt: &R,
    node: &Node<D>,
    seat: &mut Seat<D>,
    reader: &mut NodeReader,
    pace: &Queueing,
    beside: Beside,
) -> Result<u64, Refusal>
    requires lock { seat.old.lock ≡ node.now }
    requires reader { HasReader seat.old.view reader.old }
    ensures lock { seat.new.lock ≡ seat.old.lock }
    ensures goes { Goes seat.old.view seat.new.view }
{
    let is_due = match beside {
        Beside::Keep => true,
        Beside::KeepLate | Beside::Halt => pace.waits_for_sleepers(rt),
    };
    if !is_due {
        node.halt(seat);
        return Err(Refusal::NotDue);
    }
    match beside {
        Beside::Keep | Beside::KeepLate => {
            let kept = node.keep(rt, seat, 2)?;
            reader.learn(&kept.told);
            Ok(kept.durable)
        }
        Beside::Halt => {
            node.halt(seat);
            Err(Refusal::Stopped)
        }
    }
}

/// Hands in the items by two workers. Where there is no memory for that, the node is halted, so that no keeper waits for them.
fn handed_in<R: Threads + Wait + Sync, D: Disk + Send>(
    rt: &R,
    alloc: Global,
    node: &Node<D>,
    seat: &mut Seat<D>,
    items: &[Item],
    pace: &Queueing,
) -> Batch
    requires { seat.old.lock ≡ node.now }
    ensures lock { seat.new.lock ≡ seat.old.lock }
    ensures goes { Goes seat.old.view seat.new.view }
{
    let batch = node.submit_batch(rt, alloc, seat, items, 2, pace);
    if batch.end == Some(Refusal::OutOfMemory) {
        node.halt(seat);
    }
    batch
}

/// Hands in the items by two workers and the one seat, and does by the other seat, in a thread of its own, what is to be done beside them.
// What is only read has one lifetime: with several, the borrow checker does not cover the call with both closures.
fn both<'a, R: Threads + Wait + Clock + Sync, D: Disk + Send>(
    rt: &'a R,
    alloc: Global,
    node: &'a Node<D>,
    items: &'a [Item],
    pace: &'a Queueing,
    beside: Beside,
    seat: &mut Seat<D>,
    other: &mut Seat<D>,
    reader: &mut NodeReader,
) -> (Result<u64, Refusal>, Batch)
    requires lock { (seat.old.lock ≡ node.now) × (other.old.lock ≡ node.now) }
    requires reader { HasReader other.old.view reader.old }
    ensures lock { (seat.new.lock ≡ seat.old.lock) × (other.new.lock ≡ other.old.lock) }
    ensures goes { Goes seat.old.view seat.new.view × Goes other.old.view other.new.view }
{
    let mut act = || -> Result<u64, Refusal>
        requires { (other.now.lock ≡ node.now) × HasReader other.now.view reader.now }
        ensures { (other.exit.now.lock ≡ other.entry.now.lock) × Goes other.entry.now.view other.exit.now.view }
    { done(rt, node, other, reader, pace, beside) };
    let mut hand_in = || -> Batch
        requires { IsSync R.row × (seat.now.lock ≡ node.now) }
        ensures { (seat.exit.now.lock ≡ seat.entry.now.lock) × Goes seat.entry.now.view seat.exit.now.view }
    { handed_in(rt, alloc, node, seat, items, pace) };
    join_mut(rt, &mut act, &mut hand_in)
}

/// What the reader finds of both rows behind two items, where so many are durable.
fn seen(reader: NodeReader, durable: Result<u64, Refusal>) -> Result<Seen, Refusal> {
    let durable = durable?;
    let (reader, row) = reader.peek(ROW, 2);
    let (_reader, other) = reader.peek(OTHER, 2);
    Ok((durable, found_by_peek(row), found_by_peek(other)))
}

/// The replica that a node leaves, what came of the batch, and what was seen beside the workers.
type Ended<D> = (Replica<D>, Batch, Result<Seen, Refusal>);

/// Runs a node on a disk, hands in the items by two workers, of which the first is held behind its verdict until the other has its own, does
/// beside them what is to be done, and closes the node.
///
/// Refuses as opening the disk does; and with `Undefined` a replica that is not quiet, of no cluster, or not new.
fn ended<R: Threads + Wait + Clock + Sync, D: Disk + Drop + Send>(
    rt: &R,
    alloc: Global,
    disk: D,
    items: &[Item],
    beside: Beside,
) -> Result<Ended<D>, Refusal> {
    let replica = opened(alloc, disk)?;
    if !replica.is_quiet() || replica.uuid().is_nil() || replica.durable() > 0 {
        let_go(replica);
        return Err(Refusal::Undefined);
    }
    let (node, mut seat, mut readers) = match Node::start(alloc, rt, replica, 1) {
        Ok(made) => made,
        Err((replica, refusal)) => {
            let_go(replica);
            return Err(refusal);
        }
    };
    let Some(mut reader) = readers.pop() else {
        unreachable!()
    };
    let mut other = node.split(&mut seat, 1);
    let pace = Queueing::new();
    let (durable, batch) = both(
        rt,
        alloc,
        &node,
        items,
        &pace,
        beside,
        &mut seat,
        &mut other,
        &mut reader,
    );
    let seen = seen(reader, durable);
    node.join(&mut seat, other);
    Ok((node.close(rt, seat), batch, seen))
}

#[test]
fn two_certifies_while_one_is_held(rt: HostRuntime) -> Result<(), Fail> {
    let items = two_items(rt.alloc())?;
    let disk = sound(new_disk(rt.alloc())?);
    let (replica, batch, seen) = ended(&rt, rt.alloc(), disk, &items, Beside::Keep)?;
    assert!(rt; is_whole(&replica, &batch, 2, 0));
    assert!(rt; seen == Ok(BOTH));
    assert!(rt; durable_after_crash(rt.alloc(), replica.into_disk().into_inner()) == Ok(2));
    Ok(())
}

/// Runs a node on a disk with these faults, and has both items made durable once their workers sleep. It says how many are told of, and are
/// there after a crash that loses all that was not stable; and refuses as opening the disk does, and with `NotDue` unless the workers end as
/// the keeper does: all are stopped and so is the replica, or both items are seen.
fn told_on<R: Threads + Wait + Clock + Sync>(
    rt: &R,
    alloc: Global,
    items: &[Item],
    faults: Failing,
) -> Result<usize, Refusal> {
    let disk = FaultyDisk::new(new_disk(alloc)?, faults);
    let (replica, batch, seen) = ended(rt, alloc, disk, items, Beside::KeepLate)?;
    let is_stopped = replica.is_stopped();
    let disk = replica.into_disk().into_inner();
    let wanted = match batch.end {
        Some(refusal) => Err(refusal),
        None => Ok(BOTH),
    };
    if seen != wanted || is_stopped != batch.end.is_some() {
        return Err(Refusal::NotDue);
    }
    let durable = durable_after_crash(alloc, disk)?;
    told_of(&batch, durable)
}

/// The same on a disk of which this call fails: that one alone, or all behind it too.
fn told_at<R: Threads + Wait + Clock + Sync>(
    rt: &R,
    alloc: Global,
    items: &[Item],
    call: u64,
    all_behind: bool,
) -> Result<usize, Refusal> {
    told_on(rt, alloc, items, failing(call, all_behind))
}

/// Whether a halt ends the batch where nobody keeps: both items were queued, their workers were woken, neither is told of, and the replica
/// is stopped.
fn is_ended_by_a_halt<R: Threads + Wait + Clock + Sync>(
    rt: &R,
    alloc: Global,
    items: &[Item],
) -> Result<bool, Refusal> {
    let disk = sound(new_disk(alloc)?);
    let (replica, batch, seen) = ended(rt, alloc, disk, items, Beside::Halt)?;
    let is_halted = seen == Err(Refusal::Stopped) && replica.is_stopped();
    let_go(replica);
    Ok(is_halted && batch.receipts.is_empty() && batch.end == Some(Refusal::Stopped))
}

#[test]
fn a_fault_lets_the_submitter_halt_sleepers(rt: HostRuntime) -> Result<(), Fail> {
    let items = two_items(rt.alloc())?;
    assert!(rt; is_ended_by_a_halt(&rt, rt.alloc(), &items) == Ok(true));
    // A keeper halts the node too, where its device fails.
    let mut early: u64 = 0;
    let mut whole: u64 = 0;
    for number in 0..2 * CALLS {
        let told = told_at(&rt, rt.alloc(), &items, number / 2, number % 2 == 1);
        assert!(rt;
            told.is_ok() || told == Err(Refusal::DiskFault),
            "number {number}"
        );
        early = early.saturating_add(u64::from(told == Ok(0)));
        whole = whole.saturating_add(u64::from(told == Ok(2)));
    }
    assert!(rt; early > 7 && whole > 7);
    Ok(())
}
