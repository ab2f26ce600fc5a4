//! Replicas, batches, what comes of a batch that is served, and what is found of a row: each call stands here once, in a function that promises nothing, so that
//! no test has to be proved beside its contract.

use super::paces::Writes;
use rep_disk::{Call, Disk, Faults, FaultyDisk, Fuse, Held, Loss, MemDisk, Once};
use rep_layout::need;
use rep_node::{Batch, Pace, serve_batch};
use rep_recover::format_disk;
use rep_replica::Replica;
use rep_types::{Item, Key, Params, Refusal, Value, Verdict, Write, WriteSet};
use std::alloc::Global;
use std::sync::Wait;
use std::thread::Threads;
use uuid::Uuid;

/// Two rows, and one that the schema does not have.
pub(crate) const ROW: Key = Key { table: 0, row: 1 };

pub(crate) const OTHER: Key = Key { table: 0, row: 2 };

pub(crate) const OUTSIDE: Key = Key { table: 0, row: 126 };

/// Which calls of a disk fail.
#[derive(Drop)]
pub(crate) enum Failing {
    /// None.
    Never,
    /// All behind so many.
    Behind(Fuse),
    /// One.
    Once(Once),
    /// None, and a write may wait.
    Held(Held<Writes>),
}

impl Faults for Failing {
    ghost says = { λ old call fails new. Unit {0} };

    fn fails(&mut self, call: Call) -> bool {
        match self {
            Failing::Never => false,
            Failing::Behind(fuse) => fuse.fails(call),
            Failing::Once(once) => once.fails(call),
            Failing::Held(held) => held.fails(call),
        }
    }
}

/// A disk in memory some of whose calls fail. All tests have this one, since what they call is compiled once for each kind of disk.
pub(crate) type Device = FaultyDisk<MemDisk, Failing>;

/// A disk in memory none of whose calls fails.
pub(crate) fn sound(disk: MemDisk) -> Device {
    FaultyDisk::new(disk, Failing::Never)
}

/// A formatted disk in memory with these parameters.
pub(crate) fn formatted(alloc: Global, params: &Params) -> Result<MemDisk, Refusal> {
    let disk = MemDisk::new(alloc, need(params) as usize)?;
    let (disk, answer) = format_disk(disk, params, Some(Uuid::from_bytes([0x11; 16])));
    answer?;
    Ok(disk)
}

/// A formatted disk in memory for a window of 4, four cells and one table of 126 rows.
pub(crate) fn new_disk(alloc: Global) -> Result<MemDisk, Refusal> {
    formatted(alloc, &Params::new(4, 4, &[126])?)
}

/// The replica on a disk.
pub(crate) fn opened<D: Disk + Drop>(alloc: Global, disk: D) -> Result<Replica<D>, Refusal> {
    match Replica::open(alloc, disk) {
        Ok(replica) => Ok(replica),
        Err((_, refusal)) => Err(refusal),
    }
}

/// Lets a replica go. It is taken apart for that: each place where a whole one goes by itself is dear to prove.
pub(crate) fn let_go<D: Disk + Drop>(replica: Replica<D>) {
    let _disk = replica.into_disk();
}

/// How many items are durable in what opens of the disk after a crash that loses all that was not stable.
pub(crate) fn durable_after_crash(alloc: Global, disk: MemDisk) -> Result<u64, Refusal> {
    let mut disk = disk;
    disk.crash(Loss::Drop);
    let replica = opened(alloc, sound(disk))?;
    let durable = replica.durable();
    let_go(replica);
    Ok(durable)
}

/// The byte that an item puts under a row of its own: `a` under the first, `b` under the second, and `c` under the others.
fn byte_for(row: u32) -> u8 {
    match row {
        0 => b'a',
        1 => b'b',
        _ => b'c',
    }
}

/// An item that had seen so many before it, and puts one byte under the row or deletes it.
pub(crate) fn writing(last_seen: u64, key: Key, byte: Option<u8>) -> Result<WriteSet, Refusal> {
    let value = match byte {
        Some(byte) => Value::new(&[byte]).ok(),
        None => None,
    };
    WriteSet::new(7, 1, last_seen, &[], &[Write { key, value }])
}

/// An item that had seen nothing, and puts a byte under a row of its own of the first table.
fn putting(row: u32) -> Result<Item, Refusal> {
    Ok(Item::WriteSet(writing(0, Key { table: 0, row }, Some(byte_for(row)))?))
}

/// So many items that had seen nothing, each of which puts a byte under a row of its own.
pub(crate) fn putting_each(alloc: Global, count: u32) -> Result<Vec<Item>, Refusal> {
    let mut items = Vec::new(alloc);
    for row in 0..count {
        items.push(putting(row)?)?;
    }
    Ok(items)
}

/// Serves the batch at the replica on a disk.
///
/// Refuses as opening the disk does; and with `Undefined` a replica that is not quiet or of no cluster, or a number of workers that may
/// not be.
pub(crate) fn served<R: Threads + Wait + Sync, P: Pace + Sync>(
    rt: &R,
    alloc: Global,
    disk: Device,
    items: &[Item],
    workers: usize,
    pace: &P,
) -> Result<(Replica<Device>, Batch), Refusal> {
    let replica = opened(alloc, disk)?;
    if !replica.is_quiet() || replica.uuid().is_nil() || workers == 0 || workers > 64 {
        let_go(replica);
        return Err(Refusal::Undefined);
    }
    Ok(serve_batch(rt, alloc, replica, items, workers, pace))
}

/// Whether in the state after so many items the byte that its item put there stands under the row, or nothing where that is asked.
pub(crate) fn has_row(
    replica: &mut Replica<Device>,
    (row, at, is_there): (u32, u64, bool),
) -> bool {
    match replica.read(Key { table: 0, row }, at) {
        Ok(Some(value)) => is_there && value.as_bytes() == [byte_for(row)].as_slice(),
        Ok(None) => !is_there,
        Err(_) => false,
    }
}

/// Whether the receipts are of so many items that committed and, behind them, of so many that were stale, one after another from the first
/// seqno on.
fn has_verdicts(batch: &Batch, commits: u64, stale: u64) -> bool {
    let mut seqno: u64 = 0;
    for receipt in &batch.receipts {
        seqno = seqno.saturating_add(1);
        let verdict = if seqno <= commits {
            Verdict::Commit
        } else {
            Verdict::Stale
        };
        if receipt.seqno != seqno || receipt.verdict != verdict {
            return false;
        }
    }
    seqno == commits.saturating_add(stale)
}

/// Whether a batch of so many items that commit and, behind them, so many that are stale came to its end, and all is durable in the
/// replica that it left.
pub(crate) fn is_whole(replica: &Replica<Device>, batch: &Batch, commits: u64, stale: u64) -> bool {
    has_verdicts(batch, commits, stale)
        && batch.end.is_none()
        && replica.durable() == commits.saturating_add(stale)
}

/// What is found of a row.
#[derive(Clone, Copy, PartialEq, Eq)]
pub(crate) enum Found {
    /// This byte alone stands there.
    Put(u8),
    /// Nothing stands there.
    Nothing,
    /// No write of the row is left in the published list.
    Cold,
    /// Bytes stand there that are not one.
    Others,
    /// It is not said, for this reason.
    Refused(Refusal),
}

/// That this value was found.
pub(crate) fn put(value: &Value) -> Found {
    let bytes = value.as_bytes();
    if bytes.len() == 1 {
        Found::Put(bytes[0])
    } else {
        Found::Others
    }
}

/// What a read found.
pub(crate) fn found_by_read(row: Result<Option<Value>, Refusal>) -> Found {
    match row {
        Ok(Some(value)) => put(&value),
        Ok(None) => Found::Nothing,
        Err(refusal) => Found::Refused(refusal),
    }
}
