//! What comes of batches.

use super::paces::{Crossing, Held as HeldWorkers, Writes};
use super::replicas::{
    Device, Failing, durable_after_crash, formatted, has_row, is_whole, let_go, new_disk,
    putting_each, served, sound,
};
use rep_disk::{FaultyDisk, Fuse, Held, MemDisk, Once};
use rep_node::{Batch, Point};
use rep_replica::Replica;
use rep_types::{Item, Params, Refusal};
use std::alloc::Global;
use std::process::Abort;
use std::sync::{Arc, Wait};
use std::test::Fail;
use std::thread::Threads;

/// Two workers hand in an item each. The second is held until the disk's first write has begun, and that write until the second was queued.
/// It says whether all of it is durable.
fn while_the_engine_writes<R: Threads + Wait + Sync>(
    rt: &R,
    alloc: Global,
    items: &[Item],
) -> Result<bool, Refusal> {
    let crossing = Arc::new(alloc, Crossing::new())?;
    let writes = Writes(Arc::try_clone(&crossing)?);
    let disk = FaultyDisk::new(new_disk(alloc)?, Failing::Held(Held::by(writes)));
    let (replica, batch) = served(rt, alloc, disk, items, 2, &*crossing)?;
    let is_whole = is_whole(&replica, &batch, 2, 0);
    let_go(replica);
    Ok(is_whole)
}

#[test]
fn commits_queue_while_the_engine_writes(rt: HostRuntime) -> Result<(), Fail> {
    let items = putting_each(rt.alloc(), 2)?;
    let is_whole = while_the_engine_writes(&rt, rt.alloc(), &items);
    assert_eq!(rt; is_whole, Ok(true));
    Ok(())
}

/// What comes of a batch.
#[derive(Clone, Copy)]
enum Came {
    /// All is told of, so many that commit and so many stale ones behind them, and all is durable, also behind a crash that loses what
    /// was not stable. The base rose where that is asked.
    Whole(u64, u64, bool),
    /// No item is told of, and the replica is stopped.
    Stopped,
}

/// A row, the state after so many items, and whether the byte of the row's item stands there.
type Row = (u32, u64, bool);

/// A batch of items that had seen nothing: how many, of a disk with the large window or not, by how many workers, held how, what comes of
/// it, and rows then.
struct Trial {
    items: u32,
    is_wide: bool,
    workers: usize,
    held: (Option<(Point, u64)>, Option<u64>),
    came: Came,
    rows: &'static [Row],
}

const TRIALS: &[Trial] = &[
    // the worker of the first is held behind its verdict until the other has its own
    Trial {
        items: 2,
        is_wide: false,
        workers: 2,
        held: (None, Some(2)),
        came: Came::Whole(2, 0, false),
        rows: &[(0, 2, true), (1, 2, true)],
    },
    // more than a window of 256, the first held behind its verdict until the fourth has its own: the first 257 of those commit, and the
    // others had seen too little
    Trial {
        items: 300,
        is_wide: true,
        workers: 4,
        held: (None, Some(4)),
        came: Came::Whole(257, 43, false),
        rows: &[],
    },
    // more than the four cells of the log have room for: over a window of 4 the first five commit, the others had seen too little, and
    // checkpoints ran
    Trial {
        items: 40,
        is_wide: false,
        workers: 1,
        held: (None, None),
        came: Came::Whole(5, 35, true),
        rows: &[(4, 40, true), (5, 40, false)],
    },
    // the first may not go on once it is claimed
    Trial {
        items: 2,
        is_wide: false,
        workers: 1,
        held: (Some((Point::Claimed, 1)), None),
        came: Came::Stopped,
        rows: &[],
    },
    // the first may not go on once it is certified
    Trial {
        items: 2,
        is_wide: false,
        workers: 1,
        held: (Some((Point::Certified, 1)), None),
        came: Came::Stopped,
        rows: &[],
    },
    // the first may not go on once it is queued
    Trial {
        items: 2,
        is_wide: false,
        workers: 1,
        held: (Some((Point::Queued, 1)), None),
        came: Came::Stopped,
        rows: &[],
    },
];

/// The disk of a trial: of a window of 256 and a table of 300 rows, or the small one.
fn disk_for(alloc: Global, is_wide: bool) -> Result<MemDisk, Refusal> {
    if is_wide {
        formatted(alloc, &Params::new(256, 512, &[300])?)
    } else {
        new_disk(alloc)
    }
}

/// Whether this came of the batch that left the replica.
fn is_so(replica: &mut Replica<Device>, batch: &Batch, came: Came) -> bool {
    match came {
        Came::Whole(commits, stale, is_raised) => {
            is_whole(replica, batch, commits, stale) && (!is_raised || replica.base() > 0)
        }
        Came::Stopped => {
            batch.receipts.is_empty()
                && batch.end == Some(Refusal::Stopped)
                && replica.settle() == Err(Refusal::Stopped)
        }
    }
}

/// Whether the rows stand so in the replica.
fn has_rows(replica: &mut Replica<Device>, rows: &[Row]) -> bool {
    let mut right = true;
    for row in rows {
        right = right && has_row(replica, *row);
    }
    right
}

/// Whether all that is told of is durable in what opens of the disk after a crash.
fn is_durable(alloc: Global, disk: MemDisk, came: Came) -> bool {
    match came {
        Came::Whole(commits, stale, _) => {
            durable_after_crash(alloc, disk) == Ok(commits.saturating_add(stale))
        }
        Came::Stopped => true,
    }
}

/// Serves these items as the trial says: whether that comes of it, the rows stand so, and what is told of is durable.
fn comes_so<R: Threads + Wait + Sync>(
    rt: &R,
    alloc: Global,
    trial: &Trial,
    items: &[Item],
) -> Result<bool, Refusal> {
    let (stop, until) = trial.held;
    let pace = HeldWorkers::new(stop, until);
    let disk = sound(disk_for(alloc, trial.is_wide)?);
    let (mut replica, batch) = served(rt, alloc, disk, items, trial.workers, &pace)?;
    let is_so = is_so(&mut replica, &batch, trial.came) && has_rows(&mut replica, trial.rows);
    Ok(is_durable(alloc, replica.into_disk().into_inner(), trial.came) && is_so)
}

#[test]
fn batches_end_as_they_are_held(rt: HostRuntime) -> Result<(), Fail> {
    let mut number: usize = 0;
    for trial in TRIALS {
        let items = putting_each(rt.alloc(), trial.items)?;
        assert!(rt;
            comes_so(&rt, rt.alloc(), trial, &items) == Ok(true),
            "trial {number}"
        );
        number = number.saturating_add(1);
    }
    Ok(())
}

/// How many items a batch of two tells of, where it ended right: what it tells of is durable, and it was stopped unless it tells of both.
pub(crate) fn told_of(batch: &Batch, durable: u64) -> Result<usize, Refusal> {
    let told = batch.receipts.len();
    let last = match batch.receipts.last() {
        Some(receipt) => receipt.seqno,
        None => 0,
    };
    let is_ended = match batch.end {
        Some(refusal) => refusal == Refusal::Stopped,
        None => told == 2,
    };
    if is_ended && last <= durable && durable <= 2 {
        Ok(told)
    } else {
        Err(Refusal::NotDue)
    }
}

/// Serves two items by two workers on a disk with these faults. The worker of the first is held behind its verdict until the other has its
/// own. It says how many are told of, and are there after a crash that loses all that was not stable; and refuses as opening the disk does.
fn told_on<R: Threads + Wait + Sync>(
    rt: &R,
    alloc: Global,
    items: &[Item],
    faults: Failing,
) -> Result<usize, Refusal> {
    let pace = HeldWorkers::new(None, Some(2));
    let disk = FaultyDisk::new(new_disk(alloc)?, faults);
    let (replica, batch) = served(rt, alloc, disk, items, 2, &pace)?;
    let durable = durable_after_crash(alloc, replica.into_disk().into_inner())?;
    told_of(&batch, durable)
}

/// That this call fails, alone or with all behind it.
pub(crate) fn failing(call: u64, all_behind: bool) -> Failing {
    if all_behind {
        Failing::Behind(Fuse::after(call))
    } else {
        Failing::Once(Once::after(call))
    }
}

/// The same on a disk of which this call fails: that one alone, or all behind it too.
fn told_at<R: Threads + Wait + Sync>(
    rt: &R,
    alloc: Global,
    items: &[Item],
    call: u64,
    all_behind: bool,
) -> Result<usize, Refusal> {
    told_on(rt, alloc, items, failing(call, all_behind))
}

/// More calls than the opening and a batch of two make.
pub(crate) const CALLS: u64 = 60;

#[test]
fn what_is_told_of_is_there_where_a_call_fails(rt: HostRuntime) -> Result<(), Fail> {
    let items = putting_each(rt.alloc(), 2)?;
    let mut early: u64 = 0;
    let mut whole: u64 = 0;
    for number in 0..2 * CALLS {
        let told = told_at(&rt, rt.alloc(), &items, number / 2, number % 2 == 1);
        assert!(rt;
            told.is_ok() || told == Err(Refusal::DiskFault),
            "number {number}"
        );
        early = early.saturating_add(u64::from(told == Ok(0) || told == Ok(1)));
        whole = whole.saturating_add(u64::from(told == Ok(2)));
    }
    assert!(rt; early > 7 && whole > 7);
    Ok(())
}
