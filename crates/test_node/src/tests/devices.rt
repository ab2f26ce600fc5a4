//! What is read beside a node whose device fails.

use super::replicas::{Device, Failing, Found, ROW, let_go, opened};
use super::running::Running;
use super::steps::{Answer, Call, Step, gone};
use rep_disk::{FaultyDisk, Fuse, MemDisk};
use rep_types::{Refusal, Verdict};
use std::alloc::Global;
use std::process::Abort;
use std::sync::Wait;
use std::test::Fail;
use std::thread::Threads;

/// `a` is put under the row, and a checkpoint runs.
const BASED: &[Step] = &[
    (
        Call::Write(0, ROW, Some(b'a')),
        Answer::Judged(Verdict::Commit),
    ),
    (Call::Check, Answer::Stands(1)),
];

/// A disk whose base has `a` under the row.
fn based<R: Threads + Wait + Sync + Abort>(rt: &R, alloc: Global) -> Result<MemDisk, Refusal> {
    let node = gone(rt, alloc, BASED)?;
    let (replica, _reader) = node.close(rt);
    Ok(replica.into_disk().into_inner())
}

/// What two reads of a row of the base were answered, one after the other, and whether the node was halted then.
type Twice = (Found, Found, bool);

/// Reads the row twice beside a node on a disk; or nothing where the disk can't be opened.
fn reads_twice<R: Wait>(rt: &R, alloc: Global, disk: Device) -> Result<Option<Twice>, Refusal> {
    let Ok(replica) = opened(alloc, disk) else {
        return Ok(None);
    };
    let node = Running::start(rt, alloc, replica)?;
    let (node, first) = node.read(rt, ROW, 1);
    let (node, second) = node.read(rt, ROW, 1);
    let (replica, _reader) = node.close(rt);
    let is_stopped = replica.is_stopped();
    let_go(replica);
    Ok(Some((first, second, is_stopped)))
}

/// Whether the first read met a device that failed, and the second a node that was halted by that.
fn is_halting((first, second, is_stopped): Twice) -> bool {
    first == Found::Refused(Refusal::DiskFault)
        && second == Found::Refused(Refusal::Stopped)
        && is_stopped
}

/// Whether both reads found the row.
fn is_answered((first, second, is_stopped): Twice) -> bool {
    first == Found::Put(b'a') && second == Found::Put(b'a') && !is_stopped
}

/// More calls than the opening and the reads make.
const CALLS: u64 = 40;

/// Reads a row of the base twice, on a device that fails behind each number of calls.
fn fails_in_a_read<R: Threads + Wait + Sync + Abort>(rt: &R, alloc: Global) -> Result<(), Refusal> {
    let disk = based(rt, alloc)?;
    let mut halting: u64 = 0;
    for calls in 0..CALLS {
        let copy = MemDisk::from_bytes(alloc, disk.bytes())?;
        let disk = FaultyDisk::new(copy, Failing::Behind(Fuse::after(calls)));
        if let Some(twice) = reads_twice(rt, alloc, disk)? {
            assert!(rt;
                is_halting(twice) || is_answered(twice),
                "behind {calls} calls"
            );
            halting = halting.saturating_add(u64::from(is_halting(twice)));
        }
    }
    // The page is asked for in one call.
    assert!(rt; halting == 1);
    Ok(())
}

#[test]
fn a_device_that_fails_in_a_read_halts_the_node(rt: HostRuntime) -> Result<(), Fail> {
    Ok(fails_in_a_read(&rt, rt.alloc())?)
}
