//! Readers that wait for nobody.

use crate::peeks::threads::{
    AT_FIRST, LAST, LOOKS, Readers, joined, pruned_at, right, row_of, write_of,
};
use rep_snap::Reader;
use rep_types::Refusal;
use std::alloc::Global;
use std::sync::Wait;
use std::thread::{JoinHandle, Threads, spawn};
use uses_snap::{Free, Steady};

/// Peeks so many times, each at the front that was seen last, and says how many were right.
fn watch(reader: Reader<Free>, readers: &Readers) -> u64 {
    let (mut reader, mut front) = reader.front();
    let mut all = 0u64;
    for time in 0..readers.times {
        if time % LOOKS == LOOKS - 1 {
            let (looked, next) = reader.front();
            reader = looked;
            front = next;
        }
        let (looked, answer) = reader.peek(row_of(front), front);
        reader = looked;
        all = all.saturating_add(right(&answer, front));
    }
    readers.one_has_ended();
    all
}

/// Starts the reader of this number in a thread of its own, where there are to be so many.
fn started<R: Threads>(
    rt: &R,
    steady: &mut Steady,
    readers: &Readers,
    number: u64,
) -> Option<JoinHandle<u64>> {
    let readers = readers.for_reader(number)?;
    let reader = steady.reader().ok()?;
    spawn(rt, move || watch(reader, &readers)).ok()
}

/// Publishes the pairs of the seqnos from one on up to another, or until the readers have ended.
fn publish_many<R: Wait>(
    rt: &R,
    steady: Steady,
    from: u64,
    to: u64,
    readers: &Readers,
) -> (Steady, Result<(), Refusal>) {
    let mut steady = steady;
    for seqno in from..to {
        if readers.have_ended() {
            break;
        }
        let writes = [write_of(seqno)];
        let (next, done) = steady.publish_and_prune(rt, seqno, &writes, pruned_at(seqno));
        steady = next;
        if done.is_err() {
            return (steady, done);
        }
    }
    (steady, Ok(()))
}

/// How many of the readers' peeks were right, beside a publisher.
pub(crate) fn beside<R: Threads + Wait>(
    rt: &R,
    alloc: Global,
    readers: &Readers,
) -> Result<u64, Refusal> {
    let steady = Steady::start(alloc, rt, 0, 4)?;
    let (mut steady, begun) = publish_many(rt, steady, 1, AT_FIRST, readers);
    let first = started(rt, &mut steady, readers, 0);
    let second = started(rt, &mut steady, readers, 1);
    let third = started(rt, &mut steady, readers, 2);
    let fourth = started(rt, &mut steady, readers, 3);
    let (steady, done) = publish_many(rt, steady, AT_FIRST, LAST, readers);
    let all = joined(rt, [first, second, third, fourth]);
    steady.close(rt);
    begun?;
    done?;
    Ok(all)
}
