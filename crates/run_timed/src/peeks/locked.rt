//! The same table behind one lock.

use crate::peeks::threads::{
    AT_FIRST, LAST, LOOKS, Readers, joined, pruned_at, right, row_of, write_of,
};
use arrayvec::ArrayVec;
use rep_snap::Peek;
use rep_types::{Key, MAX_WRITES, Refusal, Write};
use rep_versions::Versions;
use std::alloc::Global;
use std::sync::{Arc, Mutex, Wait};
use std::thread::{JoinHandle, Threads, spawn};

/// The versions, the front and the oldest snapshot.
#[derive(Drop)]
struct Table {
    versions: Versions,
    front: u64,
    oldest: u64,
}

impl Table {
    fn put(&mut self, seqno: u64) -> Result<(), Refusal> {
        let mut writes: ArrayVec<Write, MAX_WRITES> = ArrayVec::new();
        writes.push(write_of(seqno));
        self.versions.add_writes(seqno, &writes)?;
        self.front = seqno;
        Ok(())
    }

    fn prune(&mut self, position: u64) {
        self.versions.prune(position);
        self.oldest = self.oldest.max(position);
    }

    fn at(&self, key: Key, snapshot: u64) -> Result<Peek, Refusal> {
        Peek::among(&self.versions, self.front, self.oldest, key, snapshot)
    }
}

/// Looks rows up so many times, each at the front that was seen last, and says how many were right.
fn watch<R: Wait>(rt: &R, table: &Mutex<Table>, readers: &Readers) -> u64 {
    let mut front = table.lock(rt).front;
    let mut all = 0u64;
    for time in 0..readers.times {
        if time % LOOKS == LOOKS - 1 {
            front = table.lock(rt).front;
        }
        let answer = table.lock(rt).at(row_of(front), front);
        all = all.saturating_add(right(&answer, front));
    }
    readers.one_has_ended();
    all
}

/// Adds the pairs of the seqnos from one on up to another, or until the readers have ended.
fn add_many<R: Wait>(
    rt: &R,
    table: &Mutex<Table>,
    from: u64,
    to: u64,
    readers: &Readers,
) -> Result<(), Refusal> {
    for seqno in from..to {
        if readers.have_ended() {
            break;
        }
        table.lock(rt).put(seqno)?;
        if let Some(position) = pruned_at(seqno) {
            table.lock(rt).prune(position);
        }
    }
    Ok(())
}

/// Starts the reader of this number in a thread of its own, where there are to be so many.
fn started<R: Threads + Wait + Copy + Send + 'static>(
    rt: &R,
    table: &Arc<Mutex<Table>>,
    readers: &Readers,
    number: u64,
) -> Option<JoinHandle<u64>> {
    let table = Arc::try_clone(table).ok()?;
    let readers = readers.for_reader(number)?;
    let mine = *rt;
    spawn(rt, move || watch(&mine, &table, &readers)).ok()
}

/// How many of the readers' look-ups were right, beside a thread that adds and prunes.
pub(crate) fn beside<R: Threads + Wait + Copy + Send + 'static>(
    rt: &R,
    alloc: Global,
    readers: &Readers,
) -> Result<u64, Refusal> {
    let table = Table {
        versions: Versions::new(alloc),
        front: 0,
        oldest: 0,
    };
    let table = Arc::new(alloc, Mutex::new(table))?;
    add_many(rt, &table, 1, AT_FIRST, readers)?;
    let first = started(rt, &table, readers, 0);
    let second = started(rt, &table, readers, 1);
    let third = started(rt, &table, readers, 2);
    let fourth = started(rt, &table, readers, 3);
    let done = add_many(rt, &table, AT_FIRST, LAST, readers);
    let all = joined(rt, [first, second, third, fourth]);
    done?;
    Ok(all)
}
