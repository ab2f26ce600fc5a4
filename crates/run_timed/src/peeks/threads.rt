//! What both kinds of readers have in common.

use rep_snap::Peek;
use rep_types::{Key, Refusal, Value, Write};
use std::alloc::{AllocError, Global};
use std::sync::Arc;
use std::sync::atomic::{AtomicU64, Ordering};
use std::thread::{JoinHandle, Threads};

/// How many rows there are. A pair writes one of them.
const ROWS: u64 = 1_000;

/// How many pairs are published before the first look-up.
pub(crate) const AT_FIRST: u64 = 2_000;

/// A prune goes so far behind the front, and comes behind each so many pairs.
const KEPT: u64 = 2_000;

/// The publisher stops at this seqno, if the readers didn't end before.
pub(crate) const LAST: u64 = 1 << 40;

/// How often a reader looks rows up before it asks for the front again.
pub(crate) const LOOKS: u64 = 64;

/// The row that the pair of a seqno writes.
pub(crate) fn row_of(seqno: u64) -> Key {
    Key {
        table: 0,
        row: (seqno % ROWS) as u32,
    }
}

/// What it writes there: the seqno itself.
pub(crate) fn write_of(seqno: u64) -> Write {
    Write {
        key: row_of(seqno),
        value: Value::new(&seqno.to_be_bytes()).ok(),
    }
}

/// Up to where is pruned behind the pair of a seqno, if it is then.
pub(crate) fn pruned_at(seqno: u64) -> Option<u64> {
    if seqno % KEPT == 0 {
        Some(seqno.saturating_sub(KEPT))
    } else {
        None
    }
}

/// 1 where the row of this seqno, looked up at the seqno, was what the pair wrote, or was pruned.
pub(crate) fn right(answer: &Result<Peek, Refusal>, seqno: u64) -> u64 {
    let right = match answer {
        Ok(Peek::Value(value)) => value.as_bytes() == seqno.to_be_bytes().as_slice(),
        Ok(Peek::Cold) | Err(Refusal::TooOld { .. }) => true,
        _ => false,
    };
    if right { 1 } else { 0 }
}

/// How many readers there are, how often each looks a row up, and how many of them have ended.
#[derive(Drop)]
pub(crate) struct Readers {
    count: u64,
    pub(crate) times: u64,
    ended: Arc<AtomicU64>,
}

impl Readers {
    pub(crate) fn new(alloc: Global, count: u64, times: u64) -> Result<Readers, AllocError> {
        Ok(Readers {
            count,
            times,
            ended: Arc::new(alloc, AtomicU64::new(0))?,
        })
    }

    /// The same for the reader of this number in a thread of its own, where there are so many.
    pub(crate) fn for_reader(&self, number: u64) -> Option<Readers> {
        if self.count <= number {
            return None;
        }
        Some(Readers {
            count: self.count,
            times: self.times,
            ended: Arc::try_clone(&self.ended).ok()?,
        })
    }

    pub(crate) fn one_has_ended(&self) {
        self.ended.fetch_add(1, Ordering::SeqCst);
    }

    pub(crate) fn have_ended(&self) -> bool {
        self.count <= self.ended.load(Ordering::SeqCst)
    }
}

/// Waits for the readers that were started, and says how many of their look-ups were right.
pub(crate) fn joined<R: Threads>(rt: &R, readers: [Option<JoinHandle<u64>>; 4]) -> u64 {
    let mut all = 0u64;
    for reader in readers {
        if let Some(child) = reader {
            all = all.saturating_add(child.join(rt));
        }
    }
    all
}
