//! Four readers in threads of their own, beside a publisher that publishes and prunes.

use crate::steady::{Free, Steady};
use rep_snap::{Peek, Reader};
use rep_types::{Key, Refusal, Value, Write};
use std::alloc::Global;
use std::sync::Wait;
use std::thread::{JoinHandle, Threads, spawn};

/// The row that a seqno writes.
fn row_of(seqno: u64) -> Key {
    Key {
        table: 0,
        row: (seqno % 4) as u32,
    }
}

/// What a reader counted: peeks that found a value, and those that found another one than they should.
#[derive(Clone, Copy, Debug, Default, PartialEq, Eq)]
pub struct Count {
    pub values: u64,
    pub wrong: u64,
}

impl Count {
    fn plus(self, other: Count) -> Count {
        Count {
            values: self.values.saturating_add(other.values),
            wrong: self.wrong.saturating_add(other.wrong),
        }
    }
}

/// Whether a peek of the row that this seqno writes, at a snapshot that is at most 3 above it, found what
/// the seqno put. Nothing is found where it was pruned meanwhile.
fn judged(answer: &Result<Peek, Refusal>, seqno: u64) -> Count {
    let values = if matches!(answer, Ok(Peek::Value(_))) {
        1
    } else {
        0
    };
    let right = match answer {
        Ok(Peek::Value(value)) => value.as_bytes() == seqno.to_be_bytes().as_slice(),
        Ok(Peek::Cold) | Err(Refusal::TooOld { .. }) => true,
        _ => false,
    };
    Count {
        values,
        wrong: if right { 0 } else { 1 },
    }
}

/// Peeks so many times, each time near the front.
fn watch(reader: Reader<Free>, times: u64) -> Count {
    let mut reader = reader;
    let mut count = Count::default();
    for time in 0..times {
        let (looked, front) = reader.front();
        let seqno = front.saturating_sub(time % 8);
        let snapshot = seqno.saturating_add(time % 3).min(front);
        let (looked, answer) = looked.peek(row_of(seqno), snapshot);
        reader = looked;
        count = count.plus(judged(&answer, seqno));
    }
    count
}

/// Publishes the seqnos above one up to another, each with one write, and prunes behind them.
fn publish_many<R: Wait>(
    rt: &R,
    steady: Steady,
    from: u64,
    to: u64,
) -> (Steady, Result<(), Refusal>) {
    let mut steady = steady;
    for seqno in from..to {
        let seqno = seqno + 1;
        let Ok(value) = Value::new(seqno.to_be_bytes().as_slice()) else {
            return (steady, Err(Refusal::ValueTooLong));
        };
        let write = Write {
            key: row_of(seqno),
            value: Some(value),
        };
        let pruned = Some(seqno.saturating_sub(50));
        let (next, done) = steady.publish_and_prune(rt, seqno, &[write], pruned);
        steady = next;
        if done.is_err() {
            return (steady, done);
        }
    }
    (steady, Ok(()))
}

/// Starts a reader in a thread.
fn started<R: Threads>(
    rt: &R,
    reader: Result<Reader<Free>, Refusal>,
    times: u64,
) -> Option<JoinHandle<Count>> {
    let reader = reader.ok()?;
    spawn(rt, move || watch(reader, times)).ok()
}

/// Waits for it, and says what it counted: nothing where it was not started.
fn ended<R: Threads>(rt: &R, child: Option<JoinHandle<Count>>) -> Count {
    match child {
        Some(child) => child.join(rt),
        None => Count::default(),
    }
}

/// Four readers watch beside a publisher: what they counted.
pub fn watched_beside<R: Threads + Wait>(
    rt: &R,
    alloc: Global,
    count: u64,
    times: u64,
) -> Result<Count, Refusal> {
    let steady = Steady::start(alloc, rt, 0, 4)?;
    let (mut steady, begun) = publish_many(rt, steady, 0, 100);
    let first = started(rt, steady.reader(), times);
    let second = started(rt, steady.reader(), times);
    let third = started(rt, steady.reader(), times);
    let fourth = started(rt, steady.reader(), times);
    let (steady, done) = publish_many(rt, steady, 100, count);
    let early = ended(rt, first).plus(ended(rt, second));
    let late = ended(rt, third).plus(ended(rt, fourth));
    steady.close(rt);
    begun?;
    done?;
    Ok(early.plus(late))
}
