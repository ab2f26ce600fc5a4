//! Changes of a publisher, each with what a reader saw before and after it.

use rep_snap::{Peek, Reader};
use rep_types::{Key, Refusal, Value};
use std::alloc::Global;
use std::sync::Wait;
use uses_snap::{Free, Steady};

/// How many pairs are published.
const PAIRS: u64 = 300;

/// How many rows they write, one after another.
const ROWS: u64 = 200;

/// How far the changes came.
#[derive(Clone, Copy)]
pub(crate) enum Came {
    /// Each was made: the front, and how many rows have a version then.
    Through { front: u64, found: u64 },
    /// One was refused for want of memory, and so was the next; the reader saw what it saw.
    Refused,
    /// The reader saw something else than it should.
    Wrong,
}

/// What a change came to.
#[derive(Clone, Copy, PartialEq, Eq)]
enum Done {
    Made,
    Refused,
    Wrong,
}

/// What a reader sees: the front, and what the row of a seqno is there.
#[derive(Drop, PartialEq, Eq)]
struct Seen {
    front: u64,
    row: Result<Peek, Refusal>,
}

fn row_of(seqno: u64) -> Key {
    Key {
        table: 0,
        row: (seqno % ROWS) as u32,
    }
}

fn look(reader: Reader<Free>, seqno: u64) -> (Reader<Free>, Seen) {
    let (reader, front) = reader.front();
    let (reader, row) = reader.peek(row_of(seqno), front);
    (reader, Seen { front, row })
}

/// What it came to, by what was answered and what the reader saw before and after.
fn judged(answer: &Result<(), Refusal>, before: &Seen, after: &Seen, expected: &Seen) -> Done {
    match answer {
        Ok(()) if after == expected => Done::Made,
        Err(Refusal::OutOfMemory) if after == before => Done::Refused,
        _ => Done::Wrong,
    }
}

/// A publisher with a reader beside it.
struct Beside {
    steady: Steady,
    reader: Reader<Free>,
}

impl Beside {
    /// Publishes a pair that puts its seqno into its row.
    fn put<R: Wait>(self, rt: &R, seqno: u64) -> (Beside, Done) {
        let Beside { steady, reader } = self;
        let (reader, before) = look(reader, seqno);
        let Ok(value) = Value::new(&seqno.to_be_bytes()) else {
            return (Beside { steady, reader }, Done::Wrong);
        };
        let expected = Seen {
            front: seqno,
            row: Ok(Peek::Value(value.copied())),
        };
        let (steady, answer) = steady.put(rt, seqno, row_of(seqno), Some(value));
        let (reader, after) = look(reader, seqno);
        let done = judged(&answer, &before, &after, &expected);
        (Beside { steady, reader }, done)
    }

    /// Prunes to a position that is 100 below the front. A peek below it is then refused, and where the
    /// prune was refused it finds what it found.
    fn prune<R: Wait>(self, rt: &R, front: u64) -> (Beside, Done) {
        let Beside { steady, reader } = self;
        let position = front.saturating_sub(100);
        let (reader, before) = look(reader, front);
        let (reader, there) = reader.peek(row_of(position), position.saturating_sub(1));
        let (steady, answer) = steady.prune(rt, position);
        let (reader, after) = look(reader, front);
        let (reader, below) = reader.peek(row_of(position), position.saturating_sub(1));
        let right = match answer {
            Ok(()) if 0 < position => below == Err(Refusal::TooOld { oldest: position }),
            _ => below == there,
        };
        let done = judged(&answer, &before, &after, &before);
        (
            Beside { steady, reader },
            if right { done } else { Done::Wrong },
        )
    }

    /// The change of a seqno: its pair, and behind each fiftieth a prune.
    fn change<R: Wait>(self, rt: &R, seqno: u64) -> (Beside, Done) {
        let (beside, done) = self.put(rt, seqno);
        if done != Done::Made || seqno % 50 != 0 {
            return (beside, done);
        }
        beside.prune(rt, seqno)
    }

    /// A prune of nothing, which is the first to ask for memory, and then all changes, up to the first
    /// that is not made.
    fn changes<R: Wait>(self, rt: &R) -> (Beside, Done, u64) {
        let (mut beside, first) = self.prune(rt, 0);
        if first != Done::Made {
            return (beside, first, 0);
        }
        for seqno in 1..PAIRS + 1 {
            let (later, done) = beside.change(rt, seqno);
            beside = later;
            if done != Done::Made {
                return (beside, done, seqno);
            }
        }
        (beside, Done::Made, PAIRS)
    }
}

/// How many rows have a version at the front.
fn rows_found(reader: Reader<Free>) -> (Reader<Free>, u64) {
    let mut reader = reader;
    let mut found = 0u64;
    for seqno in 0..ROWS {
        let (looked, seen) = look(reader, seqno);
        reader = looked;
        if matches!(seen.row, Ok(Peek::Value(_))) {
            found = found.saturating_add(1);
        }
    }
    (reader, found)
}

/// Starts a publisher, again where there was no memory.
fn started<R: Wait>(rt: &R, alloc: Global) -> Result<Steady, Refusal> {
    match Steady::start(alloc, rt, 0, 2) {
        Err(Refusal::OutOfMemory) => Steady::start(alloc, rt, 0, 2),
        answer => answer,
    }
}

/// Makes all changes beside a reader, and says how far they came.
pub(crate) fn attempt<R: Wait>(rt: &R, alloc: Global) -> Result<Came, Refusal> {
    let mut steady = started(rt, alloc)?;
    let reader = match steady.reader() {
        Ok(reader) => reader,
        Err(refusal) => {
            steady.close(rt);
            return Err(refusal);
        }
    };
    let (beside, done, seqno) = Beside { steady, reader }.changes(rt);
    let Beside { steady, reader } = beside;
    let (steady, came) = match done {
        Done::Made => {
            let (_reader, found) = rows_found(reader);
            let front = seqno;
            (steady, Came::Through { front, found })
        }
        Done::Refused => {
            let (beside, again) = Beside { steady, reader }.put(rt, seqno.saturating_add(1));
            let Beside { steady, reader: _ } = beside;
            let refused = again == Done::Refused;
            (steady, if refused { Came::Refused } else { Came::Wrong })
        }
        Done::Wrong => (steady, Came::Wrong),
    };
    steady.close(rt);
    Ok(came)
}
