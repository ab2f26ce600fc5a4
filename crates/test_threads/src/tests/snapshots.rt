//! What readers find beside a publisher of snapshots.

ghost use Rattle.std.specs.Prelude.{◌≡◌};

use rep_snap::{Pair, Peek, Publisher, Reader, start};
use rep_types::{Key, Refusal, Value};
use std::alloc::Global;
use std::process::Abort;
use std::sync::Wait;
use std::test::Fail;
use uses_snap::{Free, Plan, Steady, planned_row_at, watched_beside};

#[test]
fn four_readers_beside_a_publisher_find_the_rows_of_the_list(rt: HostRuntime) -> Result<(), Fail> {
    let counted = watched_beside(&rt, rt.alloc(), 2000, 20000)?;
    assert!(rt; counted.wrong == 0 && 4000 < counted.values);
    Ok(())
}

/// The row that is put and deleted, and one that nothing is done to.
const ROW: Key = Key { table: 0, row: 1 };

const OTHER: Key = Key { table: 0, row: 2 };

/// A change that a publisher makes: of the row at a seqno, or of none there, or of the list.
#[derive(Clone, Copy)]
enum Change {
    Put(u64, u8),
    Delete(u64),
    Nothing(u64),
    Prune(u64),
}

/// What a reader finds of a row: this byte alone, or others.
#[derive(Clone, Copy, PartialEq, Eq)]
enum Found {
    Cold,
    Absent,
    Put(u8),
    Others,
    Refused(Refusal),
}

/// What a reader was answered.
fn found_by(peek: Result<Peek, Refusal>) -> Found {
    match peek {
        Ok(Peek::Cold) => Found::Cold,
        Ok(Peek::Absent) => Found::Absent,
        Ok(Peek::Value(value)) => match value.as_bytes() {
            [byte] => Found::Put(*byte),
            _ => Found::Others,
        },
        Err(refusal) => Found::Refused(refusal),
    }
}

/// What a reader finds of the row at 0, 1, 2, 3 and 4.
type Five = (Found, Found, Found, Found, Found);

fn five_peeks(reader: Reader<Free>) -> (Reader<Free>, Five)
    ensures { result.0.book ≡ reader.book }
{
    let (reader, at_0) = reader.peek(ROW, 0);
    let (reader, at_1) = reader.peek(ROW, 1);
    let (reader, at_2) = reader.peek(ROW, 2);
    let (reader, at_3) = reader.peek(ROW, 3);
    let (reader, at_4) = reader.peek(ROW, 4);
    (
        reader,
        (
            found_by(at_0),
            found_by(at_1),
            found_by(at_2),
            found_by(at_3),
            found_by(at_4),
        ),
    )
}

/// Makes a change, and says whether it was made.
fn changed<R: Wait>(rt: &R, steady: Steady, change: Change) -> (Steady, bool)
    ensures { result.0.publisher.book ≡ steady.publisher.book }
{
    let (steady, done) = match change {
        Change::Put(seqno, byte) => steady.put(rt, seqno, ROW, Value::new(&[byte]).ok()),
        Change::Delete(seqno) => steady.put(rt, seqno, ROW, None),
        Change::Nothing(seqno) => steady.publish(rt, seqno, &[]),
        Change::Prune(position) => steady.prune(rt, position),
    };
    (steady, done.is_ok())
}

/// A publisher, and a reader of its own.
struct Watched {
    steady: Steady,
    reader: Reader<Free>,
    ghost own: { reader.book ≡ steady.publisher.book },
}

impl Watched {
    /// One that starts at 0.
    fn start<R: Wait>(rt: &R, alloc: Global) -> Result<Watched, Refusal> {
        let mut steady = Steady::start(alloc, rt, 0, 1)?;
        match steady.reader() {
            Ok(reader) => Ok(Watched { steady, reader }),
            Err(refusal) => {
                steady.close(rt);
                Err(refusal)
            }
        }
    }

    /// Makes a change, which the reader learns of, and says whether it was made and the reader then finds this of the row at 0, 1, 2, 3 and 4.
    fn finds<R: Wait>(self, rt: &R, change: Change, wanted: Five) -> (Watched, bool) {
        let Watched { steady, mut reader } = self;
        let (steady, done) = changed(rt, steady, change);
        reader.learn(&steady.tell());
        let (reader, found) = five_peeks(reader);
        (Watched { steady, reader }, done && found == wanted)
    }

    /// What the reader finds of the other row at 4, of the row once the publisher is closed, and its front then.
    fn ended<R: Wait>(self, rt: &R) -> (Found, Found, u64) {
        let Watched { steady, reader } = self;
        let (reader, other) = reader.peek(OTHER, 4);
        steady.close(rt);
        let (reader, closed) = reader.peek(ROW, 4);
        let (_reader, front) = reader.front();
        (found_by(other), found_by(closed), front)
    }
}

const A: Found = Found::Put(b'a');

const B: Found = Found::Put(b'b');

const TOO_OLD: Found = Found::Refused(Refusal::TooOld { oldest: 2 });

const NOT_YET_AT_1: Found = Found::Refused(Refusal::NotYet { durable: 1 });

const NOT_YET_AT_2: Found = Found::Refused(Refusal::NotYet { durable: 2 });

const NOT_YET_AT_3: Found = Found::Refused(Refusal::NotYet { durable: 3 });

/// Changes, and what a reader finds of the row behind each of them at 0, 1, 2, 3 and 4.
const CHANGES: &[(Change, Five)] = &[
    (
        Change::Put(1, b'a'),
        (Found::Cold, A, NOT_YET_AT_1, NOT_YET_AT_1, NOT_YET_AT_1),
    ),
    (
        Change::Put(2, b'b'),
        (Found::Cold, A, B, NOT_YET_AT_2, NOT_YET_AT_2),
    ),
    (
        Change::Delete(3),
        (Found::Cold, A, B, Found::Absent, NOT_YET_AT_3),
    ),
    (
        Change::Prune(2),
        (TOO_OLD, TOO_OLD, Found::Cold, Found::Absent, NOT_YET_AT_3),
    ),
    (
        Change::Nothing(4),
        (TOO_OLD, TOO_OLD, Found::Cold, Found::Absent, Found::Absent),
    ),
];

#[test]
fn peeks_of_a_row_that_is_put_and_deleted(rt: HostRuntime) -> Result<(), Fail> {
    let mut watched = Watched::start(&rt, rt.alloc())?;
    for (change, wanted) in CHANGES {
        let (next, finds) = watched.finds(&rt, *change, *wanted);
        watched = next;
        assert!(rt; finds);
    }
    let closed = Found::Refused(Refusal::Closed);
    assert!(rt; watched.ended(&rt) == (Found::Cold, closed, 4));
    Ok(())
}

/// How many readers a publisher has that starts at 5 with three of them, and the front that the last of them finds once it is closed.
fn started<R: Wait>(rt: &R, alloc: Global) -> Result<(usize, Option<u64>), Refusal> {
    let (publisher, mut readers) = start(alloc, rt, Free, 5, 3)?;
    let count = readers.len();
    let last = readers.pop();
    publisher.close(rt);
    let front = match last {
        Some(reader) => Some(reader.front().1),
        None => None,
    };
    Ok((count, front))
}

/// What a reader of a plan without pairs, which starts at 5, finds there.
fn planned<R: Wait + Abort>(rt: &R, alloc: Global) -> Result<Peek, Refusal> {
    let pairs: Vec<Pair> = Vec::new(alloc);
    let mut publisher = Publisher::start(alloc, rt, Plan::of(&pairs), 5, 1)?;
    let reader = publisher.reader().expect(rt, "a reader");
    let (_reader, peek) = planned_row_at(reader, &publisher.tell(), Key { table: 0, row: 1 }, 5);
    publisher.close(rt);
    peek
}

#[test]
fn publishers_start_with_their_readers(rt: HostRuntime) {
    assert!(rt; started(&rt, rt.alloc()) == Ok((3, Some(5))));
    assert!(rt; planned(&rt, rt.alloc()) == Ok(Peek::Cold));
}
