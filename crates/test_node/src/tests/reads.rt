//! What is read beside a node, and by transactions that go through a session: of what is published, and of its engine.

use super::limits::LIMITS;
use super::replicas::{Found, OTHER, OUTSIDE, ROW, let_go};
use super::running::found_by_peek;
use super::steps::{Answer, Call, Step, gone};
use rep_node::NodeReader;
use rep_types::{Refusal, Verdict};
use std::alloc::Global;
use std::process::Abort;
use std::sync::Wait;
use std::thread::Threads;

/// That the row is not there, and that no write of it is left in the published list.
const NOTHING: Answer = Answer::Is(Found::Nothing);

const COLD: Answer = Answer::Is(Found::Cold);

/// What is there: this byte.
const A: Answer = Answer::Is(Found::Put(b'a'));

const B: Answer = Answer::Is(Found::Put(b'b'));

const C: Answer = Answer::Is(Found::Put(b'c'));

const BAD_KEY: Answer = Answer::Is(Found::Refused(Refusal::BadKey));

const STOPPED: Answer = Answer::Is(Found::Refused(Refusal::Stopped));

const COMMIT: Answer = Answer::Judged(Verdict::Commit);

/// That it is not there yet, behind so many items.
const NOT_YET_AT_0: Answer = Answer::Is(Found::Refused(Refusal::NotYet { durable: 0 }));

const NOT_YET_AT_2: Answer = Answer::Is(Found::Refused(Refusal::NotYet { durable: 2 }));

const NOT_YET_AT_3: Answer = Answer::Is(Found::Refused(Refusal::NotYet { durable: 3 }));

const NOT_YET_AT_4: Answer = Answer::Is(Found::Refused(Refusal::NotYet { durable: 4 }));

/// That it is not there any more, where the base stands there.
const TOO_OLD_AT_2: Answer = Answer::Is(Found::Refused(Refusal::TooOld { oldest: 2 }));

const TOO_OLD_AT_3: Answer = Answer::Is(Found::Refused(Refusal::TooOld { oldest: 3 }));

/// What a reader finds of a node from its start on.
const PEEKS: &[Step] = &[
    (Call::Peek(ROW, 0), COLD),
    (Call::Peek(ROW, 1), NOT_YET_AT_0),
    (Call::Peek(OUTSIDE, 0), BAD_KEY),
    // `a` is put under one row and `b` under another, and the first is deleted again
    (Call::Write(0, ROW, Some(b'a')), COMMIT),
    (Call::Write(1, OTHER, Some(b'b')), COMMIT),
    (Call::Write(2, ROW, None), COMMIT),
    (Call::Keep, Answer::Stands(3)),
    (Call::Peek(ROW, 0), COLD),
    (Call::Peek(ROW, 1), A),
    (Call::Peek(ROW, 2), A),
    (Call::Peek(ROW, 3), NOTHING),
    (Call::Peek(OTHER, 1), COLD),
    (Call::Peek(OTHER, 3), B),
    (Call::Peek(OTHER, 4), NOT_YET_AT_3),
    (Call::Peek(OUTSIDE, 4), BAD_KEY),
    // behind a checkpoint
    (Call::Check, Answer::Stands(3)),
    (Call::Peek(ROW, 2), TOO_OLD_AT_3),
    (Call::Peek(ROW, 3), COLD),
    (Call::Peek(OTHER, 3), COLD),
    (Call::Peek(OTHER, 4), NOT_YET_AT_3),
    (Call::Peek(OUTSIDE, 0), BAD_KEY),
];

/// What a reader finds of a row that is put, put again and deleted, before and behind a checkpoint, and behind an item that writes nothing.
const PEEKS_AGAIN: &[Step] = &[
    (Call::Write(0, ROW, Some(b'a')), COMMIT),
    (Call::Write(1, ROW, Some(b'b')), COMMIT),
    (Call::Keep, Answer::Stands(2)),
    (Call::Peek(ROW, 0), COLD),
    (Call::Peek(ROW, 1), A),
    (Call::Peek(ROW, 2), B),
    (Call::Peek(ROW, 3), NOT_YET_AT_2),
    (Call::Peek(OTHER, 2), COLD),
    (Call::Check, Answer::Stands(2)),
    (Call::Write(2, ROW, None), COMMIT),
    (Call::Keep, Answer::Stands(3)),
    (Call::Peek(ROW, 0), TOO_OLD_AT_2),
    (Call::Peek(ROW, 1), TOO_OLD_AT_2),
    (Call::Peek(ROW, 2), COLD),
    (Call::Peek(ROW, 3), NOTHING),
    (Call::Peek(ROW, 4), NOT_YET_AT_3),
    (
        Call::Write(2, ROW, Some(b'c')),
        Answer::Judged(Verdict::Conflict(3)),
    ),
    (Call::Keep, Answer::Stands(4)),
    (Call::Peek(ROW, 3), NOTHING),
    (Call::Peek(ROW, 4), NOTHING),
    (Call::Peek(ROW, 5), NOT_YET_AT_4),
];

/// What is read of the base and of what is newer, and once the node was halted.
const READS: &[Step] = &[
    (Call::Write(0, ROW, Some(b'a')), COMMIT),
    (Call::Write(1, OTHER, Some(b'b')), COMMIT),
    (Call::Write(2, ROW, None), COMMIT),
    (Call::Keep, Answer::Stands(3)),
    // only the first row's state at the start is asked of the engine
    (Call::Read(ROW, 0), NOTHING),
    (Call::Read(ROW, 1), A),
    (Call::Read(ROW, 3), NOTHING),
    (Call::Read(OTHER, 1), NOTHING),
    (Call::Read(OTHER, 2), B),
    // of the base at the third item, and of the fourth, which is newer
    (Call::Check, Answer::Stands(3)),
    (Call::Write(3, ROW, Some(b'c')), COMMIT),
    (Call::Keep, Answer::Stands(4)),
    (Call::Read(ROW, 2), TOO_OLD_AT_3),
    (Call::Read(ROW, 3), NOTHING),
    (Call::Read(ROW, 4), C),
    (Call::Read(ROW, 5), NOT_YET_AT_4),
    (Call::Read(OTHER, 3), B),
    (Call::Read(OTHER, 4), B),
    (Call::Read(OUTSIDE, 5), BAD_KEY),
    // the engine is not asked any more, and what is published is
    (Call::Halt, Answer::Done),
    (Call::Read(ROW, 4), C),
    (Call::Read(OTHER, 4), STOPPED),
    (Call::Read(ROW, 3), STOPPED),
    (Call::Read(OUTSIDE, 3), BAD_KEY),
];

/// A transaction moves a row to another one and commits, and the next one finds it there.
const MOVES: &[Step] = &[
    (Call::Write(0, ROW, Some(b'a')), COMMIT),
    (Call::Begin, Answer::Done),
    (Call::Get(ROW), A),
    (Call::Get(OTHER), NOTHING),
    (Call::Get(OUTSIDE), BAD_KEY),
    (Call::Put(OTHER, Some(b'a')), Answer::Done),
    (Call::Put(ROW, None), Answer::Done),
    (Call::Get(ROW), NOTHING),
    (Call::Get(OTHER), A),
    (Call::End, COMMIT),
    (Call::Begin, Answer::Done),
    (Call::Get(ROW), NOTHING),
    (Call::Get(OTHER), A),
    (Call::End, Answer::Done),
];

/// Another item puts `b` under the row, and the transaction, whose snapshot is before that, moves the row and conflicts.
const MOVES_TOO_LATE: &[Step] = &[
    (Call::Write(0, ROW, Some(b'a')), COMMIT),
    (Call::Begin, Answer::Done),
    (Call::Write(1, ROW, Some(b'b')), COMMIT),
    (Call::Get(ROW), A),
    (Call::Get(OTHER), NOTHING),
    (Call::Get(OUTSIDE), BAD_KEY),
    (Call::Put(OTHER, Some(b'a')), Answer::Done),
    (Call::Put(ROW, None), Answer::Done),
    (Call::Get(ROW), NOTHING),
    (Call::Get(OTHER), A),
    (Call::End, Answer::Judged(Verdict::Conflict(2))),
    (Call::Begin, Answer::Done),
    (Call::Get(ROW), B),
    (Call::Get(OTHER), NOTHING),
    (Call::End, Answer::Done),
];

/// A transaction's snapshot is left behind by a checkpoint: it finds nothing but what it puts itself. The next one looks.
const BELOW_THE_BASE: &[Step] = &[
    (Call::Write(0, ROW, Some(b'a')), COMMIT),
    (Call::Begin, Answer::Done),
    (Call::Write(1, OTHER, Some(b'b')), COMMIT),
    (Call::Check, Answer::Stands(2)),
    (Call::Get(ROW), TOO_OLD_AT_2),
    (Call::Get(OTHER), TOO_OLD_AT_2),
    (Call::Get(OUTSIDE), BAD_KEY),
    (Call::Put(ROW, Some(b'c')), Answer::Done),
    (Call::Get(ROW), C),
    (Call::Begin, Answer::Done),
    (Call::Get(ROW), A),
    (Call::Get(OTHER), B),
    (Call::End, Answer::Done),
];

/// Steps, and how the node is left by them: what is durable, where the base stands, and whether it was halted.
const TRIALS: &[(&[Step], (u64, u64, bool))] = &[
    (PEEKS, (3, 3, false)),
    (PEEKS_AGAIN, (4, 2, false)),
    (READS, (4, 3, true)),
    (MOVES, (2, 0, false)),
    (MOVES_TOO_LATE, (3, 0, false)),
    (BELOW_THE_BASE, (2, 2, false)),
    (LIMITS, (1, 0, false)),
];

/// What a reader finds of a row of the schema and of one outside, and the front that it saw last.
fn found_last(reader: NodeReader) -> (Found, Found, u64) {
    let (reader, inside) = reader.peek(ROW, 3);
    let (reader, outside) = reader.peek(OUTSIDE, 3);
    let (_reader, front) = reader.front();
    (found_by_peek(inside), found_by_peek(outside), front)
}

/// Makes the calls on a new node, and compares what each answers. Says whether the node is left so once it is closed, and its reader
/// then finds it closed behind what is durable.
fn is_left<R: Threads + Wait + Sync + Abort>(
    rt: &R,
    alloc: Global,
    steps: &[Step],
    left: (u64, u64, bool),
) -> Result<bool, Refusal> {
    let node = gone(rt, alloc, steps)?;
    let (replica, reader) = node.close(rt);
    let found = (replica.durable(), replica.base(), replica.is_stopped());
    let_go(replica);
    let wanted = (
        Found::Refused(Refusal::Closed),
        Found::Refused(Refusal::BadKey),
        left.0,
    );
    Ok(found == left && found_last(reader) == wanted)
}

#[test]
fn rows_are_read_and_written_beside_a_node(rt: HostRuntime) {
    for (steps, left) in TRIALS {
        assert!(rt; is_left(&rt, rt.alloc(), steps, *left) == Ok(true));
    }
}

/// 300 items, of which the log has room for few: a checkpoint to the last of them, which the reader then finds.
const CHECKED: &[Step] = &[
    (Call::Batch(100, true), Answer::Stands(100)),
    (Call::Batch(100, true), Answer::Stands(100)),
    (Call::Batch(100, true), Answer::Stands(100)),
    (Call::Check, Answer::Stands(300)),
    (Call::Front, Answer::Stands(300)),
    (Call::Check, Answer::Refused(Refusal::NotDue)),
];

#[test]
fn checks_answer_the_base(rt: HostRuntime) {
    assert!(rt; is_left(&rt, rt.alloc(), CHECKED, (300, 300, false)) == Ok(true));
}

/// A pace that lets no worker go on, behind which the node is halted.
const HELD: &[Step] = &[
    (Call::Batch(2, false), Answer::Stands(0)),
    (Call::Keep, Answer::Refused(Refusal::Stopped)),
    (Call::Check, Answer::Refused(Refusal::Stopped)),
];

#[test]
fn a_pace_that_says_no_stops_keep(rt: HostRuntime) {
    assert!(rt; is_left(&rt, rt.alloc(), HELD, (0, 0, true)) == Ok(true));
}
