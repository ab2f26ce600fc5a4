//! Rows are moved and swapped through sessions of a replica on a disk in memory, also beside an item that changes one of them.

use super::replicas::{
    Device, Found, OTHER, OUTSIDE, ROW, found_by_read, let_go, new_disk, opened, sound, writing,
};
use rep_replica::Replica;
use rep_session::Finished;
use rep_steps::{Answer, Event};
use rep_types::{Key, Refusal, Verdict, WriteSet};
use std::alloc::Global;
use std::process::Abort;
use uses_session::{move_row, swap_rows};

/// A replica on a disk in memory.
type Rows = Replica<Device>;

/// What is done with two rows.
#[derive(Clone, Copy)]
enum Change {
    Move(Key, Key),
    Swap(Key, Key),
}

/// What came of a change.
#[derive(Clone, Copy, PartialEq, Eq)]
enum Came {
    /// There was nothing to deliver.
    Nothing,
    /// It was delivered, with this verdict.
    Judged(Verdict),
    /// It was refused.
    Refused(Refusal),
}

/// An item that puts a byte under a row before the change, what is changed, an item that does so before that is delivered, what comes
/// of the change, and what stands under the two rows then, where `a` stood under the first.
type Trial = (
    Option<(Key, u8)>,
    Change,
    Option<(Key, u8)>,
    Came,
    (Found, Found),
);

const REFUSED: Came = Came::Refused(Refusal::BadKey);

const COMMIT: Came = Came::Judged(Verdict::Commit);

/// It conflicts with the second item.
const CONFLICT: Came = Came::Judged(Verdict::Conflict(2));

const A: Found = Found::Put(b'a');

const B: Found = Found::Put(b'b');

const NONE: Found = Found::Nothing;

const TRIALS: &[Trial] = &[
    // a row is moved, and where there is none, none is
    (None, Change::Move(ROW, OTHER), None, COMMIT, (NONE, A)),
    (
        None,
        Change::Move(OTHER, ROW),
        None,
        Came::Nothing,
        (A, NONE),
    ),
    // a row that changed meanwhile is not moved: the item that changes it comes first
    (
        None,
        Change::Move(ROW, OTHER),
        Some((ROW, b'b')),
        CONFLICT,
        (B, NONE),
    ),
    // rows outside the schema
    (None, Change::Move(OUTSIDE, OTHER), None, REFUSED, (A, NONE)),
    (None, Change::Move(ROW, OUTSIDE), None, REFUSED, (A, NONE)),
    (None, Change::Swap(ROW, OUTSIDE), None, REFUSED, (A, NONE)),
    // two rows are swapped, and not where one of them changed meanwhile
    (
        Some((OTHER, b'b')),
        Change::Swap(OTHER, ROW),
        None,
        COMMIT,
        (B, A),
    ),
    (
        None,
        Change::Swap(ROW, OTHER),
        Some((OTHER, b'b')),
        CONFLICT,
        (A, B),
    ),
];

/// Delivers the item behind those that are there, and has the replica settle: its verdict.
fn delivered(rows: &mut Rows, item: WriteSet) -> Result<Verdict, Refusal> {
    let seqno = rows.durable().saturating_add(1);
    match rows.step(Event::Deliver(seqno, item)) {
        Answer::Gave(verdict) => {
            rows.settle()?;
            Ok(verdict)
        }
        Answer::Refused(refusal) => Err(refusal),
        _ => Err(Refusal::NotDue),
    }
}

/// The item behind those that are there puts this byte under the row, where one is asked for. Refuses with `NotDue` where it does not
/// commit.
fn put_where_asked(rows: &mut Rows, asked: Option<(Key, u8)>) -> Result<(), Refusal> {
    let Some((key, byte)) = asked else {
        return Ok(());
    };
    let item = writing(rows.durable(), key, Some(byte))?;
    match delivered(rows, item)? {
        Verdict::Commit => Ok(()),
        _ => Err(Refusal::NotDue),
    }
}

/// Makes the change, under the labels 7 and 9.
fn changed(rows: &mut Rows, change: Change) -> Result<Finished, Refusal> {
    match change {
        Change::Move(from, to) => move_row(rows, 7, 9, from, to),
        Change::Swap(one, other) => swap_rows(rows, 7, 9, one, other),
    }
}

/// Delivers what the change ended with, behind the item that comes first where one is asked for.
fn came_of(
    rows: &mut Rows,
    ends: Result<Finished, Refusal>,
    meanwhile: Option<(Key, u8)>,
) -> Result<Came, Refusal> {
    match ends {
        Ok(Finished::WriteSet(item)) => {
            put_where_asked(rows, meanwhile)?;
            Ok(Came::Judged(delivered(rows, item)?))
        }
        Ok(Finished::ReadOnly) => Ok(Came::Nothing),
        Err(refusal) => Ok(Came::Refused(refusal)),
    }
}

/// What stands under the row.
fn found_in(rows: &mut Rows, key: Key) -> Found {
    let at = rows.durable();
    found_by_read(rows.read(key, at))
}

/// Whether this comes of the trial on a replica without items.
fn is_so(rows: &mut Rows, trial: &Trial) -> Result<bool, Refusal> {
    let (before, change, meanwhile, wanted, left) = *trial;
    put_where_asked(rows, Some((ROW, b'a')))?;
    put_where_asked(rows, before)?;
    let ends = changed(rows, change);
    let came = came_of(rows, ends, meanwhile)?;
    Ok(came == wanted && (found_in(rows, ROW), found_in(rows, OTHER)) == left)
}

/// The same of a new replica.
fn comes_so(alloc: Global, trial: &Trial) -> Result<bool, Refusal> {
    let mut rows = opened(alloc, sound(new_disk(alloc)?))?;
    let came = is_so(&mut rows, trial);
    let_go(rows);
    came
}

#[test]
fn rows_are_moved_and_swapped(rt: HostRuntime) {
    let mut number: usize = 0;
    for trial in TRIALS {
        assert!(rt; comes_so(rt.alloc(), trial) == Ok(true), "trial {number}");
        number = number.saturating_add(1);
    }
}
