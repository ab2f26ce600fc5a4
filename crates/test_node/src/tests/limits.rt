//! A transaction as its session sees it: what it reads and writes, the most keys of either, and what is refused once it has ended.

use super::replicas::{Found, OTHER, ROW};
use super::steps::{Answer, Call, Step};
use rep_types::{Key, Refusal, Verdict};

const DONE: Answer = Answer::Done;

const A: Answer = Answer::Is(Found::Put(b'a'));

const C: Answer = Answer::Is(Found::Put(b'c'));

const D: Answer = Answer::Is(Found::Put(b'd'));

const NOTHING: Answer = Answer::Is(Found::Nothing);

const TOO_MANY_READS: Answer = Answer::Is(Found::Refused(Refusal::TooManyReads));

const TOO_MANY_WRITES: Answer = Answer::Refused(Refusal::TooManyWrites);

/// What is answered once the transaction has ended.
const CLOSED: Answer = Answer::Refused(Refusal::Closed);

const NOT_READ: Answer = Answer::Is(Found::Refused(Refusal::Closed));

/// The first row.
const FIRST: Key = Key { table: 0, row: 0 };

/// The row of the 16th key from `ROW` on.
const LAST: Key = Key { table: 0, row: 16 };

/// Transactions behind an item that put `a` under the row. None of them is handed in.
pub(crate) const LIMITS: &[Step] = &[
    (
        Call::Write(0, ROW, Some(b'a')),
        Answer::Judged(Verdict::Commit),
    ),
    // one that reads a row and puts `b` under another is closed once it has ended
    (Call::Begin, DONE),
    (Call::Get(ROW), A),
    (Call::Put(OTHER, Some(b'b')), DONE),
    (
        Call::Finish,
        Answer::Wrote(
            (7, 9, 1),
            (1, Some(ROW)),
            (1, Some((OTHER, Found::Put(b'b')))),
        ),
    ),
    (Call::Get(ROW), NOT_READ),
    (Call::Put(ROW, Some(b'c')), CLOSED),
    (Call::Put(ROW, None), CLOSED),
    (Call::Finish, CLOSED),
    // one that only reads has nothing to deliver, and is closed then too
    (Call::Begin, DONE),
    (Call::Get(ROW), A),
    (Call::Finish, DONE),
    (Call::Get(ROW), NOT_READ),
    (Call::Put(ROW, Some(b'c')), CLOSED),
    (Call::Put(ROW, None), CLOSED),
    (Call::Finish, CLOSED),
    // a 17th key is not read; what was read is read again, and what the transaction writes it still finds
    (Call::Begin, DONE),
    (Call::Get(ROW), A),
    (Call::Get(Key { table: 0, row: 2 }), NOTHING),
    (Call::Get(Key { table: 0, row: 3 }), NOTHING),
    (Call::Get(Key { table: 0, row: 4 }), NOTHING),
    (Call::Get(Key { table: 0, row: 5 }), NOTHING),
    (Call::Get(Key { table: 0, row: 6 }), NOTHING),
    (Call::Get(Key { table: 0, row: 7 }), NOTHING),
    (Call::Get(Key { table: 0, row: 8 }), NOTHING),
    (Call::Get(Key { table: 0, row: 9 }), NOTHING),
    (Call::Get(Key { table: 0, row: 10 }), NOTHING),
    (Call::Get(Key { table: 0, row: 11 }), NOTHING),
    (Call::Get(Key { table: 0, row: 12 }), NOTHING),
    (Call::Get(Key { table: 0, row: 13 }), NOTHING),
    (Call::Get(Key { table: 0, row: 14 }), NOTHING),
    (Call::Get(Key { table: 0, row: 15 }), NOTHING),
    (Call::Get(Key { table: 0, row: 16 }), NOTHING),
    (Call::Get(ROW), A),
    (Call::Get(FIRST), TOO_MANY_READS),
    (Call::Get(LAST), NOTHING),
    (Call::Put(FIRST, Some(b'c')), DONE),
    (Call::Get(FIRST), C),
    // a 17th key is not written; what was written is deleted and put again
    (Call::Begin, DONE),
    (Call::Put(ROW, Some(b'c')), DONE),
    (Call::Put(Key { table: 0, row: 2 }, Some(b'c')), DONE),
    (Call::Put(Key { table: 0, row: 3 }, Some(b'c')), DONE),
    (Call::Put(Key { table: 0, row: 4 }, Some(b'c')), DONE),
    (Call::Put(Key { table: 0, row: 5 }, Some(b'c')), DONE),
    (Call::Put(Key { table: 0, row: 6 }, Some(b'c')), DONE),
    (Call::Put(Key { table: 0, row: 7 }, Some(b'c')), DONE),
    (Call::Put(Key { table: 0, row: 8 }, Some(b'c')), DONE),
    (Call::Put(Key { table: 0, row: 9 }, Some(b'c')), DONE),
    (Call::Put(Key { table: 0, row: 10 }, Some(b'c')), DONE),
    (Call::Put(Key { table: 0, row: 11 }, Some(b'c')), DONE),
    (Call::Put(Key { table: 0, row: 12 }, Some(b'c')), DONE),
    (Call::Put(Key { table: 0, row: 13 }, Some(b'c')), DONE),
    (Call::Put(Key { table: 0, row: 14 }, Some(b'c')), DONE),
    (Call::Put(Key { table: 0, row: 15 }, Some(b'c')), DONE),
    (Call::Put(Key { table: 0, row: 16 }, Some(b'c')), DONE),
    (Call::Put(ROW, None), DONE),
    (Call::Put(LAST, Some(b'd')), DONE),
    (Call::Put(FIRST, Some(b'c')), TOO_MANY_WRITES),
    (Call::Put(FIRST, None), TOO_MANY_WRITES),
    (Call::Get(ROW), NOTHING),
    (Call::Get(LAST), D),
    (
        Call::Finish,
        Answer::Wrote((7, 9, 1), (0, None), (16, Some((ROW, Found::Nothing)))),
    ),
];
