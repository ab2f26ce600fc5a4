//! A publisher of numbers, and what a reader that was told of them finds.

ghost use Rattle.std.specs.Prelude.{◌≡◌, ◌+◌, ◌^◌, ◌<◌, ◌≤◌, length, OnOk};
ghost use Rattle.rep_snap.specs.Lists.{published};
ghost use Rattle.rep_snap.specs.Doors.{FoundShut};
ghost use Rattle.uses_snap.specs.Counting.{counted, FindsTheNumber};

use rep_snap::{
    Admits, Again, Door, Peek, Publisher, Reader, Told, histories_grow, peeks_have_one_answer,
};
use rep_types::{Key, Refusal, Value, Write};
use std::sync::Wait;

/// Allows the lists of the seqnos from 1 on, each of which puts its own number into one row.
#[derive(Clone, Copy)]
pub struct Numbers;

impl Admits for Numbers {
    ghost use Rattle.std.specs.Prelude.{◌≡◌, length, refl};
    ghost use Rattle.uses_snap.specs.Counting.{counted};

    ghost allows = { λ basis start pairs. pairs ≡ counted (length pairs) };

    ghost empty = { λ basis start. refl };
}

impl Again for Numbers {
    fn again(&self) -> Numbers {
        *self
    }
}

/// The row.
const ROW: Key = Key { table: 0, row: 1 };

/// Peeks the row at a snapshot that was told of: it finds what that seqno put, unless it was pruned, or
/// the door was found shut.
pub fn number_at<D: Door<Numbers> + Drop>(
    mut reader: Reader<Numbers, D>,
    told: &Told,
    snapshot: u64,
) -> (Reader<Numbers, D>, Result<Peek, Refusal>)
    requires own { told.now.book ≡ reader.book }
    requires start { reader.start ≡ 0 }
    requires told { (0 < snapshot) × (snapshot ≤ length (published told.now.list)) }
    ensures { FindsTheNumber (FoundShut D.knows D.shut) result.0 snapshot result.1 }
{
    histories_grow();
    peeks_have_one_answer();
    reader.learn(told);
    reader.peek(ROW, snapshot)
}

/// Publishes the next number.
pub fn publish_next<R: Wait>(
    rt: &R,
    publisher: Publisher<Numbers>,
    count: u64,
) -> (Publisher<Numbers>, Result<(), Refusal>)
    requires room { count + 1 < 2 ^ 64 }
    requires start { publisher.start ≡ 0 }
    requires list { published publisher.list ≡ counted count }
    ensures start { result.0.start ≡ 0 }
    ensures list { OnOk result.1 (published result.0.list ≡ counted (count + 1)) }
{
    histories_grow();
    let Ok(value) = Value::new(&[((count + 1) % 256) as u8]) else {
        unreachable!()
    };
    let writes = [Write {
        key: ROW,
        value: Some(value),
    }];
    let (publisher, done) = publisher.publish(rt, count + 1, &writes);
    match done {
        Ok(()) => (publisher, Ok(())),
        Err(refusal) => (publisher, Err(refusal)),
    }
}
