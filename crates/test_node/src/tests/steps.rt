//! What is done to a node with one seat and one reader, step by step, and what each step answers.

use super::paces::{AtOnce, Never};
use super::replicas::{Device, Found, new_disk, opened, put, putting_each, sound, writing};
use super::running::Running;
use rep_session::{Finished, Session};
use rep_types::{Key, Refusal, Verdict, Write, WriteSet};
use std::alloc::Global;
use std::process::Abort;
use std::sync::Wait;
use std::thread::Threads;

/// A node on a disk in memory.
pub(crate) type Node = Running<Device>;

/// What is done to a node, or in the transaction that was begun last.
#[derive(Clone, Copy)]
pub(crate) enum Call {
    /// An item that had seen so many before it puts a byte under the row, or deletes what is there.
    Write(u64, Key, Option<u8>),
    /// So many items that had seen nothing are handed in by two workers, which may go on or not.
    Batch(u32, bool),
    /// What waits is made durable, which the reader learns of.
    Keep,
    /// A checkpoint runs, which the reader learns of.
    Check,
    /// The node is halted.
    Halt,
    /// The front of the list that the reader finds.
    Front,
    /// The reader looks for the row at a snapshot.
    Peek(Key, u64),
    /// The row at a position is read.
    Read(Key, u64),
    /// A transaction begins.
    Begin,
    /// It looks for the row.
    Get(Key),
    /// It puts a byte under the row, or deletes what is there.
    Put(Key, Option<u8>),
    /// It ends, and what it wrote is handed in, if there is something.
    End,
    /// It ends, and what it wrote is looked at, if there is something.
    Finish,
}

/// What such a call answers.
#[derive(Clone, Copy, PartialEq, Eq)]
pub(crate) enum Answer {
    /// It is done, and there is nothing to tell.
    Done,
    /// An item has this verdict.
    Judged(Verdict),
    /// So many items are durable or told of, or the base or the front stands there.
    Stands(u64),
    /// This is found.
    Is(Found),
    /// A write set has these labels and had seen so many, it reads so many keys with this one first, and writes so many with this one
    /// first, under which it puts this.
    Wrote((u64, u64, u64), (usize, Option<Key>), (usize, Option<(Key, Found)>)),
    /// It is refused.
    Refused(Refusal),
}

/// A call, and what it answers.
pub(crate) type Step = (Call, Answer);

/// That an item has this verdict, or was refused.
fn judged(verdict: Result<Verdict, Refusal>) -> Answer {
    match verdict {
        Ok(verdict) => Answer::Judged(verdict),
        Err(refusal) => Answer::Refused(refusal),
    }
}

/// That so many items are durable, or the base stands there.
fn standing(number: Result<u64, Refusal>) -> Answer {
    match number {
        Ok(number) => Answer::Stands(number),
        Err(refusal) => Answer::Refused(refusal),
    }
}

/// Hands in the item, where there is one.
fn handed_in<R: Threads + Wait + Sync>(
    rt: &R,
    alloc: Global,
    node: Node,
    item: Result<WriteSet, Refusal>,
) -> (Node, Answer) {
    match item {
        Ok(item) => {
            let (node, verdict) = node.hand_in(rt, alloc, item);
            (node, judged(verdict))
        }
        Err(refusal) => (node, Answer::Refused(refusal)),
    }
}

/// Hands in so many items, which may go on or not, and says how many are told of.
fn handed_in_all<R: Threads + Wait + Sync>(
    rt: &R,
    alloc: Global,
    node: Node,
    count: u32,
    goes: bool,
) -> (Node, Answer) {
    let items = match putting_each(alloc, count) {
        Ok(items) => items,
        Err(refusal) => return (node, Answer::Refused(refusal)),
    };
    let (node, receipts) = if goes {
        node.hand_in_all(rt, alloc, &items, &AtOnce)
    } else {
        node.hand_in_all(rt, alloc, &items, &Never)
    };
    (node, Answer::Stands(receipts as u64))
}

/// Ends the transaction, and hands in what it wrote, if there is something.
fn ended<R: Threads + Wait + Sync>(
    rt: &R,
    alloc: Global,
    node: Node,
    session: &mut Session,
) -> (Node, Answer) {
    match session.finish() {
        Ok(Finished::WriteSet(item)) => handed_in(rt, alloc, node, Ok(item)),
        Ok(Finished::ReadOnly) => (node, Answer::Done),
        Err(refusal) => (node, Answer::Refused(refusal)),
    }
}

/// The first of the writes, and what it puts there.
fn first_of(writes: &[Write]) -> Option<(Key, Found)> {
    let write = writes.first()?;
    let found = match &write.value {
        Some(value) => put(value),
        None => Found::Nothing,
    };
    Some((write.key, found))
}

/// Ends the transaction, and says what it wrote, if there is something.
fn finished(session: &mut Session) -> Answer {
    match session.finish() {
        Ok(Finished::WriteSet(item)) => Answer::Wrote(
            (item.source(), item.trx(), item.last_seen()),
            (item.reads().len(), item.reads().first().copied()),
            (item.writes().len(), first_of(item.writes())),
        ),
        Ok(Finished::ReadOnly) => Answer::Done,
        Err(refusal) => Answer::Refused(refusal),
    }
}

/// Puts one byte under a key, or deletes what is there, in the transaction.
fn put_in(session: &mut Session, key: Key, byte: Option<u8>) -> Answer {
    let done = match byte {
        Some(byte) => session.put(key, &[byte]),
        None => session.delete(key),
    };
    match done {
        Ok(()) => Answer::Done,
        Err(refusal) => Answer::Refused(refusal),
    }
}

/// Makes a call of the transaction, or of what changes the node.
fn made<R: Threads + Wait + Sync>(
    rt: &R,
    alloc: Global,
    node: Node,
    session: &mut Session,
    call: Call,
) -> (Node, Answer) {
    match call {
        Call::Write(last_seen, key, byte) => {
            handed_in(rt, alloc, node, writing(last_seen, key, byte))
        }
        Call::Batch(count, goes) => handed_in_all(rt, alloc, node, count, goes),
        Call::End => ended(rt, alloc, node, session),
        Call::Begin => {
            let (node, begun) = node.begin(rt);
            *session = begun;
            (node, Answer::Done)
        }
        Call::Get(key) => {
            let (node, found) = node.get(rt, session, key);
            (node, Answer::Is(found))
        }
        Call::Put(key, byte) => (node, put_in(session, key, byte)),
        Call::Finish => (node, finished(session)),
        call => looked(rt, node, call),
    }
}

/// Makes a call of the keeper's or the reader's.
fn looked<R: Wait>(rt: &R, node: Node, call: Call) -> (Node, Answer) {
    match call {
        Call::Keep => {
            let (node, durable) = node.keep(rt);
            (node, standing(durable))
        }
        Call::Check => {
            let (node, base) = node.check(rt);
            (node, standing(base))
        }
        Call::Peek(key, snapshot) => {
            let (node, found) = node.peek(key, snapshot);
            (node, Answer::Is(found))
        }
        Call::Read(key, at) => {
            let (node, found) = node.read(rt, key, at);
            (node, Answer::Is(found))
        }
        Call::Front => {
            let (node, front) = node.front();
            (node, Answer::Stands(front))
        }
        Call::Halt => (node.halt(), Answer::Done),
        _ => (node, Answer::Refused(Refusal::NotDue)),
    }
}

/// Makes the calls, and compares what each answers.
fn goes<R: Threads + Wait + Sync + Abort>(
    rt: &R,
    alloc: Global,
    node: Node,
    steps: &[Step],
) -> Node {
    let (mut node, mut session) = node.begin(rt);
    let mut number: usize = 0;
    for (call, wanted) in steps {
        let (next, answer) = made(rt, alloc, node, &mut session, *call);
        node = next;
        assert!(rt; answer == *wanted, "step {number}");
        number = number.saturating_add(1);
    }
    node
}

/// Makes the calls on a new node, and compares what each answers.
pub(crate) fn gone<R: Threads + Wait + Sync + Abort>(
    rt: &R,
    alloc: Global,
    steps: &[Step],
) -> Result<Node, Refusal> {
    let replica = opened(alloc, sound(new_disk(alloc)?))?;
    let node = Running::start(rt, alloc, replica)?;
    Ok(goes(rt, alloc, node, steps))
}
