//! A node with one seat and one reader, as a test of one thread sees it: each call of it stands here once, in a function that promises
//! nothing, so that no test has to be proved beside its contract.

use super::paces::AtOnce;
use super::replicas::{Found, found_by_read, let_go, put};
use rep_disk::Disk;
use rep_node::{Batch, Node, NodeReader, NodeRows, Pace, Seat};
use rep_replica::Replica;
use rep_session::Session;
use rep_snap::Peek;
use rep_types::{Item, Key, Refusal, Verdict, WriteSet};
use std::alloc::Global;
use std::marker::Model;
use std::sync::Wait;
use std::thread::Threads;

/// The node, its one seat, and its one reader.
pub(crate) struct Running<D: Disk> {
    node: Node<D>,
    seat: Seat<D>,
    reader: NodeReader,
}

impl<D: Disk> Model for Running<D> {
    ghost use Rattle.atomic_table.specs.Seated.{TableId, table_id_coded};
    ghost use Rattle.test_node.specs.Running.{Runs};

    ghost Value = { TableId };

    ghost coded = { table_id_coded };

    ghost view = { λ r. r.node };

    ghost invariant = { λ r. Runs r.node r.seat r.reader };
}

/// What a peek found.
pub(crate) fn found_by_peek(peek: Result<Peek, Refusal>) -> Found {
    match peek {
        Ok(Peek::Value(value)) => put(&value),
        Ok(Peek::Absent) => Found::Nothing,
        Ok(Peek::Cold) => Found::Cold,
        Err(refusal) => Found::Refused(refusal),
    }
}

/// What became of the one item of a batch.
fn verdict_of(batch: &Batch) -> Result<Verdict, Refusal> {
    if let Some(refusal) = batch.end {
        return Err(refusal);
    }
    if batch.receipts.len() == 1 {
        Ok(batch.receipts[0].verdict)
    } else {
        Err(Refusal::NotDue)
    }
}

impl<D: Disk + Drop> Running<D> {
    /// Starts a node from a replica that is quiet and of a cluster.
    pub(crate) fn start<R: Wait>(
        rt: &R,
        alloc: Global,
        replica: Replica<D>,
    ) -> Result<Running<D>, Refusal> {
        if !replica.is_quiet() || replica.uuid().is_nil() {
            let_go(replica);
            return Err(Refusal::Undefined);
        }
        match Node::start(alloc, rt, replica, 1) {
            Ok((node, seat, mut readers)) => match readers.pop() {
                Some(reader) => Ok(Running { node, seat, reader }),
                None => unreachable!(),
            },
            Err((replica, refusal)) => {
                let_go(replica);
                Err(refusal)
            }
        }
    }
}

impl<D: Disk> Running<D> {
    /// Makes durable what waits, and the reader learns of it. It says what is durable.
    pub(crate) fn keep<R: Wait>(self, rt: &R) -> (Running<D>, Result<u64, Refusal>) {
        let Running {
            node,
            mut seat,
            mut reader,
        } = self;
        let done = match node.keep(rt, &mut seat, 0) {
            Ok(kept) => {
                reader.learn(&kept.told);
                Ok(kept.durable)
            }
            Err(refusal) => Err(refusal),
        };
        (Running { node, seat, reader }, done)
    }

    /// Runs a checkpoint, and the reader learns of it. It says where the base stands.
    pub(crate) fn check<R: Wait>(self, rt: &R) -> (Running<D>, Result<u64, Refusal>) {
        let Running {
            node,
            mut seat,
            mut reader,
        } = self;
        let done = match node.check_run(rt, &mut seat) {
            Ok(checked) => {
                reader.learn(&checked.told);
                Ok(checked.base)
            }
            Err(refusal) => Err(refusal),
        };
        (Running { node, seat, reader }, done)
    }

    /// What the reader finds of the row.
    pub(crate) fn peek(self, key: Key, snapshot: u64) -> (Running<D>, Found) {
        let Running { node, seat, reader } = self;
        let (reader, peek) = reader.peek(key, snapshot);
        (Running { node, seat, reader }, found_by_peek(peek))
    }

    /// The front of the list that the reader finds.
    pub(crate) fn front(self) -> (Running<D>, u64) {
        let Running { node, seat, reader } = self;
        let (reader, front) = reader.front();
        (Running { node, seat, reader }, front)
    }

    /// What is read under the key.
    pub(crate) fn read<R: Wait>(self, rt: &R, key: Key, at: u64) -> (Running<D>, Found) {
        let Running {
            node,
            mut seat,
            reader,
        } = self;
        let (reader, row) = node.read(rt, &mut seat, reader, key, at);
        (Running { node, seat, reader }, found_by_read(row))
    }

    /// Begins a transaction beside the node, under the labels 7 and 9.
    pub(crate) fn begin<R: Wait>(self, rt: &R) -> (Running<D>, Session) {
        let Running { node, seat, reader } = self;
        let mut rows = NodeRows::new(rt, &node, seat, reader);
        let session = Session::begin(&mut rows, 7, 9);
        let (seat, reader) = rows.into_parts();
        (Running { node, seat, reader }, session)
    }

    /// What the transaction finds under the key.
    pub(crate) fn get<R: Wait>(
        self,
        rt: &R,
        session: &mut Session,
        key: Key,
    ) -> (Running<D>, Found) {
        let Running { node, seat, reader } = self;
        let mut rows = NodeRows::new(rt, &node, seat, reader);
        let row = session.get(&mut rows, key);
        let (seat, reader) = rows.into_parts();
        (Running { node, seat, reader }, found_by_read(row))
    }

    /// Halts the node.
    pub(crate) fn halt(self) -> Running<D> {
        let Running {
            node,
            mut seat,
            reader,
        } = self;
        node.halt(&mut seat);
        Running { node, seat, reader }
    }

    /// Closes the node. The reader is left.
    pub(crate) fn close<R: Wait>(self, rt: &R) -> (Replica<D>, NodeReader) {
        let Running { node, seat, reader } = self;
        (node.close(rt, seat), reader)
    }
}

impl<D: Disk + Send> Running<D> {
    /// Hands items in by two workers of this pace, with a keeper beside. It says how many receipts came.
    pub(crate) fn hand_in_all<R: Threads + Wait + Sync, P: Pace + Sync>(
        self,
        rt: &R,
        alloc: Global,
        items: &[Item],
        pace: &P,
    ) -> (Running<D>, usize) {
        let Running {
            node,
            mut seat,
            reader,
        } = self;
        let batch = node.serve(rt, alloc, &mut seat, items, 2, pace);
        (Running { node, seat, reader }, batch.receipts.len())
    }

    /// Hands in one item, with a keeper beside. It says what verdict it has.
    pub(crate) fn hand_in<R: Threads + Wait + Sync>(
        self,
        rt: &R,
        alloc: Global,
        item: WriteSet,
    ) -> (Running<D>, Result<Verdict, Refusal>) {
        let Running {
            node,
            mut seat,
            reader,
        } = self;
        let items = [Item::WriteSet(item)];
        let batch = node.serve(rt, alloc, &mut seat, &items, 1, &AtOnce);
        (Running { node, seat, reader }, verdict_of(&batch))
    }
}
