//! What a session reads beside a node that runs.

ghost use Rattle.std.specs.Prelude.{◌≡◌, Some, refl};
ghost use Rattle.rep_node.specs.Reading.{IsReaderOf};

use crate::node::Node;
use crate::origin::Origin;
use crate::reading::NodeReader;
use crate::seat::Seat;
use rep_disk::Disk;
use rep_session::Rows;
use rep_snap::{Door, TwoCopies, histories_grow, peeks_follow_the_fold};
use rep_stations::histories_extend_the_order;
use rep_types::{Key, Refusal, Schema, Value, history_by_items, reads_by_items};
use rep_versions::versions_follow_the_items;
use std::marker::Model;
use std::sync::Wait;

/// The rows of a node that threads run, as a seat and a reader of it know them: for the sessions of one thread.
pub struct NodeRows<'n, D: Disk, R: Wait, W: Door<Origin> + Drop = TwoCopies<Origin>> {
    rt: &'n R,
    node: &'n Node<D>,
    seat: Seat<D>,
    /// Away only while it reads.
    reader: Option<NodeReader<W>>,
}

impl<'n, D: Disk, R: Wait, W: Door<Origin> + Drop> Model for NodeRows<'n, D, R, W> {
    ghost use Rattle.std.specs.Prelude.{◌≡◌, IsSome, IfSome};
    ghost use Rattle.rep_node.specs.Reading.{IsReaderOf};
    ghost use Rattle.rep_node.specs.Rows.{Beside};
    ghost use Rattle.std.specs.Coded.{codes};
    ghost use Rattle.rep_engine.specs.Engines.{engine_code};

    ghost Value = { Beside D };

    ghost coded = { Prim.hlevel (codes, engine_code D.code) };

    ghost view = { λ r. record { seat = r.seat; reader = r.reader } };

    ghost invariant = { λ r. (r.seat.lock ≡ r.node.now) × IsSome r.reader × IfSome r.reader (IsReaderOf r.seat.view) };
}

impl<'n, D: Disk, R: Wait, W: Door<Origin> + Drop> NodeRows<'n, D, R, W> {
    /// The rows, by a seat of the node and a reader that was handed out with it.
    pub fn new(
        rt: &'n R,
        node: &'n Node<D>,
        seat: Seat<D>,
        reader: NodeReader<W>,
    ) -> NodeRows<'n, D, R, W>
        requires lock { seat.lock ≡ node.now }
        requires own { IsReaderOf seat.view reader }
        ensures { result ≡ record { seat = seat; reader = Some reader } }
    {
        NodeRows {
            rt,
            node,
            seat,
            reader: Some(reader),
        }
    }

    /// The seat and the reader again.
    pub fn into_parts(self) -> (Seat<D>, NodeReader<W>)
        ensures seat { result.0 ≡ self.entry.seat }
        ensures reader { Some result.1 ≡ self.entry.reader }
        ensures own { IsReaderOf result.0.view result.1 }
    {
        let NodeRows {
            rt: _,
            node: _,
            seat,
            reader,
        } = self;
        match reader {
            Some(reader) => (seat, reader),
            None => unreachable!(),
        }
    }
}

/// The rows of a node that threads run. A read is answered of what is published where that has a write of the row at or below the position,
/// and nobody is waited for; else the engine is asked. It is refused as `Node::read` says.
///
/// The rows are those of each order that begins as the node's own does, and goes on from all that the seat has seen and the reader saw
/// published.
impl<'n, D: Disk, R: Wait, W: Door<Origin> + Drop> Rows for NodeRows<'n, D, R, W> {
    ghost use Rattle.std.specs.Prelude.{refl};
    ghost use Rattle.rep_snap.specs.Doors.{FoundShut};
    ghost use Rattle.rep_node.specs.Rows.{tables_of, HasRowsOf, IsFrontBeside, ReadsBeside};

    ghost tables = { λ x. tables_of x.reader };

    ghost front_gives = { IsFrontBeside (FoundShut W.knows W.shut) };

    ghost read_gives = { ReadsBeside D.Disk (FoundShut W.knows W.shut) };

    ghost are_of = { HasRowsOf D.Disk };

    ghost forgets_nothing = { λ a b key s answer p L gives of. gives.forgets p L of };

    ghost reads_the_order = { λ a b key s row p L gives of. gives.rows row p L refl of };

    fn schema(&self) -> &Schema {
        self.seat.is_one();
        match &self.reader {
            Some(reader) => reader.schema(),
            None => unreachable!(),
        }
    }

    fn front(&mut self) -> u64 {
        let Some(reader) = self.reader.take() else {
            unreachable!()
        };
        let (reader, front) = reader.front();
        self.reader = Some(reader);
        front
    }

    fn read_at(&mut self, key: Key, s: u64) -> Result<Option<Value>, Refusal> {
        histories_grow();
        peeks_follow_the_fold();
        versions_follow_the_items();
        history_by_items();
        reads_by_items();
        histories_extend_the_order::<D>();
        let Some(reader) = self.reader.take() else {
            unreachable!()
        };
        let (reader, row) = self.node.read(self.rt, &mut self.seat, reader, key, s);
        self.reader = Some(reader);
        row
    }
}
