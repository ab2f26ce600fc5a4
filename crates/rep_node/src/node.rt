//! The node.

ghost use Rattle.std.specs.Prelude.{◌≡◌, ◌≤◌, IfErr, OnOk};
ghost use Rattle.rep_types.specs.declared.limits.TheConstants.{MAX_SEQNO};
ghost use Rattle.rep_ordered.specs.Views.{HasAll, Later};
ghost use Rattle.rep_node.specs.Seats.{SeesLegal};

use crate::changes::Changes;
use crate::home::Home;
use rep_disk::Disk;
use rep_ordered::{OrderedLock, Seat};
use rep_types::{Judged, Refusal};
use std::marker::Model;

/// A node that threads run: the database state machine (Pedone, Guerraoui and Schiper, 2003) on one disk, whose items any number of
/// threads hand in at once.
///
/// An item gets its seqno, is judged by the certifier in the order of the seqnos, waits for the engine, is written into the log together
/// with others that wait, and is durable after a sync. Each of the three, certifier, engine and the queue before it, lies in a station of
/// an [`OrderedLock`], so that items are judged and queued while the engine writes. Readers look up rows beside all that, and wait for
/// nobody.
///
/// A thread takes part by a [`Seat`]. What a seat knows, its view, exists in contracts alone: the history of all judged items as far as it
/// saw it, the seqnos that it drew, and the greatest durable seqno that it saw.
///
/// Nothing is promised of when a call returns, or that the threads get on.
pub struct Node<D: Disk> {
    pub(crate) lock: OrderedLock<Home<D>, Judged>,
    /// Where those sleep who wait for the node to change.
    pub(crate) changes: Changes,
}

/// A seat of a node's lock.
pub(crate) type LockSeat<D> = Seat<Home<D>, Judged>;

impl<D: Disk> Model for Node<D> {
    ghost use Rattle.std.specs.Prelude.{◌≡◌};
    ghost use Rattle.atomic_table.specs.Seated.{TableId, table_id_coded};
    ghost use Rattle.rep_ordered.specs.Seats.{stations_of};

    ghost Value = { TableId };

    ghost coded = { table_id_coded };

    ghost view = { λ n. n.lock };

    ghost invariant = { λ n. stations_of n.lock ≡ 3 };
}

impl<D: Disk> Node<D> {
    /// Tells all who wait that items are durable up to this seqno, which the seat has seen so at the engine.
    ///
    /// Refuses with `Stopped` where the node was halted.
    pub(crate) fn tell_durable(&self, seat: &mut LockSeat<D>, durable: u64) -> Result<(), Refusal>
        requires lock { seat.old.lock ≡ self.now }
        requires saw { (durable ≤ seat.old.view.backed) × (durable ≤ MAX_SEQNO) }
        ensures lock { seat.new.lock ≡ seat.old.lock }
        ensures later { Later seat.old.view seat.new.view }
        ensures sees { SeesLegal seat.old.view seat.new.view }
        ensures durable { OnOk result (durable ≤ seat.new.view.durable) }
        ensures runs { OnOk result (seat.new.view.halted ≡ 0) }
        ensures stopped { IfErr result (λ refusal. (refusal ≡ Refusal.Stopped) × (seat.new.view.halted ≡ 1)) }
        ensures last { HasAll seat.old.view → seat.new.view.halted ≡ seat.old.view.halted }
    {
        if self.changes.raise(&self.lock, seat, durable).halted {
            return Err(Refusal::Stopped);
        }
        Ok(())
    }
}
