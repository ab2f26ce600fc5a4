//! How the engine's station is entered from the side, and left.

ghost use Rattle.std.specs.Prelude.{◌≡◌, ◌≤◌, [], IfOk, IfErr};
ghost use Rattle.rep_types.specs.declared.refusal.Refusal.TheVariants.{Stopped as is_stopped};
ghost use Rattle.rep_engine.specs.Engines.{durable_of};
ghost use Rattle.rep_ordered.specs.Views.{HasAll, StartsWith};
ghost use Rattle.rep_node.specs.Seats.{IsSeat, WentIdle};
ghost use Rattle.rep_node.specs.Keeping.{AtDesk};

use crate::home::{Desk, Home};
use crate::node::{LockSeat, Node};
use crate::parts::desk_of;
use rep_disk::Disk;
use rep_types::Refusal;
use std::sync::Wait;

impl<D: Disk> Node<D> {
    /// Enters the engine's station, once it is free.
    ///
    /// Refuses with `Stopped` where the node was halted.
    pub(crate) fn enter_desk<R: Wait>(
        &self,
        rt: &R,
        seat: &mut LockSeat<D>,
    ) -> Result<Desk<D>, Refusal>
        requires lock { seat.old.lock ≡ self.now }
        requires seat { IsSeat D.Disk seat.old.view }
        requires free { seat.old.view.held ≡ [] }
        ensures lock { seat.new.lock ≡ seat.old.lock }
        ensures at { IfOk result (AtDesk D.Disk 0 seat.old.view seat.new.view) }
        ensures known { IfOk result (λ desk. seat.new.view.durable ≤ durable_of desk.engine.log) }
        ensures runs { IfOk result (λ _. (seat.new.view.halted ≡ 0) × (seat.old.view.halted ≡ 0)) }
        ensures idle { IfErr result (λ _. WentIdle seat.old.view seat.new.view × (seat.new.view.given_up ≡ seat.old.view.given_up)) }
        ensures stopped { IfErr result (λ refusal. (refusal ≡ is_stopped) × (seat.new.view.halted ≡ 1)) }
        ensures last { HasAll seat.old.view → IfErr result (λ _. seat.old.view.halted ≡ 1) }
    {
        let desk = desk_of(self.lock.side_enter(rt, seat, 1)?);
        Ok(desk)
    }

    /// Leaves the engine's station: the engine works, and the node goes on.
    pub(crate) fn leave_desk(&self, seat: &mut LockSeat<D>, desk: Desk<D>)
        requires lock { seat.old.lock ≡ self.now }
        requires at { (v : _) × AtDesk D.Disk 0 v seat.old.view desk }
        ensures lock { seat.new.lock ≡ seat.old.lock }
        ensures idle { (v : _) → AtDesk D.Disk 0 v seat.old.view desk → WentIdle v seat.new.view }
        ensures backed { seat.new.view.backed ≡ durable_of desk.engine.log }
        ensures runs { (seat.new.view.halted ≡ seat.old.view.halted) × (seat.new.view.given_up ≡ seat.old.view.given_up) }
        ensures same { (seat.new.view.seen ≡ seat.old.view.seen) × (seat.new.view.durable ≡ seat.old.view.durable) }
    {
        self.lock.side_leave(seat, 1, Home::Desk(desk));
    }

    /// Halts the node, and gives the engine's station up.
    pub(crate) fn give_desk_up(&self, seat: &mut LockSeat<D>, desk: Desk<D>)
        requires lock { seat.old.lock ≡ self.now }
        requires at { (v : _) × AtDesk D.Disk 1 v seat.old.view desk }
        ensures lock { seat.new.lock ≡ seat.old.lock }
        ensures idle { (v : _) → AtDesk D.Disk 1 v seat.old.view desk → WentIdle v seat.new.view }
        ensures halted { seat.new.view.halted ≡ 1 }
        ensures seen { StartsWith seat.new.view.seen seat.old.view.seen }
    {
        self.changes.halt(&self.lock, seat);
        self.lock.give_up(seat, 1, Home::Desk(desk));
    }
}
