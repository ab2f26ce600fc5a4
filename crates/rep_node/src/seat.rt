//! The seats of a node.

ghost use Rattle.std.specs.Prelude.{◌≡◌, ◌<◌, ◌≤◌, ◌↔◌, IsTrue, max};
ghost use Rattle.rep_ordered.specs.Seats.{seat_of};
ghost use Rattle.rep_ordered.specs.Steps.{Learns};
ghost use Rattle.rep_ordered.specs.Views.{Later, both, given, giving};
ghost use Rattle.rep_node.specs.Homes.{IsLegal};
ghost use Rattle.rep_node.specs.Seats.{SeesLegal, WentIdle};

use crate::home::Home;
use crate::node::{LockSeat, Node};
use rep_disk::Disk;
use std::marker::Model;

/// A token with which a thread takes part in a node, between its calls. What it knows is its view, which contracts speak of. A seat that
/// is dropped takes its seqnos with it, so that the node can't be closed any more.
#[derive(Drop)]
pub struct Seat<D: Disk> {
    pub(crate) seat: LockSeat<D>,
    /// How many seqnos it may still draw. Once it knows of a halt it may be less than that.
    pub(crate) allowance: u64,
}

impl<D: Disk> Model for Seat<D> {
    ghost use Rattle.rep_types.specs.declared.judged.Judged.{Judged};
    ghost use Rattle.rep_ordered.specs.Seats.{Place};
    ghost use Rattle.rep_node.specs.declared.home.Home.{Home};
    ghost use Rattle.std.specs.Coded.{codes};
    ghost use Rattle.rep_engine.specs.Engines.{engine_code};
    ghost use Rattle.rep_node.specs.Seats.{Rests};

    ghost Value = { Place (Home D) Judged };

    ghost coded = { Prim.hlevel (codes, engine_code D.code) };

    ghost view = { λ s. s.seat };

    ghost invariant = { λ s. Rests D.Disk s.seat.view s.allowance };
}

impl<D: Disk> Node<D> {
    /// Cuts off a new seat, to which it gives so many of the seqnos that this seat may still draw: at least one, and not all. The new seat
    /// has seen as much, and has drawn nothing.
    ///
    /// It takes no memory, so it is never refused.
    pub fn split(&self, seat: &mut Seat<D>, give: u64) -> Seat<D>
        requires lock { seat.old.lock ≡ self.now }
        requires some { 0 < give }
        requires less { give < seat.old.view.allowance }
        ensures seat { seat.new ≡ seat_of seat.old.lock (giving give seat.old.view) }
        ensures given { result ≡ seat_of seat.old.lock (given give seat.old.view) }
    {
        let other = self.lock.split(&mut seat.seat, give);
        seat.allowance = seat.allowance.saturating_sub(give);
        Seat {
            seat: other,
            allowance: give,
        }
    }

    /// Takes in another seat of the node. The seat then may draw what both might, has drawn what both had, no seqno twice, and has seen at
    /// least what both had: the whole history, which is legal. It learns of no halt that neither of the two knew.
    ///
    /// It takes no memory and does not wait.
    pub fn join(&self, seat: &mut Seat<D>, other: Seat<D>)
        requires lock { (seat.old.lock ≡ self.now) × (other.lock ≡ self.now) }
        ensures lock { seat.new.lock ≡ seat.old.lock }
        ensures joined { Learns (IsLegal seat.old.view.first) other.view.seen (both seat.old.view other.view) seat.new.view }
        ensures halted { seat.new.view.halted ≡ max seat.old.view.halted other.view.halted }
    {
        let Seat {
            seat: other,
            allowance,
        } = other;
        self.lock.join(&mut seat.seat, other);
        seat.allowance = seat.allowance.saturating_add(allowance);
    }

    /// Halts the node, for good: whoever waits, and whoever hands an item in, is refused with `Stopped` once he reads it. What is
    /// durable then stays so. It takes no memory and does not wait.
    pub fn halt(&self, seat: &mut Seat<D>)
        requires { seat.old.lock ≡ self.now }
        ensures lock { seat.new.lock ≡ seat.old.lock }
        ensures later { Later seat.old.view seat.new.view }
        ensures sees { SeesLegal seat.old.view seat.new.view }
        ensures halted { seat.new.view.halted ≡ 1 }
    {
        self.changes.halt(&self.lock, &mut seat.seat);
    }

    /// Whether the node was halted.
    pub(crate) fn is_halted(&self, seat: &mut Seat<D>) -> bool
        requires { seat.old.lock ≡ self.now }
        ensures lock { seat.new.lock ≡ seat.old.lock }
        ensures later { Later seat.old.view seat.new.view }
        ensures idle { WentIdle seat.old.view seat.new.view }
        ensures halted { IsTrue result ↔ (seat.new.view.halted ≡ 1) }
        ensures one_bit { seat.new.view.halted ≤ 1 }
    {
        self.lock.front(&mut seat.seat).halted
    }
}
