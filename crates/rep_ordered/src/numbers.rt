//! The numbers: how they are drawn, and how seats share the right to draw them.

ghost use Rattle.std.specs.Prelude.{◌≡◌, ◌+◌, ◌<◌, ◌≤◌, [], length, max};
ghost use Rattle.rep_ordered.specs.Counts.{times};
ghost use Rattle.rep_ordered.specs.Views.{with_number, giving, given, both};
ghost use Rattle.rep_ordered.specs.Steps.{Learns};
ghost use Rattle.rep_ordered.specs.Seats.{seat_of};

use crate::lock::OrderedLock;
use crate::plays::{Claim, Cut, Giving, Glue, Look, Numbers};
use crate::rule::Keeps;
use crate::seat::Seat;
use rep_types::MAX_SEQNO;
use std::marker::Brand;

impl<V: Keeps<E>, E> OrderedLock<V, E> {
    /// Draws the next number, a ticket, which no seat of the lock has drawn before. It is above the
    /// numbers of the history that the seat has seen, and at most `MAX_SEQNO`. The seat's allowance is
    /// then one less.
    ///
    /// The seat's allowance is not used up. It takes no memory and does not wait.
    pub fn claim(&self, seat: &mut Seat<V, E>) -> u64
        requires lock { seat.old.lock ≡ self.now }
        requires allowance { 0 < seat.old.view.allowance }
        ensures seat { seat.new ≡ seat_of seat.old.lock (with_number result seat.old.view) }
        ensures limit { result ≤ MAX_SEQNO }
        ensures later { seat.old.view.start + length seat.old.view.seen ≤ result }
        ensures fresh { times result seat.old.view.own ≡ 0 }
        ensures drawn { 0 < times result seat.new.view.own }
    {
        self.table.shared.fetch_add::<Claim>(&mut seat.seat, 0, 1)
    }

    /// The number that is drawn next, as it is now. It is a hint: others draw numbers meanwhile, and no
    /// clause speaks of it.
    pub fn next_number(&self) -> u64 {
        self.table.shared.peek(0)
    }

    /// Cuts off a new seat, to which it gives so many of the numbers that this seat may still draw: at
    /// least one, and not all. The new seat has seen as much, has drawn nothing and holds nothing.
    ///
    /// It takes no memory, so it is never refused.
    pub fn split(&self, seat: &mut Seat<V, E>, give: u64) -> Seat<V, E>
        requires lock { seat.old.lock ≡ self.now }
        requires some { 0 < give }
        requires less { give < seat.old.view.allowance }
        ensures seat { seat.new ≡ seat_of seat.old.lock (giving give seat.old.view) }
        ensures given { result ≡ seat_of seat.old.lock (given give seat.old.view) }
    {
        self.split_as::<Brand>(seat, give)
    }

    fn split_as<G: Giving>(&self, seat: &mut Seat<V, E>, give: u64) -> Seat<V, E>
        requires lock { seat.old.lock ≡ self.now }
        requires some { 0 < give }
        requires less { give < seat.old.view.allowance }
        requires pick { G.give ≡ give }
        ensures seat { seat.new ≡ seat_of seat.old.lock (giving give seat.old.view) }
        ensures given { result ≡ seat_of seat.old.lock (given give seat.old.view) }
    {
        Seat {
            seat: self.table.shared.split_seat::<Cut<G>>(&mut seat.seat),
        }
    }

    /// Takes in another seat of the lock, which holds no station. The seat then may draw what both
    /// might, has drawn what both had, no number twice, and has seen at least what both had: the
    /// whole history, which is lawful. It may draw no more numbers than the lock has. It learns of no
    /// halt that neither of the two knew.
    ///
    /// It takes no memory and does not wait.
    pub fn join(&self, seat: &mut Seat<V, E>, other: Seat<V, E>)
        requires lock { (seat.old.lock ≡ self.now) × (other.lock ≡ self.now) }
        requires free { other.view.held ≡ [] }
        ensures lock { seat.new.lock ≡ seat.old.lock }
        ensures joined { Learns (V.legal seat.old.view.first) other.view.seen (both seat.old.view other.view) seat.new.view }
        ensures halted { seat.new.view.halted ≡ max seat.old.view.halted other.view.halted }
    {
        self.join_as::<Brand>(seat, other);
    }

    fn join_as<N: Numbers<V>>(&self, seat: &mut Seat<V, E>, other: Seat<V, E>)
        requires lock { (seat.old.lock ≡ self.now) × (other.lock ≡ self.now) }
        requires free { other.view.held ≡ [] }
        requires pick { (seat.old.view.start ≡ N.start) × (seat.old.view.whole ≡ N.whole) × (seat.old.view.first ≡ N.first) }
        ensures lock { seat.new.lock ≡ seat.old.lock }
        ensures joined { Learns (V.legal seat.old.view.first) other.view.seen (both seat.old.view other.view) seat.new.view }
        ensures halted { seat.new.view.halted ≡ max seat.old.view.halted other.view.halted }
    {
        let Seat { seat: other } = other;
        self.table
            .shared
            .join_seat::<Glue<N>>(&mut seat.seat, other);
        self.table.shared.load::<Look>(&mut seat.seat, 0);
    }
}
