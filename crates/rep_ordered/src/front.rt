//! The second word: the durable number and the halt.

ghost use Rattle.std.specs.Prelude.{◌≡◌, ◌+◌, ◌^◌, ◌/◌, ◌%◌, ◌≤◌, ◌↔◌, IsTrue, length, min};
ghost use Rattle.rep_ordered.specs.Views.{Later, Sees};

use crate::lock::OrderedLock;
use crate::plays::{Halt, Raise, ReadFront};
use crate::rule::Keeps;
use crate::seat::Seat;
use rep_types::MAX_SEQNO;

/// What the halt adds to the word.
const HALT: u64 = 1 << 63;

/// The durable number, and whether the lock was halted.
#[derive(Clone, Copy, Debug, PartialEq, Eq)]
pub struct Front {
    pub durable: u64,
    pub halted: bool,
}

impl Front {
    /// What the second word says.
    fn of(word: u64) -> Front
        ensures durable { result.durable ≡ word % 2 ^ 63 }
        ensures halted { IsTrue result.halted ↔ (word / 2 ^ 63 ≡ 1) }
    {
        Front {
            durable: word % HALT,
            halted: word >= HALT,
        }
    }
}

impl<V: Keeps<E>, E> OrderedLock<V, E> {
    /// The durable number, and whether the lock was halted, as they are now. They are at least what the
    /// seat saw before, and what the seat knows from then on. Once a seat saw the halt, the durable number
    /// stays as it saw it. A seat that has all the numbers knows the whole history and of every halt
    /// already.
    ///
    /// It takes no memory and does not wait.
    #[tactic(auto, using(crate::proofs::Places::place_later, crate::proofs::Places::place_sees))]
    pub fn front(&self, seat: &mut Seat<V, E>) -> Front
        requires { seat.old.lock ≡ self.now }
        ensures lock { seat.new.lock ≡ seat.old.lock }
        ensures later { Later seat.old.view seat.new.view }
        ensures sees { Sees (V.legal seat.old.view.first) seat.new.view }
        ensures durable { result.durable ≡ seat.new.view.durable }
        ensures limit { result.durable ≤ MAX_SEQNO }
        ensures halted { IsTrue result.halted ↔ (seat.new.view.halted ≡ 1) }
        ensures one_bit { seat.new.view.halted ≤ 1 }
        ensures last { seat.old.view.allowance + length seat.old.view.own ≡ seat.old.view.whole → (seat.new.view.halted ≡ seat.old.view.halted) × (seat.new.view.seen ≡ seat.old.view.seen) }
    {
        Front::of(self.table.shared.load::<ReadFront>(&mut seat.seat, 1))
    }

    /// Raises the durable number to this one, unless it is there already. A number above `MAX_SEQNO`
    /// counts as `MAX_SEQNO`. After a halt the durable number stays as it is. It does not halt the lock: a
    /// seat that has all the numbers learns of no halt by it.
    ///
    /// It gives what it found: whoever raised the number is the one who found a lower one there, and no
    /// halt. So he alone has to tell those who wait for that.
    ///
    /// The seat saw this number durable at the value of station 1, when it entered or left it.
    ///
    /// It takes no memory and does not wait.
    #[tactic(auto, using(crate::proofs::Places::place_later, crate::proofs::Places::place_sees))]
    pub fn raise(&self, seat: &mut Seat<V, E>, durable: u64) -> Front
        requires lock { seat.old.lock ≡ self.now }
        requires saw { durable ≤ seat.old.view.backed }
        ensures lock { seat.new.lock ≡ seat.old.lock }
        ensures later { Later seat.old.view seat.new.view }
        ensures sees { Sees (V.legal seat.old.view.first) seat.new.view }
        ensures raised { seat.new.view.halted ≡ 0 → min durable MAX_SEQNO ≤ seat.new.view.durable }
        ensures found { result.durable ≤ seat.new.view.durable }
        ensures halted { IsTrue result.halted ↔ (seat.new.view.halted ≡ 1) }
        ensures one_bit { seat.new.view.halted ≤ 1 }
        ensures last { seat.old.view.allowance + length seat.old.view.own ≡ seat.old.view.whole → seat.new.view.halted ≡ seat.old.view.halted }
    {
        let least = durable.min(MAX_SEQNO);
        let found = self
            .table
            .shared
            .fetch_max::<Raise>(&mut seat.seat, 1, least);
        Front::of(found)
    }

    /// Halts the lock, for good: whoever waits for a station, and whoever comes to enter one, is
    /// refused once he reads it. The durable number then stays as the seat has seen it. Who is inside a
    /// station may leave it, or give it up.
    ///
    /// It takes no memory and does not wait.
    pub fn halt(&self, seat: &mut Seat<V, E>)
        requires { seat.old.lock ≡ self.now }
        ensures lock { seat.new.lock ≡ seat.old.lock }
        ensures later { Later seat.old.view seat.new.view }
        ensures sees { Sees (V.legal seat.old.view.first) seat.new.view }
        ensures halted { seat.new.view.halted ≡ 1 }
    {
        self.add_bit(seat, HALT);
        self.changes.notify_all();
    }

    /// Puts the bit of the halt into the word.
    #[tactic(auto, using(crate::proofs::Places::place_later, crate::proofs::Places::place_sees))]
    fn add_bit(&self, seat: &mut Seat<V, E>, bit: u64)
        requires lock { seat.old.lock ≡ self.now }
        requires bit { bit ≡ 2 ^ 63 }
        ensures lock { seat.new.lock ≡ seat.old.lock }
        ensures later { Later seat.old.view seat.new.view }
        ensures sees { Sees (V.legal seat.old.view.first) seat.new.view }
        ensures halted { seat.new.view.halted ≡ 1 }
    {
        self.table.shared.fetch_or::<Halt>(&mut seat.seat, 1, bit);
    }
}
