//! The seats of a lock.

use crate::view::Mind;
use std::marker::Model;

/// A token with which a thread takes part in a lock. It has no bytes: what it knows and may do is its
/// view, which contracts speak of. A seat that is dropped takes its numbers with it, so that the lock
/// can't be closed any more.
#[derive(Drop)]
pub struct Seat<V, E> {
    pub(crate) seat: atomic_table::Seat<Option<V>, Mind<V, E>>,
}

impl<V, E> Model for Seat<V, E> {
    ghost use Rattle.rep_ordered.specs.Seats.{Place, IsSeated};

    ghost Value = { Place V E };

    ghost view = { λ s. record { lock = s.seat.table_id; view = s.seat.me.0.view } };

    ghost invariant = { λ s. IsSeated s.seat.table_id.slots s.seat.me };
}
