//! The rule that the lock keeps.

ghost use Rattle.std.specs.Prelude.{ℕ, ◌≤◌, List, ◌++◌};

use crate::view::Mind;
use atomic_table::TableRule;
use std::snapshot::Snapshot;

/// Says which values may lie at home in a station of an [`OrderedLock`](crate::OrderedLock), while
/// nobody is inside. `E` is what joins the history where a ticket leaves station 0; no value of it is
/// kept. The trait has no functions: it is for contracts alone.
///
/// Each member may speak of the values that the lock was made with, so that what holds of a lock can
/// depend on what it began with at run time.
pub trait Keeps<E> {
    // Of the first values and the whole history. Who lets an entry join the history keeps it so.
    ghost legal: { List Self → List E → Type 0 };

    // Of the first values, the station, the number of its turn, whether it was given up (1, else 0),
    // the history, the durable number and the value.
    ghost at_home: { List Self → ℕ → ℕ → ℕ → List E → ℕ → Self → Type 0 };

    // The durable number that station 1's value names, which no holder lowers.
    ghost durable_of: { Self → ℕ };

    // The number that the values of stations 1 and 2 name alike, which no holder lowers, and which is
    // changed only by who holds both.
    ghost common_of: { Self → ℕ };

    // What may lie at home still may as the history and the durable number grow.
    ghost grows: { (first : List Self) (station number given durable later : ℕ) (history more : List E) (value : Self) → at_home first station number given history durable value → durable ≤ later → at_home first station number given (history ++ more) later value };
}

/// What a lock is told once, when it is made: the first number, how many numbers there are, the
/// durable number, and the values as contracts see them.
#[derive(Drop)]
pub struct Opening<V> {
    pub start: u64,
    pub whole: u64,
    pub durable: u64,
    pub first: Snapshot<Vec<V>>,
}

pub struct Ordered;

impl<V: Keeps<E>, E> TableRule<Option<V>, Mind<V, E>, Opening<V>> for Ordered {
    ghost use Rattle.rep_ordered.specs.declared.rule.Opening.{Opening};
    ghost use Rattle.rep_ordered.specs.Views.{opened, untold};
    ghost use Rattle.rep_ordered.specs.Rule.{Kept, first_of};

    ghost holds = { λ (k : Opening V). Kept (V.legal (first_of k)) (V.at_home (first_of k)) V.durable_of V.common_of k };

    ghost first = { λ (k : Opening V). untold (opened V.durable_of V.common_of k.start k.whole (first_of k) k.durable) };
}
