//! What each step on the table tells the seat.

ghost use Rattle.std.specs.Prelude.{ℕ, Option, None, List, []};
ghost use Rattle.rep_ordered.specs.Views.{giving, given, both, spent, untold};
ghost use Rattle.rep_ordered.specs.Steps.{claimed, looked, fronted, raised, stopped, tried, brought, left, abandons};

use crate::rule::Keeps;
use crate::view::Mind;
use atomic_table::{Join, Play, Split};
use std::marker::{Brand, PhantomData};

pub(crate) struct Claim;

impl<V, E> Play<Option<V>, Mind<V, E>> for Claim {
    ghost then = { claimed };
}

pub(crate) struct Look;

impl<V: Keeps<E>, E> Play<Option<V>, Mind<V, E>> for Look {
    ghost then = { λ st m r m'. looked (V.legal m.0.view.first) st m r m' };
}

pub(crate) struct ReadFront;

impl<V: Keeps<E>, E> Play<Option<V>, Mind<V, E>> for ReadFront {
    ghost then = { λ st m r m'. fronted (V.legal m.0.view.first) st m r m' };
}

pub(crate) struct Raise;

impl<V: Keeps<E>, E> Play<Option<V>, Mind<V, E>> for Raise {
    ghost then = { λ st m r m'. raised (V.legal m.0.view.first) st m r m' };
}

pub(crate) struct Halt;

impl<V: Keeps<E>, E> Play<Option<V>, Mind<V, E>> for Halt {
    ghost then = { λ st m r m'. stopped (V.legal m.0.view.first) st m r m' };
}

pub(crate) struct ByTicket;

impl<V: Keeps<E>, E> Play<Option<V>, Mind<V, E>> for ByTicket {
    ghost then = { λ st m r m'. tried (V.legal m.0.view.first) (V.at_home m.0.view.first) V.durable_of V.common_of 1 st m r m' };
}

pub(crate) struct FromSide;

impl<V: Keeps<E>, E> Play<Option<V>, Mind<V, E>> for FromSide {
    ghost then = { λ st m r m'. tried (V.legal m.0.view.first) (V.at_home m.0.view.first) V.durable_of V.common_of 2 st m r m' };
}

pub(crate) struct Bring;

impl<V, E> Play<Option<V>, Mind<V, E>> for Bring {
    ghost then = { brought };
}

/// How a station is left. A call picks it.
pub(crate) trait Leaving<E> {
    // What joins the history, if anything does.
    ghost entry: { Option E };

    // The durable number of the value that is given back.
    ghost durable: { ℕ };

    // The number that it names for stations 1 and 2.
    ghost common: { ℕ };

    // The number of the station's turn afterwards.
    ghost number: { ℕ };
}

impl<E> Leaving<E> for Brand {
    ghost entry = { None };

    ghost durable = { 0 };

    ghost common = { 0 };

    ghost number = { 0 };
}

pub(crate) struct Leave<L> {
    leaving: PhantomData<L>,
}

impl<V, E, L: Leaving<E>> Play<Option<V>, Mind<V, E>> for Leave<L> {
    ghost then = { left L.entry L.durable L.common L.number };
}

/// How a station is given up. A call picks it.
pub(crate) trait Abandoning<V> {
    // The values that are given back: there is one.
    ghost values: { List V };

    // The durable number that it names.
    ghost durable: { ℕ };

    // The number that it names for stations 1 and 2.
    ghost common: { ℕ };

    // The number of the station's turn.
    ghost number: { ℕ };
}

impl<V> Abandoning<V> for Brand {
    ghost values = { [] };

    ghost durable = { 0 };

    ghost common = { 0 };

    ghost number = { 0 };
}

pub(crate) struct Abandon<L> {
    abandoning: PhantomData<L>,
}

impl<V, E, L: Abandoning<V>> Play<Option<V>, Mind<V, E>> for Abandon<L> {
    ghost then = { abandons L.values L.durable L.common L.number };
}

/// How many numbers a new seat may draw. A call picks it.
pub(crate) trait Giving {
    ghost give: { ℕ };
}

impl Giving for Brand {
    ghost give = { 0 };
}

pub(crate) struct Cut<G> {
    giving: PhantomData<G>,
}

impl<V, E, G: Giving> Split<Mind<V, E>> for Cut<G> {
    ghost left = { λ m. record m { view = giving G.give m.view } };

    ghost right = { λ m. untold (given G.give m.view) };
}

/// The numbers of a lock, and its first values. A call picks them.
pub(crate) trait Numbers<V> {
    ghost start: { ℕ };

    ghost whole: { ℕ };

    ghost first: { List V };
}

impl<V> Numbers<V> for Brand {
    ghost start = { 0 };

    ghost whole = { 0 };

    ghost first = { [] };
}

pub(crate) struct Glue<N> {
    numbers: PhantomData<N>,
}

impl<V, E, N: Numbers<V>> Join<Mind<V, E>> for Glue<N> {
    ghost both = { λ m n. record { view = both m.view n.view; told = n.view.seen } };

    ghost spent = { untold (spent N.start N.whole N.first) };
}
