//! The lock.

use crate::room::Room;
use crate::rule::{Keeps, Opening, Ordered};
use crate::view::Mind;
use atomic_table::Table;
use crossbeam_utils::sync::EventCount;
use std::alloc::Global;
use std::marker::Model;

/// A lock of several stations, each with a value, that threads pass in the order of their tickets.
///
/// A thread takes part by a [`Seat`](crate::Seat), a token of no bytes. It draws a ticket by `claim`,
/// and enters each station with it by `enter`, which waits for the station's turn to come to the ticket
/// and gives the station's value. `leave` gives a value back and lets the next ticket in. At station 0
/// an entry of the caller's joins the history as the ticket leaves. `side_enter` and `side_leave` enter
/// a free station between two turns. Beside the stations there are two words: the next ticket, and the
/// durable number, which only rises, with the halt. After a `halt` whoever waits is refused.
///
/// Which values may lie at home in a station the caller says by [`Keeps`](crate::Keeps): a fact of the
/// values that the lock was made with, the station, the number of its turn, whether it was given up,
/// the history, the durable number and the value, which stays so as the history and the durable number
/// grow. It is what a seat finds when it enters, and owes when it leaves. The caller also says which
/// histories are lawful: who lets an entry join owes it, and who sees more of the history is told it.
///
/// What a seat knows, its [`View`](crate::View), exists in contracts alone, as does the history. A seat
/// sees more of the history as it enters stations, looks at the front or takes in other seats, and of
/// what any two seats have seen one is a beginning of the other. What it let join the history stands
/// there at its own numbers, and at a number of its own that joined nothing there is no entry yet.
///
/// Not promised, by any contract: that an `enter` or a `side_enter` returns, that the threads get on,
/// or that any of them is served before another who waits from the side (no progress, no fairness);
/// nor any order between seats that never met. Where a ticket is drawn and not brought to a station,
/// those after it wait there until a halt. A thread that enters stations in another order than the
/// others can wait forever.
#[derive(Drop)]
pub struct OrderedLock<V: Keeps<E>, E> {
    pub(crate) table: Table<Option<V>, Mind<V, E>, Opening<V>, Ordered, Global>,
    /// Room for the values as `close` gives them.
    pub(crate) room: Room<Option<V>>,
    /// What tells those who sleep that a station was left, or the lock halted.
    pub(crate) changes: EventCount,
}

impl<V: Keeps<E>, E> Model for OrderedLock<V, E> {
    ghost use Rattle.std.specs.Prelude.{◌≡◌, ◌+◌, ◌^◌, ◌<◌, ◌≤◌};
    ghost use Rattle.atomic_table.specs.Seated.{TableId, table_id_coded};

    ghost Value = { TableId };

    ghost coded = { table_id_coded };

    ghost view = { λ l. l.table.shared.table_id };

    ghost invariant = { λ l. (l.table.shared.table_id.words ≡ l.table.shared.table_id.slots + 2) × (l.table.shared.table_id.words < 2 ^ 64) × (l.table.shared.table_id.slots ≤ l.room) };
}
