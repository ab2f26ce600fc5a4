//! How a lock is made, and how it is closed.

ghost use Rattle.std.specs.Prelude.{◌≡◌, ◌+◌, ◌-◌, ◌*◌, ◌<◌, ◌≤◌, [], ◌∷◌, length, map, replicate, Some, IfOk, IfErr, IfSome, IsSome, vec_capacity};
ghost use Rattle.rep_ordered.specs.Views.{Every, opened};
ghost use Rattle.rep_ordered.specs.Rule.{first_of};
ghost use Rattle.rep_ordered.specs.Ends.{AllCover, AllMeet, AllName, Closed};
ghost use Rattle.rep_ordered.specs.Seats.{seat_of, stations_of};

use crate::lock::OrderedLock;
use crate::room::Room;
use crate::rule::{Keeps, Opening};
use crate::seat::Seat;
use atomic_table::Table;
use crossbeam_utils::sync::EventCount;
use rep_types::MAX_SEQNO;
use std::alloc::Global;
use std::snapshot::Snapshot;

/// There was no memory for a lock. The values come back.
#[derive(Debug, Drop)]
pub struct Refused<V> {
    pub values: Vec<V>,
}

/// The memory that a lock of some stations takes.
struct Space<V> {
    words: Vec<u64>,
    slots: Vec<Option<V>>,
    room: Room<Option<V>>,
}

/// The words of a lock that starts at this number.
fn first_words(alloc: Global, stations: usize, start: u64, durable: u64) -> Option<Vec<u64>>
    requires { 4 * start ≤ 4 * (MAX_SEQNO + 1) }
    ensures { IfSome result (λ words. words.items ≡ start ∷ durable ∷ replicate stations (4 * start)) }
{
    let mut words = vec![in alloc; 4 * start; stations.checked_add(2)?].ok()?;
    words[0] = start;
    words[1] = durable;
    Some(words)
}

fn reserved<V>(alloc: Global, stations: usize, start: u64, durable: u64) -> Option<Space<V>>
    requires { 4 * start ≤ 4 * (MAX_SEQNO + 1) }
    ensures { IfSome result (λ s. (s.words.items ≡ start ∷ durable ∷ replicate stations (4 * start)) × (s.slots.items ≡ []) × (stations ≤ vec_capacity s.slots) × (stations ≤ s.room)) }
{
    let words = first_words(alloc, stations, start, durable)?;
    let room = Room::new(alloc, stations)?;
    match Vec::with_capacity(alloc, stations) {
        Ok(slots) => Some(Space { words, slots, room }),
        Err(_) => {
            room.into_list().destroy_empty();
            None
        }
    }
}

/// Moves the values into slots, in their order.
fn wrap<V>(values: &mut Vec<V>, slots: &mut Vec<Option<V>>)
    requires empty { slots.old.items ≡ [] }
    requires room { length values.old.items ≤ vec_capacity slots.old }
    ensures slots { slots.new.items ≡ map Some values.old.items }
    ensures values { (values.new.items ≡ []) × (vec_capacity values.new ≡ vec_capacity values.old) }
{
    while let Some(value) = values.pop() {
        slots.push_reserved(Some(value));
    }
    slots.reverse();
}

/// Moves the values out of slots again.
fn unwrap<V>(slots: &mut Vec<Option<V>>, values: &mut Vec<V>)
    requires empty { values.old.items ≡ [] }
    requires room { length slots.old.items ≤ vec_capacity values.old }
    requires full { Every IsSome slots.old.items }
    ensures slots { slots.new.items ≡ [] }
    ensures values { map Some values.new.items ≡ slots.old.items }
{
    while let Some(slot) = slots.pop() {
        let Some(value) = slot else { unreachable!() };
        values.push_reserved(value);
    }
    values.reverse();
}

/// Hands the values back that were in slots.
fn handed_back<V>(
    room: Room<Option<V>>,
    mut slots: Vec<Option<V>>,
    mut values: Vec<V>,
) -> Refused<V>
    requires empty { values.items ≡ [] }
    requires room { length slots.items ≤ vec_capacity values }
    requires full { Every IsSome slots.items }
    ensures { map Some result.values.items ≡ slots.items }
{
    room.into_list().destroy_empty();
    unwrap(&mut slots, &mut values);
    slots.destroy_empty();
    Refused { values }
}

/// What a lock is told that is made of these values, at this position.
fn opening_at<V>(values: &Vec<V>, position: u64, durable: u64) -> Opening<V>
    requires { (durable ≤ position) × (position ≤ MAX_SEQNO) }
    ensures start { result.start ≡ position + 1 }
    ensures whole { result.whole ≡ MAX_SEQNO - position }
    ensures durable { result.durable ≡ durable }
    ensures first { first_of result ≡ values.now.items }
{
    Opening {
        start: position + 1,
        whole: MAX_SEQNO - position,
        durable,
        first: Snapshot::of(values),
    }
}

impl<V: Keeps<E>, E> OrderedLock<V, E> {
    /// A lock with a station for each value, all free, and its first seat. The position is the last
    /// number that was given elsewhere, at most `MAX_SEQNO`: tickets begin above it, and the seat may
    /// draw all of them up to `MAX_SEQNO`. The durable number is not above the position. The history
    /// is empty.
    ///
    /// Each value may lie at home in its station at the first number, after an empty history, which is
    /// lawful, and at the durable number. The values of stations 1 and 2, where there are such, name the
    /// same number. At station 1 the durable number is not above the value's own: the lock keeps it
    /// so, and says so to whoever enters that station and where it is closed. That number in turn, or
    /// `MAX_SEQNO` where it is above that, is not above the number that stations 1 and 2 name: so the
    /// durable number is not above it either, which the lock says to whoever enters one of the two. No
    /// `Keeps` could say either, since what it says stays so while the durable number rises.
    ///
    /// The first seat knows what the first values name.
    ///
    /// Where there is no memory the values are handed back, in their order. It takes the memory that
    /// `close` needs as well.
    pub fn new(
        alloc: Global,
        values: Vec<V>,
        position: u64,
        durable: u64,
    ) -> Result<(OrderedLock<V, E>, Seat<V, E>), Refused<V>>
        requires position { (durable ≤ position) × (position ≤ MAX_SEQNO) }
        requires legal { V.legal values.items [] }
        requires names { AllName V.common_of values.items }
        requires covered { AllCover V.durable_of V.common_of values.items }
        requires values { AllMeet (V.legal values.items) (V.at_home values.items) V.durable_of V.common_of (position + 1) durable values.items }
        ensures stations { IfOk result (λ made. stations_of made.0 ≡ length values.items) }
        ensures seat { IfOk result (λ made. made.1 ≡ seat_of made.0 (opened V.durable_of V.common_of (position + 1) (MAX_SEQNO - position) values.items durable)) }
        ensures refused { IfErr result (λ refusal. refusal.values.items ≡ values.items) }
    {
        let opening = opening_at(&values, position, durable);
        match reserved(alloc, values.len(), opening.start, durable) {
            Some(space) => OrderedLock::open(alloc, &opening, space, values),
            None => Err(Refused { values }),
        }
    }

    /// The same in this space, for values that the lock is told of by this opening.
    fn open(
        alloc: Global,
        opening: &Opening<V>,
        space: Space<V>,
        mut values: Vec<V>,
    ) -> Result<(OrderedLock<V, E>, Seat<V, E>), Refused<V>>
        requires numbers { (opening.now.durable < opening.now.start) × (opening.now.start + opening.now.whole ≡ MAX_SEQNO + 1) }
        requires first { first_of opening.now ≡ values.items }
        requires legal { V.legal values.items [] }
        requires names { AllName V.common_of values.items }
        requires covered { AllCover V.durable_of V.common_of values.items }
        requires values { AllMeet (V.legal values.items) (V.at_home values.items) V.durable_of V.common_of opening.now.start opening.now.durable values.items }
        requires words { space.words.items ≡ opening.now.start ∷ opening.now.durable ∷ replicate (length values.items) (4 * opening.now.start) }
        requires slots { (space.slots.items ≡ []) × (length values.items ≤ vec_capacity space.slots) }
        requires room { length values.items ≤ space.room }
        ensures stations { IfOk result (λ made. stations_of made.0 ≡ length values.items) }
        ensures seat { IfOk result (λ made. made.1 ≡ seat_of made.0 (opened V.durable_of V.common_of opening.now.start opening.now.whole values.items opening.now.durable)) }
        ensures refused { IfErr result (λ refusal. refusal.values.items ≡ values.items) }
    {
        let Space {
            words,
            mut slots,
            room,
        } = space;
        wrap(&mut values, &mut slots);
        match Table::new(alloc, words.as_slice(), slots, opening) {
            Ok((table, seat)) => {
                values.destroy_empty();
                let lock = OrderedLock {
                    table,
                    room,
                    changes: EventCount::new(),
                };
                Ok((lock, Seat { seat }))
            }
            Err(refused) => Err(handed_back(room, refused.slots, values)),
        }
    }

    /// Closes the lock and gives the values at home, in the order of their stations. All seats were
    /// joined to this one: its allowance and the count of its numbers make up the first seat's
    /// allowance. `None` stands only for a station that this seat still holds.
    ///
    /// Each value may lie at home in its station, at the number where the station's turn is, at the
    /// history that the seat has seen, which is the whole one, and at the durable number, which is not
    /// above that of station 1's value, nor above the number that stations 1 and 2 name. A value was
    /// given up only after a halt, of which the seat then knows. The seat's numbers are all from the
    /// first on, each once, and what it let join the history stands there.
    ///
    /// It takes no memory and does not wait.
    pub fn close(self, seat: Seat<V, E>) -> Vec<Option<V>>
        requires lock { seat.lock ≡ self }
        requires all { seat.view.allowance + length seat.view.own ≡ seat.view.whole }
        ensures stations { length result.items ≡ stations_of self }
        ensures values { Closed (V.legal seat.view.first) (V.at_home seat.view.first) V.durable_of V.common_of seat.view result.items }
    {
        let OrderedLock {
            table,
            room,
            changes: _,
        } = self;
        let Seat { seat } = seat;
        let mut values = room.into_list();
        let mut closed = table.close_with(seat);
        for station in 0..closed.slot_count() {
            values.push_reserved(closed.take(station));
        }
        closed.free();
        values
    }
}
