//! The turns: how a station is entered and left.

ghost use Rattle.std.specs.Prelude.{◌≡◌, ◌≢◌, ℕ, ◌+◌, ◌<◌, ◌≤◌, IfOk, IfErr, IsErr, IfSome, IfNone, IsSome, IsNone, Option, Some, None, [], ◌∷◌, length, map, min};
ghost use Rattle.rep_ordered.specs.Counts.{times};
ghost use Rattle.rep_ordered.specs.Views.{HoldsTurn, HoldsSide, Holds, Later, Names, Sees, abandoned, except, floor_of, grown, names, turn_of, without};
ghost use Rattle.rep_ordered.specs.Steps.{Entered};
ghost use Rattle.rep_ordered.specs.Seats.{IsSeated, empty_slot, seat_of, stations_of};

use crate::lock::OrderedLock;
use crate::plays::{Abandon, Abandoning, Bring, ByTicket, FromSide, Leave, Leaving};
use crate::rule::Keeps;
use crate::seat::Seat;
use crate::view::Mind;
use crate::waiting::{announced, pass};
use crossbeam_utils::Backoff;
use rep_types::{MAX_SEQNO, Refusal};
use std::marker::Brand;
use std::sync::Wait;
use std::thread;

/// A station's word is four times the number of its turn, and one of the next three where it is not
/// free.
const BY_TICKET: u64 = 1;

const FROM_SIDE: u64 = 2;

const GIVEN_UP: u64 = 3;

/// From held by a ticket to free at the next number.
const TO_NEXT: u64 = 4 - BY_TICKET;

/// From free at a number up to held from the side.
const TO_SIDE: u64 = FROM_SIDE;

/// From held from the side down to free at the same number.
const TO_FREE: u64 = FROM_SIDE;

impl<V: Keeps<E>, E> OrderedLock<V, E> {
    /// Enters the station by a ticket, as soon as the station's turn is at its number and it is free,
    /// and gives its value, which may lie at home there: at this number, at the history that the seat
    /// has then seen, the whole one, and at the durable number that it has then seen. At station 0 as
    /// many entries have joined the history as there are numbers before the ticket. The turns of a
    /// station come in the order of the tickets: what the seat saw of it before is no later than this.
    /// Nobody else is inside until the seat leaves, and while it is inside station 0 nothing joins the
    /// history. The history is lawful, and the seat's own entries stand in it at their numbers. At
    /// stations 1 and 2 the number that the two name is not below what the seat saw, the same where it
    /// holds the other one, and not below the durable number that it has then seen.
    ///
    /// The ticket is one that the seat drew. A ticket enters each station once; where a ticket was
    /// never brought to a station, no later one can enter it. A seat may hold several stations, and
    /// leaves them in any order.
    ///
    /// Refuses with `Stopped` where it reads that the lock was halted, and always where the seat saw
    /// that before. The seat then holds what it held. It does not halt the lock: a seat that has all the
    /// numbers knows of every halt, and is refused only if it knew of one.
    ///
    /// It takes no memory. It is not promised that it returns: it waits for the tickets before this one
    /// to pass and for who is inside from the side, and no order is promised among those who wait from
    /// the side.
    pub fn enter<R: Wait>(
        &self,
        rt: &R,
        seat: &mut Seat<V, E>,
        station: usize,
        ticket: u64,
    ) -> Result<V, Refusal>
        requires lock { seat.old.lock ≡ self.now }
        requires station { station < stations_of self.now }
        requires ticket { 0 < times ticket seat.old.view.own }
        ensures lock { seat.new.lock ≡ seat.old.lock }
        ensures entered { IfOk result (Entered (V.legal seat.old.view.first) (V.at_home seat.old.view.first) V.durable_of V.common_of station ticket 1 seat.old.view seat.new.view) }
        ensures stopped { IfErr result (λ refusal. (refusal ≡ Refusal.Stopped) × Later seat.old.view seat.new.view × Sees (V.legal seat.old.view.first) seat.new.view × (seat.new.view.halted ≡ 1)) }
        ensures halted { seat.old.view.halted ≡ 1 → IsErr result }
        ensures runs { IfOk result (λ _. seat.new.view.halted ≡ 0) }
        ensures last { seat.old.view.allowance + length seat.old.view.own ≡ seat.old.view.whole → IfErr result (λ _. seat.old.view.halted ≡ 1) }
    {
        for _ in rt.forever() {
            if self.front(seat).halted {
                return Err(Refusal::Stopped);
            }
            if let Some(value) = self.try_enter(seat, station, ticket) {
                return Ok(value);
            }
            thread::yield_now();
        }
        unreachable!()
    }

    /// Enters the station by a ticket, if it is free at that number now.
    fn try_enter(&self, seat: &mut Seat<V, E>, station: usize, ticket: u64) -> Option<V>
        requires lock { seat.old.lock ≡ self.now }
        requires station { station < stations_of self.now }
        requires ticket { 0 < times ticket seat.old.view.own }
        ensures lock { seat.new.lock ≡ seat.old.lock }
        ensures entered { IfSome result (Entered (V.legal seat.old.view.first) (V.at_home seat.old.view.first) V.durable_of V.common_of station ticket 1 seat.old.view seat.new.view) }
        ensures missed { IfNone result (seat.new ≡ seat.old) }
    {
        // Tells the proof that the seat's numbers are small.
        let _place = &seat.seat;
        let free = 4 * ticket;
        if self.table.shared.peek(station + 2) != free {
            return None;
        }
        let found = self
            .table
            .shared
            .compare_exchange::<ByTicket>(&mut seat.seat, station + 2, free, free + BY_TICKET);
        if found != free {
            return None;
        }
        self.table.shared.exchange(&mut seat.seat, station, None)
    }

    /// Enters the station from the side: whenever it is free, at the number where its turn is, which
    /// then stays. It gives the station's value as `enter` does.
    ///
    /// Refuses with `Stopped` where it reads that the lock was halted, and always where the seat saw
    /// that before. The seat then holds what it held. It does not halt the lock: a seat that has all the
    /// numbers knows of every halt, and is refused only if it knew of one.
    ///
    /// It takes no memory. It is not promised that it returns, however often the station is free: a
    /// ticket or another seat may be inside each time that it looks.
    pub fn side_enter<R: Wait>(
        &self,
        rt: &R,
        seat: &mut Seat<V, E>,
        station: usize,
    ) -> Result<V, Refusal>
        requires lock { seat.old.lock ≡ self.now }
        requires station { station < stations_of self.now }
        ensures lock { seat.new.lock ≡ seat.old.lock }
        ensures entered { IfOk result (λ value. (number : ℕ) × Entered (V.legal seat.old.view.first) (V.at_home seat.old.view.first) V.durable_of V.common_of station number 2 seat.old.view seat.new.view value) }
        ensures stopped { IfErr result (λ refusal. (refusal ≡ Refusal.Stopped) × Later seat.old.view seat.new.view × Sees (V.legal seat.old.view.first) seat.new.view × (seat.new.view.halted ≡ 1)) }
        ensures halted { seat.old.view.halted ≡ 1 → IsErr result }
        ensures runs { IfOk result (λ _. seat.new.view.halted ≡ 0) }
        ensures last { seat.old.view.allowance + length seat.old.view.own ≡ seat.old.view.whole → IfErr result (λ _. seat.old.view.halted ≡ 1) }
    {
        let backoff = Backoff::new();
        for _ in rt.forever() {
            let sleep = announced(&self.changes, backoff.is_completed());
            if self.front(seat).halted {
                return Err(Refusal::Stopped);
            }
            if let Some(value) = self.try_side_enter(seat, station) {
                return Ok(value);
            }
            pass(rt, &backoff, sleep);
        }
        unreachable!()
    }

    /// Enters the station from the side, if it is free now.
    fn try_side_enter(&self, seat: &mut Seat<V, E>, station: usize) -> Option<V>
        requires lock { seat.old.lock ≡ self.now }
        requires station { station < stations_of self.now }
        ensures lock { seat.new.lock ≡ seat.old.lock }
        ensures entered { IfSome result (λ value. (number : ℕ) × Entered (V.legal seat.old.view.first) (V.at_home seat.old.view.first) V.durable_of V.common_of station number 2 seat.old.view seat.new.view value) }
        ensures missed { IfNone result (seat.new ≡ seat.old) }
    {
        let free = self.table.shared.peek(station + 2);
        if free % 4 != 0 {
            return None;
        }
        let found = self
            .table
            .shared
            .compare_exchange::<FromSide>(&mut seat.seat, station + 2, free, free + TO_SIDE);
        if found != free {
            return None;
        }
        self.table.shared.exchange(&mut seat.seat, station, None)
    }

    /// Puts a value into the slot of a station that the seat holds. A step can give back only the first
    /// of the slots that a seat carries, so a load, which changes nothing, brings this one in front of
    /// the others.
    fn put_back(
        &self,
        seat: &mut atomic_table::Seat<Option<V>, Mind<V, E>>,
        station: usize,
        value: V,
    )
        requires table { seat.old.table_id ≡ self.now }
        requires seated { IsSeated (stations_of self.now) seat.old.me }
        requires holds { Holds seat.old.me.0.view station }
        ensures table { seat.new.table_id ≡ seat.old.table_id }
        ensures within { station < stations_of self.now }
        ensures put { seat.new.me ≡ (seat.old.me.0, (station, Some value) ∷ map empty_slot (except station seat.old.me.0.view.held)) }
    {
        self.table.shared.load::<Bring>(seat, station + 2);
        let empty = self.table.shared.exchange(seat, station, Some(value));
        let None = empty else { unreachable!() };
    }

    /// Leaves a station that was entered by a ticket, whatever else the seat holds, and gives its value
    /// back. Its turn is then at the next number. At station 0 the entry joins the history; at the
    /// others there is none. The seat holds its other stations as before.
    ///
    /// At station 0 the history is lawful with the entry. The value may lie at home there: at the next
    /// number, at what the seat has seen of the history, the entry included, and at the durable number
    /// that it has seen. At station 1 its durable number is not below that of the value that was found
    /// there. At stations 1 and 2 the number that the two name is not lowered, and is as it was unless
    /// the seat holds both. At station 1 that number covers the value's durable number, of which
    /// `MAX_SEQNO` counts at most, since the durable number of the lock goes no higher.
    pub fn leave(&self, seat: &mut Seat<V, E>, station: usize, value: V, entry: &Option<E>)
        requires lock { seat.old.lock ≡ self.now }
        requires turn { HoldsTurn seat.old.view station }
        requires entry { (station ≡ 0 → IsSome entry.now) × (station ≢ 0 → IsNone entry.now) }
        requires legal { station ≡ 0 → V.legal seat.old.view.first (grown seat.old.view.seen entry.now) }
        requires value { V.at_home seat.old.view.first station (turn_of station seat.old.view + 1) 0 (grown seat.old.view.seen entry.now) seat.old.view.durable value }
        requires floor { station ≡ 1 → floor_of station seat.old.view ≤ V.durable_of value }
        requires common { 0 < names station → Names seat.old.view (V.common_of value) }
        requires covered { station ≡ 1 → min (V.durable_of value) MAX_SEQNO ≤ V.common_of value }
        ensures seat { seat.new ≡ seat_of seat.old.lock (without entry.now station (turn_of station seat.old.view + 1) (V.durable_of value) (V.common_of value) seat.old.view) }
    {
        self.leave_as::<Brand>(seat, station, value, entry);
    }

    fn leave_as<L: Leaving<E>>(
        &self,
        seat: &mut Seat<V, E>,
        station: usize,
        value: V,
        entry: &Option<E>,
    )
        requires lock { seat.old.lock ≡ self.now }
        requires turn { HoldsTurn seat.old.view station }
        requires entry { (station ≡ 0 → IsSome entry.now) × (station ≢ 0 → IsNone entry.now) }
        requires legal { station ≡ 0 → V.legal seat.old.view.first (grown seat.old.view.seen entry.now) }
        requires value { V.at_home seat.old.view.first station (turn_of station seat.old.view + 1) 0 (grown seat.old.view.seen entry.now) seat.old.view.durable value }
        requires floor { station ≡ 1 → floor_of station seat.old.view ≤ V.durable_of value }
        requires common { 0 < names station → Names seat.old.view (V.common_of value) }
        requires covered { station ≡ 1 → min (V.durable_of value) MAX_SEQNO ≤ V.common_of value }
        requires pick { (L.entry ≡ entry.now) × (L.durable ≡ V.durable_of value) × (L.common ≡ V.common_of value) × (L.number ≡ turn_of station seat.old.view + 1) }
        ensures seat { seat.new ≡ seat_of seat.old.lock (without entry.now station (turn_of station seat.old.view + 1) (V.durable_of value) (V.common_of value) seat.old.view) }
    {
        self.put_back(&mut seat.seat, station, value);
        self.table
            .shared
            .fetch_add::<Leave<L>>(&mut seat.seat, station + 2, TO_NEXT);
        self.changes.notify_all();
    }

    /// Leaves a station that was entered from the side, whatever else the seat holds, and gives its
    /// value back. Its turn stays at its number, and nothing joins the history. The seat holds its
    /// other stations as before.
    ///
    /// The value may lie at home there, at that number, at what the seat has seen of the history, and
    /// at the durable number that it has seen. The numbers that the value names are bound as by `leave`.
    pub fn side_leave(&self, seat: &mut Seat<V, E>, station: usize, value: V)
        requires lock { seat.old.lock ≡ self.now }
        requires side { HoldsSide seat.old.view station }
        requires value { V.at_home seat.old.view.first station (turn_of station seat.old.view) 0 seat.old.view.seen seat.old.view.durable value }
        requires floor { station ≡ 1 → floor_of station seat.old.view ≤ V.durable_of value }
        requires common { 0 < names station → Names seat.old.view (V.common_of value) }
        requires covered { station ≡ 1 → min (V.durable_of value) MAX_SEQNO ≤ V.common_of value }
        ensures seat { seat.new ≡ seat_of seat.old.lock (without None station (turn_of station seat.old.view) (V.durable_of value) (V.common_of value) seat.old.view) }
    {
        self.side_leave_as::<Brand>(seat, station, value);
    }

    fn side_leave_as<L: Leaving<E>>(&self, seat: &mut Seat<V, E>, station: usize, value: V)
        requires lock { seat.old.lock ≡ self.now }
        requires side { HoldsSide seat.old.view station }
        requires value { V.at_home seat.old.view.first station (turn_of station seat.old.view) 0 seat.old.view.seen seat.old.view.durable value }
        requires floor { station ≡ 1 → floor_of station seat.old.view ≤ V.durable_of value }
        requires common { 0 < names station → Names seat.old.view (V.common_of value) }
        requires covered { station ≡ 1 → min (V.durable_of value) MAX_SEQNO ≤ V.common_of value }
        requires pick { (L.entry ≡ None) × (L.durable ≡ V.durable_of value) × (L.common ≡ V.common_of value) × (L.number ≡ turn_of station seat.old.view) }
        ensures seat { seat.new ≡ seat_of seat.old.lock (without None station (turn_of station seat.old.view) (V.durable_of value) (V.common_of value) seat.old.view) }
    {
        self.put_back(&mut seat.seat, station, value);
        self.table
            .shared
            .fetch_sub::<Leave<L>>(&mut seat.seat, station + 2, TO_FREE);
        self.changes.notify_all();
    }

    /// Gives up a station, however it was entered and whatever else the seat holds, once the seat saw
    /// that the lock was halted. The value goes home, nobody enters the station again, and `close` gives
    /// that value. The seat holds its other stations as before.
    ///
    /// The value may lie at home there as one that was given up: at the number at which the station was
    /// entered, at what the seat has seen of the history, and at the durable number that it has seen.
    /// Who enters a station never finds such a value, since what he finds was not given up; `close`
    /// says of each value whether it was. The numbers that the value names are bound as by `leave`.
    pub fn give_up(&self, seat: &mut Seat<V, E>, station: usize, value: V)
        requires lock { seat.old.lock ≡ self.now }
        requires halted { seat.old.view.halted ≡ 1 }
        requires holds { Holds seat.old.view station }
        requires value { V.at_home seat.old.view.first station (turn_of station seat.old.view) 1 seat.old.view.seen seat.old.view.durable value }
        requires floor { station ≡ 1 → floor_of station seat.old.view ≤ V.durable_of value }
        requires common { 0 < names station → Names seat.old.view (V.common_of value) }
        requires covered { station ≡ 1 → min (V.durable_of value) MAX_SEQNO ≤ V.common_of value }
        ensures seat { seat.new ≡ seat_of seat.old.lock (abandoned station value (without None station (turn_of station seat.old.view) (V.durable_of value) (V.common_of value) seat.old.view)) }
    {
        self.give_up_as::<Brand>(seat, station, value);
    }

    fn give_up_as<L: Abandoning<V>>(&self, seat: &mut Seat<V, E>, station: usize, value: V)
        requires lock { seat.old.lock ≡ self.now }
        requires halted { seat.old.view.halted ≡ 1 }
        requires holds { Holds seat.old.view station }
        requires value { V.at_home seat.old.view.first station (turn_of station seat.old.view) 1 seat.old.view.seen seat.old.view.durable value }
        requires floor { station ≡ 1 → floor_of station seat.old.view ≤ V.durable_of value }
        requires common { 0 < names station → Names seat.old.view (V.common_of value) }
        requires covered { station ≡ 1 → min (V.durable_of value) MAX_SEQNO ≤ V.common_of value }
        requires pick { (L.values ≡ value ∷ []) × (L.durable ≡ V.durable_of value) × (L.common ≡ V.common_of value) × (L.number ≡ turn_of station seat.old.view) }
        ensures seat { seat.new ≡ seat_of seat.old.lock (abandoned station value (without None station (turn_of station seat.old.view) (V.durable_of value) (V.common_of value) seat.old.view)) }
    {
        self.put_back(&mut seat.seat, station, value);
        self.table
            .shared
            .fetch_or::<Abandon<L>>(&mut seat.seat, station + 2, GIVEN_UP);
    }
}
