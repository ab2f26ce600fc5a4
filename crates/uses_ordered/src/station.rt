//! One station, passed with a ticket.

ghost use Rattle.std.specs.Prelude.{◌≡◌, ◌≢◌, ◌+◌, ◌-◌, ◌<◌, Option, Some, None, [], IfErr, IsNone, IsSome, OnOk, ◌⊎◌};
ghost use Rattle.rep_ordered.specs.Counts.{times};
ghost use Rattle.rep_ordered.specs.Views.{StartsWith, common_after, except, grown, reached_at};
ghost use Rattle.rep_ordered.specs.Seats.{stations_of};
ghost use Rattle.rep_ordered.specs.Going.{Goes, Went};
ghost use Rattle.uses_ordered.specs.Passing.{HavePassed, Inside, numbers};

use crate::passed::Passed;
use rep_ordered::{OrderedLock, Seat};
use rep_types::Refusal;
use std::sync::Wait;

/// Adds the ticket to those that passed the station, and leaves it. Where there is no memory for that,
/// the lock is halted and the value given up.
pub(crate) fn add_and_leave<const START: u64>(
    lock: &OrderedLock<Passed<START>, u64>,
    seat: &mut Seat<Passed<START>, u64>,
    station: usize,
    ticket: u64,
    mut passed: Passed<START>,
    entry: &Option<u64>,
) -> Result<(), Refusal>
    requires lock { seat.old.lock ≡ lock.now }
    requires inside { Inside station ticket seat.old.view }
    requires entry { (station ≡ 0 → IsSome entry.now) × (station ≢ 0 → IsNone entry.now) }
    requires kept { HavePassed START ticket seat.old.view.seen passed.tickets.items }
    requires begins { StartsWith (grown seat.old.view.seen entry.now) (numbers START (ticket + 1 - START)) }
    ensures lock { seat.new.lock ≡ seat.old.lock }
    ensures goes { Goes seat.old.view seat.new.view }
    ensures held { seat.new.view.held ≡ except station seat.old.view.held }
    ensures own { seat.new.view.own ≡ seat.old.view.own }
    ensures common { seat.new.view.common ≡ common_after station 0 seat.old.view.common }
    ensures begun { OnOk result (StartsWith seat.new.view.seen (numbers START (ticket + 1 - START))) }
    ensures reached { OnOk result (ticket < reached_at station seat.new.view.reached) }
    ensures refused { IfErr result (λ refusal. (refusal ≡ Refusal.OutOfMemory) × (seat.new.view.halted ≡ 1)) }
{
    if passed.tickets.push(ticket).is_err() {
        lock.halt(seat);
        lock.give_up(seat, station, passed);
        return Err(Refusal::OutOfMemory);
    }
    lock.leave(seat, station, passed, entry);
    Ok(())
}

/// Passes one of two stations with a ticket that has passed those before it.
pub(crate) fn pass_station<const START: u64, R: Wait>(
    rt: &R,
    lock: &OrderedLock<Passed<START>, u64>,
    seat: &mut Seat<Passed<START>, u64>,
    station: usize,
    ticket: u64,
    entry: &Option<u64>,
) -> Result<(), Refusal>
    requires lock { seat.old.lock ≡ lock.now }
    requires station { station < stations_of lock.now }
    requires ticket { 0 < times ticket seat.old.view.own }
    requires start { seat.old.view.start ≡ START }
    requires free { seat.old.view.held ≡ [] }
    requires entry { (station ≡ 0 → entry.now ≡ Some ticket) × (station ≢ 0 → entry.now ≡ None) }
    requires begun { station ≢ 0 → StartsWith seat.old.view.seen (numbers START (ticket + 1 - START)) }
    ensures lock { seat.new.lock ≡ seat.old.lock }
    ensures went { Went seat.old.view seat.new.view }
    ensures own { seat.new.view.own ≡ seat.old.view.own }
    ensures begun { OnOk result (StartsWith seat.new.view.seen (numbers START (ticket + 1 - START))) }
    ensures reached { OnOk result (ticket < reached_at station seat.new.view.reached) }
    ensures refused { IfErr result (λ refusal. (refusal ≡ Refusal.Stopped) ⊎ (refusal ≡ Refusal.OutOfMemory)) }
{
    let passed = lock.enter(rt, seat, station, ticket)?;
    add_and_leave(lock, seat, station, ticket, passed, entry)
}
