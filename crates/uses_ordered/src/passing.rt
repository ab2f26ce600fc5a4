//! Threads that pass both stations.

ghost use Rattle.std.specs.Prelude.{◌≡◌, ◌+◌, ◌*◌, ◌-◌, ◌^◌, ◌<◌, ◌≤◌, [], length, IfOk, IfErr, OnOk, ◌⊎◌};
ghost use Rattle.std.specs.Thread.{IsSync};
ghost use Rattle.rep_ordered.specs.Views.{opened};
ghost use Rattle.rep_ordered.specs.Seats.{seat_of, stations_of};
ghost use Rattle.rep_ordered.specs.Going.{Went};
ghost use Rattle.uses_ordered.specs.Passing.{AllDone, numbers};

use crate::coupled::pass_coupled;
use crate::passed::Passed;
use crate::station::pass_station;
use rep_ordered::{OrderedLock, Seat};
use rep_types::{MAX_SEQNO, Refusal};
use std::alloc::Global;
use std::sync::Wait;
use std::thread::{Threads, join};

/// Draws a ticket and passes both stations with it, in order. Where there is no memory for a list, the lock is
/// halted and the value given up.
pub fn pass_one<const START: u64, R: Wait>(
    rt: &R,
    lock: &OrderedLock<Passed<START>, u64>,
    seat: &mut Seat<Passed<START>, u64>,
) -> Result<(), Refusal>
    requires lock { (seat.old.lock ≡ lock.now) × (stations_of lock.now ≡ 2) }
    requires start { seat.old.view.start ≡ START }
    requires free { seat.old.view.held ≡ [] }
    requires allowance { 0 < seat.old.view.allowance }
    requires done { AllDone seat.old.view }
    ensures lock { seat.new.lock ≡ seat.old.lock }
    ensures went { Went seat.old.view seat.new.view }
    ensures drawn { length seat.new.view.own ≡ length seat.old.view.own + 1 }
    ensures done { OnOk result (AllDone seat.new.view) }
    ensures refused { IfErr result (λ refusal. (refusal ≡ Refusal.Stopped) ⊎ (refusal ≡ Refusal.OutOfMemory)) }
{
    let ticket = lock.claim(seat);
    pass_station(rt, lock, seat, 0, ticket, &Some(ticket))?;
    pass_station(rt, lock, seat, 1, ticket, &None)
}

/// How a ticket passes both stations: it leaves the first before it enters the second, or after.
#[derive(Clone, Copy)]
pub enum Way {
    OneByOne,
    Coupled,
}

/// Passes both stations with as many tickets, in this way.
pub fn pass_all<const START: u64, R: Wait>(
    rt: &R,
    lock: &OrderedLock<Passed<START>, u64>,
    seat: &mut Seat<Passed<START>, u64>,
    way: Way,
    count: u64,
) -> Result<(), Refusal>
    requires lock { (seat.old.lock ≡ lock.now) × (stations_of lock.now ≡ 2) }
    requires start { seat.old.view.start ≡ START }
    requires free { seat.old.view.held ≡ [] }
    requires allowance { count ≤ seat.old.view.allowance }
    requires done { AllDone seat.old.view }
    ensures lock { seat.new.lock ≡ seat.old.lock }
    ensures went { Went seat.old.view seat.new.view }
    ensures drawn { OnOk result (length seat.new.view.own ≡ length seat.old.view.own + count) }
    ensures done { OnOk result (AllDone seat.new.view) }
    ensures refused { IfErr result (λ refusal. (refusal ≡ Refusal.Stopped) ⊎ (refusal ≡ Refusal.OutOfMemory)) }
{
    for _ticket in 0..count {
        match way {
            Way::OneByOne => pass_one(rt, lock, seat)?,
            Way::Coupled => pass_coupled(rt, lock, seat)?,
        }
    }
    Ok(())
}

/// Holds both stations at once and says how many tickets have passed each: the first as many as there
/// are entries in the history, and the second no more. It leaves first the station that it entered
/// first.
pub fn passed_counts<const START: u64, R: Wait>(
    rt: &R,
    lock: &OrderedLock<Passed<START>, u64>,
    seat: &mut Seat<Passed<START>, u64>,
) -> Result<(usize, usize), Refusal>
    requires lock { (seat.old.lock ≡ lock.now) × (stations_of lock.now ≡ 2) }
    requires start { seat.old.view.start ≡ START }
    requires free { seat.old.view.held ≡ [] }
    ensures lock { seat.new.lock ≡ seat.old.lock }
    ensures went { Went seat.old.view seat.new.view }
    ensures order { IfOk result (λ counts. counts.1 ≤ counts.0) }
    ensures first { IfOk result (λ counts. counts.0 ≡ length seat.new.view.seen) }
    ensures refused { IfErr result (λ refusal. refusal ≡ Refusal.Stopped) }
{
    let first = lock.side_enter(rt, seat, 0)?;
    let second = match lock.side_enter(rt, seat, 1) {
        Ok(second) => second,
        Err(refusal) => {
            lock.give_up(seat, 0, first);
            return Err(refusal);
        }
    };
    let counts = (first.tickets.len(), second.tickets.len());
    lock.side_leave(seat, 0, first);
    lock.side_leave(seat, 1, second);
    Ok(counts)
}

/// Passes both stations with as many tickets in each of as many threads.
pub fn pass_by<const START: u64, R: Threads + Wait + Sync>(
    rt: &R,
    lock: &OrderedLock<Passed<START>, u64>,
    mut seat: Seat<Passed<START>, u64>,
    threads: u64,
    count: u64,
) -> (Seat<Passed<START>, u64>, Result<(), Refusal>)
    requires lock { (seat.lock ≡ lock.now) × (stations_of lock.now ≡ 2) }
    requires start { seat.view.start ≡ START }
    requires free { seat.view.held ≡ [] }
    requires some { (0 < threads) × (0 < count) }
    requires allowance { threads * count ≤ seat.view.allowance }
    requires limit { threads * count < 2 ^ 64 }
    requires done { AllDone seat.view }
    ensures lock { result.0.lock ≡ seat.entry.lock }
    ensures went { Went seat.entry.view result.0.view }
    ensures drawn { OnOk result.1 (length result.0.view.own ≡ length seat.entry.view.own + threads * count) }
    ensures done { OnOk result.1 (AllDone result.0.view) }
{
    if threads == 1 {
        let passed = pass_all(rt, lock, &mut seat, Way::OneByOne, count);
        return (seat, passed);
    }
    let half = threads / 2;
    let rest = threads - half;
    let other = lock.split(&mut seat, half * count);
    let ((mut seat, first), (other, second)) = join(
        rt,
        move || -> (Seat<Passed<START>, u64>, Result<(), Refusal>)
            requires { IsSync R.row × (seat.lock ≡ lock.now) × (stations_of lock.now ≡ 2) × (seat.view.start ≡ START) × (seat.view.held ≡ []) × (0 < count) × (0 < rest) × (rest * count ≤ seat.view.allowance) × (rest * count < 2 ^ 64) × AllDone seat.view }
            ensures { (result.0.lock ≡ seat.lock) × Went seat.view result.0.view × OnOk result.1 (length result.0.view.own ≡ length seat.view.own + rest * count) × OnOk result.1 (AllDone result.0.view) }
        { pass_by(rt, lock, seat, rest, count) },
        move || -> (Seat<Passed<START>, u64>, Result<(), Refusal>)
            requires { IsSync R.row × (other.lock ≡ lock.now) × (stations_of lock.now ≡ 2) × (other.view.start ≡ START) × (other.view.held ≡ []) × (0 < count) × (0 < half) × (half * count ≤ other.view.allowance) × (half * count < 2 ^ 64) × AllDone other.view }
            ensures { (result.0.lock ≡ other.lock) × Went other.view result.0.view × OnOk result.1 (length result.0.view.own ≡ length other.view.own + half * count) × OnOk result.1 (AllDone result.0.view) }
        { pass_by(rt, lock, other, half, count) },
    );
    lock.join(&mut seat, other);
    (seat, first.and(second))
}

/// A lock of two stations that no ticket has passed, where tickets begin at `START`, with its first
/// seat.
pub fn lock_of_lists<const START: u64>(
    alloc: Global,
) -> Result<(OrderedLock<Passed<START>, u64>, Seat<Passed<START>, u64>), Refusal>
    requires start { (0 < START) × (START ≤ MAX_SEQNO + 1) }
    ensures stations { IfOk result (λ made. stations_of made.0 ≡ 2) }
    ensures seat { IfOk result (λ made. made.1 ≡ seat_of made.0 (opened (λ _. 0) (λ _. 0) START (MAX_SEQNO + 1 - START) made.1.view.first 0)) }
    ensures refused { IfErr result (λ refusal. refusal ≡ Refusal.OutOfMemory) }
{
    let mut values = Vec::with_capacity(alloc, 2)?;
    values.push(Passed {
        tickets: Vec::new(alloc),
    })?;
    values.push(Passed {
        tickets: Vec::new(alloc),
    })?;
    OrderedLock::new(alloc, values, START - 1, 0).map_err(
        |_refused| -> Refusal
            ensures { result ≡ Refusal.OutOfMemory }
        { Refusal::OutOfMemory },
    )
}

/// The tickets that have passed each station, in their order, once each of as many threads has passed
/// with as many.
pub fn tickets_by<const START: u64, R: Threads + Wait + Sync>(
    rt: &R,
    alloc: Global,
    threads: u64,
    count: u64,
) -> Result<(Vec<u64>, Vec<u64>), Refusal>
    requires start { (0 < START) × (START ≤ MAX_SEQNO + 1) }
    requires some { (0 < threads) × (0 < count) }
    requires numbers { START + threads * count ≤ MAX_SEQNO + 1 }
    ensures { IfOk result (λ lists. (lists.0.items ≡ numbers START (threads * count)) × (lists.1.items ≡ numbers START (threads * count))) }
{
    let (lock, seat) = lock_of_lists::<START>(alloc)?;
    let (seat, passed) = pass_by(rt, &lock, seat, threads, count);
    let mut values = lock.close(seat);
    passed?;
    let second = values.pop().flatten().unwrap();
    let first = values.pop().flatten().unwrap();
    Ok((first.tickets, second.tickets))
}
