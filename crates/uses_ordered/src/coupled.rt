//! Threads that hold both stations at once, and leave first the one that they entered first.

ghost use Rattle.std.specs.Prelude.{◌≡◌, ◌+◌, ◌*◌, ◌<◌, ◌≤◌, [], ◌∷◌, length, IfOk, IfErr, OnOk, ◌⊎◌};
ghost use Rattle.std.specs.Thread.{IsSync};
ghost use Rattle.rep_ordered.specs.Views.{hold, reached_at};
ghost use Rattle.rep_ordered.specs.Seats.{stations_of};
ghost use Rattle.rep_ordered.specs.Going.{Went};
ghost use Rattle.uses_ordered.specs.Passing.{AllDone, HavePassed};

use crate::passed::Passed;
use crate::passing::{Way, lock_of_lists, pass_all, passed_counts};
use crate::station::add_and_leave;
use rep_ordered::{OrderedLock, Seat};
use rep_types::{MAX_SEQNO, Refusal};
use std::alloc::Global;
use std::sync::Wait;
use std::thread::{Threads, join};

/// Draws a ticket and passes both stations with it, entering the second before it leaves the first.
/// Where there is no memory for a list, the lock is halted and the values given up.
pub fn pass_coupled<const START: u64, R: Wait>(
    rt: &R,
    lock: &OrderedLock<Passed<START>, u64>,
    seat: &mut Seat<Passed<START>, u64>,
) -> Result<(), Refusal>
    requires lock { (seat.old.lock ≡ lock.now) × (stations_of lock.now ≡ 2) }
    requires start { seat.old.view.start ≡ START }
    requires free { seat.old.view.held ≡ [] }
    requires allowance { 0 < seat.old.view.allowance }
    requires done { AllDone seat.old.view }
    ensures lock { seat.new.lock ≡ seat.old.lock }
    ensures went { Went seat.old.view seat.new.view }
    ensures drawn { length seat.new.view.own ≡ length seat.old.view.own + 1 }
    ensures done { OnOk result (AllDone seat.new.view) }
    ensures refused { IfErr result (λ refusal. (refusal ≡ Refusal.Stopped) ⊎ (refusal ≡ Refusal.OutOfMemory)) }
{
    let ticket = lock.claim(seat);
    let first = lock.enter(rt, seat, 0, ticket)?;
    match lock.enter(rt, seat, 1, ticket) {
        Ok(second) => leave_both(lock, seat, ticket, first, second),
        Err(refusal) => {
            lock.give_up(seat, 0, first);
            Err(refusal)
        }
    }
}

/// Adds the ticket to those that passed each station, and leaves first the one that was entered first.
fn leave_both<const START: u64>(
    lock: &OrderedLock<Passed<START>, u64>,
    seat: &mut Seat<Passed<START>, u64>,
    ticket: u64,
    first: Passed<START>,
    second: Passed<START>,
) -> Result<(), Refusal>
    requires lock { seat.old.lock ≡ lock.now }
    requires held { seat.old.view.held ≡ hold 1 (4 * ticket + 1) 0 ∷ hold 0 (4 * ticket + 1) 0 ∷ [] }
    requires common { seat.old.view.common ≡ 0 }
    requires place { START + length seat.old.view.seen ≡ ticket }
    requires first { HavePassed START ticket seat.old.view.seen first.tickets.items }
    requires second { HavePassed START ticket seat.old.view.seen second.tickets.items }
    ensures lock { seat.new.lock ≡ seat.old.lock }
    ensures went { Went seat.old.view seat.new.view }
    ensures own { seat.new.view.own ≡ seat.old.view.own }
    ensures reached { OnOk result ((ticket < reached_at 0 seat.new.view.reached) × (ticket < reached_at 1 seat.new.view.reached)) }
    ensures refused { IfErr result (λ refusal. refusal ≡ Refusal.OutOfMemory) }
{
    if let Err(refusal) = add_and_leave(lock, seat, 0, ticket, first, &Some(ticket)) {
        lock.give_up(seat, 1, second);
        return Err(refusal);
    }
    add_and_leave(lock, seat, 1, ticket, second, &None)
}

/// Counts so many times what has passed both stations, and says what it counted last.
pub fn count_often<const START: u64, R: Wait>(
    rt: &R,
    lock: &OrderedLock<Passed<START>, u64>,
    seat: &mut Seat<Passed<START>, u64>,
    times: u64,
) -> Result<(usize, usize), Refusal>
    requires lock { (seat.old.lock ≡ lock.now) × (stations_of lock.now ≡ 2) }
    requires start { seat.old.view.start ≡ START }
    requires free { seat.old.view.held ≡ [] }
    ensures lock { seat.new.lock ≡ seat.old.lock }
    ensures went { Went seat.old.view seat.new.view }
    ensures order { IfOk result (λ counts. counts.1 ≤ counts.0) }
    ensures refused { IfErr result (λ refusal. refusal ≡ Refusal.Stopped) }
{
    let mut counts = (0, 0);
    for _time in 0..times {
        counts = passed_counts(rt, lock, seat)?;
    }
    Ok(counts)
}

/// One thread passes both stations with so many tickets, while another counts as many times what has
/// passed them: what that one counted last. Both leave first the station that they entered first.
pub fn counts_beside<const START: u64, R: Threads + Wait + Sync>(
    rt: &R,
    alloc: Global,
    count: u64,
) -> Result<(usize, usize), Refusal>
    requires some { (0 < START) × (0 < count) }
    requires numbers { START + count ≤ MAX_SEQNO }
    ensures order { IfOk result (λ counts. counts.1 ≤ counts.0) }
    ensures refused { IfErr result (λ refusal. (refusal ≡ Refusal.Stopped) ⊎ (refusal ≡ Refusal.OutOfMemory)) }
{
    let (lock, mut passer) = lock_of_lists::<START>(alloc)?;
    let mut counter = lock.split(&mut passer, 1);
    let shared = &lock;
    let ((mut passer, passed), (counter, counts)) = join(
        rt,
        move || -> (Seat<Passed<START>, u64>, Result<(), Refusal>)
            requires { IsSync R.row × (passer.lock ≡ shared.now) × (stations_of shared.now ≡ 2) × (passer.view.start ≡ START) × (passer.view.held ≡ []) × (count ≤ passer.view.allowance) × AllDone passer.view }
            ensures { (result.0.lock ≡ passer.lock) × Went passer.view result.0.view × IfErr result.1 (λ refusal. (refusal ≡ Refusal.Stopped) ⊎ (refusal ≡ Refusal.OutOfMemory)) }
        {
            let passed = pass_all(rt, shared, &mut passer, Way::Coupled, count);
            (passer, passed)
        },
        move || -> (Seat<Passed<START>, u64>, Result<(usize, usize), Refusal>)
            requires { IsSync R.row × (counter.lock ≡ shared.now) × (stations_of shared.now ≡ 2) × (counter.view.start ≡ START) × (counter.view.held ≡ []) }
            ensures { (result.0.lock ≡ counter.lock) × Went counter.view result.0.view × IfOk result.1 (λ counts. counts.1 ≤ counts.0) × IfErr result.1 (λ refusal. refusal ≡ Refusal.Stopped) }
        {
            let counts = count_often(rt, shared, &mut counter, count);
            (counter, counts)
        },
    );
    lock.join(&mut passer, counter);
    let _lists = lock.close(passer);
    passed?;
    counts
}
