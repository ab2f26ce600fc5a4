//! Three stations, two of which name one number: at station 2 items wait, and at station 1 they are
//! taken over.

ghost use Rattle.std.specs.Prelude.{◌≡◌, ◌+◌, ◌<◌, ◌≤◌, [], length, IfOk, IfErr};
ghost use Rattle.rep_ordered.specs.Counts.{times};
ghost use Rattle.rep_ordered.specs.Seats.{IsFree, stations_of};
ghost use Rattle.rep_ordered.specs.Going.{Went};

use rep_ordered::{Keeps, OrderedLock, Seat};
use rep_types::{MAX_SEQNO, Refusal};
use std::alloc::Global;
use std::sync::Wait;

/// The last number that was taken over, and at station 2 how many wait behind it.
#[derive(Debug, Drop)]
pub struct Part {
    pub taken: u64,
    pub waiting: u64,
}

impl Keeps<u64> for Part {
    ghost use Rattle.uses_ordered.specs.Passing.{Anything, PartAtHome};

    ghost legal = { λ _ history. Anything history };

    ghost at_home = { λ _ station number _ _ _ part. PartAtHome station number part.taken part.waiting };

    ghost durable_of = { λ part. part.taken };

    ghost common_of = { λ part. part.taken };

    ghost grows = { λ _ _ _ _ _ _ _ _ _ home _. home };
}

/// A part where nothing waits.
fn part_at(position: u64) -> Part
    ensures { (result.taken ≡ position) × (result.waiting ≡ 0) }
{
    Part {
        taken: position,
        waiting: 0,
    }
}

/// A lock of three stations at this position, where nothing waits, with its first seat.
pub fn lock_of_parts(
    alloc: Global,
    position: u64,
) -> Result<(OrderedLock<Part, u64>, Seat<Part, u64>), Refusal>
    requires { position ≤ MAX_SEQNO }
    ensures seat { IfOk result (λ made. (made.1.lock ≡ made.0) × (stations_of made.0 ≡ 3) × (made.1.view.held ≡ [])) }
    ensures many { position < 100 → IfOk result (λ made. 100 < made.1.view.allowance) }
    ensures refused { IfErr result (λ refusal. refusal ≡ Refusal.OutOfMemory) }
{
    let mut parts = Vec::with_capacity(alloc, 3)?;
    parts.push(part_at(position))?;
    parts.push(part_at(position))?;
    parts.push(part_at(position))?;
    OrderedLock::new(alloc, parts, position, 0).map_err(
        |_refused| -> Refusal
            ensures { result ≡ Refusal.OutOfMemory }
        { Refusal::OutOfMemory },
    )
}

/// Draws a ticket, passes station 0 with it, and lets one more wait at station 2. Station 1 is not
/// needed.
pub fn wait_one<R: Wait>(
    rt: &R,
    lock: &OrderedLock<Part, u64>,
    seat: &mut Seat<Part, u64>,
) -> Result<(), Refusal>
    requires lock { (seat.old.lock ≡ lock.now) × (stations_of lock.now ≡ 3) }
    requires free { seat.old.view.held ≡ [] }
    requires allowance { 0 < seat.old.view.allowance }
    ensures lock { seat.new.lock ≡ seat.old.lock }
    ensures went { Went seat.old.view seat.new.view }
    ensures drawn { length seat.new.view.own ≡ length seat.old.view.own + 1 }
    ensures common { seat.old.view.common ≤ seat.new.view.common }
    ensures stopped { IfErr result (λ refusal. (refusal ≡ Refusal.Stopped) × (seat.new.view.halted ≡ 1)) }
{
    let ticket = lock.claim(seat);
    let first = lock.enter(rt, seat, 0, ticket)?;
    lock.leave(seat, 0, first, &Some(ticket));
    queue_one(rt, lock, ticket, seat)
}

/// Passes station 2 with a ticket, and lets one more wait there.
fn queue_one<R: Wait>(
    rt: &R,
    lock: &OrderedLock<Part, u64>,
    ticket: u64,
    seat: &mut Seat<Part, u64>,
) -> Result<(), Refusal>
    requires free { IsFree lock.now 3 seat.old }
    requires ticket { 0 < times ticket seat.old.view.own }
    ensures lock { seat.new.lock ≡ seat.old.lock }
    ensures went { Went seat.old.view seat.new.view }
    ensures own { seat.new.view.own ≡ seat.old.view.own }
    ensures common { seat.old.view.common ≤ seat.new.view.common }
    ensures stopped { IfErr result (λ refusal. (refusal ≡ Refusal.Stopped) × (seat.new.view.halted ≡ 1)) }
{
    let mut queue = lock.enter(rt, seat, 2, ticket)?;
    queue.waiting += 1;
    lock.leave(seat, 2, queue, &None);
    Ok(())
}

/// Holds stations 1 and 2 from the side, takes over all that waits, and says how many that were. The
/// number that both name rises by as many.
pub fn take_over<R: Wait>(
    rt: &R,
    lock: &OrderedLock<Part, u64>,
    seat: &mut Seat<Part, u64>,
) -> Result<u64, Refusal>
    requires lock { (seat.old.lock ≡ lock.now) × (stations_of lock.now ≡ 3) }
    requires free { seat.old.view.held ≡ [] }
    ensures lock { seat.new.lock ≡ seat.old.lock }
    ensures went { Went seat.old.view seat.new.view }
    ensures own { seat.new.view.own ≡ seat.old.view.own }
    ensures taken { IfOk result (λ taken. seat.old.view.common + taken ≤ seat.new.view.common) }
    ensures stopped { IfErr result (λ refusal. (refusal ≡ Refusal.Stopped) × (seat.new.view.halted ≡ 1)) }
{
    let mut taker = lock.side_enter(rt, seat, 1)?;
    let mut queue = match lock.side_enter(rt, seat, 2) {
        Ok(queue) => queue,
        Err(refusal) => {
            lock.give_up(seat, 1, taker);
            return Err(refusal);
        }
    };
    let waiting = queue.waiting;
    // What waits follows the last number that was taken over.
    taker.taken += waiting;
    queue.waiting = 0;
    queue.taken = taker.taken;
    lock.side_leave(seat, 2, queue);
    lock.side_leave(seat, 1, taker);
    Ok(waiting)
}
