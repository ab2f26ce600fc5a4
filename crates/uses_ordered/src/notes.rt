//! Notes at home in two stations, for runs that end by a halt.

ghost use Rattle.std.specs.Prelude.{◌≡◌, ◌+◌, ◌<◌, ◌≤◌, [], length, IfOk, IfErr, IfSome, IsSomeAnd, IsTrue, IsFalse, All, ◌⊎◌};
ghost use Rattle.rep_ordered.specs.Counts.{times};
ghost use Rattle.rep_ordered.specs.Views.{Holds, except};
ghost use Rattle.rep_ordered.specs.Seats.{stations_of};
ghost use Rattle.rep_ordered.specs.Going.{Went};

use rep_ordered::{Front, Keeps, OrderedLock, Seat};
use rep_types::{MAX_SEQNO, Refusal};
use std::alloc::Global;
use std::sync::Wait;
use std::thread;
use std::thread::{Threads, join};

/// A number of at most 100. At station 1 it is the durable number.
#[derive(Debug, Drop)]
pub struct Note {
    pub mark: u64,
}

impl Keeps<u64> for Note {
    ghost use Rattle.std.specs.Prelude.{◌≤◌, ◌^◌};
    ghost use Rattle.uses_ordered.specs.Passing.{Anything};

    ghost legal = { λ _ history. Anything history };

    ghost at_home = { λ _ _ _ _ _ _ note. note.mark ≤ 100 };

    ghost durable_of = { λ note. note.mark };

    // Station 1 names the greatest, which covers each durable number.
    ghost common_of = { λ _. 2 ^ 60 };

    ghost grows = { λ _ _ _ _ _ _ _ _ _ home _. home };
}

/// A lock of notes, with a seat of it.
type WithSeat = (OrderedLock<Note, u64>, Seat<Note, u64>);

/// A lock at this position whose two notes are 0, with its first seat.
pub fn lock_of_notes(alloc: Global, position: u64) -> Result<WithSeat, Refusal>
    requires { position ≤ MAX_SEQNO }
    ensures seat { IfOk result (λ made. (made.1.lock ≡ made.0) × (stations_of made.0 ≡ 2) × (made.1.view.held ≡ [])) }
    ensures numbers { IfOk result (λ made. (made.1.view.own ≡ []) × (made.1.view.allowance ≡ made.1.view.whole)) }
    ensures last { position ≡ MAX_SEQNO → IfOk result (λ made. made.1.view.allowance ≡ 0) }
    ensures many { position < 100 → IfOk result (λ made. 100 < made.1.view.allowance) }
    ensures refused { IfErr result (λ refusal. refusal ≡ Refusal.OutOfMemory) }
{
    let mut notes = Vec::with_capacity(alloc, 2)?;
    notes.push(Note { mark: 0 })?;
    notes.push(Note { mark: 0 })?;
    OrderedLock::new(alloc, notes, position, 0).map_err(|_refused| Refusal::OutOfMemory)
}

/// Halts the lock after a while, and gives station 0 up with a note of 9.
pub fn halt_and_give_up(
    lock: &OrderedLock<Note, u64>,
    mut seat: Seat<Note, u64>,
    mut note: Note,
) -> Seat<Note, u64>
    requires lock { seat.lock ≡ lock.now }
    requires holds { Holds seat.view 0 × (except 0 seat.view.held ≡ []) }
    requires floor { note.mark ≤ 100 }
    ensures lock { result.lock ≡ seat.lock }
    ensures went { Went seat.view result.view }
{
    for _ in 0..1000 {
        thread::yield_now();
    }
    lock.halt(&mut seat);
    note.mark = 9;
    lock.give_up(&mut seat, 0, note);
    seat
}

/// Waits for station 0, and says why it was not entered. Where it was, it is left again.
pub fn wait_for_turn<R: Wait>(
    rt: &R,
    lock: &OrderedLock<Note, u64>,
    mut seat: Seat<Note, u64>,
    ticket: u64,
) -> (Seat<Note, u64>, Option<Refusal>)
    requires lock { (seat.lock ≡ lock.now) × (stations_of lock.now ≡ 2) }
    requires ticket { 0 < times ticket seat.view.own }
    requires free { seat.view.held ≡ [] }
    ensures lock { result.0.lock ≡ seat.lock }
    ensures went { Went seat.view result.0.view }
    ensures told { IfSome result.1 (λ refusal. refusal ≡ Refusal.Stopped) }
{
    match lock.enter(rt, &mut seat, 0, ticket) {
        Ok(note) => {
            lock.leave(&mut seat, 0, note, &Some(ticket));
            (seat, None)
        }
        Err(refusal) => (seat, Some(refusal)),
    }
}

/// One thread holds station 0 and halts the lock, while another waits for it: what that one was told,
/// and the notes that the lock is closed with.
pub fn halted_run<R: Threads + Wait + Sync>(
    rt: &R,
    alloc: Global,
) -> Result<(Option<Refusal>, Vec<Option<Note>>), Refusal>
    ensures told { IfOk result (λ run. IfSome run.0 (λ refusal. refusal ≡ Refusal.Stopped)) }
    ensures notes { IfOk result (λ run. (length run.1.items ≡ 2) × All (λ found. IsSomeAnd found (λ note. note.mark ≤ 100)) run.1.items) }
    ensures refused { IfErr result (λ refusal. (refusal ≡ Refusal.Stopped) ⊎ (refusal ≡ Refusal.OutOfMemory)) }
{
    let (lock, mut holder) = lock_of_notes(alloc, 5)?;
    let waiter = lock.split(&mut holder, 10);
    let (holder, refusal) = halt_beside(rt, &lock, holder, waiter)?;
    Ok((refusal, lock.close(holder)))
}

/// One seat enters station 0, and halts the lock in a thread of its own, while the other waits for that
/// station in another: the one with all numbers of both, and what the other was told.
fn halt_beside<R: Threads + Wait + Sync>(
    rt: &R,
    lock: &OrderedLock<Note, u64>,
    mut holder: Seat<Note, u64>,
    mut waiter: Seat<Note, u64>,
) -> Result<(Seat<Note, u64>, Option<Refusal>), Refusal>
    requires lock { (holder.lock ≡ lock.now) × (waiter.lock ≡ lock.now) × (stations_of lock.now ≡ 2) }
    requires free { (holder.view.held ≡ []) × (waiter.view.held ≡ []) }
    requires allowance { (0 < holder.view.allowance) × (0 < waiter.view.allowance) }
    ensures lock { IfOk result (λ run. run.0.lock ≡ holder.lock) }
    ensures free { IfOk result (λ run. run.0.view.held ≡ []) }
    ensures all { IfOk result (λ run. run.0.view.allowance + length run.0.view.own ≡ (holder.view.allowance + length holder.view.own) + (waiter.view.allowance + length waiter.view.own)) }
    ensures whole { IfOk result (λ run. run.0.view.whole ≡ holder.view.whole) }
    ensures told { IfOk result (λ run. IfSome run.1 (λ refusal. refusal ≡ Refusal.Stopped)) }
    ensures refused { IfErr result (λ refusal. refusal ≡ Refusal.Stopped) }
{
    let first = lock.claim(&mut holder);
    let second = lock.claim(&mut waiter);
    let note = lock.enter(rt, &mut holder, 0, first)?;
    let (mut holder, (waiter, refusal)) = join(
        rt,
        move || -> Seat<Note, u64>
            requires { (holder.lock ≡ lock.now) × Holds holder.view 0 × (except 0 holder.view.held ≡ []) × (note.mark ≤ 100) }
            ensures { (result.lock ≡ holder.lock) × Went holder.view result.view }
        { halt_and_give_up(lock, holder, note) },
        move || -> (Seat<Note, u64>, Option<Refusal>)
            requires { (waiter.lock ≡ lock.now) × (stations_of lock.now ≡ 2) × (0 < times second waiter.view.own) × (waiter.view.held ≡ []) }
            ensures { (result.0.lock ≡ waiter.lock) × Went waiter.view result.0.view × IfSome result.1 (λ refusal. refusal ≡ Refusal.Stopped) }
        { wait_for_turn(rt, lock, waiter, second) },
    );
    lock.join(&mut holder, waiter);
    Ok((holder, refusal))
}

/// What the front says after the durable number was raised to 7, then to 5, and after a halt.
pub fn raised_run<R: Wait>(rt: &R, alloc: Global) -> Result<(Front, Front, Front), Refusal>
    ensures raised { IfOk result (λ fronts. IsFalse fronts.0.halted → 7 ≤ fronts.0.durable) }
    ensures kept { IfOk result (λ fronts. (fronts.0.durable ≤ fronts.1.durable) × (fronts.1.durable ≤ fronts.2.durable)) }
    ensures halted { IfOk result (λ fronts. IsTrue fronts.2.halted) }
    ensures refused { IfErr result (λ refusal. (refusal ≡ Refusal.Stopped) ⊎ (refusal ≡ Refusal.OutOfMemory)) }
{
    let (lock, mut seat) = lock_of_notes(alloc, 5)?;
    raise_twice(rt, &lock, &mut seat)
}

/// Raises the durable number to 7, then to 5, halts the lock, and says what the front is after each.
fn raise_twice<R: Wait>(
    rt: &R,
    lock: &OrderedLock<Note, u64>,
    seat: &mut Seat<Note, u64>,
) -> Result<(Front, Front, Front), Refusal>
    requires lock { (seat.old.lock ≡ lock.now) × (stations_of lock.now ≡ 2) }
    requires free { seat.old.view.held ≡ [] }
    ensures raised { IfOk result (λ fronts. IsFalse fronts.0.halted → 7 ≤ fronts.0.durable) }
    ensures kept { IfOk result (λ fronts. (fronts.0.durable ≤ fronts.1.durable) × (fronts.1.durable ≤ fronts.2.durable)) }
    ensures halted { IfOk result (λ fronts. IsTrue fronts.2.halted) }
    ensures refused { IfErr result (λ refusal. refusal ≡ Refusal.Stopped) }
{
    let mut note = lock.side_enter(rt, seat, 1)?;
    note.mark = note.mark.max(7);
    lock.side_leave(seat, 1, note);
    lock.raise(seat, 7);
    let raised = lock.front(seat);
    lock.raise(seat, 5);
    let kept = lock.front(seat);
    lock.halt(seat);
    Ok((raised, kept, lock.front(seat)))
}
