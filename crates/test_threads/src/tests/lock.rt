//! What threads leave behind on the ordered lock.

ghost use Rattle.std.specs.Prelude.{◌*◌, ◌<◌, ◌≤◌};

use rep_ordered::Front;
use rep_types::{MAX_SEQNO, Refusal};
use std::alloc::Global;
use std::sync::Wait;
use std::test::Fail;
use std::thread::Threads;
use uses_ordered::{
    Note, counts_beside, halted_run, lock_of_notes, lock_of_parts, raised_run, take_over,
    tickets_by, wait_one,
};

/// Whether these are the 200 tickets from 6 on, in order.
fn are_in_order(tickets: &[u64]) -> bool {
    let mut right = tickets.len() == 200;
    let mut wanted: u64 = 6;
    for ticket in tickets {
        right = right && *ticket == wanted;
        wanted = wanted.saturating_add(1);
    }
    right
}

/// Whether as many threads, each with as many tickets, pass both stations in order.
fn pass_in_order<R: Threads + Wait + Sync>(
    rt: &R,
    alloc: Global,
    threads: u64,
    count: u64,
) -> Result<bool, Refusal>
    requires { (0 < threads) × (0 < count) × (threads * count ≤ 200) }
{
    let (first, second) = tickets_by::<6, R>(rt, alloc, threads, count)?;
    Ok(are_in_order(&first) && are_in_order(&second))
}

#[test]
fn threads_pass_in_order(rt: HostRuntime) {
    let two = pass_in_order(&rt, rt.alloc(), 2, 100);
    let five = pass_in_order(&rt, rt.alloc(), 5, 40);
    assert!(rt; two == Ok(true) && five == Ok(true));
}

#[test]
fn one_thread_counts_while_another_passes(rt: HostRuntime) -> Result<(), Fail> {
    let (first, second) = counts_beside::<6, _>(&rt, rt.alloc(), 100)?;
    assert!(rt; second <= first && first <= 100);
    Ok(())
}

/// Whether the lock has two notes, at the last position where no number is left, and nothing is durable or halted.
fn has_two_notes(alloc: Global) -> Result<bool, Refusal> {
    let (lock, mut seat) = lock_of_notes(alloc, MAX_SEQNO)?;
    let front = lock.front(&mut seat);
    let notes = lock.close(seat);
    Ok(front.durable == 0 && !front.halted && notes.len() == 2)
}

/// Whether the first note is a 9 and the second a 0, and these are all.
fn are_nine_and_none(notes: &[Option<Note>]) -> bool {
    match notes {
        [Some(first), Some(second)] => first.mark == 9 && second.mark == 0,
        _ => false,
    }
}

#[test]
fn notes_come_back(rt: HostRuntime) -> Result<(), Fail> {
    assert!(rt; has_two_notes(rt.alloc())?);
    // A halt ends a wait, and a value that was given up comes back.
    let (refusal, notes) = halted_run(&rt, rt.alloc())?;
    assert!(rt; refusal == Some(Refusal::Stopped) && are_nine_and_none(&notes));
    Ok(())
}

#[test]
fn the_durable_number_rises_and_outlasts_a_halt(rt: HostRuntime) -> Result<(), Fail> {
    let (raised, kept, halted) = raised_run(&rt, rt.alloc())?;
    let running = Front {
        durable: 7,
        halted: false,
    };
    assert!(rt; raised == running && kept == running);
    assert!(rt; halted.durable == 7 && halted.halted);
    Ok(())
}

/// Two wait, all that wait are taken over, and again.
fn wait_and_take_over<R: Wait>(rt: &R, alloc: Global) -> Result<bool, Refusal> {
    let (lock, mut seat) = lock_of_parts(alloc, 5)?;
    let first = wait_one(rt, &lock, &mut seat);
    let second = wait_one(rt, &lock, &mut seat);
    let two = take_over(rt, &lock, &mut seat);
    let none = take_over(rt, &lock, &mut seat);
    Ok(first.is_ok() && second.is_ok() && two == Ok(2) && none == Ok(0))
}

#[test]
fn what_waits_is_taken_over_once(rt: HostRuntime) {
    assert!(rt; wait_and_take_over(&rt, rt.alloc()) == Ok(true));
}
