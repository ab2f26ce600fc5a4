//! How who waits passes the time.

use crossbeam_utils::Backoff;
use crossbeam_utils::sync::{EventCount, Key};
use std::sync::Wait;

/// Announces a sleep, where it is time for one. Who has announced it looks once more, and sleeps only where what he waits for has not come:
/// whoever brings it behind that wakes him.
pub fn announced(events: &EventCount, is_time: bool) -> Option<Key<'_>> {
    if is_time {
        Some(events.prepare_wait())
    } else {
        None
    }
}

/// Passes the time till the next look: asleep, where that was announced.
pub fn pass<R: Wait>(rt: &R, backoff: &Backoff, sleep: Option<Key<'_>>) {
    match sleep {
        Some(sleep) => sleep.wait(rt),
        None => backoff.snooze(),
    }
}
