//! Paces that hold workers back, and a disk's hold.

use crossbeam_utils::Backoff;
use crossbeam_utils::atomic::AtomicCell;
use rep_disk::Hold;
use rep_node::{Pace, Point};
use std::sync::Arc;
use std::thread::sleep;
use std::time::{Clock, Duration};

/// Whether it comes true within 1,000,000 turns.
fn comes_true(told: &AtomicCell<bool>) -> bool {
    let backoff = Backoff::new();
    for _ in 0..1_000_000 {
        if told.load() {
            return true;
        }
        backoff.snooze();
    }
    false
}

/// The worker of the first seqno is held behind its verdict until that of another has its own, and no worker goes on from a point with
/// a seqno, where either is asked for.
#[derive(Drop)]
pub(crate) struct Held {
    stop: Option<(Point, u64)>,
    other: Option<u64>,
    is_there: AtomicCell<bool>,
}

impl Held {
    /// No worker goes on from the point with the seqno, and the first is held until the worker of the other seqno has its verdict.
    pub(crate) fn new(stop: Option<(Point, u64)>, other: Option<u64>) -> Held {
        Held {
            stop,
            other,
            is_there: AtomicCell::new(false),
        }
    }
}

impl Pace for Held {
    ghost lets = { λ pace point seqno. Unit {0} };

    fn at(&self, point: Point, seqno: u64) -> bool {
        if self.stop == Some((point, seqno)) {
            return false;
        }
        if point != Point::Certified || self.other.is_none() {
            return true;
        }
        if self.other == Some(seqno) {
            self.is_there.store(true);
        }
        seqno != 1 || comes_true(&self.is_there)
    }
}

/// All go on at once.
pub(crate) struct AtOnce;

impl Pace for AtOnce {
    ghost lets = { λ pace point seqno. Unit {0} };

    fn at(&self, _point: Point, _seqno: u64) -> bool {
        true
    }
}

/// None may go on.
pub(crate) struct Never;

impl Pace for Never {
    ghost lets = { λ pace point seqno. Unit {0} };

    fn at(&self, _point: Point, _seqno: u64) -> bool {
        false
    }
}

/// The worker of the first seqno is held behind its verdict until that of the second has its own; and it is told once the second was queued,
/// and so the first too.
#[derive(Drop)]
pub(crate) struct Queueing {
    held: Held,
    are_queued: AtomicCell<bool>,
}

impl Queueing {
    /// None was queued.
    pub(crate) fn new() -> Queueing {
        Queueing {
            held: Held::new(None, Some(2)),
            are_queued: AtomicCell::new(false),
        }
    }

    /// Waits until both were queued, and 2 ms more, within which their workers go to sleep. It says whether both were.
    pub(crate) fn waits_for_sleepers<R: Clock>(&self, rt: &R) -> bool {
        let are_queued = comes_true(&self.are_queued);
        sleep(rt, Duration::from_millis(2));
        are_queued
    }
}

impl Pace for Queueing {
    ghost lets = { λ pace point seqno. Unit {0} };

    fn at(&self, point: Point, seqno: u64) -> bool {
        if point == Point::Queued && seqno == 2 {
            self.are_queued.store(true);
        }
        self.held.at(point, seqno)
    }
}

/// The second seqno is held behind its verdict until the disk's first write has begun, and that write until the second seqno was queued.
#[derive(Drop)]
pub(crate) struct Crossing {
    has_begun: AtomicCell<bool>,
    is_queued: AtomicCell<bool>,
}

impl Crossing {
    /// Neither has come.
    pub(crate) fn new() -> Crossing {
        Crossing {
            has_begun: AtomicCell::new(false),
            is_queued: AtomicCell::new(false),
        }
    }
}

impl Pace for Crossing {
    ghost lets = { λ pace point seqno. Unit {0} };

    fn at(&self, point: Point, seqno: u64) -> bool {
        if seqno != 2 {
            return true;
        }
        match point {
            Point::Claimed => true,
            Point::Certified => comes_true(&self.has_begun),
            Point::Queued => {
                self.is_queued.store(true);
                true
            }
        }
    }
}

/// The hold of the disk in a crossing.
#[derive(Drop)]
pub(crate) struct Writes(pub(crate) Arc<Crossing>);

impl Hold for Writes {
    fn may_go(&self) -> bool {
        self.0.has_begun.store(true);
        self.0.is_queued.load()
    }
}
