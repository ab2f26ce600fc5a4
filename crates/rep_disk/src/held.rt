//! A disk whose writes somebody holds back.
ghost use Rattle.std.specs.Prelude.{◌≡◌};
ghost use Rattle.rep_disk.specs.Fuses.{HoldsBack};

use crate::faulty::{Call, Faults, FaultyDisk};
use crossbeam_utils::Backoff;

/// Says when a write that waits may go on.
///
/// Nothing is promised of it.
pub trait Hold {
    /// Whether the write that waits now may go on. A write asks until it may.
    fn may_go(&self) -> bool;
}

/// How often a write asks whether it may go on before it fails.
const TURNS: u32 = 1_000_000;

/// Fails a write that was not let go when it asked for the 1,000,000th time, and nothing else.
#[derive(Drop)]
pub struct Held<H: Hold> {
    hold: H,
}

impl<H: Hold> Held<H> {
    ghost use Rattle.rep_disk.specs.Fuses.{hold_of};

    /// Holds back what this does not let go.
    pub fn by(hold: H) -> Held<H>
        ensures { hold_of result ≡ hold }
    {
        Held { hold }
    }
}

/// Asks until the write may go on, and says whether it may.
fn is_let_go<H: Hold>(hold: &H) -> bool {
    let backoff = Backoff::new();
    for _ in 0..TURNS {
        if hold.may_go() {
            return true;
        }
        backoff.snooze();
    }
    false
}

impl<H: Hold> Faults for Held<H> {
    ghost says = { λ old call fails new. HoldsBack call fails };

    fn fails(&mut self, call: Call) -> bool {
        match call {
            Call::Write => !is_let_go(&self.hold),
            Call::Read | Call::Sync => false,
        }
    }
}

/// A disk each of whose writes waits until its hold lets it go on to the disk inside. Reads and syncs are passed on at once.
///
/// A write that was not let go when it asked for the 1,000,000th time fails: it leaves the disk inside untouched, and is counted as a
/// failure beside that disk's own.
pub type HeldDisk<D, H> = FaultyDisk<D, Held<H>>;
