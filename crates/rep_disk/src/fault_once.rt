//! A disk that fails one call.
ghost use Rattle.std.specs.Prelude.{◌≡◌, Some};
ghost use Rattle.rep_disk.specs.Fuses.{CountsDown};

use crate::faulty::{Call, Faults, FaultyDisk};

/// Fails one call.
#[derive(Drop)]
pub struct Once {
    calls_before: Option<u64>,
}

impl Once {
    ghost use Rattle.rep_disk.specs.Fuses.{calls_before};

    /// Fails the call of this number alone, so after that many others: the first has number 0.
    pub fn after(call: u64) -> Once
        ensures { calls_before result ≡ Some call }
    {
        Once {
            calls_before: Some(call),
        }
    }
}

impl Faults for Once {
    ghost says = { λ old call fails new. CountsDown old.calls_before new.calls_before fails };

    fn fails(&mut self, _call: Call) -> bool {
        match self.calls_before {
            None => false,
            Some(0) => {
                self.calls_before = None;
                true
            }
            Some(calls) => {
                self.calls_before = Some(calls - 1);
                false
            }
        }
    }
}

/// A disk that passes each call to the one inside but one, which it fails.
pub type FaultOnce<D> = FaultyDisk<D, Once>;
