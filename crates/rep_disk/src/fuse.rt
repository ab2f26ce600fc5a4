//! A disk that fails from some call on.
ghost use Rattle.std.specs.Prelude.{◌≡◌};
ghost use Rattle.rep_disk.specs.Fuses.{BurnsDown};

use crate::faulty::{Call, Faults, FaultyDisk};

/// Passes so many calls, and then fails every call.
#[derive(Drop)]
pub struct Fuse {
    calls_left: u64,
}

impl Fuse {
    ghost use Rattle.rep_disk.specs.Fuses.{calls_left};

    /// Passes so many calls.
    pub fn after(calls: u64) -> Fuse
        ensures { calls_left result ≡ calls }
    {
        Fuse { calls_left: calls }
    }
}

impl Faults for Fuse {
    ghost says = { λ old call fails new. BurnsDown old.calls_left new.calls_left fails };

    fn fails(&mut self, _call: Call) -> bool {
        if self.calls_left == 0 {
            return true;
        }
        self.calls_left -= 1;
        false
    }
}

/// A disk that passes so many calls to the one inside, and then fails every call.
pub type FuseDisk<D> = FaultyDisk<D, Fuse>;
