//! How often a device was synced.

ghost use Rattle.std.specs.Prelude.{◌≡◌, ℕ};
ghost use Rattle.rep_disk.specs.Fuses.{file_syncs};

use rep_disk::FileDisk;
use std::fs::OpenFile;
use std::os::unix::fs::FileExt;

/// A device that tells how often it was synced.
pub trait CountsSyncs {
    /// How often that was.
    ghost synced: { Self → ℕ };

    /// How many of its syncs ended well, since it counts them. At 2^64 - 1 the count stays.
    fn syncs(&self) -> u64
        ensures { result ≡ synced self.now };
}

impl<F: FileExt + OpenFile + Drop> CountsSyncs for FileDisk<F> {
    ghost synced = { λ disk. file_syncs disk };

    fn syncs(&self) -> u64 {
        FileDisk::syncs(self)
    }
}
