//! What a disk is, and what an honest one does.
ghost use Rattle.std.specs.Prelude.{◌≡◌, ◌+◌, ◌≤◌, ℕ, length};
ghost use Rattle.rep_disk.specs.History.{History, stable};
ghost use Rattle.rep_disk.specs.Calls.{IsRead, IsWrite, IsSync};

use thiserror::Error;

/// The device failed during this call: its count of failures rose.
#[derive(Clone, Copy, Debug, PartialEq, Eq, Error)]
#[error("the device failed")]
pub struct DiskFault;

/// A device of a fixed size, in bytes.
///
/// What is said of any disk: the size stays, and a call answers [`DiskFault`] exactly where the
/// count of failures rises. More is said of an honest disk alone, by its history: the calls that
/// changed it.
///
/// - From a write until the next successful sync its range is pending: a stop, which may come at
///   any moment, may leave any bytes there. Bytes outside the pending ranges stay.
/// - A failed write changes nothing or leaves some bytes in its range, which then is pending.
/// - After a successful sync nothing is pending. A failed sync makes nothing stable.
/// - A read gives what was written, except in the range of a failed write.
///
/// Whether a disk is honest is no question that a program can ask. Each call leaves an honest disk
/// honest and makes no other disk so.
pub trait Disk {
    /// The size in bytes.
    ghost size: { Self → ℕ };

    /// How often the device has failed.
    ghost failures: { Self → ℕ };

    /// What was asked of it, where it is honest.
    ghost history: { Self → History };

    /// It keeps the model of disks.
    ghost honest: { Self → Type 0 };

    /// The size in bytes, which stays.
    fn size(&self) -> usize
        ensures { result ≡ size self.now };

    /// How often the device has failed. At the greatest number it stays there, and a further
    /// failure counts as a rise.
    fn failures(&self) -> u64
        ensures { result ≡ failures self.now };

    /// Fills `out` with the bytes at this offset. After [`DiskFault`] nothing is known of `out`.
    fn read_at(&mut self, at: usize, out: &mut [u8]) -> Result<(), DiskFault>
        requires { at + length out.old ≤ size self.old }
        ensures { IsRead size failures honest history at out.new self.old self.new result };

    /// Writes the bytes at this offset. They are stable from the next successful sync on.
    fn write_at(&mut self, at: usize, bytes: &[u8]) -> Result<(), DiskFault>
        requires { at + length bytes.now ≤ size self.old }
        ensures { IsWrite size failures honest history at bytes.now self.old self.new result };

    /// Makes all that was written stable.
    fn sync(&mut self) -> Result<(), DiskFault>
        ensures { IsSync size failures honest history self.old self.new result };

    /// An honest disk's bytes are as many as its size.
    ghost sized: { (disk : Self) → honest disk → length (stable (history disk)) ≡ size disk };
}
