//! A device that may show other bytes than were written, as no honest one does.

ghost use Rattle.std.specs.Prelude.{◌≡◌, []};

use crate::order::Part;
use rep_disk::{Disk, DiskFault, FaultOnce, FuseDisk, MemDisk};

/// A disk in memory behind both kinds of failures.
pub(crate) type Failing = FaultOnce<FuseDisk<MemDisk>>;

/// Behind so many calls these bytes are read at this place, whatever was written there.
#[derive(Drop)]
pub(crate) struct Damage {
    pub(crate) calls: u64,
    pub(crate) at: u64,
    pub(crate) part: Part,
}

/// A disk, and the damage that it shows, if any.
#[derive(Drop)]
pub(crate) struct Damaged {
    pub(crate) inner: Failing,
    pub(crate) damage: Option<Damage>,
}

/// Has what was read at this place be these bytes where they lie in it, from their own place on.
fn show(part: &[u8], from: usize, at: usize, out: &mut [u8]) {
    for (index, byte) in part.iter().enumerate() {
        if let Some(place) = from.saturating_add(index).checked_sub(at) {
            if let Some(shown) = out.get_mut(place) {
                *shown = *byte;
            }
        }
    }
}

impl Damaged {
    /// Counts a call.
    fn count(&mut self)
        ensures { self.new.inner ≡ self.old.inner }
    {
        if let Some(damage) = &mut self.damage {
            damage.calls = damage.calls.saturating_sub(1);
        }
    }
}

impl Disk for Damaged {
    ghost use Rattle.rep_disk.specs.History.{Begins};

    ghost size = { λ d. ⟦<FaultOnce<FuseDisk<MemDisk>> as Disk>⟧.size d.inner };

    ghost failures = { λ d. ⟦<FaultOnce<FuseDisk<MemDisk>> as Disk>⟧.failures d.inner };

    ghost history = { λ _. Begins [] };

    ghost honest = { λ _. ⊥ };

    ghost sized = { λ d honest. absurd honest };

    fn size(&self) -> usize {
        self.inner.size()
    }

    fn failures(&self) -> u64 {
        self.inner.failures()
    }

    fn read_at(&mut self, at: usize, out: &mut [u8]) -> Result<(), DiskFault> {
        self.inner.read_at(at, out)?;
        if let Some(damage) = &self.damage {
            if damage.calls == 0 {
                show(damage.part.as_slice(), damage.at as usize, at, out);
            }
        }
        self.count();
        Ok(())
    }

    fn write_at(&mut self, at: usize, bytes: &[u8]) -> Result<(), DiskFault> {
        self.count();
        self.inner.write_at(at, bytes)
    }

    fn sync(&mut self) -> Result<(), DiskFault> {
        self.count();
        self.inner.sync()
    }
}
