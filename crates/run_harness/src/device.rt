//! The device below a replica: a disk in memory that fails at one call, or from one call on, or shows other bytes than were written.

use crate::damaged::{Damage, Damaged, Failing as Fuses};
use rep_disk::{Disk, FaultOnce, Fuse, FuseDisk, Loss, MemDisk, Once};
use rep_types::Refusal;
use std::alloc::Global;

/// A disk in memory behind both kinds of failures, of which at most one is armed, and behind what it shows.
pub(crate) type Device = Damaged;

/// A number of calls that nobody makes.
const NEVER: u64 = u64::MAX;

/// Which calls of the device fail.
#[derive(Clone, Copy)]
pub(crate) enum Failing {
    /// That of this number alone, counted from 0.
    Once(u64),
    /// All from that of this number on.
    FromThenOn(u64),
}

/// The device over these, which shows what was written.
fn undamaged(inner: Fuses) -> Device {
    Damaged {
        inner,
        damage: None,
    }
}

/// The disk, which serves every call.
pub(crate) fn serving(disk: MemDisk) -> Device {
    undamaged(FaultOnce::new(FuseDisk::new(disk, Fuse::after(NEVER)), Once::after(NEVER)))
}

/// A disk with these bytes, all of them stable, which serves every call.
fn holding(alloc: Global, bytes: &[u8]) -> Result<Device, Refusal> {
    Ok(serving(MemDisk::from_bytes(alloc, bytes)?))
}

/// A new disk of so many bytes, each of which is this one.
pub(crate) fn blank(alloc: Global, size: usize, byte: u8) -> Result<Device, Refusal> {
    holding(alloc, &vec![in alloc; byte; size]?)
}

/// The disk in memory inside.
fn memory(device: Device) -> MemDisk {
    device.inner.into_inner().into_inner()
}

/// The bytes of the disk in memory, as the last writes left them.
pub(crate) fn bytes(device: &Device) -> &[u8] {
    device.inner.inner().inner().bytes()
}

/// The same disk, which fails so from now on.
pub(crate) fn armed(device: Device, failing: Failing) -> Device {
    let disk = memory(device);
    undamaged(match failing {
        Failing::Once(call) => FaultOnce::new(
            FuseDisk::new(disk, Fuse::after(NEVER)),
            Once::after(call),
        ),
        Failing::FromThenOn(call) => FaultOnce::new(
            FuseDisk::new(disk, Fuse::after(call)),
            Once::after(NEVER),
        ),
    })
}

/// The same disk, which is so damaged.
pub(crate) fn damaged(device: Device, damage: Damage) -> Device {
    Damaged {
        inner: device.inner,
        damage: Some(damage),
    }
}

/// The disk as a stop with this loss leaves it, which serves every call again.
pub(crate) fn crashed(device: Device, loss: Loss) -> Device {
    let mut disk = memory(device);
    disk.crash(loss);
    serving(disk)
}

/// How often the device failed since it was armed.
pub(crate) fn failures(device: &Device) -> u64 {
    device.failures()
}

/// A disk of its own with the bytes of this one, all of them stable, which serves every call.
pub(crate) fn copied(alloc: Global, device: &Device) -> Result<Device, Refusal> {
    holding(alloc, bytes(device))
}

/// A disk with the first so many bytes of this one, all of them stable.
pub(crate) fn cut(alloc: Global, device: &Device, size: usize) -> Result<Device, Refusal> {
    let bytes = bytes(device);
    holding(alloc, &bytes[..size.min(bytes.len())])
}

/// Writes these bytes at this place, and says whether they fit and the device served.
pub(crate) fn written(device: &mut Device, at: usize, part: &[u8]) -> bool {
    let size = device.size();
    if at > size || part.len() > size - at {
        return false;
    }
    device.write_at(at, part).is_ok()
}

/// Has these bytes stand at this place, and all bytes be stable, on a disk that serves every call. Says whether they fit; else the disk
/// stays as it is.
pub(crate) fn put(
    alloc: Global,
    device: &mut Device,
    at: usize,
    part: &[u8],
) -> Result<bool, Refusal> {
    let mut all = bytes(device).to_vec(alloc)?;
    if at > all.len() || part.len() > all.len() - at {
        return Ok(false);
    }
    all[at..at + part.len()].copy_from_slice(part);
    *device = holding(alloc, &all)?;
    Ok(true)
}
