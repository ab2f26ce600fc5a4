//! A device in memory. A write or a sync without room for its record is a failure of the device.

use rep_disk::{Disk, Loss, MemDisk};
use std::alloc::{AllocError, Global};

fn found(alloc: Global) -> Result<MemDisk, AllocError> {
    match MemDisk::from_bytes(alloc, &[1, 2, 3, 4]) {
        Err(_) => MemDisk::from_bytes(alloc, &[1, 2, 3, 4]),
        made => made,
    }
}

/// A write, made again where it failed; whether it succeeded then.
fn write(disk: &mut MemDisk, at: usize, bytes: &[u8]) -> bool {
    if at > disk.size() || bytes.len() > disk.size() - at {
        return false;
    }
    disk.write_at(at, bytes).is_ok() || disk.write_at(at, bytes).is_ok()
}

/// The first bytes of the device, 0 for each that is not there.
fn first_bytes(disk: &MemDisk) -> [u8; 4] {
    let mut first = [0; 4];
    for (byte, found) in first.iter_mut().zip(disk.bytes()) {
        *byte = *found;
    }
    first
}

/// A write, a sync and another write.
fn use_device(disk: &mut MemDisk) -> bool {
    write(disk, 0, &[7, 8])
        && (disk.sync().is_ok() || disk.sync().is_ok())
        && write(disk, 1, &[9, 9])
}

/// What is read after a write, a sync and another write, and what a stop leaves that drops what is
/// pending.
fn device(alloc: Global) -> Result<([u8; 4], [u8; 4]), AllocError> {
    let mut disk = found(alloc)?;
    if !use_device(&mut disk) {
        return Err(AllocError);
    }
    let read = first_bytes(&disk);
    disk.crash(Loss::Drop);
    Ok((read, first_bytes(&disk)))
}

/// Prints what is read of the device, and what a stop leaves.
pub(crate) fn show<R: Print + AllocGlobal>(rt: &R) -> anyhow::Result<()> {
    let (read, left) = device(rt.alloc())?;
    rt.println(format_args!("device: {read:?} read, {left:?} after a stop"))?;
    Ok(())
}
