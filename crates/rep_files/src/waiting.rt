//! Waiting for a disk that other programs use.

use rep_disk::{Access, locked_file};
use rep_reasons::Cause;
use std::fs::{File, Files, TryLockError};
use std::io::ErrorKind;
use std::rt::Clock;
use std::thread;
use std::time::Duration;

/// How often a lock that is taken is asked for again: for two seconds, with the pauses between.
const TRIES: u32 = 400;

/// The pause before it is asked for again, in milliseconds.
const PAUSE: u64 = 5;

/// Waits for a moment.
fn pause<R: Clock>(rt: &R) {
    thread::sleep(rt, Duration::from_millis(PAUSE));
}

/// Who has the lock of the disk at this path, which is asked for to change it: where it can be shared, those that read.
fn holder<R: Files<File = File>>(rt: &R, path: &str, access: Access) -> Cause {
    match (access, locked_file(rt, path, Access::Read)) {
        (Access::Change, Ok(_)) => Cause::IS_READ,
        _ => Cause::IN_USE,
    }
}

/// The file of the disk at this path, under its lock. Where other programs have the lock, it is asked for again, for two seconds.
///
/// Where it cannot be had, the cause.
pub(crate) fn waited_for<R: Files<File = File> + Clock>(
    rt: &R,
    path: &str,
    access: Access,
) -> Result<File, Cause> {
    for _ in 0..TRIES {
        match locked_file(rt, path, access) {
            Ok(file) => return Ok(file),
            Err(error) if error.kind() == ErrorKind::WouldBlock => pause(rt),
            Err(error) => return Err(Cause::System(error)),
        }
    }
    Err(holder(rt, path, access))
}

/// Takes the lock of a file that is to be a disk. Where other programs have it, it is asked for again, for two seconds.
///
/// Where it cannot be had, the cause.
pub(crate) fn lock<R: Clock>(rt: &R, file: &File) -> Result<(), Cause> {
    for _ in 0..TRIES {
        match file.try_lock() {
            Ok(()) => return Ok(()),
            Err(TryLockError::WouldBlock) => pause(rt),
            Err(TryLockError::Error(error)) => return Err(Cause::System(error)),
        }
    }
    Err(Cause::IN_USE)
}
