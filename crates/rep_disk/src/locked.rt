//! The file that has a name, under its lock.

use std::fs::{self, File, Files, OpenOptions};
use std::io::{self, ErrorKind};
use std::os::unix::fs::MetadataExt;

/// How often a name is opened again which led to another file once the lock was had.
const TRIES: u32 = 100;

/// What a program does with a disk's file.
#[derive(Clone, Copy, Debug, PartialEq, Eq)]
pub enum Access {
    /// It changes the file, and no other program may use it.
    Change,
    /// It reads the file, beside others that do, and needs no right to change it.
    Read,
}

/// Whether the name leads to this file. Who waited for a lock may hold that of a file which another one took the name of.
fn leads_to<R: Files<File = File>>(rt: &R, path: &str, file: &File) -> io::Result<bool> {
    let known = file.metadata()?;
    match fs::metadata(rt, path) {
        Ok(named) => Ok(
            (named.dev(), named.ino()) == (known.dev(), known.ino()) && known.nlink() > 0,
        ),
        Err(error) if error.kind() == ErrorKind::NotFound => Ok(false),
        Err(error) => Err(error),
    }
}

/// The file that this name leads to, opened, under its lock.
///
/// Refuses a folder, which could be opened to read; a file whose lock another program holds, with `WouldBlock`; and what the system refuses.
fn locked_once<R: Files<File = File>>(rt: &R, path: &str, access: Access) -> io::Result<File> {
    match access {
        Access::Change => {
            let file = OpenOptions::new().read(true).write(true).open(rt, path)?;
            file.try_lock()?;
            Ok(file)
        }
        Access::Read => {
            let file = File::open(rt, path)?;
            if file.metadata()?.is_dir() {
                return Err(io::Error::from(ErrorKind::IsADirectory));
            }
            file.try_lock_shared()?;
            Ok(file)
        }
    }
}

/// The file that this name leads to once its lock is had (`flock`): whoever puts another file in its place, as one that renews it does, holds that lock.
/// It may be marked.
///
/// Refuses what the system refuses; a folder; a file whose lock another program holds, with `WouldBlock`; and a name that led to another file each
/// of a hundred times, with `ResourceBusy`.
pub fn locked_file<R: Files<File = File>>(rt: &R, path: &str, access: Access) -> io::Result<File> {
    for _ in 0..TRIES {
        let file = locked_once(rt, path, access)?;
        if leads_to(rt, path, &file)? {
            return Ok(file);
        }
    }
    Err(io::Error::from(ErrorKind::ResourceBusy))
}
