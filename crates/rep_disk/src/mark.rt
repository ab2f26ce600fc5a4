//! The mark of a file of which a sync failed.
//!
//! Linux takes bytes that it failed to bring to the device as written: reads go on to give them, no later sync brings them there, and nobody who
//! opens the file is told. So nobody may trust what such a file gives until all of it was written anew. The mark says so for as long as the
//! kernel remembers the file, whoever opens it; behind a power failure reads give what the device has, and the mark says nothing any more.

use std::fs::{Metadata, OpenFile};
use std::io;
use std::os::unix::fs::{MetadataExt, PermissionsExt};

/// The mark in the rights of a file: the sticky bit, which the system heeds of folders alone.
pub const MARK: u32 = 0o1000;

/// Whether a file of which this is known is marked.
pub fn has_mark(known: &Metadata) -> bool {
    known.mode() & MARK != 0
}

/// Whether the file is marked: a sync of it failed, and not all of it was written anew since. What it gives may never reach the device.
///
/// Refuses where the system does not tell.
pub fn is_marked<F: OpenFile>(file: &F) -> io::Result<bool> {
    Ok(has_mark(&file.metadata()?))
}

/// Gives the file the mark, or takes it off, and answers whether it then is as it was to be. No name is needed for that, but the right to change
/// the file's rights.
///
/// Refuses where the system refuses that, or does not tell.
pub fn set_mark<F: OpenFile>(file: &F, marked: bool) -> io::Result<bool> {
    let mut rights = file.metadata()?.permissions();
    let others = rights.mode() & !MARK;
    rights.set_mode(if marked { others | MARK } else { others });
    file.set_permissions(rights)?;
    Ok(is_marked(file)? == marked)
}
