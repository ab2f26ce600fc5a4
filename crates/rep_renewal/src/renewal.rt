//! A disk's file that is trusted: where a sync of it failed, a new one takes its place.
//!
//! Behind a sync that failed nobody knows which of the bytes that reads give the device has. So all of them are written anew, into another file, and
//! brought to the device, before the first of them is used. The file of which the sync failed bears a mark (`rep_disk::is_marked`), and so does the new one until
//! nothing is left to be done: a renewal that was cut anywhere is begun again.

use crate::beside::{Beside, OWN_RIGHTS, remove_own_names};
use crate::name::{Identity, Unnamed, answered, is_stream, meant_by, refused};
use rep_disk::{Access, MARK, has_mark, is_marked, set_mark};
use rep_reasons::Cause;
use std::fs::{File, Files, Metadata};
use std::io;
use std::os::unix::fs::{FileExt, MetadataExt};
use std::path::PathBuf;

/// So many bytes are copied at once.
const PIECE: u64 = 16_384;

/// A disk's file under its lock, of which no sync is known to have failed; and the one whose place it took, if it was renewed. That one is kept open, and so
/// locked, as long as this one is used: who waits for its lock finds then that it has no name any more.
#[derive(Drop)]
pub struct Trusted {
    pub file: File,
    pub before: Option<File>,
}

/// Why this file cannot be renewed, where it cannot: it is none that a new one could stand for under one name.
fn why_not(known: &Metadata) -> Option<Cause> {
    if !known.is_file() {
        return Some(Cause::Words(
            "a sync of it failed, and it is no regular file, which could be written anew",
        ));
    }
    if known.nlink() > 1 {
        return Some(Cause::Words(
            "a sync of it failed, and it has other names (hard links), so that it cannot be written anew",
        ));
    }
    None
}

/// Copies so many bytes from the beginning of a file to that of another one, by reads and writes: a copy that the system makes may share the bytes on the
/// device.
fn copy(from: &File, to: &File, size: u64) -> io::Result<()> {
    let mut bytes = [0; PIECE as usize];
    for at in (0..size).step_by(PIECE as usize) {
        let count = PIECE.min(size.saturating_sub(at)) as usize;
        from.read_exact_at(&mut bytes[..count], at)?;
        to.write_all_at(&bytes[..count], at)?;
    }
    Ok(())
}

/// Has the new file hold what this one does, of which this is known, under its own lock, with its mark and its rights, on the device.
fn fill(new: &Beside, old: &File, known: &Metadata) -> Result<(), Unnamed> {
    let file = new.file();
    if file.try_lock().is_err() {
        return Err(refused(Cause::IN_USE));
    }
    answered(copy(old, file, known.len()))?;
    answered(file.sync_all())?;
    new.give_rights(known)?;
    if !answered(is_marked(file))? {
        return Err(refused(Cause::Words("the new file cannot be marked")));
    }
    Ok(())
}

/// Takes the mark off a file of which all is on the device. Where that does not get to the device itself, the mark is put there again.
fn unmark(file: &File) -> Result<(), Unnamed> {
    if !answered(set_mark(file, false))? {
        return Err(refused(Cause::Words("the mark of the new file cannot be taken off")));
    }
    match file.sync_all() {
        Ok(()) => Ok(()),
        Err(error) => {
            let _ = set_mark(file, true);
            Err(refused(Cause::System(error)))
        }
    }
}

/// The same, and then the new file takes the name; its mark goes last.
fn put_in_place<R: Files<File = File>>(
    rt: &R,
    new: &Beside,
    old: &File,
    known: &Metadata,
) -> Result<(), Unnamed> {
    fill(new, old, known)?;
    new.take_name(rt)?;
    new.sync_folder()?;
    unmark(new.file())
}

/// The name that this path leads to, which is the file's own. A `format` that was stopped in the end may have left it the name that it was made under:
/// that goes.
///
/// Refuses with `OutOfMemory`, and with `StreamFault` the name of a stream, one that is another file's now, and where the system does not tell.
fn own_name<R: Files<File = File> + AllocGlobal>(
    rt: &R,
    path: &str,
    file: &File,
) -> Result<PathBuf, Unnamed> {
    let name = meant_by(rt, path)?;
    let known = answered(file.metadata())?;
    if is_stream(name.as_str()) || !Identity::is_named(rt, name.as_str(), &known)? {
        return Err(refused(Cause::Words(
            "a sync of it failed, and it has no name of its own here, under which it could be written anew",
        )));
    }
    if known.nlink() > 1 {
        remove_own_names(rt, name.as_path(), Identity::of(&known))?;
    }
    Ok(name)
}

/// A new file in the place of this one, which has this name, is locked and is marked.
///
/// Refuses with `OutOfMemory`; and with `StreamFault` a file that is no regular one or has other names, a name that is that of a stream, and where the
/// device or the system fails. A file that has the name is marked then.
fn renewed<R: Files<File = File> + AllocGlobal>(
    rt: &R,
    path: &str,
    old: File,
) -> Result<Trusted, Unnamed> {
    let name = own_name(rt, path, &old)?;
    let known = answered(old.metadata())?;
    if let Some(cause) = why_not(&known) {
        return Err(refused(cause));
    }
    let new = Beside::new(rt, name, OWN_RIGHTS | MARK)?;
    match put_in_place(rt, &new, &old, &known) {
        Ok(()) => Ok(Trusted {
            file: new.into_file(),
            before: Some(old),
        }),
        Err(fault) => {
            new.remove(rt);
            Err(fault)
        }
    }
}

/// What may be trusted of this file, which has this path and is locked for this use: the file itself, where it is not marked. Where it is, a new one that has
/// all of its bytes takes its place, if the program may change it: each byte was read once, was written anew, and is on the device, as far as the device tells.
///
/// Refuses with `OutOfMemory`; and with `DiskFault` where the system does not tell whether the file is marked; a marked file that is to be read alone, that
/// is no regular file, that has other names, or that was reached by the name of a stream; and where the device or the system fails. The file that has the
/// name is marked then, as it was.
pub fn trusted_file<R: Files<File = File> + AllocGlobal>(
    rt: &R,
    path: &str,
    access: Access,
    file: File,
) -> Result<Trusted, Unnamed> {
    match (file.metadata(), access) {
        (Ok(known), _) if !has_mark(&known) => Ok(Trusted { file, before: None }),
        (Ok(_), Access::Change) => match renewed(rt, path, file) {
            Ok(trusted) => Ok(trusted),
            Err(fault) => Err(fault.anew()),
        },
        (Ok(_), Access::Read) => {
            let cause = Cause::Words(
                "a sync of it failed: it is to be written anew, by a program that may change it",
            );
            Err(refused(cause).of_disk())
        }
        (Err(error), _) => Err(refused(Cause::System(error)).of_disk()),
    }
}
