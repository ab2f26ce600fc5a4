//! Disks that are files.

use crate::waiting::waited_for;
use rep_damage::{damage_in, why_no_disk};
use rep_disk::{Access, FileDisk, is_marked};
use rep_reasons::{Cause, Fault, NotedFile};
use rep_renewal::{Unnamed, named, trusted_file};
use rep_service::Replica;
use rep_types::Refusal;
use std::fs::{File, Files, OpenFile};
use std::io;
use std::os::unix::fs::MetadataExt;
use std::rt::Clock;

/// A disk that is a file, and that keeps why it failed.
pub type DiskOnFile = FileDisk<NotedFile>;

/// A replica on a disk that is a file.
pub type OnFile = Replica<DiskOnFile>;

/// The fault of a file that cannot be opened as a disk, for this cause.
pub(crate) fn unopened<'a>(error: io::Error) -> Fault<'a> {
    Fault::new(Refusal::DiskFault, Cause::System(error))
}

/// A sync of a file failed, and nothing tells the next program so.
const UNMARKED: Cause = Cause::Words(
    "a sync of it failed, and it cannot be marked: let no program open it before the machine was started anew",
);

/// Whether a sync of the file failed, and it is not marked: nothing keeps the next program from trusting what it gives.
fn is_unmarked(file: &NotedFile) -> bool {
    file.has_lost() && !matches!(is_marked(file), Ok(true))
}

/// Why the disk on this file failed, where that is known: the file has no name any more, it should be marked and is not, or what the system said of its first
/// call that failed.
fn cause_of_failure(file: &NotedFile) -> Option<Cause> {
    let error = file.error();
    if let Ok(known) = file.metadata() {
        if known.nlink() == 0 {
            return Some(Cause::Words("it was removed, or another file has taken its name"));
        }
    }
    if is_unmarked(file) {
        return Some(UNMARKED);
    }
    Some(Cause::System(error?))
}

/// Says on standard error, of a disk that was used to the end, where nothing keeps the next program from trusting it though a sync of it failed.
pub(crate) fn tell_unmarked<R: Eprint>(rt: &R, path: &str, disk: DiskOnFile) {
    if is_unmarked(&disk.into_file()) {
        let fault = Fault::new(Refusal::DiskFault, UNMARKED).of(path);
        if let Some(reason) = fault.reason() {
            let _ = eprintln!(rt; "replicad: {reason}");
        }
    }
}

/// Why the disk on this file was refused so, where that is known: why it failed, or where it is damaged.
fn cause_on(file: &NotedFile, refusal: Refusal) -> Option<Cause> {
    match refusal {
        Refusal::DiskFault | Refusal::Stopped => cause_of_failure(file),
        Refusal::NotFormatted => Some(why_no_disk(file)),
        Refusal::Corrupt { part } => damage_in(file, part),
        _ => None,
    }
}

/// The fault of this disk, which was refused so.
pub fn disk_fault<'a>(disk: DiskOnFile, refusal: Refusal) -> Fault<'a> {
    match cause_on(&disk.into_file(), refusal) {
        Some(cause) => Fault::new(refusal, cause),
        None => Fault::from(refusal),
    }
}

/// The disk on this file, which keeps why it fails. The file whose place it took, if it took one's, stays open as long.
pub(crate) fn noted(file: File, before: Option<File>) -> Result<DiskOnFile, Unnamed> {
    match FileDisk::new(NotedFile::new(file, before)) {
        Ok(disk) => Ok(disk),
        Err(error) => Err(unopened(error)),
    }
}

/// The disk on the file at this path, which is locked for this use. Where a sync of it failed before, all of it is written anew first.
///
/// Refuses as `trusted_file` does.
fn disk_on<R: Files<File = File> + AllocGlobal>(
    rt: &R,
    path: &str,
    access: Access,
    file: File,
) -> Result<DiskOnFile, Unnamed> {
    let held = trusted_file(rt, path, access, file)?;
    noted(held.file, held.before)
}

/// The disk at this path, which is used so.
///
/// Refuses with `DiskFault` one that cannot be opened as a file, or that other programs use for two seconds; and else as `trusted_file` does.
pub(crate) fn disk_at<'a, R: Files<File = File> + AllocGlobal + Clock>(
    rt: &R,
    path: &'a str,
    access: Access,
) -> Result<DiskOnFile, Fault<'a>> {
    match waited_for(rt, path, access) {
        Ok(file) => named(disk_on(rt, path, access, file), path),
        Err(cause) => Err(Fault::new(Refusal::DiskFault, cause).of(path)),
    }
}

/// The replica on the disk at this path, which is used so.
fn opened_for<'a, R: Files<File = File> + AllocGlobal + Clock>(
    rt: &R,
    path: &'a str,
    access: Access,
) -> Result<OnFile, Fault<'a>> {
    match Replica::open(rt.alloc(), disk_at(rt, path, access)?) {
        Ok(replica) => Ok(replica),
        Err((disk, refusal)) => Err(disk_fault(disk, refusal).of(path)),
    }
}

/// The replica on the disk at this path.
///
/// Refuses with `DiskFault` a file that cannot be opened, that other programs use for two seconds, or that is to be written anew and cannot be; and else as
/// `Replica::open` does.
pub fn opened_file<'a, R: Files<File = File> + AllocGlobal + Clock>(
    rt: &R,
    path: &'a str,
) -> Result<OnFile, Fault<'a>> {
    opened_for(rt, path, Access::Change)
}

/// The replica on the disk at this path, which is opened to read alone.
///
/// Refuses as `opened_file` does.
pub(crate) fn opened_to_read<'a, R: Files<File = File> + AllocGlobal + Clock>(
    rt: &R,
    path: &'a str,
) -> Result<OnFile, Fault<'a>> {
    opened_for(rt, path, Access::Read)
}
