//! A disk that is formatted, on a new file.

use crate::disk_file::{disk_fault, noted, unopened};
use crate::streams::standard_output;
use crate::waiting::lock;
use arrayvec::ArrayVec;
use rep_disk::FileDisk;
use rep_layout::need;
use rep_reasons::{Cause, Fault, OUTPUT};
use rep_renewal::{
    Beside, Identity, NEW_RIGHTS, Unnamed, answered, found_itself, named, refused, remove_file,
};
use rep_service::format_text;
use rep_streams::{Sink, WriterSink};
use rep_types::{Params, Refusal};
use std::fs::{File, Files};
use std::io::{self, ErrorKind};
use std::path::Path;
use std::rt::Clock;
use uuid::Uuid;

/// The longest line of a disk that was formatted: its word, a GTID and a line feed have at most so many bytes.
const MAX_FORMATTED: usize = 80;

/// The line of a disk that was formatted.
type FormattedLine = ArrayVec<u8, MAX_FORMATTED>;

/// Makes this new file, which has this path, a disk, and gives the line that is to be said of it.
///
/// Refuses with `DiskFault` where the file fails, or other programs use it for two seconds; and else as `format_text` does.
fn format_on<R: Files<File = File> + Clock>(
    rt: &R,
    file: File,
    path: &str,
    params: &Params,
    uuid: &Option<Uuid>,
) -> Result<FormattedLine, Unnamed> {
    if let Err(cause) = lock(rt, &file) {
        return Err(Fault::new(Refusal::DiskFault, cause));
    }
    let disk = match FileDisk::zeroed(rt, file, path, need(params) as usize) {
        Ok(disk) => noted(disk.into_file(), None)?,
        Err(error) => return Err(unopened(error)),
    };
    let mut line = FormattedLine::new();
    let (disk, outcome) = format_text(disk, params, *uuid, &mut WriterSink::new(&mut line));
    match outcome {
        Ok(()) => Ok(line),
        Err(refusal) => Err(disk_fault(disk, refusal)),
    }
}

/// Makes the new file a disk, under a name of its own, and has it take its name then. Nothing comes of it where the file system has no hard links: the file is
/// removed then.
///
/// Refuses as `format_on` does; and with `StreamFault` where something has the name meanwhile, and where the device or the system fails.
fn put_in_place<R: Files<File = File> + Clock>(
    rt: &R,
    beside: &Beside,
    params: &Params,
    uuid: &Option<Uuid>,
) -> Result<Option<FormattedLine>, Unnamed> {
    let file = answered(beside.file().try_clone())?;
    let line = format_on(rt, file, beside.own_name(), params, uuid)?;
    if !beside.take_new_name(rt)? {
        beside.remove(rt);
        return Ok(None);
    }
    match beside.sync_folder() {
        Ok(()) => Ok(Some(line)),
        Err(fault) => {
            beside.give_up_name(rt);
            Err(fault)
        }
    }
}

/// Makes a new file beside this path a disk, which then takes the path, whole. Nothing comes of it where the file system has no hard links.
///
/// Refuses with `OutOfMemory`; and with `DiskFault` where something has the name, and where the device or the system fails. What was made is removed then.
fn formatted_beside<R: Files<File = File> + AllocGlobal + Clock>(
    rt: &R,
    path: &str,
    params: &Params,
    uuid: &Option<Uuid>,
) -> Result<Option<FormattedLine>, Unnamed> {
    if found_itself(rt, path)?.is_some() {
        let error = io::Error::from(ErrorKind::AlreadyExists);
        return Err(refused(Cause::System(error)));
    }
    let name = Path::new(path).to_path_buf(rt.alloc())?;
    let beside = Beside::new(rt, name, NEW_RIGHTS)?;
    match put_in_place(rt, &beside, params, uuid) {
        Ok(formatted) => Ok(formatted),
        Err(fault) => {
            beside.remove(rt);
            Err(fault)
        }
    }
}

/// Makes a new file at this path a disk. A stop meanwhile leaves a file that is none.
///
/// Refuses with `StreamFault` where a file cannot be made, as where something has this name, and else as `format_on` does. The file that was made is removed
/// then, and no other.
fn formatted_at<R: Files<File = File> + Clock>(
    rt: &R,
    path: &str,
    params: &Params,
    uuid: &Option<Uuid>,
) -> Result<FormattedLine, Unnamed> {
    let file = answered(File::create_new(rt, path))?;
    let identity = Identity::of(&answered(file.metadata())?);
    match format_on(rt, file, path, params, uuid) {
        Ok(line) => Ok(line),
        Err(fault) => {
            remove_file(rt, path, identity);
            Err(fault)
        }
    }
}

/// Makes a new file at this path a disk, whole or not at all, where the file system has hard links.
///
/// Refuses with `OutOfMemory`, and with `DiskFault`.
fn formatted<R: Files<File = File> + AllocGlobal + Clock>(
    rt: &R,
    path: &str,
    params: &Params,
    uuid: &Option<Uuid>,
) -> Result<FormattedLine, Unnamed> {
    match formatted_beside(rt, path, params, uuid) {
        Ok(Some(line)) => Ok(line),
        Ok(None) => match formatted_at(rt, path, params, uuid) {
            Ok(line) => Ok(line),
            Err(fault) => Err(fault.of_disk()),
        },
        Err(fault) => Err(fault.of_disk()),
    }
}

/// Makes a new file at this path, a disk with these parameters, and prints the line of that once it is on the device, as its name is. A stop at any moment leaves
/// the whole disk, or nothing of this name, where the file system has hard links; it may leave a file beside.
///
/// Refuses with `OutOfMemory`; with `DiskFault` where a file cannot be made, as where something has this name, and where it fails: what was made is removed then;
/// and with `StreamFault` where the line cannot be written: the disk stays.
pub fn format_file<'a, R: Files<File = File> + Print + AllocGlobal + Clock>(
    rt: &R,
    path: &'a str,
    params: &Params,
    uuid: Option<Uuid>,
) -> Result<(), Fault<'a>> {
    let line = named(formatted(rt, path, params, &uuid), path)?;
    let mut output = standard_output(rt);
    match WriterSink::new(&mut output).put(line.as_slice()) {
        Ok(()) => Ok(()),
        Err(_) => Err(output.fault().of(OUTPUT)),
    }
}
