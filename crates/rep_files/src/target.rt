//! Where the bytes go that a command writes to a file. No disk is touched, and a file has its name whole or not at all.

use crate::new_file::NewFile;
use crate::streams::Output;
use rep_layout::{GATE, SUPER_BODY};
use rep_reasons::{Cause, Patient};
use rep_renewal::{
    Identity, Unnamed, answered, found_at, is_standard_output, is_stream, meant_by, refused,
};
use std::fs::{File, Files, Metadata, OpenOptions};
use std::io::{self, ErrorKind, Write};
use std::os::unix::fs::FileExt;
use std::rt::Clock;

/// The first byte of a disk's second superblock.
const SECOND: u64 = (SUPER_BODY + GATE) as u64;

/// What a superblock begins with, before the digit of its format.
const MARK: &[u8] = b"REPSUPR";

/// Whether the bytes from there on begin as those of a superblock of any format. What can't be read may be one.
fn may_be_superblock(file: &File, at: u64) -> bool {
    let mut bytes = [0; 8];
    match file.read_exact_at(&mut bytes, at) {
        Ok(()) => bytes.starts_with(MARK) && bytes[7].is_ascii_digit(),
        Err(error) => error.kind() != ErrorKind::UnexpectedEof,
    }
}

/// Why the file may be a disk, where it may: it has a superblock, or another program holds its lock. A checkpoint that was stopped may have left any
/// bytes in one superblock, and never in both. The lock is asked for as by those that only read, and only of what has no superblock.
fn may_be_disk(file: &File) -> Option<Cause> {
    if may_be_superblock(file, 0) || may_be_superblock(file, SECOND) {
        return Some(Cause::Words("it is a disk, or may be one"));
    }
    match file.try_lock_shared() {
        Ok(()) => None,
        Err(_) => Some(Cause::IN_USE),
    }
}

/// Whether the open file is the one of which this is known, as its name was looked at.
///
/// Refuses with `StreamFault` another one, and where the system does not tell.
pub(crate) fn is_same(file: &File, known: &Metadata) -> Result<(), Unnamed> {
    let found = answered(file.metadata())?;
    if found.is_file() && Identity::of(&found) == Identity::of(known) {
        return Ok(());
    }
    Err(refused(Cause::Words("another file has taken its name")))
}

/// What is known of the file that has this name, where there is one, of a command that reads this disk. A regular file is opened, to be looked at.
///
/// Refuses with `StreamFault` the disk itself, a file that may be a disk, and what can't be read and written.
pub(crate) fn looked_at<R: Files<File = File>>(
    rt: &R,
    name: &str,
    disk: Identity,
) -> Result<Option<Metadata>, Unnamed> {
    let Some(known) = found_at(rt, name)? else {
        return Ok(None);
    };
    if Identity::of(&known) == disk {
        return Err(refused(Cause::Words("it is the disk that is read")));
    }
    if known.is_file() && !is_stream(name) {
        let file = answered(OpenOptions::new().read(true).write(true).open(rt, name))?;
        is_same(&file, &known)?;
        if let Some(cause) = may_be_disk(&file) {
            return Err(refused(cause));
        }
    }
    Ok(Some(known))
}

/// Where bytes go.
#[derive(Drop)]
pub(crate) enum Target<'r, R> {
    /// To standard output, behind what was written there.
    Printed(Output<'r, R>),
    /// To what is no regular file, or to a stream of a program, behind what it has.
    Stream(Patient<'r, R, File>),
    /// To a new file, which takes its name once it is whole.
    Whole(NewFile),
}

/// The stream that has this name, of which this is known.
///
/// Refuses with `StreamFault` one that cannot be written.
fn stream_at<R: Files<File = File>>(
    rt: &R,
    name: &str,
    known: Option<&Metadata>,
) -> Result<File, Unnamed> {
    let is_behind = match known {
        Some(known) => known.is_file(),
        None => false,
    };
    let mut options = OpenOptions::new();
    options.write(true).append(is_behind);
    answered(options.open(rt, name))
}

/// Whether a file takes this name whole: a regular one has it, of which this is known, or nothing has.
fn is_taken(name: &str, known: Option<&Metadata>) -> bool {
    match known {
        _ if is_stream(name) => false,
        Some(known) => known.is_file(),
        None => true,
    }
}

/// Which file the disk at this path is.
///
/// Refuses with `StreamFault` where nothing is there any more, and where the system does not tell.
pub(crate) fn disk_of<R: Files<File = File>>(rt: &R, path: &str) -> Result<Identity, Unnamed> {
    match found_at(rt, path)? {
        Some(known) => Ok(Identity::of(&known)),
        None => Err(refused(Cause::Words("the disk is gone"))),
    }
}

impl<'r, R: Files<File = File> + Print + AllocGlobal> Target<'r, R> {
    /// The target at this path, of a command that reads the disk at the other one.
    ///
    /// Refuses with `OutOfMemory`; and with `StreamFault` the disk itself, a file that may be a disk or that can't be read and written, and a
    /// name beside which no file can be made. What has the name stays as it is then.
    pub(crate) fn open(rt: &'r R, path: &str, disk: &str) -> Result<Target<'r, R>, Unnamed> {
        let disk = disk_of(rt, disk)?;
        let name = meant_by(rt, path)?;
        let known = looked_at(rt, name.as_str(), disk)?;
        if is_standard_output(name.as_str()) {
            return Ok(Target::Printed(Output::new(rt)));
        }
        if is_taken(name.as_str(), known.as_ref()) {
            return Ok(Target::Whole(NewFile::beside(rt, name, known, disk)?));
        }
        let file = stream_at(rt, name.as_str(), known.as_ref())?;
        Ok(Target::Stream(Patient::new(rt, file)))
    }

    /// Ends the target, into which all was written, or not: a new file takes its name then, or else is removed.
    ///
    /// Refuses as the writing did; and with `StreamFault` where the device fails, and what may be a disk now: what has the name stays as it is
    /// then, but where the folder's sync fails, the last that is done.
    pub(crate) fn end<T: Drop>(self, rt: &R, written: Result<T, Unnamed>) -> Result<T, Unnamed> {
        match self {
            Target::Whole(file) => file.end(rt, written),
            _ => written,
        }
    }
}

impl<R: Print + Clock> Write for Target<'_, R> {
    fn write(&mut self, bytes: &[u8]) -> io::Result<usize> {
        match self {
            Target::Printed(output) => output.write(bytes),
            Target::Stream(file) => file.write(bytes),
            Target::Whole(file) => file.write(bytes),
        }
    }

    fn flush(&mut self) -> io::Result<()> {
        Ok(())
    }
}
