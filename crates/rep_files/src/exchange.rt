//! The files between which a running node donates: regular ones alone.
//!
//! Their names come with the order's lines, while standard input is the order and standard output has the receipts. A transfer that was written into one
//! of these could spell a receipt of an item that there is not, and to read one would take lines of the order away. So a name is looked at before anything
//! is opened, and what was opened is looked at again.

use crate::have_in;
use crate::new_file::NewFile;
use crate::target::{disk_of, is_same, looked_at};
use rep_reasons::{Cause, Fault, Noted};
use rep_renewal::{Identity, Unnamed, answered, found_at, is_stream, meant_by, named, refused};
use rep_transfer::Have;
use std::fs::{self, File, Files, Metadata};
use std::io::{self, ErrorKind};

/// The names by which the system tells which files the program's standard streams are.
const STREAMS: [&str; 3] = ["/proc/self/fd/0", "/proc/self/fd/1", "/proc/self/fd/2"];

/// Whether the file is one of the program's standard streams, as far as the system tells.
fn is_standard_stream<R: Files<File = File>>(rt: &R, file: Identity) -> bool {
    for name in STREAMS {
        if let Ok(known) = fs::metadata(rt, name) {
            if Identity::of(&known) == file {
                return true;
            }
        }
    }
    false
}

/// Looks at the file of which this is known, before it is opened.
///
/// Refuses with `StreamFault` what is no regular file, and one that is a standard stream of the program.
fn is_exchanged<R: Files<File = File>>(rt: &R, known: &Metadata) -> Result<(), Unnamed> {
    if !known.is_file() {
        return Err(refused(Cause::Words("it is no regular file")));
    }
    if is_standard_stream(rt, Identity::of(known)) {
        return Err(refused(Cause::Words("it is a standard stream of this program")));
    }
    Ok(())
}

/// The regular file that has this name, opened.
///
/// Refuses with `StreamFault` where nothing has the name, all that is no such file, a standard stream of the program, and what cannot be opened.
fn file_exchanged<R: Files<File = File>>(rt: &R, name: &str) -> Result<File, Unnamed> {
    let Some(known) = found_at(rt, name)? else {
        return Err(refused(Cause::System(io::Error::from(ErrorKind::NotFound))));
    };
    is_exchanged(rt, &known)?;
    let file = answered(File::open(rt, name))?;
    is_same(&file, &known)?;
    Ok(file)
}

/// What a joiner has, in the regular file of this name.
///
/// Refuses as `file_exchanged` does, and else as `read_have` does.
pub(crate) fn have_exchanged<'a, R: Files<File = File>>(
    rt: &R,
    name: &'a str,
) -> Result<Have, Fault<'a>> {
    let file = named(file_exchanged(rt, name), name)?;
    have_in(Noted::new(file), name)
}

/// A new file that takes this name once it is whole: nothing has it, or a regular file.
///
/// Refuses with `OutOfMemory`; and with `StreamFault` all else, a standard stream of the program, the disk at the other path, a file that may be a disk or that
/// can't be read and written, and a name beside which no file can be made. What has the name stays as it is then.
pub(crate) fn new_file_exchanged<R: Files<File = File> + AllocGlobal>(
    rt: &R,
    name: &str,
    disk: &str,
) -> Result<NewFile, Unnamed> {
    let disk = disk_of(rt, disk)?;
    let name = meant_by(rt, name)?;
    if is_stream(name.as_str()) {
        return Err(refused(Cause::Words("it is a stream of a program")));
    }
    if let Some(known) = found_at(rt, name.as_str())? {
        is_exchanged(rt, &known)?;
    }
    let known = looked_at(rt, name.as_str(), disk)?;
    NewFile::beside(rt, name, known, disk)
}
