//! What the program does on files: disks, saved states, and what nodes say to one another.
#![tactic(auto)]

mod disk_file;
mod exchange;
mod follow;
mod format;
mod new_file;
mod streams;
mod sum;
mod target;
mod waiting;

pub use disk_file::{DiskOnFile, OnFile, disk_fault, opened_file};
use disk_file::{disk_at, opened_to_read, tell_unmarked};
pub use follow::follow_file;
pub use format::format_file;
use rep_disk::Access;
use rep_reasons::{Cause, Fault, Form, Noted, OUTPUT, Text};
use rep_renewal::{Unnamed, answered, named};
use rep_saved::SavedState;
use rep_service::{
    donate, donated_text, donation_refusal, join_text, read_saved, run_on_disk, state_text,
    write_have,
};
use rep_streams::{ReaderSource, WriterSink};
use rep_transfer::{Have, read_have};
use rep_types::Refusal;
use std::fs::{File, Files};
use std::io::Read;
use std::os::fd::AsRawFd;
use std::rt::Clock;
pub use streams::{standard_input, standard_output};
pub use sum::print_sum;
use target::Target;

/// The file at this path, which is there.
///
/// Refuses with `StreamFault` one that cannot be opened.
fn file_at<'a, R: Files<File = File>>(rt: &R, path: &'a str) -> Result<Noted<File>, Fault<'a>> {
    match File::open(rt, path) {
        Ok(file) => Ok(Noted::new(file)),
        Err(error) => Err(Fault::new(Refusal::StreamFault, Cause::System(error)).of(path)),
    }
}

/// A folder, by whose descriptor nothing is read or written.
const FOLDER: &str = "/";

/// The number of standard input's descriptor.
const INPUT_NUMBER: i32 = 0;

/// The descriptors of standard streams that are closed, taken, so that no file gets one: what is written to that stream would be written into
/// the file. A folder has them, which can be neither read nor written by its descriptor, so that each use of such a stream fails.
#[derive(Drop)]
pub struct Taken {
    first: File,
    _second: File,
    _third: File,
}

/// A descriptor that reads nothing and writes nothing.
///
/// Refuses with `StreamFault` where it cannot be had.
fn opened_folder<'a, R: Files<File = File>>(rt: &R) -> Result<File, Fault<'a>> {
    named(answered(File::open(rt, FOLDER)), FOLDER)
}

impl Taken {
    /// Takes them for as long as it lives. Refuses with `StreamFault` where that cannot be.
    pub fn closed_streams<'a, R: Files<File = File>>(rt: &R) -> Result<Taken, Fault<'a>> {
        Ok(Taken {
            first: opened_folder(rt)?,
            _second: opened_folder(rt)?,
            _third: opened_folder(rt)?,
        })
    }

    /// The fault of a program whose closed streams these are: of standard input, where that is closed, the cause is that it is.
    pub fn reasoned<'a>(&self, fault: Fault<'a>) -> Fault<'a> {
        if self.first.as_raw_fd() == INPUT_NUMBER {
            return fault.beside_closed_input();
        }
        fault
    }
}

/// The fault of a stream, the one that is read, of this name, or standard output, which has failed: what says why is that of the one that noted
/// an error.
fn stream_fault<'a, R: Drop, W: Drop>(
    read: &Noted<R>,
    name: &'a str,
    written: &Noted<W>,
) -> Fault<'a> {
    if read.error().is_some() {
        return read.fault().of(name);
    }
    written.fault().of(OUTPUT)
}

/// Runs a script from standard input on the disk at this path. A script goes on behind a device that failed; where a sync failed and the file cannot be marked,
/// that is said on standard error in the end.
///
/// Refuses with `DiskFault` a file that cannot be opened, that other programs use for two seconds, or that is to be written anew and cannot be, and else as
/// `run_on_disk` does.
pub fn run_file<'a, R: Files<File = File> + Input + Print + Eprint + AllocGlobal + Clock>(
    rt: &R,
    path: &'a str,
) -> Result<(), Fault<'a>> {
    let disk = disk_at(rt, path, Access::Change)?;
    let mut input = standard_input(rt);
    let mut output = standard_output(rt);
    let (disk, outcome) = run_on_disk(
        rt.alloc(),
        disk,
        &mut ReaderSource::new(&mut input),
        &mut WriterSink::new(&mut output),
    );
    match outcome {
        Ok(()) => {
            tell_unmarked(rt, path, disk);
            Ok(())
        }
        Err(refusal) => Err(text_fault(disk, path, &input, Form::ScriptOnFile, &output, refusal)),
    }
}

/// Whether it is a text, or a standard stream, that is refused so, and no disk.
fn is_of_text(refusal: Refusal) -> bool {
    match refusal {
        Refusal::StreamFault | Refusal::BadParams | Refusal::Malformed { .. } => true,
        Refusal::TooManyReads | Refusal::TooManyWrites | Refusal::ValueTooLong => true,
        _ => false,
    }
}

/// The fault of a command that reads a text of this form from standard input, on the disk at this path, and was refused so: it is the text's, that
/// of standard output, or the disk's.
pub fn text_fault<'a, R: Read + Drop, W: Drop>(
    disk: DiskOnFile,
    path: &'a str,
    input: &Text<R>,
    form: Form,
    output: &Noted<W>,
    refusal: Refusal,
) -> Fault<'a> {
    if is_of_text(refusal) {
        return input.fault_beside(form, output, refusal);
    }
    disk_fault(disk, refusal).of(path)
}

/// The saved state in the file at this path, where there is one.
///
/// Refuses with `StreamFault` a file that cannot be opened, and else as `read_saved` does.
fn saved_in_file<'a, R: Files<File = File> + AllocGlobal>(
    rt: &R,
    path: Option<&'a str>,
) -> Result<Option<SavedState>, Fault<'a>> {
    let Some(path) = path else {
        return Ok(None);
    };
    let mut file = file_at(rt, path)?;
    match read_saved(rt.alloc(), &mut ReaderSource::new(&mut file)) {
        Ok(saved) => Ok(Some(saved)),
        Err(refusal) => Err(saved_fault(&file, refusal).of(path)),
    }
}

/// The fault of a saved state's file, which was refused so.
fn saved_fault<'a>(file: &Noted<File>, refusal: Refusal) -> Fault<'a> {
    match refusal {
        Refusal::StreamFault if file.error().is_none() => Fault::new(refusal, Cause::TOO_LONG),
        Refusal::StreamFault => file.fault(),
        Refusal::Malformed { .. } => Fault::new(refusal, Cause::Words("it is no saved state")),
        _ => Fault::from(refusal),
    }
}

/// Writes what the node has to a target, which is then ended.
///
/// Refuses with `StreamFault` a target that cannot be written.
fn have_to_target<R: Files<File = File> + Print + AllocGlobal + Clock>(
    rt: &R,
    replica: &OnFile,
    target: Target<'_, R>,
) -> Result<(), Unnamed> {
    let mut target = Noted::new(target);
    let written = write_have(replica, &mut WriterSink::new(&mut target));
    let written = match written {
        Ok(()) => Ok(()),
        Err(_) => Err(target.fault()),
    };
    target.into_inside().end(rt, written)
}

/// Prints the state of the replica on the disk at this path. Then what the node has is written to the file at the other one, where there is
/// one: it has its name only once it is whole.
///
/// Refuses as `state_text` does; and then with `OutOfMemory`, and with `StreamFault` a file that may be a disk or that cannot be written.
fn tell_state<'a, R: Files<File = File> + Print + AllocGlobal + Clock>(
    rt: &R,
    path: &'a str,
    replica: &OnFile,
    saved: Option<&SavedState>,
    have: Option<&'a str>,
) -> Result<(), Fault<'a>> {
    let mut output = standard_output(rt);
    match state_text(replica, saved, &mut WriterSink::new(&mut output)) {
        Ok(()) => {}
        Err(Refusal::StreamFault) => return Err(output.fault().of(OUTPUT)),
        Err(refusal) => return Err(Fault::from(refusal)),
    }
    let Some(have) = have else {
        return Ok(());
    };
    let target = named(Target::open(rt, have, path), have)?;
    named(have_to_target(rt, replica, target), have)
}

/// Prints the state of the disk at this path, and writes what the node has to the file at the last one, where there is one: it has its name
/// only once it is whole. The saved state in the file at the other path, where there is one, is read before the disk is looked at, which is
/// opened to read alone.
///
/// Refuses with `StreamFault` a saved state's file that cannot be opened, and else as `read_saved` does; then the disk with `DiskFault`
/// where it cannot be opened or another program changes it for two seconds, and else as `Replica::open` does; then as `state_text` does; then with
/// `OutOfMemory`, and with `StreamFault` a file that may be a disk or that cannot be written, which stays as it is.
pub fn print_state<'a, R: Files<File = File> + Print + AllocGlobal + Clock>(
    rt: &R,
    path: &'a str,
    saved: Option<&'a str>,
    have: Option<&'a str>,
) -> Result<(), Fault<'a>> {
    let saved = saved_in_file(rt, saved)?;
    match opened_to_read(rt, path) {
        Ok(replica) => tell_state(rt, path, &replica, saved.as_ref(), have),
        Err(fault) => Err(fault),
    }
}

/// What a joiner has, in the file at this path.
///
/// Refuses with `StreamFault` a file that cannot be opened, and else as `read_have` does.
fn have_in_file<'a, R: Files<File = File>>(rt: &R, path: &'a str) -> Result<Have, Fault<'a>> {
    have_in(file_at(rt, path)?, path)
}

/// What a joiner has, in this file, which has this path.
///
/// Refuses as `read_have` does.
pub(crate) fn have_in<'a>(mut file: Noted<File>, path: &'a str) -> Result<Have, Fault<'a>> {
    match read_have(&mut ReaderSource::new(&mut file)) {
        Ok(have) => Ok(have),
        Err(Refusal::StreamFault) => Err(file.fault().of(path)),
        Err(refusal) => {
            let cause = Cause::Words("it does not say what a joiner has");
            Err(Fault::new(refusal, cause).of(path))
        }
    }
}

/// Writes for the joiner what it lacks of the order of the replica to a target, which is then ended, and answers the position that it then has.
///
/// Refuses as `donate` does, and with `StreamFault` a target that cannot be written.
fn donate_to_target<R: Files<File = File> + Print + AllocGlobal + Clock>(
    rt: &R,
    replica: &mut OnFile,
    have: &Have,
    target: Target<'_, R>,
) -> Result<u64, Unnamed> {
    let mut target = Noted::new(target);
    let written = donate(replica, have, &mut WriterSink::new(&mut target));
    let written = match written {
        Ok(last) => Ok(last),
        Err(Refusal::StreamFault) => Err(target.fault()),
        Err(refusal) => Err(Fault::from(refusal)),
    };
    target.into_inside().end(rt, written)
}

/// Writes for the joiner what it lacks of the order of the replica on the disk at this path into the file at the last one, once nothing else
/// refuses it, and answers the position that it then has. The file has its name only once it is whole.
///
/// Refuses as `donate` does, and with `OutOfMemory` or `StreamFault` a file that may be a disk or that cannot be written.
fn donate_from<'a, R: Files<File = File> + Print + AllocGlobal + Clock>(
    rt: &R,
    path: &'a str,
    replica: &mut OnFile,
    have: &Have,
    out: &'a str,
) -> Result<u64, Fault<'a>> {
    if let Some(refusal) = donation_refusal(replica, have) {
        return Err(Fault::from(refusal));
    }
    let target = named(Target::open(rt, out, path), out)?;
    named(donate_to_target(rt, replica, have, target), out)
}

/// Prints the line of what was donated.
///
/// Refuses with `StreamFault` where it cannot be written.
fn tell_donated<'a, R: Print + Clock>(rt: &R, last: u64) -> Result<(), Fault<'a>> {
    let mut output = standard_output(rt);
    match donated_text(Ok(last), &mut WriterSink::new(&mut output)) {
        Ok(()) => Ok(()),
        Err(_) => Err(output.fault().of(OUTPUT)),
    }
}

/// Prints the line of what was donated of the disk at this path, or says why nothing was.
fn told_of<'a, R: Print + Clock>(
    rt: &R,
    path: &'a str,
    disk: DiskOnFile,
    donated: Result<u64, Fault<'a>>,
) -> Result<(), Fault<'a>> {
    match donated {
        Ok(last) => tell_donated(rt, last),
        Err(fault) if fault.refusal() == Refusal::StreamFault => Err(fault),
        Err(fault) => Err(disk_fault(disk, fault.refusal()).of(path)),
    }
}

/// Writes for the joiner what it lacks of the order on the disk at this path, into the file at the last one, once nothing else refuses it; and
/// prints the line of that once the file has its name, which it has only once it is whole. What the joiner has is read from the file at the
/// other path before the disk is looked at, which is opened to read alone.
///
/// Refuses with `StreamFault` a joiner's file that cannot be opened, and else as `read_have` does; then the disk with `DiskFault` where
/// it cannot be opened or another program changes it for two seconds, and else as `Replica::open` does; then as `donate` does; with `OutOfMemory`, and with
/// `StreamFault` a file that may be a disk or that cannot be written, which stays as it is; and with `StreamFault` where the line cannot be written.
pub fn donate_to_file<'a, R: Files<File = File> + Print + AllocGlobal + Clock>(
    rt: &R,
    path: &'a str,
    have: &'a str,
    out: &'a str,
) -> Result<(), Fault<'a>> {
    let have = have_in_file(rt, have)?;
    let mut replica = opened_to_read(rt, path)?;
    let donated = donate_from(rt, path, &mut replica, &have, out);
    told_of(rt, path, replica.into_disk(), donated)
}

/// The fault of a join, by the transfer in the file at the other path, that was refused so: it is that file's, that of standard output, or the
/// disk's.
fn join_fault<'a, W: Drop>(
    disk: DiskOnFile,
    path: &'a str,
    file: &Noted<File>,
    from: &'a str,
    output: &Noted<W>,
    refusal: Refusal,
) -> Fault<'a> {
    match refusal {
        Refusal::StreamFault => stream_fault(file, from, output),
        Refusal::Malformed { .. } => {
            let cause = Cause::Words("the part there is cut short, changed, or none that may come");
            Fault::new(refusal, cause).of(from)
        }
        _ => disk_fault(disk, refusal).of(path),
    }
}

/// Brings the node of this replica, on the disk at this path, up to date by the transfer in the file at the other one.
fn join_by<'a, R: Print + AllocGlobal + Clock>(
    rt: &R,
    path: &'a str,
    replica: OnFile,
    from: &'a str,
    mut file: Noted<File>,
) -> Result<(), Fault<'a>> {
    let mut output = standard_output(rt);
    let (replica, outcome) = join_text(
        rt.alloc(),
        replica,
        &mut ReaderSource::new(&mut file),
        &mut WriterSink::new(&mut output),
    );
    let disk = replica.into_disk();
    match outcome {
        Ok(()) => Ok(()),
        Err(refusal) => Err(join_fault(disk, path, &file, from, &output, refusal)),
    }
}

/// Brings the node on the disk at this path up to date by the transfer in the file at the other one, which is opened first.
///
/// Refuses with `StreamFault` a file that cannot be opened; then the disk as `opened_file` does; and else as `join` does.
pub fn join_from_file<'a, R: Files<File = File> + Print + AllocGlobal + Clock>(
    rt: &R,
    path: &'a str,
    from: &'a str,
) -> Result<(), Fault<'a>> {
    let file = file_at(rt, from)?;
    match opened_file(rt, path) {
        Ok(replica) => join_by(rt, path, replica, from, file),
        Err(fault) => Err(fault),
    }
}
