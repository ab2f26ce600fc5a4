//! A node on a file that follows an order, and the files between which it donates.

ghost use Rattle.rep_service.specs.Exchanges.{IsOfNames};

use crate::disk_file::disk_at;
use crate::exchange::{have_exchanged, new_file_exchanged};
use crate::new_file::NewFile;
use crate::streams::{standard_input, standard_output};
use crate::text_fault;
use rep_disk::Access;
use rep_reasons::{Cause, Fault, Form};
use rep_renewal::{Unnamed, named};
use rep_service::{Exchange, follow_on_disk};
use rep_streams::{ReaderSource, WriterSink};
use rep_transfer::Have;
use rep_types::Refusal;
use std::fs::{File, Files};
use std::rt::Clock;
use std::str;

/// The refusal of a file, as a line of a running node says it: nothing that is wrong with a file ends the node.
fn of_file(fault: &Fault<'_>) -> Refusal
    ensures { IsOfNames result }
{
    match fault.refusal() {
        Refusal::OutOfMemory => Refusal::OutOfMemory,
        Refusal::Malformed { at } => Refusal::Malformed { at },
        _ => Refusal::StreamFault,
    }
}

/// The text that a name is. Refuses with `StreamFault` one that is no UTF-8.
fn text_of(name: &[u8]) -> Result<&str, Unnamed> {
    match str::from_utf8(name) {
        Ok(text) => Ok(text),
        Err(_) => Err(Fault::new(Refusal::StreamFault, Cause::Words("it is no UTF-8"))),
    }
}

/// Regular files as what a running node reads and writes in order to donate, by the rules for targets. Why one is refused is said on standard error.
#[derive(Drop)]
struct FileExchange<'r, R> {
    rt: &'r R,
    /// The path of the disk that the node is on.
    disk: &'r str,
}

impl<'r, R: Files<File = File> + Eprint + AllocGlobal> FileExchange<'r, R> {
    /// What a joiner has, in the file of this name.
    fn have<'a>(&self, name: &'a [u8]) -> Result<Have, Fault<'a>> {
        have_exchanged(self.rt, text_of(name)?)
    }

    /// The new file that takes this name.
    fn new_file<'a>(&self, name: &'a [u8]) -> Result<NewFile, Fault<'a>> {
        let name = text_of(name)?;
        named(new_file_exchanged(self.rt, name, self.disk), name)
    }

    /// The refusal of this fault, which is told: for what reason, on standard error.
    fn told(&self, fault: &Fault<'_>) -> Refusal
        ensures { IsOfNames result }
    {
        if let Some(reason) = fault.reason() {
            let _ = eprintln!(self.rt; "replicad: {reason}");
        }
        of_file(fault)
    }
}

impl<'r, R: Files<File = File> + Eprint + AllocGlobal> Exchange for FileExchange<'r, R> {
    type Out = WriterSink<NewFile>;

    fn read_have(&mut self, name: &[u8]) -> Result<Have, Refusal> {
        match self.have(name) {
            Ok(have) => Ok(have),
            Err(fault) => Err(self.told(&fault)),
        }
    }

    fn begin(&mut self, name: &[u8]) -> Result<WriterSink<NewFile>, Refusal> {
        match self.new_file(name) {
            Ok(file) => Ok(WriterSink::new(file)),
            Err(fault) => Err(self.told(&fault)),
        }
    }

    fn keep(&mut self, out: WriterSink<NewFile>) -> Result<(), Refusal> {
        match out.into_writer().end(self.rt, Ok(())) {
            Ok(()) => Ok(()),
            Err(fault) => Err(self.told(&fault)),
        }
    }

    fn discard(&mut self, out: WriterSink<NewFile>) {
        let _ = out
            .into_writer()
            .end::<_, ()>(self.rt, Err(Fault::from(Refusal::StreamFault)));
    }
}

/// Follows an order from standard input on the disk at this path, for as long as it goes on.
///
/// Refuses with `DiskFault` a file that cannot be opened, that other programs use for two seconds, or that is to be written anew and cannot be, and else as
/// `follow_on_disk` does.
pub fn follow_file<'a, R: Files<File = File> + Input + Print + Eprint + AllocGlobal + Clock>(
    rt: &R,
    path: &'a str,
) -> Result<(), Fault<'a>> {
    let disk = disk_at(rt, path, Access::Change)?;
    let mut input = standard_input(rt);
    let mut output = standard_output(rt);
    let (disk, outcome) = follow_on_disk(
        rt.alloc(),
        disk,
        &mut ReaderSource::new(&mut input),
        &mut WriterSink::new(&mut output),
        &mut FileExchange { rt, disk: path },
    );
    match outcome {
        Ok(()) => Ok(()),
        Err(refusal) => Err(text_fault(disk, path, &input, Form::Followed, &output, refusal)),
    }
}
