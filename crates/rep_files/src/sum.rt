//! The sum of a disk.

use crate::disk_file::{OnFile, disk_fault, opened_to_read};
use crate::streams::standard_output;
use rep_reasons::{Fault, OUTPUT};
use rep_service::sum_text;
use rep_streams::WriterSink;
use rep_types::Refusal;
use std::fs::{File, Files};
use std::rt::Clock;

/// Prints the sum of this replica, on the disk at this path.
fn print_sum_of<'a, R: Print + Clock>(
    rt: &R,
    path: &'a str,
    mut replica: OnFile,
    position: Option<u64>,
) -> Result<(), Fault<'a>> {
    let mut output = standard_output(rt);
    let outcome = sum_text(&mut replica, position, &mut WriterSink::new(&mut output));
    let disk = replica.into_disk();
    match outcome {
        Ok(()) => Ok(()),
        Err(Refusal::StreamFault) => Err(output.fault().of(OUTPUT)),
        Err(refusal) => Err(disk_fault(disk, refusal).of(path)),
    }
}

/// Prints the sum of the rows on the disk at this path, which is opened to read alone: at this position, or at what is durable.
///
/// Refuses the disk with `DiskFault` where it cannot be opened or another program changes it for two seconds, and else as `Replica::open`
/// does; then as `sum_at` does; and with `StreamFault` where the line cannot be written.
pub fn print_sum<'a, R: Files<File = File> + Print + AllocGlobal + Clock>(
    rt: &R,
    path: &'a str,
    position: Option<u64>,
) -> Result<(), Fault<'a>> {
    match opened_to_read(rt, path) {
        Ok(replica) => print_sum_of(rt, path, replica, position),
        Err(fault) => Err(fault),
    }
}
