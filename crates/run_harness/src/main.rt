//! `run_harness`: reads from standard input what is to be done to a replica and to the disk below it, line by line, and writes what
//! came of each line: a device that fails at a call, or is damaged behind one, stops, bytes that change, snapshots of
//! another node that are installed, what another node donates, whole or cut, that is joined, and the events between them.
//! It compares nothing itself: `scripts/lives` writes such texts, beside models of what has to come.
#![tactic(auto)]

mod bench;
mod catchup;
mod damaged;
mod device;
mod donor;
mod join;
mod node;
mod order;
mod shown;

use rep_streams::{ReaderSource, WriterSink};
use rep_types::Refusal;
use std::io;
use std::process::ExitCode;

fn run<R: Input + Print + AllocGlobal>(rt: &R) -> Result<(), Refusal> {
    let mut input = ReaderSource::new(rt.reader());
    let mut output = WriterSink::new(io::writer(rt));
    bench::run(rt.alloc(), &mut input, &mut output)
}

fn main(rt: HostRuntime) -> ExitCode {
    match run(&rt) {
        Ok(()) => ExitCode::SUCCESS,
        Err(refusal) => {
            let number = refusal.number();
            let _ = println!(rt; "fault {number} {refusal}");
            ExitCode::FAILURE
        }
    }
}
