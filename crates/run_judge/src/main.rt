//! Judges the order text on standard input, as `replicad judge` does, and does nothing else: the smallest program on the
//! library, and the one that `make run` compiles.
#![tactic(auto)]

use rep_script::judge_text;
use rep_streams::{ReaderSource, WriterSink};
use std::io;
use std::process::ExitCode;

fn main(rt: HostRuntime) -> ExitCode {
    let mut input = ReaderSource::new(rt.reader());
    let mut output = WriterSink::new(io::writer(&rt));
    match judge_text(rt.alloc(), &mut input, &mut output) {
        Ok(()) => ExitCode::SUCCESS,
        Err(refusal) => {
            let number = refusal.number();
            let _ = println!(rt; "fault {number} {refusal}");
            ExitCode::FAILURE
        }
    }
}
