//! Standard input, and standard output, which waits where others have set it not to.

use rep_reasons::{Noted, Text};
use std::io::{self, ErrorKind, Write};
use std::rt::Clock;
use std::thread;
use std::time::Duration;

/// The pause before what would have waited is tried again, in milliseconds.
const PAUSE: u64 = 1;

/// Lets a moment pass.
fn pause<R: Clock>(rt: &R) {
    thread::sleep(rt, Duration::from_millis(PAUSE));
}

/// The text on standard input.
pub fn standard_input<R: Input>(rt: &R) -> Text<R::Reader> {
    Text::new(rt.reader())
}

/// Standard output. What would wait there, where others have set it not to, is tried again after a millisecond, behind the part that went.
#[derive(Drop)]
pub struct Output<'r, R> {
    rt: &'r R,
}

impl<'r, R> Output<'r, R> {
    /// That of the program.
    pub(crate) fn new(rt: &'r R) -> Output<'r, R> {
        Output { rt }
    }
}

/// Standard output, which keeps why it failed.
pub fn standard_output<R>(rt: &R) -> Noted<Output<'_, R>> {
    Noted::new(Output::new(rt))
}

impl<R: Print + Clock> Write for Output<'_, R> {
    fn write(&mut self, bytes: &[u8]) -> io::Result<usize> {
        for _ in 0..u64::MAX {
            match io::writer(self.rt).write(bytes) {
                Err(error) if error.kind() == ErrorKind::WouldBlock => pause(self.rt),
                outcome => return outcome,
            }
        }
        Err(io::Error::from(ErrorKind::WouldBlock))
    }

    fn flush(&mut self) -> io::Result<()> {
        Ok(())
    }
}
