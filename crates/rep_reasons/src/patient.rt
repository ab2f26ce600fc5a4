//! Streams that wait for what does not wait by itself.

use std::io::{self, ErrorKind, Read, Write};
use std::rt::Clock;
use std::thread;
use std::time::Duration;

/// The pause before what would have waited is tried again, in milliseconds.
const PAUSE: u64 = 1;

/// A reader or a writer over a stream that others may have set not to wait, as a shell, a supervisor or node.js leaves one that the program shares with
/// them. What would wait there is tried again after a millisecond, behind the part that went.
#[derive(Drop)]
pub struct Patient<'r, R, T: Drop> {
    rt: &'r R,
    inside: T,
}

impl<'r, R, T: Drop> Patient<'r, R, T> {
    /// This stream.
    pub fn new(rt: &'r R, inside: T) -> Patient<'r, R, T> {
        Patient { rt, inside }
    }
}

/// Lets a moment pass.
fn pause<R: Clock>(rt: &R) {
    thread::sleep(rt, Duration::from_millis(PAUSE));
}

impl<R: Clock, T: Read + Drop> Read for Patient<'_, R, T> {
    ghost remaining = { λ p. T.remaining p.inside };

    fn read(&mut self, room: &mut [u8]) -> io::Result<usize> {
        for _ in 0..u64::MAX {
            match self.inside.read(room) {
                Err(error) if error.kind() == ErrorKind::WouldBlock => pause(self.rt),
                outcome => return outcome,
            }
        }
        Err(io::Error::from(ErrorKind::WouldBlock))
    }
}

impl<R: Clock, T: Write + Drop> Write for Patient<'_, R, T> {
    ghost contents = { λ p. T.contents p.inside };

    fn write(&mut self, bytes: &[u8]) -> io::Result<usize> {
        for _ in 0..u64::MAX {
            match self.inside.write(bytes) {
                Err(error) if error.kind() == ErrorKind::WouldBlock => pause(self.rt),
                outcome => return outcome,
            }
        }
        Err(io::Error::from(ErrorKind::WouldBlock))
    }

    fn flush(&mut self) -> io::Result<()> {
        self.inside.flush()
    }
}
