//! Readers and writers that keep why they failed.

ghost use Rattle.std.specs.Prelude.{◌≡◌};

use crate::cause::Cause;
use crate::fault::Fault;
use rep_types::Refusal;
use std::io::{self, ErrorKind, Read, Write};

/// A reader or a writer that keeps the error of its first call that failed. One that was interrupted has not: it is made again.
#[derive(Drop)]
pub struct Noted<T: Drop> {
    inside: T,
    error: Option<io::Error>,
}

/// Keeps the error of a call that failed, where none is kept yet.
pub(crate) fn first_error<T>(
    kept: Option<io::Error>,
    outcome: &io::Result<T>,
) -> Option<io::Error> {
    match outcome {
        Err(error) if kept.is_none() && error.kind() != ErrorKind::Interrupted => Some(*error),
        _ => kept,
    }
}

impl<T: Drop> Noted<T> {
    /// This one, of which no call has failed.
    pub fn new(inside: T) -> Noted<T> {
        Noted {
            inside,
            error: None,
        }
    }

    /// Why its first call that failed did.
    pub fn error(&self) -> Option<io::Error> {
        self.error
    }

    /// The fault of this stream, which has failed.
    pub fn fault<'a>(&self) -> Fault<'a>
        ensures { result ≡ Refusal.StreamFault }
    {
        match self.error {
            Some(error) => Fault::new(Refusal::StreamFault, Cause::System(error)),
            None => Fault::from(Refusal::StreamFault),
        }
    }

    /// The reader or the writer again.
    pub fn into_inside(self) -> T {
        self.inside
    }
}

impl<T: Read + Drop> Read for Noted<T> {
    ghost remaining = { λ n. T.remaining n.inside };

    fn read(&mut self, room: &mut [u8]) -> io::Result<usize> {
        let outcome = self.inside.read(room);
        self.error = first_error(self.error, &outcome);
        outcome
    }
}

impl<T: Write + Drop> Write for Noted<T> {
    ghost contents = { λ n. T.contents n.inside };

    fn write(&mut self, bytes: &[u8]) -> io::Result<usize> {
        let outcome = self.inside.write(bytes);
        self.error = first_error(self.error, &outcome);
        outcome
    }

    fn flush(&mut self) -> io::Result<()> {
        self.inside.flush()
    }
}
