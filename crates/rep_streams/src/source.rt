//! Sources of bytes.

ghost use Rattle.std.specs.Prelude.{◌≡◌, ◌≤◌, ℕ, Bool, List, Option, length, false, IfOk, IfErr};
ghost use Rattle.std.specs.Io.KnownBytes.{ReadConsumes};
ghost use Rattle.rep_streams.specs.Streams.{Notes};

use rep_types::Refusal;
use std::io::{ErrorKind, Read};

/// What bytes are read from, which notes when it has failed.
pub trait Source {
    /// The bytes that reads will give from here on, where they are known.
    ghost remaining: { Self → Option (List ℕ) };

    /// Whether a read has failed.
    ghost failed: { Self → Bool };

    /// Reads into the room what there is, and answers how many bytes that are: 0 at the end alone, where there is room.
    ///
    /// Refuses with `StreamFault` where it fails, which is noted; what it still has is not to be read then.
    fn read(&mut self, room: &mut [u8]) -> Result<usize, Refusal>
        ensures within { IfOk result (λ count. count ≤ length room.new) }
        ensures bytes { ReadConsumes (remaining self.old) (remaining self.new) result room.new }
        ensures notes { Notes (failed self.old) (failed self.new) result }
        ensures refused { IfErr result (λ e. e ≡ Refusal.StreamFault) };
}

/// A source over a reader. This is the one place that says that a reader has failed.
#[derive(Drop)]
pub struct ReaderSource<R: Read + Drop> {
    reader: R,
    failed: bool,
}

impl<R: Read + Drop> ReaderSource<R> {
    ghost use Rattle.rep_streams.specs.Inside.{reader_of, has_failed_to_read};

    /// This reader, which has not failed.
    pub fn new(reader: R) -> ReaderSource<R>
        ensures reader { reader_of result ≡ reader }
        ensures fresh { has_failed_to_read result ≡ false }
    {
        ReaderSource {
            reader,
            failed: false,
        }
    }
}

impl<R: Read + Drop> Source for ReaderSource<R> {
    ghost remaining = { λ s. R.remaining s.reader };

    ghost failed = { λ s. s.failed };

    /// A read that was interrupted is tried again. A reader that has failed is not asked again.
    fn read(&mut self, room: &mut [u8]) -> Result<usize, Refusal> {
        if self.failed {
            return Err(Refusal::StreamFault);
        }
        for _ in 0..u64::MAX {
            match self.reader.read(room) {
                Ok(count) => return Ok(count),
                Err(error) if error.kind() == ErrorKind::Interrupted => {}
                Err(_) => break,
            }
        }
        self.failed = true;
        Err(Refusal::StreamFault)
    }
}
