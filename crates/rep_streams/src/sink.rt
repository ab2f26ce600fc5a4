//! Sinks of bytes.

ghost use Rattle.std.specs.Prelude.{◌≡◌, ◌<◌, ◌≤◌, ℕ, Bool, List, Option, length, take, true, false, IfOk, OnOk, OnErr, IfErr};
ghost use Rattle.std.specs.Io.KnownBytes.{Appends, Keeps};
ghost use Rattle.rep_streams.specs.Streams.{Notes};

use rep_types::Refusal;
use std::io::{ErrorKind, Write};

/// What bytes are written to, which notes when it has failed.
pub trait Sink {
    /// The bytes that it holds, where they are known.
    ghost contents: { Self → Option (List ℕ) };

    /// Whether it has failed.
    ghost failed: { Self → Bool };

    /// Writes all of the bytes.
    ///
    /// Refuses with `StreamFault` where it fails, which is noted: it has then taken a front of the bytes, and not all of them.
    fn put(&mut self, bytes: &[u8]) -> Result<(), Refusal>
        ensures ok { OnOk result (Appends (contents self.old) (contents self.new) bytes.now) }
        ensures cut { OnErr result ((k : ℕ) × (k < length bytes.now) × Appends (contents self.old) (contents self.new) (take k bytes.now)) }
        ensures notes { Notes (failed self.old) (failed self.new) result }
        ensures refused { IfErr result (λ e. e ≡ Refusal.StreamFault) };

    /// Notes a failure without writing anything: for a text that has no room where it is to be said.
    fn give_up(&mut self) -> Refusal
        ensures noted { failed self.new ≡ true }
        ensures kept { Keeps (contents self.old) (contents self.new) }
        ensures refusal { result ≡ Refusal.StreamFault };
}

/// A sink over a writer. This is the one place that says that a writer has failed.
#[derive(Drop)]
pub struct WriterSink<W: Write + Drop> {
    writer: W,
    failed: bool,
}

impl<W: Write + Drop> WriterSink<W> {
    ghost use Rattle.rep_streams.specs.Inside.{writer_of, has_failed_to_write};

    /// This writer, which has not failed.
    pub fn new(writer: W) -> WriterSink<W>
        ensures writer { writer_of result ≡ writer }
        ensures fresh { has_failed_to_write result ≡ false }
    {
        WriterSink {
            writer,
            failed: false,
        }
    }

    /// The writer again.
    pub fn into_writer(self) -> W
        ensures { result ≡ writer_of self }
    {
        self.writer
    }

    /// Writes some of the bytes, of which there are any, and answers how many. A write that was interrupted is tried again; one that takes
    /// nothing is a failure. A writer that has failed is not asked again.
    fn put_some(&mut self, bytes: &[u8]) -> Result<usize, Refusal>
        requires { 0 < length bytes.now }
        ensures some { IfOk result (λ count. (0 < count) × (count ≤ length bytes.now)) }
        ensures ok { IfOk result (λ count. Appends (W.contents (writer_of self.old)) (W.contents (writer_of self.new)) (take count bytes.now)) }
        ensures err { OnErr result (Keeps (W.contents (writer_of self.old)) (W.contents (writer_of self.new))) }
        ensures notes { Notes (has_failed_to_write self.old) (has_failed_to_write self.new) result }
        ensures refused { IfErr result (λ e. e ≡ Refusal.StreamFault) }
    {
        if self.failed {
            return Err(Refusal::StreamFault);
        }
        for _ in 0..u64::MAX {
            match self.writer.write(bytes) {
                Ok(0) => break,
                Ok(count) => return Ok(count),
                Err(error) if error.kind() == ErrorKind::Interrupted => {}
                Err(_) => break,
            }
        }
        self.failed = true;
        Err(Refusal::StreamFault)
    }
}

impl<W: Write + Drop> Sink for WriterSink<W> {
    ghost contents = { λ s. W.contents s.writer };

    ghost failed = { λ s. s.failed };

    #[tactic(auto, using(crate::proofs::Writing::front_grows, crate::proofs::Writing::front_stays))]
    fn put(&mut self, bytes: &[u8]) -> Result<(), Refusal> {
        let mut taken = 0;
        while taken < bytes.len() {
            taken += self.put_some(&bytes[taken..])?;
        }
        Ok(())
    }

    fn give_up(&mut self) -> Refusal {
        self.failed = true;
        Refusal::StreamFault
    }
}
