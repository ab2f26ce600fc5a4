//! Texts, read line by line.

ghost use Rattle.std.specs.Prelude.{◌≡◌, ◌==◌, ◌+◌, ◌<◌, ◌≤◌, ◌⊎◌, true, [], ◌∷◌, ◌++◌, length, Err, IfSome, IfOk, IfErr, IfNone, OnOk};
ghost use Rattle.std.specs.List.{list_any};
ghost use Rattle.std.specs.Io.KnownBytes.{Keeps, Consumes, IsAtEnd};
ghost use Rattle.arrayvec.specs.ArrayVec.{array_vec_len};
ghost use Rattle.rep_streams.specs.Streams.{Notes};

use arrayvec::ArrayVec;
use rep_streams::Source;
use rep_types::Refusal;
use std::marker::Model;

/// The greatest number of bytes of a line, its line feed not counted.
pub const MAX_LINE: usize = 4096;

/// The greatest number of bytes of a text.
pub const MAX_TEXT: u64 = 67_108_864;

/// How many bytes are asked for at once.
const CHUNK: usize = 8192;

/// Reads a text line by line, from a stream that is read once.
#[derive(Drop)]
pub struct TextReader {
    // What was read last; the bytes from `start` to `end` are not yet handed out.
    buffer: [u8; CHUNK],
    start: usize,
    end: usize,
    // The bytes and the lines that were handed out.
    taken: u64,
    number: u64,
}

impl Model for TextReader {
    ghost use Rattle.std.specs.Prelude.{◌≤◌, slice_range};
    ghost use Rattle.rep_record.specs.Lines.{Unread};

    ghost Value = { Unread };

    ghost view = { λ r. record { pending = slice_range r.buffer r.start r.end; taken = r.taken; number = r.number } };

    ghost invariant = { λ r. (r.start ≤ r.end) × (r.end ≤ 8192) × (r.number ≤ r.taken) × (r.taken ≤ 67108864) };
}

impl TextReader {
    ghost use Rattle.rep_record.specs.Lines.{Unread, ahead, NextLine, Counted, Counts, IsCutShort, IsTooLong, NotesText};

    /// A reader that stands at the start of a text.
    pub fn new() -> TextReader
        ensures { result ≡ record { pending = []; taken = 0; number = 0 } }
    {
        TextReader {
            buffer: [0; CHUNK],
            start: 0,
            end: 0,
            taken: 0,
            number: 0,
        }
    }

    /// The number of the line that was handed out last, from 1; 0 where none was.
    pub fn number(&self) -> u64
        ensures number { result ≡ self.now.number }
        ensures small { result ≤ 67108864 }
    {
        self.number
    }

    /// Whether the line that comes next, with its line feed, was read already: the stream is not asked for more before it is
    /// handed out.
    pub fn has_line(&self) -> bool
        ensures { result ≡ list_any (λ b. b == 10) self.now.pending }
    {
        self.buffer[self.start..self.end].contains(&b'\n')
    }

    /// Reads more of the stream where the buffer is empty.
    ///
    /// Refuses with `StreamFault` where the reader fails, which it notes.
    fn fill<R: Source>(&mut self, reader: &mut R) -> Result<(), Refusal>
        ensures ok { OnOk result (Keeps (ahead self.old (R.remaining reader.old)) (ahead self.new (R.remaining reader.new))) }
        ensures end { OnOk result (self.new.pending ≡ [] → (self.old.pending ≡ []) × IsAtEnd (R.remaining reader.new)) }
        ensures err { IfErr result (λ e. e ≡ Refusal.StreamFault) }
        ensures notes { Notes (R.failed reader.old) (R.failed reader.new) result }
        ensures taken { self.new.taken ≡ self.old.taken }
        ensures number { self.new.number ≡ self.old.number }
    {
        if self.start < self.end {
            return Ok(());
        }
        let count = reader.read(&mut self.buffer)?;
        self.start = 0;
        self.end = count;
        Ok(())
    }

    /// The next byte of the text, or `None` at its end. The stream is asked for more only where the
    /// buffer is empty.
    ///
    /// Refuses with `StreamFault` where the reader fails, which it notes.
    #[tactic(auto, using(crate::proofs::TextLines::byte_taken))]
    fn next_byte<R: Source>(&mut self, reader: &mut R) -> Result<Option<u8>, Refusal>
        ensures some { IfOk result (λ byte. IfSome byte (λ b.
            Consumes (ahead self.old (R.remaining reader.old)) (ahead self.new (R.remaining reader.new)) (b ∷ []))) }
        ensures end { IfOk result (λ byte. IfNone byte (IsAtEnd (ahead self.new (R.remaining reader.new)))) }
        ensures left { IfOk result (λ byte. IfNone byte (Keeps (ahead self.old (R.remaining reader.old)) (ahead self.new (R.remaining reader.new)))) }
        ensures err { IfErr result (λ e. e ≡ Refusal.StreamFault) }
        ensures notes { Notes (R.failed reader.old) (R.failed reader.new) result }
        ensures taken { self.new.taken ≡ self.old.taken }
        ensures number { self.new.number ≡ self.old.number }
    {
        self.fill(reader)?;
        if self.start == self.end {
            return Ok(None);
        }
        let byte = self.buffer[self.start];
        self.start += 1;
        Ok(Some(byte))
    }

    /// Counts a line of so many bytes, its line feed among them. Answers whether there is one: a
    /// line has one byte or more.
    ///
    /// Refuses with `StreamFault` a line that does not end within the text's limit.
    fn count_line(&mut self, length: usize) -> Result<bool, Refusal>
        requires { length ≤ 4097 }
        ensures { Counted self.old length result self.new }
    {
        if length == 0 {
            return Ok(false);
        }
        let taken = self.taken + length as u64;
        if taken > MAX_TEXT {
            return Err(Refusal::StreamFault);
        }
        self.taken = taken;
        self.number += 1;
        Ok(true)
    }

    /// Hands out the next line, without its line feed, in `line`, and answers `true`; or answers
    /// `false` where the text has ended. A line ends by a line feed, which the last may lack; a
    /// text that ends by a line feed has no further empty line.
    ///
    /// Refuses a line of more than 4,096 bytes, its line feed not counted, with `Malformed` and its
    /// number, from 1, after its 4,097th byte. Refuses with `StreamFault` any other line that does
    /// not end, with its line feed, within the first 67,108,864 bytes of the text. Refuses with
    /// `StreamFault` also where the reader fails, which it notes. After a refusal the rest of the
    /// text is not to be read.
    #[tactic(auto, using(crate::proofs::TextLines::last_next))]
    pub fn next_line<R: Source>(
        &mut self,
        reader: &mut R,
        line: &mut ArrayVec<u8, MAX_LINE>,
    ) -> Result<bool, Refusal>
        // Where the bytes are known.
        ensures known { IfSome (R.remaining reader.old) (λ known.
            NextLine (self.old.pending ++ known) self.old result self.new (R.remaining reader.new) line.new.items) }
        // At any reader.
        ensures ok { IfOk result (λ handed. Counts self.old handed self.new) }
        ensures err { IfErr result (λ e. (e ≡ Refusal.StreamFault) ⊎ (e ≡ Refusal.Malformed (self.old.number + 1))) }
        ensures short { array_vec_len line.new ≤ 4096 }
        // A stream fault is told of a reader that has failed, or of a line that does not end within the limit of a text.
        ensures cut { result ≡ Err Refusal.StreamFault → (R.failed reader.new ≡ true) ⊎ IsCutShort self.old (R.remaining reader.old) }
        ensures notes { NotesText (IsTooLong self.old (R.remaining reader.old)) (R.failed reader.old) (R.failed reader.new) result }
        // Where too much is left behind the line, there was before.
        ensures left { OnOk result (IsTooLong self.new (R.remaining reader.new) → IsTooLong self.old (R.remaining reader.old)) }
    {
        line.clear();
        loop {
            let Some(byte) = self.next_byte(reader)? else {
                return self.count_line(line.len());
            };
            if byte == b'\n' {
                return self.count_line(line.len() + 1);
            }
            if line.is_full() {
                return Err(Refusal::Malformed {
                    at: self.number + 1,
                });
            }
            line.push(byte);
        }
    }
}
