//! A text that is read line by line, and the answers to its lines, which go out together.

ghost use Rattle.std.specs.Prelude.{◌≡◌, ℕ, ◌⊎◌, false, Some, [], ◌++◌, take, IfSome, IfOk, IfErr, OnOk, OnErr, MatchResult};
ghost use Rattle.std.specs.Io.KnownBytes.{Appends};
ghost use Rattle.rep_streams.specs.Streams.{Notes};
ghost use Rattle.rep_record.specs.Lines.{NextLine, Counts, IsTooLong};
ghost use Rattle.rep_script.specs.Answering.{Answered, NotesBoth};

use arrayvec::ArrayVec;
use rep_record::TextReader;
use rep_streams::{Sink, Source};
use rep_types::Refusal;
use std::marker::Model;

/// How many bytes of answers may wait.
const ROOM: usize = 65536;

/// The answers that are not written yet: a sink of its own, which notes what finds no room in it.
#[derive(Drop)]
pub struct Waiting {
    bytes: ArrayVec<u8, ROOM>,
    failed: bool,
}

impl Model for Waiting {
    ghost use Rattle.rep_streams.specs.Streams.{Held};

    ghost Value = { Held };

    ghost view = { λ w. record { bytes = w.bytes.items; failed = w.failed } };
}

impl Waiting {
    /// No answer waits.
    pub fn new() -> Waiting
        ensures { result ≡ record { bytes = []; failed = false } }
    {
        Waiting {
            bytes: ArrayVec::new(),
            failed: false,
        }
    }

    /// How many more bytes may wait.
    pub fn room(&self) -> usize {
        self.bytes.remaining_capacity()
    }

    /// Lets go of all answers that wait, and answers whether one of them had found no room.
    fn clear(&mut self) -> bool
        ensures none { self.new ≡ record { bytes = []; failed = false } }
        ensures failed { result ≡ self.old.failed }
    {
        let failed = self.failed;
        self.bytes.clear();
        self.failed = false;
        failed
    }
}

impl Sink for Waiting {
    ghost contents = { λ w. Some w.bytes };

    ghost failed = { λ w. w.failed };

    /// Where there is no room for all of the bytes, a front of them waits.
    fn put(&mut self, bytes: &[u8]) -> Result<(), Refusal> {
        let count = bytes.len().min(self.bytes.remaining_capacity());
        let fitted = self.bytes.try_extend_from_slice(&bytes[..count]);
        prove!(fitted.is_ok());
        let _ = fitted;
        if count < bytes.len() {
            self.failed = true;
            return Err(Refusal::StreamFault);
        }
        Ok(())
    }

    fn give_up(&mut self) -> Refusal {
        self.failed = true;
        Refusal::StreamFault
    }
}

/// More bytes than the answer to one line has: that to a sync with 64 replies has at most 6,218.
const LONGEST: usize = 8192;

/// Writes the answers that wait. None waits then: where the writer fails, those that it has not taken are let go.
///
/// Refuses with `StreamFault` where the writer fails, which it notes, and has then taken a front of them. Where an answer had found no room among
/// them, all are written, and the writer notes that as a failure of its own.
pub fn send<W: Sink>(writer: &mut W, waiting: &mut Waiting) -> Result<(), Refusal>
    ensures ok { OnOk result (Appends (W.contents writer.old) (W.contents writer.new) waiting.old.bytes) }
    ensures cut { OnErr result ((k : ℕ) × Appends (W.contents writer.old) (W.contents writer.new) (take k waiting.old.bytes)) }
    ensures none { waiting.new ≡ record { bytes = []; failed = false } }
    ensures notes { Notes (W.failed writer.old) (W.failed writer.new) result }
    // Each of them had found room.
    ensures room { OnOk result (waiting.old.failed ≡ false) }
    ensures err { IfErr result (λ refusal. refusal ≡ Refusal.StreamFault) }
{
    let outcome = writer.put(waiting.bytes.as_slice());
    let failed = waiting.clear();
    outcome?;
    if failed {
        return Err(writer.give_up());
    }
    Ok(())
}

/// Writes the answers that wait where the next line was not read yet, so that the reader is asked for more only once
/// all that came before is answered, or where the next answer may have no room beside them.
///
/// Refuses with `StreamFault` where the writer fails, which it notes.
fn send_before<W: Sink>(
    text: &TextReader,
    writer: &mut W,
    waiting: &mut Waiting,
) -> Result<(), Refusal>
    ensures sent { OnOk result (Answered (W.contents writer.old) (W.contents writer.new) waiting.new.bytes waiting.old.bytes) }
    ensures cut { OnErr result ((k : ℕ) × Answered (W.contents writer.old) (W.contents writer.new) waiting.new.bytes (take k waiting.old.bytes)) }
    ensures notes { Notes (W.failed writer.old) (W.failed writer.new) result }
    ensures err { IfErr result (λ refusal. refusal ≡ Refusal.StreamFault) }
{
    if !text.has_line() || waiting.room() < LONGEST {
        send(writer, waiting)?;
    }
    Ok(())
}

/// Reads the next line as `TextReader::next_line` does. Where that asks for more of the text, what was answered is written
/// first.
///
/// Refuses as `TextReader::next_line` does, and with `StreamFault` also where the writer fails, which it notes.
#[tactic(auto, using(crate::proofs::Answering::whole_front))]
pub(crate) fn next_line<R: Source, W: Sink>(
    text: &mut TextReader,
    reader: &mut R,
    line: &mut ArrayVec<u8, 4096>,
    writer: &mut W,
    waiting: &mut Waiting,
) -> Result<bool, Refusal>
    ensures known { IfSome (R.remaining reader.old) (λ known.
        NextLine (text.old.pending ++ known) text.old result text.new (R.remaining reader.new) line.new.items) }
    ensures ok { IfOk result (λ handed. Counts text.old handed text.new) }
    ensures cut { (k : ℕ) × Answered (W.contents writer.old) (W.contents writer.new) waiting.new.bytes (take k waiting.old.bytes) }
    ensures sent { MatchResult result (λ _. Answered (W.contents writer.old) (W.contents writer.new) waiting.new.bytes waiting.old.bytes)
        (λ refusal. (refusal ≡ Refusal.StreamFault) ⊎ Answered (W.contents writer.old) (W.contents writer.new) waiting.new.bytes waiting.old.bytes) }
    ensures notes { NotesBoth (IsTooLong text.old (R.remaining reader.old)) (R.failed reader.old) (R.failed reader.new) (W.failed writer.old) (W.failed writer.new) result }
    // Where too much is left behind the line, there was before.
    ensures left { OnOk result (IsTooLong text.new (R.remaining reader.new) → IsTooLong text.old (R.remaining reader.old)) }
{
    send_before(text, writer, waiting)?;
    text.next_line(reader, line)
}
