//! Judging an order text.

ghost use Rattle.std.specs.Prelude.{◌≡◌, ◌⊎◌, ◌<◌, ◌≤◌, true, [], IfSome, IfOk, IfErr, OnOk};
ghost use Rattle.rep_streams.specs.Streams.{Notes};
ghost use Rattle.rep_record.specs.Lines.{ahead, IsTooLong, IsLongText, NotesText};
ghost use Rattle.rep_record.specs.Reading.{order_line};
ghost use Rattle.rep_types.specs.Order.{Order};
ghost use Rattle.rep_cert.specs.Following.{Follows};
ghost use Rattle.rep_script.specs.Judging.{reading, reading_of, items_ahead, Ends, EndsBy, ReadsParams, JudgesNext, content};
ghost use Rattle.rep_script.specs.Answering.{Answered, NotesBoth};
ghost use Rattle.rep_script.specs.ScriptLines.{script_line};

use crate::exchange::{Waiting, next_line, send};
use arrayvec::ArrayVec;
use rep_cert::{Certifier, follows_from_the_start, follows_on, judges_as_the_order};
use rep_record::{
    TextReader, is_blank, no_effect, read_params_line, renew_order_line, write_verdict,
};
use rep_streams::{Sink, Source};
use rep_types::{Item, Params, Refusal, Window};
use std::alloc::Global;

/// Reads the params line, which is the first line with words; the reader of lines then stands behind it. The line is
/// read into the buffer.
///
/// Refuses with `Malformed` a text without words, at the number after that of its last line, and a params line as
/// `read_params_line` does; a line or a text that is too long, and a reader that fails, as `TextReader::next_line` does.
pub fn read_params<R: Source>(
    text: &mut TextReader,
    reader: &mut R,
    line: &mut ArrayVec<u8, 4096>,
) -> Result<Params, Refusal>
    // The lines behind it are items, or commands.
    ensures read { IfSome (ahead text.old (R.remaining reader.old)) (λ known.
        ReadsParams order_line known text.old result text.new (R.remaining reader.new) × ReadsParams script_line known text.old result text.new (R.remaining reader.new)) }
    ensures notes { NotesText (IsTooLong text.old (R.remaining reader.old)) (R.failed reader.old) (R.failed reader.new) result }
    // Where too much is left behind the line, there was before.
    ensures left { OnOk result (IsTooLong text.new (R.remaining reader.new) → IsTooLong text.old (R.remaining reader.old)) }
{
    'lines: while text.next_line(reader, line)? {
        if !is_blank(line) {
            return read_params_line(line, text.number());
        }
    }
    Err(Refusal::Malformed {
        at: text.number() + 1,
    })
}

/// A certifier that was handed nothing yet.
///
/// Refuses with `OutOfMemory` where there is no room for what it may come to keep.
fn first_certifier(alloc: Global, params: Params) -> Result<Certifier, Refusal>
    ensures made { IfOk result (λ certifier. (certifier.current.setting ≡ params) × Follows certifier.current []) }
    ensures refused { IfErr result (λ refusal. refusal ≡ Refusal.OutOfMemory) }
{
    follows_from_the_start();
    let window = Window::fixed(params.window_size(), 0, Vec::new(alloc));
    Certifier::new(alloc, params, 0, window)
}

/// Judges the item of the line, if the line has words, and answers its verdict line. The item is read into the place of another one, so that it is not moved.
fn judge_line<W: Sink>(
    certifier: &mut Certifier,
    line: &[u8],
    number: u64,
    item: &mut Item,
    writer: &mut W,
) -> Result<(), Refusal>
    // Each item had a line, so that a seqno is left.
    requires left { certifier.old.current.delivered < number }
    requires small { number ≤ 67108864 }
    ensures judged { (L : Order) → Follows certifier.old.current L →
        JudgesNext certifier.old.current L (content order_line number line.now) result certifier.new.current (W.contents writer.old) (W.contents writer.new) }
    ensures notes { Notes (W.failed writer.old) (W.failed writer.new) result }
    ensures left { certifier.new.current.delivered ≤ number }
{
    follows_on();
    judges_as_the_order();
    if is_blank(line) {
        return Ok(());
    }
    if let Err(refusal) = renew_order_line(line, number, item) {
        return Err(refusal);
    }
    let (seqno, verdict) = certifier.admit_item(item)?;
    write_verdict(writer, seqno, verdict)
}

/// Judges the items of the rest of the text by a certifier that was handed nothing yet. The last verdict lines wait.
fn judge_lines<R: Source, W: Sink>(
    mut certifier: Certifier,
    text: &mut TextReader,
    reader: &mut R,
    writer: &mut W,
    waiting: &mut Waiting,
) -> Result<(), Refusal>
    requires { Follows certifier.current [] }
    ensures judged { waiting.old.bytes ≡ [] → IfSome (ahead text.old (R.remaining reader.old)) (λ known.
        EndsBy (reading_of certifier.current.setting (items_ahead text.old known)) (Answered (W.contents writer.old) (W.contents writer.new) waiting.new.bytes) result) }
    // An answer without room may be the fault too: the writer is told of it where the last answers are sent.
    ensures notes { NotesBoth ((waiting.new.failed ≡ true) ⊎ IsTooLong text.old (R.remaining reader.old)) (R.failed reader.old) (R.failed reader.new) (W.failed writer.old) (W.failed writer.new) result }
{
    let mut line = ArrayVec::new();
    let mut item = no_effect();
    'lines: while next_line(text, reader, &mut line, writer, waiting)? {
        judge_line(&mut certifier, &line, text.number(), &mut item, waiting)?;
    }
    Ok(())
}

/// Judges the items of the rest of the text by a certifier that was handed nothing yet, and writes their verdict lines.
fn judge_items<R: Source, W: Sink>(
    certifier: Certifier,
    text: &mut TextReader,
    reader: &mut R,
    writer: &mut W,
) -> Result<(), Refusal>
    requires { Follows certifier.current [] }
    ensures judged { IfSome (ahead text.old (R.remaining reader.old)) (λ known.
        Ends (reading_of certifier.current.setting (items_ahead text.old known)) (W.contents writer.old) (W.contents writer.new) result) }
    ensures notes { NotesBoth (IsTooLong text.old (R.remaining reader.old)) (R.failed reader.old) (R.failed reader.new) (W.failed writer.old) (W.failed writer.new) result }
{
    let mut waiting = Waiting::new();
    let outcome = judge_lines(certifier, text, reader, writer, &mut waiting);
    send(writer, &mut waiting)?;
    outcome
}

/// Judges an order text: writes a verdict line for each of its items, which are write sets and changes of the
/// window's size. The lines go out together, but each before the reader is asked for what comes after the
/// item's line. Memory is taken once, behind the params line: what it takes does not grow with the text.
///
/// Refuses a params line as `read_params_line` does, an item's line as `read_order_line` does, want of
/// memory with `OutOfMemory`, and with `StreamFault` a reader or a writer that fails, which it notes, and a
/// text of more than 67,108,864 bytes. The verdict lines of the items before stand.
pub fn judge_text<R: Source, W: Sink>(
    alloc: Global,
    reader: &mut R,
    writer: &mut W,
) -> Result<(), Refusal>
    ensures judged { IfSome (R.remaining reader.old) (λ text. Ends (reading text) (W.contents writer.old) (W.contents writer.new) result) }
    // A stream fault is one of the streams, or the text is too long.
    ensures notes { NotesBoth (IsLongText (R.remaining reader.old)) (R.failed reader.old) (R.failed reader.new) (W.failed writer.old) (W.failed writer.new) result }
{
    let mut text = TextReader::new();
    let mut line = ArrayVec::new();
    let params = read_params(&mut text, reader, &mut line)?;
    let certifier = first_certifier(alloc, params)?;
    judge_items(certifier, &mut text, reader, writer)
}
