//! The lines that a script is answered by.

ghost use Rattle.std.specs.Prelude.{◌≡◌, ℕ, [], ◌∷◌, ◌++◌, take, IfSome, IfErr, OnOk, OnErr, MatchResult, is_ok, true};
ghost use Rattle.std.specs.Io.KnownBytes.{Appends, Keeps};
ghost use Rattle.rep_catchup.specs.Engines.{gtid_of};
ghost use Rattle.rep_streams.specs.Streams.{Notes};
ghost use Rattle.rep_script.specs.Answering.{Tells, state_line};

use crate::refused::write_refused;
use arrayvec::ArrayVec;
use rep_catchup::Replica;
use rep_disk::Disk;
use rep_record::write_verdict;
use rep_steps::Answer;
use rep_streams::Sink;
use rep_types::{Entry, Gtid, Refusal, Reply, Value};
use std::fmt::Display;
use std::io::Write;

/// A line of an answer. It takes no memory, so what was done is always answered. The longest is that of
/// a state, of 5,215 bytes where the window is full.
type Line = ArrayVec<u8, 6144>;

/// What is said of a line that had no room for its text.
struct NoRoom;

/// Puts the text at the end of the line, or as much of it as there is room for.
fn put<D: Display + Drop>(line: &mut Line, text: D) -> Result<(), NoRoom>
    ensures { OnOk result (IfSome (D.output text) (λ bytes. line.new.items ≡ line.old.items ++ bytes)) }
{
    line.write_fmt(text).map_err(|_| NoRoom)
}

/// Puts this text and its line feed in the place of what the line had.
fn put_line<D: Display + Drop>(line: &mut Line, text: D) -> Result<(), NoRoom>
    ensures { OnOk result (IfSome (D.output text) (λ bytes. line.new.items ≡ bytes ++ 10 ∷ [])) }
{
    line.clear();
    put(line, text)?;
    put(line, "\n")
}

/// Writes the line, where all of it found room.
///
/// Refuses with `StreamFault` a writer that fails, which it notes, and has then taken a front of the line. A line without room is a failure of
/// the writer too, which is told of it: nothing is written.
fn write_made<W: Sink>(writer: &mut W, line: &Line, made: Result<(), NoRoom>) -> Result<(), Refusal>
    ensures ok { OnOk result (OnOk made (Appends (W.contents writer.old) (W.contents writer.new) line.now.items)) }
    ensures made { OnOk result (is_ok made ≡ true) }
    ensures cut { OnErr result (MatchResult made (λ _. (k : ℕ) × Appends (W.contents writer.old) (W.contents writer.new) (take k line.now.items)) (λ _. Keeps (W.contents writer.old) (W.contents writer.new))) }
    ensures notes { Notes (W.failed writer.old) (W.failed writer.new) result }
    ensures err { IfErr result (λ refusal. refusal ≡ Refusal.StreamFault) }
{
    match made {
        Ok(()) => writer.put(line.as_slice()),
        Err(NoRoom) => Err(writer.give_up()),
    }
}

/// Writes the line of this text, of at most 6,143 bytes, and its line feed.
///
/// Refuses with `StreamFault` a writer that fails, which it notes, and has then taken a front of the line; and a longer text, of which nothing
/// is written, and of which the writer notes that too.
pub fn write_line<W: Sink, D: Display + Drop>(writer: &mut W, text: D) -> Result<(), Refusal>
    ensures ok { OnOk result (IfSome (D.output text) (λ bytes. Appends (W.contents writer.old) (W.contents writer.new) (bytes ++ 10 ∷ []))) }
    ensures cut { OnErr result (IfSome (D.output text) (λ bytes. (k : ℕ) × Appends (W.contents writer.old) (W.contents writer.new) (take k (bytes ++ 10 ∷ [])))) }
    ensures notes { Notes (W.failed writer.old) (W.failed writer.new) result }
    ensures err { IfErr result (λ refusal. refusal ≡ Refusal.StreamFault) }
{
    let mut line = Line::new();
    let made = put_line(&mut line, text);
    write_made(writer, &line, made)
}

/// Writes the lines of the replies: how many there are, and each.
fn write_replies<W: Sink>(writer: &mut W, replies: &[Reply]) -> Result<(), Refusal>
    ensures notes { Notes (W.failed writer.old) (W.failed writer.new) result }
    ensures refused { IfErr result (λ refusal. refusal ≡ Refusal.StreamFault) }
{
    let count = replies.len();
    write_line(writer, format_args!("synced {count}"))?;
    let mut line = Line::new();
    for reply in replies {
        let text = format_args!(
            "reply {} {} {}:{}",
            reply.seqno, reply.verdict, reply.source, reply.trx
        );
        let made = put_line(&mut line, text);
        write_made(writer, &line, made)?;
    }
    Ok(())
}

/// Puts what is said of a row with this value: its bytes in hexadecimal digits, two for each.
fn put_row(line: &mut Line, value: &Value) -> Result<(), NoRoom> {
    put(line, "value")?;
    for (index, byte) in value.as_bytes().iter().enumerate() {
        put(line, if index == 0 { " " } else { "" })?;
        put(line, format_args!("{byte:02x}"))?;
    }
    put(line, "\n")
}

/// Writes the line of a row: its value, or that it is absent.
fn write_row<W: Sink>(writer: &mut W, row: Option<&Value>) -> Result<(), Refusal>
    ensures notes { Notes (W.failed writer.old) (W.failed writer.new) result }
    ensures refused { IfErr result (λ refusal. refusal ≡ Refusal.StreamFault) }
{
    let Some(value) = row else {
        return write_line(writer, "absent");
    };
    let mut line = Line::new();
    let made = put_row(&mut line, value);
    write_made(writer, &line, made)
}

/// Writes what the replica answered to its last step: a verdict line under the seqno of its last delivery, or the line or
/// lines of another step.
///
/// Refuses with `StreamFault` a writer that fails, which it notes.
pub fn write_answer<D: Disk, W: Sink>(
    writer: &mut W,
    replica: &Replica<D>,
    answer: &Answer,
) -> Result<(), Refusal>
    ensures notes { Notes (W.failed writer.old) (W.failed writer.new) result }
    ensures refused { IfErr result (λ refusal. refusal ≡ Refusal.StreamFault) }
{
    match answer {
        Answer::Gave(verdict) => write_verdict(writer, replica.delivered(), *verdict),
        Answer::Wrote => write_line(writer, "wrote"),
        Answer::Began(position) => write_line(writer, format_args!("began {position}")),
        Answer::Synced(replies) => write_replies(writer, replies.as_slice()),
        Answer::Row(row) => write_row(writer, row.as_ref()),
        Answer::Refused(refusal) => write_refused(writer, *refusal),
    }
}

/// Puts what is said of a state at this GTID, with this base and this window.
fn put_state(line: &mut Line, gtid: Gtid, base: u64, window: &[Entry]) -> Result<(), NoRoom>
    requires empty { line.old.items ≡ [] }
    ensures { OnOk result (line.new.items ≡ state_line gtid base window.now) }
{
    put(line, format_args!("state {gtid} base {base} window"))?;
    for entry in window {
        let seqno = entry.seqno();
        put(line, format_args!(" {seqno}"))?;
    }
    put(line, "\n")
}

/// Writes the line of the replica's state at its durable position: the GTID, the base and the seqnos
/// of the window, which is handed in as the replica gives it.
///
/// Refuses with `StreamFault` a writer that fails, which it notes.
pub fn write_state<D: Disk, W: Sink>(
    writer: &mut W,
    replica: &Replica<D>,
    window: &[Entry],
) -> Result<(), Refusal>
    ensures told { Tells (state_line (gtid_of replica.now.engine) replica.now.engine.checkpoint.base.position window.now) (W.contents writer.old) (W.contents writer.new) result }
    ensures notes { Notes (W.failed writer.old) (W.failed writer.new) result }
    ensures refused { IfErr result (λ refusal. refusal ≡ Refusal.StreamFault) }
{
    let mut line = Line::new();
    let made = put_state(&mut line, replica.gtid(), replica.base(), window);
    write_made(writer, &line, made)
}

/// Writes the line of a disk that was opened again at this GTID.
///
/// Refuses with `StreamFault` a writer that fails, which it notes.
pub fn write_open<W: Sink>(writer: &mut W, gtid: Gtid) -> Result<(), Refusal>
    ensures notes { Notes (W.failed writer.old) (W.failed writer.new) result }
    ensures refused { IfErr result (λ refusal. refusal ≡ Refusal.StreamFault) }
{
    write_line(writer, format_args!("open {gtid}"))
}
