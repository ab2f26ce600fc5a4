//! Running a script.

ghost use Rattle.std.specs.Prelude.{◌≡◌, ◌≢◌, ◌⊎◌, ◌^◌, true, Some, Ok, IfSome, IfErr};
ghost use Rattle.rep_types.specs.Settings.{Setting};
ghost use Rattle.rep_streams.specs.Streams.{Notes};
ghost use Rattle.rep_record.specs.Lines.{ahead, IsTooLong, IsLongText};
ghost use Rattle.rep_script.specs.Answering.{NotesBoth};
ghost use Rattle.rep_script.specs.ScriptLines.{script_line, delivery_of, whole_in};
ghost use Rattle.rep_record.specs.Reading.{next, number_in, outcome};
ghost use Rattle.rep_script.specs.Judging.{reading_of, said_ahead, content};
ghost use Rattle.rep_script.specs.Scripts.{script, script_on_disk, disk_line, Opened, OnNewDisk, Crashes, Stops, ScriptEnds, RunEnds, EndsOnDisk, Does, RunsCommand, RunsLine, RunsDiskLine};

use crate::answers::{write_answer, write_open, write_state};
use crate::exchange::{Waiting, next_line, send};
use crate::judge::read_params;
use crate::limits::answer_limits;
use crate::refused::write_refused;
use crate::script_line::{Command, next_number, read_other};
use crate::sum::answer_sum;
use arrayvec::ArrayVec;
use rep_catchup::{Replica, format_disk};
use rep_disk::{Disk, Loss, MemDisk};
use rep_layout::need;
use rep_record::{TextReader, Words, is_blank, no_effect, renew_stated};
use rep_streams::{Sink, Source};
use rep_types::{Item, Params, Refusal};
use std::alloc::Global;
use uuid::Uuid;

/// The bytes of the state UUID of the disk in memory that a script runs on:
/// 11111111-1111-4111-8111-111111111111.
const SCRIPT_UUID: [u8; 16] = [
    0x11, 0x11, 0x11, 0x11, 0x11, 0x11, 0x41, 0x11, 0x81, 0x11, 0x11, 0x11, 0x11, 0x11, 0x11, 0x11,
];

/// A replica on this disk, which is let go where it is refused.
///
/// Refuses the disk as `Replica::open` does.
pub fn opened<D: Disk + Drop>(alloc: Global, disk: D) -> Result<Replica<D>, Refusal>
    ensures opened { Opened D.Disk disk result }
    // No disk is refused as a stream that has failed.
    ensures own { IfErr result (λ refusal. refusal ≢ Refusal.StreamFault) }
{
    match Replica::open(alloc, disk) {
        Ok(replica) => Ok(replica),
        Err((_, refusal)) => Err(refusal),
    }
}

/// A replica on a new disk in memory, which has as many bytes as the parameters need and the UUID of the disks that
/// scripts run on.
///
/// Refuses with `OutOfMemory` where there is no room for the disk, and else as `format_disk` and `Replica::open` do.
pub fn on_new_disk(alloc: Global, params: &Params) -> Result<Replica<MemDisk>, Refusal>
    ensures opened { OnNewDisk ⟦<MemDisk as Disk>⟧ params.now result }
    ensures own { IfErr result (λ refusal. refusal ≢ Refusal.StreamFault) }
{
    let disk = MemDisk::new(alloc, need(params) as usize)?;
    let (disk, outcome) = format_disk(disk, params, Some(Uuid::from_bytes(SCRIPT_UUID)));
    outcome?;
    opened(alloc, disk)
}

/// What a stop with this loss leaves of the replica's disk.
fn stopped(replica: Replica<MemDisk>, loss: Loss) -> MemDisk
    ensures { Crashes loss replica.engine.disk result }
{
    let mut disk = replica.into_disk();
    disk.crash(loss);
    disk
}

/// Stops the replica, with this loss, and opens what is left.
fn stopped_and_opened(
    alloc: Global,
    replica: Replica<MemDisk>,
    loss: Loss,
) -> Result<Replica<MemDisk>, Refusal>
    ensures stops { Stops ⟦<MemDisk as Disk>⟧ loss replica result }
    ensures own { IfErr result (λ refusal. refusal ≢ Refusal.StreamFault) }
{
    let disk = stopped(replica, loss);
    opened(alloc, disk)
}

/// Does what the command asks for, and writes what came of it. A stop is handed back: what it is depends on the disk.
fn run_command<D: Disk, W: Sink>(
    alloc: Global,
    replica: &mut Replica<D>,
    command: Command,
    writer: &mut W,
) -> Result<Option<Loss>, Refusal>
    ensures runs { RunsCommand D.Disk replica.old command result replica.new }
    ensures notes { Notes (W.failed writer.old) (W.failed writer.new) result }
{
    match command {
        Command::Step(event) => {
            let answer = replica.step(event);
            write_answer(writer, replica, &answer)?;
        }
        Command::State => match replica.window(alloc) {
            Ok(window) => write_state(writer, replica, window.entries())?,
            Err(refusal) => write_refused(writer, refusal)?,
        },
        Command::Limits => answer_limits(alloc, replica, writer)?,
        Command::Sum(position) => answer_sum(replica, position, writer)?,
        Command::Stop(loss) => return Ok(Some(loss)),
    }
    Ok(None)
}

/// Delivers the item that the words say behind its seqno, in the line with this number, and writes what came of it. The item is read into the place
/// of another one, so that it is not moved.
///
/// Refuses a line as `read_command` does, and with `StreamFault` a writer that fails.
fn run_delivery<D: Disk, W: Sink>(
    replica: &mut Replica<D>,
    mut words: Words,
    number: u64,
    item: &mut Item,
    writer: &mut W,
) -> Result<(), Refusal>
    ensures runs { RunsDiskLine D.Disk replica.old (Some (delivery_of number (next (number_in (2 ^ 64)) words.entry))) result replica.new }
    ensures notes { Notes (W.failed writer.old) (W.failed writer.new) result }
{
    let Some(seqno) = next_number(&mut words) else {
        return Err(Refusal::Malformed { at: number });
    };
    if let Err(refusal) = renew_stated(words, number, item) {
        return Err(refusal);
    }
    let answer = replica.deliver(seqno, item);
    write_answer(writer, replica, &answer)
}

/// Does what the words ask for, which are no delivery, in the line with this number, and writes what came of it. A stop is handed back.
///
/// Refuses a line as `read_command` does, and with `StreamFault` a writer that fails.
fn run_other<D: Disk, W: Sink>(
    alloc: Global,
    replica: &mut Replica<D>,
    words: Words,
    number: u64,
    writer: &mut W,
) -> Result<Option<Loss>, Refusal>
    ensures runs { RunsLine D.Disk replica.old (Some (outcome Ok number (whole_in words.entry))) result replica.new }
    ensures notes { Notes (W.failed writer.old) (W.failed writer.new) result }
{
    let command = read_other(words, number)?;
    run_command(alloc, replica, command, writer)
}

/// Does what the line with this number asks for, and writes what came of it. A stop is handed back. Where the line says an item, that is read into the
/// place of another one.
///
/// Refuses a line as `read_command` does, and with `StreamFault` a writer that fails.
fn run_line<D: Disk, W: Sink>(
    alloc: Global,
    replica: &mut Replica<D>,
    line: &[u8],
    number: u64,
    item: &mut Item,
    writer: &mut W,
) -> Result<Option<Loss>, Refusal>
    ensures runs { RunsLine D.Disk replica.old (content script_line number line.now) result replica.new }
    ensures notes { Notes (W.failed writer.old) (W.failed writer.new) result }
{
    if is_blank(line) {
        return Ok(None);
    }
    let mut words = Words::new(line);
    if words.skip(b"deliver") {
        return match run_delivery(replica, words, number, item, writer) {
            Ok(()) => Ok(None),
            Err(refusal) => Err(refusal),
        };
    }
    run_other(alloc, replica, words, number, writer)
}

/// Gives the outcome, and takes the replica apart: let go as a whole, wherever a script may end, it would be most of what the proof costs.
fn let_go(replica: Replica<MemDisk>, outcome: Result<(), Refusal>) -> Result<(), Refusal>
    ensures { result ≡ outcome }
{
    let _disk = replica.into_disk();
    outcome
}

/// Runs the rest of a script at a replica on a new disk in memory. The last answers wait.
fn run_in_memory<R: Source, W: Sink>(
    alloc: Global,
    mut replica: Replica<MemDisk>,
    text: &mut TextReader,
    reader: &mut R,
    writer: &mut W,
    waiting: &mut Waiting,
) -> Result<(), Refusal>
    ensures ends { (p : Setting) → OnNewDisk ⟦<MemDisk as Disk>⟧ p (Ok replica) → IfSome (ahead text.old (R.remaining reader.old)) (λ known.
        ScriptEnds ⟦<MemDisk as Disk>⟧ (reading_of p (said_ahead script_line text.old known)) result) }
    // An answer without room may be the fault too: the writer is told of it where the last answers are sent.
    ensures notes { NotesBoth ((waiting.new.failed ≡ true) ⊎ IsTooLong text.old (R.remaining reader.old)) (R.failed reader.old) (R.failed reader.new) (W.failed writer.old) (W.failed writer.new) result }
{
    let mut line = ArrayVec::new();
    let mut item = no_effect();
    'lines: loop {
        match next_line(text, reader, &mut line, writer, waiting) {
            Ok(true) => {}
            Ok(false) => return let_go(replica, Ok(())),
            Err(refusal) => return let_go(replica, Err(refusal)),
        }
        match run_line(
            alloc,
            &mut replica,
            &line,
            text.number(),
            &mut item,
            waiting,
        ) {
            Ok(None) => {}
            Ok(Some(loss)) => {
                replica = stopped_and_opened(alloc, replica, loss)?;
                if let Err(refusal) = write_open(waiting, replica.gtid()) {
                    return let_go(replica, Err(refusal));
                }
            }
            Err(refusal) => return let_go(replica, Err(refusal)),
        }
    }
}

/// Runs the rest of a script at a replica on a new disk in memory, and writes what came of it.
fn run_from<R: Source, W: Sink>(
    alloc: Global,
    replica: Replica<MemDisk>,
    text: &mut TextReader,
    reader: &mut R,
    writer: &mut W,
) -> Result<(), Refusal>
    ensures ends { (p : Setting) → OnNewDisk ⟦<MemDisk as Disk>⟧ p (Ok replica) → IfSome (ahead text.old (R.remaining reader.old)) (λ known.
        ScriptEnds ⟦<MemDisk as Disk>⟧ (reading_of p (said_ahead script_line text.old known)) result) }
    ensures notes { NotesBoth (IsTooLong text.old (R.remaining reader.old)) (R.failed reader.old) (R.failed reader.new) (W.failed writer.old) (W.failed writer.new) result }
{
    let mut waiting = Waiting::new();
    let outcome = run_in_memory(alloc, replica, text, reader, writer, &mut waiting);
    send(writer, &mut waiting)?;
    outcome
}

/// Runs a script on a new disk in memory: it has as many bytes as its parameters need, which are in the
/// script's first line with words, and is formatted with the UUID 11111111-1111-4111-8111-111111111111 and opened.
/// Does what each further line asks for, and writes what came of it before the reader is asked for what comes after the
/// line. At a stop the disk loses of what is not stable what the line says, and is opened again.
///
/// A step that the replica refuses is written as such, and the script goes on; so is want of memory, which `log`, `check`
/// and the lines of the state and of the limits may meet. A write or a sync for which the disk in memory finds no room is a failure
/// of the disk: the replica is then stopped up to the next stop of the script.
///
/// Refuses a params line as `read_params_line` does, a line that cannot be read as `read_command`
/// does, a disk that cannot be made or opened with `OutOfMemory` or `DiskFault`, and with `StreamFault` a reader
/// or a writer that fails, which it notes, and a text of more than 67,108,864 bytes. What was written before stands.
pub fn run_script<R: Source, W: Sink>(
    alloc: Global,
    reader: &mut R,
    writer: &mut W,
) -> Result<(), Refusal>
    ensures ends { IfSome (R.remaining reader.old) (λ text. ScriptEnds ⟦<MemDisk as Disk>⟧ (script text) result) }
    // A stream fault is one of the streams, or the text is too long.
    ensures notes { NotesBoth (IsLongText (R.remaining reader.old)) (R.failed reader.old) (R.failed reader.new) (W.failed writer.old) (W.failed writer.new) result }
{
    let mut text = TextReader::new();
    let mut line = ArrayVec::new();
    let params = read_params(&mut text, reader, &mut line)?;
    let replica = on_new_disk(alloc, &params)?;
    run_from(alloc, replica, &mut text, reader, writer)
}

/// Does what the line with this number of a script on a disk asks for, and writes what came of it.
///
/// Refuses a line as `read_command` does, a stop with `Malformed`, and with `StreamFault` a writer that fails.
fn run_disk_line<D: Disk, W: Sink>(
    alloc: Global,
    replica: &mut Replica<D>,
    line: &[u8],
    number: u64,
    item: &mut Item,
    writer: &mut W,
) -> Result<(), Refusal>
    ensures runs { RunsDiskLine D.Disk replica.old (content disk_line number line.now) result replica.new }
    ensures notes { Notes (W.failed writer.old) (W.failed writer.new) result }
{
    match run_line(alloc, replica, line, number, item, writer)? {
        None => Ok(()),
        Some(_) => Err(Refusal::Malformed { at: number }),
    }
}

/// Does what the lines of a script ask for, on a disk that does not crash at a line's word. The last answers wait.
fn run_lines<D: Disk, R: Source, W: Sink>(
    alloc: Global,
    replica: &mut Replica<D>,
    text: &mut TextReader,
    reader: &mut R,
    writer: &mut W,
    waiting: &mut Waiting,
) -> Result<(), Refusal>
    ensures ends { IfSome (ahead text.old (R.remaining reader.old)) (λ known.
        RunEnds (Does D.Disk) (said_ahead disk_line text.old known) replica.old result replica.new) }
    // An answer without room may be the fault too: the writer is told of it where the last answers are sent.
    ensures notes { NotesBoth ((waiting.new.failed ≡ true) ⊎ IsTooLong text.old (R.remaining reader.old)) (R.failed reader.old) (R.failed reader.new) (W.failed writer.old) (W.failed writer.new) result }
{
    let mut line = ArrayVec::new();
    let mut item = no_effect();
    'lines: while next_line(text, reader, &mut line, writer, waiting)? {
        run_disk_line(alloc, replica, &line, text.number(), &mut item, waiting)?;
    }
    Ok(())
}

/// Does what the lines of a script ask for, on a disk that does not crash at a line's word, and writes what came of it.
fn run_text<D: Disk, R: Source, W: Sink>(
    alloc: Global,
    replica: &mut Replica<D>,
    reader: &mut R,
    writer: &mut W,
) -> Result<(), Refusal>
    ensures ends { IfSome (R.remaining reader.old) (λ text.
        RunEnds (Does D.Disk) (script_on_disk text) replica.old result replica.new) }
    ensures notes { NotesBoth (IsLongText (R.remaining reader.old)) (R.failed reader.old) (R.failed reader.new) (W.failed writer.old) (W.failed writer.new) result }
{
    let mut text = TextReader::new();
    let mut waiting = Waiting::new();
    let outcome = run_lines(alloc, replica, &mut text, reader, writer, &mut waiting);
    send(writer, &mut waiting)?;
    outcome
}

/// Runs a script without a params line on this disk, which is opened first. Else as `run_script`; but a stop is no
/// line of such a script. The disk comes back beside the answer.
///
/// Refuses the disk as `Replica::open` does, before the first line is read.
pub fn run_on_disk<D: Disk, R: Source, W: Sink>(
    alloc: Global,
    disk: D,
    reader: &mut R,
    writer: &mut W,
) -> (D, Result<(), Refusal>)
    ensures ends { IfSome (R.remaining reader.old) (λ text.
        EndsOnDisk D.Disk (script_on_disk text) disk result.0 result.1) }
    // A stream fault is one of the streams, or the text is too long.
    ensures notes { NotesBoth (IsLongText (R.remaining reader.old)) (R.failed reader.old) (R.failed reader.new) (W.failed writer.old) (W.failed writer.new) result.1 }
{
    match Replica::open(alloc, disk) {
        Ok(mut replica) => {
            let outcome = run_text(alloc, &mut replica, reader, writer);
            (replica.into_disk(), outcome)
        }
        Err((disk, refusal)) => (disk, Err(refusal)),
    }
}
