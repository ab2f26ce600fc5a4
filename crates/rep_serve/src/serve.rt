//! Serving a batch of items by a node that threads run.

ghost use Rattle.std.specs.Prelude.{◌≡◌, ◌≢◌, ◌||◌, ◌<◌, ◌≤◌, true, false, is_some, [], length, None, Err, IsTrue, IsFalse, IfSome, IfOk, IfErr, OnOk};
ghost use Rattle.std.specs.Io.KnownBytes.{Keeps};
ghost use Rattle.uuid.specs.Parts.{is_nil_bytes};
ghost use Rattle.rep_streams.specs.Streams.{Notes};
ghost use Rattle.rep_record.specs.Lines.{ahead, IsTooLong, IsLongText, NotesText};
ghost use Rattle.rep_record.specs.Reading.{order_line};
ghost use Rattle.rep_replica.specs.Replicas.{facts_of};
ghost use Rattle.rep_replica.specs.Settling.{is_quiet, IsRunning};
ghost use Rattle.rep_ordered.specs.Views.{Every};
ghost use Rattle.rep_node.specs.declared.batch.Receipt.{Receipt as Told};
ghost use Rattle.rep_script.specs.Answering.{NotesBoth};
ghost use Rattle.rep_script.specs.Judging.{said_ahead};
ghost use Rattle.rep_serve.specs.Serving.{AddsLine, IsFaultOf, Serves, ServesItems, TellsBatch, items_in, line_of_state, receipt_lines};

use crate::lines::write_receipts;
use arrayvec::ArrayVec;
use rep_disk::Disk;
use rep_node::{Batch, Pace, Point, serve_batch};
use rep_record::{TextReader, is_blank, read_order_line};
use rep_replica::Replica;
use rep_script::{Waiting, send, write_state};
use rep_streams::{Sink, Source};
use rep_types::{Item, Refusal};
use std::alloc::Global;
use std::sync::Wait;
use std::thread::Threads;

/// Workers go on at once.
struct AtOnce;

impl Pace for AtOnce {
    ghost lets = { λ pace point seqno. Unit {0} };

    fn at(&self, _point: Point, _seqno: u64) -> bool {
        true
    }
}

/// Reads the items of the rest of the text, one from each line that has words, into a list that has none yet.
///
/// Refuses a line as `read_order_line` does, want of memory with `OutOfMemory`, and a line or a text that is too long, and a reader that
/// fails, as `TextReader::next_line` does.
fn read_into<R: Source>(
    items: &mut Vec<Item>,
    text: &mut TextReader,
    reader: &mut R,
) -> Result<(), Refusal>
    requires { items.old.items ≡ [] }
    ensures read { IfSome (ahead text.old (R.remaining reader.old)) (λ known. OnOk result (said_ahead order_line text.old known ≡ (items.new.items, None))) }
    ensures refused { IfSome (ahead text.old (R.remaining reader.old)) (λ known. IfErr result (IsFaultOf (said_ahead order_line text.old known))) }
    ensures notes { NotesText (IsTooLong text.old (R.remaining reader.old)) (R.failed reader.old) (R.failed reader.new) result }
{
    let mut line = ArrayVec::new();
    'lines: while text.next_line(reader, &mut line)? {
        if !is_blank(&line) {
            items.push(read_order_line(&line, text.number())?)?;
        }
    }
    Ok(())
}

/// Reads the items of a text.
///
/// Refuses as `read_into` does.
fn read_items<R: Source>(alloc: Global, reader: &mut R) -> Result<Vec<Item>, Refusal>
    ensures read { IfSome (R.remaining reader.old) (λ known. IfOk result (λ items. items_in known ≡ (items.items, None))) }
    ensures refused { IfSome (R.remaining reader.old) (λ known. IfErr result (IsFaultOf (items_in known))) }
    ensures notes { NotesText (IsLongText (R.remaining reader.old)) (R.failed reader.old) (R.failed reader.new) result }
{
    let mut items = Vec::new(alloc);
    read_into(&mut items, &mut TextReader::new(), reader)?;
    Ok(items)
}

/// Writes the line of the replica's state.
///
/// Refuses with `OutOfMemory` where there is no room for the window, and then nothing is written; and with `StreamFault` where the writer
/// fails, which it notes.
fn write_state_of<D: Disk, W: Sink>(
    alloc: Global,
    replica: &Replica<D>,
    writer: &mut W,
) -> Result<(), Refusal>
    ensures adds { AddsLine (line_of_state replica.now) (W.contents writer.old) (W.contents writer.new) result }
    ensures notes { Notes (W.failed writer.old) (W.failed writer.new) result }
{
    let window = replica.window(alloc)?;
    let mut waiting = Waiting::new();
    match write_state(&mut waiting, replica, window.entries()) {
        Ok(()) => send(writer, &mut waiting),
        Err(_) => Err(writer.give_up()),
    }
}

/// Writes what came of a batch: the lines of its receipts, and then the line of the replica's state where the batch has no end.
///
/// Refuses with the batch's end, where it has one; with `OutOfMemory` where there is no room for the window, and then the state's line is not
/// written; and with `StreamFault` where the writer fails, which it notes.
fn tell<D: Disk, W: Sink>(
    alloc: Global,
    replica: &Replica<D>,
    items: &[Item],
    batch: &Batch,
    writer: &mut W,
) -> Result<(), Refusal>
    requires places { Every (λ (r : Told). r.index < length items.now) batch.now.receipts.items }
    requires own { IfSome batch.now.end (λ refusal. refusal ≢ Refusal.StreamFault) }
    ensures told { TellsBatch (receipt_lines items.now batch.now.receipts.items) (line_of_state replica.now) batch.now.end (W.contents writer.old) (W.contents writer.new) result }
    ensures notes { Notes (W.failed writer.old) (W.failed writer.new) result }
{
    write_receipts(items, &batch.receipts, writer)?;
    if let Some(refusal) = batch.end {
        return Err(refusal);
    }
    write_state_of(alloc, replica, writer)
}

/// Serves the items of a text by a node that is started from a replica which has nothing left to do and belongs to a cluster.
///
/// Refuses as `serve_text` does.
fn serve_settled<T: Threads + Wait + Sync, D: Disk + Send, R: Source, W: Sink>(
    rt: &T,
    alloc: Global,
    replica: Replica<D>,
    workers: usize,
    reader: &mut R,
    writer: &mut W,
) -> (Replica<D>, Result<(), Refusal>)
    requires quiet { is_quiet (facts_of D.Disk replica) ≡ true }
    requires running { IsRunning replica }
    requires defined { IsFalse (is_nil_bytes replica.engine.checkpoint.base.uuid) }
    requires workers { (0 < workers) × (workers ≤ 64) }
    ensures serves { ServesItems D.Disk (R.remaining reader.old) replica result.0 (W.contents writer.old) (W.contents writer.new) result.1 }
    ensures notes { NotesBoth (IsLongText (R.remaining reader.old)) (R.failed reader.old) (R.failed reader.new) (W.failed writer.old) (W.failed writer.new) result.1 }
{
    let items = match read_items(alloc, reader) {
        Ok(items) => items,
        Err(refusal) => return (replica, Err(refusal)),
    };
    let (replica, batch) = serve_batch(rt, alloc, replica, &items, workers, &AtOnce);
    let outcome = tell(alloc, &replica, &items, &batch, writer);
    (replica, outcome)
}

/// Serves the items of a text: settles the replica, reads all of the text, one item of either kind from each line that has words, starts a node of
/// so many workers, 1 to 64, and hands the items in together. Of those who wait one makes them durable, and runs a checkpoint where the log is full.
/// Behind that it writes a line for each durable item, in the order of the seqnos, `<seqno> <verdict> <source>:<trx>`, and the line of the
/// replica's state. The replica comes back beside the answer.
///
/// The items are judged in the order in which the workers draw seqnos, and each stands in the order once. Each line that is written is of
/// an item that is durable.
///
/// Refuses with `Undefined` where the replica belongs to no cluster; then as `Replica::settle` does; then a line as `read_order_line` does, want
/// of memory with `OutOfMemory`, and with `StreamFault` a reader that fails, which it notes, and a text of more than 67,108,864 bytes: nothing was handed in
/// then, and no line is written. Behind the lines of the durable items it refuses with `Stopped` where the node was halted, since its device
/// failed, a page of its base is not of its form, or there was no memory: which other items stand in the order the disk tells; with
/// `Exhausted` where there are no more seqnos than items left, and with `OutOfMemory` where there was no memory for the workers, and then no item
/// stands in the order; and with `OutOfMemory` too where there is none for the line of the state. Refuses with `StreamFault` where
/// the writer fails, which it notes.
///
/// It is not promised that it returns.
pub fn serve_text<T: Threads + Wait + Sync, D: Disk + Send, R: Source, W: Sink>(
    rt: &T,
    alloc: Global,
    mut replica: Replica<D>,
    workers: usize,
    reader: &mut R,
    writer: &mut W,
) -> (Replica<D>, Result<(), Refusal>)
    requires { (0 < workers) × (workers ≤ 64) }
    ensures undefined { IsTrue (is_nil_bytes replica.engine.checkpoint.base.uuid) → (result ≡ (replica, Err Refusal.Undefined)) × Keeps (W.contents writer.old) (W.contents writer.new) }
    ensures stopped { IsFalse (is_nil_bytes replica.engine.checkpoint.base.uuid) → (replica.stopped || is_some replica.engine.halted) ≡ true → (result ≡ (replica, Err Refusal.Stopped)) × Keeps (W.contents writer.old) (W.contents writer.new) }
    ensures serves { IsFalse (is_nil_bytes replica.engine.checkpoint.base.uuid) → (replica.stopped || is_some replica.engine.halted) ≡ false → Serves D.Disk (R.remaining reader.old) replica result.0 (W.contents writer.old) (W.contents writer.new) result.1 }
    // A stream fault is one of the streams, or the text is too long.
    ensures notes { NotesBoth (IsLongText (R.remaining reader.old)) (R.failed reader.old) (R.failed reader.new) (W.failed writer.old) (W.failed writer.new) result.1 }
{
    if replica.uuid().is_nil() {
        return (replica, Err(Refusal::Undefined));
    }
    if let Err(refusal) = replica.settle() {
        return (replica, Err(refusal));
    }
    serve_settled(rt, alloc, replica, workers, reader, writer)
}
