//! The lines of receipts.

ghost use Rattle.std.specs.Prelude.{◌≡◌, true, ℕ, ◌<◌, [], length, take, Some, IfErr, OnOk, OnErr};
ghost use Rattle.std.specs.Io.KnownBytes.{Appends};
ghost use Rattle.rep_streams.specs.Streams.{Notes};
ghost use Rattle.rep_record.specs.Lines.{NotesText};
ghost use Rattle.rep_ordered.specs.Views.{Every};
ghost use Rattle.rep_node.specs.declared.batch.Receipt.{Receipt as Told};
ghost use Rattle.rep_script.specs.Answering.{Answered};
ghost use Rattle.rep_serve.specs.Serving.{receipt_line, receipt_lines};

use rep_node::Receipt;
use rep_script::{Waiting, send, write_line};
use rep_streams::Sink;
use rep_types::{Item, Refusal};

/// More bytes than the line of a receipt has.
const LONGEST: usize = 128;

/// Writes the lines that wait where the next one may have no room behind them.
///
/// Refuses with `StreamFault` where the writer fails, which it notes.
fn make_room<W: Sink>(writer: &mut W, waiting: &mut Waiting) -> Result<(), Refusal>
    ensures sent { OnOk result (Answered (W.contents writer.old) (W.contents writer.new) waiting.new.bytes waiting.old.bytes) }
    ensures cut { OnErr result ((k : ℕ) × Answered (W.contents writer.old) (W.contents writer.new) waiting.new.bytes (take k waiting.old.bytes)) }
    ensures notes { Notes (W.failed writer.old) (W.failed writer.new) result }
    ensures err { IfErr result (λ refusal. refusal ≡ Refusal.StreamFault) }
{
    if waiting.room() < LONGEST {
        send(writer, waiting)?;
    }
    Ok(())
}

/// Puts the line of the receipt, with the labels of its item, behind the lines that wait.
///
/// Refuses with `StreamFault` a line without room, which those that wait note.
fn put_receipt(item: &Item, receipt: &Receipt, waiting: &mut Waiting) -> Result<(), Refusal>
    ensures ok { OnOk result (Appends (Some waiting.old.bytes) (Some waiting.new.bytes) (receipt_line receipt.now item.now)) }
    ensures cut { OnErr result ((k : ℕ) × Appends (Some waiting.old.bytes) (Some waiting.new.bytes) (take k (receipt_line receipt.now item.now))) }
    ensures notes { Notes waiting.old.failed waiting.new.failed result }
    ensures err { IfErr result (λ refusal. refusal ≡ Refusal.StreamFault) }
{
    let text = format_args!(
        "{} {} {}:{}",
        receipt.seqno,
        receipt.verdict,
        item.source(),
        item.trx()
    );
    write_line(waiting, text)
}

/// Puts the lines of these receipts, each with the labels of its item, behind those that wait. The last lines wait.
///
/// Refuses with `StreamFault` where the writer fails, which it notes.
fn put_receipts<W: Sink>(
    items: &[Item],
    receipts: &[Receipt],
    writer: &mut W,
    waiting: &mut Waiting,
) -> Result<(), Refusal>
    requires places { Every (λ (r : Told). r.index < length items.now) receipts.now }
    requires none { waiting.old.bytes ≡ [] }
    ensures ok { OnOk result (Answered (W.contents writer.old) (W.contents writer.new) waiting.new.bytes (receipt_lines items.now receipts.now)) }
    ensures cut { OnErr result ((k : ℕ) × Answered (W.contents writer.old) (W.contents writer.new) waiting.new.bytes (take k (receipt_lines items.now receipts.now))) }
    // A line without room may be the fault too: the writer is told of it where the last lines are sent.
    ensures notes { NotesText (waiting.new.failed ≡ true) (W.failed writer.old) (W.failed writer.new) result }
    ensures err { IfErr result (λ refusal. refusal ≡ Refusal.StreamFault) }
{
    for receipt in receipts {
        make_room(writer, waiting)?;
        put_receipt(&items[receipt.index], receipt, waiting)?;
    }
    Ok(())
}

/// Writes the lines of these receipts, each with the labels of its item.
///
/// Refuses with `StreamFault` where the writer fails, which it notes, and has then taken a front of the lines.
pub(crate) fn write_receipts<W: Sink>(
    items: &[Item],
    receipts: &[Receipt],
    writer: &mut W,
) -> Result<(), Refusal>
    requires { Every (λ (r : Told). r.index < length items.now) receipts.now }
    ensures ok { OnOk result (Appends (W.contents writer.old) (W.contents writer.new) (receipt_lines items.now receipts.now)) }
    ensures cut { OnErr result ((k : ℕ) × Appends (W.contents writer.old) (W.contents writer.new) (take k (receipt_lines items.now receipts.now))) }
    ensures notes { Notes (W.failed writer.old) (W.failed writer.new) result }
    ensures err { IfErr result (λ refusal. refusal ≡ Refusal.StreamFault) }
{
    let mut waiting = Waiting::new();
    let outcome = put_receipts(items, receipts, writer, &mut waiting);
    send(writer, &mut waiting)?;
    outcome
}
