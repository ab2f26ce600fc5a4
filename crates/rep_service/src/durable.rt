//! What an item is answered by that is durable already.

ghost use Rattle.std.specs.Prelude.{◌≡◌, ◌≢◌, ◌⊎◌, ℕ, take, Err, IfErr, OnOk, OnErr};
ghost use Rattle.std.specs.Io.KnownBytes.{Appends};
ghost use Rattle.rep_streams.specs.Streams.{Notes};
ghost use Rattle.rep_service.specs.Lines.{old_line};
ghost use Rattle.rep_service.specs.Passing.{TellsDurable};

use crate::line::{Line, put_number, put_text};
use crate::same::is_item;
use rep_follow::write_receipts;
use rep_streams::Sink;
use rep_types::{Item, Judged, Refusal};

/// The line of an item at or below the base.
fn old_line(seqno: u64) -> Line
    ensures { result.items ≡ old_line seqno }
{
    let mut line = Line::new();
    put_text(&mut line, b"old ");
    put_number(&mut line, seqno);
    put_text(&mut line, b"\n");
    line
}

/// Writes the line of an item at or below the base: `old` and its seqno. The log has it no more.
///
/// Refuses with `StreamFault` a writer that fails, which it notes, and has then taken a front of the line.
pub(crate) fn write_old<W: Sink>(writer: &mut W, seqno: u64) -> Result<(), Refusal>
    ensures ok { OnOk result (Appends (W.contents writer.old) (W.contents writer.new) (old_line seqno)) }
    ensures cut { OnErr result ((k : ℕ) × Appends (W.contents writer.old) (W.contents writer.new) (take k (old_line seqno))) }
    ensures notes { Notes (W.failed writer.old) (W.failed writer.new) result }
    ensures refused { IfErr result (λ e. e ≡ Refusal.StreamFault) }
{
    writer.put(old_line(seqno).as_slice())
}

/// Writes the receipt of an item behind the base, which is durable: that of the log's record of its seqno, where the record is of this very item,
/// its labels too.
///
/// Refuses with `WrongCluster` another item: the text is not of the order that the disk has. Nothing is written then. And with `StreamFault` a
/// writer that fails, which it notes, and has then taken a front of the receipt's line.
pub(crate) fn answer_durable<W: Sink>(
    judged: &Judged,
    item: &Item,
    writer: &mut W,
) -> Result<(), Refusal>
    ensures only { OnOk result (item.now ≡ judged.now.item) }
    ensures same { item.now ≡ judged.now.item → TellsDurable judged.now (W.contents writer.old) (W.contents writer.new) result }
    ensures another { item.now ≢ judged.now.item → (result ≡ Err Refusal.WrongCluster) × (writer.new ≡ writer.old) }
    // One of the two it is.
    ensures either { IfErr result (λ e. ((e ≡ Refusal.WrongCluster) × (item.now ≢ judged.now.item) × (W.contents writer.new ≡ W.contents writer.old)) ⊎ ((item.now ≡ judged.now.item) × TellsDurable judged.now (W.contents writer.old) (W.contents writer.new) (Err e))) }
    ensures notes { Notes (W.failed writer.old) (W.failed writer.new) result }
{
    if !is_item(item, &judged.item) {
        return Err(Refusal::WrongCluster);
    }
    write_receipts(writer, &[judged.reply()])
}
