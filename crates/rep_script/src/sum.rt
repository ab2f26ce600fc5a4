//! The sum of a replica.

ghost use Rattle.std.specs.Prelude.{◌≡◌, IfErr};
ghost use Rattle.rep_types.specs.declared.refusal.Refusal.TheVariants.{StreamFault};
ghost use Rattle.rep_streams.specs.Streams.{Notes};
ghost use Rattle.rep_script.specs.Answering.{Tells};
ghost use Rattle.rep_script.specs.Summing.{sum_line, TellsSum, TakesSum};

use crate::answers::write_line;
use crate::refused::write_refused;
use rep_catchup::Replica;
use rep_disk::Disk;
use rep_streams::Sink;
use rep_sum::{Sum, sum_at};
use rep_types::Refusal;

/// Writes the line of a sum: its cluster and position, how many rows are there, and the digest.
///
/// Refuses with `StreamFault` a writer that fails, which it notes, and has then taken a front of the line.
pub fn write_sum<W: Sink>(writer: &mut W, sum: &Sum) -> Result<(), Refusal>
    ensures told { Tells (sum_line sum.now) (W.contents writer.old) (W.contents writer.new) result }
    ensures notes { Notes (W.failed writer.old) (W.failed writer.new) result }
    ensures refused { IfErr result (λ refusal. refusal ≡ StreamFault) }
{
    write_line(writer, format_args!("sum {sum}"))
}

/// Writes the line of the replica's sum at this position, or at what is durable.
///
/// Refuses as `sum_at` does, and then writes nothing; and with `StreamFault` a writer that fails, which it notes, and has then taken a
/// front of the line.
pub fn sum_text<D: Disk, W: Sink>(
    replica: &mut Replica<D>,
    position: Option<u64>,
    writer: &mut W,
) -> Result<(), Refusal>
    ensures told { TellsSum D.Disk position replica.old replica.new (W.contents writer.old) (W.contents writer.new) result }
    // A stream fault is the writer's.
    ensures notes { Notes (W.failed writer.old) (W.failed writer.new) result }
{
    let position = match position {
        Some(position) => position,
        None => replica.durable(),
    };
    let sum = sum_at(replica, position)?;
    write_sum(writer, &sum)
}

/// Writes the line of the replica's sum at this position, or at what is durable; where it is refused, the line of that refusal.
///
/// Refuses with `StreamFault` a writer that fails, which it notes.
pub fn answer_sum<D: Disk, W: Sink>(
    replica: &mut Replica<D>,
    position: Option<u64>,
    writer: &mut W,
) -> Result<(), Refusal>
    ensures takes { TakesSum D.Disk replica.old position replica.new }
    ensures notes { Notes (W.failed writer.old) (W.failed writer.new) result }
    ensures refused { IfErr result (λ refusal. refusal ≡ StreamFault) }
{
    match sum_text(replica, position, writer) {
        Ok(()) => Ok(()),
        Err(Refusal::StreamFault) => Err(Refusal::StreamFault),
        Err(refusal) => write_refused(writer, refusal),
    }
}
