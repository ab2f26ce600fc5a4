//! The limits of a replica's window.

ghost use Rattle.std.specs.Prelude.{◌≡◌, ◌⊎◌, IfErr};
ghost use Rattle.rep_cert.specs.Holdings.{window_of};
ghost use Rattle.rep_catchup.specs.Engines.{durable_of};
ghost use Rattle.rep_steps.specs.Nodes.{Node, window_at};
ghost use Rattle.rep_catchup.specs.Holding.{Holds};
ghost use Rattle.rep_streams.specs.Streams.{Notes};
ghost use Rattle.rep_script.specs.Answering.{Tells, limits_line};

use crate::answers::write_line;
use crate::refused::write_refused;
use rep_catchup::Replica;
use rep_disk::Disk;
use rep_streams::Sink;
use rep_types::{Refusal, Window};
use std::alloc::Global;

/// Writes the line of this window's limits: how many seqnos it spans, and its floor, the least seqno that it can hold.
///
/// Refuses with `StreamFault` a writer that fails, which it notes, and has then taken a front of the line.
pub fn write_limits<W: Sink>(writer: &mut W, window: &Window) -> Result<(), Refusal>
    ensures told { Tells (limits_line window.now) (W.contents writer.old) (W.contents writer.new) result }
    ensures notes { Notes (W.failed writer.old) (W.failed writer.new) result }
    ensures refused { IfErr result (λ refusal. refusal ≡ Refusal.StreamFault) }
{
    let size = window.size().get();
    let floor = window.floor();
    write_line(writer, format_args!("size {size} floor {floor}"))
}

/// Writes the line of the limits of the replica's window, at what is durable.
///
/// Refuses with `OutOfMemory` where there is no room for the window, and then writes nothing; and with `StreamFault` a
/// writer that fails, which it notes, and has then taken a front of the line.
fn write_limits_of<D: Disk, W: Sink>(
    alloc: Global,
    replica: &Replica<D>,
    writer: &mut W,
) -> Result<(), Refusal>
    ensures told { Tells (limits_line (window_of replica.now.certifier.current (durable_of replica.now.engine.log))) (W.contents writer.old) (W.contents writer.new) result }
    // Of a replica that stands for a node it is the node's.
    ensures node { (n : Node) → Holds D.Disk n replica.now → Tells (limits_line (window_at n n.facts.durable)) (W.contents writer.old) (W.contents writer.new) result }
    ensures notes { Notes (W.failed writer.old) (W.failed writer.new) result }
    ensures refused { IfErr result (λ refusal. (refusal ≡ Refusal.OutOfMemory) ⊎ (refusal ≡ Refusal.StreamFault)) }
{
    let window = replica.window(alloc)?;
    write_limits(writer, &window)
}

/// Writes the line of the limits of the replica's window, at what is durable; where there is no room for the window, the
/// line of that refusal.
///
/// Refuses with `StreamFault` a writer that fails, which it notes.
pub(crate) fn answer_limits<D: Disk, W: Sink>(
    alloc: Global,
    replica: &Replica<D>,
    writer: &mut W,
) -> Result<(), Refusal>
    ensures notes { Notes (W.failed writer.old) (W.failed writer.new) result }
    ensures refused { IfErr result (λ refusal. refusal ≡ Refusal.StreamFault) }
{
    match write_limits_of(alloc, replica, writer) {
        Ok(()) => Ok(()),
        Err(Refusal::StreamFault) => Err(Refusal::StreamFault),
        Err(refusal) => write_refused(writer, refusal),
    }
}
