//! What a donor, a joiner and who asks a node for its state say.

ghost use Rattle.std.specs.Prelude.{◌≡◌, ◌||◌, ◌⊎◌, ℕ, true, false, is_some, take, List, Option, Err, IfErr, IfOk, OnOk, OnErr};
ghost use Rattle.std.specs.Io.KnownBytes.{Appends, Keeps};
ghost use Rattle.rep_catchup.specs.Engines.{gtid_of};
ghost use Rattle.rep_steps.specs.Nodes.{Node};
ghost use Rattle.rep_record.specs.Lines.{NotesText};
ghost use Rattle.rep_transfer.specs.declared.have.Have.{Have};
ghost use Rattle.rep_transfer.specs.Haves.{have_bytes};
ghost use Rattle.rep_transfer.specs.Transfers.{Transfer, transfer_bytes};
ghost use Rattle.rep_catchup.specs.Growing.{EndsRunning, Tells as TellsOfDevice};
ghost use Rattle.rep_catchup.specs.Donating.{IsDonated};
ghost use Rattle.rep_catchup.specs.Haves.{have_of};
ghost use Rattle.rep_catchup.specs.Joining.{Lived, Ended};
ghost use Rattle.rep_streams.specs.Streams.{Notes};
ghost use Rattle.rep_script.specs.Answering.{NotesBoth, Tells};
ghost use Rattle.rep_script.specs.CatchingUp.{donated_line, joined_line, Donates, Taken};

use crate::answers::write_line;
use rep_catchup::{Replica, have, join};
use rep_disk::Disk;
use rep_streams::{Sink, Source};
use rep_types::Refusal;
use std::alloc::Global;

/// Writes what the node has, to be told to a donor: 67 bytes.
///
/// Refuses with `StreamFault` where the writer fails, which it notes, and has then taken a front of them.
pub fn write_have<D: Disk, W: Sink>(replica: &Replica<D>, writer: &mut W) -> Result<(), Refusal>
    ensures written { OnOk result (Appends (W.contents writer.old) (W.contents writer.new) (have_bytes (have_of replica.now))) }
    ensures cut { OnErr result ((k : ℕ) × Appends (W.contents writer.old) (W.contents writer.new) (take k (have_bytes (have_of replica.now)))) }
    ensures notes { Notes (W.failed writer.old) (W.failed writer.new) result }
    ensures refused { IfErr result (λ refusal. refusal ≡ Refusal.StreamFault) }
{
    match have(replica).write_bytes() {
        Some(bytes) => writer.put(bytes.as_slice()),
        None => unreachable!(),
    }
}

/// Writes the line `donated <position>` of what `donate` answered: of the position that the transfer, which was written, brings the joiner
/// to.
///
/// Refuses as `donate` did, and then writes no line; and with `StreamFault` where the writer fails, which it notes, and has then taken a front of it:
/// the transfer is whole then.
pub fn donated_text<W: Sink>(donated: Result<u64, Refusal>, writer: &mut W) -> Result<(), Refusal>
    ensures told { (last : ℕ) × Tells (donated_line last) (W.contents writer.old) (W.contents writer.new) result }
    ensures written { IfOk donated (λ last. Tells (donated_line last) (W.contents writer.old) (W.contents writer.new) result × IfErr result (λ refusal. refusal ≡ Refusal.StreamFault)) }
    // A stream fault is what `donate` answered, or the writer's.
    ensures notes { NotesText (donated ≡ Err Refusal.StreamFault) (W.failed writer.old) (W.failed writer.new) result }
    ensures refused { IfErr donated (λ e. (result ≡ Err e) × Keeps (W.contents writer.old) (W.contents writer.new)) }
    ensures unasked { OnErr donated (W.failed writer.new ≡ W.failed writer.old) }
    // Where what was written is what the joiner lacks, whole, as `donate` says on an honest device of a node, the line is that of this transfer.
    ensures whole { (n : Node) → (joiner : Have) → (before : Option (List ℕ)) → (after : Option (List ℕ)) → IfOk donated (λ last. (t : Transfer) × IsDonated n joiner t × (t.last ≡ last) × Appends before after (transfer_bytes t)) → Donates n joiner before after (W.contents writer.old) (W.contents writer.new) result }
{
    let last = donated?;
    write_line(writer, format_args!("donated {last}"))
}

/// Takes the transfer, and then writes the line `joined <gtid>`. The replica comes back beside the answer.
///
/// Refuses as `join` does, and then writes no line; and with `StreamFault` where the writer fails, which it notes, and has then taken a front of it:
/// the transfer was taken then.
pub fn join_text<D: Disk, R: Source, W: Sink>(
    alloc: Global,
    replica: Replica<D>,
    transfer: &mut R,
    writer: &mut W,
) -> (Replica<D>, Result<(), Refusal>)
    ensures told { Tells (joined_line (gtid_of result.0.engine)) (W.contents writer.old) (W.contents writer.new) result.1 }
    ensures stopped { (replica.stopped || is_some replica.engine.halted) ≡ true → (result ≡ (replica, Err Refusal.Stopped)) × Keeps (W.contents writer.old) (W.contents writer.new) }
    ensures ends { (replica.stopped || is_some replica.engine.halted) ≡ false → EndsRunning result.1 result.0 }
    // The device's fault is told exactly where there was one, and of no honest device of a node that a page is not of its form.
    ensures tells { TellsOfDevice D.Disk replica result.0 result.1 }
    ensures lived { Lived D.Disk replica result.0 }
    ensures joined { OnOk result.1 (Taken D.Disk replica result.0 (R.remaining transfer.old) (R.remaining transfer.new)) }
    // A stream fault is one of the streams.
    ensures notes { NotesBoth ⊥ (R.failed transfer.old) (R.failed transfer.new) (W.failed writer.old) (W.failed writer.new) result.1 }
    // Where it is refused, the transfer was not taken to its end, and nothing of the line was written: a stream fault is the transfer's then; or it
    // was, and the line's writer failed.
    ensures ended { (replica.stopped || is_some replica.engine.halted) ≡ false → IfErr result.1 (λ e. (Ended D.Disk replica result.0 (R.remaining transfer.old) e × Keeps (W.contents writer.old) (W.contents writer.new) × (e ≡ Refusal.StreamFault → R.failed transfer.new ≡ true) × (W.failed writer.new ≡ W.failed writer.old)) ⊎ ((e ≡ Refusal.StreamFault) × (W.failed writer.new ≡ true) × Taken D.Disk replica result.0 (R.remaining transfer.old) (R.remaining transfer.new))) }
{
    let (replica, joined) = join(alloc, replica, transfer);
    if let Err(refusal) = joined {
        return (replica, Err(refusal));
    }
    let gtid = replica.gtid();
    let told = write_line(writer, format_args!("joined {gtid}"));
    (replica, told)
}
