//! The saved state of a replica.

ghost use Rattle.std.specs.Prelude.{◌≡◌, ◌↔◌, ◌⊎◌, ℕ, [], take, Err, IfErr, OnOk, OnErr, IsTrue};
ghost use Rattle.std.specs.Option.{option_copied};
ghost use Rattle.std.specs.Io.KnownBytes.{Appends};
ghost use Rattle.rep_catchup.specs.Engines.{gtid_of};
ghost use Rattle.rep_streams.specs.Streams.{Notes};
ghost use Rattle.rep_script.specs.States.{IsOfAnother, node_text};

use rep_catchup::Replica;
use rep_disk::Disk;
use rep_saved::SavedState;
use rep_streams::Sink;
use rep_types::{Gtid, Refusal};

/// Whether the saved state is of another cluster than a node at this GTID: it names a cluster, and not the node's.
fn is_of_another(saved: Option<&SavedState>, gtid: Gtid) -> bool
    ensures { IsTrue result ↔ IsOfAnother (option_copied saved.entry) gtid.uuid }
{
    let Some(saved) = saved else {
        return false;
    };
    let uuid = saved.gtid.uuid();
    !uuid.is_nil() && uuid != gtid.uuid()
}

/// Writes the state of the replica as a text that operators and tools read: its GTID, at what is durable, and that it is
/// not safe to bootstrap from it. A saved state is compared with it, if there is one: only its UUID counts, since the
/// position is the disk's.
///
/// Refuses with `WrongCluster` where the saved state names another cluster, and then writes nothing; the nil UUID names
/// none. Refuses with `StreamFault` where the writer fails, which it notes, and has then taken a front of the text.
pub fn state_text<D: Disk, W: Sink>(
    replica: &Replica<D>,
    saved: Option<&SavedState>,
    writer: &mut W,
) -> Result<(), Refusal>
    ensures written { OnOk result (Appends (W.contents writer.old) (W.contents writer.new) (node_text (gtid_of replica.now.engine))) }
    ensures another { (result ≡ Err Refusal.WrongCluster) ↔ IsOfAnother (option_copied saved.entry) (gtid_of replica.now.engine).uuid }
    ensures nothing { result ≡ Err Refusal.WrongCluster → Appends (W.contents writer.old) (W.contents writer.new) [] }
    ensures cut { OnErr result ((k : ℕ) × Appends (W.contents writer.old) (W.contents writer.new) (take k (node_text (gtid_of replica.now.engine)))) }
    ensures notes { Notes (W.failed writer.old) (W.failed writer.new) result }
    ensures refused { IfErr result (λ refusal. (refusal ≡ Refusal.WrongCluster) ⊎ (refusal ≡ Refusal.StreamFault)) }
{
    let gtid = replica.gtid();
    if is_of_another(saved, gtid) {
        return Err(Refusal::WrongCluster);
    }
    let state = SavedState {
        gtid,
        safe_to_bootstrap: false,
    };
    state.write_to(writer)
}
