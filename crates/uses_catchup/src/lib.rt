//! A client of catch-up, proved from its public contracts alone: a node that joins, or was away, is brought up to date by another one,
//! through memory.
#![tactic(auto)]

ghost use Rattle.std.specs.Prelude.{◌≡◌, ◌≢◌, ◌⊎◌, [], true, false, None, Err, IfOk, IfErr, OnOk};
ghost use Rattle.rep_types.specs.Order.{Order};
ghost use Rattle.rep_types.specs.declared.refusal.Refusal.TheVariants.{OutOfMemory, DiskFault, StreamFault};
ghost use Rattle.rep_disk.specs.Calls.{Rises};
ghost use Rattle.rep_steps.specs.Nodes.{Node};
ghost use Rattle.rep_replica.specs.Replicas.{facts_of};
ghost use Rattle.rep_replica.specs.Holding.{Holds};
ghost use Rattle.rep_transfer.specs.declared.have.Have.{Have as What};
ghost use Rattle.rep_transfer.specs.Transfers.{Transfer, transfer_bytes};
ghost use Rattle.rep_catchup.specs.Donating.{IsFirstRefusal, IsDonated};
ghost use Rattle.uses_catchup.specs.CatchingUp.{MayCatchUp, IsGiven, CaughtUp};

use rep_catchup::{donate, donated_parts_come_next, have, join, joiners_hold_the_order};
use rep_disk::Disk;
use rep_replica::{Replica, certifiers_judge_as_nodes};
use rep_streams::{MemorySink, MemorySource};
use rep_transfer::{Have, parts_are_told, transfers_are_told};
use rep_types::Refusal;
use std::alloc::Global;

/// What a donor's refusal tells where the sink is memory, which fails only for want of room.
fn in_memory(refusal: Refusal) -> Refusal
    ensures { ((refusal ≡ StreamFault) × (result ≡ OutOfMemory)) ⊎ ((refusal ≢ StreamFault) × (result ≡ refusal)) }
{
    match refusal {
        Refusal::StreamFault => Refusal::OutOfMemory,
        other => other,
    }
}

/// Writes what the joiner lacks into memory that holds nothing yet.
///
/// Refuses with `OutOfMemory` where that has no room, and else as `donate` does.
fn give<D: Disk>(donor: &mut Replica<D>, have: &Have, room: &mut MemorySink) -> Result<(), Refusal>
    requires { room.old ≡ record { bytes = []; failed = false } }
    ensures given { (n : Node) → Holds D.Disk n donor.old → OnOk result ((t : Transfer) × IsDonated n have.now t × (room.new.bytes ≡ transfer_bytes t)) }
    ensures refused { (n : Node) → Holds D.Disk n donor.old → IsFirstRefusal (facts_of D.Disk donor.old) have.now None → IfErr result (λ e. (e ≡ OutOfMemory) ⊎ (e ≡ DiskFault)) }
    ensures donor { (n : Node) → Holds D.Disk n donor.old → result ≢ Err DiskFault → Holds D.Disk n donor.new }
    ensures fault { result ≡ Err DiskFault → Rises (D.failures donor.old.engine.disk) (D.failures donor.new.engine.disk) }
    // It is refused for want of room only where the sink noted that it found none.
    ensures short { IsFirstRefusal (facts_of D.Disk donor.old) have.now None → result ≡ Err OutOfMemory → room.new.failed ≡ true }
{
    match donate(donor, have, room) {
        Ok(_) => Ok(()),
        Err(refusal) => Err(in_memory(refusal)),
    }
}

/// Takes these bytes, which a donor gave the joiner for what it has.
fn take<D: Disk>(
    alloc: Global,
    joiner: Replica<D>,
    bytes: &[u8],
) -> (Replica<D>, Result<u64, Refusal>)
    ensures caught { (O : Order) (n k : Node) (have : What) (t : Transfer) → IsGiven O n k have t → bytes.now ≡ transfer_bytes t → Holds D.Disk k joiner → IfOk result.1 (CaughtUp D.Disk O n result.0) }
    ensures refused { (O : Order) (n k : Node) (have : What) (t : Transfer) → IsGiven O n k have t → bytes.now ≡ transfer_bytes t → Holds D.Disk k joiner → IfErr result.1 (λ e. (e ≡ OutOfMemory) ⊎ (e ≡ DiskFault)) }
    ensures fault { result.1 ≡ Err DiskFault → Rises (D.failures joiner.engine.disk) (D.failures result.0.engine.disk) }
{
    transfers_are_told();
    parts_are_told();
    joiners_hold_the_order();
    donated_parts_come_next();
    let mut transfer = MemorySource::new(bytes);
    let (joined, taken) = join(alloc, joiner, &mut transfer);
    certifiers_judge_as_nodes(&joined);
    (joined, taken)
}

/// Brings the joiner up to the donor: it says what it has, the donor writes what it lacks into memory, and it takes that. Both answer the
/// same position, which is what is durable at the donor.
///
/// Where the joiner is of a front of the donor's order, all of it durable, or of no cluster yet, it then holds the donor's order up to what
/// is durable there, and is refused for want of memory or a failed device alone, with `OutOfMemory` or `DiskFault`: for none of what was
/// written, since memory as a stream fails only for want of room.
pub fn caught_up<D: Disk, E: Disk>(
    alloc: Global,
    donor: &mut Replica<D>,
    joiner: Replica<E>,
) -> (Replica<E>, Result<u64, Refusal>)
    ensures caught { (O : Order) (n k : Node) → MayCatchUp O n k → Holds D.Disk n donor.old → Holds E.Disk k joiner → IfOk result.1 (CaughtUp E.Disk O n result.0) }
    ensures refused { (O : Order) (n k : Node) → MayCatchUp O n k → Holds D.Disk n donor.old → Holds E.Disk k joiner → IfErr result.1 (λ e. (e ≡ OutOfMemory) ⊎ (e ≡ DiskFault)) }
    // Unless a device failed, the donor stands for the node that it stood for.
    ensures donor { (n : Node) → Holds D.Disk n donor.old → result.1 ≢ Err DiskFault → Holds D.Disk n donor.new }
    ensures fault { result.1 ≡ Err DiskFault → Rises (D.failures donor.old.engine.disk) (D.failures donor.new.engine.disk) ⊎ Rises (E.failures joiner.engine.disk) (E.failures result.0.engine.disk) }
{
    let have = have(&joiner);
    let mut room = MemorySink::new(alloc);
    match give(donor, &have, &mut room) {
        Ok(()) => take(alloc, joiner, room.bytes()),
        Err(refusal) => (joiner, Err(refusal)),
    }
}
