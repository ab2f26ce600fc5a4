//! A transfer that a running node writes under a name.

ghost use Rattle.std.specs.Prelude.{◌≡◌, ◌≢◌, true, is_some, Err};
ghost use Rattle.rep_types.specs.declared.refusal.Part.{Part};
ghost use Rattle.rep_steps.specs.Nodes.{Node};
ghost use Rattle.rep_replica.specs.Holding.{Holds};
ghost use Rattle.rep_replica.specs.Asking.{IsAsked};

use crate::exchange::Exchange;
use rep_disk::Disk;
use rep_replica::Replica;
use rep_script::{donate, donation_refusal};
use rep_transfer::Have;
use rep_types::Refusal;

/// Writes for the joiner what it lacks, and keeps it where it is whole.
fn donate_to<D: Disk, E: Exchange>(
    replica: &mut Replica<D>,
    exchange: &mut E,
    have: &Have,
    mut out: E::Out,
) -> Result<u64, Refusal>
    // The device was asked, and nothing else was done.
    ensures asked { IsAsked D.Disk replica.old replica.new }
    // The device's fault is told exactly where it stopped the replica.
    ensures stops { result ≡ Err Refusal.DiskFault → is_some replica.new.engine.halted ≡ true }
    ensures runs { result ≢ Err Refusal.DiskFault → replica.new.engine.halted ≡ replica.old.engine.halted }
    // An honest device of a node shows nothing that is not of its form.
    ensures whole { (n : Node) → Holds D.Disk n replica.old → (part : Part) → result ≢ Err (Refusal.Corrupt part) }
{
    match donate(replica, have, &mut out) {
        Ok(last) => match exchange.keep(out) {
            Ok(()) => Ok(last),
            Err(refusal) => Err(refusal),
        },
        Err(refusal) => {
            exchange.discard(out);
            Err(refusal)
        }
    }
}

/// Writes for the joiner what it lacks under the name, once nothing else refuses it.
fn donate_named<D: Disk, E: Exchange>(
    replica: &mut Replica<D>,
    exchange: &mut E,
    have: &Have,
    name: &[u8],
) -> Result<u64, Refusal>
    // The device was asked, and nothing else was done.
    ensures asked { IsAsked D.Disk replica.old replica.new }
    // The device's fault is told exactly where it stopped the replica.
    ensures stops { result ≡ Err Refusal.DiskFault → is_some replica.new.engine.halted ≡ true }
    ensures runs { result ≢ Err Refusal.DiskFault → replica.new.engine.halted ≡ replica.old.engine.halted }
    // An honest device of a node shows nothing that is not of its form.
    ensures whole { (n : Node) → Holds D.Disk n replica.old → (part : Part) → result ≢ Err (Refusal.Corrupt part) }
{
    if let Some(refusal) = donation_refusal(replica, have) {
        return Err(refusal);
    }
    match exchange.begin(name) {
        Ok(out) => donate_to(replica, exchange, have, out),
        Err(refusal) => Err(refusal),
    }
}

/// Writes for the joiner that has what stands under the first name what it lacks of the order, under the second one: it stands there only where it
/// is whole. Answers the position that the joiner then has.
///
/// Refuses what the joiner has as `read_have` does; then, in this order, as `donation_refusal` does; as `begin` does; as `donate` does; and as
/// `keep` does.
pub(crate) fn donate_between<D: Disk, E: Exchange>(
    replica: &mut Replica<D>,
    exchange: &mut E,
    have: &[u8],
    name: &[u8],
) -> Result<u64, Refusal>
    // The device was asked, and nothing else was done.
    ensures asked { IsAsked D.Disk replica.old replica.new }
    // The device's fault is told exactly where it stopped the replica.
    ensures stops { result ≡ Err Refusal.DiskFault → is_some replica.new.engine.halted ≡ true }
    ensures runs { result ≢ Err Refusal.DiskFault → replica.new.engine.halted ≡ replica.old.engine.halted }
    // An honest device of a node shows nothing that is not of its form.
    ensures whole { (n : Node) → Holds D.Disk n replica.old → (part : Part) → result ≢ Err (Refusal.Corrupt part) }
{
    match exchange.read_have(have) {
        Ok(have) => donate_named(replica, exchange, &have, name),
        Err(refusal) => Err(refusal),
    }
}
