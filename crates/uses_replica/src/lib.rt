//! A client of the replica, proved from its public contracts alone: a disk is opened, used and taken out
//! again, any number of times, and what it answers all the while follows one order.
#![tactic(auto)]

mod blocks;
mod install;

ghost use Rattle.std.specs.Prelude.{IfOk, IfErr};
ghost use Rattle.uses_replica.specs.Living.{LivesOnce, IsUnlived, LivesOn, LivesUntil};

pub use blocks::commit;
pub use install::{Pages, bring, installed_nodes_go_on};
use rep_disk::{Disk, images_of_a_moment, moments_of_calls};
use rep_recover::reasons_exclude_meanings;
use rep_replica::{Replica, lives_follow_the_order, runs_are_joined, stopped_replicas_hold};
use rep_steps::{Answer, Event};
use rep_types::Refusal;
use std::alloc::Global;

/// Opens the disk, does these events, and takes the disk out again.
///
/// Refuses what `Replica::open` refuses, and with `OutOfMemory` where there is no room for the answers. Then none of the
/// events was done, and an honest disk comes back reading as it did.
pub fn live_once<D: Disk>(
    alloc: Global,
    disk: D,
    events: &[Event],
) -> Result<(D, Vec<Answer>), (D, Refusal)>
    ensures lived { D.honest disk → IfOk result (λ r. LivesOnce D.Disk disk events.now r.1.items r.0) }
    ensures refused { D.honest disk → IfErr result (λ x. IsUnlived D.Disk disk x.1 x.0) }
{
    runs_are_joined::<D>();
    stopped_replicas_hold::<D>();
    images_of_a_moment();
    moments_of_calls();
    let mut replica = Replica::open(alloc, disk)?;
    match replica.run(alloc, events) {
        Ok(answers) => Ok((replica.into_disk(), answers)),
        Err(refusal) => Err((replica.into_disk(), refusal)),
    }
}

/// Does so with each of these lists of events, and gives all answers, and the disk as the last of these lives left it.
///
/// On an honest disk that stands for a front of an order, as one does that was just formatted, and with the
/// rest of the order delivered from where each opening stands: each opening gives the rows, the GTID and the window
/// after a front of that order with each item that was replied to, and verdicts, replies and rows are those
/// of a node that never stopped.
///
/// Refuses what `Replica::open` refuses, at the first opening that is refused, and with `OutOfMemory` where there is no
/// room for the answers. An honest disk comes back as the last life that was lived left it. On such a disk, with the order
/// so delivered, it refuses with `OutOfMemory` or `DiskFault` alone, never for what the disk reads.
pub fn live<D: Disk>(
    alloc: Global,
    disk: D,
    lives: &[Vec<Event>],
) -> Result<(D, Vec<Vec<Answer>>), (D, Refusal)>
    ensures lived { D.honest disk → IfOk result (λ r. LivesOn D.Disk disk lives.now r.1.items r.0) }
    ensures refused { D.honest disk → IfErr result (λ x. LivesUntil D.Disk disk lives.now x.1 x.0) }
{
    lives_follow_the_order::<D>();
    reasons_exclude_meanings();
    let mut disk = disk;
    let mut told = Vec::new(alloc);
    for events in lives {
        let (next, answers) = live_once(alloc, disk, events.as_slice())?;
        disk = next;
        if told.push(answers).is_err() {
            return Err((disk, Refusal::OutOfMemory));
        }
    }
    Ok((disk, told))
}
