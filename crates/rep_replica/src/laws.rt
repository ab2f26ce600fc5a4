//! Laws of replicas, each as the contract of a function that does nothing.

ghost use Rattle.rep_replica.specs.Holding.{LeavesItsEnds, JudgesAsItsNode};
ghost use Rattle.rep_replica.specs.Running.{RunsAreJoined, RunsFollowTheOrder};
ghost use Rattle.rep_replica.specs.Reading.{ReadsForgetNothing};
ghost use Rattle.rep_replica.specs.Stopping.{StoppedReplicasHold, StopsLeaveWhatHolds};
ghost use Rattle.rep_replica.specs.Lives.{LivesFollowTheOrder};
ghost use Rattle.rep_replica.specs.Episodes.{LivesWithSnapshotsFollowTheOrder};
ghost use Rattle.rep_replica.specs.Asking.{AsksAreGivenUp};

use crate::replica::Replica;
use rep_disk::{Disk, moments_of_calls};
use rep_recover::{images_mean_one_thing, running_engines_leave_their_ends};
use rep_steps::{
    fronts_stand_for_the_order, nodes_hold_the_order, nodes_outlast_failures,
    runs_answer_the_order, runs_come_to, steps_follow_the_order,
};
use rep_types::history_by_items;

/// What a run of an order is, step by step.
fn runs_follow_the_order()
    ensures { RunsFollowTheOrder }
{
    nodes_hold_the_order();
    steps_follow_the_order();
    runs_come_to();
    runs_answer_the_order();
}

/// What a stop leaves, and what is opened on that.
fn stops_leave_what_holds<D: Disk>()
    ensures { StopsLeaveWhatHolds D.Disk }
{
    images_mean_one_thing();
    stopped_replicas_hold::<D>();
    moments_of_calls();
}

/// A replica is opened on a device, runs events, and is stopped at any moment, within a call or between
/// two; then it is opened on what the stop left, any number of times, whatever the device does meanwhile; and
/// what is delivered to it are the items of one order, each time from where it stands.
///
/// Then opening the disk gives the rows, the GTID and the window after a front of that order: of what was
/// delivered by then, and with each item to whose origin any of these lives replied. Fed the rest of the order, it
/// gives the verdicts, the replies, each once within a life, and the rows of a node that never stopped. And what a
/// stop leaves stands for such a front again. A reply counts once the call that gave it returned.
///
/// The first image stands for a front of the order, as one does that was just formatted, of the empty one.
pub fn lives_follow_the_order<D: Disk>()
    ensures { LivesFollowTheOrder D.Disk }
{
    runs_follow_the_order();
    stops_leave_what_holds::<D>();
}

/// A replica is opened on a device, runs events, and is stopped at any moment, any number of times, as in
/// `lives_follow_the_order`; and snapshots of its cluster come to it between the runs. Each is the state after a front
/// of the order, and above what was delivered, or the replica belongs to no cluster yet. It takes the base's place, or
/// is given up, or the device fails; and the stop comes within that too, at any moment.
///
/// Then opening the disk gives a front of the order again: of what was delivered or brought by then, and with all that
/// was durable behind the last answer, so with each item to whose origin any of these lives replied. A run gives the
/// verdicts, the replies and the rows of a node that never stopped, and a snapshot leads to where it is. A replica that
/// belonged to no cluster belongs to this one then, or still to none and has no item.
///
/// The first image stands for a front of the order, or is of no cluster, as one is that was formatted to join.
pub fn lives_with_snapshots_follow_the_order<D: Disk>()
    ensures { LivesWithSnapshotsFollowTheOrder D.Disk }
{
    runs_follow_the_order();
    stops_leave_what_holds::<D>();
    fronts_stand_for_the_order();
    history_by_items();
}

/// Where a replica on an honest device is not stopped, every image of the device means a front of what the
/// replica stands for that ends exactly at what is durable, or, while the gate of a block is opening, at that with
/// the whole block. So nothing that was only delivered comes back after a stop, and no part of a block.
pub fn running_replicas_leave_their_ends<D: Disk>(replica: &Replica<D>)
    ensures { LeavesItsEnds D.Disk replica.now }
{
    running_engines_leave_their_ends(&replica.engine);
}

/// What the certifier of a replica says of an item is what the node does that the replica stands for.
pub fn certifiers_judge_as_nodes<D: Disk>(replica: &Replica<D>)
    ensures { JudgesAsItsNode D.Disk replica.now }
{
    // For its clause: what holds of every replica.
    replica.durable();
}

/// A replica that stands for a node keeps, also where its device failed, that each image of the device means a front
/// of that node with what is durable. So does one around an engine that stands for a node, whoever stopped it and
/// whatever its other parts are: what `from_parts` puts together as stopped can be opened again, once `into_disk`
/// gave its device back.
pub fn stopped_replicas_hold<D: Disk>()
    ensures { StoppedReplicasHold D.Disk }
{
    nodes_hold_the_order();
    fronts_stand_for_the_order();
}

/// Runs of a replica one after another are one run: no event is a run, a step is a run of one event, and two runs,
/// the second from where the first led, are the run of both lists. So who drives a replica by `step`, `read` and
/// `settle` has a run, as `run` has.
pub fn runs_are_joined<D: Disk>()
    ensures { RunsAreJoined D.Disk }
{
    rep_steps::runs_are_joined::<Replica<D>>();
}

/// A read forgets nothing: an order whose rows the replica has behind it is one whose rows it had before, also where
/// the read met a fault of the device and stopped the replica. And a row that it answers is the row of each such
/// order.
pub fn reads_forget_nothing<D: Disk>()
    ensures { ReadsForgetNothing D.Disk }
{
    nodes_outlast_failures();
    steps_follow_the_order();
}

/// A call that asks the device and does nothing else, as those for a joiner, is a part of a life in which a snapshot is given up before any of it
/// came: the replica stands for the node that it stood for, which is stopped where its device failed, and a stop leaves what it would have
/// left before. So who drives a replica by events, and asks it between them, has a life.
pub fn asks_are_given_up<D: Disk>()
    ensures { AsksAreGivenUp D.Disk }
{}
