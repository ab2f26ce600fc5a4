//! Laws of a node that follows an order, each as the contract of a function that does nothing.

ghost use Rattle.rep_follow.specs.Joining.{PartsAreJoined, GoingIsJoined};
ghost use Rattle.rep_follow.specs.Followers.{FollowersFollowTheOrder};

use rep_disk::Disk;
use rep_replica::{asks_are_given_up, lives_with_snapshots_follow_the_order, runs_are_joined};
use rep_steps::{nodes_hold_the_order, runs_answer_the_order, runs_come_to};

/// Parts of a node's life one after another are one part. One in which nothing was done, in which the device was asked and nothing else was done,
/// or in which a row was read delivers nothing and gives no reply. So who asks a replica between the calls of this crate has one life of them all.
///
/// A part that began at a node of an order leads to a node of it, with the items that were delivered; and its receipts are the order's replies.
pub fn parts_are_joined<D: Disk>()
    ensures { PartsAreJoined D.Disk }
{
    asks_are_given_up::<D>();
    runs_are_joined::<D>();
    nodes_hold_the_order();
    runs_come_to();
    runs_answer_the_order();
}

/// The same of what is told and counted: the receipts of two parts stand one behind another, and their counters add up. Nothing is told or counted
/// where the device was asked or a row was read.
pub fn going_is_joined<D: Disk>()
    ensures { GoingIsJoined D.Disk }
{
    asks_are_given_up::<D>();
    runs_are_joined::<D>();
}

/// A node is opened on a device, is fed the lines of an order by `follow_items` and the calls beside it, and is stopped at any moment, any
/// number of times; then it is opened on what the stop left and fed the order again, from any position on that is not above what is durable there.
///
/// Then opening the disk gives a front of the order, of what was delivered by then, and with each item whose receipt was given in any of these
/// lives. Fed the rest of the lines it gives the verdicts, the receipts and the rows of a node that never stopped.
///
/// The first image stands for a front of the order, as one does that was just formatted, of the empty one.
pub fn followers_follow_the_order<D: Disk>()
    ensures { FollowersFollowTheOrder D.Disk }
{
    lives_with_snapshots_follow_the_order::<D>();
}
