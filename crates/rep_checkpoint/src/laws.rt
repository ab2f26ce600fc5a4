//! Laws of the checkpoint, each as the contract of a function that does nothing.

ghost use Rattle.rep_checkpoint.specs.Nodes.{NodesLeaveTheirEnds, NodesLeaveTheirFronts, NodesSettle, VersionsLeadToTheState};
ghost use Rattle.rep_checkpoint.specs.Laws.{TheBaseInEveryImage, TheBaseStandsStill, TheBaseIsFound, TheLogIsApart, TheCheckpointIsApart, TheStageIsTheFacts, BytesTellThePage, StableBasesAreRead};
ghost use Rattle.rep_checkpoint.specs.Installing.{InstallationsSettle, TheOldBaseOrTheSnapshot};
ghost use Rattle.rep_checkpoint.specs.Arriving.{InstallationsLeaveTheOldOrTheNew, InstallationsMakeTheNode, InstallationsCanBeDropped, InstallationsStandBeside};

use rep_cells::places_read_as_shown;
use rep_image::{logs_end_in_their_node, the_synced_log_is_the_facts};
use rep_layout::{row_places_are_told, turns_are_taken};
use rep_log::the_log_in_every_image;
use rep_pages::pages_are_told;
use rep_pool::pages_are_places;
use rep_steps::judging_goes_on;
use rep_versions::versions_follow_the_items;

/// In every image, so after a stop, the base is the one that stands, or the next one while its superblock's gate
/// opens; and it is whole: superblock, window and pages.
pub fn the_base_in_every_image()
    ensures { TheBaseInEveryImage }
{
    turns_are_taken();
}

/// But while that gate opens the base stands as one that stands still, whatever is written beside it.
pub fn the_base_stands_still()
    ensures { TheBaseStandsStill }
{}

/// Where nothing is pending the checkpoint that `open` makes is that of the states which the bytes show.
pub fn the_base_is_found()
    ensures { TheBaseIsFound }
{}

/// What the log does leaves the checkpoint as it stands.
pub fn the_log_is_apart()
    ensures { TheLogIsApart }
{}

/// What the checkpoint does leaves the log as it stands.
pub fn the_checkpoint_is_apart()
    ensures { TheCheckpointIsApart }
{}

/// What the calls make of a checkpoint is what the events make of the facts of a replica.
pub fn the_stage_is_the_facts()
    ensures { TheStageIsTheFacts }
{}

/// Where a node stands on a device, whether a checkpoint is under way or not, every image means a front of it
/// that ends exactly at what is durable, or, while the gate of a block is opening, at that with the whole block:
/// nothing else that was delivered. While a superblock's gate opens, the base of what an image means is the old
/// one or the next one.
pub fn nodes_leave_their_ends()
    ensures { NodesLeaveTheirEnds }
{
    judging_goes_on();
    logs_end_in_their_node();
    the_base_in_every_image();
    the_log_in_every_image();
}

/// Where a node so stands, every image means a front of it that has what is durable.
pub fn nodes_leave_their_fronts()
    ensures { NodesLeaveTheirFronts }
{
    logs_end_in_their_node();
    nodes_leave_their_ends();
}

/// Where a node stands on a device before a sync, the node after it stands there when the sync succeeded, whether
/// it made a block durable, raised the base, or both.
pub fn nodes_settle()
    ensures { NodesSettle }
{
    judging_goes_on();
    the_synced_log_is_the_facts();
}

/// What the versions of a node's items say of the state that the first of them lead to: they make the base's
/// rows those of that state, and the pages with a change up to there are those that the items touched. So a
/// checkpoint that flushes these pages from the versions makes that state the base.
pub fn versions_lead_to_the_state()
    ensures { VersionsLeadToTheState }
{
    judging_goes_on();
    row_places_are_told();
    versions_follow_the_items();
}

/// What the bytes say of a page is one thing: where they have the page, none is bad there, and they have no other
/// rows. So a flush and a read, which answer by the bytes, have one answer on an honest device that does not fail.
pub fn the_bytes_tell_the_page()
    ensures { BytesTellThePage }
{
    pages_are_told();
}

/// What is read of a base that stands is its content: a page that the bytes have has its rows, and none is bad.
pub fn stable_bases_are_read()
    ensures { StableBasesAreRead }
{
    places_read_as_shown();
    pages_are_places();
    pages_are_told();
}

/// A sync that succeeds makes stable what was written of a snapshot; where the gate of its superblock was opened, that is the base, and
/// the superblock before it is to be closed.
pub fn installations_settle()
    ensures { InstallationsSettle }
{
    turns_are_taken();
}

/// In every image, so after a stop, while a snapshot is installed, the base is the one that stands, or the snapshot while its superblock's
/// gate opens; and it is whole: superblock, window and pages.
pub fn the_old_base_or_the_snapshot()
    ensures { TheOldBaseOrTheSnapshot }
{
    turns_are_taken();
}

/// Where a node stands on a device beside which a snapshot is installed, every image means what it may mean of the node, or, while the
/// gate of the snapshot's superblock opens, the snapshot: rows, GTID and window, and no item behind it.
pub fn installations_leave_the_old_or_the_new()
    ensures { InstallationsLeaveTheOldOrTheNew }
{
    judging_goes_on();
    logs_end_in_their_node();
    the_old_base_or_the_snapshot();
    the_log_in_every_image();
}

/// A sync that succeeds leaves the node as it stands beside the snapshot; where the gate of the snapshot's superblock was opened, the node
/// that the snapshot makes stands there, with an empty log that goes on behind it.
pub fn installations_make_the_node()
    ensures { InstallationsMakeTheNode }
{
    installations_settle();
}

/// Until its superblock is written a snapshot can be dropped: the node stands as it did.
pub fn installations_can_be_dropped()
    ensures { InstallationsCanBeDropped }
{}

/// A snapshot can begin beside a node whose log rests, and a call that writes what comes next of it leaves the node as it stands.
pub fn installations_stand_beside()
    ensures { InstallationsStandBeside }
{}
