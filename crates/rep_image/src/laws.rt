//! Laws of images, each as the contract of a function that does nothing.

ghost use Rattle.rep_image.specs.Ends.{LogsEndInTheirNode};
ghost use Rattle.rep_image.specs.Meanings.{ImagesMeanOneThing, ImagesStandForOrders};
ghost use Rattle.rep_image.specs.Standing.{ImagesMeanWhatStands};
ghost use Rattle.rep_image.specs.Syncs.{TheSyncedLogIsTheFacts};

use rep_layout::{superblocks_are_told, windows_are_told};
use rep_pages::pages_are_told;
use rep_steps::{judged_items_extend_the_order, the_log_in_every_image, the_log_is_told};

/// An image means one thing at most: a base and the items behind it, of one cluster and one set of
/// parameters. So whatever opens it can find nothing else.
pub fn images_mean_one_thing()
    ensures { ImagesMeanOneThing }
{
    superblocks_are_told();
    windows_are_told();
    pages_are_told();
    the_log_is_told();
}

/// Where the base of what an image means is an order's state, the image stands for the order with the write
/// sets of its log at the end.
pub fn images_stand_for_orders()
    ensures { ImagesStandForOrders }
{
    judged_items_extend_the_order();
}

/// Where a base and a log stand on a device, every image means the base with the durable items behind it,
/// or, while a gate opens, those with the block behind it too.
pub fn images_mean_what_stands()
    ensures { ImagesMeanWhatStands }
{
    the_log_in_every_image();
}

/// Where a log's blocks are the durable items of a node, what it may hold ends where the node may end: at what is
/// durable, or, while a gate opens, at that with the whole block.
pub fn logs_end_in_their_node()
    ensures { LogsEndInTheirNode }
{}

/// A sync of a log leaves it as it leaves the facts of a node whose log it is: as far with its next block, with the
/// same next cell, and starting where it did; and where its blocks were the node's durable items they are so after it.
pub fn the_synced_log_is_the_facts()
    ensures { TheSyncedLogIsTheFacts }
{}
