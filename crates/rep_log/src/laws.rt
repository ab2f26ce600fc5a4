//! Laws of the log, each as the contract of a function that does nothing.

ghost use Rattle.rep_log.specs.Laws.{TheLogInEveryImage, OpenBlocksAreShown, TheLogIsTold};

use rep_layout::turns_are_taken;
use rep_record::blocks_are_told;

/// In every image, so after a stop, the log is the durable blocks, or while a gate opens those with
/// the block behind it; from each start on up to the next block it is those of them.
pub fn the_log_in_every_image()
    ensures { TheLogInEveryImage }
{
    turns_are_taken();
}

/// Blocks whose cells stand open are shown by every image, and by what is read.
pub fn open_blocks_are_shown()
    ensures { OpenBlocksAreShown }
{
    turns_are_taken();
}

/// A reading has at most one log from a block on, of no more blocks than there are cells; and of two runs of blocks that it shows
/// from one block on the shorter begins the longer.
pub fn the_log_is_told()
    ensures { TheLogIsTold }
{
    turns_are_taken();
    blocks_are_told();
}
