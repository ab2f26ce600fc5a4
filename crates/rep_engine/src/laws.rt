//! Laws of engines, each as the contract of a function that does nothing.

ghost use Rattle.rep_engine.specs.Holding.{LeavesItsEnds};
ghost use Rattle.rep_engine.specs.Checking.{CertifiersHoldWindows};
ghost use Rattle.rep_engine.specs.Accepting.{AcceptedItemsAreAFront};
ghost use Rattle.rep_engine.specs.Donating.{TheTailIsTold};

use crate::engine::Engine;
use rep_cells::images_read_as_allowed;
use rep_cert::gives_its_window;
use rep_checkpoint::nodes_leave_their_ends;
use rep_disk::Disk;
use rep_layout::windows_go_on;
use rep_log::the_log_is_told;
use rep_record::fronts_are_determined;

/// Where an engine on an honest device is not stopped, every image of the device means a front of what the
/// engine stands for that ends exactly at what is durable, or, while the gate of a block is opening, at that with
/// the whole block. So nothing that was only accepted comes back after a stop, and no part of a block.
pub fn running_engines_leave_their_ends<D: Disk>(engine: &Engine<D>)
    ensures { LeavesItsEnds D.Disk engine.now }
{
    images_read_as_allowed();
    nodes_leave_their_ends();
    // For its clause: what holds of every engine.
    engine.durable();
}

/// A certifier that was made with a window that a disk can hold gives it at its position, and holds such windows
/// alone, at each position that can be asked for; and so it does with each further item that keeps its limits.
pub fn certifiers_hold_windows()
    ensures { CertifiersHoldWindows }
{
    windows_go_on();
    gives_its_window();
}

/// What `accept` takes is a front of what waits: no more than there is; with what was gathered it fits one block; and
/// at rest that block then takes no more of what waits, so that it is what it would be of all of it.
pub fn accepted_items_are_a_front()
    ensures { AcceptedItemsAreAFront }
{
    fronts_are_determined();
}

/// The blocks behind the base of a node are one list: so those of several calls are blocks of the same.
pub fn the_tail_is_told()
    ensures { TheTailIsTold }
{
    the_log_is_told();
}
