//! A disk, what an honest one does, disks in memory that crash and fail on purpose, and one on a
//! file.
#![tactic(auto)]

mod counting;
mod disk;
mod fault_once;
mod faulty;
mod file;
mod fuse;
mod held;
mod laws;
mod locked;
mod mark;
mod memory;

pub use disk::{Disk, DiskFault};
pub use fault_once::{FaultOnce, Once};
pub use faulty::{Call, Faults, FaultyDisk};
pub use file::FileDisk;
pub use fuse::{Fuse, FuseDisk};
pub use held::{Held, HeldDisk, Hold};
pub use laws::{
    images_after_a_call, images_of_a_moment, moments_of_calls, reads_as_an_image,
    reads_what_was_written,
};
pub use locked::{Access, locked_file};
pub use mark::{MARK, has_mark, is_marked, set_mark};
pub use memory::{Loss, MemDisk};
