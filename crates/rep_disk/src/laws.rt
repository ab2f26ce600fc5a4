//! Laws of disks, each as the contract of a function that does nothing.

ghost use Rattle.std.specs.Prelude.{◌≡◌, ◌+◌, ◌≤◌, ℕ, List, length};
ghost use Rattle.rep_disk.specs.Bytes.{part, Untouched};
ghost use Rattle.rep_disk.specs.History.{History, seen, failed, IsImage, Reads};
ghost use Rattle.rep_disk.specs.Laws.{ImagesOfAMoment, ImagesAfterACall, MomentsOfCalls};

use crate::Disk;

/// What an honest disk reads as is one of its images, and each of its images has its size.
pub fn reads_as_an_image<D: Disk>(disk: &D)
    ensures seen { D.honest disk.now → IsImage (D.history disk.now) (seen (D.history disk.now)) }
    ensures sized { D.honest disk.now → (image : List ℕ) → IsImage (D.history disk.now) image → length image ≡ D.size disk.now }
{}

/// The images of a moment have the last stable bytes wherever nothing is pending.
pub fn images_of_a_moment()
    ensures { ImagesOfAMoment }
{}

/// A sync leaves one image, what the disk reads as, and makes none new; a write takes none away.
pub fn images_after_a_call()
    ensures { ImagesAfterACall }
{}

/// A stop within a call leaves an image of its start or of its end, and so what several calls leave
/// at each moment is what each of them leaves.
pub fn moments_of_calls()
    ensures { MomentsOfCalls }
{}

/// What a read gives in a range that the failed writes lie apart from is what was written.
pub fn reads_what_was_written()
    ensures { (h : History) (at : ℕ) (bytes : List ℕ) → Reads h at bytes → Untouched (failed h) at (length bytes) → at + length bytes ≤ length (seen h) → bytes ≡ part at (length bytes) (seen h) }
{}
