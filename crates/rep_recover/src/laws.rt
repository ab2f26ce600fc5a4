//! Laws of openings, each as the contract of a function that does nothing.

ghost use Rattle.rep_recover.specs.Opening.{ReasonsExcludeMeanings};

use rep_layout::{superblocks_are_told, windows_are_told};

/// Where there is a reason to refuse an image, it means nothing: no refusal of what stands on a device loses
/// anything that it means.
pub fn reasons_exclude_meanings()
    ensures { ReasonsExcludeMeanings }
{
    superblocks_are_told();
    windows_are_told();
}
