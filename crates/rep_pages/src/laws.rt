//! Laws of pages, each as the contract of a function that does nothing.

ghost use Rattle.rep_pages.specs.Pages.{PagesAreTold};
ghost use Rattle.rep_pages.specs.Images.{UnchangedPagesStay, ImagesFollowTheOrder};

use crate::page::Head;
use crate::page_rows::PageRows;
use rep_forms::spellings_are_told;
use rep_versions::versions_follow_the_items;

/// The bytes of a page tell what it says: no two pages have one spelling.
pub fn pages_are_told()
    ensures { PagesAreTold }
{
    spellings_are_told::<Head>();
    spellings_are_told::<PageRows>();
}

/// A page that no version above a base and at most at a position is of has the same rows there as at
/// the base: a checkpoint does not write it.
pub fn unchanged_pages_stay()
    ensures { UnchangedPagesStay }
{}

/// The image of a page that has the order's rows at the base has them at the position, where the
/// versions are those of the items behind the base.
pub fn images_follow_the_order()
    ensures { ImagesFollowTheOrder }
{
    versions_follow_the_items();
}
