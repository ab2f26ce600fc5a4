//! In which slot a page stands, and in which it is written next.

ghost use Rattle.std.specs.Prelude.{◌≡◌, ◌≢◌};
ghost use Rattle.rep_layout.specs.declared.page_state.PageState.TheVariants.{In};
ghost use Rattle.rep_pages.specs.Slots.{state_of_page, spare_slot};

use rep_layout::{PageState, Slot, SuperBody};

/// In which slot the superblock has the page of this number. A page that there is not is in none.
pub fn slot_of(superblock: &SuperBody, page: u32) -> PageState
    ensures { result ≡ state_of_page superblock.now page }
{
    match superblock.pages.get(page as usize) {
        Some(state) => *state,
        None => PageState::Nowhere,
    }
}

/// The slot in which the page of this number is written next: the one in which it does not stand, and
/// the first where it stands in none.
pub fn spare_of(superblock: &SuperBody, page: u32) -> Slot
    ensures slot { result ≡ spare_slot (state_of_page superblock.now page) }
    // It is never the slot from which the page is read.
    ensures other { state_of_page superblock.now page ≢ In result }
{
    match slot_of(superblock, page) {
        PageState::In(Slot::First) => Slot::Second,
        PageState::In(Slot::Second) | PageState::Nowhere => Slot::First,
    }
}
