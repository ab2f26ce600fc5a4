//! Laws of states, each as the contract of a function that does nothing.

ghost use Rattle.rep_cells.specs.Laws.{ImagesReadAsAllowed, PlacesReadAsShown, FilledBodiesStand, MomentsReadAsAllowed, StatesMove, FoundStatesStand, SyncsNarrow};

/// In every image, so after a stop, each place reads as its state allows: a cell that is closed,
/// filling or filled as nothing, an opened one as its body, one that opens or closes as either.
pub fn images_read_as_allowed()
    ensures { ImagesReadAsAllowed }
{}

/// Each place reads as its state shows.
pub fn places_read_as_shown()
    ensures { PlacesReadAsShown }
{}

/// After the sync that ends a filling the body stands in every image, before its gate is opened.
pub fn filled_bodies_stand()
    ensures { FilledBodiesStand }
{}

/// A stop within a call leaves an image that reads as the states during the call allow, or one
/// from before it.
pub fn moments_read_as_allowed()
    ensures { MomentsReadAsAllowed }
{}

/// For each step of a place there are the states after it, for callers that have those before it.
pub fn states_move()
    ensures { StatesMove }
{}

/// Where nothing is pending each place is in the state that its bytes show, in every layout that the
/// device has room for: an opening learns its layout from places of another.
pub fn found_states_stand()
    ensures { FoundStatesStand }
{}

/// A sync adds nothing to what a place may read as, and a second one changes nothing. Behind a closed
/// gate that was written it leaves the cell closed, whatever was known of it.
pub fn syncs_narrow()
    ensures { SyncsNarrow }
{}
