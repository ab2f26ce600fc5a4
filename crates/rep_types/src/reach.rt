//! How far back a window reaches.

ghost use Rattle.std.specs.Prelude.{◌≡◌};
ghost use Rattle.rep_types.specs.Reaches.{reach_after};

use crate::item::Item;
use crate::window::WindowSize;

/// How far back the window of a position reaches. The items alone tell it, whatever their verdicts.
#[derive(Clone, Copy, Debug, PartialEq, Eq)]
pub struct Reach {
    /// How many seqnos the window spans.
    pub size: WindowSize,
    /// The least seqno that the window can hold.
    pub floor: u64,
}

impl Reach {
    /// How far back the first window reaches, that of no item.
    pub fn first(size: WindowSize) -> Reach
        ensures { result ≡ record { size = size; floor = 1 } }
    {
        Reach { size, floor: 1 }
    }

    /// How far back the window reaches after one more item, which has this seqno. The item may change
    /// the size; the floor never falls.
    pub fn after(self, seqno: u64, item: &Item) -> Reach
        ensures { result ≡ reach_after self seqno item.now }
    {
        let size = item.resized(self.size);
        Reach {
            size,
            floor: self.floor.max(size.lowest_at(seqno)),
        }
    }
}
