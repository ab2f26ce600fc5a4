//! Windows: their sizes, how far back they reach, and what they hold.

ghost use Rattle.std.specs.Prelude.{◌≡◌, ◌+◌, ◌-◌, ◌≤◌, Ok, Err, if◌then◌else◌};
ghost use Rattle.rep_types.specs.declared.limits.TheConstants.{MAX_WINDOW};
ghost use Rattle.rep_types.specs.Windows.{is_window_size, fixed};

use crate::entry::Entry;
use crate::limits::MAX_WINDOW;
use crate::refusal::Refusal;
use std::marker::Model;

/// How many seqnos a window spans: 1 to 256.
#[derive(Clone, Copy, Debug, PartialEq, Eq)]
pub struct WindowSize {
    seqnos: u16,
}

impl Model for WindowSize {
    ghost use Rattle.std.specs.Prelude.{ℕ, IsTrue};
    ghost use Rattle.rep_types.specs.Windows.{is_window_size};

    ghost Value = { ℕ };

    ghost view = { λ s. s.seqnos };

    ghost invariant = { λ s. IsTrue (is_window_size s.seqnos) };

    ghost inverse = { λ size. record { seqnos = size } };
}

impl WindowSize {
    /// The size of a window that spans so many seqnos.
    ///
    /// Refuses with `BadParams` what is outside 1 to 256.
    pub fn new(seqnos: u64) -> Result<WindowSize, Refusal>
        ensures { result ≡ (if is_window_size seqnos then Ok seqnos else Err Refusal.BadParams) }
    {
        if seqnos < 1 || seqnos > u64::from(MAX_WINDOW) {
            return Err(Refusal::BadParams);
        }
        Ok(WindowSize {
            seqnos: seqnos as u16,
        })
    }

    /// How many seqnos the window spans.
    pub fn get(self) -> u64
        ensures seqnos { result ≡ self }
        ensures some { 1 ≤ self }
        ensures few { self ≤ MAX_WINDOW }
    {
        u64::from(self.seqnos)
    }

    /// The least seqno that a window of this size spans at the position, or 0 where it spans more
    /// than there are.
    pub fn lowest_at(self, position: u64) -> u64
        ensures { result ≡ position + 1 - self }
    {
        position.saturating_sub(self.get() - 1)
    }
}

/// What certification needs of the committed write sets: their entries from the floor on, how many
/// seqnos the window spans, and the floor, below which it tells nothing.
#[derive(Debug, Drop)]
pub struct Window {
    size: WindowSize,
    floor: u64,
    entries: Vec<Entry>,
}

impl Model for Window {
    ghost use Rattle.rep_types.specs.Windows.{Window as View};

    ghost Value = { View };

    ghost view = { λ w. record { size = w.size; floor = w.floor; entries = w.entries.items } };
}

impl Window {
    /// The window of this size that reaches down to the floor and holds these entries.
    pub fn new(size: WindowSize, floor: u64, entries: Vec<Entry>) -> Window
        ensures { result ≡ record { size = size; floor = floor; entries = entries.items } }
    {
        Window {
            size,
            floor,
            entries,
        }
    }

    /// The window with these entries at the position, where its size was the same from the first item
    /// on. So its floor is the least seqno that this size spans there, 1 or more.
    pub fn fixed(size: WindowSize, position: u64, entries: Vec<Entry>) -> Window
        ensures { result ≡ fixed size position entries.items }
    {
        Window {
            size,
            floor: size.lowest_at(position).max(1),
            entries,
        }
    }

    /// How many seqnos it spans.
    pub fn size(&self) -> WindowSize
        ensures { result ≡ self.now.size }
    {
        self.size
    }

    /// The least seqno that it can hold.
    pub fn floor(&self) -> u64
        ensures { result ≡ self.now.floor }
    {
        self.floor
    }

    /// The committed write sets that it holds, each as its seqno and the keys that it wrote.
    pub fn entries(&self) -> &[Entry]
        ensures { result.now ≡ self.now.entries }
    {
        &self.entries
    }

    /// The same as a list of its own.
    pub fn into_entries(self) -> Vec<Entry>
        ensures { result.items ≡ self.entries }
    {
        self.entries
    }
}
