//! The values of the options of `serve`.

use rep_types::read_number;
use std::marker::Model;

/// How many workers hand items in: 1 to 64.
#[derive(Drop)]
pub struct Workers {
    count: usize,
}

impl Model for Workers {
    ghost use Rattle.std.specs.Prelude.{ℕ, ◌<◌, ◌≤◌};

    ghost Value = { ℕ };

    ghost view = { λ w. w.count };

    ghost invariant = { λ w. (0 < w.count) × (w.count ≤ 64) };
}

impl Workers {
    ghost use Rattle.std.specs.Prelude.{◌<◌, ◌≤◌};

    /// What stands for their number in a usage.
    pub(crate) const VALUE_NAME: &'static str = "N";

    /// What a value that is no number of workers is not.
    pub(crate) const FORM: &'static str = "a number from 1 to 64";

    /// Two, as where nothing is said.
    pub(crate) fn two() -> Workers {
        Workers { count: 2 }
    }

    /// As many as the text says in decimal digits; nothing where that is no number from 1 to 64.
    pub(crate) fn of(text: &str) -> Option<Workers> {
        let number = read_number(text.as_bytes())?;
        if number == 0 || number > 64 {
            return None;
        }
        Some(Workers {
            count: number as usize,
        })
    }

    /// How many they are.
    pub fn count(&self) -> usize
        ensures few { (0 < result) × (result ≤ 64) }
    {
        self.count
    }
}
