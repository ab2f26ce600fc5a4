//! What the words of the command line say.

ghost use Rattle.std.specs.Prelude.{◌<◌, ◌≤◌, IfOk};

use crate::words::number;
use anyhow::{Result, bail};
use std::env::Args;

/// The most workers, and the most readers.
const MOST: usize = 64;

/// How many workers hand in how many items, and how many readers look rows up beside.
#[derive(Clone, Copy)]
pub(crate) struct Counts {
    pub(crate) workers: usize,
    pub(crate) readers: usize,
    pub(crate) items: usize,
}

/// The next three words, which are the number of workers, from 1 to 64, the number of readers, from 0 to 64, and the number of items.
pub(crate) fn read_counts(words: &mut Args) -> Result<Counts>
    ensures { IfOk result (λ counts. (0 < counts.workers) × (counts.workers ≤ 64) × (counts.readers ≤ 64)) }
{
    let workers = number(words, "no number of workers")?;
    let readers = number(words, "no number of readers")?;
    let items = number(words, "no number of items")?;
    if workers == 0 || workers > MOST || readers > MOST {
        bail!("there are 1 to {MOST} workers, and at most {MOST} readers");
    }
    Ok(Counts {
        workers,
        readers,
        items,
    })
}

/// Whether the next word says that rates are wanted.
pub(crate) fn wants_rates(words: &mut Args) -> bool {
    match words.next() {
        Some(word) => word.as_str() == "rates",
        None => false,
    }
}
