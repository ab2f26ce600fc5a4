//! A lock of two stations.

use rep_ordered::{Keeps, OrderedLock, Refused};
use rep_types::Refusal;
use std::alloc::Global;

/// A value of which nothing is asked.
#[derive(Drop)]
pub struct Note {
    pub mark: u64,
}

impl Keeps<u64> for Note {
    ghost use Rattle.std.specs.Prelude.{⊤};

    ghost legal = { λ _ _. ⊤ };

    ghost at_home = { λ _ _ _ _ _ _ _. ⊤ };

    ghost durable_of = { λ _. 0 };

    ghost common_of = { λ _. 0 };

    ghost grows = { λ _ _ _ _ _ _ _ _ _ _ _. tt };
}

/// The two values, taken again where there was no room for them.
fn notes(alloc: Global) -> Result<Vec<Note>, Refusal> {
    match Vec::from_array(alloc, [Note { mark: 1 }, Note { mark: 2 }]) {
        Err(_) => Ok(Vec::from_array(alloc, [Note { mark: 1 }, Note { mark: 2 }])?),
        Ok(notes) => Ok(notes),
    }
}

/// The number of the first ticket at position 5, and how many values are at home in the end.
fn lock(alloc: Global) -> Result<(u64, usize), Refusal> {
    let made = match OrderedLock::new(alloc, notes(alloc)?, 5, 0) {
        // The values come back, and are given again.
        Err(Refused { values }) => OrderedLock::new(alloc, values, 5, 0),
        made => made,
    };
    let Ok((lock, mut seat)) = made else {
        return Err(Refusal::OutOfMemory);
    };
    let ticket = lock.claim(&mut seat);
    let found = lock.close(seat);
    let mut home = 0usize;
    for value in found.as_slice() {
        if value.is_some() {
            home = home.saturating_add(1);
        }
    }
    Ok((ticket, home))
}

/// Prints the lock's first ticket, and what is at home in the end.
pub(crate) fn show<R: Print + AllocGlobal>(rt: &R) -> anyhow::Result<()> {
    let (ticket, values) = lock(rt.alloc())?;
    rt.println(format_args!("lock: ticket {ticket}, {values} values at home"))?;
    Ok(())
}
