//! What happens to a replica.

use rep_types::{Item, Key, SetWindow, WindowSize, WriteSet};
use std::alloc::AllocError;

/// What happens to a replica. Each event is one step.
#[derive(Debug, Drop, PartialEq, Eq)]
pub enum Event {
    /// The write set comes as the item with this seqno of the order.
    Deliver(u64, WriteSet),
    /// A change of the window's size comes as the item with this seqno of the order: the new size, the label of its source, and
    /// its own label there.
    SetWindow(u64, WindowSize, u64, u64),
    /// The log writes what it has to write next.
    Log,
    /// What was written becomes stable.
    Sync,
    /// The checkpoint takes its next step.
    Check,
    /// The checkpoint writes the page with this number.
    Flush(u64),
    /// A read of the key in the state after so many items.
    Read(Key, u64),
}

impl Event {
    ghost use Rattle.std.specs.Prelude.{◌≡◌};
    ghost use Rattle.rep_steps.specs.Events.{delivery};

    /// The event that delivers the item with this seqno.
    pub fn delivery(seqno: u64, item: Item) -> Event
        ensures { result ≡ delivery seqno item }
    {
        match item {
            Item::WriteSet(write_set) => Event::Deliver(seqno, write_set),
            Item::SetWindow(change) => {
                let SetWindow { size, source, trx } = change;
                Event::SetWindow(seqno, size, source, trx)
            }
        }
    }

    /// A copy of the event.
    pub fn copied(&self) -> Event
        ensures { result ≡ self.now }
    {
        match self {
            Event::Deliver(seqno, item) => Event::Deliver(*seqno, item.copied()),
            Event::SetWindow(seqno, size, source, trx) => Event::SetWindow(
                *seqno, *size, *source, *trx,
            ),
            Event::Log => Event::Log,
            Event::Sync => Event::Sync,
            Event::Check => Event::Check,
            Event::Flush(page) => Event::Flush(*page),
            Event::Read(key, s) => Event::Read(*key, *s),
        }
    }
}

impl Clone for Event {
    ghost use Rattle.std.specs.Prelude.{◌≡◌, ⊤};

    ghost is_clone = { λ event copy. copy ≡ event };

    ghost is_infallible = { λ _. ⊤ };

    fn clone(&self) -> Result<Event, AllocError> {
        Ok(self.copied())
    }
}
