//! The items of an order.

ghost use Rattle.std.specs.Prelude.{◌≡◌, ⊤};
ghost use Rattle.rep_types.specs.Items.{IsWithin, as_item, is_write_set, reads_of, source_of, trx_of, writes_of, written_by};
ghost use Rattle.rep_types.specs.Reaches.{resized};
ghost use Rattle.rep_types.specs.Transactions.{Renews, checked, transaction};

use crate::key::Key;
use crate::limits::MAX_WRITES;
use crate::refusal::Refusal;
use crate::value::Write;
use crate::window::WindowSize;
use crate::write_set::WriteSet;
use arrayvec::ArrayVec;
use std::alloc::AllocError;

/// A change of the window's size, which takes a seqno like any item and always commits.
#[derive(Clone, Copy, Debug, PartialEq, Eq)]
pub struct SetWindow {
    /// How many seqnos the window spans from this item on.
    pub size: WindowSize,
    /// The label of the node or client that it came from.
    pub source: u64,
    /// The label of the change at its source.
    pub trx: u64,
}

/// An item of the order.
#[derive(Debug, Drop, PartialEq, Eq)]
pub enum Item {
    /// What a transaction hands in when it asks to commit.
    WriteSet(WriteSet),
    /// A change of the window's size.
    SetWindow(SetWindow),
}

impl Item {
    /// Whether it is a write set.
    pub fn is_write_set(&self) -> bool
        ensures { result ≡ is_write_set self.now }
    {
        match self {
            Item::WriteSet(_) => true,
            Item::SetWindow(_) => false,
        }
    }

    /// Keeps its limits: a law, which does nothing. Reads and writes of a write set are few and ascend, and a size is from 1 to 256.
    pub fn limits(&self)
        ensures { IsWithin self.now }
    {
        match self {
            Item::WriteSet(write_set) => {
                write_set.writes();
            }
            Item::SetWindow(change) => {
                change.size.get();
            }
        }
    }

    /// The label of the node or client that it came from.
    pub fn source(&self) -> u64
        ensures { result ≡ source_of self.now }
    {
        match self {
            Item::WriteSet(write_set) => write_set.source(),
            Item::SetWindow(change) => change.source,
        }
    }

    /// The label of the item at its source.
    pub fn trx(&self) -> u64
        ensures { result ≡ trx_of self.now }
    {
        match self {
            Item::WriteSet(write_set) => write_set.trx(),
            Item::SetWindow(change) => change.trx,
        }
    }

    /// The keys that its transaction read, in ascending order: a change of the window's size reads none.
    pub fn reads(&self) -> &[Key]
        ensures { result.now ≡ reads_of self.now }
    {
        match self {
            Item::WriteSet(write_set) => write_set.reads(),
            Item::SetWindow(_) => &[],
        }
    }

    /// What it writes, in ascending order by key: a change of the window's size writes nothing.
    pub fn writes(&self) -> &[Write]
        ensures { result.now ≡ writes_of self.now }
    {
        match self {
            Item::WriteSet(write_set) => write_set.writes(),
            Item::SetWindow(_) => &[],
        }
    }

    /// The keys that it writes, in ascending order.
    pub fn written(&self) -> ArrayVec<Key, MAX_WRITES>
        ensures { result.items ≡ written_by self.now }
    {
        match self {
            Item::WriteSet(write_set) => write_set.written(),
            Item::SetWindow(_) => ArrayVec::new(),
        }
    }

    /// The size of the window from this item on, where it was `before` until then.
    pub fn resized(&self, before: WindowSize) -> WindowSize
        ensures { result ≡ resized before self.now }
    {
        match self {
            Item::WriteSet(_) => before,
            Item::SetWindow(change) => change.size,
        }
    }

    /// Puts a write set in the item's place, which so is not moved: what `WriteSet::new` makes of these.
    ///
    /// Refuses as that does; then the item stays.
    pub fn renew(
        &mut self,
        source: u64,
        trx: u64,
        last_seen: u64,
        reads: &[Key],
        writes: &[Write],
    ) -> Result<(), Refusal>
        ensures { Renews (as_item (checked (transaction source trx last_seen reads.now writes.now))) self.old self.new result }
    {
        match self {
            Item::WriteSet(write_set) => write_set.renew(source, trx, last_seen, reads, writes),
            Item::SetWindow(_) => self.set(source, trx, last_seen, reads, writes),
        }
    }

    /// Puts a write set in the place of an item of either kind. (A function of its own: its room is not filled where there is one.)
    fn set(
        &mut self,
        source: u64,
        trx: u64,
        last_seen: u64,
        reads: &[Key],
        writes: &[Write],
    ) -> Result<(), Refusal>
        ensures { Renews (as_item (checked (transaction source trx last_seen reads.now writes.now))) self.old self.new result }
    {
        *self = Item::WriteSet(WriteSet::new(source, trx, last_seen, reads, writes)?);
        Ok(())
    }

    /// A copy, which takes no memory.
    pub fn copied(&self) -> Item
        ensures { result ≡ self.now }
    {
        match self {
            Item::WriteSet(write_set) => Item::WriteSet(write_set.copied()),
            Item::SetWindow(change) => Item::SetWindow(*change),
        }
    }
}

impl Clone for Item {
    ghost is_clone = { λ item copy. copy ≡ item };

    ghost is_infallible = { λ _. ⊤ };

    fn clone(&self) -> Result<Item, AllocError> {
        Ok(self.copied())
    }
}

impl From<WriteSet> for Item {
    ghost use Rattle.rep_types.specs.declared.item.Item.TheVariants.{WriteSet as OfWriteSet};

    ghost from_gives = { λ write_set item. item ≡ OfWriteSet write_set };

    fn from(write_set: WriteSet) -> Item {
        Item::WriteSet(write_set)
    }
}

impl From<SetWindow> for Item {
    ghost use Rattle.rep_types.specs.declared.item.Item.TheVariants.{SetWindow as OfSetWindow};

    ghost from_gives = { λ change item. item ≡ OfSetWindow change };

    fn from(change: SetWindow) -> Item {
        Item::SetWindow(change)
    }
}
