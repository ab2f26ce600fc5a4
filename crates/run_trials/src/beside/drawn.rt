//! Orders that are drawn: the same order for the same seed.

ghost use Rattle.std.specs.Prelude.{◌≡◌, ◌≤◌, length};

use arrayvec::ArrayVec;
use rep_types::{Key, MAX_READS, MAX_WRITES, Params, Refusal, Write, WriteSet};

/// How many tables there are.
pub(crate) const TABLES: u8 = 4;

/// The greatest number of keys that a drawn item names, half of them written.
pub(crate) const MAX_KEYS: u32 = 16;

/// What an order is drawn from.
#[derive(Drop)]
pub(crate) struct Shape {
    /// How many seqnos the window spans.
    pub(crate) window: u32,
    /// The rows of each table.
    pub(crate) rows: u32,
    /// How many of the positions before it a transaction may have seen as the last.
    pub(crate) behind: u32,
    /// How many keys an item names, at most `MAX_KEYS`. It writes half of them, and the odd one.
    pub(crate) keys: u32,
    ghost few: { keys ≤ 16 },
}

impl Shape {
    /// The parameters of a node for such an order.
    ///
    /// Refuses with `BadParams` what is outside the limits.
    pub(crate) fn params(&self) -> Result<Params, Refusal> {
        Params::new(self.window, 4, &[self.rows; 4])
    }
}

/// Draws numbers and items (a linear congruential generator, with the multiplier of Knuth's MMIX).
#[derive(Clone, Copy)]
pub(crate) struct Draws {
    state: u64,
}

/// The write that deletes the row of the key.
pub(crate) fn delete_of(key: Key) -> Write {
    Write { key, value: None }
}

impl Draws {
    /// Draws from this seed on.
    pub(crate) fn new(seed: u64) -> Draws {
        Draws { state: seed }
    }

    /// A number below the bound, or 0 where that is 0.
    pub(crate) fn below(&mut self, bound: u32) -> u32
        ensures { result ≤ bound }
    {
        self.state = self
            .state
            .wrapping_mul(6364136223846793005)
            .wrapping_add(1442695040888963407);
        ((self.state >> 33) % u64::from(bound.max(1))) as u32
    }

    /// So many keys of one table, in ascending order where it has as many rows: each is drawn from a
    /// part of the table of its own.
    fn keys(&mut self, rows: u32, count: u32) -> ArrayVec<Key, MAX_READS>
        requires { count ≤ 16 }
        ensures { length result.items ≡ count }
    {
        let table = self.below(u32::from(TABLES)) as u8;
        let part = rows / count.max(1);
        let mut keys = ArrayVec::new();
        for i in 0..count {
            let row = part.saturating_mul(i).saturating_add(self.below(part));
            keys.push(Key { table, row });
        }
        keys
    }

    /// A transaction of this number that had seen so much, and reads rows and deletes others.
    pub(crate) fn item_at(
        &mut self,
        shape: &Shape,
        trx: u64,
        last_seen: u64,
    ) -> Result<WriteSet, Refusal> {
        let reads = self.keys(shape.rows, shape.keys / 2);
        let mut writes: ArrayVec<Write, MAX_WRITES> = ArrayVec::new();
        for key in self
            .keys(shape.rows, shape.keys - shape.keys / 2)
            .as_slice()
        {
            writes.push(delete_of(*key));
        }
        WriteSet::new(1, trx, last_seen, reads.as_slice(), writes.as_slice())
    }

    /// The item with this seqno.
    pub(crate) fn item(&mut self, shape: &Shape, seqno: u64) -> Result<WriteSet, Refusal> {
        let behind = u64::from(self.below(shape.behind));
        self.item_at(shape, seqno, seqno.saturating_sub(behind + 1))
    }
}
