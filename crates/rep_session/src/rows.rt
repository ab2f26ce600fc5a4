//! What a session reads.

ghost use Rattle.std.specs.Prelude.{◌≡◌, ℕ, List, Option, Result, Ok, refl};
ghost use Rattle.rep_types.specs.declared.key.Key.{Key};
ghost use Rattle.rep_types.specs.declared.refusal.Refusal.{Refusal};
ghost use Rattle.rep_types.specs.Settings.{Setting};
ghost use Rattle.rep_types.specs.Order.{Order, read};

use rep_disk::Disk;
use rep_replica::{Replica, reads_forget_nothing};
use rep_types::{Key, Refusal, Schema, Value};

/// The rows of a database at each position of its order, as far as they are known to who has them: a
/// replica, or a reader beside one that runs.
///
/// What a call answers and what it leaves is said by each kind of rows, so that it has refusals of its
/// own. What holds of each kind: a row that is answered is that of the order, and a read forgets nothing of
/// the order that was known before it.
pub trait Rows {
    /// The number of rows of each table.
    ghost tables: { Self → List ℕ };

    /// What `front` answers, and what it leaves.
    ghost front_gives: { Self → ℕ → Self → Type 0 };

    /// What `read_at` answers for a key and a position, and what it leaves.
    ghost read_gives: { Self → Key → ℕ → Result (Option (List ℕ)) Refusal → Self → Type 0 };

    /// The rows are those of this order, under these parameters: it begins with the items that are
    /// known here.
    ghost are_of: { Self → Setting → Order → Type 0 };

    /// The tables.
    fn schema(&self) -> &Schema
        ensures { result.now ≡ tables self.now };

    /// The newest position at which rows can be read.
    fn front(&mut self) -> u64
        ensures { front_gives self.old result self.new };

    /// What stands under the key in the state after the first `s` items of the order, if anything
    /// does, or why it is not read.
    fn read_at(&mut self, key: Key, s: u64) -> Result<Option<Value>, Refusal>
        ensures { read_gives self.old key s result self.new };

    /// A read forgets nothing: an order that the rows are of behind it is one that they were of before it.
    ghost forgets_nothing: { (a b : Self) (key : Key) (s : ℕ) (answer : Result (Option (List ℕ)) Refusal) (p : Setting) (L : Order) → read_gives a key s answer b → are_of b p L → are_of a p L };

    /// A row that is answered is the row of the order at that position.
    ghost reads_the_order: { (a b : Self) (key : Key) (s : ℕ) (row : Option (List ℕ)) (p : Setting) (L : Order) → read_gives a key s (Ok row) b → are_of b p L → row ≡ read p L key s };
}

/// The rows of a replica on a disk, up to what is durable. A read is refused, in this order, with `Stopped`;
/// with `BadKey` outside the schema; with `NotYet` above what is durable; with `TooOld` below the base; with
/// `DiskFault` where the device failed, and then the replica is stopped; and with `Corrupt` of the pages where the page that is
/// read is not of its form.
///
/// On any device a read is a step of the replica. On an honest one the rows are those of each order that begins
/// with the durable items of a node that the replica stands for; whether it is stopped does not matter to that.
impl<D: Disk> Rows for Replica<D> {
    ghost use Rattle.rep_replica.specs.Reading.{HasRowsOf};
    ghost use Rattle.rep_session.specs.Rows.{tables_of, IsFront, Reads};

    ghost tables = { tables_of D.Disk };

    ghost front_gives = { IsFront D.Disk };

    ghost read_gives = { Reads D.Disk };

    ghost are_of = { HasRowsOf D.Disk };

    ghost forgets_nothing = { λ a b key s answer p L gives of. gives.forgets p L of };

    ghost reads_the_order = { λ a b key s row p L gives of. gives.rows row p L refl of };

    fn schema(&self) -> &Schema {
        self.params().schema()
    }

    fn front(&mut self) -> u64 {
        self.durable()
    }

    fn read_at(&mut self, key: Key, s: u64) -> Result<Option<Value>, Refusal> {
        reads_forget_nothing::<D>();
        self.read(key, s)
    }
}
