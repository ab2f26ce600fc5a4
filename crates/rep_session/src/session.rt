//! The session.

ghost use Rattle.std.specs.Prelude.{◌≡◌, true, if◌then◌else◌, Ok, Err, Some, None, not};
ghost use Rattle.rep_types.specs.Settings.{has_row};
ghost use Rattle.rep_session.specs.Sessions.{begun, known, Gets, Writes, finished, put, delete};

use crate::finished::Finished;
use crate::places::{find_write, is_among, is_written, place_key, place_write};
use crate::rows::Rows;
use arrayvec::ArrayVec;
use rep_types::{Key, MAX_READS, MAX_WRITES, Refusal, Schema, Value, Write, WriteSet};
use std::marker::Model;

/// A transaction as it runs. All its reads are of one position, the snapshot; what it writes it keeps to
/// itself. A session takes no memory.
#[derive(Debug, Drop)]
pub struct Session {
    source: u64,
    trx: u64,
    schema: Schema,
    snapshot: u64,
    /// The keys that the rows answered, ascending.
    reads: ArrayVec<Key, MAX_READS>,
    /// The last write of each key, ascending by key.
    writes: ArrayVec<Write, MAX_WRITES>,
    ended: bool,
}

impl Model for Session {
    ghost use Rattle.rep_session.specs.Sessions.{Progress, IsProgress, progress};

    ghost Value = { Progress };

    ghost view = { λ s. progress s.source s.trx s.schema s.snapshot s.reads.items s.writes.items s.ended };

    ghost invariant = { λ s. IsProgress (progress s.source s.trx s.schema s.snapshot s.reads.items s.writes.items s.ended) };
}

impl Session {
    /// Begins a transaction, under two labels without effect on a verdict: the node or client that it
    /// runs at, and its own there. It reads at the position which is the front of the rows now.
    pub fn begin<R: Rows>(rows: &mut R, source: u64, trx: u64) -> Session
        ensures begun { result ≡ begun source trx (R.tables rows.old) result.snapshot }
        ensures snapshot { R.front_gives rows.old result.snapshot rows.new }
    {
        let schema = rows.schema().copied();
        Session {
            source,
            trx,
            schema,
            snapshot: rows.front(),
            reads: ArrayVec::new(),
            writes: ArrayVec::new(),
            ended: false,
        }
    }

    /// Why a call with this key is refused, whatever it is to do with it.
    fn refusal(&self, key: Key) -> Option<Refusal>
        ensures { result ≡ (if self.now.ended then Some Refusal.Closed else if not (has_row self.now.tables key) then Some Refusal.BadKey else None) }
    {
        if self.ended {
            return Some(Refusal::Closed);
        }
        if !self.schema.contains(key) {
            return Some(Refusal::BadKey);
        }
        None
    }

    /// What a get of the key is answered without a look at rows.
    fn known(&self, key: Key) -> Option<Result<Option<Value>, Refusal>>
        ensures { result ≡ known self.now key }
    {
        if let Some(refusal) = self.refusal(key) {
            return Some(Err(refusal));
        }
        if let Some(write) = find_write(self.writes.as_slice(), key) {
            return Some(Ok(write.copied().value));
        }
        if self.reads.is_full() && !is_among(self.reads.as_slice(), key) {
            return Some(Err(Refusal::TooManyReads));
        }
        None
    }

    /// What stands under the key: what this transaction wrote there, or else the row at the snapshot.
    /// Only the second is a read, and a key that is read again is one read.
    ///
    /// Refuses, in this order: an ended session with `Closed`; a key outside the schema with `BadKey`; the
    /// 17th key that is read with `TooManyReads`; and then as `read_at` of these rows refuses. What is
    /// refused is no read.
    pub fn get<R: Rows>(&mut self, rows: &mut R, key: Key) -> Result<Option<Value>, Refusal>
        ensures { Gets R.read_gives self.old key rows.old result self.new rows.new }
    {
        if let Some(answer) = self.known(key) {
            return answer;
        }
        let row = rows.read_at(key, self.snapshot)?;
        place_key(&mut self.reads, key);
        Ok(row)
    }

    /// Why the write is refused, its value being short enough.
    fn write(&mut self, write: Write) -> Result<(), Refusal>
        ensures { Writes self.old write result self.new }
    {
        // Tells the proof that the value is short.
        let write = write.copied();
        if let Some(refusal) = self.refusal(write.key) {
            return Err(refusal);
        }
        if self.writes.is_full() && !is_written(self.writes.as_slice(), write.key) {
            return Err(Refusal::TooManyWrites);
        }
        place_write(&mut self.writes, write);
        Ok(())
    }

    /// Puts the bytes under the key, in the place of what this transaction wrote there before.
    ///
    /// Refuses, in this order: an ended session with `Closed`; a key outside the schema with `BadKey`; more
    /// than 62 bytes with `ValueTooLong`; and the 17th key that is written with `TooManyWrites`.
    pub fn put(&mut self, key: Key, bytes: &[u8]) -> Result<(), Refusal>
        ensures { Writes self.old (put key bytes.now) result self.new }
    {
        if let Some(refusal) = self.refusal(key) {
            return Err(refusal);
        }
        let value = Some(Value::new(bytes)?);
        self.write(Write { key, value })
    }

    /// Deletes what stands under the key, and takes the place of what this transaction wrote there before.
    ///
    /// Refuses, in this order: an ended session with `Closed`; a key outside the schema with `BadKey`; and the
    /// 17th key that is written with `TooManyWrites`.
    pub fn delete(&mut self, key: Key) -> Result<(), Refusal>
        ensures { Writes self.old (delete key) result self.new }
    {
        self.write(Write { key, value: None })
    }

    /// Ends the transaction: with the write set that is to be delivered, or, where it wrote nothing, with
    /// none. Its reads are the keys that rows answered, its writes the last of each key, and the position
    /// that it saw is the snapshot.
    ///
    /// Refuses an ended session with `Closed`.
    pub fn finish(&mut self) -> Result<Finished, Refusal>
        ensures answer { result ≡ (if self.old.ended then Err Refusal.Closed else Ok (finished self.old)) }
        ensures ended { self.new ≡ record self.old { ended = true } }
    {
        if self.ended {
            return Err(Refusal::Closed);
        }
        self.ended = true;
        if self.writes.is_empty() {
            return Ok(Finished::ReadOnly);
        }
        match WriteSet::new(
            self.source,
            self.trx,
            self.snapshot,
            self.reads.as_slice(),
            self.writes.as_slice(),
        ) {
            Ok(item) => Ok(Finished::WriteSet(item)),
            Err(_) => unreachable!(),
        }
    }
}
