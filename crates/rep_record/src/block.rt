//! Blocks of records while they are gathered.

ghost use Rattle.std.specs.Prelude.{◌≡◌, ◌≤◌, ◌==◌, ◌<◌, ◌++◌, ◌∷◌, ◌↔◌, [], length, if◌then◌else◌, IsSome, IfSome};
ghost use Rattle.rep_record.specs.Blocks.{has_room, first_seqno, run_bytes, IsBlock, block_bytes, filled_by};

use crate::block_reader::Head;
use crate::limits::{BLOCK, MAX_BLOCK, MAX_RECORDS};
use crate::record::put_spelling;
use crate::room::Room;
use arrayvec::ArrayVec;
use rep_forms::{Put, put_bytes, put_zeros};
use rep_types::Judged;
use std::marker::Model;

/// Gathers the records of a block: at most 64, of at most 7,662 bytes together, of seqnos that follow
/// one another.
#[derive(Drop)]
pub struct BlockBuilder {
    first: u64,
    count: u16,
    bytes: ArrayVec<u8, MAX_BLOCK>,
}

impl Model for BlockBuilder {
    ghost use Rattle.std.specs.Prelude.{List};
    ghost use Rattle.rep_types.specs.declared.judged.Judged.{Judged};
    ghost use Rattle.rep_record.specs.Blocks.{gathered_in, IsGathered};

    ghost Value = { List Judged };

    ghost view = { λ b. gathered_in b.count b.bytes.items };

    ghost invariant = { λ b. IsGathered b.first b.count b.bytes.items };
}

impl BlockBuilder {
    /// A block without records.
    #[tactic(auto, using(crate::proofs::Gathering::gathered_none, crate::proofs::Gathering::none_read))]
    pub fn new() -> BlockBuilder
        ensures { result ≡ [] }
    {
        BlockBuilder {
            first: 0,
            count: 0,
            bytes: ArrayVec::new(),
        }
    }

    /// How far it is filled.
    pub fn room(&self) -> Room
        ensures { result ≡ filled_by self.now }
    {
        Room::new(self.first, self.count, self.bytes.len())
    }

    /// Adds the record at the end, where the block takes it, and says whether it did: where the
    /// record has a spelling, its seqno is the one after the last, and there is room for it. A block
    /// that does not take it stays as it is.
    pub fn push(&mut self, judged: &Judged) -> bool
        ensures room { result ≡ has_room self.old judged.now }
        ensures after { self.new ≡ (if has_room self.old judged.now then self.old ++ judged.now ∷ [] else self.old) }
    {
        let mut room = self.room();
        if !room.take(judged) {
            return false;
        }
        let mut bytes = ArrayVec::new();
        if !put_spelling(&mut bytes, judged) {
            unreachable!();
        }
        put_bytes(&mut self.bytes, bytes.as_slice());
        self.first = room.first();
        self.count = room.count();
        true
    }

    /// How many records there are.
    pub fn len(&self) -> u16
        ensures count { result ≡ length self.now }
        ensures few { result ≤ MAX_RECORDS }
    {
        self.count
    }

    /// Whether there is no record.
    pub fn is_empty(&self) -> bool
        ensures { result ≡ (length self.now == 0) }
    {
        self.count == 0
    }

    /// The seqno of the first record; 0 where there is none.
    pub fn first(&self) -> u64
        ensures { result ≡ first_seqno self.now }
    {
        self.first
    }

    /// The bytes of the records, one after another.
    pub fn as_bytes(&self) -> &[u8]
        ensures bytes { result.now ≡ run_bytes self.now }
        ensures few { length (run_bytes self.now) ≤ MAX_BLOCK }
    {
        self.bytes.as_slice()
    }

    /// The bytes of the block for the cell with this number, 7,680; None where there is no record.
    #[tactic(auto, using(rep_forms::specs::FormLaws::sizes))]
    pub fn write_body(&self, cell: u64) -> Option<ArrayVec<u8, BLOCK>>
        ensures some { IsSome result ↔ (0 < length self.now) }
        // What is written is a block, so it is read again.
        ensures bytes { IfSome result (λ b. IsBlock cell self.now × (b.items ≡ block_bytes cell self.now)) }
        ensures size { IfSome result (λ b. length b.items ≡ BLOCK) }
    {
        if self.count == 0 {
            return None;
        }
        let head = Head {
            cell,
            first: self.first,
            count: self.count,
        };
        let mut out: ArrayVec<u8, BLOCK> = ArrayVec::new();
        head.put(&mut out);
        put_bytes(&mut out, self.bytes.as_slice());
        put_zeros(&mut out, MAX_BLOCK - self.bytes.len());
        Some(out)
    }
}
