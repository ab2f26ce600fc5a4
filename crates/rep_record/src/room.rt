//! What a block takes, without its bytes.

ghost use Rattle.std.specs.Prelude.{◌≡◌, ℕ, ◌+◌, ◌*◌, ◌≤◌, ◌++◌, ◌∷◌, ◌↔◌, [], List, length, true, IsSome, IfSome, if◌then◌else◌, ◌==◌};
ghost use Rattle.std.specs.List.{flat_map};
ghost use Rattle.rep_types.specs.declared.judged.Judged.{Judged};
ghost use Rattle.rep_forms.specs.Writes.{write_bytes};
ghost use Rattle.rep_types.specs.declared.verdict.Verdict.{Verdict};
ghost use Rattle.rep_record.specs.Records.{is_placed, content_bytes, body_bytes, spelled, record_bytes};
ghost use Rattle.rep_record.specs.Blocks.{is_next, has_room, filled_by};

use crate::limits::{MAX_BLOCK, MAX_RECORD, MAX_RECORDS};
use crate::record::is_placed;
use rep_types::{Item, Judged, MAX_WRITES, Write};
use std::marker::Model;

/// How many bytes the write has in a record.
#[tactic(auto, using(rep_forms::specs::FormLaws::sizes))]
fn write_len(write: &Write) -> usize
    ensures size { result ≡ length (write_bytes write.now) }
    ensures few { result ≤ 69 }
{
    match &write.value {
        None => 7,
        Some(value) => 7 + value.as_bytes().len(),
    }
}

/// How many bytes the writes have, one after another.
fn writes_len(writes: &[Write]) -> usize
    requires { length writes.now ≤ MAX_WRITES }
    ensures size { result ≡ length (flat_map write_bytes writes.now) }
    ensures few { result ≤ 69 * length writes.now }
{
    let mut size = 0;
    for write in writes {
        size += write_len(write);
    }
    size
}

/// How many bytes the item takes behind its labels.
#[tactic(auto, using(crate::proofs::Rooms::lists_size, rep_forms::specs::FormLaws::sizes))]
fn content_len(item: &Item) -> usize
    ensures size { result ≡ length (content_bytes item.now) }
    ensures few { result ≤ 1186 }
{
    match item {
        Item::WriteSet(write_set) => 2
            + 5 * write_set.reads().len()
            + writes_len(write_set.writes()),
        Item::SetWindow(_) => 4,
    }
}

/// How many bytes a record of the item has, of which its first two say how many they are.
#[tactic(auto, using(crate::proofs::Rooms::record_size, crate::proofs::Rooms::body_size))]
pub(crate) fn item_len(item: &Item) -> usize
    ensures body { (seqno : ℕ) (verdict : Verdict) → result ≡ length (body_bytes seqno item.now verdict) + 2 }
    ensures size { (seqno : ℕ) (verdict : Verdict) → result ≡ length (spelled seqno item.now verdict) }
    ensures few { result ≤ MAX_RECORD }
{
    43 + content_len(item)
}

/// How many bytes the record has, at most 1,229. None where it has no spelling, as `put_record` says.
fn record_len(judged: &Judged) -> Option<usize>
    ensures some { IsSome result ↔ (is_placed judged.now ≡ true) }
    ensures size { IfSome result (λ n. n ≡ length (record_bytes judged.now)) }
    ensures few { IfSome result (λ n. n ≤ MAX_RECORD) }
{
    if !is_placed(judged) {
        return None;
    }
    Some(item_len(&judged.item))
}

/// The first seqno of so many records with one more.
fn first_of(count: u16, first: u64, seqno: u64) -> u64
    ensures { result ≡ (if count == 0 then seqno else first) }
{
    if count == 0 { seqno } else { first }
}

/// How far a block is filled: its first seqno, how many records it has, and how many bytes these have. So it can be asked what a block
/// would take without writing any record.
#[derive(Drop)]
pub struct Room {
    first: u64,
    count: u16,
    size: usize,
}

impl Model for Room {
    ghost use Rattle.std.specs.Prelude.{◌≤◌};
    ghost use Rattle.rep_record.specs.Blocks.{Filled};
    ghost use Rattle.rep_record.specs.declared.limits.TheConstants.{MAX_BLOCK, MAX_RECORDS};

    ghost Value = { Filled };

    ghost view = { λ r. record { first = r.first; count = r.count; size = r.size } };

    ghost invariant = { λ r. (r.count ≤ MAX_RECORDS) × (r.size ≤ MAX_BLOCK) };
}

impl Room {
    /// The room of a block with so many records, the first of this seqno, of so many bytes together.
    pub(crate) fn new(first: u64, count: u16, size: usize) -> Room
        requires few { count ≤ MAX_RECORDS }
        requires size { size ≤ MAX_BLOCK }
        ensures { result ≡ record { first = first; count = count; size = size } }
    {
        Room { first, count, size }
    }

    /// The seqno of the first record; 0 where there is none.
    pub(crate) fn first(&self) -> u64
        ensures { result ≡ self.now.first }
    {
        self.first
    }

    /// How many records there are.
    pub(crate) fn count(&self) -> u16
        ensures count { result ≡ self.now.count }
    {
        self.count
    }

    /// Whether the record's seqno is the next one; the first may be any.
    #[tactic(auto, using(crate::proofs::Rooms::next_by_numbers))]
    fn is_next(&self, judged: &Judged) -> bool
        ensures { (records : List Judged) → self.now ≡ filled_by records → result ≡ is_next records judged.now }
    {
        self.count == 0
            || (judged.seqno >= self.first && judged.seqno - self.first == u64::from(self.count))
    }

    /// Takes room for the record behind the others, where the block takes it, and says whether it does, as `BlockBuilder::push`.
    #[tactic(auto, using(crate::proofs::Rooms::filled_more))]
    pub fn take(&mut self, judged: &Judged) -> bool
        ensures room { (records : List Judged) → self.old ≡ filled_by records → result ≡ has_room records judged.now }
        ensures after { (records : List Judged) → self.old ≡ filled_by records → self.new ≡ filled_by (if has_room records judged.now then records ++ judged.now ∷ [] else records) }
    {
        let Some(size) = record_len(judged) else {
            return false;
        };
        if !self.is_next(judged) || self.count >= MAX_RECORDS {
            return false;
        }
        if self.size + size > MAX_BLOCK {
            return false;
        }
        self.first = first_of(self.count, self.first, judged.seqno);
        self.count += 1;
        self.size += size;
        true
    }
}
