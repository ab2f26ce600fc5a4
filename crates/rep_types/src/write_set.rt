//! What a transaction hands in when it asks to commit.

ghost use Rattle.std.specs.Prelude.{◌≡◌, ◌+◌, ◌<◌, ◌≤◌, ℕ, [], None, length, map, IfSome, ⊤};
ghost use Rattle.std.specs.List.{AllByRecursion, list_any};
ghost use Rattle.rep_types.specs.Keys.{disorder, key_eq};
ghost use Rattle.rep_types.specs.Transactions.{key_of, misplaced, HasShortValue, IsWithinLimits, written, checked, transaction, unless};

use crate::key::Key;
use crate::limits::{MAX_READS, MAX_WRITES};
use crate::refusal::Refusal;
use crate::value::Write;
use arrayvec::ArrayVec;
use std::alloc::AllocError;
use std::marker::Model;

/// What a transaction hands in when it asks to commit: the keys that it read, its writes, and the
/// position of the state that it saw (deferred update: Pedone, Guerraoui and Schiper, 2003).
#[derive(Debug, Drop, PartialEq, Eq)]
pub struct WriteSet {
    source: u64,
    trx: u64,
    last_seen: u64,
    reads: ArrayVec<Key, MAX_READS>,
    writes: ArrayVec<Write, MAX_WRITES>,
}

impl Model for WriteSet {
    ghost use Rattle.rep_types.specs.Transactions.{Transaction, IsWithinLimits, transaction};

    ghost Value = { Transaction };

    ghost view = { λ w. transaction w.source w.trx w.last_seen w.reads.items w.writes.items };

    ghost invariant = { λ w. IsWithinLimits (transaction w.source w.trx w.last_seen w.reads.items w.writes.items) };

    ghost inverse = { λ t. record { source = t.source; trx = t.trx; last_seen = t.last_seen; reads = record { items = t.reads }; writes = record { items = t.writes } } };
}

/// The place of the first key that is not above the one before it.
#[tactic(auto, using(crate::proofs::Disorder::disorder_first, crate::proofs::Disorder::disorder_step, crate::proofs::Disorder::disorder_end))]
fn first_disorder(keys: &[Key]) -> Option<usize>
    ensures value { result ≡ disorder keys.now }
    ensures within { IfSome result (λ i. i < length keys.now) }
{
    for i in 1..keys.len() {
        if keys[i - 1] >= keys[i] {
            return Some(i);
        }
    }
    None
}

/// The keys of the writes.
fn keys_of(writes: &[Write]) -> ArrayVec<Key, MAX_WRITES>
    requires { length writes.now ≤ MAX_WRITES }
    ensures { result.items ≡ map key_of writes.now }
{
    let mut keys = ArrayVec::new();
    for write in writes {
        keys.push(write.key);
    }
    keys
}

/// The index, in the reads followed by the writes, of the first entry that is not above its
/// predecessor; where all are, the number of reads where there is no write.
fn first_misplaced(reads: &[Key], writes: &[Write]) -> Option<usize>
    requires few_reads { length reads.now ≤ MAX_READS }
    requires few_writes { length writes.now ≤ MAX_WRITES }
    ensures value { result ≡ misplaced reads.now writes.now }
    ensures small { IfSome result (λ at. at ≤ MAX_READS + MAX_WRITES) }
{
    if let Some(at) = first_disorder(reads) {
        return Some(at);
    }
    if let Some(at) = first_disorder(keys_of(writes).as_slice()) {
        return Some(reads.len() + at);
    }
    if writes.is_empty() {
        return Some(reads.len());
    }
    None
}

/// Whether the key is one of these.
fn is_among(keys: &[Key], key: Key) -> bool
    ensures { result ≡ list_any (key_eq key) keys.now }
{
    keys.iter().any(|other| key.is(*other))
}

/// Whether one of the writes is of the key.
fn is_written(writes: &[Write], key: Key) -> bool
    ensures { result ≡ list_any (λ write. key_eq key write.key) writes.now }
{
    writes.iter().any(|write| key.is(write.key))
}

/// Puts copies of the writes where none stands.
fn put_copies(writes: &[Write], copies: &mut ArrayVec<Write, MAX_WRITES>)
    requires none { copies.old.items ≡ [] }
    requires few { length writes.now ≤ MAX_WRITES }
    ensures same { copies.new.items ≡ writes.now }
    ensures short { AllByRecursion HasShortValue writes.now }
{
    for write in writes {
        copies.push(write.copied());
    }
}

/// Puts the keys where none stands.
fn put_keys(keys: &[Key], kept: &mut ArrayVec<Key, MAX_READS>)
    requires none { kept.old.items ≡ [] }
    requires few { length keys.now ≤ MAX_READS }
    ensures { kept.new.items ≡ keys.now }
{
    for key in keys {
        kept.push(*key);
    }
}

/// The first limit of a write set that these reads and writes pass.
fn misfit(reads: &[Key], writes: &[Write]) -> Option<Refusal>
    ensures value { (source trx last_seen : ℕ) → checked (transaction source trx last_seen reads.now writes.now) ≡ unless (transaction source trx last_seen reads.now writes.now) result }
    ensures few { result ≡ None → (length reads.now ≤ MAX_READS) × (length writes.now ≤ MAX_WRITES) }
    ensures fits { result ≡ None → AllByRecursion HasShortValue writes.now → (source trx last_seen : ℕ) → IsWithinLimits (transaction source trx last_seen reads.now writes.now) }
{
    if reads.len() > MAX_READS {
        return Some(Refusal::TooManyReads);
    }
    if writes.len() > MAX_WRITES {
        return Some(Refusal::TooManyWrites);
    }
    match first_misplaced(reads, writes) {
        Some(at) => Some(Refusal::Malformed { at: at as u64 }),
        None => None,
    }
}

impl WriteSet {
    ghost use Rattle.rep_types.specs.Transactions.{IsWithinLimits, checked, transaction, named, Renews};
    ghost use Rattle.rep_types.specs.Order.{touches};

    /// The write set of the transaction `trx` of `source`, two labels without effect on a verdict,
    /// which saw the state at the position `last_seen`.
    ///
    /// Refuses, in this order: more than 16 reads with `TooManyReads`; more than 16 writes with
    /// `TooManyWrites`; and with `Malformed` the first entry, as its index in the reads followed by
    /// the writes, that is not above its predecessor in its own list, or, where all are, no write
    /// at all, `at` being the number of reads.
    pub fn new(
        source: u64,
        trx: u64,
        last_seen: u64,
        reads: &[Key],
        writes: &[Write],
    ) -> Result<WriteSet, Refusal>
        ensures { result ≡ checked (transaction source trx last_seen reads.now writes.now) }
    {
        if let Some(refusal) = misfit(reads, writes) {
            return Err(refusal);
        }
        let mut made = WriteSet {
            source,
            trx,
            last_seen,
            reads: ArrayVec::new(),
            writes: ArrayVec::new(),
        };
        put_keys(reads, &mut made.reads);
        put_copies(writes, &mut made.writes);
        Ok(made)
    }

    /// Puts a write set in the place of this one, which so is not moved: what `new` makes of these.
    ///
    /// Refuses as `new` does; then this one stays.
    pub fn renew(
        &mut self,
        source: u64,
        trx: u64,
        last_seen: u64,
        reads: &[Key],
        writes: &[Write],
    ) -> Result<(), Refusal>
        ensures { Renews (checked (transaction source trx last_seen reads.now writes.now)) self.old self.new result }
    {
        if let Some(refusal) = misfit(reads, writes) {
            return Err(refusal);
        }
        self.source = source;
        self.trx = trx;
        self.last_seen = last_seen;
        self.reads.clear();
        put_keys(reads, &mut self.reads);
        self.writes.clear();
        put_copies(writes, &mut self.writes);
        Ok(())
    }

    /// A copy, which takes no memory.
    pub fn copied(&self) -> WriteSet
        ensures { result ≡ self.now }
    {
        let mut copy = WriteSet {
            source: self.source,
            trx: self.trx,
            last_seen: self.last_seen,
            reads: ArrayVec::new(),
            writes: ArrayVec::new(),
        };
        put_keys(self.reads.as_slice(), &mut copy.reads);
        put_copies(self.writes.as_slice(), &mut copy.writes);
        copy
    }

    /// The label of the node or client that the transaction ran at.
    pub fn source(&self) -> u64
        ensures { result ≡ self.now.source }
    {
        self.source
    }

    /// The label of the transaction at its source.
    pub fn trx(&self) -> u64
        ensures { result ≡ self.now.trx }
    {
        self.trx
    }

    /// The position of the state that the transaction saw.
    pub fn last_seen(&self) -> u64
        ensures { result ≡ self.now.last_seen }
    {
        self.last_seen
    }

    /// The keys that the transaction read, in ascending order.
    pub fn reads(&self) -> &[Key]
        ensures reads { result.now ≡ self.now.reads }
        ensures limits { IsWithinLimits self.now }
    {
        self.reads.as_slice()
    }

    /// What the transaction writes, in ascending order by key.
    pub fn writes(&self) -> &[Write]
        ensures writes { result.now ≡ self.now.writes }
        ensures limits { IsWithinLimits self.now }
    {
        self.writes.as_slice()
    }

    /// The keys that the transaction writes, in ascending order.
    pub fn written(&self) -> ArrayVec<Key, MAX_WRITES>
        ensures { result.items ≡ written self.now }
    {
        keys_of(self.writes())
    }

    /// Whether the transaction reads or writes the key.
    #[tactic(auto, using(crate::proofs::Tests::tests))]
    pub fn names(&self, key: Key) -> bool
        ensures { result ≡ list_any (key_eq key) (named self.now) }
    {
        is_among(self.reads(), key) || is_written(self.writes(), key)
    }

    /// Whether the transaction reads or writes one of the keys.
    pub fn names_one_of(&self, keys: &[Key]) -> bool
        ensures { result ≡ touches keys.now (named self.now) }
    {
        keys.iter().any(|key| self.names(*key))
    }
}

impl Clone for WriteSet {
    ghost is_clone = { λ w copy. copy ≡ w };

    ghost is_infallible = { λ _. ⊤ };

    fn clone(&self) -> Result<WriteSet, AllocError> {
        Ok(self.copied())
    }
}
