//! The line of an item.

ghost use Rattle.std.specs.Prelude.{◌≡◌, [], false, IfOk, Err};
ghost use Rattle.std.specs.Option.{option_map};
ghost use Rattle.rep_types.specs.Transactions.{Transaction, transaction, Renews};
ghost use Rattle.rep_types.specs.Items.{as_item};
ghost use Rattle.rep_record.specs.Grammar.{IsItemLine};
ghost use Rattle.rep_record.specs.Reading.{labels_in, keys_in, reads_in, writes_in, tail_in, item_form, outcome, item_outcome, item_line, limited};
ghost use Rattle.rep_record.specs.Drafts.{Gives, drafted_reads, drafted_writes, drafted, limited_draft};

use crate::few::keep;
use crate::pieces::{read_key, read_label, read_write};
use crate::published::no_effect;
use crate::words::Words;
use arrayvec::ArrayVec;
use rep_types::{Item, Key, MAX_READS, MAX_WRITES, Refusal, Write, WriteSet, read_number};
use std::marker::Model;

/// What an item's line says, as far as it is kept: of the reads and of the writes, one more than a
/// write set may have, and of the values none that is too long.
#[derive(Drop)]
struct Draft {
    source: u64,
    trx: u64,
    last_seen: u64,
    reads: ArrayVec<Key, 17>,
    writes: ArrayVec<Write, 17>,
    has_long: bool,
}

impl Model for Draft {
    ghost use Rattle.std.specs.Prelude.{Bool};
    ghost use Rattle.rep_types.specs.Transactions.{Transaction, transaction};

    ghost Value = { Transaction × Bool };

    ghost view = { λ d. (transaction d.source d.trx d.last_seen d.reads.items d.writes.items, d.has_long) };
}

impl Draft {
    /// A draft of nothing.
    fn new() -> Draft
        ensures { result ≡ (transaction 0 0 0 [] [], false) }
    {
        Draft {
            source: 0,
            trx: 0,
            last_seen: 0,
            reads: ArrayVec::new(),
            writes: ArrayVec::new(),
            has_long: false,
        }
    }

    /// Puts the write set in the item's place; or says the first limit that it passes, in the line with this number.
    fn renew(&self, number: u64, item: &mut Item) -> Result<(), Refusal>
        ensures { Renews (as_item (limited_draft number self.now)) item.old item.new result }
    {
        if self.reads.len() > MAX_READS {
            return Err(Refusal::TooManyReads);
        }
        if self.writes.len() > MAX_WRITES {
            return Err(Refusal::TooManyWrites);
        }
        if self.has_long {
            return Err(Refusal::ValueTooLong);
        }
        let outcome = item.renew(
            self.source,
            self.trx,
            self.last_seen,
            self.reads.as_slice(),
            self.writes.as_slice(),
        );
        match outcome {
            Ok(()) => Ok(()),
            Err(_) => Err(Refusal::Malformed { at: number }),
        }
    }
}

/// The labels, 0 and 0 where none stand there.
#[tactic(auto, unfolding(crate::specs::Reading::labels_in))]
pub(crate) fn read_labels(words: &mut Words) -> Option<(u64, u64)>
    ensures { Gives (λ label. label) result words.new (labels_in words.old) }
{
    if !words.skip(b"id") {
        return Some((0, 0));
    }
    read_label(words.next_word()?)
}

/// Puts the first 17 of the keys up to the word `w` into a list that has none.
#[tactic(auto, using(crate::proofs::Kept::keys_kept))]
fn read_keys(words: &mut Words, keys: &mut ArrayVec<Key, 17>) -> Option<()>
    requires { keys.old.items ≡ [] }
    ensures { Gives (λ _. keys.new.items) result words.new (option_map drafted_reads (keys_in words.old)) }
{
    loop {
        keep(keys, read_key(words.next_word()?)?);
        if words.is_next(b"w") {
            return Some(());
        }
    }
}

/// Puts the first 17 of the keys that are read into a list that has none.
#[tactic(auto, unfolding(crate::specs::Reading::reads_in))]
fn read_reads(words: &mut Words, keys: &mut ArrayVec<Key, 17>) -> Option<()>
    requires { keys.old.items ≡ [] }
    ensures { Gives (λ _. keys.new.items) result words.new (option_map drafted_reads (reads_in words.old)) }
{
    if !words.skip(b"r") {
        return Some(());
    }
    read_keys(words, keys)
}

/// Puts the first 17 of the writes into a list that has none, and says whether a value is too long.
#[tactic(auto, using(crate::proofs::Kept::writes_kept), unfolding(crate::specs::Reading::writes_in))]
fn read_writes(words: &mut Words, writes: &mut ArrayVec<Write, 17>) -> Option<bool>
    requires { writes.old.items ≡ [] }
    ensures { option_map (λ long. (writes.new.items, long)) result ≡ option_map drafted_writes (writes_in words.old) }
{
    if !words.skip(b"w") || words.is_empty() {
        return None;
    }
    let mut has_long = false;
    while let Some(word) = words.next_word() {
        let (write, is_long) = read_write(word)?;
        keep(writes, write);
        has_long = has_long || is_long;
    }
    Some(has_long)
}

/// What a tail says, put into a draft without reads and writes, which so stays in its place.
#[tactic(auto, unfolding(crate::specs::Reading::tail_in))]
fn read_tail_draft(words: &mut Words, draft: &mut Draft) -> Option<()>
    requires reads { draft.old.0.reads ≡ [] }
    requires writes { draft.old.0.writes ≡ [] }
    ensures { option_map (λ _. draft.new) result ≡ option_map drafted (tail_in words.old) }
{
    draft.last_seen = read_number(words.next_word()?)?;
    let (source, trx) = read_labels(words)?;
    draft.source = source;
    draft.trx = trx;
    read_reads(words, &mut draft.reads)?;
    draft.has_long = read_writes(words, &mut draft.writes)?;
    Some(())
}

/// What an item's line says, put into a draft without reads and writes.
fn read_draft(line: &[u8], draft: &mut Draft) -> Option<()>
    requires reads { draft.old.0.reads ≡ [] }
    requires writes { draft.old.0.writes ≡ [] }
    ensures { option_map (λ _. draft.new) result ≡ option_map drafted (item_form line.now) }
{
    let mut words = Words::new(line);
    if !words.skip(b"item") {
        return None;
    }
    read_tail_draft(&mut words, draft)
}

/// Puts the write set of which this was kept in the item's place, in the line with this number; a line of which nothing was is
/// malformed.
fn renew_by(found: Option<()>, draft: &Draft, number: u64, item: &mut Item) -> Result<(), Refusal>
    ensures { Renews (as_item (outcome (limited_draft number) number (option_map (λ _. draft.now) found))) item.old item.new result }
{
    if found.is_none() {
        return Err(Refusal::Malformed { at: number });
    }
    draft.renew(number, item)
}

/// Puts the write set that the words say in the item's place, in the line with this number: `last_seen [id source:trx]
/// [r key key ..] w write write ..`, as in the line of an item.
///
/// Refuses as `read_item_line` does.
#[tactic(auto, using(crate::proofs::Outcomes::item_kept))]
pub(crate) fn renew_by_tail(mut words: Words, number: u64, item: &mut Item) -> Result<(), Refusal>
    ensures { Renews (as_item (item_outcome number (tail_in words.entry))) item.old item.new result }
{
    let mut draft = Draft::new();
    let found = read_tail_draft(&mut words, &mut draft);
    renew_by(found, &draft, number, item)
}

/// Puts the write set that the line with this number says in the item's place.
///
/// Refuses as `read_item_line` does.
#[tactic(auto, using(crate::proofs::Outcomes::item_kept))]
pub(crate) fn renew_by_item_line(line: &[u8], number: u64, item: &mut Item) -> Result<(), Refusal>
    ensures { Renews (as_item (item_line number line.now)) item.old item.new result }
{
    let mut draft = Draft::new();
    let found = read_draft(line, &mut draft);
    renew_by(found, &draft, number, item)
}

/// The write set that the line with this number says: `item last_seen [id source:trx]
/// [r key key ..] w write write ..`, words between spaces, where a key is `table/row`, and a write is
/// `key=hex`, a put of these bytes, or `key-`, a delete.
///
/// Refuses with `Malformed`, `at` being the line's number, a line that is not of that form. Then it
/// refuses, in this order: more than 16 reads with `TooManyReads`, more than 16 writes with
/// `TooManyWrites`, a value of more than 62 bytes with `ValueTooLong`, and with `Malformed` keys that
/// do not ascend strictly, in the reads or in the writes.
pub fn read_item_line(line: &[u8], number: u64) -> Result<WriteSet, Refusal>
    // What is read is in the grammar.
    ensures found { IfOk result (λ w. IsItemLine line.now w) }
    // Of a line of the form, the write set, or the first limit that it passes.
    ensures formed { (w : Transaction) → IsItemLine line.now w → result ≡ limited number w }
    // A line of no form is malformed.
    ensures unformed { ((w : Transaction) → IsItemLine line.now w → ⊥) → result ≡ Err (Refusal.Malformed number) }
    ensures exact { result ≡ item_line number line.now }
{
    let mut item = no_effect();
    if let Err(refusal) = renew_by_item_line(line, number, &mut item) {
        return Err(refusal);
    }
    match item {
        Item::WriteSet(write_set) => Ok(write_set),
        Item::SetWindow(_) => unreachable!(),
    }
}
