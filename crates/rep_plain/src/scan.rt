//! Comparisons of an item with those before it.

ghost use Rattle.std.specs.Prelude.{◌≡◌, ◌&&◌, IfOk, IfErr};
ghost use Rattle.std.specs.List.{list_any};
ghost use Rattle.std.specs.Option.{option_copied};
ghost use Rattle.rep_types.specs.Keys.{key_eq};
ghost use Rattle.rep_types.specs.Transactions.{named};
ghost use Rattle.rep_types.specs.Reaches.{reach};
ghost use Rattle.rep_types.specs.Order.{is_kept, against, seqnos_against, greatest, entries, entry_of, items_of, latest, effects, row_in, recent};

use rep_types::{Entry, Judged, Key, Params, Reach, Refusal, Value, Write, WriteSet};
use std::alloc::Global;

/// Whether one of the writes is of a key that the item reads or writes.
fn touches_item(writes: &[Write], item: &WriteSet) -> bool
    ensures { result ≡ list_any (λ write. list_any (key_eq write.key) (named item.now)) writes.now }
{
    writes.iter().any(|write| item.names(write.key))
}

/// Whether the earlier item stands against this one: it is a write set that committed, this one's
/// transaction had not seen it, and it wrote a key that this one reads or writes.
#[tactic(auto, using(rep_types::proofs::Tests::tests))]
fn is_against(earlier: &Judged, item: &WriteSet) -> bool
    ensures { result ≡ (is_kept earlier.now && against item.now (entry_of earlier.now)) }
{
    item.last_seen() < earlier.seqno
        && earlier.is_kept()
        && touches_item(earlier.item.writes(), item)
}

/// The greatest seqno among the items that stand against this one.
pub(crate) fn greatest_conflict(items: &[Judged], item: &WriteSet) -> Option<u64>
    ensures { result ≡ greatest (seqnos_against item.now (entries items.now)) }
{
    let mut found = None;
    for earlier in items {
        if is_against(earlier, item) {
            found = found.max(Some(earlier.seqno));
        }
    }
    found
}

/// The last of the writes that is of the key.
#[tactic(auto, using(rep_types::proofs::Latest::latest_more, rep_types::proofs::Latest::latest_all))]
fn last_write(writes: &[Write], key: Key) -> Option<&Write>
    ensures { option_copied result ≡ latest (λ write. key_eq write.key key) writes.now }
{
    let mut found = None;
    for write in writes {
        if write.key == key {
            found = Some(write);
        }
    }
    found
}

/// The value that the last committed write of the key put.
pub(crate) fn row_of(items: &[Judged], key: Key) -> Option<&Value>
    ensures { option_copied result ≡ row_in (effects items.now) key }
{
    let mut row = None;
    for judged in items {
        if judged.verdict.is_commit() {
            if let Some(write) = last_write(judged.item.writes(), key) {
                row = write.value.as_ref();
            }
        }
    }
    row
}

/// How far back the window reaches after these items.
pub(crate) fn reach_of(params: &Params, items: &[Judged]) -> Reach
    ensures { result ≡ reach params.now (items_of items.now) }
{
    let mut reach = Reach::first(params.window_size());
    for place in 0..items.len() {
        reach = reach.after(place as u64 + 1, &items[place].item);
    }
    reach
}

/// The committed write sets from the floor on, each as its seqno and the keys that it wrote.
pub(crate) fn recent_entries(
    alloc: Global,
    items: &[Judged],
    floor: u64,
) -> Result<Vec<Entry>, Refusal>
    ensures recent { IfOk result (λ kept. kept.items ≡ recent floor (entries items.now)) }
    ensures refused { IfErr result (λ refusal. refusal ≡ Refusal.OutOfMemory) }
{
    let mut kept = Vec::new(alloc);
    for judged in items {
        if judged.is_kept() && judged.seqno >= floor {
            kept.push(Entry::new(judged.seqno, judged.item.written()))?;
        }
    }
    Ok(kept)
}
