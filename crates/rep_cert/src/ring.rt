//! The entries that a certifier keeps: those that it was made with, and a ring of those that came
//! since.

ghost use Rattle.std.specs.Prelude.{◌≡◌, ◌+◌, ◌-◌, ◌<◌, ◌≤◌, ◌++◌, length, IfOk, IfErr};
ghost use Rattle.circular_buffer.specs.Buffer.{buffer, keep_last};
ghost use Rattle.rep_types.specs.declared.item.Item.TheVariants.{WriteSet as OfWriteSet};
ghost use Rattle.rep_types.specs.Order.{is_commit, recent};
ghost use Rattle.rep_cert.specs.Holdings.{upto};
ghost use Rattle.rep_cert.specs.Kept.{Ascends, own_entry};

use crate::entries::push_window;
use circular_buffer::HeapCircularBuffer;
use rep_types::{Entry, MAX_AHEAD, MAX_WINDOW, Refusal, Verdict, WriteSet};
use std::alloc::Global;

/// How many of the items that committed since it was made a certifier keeps. A window that can be
/// asked for lies at most `MAX_AHEAD` positions back and spans at most `MAX_WINDOW` seqnos, so such
/// windows hold entries of so many last seqnos together. Undoing the last item asks for one more.
pub const KEPT_ENTRIES: usize = MAX_WINDOW as usize + MAX_AHEAD as usize + 1;

/// Keeps the entry of the write set with this seqno, if it commits; the oldest entry goes where there is
/// no room.
pub(crate) fn keep(
    entries: &mut HeapCircularBuffer<Entry>,
    seqno: u64,
    item: &WriteSet,
    verdict: Verdict,
)
    requires { length entries.old.items ≤ entries.old.capacity }
    ensures { entries.new ≡ buffer (keep_last entries.old.capacity (entries.old.items ++ own_entry seqno (OfWriteSet item.now) (is_commit verdict))) entries.old.capacity }
{
    if verdict.is_commit() {
        entries.push_back(Entry::new(seqno, item.written()));
    }
}

/// Drops the newest entry, if it is of the item with this seqno, which is the last one.
#[tactic(auto, using(crate::proofs::Kept::without_none, crate::proofs::Kept::no_last))]
pub(crate) fn forget(entries: &mut HeapCircularBuffer<Entry>, seqno: u64)
    requires one { 0 < seqno }
    requires last { Ascends 0 (seqno + 1) entries.old.items }
    ensures { entries.new ≡ buffer (upto (seqno - 1) entries.old.items) entries.old.capacity }
{
    if let Some(newest) = entries.back() {
        if newest.seqno() == seqno {
            entries.pop_back();
        }
    }
}

/// Copies of these entries, those of the ring behind the others, from the floor on and up to the
/// position.
///
/// Refuses with `OutOfMemory` where the list cannot grow.
pub(crate) fn entries_between(
    alloc: Global,
    given: &[Entry],
    admitted: &HeapCircularBuffer<Entry>,
    floor: u64,
    position: u64,
) -> Result<Vec<Entry>, Refusal>
    ensures between { IfOk result (λ copies. copies.items ≡ recent floor (upto position (given.now ++ admitted.now.items))) }
    ensures refused { IfErr result (λ refusal. refusal ≡ Refusal.OutOfMemory) }
{
    let (older, newer) = admitted.as_slices();
    let mut copies = Vec::new(alloc);
    push_window(&mut copies, given, floor, position)?;
    push_window(&mut copies, older, floor, position)?;
    push_window(&mut copies, newer, floor, position)?;
    Ok(copies)
}
