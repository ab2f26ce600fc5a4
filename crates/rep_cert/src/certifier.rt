//! The certifier.

ghost use Rattle.std.specs.Prelude.{◌≡◌, ℕ, ◌+◌, ◌≤◌, ◌↔◌, nat_le, max, IfOk, IfErr, OnOk, OnErr, IsErr, IsSome, Some, None};
ghost use Rattle.rep_types.specs.declared.item.Item.TheVariants.{WriteSet as OfWriteSet, SetWindow as OfSetWindow};
ghost use Rattle.rep_types.specs.Order.{conflict_with};
ghost use Rattle.rep_cert.specs.Writers.{above};
ghost use Rattle.rep_cert.specs.Holdings.{IsAskable, Admits, made_at, window_of, verdict_of};

use crate::entries::is_of_window;
use crate::reaches::{begin, drop_last, raised, reach_before, reach_on};
use crate::ring::{KEPT_ENTRIES, entries_between, forget, keep};
use crate::writers::LastWriters;
use circular_buffer::HeapCircularBuffer;
use rep_types::{
    Entry, Item, MAX_SEQNO, Params, Reach, Refusal, Verdict, Window, WindowSize, WriteSet,
};
use std::alloc::Global;
use std::marker::Model;

/// Judges each item of the delivered order from the window alone (certification: Pedone,
/// Guerraoui and Schiper, 2003). It keeps the last committed write sets, each as its seqno and the keys
/// that it wrote, and how far back the windows of the last positions reach. Beside them stands the last
/// committed writer of each row, so that an item is judged by one look-up for each of its keys.
#[derive(Debug, Drop)]
pub struct Certifier {
    params: Params,
    /// The position that it was made at. No code reads it: contracts say by it which windows can be
    /// asked for.
    made_at: u64,
    delivered: u64,
    /// Whether the last change was one more item. No code reads it: `undo_last` asks for it.
    undoable: bool,
    /// The entries that it was made with: those that the window spans at that position.
    given: Vec<Entry>,
    /// The entries of the items that committed since, the last of them.
    admitted: HeapCircularBuffer<Entry>,
    /// How far back the windows of the last positions reach, that of the present one last.
    reaches: HeapCircularBuffer<Reach>,
    /// The last committed writer of each row, and the former ones of the rows that the last item
    /// wrote.
    writers: LastWriters,
}

impl Model for Certifier {
    ghost use Rattle.std.specs.Prelude.{◌++◌};
    ghost use Rattle.rep_cert.specs.Holdings.{Holdings};
    ghost use Rattle.rep_cert.specs.Kept.{IsKept, Reached, KeepsWriters, holdings};

    ghost Value = { Holdings };

    ghost view = { λ c. holdings c.params c.made_at c.delivered c.undoable c.reaches.items (c.given.items ++ c.admitted.items) };

    ghost invariant = { λ c. IsKept c.made_at c.delivered c.undoable c.given.items c.admitted.items c.admitted.capacity × Reached c.made_at c.delivered c.undoable c.reaches.items c.reaches.capacity × KeepsWriters c.params c.delivered c.undoable (c.given.items ++ c.admitted.items) c.writers.starts.items c.writers.seqnos.items c.writers.former.items };
}

/// The verdict on an item of the schema that is not stale, by the last writer of its keys: one that
/// its transaction had not seen.
fn verdict_above(seen: u64, last: u64) -> Verdict
    ensures { result ≡ conflict_with (above seen last) }
{
    if last > seen {
        Verdict::Conflict(last)
    } else {
        Verdict::Commit
    }
}

/// Whether no seqno is left behind this one.
fn is_last(seqno: u64) -> bool
    ensures { result ≡ nat_le MAX_SEQNO seqno }
{
    seqno >= MAX_SEQNO
}

impl Certifier {
    /// A certifier at a position, the number of items that were delivered so far. It holds the
    /// window of that position: its size, its floor, and the committed write sets that it spans, in
    /// ascending order.
    ///
    /// Any position and any window are taken. A floor below what the size spans at the position is
    /// raised to that, and the entries that are not from the floor up to the position are shed. The
    /// others are held as they are, in the order given, out of order or doubled as they may be: a
    /// conflict is with the greatest seqno among those that stand against the item, and `window_at`
    /// gives each of them, in that order and as often as it was given. Keys that are no rows of the
    /// schema stay in them, and no item meets such a key.
    ///
    /// Refuses with `OutOfMemory` where there is no room for what it may come to keep.
    pub fn new(
        alloc: Global,
        params: Params,
        position: u64,
        window: Window,
    ) -> Result<Certifier, Refusal>
        ensures made { IfOk result (λ c. c ≡ record { current = made_at params position window; before = None }) }
        ensures refused { IfErr result (λ refusal. refusal ≡ Refusal.OutOfMemory) }
    {
        let reach = raised(window.size(), window.floor(), position);
        let reaches = begin(alloc, reach)?;
        let admitted = HeapCircularBuffer::with_capacity(alloc, KEPT_ENTRIES)?;
        let mut writers = LastWriters::new(alloc, params.schema())?;
        let mut given = window.into_entries();
        given.retain(|entry| is_of_window(entry.seqno(), reach.floor, position));
        writers.raise_all(params.schema(), &given);
        Ok(Certifier {
            params,
            made_at: position,
            delivered: position,
            undoable: false,
            given,
            admitted,
            reaches,
            writers,
        })
    }

    /// The verdict on the write set, were it the next item, at the seqno after the last one. It takes
    /// no memory.
    pub fn judge(&self, item: &WriteSet) -> Verdict
        ensures { result ≡ verdict_of self.now.current (OfWriteSet item.now) }
    {
        let seen = item.last_seen();
        if seen > self.delivered {
            return Verdict::Future;
        }
        if !self.params.schema().contains_all(item) {
            return Verdict::BadKey;
        }
        let reach = reach_before(&self.reaches, 0);
        if seen < reach.floor.saturating_sub(1) {
            return Verdict::Stale;
        }
        verdict_above(seen, self.writers.last_of(item))
    }

    /// The verdict on the item of either kind, were it the next one. It takes no memory. A change of the window's size commits.
    pub fn judge_item(&self, item: &Item) -> Verdict
        ensures { result ≡ verdict_of self.now.current item.now }
    {
        match item {
            Item::WriteSet(write_set) => self.judge(write_set),
            Item::SetWindow(_) => Verdict::Commit,
        }
    }

    /// Takes the write set as the next item of the order, and says its seqno and its verdict. Whatever
    /// that is, the item has taken the seqno. It takes no memory.
    ///
    /// Refuses with `Exhausted` where no seqno is left, at `MAX_SEQNO` and above it; the certifier is
    /// then as it was.
    pub fn admit(&mut self, item: &WriteSet) -> Result<(u64, Verdict), Refusal>
        ensures seqno { IfOk result (λ judged. judged.0 ≡ self.old.current.delivered + 1) }
        ensures verdict { IfOk result (λ judged. judged.1 ≡ verdict_of self.old.current (OfWriteSet item.now)) }
        ensures admitted { OnOk result (Admits self.old.current (OfWriteSet item.now) self.new.current) }
        // What stood before can be had back.
        ensures undoable { OnOk result (self.new.before ≡ Some self.old.current) }

        ensures exhausted { IsErr result ↔ (MAX_SEQNO ≤ self.old.current.delivered) }
        ensures refused { IfErr result (λ refusal. refusal ≡ Refusal.Exhausted) }
        ensures unchanged { OnErr result (self.new ≡ self.old) }
    {
        if is_last(self.delivered) {
            return Err(Refusal::Exhausted);
        }
        let verdict = self.judge(item);
        let seqno = self.delivered + 1;
        keep(&mut self.admitted, seqno, item, verdict);
        let size = reach_before(&self.reaches, 0).size;
        reach_on(&mut self.reaches, size, seqno);
        self.writers.note_judged(seqno, item, verdict);
        self.delivered = seqno;
        self.undoable = true;
        Ok((seqno, verdict))
    }

    /// Takes a change of the window's size as the next item of the order, and says its seqno and its
    /// verdict, which is `Commit`. The size holds from that seqno on. It takes no memory.
    ///
    /// The labels that the item has in the order change no window, so they are not asked for.
    ///
    /// Refuses with `Exhausted` where no seqno is left, at `MAX_SEQNO` and above it; the certifier is
    /// then as it was.
    pub fn set_window(&mut self, size: WindowSize) -> Result<(u64, Verdict), Refusal>
        ensures seqno { IfOk result (λ judged. judged.0 ≡ self.old.current.delivered + 1) }
        ensures verdict { IfOk result (λ judged. judged.1 ≡ Verdict.Commit) }
        ensures admitted { OnOk result ((source trx : ℕ) → Admits self.old.current (OfSetWindow (record { size = size; source = source; trx = trx })) self.new.current) }
        // What stood before can be had back.
        ensures undoable { OnOk result (self.new.before ≡ Some self.old.current) }

        ensures exhausted { IsErr result ↔ (MAX_SEQNO ≤ self.old.current.delivered) }
        ensures refused { IfErr result (λ refusal. refusal ≡ Refusal.Exhausted) }
        ensures unchanged { OnErr result (self.new ≡ self.old) }
    {
        if is_last(self.delivered) {
            return Err(Refusal::Exhausted);
        }
        let seqno = self.delivered + 1;
        reach_on(&mut self.reaches, size, seqno);
        self.writers.forget_former();
        self.delivered += 1;
        self.undoable = true;
        Ok((seqno, Verdict::Commit))
    }

    /// Takes the next item of the order, of either kind, and says its seqno and its verdict. It takes
    /// no memory.
    ///
    /// Refuses with `Exhausted` where no seqno is left, at `MAX_SEQNO` and above it; the certifier is
    /// then as it was.
    pub fn admit_item(&mut self, item: &Item) -> Result<(u64, Verdict), Refusal>
        ensures seqno { IfOk result (λ judged. judged.0 ≡ self.old.current.delivered + 1) }
        ensures verdict { IfOk result (λ judged. judged.1 ≡ verdict_of self.old.current item.now) }
        ensures admitted { OnOk result (Admits self.old.current item.now self.new.current) }
        // What stood before can be had back.
        ensures undoable { OnOk result (self.new.before ≡ Some self.old.current) }

        ensures exhausted { IsErr result ↔ (MAX_SEQNO ≤ self.old.current.delivered) }
        ensures refused { IfErr result (λ refusal. refusal ≡ Refusal.Exhausted) }
        ensures unchanged { OnErr result (self.new ≡ self.old) }
    {
        match item {
            Item::WriteSet(write_set) => self.admit(write_set),
            Item::SetWindow(change) => self.set_window(change.size),
        }
    }

    /// Takes the last item back, of either kind, where the last call that changed the certifier took
    /// one more item. It then holds what it held before that item, and no other item can be undone.
    pub fn undo_last(&mut self)
        requires { IsSome self.old.before }
        ensures current { self.old.before ≡ Some self.new.current }
        ensures before { self.new.before ≡ None }
    {
        forget(&mut self.admitted, self.delivered);
        drop_last(&mut self.reaches);
        self.writers.restore();
        self.delivered -= 1;
        self.undoable = false;
    }

    /// The window at a position: its size, its floor, and the committed write sets that it spans, in
    /// ascending order. The position is not below the one that the certifier was made at, and is one
    /// of the last 257, from `MAX_AHEAD` (256) below the present one to the present one.
    ///
    /// Refuses with `OutOfMemory` where the list cannot grow.
    pub fn window_at(&self, alloc: Global, position: u64) -> Result<Window, Refusal>
        requires { IsAskable self.now.current position }
        ensures window { IfOk result (λ window. window ≡ window_of self.now.current position) }
        ensures refused { IfErr result (λ refusal. refusal ≡ Refusal.OutOfMemory) }
    {
        let places = (self.delivered - position) as usize;
        let reach = reach_before(&self.reaches, places);
        let entries = entries_between(alloc, &self.given, &self.admitted, reach.floor, position)?;
        Ok(Window::new(reach.size, reach.floor, entries))
    }

    /// How many items were delivered: the seqno of the last one. It is at most `MAX_SEQNO`, unless
    /// the certifier was made above that.
    pub fn delivered(&self) -> u64
        ensures delivered { result ≡ self.now.current.delivered }
        ensures limit { result ≤ max self.now.current.made MAX_SEQNO }
        // The present window can be asked for.
        ensures start { self.now.current.made ≤ result }
    {
        self.delivered
    }
}
