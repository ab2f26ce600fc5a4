//! The plain node.

ghost use Rattle.std.specs.Prelude.{◌≡◌, ◌+◌, ◌≤◌, [], ◌∷◌, ◌++◌, length, take, IfOk, IfErr, OnOk, OnErr};
ghost use Rattle.std.specs.Option.{option_copied};
ghost use Rattle.rep_types.specs.declared.item.Item.TheVariants.{WriteSet as OfWriteSet, SetWindow as OfSetWindow};
ghost use Rattle.rep_types.specs.declared.verdict.Verdict.TheVariants.{Commit};
ghost use Rattle.rep_types.specs.Reaches.{floor};
ghost use Rattle.rep_types.specs.Order.{verdict_among, verdict, read, window, history, entries, seqnos_against, greatest};

use crate::scan::{greatest_conflict, reach_of, recent_entries, row_of};
use rep_types::{
    Item, Judged, Key, Params, Reach, Refusal, SetWindow, Value, Verdict, Window, WindowSize,
    WriteSet,
};
use std::alloc::Global;
use std::marker::Model;

/// A node that keeps every delivered item with its verdict, and judges the next by comparing it
/// with each that its transaction had not seen. Its contracts are the definitions themselves; other nodes are compared with it.
#[derive(Debug, Drop)]
pub struct PlainNode {
    params: Params,
    items: Vec<Judged>,
    reach: Reach,
}

impl Model for PlainNode {
    ghost use Rattle.std.specs.Prelude.{◌≡◌};
    ghost use Rattle.rep_types.specs.Reaches.{reach as reach_of};
    ghost use Rattle.rep_types.specs.Order.{history};
    ghost use Rattle.rep_plain.specs.Delivered.{Delivered, delivered};

    ghost Value = { Delivered };

    ghost view = { λ node. delivered node.params node.items.items };

    ghost invariant = { λ node. (node.items.items ≡ history node.params (delivered node.params node.items.items).order) × (node.reach ≡ reach_of node.params (delivered node.params node.items.items).order) };
}

impl PlainNode {
    /// A node that was handed nothing yet.
    pub fn new(alloc: Global, params: Params) -> PlainNode
        ensures { result ≡ record { setting = params; order = [] } }
    {
        let reach = Reach::first(params.window_size());
        PlainNode {
            params,
            items: Vec::new(alloc),
            reach,
        }
    }

    /// The greatest seqno among the items that stand against this one. Those that its transaction had
    /// seen do not, so that no more are looked at than a window spans.
    fn greatest_conflict(&self, item: &WriteSet) -> Option<u64>
        requires { item.now.last_seen ≤ length self.now.order }
        ensures { result ≡ greatest (seqnos_against item.now (entries (history self.now.setting self.now.order))) }
    {
        greatest_conflict(&self.items[item.last_seen() as usize..], item)
    }

    /// The seqno of the next item.
    fn next_seqno(&self) -> u64
        ensures { result ≡ length self.now.order + 1 }
    {
        1 + self.items.len() as u64
    }

    /// The least seqno that the window can hold.
    fn floor(&self) -> u64
        ensures { result ≡ floor self.now.setting self.now.order (length self.now.order) }
    {
        self.reach.floor
    }

    /// The verdict on the write set, were it the next item.
    fn judge_write_set(&self, item: &WriteSet) -> Verdict
        ensures { result ≡ verdict_among self.now.setting (floor self.now.setting self.now.order (length self.now.order)) (length self.now.order + 1) (entries (history self.now.setting self.now.order)) item.now }
    {
        let seqno = self.next_seqno();
        let seen = item.last_seen();
        if seen >= seqno {
            return Verdict::Future;
        }
        if !self.params.schema().contains_all(item) {
            return Verdict::BadKey;
        }
        if seen + 1 < self.floor() {
            return Verdict::Stale;
        }
        match self.greatest_conflict(item) {
            Some(seqno) => Verdict::Conflict(seqno),
            None => Verdict::Commit,
        }
    }

    /// The verdict on the item, were it the next.
    fn judge(&self, item: &Item) -> Verdict
        ensures { result ≡ verdict self.now.setting (self.now.order ++ item.now ∷ []) (length self.now.order + 1) }
    {
        match item {
            Item::WriteSet(write_set) => self.judge_write_set(write_set),
            Item::SetWindow(_) => Verdict::Commit,
        }
    }

    /// Takes the next item of the order, of either kind, and says its verdict. Whatever that is, the item has
    /// taken the next seqno.
    ///
    /// Refuses with `OutOfMemory` where the list cannot grow; the node is then as it was.
    pub fn deliver_item(&mut self, item: Item) -> Result<Verdict, Refusal>
        // The verdict is that of the order with the item at its end.
        ensures verdict { IfOk result (λ v. v ≡ verdict self.old.setting (self.old.order ++ item ∷ []) (length self.old.order + 1)) }
        // The order grows by the item.
        ensures order { OnOk result (self.new ≡ record self.old { order = self.old.order ++ item ∷ [] }) }
        ensures refused { IfErr result (λ refusal. refusal ≡ Refusal.OutOfMemory) }
        ensures unchanged { OnErr result (self.new ≡ self.old) }
    {
        let verdict = self.judge(&item);
        let seqno = self.next_seqno();
        let reach = self.reach.after(seqno, &item);
        self.items.push(Judged {
            seqno,
            item,
            verdict,
        })?;
        self.reach = reach;
        Ok(verdict)
    }

    /// Takes the write set as the next item of the order and says its verdict. Whatever that is, it has
    /// taken the next seqno.
    ///
    /// Refuses with `OutOfMemory` where the list cannot grow; the node is then as it was.
    pub fn deliver(&mut self, item: WriteSet) -> Result<Verdict, Refusal>
        // The verdict is that of the order with the write set at its end.
        ensures verdict { IfOk result (λ v. v ≡ verdict self.old.setting (self.old.order ++ OfWriteSet item ∷ []) (length self.old.order + 1)) }
        // The order grows by the write set.
        ensures order { OnOk result (self.new ≡ record self.old { order = self.old.order ++ OfWriteSet item ∷ [] }) }
        ensures refused { IfErr result (λ refusal. refusal ≡ Refusal.OutOfMemory) }
        ensures unchanged { OnErr result (self.new ≡ self.old) }
    {
        self.deliver_item(Item::WriteSet(item))
    }

    /// Takes a change of the window's size, without labels (0:0), as the next item of the order. It commits, and
    /// has taken the next seqno.
    ///
    /// Refuses with `OutOfMemory` where the list cannot grow; the node is then as it was.
    pub fn set_window(&mut self, size: WindowSize) -> Result<Verdict, Refusal>
        ensures verdict { IfOk result (λ v. v ≡ Commit) }
        // The order grows by the change.
        ensures order { OnOk result (self.new ≡ record self.old { order = self.old.order ++ OfSetWindow (record { size = size; source = 0; trx = 0 }) ∷ [] }) }
        ensures refused { IfErr result (λ refusal. refusal ≡ Refusal.OutOfMemory) }
        ensures unchanged { OnErr result (self.new ≡ self.old) }
    {
        self.deliver_item(Item::SetWindow(SetWindow {
            size,
            source: 0,
            trx: 0,
        }))
    }

    /// What stands under the key in the state after the first `s` items, which is at most the position.
    pub fn get(&self, key: Key, s: u64) -> Option<&Value>
        requires { s ≤ length self.now.order }
        ensures { option_copied result ≡ read self.now.setting self.now.order key s }
    {
        row_of(&self.items[..s as usize], key)
    }

    /// The window: its size and floor, and the committed write sets that certification may still need, in
    /// ascending order.
    ///
    /// Refuses with `OutOfMemory` where the list cannot grow.
    pub fn window(&self, alloc: Global) -> Result<Window, Refusal>
        ensures window { IfOk result (λ found. found ≡ window self.now.setting self.now.order) }
        ensures refused { IfErr result (λ refusal. refusal ≡ Refusal.OutOfMemory) }
    {
        self.window_at(alloc, self.position())
    }

    /// The window after the first `s` items, which is at most the position: what certification needed for the
    /// item behind them.
    ///
    /// Refuses with `OutOfMemory` where the list cannot grow.
    pub fn window_at(&self, alloc: Global, s: u64) -> Result<Window, Refusal>
        requires { s ≤ length self.now.order }
        ensures window { IfOk result (λ found. found ≡ window self.now.setting (take s self.now.order)) }
        ensures refused { IfErr result (λ refusal. refusal ≡ Refusal.OutOfMemory) }
    {
        let items = &self.items[..s as usize];
        let reach = reach_of(&self.params, items);
        let entries = recent_entries(alloc, items, reach.floor)?;
        Ok(Window::new(reach.size, reach.floor, entries))
    }

    /// The parameters.
    pub fn params(&self) -> &Params
        ensures { result.now ≡ self.now.setting }
    {
        &self.params
    }

    /// The delivered items, each with its seqno and its verdict, in their order.
    pub fn items(&self) -> &[Judged]
        ensures { result.now ≡ history self.now.setting self.now.order }
    {
        &self.items
    }

    /// How many items were delivered.
    pub fn position(&self) -> u64
        ensures { result ≡ length self.now.order }
    {
        self.items.len() as u64
    }
}
