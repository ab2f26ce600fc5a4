//! The backlog.

ghost use Rattle.std.specs.Prelude.{◌≡◌, ◌≤◌, ◌==◌, ◌↔◌, [], ◌∷◌, ◌++◌, length, take, drop, slice_get, IfOk, IfErr, OnOk, OnErr, IsErr};
ghost use Rattle.std.specs.Option.{option_copied};
ghost use Rattle.rep_record.specs.Fronts.{fitting};

use circular_buffer::HeapCircularBuffer;
use rep_record::BlockBuilder;
use rep_types::{Judged, MAX_AHEAD, Refusal};
use std::alloc::Global;
use std::marker::Model;

/// Judged items that were delivered and are not yet in a block of the log, in the order in which they
/// were pushed: at most `MAX_AHEAD` (256), since a node is never further ahead of its durable
/// position. Where each is pushed with the seqno after the last, that is the order of the seqnos, and
/// it stays so.
#[derive(Debug, Drop)]
pub struct Backlog {
    items: HeapCircularBuffer<Judged>,
}

impl Model for Backlog {
    ghost use Rattle.std.specs.Prelude.{◌≡◌, ◌≤◌, List, length};
    ghost use Rattle.rep_types.specs.declared.judged.Judged.{Judged};
    ghost use Rattle.rep_types.specs.declared.limits.TheConstants.{MAX_AHEAD};

    ghost Value = { List Judged };

    ghost view = { λ b. b.items.items };

    ghost invariant = { λ b. (b.items.capacity ≡ MAX_AHEAD) × (length b.items.items ≤ MAX_AHEAD) };
}

impl Backlog {
    /// A backlog without items, with room for as many as it may ever hold.
    ///
    /// Refuses with `OutOfMemory` where there is no such room.
    pub fn new(alloc: Global) -> Result<Backlog, Refusal>
        ensures empty { IfOk result (λ backlog. backlog ≡ []) }
        ensures refused { IfErr result (λ refusal. refusal ≡ Refusal.OutOfMemory) }
    {
        Ok(Backlog {
            items: HeapCircularBuffer::with_capacity(alloc, MAX_AHEAD as usize)?,
        })
    }

    /// Adds the item at the end. It takes no memory.
    ///
    /// Refuses with `Backlogged` where it holds `MAX_AHEAD` items (256); it is then as it was, and the item is let go.
    pub fn push(&mut self, judged: Judged) -> Result<(), Refusal>
        ensures pushed { OnOk result (self.new ≡ self.old ++ judged ∷ []) }

        ensures backlogged { IsErr result ↔ (length self.old ≡ MAX_AHEAD) }
        ensures refused { IfErr result (λ refusal. refusal ≡ Refusal.Backlogged) }
        ensures unchanged { OnErr result (self.new ≡ self.old) }
    {
        if self.items.try_push_back(judged).is_err() {
            return Err(Refusal::Backlogged);
        }
        Ok(())
    }

    /// How many items `drain` moves into the block: the longest front that the block takes. It takes no
    /// memory.
    pub fn fitting(&self, builder: &BlockBuilder) -> u16
        ensures count { result ≡ fitting builder.now self.now }
        ensures within { result ≤ length self.now }
    {
        let mut room = builder.room();
        let mut count = 0;
        while let Some(judged) = self.items.get(usize::from(count)) {
            if !room.take(judged) {
                break;
            }
            count += 1;
        }
        count
    }

    /// Moves the longest front that the block takes into the block, each item once and in order, and
    /// says how many. The first item that it does not take stays, and all behind it. It takes no
    /// memory.
    pub fn drain(&mut self, builder: &mut BlockBuilder) -> u16
        ensures moved { result ≡ fitting builder.old self.old }
        ensures gathered { builder.new ≡ builder.old ++ take result self.old }
        ensures rest { self.new ≡ drop result self.old }
    {
        let mut moved = 0;
        while let Some(first) = self.items.front() {
            if !builder.push(first) {
                break;
            }
            // Let go where it lies: it is not moved out.
            self.items.truncate_front(self.items.len() - 1);
            moved += 1;
        }
        moved
    }

    /// How many items there are.
    pub fn len(&self) -> usize
        ensures count { result ≡ length self.now }
        ensures few { result ≤ MAX_AHEAD }
    {
        self.items.len()
    }

    /// Whether there is no item.
    pub fn is_empty(&self) -> bool
        ensures { result ≡ (length self.now == 0) }
    {
        self.items.is_empty()
    }

    /// The item behind the first `i`, or `None` where there are no more.
    pub fn get(&self, i: usize) -> Option<&Judged>
        ensures { option_copied result ≡ slice_get self.now i }
    {
        self.items.get(i)
    }
}
