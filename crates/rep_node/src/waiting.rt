//! What was accepted and is not published yet.

ghost use Rattle.std.specs.Prelude.{◌≡◌, ◌-◌, ◌<◌, ◌≤◌, ◌++◌, ◌∷◌, ℕ, [], length, min, drop, IfOk, IfErr};
ghost use Rattle.rep_types.specs.declared.refusal.Refusal.TheVariants.{OutOfMemory};
ghost use Rattle.rep_node.specs.Publishing.{Counts};

use rep_record::MAX_RECORDS;
use rep_snap::Pair;
use rep_types::Refusal;
use std::alloc::Global;
use std::marker::Model;

/// The pairs of the items that the engine has accepted and that are not published yet, in the order of their seqnos: at most 64, as many
/// as a block of the log has.
#[derive(Drop)]
pub struct Waiting {
    pairs: Vec<Pair>,
}

impl Model for Waiting {
    ghost use Rattle.std.specs.Prelude.{◌≤◌, List, vec_capacity};
    ghost use Rattle.rep_snap.specs.declared.change.Pair.{Pair};
    ghost use Rattle.rep_record.specs.declared.limits.TheConstants.{MAX_RECORDS};

    ghost Value = { List Pair };

    ghost view = { λ w. w.pairs.items };

    ghost invariant = { λ w. MAX_RECORDS ≤ vec_capacity w.pairs };
}

impl Waiting {
    /// None wait, and there is room for 64. Refuses with `OutOfMemory` where there is no such room.
    pub(crate) fn new(alloc: Global) -> Result<Waiting, Refusal>
        ensures empty { IfOk result (λ waiting. waiting ≡ []) }
        ensures refused { IfErr result (λ refusal. refusal ≡ OutOfMemory) }
    {
        Ok(Waiting {
            pairs: Vec::with_capacity(alloc, usize::from(MAX_RECORDS))?,
        })
    }

    /// One more waits behind the others, of which there are fewer than 64. It takes no memory.
    pub(crate) fn push(&mut self, pair: Pair)
        requires room { length self.old < MAX_RECORDS }
        ensures { self.new ≡ self.old ++ pair ∷ [] }
    {
        self.pairs.push_reserved(pair);
    }

    /// Those that wait up to this seqno, where the seqnos go up by one.
    pub(crate) fn upto(&self, seqno: u64) -> &[Pair]
        ensures first { result.now ++ drop (length result.now) self.now ≡ self.now }
        ensures upto { (before : ℕ) → Counts before self.now → length result.now ≡ min (seqno - before) (length self.now) }
    {
        let Some(first) = self.pairs.first() else {
            return &[];
        };
        let count = seqno.saturating_sub(first.seqno.saturating_sub(1));
        &self.pairs[..self.pairs.len().min(count as usize)]
    }

    /// So many at the front wait no more.
    pub(crate) fn drop_front(&mut self, count: usize)
        requires within { count ≤ length self.old }
        ensures { self.new ≡ drop count self.old }
    {
        self.pairs.drain(..count);
    }
}
