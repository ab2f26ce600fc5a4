//! How items come from the backlog.

ghost use Rattle.std.specs.Prelude.{◌≡◌, ℕ, None, Some, slice_get, ◌∷◌, ◌⊎◌, ◌+◌, ◌-◌, ◌≤◌, ◌<◌, ◌==◌, ◌++◌, [], length, take, drop, map, is_some, true, Ok, Err, IfOk, IfErr, OnOk, OnErr};
ghost use Rattle.rep_types.specs.declared.refusal.Refusal.TheVariants.{OutOfMemory};
ghost use Rattle.rep_types.specs.Replies.{reply_of};
ghost use Rattle.rep_types.specs.Order.{counts};
ghost use Rattle.rep_types.specs.declared.refusal.Refusal.TheVariants.{NotDue, Stopped as is_stopped};
ghost use Rattle.rep_record.specs.Blocks.{SeqnosFrom};
ghost use Rattle.rep_steps.specs.declared.event.Event.TheVariants.{Log as to_log};
ghost use Rattle.rep_steps.specs.Standings.{block_refusal, refusal};
ghost use Rattle.rep_record.specs.Fronts.{fitting};
ghost use Rattle.rep_steps.specs.Nodes.{Node, reached};
ghost use Rattle.rep_steps.specs.Images.{AreJudgedFrom};
ghost use Rattle.rep_engine.specs.Engines.{AreWithin, facts_of};
ghost use Rattle.rep_engine.specs.Accepting.{ComeNext, AddsWhere, AddsItems, accepted_in, is_gathering};
ghost use Rattle.rep_engine.specs.Holding.{Holds, with_items};

use crate::engine::Engine;
use rep_backlog::Backlog;
use rep_checkpoint::the_log_is_apart;
use rep_disk::Disk;
use rep_log::Phase;
use rep_record::{BlockBuilder, fronts_are_determined};
use rep_steps::Replies;
use rep_types::{Judged, Refusal};
use rep_versions::{Versions, add_is_taken_back, versions_follow_the_items};
use std::alloc::Global;

/// Adds what the item wrote, where it takes effect.
fn add_item(versions: &mut Versions, judged: &Judged) -> Result<(), Refusal>
    ensures added { OnOk result (AddsWhere (counts judged.now) judged.now versions.old versions.new) }
    ensures refused { IfErr result (λ e. (e ≡ OutOfMemory) × (versions.new ≡ versions.old)) }
{
    if !judged.verdict.is_commit() {
        return Ok(());
    }
    versions.add(judged.seqno, &judged.item)
}

/// Adds what the next so many items of the backlog wrote, from the one at `from` on. Where one is refused, those
/// before it are undone: each call takes its own back. A block has at most 64 items, so deep do the
/// calls go.
fn add_items(
    versions: &mut Versions,
    backlog: &Backlog,
    from: usize,
    count: u16,
) -> Result<(), Refusal>
    requires within { from + count ≤ length backlog.now }
    requires few { from + count ≤ 64 }
    ensures added { OnOk result (AddsItems (take count (drop from backlog.now)) versions.old versions.new) }
    ensures refused { IfErr result (λ e. (e ≡ OutOfMemory) × (0 < count)) }
    ensures unchanged { (base last : ℕ) → base ≤ last → SeqnosFrom (last + 1) (drop from backlog.now) → AreWithin base last versions.old → OnErr result (versions.new ≡ versions.old) }
{
    add_is_taken_back();
    if count == 0 {
        return Ok(());
    }
    let Some(judged) = backlog.get(from) else {
        return Ok(());
    };
    add_item(versions, judged)?;
    if let Err(refusal) = add_items(versions, backlog, from + 1, count - 1) {
        versions.take_back(judged.seqno);
        return Err(refusal);
    }
    Ok(())
}

/// Adds the reply to the origin of the item at this place. Memory may be refused for the first of all alone.
fn add_reply(
    replies: &mut Replies,
    alloc: Global,
    backlog: &Backlog,
    i: usize,
) -> Result<(), Refusal>
    requires within { i < length backlog.now }
    requires room { length replies.old < 64 }
    ensures added { OnOk result ((j : Judged) → slice_get backlog.now i ≡ Some j → replies.new ≡ replies.old ++ reply_of j ∷ []) }
    ensures refused { IfErr result (λ e. (e ≡ OutOfMemory) × (replies.old ≡ []) × (replies.new ≡ [])) }
{
    match backlog.get(i) {
        Some(judged) => replies.push(alloc, judged.reply()),
        None => Ok(()),
    }
}

/// Adds the replies to the origins of the first so many items, or none.
fn add_replies(
    replies: &mut Replies,
    alloc: Global,
    backlog: &Backlog,
    count: u16,
) -> Result<(), Refusal>
    requires within { count ≤ length backlog.now }
    requires room { length replies.old + count ≤ 64 }
    ensures added { OnOk result (replies.new ≡ replies.old ++ map reply_of (take count backlog.now)) }
    ensures refused { IfErr result (λ e. (e ≡ OutOfMemory) × (0 < count) × (replies.new ≡ replies.old)) }
{
    for i in 0..usize::from(count) {
        add_reply(replies, alloc, backlog, i)?;
    }
    Ok(())
}

/// Adds the replies to the origins of the first so many items, and what these wrote. Where memory is refused, it adds neither.
fn add_front(
    replies: &mut Replies,
    versions: &mut Versions,
    alloc: Global,
    backlog: &Backlog,
    count: u16,
) -> Result<(), Refusal>
    requires within { count ≤ length backlog.now }
    requires room { length replies.old + count ≤ 64 }
    ensures replies { OnOk result (replies.new ≡ replies.old ++ map reply_of (take count backlog.now)) }
    ensures added { OnOk result (AddsItems (take count backlog.now) versions.old versions.new) }
    ensures refused { IfErr result (λ e. (e ≡ OutOfMemory) × (0 < count)) }
    ensures none { OnErr result (replies.new ≡ replies.old) }
    ensures unchanged { (base last : ℕ) → base ≤ last → SeqnosFrom (last + 1) backlog.now → AreWithin base last versions.old → OnErr result (versions.new ≡ versions.old) }
{
    let before = replies.len();
    add_replies(replies, alloc, backlog, count)?;
    let added = add_items(versions, backlog, 0, count);
    if added.is_err() {
        replies.truncate(before);
    }
    added
}

/// Moves the next items out of the backlog into the block, the longest front that fits: each once, in order.
fn move_items(block: &mut BlockBuilder, backlog: &mut Backlog)
    ensures gathered { block.new ≡ block.old ++ take (fitting block.old backlog.old) backlog.old }
    ensures rest { backlog.new ≡ drop (fitting block.old backlog.old) backlog.old }
{
    backlog.drain(block);
}

impl<D: Disk> Engine<D> {
    /// How many items of the backlog `accept` takes next: the longest front that fits what was gathered, and none
    /// while the block is on its way to the disk. Where memory is refused, `accept` takes none of them.
    pub fn next_items(&self, backlog: &Backlog) -> u16
        ensures count { result ≡ accepted_in self.now.log.phase self.now.block backlog.now }
        ensures within { result ≤ length backlog.now }
    {
        match self.log.phase() {
            Phase::Resting | Phase::Closing => backlog.fitting(&self.block),
            Phase::Filling(_) | Phase::Filled(_) | Phase::Opening(_) => 0,
        }
    }

    /// Takes items from the backlog for the log's next block, the longest front that fits, and says how many:
    /// none while the block is on its way to the disk. Room for what they wrote, and for the replies to their origins, is taken here.
    ///
    /// Refuses with `Stopped` where the device has failed before, and with `OutOfMemory` where there is
    /// something to take; engine and backlog are then as they were.
    #[tactic(auto, using(crate::proofs::Accepts::gathering_some))]
    pub fn accept(&mut self, backlog: &mut Backlog) -> Result<u16, Refusal>
        requires { ComeNext (facts_of D.Disk self.old) backlog.old }
        ensures count { IfOk result (λ count. count ≡ accepted_in self.old.log.phase self.old.block backlog.old) }
        ensures facts { IfOk result (λ count. facts_of D.Disk self.new ≡ record (facts_of D.Disk self.old) { ahead = self.old.block ++ take count backlog.old }) }
        ensures backlog { IfOk result (λ count. backlog.new ≡ drop count backlog.old) }
        ensures rest { self.new ≡ record (self.old) { kept = self.new.kept; block = self.new.block } }
        ensures block { IfOk result (λ count. self.new.block ≡ self.old.block ++ take count backlog.old) }
        ensures versions { IfOk result (λ count. AddsItems (take count backlog.old) self.old.kept self.new.kept) }
        ensures running { OnOk result (self.old.halted ≡ None) }
        ensures refused { IfErr result (λ e. ((e ≡ is_stopped) × (is_some self.old.halted ≡ true)) ⊎ ((e ≡ OutOfMemory) × (self.old.halted ≡ None) × (is_gathering self.old.log.phase ≡ true))) }
        ensures unchanged { OnErr result ((self.new ≡ self.old) × (backlog.new ≡ backlog.old)) }
        ensures holds { IfOk result (λ count. (n : Node) → Holds D.Disk n self.old → AreJudgedFrom n.facts.setting (reached n.facts.setting n.base n.items) (take count backlog.old) → Holds D.Disk (with_items (take count backlog.old) n) self.new) }
    {
        self.running()?;
        add_is_taken_back();
        versions_follow_the_items();
        fronts_are_determined();
        the_log_is_apart();
        let count = self.next_items(backlog);
        add_front(
            &mut self.replies,
            &mut self.versions,
            self.alloc,
            backlog,
            count,
        )?;
        if count > 0 {
            move_items(&mut self.block, backlog);
        }
        Ok(count)
    }

    /// Whether the next block would have nothing, with these items behind what was gathered.
    #[tactic(auto, using(crate::proofs::Accepting::gathers_more))]
    fn has_nothing(&self, backlog: &Backlog) -> bool
        ensures { result ≡ (fitting [] (self.now.block ++ take (fitting self.now.block backlog.now) backlog.now) == 0) }
    {
        self.block.is_empty() && backlog.fitting(&self.block) == 0
    }

    /// Why the next block would not begin with these items.
    fn due_at_rest(&self, backlog: &Backlog) -> Option<Refusal>
        requires { self.now.log.phase ≡ Phase.Resting }
        ensures { result ≡ block_refusal (record (facts_of D.Disk self.now) { ahead = self.now.block ++ take (fitting self.now.block backlog.now) backlog.now }) }
    {
        if self.has_nothing(backlog) {
            return Some(Refusal::NotDue);
        }
        self.live_refusal()
    }

    /// What `log` would refuse once `accept` had run, without want of memory.
    pub fn due(&self, backlog: &Backlog) -> Option<Refusal>
        ensures { result ≡ refusal (record (facts_of D.Disk self.now) { ahead = self.now.block ++ take (accepted_in self.now.log.phase self.now.block backlog.now) backlog.now }) to_log }
    {
        fronts_are_determined();
        if self.halted.is_some() {
            return Some(Refusal::Stopped);
        }
        match self.log.phase() {
            Phase::Resting => self.due_at_rest(backlog),
            Phase::Filled(_) => None,
            Phase::Closing | Phase::Filling(_) | Phase::Opening(_) => Some(Refusal::NotDue),
        }
    }
}
