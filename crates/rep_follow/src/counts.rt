//! What a node counts of what it does.

ghost use Rattle.std.specs.Prelude.{◌≡◌, ℕ, [], ◌∷◌};
ghost use Rattle.rep_types.specs.declared.item.Item.{Item as AnItem};
ghost use Rattle.rep_requests.specs.Requests.{Published, requested};
ghost use Rattle.rep_follow.specs.Counting.{one_where, tally, risen_by, HasCounters};

use rep_requests::is_unreadable;
use rep_types::{Item, Reply, Verdict};

/// What a node counts of what it does. Each counter stops at 2^64 - 1.
#[derive(Clone, Copy, Debug, PartialEq, Eq)]
pub struct Counts {
    /// The items that were taken.
    pub items: u64,
    /// The blocks that became durable.
    pub blocks: u64,
    /// The checkpoints that ended.
    pub checkpoints: u64,
    /// The receipts that were given whose item took effect.
    pub commit: u64,
    /// Those whose item is in conflict.
    pub conflict: u64,
    /// Those whose item saw too old a state.
    pub stale: u64,
    /// Those whose item claims to have seen what comes later.
    pub future: u64,
    /// Those whose item has a key outside the schema.
    pub badkey: u64,
    /// The items that were taken whose text is none.
    pub unreadable: u64,
}

impl Counts {
    /// Nothing is counted yet.
    pub fn new() -> Counts
        ensures { result ≡ tally [] [] [] 0 0 }
    {
        Counts {
            items: 0,
            blocks: 0,
            checkpoints: 0,
            commit: 0,
            conflict: 0,
            stale: 0,
            future: 0,
            badkey: 0,
            unreadable: 0,
        }
    }

    /// Each counter has 64 bits: a law, which does nothing.
    pub fn limits(self)
        ensures { HasCounters self }
    {}

    /// What is counted of an item that was taken, its text aside.
    pub(crate) fn of_item() -> Counts
        ensures { (i : AnItem) → result ≡ tally (i ∷ []) [] [] 0 0 }
    {
        Counts {
            items: 1,
            ..Counts::new()
        }
    }

    /// What is counted of a text, which is no item or is one.
    fn of_text(is_unreadable: bool) -> Counts
        ensures { result ≡ record (tally [] [] [] 0 0) { unreadable = one_where is_unreadable } }
    {
        Counts {
            unreadable: u64::from(is_unreadable),
            ..Counts::new()
        }
    }

    /// What is counted of a receipt that was given.
    fn of_receipt(reply: &Reply) -> Counts
        ensures { result ≡ tally [] [] (reply.now ∷ []) 0 0 }
    {
        let mut counts = Counts::new();
        match reply.verdict {
            Verdict::Commit => counts.commit = 1,
            Verdict::Conflict(_) => counts.conflict = 1,
            Verdict::Stale => counts.stale = 1,
            Verdict::Future => counts.future = 1,
            Verdict::BadKey => counts.badkey = 1,
        }
        counts
    }

    /// What is counted of a block that became durable, or of none, and of a checkpoint that ended, or of none; its receipts aside.
    fn of_block(durable: bool, ended: bool) -> Counts
        ensures { result ≡ tally [] [] [] (one_where durable) (one_where ended) }
    {
        Counts {
            blocks: u64::from(durable),
            checkpoints: u64::from(ended),
            ..Counts::new()
        }
    }

    /// Lets each counter rise.
    pub(crate) fn rise(&mut self, more: &Counts)
        ensures { self.new ≡ risen_by self.old more.now }
    {
        self.items = self.items.saturating_add(more.items);
        self.blocks = self.blocks.saturating_add(more.blocks);
        self.checkpoints = self.checkpoints.saturating_add(more.checkpoints);
        self.commit = self.commit.saturating_add(more.commit);
        self.conflict = self.conflict.saturating_add(more.conflict);
        self.stale = self.stale.saturating_add(more.stale);
        self.future = self.future.saturating_add(more.future);
        self.badkey = self.badkey.saturating_add(more.badkey);
        self.unreadable = self.unreadable.saturating_add(more.unreadable);
    }

    /// Counts the text of a line that is this item, where it is none.
    pub(crate) fn count_text(&mut self, line: &[u8], item: &Item)
        ensures { (seqno : ℕ) → requested 0 line.now ≡ Published seqno item.now → self.new ≡ risen_by self.old (tally [] (line.now ∷ []) [] 0 0) }
    {
        self.rise(&Counts::of_text(is_unreadable(line, item)));
    }

    /// Counts a checkpoint, where one ended.
    pub(crate) fn count_checkpoint(&mut self, ended: bool)
        ensures { self.new ≡ risen_by self.old (tally [] [] [] 0 (one_where ended)) }
    {
        self.rise(&Counts::of_block(false, ended));
    }

    /// Counts a block with its receipts, and a checkpoint, where one ended beside it.
    pub(crate) fn count_block(&mut self, replies: &[Reply], ended: bool)
        ensures { self.new ≡ risen_by self.old (tally [] [] replies.now 1 (one_where ended)) }
    {
        self.rise(&Counts::of_block(true, ended));
        for reply in replies {
            self.rise(&Counts::of_receipt(reply));
        }
    }
}
