//! What a replica answers.

ghost use Rattle.std.specs.Prelude.{◌≡◌, ◌<◌, ◌==◌, [], ◌∷◌, ◌++◌, length, take, IfErr, OnOk};
ghost use Rattle.rep_types.specs.declared.refusal.Refusal.TheVariants.{OutOfMemory};

use arrayvec::ArrayVec;
use rep_types::{Boxed, Refusal, Reply, Value, Verdict};
use std::alloc::Global;
use std::fmt;
use std::marker::Model;

/// The replies to the origins of the items that a sync made durable, in the order of the seqnos: at
/// most the 64 of a block. They lie on the heap, so that an answer is cheap to move; where there is none, they take no memory.
#[derive(Drop)]
pub struct Replies {
    /// Room for 64, from the first reply on.
    room: Option<Boxed<ArrayVec<Reply, 64>>>,
}

impl Model for Replies {
    ghost use Rattle.std.specs.Prelude.{List};
    ghost use Rattle.rep_types.specs.declared.reply.Reply.{Reply};
    ghost use Rattle.rep_steps.specs.Answers.{replies_in};

    ghost Value = { List Reply };

    ghost view = { λ r. replies_in r.room };
}

impl Replies {
    /// No reply. It takes no memory.
    pub fn new() -> Replies
        ensures { result ≡ [] }
    {
        Replies { room: None }
    }

    /// Puts a reply at the end. Room for 64 is taken with the first one.
    ///
    /// Refuses with `OutOfMemory` where there is no memory for it: that may be so of the first reply alone.
    pub fn push(&mut self, alloc: Global, reply: Reply) -> Result<(), Refusal>
        requires { length self.old < 64 }
        ensures pushed { OnOk result (self.new ≡ self.old ++ reply ∷ []) }
        ensures refused { IfErr result (λ e. (e ≡ OutOfMemory) × (self.old ≡ []) × (self.new ≡ [])) }
    {
        if let Some(room) = &mut self.room {
            room.get_mut().push(reply);
            return Ok(());
        }
        let mut first = ArrayVec::new();
        first.push(reply);
        let Ok(room) = Boxed::new(alloc, first) else {
            return Err(Refusal::OutOfMemory);
        };
        self.room = Some(room);
        Ok(())
    }

    /// Keeps the first so many replies.
    pub fn truncate(&mut self, count: usize)
        ensures { self.new ≡ take count self.old }
    {
        if let Some(room) = &mut self.room {
            room.get_mut().truncate(count);
        }
    }

    /// The replies.
    pub fn as_slice(&self) -> &[Reply]
        ensures { result.now ≡ self.now }
    {
        match &self.room {
            Some(room) => room.get().as_slice(),
            None => &[],
        }
    }

    /// How many there are.
    pub fn len(&self) -> usize
        ensures { result ≡ length self.now }
    {
        self.as_slice().len()
    }

    /// Whether there is none.
    pub fn is_empty(&self) -> bool
        ensures { result ≡ (length self.now == 0) }
    {
        self.as_slice().is_empty()
    }
}

impl fmt::Debug for Replies {
    fn fmt<W: fmt::Write>(&self, f: &mut fmt::Formatter<W>) -> fmt::Result {
        f.debug_list().entries(self.as_slice()).finish()
    }
}

impl PartialEq for Replies {
    ghost use Rattle.std.specs.Cmp.Lexicographic.{lists_per};
    ghost use Rattle.rep_types.specs.contracts.reply.ReplyPartialEq.TheImpl.Laws.{laws-law};
    ghost use Rattle.rep_steps.specs.Answers.{same_replies};

    ghost eq = { same_replies };

    ghost laws = { lists_per laws-law };

    fn eq(&self, other: &Replies) -> bool {
        self.as_slice() == other.as_slice()
    }
}

impl Eq for Replies {
    ghost use Rattle.std.specs.Cmp.Lexicographic.{lists_equiv};
    ghost use Rattle.rep_types.specs.contracts.reply.ReplyEq.TheImpl.Laws.{laws-law};

    ghost laws = { lists_equiv laws-law };
}

/// What a replica answers to an event.
#[derive(Debug, Drop, PartialEq, Eq)]
pub enum Answer {
    /// The verdict on the delivered item.
    Gave(Verdict),
    /// Something was written, and is not yet stable.
    Wrote,
    /// A checkpoint of this position begins.
    Began(u64),
    /// All that was written is stable. The items of these replies became durable by it.
    Synced(Replies),
    /// What stands under the key, if anything does.
    Row(Option<Value>),
    /// Nothing was done, and why.
    Refused(Refusal),
}
