//! The value of which there are two copies: the versions that a published list has, and its numbers.

ghost use Rattle.std.specs.Prelude.{◌≡◌, ◌<◌, nat_lt, if◌then◌else◌, length, MatchBool, MatchResult};
ghost use mathlib.Core.List.{IsPrefix};
ghost use Rattle.rep_versions.specs.Versions.{version_at};
ghost use Rattle.rep_snap.specs.Lists.{Answers};
ghost use Rattle.rep_snap.specs.Shelves.{added, taken, changed};

use crate::change::{Change, Pair};
use crate::history::{Law, Told};
use crate::peek::Peek;
use crate::rule::Again;
use left_right::Absorb;
use logbook::Seen;
use rep_types::{Key, Refusal};
use rep_versions::Versions;
use std::alloc::AllocError;

/// What a reader knows of a publisher: with what it was started, and a history that was seen.
#[derive(Drop)]
pub struct Sight<A> {
    pub basis: A,
    pub start: u64,
    pub seen: Seen<Change, u64, Law>,
}

impl<A> Sight<A> {
    /// The same, but for the history, which is that of another.
    pub(crate) fn up_to(mut self, other: &Sight<A>) -> Sight<A>
        ensures { result ≡ record self { seen = other.now.seen } }
    {
        self.seen = other.seen.again();
        self
    }
}

impl<A: Again> Again for Sight<A> {
    fn again(&self) -> Sight<A> {
        Sight {
            basis: self.basis.again(),
            start: self.start,
            seen: self.seen.again(),
        }
    }
}

/// What readers look at.
#[derive(Drop)]
pub struct Shelf<A> {
    pub sight: Sight<A>,
    pub front: u64,
    pub oldest: u64,
    pub count: u64,
    pub kept: Versions,
}

/// A change, and the history that ends with it.
#[derive(Drop)]
pub struct Step {
    pub change: Change,
    pub seen: Seen<Change, u64, Law>,
}

/// Keeps what the pair wrote, unless the pair is at or below the oldest snapshot: no snapshot finds that.
fn keep(kept: &mut Versions, oldest: u64, pair: &Pair) -> Result<(), AllocError>
    ensures { MatchResult result (λ _. kept.new ≡ (if nat_lt oldest pair.now.seqno then added pair.now.seqno pair.now.writes.items kept.old else kept.old)) (λ _. kept.new ≡ kept.old) }
{
    if pair.seqno <= oldest {
        return Ok(());
    }
    match kept.add_writes(pair.seqno, pair.writes.as_slice()) {
        Ok(()) => Ok(()),
        Err(_) => Err(AllocError),
    }
}

impl<A> Shelf<A> {
    /// Takes the change in, but for the history and its length. Where a growth is refused it is as it
    /// was.
    fn take_in(&mut self, change: &Change) -> Result<(), AllocError>
        ensures { MatchResult result (λ _. self.new ≡ taken change.now self.old) (λ _. self.new ≡ self.old) }
    {
        match change {
            Change::Publish(pair) => {
                keep(&mut self.kept, self.oldest, pair)?;
                self.front = pair.seqno;
            }
            Change::Prune(position) => {
                self.kept.prune(*position);
                self.oldest = self.oldest.max(*position);
            }
        }
        Ok(())
    }

    /// Whether its history begins with the one that was told. Of two histories of one publisher the
    /// shorter begins the longer.
    pub(crate) fn begins_with(&self, told: &Told) -> bool
        requires book { told.now.book ≡ self.now.sight.seen.book }
        requires count { self.now.count ≡ length self.now.sight.seen.log }
        ensures { MatchBool result (IsPrefix told.now.list self.now.sight.seen.log) (length self.now.sight.seen.log < length told.now.list) }
    {
        let mut both = self.sight.seen.again();
        both.learn(&told.seen);
        told.count <= self.count
    }

    /// What the row is at the snapshot, of the versions that are kept.
    pub(crate) fn look_up(&self, key: Key, snapshot: u64) -> Result<Peek, Refusal>
        ensures { Answers self.now.front self.now.oldest (version_at self.now.kept key) snapshot result }
    {
        Peek::among(&self.kept, self.front, self.oldest, key, snapshot)
    }
}

impl<A> Absorb<Step> for Shelf<A> {
    type State = Shelf<A>;

    ghost state = { λ shelf. shelf };

    ghost applied = { changed };

    fn absorb_first(&mut self, step: &Step, _other: &Shelf<A>) -> Result<(), AllocError> {
        let Some(count) = self.count.checked_add(1) else {
            return Err(AllocError);
        };
        self.take_in(&step.change)?;
        self.count = count;
        self.sight.seen = step.seen.again();
        Ok(())
    }
}
