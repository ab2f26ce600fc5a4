//! The history of a publisher: what it did, in order. It is kept in a log book, which holds no value of
//! it. A token says that the history had come so far, and can be copied.

ghost use Rattle.std.specs.Prelude.{◌≡◌, ◌+◌, ◌++◌, ◌∷◌, [], ◌<◌, ◌^◌, length, MatchBool};
ghost use mathlib.Core.List.{IsPrefix};
ghost use Rattle.rep_snap.specs.Book.{head_of};

use crate::change::Change;
use logbook::{Gain, Offer, Plain, Play, Rule, Seen, Word};
use std::marker::Model;

/// The rule of the book: its word is the length of the history.
pub struct Law;

impl Rule<Change, u64> for Law {
    ghost use Rattle.std.specs.Prelude.{[]};
    ghost use base.Fml.{ftrue};
    ghost use Rattle.rep_snap.specs.Book.{IsKept};

    ghost holds = { IsKept };

    ghost first = { [] };

    ghost hinted = { λ n log. Unit {0} };

    ghost shows = { λ log. [] };

    ghost keeps = { λ names log. ftrue };

    ghost moves = { λ ask before after answer. Unit {0} };
}

/// Callers trade nothing.
pub(crate) struct Nothing;

impl Gain<Change, u64> for Nothing {
    ghost use base.Fml.{ftrue};

    ghost after = { λ names about answer. ftrue };
}

/// A step that adds a change.
pub(crate) struct Add;

impl Play<Change, u64> for Add {
    ghost use Rattle.rep_snap.specs.Book.{Adds};

    ghost then = { Adds };
}

/// What a step asks for: the change.
impl Plain<Change, Change, u64> for Add {
    ghost use Rattle.std.specs.Prelude.{None};

    ghost ask = { λ change. change };

    ghost state = { λ change. None };
}

/// Adds the change to the history that was seen, which has so many changes, and says whether it did. It
/// did not where the history is longer.
pub(crate) fn extend(
    head: &Word<Change, u64, Law>,
    seen: &mut Seen<Change, u64, Law>,
    count: u64,
    change: &Change,
) -> bool
    requires head { head.now ≡ head_of seen.old.book }
    requires count { count ≡ length seen.old.log }
    requires room { count + 1 < 2 ^ 64 }
    ensures book { (seen.new.book ≡ seen.old.book) × (seen.new.names ≡ seen.old.names) }
    ensures added { MatchBool result (seen.new.log ≡ seen.old.log ++ change.now ∷ []) (IsPrefix seen.old.log seen.new.log) }
{
    let mut offer: Offer<Change, u64, Law, Nothing> = seen.plain::<Nothing, Change, Add>(change);
    let mut pen = seen.no_pen();
    let found = head.compare_exchange::<Add, Nothing>(count, count + 1, seen, &mut offer, &mut pen);
    found == count
}

/// A history that a publisher told of: how many changes it has, and the token that says so.
#[derive(Drop)]
pub struct Told {
    pub(crate) count: u64,
    pub(crate) seen: Seen<Change, u64, Law>,
}

impl Model for Told {
    ghost use Rattle.std.specs.Prelude.{◌≡◌, length};
    ghost use Rattle.rep_snap.specs.Views.{Telling};

    ghost Value = { Telling };

    ghost view = { λ t. record { book = t.seen.book; list = t.seen.log } };

    ghost invariant = { λ t. t.count ≡ length t.seen.log };
}

impl Told {
    ghost use Rattle.rep_snap.specs.Views.{longer};

    /// A copy.
    pub fn again(&self) -> Told
        ensures { result ≡ self.now }
    {
        Told {
            count: self.count,
            seen: self.seen.again(),
        }
    }

    /// The longer of two histories of one publisher, which the other begins.
    pub fn longer(&self, other: &Told) -> Told
        requires own { other.now.book ≡ self.now.book }
        ensures longer { result ≡ record self.now { list = longer self.now.list other.now.list } }
        ensures this { IsPrefix self.now.list result.list }
        ensures that { IsPrefix other.now.list result.list }
    {
        let mut both = self.seen.again();
        both.learn(&other.seen);
        if self.count < other.count {
            other.again()
        } else {
            self.again()
        }
    }
}
