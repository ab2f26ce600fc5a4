//! The readers.

ghost use Rattle.std.specs.Prelude.{◌≡◌};
ghost use mathlib.Core.List.{IsPrefix};
ghost use Rattle.rep_snap.specs.Lists.{published, front_of};
ghost use Rattle.rep_snap.specs.Views.{longer, watched};
ghost use Rattle.rep_snap.specs.Doors.{FoundShut};
ghost use Rattle.rep_snap.specs.Looks.{IsPeek, IsFront};

use crate::copies::TwoCopies;
use crate::door::Door;
use crate::history::Told;
use crate::peek::Peek;
use crate::rule::Admits;
use crate::shelf::Sight;
use rep_types::{Key, Refusal};
use std::marker::Model;

/// Looks up rows in what a publisher published, through a door. It waits for nobody, and nobody but the
/// publisher waits for it.
#[derive(Drop)]
pub struct Reader<A: Admits + Drop, D: Door<A> + Drop = TwoCopies<A>> {
    pub(crate) door: D,
    /// What it saw last.
    pub(crate) sight: Sight<A>,
    pub(crate) front: u64,
    /// The longest history that it was told.
    pub(crate) told: Told,
}

impl<A: Admits + Drop, D: Door<A> + Drop> Model for Reader<A, D> {
    ghost use Rattle.std.specs.Prelude.{◌≡◌};
    ghost use Rattle.rep_snap.specs.Lists.{published, front_of};
    ghost use Rattle.rep_snap.specs.Views.{Watching, watched};
    ghost use Rattle.rep_snap.specs.Doors.{IsAt};

    ghost Value = { Watching A };

    ghost view = { λ r. watched r.sight r.told };

    ghost invariant = { λ r. IsAt (D.knows r.door) r.sight r.told × (r.front ≡ front_of r.sight.start (published r.sight.seen.log)) × (r.told.book ≡ r.sight.seen.book) };
}

impl<A: Admits + Drop, D: Door<A> + Drop> Reader<A, D> {
    /// What the row is at the snapshot of this seqno, in the list that it finds as it looks. The list
    /// begins with all that the reader saw and was told. It takes no memory and waits for nobody.
    ///
    /// Refuses, in this order: with `Closed` where its door is shut, as it is once the publisher is closed;
    /// with `NotYet` and the front of the list where the snapshot is above it; with `TooOld` and the
    /// oldest snapshot where it is below that.
    pub fn peek(self, key: Key, snapshot: u64) -> (Reader<A, D>, Result<Peek, Refusal>)
        ensures same { (result.0.book ≡ self.book) × (result.0.basis ≡ self.basis) × (result.0.start ≡ self.start) }
        ensures answer { IsPeek A.allows (FoundShut D.knows D.shut) self key snapshot result.0 result.1 }
    {
        let Reader {
            door,
            sight,
            front,
            told,
        } = self;
        let inside = match door.enter(&told) {
            Ok(inside) => inside,
            Err(door) => {
                let reader = Reader {
                    door,
                    sight,
                    front,
                    told,
                };
                return (reader, Err(Refusal::Closed));
            }
        };
        let shelf = D::look(&inside);
        let answer = shelf.look_up(key, snapshot);
        let (sight, front) = (sight.up_to(&shelf.sight), shelf.front);
        let reader = Reader {
            door: D::leave(inside),
            sight,
            front,
            told,
        };
        (reader, answer)
    }

    /// The front of the list that it finds as it looks: the last seqno, or the start position. Where its
    /// door is shut it is that of the list that the reader saw last. It takes no memory and waits for
    /// nobody.
    pub fn front(self) -> (Reader<A, D>, u64)
        ensures same { (result.0.book ≡ self.book) × (result.0.basis ≡ self.basis) × (result.0.start ≡ self.start) }
        ensures front { IsFront A.allows (FoundShut D.knows D.shut) self result.0 result.1 }
    {
        let (reader, _row) = self.peek(Key::default(), 0);
        let front = reader.front;
        (reader, front)
    }

    /// The same, once it has seen and was told this.
    pub(crate) fn briefed(mut self, sight: Sight<A>, front: u64, told: Told) -> Reader<A, D>
        requires own { (sight.seen.book ≡ self.book) × (sight.basis ≡ self.basis) × (sight.start ≡ self.start) }
        requires seen { IsPrefix self.seen sight.seen.log }
        requires front { front ≡ front_of sight.start (published sight.seen.log) }
        requires told { (told.book ≡ self.book) × (told.list ≡ sight.seen.log) }
        ensures { result ≡ watched sight told }
    {
        self.sight = sight;
        self.front = front;
        self.told = told;
        self
    }

    /// Takes in what its publisher told: each list that it finds from now on begins with that. It takes
    /// no memory and waits for nobody.
    pub fn learn(&mut self, told: &Told)
        requires own { told.now.book ≡ self.old.book }
        ensures learnt { self.new ≡ record self.old { told = longer self.old.told told.now.list } }
        ensures before { IsPrefix self.old.told self.new.told }
        ensures told { IsPrefix told.now.list self.new.told }
    {
        self.told = self.told.longer(told);
    }
}
