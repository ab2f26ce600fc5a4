//! The publisher.

ghost use Rattle.std.specs.Prelude.{◌≡◌, ◌<◌, ◌^◌, [], ◌∷◌, ◌++◌, length, map, All, Err, IfOk, IfErr};
ghost use Rattle.rep_types.specs.declared.refusal.Refusal.TheVariants.{OutOfMemory};
ghost use Rattle.rep_snap.specs.declared.change.Change.TheVariants.{Publish, Prune};
ghost use Rattle.std.specs.FinMap as map;
ghost use Rattle.rep_snap.specs.Lists.{published, front_of, pair_of, Ascends};
ghost use Rattle.rep_snap.specs.Views.{opened, AreChanges, IsChange, IsPublish, one_less, telling, unaware, watching};

use crate::change::{Change, Pair};
use crate::copies::TwoCopies;
use crate::history::{Law, Told};
use crate::pending::{add, add_all, show};
use crate::reader::Reader;
use crate::rule::{Admits, Again, Copied, Published, Sees, Taken};
use crate::shelf::{Shelf, Sight, Step};
use crossbeam_utils::rule::Protocol;
use left_right::Absorb;
use left_right::writer::Writer;
use logbook::{Seen, Start, Word};
use rep_types::{Refusal, Write};
use rep_versions::Versions;
use std::alloc::Global;
use std::marker::Model;
use std::sync::Wait;

/// Makes a list longer, one pair at a time, for readers to look into. It is not `Drop`: end it by
/// `close`.
pub struct Publisher<A: Admits + Drop>
where
    Shelf<A>: Absorb<Step, State = Shelf<A>>,
    Published<A>: Protocol<Shelf<A>, Option<Sight<A>>>,
{
    writer: Writer<Shelf<A>, Step, Option<Sight<A>>, Published<A>>,
    head: Word<Change, u64, Law>,
    failed: bool,
    /// What was seen before the first change. Each reader begins there.
    opening: Sight<A>,
    /// Readers that were made at the start and have been told nothing.
    ready: Vec<Reader<A>>,
}

impl<A: Admits + Drop> Model for Publisher<A>
where
    Shelf<A>: Absorb<Step, State = Shelf<A>>,
    Published<A>: Protocol<Shelf<A>, Option<Sight<A>>>,
{
    ghost use Rattle.std.specs.Prelude.{◌≡◌, false, [], drop, length, Some, All};
    ghost use Rattle.rep_snap.specs.Views.{Listing, Later, listing, newcomer};
    ghost use Rattle.rep_snap.specs.Rule.{Sound};
    ghost use Rattle.rep_snap.specs.Book.{head_of};

    ghost Value = { Listing A };

    ghost view = { λ p. listing p.writer.desk.shown.value.sight (length p.ready.items) p.failed };

    ghost invariant = { λ p. (p.head ≡ head_of p.writer.desk.shown.value.sight.seen.book) × Sound A.allows p.writer.desk.shown.value × (p.writer.desk.place.me.0.client ≡ Some p.writer.desk.shown.value.sight) × (p.failed ≡ false → drop p.writer.behind p.writer.log.items ≡ []) × Later p.opening p.writer.desk.shown.value.sight × (p.opening.seen.log ≡ []) × All (λ r. r ≡ newcomer p.opening) p.ready.items };
}

fn first_shelf<A>(alloc: Global, basis: A, start: u64, seen: &Seen<Change, u64, Law>) -> Shelf<A>
    ensures { result ≡ record { sight = record { basis = basis; start = start; seen = seen.now }; front = start; oldest = start; count = 0; kept = map.empty } }
{
    Shelf {
        sight: Sight {
            basis,
            start,
            seen: seen.again(),
        },
        front: start,
        oldest: start,
        count: 0,
        kept: Versions::new(alloc),
    }
}

impl<A: Admits + Again + Drop> Publisher<A> {
    /// A reader that has seen and was told nothing.
    fn newcomer(&mut self) -> Result<Reader<A>, Refusal>
        ensures same { self.new ≡ self.old }
        ensures reader { IfOk result (λ r. r ≡ unaware self.old) }
        ensures refused { IfErr result (λ e. e ≡ OutOfMemory) }
    {
        let Ok(mut place) = self.writer.factory().reader() else {
            return Err(Refusal::OutOfMemory);
        };
        place.learn::<Taken>(self.writer.tell::<Copied>());
        Ok(Reader {
            door: TwoCopies { place },
            sight: self.opening.again(),
            front: self.opening.start,
            told: Told {
                count: 0,
                seen: self.opening.seen.again(),
            },
        })
    }

    /// So many of those.
    fn newcomers(&mut self, alloc: Global, readers: usize) -> Result<Vec<Reader<A>>, Refusal>
        ensures same { self.new ≡ self.old }
        ensures made { IfOk result (λ made. (length made.items ≡ readers) × All (λ reader. reader ≡ unaware self.old) made.items) }
        ensures refused { IfErr result (λ e. e ≡ OutOfMemory) }
    {
        let mut made = Vec::new(alloc);
        for _ in 0..readers {
            made.push(self.newcomer()?)?;
        }
        Ok(made)
    }

    /// The publisher with so many readers ready. Where a growth was refused it is ended.
    fn with_ready<R: Wait>(
        self,
        alloc: Global,
        rt: &R,
        readers: usize,
    ) -> Result<Publisher<A>, Refusal>
        requires readers { 0 < readers }
        ensures ready { IfOk result (λ p. p ≡ record self { ready = readers }) }
        ensures refused { IfErr result (λ e. e ≡ OutOfMemory) }
    {
        let mut publisher = self;
        match publisher.newcomers(alloc, readers) {
            Ok(ready) => {
                publisher.ready = ready;
                Ok(publisher)
            }
            Err(refusal) => {
                publisher.close(rt);
                Err(refusal)
            }
        }
    }

    /// A publisher with an empty list, which starts at this position, with so many readers ready.
    ///
    /// Refuses with `OutOfMemory` where a growth was refused.
    pub fn start<R: Wait>(
        alloc: Global,
        rt: &R,
        basis: A,
        position: u64,
        readers: usize,
    ) -> Result<Publisher<A>, Refusal>
        requires readers { (0 < readers) × (readers < 2 ^ 32) }
        ensures started { IfOk result (λ p. p ≡ opened p.book basis position readers) }
        ensures refused { IfErr result (λ e. e ≡ OutOfMemory) }
    {
        let (seen, mut pen, _second) = Seen::open(Start::alone(), 0, 0);
        let head = Word::tracked(0, &mut pen);
        let first = first_shelf(alloc, basis.again(), position, &seen);
        let second = first_shelf(alloc, basis, position, &seen);
        let opening = first.sight.again();
        let Ok(writer) = Writer::new(alloc, first, second, readers) else {
            return Err(Refusal::OutOfMemory);
        };
        let (writer, shown) = writer.publish_as::<Sees<A>, R>(rt);
        if let Err(_) = shown {
            drop(writer.take(rt));
            return Err(Refusal::OutOfMemory);
        }
        let publisher = Publisher {
            writer,
            head,
            failed: false,
            opening,
            ready: Vec::new(alloc),
        };
        publisher.with_ready(alloc, rt, readers)
    }

    /// Makes the list one pair longer, and shows it to the readers. The seqno is above the front, and the
    /// longer list is allowed. The writes are copied. It may wait for readers that are just looking.
    ///
    /// Refuses, in this order: more than 16 writes with `TooManyWrites`; and with `OutOfMemory` where a
    /// growth was refused. Then readers see what they saw, and each later call that changes the list is
    /// refused too.
    pub fn publish<R: Wait>(
        self,
        rt: &R,
        seqno: u64,
        writes: &[Write],
    ) -> (Publisher<A>, Result<(), Refusal>)
        requires above { front_of self.start (published self.list) < seqno }
        requires allowed { A.allows self.basis self.start (published self.list ++ pair_of seqno writes.now ∷ []) }
        ensures same { (result.0.book ≡ self.book) × (result.0.basis ≡ self.basis) × (result.0.start ≡ self.start) }
        ensures change { IsPublish seqno writes.now self result.0 result.1 }
    {
        match Pair::new(seqno, writes) {
            Ok(pair) => self.publish_all(rt, &[pair]),
            Err(refusal) => (self, Err(refusal)),
        }
    }

    /// Makes the list longer by these pairs, in their order, and shows all of them to the readers at once. Their seqnos ascend from above
    /// the front, and the longer list is allowed. The pairs are copied. It may wait, once, for readers that are just looking.
    ///
    /// Refuses with `OutOfMemory` where a growth was refused. Then readers see what they saw, and each later call that changes the list is
    /// refused too.
    #[tactic(auto, using(crate::proofs::Ruling::leads_none, crate::proofs::Lists::none_published))]
    pub fn publish_all<R: Wait>(
        mut self,
        rt: &R,
        pairs: &[Pair],
    ) -> (Publisher<A>, Result<(), Refusal>)
        requires above { Ascends (front_of self.start (published self.list)) pairs.now }
        requires allowed { A.allows self.basis self.start (published self.list ++ pairs.now) }
        ensures same { (result.0.book ≡ self.book) × (result.0.basis ≡ self.basis) × (result.0.start ≡ self.start) }
        ensures change { AreChanges (map Publish pairs.now) self result.0 result.1 }
    {
        if self.failed {
            return (self, Err(Refusal::OutOfMemory));
        }
        if pairs.is_empty() {
            return (self, Ok(()));
        }
        let told = self.tell();
        let Ok(_) = add_all(&mut self.writer, &self.head, told, pairs) else {
            self.failed = true;
            return (self, Err(Refusal::OutOfMemory));
        };
        let (writer, shown) = show(self.writer, rt);
        self.writer = writer;
        self.failed = shown.is_err();
        (self, shown)
    }

    /// Lets the pairs at and below this position go: no peek is below it any more. It may wait for readers
    /// that are just looking.
    ///
    /// Refuses with `OutOfMemory` where a growth was refused. Then readers see what they saw, and each
    /// later call that changes the list is refused too.
    #[tactic(auto, using(crate::proofs::Ruling::leads_none))]
    pub fn prune<R: Wait>(mut self, rt: &R, position: u64) -> (Publisher<A>, Result<(), Refusal>)
        ensures same { (result.0.book ≡ self.book) × (result.0.basis ≡ self.basis) × (result.0.start ≡ self.start) }
        ensures change { IsChange (Prune position) self result.0 result.1 }
    {
        let change = Change::Prune(position);
        if self.failed {
            return (self, Err(Refusal::OutOfMemory));
        }
        let told = self.tell();
        let Ok(_) = add(&mut self.writer, &self.head, told, change) else {
            self.failed = true;
            return (self, Err(Refusal::OutOfMemory));
        };
        let (writer, pruned) = show(self.writer, rt);
        self.writer = writer;
        self.failed = pruned.is_err();
        (self, pruned)
    }

    /// What readers may be told: the history so far. It takes no memory and does not wait.
    pub fn tell(&self) -> Told
        ensures { result ≡ telling self.now }
    {
        let shelf = self.writer.published();
        Told {
            count: shelf.count,
            seen: shelf.sight.seen.again(),
        }
    }

    /// A reader that has seen and was told nothing: one that is ready, or else a new one.
    fn seat(&mut self) -> Result<Reader<A>, Refusal>
        ensures same { self.new ≡ one_less self.old }
        ensures reader { IfOk result (λ r. r ≡ unaware self.old) }
        ensures refused { IfErr result (λ e. (e ≡ OutOfMemory) × (self.old.ready ≡ 0)) }
    {
        if let Some(reader) = self.ready.pop() {
            return Ok(reader);
        }
        self.newcomer()
    }

    /// A reader that was told the history so far. As many as the publisher was started with are had
    /// for certain; after those, as long as no more are there at once.
    ///
    /// Refuses with `OutOfMemory` where none is ready and there are as many readers as the publisher has
    /// room for.
    pub fn reader(&mut self) -> Result<Reader<A>, Refusal>
        ensures same { self.new ≡ one_less self.old }
        ensures reader { IfOk result (λ r. r ≡ watching self.old) }
        ensures refused { IfErr result (λ e. (e ≡ OutOfMemory) × (self.old.ready ≡ 0)) }
    {
        let told = self.tell();
        let reader = self.seat()?;
        let shelf = self.writer.published();
        Ok(reader.briefed(shelf.sight.again(), shelf.front, told))
    }

    /// Ends the publisher, and says what readers may still be told: the whole history. They find nothing
    /// from then on. It waits for those that are just looking.
    pub fn close<R: Wait>(self, rt: &R) -> Told
        ensures { result ≡ telling self }
    {
        let Publisher {
            writer,
            head: _head,
            failed: _,
            opening: _opening,
            ready: _ready,
        } = self;
        let last = writer.take(rt);
        Told {
            count: last.count,
            seen: last.sight.seen.again(),
        }
    }
}
