//! A publisher of any lists, which looks at the front itself before it publishes.

ghost use Rattle.std.specs.Prelude.{◌≡◌, ◌⊎◌, ◌<◌, ◌^◌, false, [], Err, IfOk, IfErr};
ghost use Rattle.rep_types.specs.declared.refusal.Refusal.TheVariants.{NotDue, OutOfMemory};
ghost use Rattle.rep_snap.specs.declared.change.Change.TheVariants.{Prune};
ghost use Rattle.rep_snap.specs.Lists.{published, front_of};
ghost use Rattle.rep_snap.specs.Views.{IsChange, IsPublish, one_less, telling, watching};

use rep_snap::{Admits, Again, Publisher, Reader, Told, histories_grow};
use rep_types::{Key, Refusal, Value, Write};
use std::alloc::Global;
use std::sync::Wait;

/// Allows every list.
#[derive(Clone, Copy)]
pub struct Free;

impl Admits for Free {
    ghost allows = { λ basis start pairs. Unit {0} };

    ghost empty = { λ basis start. tt };
}

impl Again for Free {
    fn again(&self) -> Free {
        *self
    }
}

/// A publisher with its front.
pub struct Steady {
    pub publisher: Publisher<Free>,
    pub front: u64,
    ghost front_is: { front ≡ front_of publisher.start (published publisher.list) },
}

impl Steady {
    /// One that starts at this position.
    pub fn start<R: Wait>(
        alloc: Global,
        rt: &R,
        position: u64,
        readers: usize,
    ) -> Result<Steady, Refusal>
        requires { (0 < readers) × (readers < 2 ^ 32) }
        ensures started { IfOk result (λ s. (s.publisher.start ≡ position) × (s.publisher.list ≡ []) × (s.publisher.ready ≡ readers) × (s.publisher.failed ≡ false)) }
        ensures refused { IfErr result (λ e. e ≡ OutOfMemory) }
    {
        let publisher = Publisher::start(alloc, rt, Free, position, readers)?;
        Ok(Steady {
            publisher,
            front: position,
        })
    }

    /// Publishes, where the seqno is above the front, and else refuses with `NotDue`.
    pub fn publish<R: Wait>(
        self,
        rt: &R,
        seqno: u64,
        writes: &[Write],
    ) -> (Steady, Result<(), Refusal>)
        ensures same { result.0.publisher.book ≡ self.publisher.book }
        ensures change { ((result.1 ≡ Err NotDue) × (result.0.publisher ≡ self.publisher)) ⊎ IsPublish seqno writes.now self.publisher result.0.publisher result.1 }
    {
        histories_grow();
        let Steady { publisher, front } = self;
        if seqno <= front {
            return (Steady { publisher, front }, Err(Refusal::NotDue));
        }
        let (publisher, done) = publisher.publish(rt, seqno, writes);
        match done {
            Ok(()) => {
                let steady = Steady {
                    publisher,
                    front: seqno,
                };
                (steady, Ok(()))
            }
            Err(refusal) => (Steady { publisher, front }, Err(refusal)),
        }
    }

    /// Publishes one write of one row.
    pub fn put<R: Wait>(
        self,
        rt: &R,
        seqno: u64,
        key: Key,
        value: Option<Value>,
    ) -> (Steady, Result<(), Refusal>)
        ensures same { result.0.publisher.book ≡ self.publisher.book }
    {
        let writes = [Write { key, value }];
        self.publish(rt, seqno, &writes)
    }

    /// Publishes, and then prunes where a position is given.
    pub fn publish_and_prune<R: Wait>(
        self,
        rt: &R,
        seqno: u64,
        writes: &[Write],
        position: Option<u64>,
    ) -> (Steady, Result<(), Refusal>)
        ensures same { result.0.publisher.book ≡ self.publisher.book }
    {
        let (steady, done) = self.publish(rt, seqno, writes);
        match position {
            Some(position) if done.is_ok() => steady.prune(rt, position),
            _ => (steady, done),
        }
    }

    /// Prunes.
    pub fn prune<R: Wait>(self, rt: &R, position: u64) -> (Steady, Result<(), Refusal>)
        ensures same { result.0.publisher.book ≡ self.publisher.book }
        ensures change { IsChange (Prune position) self.publisher result.0.publisher result.1 }
    {
        histories_grow();
        let Steady { publisher, front } = self;
        let (publisher, done) = publisher.prune(rt, position);
        match done {
            Ok(()) => (Steady { publisher, front }, Ok(())),
            Err(refusal) => (Steady { publisher, front }, Err(refusal)),
        }
    }

    /// What readers may be told.
    pub fn tell(&self) -> Told
        ensures { result ≡ telling self.now.publisher }
    {
        self.publisher.tell()
    }

    /// A reader.
    pub fn reader(&mut self) -> Result<Reader<Free>, Refusal>
        ensures same { self.new.publisher ≡ one_less self.old.publisher }
        ensures reader { IfOk result (λ r. r ≡ watching self.old.publisher) }
        ensures refused { IfErr result (λ e. (e ≡ OutOfMemory) × (self.old.publisher.ready ≡ 0)) }
    {
        self.publisher.reader()
    }

    /// Ends it, and says what readers may still be told.
    pub fn close<R: Wait>(self, rt: &R) -> Told
        ensures { result ≡ telling self.publisher }
    {
        let Steady {
            publisher,
            front: _,
        } = self;
        publisher.close(rt)
    }
}
