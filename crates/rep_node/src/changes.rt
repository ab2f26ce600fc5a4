//! Where those sleep who wait for the node to change.

ghost use Rattle.std.specs.Prelude.{◌≡◌, ◌≤◌, ◌↔◌, IsTrue, min};
ghost use Rattle.rep_types.specs.declared.limits.TheConstants.{MAX_SEQNO};
ghost use Rattle.rep_ordered.specs.Views.{HasAll, Later, Sees};
ghost use Rattle.rep_node.specs.Homes.{IsLegal};

use crate::home::Home;
use crate::node::LockSeat;
use crossbeam_utils::atomic::AtomicCell;
use crossbeam_utils::sync::{EventCount, Key};
use rep_disk::Disk;
use rep_ordered::{Front, OrderedLock};
use rep_types::Judged;

/// Wakes those who sleep until more is durable or the node is halted, once that has happened. And wakes one who may take the lead, once the
/// lead is free. No contract speaks of what the numbers and the flag say: they are hints for those who wait.
///
/// Each announces a sleep first, then looks, and then sleeps. So whoever sleeps is woken by the change that the look did not see: who raises
/// the durable number, or halts the node, wakes all after that.
///
/// The lead does not stay free while candidates sleep. A candidate sleeps only once it found another one in the lead. That one lets the
/// lead go later, and then wakes one of the candidates that sleep. The one that wakes takes the lead, unless
///
/// - another one took it first, who lets it go later, and then wakes one; or
/// - what it waits for is durable by then, or the node is halted. At its look before the sleep neither was so, and nothing woke it since. So
///   whoever changed that has still to wake all.
///
/// Those who never lead sleep elsewhere: among the candidates one of them could be the only one that wakes, and nobody would lead.
#[derive(Drop)]
pub(crate) struct Changes {
    /// Who waits until more is durable, and never leads.
    submitters: EventCount,
    /// Who waits until more is durable, and takes the lead if it is free.
    candidates: EventCount,
    /// Who waits for something to make durable.
    pub(crate) keepers: EventCount,
    /// Whether one of the candidates makes items durable, while the others wait.
    has_leader: AtomicCell<bool>,
    /// How many items were under way when the last of them became durable: so many may come for the next block.
    under_way: AtomicCell<u64>,
}

impl Changes {
    /// Nobody waits.
    pub(crate) fn new() -> Changes {
        Changes {
            submitters: EventCount::new(),
            candidates: EventCount::new(),
            keepers: EventCount::new(),
            has_leader: AtomicCell::new(false),
            under_way: AtomicCell::new(0),
        }
    }

    /// Announces a sleep until more is durable. Who `keeps` is a candidate for the lead. It looks again before it sleeps: at the durable
    /// number first, and then at the lead.
    pub(crate) fn announced(&self, keeps: bool) -> Key<'_> {
        if keeps {
            self.candidates.prepare_wait()
        } else {
            self.submitters.prepare_wait()
        }
    }

    /// Takes the lead among the candidates, if nobody has it.
    pub(crate) fn lead(&self) -> bool {
        !self.has_leader.swap(true)
    }

    /// Lets the lead go, and then wakes one of the candidates that sleep.
    pub(crate) fn resign(&self) {
        self.has_leader.store(false);
        self.candidates.notify_one();
    }

    /// How many items may come for the next block.
    pub(crate) fn expected(&self) -> u64 {
        self.under_way.load()
    }

    /// Wakes all who wait.
    fn wake_all(&self) {
        self.submitters.notify_all();
        self.candidates.notify_all();
        self.keepers.notify_all();
    }

    /// Raises the durable number of the lock, as the lock does it, and wakes whoever waits for that. Who finds as much told already wakes
    /// nobody: whoever told it did.
    pub(crate) fn raise<D: Disk>(
        &self,
        lock: &OrderedLock<Home<D>, Judged>,
        seat: &mut LockSeat<D>,
        durable: u64,
    ) -> Front
        requires lock { seat.old.lock ≡ lock.now }
        requires saw { durable ≤ seat.old.view.backed }
        ensures lock { seat.new.lock ≡ seat.old.lock }
        ensures later { Later seat.old.view seat.new.view }
        ensures sees { Sees (IsLegal seat.old.view.first) seat.new.view }
        ensures raised { seat.new.view.halted ≡ 0 → min durable MAX_SEQNO ≤ seat.new.view.durable }
        ensures halted { IsTrue result.halted ↔ (seat.new.view.halted ≡ 1) }
        ensures one_bit { seat.new.view.halted ≤ 1 }
        ensures last { HasAll seat.old.view → seat.new.view.halted ≡ seat.old.view.halted }
    {
        let next = lock.next_number();
        let found = lock.raise(seat, durable);
        if found.durable < durable {
            self.under_way.store(next.saturating_sub(found.durable + 1));
            self.wake_all();
        }
        found
    }

    /// Halts the lock, as the lock does it, and wakes all who wait.
    pub(crate) fn halt<D: Disk>(&self, lock: &OrderedLock<Home<D>, Judged>, seat: &mut LockSeat<D>)
        requires { seat.old.lock ≡ lock.now }
        ensures lock { seat.new.lock ≡ seat.old.lock }
        ensures later { Later seat.old.view seat.new.view }
        ensures sees { Sees (IsLegal seat.old.view.first) seat.new.view }
        ensures halted { seat.new.view.halted ≡ 1 }
    {
        lock.halt(seat);
        self.wake_all();
    }
}
