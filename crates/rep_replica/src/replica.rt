//! What a replica holds, and what it says of itself.

ghost use Rattle.std.specs.Prelude.{◌≡◌, ◌+◌, ◌≤◌, ◌||◌, ◌↔◌, false, length, is_some, IfOk, IfErr};
ghost use Rattle.rep_layout.specs.declared.page_state.PageState.TheVariants.{Nowhere};
ghost use Rattle.rep_pages.specs.Slots.{state_of_page};
ghost use Rattle.rep_cert.specs.Holdings.{window_of, verdict_of};
ghost use Rattle.rep_steps.specs.Standings.{delivered};
ghost use Rattle.rep_steps.specs.Nodes.{Node, verdict_for, window_at};
ghost use Rattle.rep_recover.specs.Engines.{facts_of as engine_facts, gtid_of, durable_of};
ghost use Rattle.rep_replica.specs.Replicas.{IsReplica, facts_of};
ghost use Rattle.rep_replica.specs.Holding.{Holds};
ghost use Rattle.rep_replica.specs.Committing.{pages_left};

use rep_backlog::Backlog;
use rep_cert::Certifier;
use rep_disk::Disk;
use rep_recover::Engine;
use rep_types::{Gtid, Item, Params, Refusal, Verdict, Window};
use std::alloc::Global;
use std::marker::Model;
use uuid::Uuid;

/// One node of the database on a disk, in one thread.
///
/// Each event is one step of it. It judges what is delivered, in the order of the seqnos; it writes the judged items
/// into the log, a block at a time, and replies to their origins once they are durable; and it reads rows of any
/// position from its base up to what is durable. Where the device fails, it is stopped and refuses
/// everything, until its disk is opened again.
#[derive(Drop)]
pub struct Replica<D: Disk> {
    pub(crate) engine: Engine<D>,
    /// The delivered items that the engine has not accepted.
    pub(crate) backlog: Backlog,
    pub(crate) certifier: Certifier,
    /// Whether it was stopped from outside.
    pub(crate) stopped: bool,
}

impl<D: Disk> Model for Replica<D> {
    ghost use Rattle.rep_recover.specs.Engines.{facts_of as engine_facts};
    ghost use Rattle.rep_replica.specs.Replicas.{Replica as Contents, IsReplica, replica_code};

    ghost Value = { Contents D };

    ghost coded = { replica_code D.code };

    ghost view = { λ r. record { engine = r.engine; backlog = r.backlog; certifier = r.certifier; stopped = r.stopped } };

    ghost invariant = { λ r. IsReplica (engine_facts D.Disk r.engine) r.backlog r.certifier.current r.stopped };
}

impl<D: Disk> Replica<D> {
    /// Puts the parts of a replica together. Where `stopped` is true, it refuses everything, as one whose device failed.
    ///
    /// Engine and certifier have the same parameters; the certifier gives the window at what is durable, and none
    /// that a disk cannot hold. Unless `stopped` is true, the backlog's items come behind those that the engine
    /// accepted, without a gap, up to the last that was delivered; none is above `MAX_SEQNO`, a conflict is with an
    /// item before the one that it refuses, and there is none where the engine belongs to no cluster.
    pub fn from_parts(
        certifier: Certifier,
        backlog: Backlog,
        engine: Engine<D>,
        stopped: bool,
    ) -> Replica<D>
        requires { IsReplica (engine_facts D.Disk engine) backlog certifier.current stopped }
        ensures { result ≡ record { engine = engine; backlog = backlog; certifier = certifier; stopped = stopped } }
    {
        Replica {
            engine,
            backlog,
            certifier,
            stopped,
        }
    }

    /// Takes a replica apart. Whether it was stopped from outside, its owner knows.
    pub fn into_parts(self) -> (Certifier, Backlog, Engine<D>)
        ensures parts { (result.0 ≡ self.certifier) × (result.1 ≡ self.backlog) × (result.2 ≡ self.engine) }
        // What holds of every replica.
        ensures replica { IsReplica (engine_facts D.Disk self.engine) self.backlog self.certifier.current self.stopped }
    {
        let Replica {
            engine,
            backlog,
            certifier,
            ..
        } = self;
        (certifier, backlog, engine)
    }

    /// The device.
    pub fn disk(&self) -> &D
        ensures { result.now ≡ self.now.engine.disk }
    {
        self.engine.disk()
    }

    /// Gives the device back.
    pub fn into_disk(self) -> D
        ensures { result ≡ self.engine.disk }
    {
        let Replica { engine, .. } = self;
        engine.into_disk()
    }

    /// Whether it refuses everything: the device has failed, or it was stopped from outside.
    pub fn is_stopped(&self) -> bool
        ensures { result ≡ (self.now.stopped || is_some self.now.engine.halted) }
    {
        self.stopped || self.engine.is_stopped()
    }

    /// The state UUID; nil where the node belongs to no cluster yet.
    pub fn uuid(&self) -> Uuid
        ensures { result ≡ self.now.engine.checkpoint.base.uuid }
    {
        self.engine.uuid()
    }

    /// The parameters.
    pub fn params(&self) -> &Params
        ensures { result.now ≡ self.now.engine.checkpoint.base.params }
    {
        self.engine.params()
    }

    /// How many items were delivered.
    pub fn delivered(&self) -> u64
        ensures certifier { result ≡ self.now.certifier.current.delivered }
        ensures facts { self.now.stopped ≡ false → result ≡ delivered (facts_of D.Disk self.now) }
    {
        self.certifier.delivered()
    }

    /// How many of them are durable.
    pub fn durable(&self) -> u64
        ensures durable { result ≡ durable_of self.now.engine.log }
        // What holds of every replica.
        ensures replica { IsReplica (engine_facts D.Disk self.now.engine) self.now.backlog self.now.certifier.current self.now.stopped }
    {
        self.engine.durable()
    }

    /// The position of the base: of the oldest state that can be read.
    pub fn base(&self) -> u64
        ensures { result ≡ self.now.engine.checkpoint.base.position }
    {
        self.engine.base()
    }

    /// How many pages the checkpoint under way has left to flush; 0 where none is under way.
    pub fn pages_left(&self) -> usize
        ensures { result ≡ length (pages_left (facts_of D.Disk self.now).stage) }
    {
        self.engine.pages_left()
    }

    /// How many of the log's cells are live: those of the durable blocks behind the base.
    pub fn cells_live(&self) -> u64
        ensures live { (facts_of D.Disk self.now).start + result ≡ (facts_of D.Disk self.now).next }
        ensures within { result ≤ (facts_of D.Disk self.now).setting.cells }
    {
        self.engine.cells_live()
    }

    /// The GTID of what is durable: the state UUID and the seqno of the last durable item; that of a node without
    /// a cluster is undefined, the nil UUID and -1.
    pub fn gtid(&self) -> Gtid
        ensures { result ≡ gtid_of self.now.engine }
    {
        self.engine.gtid()
    }

    /// The verdict on the item, were it the next one, behind the last that was delivered. It takes no memory. A change of
    /// the window's size commits.
    pub fn judge(&self, item: &Item) -> Verdict
        ensures certifier { result ≡ verdict_of self.now.certifier.current item.now }
        ensures node { (n : Node) → Holds D.Disk n self.now → result ≡ verdict_for n item.now }
    {
        self.certifier.judge_item(item)
    }

    /// Whether the base has this page in a slot. The rows of one that it doesn't have are absent.
    pub fn has_base_page(&self, page: u32) -> bool
        ensures { (result ≡ false) ↔ (state_of_page self.now.engine.checkpoint.base page ≡ Nowhere) }
    {
        self.engine.has_base_page(page)
    }

    /// The window at what is durable: its size, its floor, and the committed write sets that certification needed
    /// for the item behind it, in ascending order.
    ///
    /// Refuses with `OutOfMemory` where the list cannot grow.
    pub fn window(&self, alloc: Global) -> Result<Window, Refusal>
        ensures window { IfOk result (λ window. window ≡ window_of self.now.certifier.current (durable_of self.now.engine.log)) }
        ensures node { (n : Node) → Holds D.Disk n self.now → IfOk result (λ window. window ≡ window_at n n.facts.durable) }
        ensures refused { IfErr result (λ refusal. refusal ≡ Refusal.OutOfMemory) }
    {
        let durable = self.engine.durable();
        self.certifier.window_at(alloc, durable)
    }
}
