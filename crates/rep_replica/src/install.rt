//! How a snapshot that comes from another node is installed in a replica.

ghost use Rattle.std.specs.Prelude.{◌≡◌, ◌↔◌, ◌⊎◌, ◌||◌, true, false, [], None, Ok, Err, is_some, IfOk, IfErr, IfSome, OnOk, OnErr};
ghost use Rattle.rep_types.specs.declared.refusal.Refusal.TheVariants.{Stopped, OutOfMemory, DiskFault};
ghost use Rattle.rep_types.specs.Order.{State};
ghost use Rattle.rep_disk.specs.Moments.{LeavesOnly};
ghost use Rattle.rep_disk.specs.Devices.{Calls};
ghost use Rattle.rep_cert.specs.Holdings.{made_at};
ghost use Rattle.rep_log.specs.declared.phase.Phase.TheVariants.{Resting};
ghost use Rattle.rep_log.specs.Moves.{fault_of};
ghost use Rattle.rep_steps.specs.Standings.{Retiring, Off};
ghost use Rattle.rep_steps.specs.Nodes.{Node};
ghost use Rattle.rep_steps.specs.Images.{IsFrontAt};
ghost use Rattle.rep_recover.specs.Meanings.{Means};
ghost use Rattle.rep_recover.specs.Coming.{IsNewPage, blank, coming, placed, with_page};
ghost use Rattle.rep_recover.specs.CheckpointInstalling.{WritesComing};
ghost use Rattle.rep_layout.specs.Windows.{IsWindowAt};
ghost use Rattle.rep_recover.specs.Engines.{durable_of};
ghost use Rattle.rep_recover.specs.Reading.{halted_by};
ghost use Rattle.rep_recover.specs.Installing.{CanBring, halted_node};
ghost use Rattle.rep_replica.specs.Replicas.{facts_of};
ghost use Rattle.rep_replica.specs.Settling.{is_quiet, IsRunning};
ghost use Rattle.rep_replica.specs.Holding.{Holds};
ghost use Rattle.rep_replica.specs.Refusing.{TellsFaults};
ghost use Rattle.rep_replica.specs.Installing.{HoldsBoth, Installs, Lands, LeavesFronts, given_up};

use crate::replica::Replica;
use crate::settle::outcome;
use rep_backlog::Backlog;
use rep_cert::Certifier;
use rep_disk::Disk;
use rep_pages::PageRows;
use rep_recover::{Installation as EngineInstallation, certifiers_hold_windows};
use rep_types::{Params, Refusal, Window};
use std::alloc::Global;
use std::marker::Model;
use uuid::Uuid;

/// A replica beside whose base a snapshot of another node is installed. No event comes between: the replica is this value's, until the
/// snapshot took the base's place or was given up.
///
/// A stop at any moment leaves the replica as it was, or the snapshot, whole.
#[derive(Drop)]
pub struct Installation<D: Disk> {
    engine: EngineInstallation<D>,
    /// Nothing waits.
    backlog: Backlog,
    /// The certifier as it is if the snapshot is given up.
    before: Certifier,
    /// The certifier that goes on from the snapshot.
    after: Certifier,
}

impl<D: Disk> Model for Installation<D> {
    ghost use Rattle.std.specs.Prelude.{◌≡◌, []};
    ghost use Rattle.rep_recover.specs.Engines.{facts_of as engine_facts};
    ghost use Rattle.rep_replica.specs.Installing.{Bringing, IsBringing, bringing_code};

    ghost Value = { Bringing D };

    ghost coded = { bringing_code D.code };

    ghost view = { λ i. record { engine = i.engine.engine; coming = i.engine.coming; before = i.before; after = i.after } };

    ghost invariant = { λ i. (i.backlog ≡ []) × IsBringing (engine_facts D.Disk i.engine.engine) i.engine.coming i.before i.after };
}

/// The certifier that goes on from a state with this window, and the window.
fn certifier_at(
    alloc: Global,
    params: Params,
    position: u64,
    window: Window,
) -> Result<(Certifier, Window), Refusal>
    requires { IsWindowAt params position window }
    ensures made { IfOk result (λ x. (x.0.current ≡ made_at params position window) × (x.1 ≡ window)) }
    ensures refused { IfErr result (λ e. e ≡ OutOfMemory) }
{
    certifiers_hold_windows();
    let certifier = Certifier::new(alloc, params, position, window)?;
    let window = certifier.window_at(alloc, position)?;
    Ok((certifier, window))
}

impl<D: Disk> Replica<D> {
    /// Begins to install the snapshot of a cluster at this position, with this window there. No device is touched.
    ///
    /// The replica is quiet. The snapshot is of its cluster and above what is durable; where it belongs to no cluster, it is of any.
    ///
    /// Refuses with `Stopped`, and with `OutOfMemory` where there is no room for the certifier that is to go on from there; the
    /// replica comes back as it was.
    pub fn install(
        self,
        alloc: Global,
        uuid: Uuid,
        position: u64,
        window: Window,
    ) -> Result<Installation<D>, (Replica<D>, Refusal)>
        requires quiet { is_quiet (facts_of D.Disk self) ≡ true }
        requires brings { CanBring self.engine.checkpoint.base (durable_of self.engine.log) uuid position window }
        ensures stopped { (self.stopped || is_some self.engine.halted) ≡ true → result ≡ Err (self, Stopped) }
        ensures refused { IfErr result (λ e. (e.0 ≡ self) × (((e.1 ≡ Stopped) × ((self.stopped || is_some self.engine.halted) ≡ true)) ⊎ (e.1 ≡ OutOfMemory))) }
        ensures begun { IfOk result (λ i. (i.engine ≡ self.engine) × (i.coming ≡ coming self.engine.checkpoint.base uuid position self.engine.log.next window)) }
        // What `give_up` gives back has the certifier that the replica has.
        ensures before { IfOk result (λ i. i.before ≡ self.certifier) }
        ensures holds { (n : Node) → Holds D.Disk n self → IfOk result (λ i. HoldsBoth D.Disk n (blank position window) i) }
    {
        // Tells the proof what holds of the engine.
        let _durable = self.engine.durable();
        if self.is_stopped() {
            return Err((self, Refusal::Stopped));
        }
        let params = self.params().copied();
        match certifier_at(alloc, params, position, window) {
            Ok((after, window)) => {
                let Replica {
                    engine,
                    backlog,
                    certifier: before,
                    ..
                } = self;
                match engine.install(uuid, position, window) {
                    Ok(engine) => Ok(Installation {
                        engine,
                        backlog,
                        before,
                        after,
                    }),
                    Err((engine, refusal)) => {
                        let replica = Replica {
                            engine,
                            backlog,
                            certifier: before,
                            stopped: false,
                        };
                        Err((replica, refusal))
                    }
                }
            }
            Err(refusal) => Err((self, refusal)),
        }
    }

    /// Closes the superblock before the base's, and makes that stable.
    fn retire(&mut self) -> Result<(), Refusal>
        requires running { IsRunning self.old }
        requires retiring { (facts_of D.Disk self.old).stage ≡ Retiring false }
        requires resting { (facts_of D.Disk self.old).phase ≡ Resting }
        ensures done { OnOk result (facts_of D.Disk self.new ≡ record (facts_of D.Disk self.old) { stage = Off }) }
        ensures fault { IfErr result (λ e. (e ≡ DiskFault) × ((facts_of D.Disk self.new).stopped ≡ true)) }
        ensures told { TellsFaults (D.failures self.old.engine.disk) (D.failures self.new.engine.disk) result }
        ensures holds { (n : Node) → Holds D.Disk n self.old → OnOk result (Holds D.Disk (record n { facts = record n.facts { stage = Off } }) self.new) }
        ensures fronts { (n : Node) → Holds D.Disk n self.old → OnErr result (LeavesFronts D.Disk n self.new) }
        ensures leaves { (n : Node) → Holds D.Disk n self.old → LeavesOnly (D.history self.old.engine.disk) (D.history self.new.engine.disk) (IsFrontAt Means n) }
    {
        let checked = outcome(self.check());
        if checked.is_err() {
            return checked;
        }
        outcome(self.sync())
    }
}

impl<D: Disk> Installation<D> {
    /// The position that the snapshot is at.
    pub fn position(&self) -> u64
        ensures { result ≡ self.now.coming.next.super.position }
    {
        self.engine.position()
    }

    /// The parameters.
    pub fn params(&self) -> &Params
        ensures { result.now ≡ self.now.engine.checkpoint.base.params }
    {
        self.engine.params()
    }

    /// Whether the device has failed: all that is left is to give up.
    pub fn is_stopped(&self) -> bool
        ensures { result ≡ is_some self.now.engine.halted }
    {
        self.engine.is_stopped()
    }

    /// Whether this page can come: the schema has it, it has no row past the end of its table, and it did not come yet.
    pub fn takes(&self, page: u32, rows: &PageRows) -> bool
        ensures { (result ≡ true) ↔ IsNewPage self.now.engine.checkpoint.base self.now.coming.next page rows.now }
    {
        self.engine.takes(page, rows)
    }

    /// Writes a page of the snapshot into the slot that the base does not use: one write, and no memory. Pages come once each, in any
    /// order; one that does not come has no row.
    ///
    /// Refuses with `Stopped` where the device has failed before, and with `DiskFault` where it failed: the replica is then
    /// stopped, and otherwise as it was.
    pub fn put_page(&mut self, page: u32, rows: PageRows) -> Result<(), Refusal>
        requires page { IsNewPage self.old.engine.checkpoint.base self.old.coming.next page rows }
        ensures call { Calls D.Disk self.old.engine.disk self.new.engine.disk (fault_of result) }
        ensures rest { self.new ≡ record (self.old) { engine = record (self.old.engine) { disk = self.new.engine.disk; halted = self.new.engine.halted }; coming = self.new.coming } }
        ensures stopped { IfSome self.old.engine.halted (λ _. (result ≡ Err Stopped) × (self.new ≡ self.old)) }
        ensures running { self.old.engine.halted ≡ None → (self.new.engine.halted ≡ halted_by self.old.engine.log.phase result) × IfErr result (λ e. e ≡ DiskFault) }
        ensures done { OnOk result (self.new.coming ≡ placed self.old.engine.checkpoint.base page self.old.coming) }
        ensures fault { OnErr result (self.new.coming ≡ self.old.coming) }
        // Its position in the bytes is the snapshot's.
        ensures written { self.old.engine.halted ≡ None → WritesComing D.Disk self.old.engine.layout self.old.engine.checkpoint.base self.old.coming page rows self.old.engine.disk self.new.engine.disk result }
        // Where it succeeds, the snapshot brings the page's rows too.
        ensures holds { (n : Node) → (y : State) → HoldsBoth D.Disk n y self.old → OnOk result (HoldsBoth D.Disk n (with_page self.old.engine.checkpoint.base.params.rows page rows y) self.new) }
        ensures halts { (n : Node) → (y : State) → HoldsBoth D.Disk n y self.old → IfErr result (λ e. e ≡ DiskFault → HoldsBoth D.Disk (halted_node (D.failures self.new.engine.disk) n) y self.new) }
        ensures leaves { (n : Node) → (y : State) → HoldsBoth D.Disk n y self.old → LeavesOnly (D.history self.old.engine.disk) (D.history self.new.engine.disk) (IsFrontAt Means n) }
    {
        self.engine.put_page(page, rows)
    }

    /// Gives the snapshot up: the replica is as it was before, whatever pages came. The device is not asked.
    pub fn give_up(self) -> Replica<D>
        ensures replica { result ≡ given_up self }
        ensures holds { (n : Node) → (y : State) → HoldsBoth D.Disk n y self → Holds D.Disk n result }
    {
        let Installation {
            engine,
            backlog,
            before,
            ..
        } = self;
        Replica {
            engine: engine.give_up(),
            backlog,
            certifier: before,
            stopped: false,
        }
    }

    /// Lets the snapshot take the base's place, where the device has not failed before.
    fn take_place(self) -> (Replica<D>, Result<(), Refusal>)
        requires running { self.engine.halted ≡ None }
        ensures lands { Lands D.Disk self result.0 result.1 }
        ensures told { TellsFaults (D.failures self.engine.disk) (D.failures result.0.engine.disk) result.1 }
        ensures installs { (n : Node) → (y : State) → HoldsBoth D.Disk n y self → Installs D.Disk n y self result.0 result.1 }
    {
        certifiers_hold_windows();
        let Installation {
            engine,
            backlog,
            before,
            after,
        } = self;
        // Tells the proof what holds of the snapshot beside the engine.
        let _position = engine.position();
        let (engine, ended) = engine.end();
        if ended.is_err() {
            let replica = Replica {
                engine,
                backlog,
                certifier: before,
                stopped: false,
            };
            return (replica, ended);
        }
        let mut replica = Replica {
            engine,
            backlog,
            certifier: after,
            stopped: false,
        };
        let retired = replica.retire();
        (replica, retired)
    }

    /// Lets the snapshot take the base's place: its window, its superblock and that one's open gate are written, with a sync behind each;
    /// then the superblock before it is closed, and that is made stable. It takes no memory. The replica then stands at the
    /// snapshot, with nothing behind it, and is quiet.
    ///
    /// Refuses with `Stopped` where the device has failed before; and with `DiskFault` where it failed: the replica is then stopped,
    /// and what is opened on its disk is either what it was or the snapshot.
    pub fn end(self) -> (Replica<D>, Result<(), Refusal>)
        ensures stopped { IfSome self.engine.halted (λ _. result ≡ (given_up self, Err Stopped)) }
        ensures lands { self.engine.halted ≡ None → Lands D.Disk self result.0 result.1 }
        // It is refused by the device alone, and exactly where that failed.
        ensures told { TellsFaults (D.failures self.engine.disk) (D.failures result.0.engine.disk) result.1 }
        ensures installs { (n : Node) → (y : State) → HoldsBoth D.Disk n y self → Installs D.Disk n y self result.0 result.1 }
    {
        if self.is_stopped() {
            return (self.give_up(), Err(Refusal::Stopped));
        }
        self.take_place()
    }
}
