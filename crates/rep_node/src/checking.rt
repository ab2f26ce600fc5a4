//! Checkpoints of a node that threads run.

ghost use Rattle.std.specs.Prelude.{◌≡◌, ◌≢◌, ◌⊎◌, ◌≤◌, [], List, None, Err, IfOk, IfErr, IfSome, OnOk};
ghost use Rattle.rep_types.specs.declared.judged.Judged.{Judged as Entry};
ghost use Rattle.rep_types.specs.declared.refusal.Refusal.TheVariants.{NotDue, OutOfMemory, Stopped as is_stopped};
ghost use Rattle.rep_cert.specs.Holdings.{Holding};
ghost use Rattle.rep_checkpoint.specs.declared.stage.Step.TheVariants.{Begin};
ghost use Rattle.rep_checkpoint.specs.Standing.{due_in};
ghost use Rattle.rep_engine.specs.Engines.{Engine as Contents, durable_of};
ghost use Rattle.rep_stations.specs.Taking.{HasTaken};
ghost use Rattle.rep_node.specs.Homes.{Start, DeskAt, values_of};
ghost use Rattle.rep_node.specs.Keeping.{AtWork, common_of_desk};
ghost use Rattle.rep_node.specs.Seats.{IsSeat, WentIdle};
ghost use Rattle.rep_node.specs.Checking.{EndsAt, FoundNoneDue, HasNoneDue, IsChecked, IsPruned, MayLend, said_of};

use crate::home::{Desk, Home};
use crate::keeping::publish_durable;
use crate::node::{LockSeat, Node};
use crate::parts::{certifier_of, desk_of};
use crate::seat::Seat;
use rep_cert::Certifier;
use rep_checkpoint::Step;
use rep_disk::Disk;
use rep_engine::Engine;
use rep_snap::{Told, histories_grow};
use rep_stations::taken_items_stay;
use rep_types::Refusal;
use std::sync::Wait;

/// What a checkpoint came to, and what readers may be told then.
#[derive(Drop)]
pub struct Checked {
    /// The position of the base.
    pub base: u64,
    /// The list that is published so far, without what was let go: no peek is below the base once a reader learnt it.
    pub told: Told,
}

/// Begins a checkpoint at what is durable, and says where that is.
///
/// Refuses with `NotDue` where one is under way, or where the base stands at what is durable: the engine is then as it was. Any other
/// refusal, of the device or of a growth, leaves an engine to be given up.
fn begin<D: Disk>(engine: &mut Engine<D>, certifier: &Certifier) -> Result<u64, Refusal>
    requires lent { (s : Start D) × (taken : List Entry) × (more : List Entry) × MayLend D.Disk s taken more certifier.now.current engine.old }
    ensures taken { (s : Start D) → (taken : List Entry) → (more : List Entry) → MayLend D.Disk s taken more certifier.now.current engine.old → HasTaken D.Disk s.desk.engine s.certifier.current taken engine.new }
    ensures still { (engine.new.log ≡ engine.old.log) × (engine.new.block ≡ engine.old.block) }
    ensures base { engine.old.checkpoint.base.position ≤ engine.new.checkpoint.base.position }
    ensures works { engine.old.halted ≡ None → OnOk result (engine.new.halted ≡ None) }
    ensures position { IfOk result (λ position. position ≡ durable_of engine.old.log) }
    ensures unchanged { IfErr result (λ refusal. refusal ≡ NotDue → engine.new ≡ engine.old) }
    ensures due { result ≡ Err NotDue → HasNoneDue engine.old }
{
    taken_items_stay::<D>();
    let position = engine.durable();
    match engine.checkpoint_step() {
        Step::Begin => {
            engine.check(certifier)?;
            Ok(position)
        }
        Step::Flush(_) | Step::Next | Step::Sync => Err(Refusal::NotDue),
    }
}

/// The step that the checkpoint under way waits for: a page's flush, the next write, or a sync. It takes no memory, and does nothing where
/// no checkpoint is under way.
fn advance<D: Disk>(engine: &mut Engine<D>) -> Result<(), Refusal>
    ensures taken { (first : Contents D) → (c : Holding) → (items : List Entry) → HasTaken D.Disk first c items engine.old → HasTaken D.Disk first c items engine.new }
    ensures rises { durable_of engine.old.log ≤ durable_of engine.new.log }
    ensures base { engine.old.checkpoint.base.position ≤ engine.new.checkpoint.base.position }
    ensures works { engine.old.halted ≡ None → OnOk result (engine.new.halted ≡ None) }
{
    taken_items_stay::<D>();
    // Tells the proof what holds of the engine.
    let _durable = engine.durable();
    match engine.checkpoint_step() {
        Step::Begin => Ok(()),
        Step::Flush(page) => engine.flush(u64::from(page)),
        Step::Next => engine.check_next(),
        Step::Sync => {
            let _replies = engine.sync()?;
            Ok(())
        }
    }
}

/// The step that the checkpoint under way waits for; what is durable behind it is published.
///
/// Any refusal, of the device or of a growth, leaves an engine to be given up.
fn take_on<D: Disk, R: Wait>(rt: &R, desk: Desk<D>) -> (Desk<D>, Result<(), Refusal>)
    requires work { (s : Start D) × (items : List Entry) × AtWork D.Disk s items desk }
    ensures works { (s : Start D) → (items : List Entry) → AtWork D.Disk s items desk → OnOk result.1 (AtWork D.Disk s items result.0) }
    ensures given { (s : Start D) → (items : List Entry) → AtWork D.Disk s items desk → DeskAt D.Disk s 1 items result.0 }
    ensures rises { durable_of desk.engine.log ≤ durable_of result.0.engine.log }
    ensures common { common_of_desk result.0 ≡ common_of_desk desk }
{
    let mut desk = desk;
    match advance(desk.engine.get_mut()) {
        Ok(()) => (),
        Err(refusal) => return (desk, Err(refusal)),
    }
    publish_durable(rt, desk)
}

/// Lets what was published up to the base go, once no checkpoint is under way: readers find no snapshot below the base any more, and each
/// from there on still. It says where the base stands, and what readers may be told.
///
/// Refuses with `OutOfMemory` where a growth was refused.
fn prune<D: Disk, R: Wait>(rt: &R, desk: Desk<D>) -> (Desk<D>, Result<Option<Checked>, Refusal>)
    ensures works { (s : Start D) → (items : List Entry) → AtWork D.Disk s items desk → OnOk result.1 (AtWork D.Disk s items result.0) }
    ensures given { (s : Start D) → (items : List Entry) → AtWork D.Disk s items desk → DeskAt D.Disk s 1 items result.0 }
    ensures same { result.0.engine ≡ desk.engine }
    ensures says { IfOk result.1 (λ ended. ended ≡ said_of Begin result.0) }
    ensures pruned { (s : Start D) → (items : List Entry) → AtWork D.Disk s items desk → OnOk result.1 (IsPruned s result.0) }
    ensures refused { IfErr result.1 (λ refusal. refusal ≡ OutOfMemory) }
{
    histories_grow();
    let Desk {
        engine,
        publisher,
        waiting,
    } = desk;
    let (publisher, done) = publisher.prune(rt, engine.get().base());
    let checked = Checked {
        base: engine.get().base(),
        told: publisher.tell(),
    };
    let desk = Desk {
        engine,
        publisher,
        waiting,
    };
    match done {
        Ok(()) => (desk, Ok(Some(checked))),
        Err(refusal) => (desk, Err(refusal)),
    }
}

/// The step that the checkpoint under way waits for. Where none is under way, readers' snapshots below the base go, and none from there on,
/// and it says where the base stands, and what readers may be told.
///
/// Any refusal, of the device or of a growth, leaves an engine to be given up.
fn step_on<D: Disk, R: Wait>(rt: &R, desk: Desk<D>) -> (Desk<D>, Result<Option<Checked>, Refusal>)
    requires work { (s : Start D) × (items : List Entry) × AtWork D.Disk s items desk }
    ensures works { (s : Start D) → (items : List Entry) → AtWork D.Disk s items desk → OnOk result.1 (AtWork D.Disk s items result.0) }
    ensures given { (s : Start D) → (items : List Entry) → AtWork D.Disk s items desk → DeskAt D.Disk s 1 items result.0 }
    ensures rises { durable_of desk.engine.log ≤ durable_of result.0.engine.log }
    ensures common { common_of_desk result.0 ≡ common_of_desk desk }
    ensures says { IfOk result.1 (λ ended. ended ≡ said_of (due_in desk.engine.checkpoint.stage) result.0) }
    ensures pruned { due_in desk.engine.checkpoint.stage ≡ Begin → (s : Start D) → (items : List Entry) → AtWork D.Disk s items desk → OnOk result.1 (IsPruned s result.0) }
{
    match desk.engine.get().checkpoint_step() {
        Step::Begin => prune(rt, desk),
        Step::Flush(_) | Step::Next | Step::Sync => {
            let (desk, done) = take_on(rt, desk);
            match done {
                Ok(()) => (desk, Ok(None)),
                Err(refusal) => (desk, Err(refusal)),
            }
        }
    }
}

impl<D: Disk> Node<D> {
    /// Begins a checkpoint at what is durable, and says where that is: no less than the seat had seen durable. For this alone a checkpoint
    /// holds the certifier.
    ///
    /// Refuses with `NotDue` only where one is under way, or where the base stands at what is durable. Refuses with `Stopped` where the node
    /// was halted, which it does itself where the device fails, or where there is no memory.
    fn begin_checkpoint<R: Wait>(&self, rt: &R, seat: &mut LockSeat<D>) -> Result<u64, Refusal>
        requires lock { seat.old.lock ≡ self.now }
        requires seat { IsSeat D.Disk seat.old.view }
        requires free { seat.old.view.held ≡ [] }
        ensures lock { seat.new.lock ≡ seat.old.lock }
        ensures idle { WentIdle seat.old.view seat.new.view }
        ensures position { IfOk result (λ position. seat.old.view.durable ≤ position) }
        ensures goes { result ≢ Err is_stopped → (seat.new.view.halted ≡ 0) × (seat.new.view.given_up ≡ seat.old.view.given_up) }
        ensures due { result ≡ Err NotDue → (s : Start D) → seat.old.view.first ≡ values_of s → FoundNoneDue D.Disk s seat.new.view }
        ensures refused { IfErr result (λ refusal. (refusal ≡ NotDue) ⊎ ((refusal ≡ is_stopped) × (seat.new.view.halted ≡ 1))) }
    {
        let certifier = certifier_of(self.lock.side_enter(rt, seat, 0)?);
        let home = match self.lock.side_enter(rt, seat, 1) {
            Ok(home) => home,
            Err(refusal) => {
                self.lock.side_leave(seat, 0, Home::Certifier(certifier));
                return Err(refusal);
            }
        };
        let mut desk = desk_of(home);
        let done = begin(desk.engine.get_mut(), &certifier);
        self.lock.side_leave(seat, 0, Home::Certifier(certifier));
        match done {
            Ok(position) => {
                self.leave_desk(seat, desk);
                Ok(position)
            }
            Err(Refusal::NotDue) => {
                self.leave_desk(seat, desk);
                Err(Refusal::NotDue)
            }
            Err(_) => {
                self.give_desk_up(seat, desk);
                Err(Refusal::Stopped)
            }
        }
    }

    /// The step that the checkpoint under way waits for. Where none is under way, it says where the base stands, which the seat has seen
    /// durable then, and what readers may be told.
    ///
    /// Refuses with `Stopped` where the node was halted, which it does itself where the device fails, where a page of the base is not of its
    /// form, or where there is no memory.
    fn go_on<R: Wait>(&self, rt: &R, seat: &mut LockSeat<D>) -> Result<Option<Checked>, Refusal>
        requires lock { seat.old.lock ≡ self.now }
        requires seat { IsSeat D.Disk seat.old.view }
        requires free { seat.old.view.held ≡ [] }
        ensures lock { seat.new.lock ≡ seat.old.lock }
        ensures idle { WentIdle seat.old.view seat.new.view }
        ensures ended { IfOk result (λ ended. IfSome ended (EndsAt seat.old.view.first seat.new.view)) }
        ensures goes { OnOk result ((seat.new.view.halted ≡ 0) × (seat.new.view.given_up ≡ seat.old.view.given_up)) }
        ensures refused { IfErr result (λ refusal. (refusal ≡ is_stopped) × (seat.new.view.halted ≡ 1)) }
    {
        let desk = self.enter_desk(rt, seat)?;
        let (desk, done) = step_on(rt, desk);
        let durable = desk.engine.get().durable();
        let ended = match done {
            Ok(ended) => ended,
            Err(_) => {
                self.give_desk_up(seat, desk);
                return Err(Refusal::Stopped);
            }
        };
        self.leave_desk(seat, desk);
        self.tell_durable(seat, durable)?;
        Ok(ended)
    }

    /// What [`check_run`](Node::check_run) does, with the lock's seat of a seat of the node that holds no station.
    pub(crate) fn check_seat<R: Wait>(
        &self,
        rt: &R,
        seat: &mut LockSeat<D>,
    ) -> Result<Checked, Refusal>
        requires lock { seat.old.lock ≡ self.now }
        requires seat { IsSeat D.Disk seat.old.view }
        requires free { seat.old.view.held ≡ [] }
        ensures lock { seat.new.lock ≡ seat.old.lock }
        ensures idle { WentIdle seat.old.view seat.new.view }
        ensures checked { IfOk result (λ checked. IsChecked seat.old.view seat.new.view checked) }
        ensures goes { result ≢ Err is_stopped → (seat.new.view.halted ≡ 0) × (seat.new.view.given_up ≡ seat.old.view.given_up) }
        ensures due { result ≡ Err NotDue → (s : Start D) → seat.old.view.first ≡ values_of s → FoundNoneDue D.Disk s seat.new.view }
        ensures refused { IfErr result (λ refusal. (refusal ≡ NotDue) ⊎ ((refusal ≡ is_stopped) × (seat.new.view.halted ≡ 1))) }
    {
        let position = self.begin_checkpoint(rt, seat)?;
        // Other seats may take the same checkpoint on.
        for _ in rt.forever() {
            if let Some(checked) = self.go_on(rt, seat)? {
                if checked.base >= position {
                    return Ok(checked);
                }
            }
        }
        unreachable!()
    }

    /// Runs a whole checkpoint, to what is durable when it begins, and says where the base then stands, and what readers may be told: the base
    /// is no lower than what the seat had seen durable, and the seat has seen it durable since. The log's cells before it are free again, and
    /// readers who learn what they may be told find no snapshot below the base any more, and each from there on still. The certifier is held
    /// only where the checkpoint begins: items are judged and queued beside each of its other steps.
    ///
    /// Refuses with `NotDue` only where a checkpoint is under way, or the base stands at what is durable: nothing was given up, and the node
    /// goes on. Refuses with `Stopped` where the node was halted, which it does itself where the device fails, where a page of the base is not
    /// of its form, or where there is no memory. Who is not refused with `Stopped` knows of no halt.
    ///
    /// It is not promised that it returns.
    pub fn check_run<R: Wait>(&self, rt: &R, seat: &mut Seat<D>) -> Result<Checked, Refusal>
        requires { seat.old.lock ≡ self.now }
        ensures lock { seat.new.lock ≡ seat.old.lock }
        ensures idle { WentIdle seat.old.view seat.new.view }
        ensures checked { IfOk result (λ checked. IsChecked seat.old.view seat.new.view checked) }
        ensures goes { result ≢ Err is_stopped → (seat.new.view.halted ≡ 0) × (seat.new.view.given_up ≡ seat.old.view.given_up) }
        ensures due { result ≡ Err NotDue → (s : Start D) → seat.old.view.first ≡ values_of s → FoundNoneDue D.Disk s seat.new.view }
        ensures refused { IfErr result (λ refusal. (refusal ≡ NotDue) ⊎ ((refusal ≡ is_stopped) × (seat.new.view.halted ≡ 1))) }
    {
        self.check_seat(rt, &mut seat.seat)
    }
}
