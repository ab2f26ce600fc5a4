//! What makes items durable, and shows them to readers.

ghost use Rattle.std.specs.Prelude.{◌≡◌, ◌≢◌, ◌⊎◌, ℕ, ◌≤◌, [], List, None, Err, IfOk, IfErr, OnOk, OnErr};
ghost use Rattle.rep_types.specs.declared.judged.Judged.{Judged as Entry};
ghost use Rattle.rep_types.specs.declared.refusal.Refusal.TheVariants.{LogFull, OutOfMemory, Stopped as is_stopped};
ghost use Rattle.rep_cert.specs.Holdings.{Holding};
ghost use Rattle.rep_engine.specs.Engines.{Engine as Contents, durable_of};
ghost use Rattle.rep_stations.specs.Taking.{HasTaken};
ghost use Rattle.rep_node.specs.Homes.{Start, DeskAt, values_of};
ghost use Rattle.rep_node.specs.Seats.{IsSeat, WentIdle};
ghost use Rattle.rep_node.specs.Keeping.{AtDesk, AtWork, AreAtWork, FoundFull, HasStepped, HasWorked, IsFull, IsKept, common_of_desk};

use crate::home::{Desk, Home, Queue};
use crate::node::{LockSeat, Node};
use crate::parts::queue_of;
use crate::publishing::{publish_upto, wait_for};
use crate::seat::Seat;
use rep_disk::Disk;
use rep_engine::Engine;
use rep_log::Step;
use rep_ordered::announced;
use rep_record::fronts_are_determined;
use rep_snap::Told;
use rep_stations::{histories_go_on, take_next, taken_items_stay};
use rep_types::Refusal;
use std::sync::Wait;
use std::thread;

/// A keeper looks for more items so many times at most before it writes a block.
const LOOKS: u32 = 512;

/// What is durable, and what readers may be told: up to there.
#[derive(Drop)]
pub struct Kept {
    /// The seqno of the last durable item.
    pub durable: u64,
    /// The list that is published so far: its readers find no shorter one once they learn it.
    pub told: Told,
}

/// What a keeper's round came to.
#[derive(Drop)]
pub(crate) struct Round {
    pub kept: Kept,
    /// Whether it looked at the queue, and all that the engine has accepted is durable: then there is nothing to do before more is queued.
    pub rests: bool,
}

/// Has the engine accept what comes next of the items that wait, and these wait to be published. It says whether none is left that waits.
///
/// Refuses with `OutOfMemory` where the engine does: it is then as it was, and so is the queue.
fn accept<D: Disk>(desk: &mut Desk<D>, queue: &mut Queue) -> Result<bool, Refusal>
    requires work { (s : Start D) × (number : ℕ) × (items : List Entry) × AreAtWork D.Disk s number items desk.old queue.old }
    ensures accepted { (s : Start D) → (number : ℕ) → (items : List Entry) → AreAtWork D.Disk s number items desk.old queue.old → OnOk result (AreAtWork D.Disk s number items desk.new queue.new) }
    ensures durable { OnOk result (durable_of desk.new.engine.log ≡ durable_of desk.old.engine.log) }
    ensures rises { queue.old.accepted ≤ queue.new.accepted }
    ensures unchanged { OnErr result ((desk.new.engine ≡ desk.old.engine) × (desk.new.publisher ≡ desk.old.publisher) × (queue.new ≡ queue.old)) }
    ensures refused { IfErr result (λ refusal. (refusal ≡ is_stopped) ⊎ (refusal ≡ OutOfMemory)) }
{
    histories_go_on();
    taken_items_stay::<D>();
    fronts_are_determined();
    let engine = desk.engine.get_mut();
    // Tells the proof what holds of the engine.
    let _durable = engine.durable();
    let count = engine.next_items(&queue.backlog);
    wait_for(&mut desk.waiting, &queue.backlog, count);
    take_next(engine, &mut queue.backlog)?;
    queue.accepted = engine.delivered();
    Ok(queue.backlog.is_empty())
}

/// The step that the log waits for: its next write, where there is something to write, or a sync.
///
/// Refuses with `LogFull` only where the log's next cell is still needed: the engine is then as it was; and with `DiskFault` where the
/// device failed.
fn write_or_sync<D: Disk>(engine: &mut Engine<D>) -> Result<(), Refusal>
    ensures taken { (first : Contents D) → (c : Holding) → (items : List Entry) → HasTaken D.Disk first c items engine.old → HasTaken D.Disk first c items engine.new }
    ensures rises { durable_of engine.old.log ≤ durable_of engine.new.log }
    ensures base { engine.old.checkpoint.base.position ≤ engine.new.checkpoint.base.position }
    ensures works { engine.old.halted ≡ None → OnOk result (engine.new.halted ≡ None) }
    ensures full { IfErr result (λ refusal. refusal ≡ LogFull → (engine.new ≡ engine.old) × IsFull D.Disk engine.old) }
{
    taken_items_stay::<D>();
    // Tells the proof what holds of the engine.
    let _durable = engine.durable();
    let done = match engine.log_step() {
        Step::Sync => engine.sync().map(|_replies| -> () {}),
        Step::Recycle | Step::Seal | Step::Gate | Step::Full => engine.log(),
    };
    match done {
        Err(Refusal::NotDue) => Ok(()),
        done => done,
    }
}

/// Publishes what is durable behind a step of the engine.
///
/// Refuses with `OutOfMemory` where a growth was refused, which leaves an engine to be given up.
pub(crate) fn publish_durable<D: Disk, R: Wait>(
    rt: &R,
    desk: Desk<D>,
) -> (Desk<D>, Result<(), Refusal>)
    requires stepped { (s : Start D) × (items : List Entry) × HasStepped D.Disk s items desk }
    ensures works { (s : Start D) → (items : List Entry) → HasStepped D.Disk s items desk → OnOk result.1 (AtWork D.Disk s items result.0) }
    ensures given { (s : Start D) → (items : List Entry) → HasStepped D.Disk s items desk → DeskAt D.Disk s 1 items result.0 }
    ensures engine { result.0.engine ≡ desk.engine }
    ensures refused { IfErr result.1 (λ refusal. refusal ≡ OutOfMemory) }
{
    let Desk {
        engine,
        publisher,
        mut waiting,
    } = desk;
    let durable = engine.get().durable();
    let (publisher, done) = publish_upto(rt, publisher, &mut waiting, durable);
    let desk = Desk {
        engine,
        publisher,
        waiting,
    };
    (desk, done)
}

/// The step that the log waits for, after which what is durable is published.
///
/// Refuses with `LogFull` where the log's next cell is still needed: nothing has changed then. Any other refusal, of the device or of a
/// growth, leaves an engine to be given up.
fn advance<D: Disk, R: Wait>(rt: &R, desk: Desk<D>) -> (Desk<D>, Result<(), Refusal>)
    requires work { (s : Start D) × (items : List Entry) × AtWork D.Disk s items desk }
    ensures works { (s : Start D) → (items : List Entry) → AtWork D.Disk s items desk → OnOk result.1 (AtWork D.Disk s items result.0) }
    ensures given { (s : Start D) → (items : List Entry) → AtWork D.Disk s items desk → DeskAt D.Disk s 1 items result.0 }
    ensures rises { durable_of desk.engine.log ≤ durable_of result.0.engine.log }
    ensures common { common_of_desk result.0 ≡ common_of_desk desk }
    ensures full { IfErr result.1 (λ refusal. refusal ≡ LogFull → (result.0 ≡ desk) × IsFull D.Disk desk.engine) }
{
    let mut desk = desk;
    if let Err(refusal) = write_or_sync(desk.engine.get_mut()) {
        return (desk, Err(refusal));
    }
    publish_durable(rt, desk)
}

/// Whether the engine gathers items for its next block.
fn gathers<D: Disk>(engine: &Engine<D>) -> bool {
    match engine.log_step() {
        Step::Recycle | Step::Seal | Step::Full => true,
        Step::Gate | Step::Sync => false,
    }
}

/// Whether more may come for the engine's next block, behind a look at the queue, before which it had accepted so many items: the look brought
/// some, or the block has some and fewer than are expected.
fn may_come<D: Disk>(engine: &Engine<D>, before: u64, expected: u64) -> bool {
    let accepted = engine.delivered();
    let gathered = accepted.saturating_sub(engine.durable());
    accepted > before || (gathered > 0 && gathered < expected)
}

/// Whether all that the engine has accepted is durable, and the queue was looked at.
fn rests<D: Disk>(has_looked: bool, engine: &Engine<D>) -> bool {
    has_looked && engine.delivered() == engine.durable()
}

impl<D: Disk> Node<D> {
    /// Has the engine, whose station the seat is in, accept what comes next of the items that wait. It says whether none is left that waits.
    ///
    /// Refuses with `Stopped` where the node was halted, and with `OutOfMemory` where there is no memory: the engine is then as it was, but is to be given up.
    fn accept_next<R: Wait>(
        &self,
        rt: &R,
        seat: &mut LockSeat<D>,
        desk: Desk<D>,
    ) -> (Desk<D>, Result<bool, Refusal>)
        requires lock { seat.old.lock ≡ self.now }
        requires at { (v : _) × IsSeat D.Disk v × AtDesk D.Disk 0 v seat.old.view desk }
        ensures lock { seat.new.lock ≡ seat.old.lock }
        ensures at { (v : _) → IsSeat D.Disk v → AtDesk D.Disk 0 v seat.old.view desk → OnOk result.1 (AtDesk D.Disk 0 v seat.new.view result.0) }
        ensures given { (v : _) → IsSeat D.Disk v → AtDesk D.Disk 0 v seat.old.view desk → AtDesk D.Disk 1 v seat.new.view result.0 }
        ensures runs { OnOk result.1 (seat.new.view.halted ≡ seat.old.view.halted) }
        ensures refused { IfErr result.1 (λ refusal. refusal ≢ LogFull) }
    {
        let mut desk = desk;
        let home = match self.lock.side_enter(rt, seat, 2) {
            Ok(home) => home,
            Err(refusal) => return (desk, Err(refusal)),
        };
        let mut queue = queue_of(home);
        let done = accept(&mut desk, &mut queue);
        self.lock.side_leave(seat, 2, Home::Queue(queue));
        (desk, done)
    }

    /// The same again and again, as long as more has come, and as long as fewer came than were under way when items became durable before
    /// this: those who hand items in run in between, so that a block has the items of all who are about to hand one in. It looks at most
    /// `LOOKS` times.
    fn gather<R: Wait>(
        &self,
        rt: &R,
        seat: &mut LockSeat<D>,
        desk: Desk<D>,
    ) -> (Desk<D>, Result<(), Refusal>)
        requires lock { seat.old.lock ≡ self.now }
        requires at { (v : _) × IsSeat D.Disk v × AtDesk D.Disk 0 v seat.old.view desk }
        ensures lock { seat.new.lock ≡ seat.old.lock }
        ensures at { (v : _) → IsSeat D.Disk v → AtDesk D.Disk 0 v seat.old.view desk → OnOk result.1 (AtDesk D.Disk 0 v seat.new.view result.0) }
        ensures given { (v : _) → IsSeat D.Disk v → AtDesk D.Disk 0 v seat.old.view desk → AtDesk D.Disk 1 v seat.new.view result.0 }
        ensures runs { OnOk result.1 (seat.new.view.halted ≡ seat.old.view.halted) }
        ensures refused { IfErr result.1 (λ refusal. refusal ≢ LogFull) }
    {
        let expected = self.changes.expected();
        let mut desk = desk;
        for _ in 0..LOOKS {
            let before = desk.engine.get().delivered();
            let (longer, accepted) = self.accept_next(rt, seat, desk);
            let none_left = match accepted {
                Ok(none_left) => none_left,
                Err(refusal) => return (longer, Err(refusal)),
            };
            desk = longer;
            if !none_left || !may_come(desk.engine.get(), before, expected) {
                return (desk, Ok(()));
            }
            thread::yield_now();
        }
        (desk, Ok(()))
    }

    /// A round at the engine, whose station the seat is in: it accepts what comes next, where it gathers, and the log makes its next step,
    /// a write or a sync, after which what is durable is published.
    ///
    /// Refuses with `LogFull` where a checkpoint has to free the log's next cell: the engine is as it was then, but for what it accepted. Any
    /// other refusal leaves an engine to be given up.
    fn work_on<R: Wait>(
        &self,
        rt: &R,
        seat: &mut LockSeat<D>,
        desk: Desk<D>,
    ) -> (Desk<D>, Result<(), Refusal>)
        requires lock { seat.old.lock ≡ self.now }
        requires at { (v : _) × IsSeat D.Disk v × AtDesk D.Disk 0 v seat.old.view desk }
        ensures lock { seat.new.lock ≡ seat.old.lock }
        ensures at { (v : _) → IsSeat D.Disk v → AtDesk D.Disk 0 v seat.old.view desk → HasWorked D.Disk v seat.new.view result.0 result.1 }
        ensures runs { OnOk result.1 (seat.new.view.halted ≡ seat.old.view.halted) }
        ensures stays { IfErr result.1 (λ refusal. refusal ≡ LogFull → seat.new.view.halted ≡ seat.old.view.halted) }
    {
        if !gathers(desk.engine.get()) {
            return advance(rt, desk);
        }
        let (desk, accepted) = self.gather(rt, seat, desk);
        match accepted {
            Ok(()) => advance(rt, desk),
            Err(refusal) => (desk, Err(refusal)),
        }
    }

    /// A keeper's round. It says what is durable then, and what readers may be told.
    ///
    /// Refuses with `LogFull` where a checkpoint has to free the log's next cell: nothing was given up. Refuses with `Stopped` where the node
    /// was halted, which it does itself where the device fails, or where there is no memory.
    fn keep_once<R: Wait>(&self, rt: &R, seat: &mut LockSeat<D>) -> Result<Round, Refusal>
        requires lock { seat.old.lock ≡ self.now }
        requires seat { IsSeat D.Disk seat.old.view }
        requires free { seat.old.view.held ≡ [] }
        ensures lock { seat.new.lock ≡ seat.old.lock }
        ensures idle { WentIdle seat.old.view seat.new.view }
        ensures kept { IfOk result (λ round. IsKept seat.old.view seat.new.view round.kept) }
        ensures goes { result ≢ Err is_stopped → (seat.new.view.halted ≡ 0) × (seat.new.view.given_up ≡ seat.old.view.given_up) }
        ensures full { result ≡ Err LogFull → (s : Start D) → seat.old.view.first ≡ values_of s → FoundFull D.Disk s seat.new.view }
        ensures refused { IfErr result (λ refusal. (refusal ≡ LogFull) ⊎ ((refusal ≡ is_stopped) × (seat.new.view.halted ≡ 1))) }
    {
        let desk = self.enter_desk(rt, seat)?;
        let has_looked = gathers(desk.engine.get());
        let (desk, done) = self.work_on(rt, seat, desk);
        let durable = desk.engine.get().durable();
        let rests = rests(has_looked, desk.engine.get());
        let told = desk.publisher.tell();
        match done {
            Ok(()) => {
                self.leave_desk(seat, desk);
                self.tell_durable(seat, durable)?;
                Ok(Round {
                    kept: Kept { durable, told },
                    rests,
                })
            }
            Err(Refusal::LogFull) => {
                self.leave_desk(seat, desk);
                Err(Refusal::LogFull)
            }
            Err(_) => {
                self.give_desk_up(seat, desk);
                Err(Refusal::Stopped)
            }
        }
    }

    /// Makes items durable until the seqno `upto` is, as `keep` does, by a seat of the lock.
    fn keep_upto<R: Wait>(&self, rt: &R, seat: &mut LockSeat<D>, upto: u64) -> Result<Kept, Refusal>
        requires lock { seat.old.lock ≡ self.now }
        requires seat { IsSeat D.Disk seat.old.view }
        requires free { seat.old.view.held ≡ [] }
        ensures lock { seat.new.lock ≡ seat.old.lock }
        ensures idle { WentIdle seat.old.view seat.new.view }
        ensures kept { IfOk result (λ kept. (upto ≤ kept.durable) × IsKept seat.old.view seat.new.view kept) }
        ensures goes { result ≢ Err is_stopped → (seat.new.view.halted ≡ 0) × (seat.new.view.given_up ≡ seat.old.view.given_up) }
        ensures full { result ≡ Err LogFull → (s : Start D) → seat.old.view.first ≡ values_of s → FoundFull D.Disk s seat.new.view }
        ensures refused { IfErr result (λ refusal. (refusal ≡ LogFull) ⊎ ((refusal ≡ is_stopped) × (seat.new.view.halted ≡ 1))) }
    {
        let mut rested = false;
        for _ in rt.forever() {
            let sleep = announced(&self.changes.keepers, rested);
            let Round { kept, rests } = self.keep_once(rt, seat)?;
            if kept.durable >= upto {
                return Ok(kept);
            }
            rested = rests;
            match sleep {
                Some(sleep) if rests => sleep.wait(rt),
                _ => (),
            }
        }
        unreachable!()
    }

    /// Makes items durable until the seqno `upto` is, as `keep` does, and runs a checkpoint where the log is full.
    ///
    /// Refuses with `Stopped` where the node was halted, which it does itself where the device fails, where a page of the base is not of its
    /// form, or where there is no memory.
    pub(crate) fn keep_on<R: Wait>(
        &self,
        rt: &R,
        seat: &mut LockSeat<D>,
        upto: u64,
    ) -> Result<(), Refusal>
        requires lock { seat.old.lock ≡ self.now }
        requires seat { IsSeat D.Disk seat.old.view }
        requires free { seat.old.view.held ≡ [] }
        ensures lock { seat.new.lock ≡ seat.old.lock }
        ensures idle { WentIdle seat.old.view seat.new.view }
        ensures durable { OnOk result ((upto ≤ seat.new.view.durable) × (seat.new.view.halted ≡ 0)) }
        ensures stopped { IfErr result (λ refusal. (refusal ≡ is_stopped) × (seat.new.view.halted ≡ 1)) }
    {
        for _ in rt.forever() {
            match self.keep_upto(rt, seat, upto) {
                Ok(_kept) => return Ok(()),
                Err(Refusal::LogFull) => (),
                Err(refusal) => return Err(refusal),
            }
            match self.check_seat(rt, seat) {
                Ok(_) | Err(Refusal::NotDue) => (),
                Err(refusal) => return Err(refusal),
            }
        }
        unreachable!()
    }

    /// Makes items durable until the seqno `upto` is, and shows them to readers: it says what is durable, and what readers may be told.
    ///
    /// Each durable item is published, with what it wrote, which is nothing unless it committed.
    ///
    /// Refuses with `LogFull` only where the log's next cell is still needed, so that a checkpoint has to free it: nothing was given up, the
    /// node goes on, and `check_run` frees the cell. Refuses with `Stopped` where the node was halted, which it does itself where the device
    /// fails, or where there is no memory. Who is not refused with `Stopped` knows of no halt.
    ///
    /// It is not promised that it returns: somebody has to hand items in up to there.
    pub fn keep<R: Wait>(&self, rt: &R, seat: &mut Seat<D>, upto: u64) -> Result<Kept, Refusal>
        requires { seat.old.lock ≡ self.now }
        ensures lock { seat.new.lock ≡ seat.old.lock }
        ensures idle { WentIdle seat.old.view seat.new.view }
        ensures kept { IfOk result (λ kept. (upto ≤ kept.durable) × IsKept seat.old.view seat.new.view kept) }
        ensures goes { result ≢ Err is_stopped → (seat.new.view.halted ≡ 0) × (seat.new.view.given_up ≡ seat.old.view.given_up) }
        ensures full { result ≡ Err LogFull → (s : Start D) → seat.old.view.first ≡ values_of s → FoundFull D.Disk s seat.new.view }
        ensures refused { IfErr result (λ refusal. (refusal ≡ LogFull) ⊎ ((refusal ≡ is_stopped) × (seat.new.view.halted ≡ 1))) }
    {
        // Tells the proof what holds of every seat.
        seat.is_one();
        self.keep_upto(rt, &mut seat.seat, upto)
    }
}
