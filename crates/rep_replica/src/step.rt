//! The steps of a replica.

ghost use Rattle.std.specs.Prelude.{◌≡◌, ◌++◌, ◌||◌, [], None, Ok, Err, false, true, length, is_some, IfErr, OnOk};
ghost use Rattle.rep_types.specs.declared.refusal.Refusal.TheVariants.{OutOfMemory};
ghost use Rattle.rep_record.specs.Fronts.{fitting};
ghost use Rattle.rep_disk.specs.Devices.{Calls, SameHistory};
ghost use Rattle.rep_log.specs.Standing.{due_of};
ghost use Rattle.rep_log.specs.Moves.{fault_of, after_sync, started};
ghost use Rattle.rep_steps.specs.declared.event.Event.TheVariants.{Log, Sync, Check, Flush, Read};
ghost use Rattle.rep_steps.specs.Events.{delivery};
ghost use Rattle.rep_steps.specs.Standings.{delivery_refusal};
ghost use Rattle.rep_steps.specs.declared.answer.Answer.TheVariants.{Refused};
ghost use Rattle.rep_steps.specs.Nodes.{Node};
ghost use Rattle.rep_recover.specs.Accepting.{is_gathering};
ghost use Rattle.rep_recover.specs.Checking.{checked};
ghost use Rattle.rep_recover.specs.Holding.{wrote, synced, row};
ghost use Rattle.rep_recover.specs.Writing.{written_in};
ghost use Rattle.rep_replica.specs.Replicas.{facts_of, OnlyItsEngineAsks};
ghost use Rattle.rep_replica.specs.Refusing.{Gathers};
ghost use Rattle.rep_replica.specs.Spelling.{ReadIsSpelled};
ghost use Rattle.rep_replica.specs.Holding.{Holds, IsStep, IsJudgedBy, gave};
ghost use Rattle.rep_replica.specs.Settling.{outcome_of};

use crate::replica::Replica;
use rep_disk::Disk;
use rep_log::Phase;
use rep_recover::{accepted_items_are_a_front, certifiers_hold_windows};
use rep_steps::{
    Answer, Event, Replies, judging_goes_on, nodes_stay_nodes, parts_step_as_the_whole,
    verdicts_have_a_place,
};
use rep_types::{Item, Judged, Key, MAX_AHEAD, MAX_SEQNO, Refusal, SetWindow, Value, Verdict};

/// What a delivery answers.
fn gave(outcome: Result<Verdict, Refusal>) -> Answer
    ensures { result ≡ gave outcome }
{
    match outcome {
        Ok(verdict) => Answer::Gave(verdict),
        Err(refusal) => Answer::Refused(refusal),
    }
}

/// What the log's step answers.
fn wrote(outcome: Result<(), Refusal>) -> Answer
    ensures { result ≡ wrote outcome }
{
    match outcome {
        Ok(()) => Answer::Wrote,
        Err(refusal) => Answer::Refused(refusal),
    }
}

/// What a sync answers.
fn synced(outcome: Result<Replies, Refusal>) -> Answer
    ensures { result ≡ synced outcome }
{
    match outcome {
        Ok(replies) => Answer::Synced(replies),
        Err(refusal) => Answer::Refused(refusal),
    }
}

/// What the checkpoint's step answers.
fn checked(outcome: Result<Option<u64>, Refusal>) -> Answer
    ensures { result ≡ checked outcome }
{
    match outcome {
        Ok(Some(position)) => Answer::Began(position),
        Ok(None) => Answer::Wrote,
        Err(refusal) => Answer::Refused(refusal),
    }
}

/// What a read answers.
fn row(outcome: Result<Option<Value>, Refusal>) -> Answer
    ensures { result ≡ row outcome }
{
    match outcome {
        Ok(value) => Answer::Row(value),
        Err(refusal) => Answer::Refused(refusal),
    }
}

impl<D: Disk> Replica<D> {
    /// Why the item with this seqno is refused.
    fn delivery_refusal(&self, seqno: u64) -> Option<Refusal>
        requires { self.now.stopped ≡ false }
        ensures { result ≡ delivery_refusal (facts_of D.Disk self.now) seqno }
    {
        if self.engine.uuid().is_nil() {
            return Some(Refusal::Undefined);
        }
        let delivered = self.certifier.delivered();
        if delivered == MAX_SEQNO {
            return Some(Refusal::Exhausted);
        }
        if seqno != delivered + 1 {
            return Some(Refusal::OutOfOrder {
                expected: delivered + 1,
            });
        }
        if delivered - self.engine.durable() >= MAX_AHEAD {
            return Some(Refusal::Backlogged);
        }
        None
    }

    /// Takes the item with this seqno.
    fn admit(&mut self, seqno: u64, item: Item) -> Result<Verdict, Refusal>
        requires running { (self.old.stopped ≡ false) × (self.old.engine.halted ≡ None) }
        ensures step { IsStep D.Disk self.old (delivery seqno item) (gave result) self.new }
        ensures judged { IsJudgedBy self.old.certifier.current (delivery seqno item) (gave result) }
    {
        nodes_stay_nodes();
        judging_goes_on();
        verdicts_have_a_place();
        certifiers_hold_windows();
        // For its clause: what holds of every item.
        item.limits();
        if let Some(refusal) = self.delivery_refusal(seqno) {
            return Err(refusal);
        }
        let Ok((seqno, verdict)) = self.certifier.admit_item(&item) else {
            unreachable!();
        };
        let judged = Judged {
            seqno,
            item,
            verdict,
        };
        if self.backlog.push(judged).is_err() {
            unreachable!();
        }
        Ok(verdict)
    }

    /// Lets the engine accept what it takes of the items that wait.
    fn gather(&mut self) -> Result<(), Refusal>
        requires running { (self.old.stopped ≡ false) × (self.old.engine.halted ≡ None) }
        ensures facts { facts_of D.Disk self.new ≡ facts_of D.Disk self.old }
        ensures holds { (n : Node) → Holds D.Disk n self.old → Holds D.Disk n self.new }
        ensures engine { self.new.engine ≡ record (self.old.engine) { kept = self.new.engine.kept; block = self.new.engine.block } }
        ensures gathered { OnOk result (self.old.engine.log.phase ≡ Phase.Resting → fitting [] self.new.engine.block ≡ fitting [] (self.old.engine.block ++ self.old.backlog)) }
        ensures took { OnOk result (Gathers self.old self.new) }
        ensures running { self.new.stopped ≡ false }
        ensures refused { IfErr result (λ e. (e ≡ OutOfMemory) × (is_gathering self.old.engine.log.phase ≡ true) × (self.new ≡ self.old)) }
    {
        accepted_items_are_a_front();
        judging_goes_on();
        self.engine.accept(&mut self.backlog)?;
        // Tells the proof what holds of the engine.
        let _durable = self.engine.durable();
        Ok(())
    }

    /// Writes what the log has to write next, of what was delivered.
    pub(crate) fn log(&mut self) -> Answer
        requires running { (self.old.stopped ≡ false) × (self.old.engine.halted ≡ None) }
        ensures step { IsStep D.Disk self.old Log result self.new }
        // The log has made the step that was due.
        ensures log { outcome_of result ≡ Ok tt → self.new.engine.log ≡ written_in (due_of self.old.engine.log) (length self.new.engine.block) self.old.engine.log }
    {
        parts_step_as_the_whole();
        nodes_stay_nodes();
        judging_goes_on();
        accepted_items_are_a_front();
        // Tells the proof what holds of the engine.
        let _durable = self.engine.durable();
        if let Some(refusal) = self.engine.due(&self.backlog) {
            return Answer::Refused(refusal);
        }
        if let Err(refusal) = self.gather() {
            return Answer::Refused(refusal);
        }
        wrote(self.engine.log())
    }

    /// Makes stable what was written.
    pub(crate) fn sync(&mut self) -> Answer
        requires running { (self.old.stopped ≡ false) × (self.old.engine.halted ≡ None) }
        ensures step { IsStep D.Disk self.old Sync result self.new }
        // The log is as a sync leaves it.
        ensures log { outcome_of result ≡ Ok tt → self.new.engine.log ≡ started self.new.engine.checkpoint.base.start (after_sync self.old.engine.log) }
    {
        parts_step_as_the_whole();
        nodes_stay_nodes();
        judging_goes_on();
        // Tells the proof what holds of the engine.
        let _durable = self.engine.durable();
        synced(self.engine.sync())
    }

    /// Takes the checkpoint's next step.
    pub(crate) fn check(&mut self) -> Answer
        requires running { (self.old.stopped ≡ false) × (self.old.engine.halted ≡ None) }
        ensures { IsStep D.Disk self.old Check result self.new }
    {
        parts_step_as_the_whole();
        nodes_stay_nodes();
        judging_goes_on();
        // Tells the proof what holds of the engine.
        let _durable = self.engine.durable();
        checked(self.engine.check(&self.certifier))
    }

    /// Flushes a page that the checkpoint has left.
    pub(crate) fn flush(&mut self, page: u64) -> Answer
        requires running { (self.old.stopped ≡ false) × (self.old.engine.halted ≡ None) }
        ensures { IsStep D.Disk self.old (Flush page) result self.new }
    {
        parts_step_as_the_whole();
        nodes_stay_nodes();
        judging_goes_on();
        wrote(self.engine.flush(page))
    }

    /// What stands under the key in the state after so many items, if anything does. It takes no memory.
    ///
    /// Refuses with `Stopped`; with `BadKey` outside the schema; with `NotYet` above what is durable; with
    /// `TooOld` below the base; with `DiskFault` where the device failed, and then the replica is stopped;
    /// and with `Corrupt` of the pages exactly where no item behind the base wrote the row up to there and the page
    /// is not of its form, of its number, and of a position not above the base's.
    pub fn read(&mut self, key: Key, s: u64) -> Result<Option<Value>, Refusal>
        ensures step { IsStep D.Disk self.old (Read key s) (row result) self.new }
        // The device is asked at most, and nothing else changes but whether it is stopped.
        ensures call { Calls D.Disk self.old.engine.disk self.new.engine.disk (fault_of result) }
        ensures rest { OnlyItsEngineAsks self.old self.new }
        ensures same { SameHistory D.Disk self.old.engine.disk self.new.engine.disk }
        // Whatever stands on an honest device: its bytes decide.
        ensures spelled { ReadIsSpelled D.Disk key s self.old result }
        // Where it is stopped, nothing changes.
        ensures stopped { (self.old.stopped || is_some self.old.engine.halted) ≡ true → (result ≡ Err Refusal.Stopped) × (self.new ≡ self.old) }
    {
        parts_step_as_the_whole();
        nodes_stay_nodes();
        judging_goes_on();
        if self.is_stopped() {
            return Err(Refusal::Stopped);
        }
        self.engine.read(key, s)
    }

    /// Delivers a copy of the item, as the step of its delivery does: so the item is not moved.
    pub fn deliver(&mut self, seqno: u64, item: &Item) -> Answer
        ensures step { IsStep D.Disk self.old (delivery seqno item.now) result self.new }
        ensures judged { IsJudgedBy self.old.certifier.current (delivery seqno item.now) result }
        // Where it is stopped, nothing changes.
        ensures stopped { (self.old.stopped || is_some self.old.engine.halted) ≡ true → (result ≡ Refused Refusal.Stopped) × (self.new ≡ self.old) }
    {
        if self.is_stopped() {
            return Answer::Refused(Refusal::Stopped);
        }
        gave(self.admit(seqno, item.copied()))
    }

    /// Does one step, and answers what came of it.
    ///
    /// - `Deliver` gives the verdict on the write set, and `SetWindow`, a change of the window's size, commits. Either is
    ///   refused, in this order, with `Undefined` where the node belongs to no cluster, `Exhausted` where no seqno is left,
    ///   `OutOfOrder` where the seqno is not the next one, and `Backlogged` where 256 items are delivered and not durable.
    /// - `Log` writes the next thing: the closed gate of a stale cell, a block of the longest front of the items
    ///   that are not durable which fits (64 records, 7,662 bytes), and, once that is stable, the open gate behind
    ///   it. It is refused with `NotDue` where there is no such item or what was written awaits its sync, with
    ///   `LogFull` where the next cell is still needed, with `OutOfMemory`, and with `DiskFault`.
    /// - `Sync` makes stable what was written. After an open gate of the log it makes the block durable, and
    ///   replies to the items' origins; after that of a superblock its base is the replica's. It is refused with
    ///   `DiskFault`.
    /// - `Check` takes the checkpoint's next step: it begins one to what is durable and says its position; writes
    ///   the window once no page is left; then, once these are stable, the superblock, its open gate, and the closed
    ///   gate of the superblock before it, each once the one before is stable. It is refused with `NotDue` where the base
    ///   stands at what is durable, pages are left, or a write awaits its sync, with `OutOfMemory` where one would
    ///   begin, and with `DiskFault`.
    /// - `Flush` writes a page that the checkpoint has left, as it is at the checkpoint's position. It is refused
    ///   with `NotDue` where that page is not left, with `DiskFault`, and with `Corrupt` of the pages exactly where
    ///   the base's page is not of its form, of its number, and of a position not above the base's.
    /// - `Read` gives the row of the key after the first `s` items. It is refused, in this order, with
    ///   `BadKey` outside the schema, `NotYet` above what is durable, `TooOld` below the base, `DiskFault`, and
    ///   `Corrupt` as `read` is.
    ///
    /// A refused step changes nothing, want of memory included, but for two: after `Corrupt` the device was asked for
    /// the page; and after `DiskFault` it is stopped, so that every event is refused with `Stopped`. What was delivered
    /// still is then, and as much is durable; of what waits, `Log` had gathered what its block takes.
    pub fn step(&mut self, event: Event) -> Answer
        ensures step { IsStep D.Disk self.old event result self.new }
        ensures judged { IsJudgedBy self.old.certifier.current event result }
        // Where it is stopped, nothing changes.
        ensures stopped { (self.old.stopped || is_some self.old.engine.halted) ≡ true → (result ≡ Refused Refusal.Stopped) × (self.new ≡ self.old) }
    {
        if self.is_stopped() {
            return Answer::Refused(Refusal::Stopped);
        }
        match event {
            Event::Deliver(seqno, write_set) => {
                let item = Item::WriteSet(write_set);
                gave(self.admit(seqno, item))
            }
            Event::SetWindow(seqno, size, source, trx) => {
                let change = SetWindow { size, source, trx };
                gave(self.admit(seqno, Item::SetWindow(change)))
            }
            Event::Log => self.log(),
            Event::Sync => self.sync(),
            Event::Check => self.check(),
            Event::Flush(page) => self.flush(page),
            Event::Read(key, s) => row(self.read(key, s)),
        }
    }
}
