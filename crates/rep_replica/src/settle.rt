//! A replica that works until nothing is left to do.

ghost use Rattle.std.specs.Prelude.{◌≡◌, ◌<◌, ◌||◌, ◌⊎◌, true, false, not, is_some, length, slice_get, Err, IfErr, IfSome, OnOk};
ghost use Rattle.rep_types.specs.Items.{IsWithin};
ghost use Rattle.rep_log.specs.declared.phase.Phase.TheVariants.{Resting};
ghost use Rattle.rep_log.specs.declared.phase.Step.TheVariants.{Full};
ghost use Rattle.rep_log.specs.Standing.{due_of};
ghost use Rattle.rep_steps.specs.Standings.{Off};
ghost use Rattle.rep_steps.specs.Moves.{is_off};
ghost use Rattle.rep_replica.specs.Replicas.{facts_of};
ghost use Rattle.rep_replica.specs.Settling.{is_quiet, IsRunning, outcome_of, Works, EndsEarly, step_of, Keeps, Rests, work_of};
ghost use Rattle.rep_replica.specs.Committing.{LeavesRoom};

use crate::laws::runs_are_joined;
use crate::replica::Replica;
use rep_disk::Disk;
use rep_log::Step;
use rep_record::fronts_are_determined;
use rep_recover::Step as CheckpointStep;
use rep_steps::{Answer, Event};
use rep_types::Refusal;

/// What came of a step.
pub(crate) fn outcome(answer: Answer) -> Result<(), Refusal>
    ensures { result ≡ outcome_of answer }
{
    match answer {
        Answer::Refused(refusal) => Err(refusal),
        Answer::Gave(_) | Answer::Wrote | Answer::Began(_) | Answer::Synced(_) | Answer::Row(_) =>
            Ok(()),
    }
}

impl<D: Disk> Replica<D> {
    /// Whether all that was delivered is durable, and no checkpoint is under way.
    pub fn is_quiet(&self) -> bool
        ensures { result ≡ is_quiet (facts_of D.Disk self.now) }
    {
        self.backlog.is_empty()
            && self.engine.delivered() == self.engine.durable()
            && self.checkpoint_event().is_none()
    }

    /// Whether a checkpoint is under way.
    pub fn has_checkpoint(&self) -> bool
        ensures { result ≡ not (is_off (facts_of D.Disk self.now).stage) }
    {
        self.checkpoint_event().is_some()
    }

    /// The step that the checkpoint under way waits for.
    pub(crate) fn checkpoint_event(&self) -> Option<Event>
        ensures { result ≡ step_of (facts_of D.Disk self.now).stage }
    {
        match self.engine.checkpoint_step() {
            CheckpointStep::Begin => None,
            CheckpointStep::Flush(page) => Some(Event::Flush(u64::from(page))),
            CheckpointStep::Next => Some(Event::Check),
            CheckpointStep::Sync => Some(Event::Sync),
        }
    }

    /// Ends the checkpoint that is under way, where one is.
    pub(crate) fn finish_checkpoint(&mut self) -> Result<(), Refusal>
        requires running { IsRunning self.old }
        ensures works { Works D.Disk self.old self.new result }
        ensures running { OnOk result (IsRunning self.new) }
        ensures off { OnOk result ((facts_of D.Disk self.new).stage ≡ Off) }
        ensures keeps { (facts_of D.Disk self.old).phase ≡ Resting → Keeps (facts_of D.Disk self.old) (facts_of D.Disk self.new) }
        ensures rests { (facts_of D.Disk self.old).phase ≡ Resting → OnOk result (Rests (facts_of D.Disk self.old) (facts_of D.Disk self.new)) }
        ensures early { IfErr result EndsEarly }
    {
        runs_are_joined::<D>();
        while let Some(event) = self.checkpoint_event() {
            let answer = self.step(event);
            let ended = outcome(answer);
            if ended.is_err() {
                return ended;
            }
        }
        Ok(())
    }

    /// A whole checkpoint, so that the log's next cell is no longer live.
    pub(crate) fn make_room(&mut self) -> Result<(), Refusal>
        requires running { IsRunning self.old }
        requires off { (facts_of D.Disk self.old).stage ≡ Off }
        requires some { 0 < length (facts_of D.Disk self.old).ahead }
        requires due { due_of self.old.engine.log ≡ Full }
        ensures works { Works D.Disk self.old self.new result }
        ensures running { OnOk result (IsRunning self.new) }
        ensures off { OnOk result ((facts_of D.Disk self.new).stage ≡ Off) }
        ensures less { OnOk result (work_of D.Disk self.new < work_of D.Disk self.old) }
        ensures keeps { Keeps (facts_of D.Disk self.old) (facts_of D.Disk self.new) }
        ensures free { OnOk result (LeavesRoom (facts_of D.Disk self.old) (facts_of D.Disk self.new)) }
        ensures early { IfErr result EndsEarly }
    {
        runs_are_joined::<D>();
        // Tells the proof what holds of the engine.
        let _durable = self.engine.durable();
        let ended = outcome(self.check());
        if ended.is_err() {
            return ended;
        }
        self.finish_checkpoint()
    }

    /// The first item that waits keeps its limits, as every item does: a law, which does nothing.
    pub(crate) fn look_at_the_first(&self)
        ensures { IfSome (slice_get self.now.backlog 0) (λ judged. IsWithin judged.item) }
    {
        if let Some(judged) = self.backlog.get(0) {
            judged.item.limits();
        }
    }

    /// Brings the log nearer to a block more: its next step, or room for it.
    fn log_on(&mut self) -> Result<(), Refusal>
        requires running { IsRunning self.old }
        requires off { (facts_of D.Disk self.old).stage ≡ Off }
        requires some { 0 < length (facts_of D.Disk self.old).ahead }
        ensures works { Works D.Disk self.old self.new result }
        ensures running { OnOk result (IsRunning self.new) }
        ensures off { OnOk result ((facts_of D.Disk self.new).stage ≡ Off) }
        ensures less { OnOk result (work_of D.Disk self.new < work_of D.Disk self.old) }
        ensures early { IfErr result EndsEarly }
    {
        runs_are_joined::<D>();
        fronts_are_determined();
        self.look_at_the_first();
        // Tells the proof what holds of replica and engine.
        let _durable = self.durable();
        let _log = self.engine.durable();
        match self.engine.log_step() {
            Step::Full => self.make_room(),
            Step::Sync => outcome(self.sync()),
            Step::Recycle | Step::Seal | Step::Gate => outcome(self.log()),
        }
    }

    /// Takes the steps that are due until all that was delivered is durable and no checkpoint is under way: those of the
    /// log, with a checkpoint where it is full. It hands out no reply: what is durable tells which were owed.
    ///
    /// Refuses with `Stopped`; with `OutOfMemory`, and then it stands between two steps, and a later call goes
    /// on from there; with `DiskFault` where the device failed, and then the replica is stopped; and with
    /// `Corrupt` of the pages exactly where the base's page that the checkpoint flushes next is not of its form, of its
    /// number, and of a position not above the base's.
    pub fn settle(&mut self) -> Result<(), Refusal>
        ensures quiet { OnOk result (is_quiet (facts_of D.Disk self.new) ≡ true) }
        // It did some steps of its own, each the one that was due, and each of which was done but the last one, where it ended
        // early. So it begins no checkpoint but where the log's next cell is live, and syncs nothing but what awaits it; what a
        // refusal leaves is what the last step says; and a page is corrupt only where the bytes have none.
        ensures works { (self.old.stopped || is_some self.old.engine.halted) ≡ false → Works D.Disk self.old self.new result }
        ensures refused { IfErr result (λ e. (e ≡ Refusal.Stopped) ⊎ EndsEarly e) }
        // Where it is stopped, nothing changes.
        ensures stopped { (self.old.stopped || is_some self.old.engine.halted) ≡ true → (result ≡ Err Refusal.Stopped) × (self.new ≡ self.old) }
    {
        runs_are_joined::<D>();
        if self.is_stopped() {
            return Err(Refusal::Stopped);
        }
        let ended = self.finish_checkpoint();
        if ended.is_err() {
            return ended;
        }
        while !self.is_quiet() {
            let ended = self.log_on();
            if ended.is_err() {
                return ended;
            }
        }
        Ok(())
    }
}
