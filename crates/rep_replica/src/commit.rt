//! Blocks that are made durable one by one, with a checkpoint beside.

ghost use Rattle.std.specs.Prelude.{◌≡◌, ◌<◌, ◌||◌, ◌⊎◌, ◌==◌, true, false, is_some, [], length, Some, Ok, Err, IfErr, OnOk, MatchOption};
ghost use Rattle.rep_log.specs.declared.phase.Step.TheVariants.{Sync as to_sync, Full};
ghost use Rattle.rep_log.specs.Standing.{due_of};
ghost use Rattle.rep_recover.specs.Writing.{IsWrite};
ghost use Rattle.rep_steps.specs.declared.event.Event.TheVariants.{Flush};
ghost use Rattle.rep_steps.specs.Standings.{Off};
ghost use Rattle.rep_replica.specs.Replicas.{facts_of};
ghost use Rattle.rep_replica.specs.Settling.{IsRunning, EndsEarly, step_of, work_of};
ghost use Rattle.rep_replica.specs.Committing.{is_full, pages_left, Rides, Turns, Frees, Commits};

use crate::laws::runs_are_joined;
use crate::replica::Replica;
use crate::settle::outcome;
use rep_disk::Disk;
use rep_log::Step;
use rep_record::fronts_are_determined;
use rep_steps::{Answer, Event, Replies};
use rep_types::Refusal;

impl<D: Disk> Replica<D> {
    /// Whether the log's next cell is live, where nothing of the next block was written.
    fn is_full(&self) -> bool
        requires running { IsRunning self.now }
        ensures full { result ≡ is_full (facts_of D.Disk self.now) }
        ensures due { result ≡ true → due_of self.now.engine.log ≡ Full }
    {
        // Tells the proof what holds of the engine.
        let _durable = self.engine.durable();
        match self.engine.log_step() {
            Step::Full => true,
            Step::Sync | Step::Recycle | Step::Seal | Step::Gate => false,
        }
    }

    /// Whether the log awaits a sync.
    fn awaits_sync(&self) -> bool
        requires running { IsRunning self.now }
        ensures sync { result ≡ true → due_of self.now.engine.log ≡ to_sync }
        ensures write { result ≡ false → is_full (facts_of D.Disk self.now) ≡ false → IsWrite (due_of self.now.engine.log) }
    {
        // Tells the proof what holds of the engine.
        let _durable = self.engine.durable();
        match self.engine.log_step() {
            Step::Sync => true,
            Step::Full | Step::Recycle | Step::Seal | Step::Gate => false,
        }
    }

    /// Whether all that was delivered is durable.
    fn has_none(&self) -> bool
        ensures { result ≡ (length (facts_of D.Disk self.now).ahead == 0) }
    {
        self.backlog.is_empty() && self.engine.delivered() == self.engine.durable()
    }

    /// The page that the checkpoint under way flushes next, where one more may be.
    fn next_page(&self, pages: u64) -> Option<u64>
        ensures { MatchOption result ((pages ≡ 0) ⊎ (pages_left (facts_of D.Disk self.now).stage ≡ [])) (λ page. (0 < pages) × (step_of (facts_of D.Disk self.now).stage ≡ Some (Flush page))) }
    {
        if pages == 0 {
            return None;
        }
        match self.checkpoint_event() {
            Some(Event::Flush(page)) => Some(page),
            _ => None,
        }
    }

    /// Flushes pages of the checkpoint under way, at most so many, and gives how many more may be.
    fn flush_some(&mut self, pages: u64) -> Result<u64, Refusal>
        requires running { IsRunning self.old }
        ensures rides { Rides D.Disk pages self.old self.new result }
        ensures running { OnOk result (IsRunning self.new) }
        ensures early { IfErr result EndsEarly }
    {
        runs_are_joined::<D>();
        let mut left = pages;
        while let Some(page) = self.next_page(left) {
            let answer = self.flush(page);
            if let Err(refusal) = outcome(answer) {
                return Err(refusal);
            }
            left -= 1;
        }
        Ok(left)
    }

    /// Moves the checkpoint under way on, as far as it goes without a sync: at most so many pages, and what is written behind the
    /// last of them. Gives how many more pages may be flushed.
    fn ride(&mut self, pages: u64) -> Result<u64, Refusal>
        requires running { IsRunning self.old }
        ensures rides { Rides D.Disk pages self.old self.new result }
        ensures running { OnOk result (IsRunning self.new) }
        ensures early { IfErr result EndsEarly }
    {
        runs_are_joined::<D>();
        let left = match self.flush_some(pages) {
            Ok(left) => left,
            Err(refusal) => return Err(refusal),
        };
        let Some(Event::Check) = self.checkpoint_event() else {
            return Ok(left);
        };
        let answer = self.check();
        match outcome(answer) {
            Ok(()) => Ok(left),
            Err(refusal) => Err(refusal),
        }
    }

    /// A sync that the log awaits, behind what the checkpoint under way can write before it. Gives how many more pages may be flushed.
    fn sync_block(&mut self, pages: u64) -> Result<(u64, Replies), Refusal>
        requires running { IsRunning self.old }
        requires awaits { due_of self.old.engine.log ≡ to_sync }
        ensures turns { Turns D.Disk pages self.old self.new result }
        ensures running { OnOk result (IsRunning self.new) }
        ensures less { OnOk result (work_of D.Disk self.new < work_of D.Disk self.old) }
        ensures early { IfErr result EndsEarly }
    {
        runs_are_joined::<D>();
        // Tells the proof what holds of the engine.
        let _before = self.engine.durable();
        let left = match self.ride(pages) {
            Ok(left) => left,
            Err(refusal) => return Err(refusal),
        };
        let _durable = self.engine.durable();
        match self.sync() {
            Answer::Synced(replies) => Ok((left, replies)),
            Answer::Refused(refusal) => Err(refusal),
            Answer::Gave(_) | Answer::Wrote | Answer::Began(_) | Answer::Row(_) => unreachable!(),
        }
    }

    /// What the log writes next. It needs no page, and gives no reply.
    fn write_next(&mut self, pages: u64) -> Result<(u64, Replies), Refusal>
        requires running { IsRunning self.old }
        requires some { 0 < length (facts_of D.Disk self.old).ahead }
        requires free { is_full (facts_of D.Disk self.old) ≡ false }
        requires due { IsWrite (due_of self.old.engine.log) }
        ensures turns { Turns D.Disk pages self.old self.new result }
        ensures running { OnOk result (IsRunning self.new) }
        ensures less { OnOk result (work_of D.Disk self.new < work_of D.Disk self.old) }
        ensures early { IfErr result EndsEarly }
    {
        runs_are_joined::<D>();
        fronts_are_determined();
        self.look_at_the_first();
        // Tells the proof what holds of replica and engine.
        let _durable = self.durable();
        let _log = self.engine.durable();
        let answer = self.log();
        match outcome(answer) {
            Ok(()) => Ok((pages, Replies::new())),
            Err(refusal) => Err(refusal),
        }
    }

    /// What the log writes next, or the sync that it awaits. Gives how many more pages may be flushed, and the replies.
    fn turn(&mut self, pages: u64) -> Result<(u64, Replies), Refusal>
        requires running { IsRunning self.old }
        requires some { 0 < length (facts_of D.Disk self.old).ahead }
        requires free { is_full (facts_of D.Disk self.old) ≡ false }
        ensures turns { Turns D.Disk pages self.old self.new result }
        ensures running { OnOk result (IsRunning self.new) }
        ensures less { OnOk result (work_of D.Disk self.new < work_of D.Disk self.old) }
        ensures early { IfErr result EndsEarly }
    {
        if self.awaits_sync() {
            return self.sync_block(pages);
        }
        self.write_next(pages)
    }

    /// Makes the next block durable, where the log has a cell for it.
    fn write_block(&mut self, pages: u64) -> Result<Replies, Refusal>
        requires running { IsRunning self.old }
        requires some { 0 < length (facts_of D.Disk self.old).ahead }
        requires free { is_full (facts_of D.Disk self.old) ≡ false }
        ensures commits { Commits D.Disk pages self.old self.new result }
        ensures running { OnOk result (IsRunning self.new) }
        ensures off { (facts_of D.Disk self.old).stage ≡ Off → OnOk result ((facts_of D.Disk self.new).stage ≡ Off) }
        ensures early { IfErr result EndsEarly }
    {
        runs_are_joined::<D>();
        let mut left = pages;
        let mut replies = Replies::new();
        while replies.is_empty() {
            (left, replies) = match self.turn(left) {
                Ok(came) => came,
                Err(refusal) => return Err(refusal),
            };
        }
        Ok(replies)
    }

    /// Lets the log have a cell for its next block, where that is live: the checkpoint under way is ended, and where that does not
    /// free it, a whole one more.
    fn free_cell(&mut self) -> Result<(), Refusal>
        requires running { IsRunning self.old }
        requires some { 0 < length (facts_of D.Disk self.old).ahead }
        requires full { is_full (facts_of D.Disk self.old) ≡ true }
        ensures frees { Frees D.Disk self.old self.new result }
        ensures running { OnOk result (IsRunning self.new) }
        ensures early { IfErr result EndsEarly }
    {
        runs_are_joined::<D>();
        let ended = self.finish_checkpoint();
        if ended.is_err() {
            return ended;
        }
        if !self.is_full() {
            return Ok(());
        }
        self.make_room()
    }

    /// Makes the next block of what was delivered durable, and gives the replies to the origins of its items, in the order of their
    /// seqnos: at most 64, for which memory is taken before anything of the block is written. Where nothing waits it does nothing and
    /// gives none.
    ///
    /// What the checkpoint under way writes rides on the syncs of the block: of its pages at most so many. It begins no checkpoint and
    /// syncs nothing for one, but where the log is full, so that there is no cell for the block: then the checkpoint under way is
    /// ended first, and where that frees no cell, a whole one more, whatever `pages` says. To begin one is `Event::Check`.
    ///
    /// Refuses with `Stopped`; with `OutOfMemory`, and then it stands between two steps, and a later call goes on from there; with
    /// `DiskFault` where the device failed, and then the replica is stopped; and with `Corrupt` of the pages exactly where the base's
    /// page that the checkpoint flushes next is not of its form, of its number, and of a position not above the base's. Behind a
    /// refusal no more is durable than before the call, so there is no reply to give, and what was delivered still is.
    pub fn commit_block(&mut self, pages: u64) -> Result<Replies, Refusal>
        ensures commits { (self.old.stopped || is_some self.old.engine.halted) ≡ false → 0 < length (facts_of D.Disk self.old).ahead → Commits D.Disk pages self.old self.new result }
        ensures refused { IfErr result (λ e. (e ≡ Refusal.Stopped) ⊎ EndsEarly e) }
        // Where it succeeds it is not stopped.
        ensures running { OnOk result ((self.new.stopped || is_some self.new.engine.halted) ≡ false) }
        // Where nothing waits, nothing is done.
        ensures none { (self.old.stopped || is_some self.old.engine.halted) ≡ false → length (facts_of D.Disk self.old).ahead ≡ 0 → (result ≡ Ok []) × (self.new ≡ self.old) }
        // Where it is stopped, nothing changes.
        ensures stopped { (self.old.stopped || is_some self.old.engine.halted) ≡ true → (result ≡ Err Refusal.Stopped) × (self.new ≡ self.old) }
    {
        runs_are_joined::<D>();
        if self.is_stopped() {
            return Err(Refusal::Stopped);
        }
        if self.has_none() {
            return Ok(Replies::new());
        }
        if !self.is_full() {
            return self.write_block(pages);
        }
        match self.free_cell() {
            Ok(()) => self.write_block(pages),
            Err(refusal) => Err(refusal),
        }
    }
}
