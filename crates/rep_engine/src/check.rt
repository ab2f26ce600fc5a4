//! The steps of a checkpoint: its beginning, its pages, and the writes behind them.

ghost use Rattle.std.specs.Prelude.{◌≡◌, ◌≢◌, ◌⊎◌, ◌<◌, if◌then◌else◌, None, Some, Err, IfErr, is_some};
ghost use Rattle.rep_types.specs.declared.refusal.Refusal.TheVariants.{DiskFault, NotDue, Stopped};
ghost use Rattle.rep_cert.specs.Holdings.{IsAskable, window_of};
ghost use Rattle.rep_disk.specs.Moments.{LeavesOnly};
ghost use Rattle.rep_disk.specs.Devices.{Calls};
ghost use Rattle.rep_log.specs.Moves.{fault_of};
ghost use Rattle.rep_steps.specs.declared.event.Event.TheVariants.{Check as to_check};
ghost use Rattle.rep_steps.specs.Moves.{Moves};
ghost use Rattle.rep_steps.specs.Nodes.{Node, Steps, NodesStayNodes, window_at};
ghost use Rattle.rep_steps.specs.Images.{IsFrontAt};
ghost use Rattle.rep_checkpoint.specs.Meanings.{Means};
ghost use Rattle.rep_checkpoint.specs.declared.stage.Stage.TheVariants.{Off};
ghost use Rattle.rep_checkpoint.specs.Moves.{CanBegin};
ghost use Rattle.rep_checkpoint.specs.Laws.{TheCheckpointIsApart, TheStageIsTheFacts};
ghost use Rattle.rep_checkpoint.specs.Nodes.{NodesLeaveTheirFronts, VersionsLeadToTheState};
ghost use Rattle.rep_engine.specs.Engines.{facts_of, durable_of, Halts};
ghost use Rattle.rep_engine.specs.Holding.{Holds, wrote};
ghost use Rattle.rep_engine.specs.Checking.{HoldsWindow, Begins, WentOn, checked};

use crate::engine::{Engine, halted_by};
use rep_cert::Certifier;
use rep_checkpoint::{
    Checkpoint, Step, nodes_leave_their_fronts, the_checkpoint_is_apart, the_stage_is_the_facts,
    versions_lead_to_the_state,
};
use rep_disk::Disk;
use rep_layout::windows_go_on;
use rep_log::Log;
use rep_pool::pools_go_on;
use rep_steps::{judging_goes_on, nodes_stay_nodes};
use rep_types::Refusal;
use rep_versions::Versions;
use std::alloc::Global;

/// What the proofs of a checkpoint's steps rest on.
pub(crate) fn checkpoints_go_on()
    ensures nodes { NodesStayNodes }
    ensures fronts { NodesLeaveTheirFronts }
    ensures apart { TheCheckpointIsApart }
    ensures facts { TheStageIsTheFacts }
    ensures states { VersionsLeadToTheState }
{
    nodes_stay_nodes();
    nodes_leave_their_fronts();
    the_checkpoint_is_apart();
    the_stage_is_the_facts();
    versions_lead_to_the_state();
}

/// Begins a checkpoint to what is durable, with the certifier's window there, and says its position.
///
/// Refuses with `NotDue` where the base stands there, and else with `OutOfMemory`.
fn begin_at_durable(
    alloc: Global,
    checkpoint: &mut Checkpoint,
    log: &Log,
    versions: &Versions,
    certifier: &Certifier,
) -> Result<Option<u64>, Refusal>
    requires askable { IsAskable certifier.now.current (durable_of log.now) }
    requires begins { checkpoint.old.base.position < durable_of log.now → log.now.next < log.now.seqno → CanBegin checkpoint.old (durable_of log.now) log.now.next (window_of certifier.now.current (durable_of log.now)) }
    ensures { Begins certifier.now.current log.now versions.now checkpoint.old checkpoint.new result }
{
    let position = log.durable();
    if position <= checkpoint.base().position {
        return Err(Refusal::NotDue);
    }
    let window = certifier.window_at(alloc, position)?;
    let start = log.next();
    checkpoint.begin(alloc, position, start, window, versions)?;
    Ok(Some(position))
}

impl<D: Disk> Engine<D> {
    /// Begins a checkpoint to what is durable, and says its position.
    fn begin(&mut self, certifier: &Certifier) -> Result<Option<u64>, Refusal>
        requires off { self.old.checkpoint.stage ≡ Off }
        requires window { HoldsWindow self.old.checkpoint.base.params (durable_of self.old.log) certifier.now.current }
        ensures rest { self.new ≡ record (self.old) { checkpoint = self.new.checkpoint } }
        ensures begins { Begins certifier.now.current self.old.log self.old.kept self.old.checkpoint self.new.checkpoint result }
    {
        windows_go_on();
        let outcome = begin_at_durable(
            self.alloc,
            &mut self.checkpoint,
            &self.log,
            &self.versions,
            certifier,
        );
        // For its clause: what holds of every checkpoint.
        self.checkpoint.base();
        outcome
    }

    /// Takes a checkpoint that is under way on by its next write. Where the device fails, the engine is stopped.
    fn go_on(&mut self) -> Result<(), Refusal>
        requires { self.old.halted ≡ None }
        ensures { WentOn D.Disk self.old self.new result }
    {
        pools_go_on();
        let outcome = self.checkpoint.next(&mut self.cells);
        // For its clause: what holds of every checkpoint.
        self.checkpoint.base();
        self.halted = halted_by(self.log.phase(), &outcome);
        outcome
    }

    /// Takes a checkpoint that is under way on by its next write: behind the last page the window, then the superblock, and
    /// then its open gate; and once the base rose, the closed gate of the superblock before it. It takes no memory.
    ///
    /// Refuses with `Stopped` where the device has failed before; with `NotDue` where none is under way, pages are left to
    /// be flushed, or a write awaits its sync; and with `DiskFault` where the device failed: the engine is then stopped, and
    /// otherwise as it was.
    pub fn check_next(&mut self) -> Result<(), Refusal>
        ensures call { Calls D.Disk self.old.disk self.new.disk (fault_of result) }
        // Nothing else changes, and where it is refused by anything but the device, nothing does.
        ensures rest { self.new ≡ record (self.old) { disk = self.new.disk; checkpoint = self.new.checkpoint; halted = self.new.halted } }
        ensures params { self.new.checkpoint.base.params ≡ self.old.checkpoint.base.params }
        ensures unchanged { IfErr result (λ e. (e ≡ DiskFault) ⊎ (self.new ≡ self.old)) }
        ensures fault { IfErr result (λ e. e ≡ DiskFault → Halts self.old self.new) }
        // It begins none, and takes one that is under way on as a check does.
        ensures none { self.old.checkpoint.stage ≡ Off → result ≡ Err (if is_some self.old.halted then Stopped else NotDue) }
        ensures moves { self.old.checkpoint.stage ≢ Off → Moves (facts_of D.Disk self.old) to_check (wrote result) (facts_of D.Disk self.new) }
        ensures steps { self.old.checkpoint.stage ≢ Off → (n : Node) → Holds D.Disk n self.old → (m : Node) × Steps n to_check (wrote result) m × Holds D.Disk m self.new }
        ensures leaves { (n : Node) → Holds D.Disk n self.old → LeavesOnly (D.history self.old.disk) (D.history self.new.disk) (IsFrontAt Means n) }
    {
        self.running()?;
        checkpoints_go_on();
        match self.checkpoint.step_due() {
            Step::Next => self.go_on(),
            Step::Begin | Step::Flush(_) | Step::Sync => Err(Refusal::NotDue),
        }
    }

    /// Takes the checkpoint's next step: where none is under way, begins one to what is durable and says its
    /// position; and otherwise makes its next write, as `check_next` does. One write at most. Memory is taken where it
    /// begins, and nowhere else.
    ///
    /// Refuses with `Stopped` where the device has failed before; with `NotDue` where the base stands at what
    /// is durable, pages are left to be flushed, or a write awaits its sync; with `OutOfMemory` where one would
    /// begin; and with `DiskFault` where the device failed: the engine is then stopped, and otherwise as it was.
    ///
    /// The certifier is asked for its window only where a checkpoint may begin: any other step takes any certifier.
    pub fn check(&mut self, certifier: &Certifier) -> Result<Option<u64>, Refusal>
        requires window { self.old.checkpoint.stage ≡ Off → HoldsWindow self.old.checkpoint.base.params (durable_of self.old.log) certifier.now.current }
        ensures call { Calls D.Disk self.old.disk self.new.disk (fault_of result) }
        // Nothing else changes, and where it is refused by anything but the device, nothing does.
        ensures rest { self.new ≡ record (self.old) { disk = self.new.disk; checkpoint = self.new.checkpoint; halted = self.new.halted } }
        ensures params { self.new.checkpoint.base.params ≡ self.old.checkpoint.base.params }
        ensures unchanged { IfErr result (λ e. (e ≡ DiskFault) ⊎ (self.new ≡ self.old)) }
        ensures fault { IfErr result (λ e. e ≡ DiskFault → Halts self.old self.new) }
        ensures moves { Moves (facts_of D.Disk self.old) to_check (checked result) (facts_of D.Disk self.new) }
        ensures steps { (n : Node) → Holds D.Disk n self.old → (self.old.checkpoint.stage ≡ Off → window_of certifier.now.current (durable_of self.old.log) ≡ window_at n n.facts.durable) → (m : Node) × Steps n to_check (checked result) m × Holds D.Disk m self.new }
        ensures leaves { (n : Node) → Holds D.Disk n self.old → LeavesOnly (D.history self.old.disk) (D.history self.new.disk) (IsFrontAt Means n) }
    {
        match self.checkpoint.step_due() {
            Step::Begin => {
                self.running()?;
                checkpoints_go_on();
                judging_goes_on();
                self.begin(certifier)
            }
            Step::Flush(_) | Step::Next | Step::Sync => self.check_next().and(Ok(None)),
        }
    }
}
