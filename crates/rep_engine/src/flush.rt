//! The pages of a checkpoint.

ghost use Rattle.std.specs.Prelude.{◌≡◌, ◌⊎◌, None, IfErr, IfSome, OnErr};
ghost use Rattle.rep_types.specs.declared.refusal.Refusal.TheVariants.{DiskFault, Corrupt};
ghost use Rattle.rep_types.specs.declared.refusal.Part.TheVariants.{Pages};
ghost use Rattle.rep_disk.specs.Moments.{LeavesOnly};
ghost use Rattle.rep_disk.specs.Devices.{Calls};
ghost use Rattle.rep_log.specs.Moves.{fault_of};
ghost use Rattle.rep_steps.specs.declared.event.Event.TheVariants.{Flush as to_flush};
ghost use Rattle.rep_steps.specs.Moves.{Moves};
ghost use Rattle.rep_steps.specs.Images.{IsFrontAt};
ghost use Rattle.rep_steps.specs.Nodes.{Node, Steps};
ghost use Rattle.rep_checkpoint.specs.Meanings.{Means};
ghost use Rattle.rep_checkpoint.specs.Moves.{flush_refusal, position_in};
ghost use Rattle.rep_checkpoint.specs.Calls.{IsRefused, Flushes, FlushesAsSpelled};
ghost use Rattle.rep_engine.specs.Engines.{facts_of, Halts};
ghost use Rattle.rep_engine.specs.Holding.{Holds, wrote};
ghost use Rattle.rep_engine.specs.Reading.{halted_by};

use crate::check::checkpoints_go_on;
use crate::engine::{Engine, halted_by};
use rep_disk::Disk;
use rep_layout::row_places_are_told;
use rep_types::Refusal;

impl<D: Disk> Engine<D> {
    /// Flushes a page that the checkpoint may have left. Where the device fails, the engine is stopped.
    pub(crate) fn flush_page(&mut self, page: u32) -> Result<(), Refusal>
        requires { self.old.halted ≡ None }
        ensures call { Calls D.Disk self.old.disk self.new.disk (fault_of result) }
        ensures rest { self.new ≡ record (self.old) { disk = self.new.disk; checkpoint = self.new.checkpoint; halted = self.new.halted } }
        ensures halted { self.new.halted ≡ halted_by self.old.log.phase result }
        ensures refused { IfSome (flush_refusal self.old.layout self.old.checkpoint page) (λ e. IsRefused e self.old.checkpoint self.new.checkpoint self.old.disk self.new.disk result) }
        ensures flushes { flush_refusal self.old.layout self.old.checkpoint page ≡ None → Flushes D.Disk self.old.layout self.old.kept page self.old.checkpoint self.new.checkpoint self.old.disk self.new.disk result }
        ensures unchanged { OnErr result (self.new.checkpoint ≡ self.old.checkpoint) }
    {
        let outcome = self
            .checkpoint
            .flush(&mut self.cells, &mut self.pool, &self.versions, page);
        // For its clause: what holds of every checkpoint.
        self.checkpoint.base();
        self.halted = halted_by(self.log.phase(), &outcome);
        outcome
    }

    /// Flushes a page that the checkpoint has left: writes its rows as they are at the checkpoint's position,
    /// whatever was accepted since, where the base has none of its own. One read and one write at most, and no
    /// memory.
    ///
    /// Refuses with `Stopped` where the device has failed before; with `NotDue` where the page is not left;
    /// with `Corrupt` of the pages exactly where the base's page is not of its form, of its number, and of a
    /// position not above the base's; and with `DiskFault` where the device failed: the engine is then stopped,
    /// and otherwise as it was.
    pub fn flush(&mut self, page: u64) -> Result<(), Refusal>
        ensures call { Calls D.Disk self.old.disk self.new.disk (fault_of result) }
        // Nothing else changes.
        ensures rest { self.new ≡ record (self.old) { disk = self.new.disk; checkpoint = self.new.checkpoint; halted = self.new.halted } }
        ensures moves { Moves (facts_of D.Disk self.old) (to_flush page) (wrote result) (facts_of D.Disk self.new) }
        ensures steps { (n : Node) → Holds D.Disk n self.old → (m : Node) × Steps n (to_flush page) (wrote result) m × Holds D.Disk m self.new }
        ensures leaves { (n : Node) → Holds D.Disk n self.old → LeavesOnly (D.history self.old.disk) (D.history self.new.disk) (IsFrontAt Means n) }
        // Whatever stands on an honest device: its bytes decide.
        ensures spelled { D.honest self.old.disk → FlushesAsSpelled self.old.layout self.old.checkpoint.base self.old.kept (position_in self.old.checkpoint.stage) page (D.history self.old.disk) (D.history self.new.disk) result }
        // Where it is refused, nothing changes, but that the device was asked for a page that is not of its form, or
        // failed, and the engine is stopped.
        ensures unchanged { IfErr result (λ e. (e ≡ DiskFault) ⊎ (((e ≡ Corrupt Pages) × (self.new ≡ record (self.old) { disk = self.new.disk })) ⊎ (self.new ≡ self.old))) }
        ensures fault { IfErr result (λ e. e ≡ DiskFault → Halts self.old self.new) }
    {
        self.running()?;
        checkpoints_go_on();
        row_places_are_told();
        match u32::try_from(page) {
            Ok(page) => self.flush_page(page),
            Err(_) => Err(Refusal::NotDue),
        }
    }
}
