//! Reads of rows.

ghost use Rattle.std.specs.Prelude.{◌≡◌, ◌⊎◌, None, Some, IfErr};
ghost use Rattle.rep_types.specs.declared.refusal.Part.TheVariants.{Pages};
ghost use Rattle.rep_types.specs.declared.refusal.Refusal.TheVariants.{DiskFault, Corrupt};
ghost use Rattle.rep_disk.specs.History.{seen};
ghost use Rattle.rep_disk.specs.Devices.{Calls, SameHistory};
ghost use Rattle.rep_cells.specs.Readings.{reading_of};
ghost use Rattle.rep_log.specs.Moves.{fault_of};
ghost use Rattle.rep_steps.specs.Moves.{Moves};
ghost use Rattle.rep_steps.specs.Standings.{read_refusal};
ghost use Rattle.rep_steps.specs.declared.event.Event.TheVariants.{Read};
ghost use Rattle.rep_steps.specs.Nodes.{Node, Steps};
ghost use Rattle.rep_versions.specs.Versions.{IsAnswer};
ghost use Rattle.rep_engine.specs.Holding.{Holds, row};
ghost use Rattle.rep_engine.specs.Reading.{ReadsRow, ReadsAt};
ghost use Rattle.rep_engine.specs.Engines.{facts_of, OnlyAsks, Halts};

use crate::engine::{Engine, halted_by};
use crate::write::base_row;
use rep_checkpoint::{the_bytes_tell_the_page, versions_lead_to_the_state};
use rep_disk::Disk;
use rep_steps::nodes_stay_nodes;
use rep_types::{Key, Refusal, Value};
use rep_versions::{At, versions_follow_the_items};

impl<D: Disk> Engine<D> {
    /// Why a read is refused.
    fn read_refusal(&self, key: Key, s: u64) -> Option<Refusal>
        ensures { result ≡ read_refusal (facts_of D.Disk self.now) key s }
    {
        if !self.checkpoint.base().params.schema().contains(key) {
            return Some(Refusal::BadKey);
        }
        let durable = self.log.durable();
        if s > durable {
            return Some(Refusal::NotYet { durable });
        }
        if s < self.checkpoint.base().position {
            return Some(Refusal::TooOld {
                oldest: self.checkpoint.base().position,
            });
        }
        None
    }

    /// What the items behind the base made of the row, in the state after so many items.
    fn version_of(&self, key: Key, s: u64) -> At<'_>
        ensures { IsAnswer self.now.kept key s result }
    {
        self.versions.at(key, s)
    }

    /// What the row is at the base. Where the device fails, the engine is stopped.
    fn read_base(&mut self, key: Key) -> Result<Option<Value>, Refusal>
        requires { self.old.halted ≡ None }
        ensures read { ReadsRow D.Disk key self.old self.new result }
    {
        let row = base_row(&mut self.cells, &mut self.pool, self.checkpoint.base(), key);
        self.halted = halted_by(self.log.phase(), &row);
        row
    }

    /// What stands under the key in the state after so many items, if anything does: of the versions behind
    /// the base the newest up to there, and below them all what the base's page has, by one read of the
    /// device at most, and none where the page is kept of an earlier read. It is not refused for memory: where there is no
    /// room to keep a page, it is not kept.
    ///
    /// Refuses with `Stopped` where the device has failed before; with `BadKey` outside the schema; with `NotYet`
    /// above what is durable; with `TooOld` below the base; with `DiskFault` where the device failed, and
    /// then the engine is stopped, and otherwise as it was; and with `Corrupt` of the pages exactly where no
    /// version is at or below the position and the page is not of its form, of its number, and of a position
    /// not above the base's.
    pub fn read(&mut self, key: Key, s: u64) -> Result<Option<Value>, Refusal>
        // The device is asked at most, and nothing else changes but whether it is stopped.
        ensures call { Calls D.Disk self.old.disk self.new.disk (fault_of result) }
        ensures rest { OnlyAsks self.old self.new }
        ensures moves { Moves (facts_of D.Disk self.old) (Read key s) (row result) (facts_of D.Disk self.new) }
        ensures steps { (n : Node) → Holds D.Disk n self.old → (m : Node) × Steps n (Read key s) (row result) m × Holds D.Disk m self.new }
        ensures same { SameHistory D.Disk self.old.disk self.new.disk }
        // Whatever stands on an honest device: its bytes decide.
        ensures spelled { D.honest self.old.disk → ReadsAt (reading_of self.old.layout (seen (D.history self.old.disk))) self.old.checkpoint.base self.old.kept key s result }
        // Where it is refused, nothing changes, but that the device was asked for a page that is not of its form, or
        // failed, and the engine is stopped.
        ensures unchanged { IfErr result (λ e. (e ≡ DiskFault) ⊎ (((e ≡ Corrupt Pages) × (self.new ≡ record (self.old) { disk = self.new.disk })) ⊎ (self.new ≡ self.old))) }
        ensures fault { IfErr result (λ e. e ≡ DiskFault → Halts self.old self.new) }
    {
        self.running()?;
        nodes_stay_nodes();
        versions_follow_the_items();
        versions_lead_to_the_state();
        the_bytes_tell_the_page();
        if let Some(refusal) = self.read_refusal(key, s) {
            return Err(refusal);
        }
        match self.version_of(key, s) {
            At::Found(value) => Ok(Some(value.copied())),
            At::Deleted => Ok(None),
            At::Below => self.read_base(key),
        }
    }
}
