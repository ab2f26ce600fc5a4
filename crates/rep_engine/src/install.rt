//! How a snapshot that comes from another node is installed: it takes the base's place by a checkpoint of its own.

ghost use Rattle.std.specs.Prelude.{◌≡◌, ◌↔◌, ◌+◌, true, [], None, Some, Ok, Err, is_some, IfOk, IfErr, IfSome, OnOk, OnErr};
ghost use Rattle.rep_types.specs.declared.refusal.Refusal.TheVariants.{Stopped, DiskFault};
ghost use Rattle.rep_types.specs.Order.{State};
ghost use Rattle.rep_disk.specs.Moments.{LeavesOnly};
ghost use Rattle.rep_disk.specs.Devices.{Calls};
ghost use Rattle.rep_cells.specs.Calls.{Settles};
ghost use Rattle.rep_log.specs.declared.phase.Phase.TheVariants.{Resting};
ghost use Rattle.rep_log.specs.Moves.{fault_of, SyncsLog, Restarts};
ghost use Rattle.rep_steps.specs.Nodes.{Node};
ghost use Rattle.rep_steps.specs.Images.{IsFrontAt};
ghost use Rattle.rep_checkpoint.specs.Meanings.{Means};
ghost use Rattle.rep_checkpoint.specs.declared.stage.Part.TheVariants.{Flushing, SuperFilled};
ghost use Rattle.rep_checkpoint.specs.declared.stage.Stage.TheVariants.{Off};
ghost use Rattle.rep_checkpoint.specs.Coming.{IsDue, IsNewPage, blank, coming, gone, placed, settled, with_page};
ghost use Rattle.rep_checkpoint.specs.Installing.{InstallsNext, InstallsPage, WritesComing};
ghost use Rattle.rep_engine.specs.Engines.{durable_of, OnlyAsks, Halts};
ghost use Rattle.rep_engine.specs.Holding.{Holds};
ghost use Rattle.rep_engine.specs.Reading.{halted_by};
ghost use Rattle.rep_engine.specs.Installing.{CanBring, IsBeside, HoldsBoth, Goes, TakesPlace, IsTaken, halted_node};

use crate::engine::{Engine, halted_by};
use rep_cells::{images_read_as_allowed, refusal_of};
use rep_checkpoint::{
    Installation as Coming, installations_can_be_dropped, installations_leave_the_old_or_the_new,
    installations_make_the_node, installations_stand_beside, nodes_leave_their_fronts,
};
use rep_disk::Disk;
use rep_layout::windows_go_on;
use rep_pages::PageRows;
use rep_pool::pools_go_on;
use rep_types::{Params, Refusal, Window};
use rep_versions::versions_follow_the_items;
use std::marker::Model;
use uuid::Uuid;

/// An engine beside whose base a snapshot of another node is installed. Nothing else happens to the engine meanwhile: it is this
/// value's, until the snapshot took the base's place or was given up.
///
/// A stop at any moment leaves the engine's node as it was, or the snapshot, whole.
#[derive(Drop)]
pub struct Installation<D: Disk> {
    engine: Engine<D>,
    coming: Coming,
}

impl<D: Disk> Model for Installation<D> {
    ghost use Rattle.std.specs.Prelude.{◌≡◌};
    ghost use Rattle.rep_checkpoint.specs.declared.stage.Part.TheVariants.{Flushing};
    ghost use Rattle.rep_engine.specs.Installing.{Beside, IsBeside, beside_code};

    ghost Value = { Beside D };

    ghost coded = { beside_code D.code };

    ghost view = { λ i. record { engine = i.engine; coming = i.coming } };

    ghost invariant = { λ i. IsBeside i.engine.checkpoint i.engine.log i.engine.block i.coming × (i.coming.part ≡ Flushing) };
}

impl<D: Disk> Engine<D> {
    /// Begins to install the snapshot of a cluster at this position, with this window there. No device is touched, and no
    /// memory taken.
    ///
    /// Nothing waits for the log, and no checkpoint is under way. The snapshot is of the engine's cluster and above what is durable;
    /// where the engine belongs to no cluster, it is of any.
    ///
    /// Refuses with `Stopped` where the device has failed before, and gives the engine back.
    pub fn install(
        self,
        uuid: Uuid,
        position: u64,
        window: Window,
    ) -> Result<Installation<D>, (Engine<D>, Refusal)>
        requires waits { self.block ≡ [] }
        requires off { self.checkpoint.stage ≡ Off }
        requires brings { CanBring self.checkpoint.base (durable_of self.log) uuid position window }
        ensures stopped { IfSome self.halted (λ _. result ≡ Err (self, Stopped)) }
        ensures begun { self.halted ≡ None → result ≡ Ok (record { engine = self; coming = coming self.checkpoint.base uuid position self.log.next window }) }
        ensures holds { (n : Node) → Holds D.Disk n self → IfOk result (λ i. HoldsBoth D.Disk n (blank position window) i.engine i.coming) }
    {
        windows_go_on();
        installations_stand_beside();
        if self.halted.is_some() {
            return Err((self, Refusal::Stopped));
        }
        let start = self.log.next();
        let coming = self
            .checkpoint
            .install(self.alloc, uuid, position, start, window);
        Ok(Installation {
            engine: self,
            coming,
        })
    }

    /// Writes a page of the snapshot. Where the device fails, the engine is stopped.
    fn install_page(
        &mut self,
        coming: &mut Coming,
        page: u32,
        rows: PageRows,
    ) -> Result<(), Refusal>
        requires runs { self.old.halted ≡ None }
        requires beside { IsBeside self.old.checkpoint self.old.log self.old.block coming.old }
        requires due { coming.old.part ≡ Flushing }
        requires page { IsNewPage self.old.checkpoint.base coming.old.next page rows }
        ensures call { Calls D.Disk self.old.disk self.new.disk (fault_of result) }
        ensures rest { OnlyAsks self.old self.new }
        ensures halted { self.new.halted ≡ halted_by self.old.log.phase result }
        ensures refused { IfErr result (λ e. e ≡ DiskFault) }
        ensures beside { IsBeside self.old.checkpoint self.old.log self.old.block coming.new }
        ensures puts { InstallsPage D.Disk self.old.layout self.old.checkpoint.base page rows coming.old coming.new self.old.disk self.new.disk result }
    {
        let outcome = coming.put_page(
            &mut self.cells,
            &mut self.pool,
            self.checkpoint.base(),
            page,
            rows,
        );
        self.halted = halted_by(self.log.phase(), &outcome);
        outcome
    }

    /// Writes what comes next of the snapshot. Where the device fails, the engine is stopped.
    fn install_next(&mut self, coming: &mut Coming) -> Result<(), Refusal>
        requires runs { self.old.halted ≡ None }
        requires beside { IsBeside self.old.checkpoint self.old.log self.old.block coming.old }
        requires due { IsDue coming.old.part }
        ensures call { Calls D.Disk self.old.disk self.new.disk (fault_of result) }
        ensures rest { OnlyAsks self.old self.new }
        ensures halted { self.new.halted ≡ halted_by self.old.log.phase result }
        ensures refused { IfErr result (λ e. e ≡ DiskFault) }
        ensures beside { IsBeside self.old.checkpoint self.old.log self.old.block coming.new }
        ensures writes { InstallsNext D.Disk self.old.layout self.old.checkpoint.base coming.old coming.new self.old.disk self.new.disk result }
    {
        pools_go_on();
        let outcome = coming.next(&mut self.cells, self.checkpoint.base());
        self.halted = halted_by(self.log.phase(), &outcome);
        outcome
    }

    /// Makes stable what was written of the snapshot. Where the device fails, the engine is stopped.
    fn install_sync(&mut self) -> Result<(), Refusal>
        requires runs { self.old.halted ≡ None }
        requires resting { self.old.log.phase ≡ Resting }
        ensures call { Calls D.Disk self.old.disk self.new.disk (fault_of result) }
        ensures rest { OnlyAsks self.old self.new }
        ensures halted { self.new.halted ≡ halted_by self.old.log.phase result }
        ensures refused { IfErr result (λ e. e ≡ DiskFault) }
        ensures settles { Settles D.Disk self.old.layout self.old.disk self.new.disk (fault_of result) }
        // A log that rests stands as it did.
        ensures log { OnOk result (SyncsLog self.old.log self.old.log) }
    {
        pools_go_on();
        let outcome = refusal_of(self.cells.sync());
        if outcome.is_err() {
            self.halted = Some(self.log.phase());
            return outcome;
        }
        self.log.synced();
        outcome
    }

    /// Behind the sync with the snapshot's superblock open: the snapshot is the base, and the log goes on behind it.
    fn raise_to(&mut self, coming: Coming)
        requires beside { IsBeside self.old.checkpoint self.old.log self.old.block coming }
        ensures taken { IsTaken coming self.old self.new }
        ensures disk { self.new.disk ≡ self.old.disk }
        ensures restarts { Restarts (coming.next.super.position + 1) self.old.log self.new.log }
    {
        let position = coming.position();
        self.checkpoint = coming.into_checkpoint();
        self.versions.prune(position);
        self.log.restart(position + 1);
    }

    /// Writes what comes next of the snapshot, its window or its superblock, and makes it stable.
    fn install_step(&mut self, coming: &mut Coming) -> Result<(), Refusal>
        requires runs { self.old.halted ≡ None }
        requires beside { IsBeside self.old.checkpoint self.old.log self.old.block coming.old }
        requires due { IsDue coming.old.part }
        requires closed { coming.old.part ≡ SuperFilled → ⊥ }
        ensures call { Calls D.Disk self.old.disk self.new.disk (fault_of result) }
        ensures rest { OnlyAsks self.old self.new }
        ensures halted { self.new.halted ≡ halted_by self.old.log.phase result }
        ensures refused { IfErr result (λ e. e ≡ DiskFault) }
        ensures done { OnOk result (coming.new ≡ settled (gone coming.old)) }
        ensures beside { OnOk result (IsBeside self.old.checkpoint self.old.log self.old.block coming.new) }
        ensures goes { (n : Node) → (y : State) → HoldsBoth D.Disk n y self.old coming.old → Goes D.Disk n y self.old self.new coming.old coming.new result }
    {
        images_read_as_allowed();
        installations_stand_beside();
        installations_leave_the_old_or_the_new();
        installations_make_the_node();
        // For its clause: what holds of every engine.
        self.durable();
        self.install_next(coming)?;
        self.install_sync()?;
        coming.synced();
        Ok(())
    }

    /// Opens the snapshot's superblock, which is stable, and makes that stable: the snapshot takes the base's place.
    fn install_open(&mut self, coming: Coming) -> Result<(), Refusal>
        requires runs { self.old.halted ≡ None }
        requires beside { IsBeside self.old.checkpoint self.old.log self.old.block coming }
        requires filled { coming.part ≡ SuperFilled }
        ensures call { Calls D.Disk self.old.disk self.new.disk (fault_of result) }
        ensures refused { IfErr result (λ e. (e ≡ DiskFault) × (Halts self.old self.new)) }
        ensures taken { OnOk result (IsTaken coming self.old self.new) }
        ensures takes { (n : Node) → (y : State) → HoldsBoth D.Disk n y self.old coming → TakesPlace D.Disk n y coming self.old self.new result }
    {
        images_read_as_allowed();
        nodes_leave_their_fronts();
        versions_follow_the_items();
        installations_stand_beside();
        installations_leave_the_old_or_the_new();
        installations_make_the_node();
        // For its clause: what holds of every engine.
        self.durable();
        let mut coming = coming;
        self.install_next(&mut coming)?;
        self.install_sync()?;
        self.raise_to(coming);
        Ok(())
    }

    /// Lets the snapshot take the base's place: the window, the superblock and its open gate are written, with a sync behind each.
    fn install_end(&mut self, coming: Coming) -> Result<(), Refusal>
        requires runs { self.old.halted ≡ None }
        requires beside { IsBeside self.old.checkpoint self.old.log self.old.block coming }
        requires due { coming.part ≡ Flushing }
        ensures call { Calls D.Disk self.old.disk self.new.disk (fault_of result) }
        ensures refused { IfErr result (λ e. (e ≡ DiskFault) × (Halts self.old self.new)) }
        ensures taken { OnOk result (IsTaken coming self.old self.new) }
        ensures takes { (n : Node) → (y : State) → HoldsBoth D.Disk n y self.old coming → TakesPlace D.Disk n y coming self.old self.new result }
    {
        let mut coming = coming;
        self.install_step(&mut coming)?;
        self.install_step(&mut coming)?;
        self.install_open(coming)
    }
}

impl<D: Disk> Installation<D> {
    /// The position that the snapshot is at.
    pub fn position(&self) -> u64
        ensures position { result ≡ self.now.coming.next.super.position }
        // What holds of every installation.
        ensures beside { IsBeside self.now.engine.checkpoint self.now.engine.log self.now.engine.block self.now.coming × (self.now.coming.part ≡ Flushing) }
    {
        self.coming.position()
    }

    /// The parameters.
    pub fn params(&self) -> &Params
        ensures { result.now ≡ self.now.engine.checkpoint.base.params }
    {
        self.engine.params()
    }

    /// Whether the device has failed: all that is left is to give up.
    pub fn is_stopped(&self) -> bool
        ensures { result ≡ is_some self.now.engine.halted }
    {
        self.engine.is_stopped()
    }

    /// Whether this page can come: the schema has it, it has no row past the end of its table, and it did not come yet.
    pub fn takes(&self, page: u32, rows: &PageRows) -> bool
        ensures { (result ≡ true) ↔ IsNewPage self.now.engine.checkpoint.base self.now.coming.next page rows.now }
    {
        self.coming.takes(self.engine.checkpoint.base(), page, rows)
    }

    /// Writes a page of the snapshot into the slot that the base does not use: one write, and no memory. Pages come once each, in any
    /// order; one that does not come has no row.
    ///
    /// Refuses with `Stopped` where the device has failed before, and with `DiskFault` where it failed: the engine is then
    /// stopped, and otherwise as it was.
    pub fn put_page(&mut self, page: u32, rows: PageRows) -> Result<(), Refusal>
        requires page { IsNewPage self.old.engine.checkpoint.base self.old.coming.next page rows }
        ensures call { Calls D.Disk self.old.engine.disk self.new.engine.disk (fault_of result) }
        ensures rest { OnlyAsks self.old.engine self.new.engine }
        ensures stopped { IfSome self.old.engine.halted (λ _. (result ≡ Err Stopped) × (self.new ≡ self.old)) }
        ensures running { self.old.engine.halted ≡ None → (self.new.engine.halted ≡ halted_by self.old.engine.log.phase result) × IfErr result (λ e. e ≡ DiskFault) }
        ensures done { OnOk result (self.new.coming ≡ placed self.old.engine.checkpoint.base page self.old.coming) }
        ensures fault { OnErr result (self.new.coming ≡ self.old.coming) }
        // Its position in the bytes is the snapshot's.
        ensures written { self.old.engine.halted ≡ None → WritesComing D.Disk self.old.engine.layout self.old.engine.checkpoint.base self.old.coming page rows self.old.engine.disk self.new.engine.disk result }
        // Where it succeeds, the snapshot brings the page's rows too.
        ensures holds { (n : Node) → (y : State) → HoldsBoth D.Disk n y self.old.engine self.old.coming → OnOk result (HoldsBoth D.Disk n (with_page self.old.engine.checkpoint.base.params.rows page rows y) self.new.engine self.new.coming) }
        ensures halts { (n : Node) → (y : State) → HoldsBoth D.Disk n y self.old.engine self.old.coming → IfErr result (λ e. e ≡ DiskFault → HoldsBoth D.Disk (halted_node (D.failures self.new.engine.disk) n) y self.new.engine self.new.coming) }
        ensures leaves { (n : Node) → (y : State) → HoldsBoth D.Disk n y self.old.engine self.old.coming → LeavesOnly (D.history self.old.engine.disk) (D.history self.new.engine.disk) (IsFrontAt Means n) }
    {
        self.engine.running()?;
        installations_stand_beside();
        installations_leave_the_old_or_the_new();
        self.engine.install_page(&mut self.coming, page, rows)
    }

    /// Gives the snapshot up: the engine is as it was before, whatever pages came. The device is not asked.
    pub fn give_up(self) -> Engine<D>
        ensures engine { result ≡ self.engine }
        ensures holds { (n : Node) → (y : State) → HoldsBoth D.Disk n y self.engine self.coming → Holds D.Disk n result }
    {
        installations_can_be_dropped();
        let Installation { engine, .. } = self;
        // For its clause: what holds of every engine.
        engine.durable();
        engine
    }

    /// Lets the snapshot take the base's place: three writes, its window, its superblock and that one's open gate, with a sync behind each. It
    /// takes no memory. The engine then stands for the snapshot, with nothing behind it; the superblock before is retired by the
    /// next `check` and `sync`.
    ///
    /// Refuses with `Stopped` where the device has failed before; and with `DiskFault` where it failed: the engine is then stopped,
    /// and what is opened on its disk is either what it was or the snapshot.
    pub fn end(self) -> (Engine<D>, Result<(), Refusal>)
        ensures call { Calls D.Disk self.engine.disk result.0.disk (fault_of result.1) }
        ensures stopped { IfSome self.engine.halted (λ _. result ≡ (self.engine, Err Stopped)) }
        ensures fault { self.engine.halted ≡ None → IfErr result.1 (λ e. (e ≡ DiskFault) × (Halts self.engine result.0)) }
        ensures taken { OnOk result.1 (IsTaken self.coming self.engine result.0) }
        ensures takes { (n : Node) → (y : State) → HoldsBoth D.Disk n y self.engine self.coming → TakesPlace D.Disk n y self.coming self.engine result.0 result.1 }
    {
        let Installation { mut engine, coming } = self;
        if engine.is_stopped() {
            return (engine, Err(Refusal::Stopped));
        }
        let outcome = engine.install_end(coming);
        (engine, outcome)
    }
}
