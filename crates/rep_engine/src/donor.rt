//! What a donor reads for a joiner: the base with its window, and the blocks behind it.

ghost use Rattle.std.specs.Prelude.{◌≡◌, ◌≢◌, ◌+◌, ◌-◌, ◌<◌, ◌^◌, ◌↔◌, List, false, nat_lt, is_some, None, Some, Ok, Err, IfOk, IfErr, IfSome, option_map};
ghost use Rattle.rep_types.specs.declared.judged.Judged.{Judged};
ghost use Rattle.rep_types.specs.declared.refusal.Refusal.TheVariants.{Corrupt};
ghost use Rattle.rep_types.specs.declared.refusal.Part.TheVariants.{Log as in_log, Window as in_window, Pages as in_pages};
ghost use Rattle.rep_record.specs.Blocks.{IsBlock, block_bytes, contents};
ghost use Rattle.rep_disk.specs.History.{seen};
ghost use Rattle.rep_layout.specs.Windows.{IsWindowBody, beside};
ghost use Rattle.rep_layout.specs.declared.page_state.PageState.TheVariants.{Nowhere};
ghost use Rattle.rep_pages.specs.Slots.{state_of_page};
ghost use Rattle.rep_cells.specs.Readings.{reading_of};
ghost use Rattle.rep_steps.specs.Nodes.{Node};
ghost use Rattle.rep_engine.specs.Holding.{Holds};
ghost use Rattle.rep_engine.specs.Donating.{Asks, IsTailBlock, IsBlockAsSpelled, IsBasePage, HasNoRow, IsWindowAsSpelled, IsBasePageAsSpelled};

use crate::engine::{Engine, halted_by};
use rep_cells::images_read_as_allowed;
use rep_checkpoint::stable_bases_are_read;
use rep_disk::Disk;
use rep_layout::{LOG_BODY, PageState, Place, Side, WINDOW_BODY, WindowReader};
use rep_log::open_blocks_are_shown;
use rep_pages::{Page, slot_of};
use rep_record::{BlockReader, read_block};
use rep_types::{Part, Refusal};

/// The block of this number, which the body of its cell is, where that stands open.
fn block_in(number: u64, body: Option<&[u8]>) -> Result<BlockReader<'_>, Refusal>
    ensures form { IfOk result (λ b. (b.cell ≡ number) × IsBlock number b.records) }
    ensures found { IfOk result (λ b. option_map (λ bytes. bytes.now) body.entry ≡ Some (block_bytes number b.records)) }
    ensures only { (records : List Judged) → IsBlock number records → option_map (λ bytes. bytes.now) body.entry ≡ Some (block_bytes number records) → result ≡ Ok (contents number records) }
    ensures refused { IfErr result (λ e. e ≡ Corrupt in_log) }
{
    let Some(bytes) = body else {
        return Err(Refusal::Corrupt { part: Part::Log });
    };
    match read_block(bytes) {
        Ok(block) if block.cell() == number => Ok(block),
        _ => Err(Refusal::Corrupt { part: Part::Log }),
    }
}

impl<D: Disk> Engine<D> {
    /// The block of this index behind the base, the first being 0, as records that are handed out of the room one by one: by one read
    /// of the device. None exactly where there are not so many durable blocks.
    ///
    /// Refuses with `Stopped` where the device has failed before; with `DiskFault` where it failed, and then the engine is stopped;
    /// and with `Corrupt` of the log where no block of that number stands open in its cell: an honest device of a node shows none.
    pub fn tail_block<'a>(
        &mut self,
        index: u64,
        room: &'a mut [u8; LOG_BODY],
    ) -> Result<Option<BlockReader<'a>>, Refusal>
        ensures asks { Asks D.Disk in_log self.old self.new result }
        ensures none { IfOk result (λ found. is_some found ≡ nat_lt index (self.old.log.next - self.old.log.start)) }
        // And None is given there, whatever stands on the device.
        ensures behind { nat_lt index (self.old.log.next - self.old.log.start) ≡ false → self.old.halted ≡ None → result ≡ Ok None }
        // The numbers of the log's blocks are numbers of 64 bits.
        ensures fits { result ≢ Err Refusal.Stopped → self.old.log.next < 2 ^ 64 }
        // On any device what is given is a block of that number.
        ensures form { IfOk result (λ found. IfSome found (λ b. (b.cell ≡ self.old.log.start + index) × IsBlock b.cell b.records)) }
        ensures holds { (n : Node) → Holds D.Disk n self.old → result ≢ Err Refusal.DiskFault → Holds D.Disk n self.new }
        ensures block { (n : Node) → Holds D.Disk n self.old → IfOk result (λ found. IfSome found (λ b. IsTailBlock n self.old.layout (D.history self.old.disk) self.old.checkpoint.base self.old.log index b.records)) }
        ensures whole { (n : Node) → Holds D.Disk n self.old → result ≢ Err (Corrupt in_log) }
        // Whatever stands on an honest device: its bytes decide.
        ensures spelled { D.honest self.old.disk → IsBlockAsSpelled (reading_of self.old.layout (seen (D.history self.old.disk))) self.old.layout (self.old.log.start + index) result in_log }
    {
        self.running()?;
        images_read_as_allowed();
        open_blocks_are_shown();
        let first = self.log.start();
        if index >= self.log.next() - first {
            return Ok(None);
        }
        let number = first + index;
        let cell = self.cells.layout().log_of(number);
        let Ok(body) = self.cells.read_cell(cell, room) else {
            self.halted = Some(self.log.phase());
            return Err(Refusal::DiskFault);
        };
        match block_in(number, body) {
            Ok(block) => Ok(Some(block)),
            Err(refusal) => Err(refusal),
        }
    }

    /// The base's window, whose entries are handed out of the room one by one: by one read of the device.
    ///
    /// Refuses with `Stopped` where the device has failed before; with `DiskFault` where it failed, and then the engine is stopped;
    /// and with `Corrupt` of the window where what stands beside the base's superblock is no window of its format, number and
    /// position: an honest device of a node shows no such thing.
    pub fn base_window<'a>(
        &mut self,
        room: &'a mut [u8; WINDOW_BODY],
    ) -> Result<WindowReader<'a>, Refusal>
        ensures asks { Asks D.Disk in_window self.old self.new result }
        // On any device what is given can be the window of the base.
        ensures form { IfOk result (λ w. (w ≡ beside self.old.checkpoint.base w.kept) × IsWindowBody self.old.checkpoint.base.params w) }
        ensures holds { (n : Node) → Holds D.Disk n self.old → result ≢ Err Refusal.DiskFault → Holds D.Disk n self.new }
        ensures window { (n : Node) → Holds D.Disk n self.old → IfOk result (λ w. w.kept ≡ n.base.kept) }
        ensures whole { (n : Node) → Holds D.Disk n self.old → result ≢ Err (Corrupt in_window) }
        // Whatever stands on an honest device: its bytes decide.
        ensures spelled { D.honest self.old.disk → IsWindowAsSpelled (reading_of self.old.layout (seen (D.history self.old.disk))) self.old.checkpoint.base result in_window }
    {
        self.running()?;
        let base = self.checkpoint.base();
        let area = Place::Window(Side::of(base.number));
        if self.cells.read_area(area, room).is_err() {
            self.halted = Some(self.log.phase());
            return Err(Refusal::DiskFault);
        }
        WindowReader::read_beside(base, room)
    }

    /// Whether the base has this page in a slot. The rows of one that it doesn't have are absent.
    pub fn has_base_page(&self, page: u32) -> bool
        ensures { (result ≡ false) ↔ (state_of_page self.now.checkpoint.base page ≡ Nowhere) }
    {
        match slot_of(self.checkpoint.base(), page) {
            PageState::In(_) => true,
            PageState::Nowhere => false,
        }
    }

    /// A page of the base: by one read of the device at most, and none where it is kept of an earlier read. None exactly where the base
    /// has it in no slot: it has no row then.
    ///
    /// Refuses with `Stopped` where the device has failed before; with `DiskFault` where it failed, and then the engine is stopped;
    /// and with `Corrupt` of the pages where the base's page is not of its form, of its number, and of a position not above the base's:
    /// an honest device of a node shows no such page.
    pub fn base_page(&mut self, page: u32) -> Result<Option<Page>, Refusal>
        ensures asks { Asks D.Disk in_pages self.old self.new result }
        ensures none { IfOk result (λ found. (found ≡ None → state_of_page self.old.checkpoint.base page ≡ Nowhere) × (state_of_page self.old.checkpoint.base page ≡ Nowhere → found ≡ None)) }
        ensures holds { (n : Node) → Holds D.Disk n self.old → result ≢ Err Refusal.DiskFault → Holds D.Disk n self.new }
        ensures page { (n : Node) → Holds D.Disk n self.old → IfOk result (λ found. IfSome found (IsBasePage self.old.checkpoint.base n.base.content page)) }
        ensures absent { (n : Node) → Holds D.Disk n self.old → self.old.halted ≡ None → state_of_page self.old.checkpoint.base page ≡ Nowhere → HasNoRow self.old.checkpoint.base n.base.content page }
        ensures whole { (n : Node) → Holds D.Disk n self.old → result ≢ Err (Corrupt in_pages) }
        // Whatever stands on an honest device: its bytes decide.
        ensures spelled { D.honest self.old.disk → IsBasePageAsSpelled (reading_of self.old.layout (seen (D.history self.old.disk))) self.old.checkpoint.base page result in_pages }
    {
        self.running()?;
        stable_bases_are_read();
        let base = self.checkpoint.base();
        let PageState::In(_) = slot_of(base, page) else {
            return Ok(None);
        };
        let outcome = self.pool.take_page(&mut self.cells, base, page);
        self.halted = halted_by(self.log.phase(), &outcome);
        match outcome {
            Ok(page) => Ok(Some(page)),
            Err(refusal) => Err(refusal),
        }
    }
}
