//! What a replica reads for a joiner: the base with its window, and the durable blocks behind it.

ghost use Rattle.std.specs.Prelude.{◌≡◌, ◌≢◌, ◌+◌, ◌-◌, ◌<◌, ◌^◌, ◌||◌, false, nat_lt, is_some, None, Ok, Err, IfOk, IfSome};
ghost use Rattle.rep_types.specs.declared.refusal.Refusal.TheVariants.{Corrupt};
ghost use Rattle.rep_types.specs.declared.refusal.Part.TheVariants.{Log as in_log, Window as in_window, Pages as in_pages};
ghost use Rattle.rep_record.specs.Blocks.{IsBlock};
ghost use Rattle.rep_disk.specs.History.{seen};
ghost use Rattle.rep_layout.specs.declared.page_state.PageState.TheVariants.{Nowhere};
ghost use Rattle.rep_layout.specs.Windows.{IsWindowBody, beside};
ghost use Rattle.rep_cells.specs.Readings.{reading_of};
ghost use Rattle.rep_pages.specs.Slots.{state_of_page};
ghost use Rattle.rep_steps.specs.Nodes.{Node};
ghost use Rattle.rep_recover.specs.Donating.{IsTailBlock, IsBlockAsSpelled, IsBasePage, HasNoRow, IsWindowAsSpelled, IsBasePageAsSpelled};
ghost use Rattle.rep_replica.specs.Holding.{Holds};
ghost use Rattle.rep_replica.specs.Asking.{IsAsked};
ghost use Rattle.rep_replica.specs.Donating.{Asks};

use crate::replica::Replica;
use rep_disk::Disk;
use rep_layout::{LOG_BODY, WINDOW_BODY, WindowReader};
use rep_pages::Page;
use rep_record::BlockReader;
use rep_types::Refusal;

impl<D: Disk> Replica<D> {
    /// The durable block of this index behind the base, the first being 0, as records that are handed out of the room one by one: by
    /// one read of the device. None exactly where there are not so many. What was delivered and is not durable is in none of them.
    ///
    /// Refuses with `Stopped`; with `DiskFault` where the device failed, and then the replica is stopped; and with `Corrupt` of the
    /// log where no block of that number stands open in its cell: an honest device of a node shows none.
    pub fn tail_block<'a>(
        &mut self,
        index: u64,
        room: &'a mut [u8; LOG_BODY],
    ) -> Result<Option<BlockReader<'a>>, Refusal>
        ensures asks { Asks D.Disk in_log self.old self.new result }
        ensures asked { IsAsked D.Disk self.old self.new }
        ensures none { IfOk result (λ found. is_some found ≡ nat_lt index (self.old.engine.log.next - self.old.engine.log.start)) }
        // And None is given there, whatever stands on the device.
        ensures behind { nat_lt index (self.old.engine.log.next - self.old.engine.log.start) ≡ false → (self.old.stopped || is_some self.old.engine.halted) ≡ false → result ≡ Ok None }
        // The numbers of the log's blocks are numbers of 64 bits.
        ensures fits { result ≢ Err Refusal.Stopped → self.old.engine.log.next < 2 ^ 64 }
        // On any device what is given is a block of that number.
        ensures form { IfOk result (λ found. IfSome found (λ b. (b.cell ≡ self.old.engine.log.start + index) × IsBlock b.cell b.records)) }
        ensures holds { (n : Node) → Holds D.Disk n self.old → result ≢ Err Refusal.DiskFault → Holds D.Disk n self.new }
        ensures block { (n : Node) → Holds D.Disk n self.old → IfOk result (λ found. IfSome found (λ b. IsTailBlock n self.old.engine.layout (D.history self.old.engine.disk) self.old.engine.checkpoint.base self.old.engine.log index b.records)) }
        ensures whole { (n : Node) → Holds D.Disk n self.old → result ≢ Err (Corrupt in_log) }
        // Whatever stands on an honest device: its bytes decide.
        ensures spelled { D.honest self.old.engine.disk → IsBlockAsSpelled (reading_of self.old.engine.layout (seen (D.history self.old.engine.disk))) self.old.engine.layout (self.old.engine.log.start + index) result in_log }
    {
        if self.is_stopped() {
            return Err(Refusal::Stopped);
        }
        self.engine.tail_block(index, room)
    }

    /// The base's window, whose entries are handed out of the room one by one: by one read of the device.
    ///
    /// Refuses with `Stopped`; with `DiskFault` where the device failed, and then the replica is stopped; and with `Corrupt` of the
    /// window where what stands beside the base's superblock is no window of its format, number and position: an honest device of
    /// a node shows no such thing.
    pub fn base_window<'a>(
        &mut self,
        room: &'a mut [u8; WINDOW_BODY],
    ) -> Result<WindowReader<'a>, Refusal>
        ensures asks { Asks D.Disk in_window self.old self.new result }
        ensures asked { IsAsked D.Disk self.old self.new }
        // On any device what is given can be the window of the base.
        ensures form { IfOk result (λ w. (w ≡ beside self.old.engine.checkpoint.base w.kept) × IsWindowBody self.old.engine.checkpoint.base.params w) }
        ensures holds { (n : Node) → Holds D.Disk n self.old → result ≢ Err Refusal.DiskFault → Holds D.Disk n self.new }
        ensures window { (n : Node) → Holds D.Disk n self.old → IfOk result (λ w. w.kept ≡ n.base.kept) }
        ensures whole { (n : Node) → Holds D.Disk n self.old → result ≢ Err (Corrupt in_window) }
        // Whatever stands on an honest device: its bytes decide.
        ensures spelled { D.honest self.old.engine.disk → IsWindowAsSpelled (reading_of self.old.engine.layout (seen (D.history self.old.engine.disk))) self.old.engine.checkpoint.base result in_window }
    {
        if self.is_stopped() {
            return Err(Refusal::Stopped);
        }
        self.engine.base_window(room)
    }

    /// A page of the base: by one read of the device at most, and none where it is kept of an earlier read. None exactly where the base
    /// has it in no slot: it has no row then.
    ///
    /// Refuses with `Stopped`; with `DiskFault` where the device failed, and then the replica is stopped; and with `Corrupt` of the
    /// pages where the base's page is not of its form, of its number, and of a position not above the base's: an honest device of a
    /// node shows no such page.
    pub fn base_page(&mut self, page: u32) -> Result<Option<Page>, Refusal>
        ensures asks { Asks D.Disk in_pages self.old self.new result }
        ensures asked { IsAsked D.Disk self.old self.new }
        ensures none { IfOk result (λ found. (found ≡ None → state_of_page self.old.engine.checkpoint.base page ≡ Nowhere) × (state_of_page self.old.engine.checkpoint.base page ≡ Nowhere → found ≡ None)) }
        ensures holds { (n : Node) → Holds D.Disk n self.old → result ≢ Err Refusal.DiskFault → Holds D.Disk n self.new }
        ensures page { (n : Node) → Holds D.Disk n self.old → IfOk result (λ found. IfSome found (IsBasePage self.old.engine.checkpoint.base n.base.content page)) }
        ensures absent { (n : Node) → Holds D.Disk n self.old → self.old.engine.halted ≡ None → state_of_page self.old.engine.checkpoint.base page ≡ Nowhere → HasNoRow self.old.engine.checkpoint.base n.base.content page }
        ensures whole { (n : Node) → Holds D.Disk n self.old → result ≢ Err (Corrupt in_pages) }
        // Whatever stands on an honest device: its bytes decide.
        ensures spelled { D.honest self.old.engine.disk → IsBasePageAsSpelled (reading_of self.old.engine.layout (seen (D.history self.old.engine.disk))) self.old.engine.checkpoint.base page result in_pages }
    {
        if self.is_stopped() {
            return Err(Refusal::Stopped);
        }
        self.engine.base_page(page)
    }
}
