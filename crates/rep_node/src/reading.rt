//! Reads beside a node that runs.

ghost use Rattle.std.specs.Prelude.{◌≡◌, ◌≢◌, ◌⊎◌, ◌↔◌, ◌∷◌, [], List, true, false, None, Err, IsSome, IfOk, IfErr};
ghost use mathlib.Core.List.{IsPrefix};
ghost use Rattle.rep_types.specs.declared.judged.Judged.{Judged as Entry};
ghost use Rattle.rep_types.specs.declared.refusal.Refusal.TheVariants.{BadKey, DiskFault, Stopped as is_stopped};
ghost use Rattle.rep_types.specs.Settings.{has_row};
ghost use Rattle.rep_cert.specs.Holdings.{Holding, Holdings};
ghost use Rattle.rep_steps.specs.declared.event.Event.TheVariants.{Read};
ghost use Rattle.rep_steps.specs.Moves.{Moves};
ghost use Rattle.rep_engine.specs.Engines.{Engine as Contents, facts_of, OnlyAsks};
ghost use Rattle.rep_engine.specs.Holding.{row};
ghost use Rattle.rep_snap.specs.Views.{Watching, longer};
ghost use Rattle.rep_snap.specs.Looks.{IsPeek, IsFront};
ghost use Rattle.rep_snap.specs.Doors.{FoundShut};
ghost use Rattle.rep_stations.specs.Taking.{HasTaken};
ghost use Rattle.rep_ordered.specs.Views.{HasAll};
ghost use Rattle.rep_node.specs.Homes.{Start, values_of};
ghost use Rattle.rep_node.specs.Seats.{IsSeat, PassedOrStopped, WentIdle};
ghost use Rattle.rep_node.specs.Reading.{allowed, AsksEngine, EngineRefuses, IsReaderOf, IsRowAt, IsRowOf, Reads, Refuses, RefusesAsked};

use crate::node::{LockSeat, Node};
use crate::origin::Origin;
use crate::seat::Seat;
use rep_disk::Disk;
use rep_engine::Engine;
use rep_snap::{Door, Peek, Reader, Told, TwoCopies, peeks_follow_the_fold};
use rep_stations::{histories_extend_the_order, histories_go_on, taken_items_stay};
use rep_types::{Key, Params, Refusal, Schema, Value, history_by_items};
use rep_versions::versions_follow_the_items;
use std::marker::Model;
use std::sync::Wait;

/// Reads rows beside a node that threads run: of the published list where that has them, and it waits for nobody then, else of the engine.
///
/// It is proved for every door of its reader, and has the one to the node's two copies.
#[derive(Drop)]
pub struct NodeReader<W: Door<Origin> + Drop = TwoCopies<Origin>> {
    pub(crate) reader: Reader<Origin, W>,
    /// The node's, so that a key outside the schema is known before the reader looks.
    pub(crate) params: Params,
}

impl<W: Door<Origin> + Drop> Model for NodeReader<W> {
    ghost use Rattle.rep_snap.specs.Views.{Watching};
    ghost use Rattle.rep_node.specs.declared.origin.Origin.{Origin};
    ghost use Rattle.rep_node.specs.Reading.{AreParams};

    ghost Value = { Watching Origin };

    ghost view = { λ r. r.reader };

    ghost invariant = { λ r. AreParams r.params r.reader.basis.certifier.log };
}

impl<W: Door<Origin> + Drop> NodeReader<W> {
    /// The tables of the node.
    pub fn schema(&self) -> &Schema
        ensures { (c : Holdings) → self.now.basis.certifier.log ≡ c ∷ [] → result.now ≡ c.current.setting.rows }
    {
        self.params.schema()
    }

    /// The front of the published list that it finds as it looks: the last seqno, or the position at which the node was started. Where the
    /// node is closed it is that of the list that the reader saw last. It takes no memory and waits for nobody.
    pub fn front(self) -> (NodeReader<W>, u64)
        ensures same { (result.0.book ≡ self.book) × (result.0.basis ≡ self.basis) × (result.0.start ≡ self.start) }
        ensures front { IsFront allowed (FoundShut W.knows W.shut) self result.0 result.1 }
    {
        let NodeReader { reader, params } = self;
        let (reader, front) = reader.front();
        (NodeReader { reader, params }, front)
    }

    /// Takes in what the node's keeper told: each list that it finds from now on begins with that. It takes no memory and waits for nobody.
    pub fn learn(&mut self, told: &Told)
        requires own { told.now.book ≡ self.old.book }
        ensures learnt { self.new ≡ record self.old { told = longer self.old.told told.now.list } }
        ensures before { IsPrefix self.old.told self.new.told }
        ensures told { IsPrefix told.now.list self.new.told }
    {
        self.reader.learn(told);
    }

    /// What the row is at the snapshot of this seqno, in the published list that it finds as it looks. The list begins with all that the
    /// reader saw and was told. It takes no memory and waits for nobody.
    ///
    /// Refuses, in this order: with `BadKey` outside the schema; with `Closed` once the node is closed; with `NotYet` and the front of the
    /// list where the snapshot is above it; with `TooOld` and the oldest snapshot where it is below that.
    pub fn peek(self, key: Key, snapshot: u64) -> (NodeReader<W>, Result<Peek, Refusal>)
        ensures same { (result.0.book ≡ self.book) × (result.0.basis ≡ self.basis) × (result.0.start ≡ self.start) }
        ensures outside { (c : Holdings) → self.basis.certifier.log ≡ c ∷ [] → (result.1 ≡ Err BadKey) ↔ (has_row c.current.setting.rows key ≡ false) }
        ensures answer { ((result.1 ≡ Err BadKey) × (result.0 ≡ self)) ⊎ IsPeek allowed (FoundShut W.knows W.shut) self key snapshot result.0 result.1 }
    {
        let NodeReader { reader, params } = self;
        if !params.schema().contains(key) {
            return (NodeReader { reader, params }, Err(Refusal::BadKey));
        }
        let (reader, answer) = reader.peek(key, snapshot);
        (NodeReader { reader, params }, answer)
    }
}

/// What the engine says that stands under the key in the state after so many items, if anything does.
fn look_up<D: Disk>(engine: &mut Engine<D>, key: Key, at: u64) -> Result<Option<Value>, Refusal>
    requires { engine.old.halted ≡ None }
    ensures taken { (first : Contents D) → (c : Holding) → (items : List Entry) → HasTaken D.Disk first c items engine.old → HasTaken D.Disk first c items engine.new }
    ensures still { OnlyAsks engine.old engine.new }
    ensures moves { Moves (facts_of D.Disk engine.old) (Read key at) (row result) (facts_of D.Disk engine.new) }
    ensures row { IfOk result (IsRowAt D.Disk engine.old key at) }
    ensures refused { IfErr result (EngineRefuses D.Disk engine.old key at) }
    ensures stops { (result ≡ Err DiskFault → IsSome engine.new.halted) × ((result ≡ Err DiskFault) ⊎ (engine.new.halted ≡ None)) }
{
    taken_items_stay::<D>();
    histories_extend_the_order::<D>();
    // Tells the proof what holds of the engine.
    let _durable = engine.durable();
    engine.read(key, at)
}

impl<D: Disk> Seat<D> {
    /// Tells the proof what holds of every seat.
    pub(crate) fn is_one(&self)
        ensures seat { IsSeat D.Disk self.now.view }
        ensures idle { WentIdle self.now.view self.now.view }
        ensures passed { PassedOrStopped self.now.view }
    {
        let _seat = &self.seat;
    }
}

impl<D: Disk> Node<D> {
    /// What the engine says that stands under the key in the state after so many items, if anything does.
    ///
    /// Refuses with `Stopped` where the node was halted; with `NotYet` above what is durable; with `TooOld` below the base; with `DiskFault`
    /// where the device failed, and then the node is halted; and with `Corrupt` of the pages where the page that is read is not of its form.
    fn ask<R: Wait>(
        &self,
        rt: &R,
        seat: &mut LockSeat<D>,
        key: Key,
        at: u64,
    ) -> Result<Option<Value>, Refusal>
        requires lock { seat.old.lock ≡ self.now }
        requires seat { IsSeat D.Disk seat.old.view }
        requires free { seat.old.view.held ≡ [] }
        requires inside { (s : Start D) → seat.old.view.first ≡ values_of s → has_row s.certifier.current.setting.rows key ≡ true }
        ensures lock { seat.new.lock ≡ seat.old.lock }
        ensures idle { WentIdle seat.old.view seat.new.view }
        ensures asked { AsksEngine D.Disk seat.old.view seat.new.view key at result }
        ensures row { IfOk result (λ row. (s : Start D) → seat.old.view.first ≡ values_of s → (r : Watching Origin) → IsRowOf D.Disk s seat.new.view r key at row) }
        ensures refused { IfErr result (RefusesAsked D.Disk seat.old.view seat.new.view key at) }
        ensures goes { result ≢ Err DiskFault → seat.new.view.given_up ≡ seat.old.view.given_up }
        ensures runs { result ≢ Err DiskFault → result ≢ Err is_stopped → seat.new.view.halted ≡ seat.old.view.halted }
        ensures last { HasAll seat.old.view → result ≢ Err DiskFault → seat.new.view.halted ≡ seat.old.view.halted }
    {
        histories_go_on();
        let mut desk = self.enter_desk(rt, seat)?;
        let row = look_up(desk.engine.get_mut(), key, at);
        if desk.engine.get().is_stopped() {
            self.give_desk_up(seat, desk);
            return row;
        }
        self.leave_desk(seat, desk);
        row
    }

    /// What stands under the key in the state after so many items of the order, if anything does: of the published list where that has a
    /// write of the row at or below the position, and nobody is waited for then; else the engine is asked, once it is free.
    ///
    /// Refuses, in this order: with `BadKey` outside the schema; with `Closed` once the node is closed; with `NotYet` and the front of the
    /// published list where the position is above it; with `TooOld` and the oldest snapshot where it is below that. Where the engine is asked,
    /// it is refused with `Stopped` where the node was halted; with `NotYet` and what is durable where that is below the position; with
    /// `TooOld` and the base where that moved above the position meanwhile; with `DiskFault` where the device failed, and then the node is
    /// halted; and with `Corrupt` of the pages where the page that is read is not of its form, which does not happen on an honest device.
    ///
    /// It does not halt the node but where the device failed, and where the engine is not asked the seat is as it was.
    ///
    /// It takes no memory. It is not promised that it returns where the engine is asked.
    pub fn read<R: Wait, W: Door<Origin> + Drop>(
        &self,
        rt: &R,
        seat: &mut Seat<D>,
        reader: NodeReader<W>,
        key: Key,
        at: u64,
    ) -> (NodeReader<W>, Result<Option<Value>, Refusal>)
        requires lock { seat.old.lock ≡ self.now }
        requires own { IsReaderOf seat.old.view reader }
        ensures lock { seat.new.lock ≡ seat.old.lock }
        ensures idle { WentIdle seat.old.view seat.new.view }
        ensures same { result.0 ≡ record reader { seen = result.0.seen } }
        ensures seen { IsPrefix reader.seen result.0.seen }
        ensures outside { (s : Start D) → seat.old.view.first ≡ values_of s → (result.1 ≡ Err BadKey) ↔ (has_row s.certifier.current.setting.rows key ≡ false) }
        ensures reads { Reads D.Disk seat.old.view seat.new.view key at (FoundShut W.knows W.shut) reader result.0 result.1 }
        ensures row { IfOk result.1 (λ row. (s : Start D) → seat.old.view.first ≡ values_of s → IsRowOf D.Disk s seat.new.view result.0 key at row) }
        ensures refused { IfErr result.1 (Refuses D.Disk seat.old.view seat.new.view key at (FoundShut W.knows W.shut) reader result.0) }
        ensures goes { result.1 ≢ Err DiskFault → seat.new.view.given_up ≡ seat.old.view.given_up }
        ensures runs { result.1 ≢ Err DiskFault → result.1 ≢ Err is_stopped → seat.new.view.halted ≡ seat.old.view.halted }
        ensures last { HasAll seat.old.view → result.1 ≢ Err DiskFault → seat.new.view.halted ≡ seat.old.view.halted }
    {
        peeks_follow_the_fold();
        versions_follow_the_items();
        history_by_items();
        histories_extend_the_order::<D>();
        seat.is_one();
        let (reader, peek) = reader.peek(key, at);
        match peek {
            Ok(Peek::Cold) => {
                let row = self.ask(rt, &mut seat.seat, key, at);
                (reader, row)
            }
            Ok(Peek::Value(value)) => (reader, Ok(Some(value))),
            Ok(Peek::Absent) => (reader, Ok(None)),
            Err(refusal) => (reader, Err(refusal)),
        }
    }
}
