//! The way of an item: it is numbered, judged, queued, and waited for.

ghost use Rattle.std.specs.Prelude.{◌≡◌, ℕ, ◌+◌, ◌<◌, ◌≤◌, ◌∷◌, [], IfOk, IfErr, OnOk, List};
ghost use Rattle.rep_types.specs.declared.judged.Judged.{Judged as Entry};
ghost use Rattle.rep_ordered.specs.declared.view.Joined.{Joined};
ghost use Rattle.rep_ordered.specs.Views.{Later, reached_at};
ghost use Rattle.rep_ordered.specs.Going.{Went};
ghost use Rattle.rep_node.specs.Batches.{LetsOn};
ghost use Rattle.rep_node.specs.Seats.{Drew, DrewOne, IsSeat, PassedOrStopped, Joins, SeesLegal, WentIdle, IsGiven, KeptBy, own_entry};

use crate::home::Home;
use crate::node::{LockSeat, Node};
use crate::pace::{Pace, Point};
use crate::parts::{certifier_of, queue_of};
use rep_disk::Disk;
use rep_stations::{histories_go_on, judge_next};
use rep_types::{Item, Judged, MAX_AHEAD, MAX_SEQNO, Refusal, Verdict};
use std::sync::Wait;

impl<D: Disk> Node<D> {
    /// Judges the item at this number: it joins the history there.
    fn certify<R: Wait>(
        &self,
        rt: &R,
        seat: &mut LockSeat<D>,
        ticket: u64,
        item: Item,
    ) -> Result<Judged, Refusal>
        requires lock { seat.old.lock ≡ self.now }
        requires seat { IsSeat D.Disk seat.old.view }
        requires free { seat.old.view.held ≡ [] }
        requires ticket { Drew ticket seat.old.view × (ticket ≤ MAX_SEQNO) }
        requires room { ticket ≤ seat.old.view.durable + MAX_AHEAD }
        ensures lock { seat.new.lock ≡ seat.old.lock }
        ensures went { Went seat.old.view seat.new.view }
        ensures own { (seat.new.view.own ≡ seat.old.view.own) × (seat.new.view.given_up ≡ seat.old.view.given_up) }
        ensures joined { IfOk result (λ judged. (judged.item ≡ item) × (judged.seqno ≡ ticket) × (seat.new.view.joined ≡ own_entry judged ∷ seat.old.view.joined)) }
        ensures none { IfErr result (λ refusal. seat.new.view.joined ≡ seat.old.view.joined) }
        ensures stopped { IfErr result (λ refusal. (refusal ≡ Refusal.Stopped) × (seat.new.view.halted ≡ 1) × SeesLegal seat.old.view seat.new.view) }
    {
        histories_go_on();
        let home = self.lock.enter(rt, seat, 0, ticket)?;
        let mut certifier = certifier_of(home);
        let Ok(judged) = judge_next(&mut certifier, item) else {
            unreachable!()
        };
        let entry = Some(judged);
        self.lock.leave(seat, 0, Home::Certifier(certifier), &entry);
        Ok(entry.unwrap())
    }

    /// Puts the item that was judged last among those that wait for the engine.
    fn queue<R: Wait>(&self, rt: &R, seat: &mut LockSeat<D>, judged: Judged) -> Result<(), Refusal>
        requires lock { seat.old.lock ≡ self.now }
        requires seat { IsSeat D.Disk seat.old.view }
        requires free { seat.old.view.held ≡ [] }
        requires ticket { Drew judged.seqno seat.old.view }
        requires room { judged.seqno ≤ seat.old.view.durable + MAX_AHEAD }
        requires judged { (others : List (Joined Entry)) × (seat.old.view.joined ≡ own_entry judged ∷ others) }
        ensures lock { seat.new.lock ≡ seat.old.lock }
        ensures went { Went seat.old.view seat.new.view }
        ensures own { (seat.new.view.own ≡ seat.old.view.own) × (seat.new.view.joined ≡ seat.old.view.joined) × (seat.new.view.given_up ≡ seat.old.view.given_up) }
        ensures passed { OnOk result (judged.seqno < reached_at 2 seat.new.view.reached) }
        ensures stopped { IfErr result (λ refusal. (refusal ≡ Refusal.Stopped) × (seat.new.view.halted ≡ 1) × SeesLegal seat.old.view seat.new.view) }
    {
        histories_go_on();
        let home = self.lock.enter(rt, seat, 2, judged.seqno)?;
        let mut queue = queue_of(home);
        if queue.backlog.push(judged).is_err() {
            unreachable!();
        }
        self.lock.leave(seat, 2, Home::Queue(queue), &None);
        self.changes.keepers.notify_all();
        Ok(())
    }

    /// Goes on where the pace says so, and halts the node where it does not.
    fn paced<P: Pace>(
        &self,
        seat: &mut LockSeat<D>,
        pace: &P,
        point: Point,
        seqno: u64,
    ) -> Result<(), Refusal>
        requires lock { seat.old.lock ≡ self.now }
        ensures lock { seat.new.lock ≡ seat.old.lock }
        ensures later { Later seat.old.view seat.new.view }
        ensures same { OnOk result (seat.new ≡ seat.old) }
        ensures lets { OnOk result (P.lets pace.now point seqno) }
        ensures stopped { IfErr result (λ refusal. (refusal ≡ Refusal.Stopped) × (seat.new.view.halted ≡ 1) × SeesLegal seat.old.view seat.new.view) }
    {
        if pace.at(point, seqno) {
            return Ok(());
        }
        self.changes.halt(&self.lock, seat);
        Err(Refusal::Stopped)
    }

    /// Waits until so many items are durable. Who `keeps` takes the lead, where nobody who waits has it, and makes them durable himself, with
    /// the items of the others.
    ///
    /// Refuses with `Stopped` where the node was halted, which who keeps does himself as `keep_on` does. It is not promised that it returns.
    fn wait_durable<R: Wait>(
        &self,
        rt: &R,
        seat: &mut LockSeat<D>,
        least: u64,
        keeps: bool,
    ) -> Result<(), Refusal>
        requires lock { seat.old.lock ≡ self.now }
        requires seat { IsSeat D.Disk seat.old.view }
        requires free { seat.old.view.held ≡ [] }
        ensures lock { seat.new.lock ≡ seat.old.lock }
        ensures idle { WentIdle seat.old.view seat.new.view }
        ensures kept { KeptBy keeps seat.old.view seat.new.view }
        ensures durable { OnOk result ((least ≤ seat.new.view.durable) × (seat.new.view.halted ≡ 0)) }
        ensures stopped { IfErr result (λ refusal. (refusal ≡ Refusal.Stopped) × (seat.new.view.halted ≡ 1)) }
    {
        for _ in rt.forever() {
            let sleep = self.changes.announced(keeps);
            let front = self.lock.front(seat);
            if front.halted {
                return Err(Refusal::Stopped);
            }
            if front.durable >= least {
                return Ok(());
            }
            if keeps && self.changes.lead() {
                drop(sleep);
                let kept = self.keep_on(rt, seat, least);
                self.changes.resign();
                return kept;
            }
            sleep.wait(rt);
        }
        unreachable!()
    }

    /// Hands in an item, and waits until it is durable: its entry is then the seat's own, and stands in the history. At most 256 items
    /// are judged and not yet durable. It gives the item's seqno and its verdict. Who `keeps` makes items durable while he waits, if nobody
    /// else who waits does; else somebody has to.
    ///
    /// Refuses with `Stopped` where the node was halted, which it does itself where the pace says no, and who keeps as `keep_on` does. The item
    /// may then stand in the history or not, but not as another.
    ///
    /// It is not promised that it returns.
    pub(crate) fn submit<R: Wait, P: Pace>(
        &self,
        rt: &R,
        seat: &mut LockSeat<D>,
        item: &Item,
        pace: &P,
        keeps: bool,
    ) -> Result<(u64, Verdict), Refusal>
        requires lock { seat.old.lock ≡ self.now }
        requires seat { IsSeat D.Disk seat.old.view }
        requires free { seat.old.view.held ≡ [] }
        requires allowance { 0 < seat.old.view.allowance }
        ensures lock { seat.new.lock ≡ seat.old.lock }
        ensures drawn { (number : ℕ) × DrewOne D.Disk number seat.old.view seat.new.view × IfOk result (λ given. given.0 ≡ number) }
        ensures joined { Joins item.now seat.old.view seat.new.view }
        ensures sees { SeesLegal seat.old.view seat.new.view }
        ensures receipt { IfOk result (λ given. IsGiven item.now given.0 given.1 seat.old.view seat.new.view) }
        ensures passed { PassedOrStopped seat.old.view → PassedOrStopped seat.new.view }
        ensures kept { KeptBy keeps seat.old.view seat.new.view }
        ensures runs { IfOk result (λ _. seat.new.view.halted ≡ 0) }
        ensures paced { IfOk result (λ given. LetsOn (P.lets pace.now) given.0) }
        ensures stopped { IfErr result (λ refusal. (refusal ≡ Refusal.Stopped) × (seat.new.view.halted ≡ 1)) }
    {
        let ticket = self.lock.claim(seat);
        self.paced(seat, pace, Point::Claimed, ticket)?;
        self.wait_durable(rt, seat, ticket.saturating_sub(u64::from(MAX_AHEAD)), keeps)?;
        let judged = self.certify(rt, seat, ticket, item.copied())?;
        let verdict = judged.verdict;
        self.paced(seat, pace, Point::Certified, ticket)?;
        self.queue(rt, seat, judged)?;
        self.paced(seat, pace, Point::Queued, ticket)?;
        self.wait_durable(rt, seat, ticket, keeps)?;
        Ok((ticket, verdict))
    }
}
