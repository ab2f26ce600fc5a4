//! Items that are handed in together, by several workers.

ghost use Rattle.std.specs.Prelude.{◌≡◌, ◌≢◌, ◌+◌, ◌≤◌, ◌<◌, ◌++◌, ℕ, Some, None, [], max, length, slice_index_or, IfSome, IfOk, IfErr, vec_capacity};
ghost use Rattle.rep_types.specs.declared.refusal.Refusal.TheVariants.{OutOfMemory, Stopped as is_stopped};
ghost use Rattle.rep_ordered.specs.Seats.{seat_of};
ghost use Rattle.rep_ordered.specs.Steps.{Learns};
ghost use Rattle.rep_ordered.specs.Views.{Every, both, giving};
ghost use Rattle.rep_node.specs.Homes.{IsLegal};
ghost use Rattle.rep_node.specs.Seats.{IsSeat, KeptBy, PassedOrStopped, Rests, SeesLegal};
ghost use Rattle.rep_node.specs.Serving.{HandedIn};
ghost use Rattle.rep_node.specs.Jobs.{AreJobs, AreShares, Gathered, IsReady, Worked};

use crate::node::{LockSeat, Node};
use crate::pace::Pace;
use crate::seat::Seat;
use rep_disk::Disk;
use rep_types::{Item, Refusal, Verdict};
use std::alloc::Global;
use std::sync::Wait;
use std::thread::{Threads, for_each_mut};

/// What came of an item that is durable.
#[derive(Clone, Copy, Debug, PartialEq, Eq)]
pub struct Receipt {
    /// Its place in the batch, from 0.
    pub index: usize,
    /// Its seqno.
    pub seqno: u64,
    /// What certification said of it.
    pub verdict: Verdict,
}

/// What came of a batch.
#[derive(Debug, Drop)]
pub struct Batch {
    /// The receipts of the items that are durable, in the order of their seqnos.
    pub receipts: Vec<Receipt>,
    /// Why the batch ended before all of it was durable, if it did.
    pub end: Option<Refusal>,
}

impl Batch {
    /// Nothing came of it.
    pub(crate) fn refused(alloc: Global, refusal: Refusal) -> Batch
        ensures { (result.receipts.items ≡ []) × (result.end ≡ Some refusal) }
    {
        Batch {
            receipts: Vec::new(alloc),
            end: Some(refusal),
        }
    }
}

/// The places of a batch that a worker is to hand in, from the one on and below the other, and room for their receipts.
#[derive(Drop)]
struct Share {
    from: usize,
    to: usize,
    receipts: Vec<Receipt>,
}

/// What a worker does: its seat, its share of the places, the receipts of the items that are durable by now, and why it ended, if it did.
struct Job<D: Disk> {
    seat: LockSeat<D>,
    from: usize,
    to: usize,
    receipts: Vec<Receipt>,
    end: Option<Refusal>,
}

/// Shares out so many places among so many workers, with room for all receipts: the last places first.
fn shares_of(alloc: Global, count: usize, workers: usize) -> Result<Vec<Share>, Refusal>
    requires { 0 < workers }
    ensures shares { IfOk result (λ shares. AreShares count shares.items) }
    ensures refused { IfErr result (λ refusal. refusal ≡ OutOfMemory) }
{
    let size = count.div_ceil(workers);
    let mut shares = Vec::new(alloc);
    let mut to = count;
    while to > 0 {
        let from = to.saturating_sub(size);
        shares.push(Share {
            from,
            to,
            receipts: Vec::with_capacity(alloc, to - from)?,
        })?;
        to = from;
    }
    Ok(shares)
}

impl<D: Disk> Node<D> {
    /// Hands in a worker's items, one after the other, until one is refused. It `keeps` while it waits, or does not.
    fn work<R: Wait, P: Pace>(
        &self,
        rt: &R,
        items: &[Item],
        job: &mut Job<D>,
        pace: &P,
        keeps: bool,
    )
        requires ready { IsReady D.Disk self.now (length items.now) job.old }
        ensures worked { Worked (P.lets pace.now) keeps items.now job.old job.new }
    {
        for place in job.from..job.to {
            match self.submit(rt, &mut job.seat, &items[place], pace, keeps) {
                Ok((seqno, verdict)) => job.receipts.push_reserved(Receipt {
                    index: place,
                    seqno,
                    verdict,
                }),
                Err(refusal) => {
                    job.end = Some(refusal);
                    return;
                }
            }
        }
    }

    /// Splits a seat off for each share, which makes it a job, for which there is room. It takes no memory.
    fn split_off(&self, seat: &mut LockSeat<D>, mut shares: Vec<Share>, jobs: &mut Vec<Job<D>>)
        requires lock { seat.old.lock ≡ self.now }
        requires room { (jobs.old.items ≡ []) × (length shares.items ≤ vec_capacity jobs.old) }
        requires shares { (count : ℕ) × AreShares count shares.items × (count < seat.old.view.allowance) }
        ensures seat { (count : ℕ) → AreShares count shares.items → seat.new ≡ seat_of seat.old.lock (giving count seat.old.view) }
        ensures jobs { (count : ℕ) → AreShares count shares.items → AreJobs seat.old.lock seat.old.view count jobs.new.items }
    {
        while let Some(Share { from, to, receipts }) = shares.pop() {
            let other = self.lock.split(seat, (to - from) as u64);
            jobs.push_reserved(Job {
                seat: other,
                from,
                to,
                receipts,
                end: None,
            });
        }
    }

    /// Takes a job's seat in again and its receipts, for which there is room, and says how it ended.
    fn take_in(
        &self,
        seat: &mut LockSeat<D>,
        job: Job<D>,
        receipts: &mut Vec<Receipt>,
    ) -> Option<Refusal>
        requires lock { (seat.old.lock ≡ self.now) × (job.seat.lock ≡ self.now) }
        requires free { job.seat.view.held ≡ [] }
        requires room { length receipts.old.items + length job.receipts.items ≤ vec_capacity receipts.old }
        ensures lock { seat.new.lock ≡ seat.old.lock }
        ensures joined { Learns (IsLegal seat.old.view.first) job.seat.view.seen (both seat.old.view job.seat.view) seat.new.view }
        ensures halted { seat.new.view.halted ≡ max seat.old.view.halted job.seat.view.halted }
        ensures receipts { (receipts.new.items ≡ receipts.old.items ++ job.receipts.items) × (vec_capacity receipts.old ≤ vec_capacity receipts.new) }
        ensures end { result ≡ job.end }
    {
        let Job {
            seat: other,
            from: _,
            to: _,
            receipts: mut some,
            end,
        } = job;
        self.lock.join(seat, other);
        if receipts.append(&mut some).is_err() {
            unreachable!();
        }
        end
    }
}

impl<D: Disk + Send> Node<D> {
    /// Does the jobs, in so many threads.
    fn work_all<R: Threads + Wait + Sync, P: Pace + Sync>(
        &self,
        rt: &R,
        items: &[Item],
        jobs: &mut [Job<D>],
        workers: usize,
        pace: &P,
        keeps: bool,
    )
        requires workers { 0 < workers }
        requires ready { Every (IsReady D.Disk self.now (length items.now)) jobs.old }
        ensures len { length jobs.new ≡ length jobs.old }
        ensures worked { (i : ℕ) (d : Job D) → i < length jobs.old → Worked (P.lets pace.now) keeps items.now (slice_index_or jobs.old i d) (slice_index_or jobs.new i d) }
    {
        for_each_mut(
            rt,
            jobs,
            workers,
            &|_place: usize, job: &mut Job<D>|
                requires { IsReady D.Disk self.now (length items.now) job.old }
                ensures { Worked (P.lets pace.entry.now) keeps items.entry.now job.old job.new }
            { self.work(rt, items, job, pace, keeps) },
        );
    }

    /// Has the jobs done by so many workers, and takes the seats in again that were split off for them, and all their receipts, for which
    /// there is room. It says why one of them ended, if one did.
    fn run<R: Threads + Wait + Sync, P: Pace + Sync>(
        &self,
        rt: &R,
        seat: &mut LockSeat<D>,
        items: &[Item],
        mut jobs: Vec<Job<D>>,
        receipts: &mut Vec<Receipt>,
        workers: usize,
        pace: &P,
        keeps: bool,
    ) -> Option<Refusal>
        requires lock { seat.old.lock ≡ self.now }
        requires seat { IsSeat D.Disk seat.old.view }
        requires free { seat.old.view.held ≡ [] }
        requires runs { seat.old.view.halted ≡ 0 }
        requires sees { SeesLegal seat.old.view seat.old.view }
        requires passed { PassedOrStopped seat.old.view }
        requires workers { 0 < workers }
        requires room { (receipts.old.items ≡ []) × (length items.now ≤ vec_capacity receipts.old) }
        requires jobs { AreJobs self.now seat.old.view (length items.now) jobs.items }
        ensures lock { seat.new.lock ≡ seat.old.lock }
        ensures gathered { Gathered (P.lets pace.now) keeps items.now 0 (length items.now) seat.old.view seat.new.view receipts.new.items result }
    {
        self.work_all(rt, items, jobs.as_mut_slice(), workers, pace, keeps);
        let mut end = None;
        while let Some(job) = jobs.pop() {
            end = self.take_in(seat, job, receipts).or(end);
        }
        jobs.destroy_empty();
        end
    }

    /// Hands in a batch by a seat that may draw more seqnos than there are items, and that knows of no halt.
    fn submit_shared<R: Threads + Wait + Sync, P: Pace + Sync>(
        &self,
        rt: &R,
        alloc: Global,
        seat: &mut LockSeat<D>,
        items: &[Item],
        workers: usize,
        pace: &P,
        keeps: bool,
    ) -> Result<Batch, Refusal>
        requires lock { seat.old.lock ≡ self.now }
        requires rests { (allowance : ℕ) × Rests D.Disk seat.old.view allowance }
        requires allowance { length items.now < seat.old.view.allowance }
        requires runs { seat.old.view.halted ≡ 0 }
        requires workers { 0 < workers }
        ensures lock { seat.new.lock ≡ seat.old.lock }
        ensures seat { IsSeat D.Disk seat.new.view }
        ensures sees { SeesLegal seat.new.view seat.new.view }
        ensures handed_in { IfOk result (HandedIn (P.lets pace.now) items.now (length items.now) seat.old.view seat.new.view) }
        ensures kept { KeptBy keeps seat.old.view seat.new.view }
        ensures runs { IfOk result (λ batch. batch.end ≡ None → seat.new.view.halted ≡ 0) }
        ensures stopped { IfOk result (λ batch. IfSome batch.end (λ refusal. (refusal ≡ is_stopped) × (seat.new.view.halted ≡ 1))) }
        ensures refused { IfErr result (λ refusal. (refusal ≡ OutOfMemory) × (seat.new ≡ seat.old)) }
    {
        let shares = shares_of(alloc, items.len(), workers)?;
        let mut receipts = Vec::with_capacity(alloc, items.len())?;
        let mut jobs = Vec::with_capacity(alloc, shares.len())?;
        self.split_off(seat, shares, &mut jobs);
        let end = self.run(rt, seat, items, jobs, &mut receipts, workers, pace, keeps);
        receipts.sort_unstable_by_key(|receipt| receipt.seqno);
        Ok(Batch { receipts, end })
    }

    /// Hands in a batch, as `submit_batch` does, or as `serve` does where the workers keep.
    fn hand_in<R: Threads + Wait + Sync, P: Pace + Sync>(
        &self,
        rt: &R,
        alloc: Global,
        seat: &mut Seat<D>,
        items: &[Item],
        workers: usize,
        pace: &P,
        keeps: bool,
    ) -> Batch
        requires lock { seat.old.lock ≡ self.now }
        requires workers { (0 < workers) × (workers ≤ 64) }
        ensures lock { seat.new.lock ≡ seat.old.lock }
        ensures handed_in { HandedIn (P.lets pace.now) items.now (length items.now) seat.old.view seat.new.view result }
        ensures kept { KeptBy keeps seat.old.view seat.new.view }
        ensures runs { result.end ≢ Some is_stopped → seat.new.view.halted ≡ 0 }
    {
        // Tells the proof what holds of every seat.
        seat.is_one();
        if self.is_halted(seat) {
            return Batch::refused(alloc, Refusal::Stopped);
        }
        if seat.allowance <= items.len() as u64 {
            return Batch::refused(alloc, Refusal::Exhausted);
        }
        match self.submit_shared(rt, alloc, &mut seat.seat, items, workers, pace, keeps) {
            Ok(batch) => {
                seat.allowance -= items.len() as u64;
                batch
            }
            Err(refusal) => Batch::refused(alloc, refusal),
        }
    }

    /// Hands in a batch of items by so many workers, 1 to 64, each in a thread of its own where there is one: each draws a seqno for
    /// its next item, waits until that is at most 256 above what is durable, has it judged and queued, and waits until it is durable. The
    /// pace is asked behind each step, and says whether it goes on.
    ///
    /// The end is `Exhausted` where the seat has no more seqnos left than there are items, and `OutOfMemory` where a growth was refused:
    /// then no seqno was drawn. It is `Stopped` where the node was halted, which a worker does where the pace says no: of an item without a
    /// receipt it is then not known whether it stands in the history; it stands there at most once, and unchanged. Where the end is not
    /// `Stopped`, the seat knows of no halt.
    ///
    /// It is not promised that it returns: somebody has to make items durable, by `keep`.
    pub fn submit_batch<R: Threads + Wait + Sync, P: Pace + Sync>(
        &self,
        rt: &R,
        alloc: Global,
        seat: &mut Seat<D>,
        items: &[Item],
        workers: usize,
        pace: &P,
    ) -> Batch
        requires lock { seat.old.lock ≡ self.now }
        requires workers { (0 < workers) × (workers ≤ 64) }
        ensures lock { seat.new.lock ≡ seat.old.lock }
        ensures handed_in { HandedIn (P.lets pace.now) items.now (length items.now) seat.old.view seat.new.view result }
        ensures goes { seat.new.view.given_up ≡ seat.old.view.given_up }
        ensures runs { result.end ≢ Some is_stopped → seat.new.view.halted ≡ 0 }
    {
        self.hand_in(rt, alloc, seat, items, workers, pace, false)
    }

    /// Hands in a batch as `submit_batch` does, by workers that make items durable themselves: of those who wait for their item one keeps, as
    /// `keep` does, for all others too, shows the items to readers, and runs a checkpoint where the log is full. Once its own item is durable
    /// another one takes that over.
    ///
    /// The end is as with `submit_batch`, but that a worker halts the node also where the device fails, where a page of the base is not of its
    /// form, or where there is no memory for the log's work.
    ///
    /// It is not promised that it returns.
    pub fn serve<R: Threads + Wait + Sync, P: Pace + Sync>(
        &self,
        rt: &R,
        alloc: Global,
        seat: &mut Seat<D>,
        items: &[Item],
        workers: usize,
        pace: &P,
    ) -> Batch
        requires lock { seat.old.lock ≡ self.now }
        requires workers { (0 < workers) × (workers ≤ 64) }
        ensures lock { seat.new.lock ≡ seat.old.lock }
        ensures handed_in { HandedIn (P.lets pace.now) items.now (length items.now) seat.old.view seat.new.view result }
        ensures runs { result.end ≢ Some is_stopped → seat.new.view.halted ≡ 0 }
    {
        self.hand_in(rt, alloc, seat, items, workers, pace, true)
    }
}
