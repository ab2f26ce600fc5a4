//! Commands, each answered by one line at what is durable.

ghost use Rattle.std.specs.Prelude.{◌≡◌, ◌≤◌, ◌==◌, if◌then◌else◌, length, None, Some, Ok, Err, [], OnOk, IfErr, MatchResult};
ghost use Rattle.rep_types.specs.declared.refusal.Refusal.TheVariants.{OutOfOrder};
ghost use Rattle.rep_streams.specs.Streams.{Notes};
ghost use Rattle.rep_requests.specs.Requests.{said_of};
ghost use Rattle.rep_replica.specs.Replicas.{facts_of};
ghost use Rattle.rep_script.specs.Summing.{position_of};
ghost use Rattle.rep_service.specs.Commanding.{EndsNode, Refuses, TellsRows, TellsSumOf, TellsDonation, TellsOwn, IsStateOf, IsLimitsOf, IsLevelOf, AreCountersOf, awaited, ComesOf, done_of, DoesAt};

use crate::counters::{Level, write_level};
use crate::donating::donate_between;
use crate::exchange::Exchange;
use crate::rows::{read_rows, write_rows};
use crate::syncs::CountsSyncs;
use rep_disk::Disk;
use rep_follow::{Counts, commit};
use rep_replica::Replica;
use rep_requests::Request;
use rep_script::{donated_text, write_limits, write_refused, write_state, write_sum};
use rep_steps::nodes_hold_the_order;
use rep_streams::Sink;
use rep_sum::sum_at;
use rep_types::{Item, Key, Refusal};
use std::alloc::Global;

/// Writes the line of a refusal that the node goes on behind. Where the device failed or the node is stopped, that is handed back, and ends it.
///
/// Refuses with that, and with `StreamFault` a writer that fails, which it notes.
fn refuse<W: Sink>(writer: &mut W, refusal: Refusal) -> Result<(), Refusal>
    ensures refuses { Refuses refusal (W.contents writer.old) (W.contents writer.new) result }
    ensures notes { Notes (W.failed writer.old) (W.failed writer.new) result }
    ensures ends { IfErr result EndsNode }
{
    match refusal {
        Refusal::DiskFault | Refusal::Stopped => Err(refusal),
        _ => write_refused(writer, refusal),
    }
}

/// Writes the line of the rows of these keys, all at what is durable; where one is refused, the line of that refusal.
///
/// Refuses with `Stopped`; with `DiskFault` where the device fails; and with `StreamFault` a writer that fails, which it notes.
fn answer_rows<D: Disk, W: Sink>(
    replica: &mut Replica<D>,
    keys: &[Key],
    writer: &mut W,
) -> Result<(), Refusal>
    requires { length keys.now ≤ 16 }
    ensures ahead { (facts_of D.Disk replica.old).ahead ≡ [] → OnOk result ((facts_of D.Disk replica.new).ahead ≡ []) }
    ensures tells { TellsRows D.Disk keys.now replica.old replica.new (W.contents writer.old) (W.contents writer.new) result }
    ensures notes { Notes (W.failed writer.old) (W.failed writer.new) result }
    ensures ends { IfErr result EndsNode }
{
    let at = replica.durable();
    match read_rows(replica, keys, at) {
        Ok(rows) => write_rows(writer, at, rows.as_slice()),
        Err(refusal) => refuse(writer, refusal),
    }
}

/// Writes the line of the state at what is durable; where there is no memory for its window, the line of that refusal.
///
/// Refuses with `StreamFault` a writer that fails, which it notes.
fn answer_state<D: Disk, W: Sink>(
    alloc: Global,
    replica: &Replica<D>,
    writer: &mut W,
) -> Result<(), Refusal>
    ensures tells { TellsOwn (IsStateOf D.Disk replica.now) (W.contents writer.old) (W.contents writer.new) result }
    ensures notes { Notes (W.failed writer.old) (W.failed writer.new) result }
    ensures refused { IfErr result (λ e. e ≡ Refusal.StreamFault) }
{
    nodes_hold_the_order();
    match replica.window(alloc) {
        Ok(window) => write_state(writer, replica, window.entries()),
        Err(refusal) => write_refused(writer, refusal),
    }
}

/// Writes the line of the limits of the window at what is durable; where there is no memory for the window, the line of that refusal.
///
/// Refuses with `StreamFault` a writer that fails, which it notes.
fn answer_limits<D: Disk, W: Sink>(
    alloc: Global,
    replica: &Replica<D>,
    writer: &mut W,
) -> Result<(), Refusal>
    ensures tells { TellsOwn (IsLimitsOf D.Disk replica.now) (W.contents writer.old) (W.contents writer.new) result }
    ensures notes { Notes (W.failed writer.old) (W.failed writer.new) result }
    ensures refused { IfErr result (λ e. e ≡ Refusal.StreamFault) }
{
    nodes_hold_the_order();
    match replica.window(alloc) {
        Ok(window) => write_limits(writer, &window),
        Err(refusal) => write_refused(writer, refusal),
    }
}

/// The position of a sum: this one, or what is durable.
fn position_of<D: Disk>(replica: &Replica<D>, position: Option<u64>) -> u64
    ensures { result ≡ position_of D.Disk replica.now position }
{
    match position {
        Some(position) => position,
        None => replica.durable(),
    }
}

/// Writes the line of the sum of the rows at the position, or at what is durable; where it is refused, the line of that refusal.
///
/// Refuses with `Stopped`; with `DiskFault` where the device fails; and with `StreamFault` a writer that fails, which it notes.
fn answer_sum<D: Disk, W: Sink>(
    replica: &mut Replica<D>,
    position: Option<u64>,
    writer: &mut W,
) -> Result<(), Refusal>
    ensures ahead { (facts_of D.Disk replica.old).ahead ≡ [] → OnOk result ((facts_of D.Disk replica.new).ahead ≡ []) }
    ensures tells { TellsSumOf D.Disk position replica.old replica.new (W.contents writer.old) (W.contents writer.new) result }
    ensures notes { Notes (W.failed writer.old) (W.failed writer.new) result }
    ensures ends { IfErr result EndsNode }
{
    let at = position_of(replica, position);
    match sum_at(replica, at) {
        Ok(sum) => write_sum(writer, &sum),
        Err(refusal) => refuse(writer, refusal),
    }
}

/// Where the replica stands, and how often its device was synced.
fn level_of<D: Disk + CountsSyncs>(replica: &Replica<D>) -> Level
    ensures level { IsLevelOf D.Disk replica.now result }
    ensures syncs { result.syncs ≡ D.CountsSyncs.synced replica.now.engine.disk }
{
    Level {
        delivered: replica.delivered(),
        durable: replica.durable(),
        base: replica.base(),
        cells_live: replica.cells_live(),
        cells: u64::from(replica.params().cells()),
        syncs: replica.disk().syncs(),
    }
}

/// Writes the line of the counters.
///
/// Refuses with `StreamFault` a writer that fails, which it notes.
fn answer_counters<D: Disk + CountsSyncs, W: Sink>(
    replica: &Replica<D>,
    counts: &Counts,
    writer: &mut W,
) -> Result<(), Refusal>
    ensures tells { TellsOwn (AreCountersOf D.Disk replica.now counts.now) (W.contents writer.old) (W.contents writer.new) result }
    ensures notes { Notes (W.failed writer.old) (W.failed writer.new) result }
    ensures refused { IfErr result (λ e. e ≡ Refusal.StreamFault) }
{
    write_level(writer, &level_of(replica), counts)
}

/// Writes the line of what is wrong with a line.
///
/// Refuses with `StreamFault` a writer that fails, which it notes.
fn answer_wrong<W: Sink>(refusal: Refusal, writer: &mut W) -> Result<(), Refusal>
    ensures tells { TellsOwn (λ said. ⊥) (W.contents writer.old) (W.contents writer.new) result }
    ensures notes { Notes (W.failed writer.old) (W.failed writer.new) result }
    ensures refused { IfErr result (λ e. e ≡ Refusal.StreamFault) }
{
    write_refused(writer, refusal)
}

/// Makes all that was delivered durable, and writes a transfer under the second name for the joiner that has what stands under the first; then the line
/// of that, or of its refusal.
///
/// Refuses as `commit` does; with `DiskFault` where the device fails; and with `StreamFault` a writer that fails, which it notes.
fn answer_donate<D: Disk, W: Sink, E: Exchange>(
    replica: &mut Replica<D>,
    exchange: &mut E,
    counts: &mut Counts,
    have: &[u8],
    name: &[u8],
    writer: &mut W,
) -> Result<(), Refusal>
    ensures ahead { (facts_of D.Disk replica.old).ahead ≡ [] → OnOk result ((facts_of D.Disk replica.new).ahead ≡ []) }
    ensures tells { TellsDonation D.Disk replica.old replica.new counts.old counts.new (W.contents writer.old) (W.contents writer.new) result }
    ensures notes { Notes (W.failed writer.old) (W.failed writer.new) result }
    ensures ends { IfErr result EndsNode }
{
    if let Err(refusal) = commit(replica, counts, writer) {
        return Err(refusal);
    }
    match donate_between(replica, exchange, have, name) {
        Ok(last) => donated_text(Ok(last), writer),
        Err(refusal) => refuse(writer, refusal),
    }
}

/// No item, where the command was answered.
fn no_item(answered: Result<(), Refusal>) -> Result<Option<Item>, Refusal>
    ensures { MatchResult answered (λ _. result ≡ Ok None) (λ e. result ≡ Err e) }
{
    match answered {
        Ok(()) => Ok(None),
        Err(refusal) => Err(refusal),
    }
}

/// The item, where its seqno is the next one.
fn if_next(seqno: u64, item: Item, next: u64) -> Result<Option<Item>, Refusal>
    ensures { result ≡ (if seqno == next then Ok (Some item) else Err (OutOfOrder next)) }
{
    if seqno != next {
        return Err(Refusal::OutOfOrder { expected: next });
    }
    Ok(Some(item))
}

/// Answers what the line with this number asks for, where it is a command. Where it is the item with the next seqno, that is handed back, and nothing
/// is done.
///
/// Refuses with `OutOfOrder` an item with another seqno; with `Malformed`, at the line's number, one whose seqno is not of its form; and else as
/// the command does: with `Stopped`, `DiskFault`, and `StreamFault` where the writer fails, which it notes; and where a transfer is asked for, as
/// `commit` does.
pub(crate) fn answer<D: Disk + CountsSyncs, W: Sink, E: Exchange>(
    alloc: Global,
    replica: &mut Replica<D>,
    exchange: &mut E,
    counts: &mut Counts,
    request: Request<'_>,
    number: u64,
    next: u64,
    writer: &mut W,
) -> Result<Option<Item>, Refusal>
    // Where all that was delivered is durable, it stays so.
    ensures ahead { (facts_of D.Disk replica.old).ahead ≡ [] → OnOk result ((facts_of D.Disk replica.new).ahead ≡ []) }
    ensures comes { ComesOf (awaited next number (said_of request.entry)) result }
    ensures does { DoesAt D.Disk (said_of request.entry) replica.old replica.new counts.old counts.new (W.contents writer.old) (W.contents writer.new) (done_of result) }
    ensures notes { Notes (W.failed writer.old) (W.failed writer.new) result }
{
    match request {
        Request::Nothing => Ok(None),
        Request::Published(seqno, item) => if_next(seqno, item, next),
        Request::Stated(item) => Ok(Some(item)),
        Request::Read(keys) => no_item(answer_rows(replica, keys.as_slice(), writer)),
        Request::Sum(position) => no_item(answer_sum(replica, position, writer)),
        Request::State => no_item(answer_state(alloc, replica, writer)),
        Request::Limits => no_item(answer_limits(alloc, replica, writer)),
        Request::Counters => no_item(answer_counters(replica, counts, writer)),
        Request::Donate(have, name) => {
            no_item(answer_donate(replica, exchange, counts, have, name, writer))
        }
        Request::Refused(refusal) => no_item(answer_wrong(refusal, writer)),
        Request::Broken => Err(Refusal::Malformed { at: number }),
    }
}
