//! How a joiner is brought a snapshot.

ghost use Rattle.std.specs.Prelude.{◌≡◌, ◌↔◌, ◌⊎◌, ℕ, ◌+◌, ◌-◌, ◌<◌, List, None, length, max, true, IfOk, IfErr, IfSome, OnOk, OnErr};
ghost use Rattle.rep_types.specs.declared.refusal.Refusal.TheVariants.{OutOfMemory, DiskFault, Malformed, StreamFault};
ghost use Rattle.rep_types.specs.Order.{State};
ghost use Rattle.rep_types.specs.Settings.{Setting};
ghost use Rattle.rep_layout.specs.declared.format.Format.TheVariants.{Two};
ghost use Rattle.rep_layout.specs.declared.page_state.PageState.TheVariants.{Nowhere};
ghost use Rattle.rep_layout.specs.Supers.{IsNil};
ghost use Rattle.rep_layout.specs.Windows.{IsWindowAt};
ghost use Rattle.rep_pages.specs.Slots.{state_of_page};
ghost use Rattle.rep_steps.specs.Nodes.{Node};
ghost use Rattle.rep_replica.specs.Replicas.{facts_of};
ghost use Rattle.rep_replica.specs.Refusing.{TellsFaults};
ghost use Rattle.rep_replica.specs.Settling.{is_quiet, IsRunning};
ghost use Rattle.rep_replica.specs.Installing.{HoldsBoth, given_up};
ghost use Rattle.rep_streams.specs.Streams.{Notes};
ghost use Rattle.rep_transfer.specs.declared.pieces.NumberedPage.{NumberedPage as Page};
ghost use Rattle.rep_transfer.specs.Haves.{IsHeader};
ghost use Rattle.rep_catchup.specs.Snapshots.{TakesReach, NoReachComes, TakesEntries, NoEntriesCome, TakesKept, NoneKeptComes, TakesWindow, TakesPages, LeavesPages, NoPagesCome, NoneComes, BringsEarly, Brought, LeavesSnapshot};
ghost use Rattle.rep_catchup.specs.Growing.{EndsRunning};

use rep_disk::Disk;
use rep_layout::{Format, WindowBody};
use rep_replica::{Installation, Replica};
use rep_streams::Source;
use rep_transfer::{Header, NumberedPage, TransferReader};
use rep_types::{Entry, MAX_SEQNO, Params, Reach, Refusal, Window, WindowSize, history_by_items};
use std::alloc::Global;

/// How far back the window of a snapshot of format 1 reaches, which that does not tell: its size is that of the parameters, and was so from
/// the first item on.
fn fixed_reach(params: &Params, position: u64) -> Reach
    ensures { result ≡ record { size = params.now.window; floor = max 1 (position + 1 - params.now.window) } }
{
    let size = params.window_size();
    Reach {
        size,
        floor: size.lowest_at(position).max(1),
    }
}

/// Takes the size and the floor of a window, as format 2 tells them.
fn read_reach<R: Source>(
    at: u64,
    transfer: &mut TransferReader,
    reader: &mut R,
) -> Result<Reach, Refusal>
    ensures taken { (p : Setting) → (position : ℕ) → IfOk result (λ r. TakesReach Two p position r transfer.old transfer.new (R.remaining reader.old) (R.remaining reader.new)) }
    ensures refused { (p : Setting) → (position : ℕ) → IfErr result (λ e. (e ≡ StreamFault) ⊎ ((e ≡ Malformed at) × IfSome (R.remaining reader.old) (NoReachComes Two p position))) }
    ensures notes { Notes (R.failed reader.old) (R.failed reader.new) result }
{
    let malformed = Refusal::Malformed { at };
    let Some(seqnos) = transfer.next::<u16, R>(reader)? else {
        return Err(malformed);
    };
    let Ok(size) = WindowSize::new(u64::from(seqnos)) else {
        return Err(malformed);
    };
    match transfer.next::<u64, R>(reader)? {
        Some(floor) => Ok(Reach { size, floor }),
        None => Err(malformed),
    }
}

/// Takes how far back the window of a snapshot of this format and position reaches. Nothing else depends on the format.
fn take_reach<R: Source>(
    format: Format,
    params: &Params,
    position: u64,
    at: u64,
    transfer: &mut TransferReader,
    reader: &mut R,
) -> Result<Reach, Refusal>
    ensures taken { IfOk result (λ r. TakesReach format params.now position r transfer.old transfer.new (R.remaining reader.old) (R.remaining reader.new)) }
    ensures refused { IfErr result (λ e. (e ≡ StreamFault) ⊎ ((e ≡ Malformed at) × IfSome (R.remaining reader.old) (NoReachComes format params.now position))) }
    ensures notes { Notes (R.failed reader.old) (R.failed reader.new) result }
{
    match format {
        Format::One => Ok(fixed_reach(params, position)),
        Format::Two => read_reach(at, transfer, reader),
    }
}

/// Takes so many entries of a window.
fn take_entries<R: Source>(
    alloc: Global,
    count: u16,
    at: u64,
    transfer: &mut TransferReader,
    reader: &mut R,
) -> Result<Vec<Entry>, Refusal>
    ensures taken { IfOk result (λ entries. TakesEntries count entries.items transfer.old transfer.new (R.remaining reader.old) (R.remaining reader.new)) }
    ensures refused { IfErr result (λ e. (e ≡ StreamFault) ⊎ ((e ≡ OutOfMemory) ⊎ ((e ≡ Malformed at) × IfSome (R.remaining reader.old) (NoEntriesCome count)))) }
    ensures notes { Notes (R.failed reader.old) (R.failed reader.new) result }
{
    let mut entries = Vec::new(alloc);
    for _index in 0..count {
        let Some(entry) = transfer.next::<Entry, R>(reader)? else {
            return Err(Refusal::Malformed { at });
        };
        entries.push(entry)?;
    }
    Ok(entries)
}

/// Whether it can be the window of the position under the parameters.
fn is_window_at(params: &Params, position: u64, window: &Window) -> bool
    ensures { (result ≡ true) ↔ IsWindowAt params.now position window.now }
{
    WindowBody::of(Format::Two, 0, position, window).fits(params)
}

/// Takes the window of a snapshot of this format and position.
fn take_kept<R: Source>(
    alloc: Global,
    format: Format,
    params: &Params,
    position: u64,
    at: u64,
    transfer: &mut TransferReader,
    reader: &mut R,
) -> Result<Window, Refusal>
    ensures taken { IfOk result (λ v. TakesKept format params.now position v transfer.old transfer.new (R.remaining reader.old) (R.remaining reader.new)) }
    ensures refused { IfErr result (λ e. (e ≡ StreamFault) ⊎ ((e ≡ OutOfMemory) ⊎ ((e ≡ Malformed at) × IfSome (R.remaining reader.old) (NoneKeptComes format params.now position)))) }
    ensures notes { Notes (R.failed reader.old) (R.failed reader.new) result }
{
    let malformed = Refusal::Malformed { at };
    let reach = take_reach(format, params, position, at, transfer, reader)?;
    let Some(count) = transfer.next::<u16, R>(reader)? else {
        return Err(malformed);
    };
    if u64::from(count) > reach.size.get() {
        return Err(malformed);
    }
    let entries = take_entries(alloc, count, at, transfer, reader)?;
    let window = Window::new(reach.size, reach.floor, entries);
    if is_window_at(params, position, &window) {
        Ok(window)
    } else {
        Err(malformed)
    }
}

/// Takes so many pages, and puts each beside the base.
fn take_pages<D: Disk, R: Source>(
    installation: &mut Installation<D>,
    count: u16,
    at: u64,
    transfer: &mut TransferReader,
    reader: &mut R,
) -> Result<(), Refusal>
    requires running { installation.old.engine.halted ≡ None }
    requires none { (page : ℕ) → state_of_page installation.old.coming.next.super page ≡ Nowhere }
    ensures taken { OnOk result ((pages : List Page) × (length pages ≡ count) × TakesPages D.Disk installation.old installation.new pages transfer.old transfer.new (R.remaining reader.old) (R.remaining reader.new)) }
    ensures kept { (n : Node) → (y : State) → HoldsBoth D.Disk n y installation.old → OnErr result (LeavesPages D.Disk n installation.old installation.new) }
    ensures ends { EndsRunning result (given_up installation.new) }
    ensures told { TellsFaults (D.failures installation.old.engine.disk) (D.failures installation.new.engine.disk) result }
    ensures refused { IfErr result (λ e. (e ≡ StreamFault) ⊎ ((e ≡ DiskFault) ⊎ ((e ≡ Malformed at) × IfSome (R.remaining reader.old) (NoPagesCome installation.old.engine.checkpoint.base.params.rows count)))) }
    ensures notes { Notes (R.failed reader.old) (R.failed reader.new) result }
{
    let mut least = 0;
    for _index in 0..count {
        let Some(page) = transfer.next::<NumberedPage, R>(reader)? else {
            return Err(Refusal::Malformed { at });
        };
        let number = u32::from(page.number);
        if number < least || !installation.takes(number, &page.rows) {
            return Err(Refusal::Malformed { at });
        }
        installation.put_page(number, page.rows)?;
        least = number + 1;
    }
    Ok(())
}

/// Whether a snapshot at this position may come: the replica is of no cluster, or has less of the order.
fn may_come<D: Disk>(replica: &Replica<D>, position: u64) -> bool
    ensures { (result ≡ true) ↔ (((facts_of D.Disk replica.now).durable < position) ⊎ IsNil (facts_of D.Disk replica.now).uuid) }
{
    replica.uuid().is_nil() || replica.durable() < position
}

/// Takes the window of a snapshot of this format and position, and how many pages come behind it. In format 1 the window's size is that of
/// the parameters, and its floor the least seqno that this size spans at the position, 1 or more; in format 2 they are told.
fn take_window<D: Disk, R: Source>(
    alloc: Global,
    replica: &Replica<D>,
    format: Format,
    position: u64,
    at: u64,
    transfer: &mut TransferReader,
    reader: &mut R,
) -> Result<(Window, u16), Refusal>
    ensures taken { IfOk result (λ x. TakesWindow format (facts_of D.Disk replica.now) position x.0 x.1 transfer.old transfer.new (R.remaining reader.old) (R.remaining reader.new)) }
    ensures refused { IfErr result (λ e. (e ≡ StreamFault) ⊎ ((e ≡ OutOfMemory) ⊎ ((e ≡ Malformed at) × IfSome (R.remaining reader.old) (NoneComes format (facts_of D.Disk replica.now) position)))) }
    ensures notes { Notes (R.failed reader.old) (R.failed reader.new) result }
{
    let malformed = Refusal::Malformed { at };
    if !may_come(replica, position) || position > MAX_SEQNO {
        return Err(malformed);
    }
    let params = replica.params();
    let window = take_kept(alloc, format, params, position, at, transfer, reader)?;
    match transfer.next::<u16, R>(reader)? {
        Some(count) => Ok((window, count)),
        None => Err(malformed),
    }
}

/// Takes the rest of a snapshot of this position, which stands at `at` of the transfer that begins so, and lets it take the base's place.
///
/// Refuses with `Malformed` what is no snapshot for the replica, with `OutOfMemory`, and with `StreamFault` where the source fails: the
/// replica is then as it was. Refuses with `DiskFault` where the device fails: the replica is then stopped, and what is opened on its
/// disk is what it was, or the snapshot.
pub(crate) fn bring<D: Disk, R: Source>(
    alloc: Global,
    replica: Replica<D>,
    header: &Header,
    position: u64,
    at: u64,
    transfer: &mut TransferReader,
    reader: &mut R,
) -> (Replica<D>, Result<(), Refusal>)
    requires running { IsRunning replica }
    requires quiet { is_quiet (facts_of D.Disk replica) ≡ true }
    requires header { IsHeader header.now }
    requires cluster { (header.now.uuid ≡ (facts_of D.Disk replica).uuid) ⊎ IsNil (facts_of D.Disk replica).uuid }
    ensures brought { OnOk result.1 (Brought D.Disk replica result.0 header.now.format header.now.uuid position transfer.old transfer.new (R.remaining reader.old) (R.remaining reader.new)) }
    ensures left { IfErr result.1 (LeavesSnapshot D.Disk replica result.0 header.now.format header.now.uuid position transfer.old (R.remaining reader.old)) }
    ensures ends { EndsRunning result.1 result.0 }
    ensures told { TellsFaults (D.failures replica.engine.disk) (D.failures result.0.engine.disk) result.1 }
    ensures refused { IfErr result.1 (BringsEarly header.now.format (facts_of D.Disk replica) position at (R.remaining reader.old)) }
    ensures notes { Notes (R.failed reader.old) (R.failed reader.new) result.1 }
{
    history_by_items();
    let format = header.format;
    let (window, count) = match take_window(
        alloc, &replica, format, position, at, transfer, reader,
    ) {
        Ok(taken) => taken,
        Err(refusal) => return (replica, Err(refusal)),
    };
    match replica.install(alloc, header.uuid, position, window) {
        Ok(mut installation) => {
            match take_pages(&mut installation, count, at, transfer, reader) {
                Ok(()) => installation.end(),
                Err(refusal) => (installation.give_up(), Err(refusal)),
            }
        }
        Err((replica, refusal)) => (replica, Err(refusal)),
    }
}
