//! A disk in memory, which may crash.
ghost use Rattle.std.specs.Prelude.{◌≡◌, ◌+◌, ◌-◌, ◌≤◌, ◌<◌, ◌++◌, ◌∷◌, [], length, replicate, IfOk, OnOk, OnErr, IsOk, refl};
ghost use Rattle.rep_disk.specs.Bytes.{part, put};
ghost use Rattle.rep_disk.specs.History.{History, Begins, Wrote, Synced, IsImage, Reads, seen, stable};
ghost use Rattle.rep_disk.specs.Calls.{IsCall, MaySpoil};
ghost use Rattle.rep_disk.specs.Record.{replay, filled, laid, lost, AreWithin};

use crate::counting::counted;
use crate::{Disk, DiskFault};
use std::alloc::{AllocError, Global};
use std::marker::Model;

/// What a crash does to the pending ranges.
#[derive(Clone, Copy, Debug, PartialEq, Eq)]
pub enum Loss {
    /// They stay as they read.
    Keep,
    /// They get their last stable bytes.
    Drop,
    /// Each of their bytes becomes `0xEE`.
    Junk,
}

/// A call that changed the disk.
#[derive(Drop)]
enum Call {
    Wrote { at: usize, bytes: Vec<u8> },
    Synced,
}

/// The bytes from `at` on, `len` of them.
#[derive(Clone, Copy)]
struct Range {
    at: usize,
    len: usize,
}

/// A disk in memory: honest, until it is dropped.
///
/// It keeps three copies of its bytes, and a copy of all that was ever written. A write or a sync
/// that finds no room for its record fails, as a device does, and changes nothing.
#[derive(Drop)]
pub struct MemDisk {
    found: Vec<u8>,
    calls: Vec<Call>,
    bytes: Vec<u8>,
    stable: Vec<u8>,
    pending: Vec<Range>,
    failures: u64,
}

impl Model for MemDisk {
    ghost use Rattle.rep_disk.specs.Memory.{Memory, memory_code};

    ghost Value = { Memory };

    ghost coded = { memory_code };

    ghost use Rattle.rep_disk.specs.History.{Begins};
    ghost use Rattle.rep_disk.specs.Record.{replay, IsKept};

    ghost view = { λ m. record { history = replay (Begins m.found.items) m.calls.items; failures = m.failures } };

    ghost invariant = { λ m. IsKept m.found.items m.calls.items m.bytes.items m.stable.items m.pending.items };
}

impl MemDisk {
    ghost use Rattle.rep_disk.specs.Memory.{IsAfterLoss};

    /// A disk of so many zero bytes, all of them stable. Refuses only want of memory.
    pub fn new(alloc: Global, size: usize) -> Result<MemDisk, AllocError>
        ensures zeros { IfOk result (λ disk. disk.history ≡ Begins (replicate size 0)) }
        ensures unfailed { IfOk result (λ disk. disk.failures ≡ 0) }
        ensures honest { IfOk result ⟦<MemDisk as Disk>⟧.honest }
    {
        MemDisk::begin(vec![in alloc; 0; size]?)
    }

    /// A disk of these bytes, all of them stable. Refuses only want of memory.
    pub fn from_bytes(alloc: Global, bytes: &[u8]) -> Result<MemDisk, AllocError>
        ensures found { IfOk result (λ disk. disk.history ≡ Begins bytes.now) }
        ensures unfailed { IfOk result (λ disk. disk.failures ≡ 0) }
        ensures honest { IfOk result ⟦<MemDisk as Disk>⟧.honest }
    {
        MemDisk::begin(bytes.to_vec(alloc)?)
    }

    fn begin(found: Vec<u8>) -> Result<MemDisk, AllocError>
        ensures found { IfOk result (λ disk. disk.history ≡ Begins found.items) }
        ensures unfailed { IfOk result (λ disk. disk.failures ≡ 0) }
    {
        let alloc = *found.allocator();
        let bytes = found.to_vec(alloc)?;
        let stable = found.to_vec(alloc)?;
        Ok(MemDisk {
            found,
            calls: Vec::new(alloc),
            bytes,
            stable,
            pending: Vec::new(alloc),
            failures: 0,
        })
    }

    /// What the disk reads as.
    pub fn bytes(&self) -> &[u8]
        ensures { result.now ≡ seen self.now.history }
    {
        self.bytes.as_slice()
    }

    /// The power fails and comes back: the pending ranges become what the loss says, and all is
    /// stable. Takes no memory.
    pub fn crash(&mut self, loss: Loss)
        ensures anew { self.new.history ≡ Begins (seen self.new.history) }
        ensures left { IsAfterLoss loss self.old.history (seen self.new.history) }
        ensures image { IsImage self.old.history (seen self.new.history) }
        ensures failures { self.new.failures ≡ self.old.failures }
    {
        lose(&mut self.bytes, &self.stable, &self.pending, loss);
        self.found.copy_from_slice(&self.bytes);
        self.stable.copy_from_slice(&self.bytes);
        self.calls.clear();
        self.pending.clear();
    }
}

/// Makes of the bytes what a crash does. Outside the pending ranges they are the stable ones.
fn lose(bytes: &mut Vec<u8>, stable: &[u8], pending: &[Range], loss: Loss)
    requires sized { length stable.now ≡ length bytes.old.items }
    requires within { AreWithin (length bytes.old.items) pending.now }
    ensures lost { bytes.new.items ≡ lost loss bytes.old.items stable.now pending.now }
    ensures sized { length bytes.new.items ≡ length bytes.old.items }
{
    match loss {
        Loss::Keep => {}
        Loss::Drop => bytes.copy_from_slice(stable),
        Loss::Junk => fill_ranges(bytes, pending, 0xEE),
    }
}

/// Writes the byte all over the ranges.
fn fill_ranges(bytes: &mut [u8], ranges: &[Range], byte: u8)
    requires { AreWithin (length bytes.old) ranges.now }
    ensures { bytes.new ≡ filled ranges.now byte bytes.old }
{
    for range in ranges {
        fill_range(bytes, *range, byte);
    }
}

/// Writes the byte all over the range.
fn fill_range(bytes: &mut [u8], range: Range, byte: u8)
    requires { range.at + range.len ≤ length bytes.old }
    ensures { bytes.new ≡ put bytes.old range.at (replicate range.len byte) }
{
    bytes[range.at..range.at + range.len].fill(byte);
}

/// Lays these bytes over the others at this offset.
fn overwrite(bytes: &mut [u8], at: usize, new: &[u8])
    requires { at + length new.now ≤ length bytes.old }
    ensures { bytes.new ≡ put bytes.old at new.now }
{
    bytes[at..at + new.len()].copy_from_slice(new);
}

/// Lays the ranges of these bytes over the others: a sync takes time by what is pending, and not by the disk's size.
fn lay_ranges(bytes: &mut [u8], source: &[u8], ranges: &[Range])
    requires sized { length bytes.old ≡ length source.now }
    requires within { AreWithin (length source.now) ranges.now }
    ensures { bytes.new ≡ laid ranges.now source.now bytes.old }
{
    for range in ranges {
        lay_range(bytes, source, *range);
    }
}

/// Lays the range of these bytes over the others.
fn lay_range(bytes: &mut [u8], source: &[u8], range: Range)
    requires sized { length bytes.old ≡ length source.now }
    requires within { range.at + range.len ≤ length source.now }
    ensures { bytes.new ≡ put bytes.old range.at (part range.at range.len source.now) }
{
    overwrite(bytes, range.at, &source[range.at..range.at + range.len]);
}

impl Disk for MemDisk {
    ghost size = { λ m. length (stable m.history) };

    ghost failures = { λ m. m.failures };

    ghost history = { λ m. m.history };

    ghost honest = { λ _. Unit {0} };

    ghost sized = { λ _ _. refl };

    fn size(&self) -> usize {
        self.bytes.len()
    }

    fn failures(&self) -> u64 {
        self.failures
    }

    fn read_at(&mut self, at: usize, out: &mut [u8]) -> Result<(), DiskFault>
        requires { at + length out.old ≤ length (stable self.old.history) }
        ensures call { IsCall ⟦<MemDisk as Disk>⟧.size ⟦<MemDisk as Disk>⟧.failures ⟦<MemDisk as Disk>⟧.honest self.old self.new result }
        ensures same { self.new.history ≡ self.old.history }
        ensures read { OnOk result (Reads self.old.history at out.new) }

        // It never fails, and changes nothing.
        ensures served { IsOk result }
        ensures whole { out.new ≡ part at (length out.old) (seen self.old.history) }
        ensures unchanged { self.new ≡ self.old }
    {
        out.copy_from_slice(&self.bytes[at..at + out.len()]);
        Ok(())
    }

    fn write_at(&mut self, at: usize, bytes: &[u8]) -> Result<(), DiskFault>
        requires { at + length bytes.now ≤ length (stable self.old.history) }
        ensures written { OnOk result (self.new.history ≡ Wrote at bytes.now self.old.history) }
        ensures call { IsCall ⟦<MemDisk as Disk>⟧.size ⟦<MemDisk as Disk>⟧.failures ⟦<MemDisk as Disk>⟧.honest self.old self.new result }
        ensures spoiled { OnErr result (MaySpoil at (length bytes.now) self.old.history self.new.history) }

        // It fails only for want of room, and then nothing happened.
        ensures unchanged { OnErr result (self.new.history ≡ self.old.history) }
    {
        let noted = note_write(&mut self.calls, &mut self.pending, at, bytes);
        counted(noted, &mut self.failures)?;
        overwrite(&mut self.bytes, at, bytes);
        Ok(())
    }

    fn sync(&mut self) -> Result<(), DiskFault> {
        let noted = note_sync(&mut self.calls);
        counted(noted, &mut self.failures)?;
        lay_ranges(&mut self.stable, &self.bytes, &self.pending);
        self.pending.clear();
        Ok(())
    }
}

/// Keeps a write, and that its range is pending.
fn note_write(
    calls: &mut Vec<Call>,
    pending: &mut Vec<Range>,
    at: usize,
    bytes: &[u8],
) -> Result<(), AllocError>
    ensures noted { OnOk result ((h : History) → replay h calls.new.items ≡ Wrote at bytes.now (replay h calls.old.items)) }
    ensures pending { OnOk result (pending.new.items ≡ pending.old.items ++ (record { at = at; len = length bytes.now }) ∷ []) }
    ensures calls_stay { OnErr result (calls.new.items ≡ calls.old.items) }
    ensures pending_stays { OnErr result (pending.new.items ≡ pending.old.items) }
{
    let copy = bytes.to_vec(*calls.allocator())?;
    // With room for the call, nothing can fail once the range is kept.
    calls.reserve(1)?;
    let len = bytes.len();
    pending.push(Range { at, len })?;
    calls.push(Call::Wrote { at, bytes: copy })?;
    Ok(())
}

/// Keeps a sync.
fn note_sync(calls: &mut Vec<Call>) -> Result<(), AllocError>
    ensures noted { OnOk result ((h : History) → replay h calls.new.items ≡ Synced (replay h calls.old.items)) }
    ensures calls_stay { OnErr result (calls.new.items ≡ calls.old.items) }
{
    calls.push(Call::Synced)?;
    Ok(())
}
