//! A disk that fails some calls on purpose.
ghost use Rattle.std.specs.Prelude.{◌≡◌, ◌↔◌, ◌+◌, ◌≤◌, Bool, length, is_err, OnOk, OnErr};
ghost use Rattle.rep_disk.specs.Calls.{IsRead, IsWrite, IsSync, capped};
ghost use Rattle.rep_disk.specs.declared.faulty.Call.{Call as Calls};
ghost use Rattle.rep_disk.specs.declared.faulty.Call.TheVariants.{Read, Write, Sync};

use crate::{Disk, DiskFault};

/// A call that a disk can fail.
#[derive(Clone, Copy)]
pub enum Call {
    /// A read.
    Read,
    /// A write.
    Write,
    /// A sync.
    Sync,
}

/// Says which calls of a disk fail on purpose.
pub trait Faults {
    /// What it may say of a call, and what it is behind it.
    ghost says: { Self → Calls → Bool → Self → Type 0 };

    /// Whether this call fails. Asked once for each.
    fn fails(&mut self, call: Call) -> bool
        ensures { says self.old call result self.new };
}

/// A disk that passes each call to the one inside but those that its faults name.
///
/// The calls that count are reads, writes and syncs, failed ones too. A call that it fails leaves the disk inside
/// untouched, and is counted as a failure beside that disk's own.
#[derive(Drop)]
pub struct FaultyDisk<D: Disk, F: Faults> {
    inner: D,
    faults: F,
    refusals: u64,
}

/// Fails the call where it is one of the faults, and counts it.
fn pass<F: Faults>(faults: &mut F, refusals: &mut u64, call: Call) -> Result<(), DiskFault>
    ensures said { F.says faults.old call (is_err result) faults.new }
    ensures passed { OnOk result (refusals.new ≡ refusals.old) }
    ensures counted { OnErr result (refusals.new ≡ capped (refusals.old + 1)) }
{
    if faults.fails(call) {
        *refusals = refusals.saturating_add(1);
        return Err(DiskFault);
    }
    Ok(())
}

impl<D: Disk, F: Faults + Drop> FaultyDisk<D, F> {
    ghost use Rattle.rep_disk.specs.Fuses.{inside_of, faults_of, refusals_of};

    /// A disk with these faults.
    pub fn new(inner: D, faults: F) -> FaultyDisk<D, F>
        ensures inner { inside_of result ≡ inner }
        ensures faults { faults_of result ≡ faults }
        ensures refusals { refusals_of result ≡ 0 }
        ensures honest { ⟦<FaultyDisk<D, F> as Disk>⟧.honest result ↔ D.honest inner }
    {
        FaultyDisk {
            inner,
            faults,
            refusals: 0,
        }
    }

    /// The disk inside.
    pub fn inner(&self) -> &D
        ensures { result.now ≡ inside_of self.now }
    {
        &self.inner
    }

    /// Gives the disk inside back.
    pub fn into_inner(self) -> D
        ensures { result ≡ inside_of self }
    {
        let FaultyDisk { inner, .. } = self;
        inner
    }
}

impl<D: Disk, F: Faults> Disk for FaultyDisk<D, F> {
    ghost use Rattle.rep_disk.specs.Fuses.{inside_of, faults_of, FailsAs};

    ghost size = { λ f. D.size f.inner };

    ghost failures = { λ f. capped (D.failures f.inner + f.refusals) };

    ghost history = { λ f. D.history f.inner };

    ghost honest = { λ f. D.honest f.inner };

    ghost sized = { λ f honest. D.sized f.inner honest };

    fn size(&self) -> usize {
        self.inner.size()
    }

    fn failures(&self) -> u64 {
        self.inner.failures().saturating_add(self.refusals)
    }

    fn read_at(&mut self, at: usize, out: &mut [u8]) -> Result<(), DiskFault>
        requires { at + length out.old ≤ D.size (inside_of self.old) }
        ensures disk { IsRead ⟦<FaultyDisk<D, F> as Disk>⟧.size ⟦<FaultyDisk<D, F> as Disk>⟧.failures ⟦<FaultyDisk<D, F> as Disk>⟧.honest ⟦<FaultyDisk<D, F> as Disk>⟧.history at out.new self.old self.new result }
        ensures inside { FailsAs F.says Read (faults_of self.old) (faults_of self.new) D.size D.failures D.honest (inside_of self.old) (inside_of self.new) result }
    {
        pass(&mut self.faults, &mut self.refusals, Call::Read)?;
        self.inner.read_at(at, out)
    }

    fn write_at(&mut self, at: usize, bytes: &[u8]) -> Result<(), DiskFault>
        requires { at + length bytes.now ≤ D.size (inside_of self.old) }
        ensures disk { IsWrite ⟦<FaultyDisk<D, F> as Disk>⟧.size ⟦<FaultyDisk<D, F> as Disk>⟧.failures ⟦<FaultyDisk<D, F> as Disk>⟧.honest ⟦<FaultyDisk<D, F> as Disk>⟧.history at bytes.now self.old self.new result }
        ensures inside { FailsAs F.says Write (faults_of self.old) (faults_of self.new) D.size D.failures D.honest (inside_of self.old) (inside_of self.new) result }
    {
        pass(&mut self.faults, &mut self.refusals, Call::Write)?;
        self.inner.write_at(at, bytes)
    }

    fn sync(&mut self) -> Result<(), DiskFault>
        ensures disk { IsSync ⟦<FaultyDisk<D, F> as Disk>⟧.size ⟦<FaultyDisk<D, F> as Disk>⟧.failures ⟦<FaultyDisk<D, F> as Disk>⟧.honest ⟦<FaultyDisk<D, F> as Disk>⟧.history self.old self.new result }
        ensures inside { FailsAs F.says Sync (faults_of self.old) (faults_of self.new) D.size D.failures D.honest (inside_of self.old) (inside_of self.new) result }
    {
        pass(&mut self.faults, &mut self.refusals, Call::Sync)?;
        self.inner.sync()
    }
}
