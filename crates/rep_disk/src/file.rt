//! A disk on a file.
ghost use Rattle.std.specs.Prelude.{◌≡◌, ◌+◌, ◌≤◌, [], length, true, false, is_err, IfOk, IsErr};
ghost use Rattle.rep_disk.specs.History.{Begins};
ghost use Rattle.rep_disk.specs.Calls.{IsRead, IsWrite, IsSync};

use crate::counting::counted;
use crate::locked::{Access, locked_file};
use crate::mark::{is_marked, set_mark};
use crate::{Disk, DiskFault};
use std::fs::{File, Files, OpenFile};
use std::io::{self, ErrorKind};
use std::os::unix::fs::{FileExt, MetadataExt};

/// A disk on a file. Nothing is claimed of it but its size, its count of failures, and that no sync
/// succeeds once one has failed: that it is honest is for the system to keep, and no proof says so.
///
/// What it does on Linux:
///
/// - A read is `pread`, and a write `pwrite`, each called again until all bytes have gone, and
///   where a signal interrupts it. Past the file's end a read fails. Bytes that were written go to
///   the kernel's memory, and from there to the device at any moment, in any order and in parts.
/// - A sync is `fdatasync`: it ends once the file's bytes are on the device, as far as the device
///   tells. What else is known of the file stays as `create` left it: its length, and where its
///   bytes lie, since each of them was written. So a sync has no more to wait for, and no write finds
///   a full file system.
/// - A failed sync tells of a write that the device refused, once: the kernel may have dropped the
///   bytes, reads may still give them, and a later sync may succeed without them. So once a sync has
///   failed every later one fails too, and the file is not asked again. Nothing is known then of
///   what was written since the last sync that succeeded. The file is marked (`set_mark`), where the
///   system lets this program do that, and is not opened again until all of it was written anew.
///   Where it can't be marked, no program may open it until the machine was started anew.
/// - A sync of a file that has no name left fails too: nobody could open what it made stable.
///
/// `open`, `open_to_read` and `create` hold the file's lock (`flock`), which ends with the disk: two
/// programs that both ask for it don't change one disk at a time. Nothing keeps other programs from
/// changing the file, and no other handle may.
#[derive(Drop)]
pub struct FileDisk<F: FileExt + OpenFile + Drop> {
    file: F,
    size: usize,
    failures: u64,
    /// A sync has failed.
    lost: bool,
    /// How many syncs ended well.
    syncs: u64,
}

impl<F: FileExt + OpenFile + Drop> FileDisk<F> {
    ghost use Rattle.rep_disk.specs.Fuses.{file_inside, file_size, file_failures, file_lost, file_syncs};

    /// A disk on an open file, which can be read and written. Its size is the file's length at this
    /// moment. Refuses where the system does not tell the length.
    pub fn new(file: F) -> io::Result<FileDisk<F>>
        ensures unfailed { IfOk result (λ disk. file_failures disk ≡ 0) }
        ensures kept { IfOk result (λ disk. file_lost disk ≡ false) }
    {
        let size = file.metadata()?.len() as usize;
        Ok(FileDisk::start(file, size))
    }

    fn start(file: F, size: usize) -> FileDisk<F>
        ensures sized { file_size result ≡ size }
        ensures unfailed { file_failures result ≡ 0 }
        ensures kept { file_lost result ≡ false }
        ensures unsynced { file_syncs result ≡ 0 }
    {
        FileDisk {
            file,
            size,
            failures: 0,
            lost: false,
            syncs: 0,
        }
    }

    /// How many syncs ended well, of those that it was asked for. At 2^64 - 1 the count stays.
    pub fn syncs(&self) -> u64
        ensures { result ≡ file_syncs self.now }
    {
        self.syncs
    }

    /// Gives the file back.
    pub fn into_file(self) -> F
        ensures { result ≡ file_inside self }
    {
        self.file
    }
}

/// How many zero bytes are written at once.
const ZEROS: usize = 16_384;

/// Writes so many zero bytes from the file's beginning on.
fn write_zeros(file: &File, size: usize) -> io::Result<()> {
    let zeros = [0; ZEROS];
    for at in (0..size).step_by(ZEROS) {
        let count = ZEROS.min(size - at);
        file.write_all_at(&zeros[..count], at as u64)?;
    }
    Ok(())
}

/// Syncs the file's bytes.
///
/// Refuses what the system refuses; and a file without a name, with `NotFound`. (One that is no file of the system has no number, and no name.)
fn sync_named<F: OpenFile>(file: &F) -> io::Result<()> {
    file.sync_data()?;
    let known = file.metadata()?;
    if known.nlink() == 0 && known.ino() != 0 {
        return Err(io::Error::from(ErrorKind::NotFound));
    }
    Ok(())
}

/// The folder in which the file at this path lies.
fn folder_of(path: &str) -> &str {
    match path.rsplit_once('/') {
        Some(("", _)) => "/",
        Some((folder, _)) => folder,
        None => ".",
    }
}

impl FileDisk<File> {
    ghost use Rattle.rep_disk.specs.Fuses.{file_size, file_failures, file_lost};

    /// A disk on this file, which is locked.
    ///
    /// Refuses a file that is marked, with `InvalidData`, and what the system refuses.
    fn trusted(file: File) -> io::Result<FileDisk<File>>
        ensures unfailed { IfOk result (λ disk. file_failures disk ≡ 0) }
        ensures kept { IfOk result (λ disk. file_lost disk ≡ false) }
    {
        if is_marked(&file)? {
            return Err(io::Error::from(ErrorKind::InvalidData));
        }
        FileDisk::new(file)
    }

    /// A disk on the file at this path, which has to be there, under its lock. Refuses what the system
    /// refuses, a file whose lock another program holds, and one that is marked, with `InvalidData`.
    pub fn open<R: Files<File = File>>(rt: &R, path: &str) -> io::Result<FileDisk<File>>
        ensures unfailed { IfOk result (λ disk. file_failures disk ≡ 0) }
        ensures kept { IfOk result (λ disk. file_lost disk ≡ false) }
    {
        FileDisk::trusted(locked_file(rt, path, Access::Change)?)
    }

    /// The same to read alone: each write fails. It needs no right to change the file, and shares the lock
    /// with others that only read. Refuses a folder besides, which could be opened so.
    pub fn open_to_read<R: Files<File = File>>(rt: &R, path: &str) -> io::Result<FileDisk<File>>
        ensures unfailed { IfOk result (λ disk. file_failures disk ≡ 0) }
        ensures kept { IfOk result (λ disk. file_lost disk ≡ false) }
    {
        FileDisk::trusted(locked_file(rt, path, Access::Read)?)
    }

    /// A disk of so many zero bytes on a new file at this path, under its lock. Each byte is written, and
    /// the file and its name in its folder are synced: a stop leaves it as it is.
    ///
    /// Refuses what the system refuses, as where something has this name or the file system has no room,
    /// and then may leave the file.
    pub fn create<R: Files<File = File>>(
        rt: &R,
        path: &str,
        size: usize,
    ) -> io::Result<FileDisk<File>>
        ensures sized { IfOk result (λ disk. file_size disk ≡ size) }
        ensures unfailed { IfOk result (λ disk. file_failures disk ≡ 0) }
        ensures kept { IfOk result (λ disk. file_lost disk ≡ false) }
    {
        let file = File::create_new(rt, path)?;
        FileDisk::zeroed(rt, file, path, size)
    }

    /// A disk of so many zero bytes on this file, which is new and has this path, as `create` makes it.
    ///
    /// Refuses what the system refuses, as where the file system has no room, and then may leave the file.
    pub fn zeroed<R: Files<File = File>>(
        rt: &R,
        file: File,
        path: &str,
        size: usize,
    ) -> io::Result<FileDisk<File>>
        ensures sized { IfOk result (λ disk. file_size disk ≡ size) }
        ensures unfailed { IfOk result (λ disk. file_failures disk ≡ 0) }
        ensures kept { IfOk result (λ disk. file_lost disk ≡ false) }
    {
        file.try_lock()?;
        write_zeros(&file, size)?;
        file.sync_all()?;
        File::open(rt, folder_of(path))?.sync_all()?;
        Ok(FileDisk::start(file, size))
    }
}

impl<F: FileExt + OpenFile + Drop> Disk for FileDisk<F> {
    ghost use Rattle.rep_disk.specs.Fuses.{file_size, file_lost, file_syncs, syncs_behind};

    ghost size = { λ f. f.size };

    ghost failures = { λ f. f.failures };

    ghost history = { λ _. Begins [] };

    ghost honest = { λ _. ⊥ };

    ghost sized = { λ f honest. absurd honest };

    fn size(&self) -> usize {
        self.size
    }

    fn failures(&self) -> u64 {
        self.failures
    }

    fn read_at(&mut self, at: usize, out: &mut [u8]) -> Result<(), DiskFault>
        requires { at + length out.old ≤ file_size self.old }
        ensures disk { IsRead ⟦<FileDisk<F> as Disk>⟧.size ⟦<FileDisk<F> as Disk>⟧.failures ⟦<FileDisk<F> as Disk>⟧.honest ⟦<FileDisk<F> as Disk>⟧.history at out.new self.old self.new result }
        ensures lost { file_lost self.new ≡ file_lost self.old }
        ensures syncs { file_syncs self.new ≡ file_syncs self.old }
    {
        let outcome = self.file.read_exact_at(out, at as u64);
        counted(outcome, &mut self.failures)
    }

    fn write_at(&mut self, at: usize, bytes: &[u8]) -> Result<(), DiskFault>
        requires { at + length bytes.now ≤ file_size self.old }
        ensures disk { IsWrite ⟦<FileDisk<F> as Disk>⟧.size ⟦<FileDisk<F> as Disk>⟧.failures ⟦<FileDisk<F> as Disk>⟧.honest ⟦<FileDisk<F> as Disk>⟧.history at bytes.now self.old self.new result }
        ensures lost { file_lost self.new ≡ file_lost self.old }
        ensures syncs { file_syncs self.new ≡ file_syncs self.old }
    {
        let outcome = self.file.write_all_at(bytes, at as u64);
        counted(outcome, &mut self.failures)
    }

    fn sync(&mut self) -> Result<(), DiskFault>
        ensures disk { IsSync ⟦<FileDisk<F> as Disk>⟧.size ⟦<FileDisk<F> as Disk>⟧.failures ⟦<FileDisk<F> as Disk>⟧.honest ⟦<FileDisk<F> as Disk>⟧.history self.old self.new result }
        ensures lost { file_lost self.new ≡ is_err result }
        ensures for_good { file_lost self.old ≡ true → IsErr result }
        ensures syncs { file_syncs self.new ≡ syncs_behind (file_syncs self.old) result }
    {
        if self.lost {
            return counted(Err(DiskFault), &mut self.failures);
        }
        let outcome = sync_named(&self.file);
        self.lost = outcome.is_err();
        if outcome.is_ok() {
            self.syncs = self.syncs.saturating_add(1);
        } else {
            let _ = set_mark(&self.file, true);
        }
        counted(outcome, &mut self.failures)
    }
}
