//! What no life of a replica asks of a device: a write of nothing, a read that a fuse does not pass, and a file that is cut behind its
//! back.

use rep_disk::{Disk, FileDisk, Fuse, FuseDisk, Loss, MemDisk, set_mark};
use std::alloc::Global;
use std::fs;
use std::fs::{File, OpenOptions};
use std::io::{self, ErrorKind};
use std::test::Fail;

/// Writes no bytes at this place.
fn write_nothing(disk: &mut MemDisk, at: usize) -> bool {
    at <= disk.size() && disk.write_at(at, &[]).is_ok()
}

/// Whether writes of nothing, within a device and at its end, are served and leave its bytes as they were, also behind a stop with this
/// loss; None where there is no memory for it.
fn stays(alloc: Global, loss: Loss) -> Option<bool> {
    let Ok(mut disk) = MemDisk::from_bytes(alloc, &[1, 2, 3, 4]) else {
        return None;
    };
    let is_served = write_nothing(&mut disk, 2) && write_nothing(&mut disk, 4);
    let is_same = disk.bytes() == [1, 2, 3, 4].as_slice();
    disk.crash(loss);
    Some(is_served && is_same && disk.bytes() == [1, 2, 3, 4].as_slice())
}

#[test]
fn an_empty_write_changes_nothing(rt: HostRuntime) {
    for loss in [Loss::Keep, Loss::Drop, Loss::Junk] {
        assert_eq!(rt; stays(rt.alloc(), loss), Some(true));
    }
}

/// Reads so many bytes at the offset, and says whether that succeeded.
fn read<D: Disk>(disk: &mut D, at: usize, out: &mut [u8]) -> bool {
    out.len() <= disk.size() && at <= disk.size() - out.len() && disk.read_at(at, out).is_ok()
}

/// Reads a byte that is 7 on a device that passes so many calls, into one that is 5: the byte that is then there, how often the device
/// has failed, and the one inside it; None where there is no memory for it.
fn fused(alloc: Global, calls: u64) -> Option<(u8, u64, u64)> {
    let Ok(disk) = MemDisk::from_bytes(alloc, &[7]) else {
        return None;
    };
    let mut disk = FuseDisk::new(disk, Fuse::after(calls));
    let mut out = [5];
    read(&mut disk, 0, &mut out);
    Some((out[0], disk.failures(), disk.inner().failures()))
}

#[test]
fn a_read_that_a_fuse_does_not_pass_reads_nothing(rt: HostRuntime) {
    for (calls, found) in [(0, (5, 1, 0)), (1, (7, 0, 0))] {
        assert_eq!(rt; (calls, fused(rt.alloc(), calls)), (calls, Some(found)));
    }
}

/// A path for a file of this process, and of a test that says this word.
fn new_path(rt: &HostRuntime, word: &str) -> Result<String, Fail> {
    let path = format!(in rt.alloc();
        "{}/rep_disk_{word}_{}",
        std::env::temp_dir(rt)?.display(),
        std::process::id(rt.process())
    )?;
    let _ = fs::remove_file(rt, path.as_str());
    Ok(path)
}

/// Cuts the file to two bytes.
fn cut_file(rt: &HostRuntime, path: &str) -> Result<(), Fail> {
    OpenOptions::new().write(true).open(rt, path)?.set_len(2)?;
    Ok(())
}

/// Makes a file of four bytes, cuts it to two behind the disk's back, and reads two bytes and one: which of these are read, how often the
/// disk has failed, and the length of the file.
fn read_cut(rt: &HostRuntime, path: &str) -> Result<(bool, bool, u64, u64), Fail> {
    let mut disk = FileDisk::create(rt, path, 4)?;
    cut_file(rt, path)?;
    let two = read(&mut disk, 1, &mut [5; 2]);
    let one = read(&mut disk, 1, &mut [5; 1]);
    let failures = disk.failures();
    Ok((two, one, failures, disk.into_file().metadata()?.len()))
}

/// The same at a path of this process.
fn read_cut_at(rt: &HostRuntime, path: &str) -> Result<(bool, bool, u64, u64), Fail> {
    let found = read_cut(rt, path)?;
    fs::remove_file(rt, path)?;
    Ok(found)
}

#[test]
fn a_file_that_is_cut_is_not_read(rt: HostRuntime) -> Result<(), Fail> {
    let path = new_path(&rt, "cut")?;
    let found = read_cut_at(&rt, path.as_str())?;
    assert_eq!(rt; found, (false, true, 1, 2));
    Ok(())
}

/// Whether a disk is refused as one on a file of which a sync failed.
fn is_untrusted(opened: io::Result<FileDisk<File>>) -> bool {
    match opened {
        Ok(_) => false,
        Err(error) => error.kind() == ErrorKind::InvalidData,
    }
}

/// Makes a file and marks it, or takes the mark off: whether the file is then so, and whether it is refused to be changed and to be read.
fn opened_marked(rt: &HostRuntime, path: &str, marked: bool) -> Result<[bool; 3], Fail> {
    let file = FileDisk::create(rt, path, 4)?.into_file();
    let is_so = set_mark(&file, true)? && set_mark(&file, marked)?;
    drop(file);
    let refused = [
        is_so,
        is_untrusted(FileDisk::open(rt, path)),
        is_untrusted(FileDisk::open_to_read(rt, path)),
    ];
    fs::remove_file(rt, path)?;
    Ok(refused)
}

#[test]
fn a_file_of_which_a_sync_failed_is_not_opened(rt: HostRuntime) -> Result<(), Fail> {
    let path = new_path(&rt, "marked")?;
    for marked in [true, false] {
        let found = opened_marked(&rt, path.as_str(), marked)?;
        assert_eq!(rt; found, [true, marked, marked]);
    }
    Ok(())
}
