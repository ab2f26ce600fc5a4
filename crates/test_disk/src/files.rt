//! What a disk on a file asks the file for.
ghost use Rattle.std.specs.Prelude.{◌+◌, ◌≤◌};

use rep_disk::{Disk, FileDisk};
use std::cell::Cell;
use std::fs::{Metadata, OpenFile, Permissions};
use std::io;
use std::os::unix::fs::{FileExt, PermissionsExt};
use std::process::Abort;
use std::test::Fail;

/// What a file was asked for, with the offset and the length of a read or a write.
#[derive(Clone, Copy, PartialEq)]
enum Asked {
    Nothing,
    Read(u64, usize),
    Write(u64, usize),
    Sync,
}

use Asked::{Nothing, Read, Sync, Write};

const SIZE: usize = 8;

const NO_FAULT: usize = usize::MAX;

/// A file in memory that notes what it is asked for and which rights it is to have, moves two bytes at a time at most, and fails the
/// call of one number.
#[derive(Drop)]
struct NotedFile {
    bytes: Cell<[u8; SIZE]>,
    rights: Cell<u32>,
    asked: Cell<[Asked; 7]>,
    count: Cell<usize>,
    fault: usize,
}

impl NotedFile {
    fn new(fault: usize) -> NotedFile {
        NotedFile {
            bytes: Cell::new([0; SIZE]),
            rights: Cell::new(0),
            asked: Cell::new([Nothing; 7]),
            count: Cell::new(0),
            fault,
        }
    }

    fn note(&self, call: Asked) -> io::Result<()> {
        let number = self.count.get();
        self.count.set(number.saturating_add(1));
        let mut asked = self.asked.get();
        if let Some(place) = asked.get_mut(number) {
            *place = call;
        }
        self.asked.set(asked);
        if number == self.fault {
            return Err(io::Error::from(io::ErrorKind::Other));
        }
        Ok(())
    }

    /// Where a range of bytes starts, and how many of them are moved at once.
    fn piece(offset: u64, len: usize) -> (usize, usize)
        ensures fits { result.0 + result.1 ≤ 8 }
        ensures few { result.1 ≤ len }
    {
        let start = offset.min(SIZE as u64) as usize;
        (start, len.min(2).min(SIZE - start))
    }
}

impl FileExt for NotedFile {
    fn read_at(&self, buf: &mut [u8], offset: u64) -> io::Result<usize> {
        self.note(Read(offset, buf.len()))?;
        let (start, len) = NotedFile::piece(offset, buf.len());
        buf[..len].copy_from_slice(&self.bytes.get()[start..start + len]);
        Ok(len)
    }

    fn write_at(&self, buf: &[u8], offset: u64) -> io::Result<usize> {
        self.note(Write(offset, buf.len()))?;
        let (start, len) = NotedFile::piece(offset, buf.len());
        let mut bytes = self.bytes.get();
        bytes[start..start + len].copy_from_slice(&buf[..len]);
        self.bytes.set(bytes);
        Ok(len)
    }
}

impl OpenFile for NotedFile {
    fn metadata(&self) -> io::Result<Metadata> {
        Ok(Metadata::of_file(SIZE as u64))
    }

    fn set_len(&self, _size: u64) -> io::Result<()> {
        Err(io::Error::from(io::ErrorKind::Unsupported))
    }

    fn sync_all(&self) -> io::Result<()> {
        Err(io::Error::from(io::ErrorKind::Unsupported))
    }

    fn sync_data(&self) -> io::Result<()> {
        self.note(Sync)
    }

    fn set_permissions(&self, rights: Permissions) -> io::Result<()> {
        self.rights.set(rights.mode() & 0o7777);
        Ok(())
    }
}

/// All that a write, two syncs and a read ask for.
const ALL: [Asked; 7] = [
    Write(3, 3),
    Write(5, 1),
    Sync,
    Sync,
    Read(2, 4),
    Read(4, 2),
    Nothing,
];

/// The same where the first sync fails: the file is not asked for another.
const ONE_SYNC: [Asked; 7] = [
    Write(3, 3),
    Write(5, 1),
    Sync,
    Read(2, 4),
    Read(4, 2),
    Nothing,
    Nothing,
];

/// The number of the file's call that fails; which of a write, two syncs and a read then succeed, and how many do not; and what the
/// file is asked for.
type Case = (usize, [bool; 4], u64, [Asked; 7]);

const CASES: [Case; 5] = [
    (NO_FAULT, [true, true, true, true], 0, ALL),
    // A piece of the write is refused.
    (1, [false, true, true, true], 1, ALL),
    (2, [true, false, false, true], 2, ONE_SYNC),
    (3, [true, true, false, true], 1, ALL),
    // A piece of the read is refused.
    (5, [true, true, true, false], 1, ALL),
];

/// A disk on such a file, of which the call of this number fails.
fn noted_disk(fault: usize) -> Result<FileDisk<NotedFile>, Fail> {
    let disk = FileDisk::new(NotedFile::new(fault))?;
    if disk.size() != SIZE {
        return Err(Fail::new("another size"));
    }
    Ok(disk)
}

/// Writes three bytes, syncs twice and reads four: which of these calls succeed.
fn ask_four(disk: &mut FileDisk<NotedFile>, out: &mut [u8; 4]) -> [bool; 4] {
    if disk.size() < 6 {
        return [false; 4];
    }
    [
        disk.write_at(3, &[7, 8, 9]).is_ok(),
        disk.sync().is_ok(),
        disk.sync().is_ok(),
        disk.read_at(2, out).is_ok(),
    ]
}

/// The rights of the file, once a sync of it has failed, and before.
fn rights_behind(succeed: [bool; 4]) -> u32 {
    if succeed[1] && succeed[2] { 0 } else { 0o1644 }
}

/// The bytes that were read, and those of the file.
type Bytes = ([u8; 4], [u8; SIZE]);

/// Which of the calls succeed on a file that fails its call of this number, how many failures were counted, and the bytes; and whether
/// the file was asked for this, and got the mark of a failed sync where one failed.
fn ask_noted(fault: usize, asked: [Asked; 7]) -> Result<([bool; 4], u64, Bytes, bool), Fail> {
    let mut disk = noted_disk(fault)?;
    let mut out = [5; 4];
    let answers = ask_four(&mut disk, &mut out);
    let failures = disk.failures();
    let file = disk.into_file();
    let bytes = (out, file.bytes.get());
    let is_marked = file.rights.get() == rights_behind(answers);
    Ok((
        answers,
        failures,
        bytes,
        file.asked.get() == asked && is_marked,
    ))
}

/// The bytes where no call fails: they are those that were written.
const WRITTEN: Bytes = ([0, 7, 8, 9], [0, 0, 0, 7, 8, 9, 0, 0]);

/// Compares what the file is asked for, and the bytes where no call fails.
fn is_asked(rt: &impl Abort, (fault, succeed, failures, asked): Case) -> Result<(), Fail> {
    let (answers, counted, bytes, is_asked) = ask_noted(fault, asked)?;
    let is_written = fault != NO_FAULT || bytes == WRITTEN;
    assert_eq!(rt;
        (fault, answers, counted, is_written && is_asked),
        (fault, succeed, failures, true)
    );
    Ok(())
}

#[test]
fn a_file_is_asked_for_all_bytes_and_each_sync(rt: HostRuntime) -> Result<(), Fail> {
    for case in CASES {
        is_asked(&rt, case)?;
    }
    Ok(())
}
