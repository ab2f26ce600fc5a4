//! A file that keeps why it failed.

use crate::noted::first_error;
use std::cell::Cell;
use std::fs::{File, Metadata, OpenFile, Permissions};
use std::io::{self, ErrorKind};
use std::os::unix::fs::FileExt;

/// A file that keeps the error of its first call that failed, for who has the disk on it. A read behind its end is such a call.
#[derive(Drop)]
pub struct NotedFile {
    file: File,
    /// The file whose place it took. It stays open, and so locked, as long as this one.
    _before: Option<File>,
    error: Cell<Option<io::Error>>,
    has_lost: Cell<bool>,
}

impl NotedFile {
    /// This file, of which no call has failed, and the one whose place it took, if it took one's: that stays open as long as this one.
    pub fn new(file: File, before: Option<File>) -> NotedFile {
        NotedFile {
            file,
            _before: before,
            error: Cell::new(None),
            has_lost: Cell::new(false),
        }
    }

    /// Whether a sync of it has failed.
    pub fn has_lost(&self) -> bool {
        self.has_lost.get()
    }

    /// Why its first call that failed did.
    pub fn error(&self) -> Option<io::Error> {
        self.error.get()
    }

    /// Keeps the error of this outcome, where it is the first one.
    fn note<T>(&self, outcome: &io::Result<T>) {
        self.error.set(first_error(self.error.get(), outcome));
    }

    /// The same of a sync.
    fn note_sync(&self, outcome: &io::Result<()>) {
        self.note(outcome);
        if outcome.is_err() {
            self.has_lost.set(true);
        }
    }

    /// The same of a call that was to read or write something, and did nothing.
    fn note_count(&self, outcome: &io::Result<usize>) {
        match outcome {
            Ok(0) => self.note::<()>(&Err(io::Error::from(ErrorKind::UnexpectedEof))),
            _ => self.note(outcome),
        }
    }
}

impl FileExt for NotedFile {
    fn read_at(&self, room: &mut [u8], at: u64) -> io::Result<usize> {
        let outcome = self.file.read_at(room, at);
        self.note_count(&outcome);
        outcome
    }

    fn write_at(&self, bytes: &[u8], at: u64) -> io::Result<usize> {
        let outcome = self.file.write_at(bytes, at);
        self.note_count(&outcome);
        outcome
    }
}

impl OpenFile for NotedFile {
    fn metadata(&self) -> io::Result<Metadata> {
        let outcome = self.file.metadata();
        self.note(&outcome);
        outcome
    }

    fn set_len(&self, size: u64) -> io::Result<()> {
        let outcome = self.file.set_len(size);
        self.note(&outcome);
        outcome
    }

    fn sync_all(&self) -> io::Result<()> {
        let outcome = self.file.sync_all();
        self.note_sync(&outcome);
        outcome
    }

    fn sync_data(&self) -> io::Result<()> {
        let outcome = self.file.sync_data();
        self.note_sync(&outcome);
        outcome
    }

    fn set_permissions(&self, rights: Permissions) -> io::Result<()> {
        let outcome = self.file.set_permissions(rights);
        self.note(&outcome);
        outcome
    }
}
