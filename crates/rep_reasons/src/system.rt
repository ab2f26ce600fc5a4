//! What the system said of a file, in an operator's words.

use std::io::{self, ErrorKind};

/// The numbers of Linux for too many open files: of the program, and of the system.
const TOO_MANY: [i32; 2] = [24, 23];

/// The number of Linux for a descriptor that is closed, or that is not open for what is asked.
const CLOSED: i32 = 9;

/// The words for this kind of error, where there are own ones.
fn words_of_kind(kind: ErrorKind) -> Option<&'static str> {
    match kind {
        ErrorKind::NotFound => Some("no such file"),
        ErrorKind::AlreadyExists => Some("exists already"),
        ErrorKind::PermissionDenied => Some("no right to it"),
        ErrorKind::ReadOnlyFilesystem => Some("the file system is read-only"),
        ErrorKind::StorageFull => Some("no room on the file system"),
        ErrorKind::QuotaExceeded => Some("no room within the quota"),
        ErrorKind::FileTooLarge => Some("larger than the system lets a file be"),
        ErrorKind::IsADirectory => Some("a folder"),
        ErrorKind::NotADirectory => Some("a part of the path is no folder"),
        ErrorKind::FilesystemLoop => Some("links that lead in a circle"),
        ErrorKind::InvalidFilename => Some("a name that is too long"),
        ErrorKind::ResourceBusy | ErrorKind::WouldBlock => Some("in use by another program"),
        ErrorKind::BrokenPipe => Some("nobody reads it"),
        ErrorKind::UnexpectedEof => Some("it ends before the bytes that are needed"),
        _ => None,
    }
}

/// The words for this error, where there are own ones.
pub(crate) fn words_of(error: &io::Error) -> Option<&'static str> {
    match error.raw_os_error() {
        Some(code) if TOO_MANY.contains(&code) => Some("too many open files"),
        Some(CLOSED) => Some("it is closed"),
        _ => words_of_kind(error.kind()),
    }
}
