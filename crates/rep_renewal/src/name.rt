//! Names of files: what they mean, and which file it is that has one.

use rep_reasons::{Cause, Fault};
use rep_types::Refusal;
use std::fs::{self, File, Files, Metadata};
use std::io::{self, ErrorKind};
use std::os::unix::fs::MetadataExt;
use std::path::{Path, PathBuf};

/// How many links a name may lead through, one behind the other: as many as Linux follows.
const LINKS: u32 = 40;

/// A fault of a file whose name is said later.
pub type Unnamed = Fault<'static>;

/// The fault of a file that is refused for this cause.
pub fn refused(cause: Cause) -> Unnamed {
    Fault::new(Refusal::StreamFault, cause)
}

/// What the system answered of a file. A failure is `StreamFault`.
pub fn answered<T>(answer: io::Result<T>) -> Result<T, Unnamed> {
    match answer {
        Ok(value) => Ok(value),
        Err(error) => Err(refused(Cause::System(error))),
    }
}

/// The outcome, whose fault, if it is one, is that of the file of this name.
pub fn named<T>(outcome: Result<T, Unnamed>, name: &str) -> Result<T, Fault<'_>> {
    match outcome {
        Ok(value) => Ok(value),
        Err(fault) => Err(fault.of(name)),
    }
}

/// Which file it is, whatever names it has: its device, and its number there.
#[derive(Clone, Copy, PartialEq, Eq)]
pub struct Identity {
    device: u64,
    number: u64,
}

impl Identity {
    /// That of the file of which this is known.
    pub fn of(known: &Metadata) -> Identity {
        Identity {
            device: known.dev(),
            number: known.ino(),
        }
    }

    /// Whether this name, which is no link's, is that of the file of which this is known.
    ///
    /// Refuses with `StreamFault` where the system does not tell.
    pub fn is_named<R: Files<File = File>>(
        rt: &R,
        name: &str,
        known: &Metadata,
    ) -> Result<bool, Unnamed> {
        let named = answered(fs::symlink_metadata(rt, name))?;
        Ok(Identity::of(&named) == Identity::of(known))
    }
}

/// Whether the name is one of a stream that a program has open. Such names lead to files as links do, but what is written there belongs
/// behind what the stream has.
pub fn is_stream(name: &str) -> bool {
    name == "/dev/stdout"
        || name == "/dev/stderr"
        || name.starts_with("/dev/fd/")
        || name.starts_with("/proc/")
}

/// Whether the name is one of the program's own standard output.
pub fn is_standard_output(name: &str) -> bool {
    name == "/dev/stdout" || name == "/dev/fd/1" || name == "/proc/self/fd/1"
}

/// The folder in which a name stands.
pub(crate) fn folder_of(name: Path<'_>) -> Path<'_> {
    match name.parent() {
        Some(folder) if !folder.as_str().is_empty() => folder,
        _ => Path::new("."),
    }
}

/// What is known of the file that has this name, or the one that its links lead to; nothing where nothing has it.
///
/// Refuses with `StreamFault` where the system does not tell.
pub fn found_at<R: Files<File = File>>(rt: &R, name: &str) -> Result<Option<Metadata>, Unnamed> {
    match fs::metadata(rt, name) {
        Ok(known) => Ok(Some(known)),
        Err(error) if error.kind() == ErrorKind::NotFound => Ok(None),
        Err(error) => Err(refused(Cause::System(error))),
    }
}

/// What is known of what has this name, a link itself too; nothing where nothing has it.
///
/// Refuses with `StreamFault` where the system does not tell.
pub fn found_itself<R: Files<File = File>>(
    rt: &R,
    name: &str,
) -> Result<Option<Metadata>, Unnamed> {
    match fs::symlink_metadata(rt, name) {
        Ok(known) => Ok(Some(known)),
        Err(error) if error.kind() == ErrorKind::NotFound => Ok(None),
        Err(error) => Err(refused(Cause::System(error))),
    }
}

/// Whether the name is that of a link, and of no stream.
///
/// Refuses with `StreamFault` where the system does not tell.
fn is_link<R: Files<File = File>>(rt: &R, name: &str) -> Result<bool, Unnamed> {
    if is_stream(name) {
        return Ok(false);
    }
    Ok(match found_itself(rt, name)? {
        Some(known) => known.is_symlink(),
        None => false,
    })
}

/// The name that this link leads to.
///
/// Refuses with `OutOfMemory`, and with `StreamFault` where the system does not tell, or where the name is no UTF-8.
fn behind_link<R: Files<File = File> + AllocGlobal>(
    rt: &R,
    link: Path<'_>,
) -> Result<PathBuf, Unnamed> {
    match fs::read_link(rt, link) {
        Ok(text) => Ok(folder_of(link).join(rt.alloc(), text.as_path())?),
        Err(error) if error.kind() == ErrorKind::OutOfMemory => {
            Err(Fault::from(Refusal::OutOfMemory))
        },
        Err(error) => Err(refused(Cause::System(error))),
    }
}

/// The name to which this one leads, link by link. Nothing may have it yet, and it is no link's, but that of a stream may be.
///
/// Refuses with `OutOfMemory`, and with `StreamFault` where the system does not tell, where a link leads to a name that is no UTF-8, and
/// where there are over 40 links.
pub fn meant_by<R: Files<File = File> + AllocGlobal>(
    rt: &R,
    name: &str,
) -> Result<PathBuf, Unnamed> {
    let mut name = Path::new(name).to_path_buf(rt.alloc())?;
    for _ in 0..LINKS {
        if !is_link(rt, name.as_str())? {
            return Ok(name);
        }
        name = behind_link(rt, name.as_path())?;
    }
    Err(refused(Cause::System(io::Error::from(ErrorKind::FilesystemLoop))))
}

/// Removes the file that has this name, where it is this one. Where the system refuses that, it stays.
pub fn remove_file<R: Files<File = File>>(rt: &R, name: &str, file: Identity) {
    if let Ok(known) = fs::symlink_metadata(rt, name) {
        if Identity::of(&known) == file {
            let _ = fs::remove_file(rt, name);
        }
    }
}
