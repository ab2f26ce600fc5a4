//! A file that is made beside a name, and takes it once it is whole.

use crate::name::{Identity, Unnamed, answered, folder_of, refused, remove_file};
use rep_reasons::Cause;
use std::fs::{self, File, Files, Metadata, OpenOptions};
use std::io::{self, ErrorKind};
use std::os::unix::fs::{MetadataExt, OpenOptionsExt, fchown};
use std::path::{Path, PathBuf};

/// How many names are tried for the new file. Each may be that of a file that another program writes now, or that a stop has left.
const NAMES: u32 = 1_000;

/// So many bytes of the name that it takes does its own have at most: with what is put round them it fits where names have no more than 143 bytes,
/// the least limit in use.
const FRONT: usize = 100;

/// The rights of a file that takes the name of none, before the process's mask.
pub const NEW_RIGHTS: u32 = 0o666;

/// The rights of a file that takes another's name, until it has that one's.
pub const OWN_RIGHTS: u32 = 0o600;

/// A new file beside a name, which it is to take. It has a name of its own until then.
#[derive(Drop)]
pub struct Beside {
    file: File,
    /// Which one it is, and its own name.
    identity: Identity,
    own: PathBuf,
    /// The name that it takes, and the folder in which both names are.
    name: PathBuf,
    folder: File,
}

/// As much of a name as its file's has of it.
fn front_of(name: &str) -> &str {
    for length in (0..=FRONT).rev() {
        if let Some(front) = name.get(..length) {
            return front;
        }
    }
    ""
}

/// The name beside this one with this number.
///
/// Refuses with `OutOfMemory`, and with `StreamFault` what is no file's name.
fn name_beside<R: AllocGlobal>(rt: &R, name: Path<'_>, number: u32) -> Result<PathBuf, Unnamed> {
    let Some(last) = name.file_name() else {
        return Err(refused(Cause::Words("it is no file's name")));
    };
    let own = format!(in rt.alloc(); ".{}.new-{number}", front_of(last))?;
    Ok(name.with_file_name(rt.alloc(), own.as_str())?)
}

/// Removes the names beside this one that this file was made under, and kept: a stop came before it lost them.
///
/// Refuses with `OutOfMemory`, and with `StreamFault` what is no file's name.
pub(crate) fn remove_own_names<R: Files<File = File> + AllocGlobal>(
    rt: &R,
    name: Path<'_>,
    file: Identity,
) -> Result<(), Unnamed> {
    for number in 1..=NAMES {
        let own = name_beside(rt, name, number)?;
        remove_file(rt, own.as_str(), file);
    }
    Ok(())
}

/// A new file of these rights beside this name, and its own.
///
/// Refuses with `OutOfMemory`, and with `StreamFault` where the system refuses one, or has files of all names that are tried.
fn made_beside<R: Files<File = File> + AllocGlobal>(
    rt: &R,
    name: Path<'_>,
    rights: u32,
) -> Result<(File, PathBuf), Unnamed> {
    let mut options = OpenOptions::new();
    options.read(true).write(true).create_new(true).mode(rights);
    for number in 1..=NAMES {
        let own = name_beside(rt, name, number)?;
        match options.open(rt, own.as_path()) {
            Ok(file) => return Ok((file, own)),
            Err(error) if error.kind() == ErrorKind::AlreadyExists => {}
            Err(error) => return Err(refused(Cause::System(error))),
        }
    }
    Err(refused(Cause::Words("files with all names that are tried are beside it")))
}

/// Whether the system says so that the file system has no hard links.
fn is_without_links(error: &io::Error) -> bool {
    matches!(
        error.kind(),
        ErrorKind::PermissionDenied | ErrorKind::Unsupported
    )
}

impl Beside {
    /// A new file of these rights beside this name, which it is to take.
    ///
    /// Refuses with `OutOfMemory`, and with `StreamFault` what is no file's name, and where the system refuses it.
    pub fn new<R: Files<File = File> + AllocGlobal>(
        rt: &R,
        name: PathBuf,
        rights: u32,
    ) -> Result<Beside, Unnamed> {
        let folder = answered(File::open(rt, folder_of(name.as_path())))?;
        let (file, own) = made_beside(rt, name.as_path(), rights)?;
        let identity = Identity::of(&answered(file.metadata())?);
        Ok(Beside {
            file,
            identity,
            own,
            name,
            folder,
        })
    }

    /// The file.
    pub fn file(&self) -> &File {
        &self.file
    }

    /// The name that it takes.
    pub fn name(&self) -> &str {
        self.name.as_str()
    }

    /// Gives the file the rights of the one whose name it takes; and its owner and its group, as far as the system lets this program give these.
    ///
    /// Refuses with `StreamFault` where the system refuses the rights.
    pub fn give_rights(&self, old: &Metadata) -> Result<(), Unnamed> {
        let (user, group) = (Some(old.uid()), Some(old.gid()));
        if fchown(&self.file, user, group).is_err() {
            let _ = fchown(&self.file, None, group);
        }
        answered(self.file.set_permissions(old.permissions()))
    }

    /// Has the file take its name, which it takes from the file that has it, if one has.
    ///
    /// Refuses with `StreamFault` where the system refuses it.
    pub fn take_name<R: Files<File = File>>(&self, rt: &R) -> Result<(), Unnamed> {
        answered(fs::rename(rt, self.own.as_path(), self.name.as_path()))
    }

    /// Has the file take its name, which nothing has, and lose its own. Answers `false` where the file system has no names of this kind (hard links), and then
    /// nothing changed.
    ///
    /// Refuses with `StreamFault` where something has the name, and where the system refuses it.
    pub fn take_new_name<R: Files<File = File>>(&self, rt: &R) -> Result<bool, Unnamed> {
        match fs::hard_link(rt, self.own.as_path(), self.name.as_path()) {
            Ok(()) => {
                self.remove(rt);
                Ok(true)
            }
            Err(error) if is_without_links(&error) => Ok(false),
            Err(error) => Err(refused(Cause::System(error))),
        }
    }

    /// The file's own name, which it has until it takes the other one.
    pub fn own_name(&self) -> &str {
        self.own.as_str()
    }

    /// Brings the names in the folder to the device.
    ///
    /// Refuses with `StreamFault` where the device fails.
    pub fn sync_folder(&self) -> Result<(), Unnamed> {
        answered(self.folder.sync_all())
    }

    /// Removes the new file's own name, while it has it.
    pub fn remove<R: Files<File = File>>(&self, rt: &R) {
        remove_file(rt, self.own.as_str(), self.identity);
    }

    /// Removes the name that the new file took, while it has it.
    pub fn give_up_name<R: Files<File = File>>(&self, rt: &R) {
        remove_file(rt, self.name.as_str(), self.identity);
    }

    /// The file, whose work here is done.
    pub fn into_file(self) -> File {
        self.file
    }
}
