//! A file that is written beside the one whose name it takes then.

use crate::target::looked_at;
use rep_renewal::{Beside, Identity, NEW_RIGHTS, OWN_RIGHTS, Unnamed, answered};
use std::fs::{File, Files, Metadata};
use std::io::{self, Write};
use std::path::PathBuf;

/// A file that is written beside the one whose name it takes.
#[derive(Drop)]
pub(crate) struct NewFile {
    beside: Beside,
    /// The disk whose name it does not take.
    disk: Identity,
}

impl NewFile {
    /// A new file beside this name, which it is to take from the file of which this is known, where there is one, unless that is this disk.
    ///
    /// Refuses with `OutOfMemory`, and with `StreamFault` where the system refuses it. What was made then is removed, once the system told which
    /// file it is.
    pub(crate) fn beside<R: Files<File = File> + AllocGlobal>(
        rt: &R,
        name: PathBuf,
        old: Option<Metadata>,
        disk: Identity,
    ) -> Result<NewFile, Unnamed> {
        let rights = if old.is_some() {
            OWN_RIGHTS
        } else {
            NEW_RIGHTS
        };
        let new = NewFile {
            beside: Beside::new(rt, name, rights)?,
            disk,
        };
        match old {
            Some(old) => new.with_rights(rt, &old),
            None => Ok(new),
        }
    }

    /// The file with the rights of this one.
    ///
    /// Refuses with `StreamFault` where the system refuses them, and then the new file is removed.
    fn with_rights<R: Files<File = File>>(
        self,
        rt: &R,
        old: &Metadata,
    ) -> Result<NewFile, Unnamed> {
        match self.beside.give_rights(old) {
            Ok(()) => Ok(self),
            Err(fault) => {
                self.beside.remove(rt);
                Err(fault)
            }
        }
    }

    /// Has the file take its name, once its bytes are on the device. What has the name is looked at again: long may have passed since.
    ///
    /// Refuses with `StreamFault` where the device or the system does, and what may be a disk now.
    fn take_name<R: Files<File = File>>(&self, rt: &R) -> Result<(), Unnamed> {
        answered(self.beside.file().sync_all())?;
        looked_at(rt, self.beside.name(), self.disk)?;
        self.beside.take_name(rt)
    }

    /// The same where all was written.
    ///
    /// Refuses as the writing did, and else as `take_name` does.
    fn take_name_of<R: Files<File = File>, T: Drop>(
        &self,
        rt: &R,
        written: Result<T, Unnamed>,
    ) -> Result<T, Unnamed> {
        let value = written?;
        self.take_name(rt)?;
        Ok(value)
    }

    /// Ends the file, into which all was written, or not: it has its name then, which is synced, or else is removed.
    ///
    /// Refuses as the writing did; with `StreamFault` where the device or the system does, and what may be a disk now; and with `StreamFault`
    /// where the folder's sync fails: the file has its name then.
    pub(crate) fn end<R: Files<File = File>, T: Drop>(
        self,
        rt: &R,
        written: Result<T, Unnamed>,
    ) -> Result<T, Unnamed> {
        match self.take_name_of(rt, written) {
            Ok(value) => {
                self.beside.sync_folder()?;
                Ok(value)
            }
            Err(fault) => {
                self.beside.remove(rt);
                Err(fault)
            }
        }
    }
}

impl Write for NewFile {
    fn write(&mut self, bytes: &[u8]) -> io::Result<usize> {
        let mut file = self.beside.file();
        file.write(bytes)
    }

    fn flush(&mut self) -> io::Result<()> {
        Ok(())
    }
}
