//! A new file in the folder of the file that it replaces.
ghost use Rattle.std.specs.Prelude.{◌≡◌, IfOk};

use crate::replacement::{Replacement, Stage};
use std::alloc::Global;
use std::fs::{Files, OpenFile, OpenOptions, Permissions};
use std::io;
use std::io::ErrorKind;
use std::os::unix::fs::OpenOptionsExt;
use std::path::PathBuf;

// The most names that are tried for a new file.
const MOST_NAMES: u32 = 10_000;

// The permissions of a new file that replaces none, before the mask of the process.
const READ_AND_WRITE: u32 = 0o666;

// Those of one that replaces another, until it gets those of that one.
const OWN_READ_AND_WRITE: u32 = 0o600;

/// A new file, which is synchronised and renamed through the file system that it was made in.
#[derive(Drop)]
pub struct NewFile<'a, S: Files> {
    files: &'a S,
    file: S::File,
    name: PathBuf,
    replaced: PathBuf,
    stage: Stage,
}

// The path of a new file with this number, in the folder of another.
fn numbered(alloc: Global, replaced: &PathBuf, number: u32) -> io::Result<PathBuf> {
    let name = format!(in alloc; ".polytwkb-{number}.tmp")?;
    let mut path = PathBuf::from_str(alloc, replaced.as_path().as_str())?;
    path.set_file_name(name.as_str())?;
    Ok(path)
}

// Makes a file with the first numbered name that the folder has not, and with this mode.
fn make<S: Files>(
    alloc: Global,
    files: &S,
    replaced: &PathBuf,
    mode: u32,
) -> io::Result<(S::File, PathBuf)> {
    let mut how = OpenOptions::new();
    how.write(true).create_new(true).mode(mode);
    for number in 0..MOST_NAMES {
        let name = numbered(alloc, replaced, number)?;
        match how.open(files, &name) {
            Ok(file) => return Ok((file, name)),
            Err(fault) if fault.kind() == ErrorKind::AlreadyExists => {}
            Err(fault) => return Err(fault),
        }
    }
    Err(io::Error::from(ErrorKind::AlreadyExists))
}

impl<'a, S: Files> NewFile<'a, S> {
    /// Makes a new file in the folder of this path, which it may replace. It has these permissions,
    /// or those of any new file if they are `None`. Takes memory for its name.
    pub fn create(
        alloc: Global,
        files: &'a S,
        replaced: PathBuf,
        permissions: Option<Permissions>,
    ) -> io::Result<NewFile<'a, S>>
        ensures { IfOk result (λ new. new.stage ≡ Stage.Written) }
    {
        let mode = match permissions {
            Some(_) => OWN_READ_AND_WRITE,
            None => READ_AND_WRITE,
        };
        let (file, name) = make(alloc, files, &replaced, mode)?;
        let stage = Stage::Written;
        let mut new = NewFile {
            files,
            file,
            name,
            replaced,
            stage,
        };
        if let Some(permissions) = permissions {
            if let Err(fault) = new.file.set_permissions(permissions) {
                new.remove();
                return Err(fault);
            }
        }
        Ok(new)
    }

    /// Another handle of the file, to write to it.
    pub fn handle(&self) -> io::Result<S::File> {
        self.file.try_clone()
    }
}

impl<S: Files> Replacement for NewFile<'_, S> {
    ghost stage = { λ new. new.stage };

    fn synchronise(&mut self) -> io::Result<()> {
        self.file.sync_all()?;
        self.stage = Stage::Synchronised;
        Ok(())
    }

    fn put_in_place(&mut self) -> io::Result<()> {
        self.files.rename(
            self.name.as_path().as_str(),
            self.replaced.as_path().as_str(),
        )?;
        self.stage = Stage::InPlace;
        Ok(())
    }

    fn remove(&mut self) {
        let _ = self.files.remove_file(self.name.as_path().as_str());
        self.stage = Stage::Removed;
    }
}
