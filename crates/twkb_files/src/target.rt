//! Where a file's name leads, and how that is written.
ghost use Rattle.std.specs.Prelude.{◌≡◌, IfOk, IfSome};

use crate::new_file::NewFile;
use crate::replacement::{Replacement, Stage};
use std::alloc::Global;
use std::fs::{Files, OpenFile, OpenOptions, Permissions};
use std::io;
use std::io::ErrorKind;
use std::path::PathBuf;

// The most links that are followed, as Linux follows them.
const MOST_LINKS: u32 = 40;

/// An open output: the file to write, and the new file that it is, unless it is a device or a pipe.
#[derive(Drop)]
pub struct Target<'a, S: Files> {
    pub file: S::File,
    pub new: Option<NewFile<'a, S>>,
}

// Where the links at a path lead, whether there is a file or not.
fn linked<S: Files>(alloc: Global, files: &S, name: &str) -> io::Result<PathBuf> {
    let mut path = PathBuf::from_str(alloc, name)?;
    for _ in 0..MOST_LINKS {
        let Ok(link) = files.read_link(alloc, path.as_path().as_str()) else {
            return Ok(path);
        };
        path.pop();
        path.push(link)?;
    }
    Ok(path)
}

// Makes a new file for the path that a name leads to, with these permissions if there are any.
fn new_target<'a, S: Files>(
    alloc: Global,
    files: &'a S,
    name: &str,
    permissions: Option<Permissions>,
) -> io::Result<Target<'a, S>>
    ensures { IfOk result (λ target. IfSome target.new (λ new. new.stage ≡ Stage.Written)) }
{
    let replaced = linked(alloc, files, name)?;
    let mut new = NewFile::create(alloc, files, replaced, permissions)?;
    match new.handle() {
        Ok(file) => Ok(Target {
            file,
            new: Some(new),
        }),
        Err(fault) => {
            new.remove();
            Err(fault)
        }
    }
}

/// Opens the output with this name: a new file for one that is not there or that is a regular file,
/// whose permissions it gets, and anything else itself. A file that may not be written is refused.
/// Takes memory for names.
pub fn open_target<'a, S: Files>(
    alloc: Global,
    files: &'a S,
    name: &str,
) -> io::Result<Target<'a, S>>
    ensures { IfOk result (λ target. IfSome target.new (λ new. new.stage ≡ Stage.Written)) }
{
    match OpenOptions::new().write(true).open(files, name) {
        Ok(file) => {
            let there = file.metadata()?;
            if there.is_file() {
                return new_target(alloc, files, name, Some(there.permissions()));
            }
            Ok(Target { file, new: None })
        }
        Err(fault) if fault.kind() == ErrorKind::NotFound => new_target(alloc, files, name, None),
        Err(fault) => Err(fault),
    }
}
