//! The files of a folder at a path.
ghost use Rattle.std.specs.Prelude.{⊤};

use crate::folder::FolderFiles;
use command_questions::RecordFiles;
use net_plan::{Counted, TEXT_LIMIT, TextFault, read_within};
use std::alloc::{AllocError, Global};
use std::fs::{self, File};
use std::io;
use std::path::Path;
use std::rt::Files;

/// The files of the folder at a path, each of which is opened once it is read.
#[derive(Drop)]
pub struct FilesInFolder<'a, R: Files + AllocGlobal + Clone + Drop> {
    rt: &'a R,
    folder: &'a str,
}

impl<'a, R: Files + AllocGlobal + Clone + Drop> FilesInFolder<'a, R> {
    /// The files of the folder at this path. Nothing is opened yet.
    pub fn new(rt: &'a R, folder: &'a str) -> FilesInFolder<'a, R> {
        FilesInFolder { rt, folder }
    }

    fn path_of(&self, alloc: Global, path: &str) -> Result<String, AllocError> {
        Ok(Path::new(self.folder).join(alloc, path)?.into_string())
    }
}

impl<R: Files + AllocGlobal + Clone + Drop> FolderFiles for FilesInFolder<'_, R> {
    // What files hold isn't known.
    ghost reads = { λ s path given. ⊤ };

    ghost lists = { λ s given. ⊤ };

    fn read(&self, alloc: Global, path: &str) -> Result<Option<Vec<u8>>, TextFault> {
        let path = self.path_of(alloc, path)?;
        if is_there(self.rt, &path) {
            Ok(Some(read_file(self.rt, alloc, &path, TEXT_LIMIT)?))
        } else {
            Ok(None)
        }
    }

    fn list_runs(&self, alloc: Global) -> Result<Vec<String>, TextFault> {
        let path = self.path_of(alloc, "runs")?;
        if is_there(self.rt, &path) {
            names_in(self.rt, alloc, &path)
        } else {
            Ok(Vec::new(alloc))
        }
    }
}

/// The most bytes of a record (DSP0248): its header, and as many as a length of two bytes tells.
const MOST_BYTES: usize = 65_545;

impl<R: Files + AllocGlobal + Clone + Drop> RecordFiles for FilesInFolder<'_, R> {
    // What files hold isn't known.
    ghost holds = { λ s name bytes. ⊤ };

    fn read(&self, alloc: Global, name: &str) -> Result<Vec<u8>, TextFault> {
        let path = self.path_of(alloc, name)?;
        read_file(self.rt, alloc, &path, MOST_BYTES)
    }
}

/// Whether anything stands at a path. Where the system doesn't tell, something may.
fn is_there<R: Files>(rt: &R, path: &str) -> bool {
    match fs::symlink_metadata(rt, path) {
        Ok(_) => true,
        Err(error) => error.kind() != io::ErrorKind::NotFound,
    }
}

/// The bytes of the file at a path, if they are no more than this.
fn read_file<R: Files>(
    rt: &R,
    alloc: Global,
    path: &str,
    limit: usize,
) -> Result<Vec<u8>, TextFault> {
    match File::open(rt, path) {
        Ok(file) => read_within(alloc, &mut Counted::new(file), limit),
        Err(error) => Err(fault_of(error)),
    }
}

/// The names of what stands in a folder.
fn names_in<R: Files + AllocGlobal + Clone + Drop>(
    rt: &R,
    alloc: Global,
    path: &str,
) -> Result<Vec<String>, TextFault> {
    let entries = match fs::read_dir(rt, path) {
        Ok(entries) => entries,
        Err(error) => return Err(fault_of(error)),
    };
    let mut names = Vec::new(alloc);
    for entry in entries {
        match entry {
            Ok(entry) => add_name(alloc, entry.file_name(), &mut names)?,
            Err(error) => return Err(fault_of(error)),
        }
    }
    Ok(names)
}

fn add_name(alloc: Global, name: &str, names: &mut Vec<String>) -> Result<(), AllocError> {
    names.push(name.to_string(alloc)?)?;
    Ok(())
}

fn fault_of(error: io::Error) -> TextFault {
    match error.kind() {
        io::ErrorKind::OutOfMemory => TextFault::OutOfMemory,
        _ => TextFault::Device,
    }
}
