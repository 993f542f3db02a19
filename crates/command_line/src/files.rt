//! Files that are opened only once they are read or written.
ghost use Rattle.std.{specs.Io.{ReadsAtMost, WritesAtMost}, specs.Io.KnownBytes.{ReadConsumes}, specs.Option.{option_and_then}, specs.Prelude.{◌≡◌, None, ⊤}};
ghost use Rattle.either.specs.Either.{either};
ghost use Rattle.net_plan.specs.Stream.{HasRoom};

use command_questions::RecordFiles;
use either::Either;
use net_plan::{Counted, Failed, Sink, TextFault, read_within, write_whole};
use std::alloc::{AllocError, Global};
use std::fs::File;
use std::io::{self, Input, Read, Write};
use std::path::Path;
use std::rt::Files;
use step_files::TextFiles;

/// The path that stands for standard input.
const STANDARD_INPUT: &str = "-";

/// The file at a path, opened at its first read, or standard input where the path is `-`. Where it can't be opened,
/// that read fails.
#[derive(Drop)]
pub struct FileAtPath<'a, R: Files + Input> {
    rt: &'a R,
    path: &'a str,
    opened: Option<Either<R::File, R::Reader>>,
    failure: Option<io::Error>,
}

impl<'a, R: Files + Input> FileAtPath<'a, R> {
    /// The file at this path. Nothing is opened yet.
    pub fn new(rt: &'a R, path: &'a str) -> FileAtPath<'a, R> {
        FileAtPath {
            rt,
            path,
            opened: None,
            failure: None,
        }
    }

    /// Tells the file's path and the system's reason, where it could not be opened or a read failed. Want of memory for
    /// that line and a sink that fails are passed over.
    pub fn tell_failure<E: Sink>(&self, alloc: Global, errors: &mut E)
        requires { HasRoom (E.account errors.old) }
    {
        tell_failure_of(alloc, self.path, self.failure, errors);
    }
}

/// Tells a path and the system's reason why a file could not be opened, read or written, if that is so.
fn tell_failure_of<E: Sink>(alloc: Global, path: &str, failure: Option<io::Error>, errors: &mut E)
    requires { HasRoom (E.account errors.old) }
{
    let Some(failure) = failure else {
        return;
    };
    if let Ok(line) = format!(in alloc; "{path}: {failure}\n") {
        let _ = write_whole(errors, line.as_bytes());
    }
}

impl<R: Files + Input> Read for FileAtPath<'_, R> {
    // The bytes of a file are known, if at all, once it is open.
    ghost remaining = { λ s. option_and_then (either R.File.remaining R.Reader.remaining) s.opened };

    fn read(&mut self, buf: &mut [u8]) -> io::Result<usize> {
        let read = read_opened(self, buf);
        if let Err(error) = read {
            self.failure = Some(error);
        }
        read
    }
}

/// Reads from a file, which is opened first where it isn't open yet.
fn read_opened<R: Files + Input>(file: &mut FileAtPath<'_, R>, buf: &mut [u8]) -> io::Result<usize>
    ensures bound { ReadsAtMost result buf.new }
    ensures bytes { let left_in = option_and_then (either R.File.remaining R.Reader.remaining) in
        ReadConsumes (left_in file.old.opened) (left_in file.new.opened) result buf.new }
{
    if file.opened.is_none() {
        file.opened = Some(open(file.rt, file.path)?);
    }
    match &mut file.opened {
        Some(opened) => opened.read(buf),
        None => unreachable!(),
    }
}

/// Standard input, or the file at a path.
fn open<R: Files + Input>(rt: &R, path: &str) -> io::Result<Either<R::File, R::Reader>> {
    if path == STANDARD_INPUT {
        return Ok(Either::Right(rt.reader()));
    }
    Ok(Either::Left(File::open(rt, path)?))
}

/// The file at a path, made or emptied at its first write. Where it can't be, that write fails.
#[derive(Drop)]
pub struct FileToWrite<'a, R: Files> {
    rt: &'a R,
    path: &'a str,
    opened: Option<R::File>,
    failure: Option<io::Error>,
}

impl<'a, R: Files> FileToWrite<'a, R> {
    /// The file at this path. Nothing is opened yet.
    pub fn new(rt: &'a R, path: &'a str) -> FileToWrite<'a, R> {
        FileToWrite {
            rt,
            path,
            opened: None,
            failure: None,
        }
    }

    /// Tells the file's path and the system's reason, where it could not be made or a write failed. Want of memory for
    /// that line and a sink that fails are passed over.
    pub fn tell_failure<E: Sink>(&self, alloc: Global, errors: &mut E)
        requires { HasRoom (E.account errors.old) }
    {
        tell_failure_of(alloc, self.path, self.failure, errors);
    }
}

impl<R: Files> Write for FileToWrite<'_, R> {
    fn write(&mut self, buf: &[u8]) -> io::Result<usize> {
        let written = write_opened(self, buf);
        if let Err(error) = written {
            self.failure = Some(error);
        }
        written
    }

    // Nothing is kept back.
    fn flush(&mut self) -> io::Result<()> {
        Ok(())
    }
}

/// Writes to a file, which is made or emptied first where it isn't open yet.
fn write_opened<R: Files>(file: &mut FileToWrite<'_, R>, buf: &[u8]) -> io::Result<usize>
    ensures { WritesAtMost result buf.now }
{
    let mut opened = match file.opened.take() {
        Some(opened) => opened,
        None => File::create(file.rt, file.path)?,
    };
    let written = opened.write(buf);
    file.opened = Some(opened);
    written
}

/// Files at paths, each made or emptied as it is written. Where one can't be, that write fails.
#[derive(Drop)]
pub struct FilesAtPaths<'a, R: Files> {
    rt: &'a R,
    alloc: Global,
    failures: u64,
    failed: Option<String>,
    failure: Option<io::Error>,
}

impl<'a, R: Files> FilesAtPaths<'a, R> {
    /// Nothing is opened yet.
    pub fn new(rt: &'a R, alloc: Global) -> FilesAtPaths<'a, R>
        ensures { result.failures ≡ 0 }
    {
        FilesAtPaths {
            rt,
            alloc,
            failures: 0,
            failed: None,
            failure: None,
        }
    }

    /// Tells the path and the system's reason of the last file that could not be written. Want of memory for that line
    /// and a sink that fails are passed over.
    pub fn tell_failure<E: Sink>(&self, errors: &mut E)
        requires { HasRoom (E.account errors.old) }
    {
        if let Some(path) = &self.failed {
            tell_failure_of(self.alloc, path, self.failure, errors);
        }
    }
}

impl<R: Files> TextFiles for FilesAtPaths<'_, R> {
    // What files hold isn't known.
    ghost account = { λ s. record { files = None; failures = s.failures } };

    fn write(&mut self, path: &str, text: &str) -> Result<(), Failed> {
        let mut file = Counted::new(FileToWrite::new(self.rt, path));
        match write_whole(&mut file, text.as_bytes()) {
            Ok(()) => Ok(()),
            Err(failed) => {
                self.failures += 1;
                self.failed = path.to_string(self.alloc).ok();
                self.failure = file.inner().failure;
                Err(failed)
            }
        }
    }
}

/// The files beside a board, by their paths from its folder. A path from the root is taken as it is.
#[derive(Drop)]
pub struct FilesBeside<'a, R: Files + Input> {
    rt: &'a R,
    board: &'a str,
}

impl<'a, R: Files + Input> FilesBeside<'a, R> {
    /// The files beside the board at this path. Nothing is opened yet.
    pub fn new(rt: &'a R, board: &'a str) -> FilesBeside<'a, R> {
        FilesBeside { rt, board }
    }
}

/// The most bytes of a record (DSP0248): its header, and as many as a length of two bytes tells.
const MOST_BYTES: usize = 65_545;

impl<R: Files + Input> RecordFiles for FilesBeside<'_, R> {
    // What files hold isn't known.
    ghost holds = { λ s name bytes. ⊤ };

    fn read(&self, alloc: Global, name: &str) -> Result<Vec<u8>, TextFault> {
        let path = path_beside(alloc, self.board, name)?;
        let mut file = Counted::new(FileAtPath::new(self.rt, &path));
        read_within(alloc, &mut file, MOST_BYTES)
    }
}

/// The path of a file in the folder of another.
fn path_beside(alloc: Global, other: &str, name: &str) -> Result<String, AllocError> {
    let folder = match Path::new(other).parent() {
        Some(folder) if !folder.as_str().is_empty() => folder,
        _ => Path::new("."),
    };
    Ok(folder.join(alloc, name)?.into_string())
}
