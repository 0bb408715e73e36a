//! A file as a source.
//! `innod` makes one of the file of its script. It never writes.

ghost use Rattle.std.specs.Prelude.{None};
ghost use Rattle.std.specs.Io.{ReadsAtMost};

use crate::fault::Faults;
use crate::path::path_of;
use crate::reading::read_some;
use inno_types::Bytes;
use std::alloc::Global;
use std::fs::{File, Files};
use std::io;
use std::io::ErrorKind;
use store_api::{Failed, NoMemory, Source};

/// Gives the bytes of a file, which it opens at the first use.
#[derive(Drop)]
pub struct FileSource<R: Files> {
    runtime: R,
    input: Input<R>,
    faults: Faults,
}

impl<R: Files> FileSource<R> {
    /// Opens nothing yet. Where the name is no text or no file has it, each call of the source fails.
    pub fn new(runtime: R, alloc: Global, name: &Bytes) -> Result<FileSource<R>, NoMemory>
    where
        R: Drop,
    {
        let path = path_of(alloc, name.as_slice(), "")?;
        Ok(FileSource {
            runtime,
            input: Input { path, file: None },
            faults: Faults::none(),
        })
    }
}

/// The file, once it is open.
#[derive(Drop)]
struct Input<R: Files> {
    path: Option<String>,
    file: Option<R::File>,
}

impl<R: Files> Input<R> {
    fn open(&mut self, runtime: &R) -> io::Result<()> {
        if self.file.is_none() {
            match &self.path {
                Some(path) => self.file = Some(File::open(runtime, path.as_str())?),
                None => return Err(io::Error::from(ErrorKind::InvalidInput)),
            }
        }
        Ok(())
    }

    fn read(&mut self, runtime: &R, into: &mut [u8]) -> io::Result<usize>
        ensures { ReadsAtMost result into.new }
    {
        self.open(runtime)?;
        match &mut self.file {
            Some(file) => read_some(file, into),
            None => Err(io::Error::from(ErrorKind::NotFound)),
        }
    }
}

impl<R: Files> Source for FileSource<R> {
    ghost left = { λ _. None };

    ghost faults = { λ source. source.faults.count };

    fn read(&mut self, into: &mut [u8]) -> Result<usize, Failed> {
        let outcome = self.input.read(&self.runtime, into);
        self.faults.counted(outcome)
    }
}
