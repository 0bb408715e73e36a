//! One file of a disk. It is opened at its first use, for this process alone, and made by its first write.
//! `FileDisk` alone holds areas, and counts the calls of them that fail.

ghost use Rattle.std.specs.Prelude.{◌≤◌, IfOk, length};

use crate::locking::LockFiles;
use crate::reading::read_some;
use std::fs::{File, OpenFile, OpenOptions};
use std::io;
use std::io::{ErrorKind, Read, Seek, SeekFrom, Write};
use std::os::unix::fs::OpenOptionsExt;
use std::path::Path;

/// What a file's owner alone may do with it: read and write.
const OWNER_ALONE: u32 = 0o600;

#[derive(Drop)]
pub struct AreaFile<R: LockFiles> {
    /// None where the name is no text; each call then fails.
    path: Option<String>,
    file: Option<R::File>,
    /// Whether this object has brought the file's name to the medium. Who made the file may have been killed before.
    is_named: bool,
    /// Whether a sync has failed. The system may have dropped what it could not write then, so no later sync
    /// may succeed.
    is_broken: bool,
}

impl<R: LockFiles> AreaFile<R> {
    pub fn new(path: Option<String>) -> Self {
        AreaFile {
            path,
            file: None,
            is_named: false,
            is_broken: false,
        }
    }

    fn path(&self) -> io::Result<&str> {
        match &self.path {
            Some(path) => Ok(path.as_str()),
            None => Err(io::Error::new(ErrorKind::InvalidInput, "the name is no text")),
        }
    }

    /// Keeps an open file, unless another process has it open.
    fn keep(&mut self, runtime: &R, file: R::File) -> io::Result<()> {
        if runtime.lock_alone(&file)? {
            self.file = Some(file);
            Ok(())
        } else {
            let why = "another process has the database open";
            Err(io::Error::new(ErrorKind::WouldBlock, why))
        }
    }

    /// Opens the file, if it is there.
    fn open(&mut self, runtime: &R) -> io::Result<()> {
        if self.file.is_some() {
            return Ok(());
        }
        let mut options = OpenOptions::new();
        options.read(true).write(true);
        match options.open(runtime, self.path()?) {
            Ok(file) => self.keep(runtime, file),
            Err(error) if error.kind() == ErrorKind::NotFound => Ok(()),
            Err(error) => Err(error),
        }
    }

    /// Opens the file, or makes it for its owner alone.
    fn open_or_make(&mut self, runtime: &R) -> io::Result<()> {
        self.open(runtime)?;
        if self.file.is_none() {
            let mut options = OpenOptions::new();
            options
                .read(true)
                .write(true)
                .create_new(true)
                .mode(OWNER_ALONE);
            let file = options.open(runtime, self.path()?)?;
            self.keep(runtime, file)?;
        }
        Ok(())
    }

    pub fn len(&mut self, runtime: &R) -> io::Result<u64> {
        self.open(runtime)?;
        match &self.file {
            Some(file) => Ok(OpenFile::metadata(file)?.len()),
            None => Ok(0),
        }
    }

    pub fn read(&mut self, runtime: &R, at: u64, into: &mut [u8]) -> io::Result<usize>
        ensures { IfOk result (λ n. n ≤ length into.new) }
    {
        self.open(runtime)?;
        match &mut self.file {
            Some(file) => read_at(file, at, into),
            None => Ok(0),
        }
    }

    pub fn write(&mut self, runtime: &R, at: u64, bytes: &[u8]) -> io::Result<()> {
        self.open_or_make(runtime)?;
        match &mut self.file {
            Some(file) => write_at(file, at, bytes),
            None => Err(io::Error::from(ErrorKind::NotFound)),
        }
    }

    /// Brings the file to the medium. The first time its name and all that the system keeps of it go there too, since
    /// it may be new, or may have been left by a process that was killed before its own sync.
    pub fn sync(&mut self, runtime: &R) -> io::Result<()> {
        if self.is_broken {
            let why = "an earlier sync of the file failed";
            return Err(io::Error::new(ErrorKind::Other, why));
        }
        self.is_broken = true;
        self.open(runtime)?;
        if let Some(file) = &self.file {
            if self.is_named {
                OpenFile::sync_data(file)?;
            } else {
                OpenFile::sync_all(file)?;
                sync_folder(runtime, self.path()?)?;
                self.is_named = true;
            }
        }
        self.is_broken = false;
        Ok(())
    }
}

/// Fills the slice, unless the file ends before.
fn read_at<F: Read + Seek>(file: &mut F, at: u64, into: &mut [u8]) -> io::Result<usize>
    ensures { IfOk result (λ n. n ≤ length into.new) }
{
    file.seek(SeekFrom::Start(at))?;
    let mut filled = 0;
    while filled < into.len() {
        let count = read_some(file, &mut into[filled..])?;
        if count == 0 {
            break;
        }
        filled += count;
    }
    Ok(filled)
}

fn write_at<F: Write + Seek>(file: &mut F, at: u64, bytes: &[u8]) -> io::Result<()> {
    file.seek(SeekFrom::Start(at))?;
    file.write_all(bytes)?;
    file.flush()
}

/// Brings the names in a file's folder to the medium.
fn sync_folder<R: LockFiles>(runtime: &R, path: &str) -> io::Result<()> {
    let folder = match Path::new(path).parent() {
        Some(folder) if !folder.as_str().is_empty() => folder,
        _ => Path::new("."),
    };
    let opened = File::open(runtime, folder)?;
    OpenFile::sync_all(&opened)
}
