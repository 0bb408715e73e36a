//! The machine's files behind a plan by which one call of the system goes wrong.
//! Tests of the disk over files use it; the plan also notes which calls were made.

ghost use Rattle.std.specs.Prelude.{◌≤◌, IfOk};

use disk_file::LockFiles;
use std::alloc::Allocator;
use std::cell::Cell;
use std::fs::{File, Files, Metadata, OpenFile, OpenOptions};
use std::io;
use std::io::{ErrorKind, Read, Seek, SeekFrom, Write};

/// What becomes of a call.
#[derive(Clone, Copy, Debug, PartialEq, Eq)]
pub enum Mishap {
    /// It fails.
    Fails,
    /// It moves about half of its bytes, if it moves any.
    IsShort,
    /// A signal comes before it moves any byte.
    IsInterrupted,
}

/// The most calls that are noted.
pub const NOTED: usize = 32;

/// Which call goes wrong, counted from 1, and a letter for each call so far.
#[derive(Drop)]
pub struct Plan {
    at: u64,
    mishap: Mishap,
    calls: Cell<u64>,
    letters: Cell<[u8; 32]>,
}

impl Plan {
    pub fn new(at: u64, mishap: Mishap) -> Plan {
        Plan {
            at,
            mishap,
            calls: Cell::new(0),
            letters: Cell::new([b'.'; NOTED]),
        }
    }

    /// The letters of the calls so far, with dots behind them.
    pub fn letters(&self) -> [u8; 32] {
        self.letters.get()
    }

    /// Notes a call, and answers whether it is the one that goes wrong.
    fn note(&self, letter: u8) -> bool {
        let before = self.calls.get();
        if before < NOTED as u64 {
            let mut letters = self.letters.get();
            letters[before as usize] = letter;
            self.letters.set(letters);
        }
        self.calls.set(before.saturating_add(1));
        before.saturating_add(1) == self.at
    }

    /// A call that moves no bytes.
    fn pass(&self, letter: u8) -> io::Result<()> {
        if self.note(letter) && self.mishap == Mishap::Fails {
            return Err(io::Error::from(ErrorKind::Other));
        }
        Ok(())
    }

    /// How many bytes a call moves that is to move so many.
    fn moved(&self, letter: u8, len: usize) -> io::Result<usize>
        ensures { IfOk result (λ n. n ≤ len) }
    {
        if !self.note(letter) {
            return Ok(len);
        }
        match self.mishap {
            Mishap::Fails => Err(io::Error::from(ErrorKind::Other)),
            Mishap::IsShort => Ok(len - len / 2),
            Mishap::IsInterrupted => Err(io::Error::from(ErrorKind::Interrupted)),
        }
    }
}

/// The machine's files by a plan.
#[derive(Clone, Copy)]
pub struct FailingFiles<'a> {
    pub rt: &'a HostRuntime,
    pub plan: &'a Plan,
}

/// One of them that is open.
#[derive(Drop)]
pub struct FailingFile<'a> {
    file: File,
    plan: &'a Plan,
}

/// The letter of a call that opens a file: the first one of its ending.
fn letter_of(path: &str) -> u8 {
    if path.ends_with(".log") {
        b'l'
    } else if path.ends_with(".dbl") {
        b'd'
    } else if path.ends_with(".pag") {
        b'p'
    } else {
        b'o'
    }
}

impl<'a> Files for FailingFiles<'a> {
    type File = FailingFile<'a>;

    type Dir = <HostRuntime as Files>::Dir;

    fn open_file(&self, how: &OpenOptions, path: &str) -> io::Result<FailingFile<'a>> {
        self.plan.pass(letter_of(path))?;
        Ok(FailingFile {
            file: self.rt.open_file(how, path)?,
            plan: self.plan,
        })
    }

    fn open_dir(&self, path: &str) -> io::Result<<HostRuntime as Files>::Dir> {
        self.rt.open_dir(path)
    }

    fn metadata(&self, path: &str) -> io::Result<Metadata> {
        self.rt.metadata(path)
    }

    fn symlink_metadata(&self, path: &str) -> io::Result<Metadata> {
        self.rt.symlink_metadata(path)
    }

    fn copy(&self, from: &str, to: &str) -> io::Result<u64> {
        self.rt.copy(from, to)
    }

    fn rename(&self, from: &str, to: &str) -> io::Result<()> {
        self.rt.rename(from, to)
    }

    fn remove_file(&self, path: &str) -> io::Result<()> {
        self.rt.remove_file(path)
    }

    fn create_dir(&self, path: &str) -> io::Result<()> {
        self.rt.create_dir(path)
    }

    fn remove_dir(&self, path: &str) -> io::Result<()> {
        self.rt.remove_dir(path)
    }

    fn remove_dir_all<B: Allocator>(&self, alloc: B, path: &str) -> io::Result<()> {
        self.rt.remove_dir_all(alloc, path)
    }
}

impl<'a> LockFiles for FailingFiles<'a> {
    fn lock_alone(&self, file: &FailingFile<'a>) -> io::Result<bool> {
        self.plan.pass(b'k')?;
        self.rt.lock_alone(&file.file)
    }
}

impl<'a> Read for FailingFile<'a> {
    fn read(&mut self, buf: &mut [u8]) -> io::Result<usize> {
        let len = self.plan.moved(b'r', buf.len())?;
        self.file.read(&mut buf[..len])
    }
}

impl<'a> Write for FailingFile<'a> {
    fn write(&mut self, buf: &[u8]) -> io::Result<usize> {
        let len = self.plan.moved(b'w', buf.len())?;
        self.file.write(&buf[..len])
    }

    fn flush(&mut self) -> io::Result<()> {
        self.file.flush()
    }
}

impl<'a> Seek for FailingFile<'a> {
    fn seek(&mut self, to: SeekFrom) -> io::Result<u64> {
        self.plan.pass(b's')?;
        self.file.seek(to)
    }
}

impl<'a> OpenFile for FailingFile<'a> {
    fn metadata(&self) -> io::Result<Metadata> {
        self.plan.pass(b'm')?;
        self.file.metadata()
    }

    fn set_len(&self, size: u64) -> io::Result<()> {
        self.file.set_len(size)
    }

    fn sync_all(&self) -> io::Result<()> {
        self.plan.pass(b'a')?;
        self.file.sync_all()
    }

    fn sync_data(&self) -> io::Result<()> {
        self.plan.pass(b'y')?;
        self.file.sync_data()
    }
}
