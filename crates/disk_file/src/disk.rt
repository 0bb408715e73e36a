//! The three files of a database as a disk.
//! `innod` makes one, and engines reach it through the trait `Disk` alone.

ghost use Rattle.std.specs.Prelude.{None};

use crate::area::AreaFile;
use crate::fault::Faults;
use crate::locking::LockFiles;
use crate::path::path_of;
use inno_types::Bytes;
use std::alloc::Global;
use std::io;
use store_api::{Area, Disk, Failed, NoMemory};

/// The files NAME.log, NAME.dbl and NAME.pag. A missing file has length 0, and is made by its first write, for its owner
/// alone. Each is locked from its first use until the disk is dropped, so that calls of another process on it fail.
#[derive(Drop)]
pub struct FileDisk<R: LockFiles> {
    runtime: R,
    log: AreaFile<R>,
    double: AreaFile<R>,
    pages: AreaFile<R>,
    moment: u64,
    faults: Faults,
}

impl<R: LockFiles> FileDisk<R> {
    /// Opens nothing yet. Where the name is no text, each call of the disk fails.
    pub fn new(runtime: R, alloc: Global, name: &Bytes) -> Result<FileDisk<R>, NoMemory>
    where
        R: Drop,
    {
        let name = name.as_slice();
        let log = path_of(alloc, name, ".log")?;
        let double = path_of(alloc, name, ".dbl")?;
        let pages = path_of(alloc, name, ".pag")?;
        Ok(FileDisk {
            runtime,
            log: AreaFile::new(log),
            double: AreaFile::new(double),
            pages: AreaFile::new(pages),
            moment: 0,
            faults: Faults::none(),
        })
    }

    /// Why the last call that failed did, as where another process has the database open.
    pub fn last_error(&self) -> Option<&io::Error> {
        self.faults.last()
    }
}

impl<R: LockFiles> Disk for FileDisk<R> {
    ghost past = { λ d. record { moment = d.moment; faults = d.faults.count; state_at = λ _. None } };

    ghost seen_may_be_left = { λ d m s told. absurd (Prim.cc) };

    fn len(&mut self, area: Area) -> Result<u64, Failed> {
        self.moment = self.moment.saturating_add(1);
        let outcome = match area {
            Area::Log => self.log.len(&self.runtime),
            Area::Double => self.double.len(&self.runtime),
            Area::Pages => self.pages.len(&self.runtime),
        };
        self.faults.counted(outcome)
    }

    fn read(&mut self, area: Area, at: u64, into: &mut [u8]) -> Result<usize, Failed> {
        self.moment = self.moment.saturating_add(1);
        let outcome = match area {
            Area::Log => self.log.read(&self.runtime, at, into),
            Area::Double => self.double.read(&self.runtime, at, into),
            Area::Pages => self.pages.read(&self.runtime, at, into),
        };
        self.faults.counted(outcome)
    }

    fn write(&mut self, area: Area, at: u64, bytes: &[u8]) -> Result<(), Failed> {
        self.moment = self.moment.saturating_add(1);
        let outcome = match area {
            Area::Log => self.log.write(&self.runtime, at, bytes),
            Area::Double => self.double.write(&self.runtime, at, bytes),
            Area::Pages => self.pages.write(&self.runtime, at, bytes),
        };
        self.faults.counted(outcome)
    }

    fn sync(&mut self, area: Area) -> Result<(), Failed> {
        self.moment = self.moment.saturating_add(1);
        let outcome = match area {
            Area::Log => self.log.sync(&self.runtime),
            Area::Double => self.double.sync(&self.runtime),
            Area::Pages => self.pages.sync(&self.runtime),
        };
        self.faults.counted(outcome)
    }

    fn moment(&self) -> u64 {
        self.moment
    }
}
