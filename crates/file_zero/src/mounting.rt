//! The mount of files that keep no rows in pages.
//! Only its last calls write: zeros behind the groups of the log.

ghost use Rattle.std.specs.Prelude.{◌≡◌, ◌+◌, ◌≤◌, ◌<◌, ◌^◌, ℕ, List, length, IfOk, IfErr, OnOk};
ghost use Rattle.store_api.specs.Areas.{Contents};
ghost use Rattle.store_api.specs.Past.{Now, Meanwhile};
ghost use Rattle.inno_db.specs.Keyed.{IsKeyed};
ghost use Rattle.inno_model.specs.Past.{changed};
ghost use Rattle.law_crashes.specs.Files.{LeavesFiles};
ghost use Rattle.law_crashes.specs.Records.{no_db, changes_in};
ghost use Rattle.law_crashes.specs.Since.{LogRests, IsBegun, IsScanned, StillScans, IsMounted};
ghost use Rattle.log_format.specs.declared.group.Group.{Group as GroupValue};
ghost use Rattle.file_zero.specs.Looks.{LeavesPages, Had};
ghost use Rattle.store_api.specs.Looks.{Looks, LeavesState};
ghost use Rattle.file_zero.specs.Reading.{IsFound, IsOfRun, HoldsDatabase};
ghost use Rattle.file_zero.specs.Refused.{IsRefused, IsTooMany, HasFewRows, IsFailure, IsLeft};

use crate::database::{database_of, rows_in};
use crate::fields::Header;
use crate::header::read_header;
use crate::log::{Stored, read_log, zeros};
use crate::zero_rest;
use inno_db::Db;
use log_format::Group;
use std::alloc::Global;
use store_api::{Disk, Failed, MOST_ROWS, MountBad, NoMemory};

/// A database that was read, and where its log goes on: in this run, at this block, with this LSN.
#[derive(Drop)]
pub struct Mounted {
    pub db: Db,
    pub run: u64,
    pub block: u64,
    pub next: u64,
}

/// The LSN after those of so many groups. Where the numbers end, it answers as if there were no memory for it.
fn next_lsn(first: u64, groups: usize) -> Result<u64, NoMemory>
    ensures next { IfOk result (λ next. next ≡ first + groups) }
    ensures some { IfOk result (λ next. 0 < next) }
{
    match first.checked_add(groups as u64) {
        Some(next) if next > 0 => Ok(next),
        _ => Err(NoMemory),
    }
}

/// The database of what was read, and where its log goes on.
fn found_in(
    alloc: Global,
    header: Header,
    block: u64,
    groups: &[Group],
) -> Result<Mounted, MountBad>
    ensures run { IfOk result (λ m. m.run ≡ header.run) }
    ensures block { IfOk result (λ m. m.block ≡ block) }
    ensures db { IfOk result (λ m. m.db ≡ changed no_db (changes_in groups.now)) }
    ensures next { IfOk result (λ m. m.next ≡ header.first + length groups.now) }
    ensures some { IfOk result (λ m. 0 < m.next) }
    ensures keyed { IfOk result (λ m. IsKeyed m.db) }
    ensures few { IfOk result (λ m. HasFewRows m.db) }
    ensures large { IfErr result (IsTooMany (changed no_db (changes_in groups.now))) }
{
    let Ok(db) = database_of(alloc, groups) else {
        return Err(MountBad::NoMemory);
    };
    let rows = rows_in(&db);
    if rows > MOST_ROWS {
        drop(db);
        return Err(MountBad::TooLarge { rows });
    }
    match next_lsn(header.first, groups.len()) {
        Ok(next) => Ok(Mounted {
            db,
            run: header.run,
            block,
            next,
        }),
        Err(NoMemory) => {
            drop(db);
            Err(MountBad::NoMemory)
        }
    }
}

/// Reads the files, and how many bytes stand behind the groups of the log.
fn read_files<D: Disk>(alloc: Global, disk: &mut D) -> Result<(Mounted, usize), MountBad>
    ensures looks { Looks (D.past disk.old) (D.past disk.new) }
    ensures same { OnOk result (LeavesState (D.past disk.old) (D.past disk.new)) }
    ensures found { IfOk result (λ f. IsFound f.0.run f.0.block f.0.next f.0.db f.1 (D.past disk.new)) }
    ensures fits { IfOk result (λ f. f.0.block ≤ 2 ^ 53) }
    ensures keyed { IfOk result (λ f. IsKeyed f.0.db) }
    ensures few { IfOk result (λ f. HasFewRows f.0.db) }
    ensures refused { IfErr result (IsRefused (D.past disk.old) (D.past disk.new)) }
    ensures later { (D.past disk.old).faults ≤ (D.past disk.new).faults }
{
    let header = read_header(alloc, disk)?;
    let Stored {
        groups,
        block,
        rest,
    } = read_log(alloc, disk, header)?;
    match found_in(alloc, header, block, groups.as_slice()) {
        Ok(mounted) => Ok((mounted, rest)),
        Err(why) => Err(why),
    }
}

/// Writes zeros over what stands from the block on, so that the log can go on there.
fn clear_rest<D: Disk>(alloc: Global, disk: &mut D, block: u64, rest: usize) -> Result<(), MountBad>
    requires { block ≤ 2 ^ 53 }
    ensures begun { OnOk result ((run first : ℕ) (base : List GroupValue) (double pages : Contents) →
        Now (IsScanned run first block base rest double pages) (D.past disk.old) → Now (IsBegun run first block base double pages) (D.past disk.new)) }
    ensures crash { (run first : ℕ) (base : List GroupValue) (double pages : Contents) →
        Now (IsScanned run first block base rest double pages) (D.past disk.old) →
        Meanwhile (λ s. LogRests (D.past disk.old) → StillScans run first base double pages s) (D.past disk.old) (D.past disk.new) }
    ensures refused { IfErr result (IsRefused (D.past disk.old) (D.past disk.new)) }
    ensures failed { IfErr result IsFailure }
    ensures later { (D.past disk.old).faults ≤ (D.past disk.new).faults }
{
    let Ok(bytes) = zeros(alloc, rest) else {
        return Err(MountBad::NoMemory);
    };
    match zero_rest(disk, block, &bytes) {
        Ok(()) => Ok(()),
        Err(Failed) => Err(MountBad::Disk),
    }
}

/// Reads the database that the files stand for, and leaves a log that goes on behind its groups. Files whose log no engine
/// of this version has written may be answered as out of memory.
pub fn mount<D: Disk>(alloc: Global, disk: &mut D) -> Result<Mounted, MountBad>
    ensures mounted { IfOk result (λ m. IsMounted (D.past disk.old) (D.past disk.new) m.run m.block m.next m.db) }

    // Each row stands at its key in a table that is there.
    ensures keyed { IfOk result (λ m. IsKeyed m.db) }

    // The files held that database: page 0 is a header of version 0, and the log's groups make it. Its rows are not too many.
    // Else a refusal says why.
    ensures held { IfOk result (λ m. Had (HoldsDatabase m.db) (D.past disk.old) (D.past disk.new)) }
    ensures header { IfOk result (λ m. Now (IsOfRun m.run) (D.past disk.new)) }
    ensures few { IfOk result (λ m. HasFewRows m.db) }
    ensures refused { IfErr result (IsRefused (D.past disk.old) (D.past disk.new)) }

    // Pages and their copies are never written; files that are refused by what stands in them are left as they were.
    ensures same { OnOk result (LeavesPages (D.past disk.old) (D.past disk.new)) }
    ensures left { IfErr result (IsLeft (D.past disk.old) (D.past disk.new)) }

    // Whatever a crash leaves at a moment of the call stands for the same database as before it, also where the call fails.
    ensures crash { LeavesFiles (D.past disk.old) (D.past disk.new) }
    ensures later { (D.past disk.old).faults ≤ (D.past disk.new).faults }
{
    let (mounted, rest) = read_files(alloc, disk)?;
    match clear_rest(alloc, disk, mounted.block, rest) {
        Ok(()) => Ok(mounted),
        Err(why) => {
            drop(mounted);
            Err(why)
        }
    }
}
