//! Reading the log: all of its area, and the groups of rows that stand in it.
//! Nothing is written.

ghost use Rattle.std.specs.Prelude.{◌≡◌, ◌≤◌, ◌^◌, ◌↔◌, length, replicate, IsTrue, All, IfOk, IfErr, OnOk};
ghost use Rattle.store_api.specs.Past.{Now};
ghost use Rattle.law_crashes.specs.RowScan.{is_of_rows, HasRowsOnly};
ghost use Rattle.store_api.specs.Looks.{Looks, LeavesState};
ghost use Rattle.file_zero.specs.Reading.{HasGroups};
ghost use Rattle.file_zero.specs.Refused.{IsRefused};

use crate::fields::Header;
use log_format::{Found, Group, Groups, Record, scan_log};
use std::alloc::Global;
use store_api::{Area, Disk, MountBad, NoMemory};

const BLOCK: usize = 512;

/// No log goes on behind more blocks than this.
const MOST_BLOCKS: u64 = 1 << 53;

/// The groups of a log, the block behind them, and how many bytes stand from there on.
#[derive(Drop)]
pub struct Stored {
    pub groups: Groups,
    pub block: u64,
    pub rest: usize,
}

/// Whether the record is none of a page.
fn is_of_rows(change: &Record) -> bool
    ensures { result ≡ is_of_rows change.now }
{
    match change {
        Record::Put { .. } | Record::Fresh { .. } => false,
        Record::RowPut { .. } | Record::RowRemove { .. } | Record::NewTable { .. } => true,
    }
}

/// Whether no record of the group is one of a page.
fn has_rows_only(group: &Group) -> bool
    ensures { IsTrue result ↔ HasRowsOnly group.now }
{
    group
        .records
        .as_slice()
        .iter()
        .all(|change| is_of_rows(change))
}

fn are_of_rows(groups: &[Group]) -> bool
    ensures { IsTrue result ↔ All HasRowsOnly groups.now }
{
    groups.iter().all(|group| has_rows_only(group))
}

/// So many zeros.
pub fn zeros(alloc: Global, len: usize) -> Result<Vec<u8>, NoMemory>
    ensures items { IfOk result (λ bytes. bytes.items ≡ replicate len 0) }
    ensures len { IfOk result (λ bytes. length bytes.items ≡ len) }
{
    Ok(vec![in alloc; 0; len]?)
}

/// The groups of rows that stand in the bytes of a log, if a log can go on behind them.
fn stored_in(alloc: Global, bytes: &[u8], header: Header) -> Result<Stored, NoMemory>
    ensures groups { IfOk result (λ log. HasGroups header.run header.first bytes.now log.groups log.block log.rest) }
    ensures fits { IfOk result (λ log. log.block ≤ 2 ^ 53) }
{
    let Found { groups, blocks } = scan_log(alloc, bytes, header.run, header.first)?;
    let block = blocks.unwrap_or(u64::MAX);
    if block > MOST_BLOCKS || !are_of_rows(groups.as_slice()) {
        drop(groups);
        return Err(NoMemory);
    }
    Ok(Stored {
        groups,
        block,
        rest: bytes.len() - BLOCK * block as usize,
    })
}

/// The groups of rows that a read of the log gives.
pub fn read_log<D: Disk>(alloc: Global, disk: &mut D, header: Header) -> Result<Stored, MountBad>
    ensures looks { Looks (D.past disk.old) (D.past disk.new) }
    ensures same { OnOk result (LeavesState (D.past disk.old) (D.past disk.new)) }
    ensures groups { IfOk result (λ log. Now (λ s. HasGroups header.run header.first s.log.seen log.groups log.block log.rest) (D.past disk.new)) }
    ensures rows { IfOk result (λ log. All HasRowsOnly log.groups) }
    ensures fits { IfOk result (λ log. log.block ≤ 2 ^ 53) }
    ensures refused { IfErr result (IsRefused (D.past disk.old) (D.past disk.new)) }
    ensures later { (D.past disk.old).faults ≤ (D.past disk.new).faults }
{
    let Ok(len) = disk.len(Area::Log) else {
        return Err(MountBad::Disk);
    };
    let Ok(mut area) = zeros(alloc, len as usize) else {
        return Err(MountBad::NoMemory);
    };
    let Ok(count) = disk.read(Area::Log, 0, &mut area) else {
        return Err(MountBad::Disk);
    };
    match stored_in(alloc, &area[..count], header) {
        Ok(log) => Ok(log),
        Err(NoMemory) => Err(MountBad::NoMemory),
    }
}
