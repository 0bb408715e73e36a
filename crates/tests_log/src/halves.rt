//! A flush in two halves, with a group appended between them; and a reader of the groups that stand in the log then.
//! The log and its reader are tried over a disk in memory.

ghost use Rattle.redo_log.specs.Halves.{WrittenView, IsFront};

use disk_mem::MemDisk;
use inno_types::{Bytes, Ids, Listed};
use log_format::{Group, Next, Reader, Record};
use redo_log::Log;
use std::alloc::Global;
use std::test::Fail;
use store_api::NoMemory;

/// Appends a group of one record with bytes of that number, some of which go over several blocks.
fn append_one(alloc: Global, log: &mut Log, number: u8) -> Result<u64, NoMemory>
    ensures { (w : WrittenView) → IsFront w log.old → IsFront w log.new }
{
    let len = usize::from(number) * 400;
    let bytes = Bytes::from_vec(vec![in alloc; number; len]?);
    let mut records = Listed::new(alloc);
    records.push(Record::Put {
        page: 1,
        at: 20,
        bytes,
    })?;
    let group = Group { lsn: 0, records };
    if !group.fits() {
        return Err(NoMemory);
    }
    log.append(&group)
}

/// Which LSN is flushed between the halves of a flush, after the second one, and after another flush. A group is appended
/// between the halves.
fn flushed_by_halves(alloc: Global, disk: &mut MemDisk) -> Result<[u64; 3], Fail> {
    let mut log = Log::packing(alloc, 1, 0, 1)?;
    log.reserve(2_000_000)?;
    append_one(alloc, &mut log, 1)?;
    append_one(alloc, &mut log, 2)?;
    let written = log.begin_flush(disk)?;
    append_one(alloc, &mut log, 3)?;
    let before = log.flushed();
    log.end_flush(written, disk)?;
    let after = log.flushed();
    log.flush(disk)?;
    Ok([before, after, log.flushed()])
}

/// The LSNs of the groups that a reader gives.
fn lsns_read(alloc: Global, disk: &mut MemDisk) -> Result<Vec<u64>, NoMemory> {
    let mut reader = Reader::new(alloc, 1, 1)?;
    let mut lsns = Vec::new(alloc);
    for _ in 0..20 {
        match reader.step(alloc, disk) {
            Ok(Next::Group(group)) => lsns.push(group.lsn)?,
            Ok(Next::More) => {}
            Ok(Next::End) | Err(_) => return Ok(lsns),
        }
    }
    Ok(lsns)
}

#[test]
fn what_is_appended_between_the_halves_is_not_flushed(rt: HostRuntime) -> Result<(), Fail> {
    let mut disk = MemDisk::new(rt.alloc(), Ids::new(rt.alloc()))?;
    let flushed = flushed_by_halves(rt.alloc(), &mut disk);
    let read = lsns_read(rt.alloc(), &mut disk);
    drop(disk);
    assert_eq!(rt; flushed?, [0, 2, 3]);
    assert_eq!(rt; read?.as_slice(), [1, 2, 3].as_slice());
    Ok(())
}
