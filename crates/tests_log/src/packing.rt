//! Small groups that are appended before one flush lie together in blocks, and a block that a write has tried stays as it is.
//! That is seen of the log area's length; all groups are read back by a scan.

use disk_mem::MemDisk;
use inno_types::{Bytes, Ids, Listed};
use log_format::{Group, Record, get_groups};
use redo_log::Log;
use std::alloc::{AllocError, Global};
use std::test::Fail;
use store_api::{Area, Disk, NoMemory};

/// A group of 73 bytes in the log: six of them go into a block.
fn small_group(alloc: Global) -> Result<Group, AllocError> {
    let record = Record::Put {
        page: 1,
        at: 20,
        bytes: Bytes::from_vec(vec![in alloc; 7; 50]?),
    };
    Ok(Group {
        lsn: 0,
        records: Listed::from_vec(vec![in alloc; record]?),
    })
}

/// Appends a group so many times.
fn append_some(log: &mut Log, group: &Group, count: u8) -> Result<(), NoMemory> {
    if group.fits() {
        for _ in 0..count {
            log.append(group)?;
        }
    }
    Ok(())
}

/// How long the log area is, and how many groups a scan finds in it.
fn found(alloc: Global, disk: &mut MemDisk) -> Result<[usize; 2], NoMemory> {
    let mut area = [0; 8192];
    let len = disk.read(Area::Log, 0, &mut area).unwrap_or(0);
    let groups = get_groups(alloc, area.get(..len).unwrap_or(&area), 1, 1)?;
    let count = groups.len();
    drop(groups);
    Ok([len, count])
}

/// So many groups in one flush, and then so many in another: whether each of both succeeds.
fn flush_twice(
    disk: &mut MemDisk,
    log: &mut Log,
    group: &Group,
    counts: [u8; 2],
) -> Result<[bool; 2], NoMemory> {
    append_some(log, group, counts[0])?;
    let first = log.flush(disk).is_ok();
    append_some(log, group, counts[1])?;
    Ok([first, log.flush(disk).is_ok()])
}

/// Whether both flushes succeed on a disk whose call of this number fails, and what is found in the log then. No call has the
/// number 0.
fn flushed(
    alloc: Global,
    log: Result<Log, NoMemory>,
    fails: u64,
    counts: [u8; 2],
) -> Result<([bool; 2], [usize; 2]), NoMemory> {
    let mut disk = MemDisk::new(alloc, Ids::from_vec(vec![in alloc; fails]?))?;
    let mut log = log?;
    let group = small_group(alloc)?;
    let flushed = flush_twice(&mut disk, &mut log, &group, counts);
    drop(group);
    drop(log);
    let found = found(alloc, &mut disk);
    drop(disk);
    Ok((flushed?, found?))
}

const BOTH: [bool; 2] = [true, true];

const SECOND: [bool; 2] = [false, true];

#[test]
fn groups_of_one_flush_share_blocks(rt: HostRuntime) -> Result<(), Fail> {
    let alloc = rt.alloc();
    let packed = || Log::packing(alloc, 1, 0, 1);
    let apart = || Log::new(alloc, 1, 0, 1);
    assert_eq!(rt; flushed(alloc, packed(), 0, [7, 0])?, (BOTH, [1024, 7]));
    assert_eq!(rt; flushed(alloc, packed(), 0, [7, 1])?, (BOTH, [1536, 8]));
    assert_eq!(rt; flushed(alloc, apart(), 0, [7, 1])?, (BOTH, [4096, 8]));
    // a block that a write has tried stays
    assert_eq!(rt; flushed(alloc, packed(), 1, [2, 3])?, (SECOND, [1024, 5]));
    assert_eq!(rt; flushed(alloc, packed(), 2, [2, 3])?, (SECOND, [1024, 5]));
    Ok(())
}
