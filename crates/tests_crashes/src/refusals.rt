//! Files that are no database, or are damaged: what the program says of them.
//! The files are those of a disk in memory, which the tests change between two runs.

use crate::program::{Ran, made, played};
use disk_mem::MemDisk;
use inno_types::Ids;
use script_runner::Fault;
use std::alloc::Global;
use std::process::Abort;
use std::sync::Wait;
use std::test::Fail;
use std::thread::Threads;
use std::time::Clock as Timer;
use store_api::{Area, Disk, Failed, MountBad, NoMemory};
use sum64::fnv;

/// New files.
fn new_files<R: Abort + Threads + Wait + Timer + Sync>(
    rt: &R,
    alloc: Global,
) -> Result<MemDisk, NoMemory> {
    let Ran {
        fault: _,
        status: _,
        history: _,
        printed: _,
        disk,
    } = made(rt, alloc, MemDisk::new(alloc, Ids::new(alloc))?)?;
    Ok(disk)
}

/// The fault and the status of a run over a disk, which prints nothing.
fn refused<R: Abort + Threads + Wait + Timer + Sync>(
    rt: &R,
    alloc: Global,
    disk: MemDisk,
) -> Result<(Fault, u8), Fail> {
    let Ran {
        fault,
        status,
        history,
        printed,
        disk,
    } = played(rt, alloc, disk, "@session a\nSELECT 1;\n")?;
    drop(history);
    drop(disk);
    assert_eq!(rt; printed.taken().as_slice(), "".as_bytes());
    Ok((fault, status))
}

/// The page with one of its first bytes changed.
fn changed(mut page: [u8; 4096], at: u8, byte: u8) -> [u8; 4096] {
    page[usize::from(at)] = byte;
    page
}

/// The page with a right sum.
fn sealed(mut page: [u8; 4096]) -> [u8; 4096] {
    let sum = fnv(&page[8..]);
    page[..8].copy_from_slice(&sum.to_be_bytes());
    page
}

/// Writes page 0 with a byte changed; its sum is made right where that is asked for.
fn change(disk: &mut MemDisk, at: u8, byte: u8, seals: bool) -> Result<(), Failed> {
    let mut page = [0; 4096];
    disk.read(Area::Pages, 0, &mut page)?;
    let other = changed(page, at, byte);
    let other = if seals { sealed(other) } else { other };
    disk.write(Area::Pages, 0, &other)?;
    disk.sync(Area::Pages)
}

#[test]
fn a_damaged_page_0_is_told_with_both_sums(rt: HostRuntime) -> Result<(), Fail> {
    let alloc = rt.alloc();
    let mut disk = new_files(&rt, alloc)?;
    let changed = change(&mut disk, 100, 1, false);
    let (fault, status) = refused(&rt, alloc, disk)?;
    assert_eq!(rt; changed, Ok(()));
    assert!(rt;
        matches!(fault, Fault::File(MountBad::Damaged { area: Area::Pages, place: 0, stored, computed }) if stored != computed)
    );
    assert_eq!(rt; status, 6);
    Ok(())
}

#[test]
fn another_version_is_told(rt: HostRuntime) -> Result<(), Fail> {
    let alloc = rt.alloc();
    let mut disk = new_files(&rt, alloc)?;
    let changed = change(&mut disk, 43, 9, true);
    let (fault, status) = refused(&rt, alloc, disk)?;
    assert_eq!(rt; changed, Ok(()));
    assert_eq!(rt; fault, Fault::File(MountBad::Version { found: 9 }));
    assert_eq!(rt; status, 6);
    Ok(())
}

#[test]
fn pages_that_are_cut_are_no_database(rt: HostRuntime) -> Result<(), Fail> {
    let alloc = rt.alloc();
    let mut whole = new_files(&rt, alloc)?;
    let mut front = [0; 100];
    let read = whole.read(Area::Pages, 0, &mut front);
    drop(whole);
    let mut cut = MemDisk::new(alloc, Ids::new(alloc))?;
    let written = cut.write(Area::Pages, 0, &front);
    let (fault, status) = refused(&rt, alloc, cut)?;
    assert_eq!(rt; read, Ok(100));
    assert_eq!(rt; written, Ok(()));
    assert_eq!(rt; fault, Fault::File(MountBad::NotInitialised));
    assert_eq!(rt; status, 6);
    Ok(())
}

#[test]
fn files_of_a_database_are_not_made_again(rt: HostRuntime) -> Result<(), Fail> {
    let alloc = rt.alloc();
    let disk = new_files(&rt, alloc)?;
    let again = made(&rt, alloc, disk)?;
    assert_eq!(rt;
        again.fault,
        Fault::File(MountBad::NotEmpty { bytes: 4096 })
    );
    assert_eq!(rt; again.status, 6);
    Ok(())
}
