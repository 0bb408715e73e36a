//! New files, files with a log of rows, and what a mount makes of a page 0 that was changed.
//! `file_zero` is tried over a disk in memory; no engine opens on what it mounts.

use disk_mem::MemDisk;
use file_zero::{init, mount};
use inno_types::{Bytes, Column, Ids, Kind, Listed, Schema, Value};
use log_format::{Group, Record};
use redo_log::Log;
use std::alloc::{AllocError, Global};
use std::test::Fail;
use store_api::{Area, Disk, Failed, MountBad};
use sum64::fnv;

/// How many tables there are, how many rows the first has, and where the log goes on.
fn mounted(alloc: Global, disk: &mut MemDisk) -> Result<[u64; 4], MountBad> {
    let files = mount(alloc, disk)?;
    let tables = files.db.schemas().len();
    let rows = if tables > 0 {
        files.db.rows(0).len()
    } else {
        0
    };
    let found = [tables as u64, rows as u64, files.block, files.next];
    drop(files);
    Ok(found)
}

fn named(alloc: Global, name: &[u8]) -> Result<Bytes, AllocError> {
    Ok(Bytes::from_vec(Vec::from_slice(alloc, name)?))
}

fn column(alloc: Global, name: &[u8], kind: Kind, not_null: bool) -> Result<Column, AllocError> {
    Ok(Column {
        name: named(alloc, name)?,
        kind,
        not_null,
    })
}

/// The first table is made.
fn new_table(alloc: Global) -> Result<Record, AllocError> {
    let id = column(alloc, b"id", Kind::BigInt, true)?;
    let other = column(alloc, b"c", Kind::VarBinary(200), false)?;
    Ok(Record::NewTable {
        schema: Schema {
            name: named(alloc, b"t")?,
            columns: Listed::from_vec(vec![in alloc; id, other]?),
            primary: 0,
            keys: Listed::new(alloc),
        },
    })
}

/// It gets a row.
fn new_row(alloc: Global, id: i64) -> Result<Record, AllocError> {
    let text = Value::Text(Bytes::from_vec(vec![in alloc; 7; 200]?));
    let row = Listed::from_vec(vec![in alloc; Value::Int(id), text]?);
    Ok(Record::RowPut { table: 0, row })
}

/// Appends a group of one record.
fn append(alloc: Global, log: &mut Log, record: Result<Record, AllocError>) -> Result<(), Fail> {
    let records = Listed::from_vec(vec![in alloc; record?]?);
    let group = Group { lsn: 0, records };
    let appended = if group.fits() {
        log.append(&group)
    } else {
        Ok(0)
    };
    drop(group);
    appended?;
    Ok(())
}

/// A table and two rows are logged and flushed.
fn log_rows(alloc: Global, disk: &mut MemDisk, log: &mut Log) -> Result<(), Fail> {
    append(alloc, log, new_table(alloc))?;
    append(alloc, log, new_row(alloc, 1))?;
    append(alloc, log, new_row(alloc, 2))?;
    log.flush(disk)?;
    Ok(())
}

fn write_rows(alloc: Global, disk: &mut MemDisk) -> Result<(), Fail> {
    let mut log = Log::new(alloc, 1, 0, 1)?;
    let done = log_rows(alloc, disk, &mut log);
    drop(log);
    done
}

#[test]
fn new_files_have_no_tables_until_their_log_has_some(rt: HostRuntime) -> Result<(), Fail> {
    let alloc = rt.alloc();
    let mut disk = MemDisk::new(alloc, Ids::new(alloc))?;
    let before = mounted(alloc, &mut disk);
    let made = init(&mut disk);
    let found = mounted(alloc, &mut disk);
    let again = init(&mut disk);
    let written = write_rows(alloc, &mut disk);
    let with_rows = mounted(alloc, &mut disk);
    drop(disk);
    assert_eq!(rt; before, Err(MountBad::NotInitialised));
    assert_eq!(rt; made, Ok(()));
    assert_eq!(rt; found, Ok([0, 0, 0, 1]));
    assert_eq!(rt; again, Err(MountBad::NotEmpty { bytes: 4096 }));
    written?;
    assert_eq!(rt; with_rows, Ok([1, 2, 3, 4]));
    Ok(())
}

/// The page with one of its first bytes set, and its sum right.
fn sealed(mut page: [u8; 4096], at: u8, byte: u8) -> [u8; 4096] {
    page[usize::from(at)] = byte;
    let sum = fnv(&page[8..]);
    page[..8].copy_from_slice(&sum.to_be_bytes());
    page
}

/// Writes page 0 with such a byte to its place, or as a copy.
fn put_page(disk: &mut MemDisk, area: Area, at: u8, byte: u8) -> Result<(), Failed> {
    let mut page = [0; 4096];
    disk.read(Area::Pages, 0, &mut page)?;
    disk.write(area, 0, &sealed(page, at, byte))?;
    disk.sync(area)
}

/// Writes a byte of page 0 anew.
fn put_byte(disk: &mut MemDisk, at: u64, byte: u8) -> Result<(), Failed> {
    disk.write(Area::Pages, at, &[byte])?;
    disk.sync(Area::Pages)
}

/// What is mounted where a byte of page 0 was changed, where a copy of the page stands beside, where the page says another
/// version, and where it has no mark.
fn changed(alloc: Global, disk: &mut MemDisk) -> Result<[Result<[u64; 4], MountBad>; 4], Failed> {
    put_byte(disk, 100, 1)?;
    let damaged = mounted(alloc, disk);
    put_byte(disk, 100, 0)?;
    put_page(disk, Area::Double, 100, 0)?;
    put_byte(disk, 100, 1)?;
    let from_copy = mounted(alloc, disk);
    put_page(disk, Area::Pages, 43, 7)?;
    let other_version = mounted(alloc, disk);
    put_page(disk, Area::Pages, 32, 0)?;
    Ok([damaged, from_copy, other_version, mounted(alloc, disk)])
}

#[test]
fn page_0_is_read_from_its_copy(rt: HostRuntime) -> Result<(), Fail> {
    let alloc = rt.alloc();
    let mut disk = MemDisk::new(alloc, Ids::new(alloc))?;
    let made = init(&mut disk);
    let found = changed(alloc, &mut disk);
    drop(disk);
    assert_eq!(rt; made, Ok(()));
    let [damaged, from_copy, other_version, other_mark] = found?;
    assert!(rt;
        matches!(damaged, Err(MountBad::Damaged { area: Area::Pages, place: 0, stored, computed }) if stored != computed)
    );
    assert_eq!(rt; from_copy, Ok([0, 0, 0, 1]));
    assert_eq!(rt; other_version, Err(MountBad::Version { found: 7 }));
    assert_eq!(rt; other_mark, Err(MountBad::NotInitialised));
    Ok(())
}
