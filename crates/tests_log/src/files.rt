//! No clause says what real files do: each object once over the test's own folder.
//! The files that `disk_file` makes here are real ones; only this test's own folder is touched.

use disk_file::{FileDisk, FileSource, StdSink, SystemClock};
use inno_types::Bytes;
use std::alloc::{AllocError, Global};
use std::fs;
use std::test::Fail;
use store_api::{Area, Clock, Disk, Failed, Sink, Source};

pub fn name_of(alloc: Global, name: &[u8]) -> Result<Bytes, AllocError> {
    Ok(Bytes::from_vec(Vec::from_slice(alloc, name)?))
}

/// Whether a disk without files has nothing to read.
fn is_empty<D: Disk>(disk: &mut D) -> Result<bool, Failed> {
    let mut into = [7; 8];
    let len = disk.len(Area::Pages)?;
    let count = disk.read(Area::Pages, 0, &mut into)?;
    disk.sync(Area::Pages)?;
    Ok(len == 0 && count == 0)
}

fn write_pages<D: Disk>(disk: &mut D) -> Result<(), Failed> {
    disk.write(Area::Pages, 2, b"abc")?;
    disk.write(Area::Pages, 4, b"de")?;
    disk.sync(Area::Pages)
}

/// Whether the files hold what was written, seen from the second byte on.
fn is_written<D: Disk>(disk: &mut D) -> Result<bool, Failed> {
    let mut into = [7; 8];
    let (pages, log) = (disk.len(Area::Pages)?, disk.len(Area::Log)?);
    let count = disk.read(Area::Pages, 1, &mut into)?;
    Ok((pages, log, count) == (6, 0, 5) && into == *b"\0abde\x07\x07\x07")
}

#[test]
fn a_disk_keeps_its_files(rt: HostRuntime) -> Result<(), Fail> {
    let name = name_of(rt.alloc(), b"disk_file_keeps")?;
    let mut disk = FileDisk::new(rt, rt.alloc(), &name)?;
    let is_empty = is_empty(&mut disk);
    let is_there = fs::exists(&rt, "disk_file_keeps.pag");
    let written = write_pages(&mut disk);
    let moment = disk.moment();
    drop(disk);
    let mut again = FileDisk::new(rt, rt.alloc(), &name)?;
    let is_written = is_written(&mut again);
    drop(again);
    drop(name);
    written?;
    assert_eq!(&rt;
        (is_empty?, is_there?, moment, is_written?),
        (true, false, 6, true)
    );
    fs::remove_file(&rt, "disk_file_keeps.pag")?;
    Ok(())
}

/// What three bytes of a source are read as, in two calls.
fn read_twice<S: Source>(source: &mut S) -> Result<(usize, usize, [u8; 8]), Failed> {
    let mut into = [0; 8];
    let first = source.read(&mut into)?;
    let second = source.read(&mut into)?;
    Ok((first, second, into))
}

#[test]
fn a_source_gives_a_file(rt: HostRuntime) -> Result<(), Fail> {
    fs::write(&rt, "disk_file_source", "abc")?;
    let mut source = FileSource::new(&rt, rt.alloc(), &name_of(rt.alloc(), b"disk_file_source")?)?;
    let read = read_twice(&mut source);
    drop(source);
    fs::remove_file(&rt, "disk_file_source")?;
    assert_eq!(&rt; read?, (3, 0, *b"abc\0\0\0\0\0"));
    let mut missing = FileSource::new(&rt, rt.alloc(), &name_of(rt.alloc(), b"")?)?;
    let read = read_twice(&mut missing);
    drop(missing);
    assert!(&rt; read.is_err());
    Ok(())
}

#[test]
fn output_is_taken_and_time_goes_on(rt: HostRuntime) {
    let mut sink = StdSink::new(&rt);
    assert_eq!(&rt; sink.write(b"taken\n"), Ok(6));
    assert_eq!(&rt; sink.write(b""), Ok(0));
    let clock = SystemClock::new(&rt);
    let before = clock.now();
    assert!(&rt; before <= clock.now());
}
