//! What no clause says: worked images, and that the calls which are to fail do, and no others.
//! Only `disk_mem` is tried; no file is touched.

use disk_mem::{FixedClock, MemDisk, MemSink, MemSource, OpenGate, Pick};
use inno_types::{Bytes, Ids};
use std::alloc::{AllocError, Global};
use std::test::Fail;
use store_api::{Area, Clock, Disk, Failed, Gate, Sink, Source, Worker};

fn numbers(alloc: Global, of: &[u64]) -> Result<Ids, AllocError> {
    Ok(Ids::from_vec(Vec::from_slice(alloc, of)?))
}

/// Whether an area has these bytes, and no more.
fn holds(disk: &mut MemDisk, area: Area, want: &[u8]) -> Result<bool, Failed> {
    let mut into = [0; 32];
    let count = disk.read(area, 0, &mut into)?;
    let len = disk.len(area)?;
    Ok(&into[..count] == want && len == want.len() as u64)
}

/// Whether the image of this moment has these bytes in its areas.
fn has_image(disk: &MemDisk, pick: Pick, log: &[u8], pages: &[u8]) -> Result<bool, Fail> {
    let now = disk.moment();
    let mut image = disk.image(now, pick)?;
    Ok(holds(&mut image, Area::Log, log)? && holds(&mut image, Area::Pages, pages)?)
}

fn written(alloc: Global) -> Result<MemDisk, Fail> {
    let mut disk = MemDisk::new(alloc, Ids::new(alloc))?;
    disk.write(Area::Log, 0, b"abcd")?;
    disk.write(Area::Pages, 2, b"z")?;
    disk.sync(Area::Log)?;
    disk.write(Area::Log, 2, b"WXYZ")?;
    disk.write(Area::Log, 8, b"12")?;
    Ok(disk)
}

/// Whether each image has what it is to have, in the order lost, kept, torn, and the moment is the fifth.
fn images(alloc: Global) -> Result<([bool; 3], u64), Fail> {
    let disk = written(alloc)?;
    let lost = has_image(&disk, Pick::Lost, b"abcd", b"")?;
    let kept = has_image(&disk, Pick::Kept, b"abWXYZ\0\x0012", b"\0\0z")?;
    let torn = has_image(&disk, Pick::Torn, b"abWX\0\0\0\0", b"\0")?;
    Ok(([lost, kept, torn], disk.moment()))
}

#[test]
fn images_have_old_or_new_bytes(rt: HostRuntime) -> Result<(), Fail> {
    assert_eq!(rt; images(rt.alloc())?, ([true, true, true], 5));
    Ok(())
}

/// The calls of a disk whose second and fourth are to fail: whether those failed, and the log is as the first wrote it.
fn fail_where_named(disk: &mut MemDisk) -> Result<[bool; 3], Failed> {
    disk.write(Area::Log, 0, b"abcd")?;
    let second = disk.sync(Area::Log).is_err();
    disk.sync(Area::Log)?;
    let fourth = disk.write(Area::Log, 0, b"X").is_err();
    Ok([second, fourth, holds(disk, Area::Log, b"abcd")?])
}

#[test]
fn the_named_calls_fail(rt: HostRuntime) -> Result<(), Fail> {
    let mut disk = MemDisk::new(rt.alloc(), numbers(rt.alloc(), &[2, 4])?)?;
    let failed = fail_where_named(&mut disk);
    drop(disk);
    assert_eq!(rt; failed?, [true, true, true]);
    Ok(())
}

/// What a source of three bytes gives whose second call fails, and the bytes that were read last.
fn read_four_times(source: &mut MemSource) -> ([Result<usize, Failed>; 4], [u8; 2]) {
    let mut into = [0; 2];
    let counts = [
        source.read(&mut into),
        source.read(&mut into),
        source.read(&mut into),
        source.read(&mut into),
    ];
    (counts, into)
}

/// What a sink takes whose second call fails.
fn write_three_times(sink: &mut MemSink) -> [Result<usize, Failed>; 3] {
    [sink.write(b"abc"), sink.write(b"de"), sink.write(b"de")]
}

#[test]
fn sources_fail_where_named(rt: HostRuntime) -> Result<(), Fail> {
    let alloc = rt.alloc();
    let bytes = Bytes::from_vec(Vec::from_slice(alloc, b"abc")?);
    let mut source = MemSource::new(alloc, bytes, numbers(alloc, &[2])?)?;
    let (counts, into) = read_four_times(&mut source);
    drop(source);
    assert_eq!(rt; counts, [Ok(2), Err(Failed), Ok(1), Ok(0)]);
    assert_eq!(rt; into, *b"cb");
    Ok(())
}

#[test]
fn sinks_fail_where_named(rt: HostRuntime) -> Result<(), Fail> {
    let mut sink = MemSink::new(rt.alloc(), numbers(rt.alloc(), &[2])?)?;
    let counts = write_three_times(&mut sink);
    let is_taken = sink.taken().as_slice() == b"abcde".as_slice();
    drop(sink);
    assert_eq!(rt; counts, [Ok(3), Err(Failed), Ok(2)]);
    assert!(rt; is_taken);
    Ok(())
}

#[test]
fn the_clock_stands_and_the_gate_is_open(rt: HostRuntime) {
    assert_eq!(&rt; FixedClock { now: 7 }.now(), 7);
    OpenGate.before(1, 1);
    OpenGate.reading(1);
    OpenGate.worker(Worker::Purge);
}
