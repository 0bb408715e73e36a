//! What a disk over files makes of calls of the system that fail, are short or are interrupted, each call in turn.
//! No clause says what files do, so these are tests alone.

use crate::failing_files::{FailingFiles, Mishap, Plan};
use crate::files::name_of;
use disk_file::{FileDisk, FileSource, LockFiles, StdSink};
use std::cell::Cell;
use std::fmt::Display;
use std::io::ErrorKind;
use std::os::unix::fs::PermissionsExt;
use std::test::Fail;
use std::{fs, io};
use store_api::{Area, Disk, NoMemory, Sink, Source};

const FILES: [&str; 3] = ["failing.log", "failing.dbl", "failing.pag"];

/// How many calls of the system are made where none goes wrong, up to the end of each of the disk's calls.
const ENDS: [u64; 7] = [5, 8, 13, 16, 17, 18, 20];

fn holds<D: Disk>(disk: &mut D, area: Area, want: &[u8; 8]) -> bool {
    let mut into = [7; 8];
    disk.read(area, 0, &mut into).is_ok() && into == *want
}

/// Which calls succeeded: a copy and a page are written and synced, two areas are synced again, and the copy is read.
fn write_and_sync<D: Disk>(disk: &mut D) -> [bool; 7] {
    [
        disk.write(Area::Double, 0, b"the copy").is_ok(),
        disk.sync(Area::Double).is_ok(),
        disk.write(Area::Pages, 2, b"a page").is_ok(),
        disk.sync(Area::Pages).is_ok(),
        disk.sync(Area::Double).is_ok(),
        disk.sync(Area::Pages).is_ok(),
        holds(disk, Area::Double, b"the copy"),
    ]
}

fn remove_files(rt: &HostRuntime) {
    for file in FILES {
        let _ = fs::remove_file(rt, file);
    }
}

/// The same over files that are made anew, by a plan. Afterwards it is read by another disk whether all stands there.
fn by_plan(rt: &HostRuntime, plan: &Plan) -> Result<([bool; 7], bool), NoMemory> {
    remove_files(rt);
    let name = name_of(rt.alloc(), b"failing")?;
    let mut disk = FileDisk::new(FailingFiles { rt, plan }, rt.alloc(), &name)?;
    let done = write_and_sync(&mut disk);
    drop(disk);
    let mut again = FileDisk::new(rt, rt.alloc(), &name)?;
    let stands = holds(&mut again, Area::Double, b"the copy")
        && holds(&mut again, Area::Pages, b"\0\0a page");
    drop(again);
    drop(name);
    remove_files(rt);
    Ok((done, stands))
}

#[test]
fn names_go_to_the_medium_at_the_first_sync(rt: HostRuntime) -> Result<(), Fail> {
    let plan = Plan::new(0, Mishap::Fails);
    assert_eq!(rt; by_plan(&rt, &plan)?, ([true; 7], true));
    // opened, made, locked; the file before its folder; then its data alone
    assert_eq!(rt; &plan.letters(), b"ddkswaoappkswaoayysr............");
    Ok(())
}

/// Whether the call that met the mishap failed, all before it succeeded, and no later sync of an area whose sync failed did.
fn is_told(at: u64, done: &[bool; 7]) -> bool {
    let call = ENDS.iter().filter(|end| **end < at).count();
    let first = done.iter().position(|done| !*done);
    let copies_are_lost = call != 1 || !done[4];
    let pages_are_lost = call != 3 || !done[5];
    first == Some(call) && copies_are_lost && pages_are_lost
}

#[test]
fn each_call_that_fails_is_told(rt: HostRuntime) -> Result<(), Fail> {
    for at in 1..=20 {
        let (done, _) = by_plan(&rt, &Plan::new(at, Mishap::Fails))?;
        assert!(rt; is_told(at, &done), "call {at}");
    }
    Ok(())
}

#[test]
fn short_and_interrupted_calls_go_on(rt: HostRuntime) -> Result<(), Fail> {
    for at in 1..=20 {
        let short = by_plan(&rt, &Plan::new(at, Mishap::IsShort))?;
        assert_eq!(rt; short, ([true; 7], true), "short call {at}");
        let interrupted = by_plan(&rt, &Plan::new(at, Mishap::IsInterrupted))?;
        assert_eq!(rt; interrupted, ([true; 7], true), "interrupted call {at}");
    }
    Ok(())
}

/// Whether the log can be written, and else why not.
fn write_log<R: LockFiles>(disk: &mut FileDisk<R>) -> (bool, Option<ErrorKind>) {
    let done = disk.write(Area::Log, 0, b"a block").is_ok();
    (done, disk.last_error().map(|error| error.kind()))
}

/// The same while another disk has the log open, and after that one went.
fn one_at_a_time(rt: &HostRuntime) -> Result<[(bool, Option<ErrorKind>); 3], NoMemory> {
    let name = name_of(rt.alloc(), b"failing")?;
    let mut first = FileDisk::new(rt, rt.alloc(), &name)?;
    let mut second = FileDisk::new(rt, rt.alloc(), &name)?;
    let there = [write_log(&mut first), write_log(&mut second)];
    drop(first);
    let later = write_log(&mut second);
    drop(second);
    drop(name);
    Ok([there[0], there[1], later])
}

#[test]
fn a_second_process_is_refused(rt: HostRuntime) -> Result<(), Fail> {
    remove_files(&rt);
    let refused = Some(ErrorKind::WouldBlock);
    let found = one_at_a_time(&rt)?;
    let mode = fs::metadata(&rt, "failing.log")?.permissions().mode();
    remove_files(&rt);
    assert_eq!(rt; found, [(true, None), (false, refused), (true, refused)]);
    assert_eq!(rt; mode % 0o1000, 0o600);
    Ok(())
}

/// Prints nothing, and is interrupted at first.
#[derive(Drop)]
struct Stutterer {
    calls: Cell<u64>,
}

impl Print for Stutterer {
    fn print<D: Display + Drop>(&self, value: D) -> io::Result<()> {
        drop(value);
        Ok(())
    }

    fn println<D: Display + Drop>(&self, value: D) -> io::Result<()> {
        drop(value);
        Ok(())
    }

    fn write_all(&self, _bytes: &[u8]) -> io::Result<()> {
        let before = self.calls.get();
        self.calls.set(before.saturating_add(1));
        if before == 0 {
            return Err(io::Error::from(ErrorKind::Interrupted));
        }
        Ok(())
    }
}

#[test]
fn interrupted_streams_go_on(rt: HostRuntime) -> Result<(), Fail> {
    let mut sink = StdSink::new(Stutterer {
        calls: Cell::new(0),
    });
    assert_eq!(rt; sink.write(b"abc"), Ok(3));
    fs::write(&rt, "failing_source", "abc")?;
    let plan = Plan::new(2, Mishap::IsInterrupted);
    let name = name_of(rt.alloc(), b"failing_source")?;
    let files = FailingFiles {
        rt: &rt,
        plan: &plan,
    };
    let mut source = FileSource::new(files, rt.alloc(), &name)?;
    let mut into = [0; 4];
    let read = source.read(&mut into);
    drop(source);
    drop(name);
    fs::remove_file(&rt, "failing_source")?;
    assert_eq!(rt; (read, into), (Ok(3), *b"abc\0"));
    Ok(())
}
