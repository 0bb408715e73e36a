//! A disk of which one call fails: what is answered, and that what was acknowledged stays.
//! The disk in memory is told which call fails; the program knows nothing of it.

use crate::program::{Ran, SCRIPT, acknowledged, held, made, played};
use disk_mem::{MemDisk, Pick};
use inno_model::{Event, History};
use inno_types::{Ids, Listed};
use script_runner::Fault;
use std::alloc::{AllocError, Global};
use std::process::Abort;
use std::sync::Wait;
use std::test::Fail;
use std::thread::Threads;
use std::time::Clock as Timer;
use store_api::Disk;

fn number(alloc: Global, number: u64) -> Result<Ids, AllocError> {
    Ok(Listed::from_vec(Vec::from_slice(alloc, &[number])?))
}

/// What the files hold after the disk has failed: all that was acknowledged before, also where the writes since the last
/// sync are lost.
fn holds_acknowledged<R: Abort + Threads + Wait + Timer + Sync>(
    rt: &R,
    alloc: Global,
    disk: &MemDisk,
    history: &History,
) -> Result<(), Fail> {
    let moment = disk.moment();
    let image = disk.image(moment, Pick::Lost)?;
    let (count, image) = held(rt, alloc, image)?;
    drop(image);
    let least = acknowledged(history, moment);
    assert!(rt;
        count.is_some_and(|count| least <= count),
        "after {moment} calls"
    );
    Ok(())
}

/// Makes files and plays the script on a disk whose call of this number fails. Says whether there was such a call.
fn fails_at<R: Abort + Threads + Wait + Timer + Sync>(
    rt: &R,
    alloc: Global,
    call: u64,
) -> Result<bool, Fail> {
    let Ran {
        fault,
        status,
        history: _,
        printed: _,
        disk,
    } = made(rt, alloc, MemDisk::new(alloc, number(alloc, call)?)?)?;
    if disk.moment() >= call {
        drop(disk);
        assert_eq!(rt; fault, Fault::DiskFault, "call {call}");
        assert_eq!(rt; status, 5);
        return Ok(true);
    }
    let Ran {
        fault,
        status,
        history,
        printed: _,
        disk,
    } = played(rt, alloc, disk, SCRIPT)?;
    let called = disk.moment() >= call;
    let kept = holds_acknowledged(rt, alloc, &disk, &history);
    drop(history);
    drop(disk);
    kept?;
    assert_eq!(rt; fault == Fault::DiskFault, called, "call {call}");
    assert_eq!(rt; status == 5, called, "call {call}");
    Ok(called)
}

#[test]
fn each_call_that_fails_is_told(rt: HostRuntime) -> Result<(), Fail> {
    let alloc = rt.alloc();
    let mut failed = 0_u64;
    for call in 1..1_000 {
        if !fails_at(&rt, alloc, call)? {
            break;
        }
        failed = call;
    }
    assert!(rt; 8 <= failed && failed < 999, "{failed} calls");
    Ok(())
}

const INSERT: &str =
    "CREATE TABLE t (id BIGINT, a BIGINT, PRIMARY KEY (id), KEY ka (a));\n@session a\nINSERT INTO t VALUES (1,10);\nSELECT * FROM t;\n";

/// The moment of the latest acknowledgement.
fn last_acknowledged(history: &History) -> u64 {
    let mut last = 0;
    for event in history.events() {
        if let Event::Acked { moment, .. } = event {
            last = *moment;
        }
    }
    last
}

/// Plays the script of one INSERT on new files of a disk whose call of this number fails.
fn inserted<R: Abort + Threads + Wait + Timer + Sync>(
    rt: &R,
    alloc: Global,
    call: u64,
) -> Result<Ran, Fail> {
    let Ran {
        fault: _,
        status: _,
        history: _,
        printed: _,
        disk,
    } = made(rt, alloc, MemDisk::new(alloc, number(alloc, call)?)?)?;
    Ok(played(rt, alloc, disk, INSERT)?)
}

#[test]
fn a_commit_whose_sync_fails_stops_the_engine(rt: HostRuntime) -> Result<(), Fail> {
    let alloc = rt.alloc();
    let whole = inserted(&rt, alloc, 0)?;
    // An acknowledgement comes right behind the sync of its commit, the call of that number.
    let sync = last_acknowledged(&whole.history);
    drop(whole);
    let Ran {
        fault,
        status,
        history,
        printed,
        disk,
    } = inserted(&rt, alloc, sync)?;
    drop(history);
    drop(disk);
    assert_eq!(rt; fault, Fault::DiskFault);
    assert_eq!(rt; status, 5);
    assert_eq!(rt;
        printed.taken().as_slice(),
        "@session setup\n1> OK\n@session a\n1> STOPPED\n2> STOPPED\n".as_bytes()
    );
    Ok(())
}
