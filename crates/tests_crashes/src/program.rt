//! What the tests of this crate share: a run of the program over a disk in memory, and what comes of it.
//! No test stands here; `crashes`, `failures` and `refusals` share it.

use disk_mem::{FixedClock, MemDisk, MemSink, MemSource, OpenGate};
use inno_model::{Event, History};
use inno_types::{Bytes, Listed};
use script_runner::{Fault, run};
use std::alloc::{AllocError, Global};
use std::sync::Wait;
use std::thread::Threads;
use std::time::Clock as Timer;
use store_api::NoMemory;

/// What a run answers, what it prints, and what it leaves.
#[derive(Drop)]
pub struct Ran {
    pub fault: Fault,
    pub status: u8,
    pub history: History,
    pub printed: MemSink,
    pub disk: MemDisk,
}

fn bytes(alloc: Global, text: &str) -> Result<Bytes, AllocError> {
    Ok(Listed::from_vec(Vec::from_slice(alloc, text.as_bytes())?))
}

/// Runs the program with these words over a disk.
fn run_words<R: Threads + Wait + Timer + Sync>(
    rt: &R,
    alloc: Global,
    words: &[&str],
    script: &str,
    disk: MemDisk,
) -> Result<Ran, NoMemory> {
    let mut all = Vec::new(alloc);
    for word in words {
        all.push(bytes(alloc, word)?)?;
    }
    let mut source = MemSource::new(alloc, bytes(alloc, script)?, Listed::new(alloc))?;
    let mut printed = MemSink::new(alloc, Listed::new(alloc))?;
    let clock = FixedClock { now: 0 };
    let outcome = run(
        rt,
        alloc,
        &all,
        &mut source,
        disk,
        &mut printed,
        &clock,
        &OpenGate,
    );
    Ok(Ran {
        fault: outcome.fault,
        status: outcome.status,
        history: outcome.history,
        printed,
        disk: outcome.disk,
    })
}

/// Makes the files of a database.
pub fn made<R: Threads + Wait + Timer + Sync>(
    rt: &R,
    alloc: Global,
    disk: MemDisk,
) -> Result<Ran, NoMemory> {
    run_words(rt, alloc, &["innod", "init", "f"], "", disk)
}

/// Plays a script.
pub fn played<R: Threads + Wait + Timer + Sync>(
    rt: &R,
    alloc: Global,
    disk: MemDisk,
    script: &str,
) -> Result<Ran, NoMemory> {
    run_words(rt, alloc, &["innod", "play", "f", "s"], script, disk)
}

/// How many commits were acknowledged up to a moment.
pub fn acknowledged(history: &History, moment: u64) -> usize {
    let mut count = 0_usize;
    for event in history.events() {
        if matches!(event, Event::Acked { moment: at, .. } if *at <= moment) {
            count = count.saturating_add(1);
        }
    }
    count
}

/// Three sessions. One commit makes the table, and then come one of a row, one of two changes, and one by which a row goes.
/// The last transaction stays open.
pub const SCRIPT: &str =
    "CREATE TABLE t (id BIGINT, a BIGINT, PRIMARY KEY (id), KEY ka (a));\n@session a\nINSERT INTO t VALUES (1,10);\n@session b\nBEGIN;\nINSERT INTO t VALUES (2,20);\nUPDATE t SET a = 11 WHERE id = 1;\nCOMMIT;\n@session c\nDELETE FROM t WHERE a = 11;\nBEGIN;\nINSERT INTO t VALUES (3,30);\n";

const QUERY: &str = "@session q\nSELECT * FROM t;\n";

/// What the query prints after so many of the commits.
const READ: [&str; 5] = [
    "@session q\n1> ERROR 1146 (42S02)\n",
    "@session q\n1> ROWS 0\n",
    "@session q\n1> ROWS 1\n1\t10\n",
    "@session q\n1> ROWS 2\n1\t11\n2\t20\n",
    "@session q\n1> ROWS 1\n2\t20\n",
];

/// How many of the commits the files hold, by what a run reads of them, and the disk that it leaves. There is no number where
/// the run fails, or reads what stood there after none of them.
pub fn held<R: Threads + Wait + Timer + Sync>(
    rt: &R,
    alloc: Global,
    disk: MemDisk,
) -> Result<(Option<usize>, MemDisk), NoMemory> {
    let Ran {
        fault,
        status: _,
        history: _,
        printed,
        disk,
    } = played(rt, alloc, disk, QUERY)?;
    if fault != Fault::Nothing {
        return Ok((None, disk));
    }
    Ok((number_of(printed.taken().as_slice()), disk))
}

fn number_of(printed: &[u8]) -> Option<usize> {
    for number in 0..READ.len() {
        if READ[number].as_bytes() == printed {
            return Some(number);
        }
    }
    None
}
