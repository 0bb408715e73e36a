//! Sessions on threads: they run side by side, each is answered, and what they leave is what they were to leave.
//! The threads are real; a gate of the test lets sessions meet, and the disk is one in memory.

use disk_mem::{FixedClock, MemDisk, MemSink, MemSource};
use inno_types::{Bytes, Listed};
use script_runner::{Fault, run};
use std::alloc::{AllocError, Global};
use std::sync::Wait;
use std::sync::atomic::{AtomicU64, Ordering};
use std::test::Fail;
use std::thread;
use std::thread::Threads;
use std::time::Clock as Timer;
use store_api::{Gate, NoMemory, Worker};

/// Holds session 1 before its second item until session 2 comes to its own second one, so that its first was answered. It
/// gives up after a million turns.
#[derive(Drop)]
struct Meeting {
    answered: AtomicU64,
    met: AtomicU64,
}

impl Gate for Meeting {
    fn before(&self, session: u32, item: u32) {
        if session == 2 && item == 2 {
            self.answered.store(1, Ordering::SeqCst);
        }
        if session == 1 && item == 2 {
            for _ in 0..1_000_000 {
                if self.answered.load(Ordering::SeqCst) == 1 {
                    self.met.store(1, Ordering::SeqCst);
                    return;
                }
                thread::yield_now();
            }
        }
    }

    fn reading(&self, _session: u32) {}

    fn worker(&self, _kind: Worker) {}
}

fn bytes(alloc: Global, text: &str) -> Result<Bytes, AllocError> {
    Ok(Listed::from_vec(Vec::from_slice(alloc, text.as_bytes())?))
}

/// Runs the program with these words over a disk, before this gate.
fn ran<G: Gate + Sync, R: Threads + Wait + Timer + Sync>(
    rt: &R,
    alloc: Global,
    disk: MemDisk,
    words: &[&str],
    script: &str,
    gate: &G,
) -> Result<(Fault, MemSink, MemDisk), NoMemory> {
    let mut all = Vec::new(alloc);
    for word in words {
        all.push(bytes(alloc, word)?)?;
    }
    let mut source = MemSource::new(alloc, bytes(alloc, script)?, Listed::new(alloc))?;
    let mut sink = MemSink::new(alloc, Listed::new(alloc))?;
    let clock = FixedClock { now: 0 };
    let outcome = run(rt, alloc, &all, &mut source, disk, &mut sink, &clock, gate);
    Ok((outcome.fault, sink, outcome.disk))
}

const SIDE_BY_SIDE: &str =
    "CREATE TABLE t (id BIGINT, a BIGINT, PRIMARY KEY (id));\n@session a\nINSERT INTO t VALUES (1,1);\nSELECT a FROM t WHERE id = 2;\n@session b\nINSERT INTO t VALUES (2,2);\nSELECT a FROM t WHERE id = 3;\n";

#[test]
fn sessions_run_side_by_side(rt: HostRuntime) -> Result<(), Fail> {
    let alloc = rt.alloc();
    let gate = Meeting {
        answered: AtomicU64::new(0),
        met: AtomicU64::new(0),
    };
    let disk = MemDisk::new(alloc, Listed::new(alloc))?;
    let (made, _, disk) = ran(&rt, alloc, disk, &["innod", "init", "f"], "", &gate)?;
    let words = ["innod", "run", "f", "s"];
    let (fault, sink, disk) = ran(&rt, alloc, disk, &words, SIDE_BY_SIDE, &gate)?;
    drop(disk);
    assert_eq!(rt; made, Fault::Nothing);
    assert_eq!(rt; fault, Fault::Nothing);
    assert_eq!(rt; gate.met.load(Ordering::SeqCst), 1);
    assert_eq!(rt;
        sink.taken().as_slice(),
        "@session setup\n1> OK\n@session a\n1> OK 1\n2> ROWS 1\n2\n@session b\n1> OK 1\n2> ROWS 0\n".as_bytes()
    );
    Ok(())
}

const ACCOUNTS: &str =
    "CREATE TABLE t (id BIGINT, a BIGINT, PRIMARY KEY (id));\nINSERT INTO t VALUES (0,100),(1,100),(2,100),(3,100),(4,100),(5,100),(6,100),(7,100),(8,100);\n";

/// Eight sessions, each of which moves 1 from its row to the next, four times.
fn transfers(alloc: Global) -> Result<String, AllocError> {
    let mut script = String::from_str(alloc, ACCOUNTS)?;
    for _ in 0..4 {
        for from in 0..8_u8 {
            let to = from.saturating_add(1);
            let text = format!(in alloc;
                "@session s{from}\nBEGIN;\nUPDATE t SET a = a - 1 WHERE id = {from};\nUPDATE t SET a = a + 1 WHERE id = {to};\nCOMMIT;\n"
            )?;
            script.push_str(text.as_str())?;
        }
    }
    Ok(script)
}

#[test]
fn sums_stay(rt: HostRuntime) -> Result<(), Fail> {
    let alloc = rt.alloc();
    let gate = Meeting {
        answered: AtomicU64::new(1),
        met: AtomicU64::new(0),
    };
    let disk = MemDisk::new(alloc, Listed::new(alloc))?;
    let (made, _, disk) = ran(&rt, alloc, disk, &["innod", "init", "f"], "", &gate)?;
    let script = transfers(alloc)?;
    let words = ["innod", "run", "f", "s"];
    let (fault, _, disk) = ran(&rt, alloc, disk, &words, script.as_str(), &gate)?;
    let query = "@session q\nSELECT a FROM t;\n";
    let (asked, sink, disk) = ran(&rt, alloc, disk, &words, query, &gate)?;
    drop(disk);
    assert_eq!(rt; [made, fault, asked], [Fault::Nothing; 3]);
    assert_eq!(rt;
        sink.taken().as_slice(),
        "@session q\n1> ROWS 9\n96\n100\n100\n100\n100\n100\n100\n100\n104\n".as_bytes()
    );
    Ok(())
}
