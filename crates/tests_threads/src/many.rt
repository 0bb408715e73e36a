//! Sessions that share one database on threads: sixty-four of two hundred items each come to their end, and what eight transfer
//! between the rows of one table leaves their sum as it was, in each of two hundred runs.

use disk_mem::{FixedClock, MemDisk, MemSink, MemSource, OpenGate};
use inno_types::{Bytes, Listed};
use script_runner::{Fault, run};
use std::alloc::{AllocError, Global};
use std::sync::Wait;
use std::test::Fail;
use std::thread::Threads;
use std::time::Clock as Timer;
use store_api::NoMemory;

fn bytes(alloc: Global, text: &str) -> Result<Bytes, AllocError> {
    Ok(Listed::from_vec(Vec::from_slice(alloc, text.as_bytes())?))
}

/// Runs the program with this command over a disk, and gives what it prints.
fn ran<R: Threads + Wait + Timer + Sync>(
    rt: &R,
    alloc: Global,
    disk: MemDisk,
    command: &str,
    script: &str,
) -> Result<(Fault, MemSink, MemDisk), NoMemory> {
    let names = ["innod", command, "f", "s"];
    let count = if command == "init" { 3 } else { 4 };
    let mut words = Vec::new(alloc);
    for name in &names[..count] {
        words.push(bytes(alloc, name)?)?;
    }
    let mut source = MemSource::new(alloc, bytes(alloc, script)?, Listed::new(alloc))?;
    let mut sink = MemSink::new(alloc, Listed::new(alloc))?;
    let clock = FixedClock { now: 0 };
    let outcome = run(
        rt,
        alloc,
        &words,
        &mut source,
        disk,
        &mut sink,
        &clock,
        &OpenGate,
    );
    Ok((outcome.fault, sink, outcome.disk))
}

/// How many items were answered.
fn answered(printed: &[u8]) -> u32 {
    let mut count: u32 = 0;
    for byte in printed {
        if *byte == b'>' {
            count = count.saturating_add(1);
        }
    }
    count
}

/// How many were answered with OK, a count or rows.
fn answered_well(printed: &[u8]) -> u32 {
    let mut count: u32 = 0;
    for text in printed.windows(4) {
        if text == "> OK".as_bytes() || text == "> RO".as_bytes() {
            count = count.saturating_add(1);
        }
    }
    count
}

/// A table with a row for each of so many numbers.
fn table(alloc: Global, rows: u8) -> Result<String, AllocError> {
    let mut script = String::from_str(
        alloc,
        "CREATE TABLE t (id BIGINT, a BIGINT, PRIMARY KEY (id));\n",
    )?;
    for row in 0..rows {
        let text = format!(in alloc; "INSERT INTO t VALUES ({row},100);\n")?;
        script.push_str(text.as_str())?;
    }
    Ok(script)
}

/// Sixty-four sessions of two hundred items: each adds 1 to its own row, reads it, and commits what is already committed.
fn counting(alloc: Global) -> Result<String, AllocError> {
    let mut script = table(alloc, 64)?;
    for step in 0..12_800_u32 {
        let own = step % 64;
        let text = match step / 64 {
            0 => format!(in alloc; "@session s{own}\nUPDATE t SET a = a + 1 WHERE id = {own};\n")?,
            100 => format!(in alloc; "@session s{own}\nSELECT a FROM t WHERE id = {own};\n")?,
            _ => format!(in alloc; "@session s{own}\nCOMMIT;\n")?,
        };
        script.push_str(text.as_str())?;
    }
    Ok(script)
}

/// Eight sessions, each of which moves 1 from its row to the next, twice.
fn transfers(alloc: Global) -> Result<String, AllocError> {
    let mut script = table(alloc, 9)?;
    for step in 0..16_u8 {
        let from = step % 8;
        let to = from + 1;
        let text = format!(in alloc;
            "@session s{from}\nBEGIN;\nUPDATE t SET a = a - 1 WHERE id = {from};\nUPDATE t SET a = a + 1 WHERE id = {to};\nCOMMIT;\n"
        )?;
        script.push_str(text.as_str())?;
    }
    Ok(script)
}

/// Whether a script on threads has so many items, all of them are answered well, and the query then prints this.
fn leaves<R: Threads + Wait + Timer + Sync>(
    rt: &R,
    alloc: Global,
    script: &str,
    items: u32,
    query: &str,
    told: &str,
) -> Result<bool, NoMemory> {
    let disk = MemDisk::new(alloc, Listed::new(alloc))?;
    let (made, _, disk) = ran(rt, alloc, disk, "init", "")?;
    let (played, first, disk) = ran(rt, alloc, disk, "run", script)?;
    let (asked, second, disk) = ran(rt, alloc, disk, "run", query)?;
    drop(disk);
    let all = answered(first.taken().as_slice());
    let good = answered_well(first.taken().as_slice());
    let same = second.taken().as_slice() == told.as_bytes();
    Ok([made, played, asked] == [Fault::Nothing; 3] && all == items && good == items && same)
}

#[test]
fn many_sessions_come_to_their_end(rt: HostRuntime) -> Result<(), Fail> {
    let script = counting(rt.alloc())?;
    let query = "@session q\nSELECT id FROM t WHERE a < 101;\n";
    let told = "@session q\n1> ROWS 0\n";
    assert!(rt; leaves(&rt, rt.alloc(), script.as_str(), 65 + 12_800, query, told)?);
    Ok(())
}

/// Whether fifty runs of the transfers leave the sum as it was.
fn keep_the_sum<R: Threads + Wait + Timer + Sync>(rt: &R, alloc: Global) -> Result<bool, NoMemory> {
    let script = transfers(alloc)?;
    let query = "@session q\nSELECT a FROM t;\n";
    let told = "@session q\n1> ROWS 9\n98\n100\n100\n100\n100\n100\n100\n100\n102\n";
    for _ in 0..50 {
        if !leaves(rt, alloc, script.as_str(), 10 + 64, query, told)? {
            return Ok(false);
        }
    }
    Ok(true)
}

#[test]
fn transfers_keep_the_sum(rt: HostRuntime) -> Result<(), Fail> {
    assert!(rt; keep_the_sum(&rt, rt.alloc())?);
    Ok(())
}

#[test]
fn transfers_keep_it_in_fifty_more_runs(rt: HostRuntime) -> Result<(), Fail> {
    assert!(rt; keep_the_sum(&rt, rt.alloc())?);
    Ok(())
}

#[test]
fn transfers_keep_it_in_a_third_fifty(rt: HostRuntime) -> Result<(), Fail> {
    assert!(rt; keep_the_sum(&rt, rt.alloc())?);
    Ok(())
}

#[test]
fn transfers_keep_it_in_a_fourth_fifty(rt: HostRuntime) -> Result<(), Fail> {
    assert!(rt; keep_the_sum(&rt, rt.alloc())?);
    Ok(())
}
