//! Commands, and what the program prints of them.
//! Each goes through the program's top call, over a disk, a source and a sink in memory.

use disk_mem::{FixedClock, MemDisk, MemSink, MemSource, OpenGate};
use inno_types::{Bytes, Listed};
use script_runner::{Fault, run};
use std::alloc::{AllocError, Global};
use std::sync::Wait;
use std::test::Fail;
use std::thread::Threads;
use std::time::Clock as Timer;
use store_api::NoMemory;

fn bytes(alloc: Global, text: &str) -> Result<Bytes, AllocError> {
    Ok(Listed::from_vec(Vec::from_slice(alloc, text.as_bytes())?))
}

/// The words of a line, which a space parts.
fn words(alloc: Global, line: &str) -> Result<Vec<Bytes>, AllocError> {
    let mut all = Vec::new(alloc);
    for word in line.split(' ') {
        all.push(bytes(alloc, word)?)?;
    }
    Ok(all)
}

/// What the program answers to a command over a disk, what it prints, and the disk that it leaves.
fn answered<R: Threads + Wait + Timer + Sync>(
    rt: &R,
    alloc: Global,
    disk: MemDisk,
    words: &[Bytes],
    script: &str,
) -> Result<(Fault, u8, MemSink, MemDisk), NoMemory> {
    let mut source = MemSource::new(alloc, bytes(alloc, script)?, Listed::new(alloc))?;
    let mut sink = MemSink::new(alloc, Listed::new(alloc))?;
    let clock = FixedClock { now: 0 };
    let outcome = run(
        rt,
        alloc,
        words,
        &mut source,
        disk,
        &mut sink,
        &clock,
        &OpenGate,
    );
    Ok((outcome.fault, outcome.status, sink, outcome.disk))
}

const FIRST: &str =
    "CREATE TABLE t (id BIGINT, a BIGINT, PRIMARY KEY (id), KEY ka (a));\n@session a\nINSERT INTO t VALUES (1,10),(2,NULL);\nBEGIN;\nINSERT INTO t VALUES (3,30);\n";

const DUMP: &str =
    "CREATE TABLE `t` (`id` BIGINT NOT NULL, `a` BIGINT, PRIMARY KEY (`id`), KEY `ka` (`a`));\nINSERT INTO `t` VALUES (1,10);\nINSERT INTO `t` VALUES (2,NULL);\n";

const GENERATED: &str =
    "CREATE TABLE acct (id BIGINT, bal BIGINT, PRIMARY KEY (id));\nINSERT INTO acct VALUES (1,100),(2,100),(3,100),(4,100),(5,100),(6,100),(7,100),(8,100),(9,100),(10,100),(11,100),(12,100),(13,100),(14,100),(15,100),(16,100);\n@session s1\nBEGIN;\nUPDATE acct SET bal = bal + 15 WHERE id = 5;\nUPDATE acct SET bal = bal - 15 WHERE id = 16;\nCOMMIT;\n";

const LOADED: &str = "sessions 3 transactions 12 committed 12 total 1600\n";

const TOO_LONG: Fault = Fault::Limit {
    what: 2,
    found: 100_001,
    most: 100_000,
};

#[test]
fn commands_follow_one_another(rt: HostRuntime) -> Result<(), Fail> {
    let alloc = rt.alloc();
    let steps = [
        ("gen 0 1 1", "", Fault::Nothing, 0, GENERATED),
        ("gen 0 1 25000", "", TOO_LONG, 7, ""),
        ("init f", "", Fault::Nothing, 0, ""),
        (
            "check f",
            "",
            Fault::Nothing,
            0,
            "1 pages, 0 tables, 0 rows, 0 marked, 0 undo logs\n",
        ),
        (
            "run f s",
            FIRST,
            Fault::Nothing,
            0,
            "@session setup\n1> OK\n@session a\n1> OK 2\n2> OK\n3> OK 1\n",
        ),
        ("dump f", "", Fault::Nothing, 0, DUMP),
        (
            "check f",
            "",
            Fault::Nothing,
            0,
            "1 pages, 1 tables, 2 rows, 0 marked, 0 undo logs\n",
        ),
        ("load f 0 1 25000", "", TOO_LONG, 7, ""),
        ("load f 7 3 4", "", Fault::Nothing, 0, LOADED),
        (
            "check f",
            "",
            Fault::Nothing,
            0,
            "1 pages, 2 tables, 18 rows, 0 marked, 0 undo logs\n",
        ),
    ];
    let mut disk = MemDisk::new(alloc, Listed::new(alloc))?;
    for (line, script, fault, status, printed) in steps {
        let mut all = words(alloc, "innod")?;
        all.extend(words(alloc, line)?)?;
        let (got, ended, sink, left) = answered(&rt, alloc, disk, &all, script)?;
        disk = left;
        assert_eq!(rt; got, fault, "after {line}");
        assert_eq!(rt; ended, status, "after {line}");
        assert_eq!(rt; sink.taken().as_slice(), printed.as_bytes(), "after {line}");
    }
    drop(disk);
    Ok(())
}

#[test]
fn a_dump_makes_the_database_anew(rt: HostRuntime) -> Result<(), Fail> {
    let alloc = rt.alloc();
    let disk = MemDisk::new(alloc, Listed::new(alloc))?;
    let (made, _, _, disk) = answered(&rt, alloc, disk, &words(alloc, "innod init f")?, "")?;
    let (fault, _, _, disk) = answered(&rt, alloc, disk, &words(alloc, "innod run f s")?, DUMP)?;
    let (told, _, sink, disk) = answered(&rt, alloc, disk, &words(alloc, "innod dump f")?, "")?;
    drop(disk);
    assert_eq!(rt; [made, fault, told], [Fault::Nothing; 3]);
    assert_eq!(rt; sink.taken().as_slice(), DUMP.as_bytes());
    Ok(())
}

/// The words, with a byte more in the last one.
fn with_last_byte(mut words: Vec<Bytes>, byte: u8) -> Result<Vec<Bytes>, AllocError> {
    if let Some(word) = words.last_mut() {
        word.push(byte)?;
    }
    Ok(words)
}

#[test]
fn other_words_are_no_command(rt: HostRuntime) -> Result<(), Fail> {
    let alloc = rt.alloc();
    let lines = [
        "innod run f",
        "innod runs f s",
        "innod run -f s",
        "innod play f ",
        "innod play f s t",
        "innod init f s",
        "innod init ",
        "innod dump -f",
        "innod check",
        "innod check -f",
        "innod --help",
        "innod",
        "innod gen 0 1",
        "innod gen 0 1 1 1",
        "innod gen 0 0 1",
        "innod gen 0 65 1",
        "innod gen 0 1 0",
        "innod gen 0 1 25001",
        "innod gen 0 000001 1",
        "innod gen +1 1 1",
        "innod gen 1a 1 1",
        "innod gen  1 1",
        "innod gen 18446744073709551616 1 1",
        "innod gen 000000000000000000001 1 1",
        "innod load f 0 1",
        "innod load -f 0 1 1",
        "innod load f 0 65 1",
    ];
    let mut all = vec![in alloc;
        Vec::new(alloc),
        with_last_byte(words(alloc, "innod play f s")?, 0xFF)?,
    ]?;
    for line in lines {
        all.push(words(alloc, line)?)?;
    }
    for words in &all {
        let disk = MemDisk::new(alloc, Listed::new(alloc))?;
        let (fault, status, sink, disk) = answered(&rt, alloc, disk, words, "")?;
        drop(disk);
        assert_eq!(rt; fault, Fault::Usage);
        assert_eq!(rt; status, 1);
        assert!(rt; sink.taken().as_slice().is_empty());
    }
    Ok(())
}
