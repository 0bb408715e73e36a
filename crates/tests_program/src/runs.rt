//! Scripts, and what the program prints of them.
//! Nothing is called but the top call (`run`), over a disk, a source and a sink in memory.

use disk_mem::{FixedClock, MemDisk, MemSink, MemSource, OpenGate};
use inno_types::{Bytes, Ids, Listed};
use script_runner::{Fault, run};
use std::alloc::{AllocError, Global};
use std::process::Abort;
use std::sync::Wait;
use std::test::Fail;
use std::thread::Threads;
use std::time::Clock as Timer;
use store_api::NoMemory;

fn bytes(alloc: Global, text: &str) -> Result<Bytes, AllocError> {
    Ok(Listed::from_vec(Vec::from_slice(alloc, text.as_bytes())?))
}

fn words(alloc: Global, words: &[&str]) -> Result<Vec<Bytes>, AllocError> {
    let mut all = Vec::new(alloc);
    for word in words {
        all.push(bytes(alloc, word)?)?;
    }
    Ok(all)
}

fn numbers(alloc: Global, number: u64) -> Result<Ids, AllocError> {
    Ok(Listed::from_vec(Vec::from_slice(alloc, &[number])?))
}

/// A script, the calls of the source and the sink that fail (0 for none), and what comes of it.
#[derive(Drop)]
struct Case {
    command: &'static str,
    script: &'static str,
    source_fails: u64,
    sink_fails: u64,
    fault: Fault,
    status: u8,
    printed: &'static str,
}

fn ran(command: &'static str, script: &'static str, printed: &'static str) -> Case {
    Case {
        command,
        script,
        source_fails: 0,
        sink_fails: 0,
        fault: Fault::Nothing,
        status: 0,
        printed,
    }
}

fn failed(
    script: &'static str,
    source_fails: u64,
    sink_fails: u64,
    fault: Fault,
    status: u8,
) -> Case {
    Case {
        command: "run",
        script,
        source_fails,
        sink_fails,
        fault,
        status,
        printed: "",
    }
}

/// A new disk on which the files of a database were made, or the fault of that.
fn new_files<R: Threads + Wait + Timer + Sync>(
    rt: &R,
    alloc: Global,
) -> Result<(Fault, MemDisk), NoMemory> {
    let disk = MemDisk::new(alloc, Listed::new(alloc))?;
    let mut source = MemSource::new(alloc, Listed::new(alloc), Listed::new(alloc))?;
    let mut sink = MemSink::new(alloc, Listed::new(alloc))?;
    let words = words(alloc, &["innod", "init", "f"])?;
    let clock = FixedClock { now: 0 };
    let outcome = run(
        rt,
        alloc,
        &words,
        &mut source,
        disk,
        &mut sink,
        &clock,
        &OpenGate,
    );
    Ok((outcome.fault, outcome.disk))
}

/// What a run over a disk answers and prints, and the disk that it leaves.
fn result_on<R: Threads + Wait + Timer + Sync>(
    rt: &R,
    alloc: Global,
    disk: MemDisk,
    case: &Case,
) -> Result<(Fault, u8, MemSink, MemDisk), NoMemory> {
    let source_fails = numbers(alloc, case.source_fails)?;
    let mut source = MemSource::new(alloc, bytes(alloc, case.script)?, source_fails)?;
    let mut sink = MemSink::new(alloc, numbers(alloc, case.sink_fails)?)?;
    let words = words(alloc, &["innod", case.command, "f", "s"])?;
    let clock = FixedClock { now: 0 };
    let outcome = run(
        rt,
        alloc,
        &words,
        &mut source,
        disk,
        &mut sink,
        &clock,
        &OpenGate,
    );
    Ok((outcome.fault, outcome.status, sink, outcome.disk))
}

const ONE_SESSION: &str =
    "CREATE TABLE t (id BIGINT, a BIGINT, PRIMARY KEY (id), KEY ka (a));\n@session a\nINSERT INTO t VALUES (1,10);\nSELECT * FROM t;\nINSERT INTO t VALUES (1,11);\nCOMMIT;\n";

#[test]
fn prints_what_sessions_were_answered(rt: HostRuntime) -> Result<(), Fail> {
    let cases = [
        ran("run", "", ""),
        ran(
            "play",
            "@session a\n@await go\n",
            "@session a\n1> NOT SIGNALLED\n",
        ),
        ran(
            "play",
            "@session a\n@await go\n@session b\n@signal go\n",
            "@session a\n1> OK\n@session b\n1> OK\n",
        ),
        ran(
            "run",
            "@session a\n@await go\n@session b\n@signal go\n",
            "@session a\n1> OK\n@session b\n1> OK\n",
        ),
        ran(
            "play",
            "@session a\n@await go\n@tick 49\n@session b\n@signal go\n@session a\n@await by\n@tick 50\n@session b\n@signal by\n",
            "@session a\n1> OK\n2> NOT SIGNALLED\n@session b\n1> OK\n2> OK\n",
        ),
        ran(
            "run",
            ONE_SESSION,
            "@session setup\n1> OK\n@session a\n1> OK 1\n2> ROWS 1\n1\t10\n3> ERROR 1062 (23000)\n4> OK\n",
        ),
        ran(
            "play",
            "@session a\nCOMMIT now;\nCREATE TABLE w (id BIGINT, PRIMARY KEY (id));\n",
            "@session a\n1> ERROR 1064 (42000)\n2> ERROR 1064 (42000)\n",
        ),
        ran(
            "play",
            "CREATE TABLE t (id BIGINT, a BIGINT, PRIMARY KEY (id), KEY ka (a));\n@session a\nBEGIN;\nINSERT INTO t VALUES (1,10);\n@session b\nINSERT INTO t VALUES (1,11);\n@session f\nSELECT * FROM t;\n@session a\nCOMMIT;\n@session f\nSELECT * FROM t;\n",
            "@session setup\n1> OK\n@session a\n1> OK\n2> OK 1\n3> OK\n@session b\n1> ERROR 1062 (23000)\n@session f\n1> ROWS 0\n2> ROWS 1\n1\t10\n",
        ),
        ran(
            "play",
            "CREATE TABLE t (id BIGINT, a BIGINT, PRIMARY KEY (id), KEY ka (a));\nINSERT INTO t VALUES (1,10);\n@session a\nBEGIN;\n@session b\nINSERT INTO t VALUES (2,20);\n@session a\nSELECT * FROM t;\n@session b\nINSERT INTO t VALUES (3,30);\n@session a\nSELECT * FROM t;\nCOMMIT;\nSELECT * FROM t;\n",
            "@session setup\n1> OK\n2> OK 1\n@session a\n1> OK\n2> ROWS 2\n1\t10\n2\t20\n3> ROWS 2\n1\t10\n2\t20\n4> OK\n5> ROWS 3\n1\t10\n2\t20\n3\t30\n@session b\n1> OK 1\n2> OK 1\n",
        ),
        ran(
            "play",
            "CREATE TABLE t (id BIGINT, a BIGINT, PRIMARY KEY (id), KEY ka (a));\nINSERT INTO t VALUES (1,10);\n@session a\nSET SESSION TRANSACTION ISOLATION LEVEL READ COMMITTED;\nBEGIN;\n@session b\nINSERT INTO t VALUES (2,20);\n@session a\nSELECT * FROM t;\n@session b\nINSERT INTO t VALUES (3,30);\n@session a\nSELECT * FROM t;\nCOMMIT;\nSELECT * FROM t;\n",
            "@session setup\n1> OK\n2> OK 1\n@session a\n1> OK\n2> OK\n3> ROWS 2\n1\t10\n2\t20\n4> ROWS 3\n1\t10\n2\t20\n3\t30\n5> OK\n6> ROWS 3\n1\t10\n2\t20\n3\t30\n@session b\n1> OK 1\n2> OK 1\n",
        ),
        ran(
            "play",
            "CREATE TABLE t (id BIGINT, a BIGINT, PRIMARY KEY (id), KEY ka (a));\nINSERT INTO t VALUES (1,10);\n@session a\nSTART TRANSACTION WITH CONSISTENT SNAPSHOT;\n@session b\nINSERT INTO t VALUES (2,20);\n@session a\nSELECT * FROM t;\n",
            "@session setup\n1> OK\n2> OK 1\n@session a\n1> OK\n2> ROWS 1\n1\t10\n@session b\n1> OK 1\n",
        ),
        ran(
            "play",
            "CREATE TABLE t (id BIGINT, a BIGINT, PRIMARY KEY (id), KEY ka (a));\nINSERT INTO t VALUES (1,10);\n@session a\nSET SESSION TRANSACTION ISOLATION LEVEL READ COMMITTED;\nSTART TRANSACTION WITH CONSISTENT SNAPSHOT;\n@session b\nINSERT INTO t VALUES (2,20);\n@session a\nSELECT * FROM t;\n",
            "@session setup\n1> OK\n2> OK 1\n@session a\n1> OK\n2> OK\n3> ROWS 2\n1\t10\n2\t20\n@session b\n1> OK 1\n",
        ),
        ran(
            "play",
            "CREATE TABLE u (id BIGINT, a BIGINT, b BIGINT, PRIMARY KEY (id));\nINSERT INTO u VALUES (1,1,1);\n@session a\nBEGIN;\nSELECT * FROM u;\n@session b\nUPDATE u SET a = 5 WHERE id = 1;\n@session a\nUPDATE u SET a = 5 WHERE id = 1;\nSELECT * FROM u;\nUPDATE u SET b = 7 WHERE id = 1;\nSELECT * FROM u;\n",
            "@session setup\n1> OK\n2> OK 1\n@session a\n1> OK\n2> ROWS 1\n1\t1\t1\n3> OK 0\n4> ROWS 1\n1\t1\t1\n5> OK 1\n6> ROWS 1\n1\t5\t7\n@session b\n1> OK 1\n",
        ),
        ran(
            "play",
            "CREATE TABLE k (a BIGINT, id BIGINT, PRIMARY KEY (id));\n@session a\nINSERT INTO k (id, a) VALUES (50,1),(10,2),(90,3);\nINSERT INTO k (a, id) VALUES (4,20),(5,10);\nINSERT INTO k VALUES (6,5),(7,95);\nINSERT INTO k VALUES (8,NULL);\nINSERT INTO k VALUES (9,60),(9,99999999999999999999);\nSELECT id FROM k;\n",
            "@session setup\n1> OK\n@session a\n1> OK 3\n2> ERROR 1062 (23000)\n3> OK 2\n4> ERROR 1048 (23000)\n5> ERROR 1264 (22003)\n6> ROWS 5\n5\n10\n50\n90\n95\n",
        ),
        ran(
            "play",
            "CREATE TABLE t (id BIGINT, a BIGINT, PRIMARY KEY (id), KEY ka (a));\n@session a\nBEGIN;\nINSERT INTO t VALUES (5,1),(5,2);\nSELECT * FROM t;\nCOMMIT;\n",
            "@session setup\n1> OK\n@session a\n1> OK\n2> ERROR 1062 (23000)\n3> ROWS 0\n4> OK\n",
        ),
        ran(
            "play",
            "CREATE TABLE t (id BIGINT, a BIGINT, PRIMARY KEY (id), KEY ka (a));\n@session a\nBEGIN;\nSAVEPOINT s;\nINSERT INTO t VALUES (1,1);\nSAVEPOINT s;\nINSERT INTO t VALUES (2,2);\nROLLBACK TO s;\nSELECT * FROM t;\n",
            "@session setup\n1> OK\n@session a\n1> OK\n2> OK\n3> OK 1\n4> OK\n5> OK 1\n6> OK\n7> ROWS 1\n1\t1\n",
        ),
        ran(
            "play",
            "CREATE TABLE t (id BIGINT, a BIGINT, PRIMARY KEY (id), KEY ka (a));\nINSERT INTO t VALUES (1,1),(2,6),(3,7);\n@session a\nUPDATE t SET a = a + 10 WHERE a > 5;\nSELECT * FROM t;\nINSERT INTO t VALUES (4,9223372036854775807);\nUPDATE t SET a = a + 10 WHERE a > 5;\nSELECT * FROM t;\n",
            "@session setup\n1> OK\n2> OK 3\n@session a\n1> OK 2\n2> ROWS 3\n1\t1\n2\t16\n3\t17\n3> OK 1\n4> ERROR 1690 (22003)\n5> ROWS 4\n1\t1\n2\t16\n3\t17\n4\t9223372036854775807\n",
        ),
        ran(
            "play",
            "CREATE TABLE t (id BIGINT, a BIGINT, PRIMARY KEY (id), KEY ka (a));\nINSERT INTO t VALUES (1,10);\nCREATE TABLE v (k VARBINARY(2), PRIMARY KEY (k));\nCREATE TABLE t (id BIGINT, a BIGINT, PRIMARY KEY (id), KEY ka (a));\n@session a\nSELECT * FROM nope;\nSELECT z FROM t;\nINSERT INTO t VALUES (1);\nINSERT INTO t VALUES (NULL,1);\nINSERT INTO t VALUES (9223372036854775808,1);\nINSERT INTO t (a) VALUES (1);\nINSERT INTO t (id,id) VALUES (1,1);\nINSERT INTO v VALUES ('abc');\nSELEC;\nCREATE TABLE w (id BIGINT PRIMARY KEY);\nBEGIN;\nSET TRANSACTION ISOLATION LEVEL SERIALIZABLE;\nINSERT INTO t VALUES (1,5);\nINSERT INTO v VALUES ('ab');\n",
            "@session setup\n1> OK\n2> OK 1\n3> OK\n4> ERROR 1050 (42S01)\n@session a\n1> ERROR 1146 (42S02)\n2> ERROR 1054 (42S22)\n3> ERROR 1136 (21S01)\n4> ERROR 1048 (23000)\n5> ERROR 1264 (22003)\n6> ERROR 1364 (HY000)\n7> ERROR 1110 (42000)\n8> ERROR 1406 (22001)\n9> ERROR 1064 (42000)\n10> ERROR 1064 (42000)\n11> OK\n12> ERROR 1568 (25001)\n13> ERROR 1062 (23000)\n14> OK 1\n",
        ),
        ran(
            "play",
            "CREATE TABLE `select` (id BIGINT, n BIGINT, s VARBINARY(20), PRIMARY KEY (id));\nINSERT INTO `select` VALUES (1,10,'a'),(2,NULL,'it''s'),(3,30,NULL),(4,-40,'x');\n@session a\nSELECT id FROM `select` WHERE n > 5;\nSELECT id FROM `select` WHERE NOT n > 5;\nSELECT id FROM `select` WHERE n IS NULL;\nSELECT id FROM `select` WHERE n BETWEEN 10 AND 30;\nSELECT id FROM `select` WHERE n NOT BETWEEN 10 AND 30;\nSELECT id FROM `select` WHERE n IN (30, NULL);\nSELECT id FROM `select` WHERE n NOT IN (30, NULL);\nSELECT id FROM `select` WHERE n = NULL OR id = 4;\nSELECT s FROM `select` WHERE s = 'it\\'s';\nUPDATE `select` SET n = n * -2 + 1, s = 'z' WHERE id < 3;\nSELECT * FROM `select`;\nDELETE FROM `select` WHERE n < 0;\nSELECT * FROM `select`;\nSELECT * FROM `select` FOR UPDATE;\n",
            "@session setup\n1> OK\n2> OK 4\n@session a\n1> ROWS 2\n1\n3\n2> ROWS 1\n4\n3> ROWS 1\n2\n4> ROWS 2\n1\n3\n5> ROWS 1\n4\n6> ROWS 1\n3\n7> ROWS 0\n8> ROWS 1\n4\n9> ROWS 1\nit's\n10> OK 2\n11> ROWS 4\n1\t-19\tz\n2\tNULL\tz\n3\t30\tNULL\n4\t-40\tx\n12> OK 2\n13> ROWS 2\n2\tNULL\tz\n3\t30\tNULL\n14> ERROR 1064 (42000)\n",
        ),
        ran(
            "play",
            "CREATE TABLE t (id BIGINT, a BIGINT, PRIMARY KEY (id), KEY ka (a));\nINSERT INTO t VALUES (1,10);\n@session a\nBEGIN;\nINSERT INTO t VALUES (2,20);\n@session b\nSET SESSION TRANSACTION ISOLATION LEVEL READ UNCOMMITTED;\nSELECT * FROM t;\n@session a\nROLLBACK;\n@session b\nSELECT * FROM t;\n",
            "@session setup\n1> OK\n2> OK 1\n@session a\n1> OK\n2> OK 1\n3> OK\n@session b\n1> OK\n2> ROWS 2\n1\t10\n2\t20\n3> ROWS 1\n1\t10\n",
        ),
        ran(
            "play",
            "CREATE TABLE t (id BIGINT, a BIGINT, s VARBINARY(8), PRIMARY KEY (id), KEY ka (a), KEY ks (s));\nINSERT INTO t VALUES (1,30,'c'),(2,10,'b'),(3,20,NULL),(4,10,'a'),(5,NULL,'b');\n@session a\nSELECT id FROM t WHERE a = 10;\nSELECT id FROM t WHERE a > 10;\nSELECT id FROM t WHERE a >= 10 AND a < 30;\nSELECT id FROM t WHERE a IS NULL;\nSELECT id FROM t WHERE a <= 10;\nSELECT id FROM t WHERE s = 'b';\nSELECT id FROM t WHERE s BETWEEN 'a' AND 'b';\nSELECT id FROM t WHERE a IN (30, 20);\nSELECT * FROM t WHERE a = 10 AND s > 'a';\nSELECT id FROM t WHERE a = 99;\nSELECT id FROM t WHERE id > 1 AND id <= 3;\n",
            "@session setup\n1> OK\n2> OK 5\n@session a\n1> ROWS 2\n2\n4\n2> ROWS 2\n1\n3\n3> ROWS 3\n2\n3\n4\n4> ROWS 1\n5\n5> ROWS 2\n2\n4\n6> ROWS 2\n2\n5\n7> ROWS 3\n2\n4\n5\n8> ROWS 2\n1\n3\n9> ROWS 1\n2\t10\tb\n10> ROWS 0\n11> ROWS 2\n2\n3\n",
        ),
        ran(
            "play",
            "CREATE TABLE t (id BIGINT, a BIGINT, PRIMARY KEY (id), KEY ka (a));\nINSERT INTO t VALUES (1,10),(2,20),(3,30),(4,40);\n@session a\nUPDATE t SET a = a + 25 WHERE a <= 20;\nSELECT id FROM t WHERE a <= 20;\nSELECT * FROM t WHERE a > 30;\nSELECT id FROM t WHERE a BETWEEN 35 AND 40;\nUPDATE t SET a = 40 WHERE a = 40;\nUPDATE t SET a = NULL WHERE a > 35;\nSELECT id FROM t WHERE a IS NULL;\nSELECT * FROM t WHERE a < 100;\n",
            "@session setup\n1> OK\n2> OK 4\n@session a\n1> OK 2\n2> ROWS 0\n3> ROWS 3\n1\t35\n2\t45\n4\t40\n4> ROWS 2\n1\n4\n5> OK 0\n6> OK 2\n7> ROWS 2\n2\n4\n8> ROWS 2\n1\t35\n3\t30\n",
        ),
        ran(
            "play",
            "CREATE TABLE t (id BIGINT, a BIGINT, PRIMARY KEY (id), KEY ka (a));\nINSERT INTO t VALUES (1,10),(2,20);\n@session a\nBEGIN;\nDELETE FROM t WHERE a = 10;\nSELECT * FROM t;\nINSERT INTO t VALUES (1,11);\nSELECT id FROM t WHERE a = 10;\nSELECT id FROM t WHERE a = 11;\n@session b\nSELECT * FROM t WHERE a < 20;\n@session a\nCOMMIT;\nDELETE FROM t WHERE id = 1;\nINSERT INTO t VALUES (1,12),(3,30);\nSELECT * FROM t WHERE a > 0;\n@session b\nSELECT * FROM t;\n",
            "@session setup\n1> OK\n2> OK 2\n@session a\n1> OK\n2> OK 1\n3> ROWS 1\n2\t20\n4> OK 1\n5> ROWS 0\n6> ROWS 1\n1\n7> OK\n8> OK 1\n9> OK 2\n10> ROWS 3\n1\t12\n2\t20\n3\t30\n@session b\n1> ROWS 1\n1\t10\n2> ROWS 3\n1\t12\n2\t20\n3\t30\n",
        ),
        ran(
            "play",
            "CREATE TABLE t (id BIGINT, a BIGINT, PRIMARY KEY (id), KEY ka (a));\nINSERT INTO t VALUES (1,10),(2,20),(3,30);\n@session a\nBEGIN;\nUPDATE t SET a = 15 WHERE id = 1;\nSAVEPOINT s;\nUPDATE t SET a = a + 100 WHERE a >= 15;\nDELETE FROM t WHERE a = 120;\nINSERT INTO t VALUES (4,20);\nSELECT id FROM t WHERE a = 20;\nSELECT id FROM t WHERE a > 100;\nROLLBACK TO s;\nSELECT id FROM t WHERE a = 20;\nSELECT id FROM t WHERE a > 100;\nSELECT * FROM t WHERE a < 100;\nROLLBACK;\nSELECT * FROM t WHERE a >= 10;\nSELECT id FROM t WHERE a = 15;\n",
            "@session setup\n1> OK\n2> OK 3\n@session a\n1> OK\n2> OK 1\n3> OK\n4> OK 3\n5> OK 1\n6> OK 1\n7> ROWS 1\n4\n8> ROWS 2\n1\n3\n9> OK\n10> ROWS 1\n2\n11> ROWS 0\n12> ROWS 3\n1\t15\n2\t20\n3\t30\n13> OK\n14> ROWS 3\n1\t10\n2\t20\n3\t30\n15> ROWS 0\n",
        ),
        ran(
            "play",
            "CREATE TABLE t (id BIGINT, a BIGINT, PRIMARY KEY (id), KEY ka (a));\nINSERT INTO t VALUES (3,30);\n@session a\nINSERT INTO t VALUES (1,10),(2,20),(3,31),(4,40);\nSELECT * FROM t;\nSELECT id FROM t WHERE a = 10;\nBEGIN;\nINSERT INTO t VALUES (5,50);\nINSERT INTO t VALUES (6,60),(5,51);\nSELECT id FROM t WHERE a > 30;\nINSERT INTO t VALUES (1,10),(6,60);\nCOMMIT;\nSELECT id FROM t WHERE a >= 10;\n",
            "@session setup\n1> OK\n2> OK 1\n@session a\n1> ERROR 1062 (23000)\n2> ROWS 1\n3\t30\n3> ROWS 0\n4> OK\n5> OK 1\n6> ERROR 1062 (23000)\n7> ROWS 1\n5\n8> OK 2\n9> OK\n10> ROWS 4\n1\n3\n5\n6\n",
        ),
        ran(
            "play",
            "CREATE TABLE t (id BIGINT, a BIGINT, PRIMARY KEY (id), KEY ka (a));\nINSERT INTO t VALUES (1,10),(2,20);\n@session a\nBEGIN;\nUPDATE t SET a = 40 WHERE id = 1;\nINSERT INTO t VALUES (3,30);\nDELETE FROM t WHERE id = 2;\n@session b\nSET SESSION TRANSACTION ISOLATION LEVEL READ UNCOMMITTED;\nSELECT * FROM t;\nSELECT id FROM t WHERE a = 10;\nSELECT id FROM t WHERE a > 25;\n@session c\nSELECT * FROM t;\n@session a\nROLLBACK;\n@session b\nSELECT id FROM t WHERE a > 25;\nSELECT * FROM t;\n",
            "@session setup\n1> OK\n2> OK 2\n@session a\n1> OK\n2> OK 1\n3> OK 1\n4> OK 1\n5> OK\n@session b\n1> OK\n2> ROWS 2\n1\t40\n3\t30\n3> ROWS 0\n4> ROWS 2\n1\n3\n5> ROWS 0\n6> ROWS 2\n1\t10\n2\t20\n@session c\n1> ROWS 2\n1\t10\n2\t20\n",
        ),
        ran(
            "play",
            "CREATE TABLE t (id BIGINT, a BIGINT, PRIMARY KEY (id), KEY ka (a));\nINSERT INTO t VALUES (1,10);\n@session a\nBEGIN;\nUPDATE t SET a = a + 1;\nINSERT INTO t VALUES (2,11);\n@session b\nUPDATE t SET a = a + 5 WHERE a = 10;\nSELECT * FROM t;\n",
            "@session setup\n1> OK\n2> OK 1\n@session a\n1> OK\n2> OK 1\n3> OK 1\n@session b\n1> OK 1\n2> ROWS 1\n1\t15\n",
        ),
        failed("@sesion a\n", 0, 0, Fault::ScriptBad { line: 1 }, 2),
        failed(
            "@session a\nBEGIN;\n@tick 1\n",
            0,
            0,
            Fault::ScriptBad { line: 3 },
            2,
        ),
        failed(ONE_SESSION, 1, 0, Fault::ScriptRead, 3),
        failed(ONE_SESSION, 0, 1, Fault::OutputWrite, 4),
    ];
    answer_as_told(&rt, rt.alloc(), &cases)
}

/// Plays each case over new files, and compares what it answers and prints with what is told.
fn answer_as_told<R: Threads + Wait + Timer + Sync + Abort>(
    rt: &R,
    alloc: Global,
    cases: &[Case],
) -> Result<(), Fail> {
    for case in cases {
        let (made, disk) = new_files(rt, alloc)?;
        assert_eq!(rt; made, Fault::Nothing);
        let (fault, status, sink, disk) = result_on(rt, alloc, disk, case)?;
        drop(disk);
        let script = case.script;
        assert_eq!(rt; fault, case.fault, "after {script}");
        assert_eq!(rt; status, case.status, "after {script}");
        assert_eq!(rt;
            sink.taken().as_slice(),
            case.printed.as_bytes(),
            "after {script}"
        );
    }
    Ok(())
}

const SETUP_ALONE: &str = "CREATE TABLE t (id BIGINT, PRIMARY KEY (id));\n";

const SESSION_WITHOUT_ITEMS: &str = "CREATE TABLE t (id BIGINT, PRIMARY KEY (id));\n@session a\n";

const SESSIONS_NAMED_AGAIN_OR_LAST: &str =
    "CREATE TABLE t (id BIGINT, PRIMARY KEY (id));\n@session a\n@session b\nINSERT INTO t VALUES (1);\n@session a\n@session c\n";

#[test]
fn sessions_may_have_no_items(rt: HostRuntime) -> Result<(), Fail> {
    let made = "@session setup\n1> OK\n";
    let put = "@session setup\n1> OK\n@session b\n1> OK 1\n";
    let cases = [
        ran("play", SETUP_ALONE, made),
        ran("run", SETUP_ALONE, made),
        ran("play", SESSION_WITHOUT_ITEMS, made),
        ran("run", SESSION_WITHOUT_ITEMS, made),
        ran("play", SESSIONS_NAMED_AGAIN_OR_LAST, put),
        ran("run", SESSIONS_NAMED_AGAIN_OR_LAST, put),
        ran("play", "@session a\n@session b\n", ""),
        ran("run", "@session a\n@session b\n", ""),
    ];
    answer_as_told(&rt, rt.alloc(), &cases)
}

#[test]
fn what_was_committed_outlives_the_run(rt: HostRuntime) -> Result<(), Fail> {
    let first = ran(
        "run",
        "CREATE TABLE t (id BIGINT, a BIGINT, PRIMARY KEY (id), KEY ka (a));\n@session a\nBEGIN;\nINSERT INTO t VALUES (1,10),(2,20);\nCOMMIT;\nBEGIN;\nINSERT INTO t VALUES (3,30);\n",
        "@session setup\n1> OK\n@session a\n1> OK\n2> OK 2\n3> OK\n4> OK\n5> OK 1\n",
    );
    let second = ran(
        "run",
        "@session a\nSELECT * FROM t;\nSELECT id FROM t WHERE a = 20;\n",
        "@session a\n1> ROWS 2\n1\t10\n2\t20\n2> ROWS 1\n2\n",
    );
    let (made, disk) = new_files(&rt, rt.alloc())?;
    assert_eq!(rt; made, Fault::Nothing);
    let (fault, status, sink, disk) = result_on(&rt, rt.alloc(), disk, &first)?;
    assert_eq!(rt; fault, Fault::Nothing);
    assert_eq!(rt; status, 0);
    assert_eq!(rt; sink.taken().as_slice(), first.printed.as_bytes());
    let (fault, status, sink, disk) = result_on(&rt, rt.alloc(), disk, &second)?;
    drop(disk);
    assert_eq!(rt; fault, Fault::Nothing);
    assert_eq!(rt; status, 0);
    assert_eq!(rt; sink.taken().as_slice(), second.printed.as_bytes());
    Ok(())
}
