//! Statements one after another on one database, each a transaction of its own, and the texts of their answers.
//! A case is a statement and its answer, with an arrow between them; a semicolon at a line's end ends it.

use inno_db::{Change, Changes, Db};
use inno_model::{Event, History};
use inno_types::{Bytes, Item, Listed, Reply, SqlError, Stmt};
use plain_sql::plain;
use script::transcript;
use sql_prefix::{ParseBad, parse};
use std::alloc::Global;
use std::test::Fail;
use store_api::NoMemory;

/// Conditions pick rows.
const CONDITIONS: &str = "CREATE TABLE t (id BIGINT PRIMARY KEY, a BIGINT, v VARBINARY(3)) => OK;
INSERT INTO t VALUES (3,NULL,'c'), (1,10,'a'), (2,20,NULL) => OK 3;
SELECT * FROM t => ROWS 3\n1\t10\ta\n2\t20\tNULL\n3\tNULL\tc;
SELECT id FROM t WHERE a BETWEEN 10 AND 20 => ROWS 2\n1\n2;
SELECT id FROM t WHERE a NOT BETWEEN 15 AND 20 => ROWS 1\n1;
SELECT id FROM t WHERE a IN (20, NULL) => ROWS 1\n2;
SELECT id FROM t WHERE a NOT IN (20, NULL) => ROWS 0;
SELECT id FROM t WHERE NOT a = 10 => ROWS 1\n2;
SELECT id FROM t WHERE a = NULL OR a IS NULL => ROWS 1\n3;
SELECT id FROM t WHERE NOT a = 10 OR id = 3 AND a > 0 => ROWS 1\n2;
SELECT v, id FROM t WHERE v >= 'b' OR id < 2 => ROWS 2\na\t1\nc\t3";

/// Updates go from left to right.
const UPDATES: &str = "CREATE TABLE t (id BIGINT, a BIGINT, b BIGINT, PRIMARY KEY (id)) => OK;
INSERT INTO t VALUES (1,1,1),(2,6,0),(3,7,0) => OK 3;
UPDATE t SET a = a + 10 WHERE a > 5 => OK 2;
UPDATE t SET a = 2, b = a * 3 WHERE id = 1 => OK 1;
UPDATE t SET a = 16 WHERE id = 2 => OK 0;
INSERT INTO t VALUES (4,9223372036854775807,0) => OK 1;
UPDATE t SET a = a + 10 WHERE a > 5 => ERROR 1690 (22003);
DELETE FROM t WHERE id = 4 => OK 1;
SELECT * FROM t => ROWS 3\n1\t2\t6\n2\t16\t0\n3\t17\t0";

/// Refusals come in their order.
const REFUSALS: &str = "CREATE TABLE t (id BIGINT, a BIGINT, PRIMARY KEY (id), KEY ka (a)) => OK;
CREATE TABLE v (k VARBINARY(2), PRIMARY KEY (k)) => OK;
CREATE TABLE t (id BIGINT PRIMARY KEY) => ERROR 1050 (42S01);
CREATE TABLE IF NOT EXISTS t (id BIGINT PRIMARY KEY) => OK;
SELECT * FROM nope => ERROR 1146 (42S02);
SELECT z FROM t => ERROR 1054 (42S22);
INSERT INTO t VALUES (1) => ERROR 1136 (21S01);
INSERT INTO t VALUES (NULL,1) => ERROR 1048 (23000);
INSERT INTO t VALUES (9223372036854775808,1) => ERROR 1264 (22003);
INSERT INTO t (a) VALUES (1) => ERROR 1364 (HY000);
INSERT INTO t (id,id) VALUES (1,1) => ERROR 1110 (42000);
INSERT INTO v VALUES ('abc') => ERROR 1406 (22001);
SELEC => ERROR 1064 (42000);
INSERT INTO t VALUES (5,1),(5,2) => ERROR 1062 (23000);
SELECT * FROM t => ROWS 0;
SELECT * FROM t WHERE a = 'x' => ERROR 1064 (42000);
UPDATE t SET id = 2 => ERROR 1064 (42000)";

fn make(alloc: Global, db: &mut Db, change: Change) -> Result<(), NoMemory> {
    if !db.can_apply(&change) {
        return Err(NoMemory);
    }
    db.apply(alloc, change)?;
    Ok(())
}

/// The answer to a statement, whose changes stand unless it is refused.
fn run(alloc: Global, db: &mut Db, stmt: &Stmt) -> Result<Reply, NoMemory> {
    let (reply, changes) = plain(alloc, db, stmt)?;
    if !matches!(&reply, Reply::Fail(_)) {
        make_all(alloc, db, changes)?;
    }
    Ok(reply)
}

fn make_all(alloc: Global, db: &mut Db, changes: Changes) -> Result<(), NoMemory> {
    for change in changes.into_vec() {
        make(alloc, db, change)?;
    }
    Ok(())
}

pub fn answer(alloc: Global, db: &mut Db, text: &str) -> Result<Reply, NoMemory> {
    match parse(alloc, text.as_bytes()) {
        Ok(stmt) => {
            let reply = run(alloc, db, &stmt);
            drop(stmt);
            reply
        }
        Err(ParseBad::Syntax { at }) => Ok(Reply::Fail(SqlError::Syntax { at })),
        Err(ParseBad::NoMemory) => Err(NoMemory),
    }
}

/// An item of the only session and its answer.
fn add(alloc: Global, history: &mut History, reply: Reply) -> Result<(), NoMemory> {
    history.add_name(Listed::from_vec(Vec::from_slice(alloc, b"a")?))?;
    history.reserve(2)?;
    let item = Item::Sql(Listed::new(alloc));
    history.add(Event::Started { s: 0, j: 1, item });
    history.add(Event::Ended { s: 0, j: 1, reply });
    Ok(())
}

/// What a script's session prints of a reply.
fn printed(alloc: Global, reply: Reply) -> Result<Bytes, NoMemory> {
    let mut history = History::new(alloc);
    let added = add(alloc, &mut history, reply);
    let text = transcript(alloc, &history);
    drop(history);
    added?;
    text
}

/// Whether the statement before the arrow is answered by the text behind it.
fn is_answered(alloc: Global, db: &mut Db, case: &str) -> Result<bool, NoMemory> {
    let Some((text, expected)) = case.split_once(" => ") else {
        return Ok(false);
    };
    let reply = answer(alloc, db, text)?;
    let printed = printed(alloc, reply)?;
    Ok(match printed.as_slice().strip_prefix(b"@session a\n1> ") {
        Some([told @ .., b'\n']) => told == expected.as_bytes(),
        _ => false,
    })
}

/// The first statement that is answered otherwise.
fn first_other<'a>(
    alloc: Global,
    db: &mut Db,
    cases: &'a str,
) -> Result<Option<&'a str>, NoMemory> {
    for case in cases.split(";\n") {
        if !is_answered(alloc, db, case)? {
            return Ok(Some(case));
        }
    }
    Ok(None)
}

#[test]
fn statements_are_answered(rt: HostRuntime) -> Result<(), Fail> {
    for cases in [CONDITIONS, UPDATES, REFUSALS] {
        let mut db = Db::new(Listed::new(rt.alloc()), Listed::new(rt.alloc()));
        let other = first_other(rt.alloc(), &mut db, cases);
        drop(db);
        assert_eq!(rt; other?, None);
    }
    Ok(())
}
