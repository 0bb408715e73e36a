//! Texts that spell no statement, each with the end of its longest prefix that begins one: a bar stands there. Then a text that is
//! cut off at each of its bytes, and one with brackets as deep as a text has room for.

use sql_prefix::{ParseBad, parse};
use std::alloc::{AllocError, Global};
use std::test::Fail;

/// What comes of the bytes.
#[derive(Clone, Copy, Debug, PartialEq)]
enum Judged {
    Statement,
    Refused(u32),
    NoMemory,
}

fn judge(alloc: Global, bytes: &[u8]) -> Judged {
    match parse(alloc, bytes) {
        Ok(stmt) => {
            drop(stmt);
            Judged::Statement
        }
        Err(ParseBad::Syntax { at }) => Judged::Refused(at),
        Err(ParseBad::NoMemory) => Judged::NoMemory,
    }
}

/// No reserved word is a bare name.
const RESERVED: &str = "SAVEPOINT AND|
SAVEPOINT BETWEEN|
SAVEPOINT BIGINT|
SAVEPOINT CREATE|
SAVEPOINT DELETE|
SAVEPOINT EXISTS|
SAVEPOINT FOR|
SAVEPOINT FROM|
SAVEPOINT IF|
SAVEPOINT IN|
SAVEPOINT INDEX|
SAVEPOINT INSERT|
SAVEPOINT INTO|
SAVEPOINT IS|
SAVEPOINT KEY|
SAVEPOINT lock|
SAVEPOINT not|
SAVEPOINT null|
SAVEPOINT or|
SAVEPOINT primary|
SAVEPOINT select|
SAVEPOINT set|
SAVEPOINT table|
SAVEPOINT to|
SAVEPOINT update|
SAVEPOINT values|
SAVEPOINT varbinary|
SAVEPOINT where|
SAVEPOINT with|
SELECT a, key| FROM t
SELECT * FROM table|
INSERT INTO values| VALUES (1)
INSERT INTO t (a, index|) VALUES (1, 2)
UPDATE set| SET a = 1
UPDATE t SET to| = 1
UPDATE t SET a = in|
DELETE FROM where|
CREATE TABLE t (lock| BIGINT)
SELECT * FROM t WHERE a = exists|
ROLLBACK TO with|";

/// Statements that end too soon, or go on otherwise.
const TOO_SOON: &str = "|
 -- x|
SELEC|
SELECT * FROM t WHERE|
SELECT * FROM t WHERE a|
SELECT * FROM t WHERE NOT|
SELECT * FROM t WHERE a BETWEEN 1 AND|
SELECT * FROM t WHERE (a = 1|
SELECT * FROM t FOR|
SELECT * FROM t LOCK IN SHARE|
UPDATE t SET a = -- x|
UPDATE t SET a = -|
SET autocommit =|
INSERT INTO t VALUES (1|
SELECT *|, a FROM t
SELECT * FROM t |AS u
SELECT * FROM t WHERE a = 1 |2
SELECT * FROM t WHERE a = 1 |= 2
SELECT * FROM t WHERE a |+ 1 = 2
SELECT * FROM t WHERE a = -|b
SELECT * FROM t WHERE a = --|5
SELECT * FROM t WHERE a IN (|)
SELECT * FROM t WHERE a BETWEEN |b AND 2
SELECT * FROM t WHERE 1 |BETWEEN 1 AND 2
SELECT * FROM t WHERE a NOT |NULL
SELECT * FROM t WHERE a = 1|)
INSERT INTO t (|) VALUES (1)
INSERT INTO t VALUES (--|5)
INSERT INTO t VALUES (|DEFAULT)
INSERT INTO t VALUES (1 |+ 2)
INSERT INTO t VALUES (|a)
UPDATE t SET a |+ 1
CREATE TABLE t (|)
SET autocommit = |2
SET SESSION |autocommit = 0
BEGIN |TRANSACTION
COMMIT|;
SAVEPOINT a |b
INSERT INTO t VALUES ('a)|
SELECT * FROM `t|
SELECT * FROM t /* x|
SELECT ``| FROM t";

/// Names, literals and comments that are none.
const OTHERS: &str = "SELECT * F|ORM t
SELECT a |b FROM t
SELECT * FROM ``|
SELECT * FROM ``| 
SELECT * FROM t WHERE (a|) = 1
SELECT * FROM t WHERE a = 'x|
INSERT INTO t VALUES (1 |2)
SET autocommit = 0|0
DELETE FROM t --|x
DELETE FROM t /| * x */
SELECT * FROM t |%
COMMIT|; ";

/// Whether the text without its bar is refused where that stands.
fn is_refused(alloc: Global, case: &str) -> Result<bool, AllocError> {
    let Some((front, rest)) = case.split_once("|") else {
        return Ok(false);
    };
    let mut text = Vec::from_slice(alloc, front.as_bytes())?;
    text.extend_from_slice(rest.as_bytes())?;
    let found = judge(alloc, &text);
    Ok(u32::try_from(front.len()).is_ok_and(|at| found == Judged::Refused(at)))
}

#[test]
fn each_text_is_refused_at_its_byte(rt: HostRuntime) -> Result<(), Fail> {
    for cases in [RESERVED, TOO_SOON, OTHERS] {
        for case in cases.split("\n") {
            assert!(rt; is_refused(rt.alloc(), case)?, "{case}");
        }
    }
    Ok(())
}

const CUT: &str =
    "CREATE TABLE IF NOT EXISTS `acct` (`id` bigint NOT NULL, `bal` bigint, PRIMARY KEY (`id`)) ENGINE=InnoDB";

/// The first length at which the text that is cut off there is refused before its end.
fn refused_early(alloc: Global) -> Option<u32> {
    for (len, _) in (0..).zip(CUT.as_bytes()) {
        let found = judge(alloc, CUT.as_bytes().get(..len as usize)?);
        if found != Judged::Statement && found != Judged::Refused(len) {
            return Some(len);
        }
    }
    None
}

/// What comes of 2,034 brackets round a condition.
fn brackets(alloc: Global) -> Result<(usize, Judged), AllocError> {
    let mut text = Vec::from_slice(alloc, b"SELECT * FROM t WHERE ")?;
    text.extend_from_slice(&[b'('; 2034])?;
    text.extend_from_slice(b"a = 12")?;
    text.extend_from_slice(&[b')'; 2034])?;
    Ok((text.len(), judge(alloc, &text)))
}

#[test]
fn fronts_go_to_their_end_and_brackets_nest(rt: HostRuntime) -> Result<(), Fail> {
    assert_eq!(rt; refused_early(rt.alloc()), None);
    assert_eq!(rt; brackets(rt.alloc())?, (4096, Judged::Statement));
    Ok(())
}
