//! Sessions that open on two tables and 300 rows are answered as if those rows had been committed before.
//! There is neither a disk nor a log here.

ghost use Rattle.inno_db.specs.Database.{Database};
ghost use Rattle.session_engine.specs.Calls.{AreFirst};

use crate::database::{laid_down, refuses_a_row_that_is_there};
use crate::sessions::{Answer, asked};
use engine::sessions_over;
use inno_types::Bytes;
use session_engine::SessionEngine;
use shared_lists::SharedLists;
use std::alloc::Global;
use std::test::Fail;
use store_api::NoMemory;

/// What the only session asks, and what it is answered: it reads by a view, takes its changes back, and commits one in the end.
const ASKED: [(&str, Answer); 19] = [
    (
        "SELECT * FROM t",
        Answer::Rows {
            count: 200,
            sum: 900,
        },
    ),
    (
        "SELECT * FROM t WHERE a = 3",
        Answer::Rows { count: 20, sum: 60 },
    ),
    (
        "SELECT * FROM u",
        Answer::Rows {
            count: 100,
            sum: 700,
        },
    ),
    ("BEGIN", Answer::Done),
    (
        "SELECT * FROM t WHERE i = 5",
        Answer::Rows { count: 1, sum: 5 },
    ),
    ("UPDATE t SET a = 100 WHERE a = 3", Answer::Count(20)),
    (
        "SELECT * FROM t WHERE a = 100",
        Answer::Rows {
            count: 20,
            sum: 2000,
        },
    ),
    ("INSERT INTO t VALUES (5, 1)", Answer::Refused(1062)),
    (
        "INSERT INTO t VALUES (-1000, 1), (1000, 2), (5, 3)",
        Answer::Refused(1062),
    ),
    ("DELETE FROM u WHERE i < 10", Answer::Count(10)),
    ("ROLLBACK", Answer::Done),
    (
        "SELECT * FROM t",
        Answer::Rows {
            count: 200,
            sum: 900,
        },
    ),
    ("UPDATE u SET a = 8 WHERE i = 7", Answer::Count(1)),
    (
        "SELECT * FROM u",
        Answer::Rows {
            count: 100,
            sum: 701,
        },
    ),
    (
        "INSERT INTO t VALUES (1005, 1), (1001, 2), (1005, 3)",
        Answer::Refused(1062),
    ),
    (
        "SELECT * FROM t",
        Answer::Rows {
            count: 200,
            sum: 900,
        },
    ),
    (
        "INSERT INTO t VALUES (9000000000000, 1), (-9000000000000, 2), (1001, 4)",
        Answer::Count(3),
    ),
    (
        "SELECT * FROM t WHERE i < 0 OR i > 1000",
        Answer::Rows { count: 3, sum: 7 },
    ),
    (
        "INSERT INTO t VALUES (2000, 1), (2001)",
        Answer::Refused(1136),
    ),
];

/// The first statement that is answered otherwise, if there is one.
#[tactic(auto, using(crate::proofs::Alone::alone_joined))]
fn first_otherwise<L: SharedLists>(
    alloc: Global,
    engine: SessionEngine<L>,
) -> Result<Option<(&'static str, Answer)>, NoMemory>
    requires { (db : Database) × AreFirst db engine.lists }
{
    let mut engine = engine;
    let _ = engine.join(&Bytes::new(alloc))?;
    for (text, answer) in ASKED {
        let answered = asked(alloc, &mut engine, text)?;
        if answered != answer {
            return Ok(Some((text, answered)));
        }
    }
    Ok(None)
}

/// The same of sessions that were opened on the database.
fn otherwise_when_opened(alloc: Global) -> Result<Option<(&'static str, Answer)>, NoMemory> {
    match sessions_over(alloc, laid_down(alloc)?) {
        Ok(engine) => first_otherwise(alloc, engine),
        Err(_) => Err(NoMemory),
    }
}

#[test]
fn sessions_are_answered_on_the_rows_that_they_were_opened_with(
    rt: HostRuntime,
) -> Result<(), Fail> {
    assert_eq!(rt; otherwise_when_opened(rt.alloc())?, None);
    Ok(())
}

#[test]
fn a_row_that_is_there_is_refused(rt: HostRuntime) -> Result<(), Fail> {
    assert_eq!(rt; refuses_a_row_that_is_there(rt.alloc())?, true);
    Ok(())
}
