//! Conditions with their plans, by the rules of docs/SQL.md.
//! Keys are written out: a number's with its sign turned, a text's filled up with zeros and its length behind it.

use crate::answers::answer;
use inno_db::{Db, MOST_KEYS};
use inno_types::{Bound, Listed, Reply, Schema, Stmt};
use sql_plan::{Plan, choose};
use sql_prefix::parse;
use std::alloc::Global;
use std::test::Fail;
use store_api::NoMemory;

/// The columns id (the primary key), a, b and c, with two keys on a and one on b.
const TABLE: &str =
    "CREATE TABLE t (id BIGINT PRIMARY KEY, a BIGINT, b VARBINARY(3), c BIGINT, KEY j (a), KEY k (a), KEY l (b))";

/// A bound that is wanted.
#[derive(Clone, Copy)]
enum Want<'a> {
    Open,
    With(&'a [u8]),
    Without(&'a [u8]),
}

const FIVE: Want<'static> = Want::With(&[0x80, 0, 0, 0, 0, 0, 0, 5]);

const PAST_FIVE: Want<'static> = Want::Without(&[0x80, 0, 0, 0, 0, 0, 0, 5]);

const PAST_NULL: Want<'static> = Want::Without(&[0; 9]);

const ENTRY: Want<'static> = Want::With(&[1, 0x80, 0, 0, 0, 0, 0, 0, 5]);

const PAST_ENTRY: Want<'static> = Want::Without(&[1, 0x80, 0, 0, 0, 0, 0, 0, 5]);

const PAST_ABC: Want<'static> = Want::Without(b"\x01abc\xff");

/// Conditions, the index that each searches, with both bounds, and whether it finds one row at most.
const PLANS: [(&str, u8, Want<'static>, Want<'static>, bool); 7] = [
    ("SELECT * FROM t WHERE ID = 5", 0, FIVE, FIVE, true),
    (
        "SELECT * FROM t WHERE id < 5",
        0,
        Want::Open,
        PAST_FIVE,
        false,
    ),
    ("SELECT * FROM t WHERE a <= 5", 1, PAST_NULL, ENTRY, false),
    (
        "SELECT * FROM t WHERE a > 5",
        1,
        PAST_ENTRY,
        Want::Open,
        false,
    ),
    (
        "SELECT * FROM t WHERE c < 5",
        0,
        Want::Open,
        Want::Open,
        false,
    ),
    (
        "SELECT * FROM t WHERE a = NULL AND 5 < id",
        0,
        PAST_FIVE,
        Want::Open,
        false,
    ),
    (
        "SELECT * FROM t WHERE b > 'abcd'",
        3,
        PAST_ABC,
        Want::Open,
        false,
    ),
];

fn is_bound(bound: &Bound, want: Want<'_>) -> bool {
    match (bound, want) {
        (Bound::Open, Want::Open) => true,
        (Bound::With(key), Want::With(other)) | (Bound::Without(key), Want::Without(other)) => {
            key.as_slice() == other
        }
        _ => false,
    }
}

/// The plan of a statement's condition.
fn plan_of(alloc: Global, schemas: &[Schema], stmt: &Stmt) -> Result<Plan, NoMemory> {
    match (schemas, stmt) {
        (
            [schema],
            Stmt::Select {
                filter: Some(filter),
                ..
            },
        ) if schema.keys.len() <= MOST_KEYS => { choose(alloc, schema, filter) }
        _ => Err(NoMemory),
    }
}

fn plan(alloc: Global, schemas: &[Schema], text: &str) -> Result<Plan, NoMemory> {
    match parse(alloc, text.as_bytes()) {
        Ok(stmt) => {
            let plan = plan_of(alloc, schemas, &stmt);
            drop(stmt);
            plan
        }
        Err(_) => Err(NoMemory),
    }
}

/// The first condition that has another plan.
fn first_other(alloc: Global, schemas: &[Schema]) -> Result<Option<&'static str>, NoMemory> {
    for (text, which, low, high, unique) in PLANS {
        let plan = plan(alloc, schemas, text)?;
        let is_plan = plan.which == which
            && is_bound(&plan.range.low, low)
            && is_bound(&plan.range.high, high)
            && (plan.unique, plan.range.empty) == (unique, false);
        drop(plan);
        if !is_plan {
            return Ok(Some(text));
        }
    }
    Ok(None)
}

#[test]
fn conditions_have_their_plans(rt: HostRuntime) -> Result<(), Fail> {
    let mut db = Db::new(Listed::new(rt.alloc()), Listed::new(rt.alloc()));
    let made = answer(rt.alloc(), &mut db, TABLE).is_ok_and(|reply| matches!(reply, Reply::Done));
    let other = first_other(rt.alloc(), db.schemas().as_slice());
    drop(db);
    assert!(rt; made);
    assert_eq!(rt; other?, None);
    Ok(())
}
