//! By which index and range a statement searches its table.
//! `write_statement` asks, before the search of each part; a SELECT is planned in `read_statement`.

ghost use Rattle.std.specs.Prelude.{◌≡◌, ◌≤◌, true, IfOk, length, slice_get};
ghost use Rattle.std.specs.List.{list_all};
ghost use Rattle.inno_db.specs.Declarations.{is_indexable};
ghost use Rattle.inno_db.specs.declared.limits.TheConstants.{MOST_KEYS};
ghost use Rattle.sql_plan.specs.Visits.{are_indexable};
ghost use Rattle.sql_plan.specs.Planning.{plan_for, plan_by_keys, plan_by_tuples, HoldsMatches, HoldsKeys, Covers};

use crate::keys::{has_given_key, is_plain_key};
use crate::{Plan, choose};
use inno_db::is_short;
use inno_types::{Column, Filter, Names, Schema, Stmt, Tuples};
use std::alloc::Global;
use store_api::NoMemory;

/// The search for the rows that meet the condition of an UPDATE or DELETE, or that have keys as an INSERT's tuples give them;
/// else of all of the table.
pub fn plan_for(alloc: Global, schema: &Schema, stmt: &Stmt) -> Result<Plan, NoMemory>
    requires { length schema.now.keys ≤ MOST_KEYS }
    ensures chosen { IfOk result (λ plan. plan ≡ plan_for schema.now stmt.now) }
    ensures enough { IfOk result (HoldsMatches schema.now stmt.now) }
{
    match stmt {
        Stmt::Insert {
            columns,
            tuples,
            ..
        } => plan_by_tuples(alloc, schema, columns, tuples),
        Stmt::Update {
            filter: Some(filter),
            ..
        } => plan_by_keys(alloc, schema, filter),
        Stmt::Delete {
            filter: Some(filter),
            ..
        } => plan_by_keys(alloc, schema, filter),
        Stmt::Update { filter: None, .. }
        | Stmt::Delete { filter: None, .. }
        | Stmt::CreateTable { .. }
        | Stmt::Select { .. }
        | Stmt::Begin { .. }
        | Stmt::Commit
        | Stmt::Rollback
        | Stmt::RollbackTo { .. }
        | Stmt::Savepoint { .. }
        | Stmt::SetAutocommit(_)
        | Stmt::SetLevel { .. } => Ok(Plan::whole()),
    }
}

/// The search for the rows between the least and the greatest key that tuples give.
fn plan_by_tuples(
    alloc: Global,
    schema: &Schema,
    names: &Option<Names>,
    tuples: &Tuples,
) -> Result<Plan, NoMemory>
    requires { length schema.now.keys ≤ MOST_KEYS }
    ensures chosen { IfOk result (λ plan. plan ≡ plan_by_tuples schema.now names.now tuples.now (slice_get schema.now.columns schema.now.primary)) }
    ensures enough { IfOk result (HoldsKeys schema.now names.now tuples.now) }
{
    let place = usize::from(schema.primary);
    let Some(column) = schema.columns.as_slice().get(place) else {
        return Ok(Plan::whole());
    };
    if !is_plain_key(&schema.columns, place, column) {
        return Ok(Plan::whole());
    }
    let condition = has_given_key(alloc, names, tuples, place, column)?;
    let plan = plan_by_keys(alloc, schema, &condition);
    drop(condition);
    plan
}

/// The search that a condition bounds. Whatever was made by CREATE TABLE can be searched by its keys.
fn plan_by_keys(alloc: Global, schema: &Schema, filter: &Filter) -> Result<Plan, NoMemory>
    requires { length schema.now.keys ≤ MOST_KEYS }
    ensures chosen { IfOk result (λ plan. plan ≡ plan_by_keys schema.now filter.now) }
    ensures enough { IfOk result (Covers schema.now filter.now) }
{
    if are_indexable(schema) {
        choose(alloc, schema, filter)
    } else {
        Ok(Plan::whole())
    }
}

/// Whether the columns that lead indexes are there, and short.
fn are_indexable(schema: &Schema) -> bool
    ensures { result ≡ are_indexable schema.now }
{
    is_indexable(schema.columns.as_slice(), schema.primary) && are_keys_indexable(schema)
}

fn are_keys_indexable(schema: &Schema) -> bool
    ensures { result ≡ list_all (λ key. is_indexable (slice_get schema.now.columns key.column)) schema.now.keys }
{
    let columns = schema.columns.as_slice();
    schema
        .keys
        .as_slice()
        .iter()
        .all(|key| is_indexable(columns, key.column))
}

fn is_indexable(columns: &[Column], place: u8) -> bool
    ensures { result ≡ is_indexable (slice_get columns.now place) }
{
    match columns.get(usize::from(place)) {
        Some(column) => is_short(column.kind),
        None => false,
    }
}
