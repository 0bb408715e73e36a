//! Where a SELECT searches: its table, and the plan that its condition bounds.
//! `opening` and `dirty` ask, once for each SELECT; tables and text are read here, and no row.

ghost use Rattle.std.specs.Prelude.{◌≡◌, ◌≤◌, ℕ, IfOk, IfSome, Some, length, slice_get, true};
ghost use Rattle.std.specs.List.{list_all};
ghost use Rattle.inno_db.specs.declared.limits.TheConstants.{MOST_KEYS, MOST_TABLES};
ghost use Rattle.inno_db.specs.Declarations.{is_indexable};
ghost use Rattle.inno_db.specs.Outcome.{table_read};
ghost use Rattle.sql_history.specs.Readings.{is_plain_select};
ghost use Rattle.law_stored_rows.specs.Storable.{AreStorable};
ghost use Rattle.sql_plan.specs.Visits.{are_indexable};
ghost use Rattle.law_past_agreement.specs.Order.{created};
ghost use Rattle.read_statement.specs.Planning.{IsChosen, IsPlanned};

use inno_db::is_short;
use inno_types::{Columns, Keys, Listed, Schema, Stmt};
use shared_lists::SharedLists;
use sql_lists::SqlLists;
use sql_plan::{Plan, choose};
use sql_values::place_of_table;
use std::alloc::Global;
use store_api::NoMemory;

/// A table, by number, and the plan of a search there.
#[derive(Drop)]
pub struct Planned {
    pub table: u8,
    pub plan: Plan,
}

/// The search of a SELECT: of the table that it names, and in no other index than the one that `choose` gives.
pub fn plan_search<L: SharedLists>(
    alloc: Global,
    stmt: &Stmt,
    lists: &SqlLists<L>,
) -> Result<Planned, NoMemory>
    requires plain { is_plain_select stmt.now ≡ true }
    ensures { IfOk result (λ planned. IsPlanned (created lists.now.past) stmt.now planned.table planned.plan) }
{
    plan_among(alloc, lists.schemas(), stmt)
}

/// The search of a SELECT among these tables. Its table is there, or else the statement was refused before; and so are its
/// indexed columns, which are short.
fn plan_among(alloc: Global, schemas: &Listed<Schema>, stmt: &Stmt) -> Result<Planned, NoMemory>
    requires few { length schemas.now ≤ MOST_TABLES }
    requires storable { AreStorable schemas.now }
    requires plain { is_plain_select stmt.now ≡ true }
    ensures { IfOk result (λ planned. IsPlanned schemas.now stmt.now planned.table planned.plan) }
{
    let Some(table) = table_of(schemas, stmt) else {
        return Err(NoMemory);
    };
    let Some(schema) = schema_at(schemas, table) else {
        return Err(NoMemory);
    };
    if !is_indexed_short(schema) {
        return Err(NoMemory);
    }
    let plan = plan_on(alloc, schema, stmt)?;
    Ok(Planned { table, plan })
}

fn schema_at(schemas: &Listed<Schema>, table: u8) -> Option<&Schema>
    ensures { IfSome result (λ schema. slice_get schemas.now table ≡ Some schema.now) }
{
    schemas.as_slice().get(usize::from(table))
}

/// The plan that `choose` gives for the SELECT's condition; without one, all of the clustered index.
fn plan_on(alloc: Global, schema: &Schema, stmt: &Stmt) -> Result<Plan, NoMemory>
    requires few { length schema.now.keys ≤ MOST_KEYS }
    ensures chosen { IfOk result (IsChosen schema.now stmt.now) }
    ensures which { IfOk result (λ plan. plan.which ≤ length schema.now.keys) }
{
    if let Stmt::Select {
        filter: Some(condition),
        ..
    } = stmt
    {
        choose(alloc, schema, condition)
    } else {
        Ok(Plan::whole())
    }
}

/// The table that a SELECT names.
fn table_of(schemas: &Listed<Schema>, stmt: &Stmt) -> Option<u8>
    requires few { length schemas.now ≤ MOST_TABLES }
    requires plain { is_plain_select stmt.now ≡ true }
    ensures { result ≡ table_read schemas.now stmt.now }
{
    let Stmt::Select { table, .. } = stmt else {
        return None;
    };
    match place_of_table(schemas, table) {
        Some(place) => Some(place as u8),
        None => None,
    }
}

/// Whether the columns of all indexes are there, and short. CREATE TABLE makes no others.
fn is_indexed_short(schema: &Schema) -> bool
    ensures { result ≡ are_indexable schema.now }
{
    is_short_at(&schema.columns, schema.primary) && are_keys_short(&schema.columns, &schema.keys)
}

fn are_keys_short(columns: &Columns, keys: &Keys) -> bool
    ensures { result ≡ list_all (λ key. is_indexable (slice_get columns.now key.column)) keys.now }
{
    keys.as_slice()
        .iter()
        .all(|key| is_short_at(columns, key.column))
}

fn is_short_at(columns: &Columns, place: u8) -> bool
    ensures { result ≡ is_indexable (slice_get columns.now place) }
{
    match columns.as_slice().get(usize::from(place)) {
        Some(column) => is_short(column.kind),
        None => false,
    }
}
