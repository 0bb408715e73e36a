//! The plain interpreter itself: one statement over one database, which it only reads.
//! Statements give it the rows that they found (`plain_on_rows`); tests ask by `plain`, and compare.

ghost use Rattle.std.specs.Prelude.{◌≡◌, None, Some, IfOk, ℕ, List, option_copied};
ghost use Rattle.inno_db.specs.Database.{Database};
ghost use Rattle.inno_db.specs.Refusals.{refusal};
ghost use Rattle.inno_db.specs.Outcome.{table_read, answered, counted, on_number, created, creation, select_answer, insert_answer, update_answer, delete_answer, answer_to, outcome};
ghost use Rattle.inno_types.specs.declared.value.Value.{Value};
ghost use Rattle.inno_types.specs.declared.value.Schema.{Schema};
ghost use Rattle.inno_db.specs.declared.outcome.Outcome.{Outcome};
ghost use Rattle.plain_sql.specs.Finding.{on_found, answer_on, IsTableOf, IsReadFrom, IsOnTable};

use crate::changes::{delete, insert, update};
use crate::selection::select;
use inno_db::{Change, Changes, Db, Outcome, Written};
use inno_types::{
    Bytes, Definitions, Filter, Listed, Names, Reply, Rows, Schema, Selected, Sets, Stmt, Tuples,
};
use sql_refusals::refuse;
use sql_values::{declare, place_of_table};
use std::alloc::{AllocError, Global};
use store_api::NoMemory;

fn answer(alloc: Global, reply: Reply) -> Outcome
    ensures { result ≡ answered reply }
{
    Outcome {
        reply,
        changes: Listed::new(alloc),
    }
}

/// The changes with their count, or with the refusal that ended them.
fn count(written: Written) -> Outcome
    ensures { result ≡ counted written }
{
    let Written { changes, refusal } = written;
    match refusal {
        Some(error) => Outcome {
            reply: Reply::Fail(error),
            changes,
        },
        None => Outcome {
            reply: Reply::Count(changes.len() as u64),
            changes,
        },
    }
}

fn create(
    alloc: Global,
    db: &Db,
    table: &Bytes,
    definitions: &Definitions,
) -> Result<Outcome, AllocError>
    ensures { IfOk result (λ answer. answer ≡ created db.now table.now definitions.now) }
{
    if place_of_table(db.schemas(), table).is_some() {
        return Ok(answer(alloc, Reply::Done));
    }
    make(alloc, declare(alloc, table, definitions)?)
}

fn make(alloc: Global, schema: Option<Schema>) -> Result<Outcome, AllocError>
    ensures { IfOk result (λ answer. answer ≡ creation schema) }
{
    match schema {
        Some(schema) => {
            let mut changes = Vec::new(alloc);
            changes.push(Change::Create { schema })?;
            Ok(Outcome {
                reply: Reply::Done,
                changes: Listed::from_vec(changes),
            })
        }
        None => Ok(answer(alloc, Reply::Done)),
    }
}

/// A table of a database.
#[derive(Clone, Copy)]
struct Found<'a> {
    number: u8,
    schema: &'a Schema,
    rows: &'a Rows,
}

/// The table whose rows a statement reads.
fn table_of(stmt: &Stmt) -> Option<&Bytes>
    ensures { IsTableOf stmt.now (option_copied result) }
{
    match stmt {
        Stmt::Select { table, .. }
        | Stmt::Insert { table, .. }
        | Stmt::Update { table, .. }
        | Stmt::Delete { table, .. } => Some(table),
        Stmt::CreateTable { .. }
        | Stmt::Begin { .. }
        | Stmt::Commit
        | Stmt::Rollback
        | Stmt::RollbackTo { .. }
        | Stmt::Savepoint { .. }
        | Stmt::SetAutocommit(_)
        | Stmt::SetLevel { .. } => None,
    }
}

/// The table that a statement reads, in a database.
fn find<'a>(db: &'a Db, stmt: &Stmt) -> Option<Found<'a>>
    ensures { (answer : ℕ → Schema → List (List Value) → Outcome) → on_found result answer ≡ on_number db.now (table_read db.now.schemas stmt.now) answer }
{
    let schemas = db.schemas();
    let place = place_of_table(schemas, table_of(stmt)?)?;
    let schema = schemas.as_slice().get(place)?;
    Some(Found {
        number: place as u8,
        schema,
        rows: db.rows(place),
    })
}

fn select_rows(
    alloc: Global,
    found: Option<Found<'_>>,
    selected: &Selected,
    filter: &Option<Filter>,
) -> Result<Outcome, AllocError>
    ensures { IfOk result (λ answer. answer ≡ on_found found.entry (select_answer selected.now filter.now)) }
{
    match found {
        Some(found) => {
            let rows = select(alloc, &found.schema.columns, selected, filter, found.rows)?;
            Ok(answer(alloc, Reply::Rows(rows)))
        }
        None => Ok(answer(alloc, Reply::Done)),
    }
}

fn insert_rows(
    alloc: Global,
    found: Option<Found<'_>>,
    names: &Option<Names>,
    tuples: &Tuples,
) -> Result<Outcome, AllocError>
    ensures { IfOk result (λ answer. answer ≡ on_found found.entry (insert_answer names.now tuples.now)) }
{
    match found {
        Some(found) => Ok(count(insert(
            alloc,
            found.number,
            found.schema,
            names,
            found.rows,
            tuples,
        )?)),
        None => Ok(answer(alloc, Reply::Done)),
    }
}

fn update_rows(
    alloc: Global,
    found: Option<Found<'_>>,
    sets: &Sets,
    filter: &Option<Filter>,
) -> Result<Outcome, AllocError>
    ensures { IfOk result (λ answer. answer ≡ on_found found.entry (update_answer sets.now filter.now)) }
{
    match found {
        Some(found) => Ok(count(update(
            alloc,
            found.number,
            found.schema,
            sets,
            filter,
            found.rows,
        )?)),
        None => Ok(answer(alloc, Reply::Done)),
    }
}

fn delete_rows(
    alloc: Global,
    found: Option<Found<'_>>,
    filter: &Option<Filter>,
) -> Result<Outcome, AllocError>
    ensures { IfOk result (λ answer. answer ≡ on_found found.entry (delete_answer filter.now)) }
{
    match found {
        Some(found) => {
            let changes = delete(alloc, found.number, found.schema, filter, found.rows)?;
            Ok(count(Written {
                changes,
                refusal: None,
            }))
        }
        None => Ok(answer(alloc, Reply::Done)),
    }
}

/// What a statement does with the rows of its table.
fn run_on(alloc: Global, found: Option<Found<'_>>, stmt: &Stmt) -> Result<Outcome, AllocError>
    ensures { IfOk result (λ answer. answer ≡ answer_on found.entry stmt.now) }
{
    match stmt {
        Stmt::Select {
            selected,
            filter,
            ..
        } => select_rows(alloc, found, selected, filter),
        Stmt::Insert {
            columns,
            tuples,
            ..
        } => insert_rows(alloc, found, columns, tuples),
        Stmt::Update { sets, filter, .. } => update_rows(alloc, found, sets, filter),
        Stmt::Delete { filter, .. } => delete_rows(alloc, found, filter),
        Stmt::CreateTable { .. }
        | Stmt::Begin { .. }
        | Stmt::Commit
        | Stmt::Rollback
        | Stmt::RollbackTo { .. }
        | Stmt::Savepoint { .. }
        | Stmt::SetAutocommit(_)
        | Stmt::SetLevel { .. } => Ok(answer(alloc, Reply::Done)),
    }
}

fn run(alloc: Global, db: &Db, stmt: &Stmt) -> Result<Outcome, AllocError>
    ensures { IfOk result (λ answer. answer ≡ answer_to stmt.now db.now) }
{
    if let Stmt::CreateTable {
        table,
        definitions,
        ..
    } = stmt
    {
        return create(alloc, db, table, definitions);
    }
    run_on(alloc, find(db, stmt), stmt)
}

/// What a statement does with the rows of its table that is known not to be refused. The tables of its database are these, and
/// its own, of this number, has these rows: nothing is looked up or tested again, and no more of a database is read.
pub fn plain_on_rows(
    alloc: Global,
    schemas: &Listed<Schema>,
    table: u8,
    rows: &Rows,
    stmt: &Stmt,
) -> Result<Outcome, NoMemory>
    requires unrefused { refusal schemas.now stmt.now ≡ None }
    requires table_is { table_read schemas.now stmt.now ≡ Some table }
    ensures { IfOk result (λ answer. (db : Database) → IsReadFrom schemas.now rows.now stmt.now db → answer ≡ outcome stmt.now db) }
{
    match schemas.as_slice().get(usize::from(table)) {
        Some(schema) => plain_on_table(alloc, table, schema, rows, stmt),
        None => Err(NoMemory),
    }
}

/// The same on a table of this number and schema.
fn plain_on_table(
    alloc: Global,
    table: u8,
    schema: &Schema,
    rows: &Rows,
    stmt: &Stmt,
) -> Result<Outcome, NoMemory>
    ensures { IfOk result (λ answer. (db : Database) → IsOnTable table schema.now rows.now stmt.now db → answer ≡ outcome stmt.now db) }
{
    let found = Found {
        number: table,
        schema,
        rows,
    };
    Ok(run_on(alloc, Some(found), stmt)?)
}

/// What a statement answers over a database, and what it changes there. The database stays as it is.
/// Statements on transactions and settings answer Done and change nothing.
pub fn plain(alloc: Global, db: &Db, stmt: &Stmt) -> Result<(Reply, Changes), NoMemory>
    ensures reply { IfOk result (λ answer. answer.0 ≡ (outcome stmt.now db.now).reply) }
    ensures changes { IfOk result (λ answer. answer.1 ≡ (outcome stmt.now db.now).changes) }
{
    if let Some(error) = refuse(alloc, db.schemas(), stmt)? {
        return Ok((Reply::Fail(error), Listed::new(alloc)));
    }
    let Outcome { reply, changes } = run(alloc, db, stmt)?;
    Ok((reply, changes))
}
