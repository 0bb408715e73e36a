//! The changes that INSERT, UPDATE and DELETE make, row by row. A refusal ends them, and what was made before it stays.
//! The interpreter alone calls these. They hand changes back, and make none in the database.

ghost use Rattle.std.specs.Prelude.{◌≡◌, ◌++◌, ◌∷◌, [], ℕ, option_to_list, IfOk, IfSome, IfNone, OnOk, List, Option, Some, None, Result, Ok, Err, map};
ghost use Rattle.inno_types.specs.declared.value.Value.{Value};
ghost use Rattle.inno_db.specs.Database.{key_of};
ghost use Rattle.inno_db.specs.Seen.{seen};
ghost use Rattle.inno_db.specs.Outcome.{is_same_value, is_same_row, has_key, new_row, row_for, inserted, change_to, row_update, updated, deleted, matching, nothing};

use inno_db::{Change, Changes, Datum, Written, at_place, of_value, order, to_value};
use inno_types::{
    Filter, Listed, Literals, Names, Row, Rows, Schema, Sets, SqlError, Tuples, Value,
};
use sql_values::{assign_all, is_match, make_row};
use std::alloc::{AllocError, Global};

fn is_same_datum(a: Datum<'_>, b: Datum<'_>) -> bool
    ensures { result ≡ is_same_value (seen a.entry) (seen b.entry) }
{
    order(a, b).is_eq()
}

/// The value of the primary key.
fn key<'a>(schema: &Schema, row: &'a Row) -> Datum<'a>
    ensures { seen result ≡ key_of schema.now row.now }
{
    at_place(row, usize::from(schema.primary))
}

fn has_this_key(schema: &Schema, row: &Row, value: &Value) -> bool
    ensures { result ≡ is_same_value (key_of schema.now row.now) value.now }
{
    is_same_datum(key(schema, row), of_value(value))
}

fn any_has_key(schema: &Schema, rows: &[Row], value: &Value) -> bool
    ensures { result ≡ has_key schema.now value.now rows.now }
{
    rows.iter().any(|row| has_this_key(schema, row, value))
}

/// A row whose key none of the rows has, or its refusal.
fn check_key(
    schema: &Schema,
    rows: &Rows,
    added: &[Row],
    row: Row,
) -> Result<Result<Row, SqlError>, AllocError>
    ensures { IfOk result (λ answer. answer ≡ new_row schema.now (rows.now ++ added.now) row) }
{
    let value = to_value(key(schema, &row))?;
    if any_has_key(schema, rows.as_slice(), &value) {
        return Ok(Err(SqlError::Duplicate { key: value }));
    }
    if any_has_key(schema, added, &value) {
        return Ok(Err(SqlError::Duplicate { key: value }));
    }
    Ok(Ok(row))
}

/// The row of a tuple that goes to the rows of a table and those added before it, or its refusal.
fn row_of(
    alloc: Global,
    schema: &Schema,
    names: &Option<Names>,
    rows: &Rows,
    added: &[Row],
    tuple: &Literals,
) -> Result<Result<Row, SqlError>, AllocError>
    ensures { IfOk result (λ answer. answer ≡ row_for schema.now names.now (rows.now ++ added.now) tuple.now) }
{
    match make_row(alloc, &schema.columns, names, tuple)? {
        Ok(row) => check_key(schema, rows, added, row),
        Err(error) => Ok(Err(error)),
    }
}

/// The changes that put these rows into a table.
fn puts(alloc: Global, table: u8, rows: Vec<Row>) -> Result<Changes, AllocError>
    ensures { IfOk result (λ changes. changes ≡ map (λ row. Change.Put table row) rows.items) }
{
    let mut changes = Vec::new(alloc);
    for row in rows {
        changes.push(Change::Put { table, row })?;
    }
    Ok(Listed::from_vec(changes))
}

/// INSERT, tuple by tuple.
pub fn insert(
    alloc: Global,
    table: u8,
    schema: &Schema,
    names: &Option<Names>,
    rows: &Rows,
    tuples: &Tuples,
) -> Result<Written, AllocError>
    ensures { IfOk result (λ written. written ≡ inserted table schema.now names.now rows.now tuples.now) }
{
    let mut added = Vec::new(alloc);
    for tuple in tuples.as_slice() {
        if let Some(error) = add_row(alloc, schema, names, rows, &mut added, tuple)? {
            return put(alloc, table, added, Some(error));
        }
    }
    put(alloc, table, added, None)
}

/// Adds the row of a tuple, or gives its refusal.
fn add_row(
    alloc: Global,
    schema: &Schema,
    names: &Option<Names>,
    rows: &Rows,
    added: &mut Vec<Row>,
    tuple: &Literals,
) -> Result<Option<SqlError>, AllocError>
    ensures added { IfOk result (λ refusal. IfNone refusal ((row : List Value)
        × (row_for schema.now names.now (rows.now ++ added.old.items) tuple.now ≡ Ok row) × (added.new.items ≡ added.old.items ++ row ∷ []))) }
    ensures refused { IfOk result (λ refusal. IfSome refusal (λ error. (row_for schema.now names.now (rows.now ++ added.old.items) tuple.now ≡ Err error) × (added.new ≡ added.old))) }
{
    match row_of(alloc, schema, names, rows, added, tuple)? {
        Ok(row) => {
            added.push(row)?;
            Ok(None)
        }
        Err(error) => Ok(Some(error)),
    }
}

/// Rows are put, and then a refusal may come.
fn put(
    alloc: Global,
    table: u8,
    rows: Vec<Row>,
    refusal: Option<SqlError>,
) -> Result<Written, AllocError>
    ensures { IfOk result (λ written. written ≡ record { changes = map (λ row. Change.Put table row) rows.items; refusal = refusal }) }
{
    Ok(Written {
        changes: puts(alloc, table, rows)?,
        refusal,
    })
}

/// Whether two rows have the same values.
#[tactic(auto, using(crate::proofs::Rows::different_lengths))]
fn is_same(a: &Row, b: &Row) -> bool
    ensures { result ≡ is_same_row a.now b.now }
{
    if a.len() != b.len() {
        return false;
    }
    for (place, value) in a.as_slice().iter().enumerate() {
        if !is_same_datum(of_value(value), at_place(b, place)) {
            return false;
        }
    }
    true
}

/// What an UPDATE changes of a row: nothing, or the whole row.
fn update_row(
    table: u8,
    schema: &Schema,
    sets: &Sets,
    row: &Row,
) -> Result<Result<Option<Change>, SqlError>, AllocError>
    ensures { IfOk result (λ answer. answer ≡ row_update table schema.now sets.now row.now) }
{
    match assign_all(&schema.columns, row.copied()?, sets)? {
        Ok(after) => Ok(Ok(change(table, row, after))),
        Err(error) => Ok(Err(error)),
    }
}

fn change(table: u8, row: &Row, after: Row) -> Option<Change>
    ensures { result ≡ change_to table row.now after }
{
    if is_same(row, &after) {
        return None;
    }
    Some(Change::Put { table, row: after })
}

/// UPDATE of the rows that match, row by row.
pub fn update(
    alloc: Global,
    table: u8,
    schema: &Schema,
    sets: &Sets,
    filter: &Option<Filter>,
    rows: &Rows,
) -> Result<Written, AllocError>
    ensures { IfOk result (λ written. written ≡ updated table schema.now sets.now (matching schema.now.columns filter.now rows.now)) }
{
    let mut changes = Vec::new(alloc);
    for row in rows.as_slice() {
        if !is_match(&schema.columns, filter, row) {
            continue;
        }
        if let Some(error) = add_update(table, schema, sets, row, &mut changes)? {
            return Ok(written(changes, Some(error)));
        }
    }
    Ok(written(changes, None))
}

/// Adds what an UPDATE changes of a row, or gives its refusal.
fn add_update(
    table: u8,
    schema: &Schema,
    sets: &Sets,
    row: &Row,
    changes: &mut Vec<Change>,
) -> Result<Option<SqlError>, AllocError>
    ensures changed { IfOk result (λ refusal. IfNone refusal ((change : Option Change) × (row_update table schema.now sets.now row.now ≡ Ok change)
        × (changes.new.items ≡ changes.old.items ++ option_to_list change))) }
    ensures refused { IfOk result (λ refusal. IfSome refusal (λ error. (row_update table schema.now sets.now row.now ≡ Err error)
        × (changes.new ≡ changes.old))) }
{
    match update_row(table, schema, sets, row)? {
        Ok(Some(change)) => {
            changes.push(change)?;
            Ok(None)
        }
        Ok(None) => Ok(None),
        Err(error) => Ok(Some(error)),
    }
}

/// Changes are made, and then a refusal may come.
fn written(changes: Vec<Change>, refusal: Option<SqlError>) -> Written
    ensures { result ≡ record { changes = changes.items; refusal = refusal } }
{
    Written {
        changes: Listed::from_vec(changes),
        refusal,
    }
}

/// DELETE of the rows that match.
pub fn delete(
    alloc: Global,
    table: u8,
    schema: &Schema,
    filter: &Option<Filter>,
    rows: &Rows,
) -> Result<Changes, AllocError>
    ensures { IfOk result (λ changes. changes ≡ deleted table schema.now (matching schema.now.columns filter.now rows.now)) }
{
    let mut changes = Vec::new(alloc);
    for row in rows.as_slice() {
        if is_match(&schema.columns, filter, row) {
            add_removal(table, schema, row, &mut changes)?;
        }
    }
    Ok(Listed::from_vec(changes))
}

fn add_removal(
    table: u8,
    schema: &Schema,
    row: &Row,
    changes: &mut Vec<Change>,
) -> Result<(), AllocError>
    ensures { OnOk result (changes.new.items ≡ changes.old.items ++ Change.Remove table (key_of schema.now row.now) ∷ []) }
{
    let key = to_value(key(schema, row))?;
    changes.push(Change::Remove { table, key })?;
    Ok(())
}
