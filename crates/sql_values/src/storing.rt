//! The rows that INSERT and UPDATE make. A row is made whole here before anything is changed.
//! The plain interpreter asks for them, and hands them on as changes; nothing is stored here.

ghost use Rattle.std.specs.Prelude.{◌≡◌, ◌++◌, ◌∷◌, [], IfOk, Option, Some, None, slice_get, slice_set, slice_index_or};
ghost use Rattle.inno_db.specs.Expressions.{literal_given, and_then};
ghost use Rattle.inno_db.specs.Seen.{seen};
ghost use Rattle.sql_values.specs.Calculated.{valued};
ghost use Rattle.inno_db.specs.Storing.{misfit, stored, put_in, put_at, assigned, all_assigned, place_in_tuple, literal_at, values_from, row_of_tuple, is_too_long};

use crate::expression::{compute, given};
use crate::names::{place_of_column, place_of_name};
use inno_db::{Datum, of_value, to_value};
use inno_types::{
    Bytes, Column, Columns, Kind, Listed, Literal, Literals, Names, Row, Set, Sets, SqlError, Value,
};
use std::alloc::{AllocError, Global};

fn exceeds(kind: Kind, text: &Bytes) -> bool
    ensures { result ≡ is_too_long kind text.now }
{
    match kind {
        Kind::BigInt => false,
        Kind::VarBinary(size) => usize::from(size) < text.len(),
    }
}

/// Why a column doesn't take a value.
fn misfit_of(column: &Column, datum: Datum<'_>) -> Option<SqlError>
    ensures { result ≡ misfit column.now (seen datum.entry) }
{
    match datum {
        Datum::Null if column.not_null => Some(SqlError::IsNull),
        Datum::Text(text) if exceeds(column.kind, text) => Some(SqlError::TooLong),
        _ => None,
    }
}

/// A value as a column takes it.
fn store(column: &Column, datum: Datum<'_>) -> Result<Result<Value, SqlError>, AllocError>
    ensures { IfOk result (λ answer. answer ≡ stored column.now (seen datum.entry)) }
{
    match misfit_of(column, datum) {
        Some(error) => Ok(Err(error)),
        None => Ok(Ok(to_value(datum)?)),
    }
}

/// A row whose value at a place is replaced, if the column there takes the new one.
fn put(columns: &Columns, row: Row, place: usize, value: Value) -> Result<Row, SqlError>
    ensures { result ≡ put_in (slice_get columns.now place) place row value }
{
    let Some(column) = columns.as_slice().get(place) else {
        return Ok(row);
    };
    match misfit_of(column, of_value(&value)) {
        Some(error) => Err(error),
        None => Ok(replace(row, place, value)),
    }
}

/// A row with another value at a place, if it has that place.
fn replace(row: Row, place: usize, value: Value) -> Row
    ensures { result ≡ slice_set row place value }
{
    let mut values = row.into_vec();
    if place < values.len() {
        values[place] = value;
    }
    Listed::from_vec(values)
}

/// A row after an assignment, or why the assignment is refused.
fn assign(columns: &Columns, row: Row, set: &Set) -> Result<Result<Row, SqlError>, AllocError>
    ensures { IfOk result (λ answer. answer ≡ assigned columns.now row set.now) }
{
    let value = match compute(columns, &row, &set.value) {
        Ok(datum) => to_value(datum)?,
        Err(error) => return Ok(Err(error)),
    };
    match place_of_column(columns, &set.column) {
        Some(place) => Ok(put(columns, row, place, value)),
        None => Ok(Ok(row)),
    }
}

/// A row after some assignments, from left to right, or the first refusal.
pub fn assign_all(
    columns: &Columns,
    row: Row,
    sets: &Sets,
) -> Result<Result<Row, SqlError>, AllocError>
    ensures { IfOk result (λ answer. answer ≡ all_assigned columns.now row sets.now) }
{
    let mut after = row;
    for set in sets.as_slice() {
        after = match assign(columns, after, set)? {
            Ok(after) => after,
            Err(error) => return Ok(Err(error)),
        };
    }
    Ok(Ok(after))
}

/// What a tuple gives for the column at a place: a column that the list leaves out is given NULL.
fn given_for<'a>(
    names: &Option<Names>,
    tuple: &'a Literals,
    place: usize,
    column: &Column,
) -> Result<Datum<'a>, SqlError>
    ensures { valued result ≡ literal_given (literal_at tuple.now (place_in_tuple names.now place column.now)) }
{
    match place_of_value(names, place, column) {
        Some(place) => given_at(tuple, place),
        None => Ok(Datum::Null),
    }
}

fn given_at(tuple: &Literals, place: usize) -> Result<Datum<'_>, SqlError>
    ensures { valued result ≡ literal_given (slice_index_or tuple.now place Literal.Null) }
{
    match tuple.as_slice().get(place) {
        Some(literal) => given(literal),
        None => Ok(Datum::Null),
    }
}

pub fn place_of_value(names: &Option<Names>, place: usize, column: &Column) -> Option<usize>
    ensures { result ≡ place_in_tuple names.now place column.now }
{
    match names {
        Some(names) => place_of_name(names, &column.name),
        None => Some(place),
    }
}

/// The value of a tuple for the column at a place, as the column takes it.
fn value_for(
    names: &Option<Names>,
    tuple: &Literals,
    place: usize,
    column: &Column,
) -> Result<Result<Value, SqlError>, AllocError>
    ensures { IfOk result (λ answer. answer ≡ and_then (literal_given (literal_at tuple.now (place_in_tuple names.now place column.now))) (stored column.now)) }
{
    match given_for(names, tuple, place, column) {
        Ok(datum) => store(column, datum),
        Err(error) => Ok(Err(error)),
    }
}

/// The row of a tuple, or the refusal of its first value that is refused.
pub fn make_row(
    alloc: Global,
    columns: &Columns,
    names: &Option<Names>,
    tuple: &Literals,
) -> Result<Result<Row, SqlError>, AllocError>
    ensures { IfOk result (λ answer. answer ≡ row_of_tuple columns.now names.now tuple.now) }
{
    let mut values = Vec::new(alloc);
    for (place, column) in columns.as_slice().iter().enumerate() {
        match value_for(names, tuple, place, column)? {
            Ok(value) => values.push(value)?,
            Err(error) => return Ok(Err(error)),
        }
    }
    Ok(Ok(Listed::from_vec(values)))
}
