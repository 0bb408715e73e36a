//! The database of the tests: t has 200 rows, whose a is the last digit of i, and u has 100, whose a is 7.
//! `opened` alone asks for it; each row comes in by `Opening`, and none from a file.

ghost use Rattle.std.specs.Prelude.{◌≡◌, ◌≤◌, ◌∷◌, [], IfOk};
ghost use Rattle.tests_engine.specs.Tables.{table_named, HasBoth};

use engine::{Opening, PutBad};
use inno_types::{Bytes, Column, Columns, Key, Keys, Kind, Row, Schema, Value};
use std::alloc::{AllocError, Global};
use store_api::NoMemory;

const T: u8 = 0;

const U: u8 = 1;

fn named(alloc: Global, letter: u8) -> Result<Bytes, AllocError>
    ensures { IfOk result (λ name. name ≡ letter ∷ []) }
{
    Ok(Bytes::from_vec(vec![in alloc; letter]?))
}

fn column(alloc: Global, letter: u8, not_null: bool) -> Result<Column, AllocError>
    ensures { IfOk result (λ column. column ≡ record { name = letter ∷ []; kind = Kind.BigInt; not_null = not_null }) }
{
    Ok(Column {
        name: named(alloc, letter)?,
        kind: Kind::BigInt,
        not_null,
    })
}

fn table(alloc: Global, letter: u8) -> Result<Schema, AllocError>
    ensures { IfOk result (λ schema. schema ≡ table_named letter) }
{
    let number = column(alloc, b'i', true)?;
    let other = column(alloc, b'a', false)?;
    let key = Key {
        name: named(alloc, b'a')?,
        column: 1,
    };
    Ok(Schema {
        name: named(alloc, letter)?,
        columns: Columns::from_vec(vec![in alloc; number, other]?),
        primary: 0,
        keys: Keys::from_vec(vec![in alloc; key]?),
    })
}

/// The database with another row of one of its tables.
#[tactic(auto, using(crate::proofs::Fitting::fits_well))]
fn with_row(
    alloc: Global,
    opening: Opening,
    table: u8,
    id: i64,
    a: i64,
) -> Result<Opening, NoMemory>
    requires both { HasBoth opening }
    requires table { table ≤ 1 }
    ensures { IfOk result HasBoth }
{
    let row = Row::from_vec(vec![in alloc; Value::Int(id), Value::Int(a)]?);
    match opening.put(table, row) {
        Ok(opening) => Ok(opening),
        Err(PutBad::RowThere) => Err(NoMemory),
        Err(PutBad::NoMemory) => Err(NoMemory),
    }
}

/// The tables without rows.
#[tactic(auto, using(crate::proofs::Fitting::storable))]
fn tables(alloc: Global) -> Result<Opening, NoMemory>
    ensures { IfOk result HasBoth }
{
    let empty = Opening::new(alloc)?;
    let one = empty.make_table(table(alloc, b't')?)?;
    one.make_table(table(alloc, b'u')?)
}

/// The database with so many rows of t, numbered from 0, whose a is the last digit of i.
fn with_rows_of_t(alloc: Global, opening: Opening, count: i64) -> Result<Opening, NoMemory>
    requires both { HasBoth opening }
    ensures { IfOk result HasBoth }
{
    let mut opening = opening;
    for id in 0..count {
        opening = with_row(alloc, opening, T, id, id % 10)?;
    }
    Ok(opening)
}

/// The database with so many rows of u, numbered from 0, whose a is 7.
fn with_rows_of_u(alloc: Global, opening: Opening, count: i64) -> Result<Opening, NoMemory>
    requires both { HasBoth opening }
    ensures { IfOk result HasBoth }
{
    let mut opening = opening;
    for id in 0..count {
        opening = with_row(alloc, opening, U, id, 7)?;
    }
    Ok(opening)
}

/// The whole database.
pub fn laid_down(alloc: Global) -> Result<Opening, NoMemory>
    ensures { IfOk result HasBoth }
{
    let opening = with_rows_of_t(alloc, tables(alloc)?, 200)?;
    with_rows_of_u(alloc, opening, 100)
}

/// Whether a row that is there is refused.
#[tactic(auto, using(crate::proofs::Fitting::fits_well))]
pub fn refuses_a_row_that_is_there(alloc: Global) -> Result<bool, NoMemory> {
    let opening = with_row(alloc, tables(alloc)?, T, 1, 2)?;
    let row = Row::from_vec(vec![in alloc; Value::Int(1), Value::Int(3)]?);
    match opening.put(T, row) {
        Ok(opening) => {
            drop(opening);
            Ok(false)
        }
        Err(PutBad::RowThere) => Ok(true),
        Err(PutBad::NoMemory) => Err(NoMemory),
    }
}
