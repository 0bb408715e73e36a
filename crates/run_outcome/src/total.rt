//! What the accounts of a database hold together.
//! `line` alone asks. The table and its column are found by name, and no row is changed.

ghost use Rattle.std.specs.Prelude.{◌≡◌, ℤ, IfOk, codes};
ghost use Rattle.inno_db.specs.Names.{table_place, column_place};
ghost use Rattle.run_outcome.specs.Report.{amount_of, amount_at, sum_at, balance_place, bigint_at, total_of};

use inno_db::Db;
use inno_types::{Columns, Kind, Listed, Row, Rows, Schema, Value};
use store_api::NoMemory;

/// The sum of the column `bal` of the table `acct`, or 0 where there is no such column of numbers.
pub(crate) fn total_of(db: &Db) -> Result<i128, NoMemory>
    ensures { IfOk result (λ total. total ≡ total_of db.now) }
{
    let schemas = db.schemas();
    match place_of_table(schemas) {
        Some(table) => match place_of_balance(&schemas.as_slice()[table].columns) {
            Some(place) => sum_at(place, db.rows(table)),
            None => Ok(0),
        },
        None => Ok(0),
    }
}

fn place_of_table(schemas: &Listed<Schema>) -> Option<usize>
    ensures { result ≡ table_place schemas.now (codes "acct") }
{
    schemas
        .as_slice()
        .iter()
        .position(|schema| schema.name.as_slice() == "acct".as_bytes())
}

/// The place of the column `bal`, if it is one of numbers.
fn place_of_balance(columns: &Columns) -> Option<usize>
    ensures { result ≡ balance_place columns.now }
{
    match place_of_column(columns) {
        Some(place) => match columns.as_slice()[place].kind {
            Kind::BigInt => Some(place),
            Kind::VarBinary(_) => None,
        },
        None => None,
    }
}

fn place_of_column(columns: &Columns) -> Option<usize>
    ensures { result ≡ column_place columns.now (codes "bal") }
{
    columns.as_slice().iter().position(|column| {
        column
            .name
            .as_slice()
            .eq_ignore_ascii_case("bal".as_bytes())
    })
}

/// The sum of a column. It has 128 bits, which so many rows don't fill.
fn sum_at(place: usize, rows: &Rows) -> Result<i128, NoMemory>
    ensures { IfOk result (λ sum. sum ≡ sum_at place rows.now) }
{
    let mut sum = 0i128;
    for row in rows.as_slice() {
        match sum.checked_add(i128::from(amount_at(place, row))) {
            Some(more) => sum = more,
            None => return Err(NoMemory),
        }
    }
    Ok(sum)
}

/// The number that a row has at a place; where it has none, 0.
fn amount_at(place: usize, row: &Row) -> i64
    ensures { result ≡ amount_at place row.now }
{
    match row.as_slice().get(place) {
        Some(value) => amount_of(value),
        None => 0,
    }
}

fn amount_of(value: &Value) -> i64
    ensures { result ≡ amount_of value.now }
{
    match value {
        Value::Int(n) => *n,
        Value::Null | Value::Text(_) => 0,
    }
}
