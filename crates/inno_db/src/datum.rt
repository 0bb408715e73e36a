//! Values that are looked at where they stand, in a row or in a statement, and their order.
//! None owns what it shows; `to_value` alone takes memory.

ghost use Rattle.std.specs.Prelude.{◌≡◌, IfOk, slice_index_or};
ghost use Rattle.inno_db.specs.Database.{value_cmp};
ghost use Rattle.inno_db.specs.Conditions.{is_null};
ghost use Rattle.inno_db.specs.Seen.{seen};

use inno_types::{Bytes, Row, Value};
use std::alloc::AllocError;
use std::cmp::Ordering;

/// A value, seen where it stands.
#[derive(Clone, Copy)]
pub enum Datum<'a> {
    Null,
    Int(i64),
    Text(&'a Bytes),
}

pub fn of_value(value: &Value) -> Datum<'_>
    ensures { seen result ≡ value.now }
{
    match value {
        Value::Null => Datum::Null,
        Value::Int(number) => Datum::Int(*number),
        Value::Text(text) => Datum::Text(text),
    }
}

/// The value at a place of a row, or NULL.
pub fn at_place(row: &Row, place: usize) -> Datum<'_>
    ensures { seen result ≡ slice_index_or row.now place Value.Null }
{
    match row.as_slice().get(place) {
        Some(value) => of_value(value),
        None => Datum::Null,
    }
}

/// The order of two values: NULL stands first, then numbers, then texts.
pub fn order(left: Datum<'_>, right: Datum<'_>) -> Ordering
    ensures { result ≡ value_cmp (seen left.entry) (seen right.entry) }
{
    match left {
        Datum::Null => match right {
            Datum::Null => Ordering::Equal,
            Datum::Int(_) | Datum::Text(_) => Ordering::Less,
        },
        Datum::Int(a) => match right {
            Datum::Null => Ordering::Greater,
            Datum::Int(b) => a.cmp(&b),
            Datum::Text(_) => Ordering::Less,
        },
        Datum::Text(a) => match right {
            Datum::Null | Datum::Int(_) => Ordering::Greater,
            Datum::Text(b) => a.as_slice().cmp(&b.as_slice()),
        },
    }
}

pub fn is_null_datum(datum: Datum<'_>) -> bool
    ensures { result ≡ is_null (seen datum.entry) }
{
    match datum {
        Datum::Null => true,
        Datum::Int(_) | Datum::Text(_) => false,
    }
}

/// The same value, on its own.
pub fn to_value(datum: Datum<'_>) -> Result<Value, AllocError>
    ensures { IfOk result (λ value. value ≡ seen datum.entry) }
{
    match datum {
        Datum::Null => Ok(Value::Null),
        Datum::Int(number) => Ok(Value::Int(number)),
        Datum::Text(text) => Ok(Value::Text(text.copied()?)),
    }
}
