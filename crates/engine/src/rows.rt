//! Whether a row is one of its table: a value for each column, of its kind. Nothing here knows where the row came from.
//! `lay` alone asks, of each row before it is put.

ghost use Rattle.std.specs.Prelude.{◌↔◌, IsTrue, All};
ghost use Rattle.key_codec.specs.Keys.{Has64Bits};
ghost use Rattle.row_codec.specs.Rows.{FitsColumn, IsRowOf};

use inno_types::{Column, Kind, Value};

/// Whether the column may hold the value.
fn value_fits(column: &Column, value: &Value) -> bool
    ensures fits { IsTrue result ↔ FitsColumn column.now value.now }
    ensures range { IsTrue result → Has64Bits value.now }
{
    match (column.kind, value) {
        (_, Value::Null) => !column.not_null,
        (Kind::BigInt, Value::Int(number)) => {
            // A number that is read has 64 bits.
            let _number = *number;
            true
        }
        (Kind::VarBinary(size), Value::Text(text)) => text.len() <= usize::from(size),
        (Kind::BigInt, Value::Text(_)) | (Kind::VarBinary(_), Value::Int(_)) => false,
    }
}

/// Whether the row has one value for each column, in order.
pub fn row_fits(columns: &[Column], row: &[Value]) -> bool
    ensures fits { IsTrue result ↔ IsRowOf columns.now row.now }
    ensures range { IsTrue result → All Has64Bits row.now }
{
    if columns.len() != row.len() {
        return false;
    }
    for (place, value) in row.iter().enumerate() {
        if !value_fits(&columns[place], value) {
            return false;
        }
    }
    true
}
