//! A table's rows in the order of their keys. A database puts and removes its rows here, each found by halves.
//! `Db` alone may put and remove; `key_of_row` is open to all.

ghost use Rattle.std.specs.Prelude.{◌≡◌, length, OnOk, OnErr};
ghost use Rattle.std.specs.List.Sorted.{IsBinarySearchResult, IsSearchInRange};
ghost use Rattle.inno_db.specs.Database.{key_of, value_cmp};
ghost use Rattle.inno_db.specs.Keeping.{AreRising, with_row, without_key};
ghost use Rattle.inno_db.specs.Seen.{seen};

use crate::datum::{Datum, at_place, of_value, order};
use inno_types::{Row, Schema, Value};
use std::alloc::AllocError;
use std::cmp::Ordering;

/// The value of a row's primary key.
pub fn key_of_row<'a>(schema: &Schema, row: &'a Row) -> Datum<'a>
    ensures { seen result ≡ key_of schema.now row.now }
{
    at_place(row, usize::from(schema.primary))
}

/// Where a key stands among rows in the order of their keys: at the row that has it, or before the first greater one. It
/// halves the rows in question each time.
fn place_of_key(schema: &Schema, rows: &[Row], key: Datum<'_>) -> Result<usize, usize>
    ensures within { IsSearchInRange result (length rows.now) }
    ensures place { IsBinarySearchResult (λ row. value_cmp (key_of schema.now row) (seen key.entry)) rows.now result }
{
    rows.binary_search_by(
        |row: &Row| -> Ordering
            ensures { result ≡ value_cmp (key_of schema.entry.now row.now) (seen key.entry) }
        { order(key_of_row(schema, row), key) },
    )
}

/// Puts a row at its key. An `Err` changes nothing.
pub fn put_row(schema: &Schema, rows: &mut Vec<Row>, row: Row) -> Result<(), AllocError>
    requires rising { AreRising schema.now rows.old.items }
    ensures ok { OnOk result (rows.new.items ≡ with_row schema.now row rows.old.items) }
    ensures err { OnErr result (rows.new.items ≡ rows.old.items) }
{
    match place_of_key(schema, rows.as_slice(), key_of_row(schema, &row)) {
        Ok(place) => {
            rows[place] = row;
            Ok(())
        }
        Err(place) => {
            rows.insert(place, row)?;
            Ok(())
        }
    }
}

/// Removes the row of a key, if there is one.
pub fn remove_row(schema: &Schema, rows: &mut Vec<Row>, key: &Value)
    requires rising { AreRising schema.now rows.old.items }
    ensures { rows.new.items ≡ without_key schema.now key.now rows.old.items }
{
    if let Ok(place) = place_of_key(schema, rows.as_slice(), of_value(key)) {
        drop(rows.remove(place));
    }
}
