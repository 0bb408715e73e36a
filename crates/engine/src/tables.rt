//! Which tables an engine of this version makes: the log can make them, and what an index is given of their rows is short.
//! Nothing here looks at a row.

ghost use Rattle.std.specs.Prelude.{◌≡◌, ◌+◌, ◌<◌, ◌≤◌, ◌↔◌, IsTrue, All, length, remove, sum_by};
ghost use Rattle.inno_db.specs.declared.limits.TheConstants.{MOST_COLUMNS};
ghost use Rattle.key_codec.specs.Keys.{key_width};
ghost use Rattle.law_stored_rows.specs.Storable.{IsKeyOn, IsStorable};
ghost use Rattle.engine.specs.Fit.{CanBeMade};

use commit_log::is_loggable;
use inno_db::{MOST_BYTES_OF_INDEX, MOST_KEYS};
use inno_types::{Column, Key, Kind, Schema};
use key_codec::key_len;
use store_api::{MOST_BYTES_OF_KEY, MOST_BYTES_OF_VALUE};

/// The bytes of the fields of these columns, each with its flag.
fn fields_len(columns: &[Column]) -> usize
    requires { length columns.now ≤ MOST_COLUMNS }
    ensures sum { result ≡ sum_by (λ column. 1 + key_width column.kind) columns.now }
    // At most 16 fields of at most 257 bytes.
    ensures small { result ≤ 4112 }
{
    let mut len = 0;
    for column in columns {
        len += 1 + key_len(column.kind);
    }
    len
}

/// The bytes of the value of a record: mark, writer and roll pointer, and the fields of all columns but the primary one.
fn record_len(columns: &[Column], primary: u8) -> usize
    requires few { length columns.now ≤ MOST_COLUMNS }
    requires there { primary < length columns.now }
    ensures { result ≡ 17 + sum_by (λ column. 1 + key_width column.kind) (remove columns.now primary) }
{
    let own = 1 + key_len(columns[usize::from(primary)].kind);
    17 + (fields_len(columns) - own)
}

/// Whether a secondary key is on a column that is there, and has short entries.
fn is_key_on(columns: &[Column], primary: Kind, key: &Key) -> bool
    ensures { IsTrue result ↔ IsKeyOn columns.now primary key.now }
{
    match columns.get(usize::from(key.column)) {
        Some(column) => 1 + key_len(column.kind) + key_len(primary) <= MOST_BYTES_OF_KEY,
        None => false,
    }
}

/// Whether all of these secondary keys are.
fn are_keys_on(columns: &[Column], primary: Kind, keys: &[Key]) -> bool
    ensures { IsTrue result ↔ All (IsKeyOn columns.now primary) keys.now }
{
    for key in keys {
        if !is_key_on(columns, primary, key) {
            return false;
        }
    }
    true
}

/// Whether this column can be the primary one: it takes no NULL, and its keys are short.
fn is_primary(column: &Column) -> bool
    ensures { IsTrue result ↔ (IsTrue column.now.not_null × (key_width column.now.kind ≤ 33)) }
{
    column.not_null && key_len(column.kind) <= usize::from(MOST_BYTES_OF_INDEX) + 1
}

/// Whether an index can hold the table's rows.
fn is_storable(schema: &Schema) -> bool
    requires { length schema.now.columns ≤ MOST_COLUMNS }
    ensures { IsTrue result ↔ IsStorable schema.now }
{
    let columns = schema.columns.as_slice();
    match columns.get(usize::from(schema.primary)) {
        Some(column) => {
            is_primary(column)
                && schema.keys.len() <= MOST_KEYS
                && are_keys_on(columns, column.kind, schema.keys.as_slice())
                && record_len(columns, schema.primary) <= MOST_BYTES_OF_VALUE
        }
        None => false,
    }
}

/// Whether an index can hold the table's rows and the log can make the table.
fn can_be_made(schema: &Schema) -> bool
    ensures { IsTrue result ↔ CanBeMade schema.now }
{
    is_loggable(schema) && is_storable(schema)
}

/// Whether all of these tables can be made.
pub fn all_can_be_made(schemas: &[Schema]) -> bool
    ensures { IsTrue result ↔ All CanBeMade schemas.now }
{
    for schema in schemas {
        if !can_be_made(schema) {
            return false;
        }
    }
    true
}
