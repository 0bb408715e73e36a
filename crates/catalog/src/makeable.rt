//! Whether a CREATE TABLE could make a table of this schema.
//! `load` asks this of each table that it finds, and whoever calls `create` may ask it first.

ghost use Rattle.std.specs.Prelude.{◌≡◌, ◌≤◌, ◌&&◌, length, slice_get};
ghost use Rattle.std.specs.List.{list_all, list_any};
ghost use Rattle.std.specs.Str.{str_eq_ignore_ascii_case};
ghost use Rattle.inno_db.specs.Declarations.{has_twins, is_sized, is_indexable, key_bytes, row_bytes, are_good_columns};
ghost use Rattle.catalog.specs.Makeable.{is_name, are_named, takes_no_null, has_primary, has_good_keys, is_narrow, is_makeable};

use inno_db::{MOST_BYTES_OF_ROW, MOST_COLUMNS, MOST_KEYS, is_short, is_sized};
use inno_types::{Bytes, Column, Kind, Schema};

/// The most bytes of a name.
const MOST_BYTES_OF_NAME: usize = 64;

/// The longest VARBINARY.
const MOST_BYTES_OF_TEXT: usize = 255;

fn is_good_name(name: &Bytes) -> bool
    ensures { result ≡ is_name name.now }
{
    let len = name.len();
    0 < len && len <= MOST_BYTES_OF_NAME
}

fn good_names(schema: &Schema) -> bool
    ensures { result ≡ are_named schema.now }
{
    is_good_name(&schema.name) && good_columns_names(schema) && good_keys_names(schema)
}

fn good_columns_names(schema: &Schema) -> bool
    ensures { result ≡ list_all (λ c. is_name c.name) schema.now.columns }
{
    schema
        .columns
        .as_slice()
        .iter()
        .all(|column| is_good_name(&column.name))
}

fn good_keys_names(schema: &Schema) -> bool
    ensures { result ≡ list_all (λ k. is_name k.name) schema.now.keys }
{
    schema
        .keys
        .as_slice()
        .iter()
        .all(|key| is_good_name(&key.name))
}

fn is_narrow_enough(kind: Kind) -> bool
    ensures { result ≡ is_narrow kind }
{
    match kind {
        Kind::BigInt => true,
        Kind::VarBinary(size) => usize::from(size) <= MOST_BYTES_OF_TEXT,
    }
}

/// How many bytes a value has as a key.
pub fn bytes_of_key(kind: Kind) -> u16
    ensures exact { result ≡ key_bytes kind }
    ensures small { result ≤ 256 }
{
    match kind {
        Kind::BigInt => 8,
        Kind::VarBinary(size) => u16::from(size) + 1,
    }
}

/// How many bytes the key and the fields of a row have.
pub fn bytes_of_row(columns: &[Column]) -> usize
    requires { length columns.now ≤ MOST_COLUMNS }
    ensures { result ≡ row_bytes columns.now }
{
    let fields: usize = columns
        .iter()
        .map(|column| usize::from(bytes_of_key(column.kind)) + 1)
        .sum();
    fields.saturating_sub(1)
}

fn is_listed(columns: &[Column], name: &Bytes) -> bool
    ensures { result ≡ list_any (λ c. str_eq_ignore_ascii_case c.name name.now) columns.now }
{
    columns.iter().any(|column| column.name.as_slice().eq_ignore_ascii_case(name.as_slice()))
}

fn names_twice(columns: &[Column]) -> bool
    ensures { result ≡ has_twins columns.now }
{
    for (place, column) in columns.iter().enumerate() {
        if is_listed(&columns[place + 1..], &column.name) {
            return true;
        }
    }
    false
}

fn are_large_enough(columns: &[Column]) -> bool
    ensures { result ≡ list_all (λ c. is_sized c.kind) columns.now }
{
    columns.iter().all(|column| is_sized(column.kind))
}

fn are_narrow_enough(columns: &[Column]) -> bool
    ensures { result ≡ list_all (λ c. is_narrow c.kind) columns.now }
{
    columns.iter().all(|column| is_narrow_enough(column.kind))
}

fn good_columns(columns: &[Column]) -> bool
    ensures { result ≡ are_good_columns columns.now }
{
    columns.len() <= MOST_COLUMNS
        && !names_twice(columns)
        && are_large_enough(columns)
        && bytes_of_row(columns) <= MOST_BYTES_OF_ROW
}

fn can_be_indexed(columns: &[Column], place: u8) -> bool
    ensures { result ≡ is_indexable (slice_get columns.now place) }
{
    match columns.get(usize::from(place)) {
        Some(column) => is_short(column.kind),
        None => false,
    }
}

fn refuses_null(columns: &[Column], place: u8) -> bool
    ensures { result ≡ takes_no_null (slice_get columns.now place) }
{
    match columns.get(usize::from(place)) {
        Some(column) => column.not_null,
        None => false,
    }
}

fn good_primary(schema: &Schema) -> bool
    ensures { result ≡ has_primary schema.now.columns schema.now.primary }
{
    let columns = schema.columns.as_slice();
    can_be_indexed(columns, schema.primary) && refuses_null(columns, schema.primary)
}

fn all_can_be_indexed(schema: &Schema) -> bool
    ensures { result ≡ list_all (λ k. is_indexable (slice_get schema.now.columns k.column)) schema.now.keys }
{
    let columns = schema.columns.as_slice();
    schema
        .keys
        .as_slice()
        .iter()
        .all(|key| can_be_indexed(columns, key.column))
}

fn good_keys(schema: &Schema) -> bool
    ensures { result ≡ has_good_keys schema.now }
{
    schema.keys.len() <= MOST_KEYS && all_can_be_indexed(schema)
}

/// Whether a CREATE TABLE could make this schema.
pub fn could_be_made(schema: &Schema) -> bool
    ensures { result ≡ is_makeable schema.now }
{
    good_columns(schema.columns.as_slice())
        && are_narrow_enough(schema.columns.as_slice())
        && good_names(schema)
        && good_primary(schema)
        && good_keys(schema)
}
