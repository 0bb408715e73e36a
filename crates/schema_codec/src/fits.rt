//! Whether the numbers of a schema fit their fields. Only such a schema may be spelled:
//! who has made one asks here before `put_schema`.

ghost use Rattle.std.specs.Prelude.{◌↔◌, IsTrue};
ghost use Rattle.schema_codec.specs.Schema.{IsCounted, IsColumn, IsKey, IsSchema};

use inno_types::{Column, Key, Kind, Schema};

fn column_fits(column: &Column) -> bool
    ensures { IsTrue result ↔ IsColumn column.now }
{
    match column.kind {
        Kind::BigInt => column.name.len() < 256,
        Kind::VarBinary(_size) => column.name.len() < 256,
    }
}

fn key_fits(key: &Key) -> bool
    ensures { IsTrue result ↔ IsKey key.now }
{
    let _column = key.column;
    key.name.len() < 256
}

fn columns_fit(items: &[Column]) -> bool
    ensures { IsTrue result ↔ IsCounted IsColumn items.now }
{
    for item in items {
        if !column_fits(item) {
            return false;
        }
    }
    items.len() < 256
}

fn keys_fit(items: &[Key]) -> bool
    ensures { IsTrue result ↔ IsCounted IsKey items.now }
{
    for item in items {
        if !key_fits(item) {
            return false;
        }
    }
    items.len() < 256
}

/// Whether the schema has a spelling.
pub fn schema_fits(schema: &Schema) -> bool
    ensures { IsTrue result ↔ IsSchema schema.now }
{
    let _primary = schema.primary;
    schema.name.len() < 256
        && columns_fit(schema.columns.as_slice())
        && keys_fit(schema.keys.as_slice())
}
