//! The keys at which rows are changed.
//! `steps` alone asks, as a change of a row begins.

ghost use Rattle.std.specs.Prelude.{◌≡◌, IfOk, Some, slice_get};
ghost use Rattle.inno_types.specs.declared.value.Column.{Column};
ghost use Rattle.key_codec.specs.Keys.{IsOfKind, key_code};
ghost use Rattle.row_changes.specs.Rows.{primary_of};

use inno_db::{key_of_row, to_value};
use inno_types::{Bytes, Schema};
use key_codec::put_key;
use row_changes::RowEdit;
use std::alloc::Global;
use store_api::NoMemory;

/// The bytes of the key at which a row is put or removed.
pub fn key_of_edit(alloc: Global, schema: &Schema, edit: &RowEdit) -> Result<Bytes, NoMemory>
    requires { (column : Column) × (slice_get schema.now.columns schema.now.primary ≡ Some column) × IsOfKind column.kind (primary_of schema.now edit.now) }
    ensures { IfOk result (λ bytes. (column : Column) → slice_get schema.now.columns schema.now.primary ≡ Some column → bytes ≡ key_code column.kind (primary_of schema.now edit.now)) }
{
    let kind = schema.columns.as_slice()[schema.primary as usize].kind;
    let mut bytes = Bytes::new(alloc);
    match edit {
        RowEdit::Put(row) => {
            let key = to_value(key_of_row(schema, row))?;
            put_key(&key, kind, &mut bytes)?;
        }
        RowEdit::Remove(key) => put_key(key, kind, &mut bytes)?,
    }
    Ok(bytes)
}
