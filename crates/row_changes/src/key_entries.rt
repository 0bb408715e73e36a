//! The entries that the rows before and after a change have in the first key whose value doesn't stay.
//! `keys_change` alone asks; rows and tables are read here, and no world is met.

ghost use Rattle.std.specs.Prelude.{◌≡◌, ◌≤◌, ◌<◌, ℕ, Some, length, IfOk, IfSome, MatchOption};
ghost use Rattle.row_codec.specs.Rows.{IsRowOf};
ghost use Rattle.law_stored_rows.specs.Edits.{key_index};
ghost use Rattle.row_changes.specs.Keys.{value_stays, StayBetween, IsFirstToChange, IsEntryIn, IsEntryFor, AreEntries, HasColumnOf};

use inno_db::{at_place, index_number, order, to_value};
use inno_types::{Bytes, Row, Schema};
use key_codec::put_entry;
use std::alloc::Global;
use store_api::NoMemory;

/// The entries of the old and of the new row in one key.
#[derive(Drop)]
pub struct KeyEntries {
    pub which: usize,
    pub old: Option<Bytes>,
    pub new: Option<Bytes>,
}

/// The entries in the first key from this one on whose value doesn't stay, if there is one.
pub fn next_entries(
    alloc: Global,
    schema: &Schema,
    from: usize,
    before: &Option<Row>,
    after: &Option<Row>,
    primary: &Bytes,
) -> Result<Option<KeyEntries>, NoMemory>
    requires from { from ≤ length schema.now.keys }
    requires before { IfSome before.now (IsRowOf schema.now.columns) }
    requires after { IfSome after.now (IsRowOf schema.now.columns) }
    requires keys { (which : ℕ) → which < length schema.now.keys → HasColumnOf schema.now which }
    ensures { IfOk result (λ found. MatchOption found (StayBetween schema.now from (length schema.now.keys) before.now after.now) (AreEntries schema.now from before.now after.now primary.now)) }
{
    let which = first_to_change(schema, from, before, after);
    if which == schema.keys.len() {
        return Ok(None);
    }
    let old = entry_for(alloc, schema, which, before, primary)?;
    let new = entry_for(alloc, schema, which, after, primary)?;
    Ok(Some(KeyEntries { which, old, new }))
}

/// The first key from this one on whose value doesn't stay, or the count of keys.
fn first_to_change(schema: &Schema, from: usize, before: &Option<Row>, after: &Option<Row>) -> usize
    requires { from ≤ length schema.now.keys }
    ensures { IsFirstToChange schema.now from before.now after.now result }
{
    let keys = schema.keys.as_slice();
    for which in from..keys.len() {
        if !value_stays(keys[which].column, before, after) {
            return which;
        }
    }
    keys.len()
}

/// Whether the key on this column has the same to say of both.
fn value_stays(column: u8, before: &Option<Row>, after: &Option<Row>) -> bool
    ensures { result ≡ value_stays column before.now after.now }
{
    let place = usize::from(column);
    match (before, after) {
        (Some(old), Some(new)) => order(at_place(old, place), at_place(new, place)).is_eq(),
        (None, None) => true,
        _ => false,
    }
}

/// The entry of the row in the key of this number, if there is a row.
fn entry_for(
    alloc: Global,
    schema: &Schema,
    which: usize,
    row: &Option<Row>,
    primary: &Bytes,
) -> Result<Option<Bytes>, NoMemory>
    requires row { IfSome row.now (IsRowOf schema.now.columns) }
    requires key { HasColumnOf schema.now which }
    ensures { IfOk result (IsEntryFor schema.now which row.now primary.now) }
{
    match row {
        Some(values) => Ok(Some(entry_of(alloc, schema, which, values, primary)?)),
        None => Ok(None),
    }
}

fn entry_of(
    alloc: Global,
    schema: &Schema,
    which: usize,
    row: &Row,
    primary: &Bytes,
) -> Result<Bytes, NoMemory>
    requires row { IsRowOf schema.now.columns row.now }
    requires key { HasColumnOf schema.now which }
    ensures { IfOk result (IsEntryIn schema.now which row.now primary.now) }
{
    let place = usize::from(schema.keys.as_slice()[which].column);
    let column = &schema.columns.as_slice()[place];
    let value = to_value(at_place(row, place))?;
    let mut entry = Bytes::new(alloc);
    put_entry(&value, column.kind, primary, &mut entry)?;
    Ok(entry)
}

/// The number of the index of a table's key.
pub fn index_of_key(table: u8, which: usize) -> u32
    requires { which < 4 }
    ensures { result ≡ key_index table which }
{
    index_number(table, 1 + which as u8)
}
