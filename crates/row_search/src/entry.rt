//! Whether a key of an index is that of a row. It is read beside the row's value, so that no memory is taken for a row
//! that isn't kept.

ghost use Rattle.std.specs.Prelude.{◌≡◌, ◌≤◌, ◌++◌, ◌∷◌, [], length};
ghost use Rattle.key_codec.specs.Keys.{IsOfKind, IsOfKindOrNull, padded, raised, key_code, entry_front};
ghost use Rattle.row_search.specs.Owners.{TellsSame, IsOwner, IsEntryOf};

use inno_types::{Kind, Row, Schema, Value};
use key_codec::{key_len, padded_text, u64_of};

/// Whether these bytes are the text, zeros up to the size, and the text's length.
fn is_text(key: &[u8], text: &[u8], size: u8) -> bool
    ensures { length text.now ≤ size → TellsSame (padded size text.now ++ length text.now ∷ []) key.now result }
{
    let Some((len, front)) = key.split_last() else {
        return false;
    };
    if front.len() != usize::from(size) {
        return false;
    }
    match padded_text(front, *len) {
        Some(found) => found == text,
        None => false,
    }
}

/// A number as its key has it: the least one is 0.
fn key_number(number: i64) -> u64
    ensures { result ≡ raised number }
{
    number.cast_unsigned().wrapping_add(1 << 63)
}

/// Whether these bytes are the number's key.
fn is_number(key: &[u8], number: i64) -> bool
    ensures { TellsSame (key_code Kind.BigInt (Value.Int number)) key.now result }
{
    let raised = key_number(number);
    match u64_of(key) {
        Some(found) => found == raised,
        None => false,
    }
}

/// Whether these bytes are the value's key.
fn is_key(key: &[u8], value: &Value, kind: Kind) -> bool
    ensures { IsOfKind kind value.now → TellsSame (key_code kind value.now) key.now result }
{
    match (value, kind) {
        (Value::Int(number), Kind::BigInt) => is_number(key, *number),
        (Value::Text(text), Kind::VarBinary(size)) => is_text(key, text.as_slice(), size),
        _ => false,
    }
}

/// Whether these bytes are what stands before the primary key in the value's entry.
fn is_front(front: &[u8], value: &Value, kind: Kind) -> bool
    ensures { IsOfKindOrNull kind value.now → TellsSame (entry_front kind value.now) front.now result }
{
    let Some((flag, key)) = front.split_first() else {
        return false;
    };
    match value {
        Value::Null => {
            *flag == 0 && key.len() == key_len(kind) && key.iter().all(|byte| *byte == 0)
        }
        present => *flag == 1 && is_key(key, present, kind),
    }
}

/// Whether the entry is that of this value and this primary key.
fn is_entry(entry: &[u8], value: &Value, kind: Kind, primary: &[u8]) -> bool
    ensures { IsEntryOf kind value.now primary.now entry.now result }
{
    match entry.strip_suffix(primary) {
        Some(front) => is_front(front, value, kind),
        None => false,
    }
}

/// Whether the key in the index of this number is that of the row, which has this primary key. The clustered index has no
/// other keys than those of rows.
pub fn is_entry_of(schema: &Schema, which: u8, entry: &[u8], primary: &[u8], row: &Row) -> bool
    ensures { IsOwner schema.now which primary.now entry.now row.now result }
{
    if which == 0 {
        return true;
    }
    let Some(key) = schema.keys.as_slice().get(usize::from(which - 1)) else {
        return false;
    };
    let column = usize::from(key.column);
    let Some(indexed) = schema.columns.as_slice().get(column) else {
        return false;
    };
    match row.as_slice().get(column) {
        Some(value) => is_entry(entry, value, indexed.kind, primary),
        None => is_entry(entry, &Value::Null, indexed.kind, primary),
    }
}
